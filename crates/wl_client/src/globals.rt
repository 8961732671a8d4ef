//! The globals that a client may bind, and what a registry tells of them.

ghost use Rattle.std.specs.Prelude.{◌≡◌, map};
ghost use Rattle.spec_desktop.specs.Objects.{bound_interface, global, globals, is_bound};
ghost use Rattle.spec_desktop.specs.Told.{global_told, registry_told};
ghost use Rattle.wl_client.specs.Said.{global_of, said_of};

use wl_proto::{Event, EventBody, Interface, WlRegistryEvent};

/// A global, by its name.
#[derive(Clone, Copy, Debug)]
pub struct Global {
    pub name: u32,
    pub interface: Interface,
    /// The interface as the protocol spells it.
    pub text: &'static [u8],
    /// The greatest version that it may be bound at.
    pub version: u32,
}

impl Global {
    fn new(name: u32, interface: Interface, text: &'static [u8], version: u32) -> Global
        ensures { global_of result ≡ global name interface text.now version }
    {
        Global {
            name,
            interface,
            text,
            version,
        }
    }

    /// Whether a bind of this name, interface and version is of this global.
    fn is_bound(&self, name: u32, text: &[u8], version: u32) -> bool
        ensures { result ≡ is_bound name text.now version (global_of self.now) }
    {
        name == self.name && text == self.text && 1 <= version && version <= self.version
    }

    /// wl_registry.global of it.
    fn told(&self, registry: u32) -> Event<'static>
        ensures { said_of result ≡ global_told registry (global_of self.now) }
    {
        Event {
            object: registry,
            body: EventBody::WlRegistry(WlRegistryEvent::Global {
                name: self.name,
                interface: self.text,
                version: self.version,
            }),
        }
    }
}

/// The globals, in the order in which they are told.
fn globals() -> [Global; 6]
    ensures { map global_of result ≡ globals }
{
    [
        Global::new(1, Interface::WlCompositor, b"wl_compositor", 4),
        Global::new(2, Interface::WlSubcompositor, b"wl_subcompositor", 1),
        Global::new(3, Interface::WlShm, b"wl_shm", 1),
        Global::new(4, Interface::WlOutput, b"wl_output", 1),
        Global::new(5, Interface::WlSeat, b"wl_seat", 1),
        Global::new(6, Interface::XdgWmBase, b"xdg_wm_base", 3),
    ]
}

/// The interface of the global that a bind names, if it names one at one of its versions.
pub fn interface_bound(name: u32, text: &[u8], version: u32) -> Option<Interface>
    ensures { result ≡ bound_interface name text.now version }
{
    for global in globals().iter() {
        if global.is_bound(name, text, version) {
            return Some(global.interface);
        }
    }
    None
}

/// The events that tell of the globals, in their order.
pub fn globals_told(registry: u32) -> [Event<'static>; 6]
    ensures { map said_of result ≡ registry_told registry }
{
    let [compositor, subcompositor, shm, output, seat, wm_base] = globals();
    [
        compositor.told(registry),
        subcompositor.told(registry),
        shm.told(registry),
        output.told(registry),
        seat.told(registry),
        wm_base.told(registry),
    ]
}
