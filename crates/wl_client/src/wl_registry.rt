//! The request of wl_registry, which lists the globals of the compositor (wayland.xml,
//! wl_registry). A bind makes an object for one of them.

ghost use Rattle.std.specs.Prelude.{◌≡◌, ◌≤◌, length};
ghost use Rattle.spec_desktop.specs.Judgement.{registry_action};

use crate::clients::Client;
use crate::events::{capabilities_told, formats_told, output_told};
use crate::globals::interface_bound;
use spec_desktop::{Action, ErrorCode, Refusal};
use std::alloc::Allocator;
use wl_proto::{Interface, WlRegistryRequest};

/// What a bind asks, if it names a global at one of its versions; else its refusal.
pub(crate) fn action(request: &WlRegistryRequest) -> Result<Action, Refusal>
    ensures { result ≡ registry_action request.now }
{
    match request {
        WlRegistryRequest::Bind {
            name,
            interface,
            version,
            id,
        } => match interface_bound(*name, interface, *version) {
            None => Err(Refusal::of_display(ErrorCode::InvalidObject)),
            Some(interface) => Ok(Action::Bind(*id, interface, *version)),
        },
    }
}

impl<A: Allocator + Copy> Client<A> {
    ghost use Rattle.wl_client.specs.Agreement.{IsPeer};
    ghost use Rattle.spec_desktop.specs.Objects.{entry_at_version};
    ghost use Rattle.wl_table.specs.Objects.{HoldsAt};
    ghost use Rattle.std.specs.Prelude.{Some, None};
    ghost use Rattle.spec_desktop.specs.Peer.{Acts, Peer};
    ghost use Rattle.spec_desktop.specs.declared.actions.Action.TheVariants.{Bind};

    /// Makes the object of a bind, which tells at once what its interface tells then.
    pub(crate) fn bind(&mut self, id: u32, interface: Interface, version: u32)
        ensures acts { (p : Peer) → IsPeer self.old p → (q : Peer) × Acts (Bind id interface version) p q × IsPeer self.new q }
        ensures table { self.new.ended ≡ None → HoldsAt self.old.objects self.new.objects id (Some (entry_at_version interface version)) }
        ensures rest { length self.new.rest ≤ length self.old.rest }
    {
        match interface {
            Interface::WlShm => self.make(id, interface, version, &formats_told(id)),
            Interface::WlSeat => self.make(id, interface, version, &capabilities_told(id)),
            Interface::WlOutput => self.make(id, interface, version, &output_told(id, self.output)),
            _ => self.make(id, interface, version, &[]),
        }
    }
}
