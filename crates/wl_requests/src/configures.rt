//! The configures of role objects: those of toplevels and popups, each followed by that of the
//! xdg_surface (xdg-shell.xml, xdg_surface.configure).

ghost use Rattle.std.specs.Prelude.{◌≡◌, ◌∷◌, ◌++◌, [], None, is_some};
ghost use Rattle.std.specs.Option.{option_and_then, option_map};
ghost use Rattle.wl_client.specs.Agreement.{IsPeer};
ghost use Rattle.wl_client.specs.Said.{said_of};
ghost use Rattle.wl_proto.specs.declared.interface.Interface.TheVariants.{XdgPopup};
ghost use Rattle.spec_desktop.specs.Peer.{Peer, Queues};
ghost use Rattle.spec_desktop.specs.Told.{said};
ghost use Rattle.wl_proto.specs.Messages.{says};
ghost use Rattle.wl_wire.specs.Wire.{Word};
ghost use Rattle.wl_shell.specs.Kept.{kept_of, toplevel_in};
ghost use Rattle.law_desktop.specs.OwnedPopups.{act_told, anew_told};
ghost use Rattle.spec_desktop.specs.Replies.{popup_configured, popup_told};
ghost use Rattle.spec_desktop.specs.Step.{toplevel_configured, xdg_configured};
ghost use Rattle.wl_requests.specs.Residents.{drawn_by, drawn_if, Leaves};

use crate::residents::Resident;
use std::alloc::Allocator;
use wl_proto::{Event, EventBody, XdgPopupEvent, XdgSurfaceEvent, XdgToplevelEvent};
use wl_shell::{Placed, ShellAct};
use wl_surface::SurfaceNo;

/// The state activated (xdg-shell.xml, xdg_toplevel.state), as an array of one word.
const ACTIVATED: [u8; 4] = [4, 0, 0, 0];

/// xdg_toplevel.configure, which leaves the size to the client.
fn toplevel_event(toplevel: u32) -> Event<'static>
    ensures { said_of result ≡ toplevel_configured toplevel }
{
    let configure = XdgToplevelEvent::Configure {
        width: 0,
        height: 0,
        states: &ACTIVATED,
    };
    Event {
        object: toplevel,
        body: EventBody::XdgToplevel(configure),
    }
}

/// xdg_surface.configure.
fn xdg_surface_event(xdg_surface: u32, serial: u32) -> Event<'static>
    ensures { said_of result ≡ xdg_configured xdg_surface serial }
{
    Event {
        object: xdg_surface,
        body: EventBody::XdgSurface(XdgSurfaceEvent::Configure { serial }),
    }
}

/// xdg_popup.configure: where it is placed, relative to the window geometry of its parent, and its
/// size, in pixels.
fn popup_event(popup: u32, placed: Placed) -> Event<'static>
    ensures { said_of result ≡ popup_configured popup placed }
{
    let configure = XdgPopupEvent::Configure {
        x: placed.x,
        y: placed.y,
        width: placed.w,
        height: placed.h,
    };
    Event {
        object: popup,
        body: EventBody::XdgPopup(configure),
    }
}

/// xdg_popup.repositioned, with the token of the request.
fn repositioned_event(popup: u32, token: u32) -> Event<'static>
    ensures { said_of result ≡ said popup (says XdgPopup 2 (Word token ∷ [])) }
{
    Event {
        object: popup,
        body: EventBody::XdgPopup(XdgPopupEvent::Repositioned { token }),
    }
}

impl<A: Allocator + Copy> Resident<A> {
    /// Configures a toplevel: xdg_toplevel.configure, which leaves the size to the client, and
    /// xdg_surface.configure.
    pub(crate) fn tell_configure(&mut self, toplevel: u32, xdg_surface: u32, serial: u32)
        ensures table { self.new.client.ended ≡ None → self.new.client.objects ≡ self.old.client.objects }
        ensures queues { (p : Peer) → IsPeer self.old.client p
            → (q : Peer) × Queues (toplevel_configured toplevel ∷ xdg_configured xdg_surface serial ∷ []) p q × IsPeer self.new.client q }
        ensures owned { self.new.owned ≡ self.old.owned }
        ensures subsurfaces { self.new.subsurfaces ≡ self.old.subsurfaces }
        ensures rest { Leaves self.old self.new }
    {
        let first = toplevel_event(toplevel);
        let second = xdg_surface_event(xdg_surface, serial);
        self.client.queue_all(&[first, second]);
    }

    /// Configures a popup: xdg_popup.configure, which says where it is placed, and
    /// xdg_surface.configure.
    fn tell_placement(&mut self, popup: u32, placed: Option<Placed>, xdg_surface: u32, serial: u32)
        ensures table { self.new.client.ended ≡ None → self.new.client.objects ≡ self.old.client.objects }
        ensures queues { (p : Peer) → IsPeer self.old.client p
            → (q : Peer) × Queues (popup_told popup placed ++ xdg_configured xdg_surface serial ∷ []) p q × IsPeer self.new.client q }
        ensures owned { self.new.owned ≡ self.old.owned }
        ensures subsurfaces { self.new.subsurfaces ≡ self.old.subsurfaces }
        ensures rest { Leaves self.old self.new }
    {
        let configure = xdg_surface_event(xdg_surface, serial);
        match placed {
            Some(place) => {
                let first = popup_event(popup, place);
                self.client.queue_all(&[first, configure]);
            }
            None => self.client.queue_all(&[configure]),
        }
    }

    /// If a popup was placed anew, draws the serial and tells the popup where it will stand, with
    /// the token of the request: xdg_popup.repositioned, xdg_popup.configure and
    /// xdg_surface.configure (xdg-shell.xml, xdg_popup.reposition).
    pub(crate) fn tell_anew(
        &mut self,
        popup: u32,
        token: u32,
        placed: Option<Placed>,
        xdg_surface: u32,
        serial: u32,
    )
        ensures table { self.new.client.ended ≡ None → self.new.client.objects ≡ self.old.client.objects }
        ensures told { (p : Peer) → IsPeer self.old.client p
            → (q : Peer) × Queues (anew_told placed token serial popup xdg_surface) (drawn_if (is_some placed) p) q × IsPeer self.new.client q }
        ensures owned { self.new.owned ≡ self.old.owned }
        ensures subsurfaces { self.new.subsurfaces ≡ self.old.subsurfaces }
        ensures rest { Leaves self.old self.new }
    {
        let Some(place) = placed else {
            return;
        };
        self.client.draw_serial();
        let first = repositioned_event(popup, token);
        let second = popup_event(popup, place);
        let third = xdg_surface_event(xdg_surface, serial);
        self.client.queue_all(&[first, second, third]);
    }

    /// The id of the role object of a surface, if it has one.
    fn role_object_of(&self, surface: SurfaceNo) -> Option<u32>
        ensures { result ≡ option_and_then (λ k. option_map (λ object. object.id) k.role) (kept_of self.now.owned.shell surface) }
    {
        self.owned.shell.get(surface)?.role_id()
    }

    /// Whether the role object of a surface is a toplevel.
    pub(crate) fn has_toplevel(&self, surface: SurfaceNo) -> bool
        ensures { result ≡ is_some (option_and_then (λ k. toplevel_in k.role) (kept_of self.now.owned.shell surface)) }
    {
        match self.owned.shell.get(surface) {
            Some(xdg_surface) => xdg_surface.toplevel().is_some(),
            None => false,
        }
    }

    /// If a commit led to a configure, draws its serial and configures the surface's role object
    /// with it.
    pub(crate) fn tell_act(&mut self, surface: SurfaceNo, act: ShellAct, serial: u32)
        ensures table { self.new.client.ended ≡ None → self.new.client.objects ≡ self.old.client.objects }
        ensures told { (p : Peer) → IsPeer self.old.client p
            → (q : Peer) × Queues (act_told act serial (kept_of self.old.owned.shell surface)) (drawn_by act p) q × IsPeer self.new.client q }
        ensures owned { self.new.owned ≡ self.old.owned }
        ensures subsurfaces { self.new.subsurfaces ≡ self.old.subsurfaces }
        ensures rest { Leaves self.old self.new }
    {
        let ShellAct::Configure(placed) = act else {
            return;
        };
        self.client.draw_serial();
        if let Some(object) = self.role_object_of(surface) {
            let xdg_surface = self.xdg_surface_of(surface);
            if self.has_toplevel(surface) {
                self.tell_configure(object, xdg_surface, serial);
            } else {
                self.tell_placement(object, placed, xdg_surface, serial);
            }
        }
    }
}
