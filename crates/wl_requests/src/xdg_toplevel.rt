//! The requests of xdg_toplevel, the role by which a surface is a window (xdg-shell.xml,
//! xdg_toplevel). They set its title, its states and its sizes, and let the user move it.

ghost use Rattle.std.specs.Prelude.{◌≡◌, ℕ};
ghost use Rattle.wl_proto.specs.declared.interface.Interface.TheVariants.{XdgToplevel};
ghost use Rattle.wl_proto.specs.Messages.{Message, xdg_toplevel_request};
ghost use Rattle.wl_shell.specs.Shell.{xdg_with};
ghost use Rattle.spec_desktop.specs.Demanding.{demand_of, demands, toplevel_destroyed};
ghost use Rattle.wl_requests.specs.Residents.{AnswersDemand, asked_by, IsToplevel, Leaves, Stacks};
ghost use Rattle.spec_desktop.specs.Requests.{toplevel_request};
ghost use Rattle.spec_desktop.specs.XdgShell.{state_asked};

use crate::residents::{Resident, Stacking};
use std::alloc::Allocator;
use wl_proto::XdgToplevelRequest;
use wl_surface::SurfaceNo;

/// What a request of a toplevel leads to.
#[derive(Clone, Copy, Debug, PartialEq, Eq)]
pub enum ToplevelAsked {
    /// It goes.
    Destruction,
    /// Another state is asked for, as by set_maximized: the toplevel is configured again, if it was
    /// configured before.
    Configure,
    /// It is to be moved with the pointer, by the serial of a press (xdg-shell.xml,
    /// xdg_toplevel.move).
    Move { serial: u32 },
    /// It has no effect.
    Nothing,
}

/// What a request leads to.
pub(crate) fn asked_of(request: &XdgToplevelRequest) -> ToplevelAsked
    ensures { result ≡ asked_by (toplevel_request (xdg_toplevel_request request.now).opcode (xdg_toplevel_request request.now).fields) }
{
    match request {
        XdgToplevelRequest::Destroy => ToplevelAsked::Destruction,
        XdgToplevelRequest::SetMaximized
        | XdgToplevelRequest::UnsetMaximized
        | XdgToplevelRequest::SetFullscreen { .. }
        | XdgToplevelRequest::UnsetFullscreen => ToplevelAsked::Configure,
        XdgToplevelRequest::Move { serial, .. } => ToplevelAsked::Move { serial: *serial },
        XdgToplevelRequest::SetParent { .. }
        | XdgToplevelRequest::SetTitle { .. }
        | XdgToplevelRequest::SetAppId { .. }
        | XdgToplevelRequest::ShowWindowMenu { .. }
        | XdgToplevelRequest::Resize { .. }
        | XdgToplevelRequest::SetMaxSize { .. }
        | XdgToplevelRequest::SetMinSize { .. }
        | XdgToplevelRequest::SetMinimized => ToplevelAsked::Nothing,
    }
}

impl<A: Allocator + Copy> Resident<A> {
    /// xdg_toplevel.destroy: its id is given back. The popups on it and their descendants are
    /// dismissed, and have no parent any more (xdg-shell.xml, xdg_popup.popup_done).
    fn destroy_toplevel(&mut self, object: u32, surface: SurfaceNo)
        ensures answers { IsToplevel self.old object surface → AnswersDemand (λ r. toplevel_destroyed object (xdg_with object r.owned.shell)) self.old self.new }
        ensures rest { Leaves self.old self.new }
    {
        self.client.count();
        self.client.remove(object);
        self.dismiss_popups(surface);
        self.owned.shell.orphan(surface);
        self.owned.shell.destroy_toplevel(surface);
    }

    /// A request for another state, as xdg_toplevel.set_maximized: configures the toplevel again,
    /// if it was configured before.
    fn configure_again(&mut self, object: u32, surface: SurfaceNo)
        ensures answers { IsToplevel self.old object surface → AnswersDemand (λ r. demands (state_asked (xdg_with object r.owned.shell))) self.old self.new }
        ensures rest { Leaves self.old self.new }
    {
        let xdg_surface = self.xdg_surface_of(surface);
        let serial = self.client.serial();
        match self.owned.shell.configure(surface, serial) {
            Ok(true) => {
                self.client.count();
                self.client.draw_serial();
                self.tell_configure(object, xdg_surface, serial);
            }
            Ok(false) => self.client.count(),
            Err(error) => self.refuse_xdg_surface(xdg_surface, surface, error),
        }
    }

    /// A request of the toplevel of a surface, which leads to this.
    pub(crate) fn xdg_toplevel(
        &mut self,
        object: u32,
        surface: SurfaceNo,
        asked: ToplevelAsked,
    ) -> Stacking
        ensures answers { IsToplevel self.old object surface → (version : ℕ) (m : Message) → m.interface ≡ XdgToplevel → asked ≡ asked_by (toplevel_request m.opcode m.fields)
            → AnswersDemand (λ r. demand_of r object version m) self.old self.new }
        ensures stacks { IsToplevel self.old object surface → (version : ℕ) (m : Message) → m.interface ≡ XdgToplevel → asked ≡ asked_by (toplevel_request m.opcode m.fields)
            → Stacks (λ r. demand_of r object version m) self.old result }
        ensures rest { Leaves self.old self.new }
    {
        match asked {
            ToplevelAsked::Destruction => {
                self.destroy_toplevel(object, surface);
                Stacking::Out(surface)
            }
            ToplevelAsked::Configure => {
                self.configure_again(object, surface);
                Stacking::Stays
            }
            ToplevelAsked::Nothing => {
                self.ignore();
                Stacking::Stays
            }
            ToplevelAsked::Move { .. } => {
                self.ignore();
                Stacking::Stays
            }
        }
    }
}
