//! Which toplevel is moved with the pointer: where that begins, and where it ends (xdg-shell.xml,
//! xdg_toplevel.move).

ghost use Rattle.std.specs.Prelude.{◌≡◌};
ghost use Rattle.std.specs.List.{list_any};
ghost use Rattle.spec_desktop.specs.Stacking.{is_of};
ghost use Rattle.wl_scene.specs.Focus.{target_or_none};
ghost use Rattle.spec_desktop.specs.Desktop.{Desktop};
ghost use Rattle.law_desktop.specs.Pointed.Pointed.{keeping};
ghost use Rattle.wl_clients.specs.Agreeing.{Agrees as KeptAgrees};
ghost use Rattle.wl_clients.specs.Agreement.{numbers_in};
ghost use Rattle.wl_desk.specs.Agreeing.{Agrees};
ghost use Rattle.wl_desk.specs.Beginning.{IsMovable, begun, chosen_by};

use crate::desks::Desk;
use std::alloc::Allocator;
use wl_clients::{ClientNo, PointerAsked};
use wl_scene::Target;
use wl_surface::SurfaceNo;

/// A toplevel that its client may move with the pointer. It has the number of its surface, the
/// surface by its id, and the serial of the press that began the present hold.
#[derive(Clone, Copy)]
pub(crate) struct Movable {
    pub(crate) number: SurfaceNo,
    pub(crate) serial: u32,
    pub(crate) toplevel: Target,
}

/// The toplevel that a message begins to move, by what it asks of the pointer.
pub(crate) fn to_move(movable: Option<Movable>, asked: PointerAsked) -> Option<Target>
    ensures { target_or_none result ≡ chosen_by movable asked }
{
    let PointerAsked::Move(number, serial) = asked else {
        return None;
    };
    let movable = movable?;
    if movable.serial == serial && movable.number == number {
        return Some(movable.toplevel);
    }
    None
}

impl<A: Allocator + Copy> Desk<A> {
    /// The toplevel that a client may move with the pointer, if there is one. The press that began
    /// the present hold was sent, and the focus is in the toplevel's own tree.
    pub(crate) fn movable(&self, client: ClientNo) -> Option<Movable>
        ensures { (d : Desktop) → Agrees self.now.desk d → IsMovable (numbers_in self.now.desk.kept.clients client) client d result }
    {
        let serial = self.pointer.hold()?;
        let focus = self.pointer.focus()?;
        if focus.client != client {
            return None;
        }
        let number = self.window_of(focus)?.window.root;
        let surface = self.clients.surface_id(client, number)?;
        Some(Movable {
            number,
            serial,
            toplevel: Target { client, surface },
        })
    }

    /// Motions move this toplevel from now on, if there is one.
    pub(crate) fn begin_move(&mut self, toplevel: Option<Target>)
        ensures pointer { self.new.desk.pointer ≡ begun (target_or_none toplevel) self.old.desk.pointer }
        ensures kept { self.new.desk.kept ≡ self.old.desk.kept }
        ensures seats { self.new.desk.seats ≡ self.old.desk.seats }
        ensures latest { self.new.desk.latest ≡ self.old.desk.latest }
        ensures damage { self.new.damage ≡ self.old.damage }
    {
        if let Some(toplevel) = toplevel {
            self.pointer.begin_move(toplevel);
        }
    }

    /// Whether a toplevel is mapped and stands.
    fn stands(&self, toplevel: Target) -> bool
        ensures { (e : Desktop) → KeptAgrees self.now.desk.kept e → result ≡ list_any (is_of toplevel.client toplevel.surface) e.standing }
    {
        let Some(number) = self
            .clients
            .surface_number(toplevel.client, toplevel.surface)
        else {
            return false;
        };
        self.clients.stands(toplevel.client, number)
    }

    /// Stops moving a toplevel that doesn't stand any more.
    pub(crate) fn let_go(&mut self)
        ensures pointer { (e : Desktop) → KeptAgrees self.old.desk.kept e → self.new.desk.pointer ≡ keeping e.standing self.old.desk.pointer }
        ensures kept { self.new.desk.kept ≡ self.old.desk.kept }
        ensures seats { self.new.desk.seats ≡ self.old.desk.seats }
        ensures latest { self.new.desk.latest ≡ self.old.desk.latest }
        ensures damage { self.new.damage ≡ self.old.damage }
    {
        let Some(toplevel) = self.pointer.moved() else {
            return;
        };
        if self.stands(toplevel) {
            return;
        }
        self.pointer.end_move();
    }
}
