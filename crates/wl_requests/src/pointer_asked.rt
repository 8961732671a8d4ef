//! What the messages of a client ask of the pointer.

ghost use Rattle.std.specs.Prelude.{◌≡◌};
ghost use Rattle.wl_requests.specs.Messages.{IsAsked};
ghost use Rattle.wl_requests.specs.PointerAsks.{MessageAsksPointer, pointer_asked_by, pointer_in};

use crate::messages::{Asked, Kind};
use crate::residents::Resident;
use crate::xdg_toplevel::ToplevelAsked;
use std::alloc::Allocator;
use wl_proto::WlSeatRequest;
use wl_surface::SurfaceNo;

/// What a message asks of the pointer.
#[derive(Clone, Copy, Debug, PartialEq, Eq)]
pub enum PointerAsked {
    /// Nothing.
    Nothing,
    /// A new wl_pointer with this id (wayland.xml, wl_seat.get_pointer). It is told of the focus if
    /// its client has it.
    NewPointer(u32),
    /// The toplevel of this surface is to be moved with the pointer, by the serial of a press
    /// (xdg-shell.xml, xdg_toplevel.move).
    Move(SurfaceNo, u32),
}

/// What a request to an object with this target asks of the pointer.
fn pointer_asked_by(target: usize, kind: Kind) -> PointerAsked
    ensures { result ≡ pointer_asked_by target kind }
{
    match kind {
        Kind::Seat(WlSeatRequest::GetPointer { id }) => PointerAsked::NewPointer(id),
        Kind::Toplevel(ToplevelAsked::Move { serial }) => PointerAsked::Move(target, serial),
        _ => PointerAsked::Nothing,
    }
}

/// What a message that asks this asks of the pointer.
fn pointer_in(asked: &Asked) -> PointerAsked
    ensures { result ≡ pointer_in asked.now }
{
    match asked {
        Asked::Request { target, kind, .. } => pointer_asked_by(*target, *kind),
        Asked::More | Asked::Refused(_) | Asked::Own { .. } => PointerAsked::Nothing,
    }
}

impl<A: Allocator + Copy> Resident<A> {
    /// What the first message of a living client, which asks this, asks of the pointer, unless it
    /// is refused.
    pub fn pointer_asked(&self, asked: &Asked) -> PointerAsked
        requires { IsAsked self.now.client asked.now }
        ensures asks { MessageAsksPointer self.now result }
        ensures is { result ≡ pointer_in asked.now }
    {
        pointer_in(asked)
    }
}
