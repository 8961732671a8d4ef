//! The wl_pointers of one client, among those of all.

ghost use Rattle.std.specs.Prelude.{◌≡◌, ◌<◌, ◌+◌, ◌⊎◌, IfNone, IfSome, map, true, vec_len};
ghost use Rattle.std.specs.Vec.{vec_capacity};
ghost use Rattle.wl_desk.specs.Seating.{HoldsOf, seats_after};

use crate::seats::{add, reserve};
use std::alloc::Allocator;
use wl_clients::{ClientNo, PointerAsked};

/// Where the values of the client of this number are, among this many.
pub(crate) fn place_in(client: ClientNo, count: usize) -> Option<usize>
    ensures some { IfSome result (λ k. (client ≡ k + 1) × (k < count)) }
    ensures none { IfNone result ((client ≡ 0) ⊎ (count < client)) }
{
    if client == 0 || client as usize > count {
        return None;
    }
    Some(client as usize - 1)
}

/// Makes room for one more wl_pointer of a client, and answers whether there is.
pub(crate) fn make_room<A: Allocator>(seats: &mut [Vec<u32, A>], client: ClientNo) -> bool
    ensures room { result ≡ true → HoldsOf (λ v. vec_len v < vec_capacity v) client seats.new }
    ensures same { map (λ v. v.items) seats.new ≡ map (λ v. v.items) seats.old }
{
    let Some(k) = place_in(client, seats.len()) else {
        return false;
    };
    reserve(&mut seats[k])
}

/// Keeps the wl_pointer that a client asked for, if it did and there is room for it.
pub(crate) fn keep_asked<A: Allocator>(
    seats: &mut [Vec<u32, A>],
    client: ClientNo,
    asked: PointerAsked,
    has_room: bool,
)
    requires { has_room ≡ true → HoldsOf (λ v. vec_len v < vec_capacity v) client seats.old }
    ensures { map (λ v. v.items) seats.new ≡ seats_after has_room asked client (map (λ v. v.items) seats.old) }
{
    if !has_room {
        return;
    }
    let PointerAsked::NewPointer(id) = asked else {
        return;
    };
    let Some(k) = place_in(client, seats.len()) else {
        return;
    };
    add(&mut seats[k], id);
}
