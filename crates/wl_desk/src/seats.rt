//! The wl_pointers of a client.

ghost use Rattle.std.specs.Prelude.{◌≡◌, ◌<◌, ◌≤◌, length, map, nat_lt, true, vec_len};
ghost use Rattle.std.specs.List.{position, position_or_len};
ghost use Rattle.std.specs.Vec.{vec_capacity};
ghost use Rattle.spec_desktop.specs.Changing.{in_rising_order};
ghost use Rattle.wl_desk.specs.View.{seat_of};

use spec_desktop::ClientNo;
use std::alloc::Allocator;

/// The wl_pointers of the client of this number. There are none if the number has no place.
pub(crate) fn seat_of<A: Allocator>(seats: &[Vec<u32, A>], client: ClientNo) -> &[u32]
    ensures { result.now ≡ seat_of (map (λ s. s.items) seats.now) client }
{
    if client == 0 {
        return &[];
    }
    match seats.get(client as usize - 1) {
        Some(seat) => seat,
        None => &[],
    }
}

/// Makes room for one more wl_pointer, and answers whether there is. None is added.
pub(crate) fn reserve<A: Allocator>(pointers: &mut Vec<u32, A>) -> bool
    ensures room { result ≡ true → vec_len pointers.new < vec_capacity pointers.new }
    ensures same { pointers.new.items ≡ pointers.old.items }
{
    pointers.reserve(1).is_ok()
}

/// The first place of a wl_pointer with an id greater than this one.
fn place_after(pointers: &[u32], id: u32) -> Option<usize>
    ensures { result ≡ position (λ pointer. nat_lt id pointer) pointers.now }
{
    pointers.iter().position(|pointer| id < *pointer)
}

/// Where a wl_pointer with this id stands among others that rise: before the first with a greater
/// one.
fn place_for(pointers: &[u32], id: u32) -> usize
    ensures place { result ≡ position_or_len (λ pointer. nat_lt id pointer) pointers.now }
    ensures within { result ≤ length pointers.now }
{
    match place_after(pointers, id) {
        Some(place) => place,
        None => pointers.len(),
    }
}

/// Puts a wl_pointer among those of its client. There is room for it.
pub(crate) fn add<A: Allocator>(pointers: &mut Vec<u32, A>, id: u32)
    requires { vec_len pointers.old < vec_capacity pointers.old }
    ensures { pointers.new.items ≡ in_rising_order id pointers.old.items }
{
    let place = place_for(pointers, id);
    let Ok(()) = pointers.insert(place, id) else {
        unreachable!()
    };
}
