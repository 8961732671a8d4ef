//! Ids in rising order, each once. A client is told of its released wl_buffers in this order
//! (wayland.xml, wl_buffer.release).

ghost use Rattle.std.specs.List.Sorted.{IsStrictlyIncreasing};
ghost use Rattle.std.specs.Prelude.{ℕ, ◌≡◌, ◌==◌, ◌||◌, OnErr, OnOk};
ghost use Rattle.wl_table.specs.Rising.{is_among};

use std::alloc::{AllocError, Allocator};

/// Puts an id among others that rise, unless it is there.
///
/// # Errors
///
/// An `Err` means that memory ran out, and changes nothing.
pub fn put_rising<A: Allocator>(ids: &mut Vec<u32, A>, id: u32) -> Result<(), AllocError>
    requires { IsStrictlyIncreasing ids.old.items }
    ensures rising { IsStrictlyIncreasing ids.new.items }
    ensures ok { OnOk result ((other : ℕ) → is_among other ids.new.items ≡ ((id == other) || is_among other ids.old.items)) }
    ensures err { OnErr result (ids.new.items ≡ ids.old.items) }
{
    match ids.binary_search(&id) {
        Ok(_) => Ok(()),
        Err(place) => Ok(ids.insert(place, id)?),
    }
}
