//! What a surface shows: a buffer, how it is turned, and how far it has moved.

ghost use Rattle.std.specs.Prelude.{◌≡◌, ◌+ℤ◌};
ghost use Rattle.wl_surface.specs.State.{within_bounds};
ghost use Rattle.wl_surface.specs.Kept.{IsFarther};

use wl_store::{Layout, StoreNo};

/// A buffer's number among its client's. No other buffer has it that is pending, held, applied or
/// named by a wl_buffer.
pub type BufferNo = u64;

/// How far a surface may move from where it began, to each side, in its own pixels.
const BOUND: i64 = 16_777_216;

/// A wl_buffer as it is attached (wayland.xml, wl_surface.attach): its number, the id that it was
/// made with, its store, and where it lies in that store.
#[derive(Clone, Copy, Debug)]
pub struct Attached {
    pub number: BufferNo,
    pub object: u32,
    pub store: StoreNo,
    pub layout: Layout,
}

/// How far a surface has moved from where it began, in its own pixels to the right and down
/// (wayland.xml, wl_surface.attach).
#[derive(Clone, Copy, Debug, PartialEq, Eq)]
pub struct Offset {
    pub x: i32,
    pub y: i32,
}

/// A place, in pixels, held within -16,777,216 to 16,777,216. A farther one becomes the nearest
/// bound.
pub fn held(place: i64) -> i32
    ensures { result ≡ within_bounds place }
{
    if place < -BOUND {
        return -16_777_216;
    }
    if place > BOUND {
        return 16_777_216;
    }
    place as i32
}

/// The sum of a place and an offset, in pixels, held within -16,777,216 to 16,777,216.
pub fn bounded_sum(a: i32, b: i32) -> i32
    ensures { result ≡ within_bounds (a +ℤ b) }
{
    held(i64::from(a) + i64::from(b))
}

impl Offset {
    /// The offset with this one added, held within the bounds.
    pub(crate) fn farther(self, by: Option<Offset>) -> Offset
        ensures { IsFarther self by result }
    {
        match by {
            None => self,
            Some(by) => Offset {
                x: bounded_sum(self.x, by.x),
                y: bounded_sum(self.y, by.y),
            },
        }
    }
}
