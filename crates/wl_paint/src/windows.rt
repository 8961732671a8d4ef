ghost use Rattle.std.specs.Prelude.{◌≡◌, ◌<◌, List, Some, length, slice_get};
ghost use Rattle.wl_paint.specs.Painting.{window_of};
ghost use Rattle.wl_paint.specs.Window.{Window};

use std::alloc::Allocator;
use wl_geom::Region;
use wl_store::Picture;

/// A window that is lent to be painted. It has a picture and the place of its top left point in the
/// output, in pixels. Its opaque region holds the points of the picture that are said to be opaque,
/// counted from that point.
#[derive(Drop)]
pub struct Painted<'a, A: Allocator> {
    pub x: i32,
    pub y: i32,
    pub picture: Picture<'a>,
    pub opaque: &'a Region<A>,
}

/// The windows of an output, from the lowest to the highest.
pub trait Windows {
    /// The allocator of their regions.
    type Heap: Allocator;

    ghost windows: { Self → List Window };

    /// How many windows there are.
    fn len(&self) -> usize
        ensures { result ≡ length (windows self.now) };

    /// Lends the window with `k` windows below it.
    fn window(&self, k: usize) -> Painted<'_, Self::Heap>
        requires { k < length (windows self.now) }
        ensures { slice_get (windows self.now) k ≡ Some (window_of result) };
}
