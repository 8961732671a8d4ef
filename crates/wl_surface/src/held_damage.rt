//! The held damage of a surface.

ghost use Rattle.std.specs.Prelude.{ℕ, ◌≡◌, ◌<◌, ◌≤◌, ◌+◌, ◌||◌, ◌++◌, [], length, pos, take, vec_capacity, vec_len, OnErr, OnOk};
ghost use Rattle.std.specs.List.{list_any};
ghost use Rattle.wl_geom.specs.Rect.{in_rect};
ghost use Rattle.wl_surface.specs.State.{meets};
ghost use Rattle.wl_store.specs.Transform.{buffer_point};

use crate::damage::on_surface;
use crate::shape::Shape;
use std::alloc::{AllocError, Allocator};
use std::mem;
use wl_geom::Rect;

/// How many rectangles of each kind are kept. More than 1,024 of both damage the whole surface.
pub(crate) const MAX_KEPT: usize = 1025;

/// The held damage of a surface: rectangles of its points, and rectangles of its buffer's points.
/// The first list has room for the second. So it takes no memory to tell both as rectangles of the
/// surface.
#[derive(Drop)]
pub(crate) struct HeldDamage<A: Allocator> {
    pub(crate) rects: Vec<Rect, A>,
    pub(crate) buffer_rects: Vec<Rect, A>,
    ghost room: { vec_len rects + vec_len buffer_rects ≤ vec_capacity rects },
}

/// Adds rectangles of a buffer as rectangles of the surface of this shape. There is room for them.
fn add_on_surface<A: Allocator>(rects: &mut Vec<Rect, A>, buffer_rects: &[Rect], shape: Shape)
    requires room { vec_len rects.old + length buffer_rects.now ≤ vec_capacity rects.old }
    ensures count { vec_len rects.new ≡ vec_len rects.old + length buffer_rects.now }
    ensures points { (x y : ℕ) → x < shape.w → y < shape.h → list_any (in_rect (pos x) (pos y)) rects.new.items
        ≡ (list_any (in_rect (pos x) (pos y)) rects.old.items || list_any (meets shape.scale.number (buffer_point shape.transform shape.w shape.h x y)) buffer_rects.now) }
{
    for rect in buffer_rects {
        rects.push_reserved(on_surface(
            *rect,
            shape.transform,
            shape.scale.number,
            shape.w,
            shape.h,
        ));
    }
}

impl<A: Allocator + Copy> HeldDamage<A> {
    /// No damage.
    pub(crate) fn new(alloc: A) -> Self
        ensures rects { result.rects.items ≡ [] }
        ensures buffer_rects { result.buffer_rects.items ≡ [] }
    {
        HeldDamage {
            rects: Vec::new(alloc),
            buffer_rects: Vec::new(alloc),
        }
    }
}

impl<A: Allocator> HeldDamage<A> {
    /// Holds these rectangles behind those held, and keeps the first 1,025 of each kind. Without
    /// memory nothing changes.
    pub(crate) fn add(
        &mut self,
        rects: &mut Vec<Rect, A>,
        buffer_rects: &mut Vec<Rect, A>,
    ) -> Result<(), AllocError>
        ensures rects { OnOk result (self.new.rects.items ≡ take 1025 (self.old.rects.items ++ rects.old.items)) }
        ensures buffer_rects { OnOk result (self.new.buffer_rects.items ≡ take 1025 (self.old.buffer_rects.items ++ buffer_rects.old.items)) }
        ensures taken { OnOk result (rects.new.items ≡ []) }
        ensures buffer_taken { OnOk result (buffer_rects.new.items ≡ []) }
        ensures err_rects { OnErr result (self.new.rects.items ≡ self.old.rects.items) }
        ensures err_buffer_rects { OnErr result (self.new.buffer_rects.items ≡ self.old.buffer_rects.items) }
        ensures err_given { OnErr result (rects.new.items ≡ rects.old.items) }
        ensures err_buffer_given { OnErr result (buffer_rects.new.items ≡ buffer_rects.old.items) }
    {
        let of_buffer = self.buffer_rects.len() + buffer_rects.len();
        let Some(more) = of_buffer.checked_add(rects.len()) else {
            return Err(AllocError);
        };
        self.rects.reserve(more)?;
        self.buffer_rects.append(buffer_rects)?;
        self.rects.append(rects)?;
        self.rects.truncate(MAX_KEPT);
        self.buffer_rects.truncate(MAX_KEPT);
        Ok(())
    }

    /// Takes out all that is held, as rectangles of the surface of this shape. The surface's own
    /// come first, then those of the buffer.
    pub(crate) fn take(&mut self, shape: Shape, alloc: A) -> Vec<Rect, A>
        ensures count { length result.items ≡ length self.old.rects.items + length self.old.buffer_rects.items }
        ensures points { (x y : ℕ) → x < shape.w → y < shape.h → list_any (in_rect (pos x) (pos y)) result.items
            ≡ (list_any (in_rect (pos x) (pos y)) self.old.rects.items || list_any (meets shape.scale.number (buffer_point shape.transform shape.w shape.h x y)) self.old.buffer_rects.items) }
        ensures rects { self.new.rects.items ≡ [] }
        ensures buffer_rects { self.new.buffer_rects.items ≡ [] }
    {
        add_on_surface(&mut self.rects, &self.buffer_rects, shape);
        self.buffer_rects.clear();
        mem::replace(&mut self.rects, Vec::new(alloc))
    }
}
