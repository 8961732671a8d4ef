//! What a call tells of the surfaces that it changes.

ghost use Rattle.wl_surface.specs.Kept.{StandsFor};
ghost use Rattle.wl_surface.specs.Surface.{Surface as Asked, applying};
ghost use Rattle.wl_surface.specs.Applied.{IsApplied};

use crate::content::{Attached, BufferNo};
use crate::state::SurfaceState;
use crate::states::SurfaceNo;
use std::alloc::Allocator;
use wl_geom::Rect;

/// What a call tells:
/// - `changes`: the surfaces that it applied or took away;
/// - `freed`: the buffers that were busy and aren't any more (wayland.xml, wl_buffer.release);
/// - `callbacks`: the ids of the callbacks that go with a surface;
/// - `shown`: the buffers that its surfaces had applied and held before, as they were attached.
///
/// Its surfaces are those that it applied, held or ended. A buffer that was shown more than once is
/// in `shown` as often. Each freed buffer is in it.
#[derive(Drop)]
pub struct Applied<A: Allocator> {
    pub changes: Vec<Change<A>, A>,
    pub freed: Vec<BufferNo, A>,
    pub callbacks: Vec<u32, A>,
    pub shown: Vec<Attached, A>,
}

/// A surface whose state was applied, or which is gone and showed a buffer. `rects` is the damage
/// that was applied, of the surface and of its buffer. It is in surface pixels, and may pass the
/// surface's edges. More than 1,024 rectangles damage all of it (wayland.xml, wl_surface.damage,
/// damage_buffer).
///
/// `whole` says that the surface changes beside its damage. Its size, transform, scale, mapping, or
/// position plus offset differs, or the order of the mapped windows of its tree does. A root counts
/// as mapped while it has a buffer.
#[derive(Drop)]
pub struct Change<A: Allocator> {
    pub surface: SurfaceNo,
    pub whole: bool,
    pub rects: Vec<Rect, A>,
}

/// Applies the surface, and answers its damage. Whether it changes as a whole is found later.
pub(crate) fn apply_change<A: Allocator>(
    state: &mut SurfaceState<A>,
    surface: SurfaceNo,
    alloc: A,
) -> Change<A>
    ensures stands { (s : Asked) → StandsFor state.old s → StandsFor state.new (applying s) }
    ensures change { (s : Asked) → StandsFor state.old s → IsApplied surface s.history result }
{
    let rects = state.apply(alloc);
    Change {
        surface,
        whole: false,
        rects,
    }
}
