//! The window of a surface of a tree.

ghost use Rattle.std.specs.Prelude.{ℕ, ◌≡◌, ◌<◌, ◌+ℤ◌, ◌-ℤ◌, ◌&&◌, pos};
ghost use Rattle.wl_geom.specs.Rect.{in_rect};
ghost use Rattle.wl_surface.specs.Linked.{Stand};
ghost use Rattle.wl_surface.specs.State.{within_bounds};
ghost use Rattle.wl_surface.specs.Surfaces.{Surfaces as Asked};
ghost use Rattle.wl_scene.specs.Repaint.{window_has};
ghost use Rattle.wl_scene.specs.TreeWindows.{place_beside, window_at};

use crate::span::{side_on_output, span_on_output};
use std::alloc::Allocator;
use wl_geom::Rect;
use wl_store::Transform;
use wl_surface::{SurfaceNo, Surfaces, held};

/// A window of a tree: its surface, and the surface at the root of the tree. Its upper left corner
/// on the output and its size are in pixels. It also says how its buffer is turned and scaled
/// (wayland.xml, wl_subcompositor, wl_surface.set_buffer_transform and set_buffer_scale).
#[derive(Clone, Copy, Debug, PartialEq, Eq)]
pub struct TreeWindow {
    pub surface: SurfaceNo,
    pub root: SurfaceNo,
    pub x: i32,
    pub y: i32,
    pub w: u32,
    pub h: u32,
    pub transform: Transform,
    pub scale: u32,
}

impl TreeWindow {
    /// The window's points.
    pub(crate) fn rect(self) -> Rect
        ensures { (x y : ℕ) → x < 4096 → y < 4096 → in_rect (pos x) (pos y) result ≡ window_has (pos x) (pos y) self }
    {
        let (x, w) = side_on_output(self.x, self.w);
        let (y, h) = side_on_output(self.y, self.h);
        Rect { x, y, w, h }
    }

    /// The window's points that lie in a rectangle of its surface.
    pub(crate) fn part(self, rect: Rect) -> Rect
        ensures { (x y : ℕ) → x < 4096 → y < 4096
            → in_rect (pos x) (pos y) result ≡ (window_has (pos x) (pos y) self && in_rect (pos x -ℤ self.x) (pos y -ℤ self.y) rect) }
    {
        let (x, w) = span_on_output(self.x, self.w, rect.x, rect.w);
        let (y, h) = span_on_output(self.y, self.h, rect.y, rect.h);
        Rect { x, y, w, h }
    }
}

/// A distance in pixels to the right and down.
#[derive(Clone, Copy, Debug)]
pub(crate) struct Point {
    pub x: i32,
    pub y: i32,
}

/// A place on the output for a surface of the tree with this root: a corner there, and a distance
/// from it. The sum isn't held within the bounds.
#[derive(Clone, Copy, Debug)]
pub(crate) struct Spot {
    pub root: SurfaceNo,
    pub corner: Point,
    pub position: Point,
}

/// The sum of a corner, a position from it and an offset, in pixels, held within the bounds.
fn held_sum(corner: i32, position: i32, offset: i32) -> i32
    ensures { result ≡ within_bounds ((corner +ℤ position) +ℤ offset) }
{
    held(i64::from(corner) + i64::from(position) + i64::from(offset))
}

/// The window of a surface that is placed there. A child is placed at its position from the corner
/// of its parent (wayland.xml, wl_subsurface.set_position). The window's corner is there plus the
/// surface's own offset. `None` if it shows no buffer, or isn't there.
pub(crate) fn window_of<A: Allocator + Copy>(
    surfaces: &Surfaces<A>,
    surface: SurfaceNo,
    spot: &Spot,
) -> Option<TreeWindow>
    ensures { (all : Asked) → Stand surfaces.now.states surfaces.now.family all
        → result ≡ window_at all spot.now.root surface (place_beside spot.now) }
{
    let current = surfaces.current(surface)?;
    match current.buffer {
        None => None,
        Some(_) => {
            let x = held_sum(spot.corner.x, spot.position.x, current.offset.x);
            let y = held_sum(spot.corner.y, spot.position.y, current.offset.y);
            Some(TreeWindow {
                surface,
                root: spot.root,
                x,
                y,
                w: current.w,
                h: current.h,
                transform: current.transform,
                scale: current.scale.number,
            })
        }
    }
}
