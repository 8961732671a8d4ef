//! Windows and the damage of their surfaces, marked on an output.

ghost use Rattle.std.specs.Prelude.{ℕ, ◌≡◌, ◌<◌, ◌||◌, pos};
ghost use Rattle.wl_paint.specs.Damage.{has};
ghost use Rattle.wl_scene.specs.Marking.{IsAsLarge};
ghost use Rattle.wl_scene.specs.Repaint.{any_window_has, is_window_damaged};

use crate::tree_window::TreeWindow;
use std::alloc::Allocator;
use wl_geom::Rect;
use wl_paint::Damage;

/// How many rectangles of a surface's damage count one by one.
const MAX_RECTS: usize = 1_024;

/// Marks all points of a window, if there is one.
pub fn mark_window<A: Allocator>(damage: &mut Damage<A>, window: Option<TreeWindow>)
    ensures points { (x y : ℕ) → x < damage.old.width → y < damage.old.height → has damage.new x y ≡ (has damage.old x y || any_window_has (pos x) (pos y) window) }
    ensures sides { IsAsLarge damage.old damage.new }
{
    if let Some(window) = window {
        damage.add(window.rect());
    }
}

/// Marks the points of a window that its surface's damage holds (wayland.xml, wl_surface.damage).
/// The rectangles are in pixels of the surface, and are cut to it. More than 1,024 of them damage
/// all of it.
pub fn mark_damage<A: Allocator>(damage: &mut Damage<A>, window: TreeWindow, rects: &[Rect])
    ensures points { (x y : ℕ) → x < damage.old.width → y < damage.old.height
        → has damage.new x y ≡ (has damage.old x y || is_window_damaged rects.now (pos x) (pos y) window) }
    ensures sides { IsAsLarge damage.old damage.new }
{
    if rects.len() > MAX_RECTS {
        damage.add(window.rect());
        return;
    }
    for rect in rects {
        damage.add(window.part(*rect));
    }
}
