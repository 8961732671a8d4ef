//! The windows of a tree and the damage of its surfaces, marked on an output.

ghost use Rattle.std.specs.Prelude.{ℕ, ◌≡◌, ◌<◌, ◌||◌, pos};
ghost use Rattle.std.specs.List.{list_any};
ghost use Rattle.wl_paint.specs.Damage.{has};
ghost use Rattle.wl_scene.specs.Marking.{IsAsLarge};
ghost use Rattle.wl_scene.specs.Repaint.{is_damaged_by, is_struck_by, marks, same_windows, window_has};

use crate::marking::{mark_damage, mark_window};
use crate::tree_window::TreeWindow;
use std::alloc::Allocator;
use wl_paint::Damage;
use wl_surface::Change;

/// Whether two lists are of the same windows, each with the same place, size, transform and scale.
fn are_same(was: &[TreeWindow], is: &[TreeWindow]) -> bool
    ensures { result ≡ same_windows was.now is.now }
{
    was == is
}

/// Marks all points of these windows.
pub fn mark_windows<A: Allocator>(damage: &mut Damage<A>, windows: &[TreeWindow])
    ensures points { (x y : ℕ) → x < damage.old.width → y < damage.old.height
        → has damage.new x y ≡ (has damage.old x y || list_any (window_has (pos x) (pos y)) windows.now) }
    ensures sides { IsAsLarge damage.old damage.new }
{
    for window in windows {
        mark_window(damage, Some(*window));
    }
}

/// Marks the points of a window that the damage of a change holds, if the window is of its surface
/// (wayland.xml, wl_surface.damage).
fn mark_struck<A: Allocator>(damage: &mut Damage<A>, window: &TreeWindow, change: &Change<A>)
    ensures points { (x y : ℕ) → x < damage.old.width → y < damage.old.height
        → has damage.new x y ≡ (has damage.old x y || is_struck_by change.now (pos x) (pos y) window.now) }
    ensures sides { IsAsLarge damage.old damage.new }
{
    if change.surface == window.surface {
        mark_damage(damage, *window, &change.rects);
    }
}

/// Marks the damage of a change at the windows of its surface. Without damage they aren't looked
/// through.
fn mark_surface<A: Allocator>(damage: &mut Damage<A>, windows: &[TreeWindow], change: &Change<A>)
    ensures points { (x y : ℕ) → x < damage.old.width → y < damage.old.height
        → has damage.new x y ≡ (has damage.old x y || is_damaged_by windows.now (pos x) (pos y) change.now) }
    ensures sides { IsAsLarge damage.old damage.new }
{
    if change.rects.is_empty() {
        return;
    }
    for window in windows {
        mark_struck(damage, window, change);
    }
}

/// Marks the damage of each of these changes at the windows of its surface.
fn mark_surfaces<A: Allocator>(
    damage: &mut Damage<A>,
    windows: &[TreeWindow],
    changes: &[Change<A>],
)
    ensures points { (x y : ℕ) → x < damage.old.width → y < damage.old.height
        → has damage.new x y ≡ (has damage.old x y || list_any (is_damaged_by windows.now (pos x) (pos y)) changes.now) }
    ensures sides { IsAsLarge damage.old damage.new }
{
    for change in changes {
        mark_surface(damage, windows, change);
    }
}

/// Marks what a call changed of one tree of surfaces (wayland.xml, wl_surface.damage and
/// wl_subsurface). `was` and `is` are the tree's windows before and after it, `changes` what it
/// applied to surfaces.
///
/// If the windows are the same, it marks the damage of the surfaces, in surface pixels, moved to
/// their windows. Else it marks all points of the windows, as they were and as they are.
pub fn mark_tree<A: Allocator>(
    damage: &mut Damage<A>,
    was: &[TreeWindow],
    is: &[TreeWindow],
    changes: &[Change<A>],
)
    ensures points { (x y : ℕ) → x < damage.old.width → y < damage.old.height
        → has damage.new x y ≡ (has damage.old x y || marks was.now is.now changes.now (pos x) (pos y)) }
    ensures sides { IsAsLarge damage.old damage.new }
{
    if are_same(was, is) {
        mark_surfaces(damage, is, changes);
    } else {
        mark_windows(damage, was);
        mark_windows(damage, is);
    }
}
