//! Several trees marked on an output, each by itself: a toplevel's and those of its popups.

ghost use Rattle.std.specs.Prelude.{ℕ, ◌≡◌, ◌<◌, ◌≤◌, ◌==◌, ◌&&◌, ◌||◌, length, pos};
ghost use Rattle.std.specs.List.{list_any, position_or_len, prefix_len};
ghost use Rattle.wl_paint.specs.Damage.{has};
ghost use Rattle.wl_scene.specs.Marking.{IsAsLarge};
ghost use Rattle.wl_scene.specs.Repaint.{AreTogether, is_new, marks, marks_trees, tree_of};

use crate::repaint::mark_tree;
use crate::tree_window::TreeWindow;
use std::alloc::Allocator;
use wl_paint::Damage;
use wl_surface::{Change, SurfaceNo};

/// How many windows stand below the lowest of the tree of a root; all, if it has none.
fn count_below(windows: &[TreeWindow], root: SurfaceNo) -> usize
    ensures below { result ≡ position_or_len (λ w. root == w.root) windows.now }
    ensures few { result ≤ length windows.now }
{
    windows
        .iter()
        .take_while(|window| root != window.root)
        .count()
}

/// How many windows of the tree of a root stand at the bottom.
fn count_of(windows: &[TreeWindow], root: SurfaceNo) -> usize
    ensures count { result ≡ prefix_len (λ w. root == w.root) windows.now }
    ensures few { result ≤ length windows.now }
{
    windows
        .iter()
        .take_while(|window| root == window.root)
        .count()
}

/// The windows of the tree of a root. Those of each tree have to stand together.
fn tree_in(windows: &[TreeWindow], root: SurfaceNo) -> &[TreeWindow]
    ensures { AreTogether windows.now → result.now ≡ tree_of root windows.now }
{
    let rest = &windows[count_below(windows, root)..];
    &rest[..count_of(rest, root)]
}

/// Marks what changed of the tree of a root.
fn mark_root<A: Allocator>(
    damage: &mut Damage<A>,
    root: SurfaceNo,
    was: &[TreeWindow],
    is: &[TreeWindow],
    changes: &[Change<A>],
)
    ensures points { AreTogether was.now → AreTogether is.now → (x y : ℕ) → x < damage.old.width → y < damage.old.height
        → has damage.new x y ≡ (has damage.old x y || marks (tree_of root was.now) (tree_of root is.now) changes.now (pos x) (pos y)) }
    ensures sides { IsAsLarge damage.old damage.new }
{
    mark_tree(damage, tree_in(was, root), tree_in(is, root), changes);
}

/// Marks what changed of the trees that were there.
fn mark_old<A: Allocator>(
    damage: &mut Damage<A>,
    was: &[TreeWindow],
    is: &[TreeWindow],
    changes: &[Change<A>],
)
    ensures points { AreTogether was.now → AreTogether is.now → (x y : ℕ) → x < damage.old.width → y < damage.old.height
        → has damage.new x y
        ≡ (has damage.old x y
        || list_any (λ w. marks (tree_of w.root was.now) (tree_of w.root is.now) changes.now (pos x) (pos y)) was.now) }
    ensures sides { IsAsLarge damage.old damage.new }
{
    let mut last = None;
    for window in was {
        if last != Some(window.root) {
            mark_root(damage, window.root, was, is, changes);
            last = Some(window.root);
        }
    }
}

/// Marks what changed of the tree of a root, if the tree wasn't there.
fn mark_new_root<A: Allocator>(
    damage: &mut Damage<A>,
    root: SurfaceNo,
    was: &[TreeWindow],
    is: &[TreeWindow],
    changes: &[Change<A>],
)
    ensures points { AreTogether was.now → AreTogether is.now → (x y : ℕ) → x < damage.old.width → y < damage.old.height
        → has damage.new x y
        ≡ (has damage.old x y || (is_new root was.now && marks (tree_of root was.now) (tree_of root is.now) changes.now (pos x) (pos y))) }
    ensures sides { IsAsLarge damage.old damage.new }
{
    if tree_in(was, root).is_empty() {
        mark_root(damage, root, was, is, changes);
    }
}

/// Marks what changed of the trees that weren't there.
fn mark_new<A: Allocator>(
    damage: &mut Damage<A>,
    was: &[TreeWindow],
    is: &[TreeWindow],
    changes: &[Change<A>],
)
    ensures points { AreTogether was.now → AreTogether is.now → (x y : ℕ) → x < damage.old.width → y < damage.old.height
        → has damage.new x y
        ≡ (has damage.old x y || list_any (λ w. is_new w.root was.now
        && marks (tree_of w.root was.now) (tree_of w.root is.now) changes.now (pos x) (pos y)) is.now) }
    ensures sides { IsAsLarge damage.old damage.new }
{
    let mut last = None;
    for window in is {
        if last != Some(window.root) {
            mark_new_root(damage, window.root, was, is, changes);
            last = Some(window.root);
        }
    }
}

/// Marks what a call changed of several trees of surfaces, as those of a toplevel and its popups
/// (wayland.xml, wl_surface.damage and wl_subsurface; xdg-shell.xml, xdg_popup). `was` and `is` are
/// their windows before and after it, `changes` what it applied to surfaces. In both lists the
/// windows of each tree stand together.
///
/// Each tree is marked by itself. If its windows are the same, that is the damage of its surfaces,
/// in surface pixels, moved to their windows. Else it is all points of its windows, as they were
/// and as they are.
pub fn mark_trees<A: Allocator>(
    damage: &mut Damage<A>,
    was: &[TreeWindow],
    is: &[TreeWindow],
    changes: &[Change<A>],
)
    ensures points { AreTogether was.now → AreTogether is.now → (x y : ℕ) → x < damage.old.width → y < damage.old.height
        → has damage.new x y ≡ (has damage.old x y || marks_trees was.now is.now changes.now (pos x) (pos y)) }
    ensures sides { IsAsLarge damage.old damage.new }
{
    mark_old(damage, was, is, changes);
    mark_new(damage, was, is, changes);
}
