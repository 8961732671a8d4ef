//! The windows of a toplevel that stay in their places while others move. They are painted again
//! only where they are damaged.

ghost use Rattle.std.specs.Prelude.{ℕ, ◌≡◌, ◌+◌, ◌-◌, ◌<◌, ◌≤◌, ◌||◌, drop, length, pos, take};
ghost use Rattle.std.specs.List.{position_or_len};
ghost use Rattle.wl_paint.specs.Damage.{has};
ghost use Rattle.wl_scene.specs.Marking.{AddsPoints, IsAsLarge};
ghost use Rattle.wl_scene.specs.Repaint.{AreTogether, is_same_window, same_windows};
ghost use Rattle.wl_clients.specs.Staying.{are_of, below_top, count_below, is_one_tree, lifted, marks_around, marks_moved, marks_past, marks_pieces, moves_in_one, pixels_in, pixels_lifted, same_above, same_below, top};

use std::alloc::Allocator;
use wl_paint::Damage;
use wl_scene::{TreeWindow, mark_tree, mark_trees};
use wl_surface::{Change, SurfaceNo};

/// Whether two lists have the same windows, each with the same place, size, transform and scale.
pub(crate) fn are_same(was: &[TreeWindow], is: &[TreeWindow]) -> bool
    ensures { result ≡ same_windows was.now is.now }
{
    was == is
}

/// Whether two windows are of one surface of one tree, with the same place, size, transform and
/// scale.
fn is_same(window: &TreeWindow, other: &TreeWindow) -> bool
    ensures { result ≡ is_same_window window.now other.now }
{
    window == other
}

/// How many of the lowest windows of two lists are the same.
fn count_same_below(was: &[TreeWindow], is: &[TreeWindow]) -> usize
    ensures count { result ≡ same_below was.now is.now }
    ensures few { result ≤ length was.now }
    ensures fits { result ≤ length is.now }
{
    was.iter()
        .zip(is.iter())
        .take_while(|(window, other)| is_same(window, other))
        .count()
}

/// How many of the topmost windows of two lists are the same.
fn count_same_above(was: &[TreeWindow], is: &[TreeWindow]) -> usize
    ensures count { result ≡ same_above was.now is.now }
    ensures few { result ≤ length was.now }
    ensures fits { result ≤ length is.now }
{
    was.iter()
        .rev()
        .zip(is.iter().rev())
        .take_while(|(window, other)| is_same(window, other))
        .count()
}

/// Whether all of these windows are of the tree with this root.
fn are_of(windows: &[TreeWindow], root: SurfaceNo) -> bool
    ensures { result ≡ are_of root windows.now }
{
    windows.iter().all(|window| root == window.root)
}

/// Whether these windows are all of one tree.
fn is_one_tree(was: &[TreeWindow], is: &[TreeWindow]) -> bool
    ensures { result ≡ is_one_tree was.now is.now }
{
    if let Some(window) = was.first() {
        return are_of(was, window.root) && are_of(is, window.root);
    }
    match is.first() {
        Some(window) => are_of(is, window.root),
        None => true,
    }
}

/// So many of the lowest of these windows.
fn lowest(windows: &[TreeWindow], count: usize) -> &[TreeWindow]
    requires { count ≤ length windows.now }
    ensures { result.now ≡ take count windows.now }
{
    &windows[..count]
}

/// The windows above so many of the lowest.
fn above(windows: &[TreeWindow], count: usize) -> &[TreeWindow]
    requires { count ≤ length windows.now }
    ensures { result.now ≡ drop count windows.now }
{
    &windows[count..]
}

/// So many of the topmost of these windows, or all if there are fewer.
fn top(windows: &[TreeWindow], count: usize) -> &[TreeWindow]
    ensures { result.now ≡ top count windows.now }
{
    above(windows, windows.len().saturating_sub(count))
}

/// The windows below so many of the topmost.
fn below_top(windows: &[TreeWindow], count: usize) -> &[TreeWindow]
    ensures { result.now ≡ below_top count windows.now }
{
    lowest(windows, windows.len().saturating_sub(count))
}

/// How many of these windows stand below one of them, or all if it isn't among them.
fn count_below_window(windows: &[TreeWindow], window: &TreeWindow) -> usize
    ensures count { result ≡ position_or_len (λ w. is_same_window window.now w) windows.now }
    ensures few { result ≤ length windows.now }
{
    windows
        .iter()
        .take_while(|other| !is_same(window, other))
        .count()
}

/// How many windows stand below the one that is the lowest of another list, or all if it isn't
/// among them.
fn count_below(windows: &[TreeWindow], others: &[TreeWindow]) -> usize
    ensures count { result ≡ count_below windows.now others.now }
    ensures few { result ≤ length windows.now }
{
    match others.first() {
        Some(window) => count_below_window(windows, window),
        None => windows.len(),
    }
}

/// Where the others of these windows stand at the bottom of another list: how many moved up past
/// them. Else all.
fn lifted(windows: &[TreeWindow], others: &[TreeWindow]) -> usize
    ensures count { result ≡ lifted windows.now others.now }
    ensures few { result ≤ length windows.now }
    ensures fits { length windows.now - result ≤ length others.now }
{
    let count = count_below(windows, others);
    let rest = above(windows, count);
    if are_same(rest, lowest(others, rest.len().min(others.len()))) {
        count
    } else {
        windows.len()
    }
}

/// How many pixels these windows have, 2^64 - 1 at most.
fn pixels_in(windows: &[TreeWindow]) -> u64
    ensures { result ≡ pixels_in windows.now }
{
    let mut pixels = 0_u64;
    for window in windows {
        pixels = pixels.saturating_add(u64::from(window.w) * u64::from(window.h));
    }
    pixels
}

/// How many pixels the `count` windows have that moved up past the others, with their old places.
fn pixels_lifted(was: &[TreeWindow], is: &[TreeWindow], count: usize) -> u64
    requires count { count ≡ lifted was.now is.now }
    requires few { count ≤ length was.now }
    requires fits { length was.now - count ≤ length is.now }
    ensures { result ≡ pixels_lifted was.now is.now }
{
    pixels_in(lowest(was, count)).saturating_add(pixels_in(above(is, was.len() - count)))
}

/// How windows before and after fall in three pieces: so many at the bottom, so many that stay
/// above those, and the others.
#[derive(Clone, Copy, Debug)]
struct Pieces {
    below_was: usize,
    below_is: usize,
    stay: usize,
}

/// How many windows stay at the bottom of those of a toplevel, and how many on top.
#[derive(Clone, Copy, Debug)]
struct Stay {
    below: usize,
    above: usize,
}

/// Marks what is to be painted again of windows in three pieces, each piece by itself.
fn mark_pieces<A: Allocator>(
    damage: &mut Damage<A>,
    was: &[TreeWindow],
    is: &[TreeWindow],
    pieces: Pieces,
    changes: &[Change<A>],
)
    requires fits_was { pieces.below_was + pieces.stay ≤ length was.now }
    requires fits_is { pieces.below_is + pieces.stay ≤ length is.now }
    ensures points { AddsPoints (marks_pieces pieces.below_was pieces.below_is pieces.stay was.now is.now changes.now) damage.old damage.new }
    ensures sides { IsAsLarge damage.old damage.new }
{
    let (below_was, below_is) = (lowest(was, pieces.below_was), lowest(is, pieces.below_is));
    mark_tree(damage, below_was, below_is, changes);
    let (rest_was, rest_is) = (above(was, pieces.below_was), above(is, pieces.below_is));
    mark_tree(
        damage,
        lowest(rest_was, pieces.stay),
        lowest(rest_is, pieces.stay),
        changes,
    );
    mark_tree(
        damage,
        above(rest_was, pieces.stay),
        above(rest_is, pieces.stay),
        changes,
    );
}

/// Some windows moved past others. Marks whichever of both have fewer pixels, in their old places
/// and in their new ones.
fn mark_past<A: Allocator>(
    damage: &mut Damage<A>,
    was: &[TreeWindow],
    is: &[TreeWindow],
    changes: &[Change<A>],
)
    ensures points { AddsPoints (marks_past was.now is.now changes.now) damage.old damage.new }
    ensures sides { IsAsLarge damage.old damage.new }
{
    let up = lifted(was, is);
    let down = lifted(is, was);
    if pixels_lifted(was, is, up) <= pixels_lifted(is, was, down) {
        let pieces = Pieces {
            below_was: up,
            below_is: 0,
            stay: was.len() - up,
        };
        mark_pieces(damage, was, is, pieces, changes);
    } else {
        let pieces = Pieces {
            below_was: 0,
            below_is: down,
            stay: is.len() - down,
        };
        mark_pieces(damage, was, is, pieces, changes);
    }
}

/// So many windows stay at the bottom and so many on top. Marks what is damaged of those, and what
/// moved between them.
fn mark_around<A: Allocator>(
    damage: &mut Damage<A>,
    was: &[TreeWindow],
    is: &[TreeWindow],
    stay: Stay,
    changes: &[Change<A>],
)
    requires below_was { stay.below ≤ length was.now }
    requires below_is { stay.below ≤ length is.now }
    ensures points { AddsPoints (marks_around stay.below stay.above was.now is.now changes.now) damage.old damage.new }
    ensures sides { IsAsLarge damage.old damage.new }
{
    mark_tree(
        damage,
        lowest(was, stay.below),
        lowest(is, stay.below),
        changes,
    );
    let (rest_was, rest_is) = (above(was, stay.below), above(is, stay.below));
    mark_past(
        damage,
        below_top(rest_was, stay.above),
        below_top(rest_is, stay.above),
        changes,
    );
    mark_tree(
        damage,
        top(rest_was, stay.above),
        top(rest_is, stay.above),
        changes,
    );
}

/// Whether windows of one tree moved, and no others, between so many that stay at the bottom and so
/// many on top.
fn moves_in_one(was: &[TreeWindow], is: &[TreeWindow], stay: Stay) -> bool
    requires below_was { stay.below ≤ length was.now }
    requires below_is { stay.below ≤ length is.now }
    ensures { result ≡ moves_in_one (below_top stay.above (drop stay.below was.now)) (below_top stay.above (drop stay.below is.now)) }
{
    let was = below_top(above(was, stay.below), stay.above);
    let is = below_top(above(is, stay.below), stay.above);
    is_one_tree(was, is) && !are_same(was, is)
}

/// How many windows stay at the bottom, and how many on top.
fn staying(was: &[TreeWindow], is: &[TreeWindow]) -> Stay
    ensures below { result.below ≡ same_below was.now is.now }
    ensures above { result.above ≡ same_above (drop result.below was.now) (drop result.below is.now) }
    ensures fits_was { result.below ≤ length was.now }
    ensures fits_is { result.below ≤ length is.now }
{
    let below = count_same_below(was, is);
    let above = count_same_above(above(was, below), above(is, below));
    Stay { below, above }
}

/// Marks what a message changed of a toplevel's windows. It goes by the windows before and after,
/// and by what the message applied to surfaces (wayland.xml, wl_surface.damage and wl_subsurface;
/// xdg-shell.xml, xdg_popup).
///
/// Where windows of one tree moved, came or went, it marks those, in their old places and in their
/// new ones, and what is damaged of the others. Else it marks each tree by itself.
pub(crate) fn mark_moved<A: Allocator>(
    damage: &mut Damage<A>,
    was: &[TreeWindow],
    is: &[TreeWindow],
    changes: &[Change<A>],
)
    ensures points { AreTogether was.now → AreTogether is.now → AddsPoints (marks_moved was.now is.now changes.now) damage.old damage.new }
    ensures sides { IsAsLarge damage.old damage.new }
{
    let stay = staying(was, is);
    if moves_in_one(was, is, stay) {
        mark_around(damage, was, is, stay, changes);
    } else {
        mark_trees(damage, was, is, changes);
    }
}
