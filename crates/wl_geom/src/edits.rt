//! The changes of a region. The last of them whose rectangle contains a point decides whether the
//! region holds it.

ghost use Rattle.std.specs.Prelude.{◌≡◌, ◌+◌, ◌+ℤ◌, ◌<◌, ◌≤◌, ◌≤ℤ◌, ◌^◌, ◌↔◌, ℕ, IsTrue, true, false, pos};
ghost use Rattle.wl_geom.specs.Edits.{is_held};

use crate::rect::Rect;
use crate::span::place_after;

/// One change: the points of the rectangle are added or taken away.
#[derive(Clone, Copy, Debug, PartialEq, Eq)]
pub(crate) struct Edit {
    pub rect: Rect,
    pub adds: bool,
}

/// Whether the last change whose rectangle contains the point is an add.
pub(crate) fn is_held(edits: &[Edit], x: i32, y: i32) -> bool
    ensures { result ≡ is_held x y edits.now }
{
    for above in 0..edits.len() {
        let edit = edits[edits.len() - 1 - above];
        if edit.rect.contains(x, y) {
            return edit.adds;
        }
    }
    false
}

/// How many of the `count` points from (x, y) to the right are held, up to where another change
/// decides.
fn count_held(edits: &[Edit], x: i32, y: i32, count: u32) -> u32
    requires { 1 ≤ count }
    ensures held { (i : ℕ) → i < result → is_held (x +ℤ pos i) y edits.now ≡ true }
    ensures stops { result ≡ 0 → is_held x y edits.now ≡ false }
    ensures within { result ≤ count }
{
    let mut open = count;
    for above in 0..edits.len() {
        let edit = edits[edits.len() - 1 - above];
        let inside = edit.rect.count_inside(x, y, open);
        if inside > 0 {
            return if edit.adds { inside } else { 0 };
        }
        open = edit.rect.count_before(x, y, open);
    }
    0
}

/// Whether each of the `count` points from (x, y) to the right is held.
pub(crate) fn is_run_held(edits: &[Edit], x: i32, y: i32, count: u32) -> bool
    requires { (x +ℤ pos count) ≤ℤ pos (2 ^ 31) }
    ensures { IsTrue result ↔ ((i : ℕ) → i < count → is_held (x +ℤ pos i) y edits.now ≡ true) }
{
    let mut done = 0;
    while done < count {
        let more = count_held(edits, place_after(x, done), y, count - done);
        if more == 0 {
            return false;
        }
        done += more;
    }
    true
}
