//! Rectangles cut at lines, and what is left of a rectangle around a hole.

ghost use Rattle.std.specs.Prelude.{◌≡◌, ◌<ℤ◌, ◌&&◌, ℤ, All, not, int_le, int_lt, pos};
ghost use Rattle.wl_geom.specs.Rect.{count_at, in_rect, is_point, bit};
ghost use Rattle.wl_geom.specs.Region.{EndsInRange};

use crate::rect::Rect;
use crate::span::{len_before, span_from};

const PAST_LAST: i64 = 1 << 31;

impl Rect {
    /// Its points whose coordinates fit an `i32`, as a rectangle whose edges fit too.
    pub(crate) fn clipped(&self) -> Rect
        ensures points { (x y : ℤ) → in_rect x y result ≡ (is_point x y && in_rect x y self.now) }
        ensures ends { EndsInRange result }
    {
        let w = len_before(self.x, self.w, PAST_LAST);
        let h = len_before(self.y, self.h, PAST_LAST);
        Rect { w, h, ..*self }
    }

    /// The part above the line.
    fn above(&self, line: i64) -> Rect
        requires { EndsInRange self.now }
        ensures points { (x y : ℤ) → in_rect x y result ≡ (in_rect x y self.now && int_lt y line) }
        ensures ends { EndsInRange result }
    {
        let h = len_before(self.y, self.h, line);
        Rect { h, ..*self }
    }

    /// The part from the line down.
    fn below(&self, line: i64) -> Rect
        requires { EndsInRange self.now }
        ensures points { (x y : ℤ) → in_rect x y result ≡ (in_rect x y self.now && int_le line y) }
        ensures ends { EndsInRange result }
    {
        let (y, h) = span_from(self.y, self.h, line);
        Rect { y, h, ..*self }
    }

    /// The part to the left of the line.
    fn left_of(&self, line: i64) -> Rect
        requires { EndsInRange self.now }
        ensures points { (x y : ℤ) → in_rect x y result ≡ (in_rect x y self.now && int_lt x line) }
        ensures ends { EndsInRange result }
    {
        let w = len_before(self.x, self.w, line);
        Rect { w, ..*self }
    }

    /// The part from the line to the right.
    fn right_from(&self, line: i64) -> Rect
        requires { EndsInRange self.now }
        ensures points { (x y : ℤ) → in_rect x y result ≡ (in_rect x y self.now && int_le line x) }
        ensures ends { EndsInRange result }
    {
        let (x, w) = span_from(self.x, self.w, line);
        Rect { x, w, ..*self }
    }

    /// What is left of it around a hole that has points: above, to the left, to the right and
    /// below. No two of the four share a point.
    pub(crate) fn around(&self, hole: &Rect) -> [Rect; 4]
        requires ends { EndsInRange self.now }
        requires wide { pos 0 <ℤ hole.now.w }
        requires high { pos 0 <ℤ hole.now.h }
        ensures points { (x y : ℤ) → count_at x y result ≡ bit (in_rect x y self.now && not (in_rect x y hole.now)) }
        ensures ends { All EndsInRange result }
    {
        let beside = self.below(hole.top()).above(hole.bottom());
        [
            self.above(hole.top()),
            beside.left_of(hole.left()),
            beside.right_from(hole.right()),
            self.below(hole.bottom()),
        ]
    }
}
