ghost use Rattle.std.specs.Prelude.{◌≡◌, ◌<◌, ◌≤◌, ◌+ℤ◌, ◌<ℤ◌, ◌≤ℤ◌, ◌⊎◌, ◌↔◌, ◌&&◌, ℕ, ℤ, IsTrue, true, false, pos};
ghost use Rattle.wl_geom.specs.Rect.{in_rect};

use crate::span::{count_before_span, count_in_span, end_of, is_in_span, may_meet};

/// A rectangle of points: the columns from `x` to `x + w - 1` of the rows from `y` to `y + h - 1`.
/// One whose width or height is not above 0 has no points.
#[derive(Clone, Copy, Debug, PartialEq, Eq)]
pub struct Rect {
    pub x: i32,
    pub y: i32,
    pub w: i32,
    pub h: i32,
}

impl Rect {
    /// Whether the point (x, y) is in it.
    pub fn contains(&self, x: i32, y: i32) -> bool
        ensures { result ≡ in_rect x y self.now }
    {
        is_in_span(self.x, self.w, x) && is_in_span(self.y, self.h, y)
    }

    /// How many of the `count` points from (x, y) to the right come before the first that is in it.
    pub(crate) fn count_before(&self, x: i32, y: i32, count: u32) -> u32
        requires { 1 ≤ count }
        ensures outside { (i : ℕ) → i < result → in_rect (x +ℤ pos i) y self.now ≡ false }
        ensures stops { result ≡ 0 → in_rect x y self.now ≡ true }
        ensures within { result ≤ count }
    {
        if !is_in_span(self.y, self.h, y) {
            return count;
        }
        count_before_span(self.x, self.w, x, count)
    }

    /// How many of the `count` points from (x, y) to the right are in it, up to the first that
    /// isn't.
    pub(crate) fn count_inside(&self, x: i32, y: i32, count: u32) -> u32
        requires { 1 ≤ count }
        ensures inside { (i : ℕ) → i < result → in_rect (x +ℤ pos i) y self.now ≡ true }
        ensures stops { result ≡ 0 → in_rect x y self.now ≡ false }
        ensures within { result ≤ count }
    {
        if !is_in_span(self.y, self.h, y) {
            return 0;
        }
        count_in_span(self.x, self.w, x, count)
    }

    pub(crate) fn is_empty(&self) -> bool
        ensures { IsTrue result ↔ ((self.now.w ≤ℤ pos 0) ⊎ (self.now.h ≤ℤ pos 0)) }
    {
        self.w <= 0 || self.h <= 0
    }

    /// Whether it shares no point with the other. One without points shares none.
    pub(crate) fn misses(&self, other: &Rect) -> bool
        ensures apart { IsTrue result → (x y : ℤ) → (in_rect x y self.now && in_rect x y other.now) ≡ false }
        ensures wide { result ≡ false → pos 0 <ℤ other.now.w }
        ensures high { result ≡ false → pos 0 <ℤ other.now.h }
    {
        other.is_empty() || !self.may_meet(other)
    }

    /// Whether it shares points with the other, if both have points.
    fn may_meet(&self, other: &Rect) -> bool
        ensures { result ≡ false → (x y : ℤ) → (in_rect x y self.now && in_rect x y other.now) ≡ false }
    {
        may_meet(self.x, self.w, other.x, other.w) && may_meet(self.y, self.h, other.y, other.h)
    }

    pub(crate) fn left(&self) -> i64
        ensures { result ≡ self.now.x }
    {
        i64::from(self.x)
    }

    pub(crate) fn top(&self) -> i64
        ensures { result ≡ self.now.y }
    {
        i64::from(self.y)
    }

    pub(crate) fn right(&self) -> i64
        ensures { result ≡ self.now.x +ℤ self.now.w }
    {
        end_of(self.x, self.w)
    }

    pub(crate) fn bottom(&self) -> i64
        ensures { result ≡ self.now.y +ℤ self.now.h }
    {
        end_of(self.y, self.h)
    }
}
