//! Sides of windows on an output, and which part of them damage holds.

ghost use Rattle.std.specs.Prelude.{ℕ, ℤ, ◌≡◌, ◌<◌, ◌+ℤ◌, ◌-ℤ◌, ◌&&◌, int_le, int_lt, pos, true};
ghost use Rattle.wl_geom.specs.Rect.{in_span};

use wl_paint::MAX_SIDE;

/// A place, held to those that an output may have and the place just after them.
fn held(at: i64) -> i32
    ensures starts { (z : ℕ) → z < 4096 → int_le result (pos z) ≡ int_le at (pos z) }
    ensures ends { (z : ℕ) → z < 4096 → int_lt (pos z) result ≡ int_lt (pos z) at }
    ensures within { (int_le (pos 0) result && int_le result (pos 4096)) ≡ true }
{
    if at < 0 {
        return 0;
    }
    if at > i64::from(MAX_SIDE) {
        return MAX_SIDE as i32;
    }
    at as i32
}

/// The places from `first` up to `end` that an output may have: where they start, and how many they
/// are.
fn span_between(first: i64, end: i64) -> (i32, i32)
    ensures { (z : ℕ) → z < 4096 → in_span result.0 result.1 (pos z) ≡ (int_le first (pos z) && int_lt (pos z) end) }
{
    let first = held(first);
    (first, held(end) - first)
}

/// The same for a window's side of this length, whose corner is there.
pub(crate) fn side_on_output(corner: i32, side: u32) -> (i32, i32)
    ensures { (z : ℕ) → z < 4096 → in_span result.0 result.1 (pos z) ≡ in_span corner (pos side) (pos z) }
{
    let corner = i64::from(corner);
    span_between(corner, corner + i64::from(side))
}

/// How far from a surface's corner a span begins that is cut there.
fn start_within(start: i32) -> u32
    ensures { (z : ℤ) → int_le (pos result) z ≡ (int_le (pos 0) z && int_le start z) }
{
    if start < 0 {
        return 0;
    }
    start.unsigned_abs()
}

/// How far from a surface's corner a span ends that is cut to the surface's side.
fn end_within(start: i32, length: i32, side: u32) -> u32
    ensures { (z : ℤ) → int_le (pos 0) z ≡ true → int_lt z (pos result) ≡ (int_lt z (pos side) && int_lt z (start +ℤ length)) }
{
    let end = i64::from(start) + i64::from(length);
    if end < 0 {
        return 0;
    }
    if end < i64::from(side) {
        return end as u32;
    }
    side
}

/// The same for a span of a surface, cut to its side, whose corner is there.
pub(crate) fn span_on_output(corner: i32, side: u32, start: i32, length: i32) -> (i32, i32)
    ensures { (z : ℕ) → z < 4096 → in_span result.0 result.1 (pos z) ≡ (in_span corner (pos side) (pos z) && in_span start length (pos z -ℤ corner)) }
{
    let corner = i64::from(corner);
    let first = i64::from(start_within(start));
    let end = i64::from(end_within(start, length, side));
    span_between(corner + first, corner + end)
}
