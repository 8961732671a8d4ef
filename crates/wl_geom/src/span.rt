//! Spans of one coordinate: the `len` numbers from `start` on. There are none if `len` isn't above
//! 0. An end may lie past the last coordinate, so ends are computed in 64 bits.

ghost use Rattle.std.specs.Prelude.{◌≡◌, ◌^◌, ◌<◌, ◌≤◌, ◌+ℤ◌, ◌-ℤ◌, ◌<ℤ◌, ◌≤ℤ◌, ◌&&◌, ℕ, ℤ, true, false, int_le, int_lt, nat_lt, pos};
ghost use Rattle.wl_geom.specs.Rect.{in_span};

/// Whether `at` is in the span.
pub(crate) fn is_in_span(start: i32, len: i32, at: i32) -> bool
    ensures { result ≡ in_span start len at }
{
    start <= at && i64::from(at) < end_of(start, len)
}

/// The number after the last of the span, if it has any.
pub(crate) fn end_of(start: i32, len: i32) -> i64
    ensures { result ≡ start +ℤ len }
{
    i64::from(start) + i64::from(len)
}

/// Whether two spans share a number, if both have some. One without any may seem to share one.
pub(crate) fn may_meet(start: i32, len: i32, other: i32, other_len: i32) -> bool
    ensures { result ≡ false → (at : ℤ) → (in_span start len at && in_span other other_len at) ≡ false }
{
    i64::from(start) < end_of(other, other_len) && i64::from(other) < end_of(start, len)
}

/// The difference of two places that are near each other.
fn distance(from: i64, to: i64) -> i32
    requires ordered { from ≤ℤ to }
    requires near { (to -ℤ from) <ℤ pos (2 ^ 31) }
    ensures { result ≡ to -ℤ from }
{
    (to - from) as i32
}

/// How many numbers of the span come before the line.
pub(crate) fn len_before(start: i32, len: i32, line: i64) -> i32
    ensures points { (at : ℤ) → in_span start result at ≡ (in_span start len at && int_lt at line) }
    ensures before { start ≤ℤ line → (start +ℤ result) ≤ℤ line }
    ensures ends { (start +ℤ len) ≤ℤ pos (2 ^ 31) → (start +ℤ result) ≤ℤ pos (2 ^ 31) }
{
    let first = i64::from(start);
    if line <= first {
        0
    } else if line < end_of(start, len) {
        distance(first, line)
    } else {
        len
    }
}

/// The start and the length of the part of the span from the line on.
pub(crate) fn span_from(start: i32, len: i32, line: i64) -> (i32, i32)
    requires { (start +ℤ len) ≤ℤ pos (2 ^ 31) }
    ensures points { (at : ℤ) → in_span result.0 result.1 at ≡ (in_span start len at && int_le line at) }
    ensures ends { (result.0 +ℤ result.1) ≤ℤ pos (2 ^ 31) }
{
    let end = end_of(start, len);
    if line <= i64::from(start) {
        (start, len)
    } else if line < end {
        (line as i32, distance(line, end))
    } else {
        (start, 0)
    }
}

/// How many of the `count` numbers from `from` on come before the line.
fn count_before(from: i32, count: u32, line: i64) -> u32
    ensures before { (i : ℕ) → i < count → nat_lt i result ≡ int_lt (from +ℤ pos i) line }
    ensures within { result ≤ count }
{
    let first = i64::from(from);
    if line <= first {
        0
    } else if line < first + i64::from(count) {
        (line - first) as u32
    } else {
        count
    }
}

/// How many of the `count` numbers from `from` on come before the first that is in the span.
pub(crate) fn count_before_span(start: i32, len: i32, from: i32, count: u32) -> u32
    requires { 1 ≤ count }
    ensures outside { (i : ℕ) → i < result → in_span start len (from +ℤ pos i) ≡ false }
    ensures stops { result ≡ 0 → in_span start len from ≡ true }
    ensures within { result ≤ count }
{
    if from < start {
        count_before(from, count, i64::from(start))
    } else if is_in_span(start, len, from) {
        0
    } else {
        count
    }
}

/// How many of the `count` numbers from `from` on are in the span, up to the first that isn't.
pub(crate) fn count_in_span(start: i32, len: i32, from: i32, count: u32) -> u32
    requires { 1 ≤ count }
    ensures inside { (i : ℕ) → i < result → in_span start len (from +ℤ pos i) ≡ true }
    ensures stops { result ≡ 0 → in_span start len from ≡ false }
    ensures within { result ≤ count }
{
    if from < start {
        return 0;
    }
    count_before(from, count, end_of(start, len))
}

/// The place at this distance from the start.
pub(crate) fn place_after(start: i32, distance: u32) -> i32
    requires { (start +ℤ pos distance) <ℤ pos (2 ^ 31) }
    ensures { result ≡ start +ℤ pos distance }
{
    (i64::from(start) + i64::from(distance)) as i32
}
