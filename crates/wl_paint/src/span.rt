ghost use Rattle.std.specs.Prelude.{◌≡◌, ◌||◌, IsTrue, true, ℕ, ℤ, ◌+◌, ◌+ℤ◌, ◌-ℤ◌, ◌<◌, ◌≤◌, pos, int_lt, nat_lt};
ghost use Rattle.wl_geom.specs.Rect.{in_span};
ghost use Rattle.wl_paint.specs.Damage.{is_between};
ghost use Rattle.wl_paint.specs.Blocks.{is_in_block};

/// A part of a list of pixels: `count` of them, from pixel `first` on.
#[derive(Clone, Copy)]
pub(crate) struct Part {
    pub first: usize,
    pub count: usize,
}

/// The columns or the rows from `first` up to `end`.
#[derive(Clone, Copy)]
pub(crate) struct Span {
    pub first: u32,
    pub end: u32,
}

impl Span {
    /// No columns or rows.
    pub(crate) const NONE: Span = Span { first: 0, end: 0 };

    /// How many there are.
    fn len(&self) -> u32 {
        self.end.saturating_sub(self.first)
    }

    /// Both joined, if they touch, else the longer of the two.
    pub(crate) fn joined(self, other: Span) -> Span
        ensures { (at : ℕ) → is_between result.first result.end at ≡ true
            → (is_between self.first self.end at || is_between other.first other.end at) ≡ true }
    {
        if self.first <= other.end && other.first <= self.end {
            Span {
                first: self.first.min(other.first),
                end: self.end.max(other.end),
            }
        } else if self.len() < other.len() {
            other
        } else {
            self
        }
    }

    /// Whether all of the other lies in it.
    fn has_all(&self, other: Span) -> bool
        ensures { IsTrue result → (at : ℕ) → is_between other.first other.end at ≡ true → is_between self.now.first self.now.end at ≡ true }
    {
        self.first <= other.first && other.end <= self.end
    }
}

/// The points in both the columns and the rows.
#[derive(Clone, Copy)]
pub(crate) struct Block {
    pub columns: Span,
    pub rows: Span,
}

impl Block {
    /// No points.
    pub(crate) const NONE: Block = Block {
        columns: Span::NONE,
        rows: Span::NONE,
    };

    /// Whether all of the other lies in it.
    pub(crate) fn has_all(&self, other: Block) -> bool
        ensures { IsTrue result → (x y : ℕ) → is_in_block x y other ≡ true → is_in_block x y self.now ≡ true }
    {
        self.columns.has_all(other.columns) && self.rows.has_all(other.rows)
    }

    /// The one that has more points.
    pub(crate) fn larger(self, other: Block) -> Block
        ensures { (x y : ℕ) → is_in_block x y result ≡ true → (is_in_block x y self || is_in_block x y other) ≡ true }
    {
        if self.area() < other.area() {
            other
        } else {
            self
        }
    }

    fn area(&self) -> u64 {
        u64::from(self.columns.len()) * u64::from(self.rows.len())
    }
}

/// The place, held to 0 to `size`.
fn held_to(place: i64, size: u32) -> u32
    ensures same { (at : ℕ) → at < size → nat_lt at result ≡ int_lt (pos at) place }
    ensures within { result ≤ size }
{
    if place <= 0 {
        0
    } else if place >= i64::from(size) {
        size
    } else {
        place as u32
    }
}

/// The place after the last of the `len` places from the start on.
fn end_of(start: i32, len: i32) -> i64
    ensures { result ≡ start +ℤ len }
{
    i64::from(start) + i64::from(len)
}

/// The part of a span of `len` places that lies from 0 up to `size`, by its start and its end.
pub(crate) fn clipped(start: i32, len: i32, size: u32) -> (u32, u32)
    ensures same { (at : ℕ) → at < size → in_span start len (pos at) ≡ is_between result.0 result.1 at }
    ensures order { result.0 ≤ result.1 }
    ensures within { result.1 ≤ size }
{
    let first = held_to(i64::from(start), size);
    let end = held_to(end_of(start, len), size);
    (first, end.max(first))
}

/// How far the start is from a place.
fn start_from(start: i32, at: u32) -> i64
    ensures { result ≡ start -ℤ pos at }
{
    i64::from(start) - i64::from(at)
}

/// How far the end of the `len` places from the start on is from a place.
fn end_from(start: i32, len: u32, at: u32) -> i64
    ensures { result ≡ (start +ℤ pos len) -ℤ pos at }
{
    i64::from(start) + i64::from(len) - i64::from(at)
}

/// The part of the `count` places from `at` on that lies in a span, by its start and its end,
/// counted from `at`.
pub(crate) fn part_in(start: i32, len: u32, at: u32, count: u32) -> (u32, u32)
    ensures same { (i : ℕ) → i < count → in_span start (pos len) (pos (at + i)) ≡ is_between result.0 result.1 i }
    ensures order { result.0 ≤ result.1 }
    ensures within { result.1 ≤ count }
{
    let first = held_to(start_from(start, at), count);
    let end = held_to(end_from(start, len, at), count);
    (first, end.max(first))
}
