//! Where a popup lies on one axis (xdg-shell.xml, xdg_positioner). Places are in pixels from the
//! corner of its parent's window geometry.

ghost use Rattle.std.specs.Prelude.{◌≡◌, ◌-◌, ◌+ℤ◌, ◌-ℤ◌, ◌^◌, ◌≤ℤ◌, neg_ℤ, pos};
ghost use Rattle.wl_shell.specs.Placing.{IsNear, IsUpTo, axis_of, edge_of, end_within, first_within};
ghost use Rattle.wl_shell.specs.Positioner.{edge_x, edge_y, flipped, is_constrained, nearest, part_within, placed_on, resized, slid, start_of, up_to_edge};

/// The place that is `by` behind another one, or before it.
fn sum(place: i64, by: i64) -> i64
    requires place { IsNear place }
    requires by { IsNear by }
    ensures { result ≡ place +ℤ by }
{
    place + by
}

fn difference(place: i64, from: i64) -> i64
    requires place { IsNear place }
    requires from { IsNear from }
    ensures { result ≡ place -ℤ from }
{
    place - from
}

/// How far the second place is behind the first, which isn't behind it.
fn distance(from: i64, to: i64) -> i32
    requires ordered { from ≤ℤ to }
    requires near { (to -ℤ from) ≤ℤ pos (2 ^ 31 - 1) }
    ensures { result ≡ to -ℤ from }
{
    (to - from) as i32
}

/// On which side an anchor or gravity lies on one axis.
#[derive(Clone, Copy, Debug, PartialEq, Eq)]
pub(crate) enum Edge {
    /// Left or top.
    Start,
    Middle,
    /// Right or bottom.
    End,
}

impl Edge {
    /// On the horizontal axis, by the number of an anchor or gravity.
    pub(crate) fn across(number: u32) -> Edge
        ensures { edge_of result ≡ edge_x number }
    {
        match number {
            3 | 5 | 6 => Edge::Start,
            4 | 7 | 8 => Edge::End,
            _ => Edge::Middle,
        }
    }

    /// On the vertical axis, by the number of an anchor or gravity.
    pub(crate) fn down(number: u32) -> Edge
        ensures { edge_of result ≡ edge_y number }
    {
        match number {
            1 | 5 | 7 => Edge::Start,
            2 | 6 | 8 => Edge::End,
            _ => Edge::Middle,
        }
    }

    fn opposite(self) -> Edge
        ensures { edge_of result ≡ neg_ℤ (edge_of self) }
    {
        match self {
            Edge::Start => Edge::End,
            Edge::Middle => Edge::Middle,
            Edge::End => Edge::Start,
        }
    }

    /// How much of a length lies before the edge: nothing, half of it (rounded down), or all.
    fn before(self, length: i32) -> i64
        ensures exact { result ≡ up_to_edge (edge_of self) length }
        ensures low { neg_ℤ (pos (2 ^ 31)) ≤ℤ result }
        ensures high { result ≤ℤ pos (2 ^ 31) }
    {
        match self {
            Edge::Start => 0,
            Edge::Middle => i64::from(length.unsigned_abs() / 2),
            Edge::End => i64::from(length),
        }
    }
}

/// How a popup is to lie on one axis.
#[derive(Clone, Copy)]
pub(crate) struct Axis {
    /// Where the anchor rectangle begins.
    pub start: i32,
    /// How long the anchor rectangle is.
    pub length: i32,
    /// How long the popup is.
    pub size: i32,
    pub offset: i32,
    pub anchor: Edge,
    pub gravity: Edge,
}

impl Axis {
    /// Where the popup begins: at the anchor, less the part that gravity puts before it, moved by
    /// the offset.
    fn popup_start(&self) -> i64
        ensures exact { result ≡ start_of (axis_of self.now) }
        ensures near { IsNear result }
    {
        let anchor = sum(i64::from(self.start), self.anchor.before(self.length));
        let before = self.gravity.opposite().before(self.size);
        sum(difference(anchor, before), i64::from(self.offset))
    }

    /// The same with anchor and gravity on the other side.
    fn flipped(&self) -> Axis
        ensures { axis_of result ≡ flipped (axis_of self.now) }
    {
        Axis {
            anchor: self.anchor.opposite(),
            gravity: self.gravity.opposite(),
            ..*self
        }
    }
}

/// Which adjustments are allowed on one axis.
#[derive(Clone, Copy)]
pub(crate) struct Allowed {
    pub flip: bool,
    pub slide: bool,
    pub resize: bool,
}

/// The bounds within which a popup should lie on one axis, in pixels of the output, and where its
/// parent's corner stands there.
#[derive(Clone, Copy)]
pub(crate) struct Bounds {
    pub start: i32,
    pub length: i32,
    pub corner: i32,
}

impl Bounds {
    fn first(&self) -> i64
        ensures exact { result ≡ first_within self.now }
        ensures near { IsUpTo (2 ^ 34) result }
    {
        difference(i64::from(self.start), i64::from(self.corner))
    }

    fn end(&self) -> i64
        ensures exact { result ≡ end_within self.now }
        ensures near { IsUpTo (2 ^ 34) result }
    {
        let end = sum(i64::from(self.start), i64::from(self.length));
        difference(end, i64::from(self.corner))
    }

    /// Whether a popup of this length that begins there passes the bounds.
    fn constrain(&self, start: i64, size: i32) -> bool
        requires { IsNear start }
        ensures { result ≡ is_constrained (first_within self.now) (end_within self.now) start size }
    {
        start < self.first() || self.end() < sum(start, i64::from(size))
    }

    /// The place nearest to `start` where a popup of this length lies within the bounds. A popup
    /// that is too long begins or ends with them.
    fn nearest(&self, start: i64, size: i32) -> i64
        requires { IsNear start }
        ensures exact { result ≡ nearest (first_within self.now) (end_within self.now) start size }
        ensures near { IsNear result }
    {
        let first = self.first();
        let last = difference(self.end(), i64::from(size));
        first.min(last).max(start.min(first.max(last)))
    }

    fn slid(&self, slide: bool, start: i64, size: i32) -> i64
        requires { IsNear start }
        ensures exact { result ≡ slid slide (first_within self.now) (end_within self.now) start size }
        ensures near { IsNear result }
    {
        if slide {
            self.nearest(start, size)
        } else {
            start
        }
    }

    /// The part of such a popup that lies within the bounds, or all of it if none does.
    fn part_within(&self, start: i64, size: i32) -> (i64, i32)
        requires { IsNear start }
        ensures { result ≡ part_within (first_within self.now) (end_within self.now) start size }
    {
        let from = self.first().max(start);
        let to = self.end().min(sum(start, i64::from(size)));
        if from < to {
            (from, distance(from, to))
        } else {
            (start, size)
        }
    }

    fn resized(&self, resize: bool, start: i64, size: i32) -> (i64, i32)
        requires { IsNear start }
        ensures { result ≡ resized resize (first_within self.now) (end_within self.now) start size }
    {
        if resize && self.constrain(start, size) {
            self.part_within(start, size)
        } else {
            (start, size)
        }
    }

    /// Where the popup begins on the axis, and how long it is (xdg-shell.xml,
    /// xdg_positioner.set_constraint_adjustment). Each adjustment is made only if it is allowed and
    /// the popup doesn't fit yet:
    /// - it is flipped, if it fits then;
    /// - it slides to the nearest place;
    /// - it is cut to the bounds.
    pub(crate) fn place(&self, axis: &Axis, allowed: Allowed) -> (i64, i32)
        ensures { result ≡ placed_on allowed.flip allowed.slide allowed.resize (first_within self.now) (end_within self.now) (axis_of axis.now) }
    {
        let start = axis.popup_start();
        if !self.constrain(start, axis.size) {
            return (start, axis.size);
        }
        let flipped = axis.flipped().popup_start();
        if allowed.flip && !self.constrain(flipped, axis.size) {
            return (flipped, axis.size);
        }
        let start = self.slid(allowed.slide, start, axis.size);
        self.resized(allowed.resize, start, axis.size)
    }
}
