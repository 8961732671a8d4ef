//! Damage of a buffer, as damage of the surface that shows it.

ghost use Rattle.std.specs.Prelude.{ℕ, ◌≡◌, ◌+◌, ◌-◌, ◌*◌, ◌^◌, ◌<◌, ◌≤◌, ◌+ℤ◌, ◌≤ℤ◌, ◌&&◌, cond, pos};
ghost use Rattle.wl_geom.specs.Rect.{in_rect, in_span};
ghost use Rattle.wl_surface.specs.State.{meets, overlap};
ghost use Rattle.wl_store.specs.Transform.{buffer_point, is_turned};

use wl_geom::Rect;
use wl_store::Transform;

/// `count` numbers from `first` on, along one side of a surface.
#[derive(Clone, Copy)]
struct Span {
    first: u32,
    count: u32,
}

impl Span {
    /// The span as it is counted from the other end of the side.
    fn mirrored(self, side: u32) -> Span
        requires { self.first + self.count ≤ side }
        ensures within { result.first + result.count ≤ side }
        ensures points { (z : ℕ) → z < side
            → in_span (pos result.first) (pos result.count) (pos z) ≡ in_span (pos self.first) (pos self.count) (pos (side - 1 - z)) }
    {
        Span {
            first: side - self.first - self.count,
            count: self.count,
        }
    }
}

/// The place, held within 0 to the limit.
fn held_to(limit: u64, place: i64) -> u64
    ensures held { result ≤ limit }
    ensures below { place ≤ℤ pos 0 → result ≡ 0 }
    ensures within { pos 0 ≤ℤ place → place ≤ℤ pos limit → pos result ≡ place }
    ensures beyond { pos limit ≤ℤ place → result ≡ limit }
{
    if place <= 0 {
        return 0;
    }
    limit.min(place as u64)
}

/// The blocks that have one of the `len` points from `start` on. A block has `scale` points, and
/// `side` blocks stand in a row.
fn block_span(start: i32, len: i32, side: u32, scale: u32) -> Span
    requires { 1 ≤ scale }
    ensures within { result.first + result.count ≤ side }
    ensures blocks { (z : ℕ) → z < side
        → in_span (pos result.first) (pos result.count) (pos z) ≡ overlap start (start +ℤ len) (pos (z * scale)) (pos (z * scale + scale)) }
{
    let scale = u64::from(scale);
    let limit = u64::from(side) * scale;
    let from = held_to(limit, i64::from(start));
    let to = held_to(limit, i64::from(start) + i64::from(len));
    if to <= from {
        return Span { first: 0, count: 0 };
    }
    let first = from / scale;
    let last = (to - 1) / scale;
    Span {
        first: first as u32,
        count: (last - first) as u32 + 1,
    }
}

/// The rectangle of these columns and rows.
fn rect_of(columns: Span, rows: Span) -> Rect
    requires columns { columns.first + columns.count < 2 ^ 31 }
    requires rows { rows.first + rows.count < 2 ^ 31 }
    ensures { (x y : ℕ) → in_rect (pos x) (pos y) result
        ≡ (in_span (pos columns.first) (pos columns.count) (pos x) && in_span (pos rows.first) (pos rows.count) (pos y)) }
{
    Rect {
        x: columns.first as i32,
        y: rows.first as i32,
        w: columns.count as i32,
        h: rows.count as i32,
    }
}

/// Two sides, exchanged if the transform exchanges them.
fn turned(transform: Transform, w: u32, h: u32) -> (u32, u32)
    ensures { result ≡ (cond (is_turned transform) h w, cond (is_turned transform) w h) }
{
    if transform.is_turned() {
        (h, w)
    } else {
        (w, h)
    }
}

/// The points of a surface of `w` by `h` that show these blocks of its buffer. A block is given by
/// its column and row in the buffer.
fn shown_at(across: Span, down: Span, transform: Transform, w: u32, h: u32) -> Rect
    requires across { across.first + across.count ≤ cond (is_turned transform) h w }
    requires down { down.first + down.count ≤ cond (is_turned transform) w h }
    requires width { w < 2 ^ 31 }
    requires height { h < 2 ^ 31 }
    ensures { (x y : ℕ) → x < w → y < h → let point = buffer_point transform w h x y in in_rect (pos x) (pos y) result
        ≡ (in_span (pos across.first) (pos across.count) (pos point.0) && in_span (pos down.first) (pos down.count) (pos point.1)) }
{
    match transform {
        Transform::Normal => rect_of(across, down),
        Transform::Rotated90 => rect_of(down.mirrored(w), across),
        Transform::Rotated180 => rect_of(across.mirrored(w), down.mirrored(h)),
        Transform::Rotated270 => rect_of(down, across.mirrored(h)),
        Transform::Flipped => rect_of(across.mirrored(w), down),
        Transform::Flipped90 => rect_of(down, across),
        Transform::Flipped180 => rect_of(across, down.mirrored(h)),
        Transform::Flipped270 => rect_of(down.mirrored(w), across.mirrored(h)),
    }
}

/// The points of a surface of `w` by `h` that a rectangle of points of its buffer damages
/// (wayland.xml, wl_surface.damage_buffer, set_buffer_scale). Each point shows a block of `scale`
/// by `scale` points of the buffer. It is damaged if its block has a point in the rectangle.
pub(crate) fn on_surface(rect: Rect, transform: Transform, scale: u32, w: u32, h: u32) -> Rect
    requires scale { 1 ≤ scale }
    requires width { w < 2 ^ 31 }
    requires height { h < 2 ^ 31 }
    ensures { (x y : ℕ) → x < w → y < h → in_rect (pos x) (pos y) result ≡ meets scale (buffer_point transform w h x y) rect }
{
    let (columns, rows) = turned(transform, w, h);
    let across = block_span(rect.x, rect.w, columns, scale);
    let down = block_span(rect.y, rect.h, rows, scale);
    shown_at(across, down, transform, w, h)
}
