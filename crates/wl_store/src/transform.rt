ghost use Rattle.std.specs.Prelude.{◌≡◌, ◌<◌, ◌+◌, ℕ, cond};
ghost use Rattle.wl_store.specs.Transform.{IsAlong, buffer_point, is_turned, transform_of};

/// How a buffer is turned and flipped against the surface that shows it (wayland.xml,
/// wl_output.transform).
#[derive(Clone, Copy, Debug, PartialEq, Eq)]
pub enum Transform {
    Normal,
    Rotated90,
    Rotated180,
    Rotated270,
    Flipped,
    Flipped90,
    Flipped180,
    Flipped270,
}

/// Where the shown point of the buffer goes, as one goes along a row of the surface to the right.
#[derive(Clone, Copy, Debug, PartialEq, Eq)]
pub(crate) enum Course {
    Right,
    Left,
    Down,
    Up,
}

impl Transform {
    /// The transform of this number in wl_output.transform.
    pub fn from_number(number: u32) -> Transform
        requires { number < 8 }
        ensures { result ≡ transform_of number }
    {
        match number {
            0 => Transform::Normal,
            1 => Transform::Rotated90,
            2 => Transform::Rotated180,
            3 => Transform::Rotated270,
            4 => Transform::Flipped,
            5 => Transform::Flipped90,
            6 => Transform::Flipped180,
            _ => Transform::Flipped270,
        }
    }

    /// Whether it exchanges width and height: it turns by a quarter.
    pub fn is_turned(self) -> bool
        ensures { result ≡ is_turned self }
    {
        match self {
            Transform::Normal
            | Transform::Rotated180
            | Transform::Flipped
            | Transform::Flipped180 => false,
            Transform::Rotated90
            | Transform::Rotated270
            | Transform::Flipped90
            | Transform::Flipped270 => true,
        }
    }

    /// The point of the buffer that the point (i, j) of a surface shows. The surface is `width` by
    /// `height` points, and isn't scaled.
    pub(crate) fn buffer_point(self, width: u32, height: u32, i: u32, j: u32) -> (u32, u32)
        requires column { i < width }
        requires row { j < height }
        ensures point { result ≡ buffer_point self width height i j }
        ensures column { result.0 < cond (is_turned self) height width }
        ensures row { result.1 < cond (is_turned self) width height }
    {
        let right = width - 1 - i;
        let below = height - 1 - j;
        match self {
            Transform::Normal => (i, j),
            Transform::Rotated90 => (j, right),
            Transform::Rotated180 => (right, below),
            Transform::Rotated270 => (below, i),
            Transform::Flipped => (right, j),
            Transform::Flipped90 => (j, i),
            Transform::Flipped180 => (i, below),
            Transform::Flipped270 => (below, right),
        }
    }

    /// Where the buffer is read along a row of the surface.
    pub(crate) fn course(self) -> Course
        ensures { (w h i j k : ℕ) → i + k < w → IsAlong result k (buffer_point self w h i j) (buffer_point self w h (i + k) j) }
    {
        match self {
            Transform::Normal | Transform::Flipped180 => Course::Right,
            Transform::Rotated180 | Transform::Flipped => Course::Left,
            Transform::Rotated270 | Transform::Flipped90 => Course::Down,
            Transform::Rotated90 | Transform::Flipped270 => Course::Up,
        }
    }
}
