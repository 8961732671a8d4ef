//! The output that clients are shown on.

ghost use Rattle.std.specs.Prelude.{◌≤◌};

/// The sides of the output in pixels, each at most 4,096.
#[derive(Clone, Copy, Debug, PartialEq, Eq)]
pub struct Output {
    pub width: u32,
    pub height: u32,
    pub ghost wide: { width ≤ 4096 },
    pub ghost high: { height ≤ 4096 },
}
