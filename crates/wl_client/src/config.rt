//! What a compositor is made with.

use wl_blend::Rgb;

/// The output that clients are shown on, and its colour where no window is.
#[derive(Clone, Copy, Debug, PartialEq, Eq)]
pub struct Config {
    /// The output's width in pixels, 1 to 4,096.
    pub width: u32,
    /// The output's height in pixels, 1 to 4,096.
    pub height: u32,
    /// The colour where no window is.
    pub background: Rgb,
}
