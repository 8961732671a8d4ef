//! Frames and their reports.

use std::alloc::Allocator;
use wl_paint::{Damage, Framebuffer};

/// What a tick shows.
#[derive(Drop)]
pub struct Frame<'a, A: Allocator> {
    /// The whole image.
    pub pixels: &'a Framebuffer<A>,
    /// The points that were painted for it. Every other point is as in the frame before.
    pub damage: &'a Damage<A>,
    /// The tick's time, in milliseconds.
    pub time: u32,
}

/// Damaged pixels side by side: those of row `y` from column `x` on, `w` of them.
#[derive(Clone, Copy, Debug, PartialEq, Eq)]
pub struct Run {
    pub x: u32,
    pub y: u32,
    pub w: u32,
}

/// A copy of a frame.
#[derive(Debug, Drop)]
pub struct Shot<A: Allocator> {
    /// The tick's time, in milliseconds.
    pub time: u32,
    /// The points that were painted, row by row from the top.
    pub runs: Vec<Run, A>,
    /// Blue, green, red and 255 for each pixel, row by row from the top.
    pub pixels: Vec<u8, A>,
}
