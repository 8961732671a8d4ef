ghost use Rattle.std.specs.Prelude.{◌≡◌, ◌+◌, ◌*◌, ◌<◌, ◌≤◌, ◌↔◌, ◌&&◌, ◌++◌, ℕ, length, pos, true, false, IfOk, OnOk, IsErrOf};
ghost use Rattle.wl_paint.specs.Damage.{has};
ghost use Rattle.wl_paint.specs.Frame.{IsImage, color_at, filled, is_side};
ghost use Rattle.wl_paint.specs.Window.{AreOpaqueAsSaid, scratch};

use crate::damage::Damage;
use crate::painting::{Layers, paint_rows};
use crate::windows::Windows;
use std::alloc::{AllocError, Allocator};
use std::marker::Model;
use thiserror::Error;
use wl_blend::Rgb;

/// The greatest side of an output, in pixels.
pub const MAX_SIDE: u32 = 4096;

/// Why there is no framebuffer.
#[derive(Clone, Copy, Debug, PartialEq, Eq, Error)]
pub enum FrameError {
    /// A side is 0 or above `MAX_SIDE`.
    #[error("a side is 0 or above 4096")]
    BadSize = 1,
    #[error("out of memory")]
    Memory = 2,
}

/// An image of 4 bytes a pixel, blue, green, red and 255, row by row from the top. It keeps its
/// background: the colour where no window is.
#[derive(Drop)]
pub struct Framebuffer<A: Allocator> {
    width: u32,
    height: u32,
    background: Rgb,
    bytes: Vec<u8, A>,
}

impl<A: Allocator> Model for Framebuffer<A> {
    ghost use Rattle.wl_paint.specs.Frame.{Image, IsImage};

    ghost Value = { Image };

    ghost view = { λ f. record { width = f.width; height = f.height; background = f.background; pixels = f.bytes.items } };

    ghost invariant = { λ f. IsImage (record { width = f.width; height = f.height; background = f.background; pixels = f.bytes.items }) };
}

/// Whether an output may have this side: 1 to [`MAX_SIDE`] pixels.
pub fn is_side(side: u32) -> bool
    ensures { result ≡ is_side side }
{
    1 <= side && side <= MAX_SIDE
}

/// Appends `count` pixels of one colour.
fn fill<A: Allocator>(bytes: &mut Vec<u8, A>, count: usize, color: Rgb) -> Result<(), AllocError>
    ensures { OnOk result (bytes.new.items ≡ bytes.old.items ++ filled count color) }
{
    let pixel = [color.b, color.g, color.r, 255];
    for _ in 0..count {
        bytes.extend_from_slice(&pixel)?;
    }
    Ok(())
}

impl<A: Allocator> Framebuffer<A> {
    /// An image of one colour; its sides are in pixels.
    pub fn new(alloc: A, width: u32, height: u32, background: Rgb) -> Result<Self, FrameError>
        ensures width { IfOk result (λ frame. frame.width ≡ width) }
        ensures height { IfOk result (λ frame. frame.height ≡ height) }
        ensures background { IfOk result (λ frame. frame.background ≡ background) }
        ensures pixels { IfOk result (λ frame. frame.pixels ≡ filled (width * height) background) }
        ensures colors { IfOk result (λ frame. (x y : ℕ) → x < width → y < height → color_at frame x y ≡ background) }
        ensures sides { OnOk result ((is_side width && is_side height) ≡ true) }
        ensures bad { IsErrOf result FrameError.BadSize ↔ ((is_side width && is_side height) ≡ false) }
    {
        if !is_side(width) || !is_side(height) {
            return Err(FrameError::BadSize);
        }
        let count = width as usize * height as usize;
        match filled_bytes(alloc, count, background) {
            Ok(bytes) => Ok(Framebuffer {
                width,
                height,
                background,
                bytes,
            }),
            Err(AllocError) => Err(FrameError::Memory),
        }
    }

    /// In pixels.
    pub fn width(&self) -> u32
        ensures { result ≡ self.now.width }
    {
        self.width
    }

    /// In pixels.
    pub fn height(&self) -> u32
        ensures { result ≡ self.now.height }
    {
        self.height
    }

    /// The bytes of the image: blue, green, red and 255 for each pixel, row by row from the top.
    pub fn pixels(&self) -> &[u8]
        ensures bytes { result.now ≡ self.now.pixels }
        ensures len { length result.now ≡ 4 * (self.now.width * self.now.height) }
        ensures image { IsImage self.now }
    {
        &self.bytes
    }

    /// Paints each damaged point from nothing: the background, and over it the colour of each
    /// window that contains the point. The other points stay. It takes no memory.
    ///
    /// The damage and the image have the same sides. A damaged point may get any colour if a window
    /// isn't opaque there although its opaque region holds the point.
    pub fn paint<W: Windows>(&mut self, damage: &Damage<A>, windows: &W)
        requires wide { damage.now.width ≡ self.old.width }
        requires high { damage.now.height ≡ self.old.height }
        ensures damaged { (x y : ℕ) → x < self.old.width → y < self.old.height → has damage.now x y ≡ true
            → AreOpaqueAsSaid (pos x) (pos y) (W.windows windows.now)
            → color_at self.new x y ≡ scratch self.old.background (W.windows windows.now) (pos x) (pos y) }
        ensures kept { (x y : ℕ) → x < self.old.width → y < self.old.height → has damage.now x y ≡ false
            → color_at self.new x y ≡ color_at self.old x y }
        ensures width { self.new.width ≡ self.old.width }
        ensures height { self.new.height ≡ self.old.height }
        ensures background { self.new.background ≡ self.old.background }
        ensures channels { (self.old.background.r ≤ 255) × (self.old.background.g ≤ 255) × (self.old.background.b ≤ 255) }
    {
        let layers = Layers {
            background: self.background,
            windows,
        };
        paint_rows(&mut self.bytes, self.width, self.height, damage, &layers);
    }
}

/// The bytes of `count` pixels of one colour.
fn filled_bytes<A: Allocator>(alloc: A, count: usize, color: Rgb) -> Result<Vec<u8, A>, AllocError>
    requires { count ≤ 4096 * 4096 }
    ensures { IfOk result (λ bytes. bytes.items ≡ filled count color) }
{
    let mut bytes = Vec::with_capacity(alloc, 4 * count)?;
    fill(&mut bytes, count, color)?;
    Ok(bytes)
}
