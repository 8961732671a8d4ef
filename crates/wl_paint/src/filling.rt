//! Runs of pixels of one colour.
ghost use Rattle.std.specs.Prelude.{◌≡◌, ℕ, ◌+◌, ◌*◌, ◌%◌, ◌<◌, ◌≤◌, ◌≢◌, ◌⊎◌, length};
ghost use Rattle.wl_paint.specs.Painting.{opaque, pixel_of};

use std::simd::prelude::*;
use wl_blend::Rgb;

/// Writes pixel `k`, and no other.
fn write_color(pixels: &mut [u8], k: usize, color: Rgb)
    requires { 4 * k + 3 < length pixels.old }
    ensures written { pixel_of pixels.new k ≡ opaque color }
    ensures others { (i : ℕ) → i ≢ k → pixel_of pixels.new i ≡ pixel_of pixels.old i }
{
    pixels[4 * k] = color.b;
    pixels[4 * k + 1] = color.g;
    pixels[4 * k + 2] = color.r;
    pixels[4 * k + 3] = 255;
}

/// Writes the four pixels from pixel `first` on, and no others.
fn write_four(pixels: &mut [u8], first: usize, color: Rgb)
    requires { 4 * (first + 4) ≤ length pixels.old }
    ensures written { (k : ℕ) → first ≤ k → k < first + 4 → pixel_of pixels.new k ≡ opaque color }
    ensures others { (k : ℕ) → (k < first) ⊎ (first + 4 ≤ k) → pixel_of pixels.new k ≡ pixel_of pixels.old k }
{
    let Rgb { r, g, b } = color;
    let four = u8x16::from_array([b, g, r, 255, b, g, r, 255, b, g, r, 255, b, g, r, 255]);
    four.copy_to_slice(&mut pixels[4 * first..]);
}

/// Fills a run of pixels with one colour from pixel `first` on.
fn fill_rest(run: &mut [u8], first: usize, color: Rgb)
    requires { length run.old % 4 ≡ 0 }
    ensures filled { (k : ℕ) → first ≤ k → 4 * k < length run.old → pixel_of run.new k ≡ opaque color }
    ensures before { (k : ℕ) → k < first → pixel_of run.new k ≡ pixel_of run.old k }
{
    for k in first..run.len() / 4 {
        write_color(run, k, color);
    }
}

/// Fills a run of pixels with one colour.
pub(crate) fn fill_run(run: &mut [u8], color: Rgb)
    requires { length run.old % 4 ≡ 0 }
    ensures { (i : ℕ) → 4 * i < length run.old → pixel_of run.new i ≡ opaque color }
{
    let fours = run.len() / 16;
    for i in 0..fours {
        write_four(run, 4 * i, color);
    }
    fill_rest(run, 4 * fours, color);
}
