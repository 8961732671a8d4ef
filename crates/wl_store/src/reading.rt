//! Pixels read one by one from places that lie the same distance apart.
ghost use Rattle.std.specs.Prelude.{◌≡◌, ◌+◌, ◌-◌, ◌*◌, ◌%◌, ◌≤◌, ◌<◌, ◌⊎◌, ℕ, length, slice_index};

use std::simd::prelude::*;

/// The pixel of four bytes that begins at `at`.
fn pixel_from(bytes: &[u8], at: usize) -> u8x4
    requires { at + 4 ≤ length bytes.now }
    ensures lanes { (b : ℕ) → b < 4 → slice_index result b ≡ slice_index bytes.now (at + b) }
    ensures count { length result ≡ 4 }
{
    u8x4::from_slice(&bytes[at..])
}

/// Writes pixel `k` of a run, and no other.
fn put_pixel(run: &mut [u8], k: usize, pixel: u8x4)
    requires room { 4 * k + 4 ≤ length run.old }
    requires count { length pixel ≡ 4 }
    ensures lanes { (b : ℕ) → b < 4 → slice_index run.new (4 * k + b) ≡ slice_index pixel b }
    ensures others { (n : ℕ) → (n < 4 * k) ⊎ (4 * k + 4 ≤ n) → slice_index run.new n ≡ slice_index run.old n }
{
    pixel.copy_to_slice(&mut run[4 * k..]);
}

/// Puts the four bytes from `at` on into pixel `k` of a run.
fn copy_pixel(run: &mut [u8], k: usize, bytes: &[u8], at: usize)
    requires room { 4 * k + 4 ≤ length run.old }
    requires within { at + 4 ≤ length bytes.now }
    ensures copied { (b : ℕ) → b < 4 → slice_index run.new (4 * k + b) ≡ slice_index bytes.now (at + b) }
    ensures others { (n : ℕ) → (n < 4 * k) ⊎ (4 * k + 4 ≤ n) → slice_index run.new n ≡ slice_index run.old n }
{
    put_pixel(run, k, pixel_from(bytes, at));
}

/// Fills a run with the pixels that begin at `first` and each `step` bytes after the one before.
pub(crate) fn copy_rising(run: &mut [u8], bytes: &[u8], first: usize, step: usize)
    requires whole { length run.old % 4 ≡ 0 }
    requires within { (k : ℕ) → 4 * k < length run.old → first + k * step + 4 ≤ length bytes.now }
    ensures { (k b : ℕ) → 4 * k < length run.old → b < 4 → slice_index run.new (4 * k + b) ≡ slice_index bytes.now (first + k * step + b) }
{
    for k in 0..run.len() / 4 {
        copy_pixel(run, k, bytes, first + k * step);
    }
}

/// Fills a run with the pixels that begin at `first` and each `step` bytes before the one before.
pub(crate) fn copy_falling(run: &mut [u8], bytes: &[u8], first: usize, step: usize)
    requires whole { length run.old % 4 ≡ 0 }
    requires above { (k : ℕ) → 4 * k < length run.old → k * step ≤ first }
    requires within { first + 4 ≤ length bytes.now }
    ensures { (k b : ℕ) → 4 * k < length run.old → b < 4 → slice_index run.new (4 * k + b) ≡ slice_index bytes.now (first - k * step + b) }
{
    for k in 0..run.len() / 4 {
        copy_pixel(run, k, bytes, first - k * step);
    }
}
