//! Four pixels of a run, in one vector.
ghost use Rattle.std.specs.Prelude.{◌≡◌, ℕ, ◌+◌, ◌*◌, ◌<◌, ◌≤◌, ◌⊎◌, ◌↔◌, IsTrue, length, slice_index};
ghost use Rattle.wl_store.specs.Layout.{argb_of};
ghost use Rattle.wl_blend.specs.Blend.{blended, color_of};
ghost use Rattle.wl_blend.specs.Lanes.{AreBytes};

use crate::lanes::{alphas, is_each, over_four};
use std::simd::prelude::*;
use wl_store::Format;

/// The bytes of the four pixels from pixel `first` on.
fn four_from(bytes: &[u8], first: usize) -> u8x16
    requires { 4 * (first + 4) ≤ length bytes.now }
    ensures lanes { (k : ℕ) → k < 16 → slice_index result k ≡ slice_index bytes.now (4 * first + k) }
    ensures bytes { AreBytes result }
{
    u8x16::from_slice(&bytes[4 * first..])
}

/// Writes the bytes of the four pixels from pixel `first` on, and no others.
fn put_four(bytes: &mut [u8], first: usize, four: u8x16)
    requires room { 4 * (first + 4) ≤ length bytes.old }
    requires count { length four ≡ 16 }
    ensures lanes { (k : ℕ) → k < 16 → slice_index bytes.new (4 * first + k) ≡ slice_index four k }
    ensures before { (k : ℕ) → k < 4 * first → slice_index bytes.new k ≡ slice_index bytes.old k }
    ensures after { (k : ℕ) → 4 * (first + 4) ≤ k → slice_index bytes.new k ≡ slice_index bytes.old k }
{
    four.copy_to_slice(&mut bytes[4 * first..]);
}

/// Lays the four pixels of `src` from pixel `first` on over those at their places in `dst`.
pub(crate) fn blend_four(dst: &mut [u8], src: &[u8], first: usize, format: Format)
    requires room { 4 * (first + 4) ≤ length dst.old }
    requires as_many { length dst.old ≡ length src.now }
    ensures pixels { (k : ℕ) → first ≤ k → k < first + 4 → color_of dst.new k ≡ blended (color_of dst.old k) (argb_of format src.now k) }
    ensures fourths { (k : ℕ) → first ≤ k → k < first + 4 → slice_index dst.new (4 * k + 3) ≡ 255 }
    ensures others { (k : ℕ) → (k < first) ⊎ (first + 4 ≤ k) → color_of dst.new k ≡ color_of dst.old k }
    ensures other_fourths { (k : ℕ) → (k < first) ⊎ (first + 4 ≤ k) → slice_index dst.new (4 * k + 3) ≡ slice_index dst.old (4 * k + 3) }
{
    let four = over_four(four_from(dst, first), four_from(src, first), format);
    put_four(dst, first, four);
}

/// Whether the alphas of the four pixels from pixel `first` on are 255.
pub(crate) fn is_opaque_four(src: &[u8], first: usize) -> bool
    requires { 4 * (first + 4) ≤ length src.now }
    ensures { IsTrue result ↔ ((k : ℕ) → first ≤ k → k < first + 4 → slice_index src.now (4 * k + 3) ≡ 255) }
{
    is_each(alphas(four_from(src, first)), 255)
}
