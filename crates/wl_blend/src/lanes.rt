//! Vectors of sixteen lanes, which are the bytes of four pixels.
ghost use Rattle.std.specs.Prelude.{◌≡◌, ℕ, ◌+◌, ◌-◌, ◌*◌, ◌/◌, ◌<◌, ◌↔◌, IsTrue, min, length, slice_index};
ghost use Rattle.wl_store.specs.Layout.{alpha_of};
ghost use Rattle.wl_blend.specs.Blend.{blended_channel};
ghost use Rattle.wl_blend.specs.Lanes.{AreBytes, IsBelow};

use std::simd::prelude::*;
use wl_store::Format;

/// The bytes in lanes of 16 bits.
fn widened(bytes: u8x16) -> u16x16
    requires { AreBytes bytes }
    ensures { result ≡ bytes }
{
    bytes.cast::<u16>()
}

/// The lanes in bytes.
fn narrowed(lanes: u16x16) -> u8x16
    requires { IsBelow 256 lanes }
    ensures { result ≡ lanes }
{
    lanes.cast::<u8>()
}

/// What each byte lacks to 255.
fn lacking(bytes: u8x16) -> u8x16
    requires { AreBytes bytes }
    ensures lanes { (k : ℕ) → k < 16 → slice_index result k ≡ 255 - slice_index bytes k }
    ensures bytes { AreBytes result }
{
    u8x16::splat(255) - bytes
}

/// The products plus 128, so the division rounds to the nearest.
fn raised_products(under: u16x16, through: u16x16) -> u16x16
    requires under { IsBelow 256 under }
    requires through { IsBelow 256 through }
    ensures lanes { (k : ℕ) → k < 16 → slice_index result k ≡ slice_index under k * slice_index through k + 128 }
    ensures below { IsBelow 65154 result }
{
    under * through + u16x16::splat(128)
}

/// The raised products divided by 255, to the nearest: a 256th of the lane and of its own 256th.
fn divided(raised: u16x16) -> u16x16
    requires { IsBelow 65154 raised }
    ensures lanes { (k : ℕ) → k < 16 → slice_index result k ≡ (slice_index raised k + slice_index raised k / 256) / 256 }
    ensures below { IsBelow 256 result }
{
    (raised + (raised >> 8)) >> 8
}

/// The sums, at most 255: `over` plus as much of `shown` as there is room for.
fn held_sums(over: u8x16, shown: u8x16) -> u8x16
    requires over { AreBytes over }
    requires shown { AreBytes shown }
    ensures lanes { (k : ℕ) → k < 16 → slice_index result k ≡ min 255 (slice_index over k + slice_index shown k) }
    ensures bytes { AreBytes result }
{
    over + shown.simd_min(lacking(over))
}

/// Each byte laid over the one below it, by the alpha at its place.
fn blended_lanes(under: u8x16, over: u8x16, alpha: u8x16) -> u8x16
    requires under { AreBytes under }
    requires over { AreBytes over }
    requires alpha { AreBytes alpha }
    ensures lanes { (k : ℕ) → k < 16 → slice_index result k ≡ blended_channel (slice_index under k) (slice_index over k) (slice_index alpha k) }
    ensures bytes { AreBytes result }
{
    let raised = raised_products(widened(under), widened(lacking(alpha)));
    held_sums(over, narrowed(divided(raised)))
}

/// At each byte the fourth byte of its pixel.
pub(crate) fn alphas(pixels: u8x16) -> u8x16
    requires { AreBytes pixels }
    ensures lanes { (k : ℕ) → k < 16 → slice_index result k ≡ slice_index pixels (4 * (k / 4) + 3) }
    ensures bytes { AreBytes result }
{
    pixels.swizzle([3, 3, 3, 3, 7, 7, 7, 7, 11, 11, 11, 11, 15, 15, 15, 15])
}

/// Whether each byte has this value.
pub(crate) fn is_each(bytes: u8x16, value: u8) -> bool
    requires { length bytes ≡ 16 }
    ensures { IsTrue result ↔ ((k : ℕ) → k < 16 → slice_index bytes k ≡ value) }
{
    bytes.simd_ne(u8x16::splat(value)).to_bitmask() == 0
}

/// Each byte laid over the one below it, by the alpha of its pixel. Opaque pixels are taken as they
/// are, and pixels of zeros let all through.
fn laid(under: u8x16, over: u8x16) -> u8x16
    requires under { AreBytes under }
    requires over { AreBytes over }
    ensures lanes { (k : ℕ) → k < 16 → slice_index result k ≡ blended_channel (slice_index under k) (slice_index over k) (slice_index over (4 * (k / 4) + 3)) }
    ensures bytes { AreBytes result }
{
    let alpha = alphas(over);
    if is_each(alpha, 255) {
        return over;
    }
    if is_each(over, 0) {
        return under;
    }
    blended_lanes(under, over, alpha)
}

/// The pixels with 255 in the fourth byte of each.
fn with_fourths(pixels: u8x16) -> u8x16
    requires { AreBytes pixels }
    ensures channels { (p c : ℕ) → p < 4 → c < 3 → slice_index result (4 * p + c) ≡ slice_index pixels (4 * p + c) }
    ensures fourths { (p : ℕ) → p < 4 → slice_index result (4 * p + 3) ≡ 255 }
    ensures count { length result ≡ 16 }
{
    pixels | u8x16::from_array([0, 0, 0, 255, 0, 0, 0, 255, 0, 0, 0, 255, 0, 0, 0, 255])
}

/// Four pixels of a framebuffer with four of a buffer laid over them.
pub(crate) fn over_four(under: u8x16, over: u8x16, format: Format) -> u8x16
    requires under { AreBytes under }
    requires over { AreBytes over }
    ensures channels { (p c : ℕ) → p < 4 → c < 3 → slice_index result (4 * p + c)
        ≡ blended_channel (slice_index under (4 * p + c)) (slice_index over (4 * p + c)) (alpha_of format (slice_index over (4 * p + 3))) }
    ensures fourths { (p : ℕ) → p < 4 → slice_index result (4 * p + 3) ≡ 255 }
    ensures count { length result ≡ 16 }
{
    match format {
        Format::Argb8888 => with_fourths(laid(under, over)),
        Format::Xrgb8888 => with_fourths(over),
    }
}
