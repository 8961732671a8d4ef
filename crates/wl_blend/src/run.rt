ghost use Rattle.std.specs.Prelude.{◌≡◌, ℕ, ◌+◌, ◌*◌, ◌%◌, ◌<◌, ◌≤◌, ◌≢◌, ◌↔◌, IsTrue, length, slice_index};
ghost use Rattle.wl_store.specs.Layout.{argb_of};
ghost use Rattle.wl_blend.specs.Blend.{blended, color_of};

use crate::color::Rgb;
use crate::formula::blend;
use crate::four::{blend_four, is_opaque_four};
use wl_store::{Argb, Format};

/// Pixel `k` of a framebuffer's bytes.
fn read_rgb(bytes: &[u8], k: usize) -> Rgb
    requires { 4 * k + 3 < length bytes.now }
    ensures { result ≡ color_of bytes.now k }
{
    Rgb {
        r: bytes[4 * k + 2],
        g: bytes[4 * k + 1],
        b: bytes[4 * k],
    }
}

/// Pixel `k` of a buffer's bytes.
fn read_argb(bytes: &[u8], k: usize, format: Format) -> Argb
    requires { 4 * k + 3 < length bytes.now }
    ensures { result ≡ argb_of format bytes.now k }
{
    Argb {
        a: match format {
            Format::Argb8888 => bytes[4 * k + 3],
            Format::Xrgb8888 => 255,
        },
        r: bytes[4 * k + 2],
        g: bytes[4 * k + 1],
        b: bytes[4 * k],
    }
}

/// Writes pixel `k` of a framebuffer's bytes, and no other.
fn write_rgb(bytes: &mut [u8], k: usize, color: Rgb)
    requires { 4 * k + 3 < length bytes.old }
    ensures written { color_of bytes.new k ≡ color }
    ensures fourth { slice_index bytes.new (4 * k + 3) ≡ 255 }
    ensures others { (i : ℕ) → i ≢ k → color_of bytes.new i ≡ color_of bytes.old i }
    ensures other_fourths { (i : ℕ) → i ≢ k → slice_index bytes.new (4 * i + 3) ≡ slice_index bytes.old (4 * i + 3) }
{
    bytes[4 * k] = color.b;
    bytes[4 * k + 1] = color.g;
    bytes[4 * k + 2] = color.r;
    bytes[4 * k + 3] = 255;
}

/// Lays each pixel of `src` from pixel `first` on over the one at its place in `dst`.
fn blend_rest(dst: &mut [u8], src: &[u8], first: usize, format: Format)
    requires as_many { length dst.old ≡ length src.now }
    requires whole { length dst.old % 4 ≡ 0 }
    ensures pixels { (k : ℕ) → first ≤ k → 4 * k < length dst.old → color_of dst.new k ≡ blended (color_of dst.old k) (argb_of format src.now k) }
    ensures fourths { (k : ℕ) → first ≤ k → 4 * k < length dst.old → slice_index dst.new (4 * k + 3) ≡ 255 }
    ensures before { (k : ℕ) → k < first → color_of dst.new k ≡ color_of dst.old k }
    ensures before_fourths { (k : ℕ) → k < first → slice_index dst.new (4 * k + 3) ≡ slice_index dst.old (4 * k + 3) }
{
    for k in first..dst.len() / 4 {
        let color = blend(read_rgb(dst, k), read_argb(src, k, format));
        write_rgb(dst, k, color);
    }
}

/// Lays each pixel of `src` over the one at its place in `dst`.
///
/// Both are whole pixels of 4 bytes, and equally many. A pixel of `dst` is blue, green, red and
/// 255, before and after. One of `src` is read by its format.
pub fn blend_run(dst: &mut [u8], src: &[u8], format: Format)
    requires as_many { length dst.old ≡ length src.now }
    requires whole { length dst.old % 4 ≡ 0 }
    ensures pixels { (k : ℕ) → 4 * k < length dst.old → color_of dst.new k ≡ blended (color_of dst.old k) (argb_of format src.now k) }
    ensures fourths { (k : ℕ) → 4 * k < length dst.old → slice_index dst.new (4 * k + 3) ≡ 255 }
{
    let fours = dst.len() / 16;
    for i in 0..fours {
        blend_four(dst, src, 4 * i, format);
    }
    blend_rest(dst, src, 4 * fours, format);
}

/// Whether each of the pixels from pixel `first` on has the alpha 255.
fn is_opaque_rest(src: &[u8], first: usize) -> bool
    requires { length src.now % 4 ≡ 0 }
    ensures { IsTrue result ↔ ((k : ℕ) → first ≤ k → 4 * k < length src.now → slice_index src.now (4 * k + 3) ≡ 255) }
{
    for k in first..src.len() / 4 {
        if src[4 * k + 3] != 255 {
            return false;
        }
    }
    true
}

/// Whether each of the pixels has the alpha 255, by their fourth bytes.
fn is_argb_opaque(src: &[u8]) -> bool
    requires { length src.now % 4 ≡ 0 }
    ensures { IsTrue result ↔ ((k : ℕ) → 4 * k < length src.now → slice_index src.now (4 * k + 3) ≡ 255) }
{
    let fours = src.len() / 16;
    for i in 0..fours {
        if !is_opaque_four(src, 4 * i) {
            return false;
        }
    }
    is_opaque_rest(src, 4 * fours)
}

/// Whether each of the pixels has the alpha 255. A pixel of xrgb8888 has, and so has an empty run.
pub fn is_opaque_run(src: &[u8], format: Format) -> bool
    requires { length src.now % 4 ≡ 0 }
    ensures { IsTrue result ↔ ((k : ℕ) → 4 * k < length src.now → (argb_of format src.now k).a ≡ 255) }
{
    match format {
        Format::Argb8888 => is_argb_opaque(src),
        Format::Xrgb8888 => true,
    }
}
