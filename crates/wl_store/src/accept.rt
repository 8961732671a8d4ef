ghost use Rattle.std.specs.Prelude.{◌≡◌, ◌<◌, ◌^◌, ◌<ℤ◌, IfSome, IfNone, IfOk, IsOk, MatchOption, pos};
ghost use Rattle.wl_store.specs.Layout.{FitsIn, format_of, has_room, layout_refusal};

use crate::color::Format;
use crate::place::{Layout, LayoutError};

/// The number, if it isn't negative.
fn natural(number: i32) -> Option<u32>
    ensures { MatchOption result (number <ℤ pos 0) (λ n. (number ≡ pos n) × (n < 2 ^ 31)) }
{
    u32::try_from(number).ok()
}

/// Whether there are rows and columns, each row is as wide as its pixels, and the last ends within
/// `size` bytes.
fn is_room(size: u32, offset: u32, w: u32, h: u32, stride: u32) -> bool
    ensures { result ≡ has_room size offset w h stride }
{
    let end = u64::from(offset) + u64::from(stride) * u64::from(h);
    0 < w && 0 < h && 4 * u64::from(w) <= u64::from(stride) && end <= u64::from(size)
}

/// Judges where a buffer lies in a store of `size` bytes (wayland.xml, wl_shm_pool.create_buffer).
/// `offset` and `stride` are in bytes, `w` and `h` in pixels of the buffer.
///
/// # Errors
///
/// `Format` if the format is neither 0 (argb8888) nor 1 (xrgb8888). Else `Stride` if one of these
/// holds:
/// - the offset is negative;
/// - the width or the height isn't positive;
/// - the stride is below four times the width;
/// - `offset + stride * h` is past `size`.
pub fn layout(
    size: u32,
    offset: i32,
    w: i32,
    h: i32,
    stride: i32,
    format: u32,
) -> Result<Layout, LayoutError>
    ensures refused { IfSome (layout_refusal size offset w h stride format) (λ error. result ≡ Err error) }
    ensures accepted { IfNone (layout_refusal size offset w h stride format) (IsOk result) }
    ensures place { IfOk result (λ l. (pos l.offset ≡ offset) × (pos l.stride ≡ stride)) }
    ensures sides { IfOk result (λ l. (pos l.w ≡ w) × (pos l.h ≡ h)) }
    ensures format { IfOk result (λ l. l.format ≡ format_of format) }
    ensures within { IfOk result (FitsIn size) }
{
    let format = match format {
        0 => Format::Argb8888,
        1 => Format::Xrgb8888,
        _ => return Err(LayoutError::Format),
    };
    let (Some(offset), Some(w), Some(h), Some(stride)) = (
        natural(offset),
        natural(w),
        natural(h),
        natural(stride),
    ) else {
        return Err(LayoutError::Stride);
    };
    if !is_room(size, offset, w, h, stride) {
        return Err(LayoutError::Stride);
    }
    Ok(Layout {
        offset,
        w,
        h,
        stride,
        format,
    })
}
