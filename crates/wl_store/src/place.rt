ghost use Rattle.std.specs.Prelude.{◌≤◌, ◌<◌, ◌*◌, ◌^◌};

use crate::color::Format;
use thiserror::Error;

/// Where a buffer's pixels lie in a store: `h` rows of `w` pixels of four bytes each. The first row
/// begins at byte `offset`, and each other one `stride` bytes after the one before (wayland.xml,
/// wl_shm_pool.create_buffer).
#[derive(Clone, Copy, Debug)]
pub struct Layout {
    pub offset: u32,
    pub w: u32,
    pub h: u32,
    pub stride: u32,
    pub format: Format,
    pub ghost wide_rows: { 4 * w ≤ stride },
    pub ghost some_columns: { 0 < w },
    pub ghost some_rows: { 0 < h },
    pub ghost offset_fits: { offset < 2 ^ 31 },
    pub ghost height_fits: { h < 2 ^ 31 },
    pub ghost stride_fits: { stride < 2 ^ 31 },
}

/// Why a buffer isn't laid out as a client asks.
#[derive(Clone, Copy, Debug, PartialEq, Eq, Error)]
pub enum LayoutError {
    /// wl_shm.error, invalid_stride.
    #[error("invalid stride")]
    Stride = 1,
    /// wl_shm.error, invalid_format.
    #[error("invalid format")]
    Format = 2,
}
