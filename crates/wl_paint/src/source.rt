//! The points of a window's picture over a stretch of one row. They are lent as bytes, or read one
//! by one if they don't lie side by side.
ghost use Rattle.std.specs.Prelude.{◌≡◌, ◌<◌, ◌≤◌, ◌+◌, ◌*◌, ◌/◌, ◌%◌, ℕ, IsTrue, length};
ghost use Rattle.wl_store.specs.Layout.{argb_of};
ghost use Rattle.wl_store.specs.Picture.{color_at, surface_height, surface_width};
ghost use Rattle.wl_blend.specs.Blend.{blended, color_of};
ghost use Rattle.wl_blend.specs.declared.color.Rgb.{Rgb};
ghost use Rattle.wl_paint.specs.Painting.{Shows, opaque, pixel_of};

use crate::layer::STRETCH;
use wl_blend::{blend_run, is_opaque_run};
use wl_store::{Format, Picture};

/// Writes points over a run of pixels if all of them are opaque, and says whether they are. If not,
/// the run is to be painted otherwise.
fn copy_opaque_run(run: &mut [u8], points: &[u8], format: Format) -> bool
    requires as_many { length run.old ≡ length points.now }
    requires whole { length run.old % 4 ≡ 0 }
    ensures { IsTrue result → (k : ℕ) → 4 * k < length run.old → (under : Rgb) → pixel_of run.new k ≡ opaque (blended under (argb_of format points.now k)) }
{
    if !is_opaque_run(points, format) {
        return false;
    }
    blend_run(run, points, format);
    true
}

/// The same for the points of the picture from (i, j) to the right, read one by one.
fn copy_opaque_read(run: &mut [u8], picture: &Picture<'_>, i: u32, j: u32) -> bool
    requires whole { length run.old % 4 ≡ 0 }
    requires short { length run.old ≤ 4 * STRETCH }
    requires columns { i + length run.old / 4 ≤ surface_width picture.now }
    requires row { j < surface_height picture.now }
    ensures { IsTrue result → (k : ℕ) → 4 * k < length run.old → (under : Rgb) → pixel_of run.new k ≡ opaque (blended under (color_at picture.now (i + k) j)) }
{
    let mut points = [0; 4 * STRETCH];
    let points = &mut points[..run.len()];
    let format = picture.read(i, j, points);
    copy_opaque_run(run, points, format)
}

/// Writes the points of the picture from (i, j) to the right over a run of pixels if all of them
/// are opaque, and says whether they are. If not, the run is to be painted otherwise.
pub(crate) fn copy_opaque(run: &mut [u8], picture: &Picture<'_>, i: u32, j: u32) -> bool
    requires whole { length run.old % 4 ≡ 0 }
    requires short { length run.old ≤ 4 * STRETCH }
    requires columns { i + length run.old / 4 ≤ surface_width picture.now }
    requires row { j < surface_height picture.now }
    ensures { IsTrue result → (k : ℕ) → 4 * k < length run.old → (under : Rgb) → pixel_of run.new k ≡ opaque (blended under (color_at picture.now (i + k) j)) }
{
    let count = (run.len() / 4) as u32;
    match picture.points(i, j, count) {
        Some((points, format)) => copy_opaque_run(run, points, format),
        None => copy_opaque_read(run, picture, i, j),
    }
}

/// Writes the points of the picture from (i, j) to the right, read one by one, over a run of
/// pixels, as if all were opaque.
fn copy_colors_read(run: &mut [u8], picture: &Picture<'_>, i: u32, j: u32)
    requires whole { length run.old % 4 ≡ 0 }
    requires short { length run.old ≤ 4 * STRETCH }
    requires columns { i + length run.old / 4 ≤ surface_width picture.now }
    requires row { j < surface_height picture.now }
    ensures { (k : ℕ) → 4 * k < length run.old → (under : Rgb)
        → Shows ((color_at picture.now (i + k) j).a ≡ 255) (blended under (color_at picture.now (i + k) j)) (pixel_of run.new k) }
{
    let mut points = [0; 4 * STRETCH];
    let points = &mut points[..run.len()];
    picture.read(i, j, points);
    blend_run(run, points, Format::Xrgb8888);
}

/// Writes the points of the picture from (i, j) to the right over a run of pixels, as if all were
/// opaque.
pub(crate) fn copy_colors(run: &mut [u8], picture: &Picture<'_>, i: u32, j: u32)
    requires whole { length run.old % 4 ≡ 0 }
    requires short { length run.old ≤ 4 * STRETCH }
    requires columns { i + length run.old / 4 ≤ surface_width picture.now }
    requires row { j < surface_height picture.now }
    ensures { (k : ℕ) → 4 * k < length run.old → (under : Rgb)
        → Shows ((color_at picture.now (i + k) j).a ≡ 255) (blended under (color_at picture.now (i + k) j)) (pixel_of run.new k) }
{
    let count = (run.len() / 4) as u32;
    match picture.points(i, j, count) {
        Some((points, _)) => blend_run(run, points, Format::Xrgb8888),
        None => copy_colors_read(run, picture, i, j),
    }
}

/// Lays the points of the picture from (i, j) to the right, read one by one, over a run of pixels.
fn lay_colors_read(run: &mut [u8], picture: &Picture<'_>, i: u32, j: u32)
    requires whole { length run.old % 4 ≡ 0 }
    requires short { length run.old ≤ 4 * STRETCH }
    requires columns { i + length run.old / 4 ≤ surface_width picture.now }
    requires row { j < surface_height picture.now }
    ensures { (k : ℕ) → 4 * k < length run.old → pixel_of run.new k ≡ opaque (blended (color_of run.old k) (color_at picture.now (i + k) j)) }
{
    let mut points = [0; 4 * STRETCH];
    let points = &mut points[..run.len()];
    let format = picture.read(i, j, points);
    blend_run(run, points, format);
}

/// Lays the points of the picture from (i, j) to the right over a run of pixels.
pub(crate) fn lay_colors(run: &mut [u8], picture: &Picture<'_>, i: u32, j: u32)
    requires whole { length run.old % 4 ≡ 0 }
    requires short { length run.old ≤ 4 * STRETCH }
    requires columns { i + length run.old / 4 ≤ surface_width picture.now }
    requires row { j < surface_height picture.now }
    ensures { (k : ℕ) → 4 * k < length run.old → pixel_of run.new k ≡ opaque (blended (color_of run.old k) (color_at picture.now (i + k) j)) }
{
    let count = (run.len() / 4) as u32;
    match picture.points(i, j, count) {
        Some((points, format)) => blend_run(run, points, format),
        None => lay_colors_read(run, picture, i, j),
    }
}
