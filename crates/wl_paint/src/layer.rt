//! One window laid over a run of pixels.
ghost use Rattle.std.specs.Prelude.{◌≡◌, ◌-◌, ◌<◌, ◌≤◌, ◌+◌, ◌*◌, ◌/◌, ◌%◌, ◌^◌, ◌⊎◌, ℕ, IsTrue, IfSome, length, pos, slice_index};
ghost use Rattle.wl_geom.specs.Region.{HoldsRun};
ghost use Rattle.wl_store.specs.Picture.{color_at, surface_height, surface_width};
ghost use Rattle.wl_blend.specs.Blend.{blended, color_of};
ghost use Rattle.wl_blend.specs.declared.color.Rgb.{Rgb};
ghost use Rattle.wl_paint.specs.Painting.{OffsetIn, Shows, opaque, pixel_of, window_of};
ghost use Rattle.wl_paint.specs.Window.{HasAlphaAsSaid, over};

use crate::source::{copy_colors, copy_opaque, lay_colors};
use crate::span::{Part, part_in};
use crate::windows::Painted;
use std::alloc::Allocator;
use wl_store::Picture;

/// How many pixels of a run are painted at a time, at most.
pub(crate) const STRETCH: usize = 1024;

/// An opaque region of more changes than this isn't asked, since each stretch would look at all of
/// them. The alphas are looked at instead.
const ASKED_CHANGES: u32 = 16;

/// How far the place is from the start, if it is one of the `len` places from there on.
fn offset_in(start: i32, len: u32, place: u32) -> Option<u32>
    ensures { OffsetIn start len place result }
{
    let offset = i64::from(place) - i64::from(start);
    if offset < 0 || offset >= i64::from(len) {
        return None;
    }
    Some(offset as u32)
}

/// Whether the window's opaque region holds each of the `count` points of its picture from (i, j)
/// to the right. The answer is false for a region that isn't asked.
fn is_said_opaque<A: Allocator>(window: &Painted<'_, A>, i: u32, j: u32, count: u32) -> bool
    requires column { i < 2 ^ 31 }
    requires row { j < 2 ^ 31 }
    ensures { IsTrue result → HoldsRun (pos i) (pos j) count (window_of window.now).opaque.made }
{
    window.opaque.changes() <= ASKED_CHANGES && window.opaque.covers_run(i as i32, j as i32, count)
}

/// Paints a run of pixels that starts at (x, y) with the window alone, if it is opaque at each of
/// them. It is if its opaque region is asked and holds all the points, or if all have the alpha
/// 255, as in xrgb8888.
///
/// Else the answer is false, and the run is to be painted otherwise.
pub(crate) fn hide<A: Allocator>(run: &mut [u8], x: u32, y: u32, window: &Painted<'_, A>) -> bool
    requires whole { length run.old % 4 ≡ 0 }
    requires fits { x + length run.old < 2 ^ 32 }
    requires short { length run.old ≤ 4 * STRETCH }
    ensures { IsTrue result → (i : ℕ) → 4 * i < length run.old → (under : Rgb)
        → Shows (HasAlphaAsSaid (pos (x + i)) (pos y) (window_of window.now)) (over (pos (x + i)) (pos y) under (window_of window.now)) (pixel_of run.new i) }
{
    let Some(i) = offset_in(window.x, window.picture.width(), x) else {
        return false;
    };
    let Some(j) = offset_in(window.y, window.picture.height(), y) else {
        return false;
    };
    let count = run.len() / 4;
    if count > (window.picture.width() - i) as usize {
        return false;
    }
    if is_said_opaque(window, i, j, count as u32) {
        copy_colors(run, &window.picture, i, j);
        return true;
    }
    copy_opaque(run, &window.picture, i, j)
}

/// Lays the points of the picture from (i, j) to the right over a part of a run of pixels.
fn lay_part(run: &mut [u8], part: Part, picture: &Picture<'_>, i: u32, j: u32)
    requires within { 4 * (part.first + part.count) ≤ length run.old }
    requires short { part.count ≤ STRETCH }
    requires columns { i + part.count ≤ surface_width picture.now }
    requires row { j < surface_height picture.now }
    ensures inside { (k : ℕ) → k < part.count
        → pixel_of run.new (part.first + k) ≡ opaque (blended (color_of run.old (part.first + k)) (color_at picture.now (i + k) j)) }
    ensures outside { (k : ℕ) → (k < part.first) ⊎ (part.first + part.count ≤ k) → pixel_of run.new k ≡ pixel_of run.old k }
{
    let end = part.first + part.count;
    lay_colors(&mut run[4 * part.first..4 * end], picture, i, j);
}

/// Lays the window over a run of pixels that starts at (x, y).
pub(crate) fn lay_window<A: Allocator>(run: &mut [u8], x: u32, y: u32, window: &Painted<'_, A>)
    requires whole { length run.old % 4 ≡ 0 }
    requires fits { x + length run.old < 2 ^ 32 }
    requires short { length run.old ≤ 4 * STRETCH }
    requires fourths { (i : ℕ) → 4 * i < length run.old → slice_index run.old (4 * i + 3) ≡ 255 }
    ensures { (i : ℕ) → 4 * i < length run.old → pixel_of run.new i ≡ opaque (over (pos (x + i)) (pos y) (color_of run.old i) (window_of window.now)) }
{
    let Some(j) = offset_in(window.y, window.picture.height(), y) else {
        return;
    };
    let (first, end) = part_in(window.x, window.picture.width(), x, (run.len() / 4) as u32);
    let Some(i) = offset_in(window.x, window.picture.width(), x + first) else {
        return;
    };
    let part = Part {
        first: first as usize,
        count: (end - first) as usize,
    };
    lay_part(run, part, &window.picture, i, j);
}
