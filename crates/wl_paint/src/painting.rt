ghost use Rattle.std.specs.Prelude.{◌≡◌, ◌<◌, ◌≤◌, ◌+◌, ◌*◌, ◌%◌, ◌^◌, ◌⊎◌, ℕ, length, take, pos, true, false};
ghost use Rattle.wl_paint.specs.Damage.{has};
ghost use Rattle.wl_paint.specs.Painting.{IsPaintedIn, Shows, is_in, pixel_of};
ghost use Rattle.wl_paint.specs.Window.{AreOpaqueAsSaid, scratch};

use crate::copying::{copy_runs, has_many_runs, number_of};
use crate::damage::{Damage, is_clear, next_part};
use crate::filling::fill_run;
use crate::layer::{STRETCH, hide, lay_window};
use crate::span::{Part, Span};
use crate::windows::Windows;
use std::alloc::Allocator;
use wl_blend::Rgb;

/// How many rows are painted together: as many as pixels of a buffer lie in one line of a
/// processor's cache.
const BAND: u32 = 16;

/// What an output shows: a colour, and windows over it.
#[derive(Drop)]
pub(crate) struct Layers<'a, W: Windows> {
    pub background: Rgb,
    pub windows: &'a W,
}

/// Paints a run of pixels that starts at (x, y), up to the highest window that hides all below it
/// there. If none does, it paints the background. The answer is how many windows are done.
fn paint_lowest<W: Windows>(run: &mut [u8], x: u32, y: u32, layers: &Layers<'_, W>) -> usize
    requires whole { length run.old % 4 ≡ 0 }
    requires fits { x + length run.old < 2 ^ 32 }
    requires short { length run.old ≤ 4 * STRETCH }
    ensures within { result ≤ length (W.windows layers.now.windows.now) }
    ensures pixels { (i : ℕ) → 4 * i < length run.old
        → Shows (AreOpaqueAsSaid (pos (x + i)) (pos y) (W.windows layers.now.windows.now))
        (scratch layers.now.background (take result (W.windows layers.now.windows.now)) (pos (x + i)) (pos y)) (pixel_of run.new i) }
{
    let len = layers.windows.len();
    for above in 0..len {
        let k = len - 1 - above;
        if hide(run, x, y, &layers.windows.window(k)) {
            return k + 1;
        }
    }
    fill_run(run, layers.background);
    0
}

/// Paints a run of pixels that starts at (x, y) from nothing.
fn paint_run<W: Windows>(run: &mut [u8], x: u32, y: u32, layers: &Layers<'_, W>)
    requires whole { length run.old % 4 ≡ 0 }
    requires fits { x + length run.old < 2 ^ 32 }
    requires short { length run.old ≤ 4 * STRETCH }
    ensures { (i : ℕ) → 4 * i < length run.old
        → Shows (AreOpaqueAsSaid (pos (x + i)) (pos y) (W.windows layers.now.windows.now))
        (scratch layers.now.background (W.windows layers.now.windows.now) (pos (x + i)) (pos y)) (pixel_of run.new i) }
{
    let lowest = paint_lowest(run, x, y, layers);
    for k in lowest..layers.windows.len() {
        lay_window(run, x, y, &layers.windows.window(k));
    }
}

/// Paints a part of the pixels, which shows the points from (x, y) to the right.
fn paint_part<W: Windows>(pixels: &mut [u8], part: Part, x: u32, y: u32, layers: &Layers<'_, W>)
    requires within { 4 * (part.first + part.count) ≤ length pixels.old }
    requires fits { x + 4 * part.count < 2 ^ 32 }
    requires short { part.count ≤ STRETCH }
    ensures inside { (i : ℕ) → i < part.count
        → Shows (AreOpaqueAsSaid (pos (x + i)) (pos y) (W.windows layers.now.windows.now))
        (scratch layers.now.background (W.windows layers.now.windows.now) (pos (x + i)) (pos y)) (pixel_of pixels.new (part.first + i)) }
    ensures outside { (k : ℕ) → (k < part.first) ⊎ (part.first + part.count ≤ k) → pixel_of pixels.new k ≡ pixel_of pixels.old k }
{
    let end = part.first + part.count;
    paint_run(&mut pixels[4 * part.first..4 * end], x, y, layers);
}

/// Paints the damaged pixels of row `y` in these columns, run by run.
fn paint_runs<A: Allocator, W: Windows>(
    pixels: &mut [u8],
    y: u32,
    columns: Span,
    damage: &Damage<A>,
    layers: &Layers<'_, W>,
)
    requires sized { length pixels.old ≡ 4 * (damage.now.width * damage.now.height) }
    requires narrow { damage.now.width ≤ 4096 }
    requires low { damage.now.height ≤ 4096 }
    requires row { y < damage.now.height }
    requires order { columns.first ≤ columns.end }
    requires within { columns.end ≤ damage.now.width }
    requires short { columns.end ≤ columns.first + STRETCH }
    ensures { IsPaintedIn (pixel_of pixels.old) (pixel_of pixels.new)
        (λ x z. AreOpaqueAsSaid (pos x) (pos z) (W.windows layers.now.windows.now))
        (λ x z. scratch layers.now.background (W.windows layers.now.windows.now) (pos x) (pos z))
        (has damage.now) damage.now.width (is_in columns (record { first = y; end = y + 1 })) }
{
    let mut from = columns.first;
    while let Some((start, count)) = next_part(damage, y, from, columns.end) {
        let part = Part {
            first: number_of(damage, start, y),
            count: count as usize,
        };
        paint_part(pixels, part, start, y, layers);
        from = start + count;
    }
}

/// Paints row `y` in these columns beside the image, and puts its damaged pixels in. So the windows
/// are asked once, not once a run.
fn paint_together<A: Allocator, W: Windows>(
    pixels: &mut [u8],
    y: u32,
    columns: Span,
    damage: &Damage<A>,
    layers: &Layers<'_, W>,
)
    requires sized { length pixels.old ≡ 4 * (damage.now.width * damage.now.height) }
    requires narrow { damage.now.width ≤ 4096 }
    requires low { damage.now.height ≤ 4096 }
    requires row { y < damage.now.height }
    requires order { columns.first ≤ columns.end }
    requires within { columns.end ≤ damage.now.width }
    requires short { columns.end ≤ columns.first + STRETCH }
    ensures { IsPaintedIn (pixel_of pixels.old) (pixel_of pixels.new)
        (λ x z. AreOpaqueAsSaid (pos x) (pos z) (W.windows layers.now.windows.now))
        (λ x z. scratch layers.now.background (W.windows layers.now.windows.now) (pos x) (pos z))
        (has damage.now) damage.now.width (is_in columns (record { first = y; end = y + 1 })) }
{
    let mut stretch = [0; 4 * STRETCH];
    let stretch = &mut stretch[..4 * (columns.end - columns.first) as usize];
    paint_run(stretch, columns.first, y, layers);
    copy_runs(pixels, y, columns, damage, stretch);
}

/// Paints the damaged pixels of row `y` in these columns.
fn paint_row<A: Allocator, W: Windows>(
    pixels: &mut [u8],
    y: u32,
    columns: Span,
    damage: &Damage<A>,
    layers: &Layers<'_, W>,
)
    requires sized { length pixels.old ≡ 4 * (damage.now.width * damage.now.height) }
    requires narrow { damage.now.width ≤ 4096 }
    requires low { damage.now.height ≤ 4096 }
    requires row { y < damage.now.height }
    requires order { columns.first ≤ columns.end }
    requires within { columns.end ≤ damage.now.width }
    requires short { columns.end ≤ columns.first + STRETCH }
    ensures { IsPaintedIn (pixel_of pixels.old) (pixel_of pixels.new)
        (λ x z. AreOpaqueAsSaid (pos x) (pos z) (W.windows layers.now.windows.now))
        (λ x z. scratch layers.now.background (W.windows layers.now.windows.now) (pos x) (pos z))
        (has damage.now) damage.now.width (is_in columns (record { first = y; end = y + 1 })) }
{
    if has_many_runs(damage, y, columns) {
        paint_together(pixels, y, columns, damage, layers);
    } else {
        paint_runs(pixels, y, columns, damage, layers);
    }
}

/// Paints the damaged pixels of these rows in these columns.
fn paint_columns<A: Allocator, W: Windows>(
    pixels: &mut [u8],
    rows: Span,
    columns: Span,
    damage: &Damage<A>,
    layers: &Layers<'_, W>,
)
    requires sized { length pixels.old ≡ 4 * (damage.now.width * damage.now.height) }
    requires narrow { damage.now.width ≤ 4096 }
    requires low { damage.now.height ≤ 4096 }
    requires rows { rows.first ≤ rows.end }
    requires high { rows.end ≤ damage.now.height }
    requires order { columns.first ≤ columns.end }
    requires within { columns.end ≤ damage.now.width }
    requires short { columns.end ≤ columns.first + STRETCH }
    ensures { IsPaintedIn (pixel_of pixels.old) (pixel_of pixels.new)
        (λ x y. AreOpaqueAsSaid (pos x) (pos y) (W.windows layers.now.windows.now))
        (λ x y. scratch layers.now.background (W.windows layers.now.windows.now) (pos x) (pos y))
        (has damage.now) damage.now.width (is_in columns rows) }
{
    for y in rows.first..rows.end {
        paint_row(pixels, y, columns, damage, layers);
    }
}

/// Paints the damaged pixels of these rows, one stretch of their columns after the other.
fn paint_strips<A: Allocator, W: Windows>(
    pixels: &mut [u8],
    rows: Span,
    damage: &Damage<A>,
    layers: &Layers<'_, W>,
)
    requires sized { length pixels.old ≡ 4 * (damage.now.width * damage.now.height) }
    requires narrow { damage.now.width ≤ 4096 }
    requires low { damage.now.height ≤ 4096 }
    requires rows { rows.first ≤ rows.end }
    requires high { rows.end ≤ damage.now.height }
    ensures { IsPaintedIn (pixel_of pixels.old) (pixel_of pixels.new)
        (λ x y. AreOpaqueAsSaid (pos x) (pos y) (W.windows layers.now.windows.now))
        (λ x y. scratch layers.now.background (W.windows layers.now.windows.now) (pos x) (pos y))
        (has damage.now) damage.now.width (is_in (record { first = 0; end = damage.now.width }) rows) }
{
    let width = damage.width();
    let mut first = 0;
    while first < width {
        let end = (first + STRETCH as u32).min(width);
        paint_columns(pixels, rows, Span { first, end }, damage, layers);
        first = end;
    }
}

/// Paints the damaged pixels of these rows. If none is damaged, nothing more is looked at.
fn paint_band<A: Allocator, W: Windows>(
    pixels: &mut [u8],
    rows: Span,
    damage: &Damage<A>,
    layers: &Layers<'_, W>,
)
    requires sized { length pixels.old ≡ 4 * (damage.now.width * damage.now.height) }
    requires narrow { damage.now.width ≤ 4096 }
    requires low { damage.now.height ≤ 4096 }
    requires rows { rows.first ≤ rows.end }
    requires high { rows.end ≤ damage.now.height }
    ensures { IsPaintedIn (pixel_of pixels.old) (pixel_of pixels.new)
        (λ x y. AreOpaqueAsSaid (pos x) (pos y) (W.windows layers.now.windows.now))
        (λ x y. scratch layers.now.background (W.windows layers.now.windows.now) (pos x) (pos y))
        (has damage.now) damage.now.width (is_in (record { first = 0; end = damage.now.width }) rows) }
{
    if is_clear(damage, rows) {
        return;
    }
    paint_strips(pixels, rows, damage, layers);
}

/// Paints the damaged pixels of an image with these sides, by bands of rows. A window that is
/// turned by a quarter has the pixels of a column side by side, and a band reads them together.
pub(crate) fn paint_rows<A: Allocator, W: Windows>(
    pixels: &mut [u8],
    width: u32,
    height: u32,
    damage: &Damage<A>,
    layers: &Layers<'_, W>,
)
    requires wide { width ≡ damage.now.width }
    requires high { height ≡ damage.now.height }
    requires narrow { width ≤ 4096 }
    requires low { height ≤ 4096 }
    requires sized { length pixels.old ≡ 4 * (width * height) }
    ensures { IsPaintedIn (pixel_of pixels.old) (pixel_of pixels.new)
        (λ x y. AreOpaqueAsSaid (pos x) (pos y) (W.windows layers.now.windows.now))
        (λ x y. scratch layers.now.background (W.windows layers.now.windows.now) (pos x) (pos y))
        (has damage.now) width (is_in (record { first = 0; end = width }) (record { first = 0; end = height })) }
{
    let mut first = 0;
    while first < height {
        let rows = Span {
            first,
            end: (first + BAND).min(height),
        };
        paint_band(pixels, rows, damage, layers);
        first = rows.end;
    }
}
