//! Damaged pixels of a row that were painted beside the image.
ghost use Rattle.std.specs.Prelude.{◌≡◌, ◌<◌, ◌≤◌, ◌+◌, ◌-◌, ◌*◌, ◌⊎◌, ℕ, length};
ghost use Rattle.wl_paint.specs.Damage.{has};
ghost use Rattle.wl_paint.specs.Painting.{IsCopiedTo, pixel_of};

use crate::damage::{Damage, next_part};
use crate::span::{Part, Span};
use std::alloc::Allocator;

/// A row with more damaged runs than this in a stretch is painted beside the image. With fewer it
/// costs less to ask all windows for each run than to paint what lies between.
const FEW_RUNS: u32 = 16;

/// Whether the row has more than [`FEW_RUNS`] damaged runs in these columns.
pub(crate) fn has_many_runs<A: Allocator>(damage: &Damage<A>, y: u32, columns: Span) -> bool
    requires row { y < damage.now.height }
    requires within { columns.end ≤ damage.now.width }
{
    let mut from = columns.first;
    for _ in 0..FEW_RUNS + 1 {
        match next_part(damage, y, from, columns.end) {
            Some((start, count)) => from = start + count,
            None => return false,
        }
    }
    true
}

/// The number of the pixel in column `x` of row `y`.
pub(crate) fn number_of<A: Allocator>(damage: &Damage<A>, x: u32, y: u32) -> usize
    requires { damage.now.width ≤ 4096 }
    ensures { result ≡ y * damage.now.width + x }
{
    y as usize * damage.width() as usize + x as usize
}

/// Puts pixels of the stretch, from its pixel `from` on, into a part of the pixels.
fn copy_part(pixels: &mut [u8], part: Part, stretch: &[u8], from: usize)
    requires within { 4 * (part.first + part.count) ≤ length pixels.old }
    requires source { 4 * (from + part.count) ≤ length stretch.now }
    ensures inside { (i : ℕ) → i < part.count → pixel_of pixels.new (part.first + i) ≡ pixel_of stretch.now (from + i) }
    ensures outside { (k : ℕ) → (k < part.first) ⊎ (part.first + part.count ≤ k) → pixel_of pixels.new k ≡ pixel_of pixels.old k }
{
    let end = part.first + part.count;
    let source = &stretch[4 * from..4 * (from + part.count)];
    pixels[4 * part.first..4 * end].copy_from_slice(source);
}

/// Puts the damaged pixels of row `y` in these columns into the image. The stretch has the pixels
/// of the columns.
pub(crate) fn copy_runs<A: Allocator>(
    pixels: &mut [u8],
    y: u32,
    columns: Span,
    damage: &Damage<A>,
    stretch: &[u8],
)
    requires sized { length pixels.old ≡ 4 * (damage.now.width * damage.now.height) }
    requires narrow { damage.now.width ≤ 4096 }
    requires low { damage.now.height ≤ 4096 }
    requires row { y < damage.now.height }
    requires order { columns.first ≤ columns.end }
    requires within { columns.end ≤ damage.now.width }
    requires stretch { 4 * (columns.end - columns.first) ≤ length stretch.now }
    ensures { IsCopiedTo (pixel_of pixels.old) (pixel_of pixels.new) (pixel_of stretch.now) (λ x. has damage.now x y)
        (y * damage.now.width) columns.first columns.end }
{
    let mut from = columns.first;
    while let Some((start, count)) = next_part(damage, y, from, columns.end) {
        let part = Part {
            first: number_of(damage, start, y),
            count: count as usize,
        };
        copy_part(pixels, part, stretch, (start - columns.first) as usize);
        from = start + count;
    }
}
