//! The points of a region as disjoint rectangles.

ghost use Rattle.std.specs.Prelude.{◌≡◌, ◌+◌, ℤ, ◌&&◌, All, IfOk, OnOk, cond, not};
ghost use Rattle.wl_geom.specs.Edits.{is_held};
ghost use Rattle.wl_geom.specs.Rect.{bit, count_at, in_rect, is_point};
ghost use Rattle.wl_geom.specs.Region.{EndsInRange};

use crate::edits::Edit;
use crate::rect::Rect;
use std::alloc::{AllocError, Allocator};

/// Appends the rectangle if it has points.
fn push_part<A: Allocator>(parts: &mut Vec<Rect, A>, part: &Rect) -> Result<(), AllocError>
    ensures points { OnOk result ((x y : ℤ) → count_at x y parts.new.items ≡ count_at x y parts.old.items + bit (in_rect x y part.now)) }
    ensures ends { All EndsInRange parts.old.items → EndsInRange part.now → All EndsInRange parts.new.items }
{
    if part.is_empty() {
        return Ok(());
    }
    parts.push(*part)?;
    Ok(())
}

/// Appends those of the rectangles that have points.
fn push_parts<A: Allocator>(parts: &mut Vec<Rect, A>, more: &[Rect]) -> Result<(), AllocError>
    ensures points { OnOk result ((x y : ℤ) → count_at x y parts.new.items ≡ count_at x y parts.old.items + count_at x y more.now) }
    ensures ends { All EndsInRange parts.old.items → All EndsInRange more.now → All EndsInRange parts.new.items }
{
    for part in more {
        push_part(parts, part)?;
    }
    Ok(())
}

/// Appends what is left of the rectangle without the hole.
fn push_around<A: Allocator>(
    parts: &mut Vec<Rect, A>,
    rect: &Rect,
    hole: &Rect,
) -> Result<(), AllocError>
    requires { EndsInRange rect.now }
    ensures points { OnOk result ((x y : ℤ) → count_at x y parts.new.items ≡ count_at x y parts.old.items
        + bit (in_rect x y rect.now && not (in_rect x y hole.now))) }
    ensures ends { All EndsInRange parts.old.items → All EndsInRange parts.new.items }
{
    if rect.misses(hole) {
        return push_part(parts, rect);
    }
    push_parts(parts, &rect.around(hole))
}

/// The rectangles without the points of the hole.
fn without<A: Allocator>(alloc: A, rects: &[Rect], hole: &Rect) -> Result<Vec<Rect, A>, AllocError>
    requires { All EndsInRange rects.now }
    ensures points { IfOk result (λ left. (x y : ℤ) → count_at x y left.items
        ≡ cond (in_rect x y hole.now) 0 (count_at x y rects.now)) }
    ensures ends { IfOk result (λ left. All EndsInRange left.items) }
{
    let mut parts = Vec::new(alloc);
    for rect in rects {
        push_around(&mut parts, rect, hole)?;
    }
    Ok(parts)
}

/// The rectangles after one more change.
fn edited<A: Allocator>(alloc: A, rects: &[Rect], edit: &Edit) -> Result<Vec<Rect, A>, AllocError>
    requires { All EndsInRange rects.now }
    ensures points { IfOk result (λ parts. (x y : ℤ) → count_at x y parts.items
        ≡ cond (in_rect x y edit.now.rect) (bit (is_point x y && edit.now.adds)) (count_at x y rects.now)) }
    ensures ends { IfOk result (λ parts. All EndsInRange parts.items) }
{
    let mut parts = without(alloc, rects, &edit.rect)?;
    if edit.adds {
        push_part(&mut parts, &edit.rect.clipped())?;
    }
    Ok(parts)
}

/// Disjoint rectangles of the points that are held after the changes. Each change cuts the
/// rectangles that it meets, and leaves the others whole. All edges are edges of changes, so `n`
/// changes make at most `(2n - 1)²` rectangles.
pub(crate) fn rects_of<A: Allocator + Copy>(
    alloc: A,
    edits: &[Edit],
) -> Result<Vec<Rect, A>, AllocError>
    ensures { IfOk result (λ rects. (x y : ℤ) → count_at x y rects.items ≡ bit (is_point x y && is_held x y edits.now)) }
{
    let mut rects = Vec::new(alloc);
    for edit in edits {
        rects = edited(alloc, &rects, edit)?;
    }
    Ok(rects)
}
