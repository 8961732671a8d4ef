ghost use Rattle.std.specs.Prelude.{◌≡◌, ◌<◌, ◌≤◌, ◌||◌, ◌&&◌, ℕ, [], false, pos, length, slice_index_or, IsTrue, IfOk, IfSome, IfNone};
ghost use Rattle.wl_geom.specs.Rect.{in_rect};
ghost use Rattle.wl_paint.specs.Blocks.{is_in_block};
ghost use Rattle.wl_paint.specs.Damage.{GivesRun, IsFirstPart, count_points, has, is_between, marked};

use crate::row::Row;
use crate::span::{Block, Span, clipped};
use std::alloc::{AllocError, Allocator};
use std::marker::Model;
use wl_geom::Rect;

/// Which points of an output are to be painted again. Only `new` takes memory.
///
/// It remembers a block whose points are all damaged: what lies in it isn't marked again.
#[derive(Drop)]
pub struct Damage<A: Allocator> {
    width: u32,
    height: u32,
    rows: Vec<Row<A>, A>,
    whole: Block,
}

impl<A: Allocator> Model for Damage<A> {
    ghost use Rattle.wl_paint.specs.Blocks.{IsMarkedIn};
    ghost use Rattle.wl_paint.specs.Damage.{Damaged, IsDamage};

    ghost Value = { Damaged };

    ghost view = { λ d. record { width = d.width; height = d.height; rows = d.rows.items } };

    ghost invariant = { λ d. IsDamage (record { width = d.width; height = d.height; rows = d.rows.items }) × IsMarkedIn d.rows.items d.whole };
}

impl<A: Allocator + Copy> Damage<A> {
    /// No damage, of an output with these sides in pixels.
    pub fn new(alloc: A, width: u32, height: u32) -> Result<Self, AllocError>
        requires wide { width ≤ 4096 }
        requires high { height ≤ 4096 }
        ensures width { IfOk result (λ damage. damage.width ≡ width) }
        ensures height { IfOk result (λ damage. damage.height ≡ height) }
        ensures empty { IfOk result (λ damage. (x y : ℕ) → has damage x y ≡ false) }
    {
        let mut rows = Vec::with_capacity(alloc, height as usize)?;
        for _ in 0..height {
            rows.push(Row::new(alloc, width)?)?;
        }
        Ok(Damage {
            width,
            height,
            rows,
            whole: Block::NONE,
        })
    }
}

impl<A: Allocator> Damage<A> {
    /// Whether the point in column `x` of row `y` is damaged. None past the right edge is.
    pub fn has(&self, x: u32, y: u32) -> bool
        requires { y < self.now.height }
        ensures { result ≡ has self.now x y }
    {
        self.rows[y as usize].has(x)
    }

    /// All points of the output.
    pub fn bounds(&self) -> Rect
        ensures { result ≡ record { x = pos 0; y = pos 0; w = pos self.now.width; h = pos self.now.height } }
    {
        Rect {
            x: 0,
            y: 0,
            w: self.width as i32,
            h: self.height as i32,
        }
    }

    /// Adds the points of the rectangle that lie in the output. Its sides are 4,096 pixels at most.
    pub fn add(&mut self, rect: Rect)
        ensures points { (x y : ℕ) → x < self.old.width → y < self.old.height
            → has self.new x y ≡ (has self.old x y || in_rect (pos x) (pos y) rect) }
        ensures width { self.new.width ≡ self.old.width }
        ensures height { self.new.height ≡ self.old.height }
        ensures wide { self.new.width ≤ 4096 }
        ensures high { self.new.height ≤ 4096 }
    {
        let (left, right) = clipped(rect.x, rect.w, self.width);
        let (top, bottom) = clipped(rect.y, rect.h, self.height);
        let block = block_of(left, right, top, bottom);
        if self.whole.has_all(block) {
            return;
        }
        mark_rows(&mut self.rows, top, bottom, left, right);
        self.whole = self.whole.larger(block);
    }

    /// How many points are damaged.
    pub fn count(&self) -> u32
        ensures { result ≡ count_points self.now.width self.now.height (has self.now) }
    {
        let mut count = 0;
        for y in 0..self.rows.len() {
            count += self.rows[y].count();
        }
        count
    }

    /// Forgets all damage. Rows without damage are passed over.
    pub fn clear(&mut self)
        ensures empty { (x y : ℕ) → has self.new x y ≡ false }
        ensures width { self.new.width ≡ self.old.width }
        ensures height { self.new.height ≡ self.old.height }
    {
        clear_rows(&mut self.rows);
        self.whole = Block::NONE;
    }

    /// The width of the output in pixels.
    pub(crate) fn width(&self) -> u32
        ensures { result ≡ self.now.width }
    {
        self.width
    }

    /// The start and the length of the first damaged run of row `y` at or after column `from`.
    pub fn next_run(&self, y: u32, from: u32) -> Option<(u32, u32)>
        requires { y < self.now.height }
        ensures { GivesRun (λ x. has self.now x y) self.now.width from result }
    {
        self.rows[y as usize].next_run(from)
    }
}

/// The start and the length of the first damaged run of row `y` at or after column `from`, cut at
/// column `end`.
pub(crate) fn next_part<A: Allocator>(
    damage: &Damage<A>,
    y: u32,
    from: u32,
    end: u32,
) -> Option<(u32, u32)>
    requires row { y < damage.now.height }
    requires columns { end ≤ damage.now.width }
    ensures some { IfSome result (λ part. IsFirstPart (λ x. has damage.now x y) from end part) }
    ensures none { IfNone result ((x : ℕ) → from ≤ x → x < end → has damage.now x y ≡ false) }
{
    let (start, len) = damage.next_run(y, from)?;
    if start >= end {
        return None;
    }
    Some((start, len.min(end - start)))
}

/// Whether nothing of the row is damaged.
fn is_clear_row<A: Allocator>(damage: &Damage<A>, y: u32) -> bool
    requires { y < damage.now.height }
    ensures { IsTrue result → (x : ℕ) → x < damage.now.width → has damage.now x y ≡ false }
{
    match damage.next_run(y, 0) {
        Some(_) => false,
        None => true,
    }
}

/// Whether nothing of the rows is damaged.
pub(crate) fn is_clear<A: Allocator>(damage: &Damage<A>, rows: Span) -> bool
    requires { rows.end ≤ damage.now.height }
    ensures { IsTrue result → (x y : ℕ) → x < damage.now.width → rows.first ≤ y → y < rows.end → has damage.now x y ≡ false }
{
    for y in rows.first..rows.end {
        if !is_clear_row(damage, y) {
            return false;
        }
    }
    true
}

/// The columns from `left` up to `right` of the rows from `top` up to `bottom`.
fn block_of(left: u32, right: u32, top: u32, bottom: u32) -> Block
    ensures { (x y : ℕ) → is_in_block x y result ≡ (is_between left right x && is_between top bottom y) }
{
    Block {
        columns: Span {
            first: left,
            end: right,
        },
        rows: Span {
            first: top,
            end: bottom,
        },
    }
}

fn clear_rows<A: Allocator>(rows: &mut [Row<A>])
    ensures empty { (x y : ℕ) → marked (slice_index_or rows.new y []) x ≡ false }
    ensures widths { (y : ℕ) → length (slice_index_or rows.new y []) ≡ length (slice_index_or rows.old y []) }
{
    for row in rows.iter_mut() {
        row.clear();
    }
}

/// Marks the points from column `left` up to column `right` of the rows from `top` up to `bottom`.
fn mark_rows<A: Allocator>(rows: &mut [Row<A>], top: u32, bottom: u32, left: u32, right: u32)
    requires rows { top ≤ bottom }
    requires columns { left ≤ right }
    requires within { bottom ≤ length rows.old }
    requires wide { (y : ℕ) → y < length rows.old → right ≤ length (slice_index_or rows.old y []) }
    requires narrow { (y : ℕ) → y < length rows.old → length (slice_index_or rows.old y []) ≤ 4096 }
    ensures points { (x y : ℕ) → marked (slice_index_or rows.new y []) x
        ≡ (marked (slice_index_or rows.old y []) x || (is_between left right x && is_between top bottom y)) }
    ensures widths { (y : ℕ) → length (slice_index_or rows.new y []) ≡ length (slice_index_or rows.old y []) }
{
    for y in top..bottom {
        rows[y as usize].add(left, right);
    }
}
