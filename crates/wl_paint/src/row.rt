ghost use Rattle.std.specs.Prelude.{◌≡◌, ◌+◌, ◌≤◌, ◌<◌, ◌||◌, ℕ, length, false, IfOk};
ghost use Rattle.wl_paint.specs.Damage.{GivesRun, count_below, is_between, marked};

use crate::span::Span;
use crate::words::{has_mark, mark_around, run_from, unmark, unmarked};
use std::alloc::{AllocError, Allocator};
use std::marker::Model;

/// Which points of one row are damaged, a bit each, and how many. It remembers columns that are all
/// damaged: they aren't marked again.
#[derive(Drop)]
pub(crate) struct Row<A: Allocator> {
    words: Vec<u64, A>,
    width: u32,
    count: u32,
    whole: Span,
}

impl<A: Allocator> Model for Row<A> {
    ghost use Rattle.std.specs.Prelude.{List, Bool};
    ghost use Rattle.wl_paint.specs.Words.{IsRow, IsWhole, marks_from};

    ghost Value = { List Bool };

    ghost view = { λ r. marks_from r.words.items 0 r.width };

    ghost invariant = { λ r. IsRow r.width r.words.items r.count × IsWhole r.words.items r.whole };
}

impl<A: Allocator> Row<A> {
    pub(crate) fn new(alloc: A, width: u32) -> Result<Self, AllocError>
        requires { width ≤ 4096 }
        ensures width { IfOk result (λ row. length row ≡ width) }
        ensures empty { IfOk result (λ row. (x : ℕ) → marked row x ≡ false) }
    {
        let words = unmarked(alloc, width)?;
        Ok(Row {
            words,
            width,
            count: 0,
            whole: Span::NONE,
        })
    }

    pub(crate) fn has(&self, x: u32) -> bool
        ensures { result ≡ marked self.now x }
    {
        has_mark(&self.words, x)
    }

    /// Marks the points from `first` up to `end`.
    pub(crate) fn add(&mut self, first: u32, end: u32)
        requires order { first ≤ end }
        requires within { end ≤ length self.old }
        requires narrow { length self.old ≤ 4096 }
        ensures points { (x : ℕ) → marked self.new x ≡ (marked self.old x || is_between first end x) }
        ensures width { length self.new ≡ length self.old }
    {
        self.count += mark_around(&mut self.words, first, end, self.whole);
        self.whole = self.whole.joined(Span { first, end });
    }

    pub(crate) fn count(&self) -> u32
        ensures { result ≡ count_below (length self.now) (marked self.now) }
    {
        self.count
    }

    /// Forgets all damage. A row without damage is passed over.
    pub(crate) fn clear(&mut self)
        ensures empty { (x : ℕ) → marked self.new x ≡ false }
        ensures width { length self.new ≡ length self.old }
    {
        if self.count > 0 {
            unmark(&mut self.words);
            self.count = 0;
            self.whole = Span::NONE;
        }
    }

    /// The start and the length of the first damaged run at or after `from`.
    pub(crate) fn next_run(&self, from: u32) -> Option<(u32, u32)>
        requires { length self.now ≤ 4096 }
        ensures { GivesRun (marked self.now) (length self.now) from result }
    {
        if self.count == 0 {
            return None;
        }
        run_from(&self.words, self.width, from)
    }
}
