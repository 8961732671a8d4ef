//! The pointer lines that weren't taken yet.

ghost use Rattle.std.specs.Prelude.{◌≡◌};
ghost use Rattle.wl_server.specs.Due.{TakesDue, is_due};

use std::alloc::Allocator;
use std::marker::Model;
use wl_recording::PointerLine;

/// Lines of a pointer file, of which some were taken. Contracts see those that are left.
#[derive(Drop)]
pub struct Waiting<A: Allocator> {
    lines: Vec<PointerLine, A>,
    taken: usize,
}

impl<A: Allocator> Model for Waiting<A> {
    ghost use Rattle.std.specs.Prelude.{List, ◌≤◌, drop, length};
    ghost use Rattle.wl_recording.specs.declared.pointer.PointerLine.{PointerLine};

    ghost Value = { List PointerLine };

    ghost view = { λ w. drop w.taken w.lines.items };

    ghost invariant = { λ w. w.taken ≤ length w.lines.items };
}

impl<A: Allocator> Waiting<A> {
    /// All these lines; none was taken.
    pub fn new(lines: Vec<PointerLine, A>) -> Waiting<A>
        ensures { result ≡ lines.items }
    {
        Waiting { lines, taken: 0 }
    }

    /// Takes the next line, if it is due at this time.
    pub(crate) fn next_due(&mut self, time: u32) -> Option<PointerLine>
        ensures { TakesDue time result self.old self.new }
    {
        if self.taken == self.lines.len() {
            return None;
        }
        let line = self.lines[self.taken];
        if !is_due(&line, time) {
            return None;
        }
        self.taken += 1;
        Some(line)
    }
}

/// Whether a line's time has come, or it has none.
fn is_due(line: &PointerLine, time: u32) -> bool
    ensures { result ≡ is_due time line.now }
{
    match *line {
        PointerLine::Motion { time: due, .. } | PointerLine::Button { time: due, .. } => due
            <= time,
        PointerLine::Skip | PointerLine::Bad => true,
    }
}
