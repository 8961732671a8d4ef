//! Taking the pointer's lines.

ghost use Rattle.std.specs.Prelude.{◌≡◌, [], ◌∷◌};
ghost use Rattle.wl_server.specs.Acting.{Takes};
ghost use Rattle.wl_server.specs.Due.{due_at, left_at};
ghost use Rattle.wl_server.specs.Phases.{Points};

use crate::recorded::Recorded;
use crate::waiting::Waiting;
use std::alloc::Allocator;
use std::io::Write;
use wl_recording::PointerLine;

/// Takes the lines that are due at this time, in milliseconds, in their order.
pub(crate) fn point_all<A: Allocator + Copy, R: Write>(
    recorded: &mut Recorded<A, R>,
    waiting: &mut Waiting<A>,
    time: u32,
)
    ensures pointed { Takes R.contents (Points (due_at time waiting.old)) recorded.old recorded.new }
    ensures left { waiting.new ≡ left_at time waiting.old }
{
    while let Some(line) = waiting.next_due(time) {
        point(recorded, line);
    }
}

/// Moves the pointer, or presses or releases a button, as a line says, at the line's own time.
fn point<A: Allocator + Copy, R: Write>(recorded: &mut Recorded<A, R>, line: PointerLine)
    ensures { Takes R.contents (Points (line ∷ [])) recorded.old recorded.new }
{
    match line {
        PointerLine::Motion { time, x, y } => recorded.motion(time, x, y),
        PointerLine::Button {
            time,
            code,
            pressed,
        } => recorded.button(time, code, pressed),
        PointerLine::Skip | PointerLine::Bad => {}
    }
}
