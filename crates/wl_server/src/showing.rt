//! Showing a frame.

ghost use Rattle.std.specs.Prelude.{◌≡◌, OnOk};
ghost use Rattle.std.specs.Io.KnownBytes.{Appends};
ghost use Rattle.spec_desktop.specs.Act.{Tick};
ghost use Rattle.spec_desktop.specs.declared.answers.Done.{Done};
ghost use Rattle.wl_session.specs.Course.{TakesCourse};
ghost use Rattle.wl_session.specs.Image.{image_of};
ghost use Rattle.wl_server.specs.Acting.{Takes};
ghost use Rattle.wl_server.specs.Phases.{Shows};
ghost use Rattle.wl_recording.specs.Images.{images_in};
ghost use Rattle.wl_server.specs.Recorded.{IsAllRecorded};
ghost use Rattle.wl_server.specs.Telling.{Tells, TellsFrame};

use crate::error::{TurnError, write_failed};
use crate::noting::{note_tick, settle};
use crate::recorded::Recorded;
use std::alloc::Allocator;
use std::io::Write;
use wl_recording::{write_frame, write_image};
use wl_session::Session;

/// Shows a frame at this time, which is recorded, and tells of it where something was damaged. What
/// is recorded up to it isn't held back.
pub(crate) fn show<A: Allocator + Copy, R: Write, W: Write, P: Write>(
    recorded: &mut Recorded<A, R>,
    time: u32,
    report: &mut W,
    ppm: &mut Option<P>,
) -> Result<(), TurnError>
    ensures taken { Takes R.contents (Shows time) recorded.old recorded.new }
    ensures told { OnOk result (Tells R.contents (Shows time) recorded.old recorded.new (W.contents report.old) (W.contents report.new)
        (images_in P.contents ppm.old) (images_in P.contents ppm.new)) }
    ensures recorded { OnOk result (IsAllRecorded R.contents recorded.new.session recorded.new.recording) }
{
    settle(&mut recorded.recording, &recorded.session);
    note_tick(&mut recorded.recording, time);
    show_frame(&mut recorded.session, time, report, ppm)?;
    recorded.flush()
}

/// Shows a frame at this time, in milliseconds, and reports it if something was damaged.
fn show_frame<A: Allocator + Copy, W: Write, P: Write>(
    session: &mut Session<A>,
    time: u32,
    report: &mut W,
    ppm: &mut Option<P>,
) -> Result<(), TurnError>
    ensures course { TakesCourse (Tick time) Done.Tick session.old session.new }
    ensures told { OnOk result (TellsFrame time session.old session.new (W.contents report.old) (W.contents report.new)
        (images_in P.contents ppm.old) (images_in P.contents ppm.new)) }
{
    let frame = session.tick(time);
    let count = frame.damage.count();
    if count == 0 {
        return Ok(());
    }
    write_frame(time, count, report).map_err(write_failed)?;
    write_image(frame.pixels, ppm).map_err(write_failed)
}
