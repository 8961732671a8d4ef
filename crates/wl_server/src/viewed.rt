//! Telling the viewer what changed.

ghost use Rattle.std.specs.Prelude.{◌≡◌, ◌<◌, ◌&&◌, ◌++◌, Option, OnOk, Some, not, slice_get};
ghost use Rattle.spec_desktop.specs.Desktop.{Desktop};
ghost use Rattle.spec_desktop.specs.Act.{Tick};
ghost use Rattle.spec_desktop.specs.declared.answers.Done.{Done};
ghost use Rattle.wl_recording.specs.Images.{images_in};
ghost use Rattle.wl_server.specs.Acting.{Takes, Then};
ghost use Rattle.wl_server.specs.Recorded.{IsAllRecorded};
ghost use Rattle.wl_server.specs.Telling.{Tells, TellsFrame};
ghost use Rattle.wl_server.specs.Watching.{Answers, IfWatched, Refreshes, RefreshesPlace, Shows, TellsOf, Answering, Writing, Writes, answers, lines_of, windows_text};
ghost use Rattle.wl_server.specs.Ways.{ways};
ghost use Rattle.wl_session.specs.Agreeing.{Agrees};
ghost use Rattle.wl_session.specs.Course.{TakesCourse};
ghost use Rattle.wl_session.specs.Shown.{windows_kept};
ghost use Rattle.wl_viewer.specs.Telling.{Update, ended, is_as_large, told_windows, window_line};
ghost use Rattle.wl_viewer.specs.declared.texts.WindowLine.{WindowLine as Line};

use crate::error::{TurnError, write_failed};
use crate::hearing::{dismiss, write_watcher};
use crate::hub::Hub;
use crate::noting::{note_tick, settle};
use crate::recorded::Recorded;
use crate::viewing::Watcher;
use std::alloc::{AllocError, Allocator};
use std::io::Write;
use wl_recording::{write_frame, write_image};
use wl_session::{Damage, Framebuffer, Session};
use wl_viewer::{Viewer, WindowLine};

/// Shows a frame at this time, which is recorded, and of which the viewer is told, and tells of it
/// where something was damaged.
pub(crate) fn show_viewed<A: Allocator + Copy, R: Write, C: Drop, W: Write, P: Write>(
    recorded: &mut Recorded<A, R>,
    place: &mut Option<Watcher<A, C>>,
    time: u32,
    report: &mut W,
    ppm: &mut Option<P>,
) -> Result<(), TurnError>
    ensures told { OnOk result ((update : Option Update) × Tells R.contents (Shows time update place.old place.new) recorded.old recorded.new
        (W.contents report.old) (W.contents report.new) (images_in P.contents ppm.old) (images_in P.contents ppm.new)) }
    ensures recorded { OnOk result (IsAllRecorded R.contents recorded.new.session recorded.new.recording) }
{
    settle(&mut recorded.recording, &recorded.session);
    note_tick(&mut recorded.recording, time);
    show_viewed_frame(&mut recorded.session, place, time, report, ppm)?;
    recorded.flush()
}

/// Shows a frame at this time, in milliseconds, and tells the viewer. It reports the frame if
/// something was damaged.
fn show_viewed_frame<A: Allocator + Copy, C: Drop, W: Write, P: Write>(
    session: &mut Session<A>,
    place: &mut Option<Watcher<A, C>>,
    time: u32,
    report: &mut W,
    ppm: &mut Option<P>,
) -> Result<(), TurnError>
    ensures course { TakesCourse (Tick time) Done.Tick session.old session.new }
    ensures told { OnOk result ((update : Option Update) × RefreshesPlace session.old.damage session.new.frame time update place.old place.new
        × TellsFrame time session.old session.new (W.contents report.old) (W.contents report.new) (images_in P.contents ppm.old) (images_in P.contents ppm.new)) }
{
    let frame = session.tick(time);
    refresh(place, frame.damage, frame.pixels, time);
    let count = frame.damage.count();
    if count == 0 {
        return Ok(());
    }
    write_frame(time, count, report).map_err(write_failed)?;
    write_image(frame.pixels, ppm).map_err(write_failed)
}

/// Adds what a frame changed to what is untold. If nothing waits to be sent, it makes an update of
/// all that is untold.
fn refresh<A: Allocator + Copy, C: Drop>(
    place: &mut Option<Watcher<A, C>>,
    damage: &Damage<A>,
    frame: &Framebuffer<A>,
    time: u32,
)
    ensures { (update : Option Update) × RefreshesPlace damage.now frame.now time update place.old place.new }
{
    if let Some(watcher) = place {
        refresh_watcher(watcher, damage, frame, time);
    }
}

fn refresh_watcher<A: Allocator + Copy, C: Drop>(
    watcher: &mut Watcher<A, C>,
    damage: &Damage<A>,
    frame: &Framebuffer<A>,
    time: u32,
)
    ensures { (update : Option Update) × Refreshes damage.now frame.now time update watcher.old watcher.new }
{
    if !is_fit(watcher, damage, frame) {
        watcher.has_failed = true;
        return;
    }
    watcher.viewer.changed(damage);
    match watcher.viewer.update(frame, time) {
        Ok(is_told) => watcher.is_told = is_told,
        Err(AllocError) => watcher.has_failed = true,
    }
}

/// Whether a viewer is to be told of a frame with this damage: it didn't fail, and its output is as
/// large.
fn is_fit<A: Allocator + Copy, C: Drop>(
    watcher: &Watcher<A, C>,
    damage: &Damage<A>,
    frame: &Framebuffer<A>,
) -> bool
    ensures { result ≡ (not watcher.now.has_failed && is_as_large watcher.now.viewer.untold damage.now frame.now) }
{
    !watcher.has_failed && watcher.viewer.is_as_large(frame, damage)
}

/// Answers the viewer what is due, and writes to it. It loses its place if it ended or failed, and
/// once it read that a line was bad.
pub(crate) fn tell<A: Allocator + Copy, R: Write, V: Hub>(
    hub: &mut V,
    place: &mut Option<Watcher<A, V::Conn>>,
    recorded: &mut Recorded<A, R>,
    time: u32,
)
    ensures { Takes R.contents (TellsOf (ways V.accepts V.reads V.writes V.closes V.fault_count) time (hub.old, place.old) (hub.new, place.new)) recorded.old recorded.new }
{
    reply(hub, place, recorded, time);
    dismiss(hub, place, recorded, time);
}

/// Answers the viewer what is due, and writes to it, if there is one.
fn reply<A: Allocator + Copy, R: Write, V: Hub>(
    hub: &mut V,
    place: &mut Option<Watcher<A, V::Conn>>,
    recorded: &Recorded<A, R>,
    time: u32,
)
    ensures { Takes R.contents (IfWatched (Then (Answering time) (Writing (ways V.accepts V.reads V.writes V.closes V.fault_count))) (hub.old, place.old) (hub.new, place.new)) recorded.now recorded.now }
{
    if let Some(watcher) = place {
        answer(watcher, &recorded.session, time);
        write_watcher(hub, watcher);
    }
}

/// Puts the answers that are due behind what waits to be sent.
fn answer<A: Allocator + Copy, C: Drop>(
    watcher: &mut Watcher<A, C>,
    session: &Session<A>,
    time: u32,
)
    ensures { (d : Desktop) → Agrees session.now.desk d → Answers (lines_of d) time watcher.old watcher.new }
{
    if watcher.has_failed {
        return;
    }
    match put_answers(&mut watcher.viewer, session, watcher.is_told, time) {
        Ok(()) => {}
        Err(AllocError) => watcher.has_failed = true,
    }
}

/// Puts the answers that are due. Out of memory, a part of them may wait.
fn put_answers<A: Allocator + Copy>(
    viewer: &mut Viewer<A>,
    session: &Session<A>,
    is_told: bool,
    time: u32,
) -> Result<(), AllocError>
    ensures put { OnOk result ((d : Desktop) → Agrees session.now.desk d → viewer.new ≡ ended (answers is_told time (lines_of d) viewer.old)) }
    ensures held { viewer.new.heard.held ≡ viewer.old.heard.held }
{
    if is_told {
        viewer.answer_sync(time)?;
        put_windows(viewer, session)?;
    }
    viewer.tell_bad()
}

/// Tells the windows of the output from bottom to top, if the viewer asked for them.
fn put_windows<A: Allocator + Copy>(
    viewer: &mut Viewer<A>,
    session: &Session<A>,
) -> Result<(), AllocError>
    ensures told { OnOk result ((d : Desktop) → Agrees session.now.desk d → viewer.new ≡ record viewer.old { heard = told_windows viewer.old.heard; out = viewer.old.out ++ windows_text viewer.old.heard.wants_windows (lines_of d) }) }
    ensures held { viewer.new.heard.held ≡ viewer.old.heard.held }
{
    if !viewer.wants_windows() {
        return Ok(());
    }
    let count = session.window_count();
    viewer.tell_windows(count)?;
    for k in 0..count {
        put_window(viewer, session, k)?;
    }
    Ok(())
}

/// Tells the window at place `k` of the stacking order, counted from 0 at the bottom.
fn put_window<A: Allocator + Copy>(
    viewer: &mut Viewer<A>,
    session: &Session<A>,
    k: usize,
) -> Result<(), AllocError>
    requires { k < windows_kept session.now.desk.kept }
    ensures told { OnOk result ((d : Desktop) → Agrees session.now.desk d → (line : Line) × (slice_get (lines_of d) k ≡ Some line)
        × (viewer.new ≡ record viewer.old { out = viewer.old.out ++ window_line line })) }
    ensures held { viewer.new.heard.held ≡ viewer.old.heard.held }
{
    let window = session.window(k);
    viewer.tell_window(&WindowLine {
        client: window.client,
        surface: window.surface,
        x: window.x,
        y: window.y,
        w: window.width,
        h: window.height,
    })
}
