//! Accepting a viewer, and taking its lines.

ghost use Rattle.std.specs.Prelude.{◌≡◌, ◌||◌, length};
ghost use Rattle.wl_server.specs.Acting.{Takes, Then};
ghost use Rattle.wl_server.specs.Viewed.{AttendsIf, Hears};
ghost use Rattle.wl_server.specs.Watching.{AcceptsOne, Attends, Dismisses, Does, IfWatched, Reads, TakesOnce, Writes, Writing, act_of, acts_of, heard_by, is_dismissed, releases};
ghost use Rattle.wl_server.specs.Ways.{ways};
ghost use Rattle.wl_viewer.specs.Hearing.{asks};

use crate::delivery::deliver;
use crate::hub::{Hub, HubFault};
use crate::receiving::{Received, receive};
use crate::recorded::Recorded;
use crate::viewing::{Viewing, Watcher};
use std::alloc::{AllocError, Allocator};
use std::io::Write;
use wl_viewer::{Asked, Viewer};

/// How often a viewer is read in a turn, at most.
const READS: usize = 16;

/// How many bytes are read at once, at most.
const PIECE: usize = 4096;

/// Serves the viewer, and then a connection that waits. That one gets the place if nobody has it,
/// and is served too; else it is closed at once. The answer is true if somebody new has the place.
pub(crate) fn hear<A: Allocator + Copy, R: Write, V: Hub>(
    viewing: &mut Viewing<A, V, V::Conn>,
    recorded: &mut Recorded<A, R>,
    time: u32,
) -> bool
    ensures heard { Takes R.contents (Hears (ways V.accepts V.reads V.writes V.closes V.fault_count) time viewing.old.width viewing.old.height result
        (viewing.old.hub, viewing.old.watcher) (viewing.new.hub, viewing.new.watcher)) recorded.old recorded.new }
    ensures width { viewing.new.width ≡ viewing.old.width }
    ensures height { viewing.new.height ≡ viewing.old.height }
{
    attend(&mut viewing.hub, &mut viewing.watcher, recorded, time);
    let is_new = accept_viewer(viewing);
    attend_new(
        is_new,
        &mut viewing.hub,
        &mut viewing.watcher,
        recorded,
        time,
    );
    is_new
}

/// Serves a viewer that got its place just now.
fn attend_new<A: Allocator + Copy, R: Write, V: Hub>(
    is_new: bool,
    hub: &mut V,
    place: &mut Option<Watcher<A, V::Conn>>,
    recorded: &mut Recorded<A, R>,
    time: u32,
)
    ensures { Takes R.contents (AttendsIf is_new (ways V.accepts V.reads V.writes V.closes V.fault_count) time (hub.old, place.old) (hub.new, place.new)) recorded.old recorded.new }
{
    if !is_new {
        return;
    }
    attend(hub, place, recorded, time);
}

/// Writes to a viewer and reads it, if there is one, and takes its place away if it ended.
fn attend<A: Allocator + Copy, R: Write, V: Hub>(
    hub: &mut V,
    place: &mut Option<Watcher<A, V::Conn>>,
    recorded: &mut Recorded<A, R>,
    time: u32,
)
    ensures { Takes R.contents (Attends (ways V.accepts V.reads V.writes V.closes V.fault_count) time (hub.old, place.old) (hub.new, place.new)) recorded.old recorded.new }
{
    exchange(hub, place, recorded, time);
    dismiss(hub, place, recorded, time);
}

/// Writes to a viewer and reads it, if there is one.
fn exchange<A: Allocator + Copy, R: Write, V: Hub>(
    hub: &mut V,
    place: &mut Option<Watcher<A, V::Conn>>,
    recorded: &mut Recorded<A, R>,
    time: u32,
)
    ensures { Takes R.contents (IfWatched (Then (Writing (ways V.accepts V.reads V.writes V.closes V.fault_count)) (Reads (ways V.accepts V.reads V.writes V.closes V.fault_count) time)) (hub.old, place.old) (hub.new, place.new)) recorded.old recorded.new }
{
    if let Some(watcher) = place {
        write_watcher(hub, watcher);
        read_watcher(hub, watcher, recorded, time);
    }
}

/// Accepts a connection that waits. The answer is true if it got the place.
fn accept_viewer<A: Allocator + Copy, V: Hub>(viewing: &mut Viewing<A, V, V::Conn>) -> bool
    ensures accepted { AcceptsOne (ways V.accepts V.reads V.writes V.closes V.fault_count) viewing.old.width viewing.old.height result
        (viewing.old.hub, viewing.old.watcher) (viewing.new.hub, viewing.new.watcher) }
    ensures width { viewing.new.width ≡ viewing.old.width }
    ensures height { viewing.new.height ≡ viewing.old.height }
{
    let conn = match viewing.hub.accept() {
        Ok(Some(conn)) => conn,
        Ok(None) => return false,
        Err(HubFault) => return false,
    };
    if viewing.watcher.is_some() {
        viewing.hub.close(conn);
        return false;
    }
    match Viewer::new(viewing.alloc, viewing.width, viewing.height) {
        Ok(viewer) => {
            viewing.watcher = Some(Watcher {
                conn,
                viewer,
                is_told: false,
                has_failed: false,
            });
            true
        }
        Err(AllocError) => {
            viewing.hub.close(conn);
            false
        }
    }
}

/// Writes to a viewer until it would block.
pub(crate) fn write_watcher<A: Allocator + Copy, V: Hub>(
    hub: &mut V,
    watcher: &mut Watcher<A, V::Conn>,
)
    ensures { Writes (ways V.accepts V.reads V.writes V.closes V.fault_count) (hub.old, watcher.old) (hub.new, watcher.new) }
{
    if watcher.has_failed {
        return;
    }
    let delivered = deliver(hub, &mut watcher.conn, watcher.viewer.out());
    watcher.viewer.sent(delivered.bytes);
    watcher.has_failed = delivered.is_gone;
}

/// Reads a viewer until it would block, but at most [`READS`] times.
fn read_watcher<A: Allocator + Copy, R: Write, V: Hub>(
    hub: &mut V,
    watcher: &mut Watcher<A, V::Conn>,
    recorded: &mut Recorded<A, R>,
    time: u32,
)
    ensures { Takes R.contents (Reads (ways V.accepts V.reads V.writes V.closes V.fault_count) time (hub.old, watcher.old) (hub.new, watcher.new)) recorded.old recorded.new }
{
    let mut buf = [0; PIECE];
    for before in 0..READS {
        if !read_once(hub, watcher, recorded, time, &mut buf) {
            return;
        }
    }
}

/// Reads once, and takes what came. The answer is false if no more is to be read.
fn read_once<A: Allocator + Copy, R: Write, V: Hub>(
    hub: &mut V,
    watcher: &mut Watcher<A, V::Conn>,
    recorded: &mut Recorded<A, R>,
    time: u32,
    buf: &mut [u8],
) -> bool
    requires { length buf.old ≡ 4096 }
    ensures { Takes R.contents (TakesOnce (ways V.accepts V.reads V.writes V.closes V.fault_count) time result (hub.old, watcher.old) (hub.new, watcher.new)) recorded.old recorded.new }
{
    if is_left(watcher) {
        return false;
    }
    match receive(hub, &mut watcher.conn, buf) {
        Received::Bytes(count) => {
            take_bytes(&mut watcher.viewer, recorded, time, &buf[..count]);
            true
        }
        Received::Later => false,
        Received::Gone => {
            watcher.has_failed = true;
            false
        }
    }
}

/// Whether a viewer is read no more: it failed, or sent a bad line.
fn is_left<A: Allocator + Copy, C: Drop>(watcher: &Watcher<A, C>) -> bool
    ensures { result ≡ (watcher.now.has_failed || watcher.now.viewer.heard.is_bad) }
{
    watcher.has_failed || watcher.viewer.is_bad()
}

/// Takes a viewer's bytes: the pointer does what its lines ask, at this time, in milliseconds.
fn take_bytes<A: Allocator + Copy, R: Write>(
    viewer: &mut Viewer<A>,
    recorded: &mut Recorded<A, R>,
    time: u32,
    bytes: &[u8],
)
    ensures taken { Takes R.contents (Does (acts_of time (asks viewer.old.heard bytes.now))) recorded.old recorded.new }
    ensures heard { viewer.new ≡ heard_by bytes.now viewer.old }
{
    for byte in bytes {
        let asked = viewer.take(*byte);
        act(recorded, asked, time);
    }
}

/// Has the pointer do what is asked, at this time, in milliseconds.
fn act<A: Allocator + Copy, R: Write>(recorded: &mut Recorded<A, R>, asked: Asked, time: u32)
    ensures { Takes R.contents (Does (act_of time asked)) recorded.old recorded.new }
{
    match asked {
        Asked::Motion { x, y } => recorded.motion(time, x, y),
        Asked::Button { code, pressed } => recorded.button(time, code, pressed),
        Asked::Sync { .. } | Asked::Windows | Asked::Nothing | Asked::Bad => {}
    }
}

/// Takes the place from a viewer that ended or failed, or was told of a bad line. The buttons that
/// it holds are released at this time, in milliseconds, and its connection is closed.
pub(crate) fn dismiss<A: Allocator + Copy, R: Write, V: Hub>(
    hub: &mut V,
    place: &mut Option<Watcher<A, V::Conn>>,
    recorded: &mut Recorded<A, R>,
    time: u32,
)
    ensures { Takes R.contents (Dismisses (ways V.accepts V.reads V.writes V.closes V.fault_count) time (hub.old, place.old) (hub.new, place.new)) recorded.old recorded.new }
{
    let Some(watcher) = place.take() else {
        return;
    };
    if !is_dismissed(&watcher) {
        *place = Some(watcher);
        return;
    }
    release_all(recorded, watcher.viewer.held(), time);
    hub.close(watcher.conn);
}

/// Whether a viewer failed or ended, or was told of a bad line.
fn is_dismissed<A: Allocator + Copy, C: Drop>(watcher: &Watcher<A, C>) -> bool
    ensures { result ≡ is_dismissed watcher.now }
{
    watcher.has_failed || watcher.viewer.is_done()
}

/// Releases these buttons at this time, in milliseconds.
fn release_all<A: Allocator + Copy, R: Write>(
    recorded: &mut Recorded<A, R>,
    buttons: &[u32],
    time: u32,
)
    ensures { Takes R.contents (Does (releases time buttons.now)) recorded.old recorded.new }
{
    for code in buttons {
        recorded.button(time, *code, false);
    }
}
