//! A service, which lasts from turn to turn, and the turn.

ghost use Rattle.std.specs.Prelude.{◌≡◌, ⊤, OnOk, Option};
ghost use Rattle.wl_recording.specs.Side.{files_of};
ghost use Rattle.wl_server.specs.Acting.{IsServed, Takes};
ghost use Rattle.wl_server.specs.Due.{left_at};
ghost use Rattle.wl_server.specs.Phases.{IsTurn, Serves, StartsServing, StartsTurn, TakesIn};
ghost use Rattle.wl_recording.specs.Images.{images_in};
ghost use Rattle.wl_server.specs.Telling.{IsToldOf, Tells};
ghost use Rattle.wl_server.specs.Viewed.{IsViewedTurn, ServesViewed};
ghost use Rattle.wl_server.specs.Ways.{serving, ways};
ghost use Rattle.wl_viewer.specs.Telling.{Update};

use crate::error::TurnError;
use crate::hearing::hear;
use crate::hub::Hub;
use crate::phases::{give_out, take_in};
use crate::pointing::point_all;
use crate::recorded::Recorded;
use crate::seat::Connections;
use crate::showing::show;
use crate::viewed::{show_viewed, tell};
use crate::viewing::Viewing;
use crate::waiting::Waiting;
use std::alloc::Allocator;
use std::io::Write;
use wl_recording::{PointerLine, SideFiles};

/// A session whose clients are connections of a hub, with the side files of their stores, and the
/// pointer lines that weren't taken yet.
#[derive(Drop)]
pub struct Service<A: Allocator, R: Write, H, S> {
    /// The clients, and the frame, with what is recorded.
    pub recorded: Recorded<A, R>,
    /// What gives the connections, and moves their bytes.
    pub hub: H,
    /// The files of the clients' stores.
    pub side: S,
    /// The lines of the pointer file that weren't taken yet.
    pub waiting: Waiting<A>,
}

impl<A: Allocator, R: Write, H, S> Service<A, R, H, S> {
    /// A session before its first turn. It takes no memory. Pointer lines that are skipped or bad
    /// ask nothing.
    pub fn new(
        recorded: Recorded<A, R>,
        hub: H,
        side: S,
        lines: Vec<PointerLine, A>,
    ) -> Service<A, R, H, S>
        ensures recorded { result.recorded ≡ recorded }
        ensures hub { result.hub ≡ hub }
        ensures side { result.side ≡ side }
        ensures waiting { result.waiting ≡ lines.items }
    {
        Service {
            recorded,
            hub,
            side,
            waiting: Waiting::new(lines),
        }
    }
}

/// Takes one turn of a session with its clients' connections, at this time, in milliseconds:
/// - the pointer's lines are taken in their order, up to the first that isn't due. Each moves the
///   pointer, or presses or releases a button, at its own time;
/// - connections that wait are accepted, at most 32. Each becomes a client's, or is closed at once;
/// - clients are read, one after another, at most 16 times each, and fed what each read gave;
/// - clients that sent bytes get their side files: each live store, from its start up to the
///   store's size;
/// - a frame is shown;
/// - clients are written to, one after another, and the hub's answer says what was sent;
/// - clients that ended are closed, with their connections, once their bytes went out or a write
///   failed.
///
/// A turn takes steps of a session, event by event. Its frame is the desktop as the frame began,
/// painted from nothing, at each point that no window covers of a client that broke its promises
/// (wayland.xml, wl_surface.damage and wl_buffer.release).
///
/// The report has each client that connects, and each that is closed. It has the frame if something
/// was to be painted for it, with its image if images are wanted. It has nothing else.
///
/// # Errors
///
/// `Write` if the report or the images couldn't be written. The steps that were taken stand, and
/// are those that a turn begins with. A connection that fails ends its client, and is never an
/// error.
pub fn turn<A: Allocator + Copy, R: Write, H: Hub, S: SideFiles, W: Write, P: Write>(
    service: &mut Service<A, R, H, S>,
    connections: &mut Connections<H::Conn>,
    time: u32,
    report: &mut W,
    ppm: &mut Option<P>,
) -> Result<(), TurnError>
    ensures taken { OnOk result (IsServed R.contents (IsTurn (ways H.accepts H.reads H.writes H.closes H.fault_count) (files_of S.opens S.gives S.fault_count) time
        (serving service.old.hub connections.old service.old.side service.old.waiting) (serving service.new.hub connections.new service.new.side service.new.waiting))
        (IsToldOf (W.contents report.old) (W.contents report.new) (images_in P.contents ppm.old) (images_in P.contents ppm.new))
        service.old.recorded service.new.recorded) }
    ensures begun { IsServed R.contents (StartsTurn (ways H.accepts H.reads H.writes H.closes H.fault_count) (files_of S.opens S.gives S.fault_count) time
        (serving service.old.hub connections.old service.old.side service.old.waiting) (serving service.new.hub connections.new service.new.side service.new.waiting))
        (λ events. ⊤) service.old.recorded service.new.recorded }
    ensures waiting { service.new.waiting ≡ left_at time service.old.waiting }
{
    point_all(&mut service.recorded, &mut service.waiting, time);
    take_phases(service, connections, time, report, ppm)
}

/// Serves the clients: the phases of a turn, but that of the pointer's lines.
fn take_phases<A: Allocator + Copy, R: Write, H: Hub, S: SideFiles, W: Write, P: Write>(
    service: &mut Service<A, R, H, S>,
    connections: &mut Connections<H::Conn>,
    time: u32,
    report: &mut W,
    ppm: &mut Option<P>,
) -> Result<(), TurnError>
    ensures taken { OnOk result (Tells R.contents (Serves (TakesIn (ways H.accepts H.reads H.writes H.closes H.fault_count) (files_of S.opens S.gives S.fault_count)) (ways H.accepts H.reads H.writes H.closes H.fault_count) time 32
        (serving service.old.hub connections.old service.old.side service.old.waiting) (serving service.new.hub connections.new service.new.side service.new.waiting))
        service.old.recorded service.new.recorded (W.contents report.old) (W.contents report.new)
        (images_in P.contents ppm.old) (images_in P.contents ppm.new)) }
    ensures begun { Takes R.contents (StartsServing (TakesIn (ways H.accepts H.reads H.writes H.closes H.fault_count) (files_of S.opens S.gives S.fault_count)) (ways H.accepts H.reads H.writes H.closes H.fault_count) time
        (serving service.old.hub connections.old service.old.side service.old.waiting) (serving service.new.hub connections.new service.new.side service.new.waiting))
        service.old.recorded service.new.recorded }
    ensures waiting { service.new.waiting ≡ service.old.waiting }
{
    take_in(service, connections, report)?;
    show(&mut service.recorded, time, report, ppm)?;
    give_out(service, connections, report)
}

/// Takes one turn as [`turn`] does, with a viewer (`wl_viewer`):
/// - behind the pointer's lines, the viewer is written to and read, and the pointer does what its
///   lines ask, at this time. A connection of its hub that waits gets the place if nobody has it,
///   and else is closed at once;
/// - behind the frame, one update of all that the viewer wasn't told is made, in the pixels of that
///   frame, if nothing waits to be sent to it;
/// - at the end of the turn it is answered, and written to until it would block.
///
/// A viewer loses its place if it ends or fails, sends a bad line, or is refused memory. The
/// buttons that it holds are released, and its connection is closed.
///
/// Whoever copies the pixels of each whole update holds the frame of the tick at the update's time.
/// Each point of that is the desktop painted from nothing, if no window covers it of a client that
/// broke its promises.
///
/// Neither the report nor the answer tells anything of the viewer.
pub fn turn_viewed<A: Allocator + Copy, R: Write, H: Hub, S: SideFiles, V: Hub, W: Write, P: Write>(
    service: &mut Service<A, R, H, S>,
    connections: &mut Connections<H::Conn>,
    viewing: &mut Viewing<A, V, V::Conn>,
    time: u32,
    report: &mut W,
    ppm: &mut Option<P>,
) -> Result<(), TurnError>
    ensures taken { OnOk result (IsServed R.contents (IsViewedTurn (ways H.accepts H.reads H.writes H.closes H.fault_count) (ways V.accepts V.reads V.writes V.closes V.fault_count) (files_of S.opens S.gives S.fault_count) time viewing.old.width viewing.old.height
        (serving service.old.hub connections.old service.old.side service.old.waiting, (viewing.old.hub, viewing.old.watcher))
        (serving service.new.hub connections.new service.new.side service.new.waiting, (viewing.new.hub, viewing.new.watcher)))
        (IsToldOf (W.contents report.old) (W.contents report.new) (images_in P.contents ppm.old) (images_in P.contents ppm.new))
        service.old.recorded service.new.recorded) }
    ensures waiting { service.new.waiting ≡ left_at time service.old.waiting }
    ensures width { viewing.new.width ≡ viewing.old.width }
    ensures height { viewing.new.height ≡ viewing.old.height }
{
    point_all(&mut service.recorded, &mut service.waiting, time);
    hear(viewing, &mut service.recorded, time);
    take_viewed_phases(service, connections, viewing, time, report, ppm)?;
    tell(
        &mut viewing.hub,
        &mut viewing.watcher,
        &mut service.recorded,
        time,
    );
    Ok(())
}

/// Serves the clients, and tells the viewer of the frame: the phases of a turn, except those of the
/// pointer's lines and of the viewer's connection.
fn take_viewed_phases<
    A: Allocator + Copy,
    R: Write,
    H: Hub,
    S: SideFiles,
    V: Hub,
    W: Write,
    P: Write,
>(
    service: &mut Service<A, R, H, S>,
    connections: &mut Connections<H::Conn>,
    viewing: &mut Viewing<A, V, V::Conn>,
    time: u32,
    report: &mut W,
    ppm: &mut Option<P>,
) -> Result<(), TurnError>
    ensures taken { OnOk result ((update : Option Update) × Tells R.contents (ServesViewed (TakesIn (ways H.accepts H.reads H.writes H.closes H.fault_count) (files_of S.opens S.gives S.fault_count)) (ways H.accepts H.reads H.writes H.closes H.fault_count) time 32 update
        (serving service.old.hub connections.old service.old.side service.old.waiting, (viewing.old.hub, viewing.old.watcher))
        (serving service.new.hub connections.new service.new.side service.new.waiting, (viewing.new.hub, viewing.new.watcher)))
        service.old.recorded service.new.recorded (W.contents report.old) (W.contents report.new)
        (images_in P.contents ppm.old) (images_in P.contents ppm.new)) }
    ensures waiting { service.new.waiting ≡ service.old.waiting }
    ensures width { viewing.new.width ≡ viewing.old.width }
    ensures height { viewing.new.height ≡ viewing.old.height }
{
    take_in(service, connections, report)?;
    show_viewed(
        &mut service.recorded,
        &mut viewing.watcher,
        time,
        report,
        ppm,
    )?;
    give_out(service, connections, report)
}
