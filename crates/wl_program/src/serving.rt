//! Serving clients.

ghost use Rattle.std.specs.Prelude.{◌≡◌, ◌⊎◌, ℕ, IfErr, IfOk, IfSome, OnErr, OnOk, is_some};
ghost use Rattle.std.specs.Option.{option_map};
ghost use Rattle.spec_desktop.specs.Desktop.{empty};
ghost use Rattle.wl_replay.specs.Told.{IsFirst};
ghost use Rattle.wl_server.specs.Agreeing.{Agrees};
ghost use Rattle.wl_server.specs.Liars.{IsRightBut, nobody};
ghost use Rattle.wl_server.specs.Acting.{Takes};
ghost use Rattle.wl_recording.specs.Side.{files_of};
ghost use Rattle.wl_recording.specs.Images.{images_in};
ghost use Rattle.wl_server.specs.Telling.{Tells};
ghost use Rattle.wl_server.specs.Ways.{serving, ways};
ghost use Rattle.wl_program.specs.Run.{FailsServing};
ghost use Rattle.wl_program.specs.Serving.{AreTurns, AreViewedTurns, BeginsTurns, IsServedSo, moment_of, output_of, stage_of};

use crate::command::Serve;
use crate::fault::Fault;
use crate::folder::Folder;
use crate::pace::{Pace, Schedule, Timer};
use crate::pointing::read_pointer;
use crate::run::BLACK;
use crate::size::Size;
use crate::steps::{take_step, take_viewed_step};
use crate::streams::create;
use std::alloc::Allocator;
use std::io::{self, ErrorKind, Write};
use std::net::Net;
use std::rt::Files;
use std::time::Clock;
use wl_recording::SideFiles;
use wl_replay::Config;
use wl_server::{Connections, Hub, Recorded, Service, Session, Shares, SocketHub, Viewing};

/// Serves the clients that connect to a socket. It is made at its path and stays there.
pub(crate) fn serve<'a, F: Files + Net + Clock + AllocGlobal, A: Allocator + Copy, W: Write>(
    files: &'a F,
    alloc: A,
    serve: Serve<'a>,
    output: &mut W,
) -> Result<(), Fault>
    ensures served { OnOk result (IsServedSo serve.entry (W.contents output.old) (W.contents output.new)) }
    ensures failed { IfErr result (λ fault. FailsServing fault serve.entry (W.contents output.old) (W.contents output.new)) }
{
    let mut ppm = create(files, serve.ppm)?;
    let record = create(files, serve.record)?;
    let lines = read_pointer(files, alloc, serve.pointer)?;
    let hub = bind(files, serve.socket)?;
    let viewer = bind_viewer(files, serve.viewer)?;
    let side = Folder::new(files, serve.dir);
    let session = session_of(alloc, serve.size)?;
    let mut service = Service::new(recorded(session, record), hub, side, lines);
    let schedule = Schedule {
        clock: files,
        pace: Pace {
            turns: serve.turns,
            rate: serve.rate,
        },
    };
    let mut connections = Connections::new();
    match viewer {
        None => serve_on(schedule, &mut service, &mut connections, output, &mut ppm),
        Some(hub) => {
            let mut viewing = Viewing::new(alloc, serve.size.width, serve.size.height, hub);
            serve_viewed(
                schedule,
                &mut service,
                &mut connections,
                &mut viewing,
                output,
                &mut ppm,
            )
        }
    }
}

/// A session of which nothing was asked yet, which is recorded where there is a writer.
fn recorded<A: Allocator + Copy, R: Write>(session: Session<A>, writer: Option<R>) -> Recorded<A, R>
    requires { (width : ℕ) × (height : ℕ) × Agrees session.desk (empty (record { width = width; height = height })) }
    ensures session { result.session ≡ session }
    ensures recording { option_map (λ r. r.written.writer) result.recording ≡ writer }
{
    match writer {
        Some(writer) => Recorded::new(session, writer),
        None => Recorded::without(session),
    }
}

/// Makes the socket that a viewer connects to, if there is to be one.
fn bind_viewer<F: Files + Net>(files: &F, path: Option<&str>) -> Result<Option<SocketHub>, Fault>
    ensures asked { IfOk result (λ hub. is_some hub ≡ is_some path.entry) }
    ensures bound { IfOk result (λ hub. IfSome hub (λ h. h ≡ 0)) }
    ensures failed { IfErr result (λ fault. (fault ≡ Fault.Bind) ⊎ (fault ≡ Fault.Memory)) }
{
    match path {
        Some(path) => Ok(Some(bind(files, path)?)),
        None => Ok(None),
    }
}

/// Makes the socket at a path. An empty path names no file, so nothing is made there.
fn bind<F: Files + Net>(files: &F, path: &str) -> Result<SocketHub, Fault>
    ensures bound { IfOk result (λ hub. hub ≡ 0) }
    ensures failed { IfErr result (λ fault. (fault ≡ Fault.Bind) ⊎ (fault ≡ Fault.Memory)) }
{
    if path.is_empty() {
        return Err(Fault::Bind);
    }
    match SocketHub::bind(files, path) {
        Ok(hub) => Ok(hub),
        Err(error) => Err(bind_failed(error)),
    }
}

fn bind_failed(error: io::Error) -> Fault
    ensures { (result ≡ Fault.Bind) ⊎ (result ≡ Fault.Memory) }
{
    match error.kind() {
        ErrorKind::OutOfMemory => Fault::Memory,
        _ => Fault::Bind,
    }
}

/// A session without clients, whose output has this size.
fn session_of<A: Allocator + Copy>(alloc: A, size: Size) -> Result<Session<A>, Fault>
    ensures desk { IfOk result (λ session. Agrees session.desk (empty (record { width = size.width; height = size.height }))) }
    ensures right { IfOk result (λ session. IsRightBut nobody (moment_of size session)) }
    ensures first { IfOk result (λ session. IsFirst (output_of size) (stage_of size session)) }
    ensures failed { IfErr result (λ fault. fault ≡ Fault.Memory) }
{
    let config = Config {
        width: size.width,
        height: size.height,
        background: BLACK,
    };
    match Session::new(alloc, config) {
        Ok(session) => Ok(session),
        Err(_) => Err(Fault::Memory),
    }
}

/// Serves the clients of a hub over their connections. It takes the turns 1 to as many as the
/// schedule's pace has, one after another, each at its time. At a rate it takes short turns between
/// them, in which clients are served without a frame.
///
/// Turns begin at most as often as the pace says. Between them it sleeps by the schedule's clock;
/// no clause says how long.
///
/// # Errors
///
/// `Write` if the report or the images couldn't be written. Then no more turns are taken, and the
/// steps of those taken stand.
pub fn serve_on<C: Clock, A: Allocator + Copy, R: Write, H: Hub, S: SideFiles, W: Write, P: Write>(
    schedule: Schedule<'_, C>,
    service: &mut Service<A, R, H, S>,
    connections: &mut Connections<H::Conn>,
    report: &mut W,
    ppm: &mut Option<P>,
) -> Result<(), Fault>
    ensures taken { OnOk result (Tells R.contents (AreTurns (ways H.accepts H.reads H.writes H.closes H.fault_count) (files_of S.opens S.gives S.fault_count) schedule.entry.pace.rate schedule.entry.pace.turns
        (serving service.old.hub connections.old service.old.side service.old.waiting) (serving service.new.hub connections.new service.new.side service.new.waiting))
        service.old.recorded service.new.recorded (W.contents report.old) (W.contents report.new)
        (images_in P.contents ppm.old) (images_in P.contents ppm.new)) }
    ensures begun { OnErr result (Takes R.contents (BeginsTurns (ways H.accepts H.reads H.writes H.closes H.fault_count) (files_of S.opens S.gives S.fault_count) schedule.entry.pace.rate schedule.entry.pace.turns
        (serving service.old.hub connections.old service.old.side service.old.waiting) (serving service.new.hub connections.new service.new.side service.new.waiting))
        service.old.recorded service.new.recorded) }
    ensures failed { IfErr result (λ fault. fault ≡ Fault.Write) }
{
    let mut timer = Timer::new(schedule.pace.rate);
    let mut shares = Shares::new(schedule.clock);
    for before in 0..schedule.pace.count() {
        let time = schedule.pace.time_of(before + 1);
        take_step(
            schedule,
            &mut timer,
            &mut shares,
            service,
            connections,
            time,
            report,
            ppm,
        )?;
    }
    Ok(())
}

/// Serves the clients of a hub as [`serve_on`] does, with a viewer of another hub. It takes the
/// turns 1 to as many as the schedule's pace has, one after another, each at its time. Whoever
/// copies each whole update holds the frame of the tick at its time.
pub fn serve_viewed<
    C: Clock,
    A: Allocator + Copy,
    R: Write,
    H: Hub,
    S: SideFiles,
    V: Hub,
    W: Write,
    P: Write,
>(
    schedule: Schedule<'_, C>,
    service: &mut Service<A, R, H, S>,
    connections: &mut Connections<H::Conn>,
    viewing: &mut Viewing<A, V, V::Conn>,
    report: &mut W,
    ppm: &mut Option<P>,
) -> Result<(), Fault>
    ensures taken { OnOk result (Tells R.contents (AreViewedTurns (ways H.accepts H.reads H.writes H.closes H.fault_count) (ways V.accepts V.reads V.writes V.closes V.fault_count) (files_of S.opens S.gives S.fault_count) schedule.entry.pace.rate schedule.entry.pace.turns viewing.old.width viewing.old.height
        (serving service.old.hub connections.old service.old.side service.old.waiting, (viewing.old.hub, viewing.old.watcher))
        (serving service.new.hub connections.new service.new.side service.new.waiting, (viewing.new.hub, viewing.new.watcher)))
        service.old.recorded service.new.recorded (W.contents report.old) (W.contents report.new)
        (images_in P.contents ppm.old) (images_in P.contents ppm.new)) }
    ensures failed { IfErr result (λ fault. fault ≡ Fault.Write) }
{
    let mut timer = Timer::new(schedule.pace.rate);
    let mut shares = Shares::new(schedule.clock);
    for before in 0..schedule.pace.count() {
        let time = schedule.pace.time_of(before + 1);
        take_viewed_step(
            schedule,
            &mut timer,
            &mut shares,
            service,
            connections,
            viewing,
            time,
            report,
            ppm,
        )?;
    }
    Ok(())
}
