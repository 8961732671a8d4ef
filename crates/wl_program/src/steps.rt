//! From one turn to the next: the turn, and at a rate the short turns before it.

ghost use Rattle.std.specs.Prelude.{◌≡◌, IfErr, OnErr, OnOk};
ghost use Rattle.wl_server.specs.Acting.{Takes};
ghost use Rattle.wl_server.specs.Phases.{IsTurn, StartsTurn};
ghost use Rattle.wl_server.specs.Sharing.{IsSharedTurn, IsSharedViewedTurn, StartsSharedTurn};
ghost use Rattle.wl_server.specs.ShortTurns.{IsShortTurn, IsShortViewedTurn, StartsShortTurn};
ghost use Rattle.wl_recording.specs.Side.{files_of};
ghost use Rattle.wl_recording.specs.Images.{images_in};
ghost use Rattle.wl_server.specs.Telling.{Tells};
ghost use Rattle.wl_server.specs.Viewed.{IsViewedTurn};
ghost use Rattle.wl_server.specs.Ways.{serving, ways};
ghost use Rattle.wl_program.specs.Steps.{AreShortTurns, AreShortViewedTurns, BeginsShortTurns, IsStep, IsViewedStep, StartsStep};

use crate::fault::Fault;
use crate::pace::{Schedule, Timer};
use crate::streams::flush;
use std::alloc::Allocator;
use std::io::Write;
use std::time::Clock;
use wl_recording::SideFiles;
use wl_server::{
    Connections, Hub, Service, Shares, TurnError, Viewing, shared_turn, shared_turn_viewed,
    short_turn, short_turn_viewed, turn, turn_viewed,
};

/// How many short turns are taken before a turn, at most.
const SHORT_TURNS: u32 = 1_000_000;

/// Takes a turn at this time, and at a rate first short turns until it is due.
pub(crate) fn take_step<
    C: Clock,
    A: Allocator + Copy,
    R: Write,
    H: Hub,
    S: SideFiles,
    W: Write,
    P: Write,
>(
    schedule: Schedule<'_, C>,
    timer: &mut Timer,
    shares: &mut Shares<'_, C>,
    service: &mut Service<A, R, H, S>,
    connections: &mut Connections<H::Conn>,
    time: u32,
    report: &mut W,
    ppm: &mut Option<P>,
) -> Result<(), Fault>
    ensures taken { OnOk result (Tells R.contents (IsStep (ways H.accepts H.reads H.writes H.closes H.fault_count) (files_of S.opens S.gives S.fault_count) schedule.entry.pace.rate time
        (serving service.old.hub connections.old service.old.side service.old.waiting) (serving service.new.hub connections.new service.new.side service.new.waiting))
        service.old.recorded service.new.recorded (W.contents report.old) (W.contents report.new)
        (images_in P.contents ppm.old) (images_in P.contents ppm.new)) }
    ensures begun { OnErr result (Takes R.contents (StartsStep (ways H.accepts H.reads H.writes H.closes H.fault_count) (files_of S.opens S.gives S.fault_count) schedule.entry.pace.rate time
        (serving service.old.hub connections.old service.old.side service.old.waiting) (serving service.new.hub connections.new service.new.side service.new.waiting))
        service.old.recorded service.new.recorded) }
    ensures failed { IfErr result (λ fault. fault ≡ Fault.Write) }
{
    match schedule.pace.rate {
        None => take_turn(service, connections, time, report, ppm),
        Some(_) => {
            take_short_turns(
                schedule.clock,
                timer,
                shares,
                service,
                connections,
                report,
                ppm,
            )?;
            take_shared_turn(shares, service, connections, time, report, ppm)
        }
    }
}

/// Takes short turns until the next turn is due.
fn take_short_turns<
    C: Clock,
    A: Allocator + Copy,
    R: Write,
    H: Hub,
    S: SideFiles,
    W: Write,
    P: Write,
>(
    clock: &C,
    timer: &mut Timer,
    shares: &mut Shares<'_, C>,
    service: &mut Service<A, R, H, S>,
    connections: &mut Connections<H::Conn>,
    report: &mut W,
    ppm: &mut Option<P>,
) -> Result<(), Fault>
    ensures taken { OnOk result (Tells R.contents (AreShortTurns (ways H.accepts H.reads H.writes H.closes H.fault_count) (files_of S.opens S.gives S.fault_count)
        (serving service.old.hub connections.old service.old.side service.old.waiting) (serving service.new.hub connections.new service.new.side service.new.waiting))
        service.old.recorded service.new.recorded (W.contents report.old) (W.contents report.new)
        (images_in P.contents ppm.old) (images_in P.contents ppm.new)) }
    ensures begun { OnErr result (Takes R.contents (BeginsShortTurns (ways H.accepts H.reads H.writes H.closes H.fault_count) (files_of S.opens S.gives S.fault_count)
        (serving service.old.hub connections.old service.old.side service.old.waiting) (serving service.new.hub connections.new service.new.side service.new.waiting))
        service.old.recorded service.new.recorded) }
    ensures failed { IfErr result (λ fault. fault ≡ Fault.Write) }
{
    let mut is_busy = connections.have_sent();
    for taken in 0..SHORT_TURNS {
        if timer.is_due(clock, is_busy) {
            return Ok(());
        }
        is_busy = take_short_turn(shares, service, connections, report, ppm)?;
    }
    Ok(())
}

/// Takes a short turn, and writes its report. The answer is true if it found something to do.
fn take_short_turn<
    A: Allocator + Copy,
    R: Write,
    H: Hub,
    S: SideFiles,
    K: Clock,
    W: Write,
    P: Write,
>(
    shares: &mut Shares<'_, K>,
    service: &mut Service<A, R, H, S>,
    connections: &mut Connections<H::Conn>,
    report: &mut W,
    ppm: &mut Option<P>,
) -> Result<bool, Fault>
    ensures taken { OnOk result (Tells R.contents (IsShortTurn (ways H.accepts H.reads H.writes H.closes H.fault_count) (files_of S.opens S.gives S.fault_count)
        (serving service.old.hub connections.old service.old.side service.old.waiting) (serving service.new.hub connections.new service.new.side service.new.waiting))
        service.old.recorded service.new.recorded (W.contents report.old) (W.contents report.new)
        (images_in P.contents ppm.old) (images_in P.contents ppm.new)) }
    ensures begun { Takes R.contents (StartsShortTurn (ways H.accepts H.reads H.writes H.closes H.fault_count) (files_of S.opens S.gives S.fault_count)
        (serving service.old.hub connections.old service.old.side service.old.waiting) (serving service.new.hub connections.new service.new.side service.new.waiting))
        service.old.recorded service.new.recorded }
    ensures failed { IfErr result (λ fault. fault ≡ Fault.Write) }
{
    let taken = short_turn(shares, service, connections, report);
    flush(report, ppm)?;
    match taken {
        Ok(is_busy) => Ok(is_busy),
        Err(TurnError::Write) => Err(Fault::Write),
    }
}

/// Takes a turn at this time, in milliseconds, and writes its report, so whoever reads along sees
/// it before the next turn.
fn take_turn<A: Allocator + Copy, R: Write, H: Hub, S: SideFiles, W: Write, P: Write>(
    service: &mut Service<A, R, H, S>,
    connections: &mut Connections<H::Conn>,
    time: u32,
    report: &mut W,
    ppm: &mut Option<P>,
) -> Result<(), Fault>
    ensures taken { OnOk result (Tells R.contents (IsTurn (ways H.accepts H.reads H.writes H.closes H.fault_count) (files_of S.opens S.gives S.fault_count) time
        (serving service.old.hub connections.old service.old.side service.old.waiting) (serving service.new.hub connections.new service.new.side service.new.waiting))
        service.old.recorded service.new.recorded (W.contents report.old) (W.contents report.new)
        (images_in P.contents ppm.old) (images_in P.contents ppm.new)) }
    ensures begun { Takes R.contents (StartsTurn (ways H.accepts H.reads H.writes H.closes H.fault_count) (files_of S.opens S.gives S.fault_count) time
        (serving service.old.hub connections.old service.old.side service.old.waiting) (serving service.new.hub connections.new service.new.side service.new.waiting))
        service.old.recorded service.new.recorded }
    ensures failed { IfErr result (λ fault. fault ≡ Fault.Write) }
{
    let taken = turn(service, connections, time, report, ppm);
    let flushed = flush(report, ppm);
    match taken {
        Ok(()) => flushed,
        Err(TurnError::Write) => Err(Fault::Write),
    }
}

/// Takes a turn at this time, in milliseconds, in which clients share the server's time. It writes
/// the report, so whoever reads along sees it before the next turn.
fn take_shared_turn<
    A: Allocator + Copy,
    R: Write,
    H: Hub,
    S: SideFiles,
    K: Clock,
    W: Write,
    P: Write,
>(
    shares: &mut Shares<'_, K>,
    service: &mut Service<A, R, H, S>,
    connections: &mut Connections<H::Conn>,
    time: u32,
    report: &mut W,
    ppm: &mut Option<P>,
) -> Result<(), Fault>
    ensures taken { OnOk result (Tells R.contents (IsSharedTurn (ways H.accepts H.reads H.writes H.closes H.fault_count) (files_of S.opens S.gives S.fault_count) time
        (serving service.old.hub connections.old service.old.side service.old.waiting) (serving service.new.hub connections.new service.new.side service.new.waiting))
        service.old.recorded service.new.recorded (W.contents report.old) (W.contents report.new)
        (images_in P.contents ppm.old) (images_in P.contents ppm.new)) }
    ensures begun { Takes R.contents (StartsSharedTurn (ways H.accepts H.reads H.writes H.closes H.fault_count) (files_of S.opens S.gives S.fault_count) time
        (serving service.old.hub connections.old service.old.side service.old.waiting) (serving service.new.hub connections.new service.new.side service.new.waiting))
        service.old.recorded service.new.recorded }
    ensures failed { IfErr result (λ fault. fault ≡ Fault.Write) }
{
    let taken = shared_turn(shares, service, connections, time, report, ppm);
    let flushed = flush(report, ppm);
    match taken {
        Ok(()) => flushed,
        Err(TurnError::Write) => Err(Fault::Write),
    }
}

/// Takes a turn with a viewer at this time, and at a rate first short turns until it is due.
pub(crate) fn take_viewed_step<
    C: Clock,
    A: Allocator + Copy,
    R: Write,
    H: Hub,
    S: SideFiles,
    V: Hub,
    W: Write,
    P: Write,
>(
    schedule: Schedule<'_, C>,
    timer: &mut Timer,
    shares: &mut Shares<'_, C>,
    service: &mut Service<A, R, H, S>,
    connections: &mut Connections<H::Conn>,
    viewing: &mut Viewing<A, V, V::Conn>,
    time: u32,
    report: &mut W,
    ppm: &mut Option<P>,
) -> Result<(), Fault>
    ensures taken { OnOk result (Tells R.contents (IsViewedStep (ways H.accepts H.reads H.writes H.closes H.fault_count) (ways V.accepts V.reads V.writes V.closes V.fault_count) (files_of S.opens S.gives S.fault_count) schedule.entry.pace.rate time viewing.old.width viewing.old.height
        (serving service.old.hub connections.old service.old.side service.old.waiting, (viewing.old.hub, viewing.old.watcher))
        (serving service.new.hub connections.new service.new.side service.new.waiting, (viewing.new.hub, viewing.new.watcher)))
        service.old.recorded service.new.recorded (W.contents report.old) (W.contents report.new)
        (images_in P.contents ppm.old) (images_in P.contents ppm.new)) }
    ensures width { viewing.new.width ≡ viewing.old.width }
    ensures height { viewing.new.height ≡ viewing.old.height }
    ensures failed { IfErr result (λ fault. fault ≡ Fault.Write) }
{
    match schedule.pace.rate {
        None => take_viewed_turn(service, connections, viewing, time, report, ppm),
        Some(_) => {
            take_short_viewed_turns(
                schedule.clock,
                timer,
                shares,
                service,
                connections,
                viewing,
                time,
                report,
                ppm,
            )?;
            take_shared_viewed_turn(shares, service, connections, viewing, time, report, ppm)
        }
    }
}

/// Takes short turns with a viewer until the next turn is due, which has this time.
fn take_short_viewed_turns<
    C: Clock,
    A: Allocator + Copy,
    R: Write,
    H: Hub,
    S: SideFiles,
    V: Hub,
    W: Write,
    P: Write,
>(
    clock: &C,
    timer: &mut Timer,
    shares: &mut Shares<'_, C>,
    service: &mut Service<A, R, H, S>,
    connections: &mut Connections<H::Conn>,
    viewing: &mut Viewing<A, V, V::Conn>,
    time: u32,
    report: &mut W,
    ppm: &mut Option<P>,
) -> Result<(), Fault>
    ensures taken { OnOk result (Tells R.contents (AreShortViewedTurns (ways H.accepts H.reads H.writes H.closes H.fault_count) (ways V.accepts V.reads V.writes V.closes V.fault_count) (files_of S.opens S.gives S.fault_count) time viewing.old.width viewing.old.height
        (serving service.old.hub connections.old service.old.side service.old.waiting, (viewing.old.hub, viewing.old.watcher))
        (serving service.new.hub connections.new service.new.side service.new.waiting, (viewing.new.hub, viewing.new.watcher)))
        service.old.recorded service.new.recorded (W.contents report.old) (W.contents report.new)
        (images_in P.contents ppm.old) (images_in P.contents ppm.new)) }
    ensures width { viewing.new.width ≡ viewing.old.width }
    ensures height { viewing.new.height ≡ viewing.old.height }
    ensures failed { IfErr result (λ fault. fault ≡ Fault.Write) }
{
    let mut is_busy = connections.have_sent();
    for taken in 0..SHORT_TURNS {
        if timer.is_due(clock, is_busy) {
            return Ok(());
        }
        is_busy = take_short_viewed_turn(shares, service, connections, viewing, time, report, ppm)?;
    }
    Ok(())
}

/// Takes a short turn with a viewer, and writes its report. The answer is true if it found
/// something to do.
fn take_short_viewed_turn<
    A: Allocator + Copy,
    R: Write,
    H: Hub,
    S: SideFiles,
    V: Hub,
    K: Clock,
    W: Write,
    P: Write,
>(
    shares: &mut Shares<'_, K>,
    service: &mut Service<A, R, H, S>,
    connections: &mut Connections<H::Conn>,
    viewing: &mut Viewing<A, V, V::Conn>,
    time: u32,
    report: &mut W,
    ppm: &mut Option<P>,
) -> Result<bool, Fault>
    ensures taken { OnOk result (Tells R.contents (IsShortViewedTurn (ways H.accepts H.reads H.writes H.closes H.fault_count) (ways V.accepts V.reads V.writes V.closes V.fault_count) (files_of S.opens S.gives S.fault_count) time viewing.old.width viewing.old.height
        (serving service.old.hub connections.old service.old.side service.old.waiting, (viewing.old.hub, viewing.old.watcher))
        (serving service.new.hub connections.new service.new.side service.new.waiting, (viewing.new.hub, viewing.new.watcher)))
        service.old.recorded service.new.recorded (W.contents report.old) (W.contents report.new)
        (images_in P.contents ppm.old) (images_in P.contents ppm.new)) }
    ensures width { viewing.new.width ≡ viewing.old.width }
    ensures height { viewing.new.height ≡ viewing.old.height }
    ensures failed { IfErr result (λ fault. fault ≡ Fault.Write) }
{
    let taken = short_turn_viewed(shares, service, connections, viewing, time, report);
    flush(report, ppm)?;
    match taken {
        Ok(is_busy) => Ok(is_busy),
        Err(TurnError::Write) => Err(Fault::Write),
    }
}

/// Takes a turn with a viewer at this time, in milliseconds, and writes its report.
fn take_viewed_turn<
    A: Allocator + Copy,
    R: Write,
    H: Hub,
    S: SideFiles,
    V: Hub,
    W: Write,
    P: Write,
>(
    service: &mut Service<A, R, H, S>,
    connections: &mut Connections<H::Conn>,
    viewing: &mut Viewing<A, V, V::Conn>,
    time: u32,
    report: &mut W,
    ppm: &mut Option<P>,
) -> Result<(), Fault>
    ensures taken { OnOk result (Tells R.contents (IsViewedTurn (ways H.accepts H.reads H.writes H.closes H.fault_count) (ways V.accepts V.reads V.writes V.closes V.fault_count) (files_of S.opens S.gives S.fault_count) time viewing.old.width viewing.old.height
        (serving service.old.hub connections.old service.old.side service.old.waiting, (viewing.old.hub, viewing.old.watcher))
        (serving service.new.hub connections.new service.new.side service.new.waiting, (viewing.new.hub, viewing.new.watcher)))
        service.old.recorded service.new.recorded (W.contents report.old) (W.contents report.new)
        (images_in P.contents ppm.old) (images_in P.contents ppm.new)) }
    ensures width { viewing.new.width ≡ viewing.old.width }
    ensures height { viewing.new.height ≡ viewing.old.height }
    ensures failed { IfErr result (λ fault. fault ≡ Fault.Write) }
{
    let taken = turn_viewed(service, connections, viewing, time, report, ppm);
    let flushed = flush(report, ppm);
    match taken {
        Ok(()) => flushed,
        Err(TurnError::Write) => Err(Fault::Write),
    }
}

/// Takes a turn with a viewer at this time, in milliseconds, in which clients share the server's
/// time, and writes its report.
fn take_shared_viewed_turn<
    A: Allocator + Copy,
    R: Write,
    H: Hub,
    S: SideFiles,
    V: Hub,
    K: Clock,
    W: Write,
    P: Write,
>(
    shares: &mut Shares<'_, K>,
    service: &mut Service<A, R, H, S>,
    connections: &mut Connections<H::Conn>,
    viewing: &mut Viewing<A, V, V::Conn>,
    time: u32,
    report: &mut W,
    ppm: &mut Option<P>,
) -> Result<(), Fault>
    ensures taken { OnOk result (Tells R.contents (IsSharedViewedTurn (ways H.accepts H.reads H.writes H.closes H.fault_count) (ways V.accepts V.reads V.writes V.closes V.fault_count) (files_of S.opens S.gives S.fault_count) time viewing.old.width viewing.old.height
        (serving service.old.hub connections.old service.old.side service.old.waiting, (viewing.old.hub, viewing.old.watcher))
        (serving service.new.hub connections.new service.new.side service.new.waiting, (viewing.new.hub, viewing.new.watcher)))
        service.old.recorded service.new.recorded (W.contents report.old) (W.contents report.new)
        (images_in P.contents ppm.old) (images_in P.contents ppm.new)) }
    ensures width { viewing.new.width ≡ viewing.old.width }
    ensures height { viewing.new.height ≡ viewing.old.height }
    ensures failed { IfErr result (λ fault. fault ≡ Fault.Write) }
{
    let taken = shared_turn_viewed(shares, service, connections, viewing, time, report, ppm);
    let flushed = flush(report, ppm);
    match taken {
        Ok(()) => flushed,
        Err(TurnError::Write) => Err(Fault::Write),
    }
}
