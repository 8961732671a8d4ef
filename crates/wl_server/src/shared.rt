//! Turns whose clients share the server's time.

ghost use Rattle.std.specs.Prelude.{◌≡◌, ⊤, OnOk, Option};
ghost use Rattle.wl_recording.specs.Images.{images_in};
ghost use Rattle.wl_recording.specs.Side.{files_of};
ghost use Rattle.wl_server.specs.Acting.{IsServed, Takes};
ghost use Rattle.wl_server.specs.Due.{left_at};
ghost use Rattle.wl_server.specs.Phases.{Serves, StartsServing};
ghost use Rattle.wl_server.specs.Sharing.{IsSharedTurn, IsSharedViewedTurn, SharesIn, StartsSharedTurn};
ghost use Rattle.wl_server.specs.Telling.{IsToldOf, Tells};
ghost use Rattle.wl_server.specs.Viewed.{ServesViewed};
ghost use Rattle.wl_server.specs.Ways.{serving, ways};
ghost use Rattle.wl_viewer.specs.Telling.{Update};

use crate::error::TurnError;
use crate::hearing::hear;
use crate::hub::Hub;
use crate::phases::{give_out, take_shared_in};
use crate::pointing::point_all;
use crate::seat::Connections;
use crate::service::Service;
use crate::sharing::Shares;
use crate::showing::show;
use crate::viewed::{show_viewed, tell};
use crate::viewing::Viewing;
use std::alloc::Allocator;
use std::io::Write;
use std::time::Clock;
use wl_recording::SideFiles;

/// Takes one turn as [`turn`](crate::turn) does, in which clients share the server's time. Each is
/// read while its share lasts, between once and 16 times. What else it sent waits for the next
/// turn.
///
/// A client owes the time that it took. It isn't read while it owes more than the time since the
/// last turn pays. So one that is alone has all the time, and none holds up the others. If the
/// clock tells no time, nothing is owed.
pub fn shared_turn<
    A: Allocator + Copy,
    R: Write,
    H: Hub,
    S: SideFiles,
    K: Clock,
    W: Write,
    P: Write,
>(
    shares: &mut Shares<'_, K>,
    service: &mut Service<A, R, H, S>,
    connections: &mut Connections<H::Conn>,
    time: u32,
    report: &mut W,
    ppm: &mut Option<P>,
) -> Result<(), TurnError>
    ensures taken { OnOk result (IsServed R.contents (IsSharedTurn (ways H.accepts H.reads H.writes H.closes H.fault_count) (files_of S.opens S.gives S.fault_count) time
        (serving service.old.hub connections.old service.old.side service.old.waiting) (serving service.new.hub connections.new service.new.side service.new.waiting))
        (IsToldOf (W.contents report.old) (W.contents report.new) (images_in P.contents ppm.old) (images_in P.contents ppm.new))
        service.old.recorded service.new.recorded) }
    ensures begun { IsServed R.contents (StartsSharedTurn (ways H.accepts H.reads H.writes H.closes H.fault_count) (files_of S.opens S.gives S.fault_count) time
        (serving service.old.hub connections.old service.old.side service.old.waiting) (serving service.new.hub connections.new service.new.side service.new.waiting))
        (λ events. ⊤) service.old.recorded service.new.recorded }
    ensures waiting { service.new.waiting ≡ left_at time service.old.waiting }
{
    point_all(&mut service.recorded, &mut service.waiting, time);
    take_phases(shares, service, connections, time, report, ppm)
}

/// Serves the clients: the phases of a turn, but that of the pointer's lines.
fn take_phases<A: Allocator + Copy, R: Write, H: Hub, S: SideFiles, K: Clock, W: Write, P: Write>(
    shares: &mut Shares<'_, K>,
    service: &mut Service<A, R, H, S>,
    connections: &mut Connections<H::Conn>,
    time: u32,
    report: &mut W,
    ppm: &mut Option<P>,
) -> Result<(), TurnError>
    ensures taken { OnOk result (Tells R.contents (Serves (SharesIn (ways H.accepts H.reads H.writes H.closes H.fault_count) (files_of S.opens S.gives S.fault_count)) (ways H.accepts H.reads H.writes H.closes H.fault_count) time 32
        (serving service.old.hub connections.old service.old.side service.old.waiting) (serving service.new.hub connections.new service.new.side service.new.waiting))
        service.old.recorded service.new.recorded (W.contents report.old) (W.contents report.new)
        (images_in P.contents ppm.old) (images_in P.contents ppm.new)) }
    ensures begun { Takes R.contents (StartsServing (SharesIn (ways H.accepts H.reads H.writes H.closes H.fault_count) (files_of S.opens S.gives S.fault_count)) (ways H.accepts H.reads H.writes H.closes H.fault_count) time
        (serving service.old.hub connections.old service.old.side service.old.waiting) (serving service.new.hub connections.new service.new.side service.new.waiting))
        service.old.recorded service.new.recorded }
    ensures waiting { service.new.waiting ≡ service.old.waiting }
{
    take_shared_in(shares, service, connections, report)?;
    show(&mut service.recorded, time, report, ppm)?;
    give_out(service, connections, report)
}

/// Takes one turn with a viewer as [`turn_viewed`](crate::turn_viewed) does, in which clients share
/// the server's time as in [`shared_turn`].
pub fn shared_turn_viewed<
    A: Allocator + Copy,
    R: Write,
    H: Hub,
    S: SideFiles,
    V: Hub,
    K: Clock,
    W: Write,
    P: Write,
>(
    shares: &mut Shares<'_, K>,
    service: &mut Service<A, R, H, S>,
    connections: &mut Connections<H::Conn>,
    viewing: &mut Viewing<A, V, V::Conn>,
    time: u32,
    report: &mut W,
    ppm: &mut Option<P>,
) -> Result<(), TurnError>
    ensures taken { OnOk result (IsServed R.contents (IsSharedViewedTurn (ways H.accepts H.reads H.writes H.closes H.fault_count) (ways V.accepts V.reads V.writes V.closes V.fault_count) (files_of S.opens S.gives S.fault_count) time viewing.old.width viewing.old.height
        (serving service.old.hub connections.old service.old.side service.old.waiting, (viewing.old.hub, viewing.old.watcher))
        (serving service.new.hub connections.new service.new.side service.new.waiting, (viewing.new.hub, viewing.new.watcher)))
        (IsToldOf (W.contents report.old) (W.contents report.new) (images_in P.contents ppm.old) (images_in P.contents ppm.new))
        service.old.recorded service.new.recorded) }
    ensures waiting { service.new.waiting ≡ left_at time service.old.waiting }
    ensures width { viewing.new.width ≡ viewing.old.width }
    ensures height { viewing.new.height ≡ viewing.old.height }
{
    point_all(&mut service.recorded, &mut service.waiting, time);
    hear(viewing, &mut service.recorded, time);
    take_viewed_phases(shares, service, connections, viewing, time, report, ppm)?;
    tell(
        &mut viewing.hub,
        &mut viewing.watcher,
        &mut service.recorded,
        time,
    );
    Ok(())
}

/// Serves the clients, and tells the viewer of the frame: the phases of a turn, except those of the
/// pointer's lines and of the viewer's connection.
fn take_viewed_phases<
    A: Allocator + Copy,
    R: Write,
    H: Hub,
    S: SideFiles,
    V: Hub,
    K: Clock,
    W: Write,
    P: Write,
>(
    shares: &mut Shares<'_, K>,
    service: &mut Service<A, R, H, S>,
    connections: &mut Connections<H::Conn>,
    viewing: &mut Viewing<A, V, V::Conn>,
    time: u32,
    report: &mut W,
    ppm: &mut Option<P>,
) -> Result<(), TurnError>
    ensures taken { OnOk result ((update : Option Update) × Tells R.contents (ServesViewed (SharesIn (ways H.accepts H.reads H.writes H.closes H.fault_count) (files_of S.opens S.gives S.fault_count)) (ways H.accepts H.reads H.writes H.closes H.fault_count) time 32 update
        (serving service.old.hub connections.old service.old.side service.old.waiting, (viewing.old.hub, viewing.old.watcher))
        (serving service.new.hub connections.new service.new.side service.new.waiting, (viewing.new.hub, viewing.new.watcher)))
        service.old.recorded service.new.recorded (W.contents report.old) (W.contents report.new)
        (images_in P.contents ppm.old) (images_in P.contents ppm.new)) }
    ensures waiting { service.new.waiting ≡ service.old.waiting }
    ensures width { viewing.new.width ≡ viewing.old.width }
    ensures height { viewing.new.height ≡ viewing.old.height }
{
    take_shared_in(shares, service, connections, report)?;
    show_viewed(
        &mut service.recorded,
        &mut viewing.watcher,
        time,
        report,
        ppm,
    )?;
    give_out(service, connections, report)
}
