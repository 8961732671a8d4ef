//! Turns between two frames.

ghost use Rattle.std.specs.Prelude.{◌≡◌, ⊤, ℕ, List, Option, OnOk};
ghost use Rattle.wl_recording.specs.Side.{files_of};
ghost use Rattle.wl_server.specs.Acting.{IsServed, Takes};
ghost use Rattle.wl_server.specs.Sharing.{SharesIn};
ghost use Rattle.wl_server.specs.ShortTurns.{IsShortTurn, IsShortViewedTurn, ServesBetween, StartsBetween, StartsShortTurn};
ghost use Rattle.wl_server.specs.Telling.{IsToldOf, Reports};
ghost use Rattle.wl_server.specs.Ways.{serving, ways};

use crate::error::TurnError;
use crate::hearing::hear;
use crate::hub::Hub;
use crate::phases::{give_out, take_shared_in};
use crate::seat::Connections;
use crate::service::Service;
use crate::sharing::Shares;
use crate::viewing::Viewing;
use std::alloc::Allocator;
use std::io::Write;
use std::time::Clock;
use wl_recording::SideFiles;

/// Takes a short turn, between two frames. Connections that wait are accepted, and clients are read
/// and fed what each read gave. Those that sent bytes get their side files. Clients are written to,
/// and those that ended are closed. All is done as in [`shared_turn`](crate::shared_turn).
///
/// No line of the pointer's file is taken, and no frame is shown. The answer is whether anybody
/// connected or sent bytes, so another short turn may be wanted at once.
///
/// # Errors
///
/// `Write` if the report couldn't be written.
pub fn short_turn<A: Allocator + Copy, R: Write, H: Hub, S: SideFiles, K: Clock, W: Write>(
    shares: &mut Shares<'_, K>,
    service: &mut Service<A, R, H, S>,
    connections: &mut Connections<H::Conn>,
    report: &mut W,
) -> Result<bool, TurnError>
    ensures taken { OnOk result ((images : Option (List ℕ)) → IsServed R.contents (IsShortTurn (ways H.accepts H.reads H.writes H.closes H.fault_count) (files_of S.opens S.gives S.fault_count)
        (serving service.old.hub connections.old service.old.side service.old.waiting) (serving service.new.hub connections.new service.new.side service.new.waiting))
        (IsToldOf (W.contents report.old) (W.contents report.new) images images) service.old.recorded service.new.recorded) }
    ensures begun { IsServed R.contents (StartsShortTurn (ways H.accepts H.reads H.writes H.closes H.fault_count) (files_of S.opens S.gives S.fault_count)
        (serving service.old.hub connections.old service.old.side service.old.waiting) (serving service.new.hub connections.new service.new.side service.new.waiting))
        (λ events. ⊤) service.old.recorded service.new.recorded }
    ensures waiting { service.new.waiting ≡ service.old.waiting }
{
    serve_between(shares, service, connections, report)
}

/// Takes a short turn as [`short_turn`] does, with a viewer. First the viewer is written to and
/// read, and the pointer does what its lines ask, at this time. A connection of its hub that waits
/// gets the place if nobody has it, as in [`shared_turn_viewed`](crate::shared_turn_viewed). The
/// viewer is told of no frame, and nothing is answered.
///
/// Whoever copies the pixels of each whole update still holds the last frame, except for what the
/// viewer wasn't told.
///
/// The answer is whether anybody connected or sent bytes, or the viewer took some.
pub fn short_turn_viewed<
    A: Allocator + Copy,
    R: Write,
    H: Hub,
    S: SideFiles,
    V: Hub,
    K: Clock,
    W: Write,
>(
    shares: &mut Shares<'_, K>,
    service: &mut Service<A, R, H, S>,
    connections: &mut Connections<H::Conn>,
    viewing: &mut Viewing<A, V, V::Conn>,
    time: u32,
    report: &mut W,
) -> Result<bool, TurnError>
    ensures taken { OnOk result ((images : Option (List ℕ)) → IsServed R.contents (IsShortViewedTurn (ways H.accepts H.reads H.writes H.closes H.fault_count) (ways V.accepts V.reads V.writes V.closes V.fault_count) (files_of S.opens S.gives S.fault_count) time viewing.old.width viewing.old.height
        (serving service.old.hub connections.old service.old.side service.old.waiting, (viewing.old.hub, viewing.old.watcher))
        (serving service.new.hub connections.new service.new.side service.new.waiting, (viewing.new.hub, viewing.new.watcher)))
        (IsToldOf (W.contents report.old) (W.contents report.new) images images) service.old.recorded service.new.recorded) }
    ensures waiting { service.new.waiting ≡ service.old.waiting }
    ensures width { viewing.new.width ≡ viewing.old.width }
    ensures height { viewing.new.height ≡ viewing.old.height }
{
    let owed = owed_bytes(viewing);
    hear(viewing, &mut service.recorded, time);
    let is_busy = serve_between(shares, service, connections, report)?;
    Ok(is_busy || owed_bytes(viewing) != owed)
}

/// How many bytes wait to be sent to the viewer, if there is one.
fn owed_bytes<A: Allocator + Copy, V, C: Drop>(viewing: &Viewing<A, V, C>) -> usize {
    match &viewing.watcher {
        Some(watcher) => watcher.viewer.out().len(),
        None => 0,
    }
}

/// Serves the clients, without a frame. The answer is true if anybody connected or sent bytes.
fn serve_between<A: Allocator + Copy, R: Write, H: Hub, S: SideFiles, K: Clock, W: Write>(
    shares: &mut Shares<'_, K>,
    service: &mut Service<A, R, H, S>,
    connections: &mut Connections<H::Conn>,
    report: &mut W,
) -> Result<bool, TurnError>
    ensures told { OnOk result (Reports R.contents (ServesBetween (SharesIn (ways H.accepts H.reads H.writes H.closes H.fault_count) (files_of S.opens S.gives S.fault_count)) (ways H.accepts H.reads H.writes H.closes H.fault_count) 32
        (serving service.old.hub connections.old service.old.side service.old.waiting) (serving service.new.hub connections.new service.new.side service.new.waiting))
        service.old.recorded service.new.recorded (W.contents report.old) (W.contents report.new)) }
    ensures begun { Takes R.contents (StartsBetween (SharesIn (ways H.accepts H.reads H.writes H.closes H.fault_count) (files_of S.opens S.gives S.fault_count)) (ways H.accepts H.reads H.writes H.closes H.fault_count)
        (serving service.old.hub connections.old service.old.side service.old.waiting) (serving service.new.hub connections.new service.new.side service.new.waiting))
        service.old.recorded service.new.recorded }
    ensures waiting { service.new.waiting ≡ service.old.waiting }
{
    let accepted = connections.count();
    take_shared_in(shares, service, connections, report)?;
    give_out(service, connections, report)?;
    Ok(connections.count() != accepted || connections.have_sent())
}
