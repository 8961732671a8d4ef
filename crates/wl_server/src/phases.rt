//! The phases of a turn: clients are taken in, and what waits for them goes out.

ghost use Rattle.std.specs.Prelude.{◌≡◌, ◌≤◌, ℕ, List, OnOk, OnErr, length};
ghost use Rattle.wl_recording.specs.Side.{files_of};
ghost use Rattle.wl_recording.specs.declared.pointer.PointerLine.{PointerLine};
ghost use Rattle.wl_server.specs.Acting.{Takes, Then};
ghost use Rattle.wl_server.specs.Phases.{Filling, ForEach, FromFrame, Reads, StartsIn, TakesIn};
ghost use Rattle.wl_server.specs.Sharing.{SharesIn};
ghost use Rattle.wl_server.specs.Telling.{Reports};
ghost use Rattle.wl_server.specs.Ways.{serving, ways};

use crate::accepting::accept_all;
use crate::closing::close_all;
use crate::error::TurnError;
use crate::filling::fill_all;
use crate::hub::Hub;
use crate::reading::read_all;
use crate::recorded::Recorded;
use crate::seat::{Connections, Seat};
use crate::service::Service;
use crate::sharing::{Shares, share_all};
use crate::writing::write_all;
use std::alloc::Allocator;
use std::io::Write;
use std::time::Clock;
use wl_recording::SideFiles;

/// Takes the clients in: accepts connections, reads clients, and puts the side files of those that
/// sent bytes into their stores.
pub(crate) fn take_in<A: Allocator + Copy, R: Write, H: Hub, S: SideFiles, W: Write>(
    service: &mut Service<A, R, H, S>,
    connections: &mut Connections<H::Conn>,
    report: &mut W,
) -> Result<(), TurnError>
    ensures told { OnOk result (Reports R.contents (TakesIn (ways H.accepts H.reads H.writes H.closes H.fault_count) (files_of S.opens S.gives S.fault_count)
        (serving service.old.hub connections.old service.old.side service.old.waiting) (serving service.new.hub connections.new service.new.side service.new.waiting))
        service.old.recorded service.new.recorded (W.contents report.old) (W.contents report.new)) }
    ensures begun { OnErr result (Takes R.contents (StartsIn (ways H.accepts H.reads H.writes H.closes H.fault_count)
        (serving service.old.hub connections.old service.old.side service.old.waiting) (serving service.new.hub connections.new service.new.side service.new.waiting))
        service.old.recorded service.new.recorded) }
    ensures waiting { service.new.waiting ≡ service.old.waiting }
{
    let hub = &mut service.hub;
    let recorded = &mut service.recorded;
    let seats = &mut connections.seats;
    accept_all(hub, recorded, seats, &mut connections.accepted, report)?;
    read_and_fill(hub, recorded, seats, &mut service.side);
    Ok(())
}

/// Reads clients, and puts the side files of those that sent bytes into their stores.
fn read_and_fill<A: Allocator + Copy, R: Write, H: Hub, S: SideFiles>(
    hub: &mut H,
    recorded: &mut Recorded<A, R>,
    seats: &mut [Option<Seat<H::Conn>>],
    side: &mut S,
)
    requires { length seats.old ≡ 32 }
    ensures { (accepted : ℕ) (waiting : List PointerLine) → Takes R.contents (Then (ForEach (Reads (ways H.accepts H.reads H.writes H.closes H.fault_count)) 32) (Filling (files_of S.opens S.gives S.fault_count))
        (serving hub.old (record { accepted = accepted; seats = seats.old }) side.old waiting) (serving hub.new (record { accepted = accepted; seats = seats.new }) side.new waiting))
        recorded.old recorded.new }
{
    read_all(hub, recorded, seats);
    fill_all(recorded, seats, side);
}

/// Takes the clients in while their shares of the server's time last: accepts connections, reads
/// clients, and puts the side files of those that sent bytes into their stores.
pub(crate) fn take_shared_in<
    A: Allocator + Copy,
    R: Write,
    H: Hub,
    S: SideFiles,
    K: Clock,
    W: Write,
>(
    shares: &mut Shares<'_, K>,
    service: &mut Service<A, R, H, S>,
    connections: &mut Connections<H::Conn>,
    report: &mut W,
) -> Result<(), TurnError>
    ensures told { OnOk result (Reports R.contents (SharesIn (ways H.accepts H.reads H.writes H.closes H.fault_count) (files_of S.opens S.gives S.fault_count)
        (serving service.old.hub connections.old service.old.side service.old.waiting) (serving service.new.hub connections.new service.new.side service.new.waiting))
        service.old.recorded service.new.recorded (W.contents report.old) (W.contents report.new)) }
    ensures begun { OnErr result (Takes R.contents (StartsIn (ways H.accepts H.reads H.writes H.closes H.fault_count)
        (serving service.old.hub connections.old service.old.side service.old.waiting) (serving service.new.hub connections.new service.new.side service.new.waiting))
        service.old.recorded service.new.recorded) }
    ensures waiting { service.new.waiting ≡ service.old.waiting }
{
    let hub = &mut service.hub;
    let recorded = &mut service.recorded;
    let seats = &mut connections.seats;
    accept_all(hub, recorded, seats, &mut connections.accepted, report)?;
    share_all(shares, hub, recorded, seats, &mut service.side);
    Ok(())
}

/// Writes to clients, and closes those that ended.
pub(crate) fn give_out<A: Allocator + Copy, R: Write, H: Hub, S: SideFiles, W: Write>(
    service: &mut Service<A, R, H, S>,
    connections: &mut Connections<H::Conn>,
    report: &mut W,
) -> Result<(), TurnError>
    ensures told { OnOk result (Reports R.contents (FromFrame (ways H.accepts H.reads H.writes H.closes H.fault_count) 32
        (serving service.old.hub connections.old service.old.side service.old.waiting) (serving service.new.hub connections.new service.new.side service.new.waiting))
        service.old.recorded service.new.recorded (W.contents report.old) (W.contents report.new)) }
    ensures begun { OnErr result ((n : ℕ) × (n ≤ 32) × Takes R.contents (FromFrame (ways H.accepts H.reads H.writes H.closes H.fault_count) n
        (serving service.old.hub connections.old service.old.side service.old.waiting) (serving service.new.hub connections.new service.new.side service.new.waiting))
        service.old.recorded service.new.recorded) }
    ensures waiting { service.new.waiting ≡ service.old.waiting }
{
    let hub = &mut service.hub;
    let recorded = &mut service.recorded;
    let seats = &mut connections.seats;
    write_all(hub, recorded, seats);
    close_all(hub, recorded, seats, report)
}
