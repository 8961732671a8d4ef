//! Accepting connections.

ghost use Rattle.std.specs.Prelude.{◌≡◌, length, OnOk, OnErr, IfOk, Some};
ghost use Rattle.wl_server.specs.Acting.{Takes};
ghost use Rattle.wl_server.specs.Telling.{Reports};
ghost use Rattle.wl_server.specs.Phases.{Accepts, AcceptsAll, AcceptsOne, BeginsAccepting};
ghost use Rattle.wl_server.specs.Seats.{with_seat};
ghost use Rattle.wl_server.specs.Ways.{ways};

use crate::error::{TurnError, write_failed};
use crate::hub::{Hub, HubFault};
use crate::recorded::Recorded;
use crate::seat::Seat;
use std::alloc::Allocator;
use std::io::Write;
use wl_recording::write_client;
use wl_session::{ClientNo, ConnectError};

/// How many connections are accepted in a turn, at most.
const ACCEPTS: usize = 32;

/// Accepts the connections that wait, and reports each that became a client. A fault ends accepting
/// for this turn.
pub(crate) fn accept_all<A: Allocator + Copy, R: Write, H: Hub, W: Write>(
    hub: &mut H,
    recorded: &mut Recorded<A, R>,
    seats: &mut [Option<Seat<H::Conn>>],
    accepted: &mut u32,
    report: &mut W,
) -> Result<(), TurnError>
    requires { length seats.old ≡ 32 }
    ensures told { OnOk result (Reports R.contents (AcceptsAll (ways H.accepts H.reads H.writes H.closes H.fault_count)
        (hub.old, record { accepted = accepted.old; seats = seats.old }) (hub.new, record { accepted = accepted.new; seats = seats.new }))
        recorded.old recorded.new (W.contents report.old) (W.contents report.new)) }
    ensures begun { OnErr result (Takes R.contents (BeginsAccepting (ways H.accepts H.reads H.writes H.closes H.fault_count)
        (hub.old, record { accepted = accepted.old; seats = seats.old }) (hub.new, record { accepted = accepted.new; seats = seats.new }))
        recorded.old recorded.new) }
{
    for before in 0..ACCEPTS {
        if !accept_one(hub, recorded, seats, accepted, report)? {
            return Ok(());
        }
    }
    Ok(())
}

/// Accepts a connection that waits. The answer is false if no more are to be accepted in this turn.
fn accept_one<A: Allocator + Copy, R: Write, H: Hub, W: Write>(
    hub: &mut H,
    recorded: &mut Recorded<A, R>,
    seats: &mut [Option<Seat<H::Conn>>],
    accepted: &mut u32,
    report: &mut W,
) -> Result<bool, TurnError>
    requires { length seats.old ≡ 32 }
    ensures told { IfOk result (λ more. Reports R.contents (AcceptsOne (ways H.accepts H.reads H.writes H.closes H.fault_count) more
        (hub.old, record { accepted = accepted.old; seats = seats.old }) (hub.new, record { accepted = accepted.new; seats = seats.new }))
        recorded.old recorded.new (W.contents report.old) (W.contents report.new)) }
    ensures taken { OnErr result (Takes R.contents (Accepts (ways H.accepts H.reads H.writes H.closes H.fault_count)
        (hub.old, record { accepted = accepted.old; seats = seats.old }) (hub.new, record { accepted = accepted.new; seats = seats.new }))
        recorded.old recorded.new) }
{
    if *accepted == u32::MAX {
        return Ok(false);
    }
    let conn = match hub.accept() {
        Ok(Some(conn)) => conn,
        Ok(None) => return Ok(false),
        Err(HubFault) => return Ok(false),
    };
    *accepted += 1;
    match recorded.connect() {
        Ok(client) => {
            sit(seats, client, Seat::new(conn, *accepted));
            write_client(client, report).map_err(write_failed)?;
            Ok(true)
        }
        Err(ConnectError::Full | ConnectError::Memory) => {
            hub.close(conn);
            Ok(true)
        }
    }
}

/// Gives a client its seat.
fn sit<C: Drop>(seats: &mut [Option<Seat<C>>], client: ClientNo, seat: Seat<C>)
    ensures { seats.new ≡ with_seat client (Some seat) seats.old }
{
    let place = (client as usize).saturating_sub(1);
    if place < seats.len() {
        seats[place] = Some(seat);
    }
}
