//! Closing clients that ended.

ghost use Rattle.std.specs.Prelude.{◌≡◌, ◌≤◌, ℕ, length, OnOk, OnErr};
ghost use Rattle.spec_desktop.specs.Act.{unsent_of, peer_at};
ghost use Rattle.spec_desktop.specs.Desktop.{Desktop};
ghost use Rattle.wl_session.specs.Agreeing.{Agrees};
ghost use Rattle.wl_server.specs.Acting.{InTurn, Takes};
ghost use Rattle.wl_server.specs.Telling.{Reports};
ghost use Rattle.wl_server.specs.Phases.{AtSeat, Closes, Hangs, is_finished};
ghost use Rattle.wl_server.specs.Ways.{ways};

use crate::error::{TurnError, write_failed};
use crate::hub::Hub;
use crate::recorded::Recorded;
use crate::seat::Seat;
use std::alloc::Allocator;
use std::io::Write;
use wl_recording::write_end;
use wl_session::{ClientNo, Fed, Session};

/// Closes each client that ended, once its bytes went out or a write to it failed, and reports it.
pub(crate) fn close_all<A: Allocator + Copy, R: Write, H: Hub, W: Write>(
    hub: &mut H,
    recorded: &mut Recorded<A, R>,
    seats: &mut [Option<Seat<H::Conn>>],
    report: &mut W,
) -> Result<(), TurnError>
    requires { length seats.old ≡ 32 }
    ensures told { OnOk result (Reports R.contents (InTurn (AtSeat (Closes (ways H.accepts H.reads H.writes H.closes H.fault_count))) 32 (hub.old, seats.old) (hub.new, seats.new))
        recorded.old recorded.new (W.contents report.old) (W.contents report.new)) }
    ensures begun { OnErr result ((n : ℕ) × (n ≤ 32) × Takes R.contents (InTurn (AtSeat (Closes (ways H.accepts H.reads H.writes H.closes H.fault_count))) n (hub.old, seats.old) (hub.new, seats.new))
        recorded.old recorded.new) }
{
    for k in 0..seats.len() {
        close_seat(hub, recorded, k as u32 + 1, &mut seats[k], report)?;
    }
    Ok(())
}

/// Closes a client, if it ended, and its bytes went out or can't. An `Err` changes nothing but the
/// report.
fn close_seat<A: Allocator + Copy, R: Write, H: Hub, W: Write>(
    hub: &mut H,
    recorded: &mut Recorded<A, R>,
    client: ClientNo,
    seat: &mut Option<Seat<H::Conn>>,
    report: &mut W,
) -> Result<(), TurnError>
    ensures told { OnOk result (Reports R.contents (Closes (ways H.accepts H.reads H.writes H.closes H.fault_count) client (hub.old, seat.old) (hub.new, seat.new))
        recorded.old recorded.new (W.contents report.old) (W.contents report.new)) }
    ensures kept { OnErr result ((recorded.new ≡ recorded.old) × (hub.new ≡ hub.old) × (seat.new ≡ seat.old)) }
{
    let Fed::Ended(cause) = recorded.session.status(client) else {
        return Ok(());
    };
    if !is_finished(&recorded.session, client, seat) {
        return Ok(());
    }
    write_end(client, cause, report).map_err(write_failed)?;
    recorded.close(client);
    hang_up(hub, seat.take());
    Ok(())
}

/// Closes the connection that a client had, if it had one.
fn hang_up<H: Hub>(hub: &mut H, seat: Option<Seat<H::Conn>>)
    ensures { Hangs (ways H.accepts H.reads H.writes H.closes H.fault_count) (hub.old, seat) hub.new }
{
    if let Some(seat) = seat {
        hub.close(seat.conn);
    }
}

/// Whether nothing is left to be written to a client.
fn is_finished<A: Allocator + Copy, C: Drop>(
    session: &Session<A>,
    client: ClientNo,
    seat: &Option<Seat<C>>,
) -> bool
    ensures { (d : Desktop) → Agrees session.now.desk d → result ≡ is_finished seat.now (unsent_of (peer_at client d)) }
{
    let is_cut_off = match seat {
        Some(seat) => seat.has_failed,
        None => true,
    };
    is_cut_off || session.out(client).is_none_or(|bytes| bytes.is_empty())
}
