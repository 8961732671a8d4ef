//! Sending clients what waits for them.

ghost use Rattle.std.specs.Prelude.{◌≡◌, length};
ghost use Rattle.wl_server.specs.Acting.{InTurn, Takes};
ghost use Rattle.wl_server.specs.Phases.{AtSeat, Writes, WritesClient};
ghost use Rattle.wl_server.specs.Ways.{ways};

use crate::delivery::deliver;
use crate::hub::Hub;
use crate::recorded::Recorded;
use crate::seat::Seat;
use std::alloc::Allocator;
use std::io::Write;
use wl_session::ClientNo;

/// Writes to each client until it would block.
pub(crate) fn write_all<A: Allocator + Copy, R: Write, H: Hub>(
    hub: &mut H,
    recorded: &mut Recorded<A, R>,
    seats: &mut [Option<Seat<H::Conn>>],
)
    requires { length seats.old ≡ 32 }
    ensures { Takes R.contents (InTurn (AtSeat (Writes (ways H.accepts H.reads H.writes H.closes H.fault_count))) 32 (hub.old, seats.old) (hub.new, seats.new)) recorded.old recorded.new }
{
    for k in 0..seats.len() {
        write_seat(hub, recorded, k as u32 + 1, &mut seats[k]);
    }
}

/// Writes to a client, if it has a connection.
fn write_seat<A: Allocator + Copy, R: Write, H: Hub>(
    hub: &mut H,
    recorded: &mut Recorded<A, R>,
    client: ClientNo,
    seat: &mut Option<Seat<H::Conn>>,
)
    ensures { Takes R.contents (Writes (ways H.accepts H.reads H.writes H.closes H.fault_count) client (hub.old, seat.old) (hub.new, seat.new)) recorded.old recorded.new }
{
    if let Some(seat) = seat {
        write_client(hub, recorded, client, seat);
    }
}

/// Writes to a client until it would block. If a write fails, the client is gone.
fn write_client<A: Allocator + Copy, R: Write, H: Hub>(
    hub: &mut H,
    recorded: &mut Recorded<A, R>,
    client: ClientNo,
    seat: &mut Seat<H::Conn>,
)
    ensures { Takes R.contents (WritesClient (ways H.accepts H.reads H.writes H.closes H.fault_count) client (hub.old, seat.old) (hub.new, seat.new)) recorded.old recorded.new }
{
    let Some(bytes) = recorded.session.out(client) else {
        return;
    };
    let delivered = deliver(hub, &mut seat.conn, bytes);
    recorded.sent(client, delivered.bytes);
    if delivered.is_gone {
        seat.has_failed = true;
        recorded.gone(client);
    }
}
