//! Reading what clients sent.

ghost use Rattle.std.specs.Prelude.{◌≡◌, ◌<◌, ◌≤◌, length};
ghost use Rattle.wl_server.specs.Acting.{InTurn, Takes};
ghost use Rattle.wl_server.specs.Phases.{AtSeat, Reads, ReadsClient, ReadsOnce};
ghost use Rattle.wl_server.specs.Ways.{ways};

use crate::hub::Hub;
use crate::receiving::{Received, receive};
use crate::recorded::Recorded;
use crate::seat::Seat;
use std::alloc::Allocator;
use std::io::Write;
use wl_session::ClientNo;

/// How often a client is read in a turn, at most.
const READS: usize = 16;

/// How many bytes are read at once, at most.
const PIECE: usize = 4096;

/// Reads each client until it would block.
pub(crate) fn read_all<A: Allocator + Copy, R: Write, H: Hub>(
    hub: &mut H,
    recorded: &mut Recorded<A, R>,
    seats: &mut [Option<Seat<H::Conn>>],
)
    requires { length seats.old ≡ 32 }
    ensures { Takes R.contents (InTurn (AtSeat (Reads (ways H.accepts H.reads H.writes H.closes H.fault_count))) 32 (hub.old, seats.old) (hub.new, seats.new)) recorded.old recorded.new }
{
    let mut buf = [0; PIECE];
    for k in 0..seats.len() {
        read_seat(hub, recorded, k as u32 + 1, &mut seats[k], &mut buf);
    }
}

/// Reads a client, if it has a connection.
fn read_seat<A: Allocator + Copy, R: Write, H: Hub>(
    hub: &mut H,
    recorded: &mut Recorded<A, R>,
    client: ClientNo,
    seat: &mut Option<Seat<H::Conn>>,
    buf: &mut [u8],
)
    requires { length buf.old ≡ 4096 }
    ensures { Takes R.contents (Reads (ways H.accepts H.reads H.writes H.closes H.fault_count) client (hub.old, seat.old) (hub.new, seat.new)) recorded.old recorded.new }
{
    if let Some(seat) = seat {
        read_client(hub, recorded, client, seat, buf);
    }
}

/// Reads a client until it would block, but at most [`READS`] times.
fn read_client<A: Allocator + Copy, R: Write, H: Hub>(
    hub: &mut H,
    recorded: &mut Recorded<A, R>,
    client: ClientNo,
    seat: &mut Seat<H::Conn>,
    buf: &mut [u8],
)
    requires { length buf.old ≡ 4096 }
    ensures { Takes R.contents (ReadsClient (ways H.accepts H.reads H.writes H.closes H.fault_count) client (hub.old, seat.old) (hub.new, seat.new)) recorded.old recorded.new }
{
    seat.has_sent = false;
    for before in 0..READS {
        if !read_once(hub, recorded, client, seat, buf) {
            return;
        }
    }
}

/// Reads once into the front of `buf`, and feeds what came. The answer is false if no more is to be
/// read: it would block, or the client is gone.
pub(crate) fn read_once<A: Allocator + Copy, R: Write, H: Hub>(
    hub: &mut H,
    recorded: &mut Recorded<A, R>,
    client: ClientNo,
    seat: &mut Seat<H::Conn>,
    buf: &mut [u8],
) -> bool
    requires some { 0 < length buf.old }
    requires few { length buf.old ≤ 4096 }
    ensures { Takes R.contents (ReadsOnce (ways H.accepts H.reads H.writes H.closes H.fault_count) client result (hub.old, seat.old) (hub.new, seat.new)) recorded.old recorded.new }
{
    match receive(hub, &mut seat.conn, buf) {
        Received::Bytes(count) => {
            seat.has_sent = true;
            recorded.feed(client, &buf[..count]);
            true
        }
        Received::Later => false,
        Received::Gone => {
            recorded.gone(client);
            false
        }
    }
}
