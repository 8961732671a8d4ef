//! The connections of the clients.

ghost use Rattle.std.specs.Prelude.{◌≡◌, None, replicate};
ghost use Rattle.wl_server.specs.Seats.{nobody};
ghost use Rattle.wl_server.specs.Phases.{new_seat};

use std::marker::Model;
use wl_session::MAX_CLIENTS;

/// The connection of a client.
#[derive(Drop)]
pub struct Seat<C: Drop> {
    /// The hub's connection.
    pub conn: C,
    /// Its place among the accepted connections, from 1.
    pub number: u32,
    /// Whether the client sent bytes when it was last read.
    pub has_sent: bool,
    /// Whether a write to it failed.
    pub has_failed: bool,
    /// How much of the server's time it owes, in nanoseconds, if clients share that.
    pub debt: u64,
    /// How many bytes of it are read at once, if clients share the server's time.
    pub piece: usize,
}

impl<C: Drop> Seat<C> {
    /// A connection that nothing came from yet.
    pub(crate) fn new(conn: C, number: u32) -> Seat<C>
        ensures { result ≡ new_seat conn number }
    {
        Seat {
            conn,
            number,
            has_sent: false,
            has_failed: false,
            debt: 0,
            piece: 8,
        }
    }
}

/// The connections of all clients, by number from 1, and how many were accepted so far. Contracts
/// see that number, and the connection that each client has.
#[derive(Drop)]
pub struct Connections<C: Drop> {
    pub(crate) seats: [Option<Seat<C>>; MAX_CLIENTS],
    pub(crate) accepted: u32,
}

impl<C: Drop> Model for Connections<C> {
    ghost use Rattle.wl_server.specs.declared.seat.Seat.{Seat};
    ghost use Rattle.wl_server.specs.Seats.{Seated};

    ghost Value = { Seated (Seat C) };

    ghost view = { λ x. record { accepted = x.accepted; seats = x.seats } };
}

/// No client has a connection.
fn no_seats<C: Drop>() -> [Option<Seat<C>>; MAX_CLIENTS]
    ensures { result ≡ replicate 32 None }
{
    [const { None }; MAX_CLIENTS]
}

impl<C: Drop> Connections<C> {
    /// No connections, and none accepted yet. It takes no memory.
    pub fn new() -> Connections<C>
        ensures { result ≡ nobody }
    {
        Connections {
            seats: no_seats(),
            accepted: 0,
        }
    }
    /// How many were accepted so far.
    pub(crate) fn count(&self) -> u32 {
        self.accepted
    }

    /// Whether any client sent bytes when it was last read.
    pub fn have_sent(&self) -> bool {
        have_sent(&self.seats)
    }
}

/// Whether any of these clients sent bytes when it was last read.
fn have_sent<C: Drop>(seats: &[Option<Seat<C>>]) -> bool {
    for seat in seats {
        if let Some(seat) = seat {
            if seat.has_sent {
                return true;
            }
        }
    }
    false
}
