//! Turns with slow clients: accepting fails at first, one client never reads what it asks for, and
//! one sends a byte a turn.

ghost use Rattle.std.specs.Prelude.{◌≡◌, ◌≤◌, ⊤, IfSome, length};

use crate::memory::OneFile;
use crate::serving::{ANSWER, SYNC};
use crate::turns::{Served, served, takes};
use std::alloc::Global;
use wl_server::{Connections, Hub, HubFault};
use wl_session::{Cause, Fed};

/// A client's end.
#[derive(Clone, Copy, Debug, PartialEq, Eq)]
enum Way {
    /// It sends one sync after another, as much as is read, and never reads.
    Floods,
    /// It sends one sync, a byte a turn, and reads.
    Trickles,
}

/// Fills the buffer with syncs, on from this place in one, and answers where the last one stops.
fn flood(from: usize, buf: &mut [u8]) -> usize {
    let mut at = from;
    for byte in buf {
        at %= SYNC.len();
        *byte = SYNC[at];
        at += 1;
    }
    at
}

/// A hub to which the one connects, and then the other; before that the first accept fails.
#[derive(Drop)]
struct SlowHub {
    /// How many times it was asked to accept, and how many of these failed.
    asked: u64,
    faults: u64,
    /// Where in a sync the flood stands.
    flooded: usize,
    /// What the other one has still to send, and whether it sent its byte of this turn.
    trickle: &'static [u8],
    has_sent: bool,
    /// What it took.
    taken: Vec<u8>,
}

impl SlowHub {
    fn new(alloc: Global) -> SlowHub {
        SlowHub {
            asked: 0,
            faults: 0,
            flooded: 0,
            trickle: SYNC,
            has_sent: false,
            taken: Vec::new(alloc),
        }
    }

    /// The byte of this turn, if it wasn't sent yet. None where nothing is to be sent now.
    fn drip(&mut self, buf: &mut [u8]) -> Option<usize>
        ensures within { IfSome result (λ n. n ≤ length buf.new) }
        ensures faults { self.new.faults ≡ self.old.faults }
    {
        if self.has_sent {
            return None;
        }
        let (byte, rest) = self.trickle.split_first()?;
        *buf.first_mut()? = *byte;
        self.trickle = rest;
        self.has_sent = true;
        Some(1)
    }
}

impl Hub for SlowHub {
    type Conn = Way;

    ghost fault_count = { λ hub. hub.faults };

    ghost accepts = { λ _ _ _. ⊤ };

    ghost reads = { λ _ _ _ _ _. ⊤ };

    ghost writes = { λ _ _ _ _ _. ⊤ };

    ghost closes = { λ _ _ _. ⊤ };

    fn accept(&mut self) -> Result<Option<Way>, HubFault> {
        self.has_sent = false;
        self.asked = self.asked.saturating_add(1);
        match self.asked {
            1 => {
                self.faults = self.faults.saturating_add(1);
                Err(HubFault)
            }
            2 => Ok(Some(Way::Floods)),
            3 => Ok(Some(Way::Trickles)),
            _ => Ok(None),
        }
    }

    fn read(&mut self, conn: &mut Way, buf: &mut [u8]) -> Result<Option<usize>, HubFault> {
        match conn {
            Way::Floods => {
                self.flooded = flood(self.flooded, buf);
                Ok(Some(buf.len()))
            }
            Way::Trickles => Ok(self.drip(buf)),
        }
    }

    fn write(&mut self, conn: &mut Way, bytes: &[u8]) -> Result<Option<usize>, HubFault> {
        match conn {
            Way::Floods => Ok(None),
            Way::Trickles => match self.taken.extend_from_slice(bytes) {
                Ok(()) => Ok(Some(bytes.len())),
                Err(_) => Ok(None),
            },
        }
    }

    fn close(&mut self, _conn: Way) {}

    fn faults(&self) -> u64 {
        self.faults
    }
}

/// A session over that hub, where no side file is there.
type Slow = Served<SlowHub, OneFile<'static>>;

/// Whether the client that floods stands so.
fn stands(service: &Slow, wanted: Fed) -> bool {
    service.recorded.session.status(1) == wanted
}

/// What is told of two clients that connected.
const BOTH: &[u8] = b"client 1\nclient 2\n";

/// Whether nobody connects in the first turn, and both in the second. The client that never reads
/// lives while at most 1,048,576 bytes wait for it, and ends then.
///
/// Each turn reads 16 times 4,096 bytes, and answers 12 of them by 24. After eight turns 43,690
/// syncs wait, with 1,048,560 bytes. In the ninth the next one passes the limit.
fn ends_the_one(
    service: &mut Slow,
    connections: &mut Connections<Way>,
    report: &mut Vec<u8>,
) -> bool {
    takes(service, connections, 1, 1, report)
        && report.is_empty()
        && takes(service, connections, 2, 9, report)
        && stands(service, Fed::Alive)
        && takes(service, connections, 10, 10, report)
        && stands(service, Fed::Ended(Cause::Slow))
}

/// Whether the client that ended isn't closed, and the one that sends a byte a turn is answered as
/// its last one came.
fn answers_the_other(
    service: &mut Slow,
    connections: &mut Connections<Way>,
    report: &mut Vec<u8>,
) -> bool {
    takes(service, connections, 11, 12, report)
        && service.hub.taken.is_empty()
        && takes(service, connections, 13, 13, report)
        && service.hub.taken.as_slice() == ANSWER
        && report.as_slice() == BOTH
}

fn serves_the_slow(alloc: Global) -> bool {
    let side = OneFile {
        name: "none",
        opened: 0,
    };
    let mut connections = Connections::new();
    let mut report = Vec::new(alloc);
    match served(alloc, SlowHub::new(alloc), side) {
        Some(mut service) => {
            ends_the_one(&mut service, &mut connections, &mut report)
                && answers_the_other(&mut service, &mut connections, &mut report)
                && service.hub.faults == 1
        }
        None => false,
    }
}

#[test]
fn slow_clients_hold_up_nobody(rt: HostRuntime) {
    assert!(rt; serves_the_slow(rt.alloc()));
}
