//! The program's turns over a hub in memory, with clients.

use crate::replay::support::{OneFile, SMALL};
use std::alloc::Global;
use std::io::Write;
use test_server::memory::{Client, MemoryHub};
use test_support::FaultyWriter;
use wl_program::{Fault, Pace, Rate, Schedule, serve_on};
use wl_server::{Connections, Recorded, Service};
use wl_session::Session;

/// wl_display.sync with the new callback 2.
const SYNC: &[u8] = b"\x01\0\0\0\0\0\x0c\0\x02\0\0\0";

/// wl_callback.done of the callback 2, and wl_display.delete_id of it.
const ANSWER: &[u8] = b"\x02\0\0\0\0\0\x0c\0\0\0\0\0\x01\0\0\0\x01\0\x0c\0\x02\0\0\0";

/// The globals wl_compositor, wl_shm and xdg_wm_base are bound as 3, 4 and 5. A toplevel of the
/// surface 6 gets its first commit, and acknowledges the configure of serial 1. A buffer of 2 by 1
/// pixels, of a pool of 8 bytes, is attached and damaged whole. A callback 11 is asked for, and the
/// surface is committed.
const WINDOW: &[u8] = b"\x01\0\0\0\x01\0\x0c\0\x02\0\0\0\
\x02\0\0\0\0\0\x28\0\x01\0\0\0\x0e\0\0\0wl_compositor\0\0\0\x02\0\0\0\x03\0\0\0\
\x02\0\0\0\0\0\x20\0\x03\0\0\0\x07\0\0\0wl_shm\0\0\x01\0\0\0\x04\0\0\0\
\x02\0\0\0\0\0\x24\0\x06\0\0\0\x0c\0\0\0xdg_wm_base\0\x01\0\0\0\x05\0\0\0\
\x03\0\0\0\0\0\x0c\0\x06\0\0\0\
\x05\0\0\0\x02\0\x10\0\x07\0\0\0\x06\0\0\0\
\x07\0\0\0\x01\0\x0c\0\x08\0\0\0\
\x06\0\0\0\x06\0\x08\0\
\x07\0\0\0\x04\0\x0c\0\x01\0\0\0\
\x04\0\0\0\0\0\x10\0\x09\0\0\0\x08\0\0\0\
\x09\0\0\0\0\0\x20\0\x0a\0\0\0\0\0\0\0\x02\0\0\0\x01\0\0\0\x08\0\0\0\x01\0\0\0\
\x06\0\0\0\x01\0\x14\0\x0a\0\0\0\0\0\0\0\0\0\0\0\
\x06\0\0\0\x02\0\x18\0\0\0\0\0\0\0\0\0\x02\0\0\0\x01\0\0\0\
\x06\0\0\0\x03\0\x0c\0\x0b\0\0\0\
\x06\0\0\0\x06\0\x08\0";

/// The pool's bytes: the colours (3, 2, 1) and (6, 5, 4), blue first.
const PIXELS: &[u8] = b"\x01\x02\x03\xff\x04\x05\x06\xff";

const IMAGE: &[u8] = b"P6\n2 1\n255\n\x03\x02\x01\x06\x05\x04";

/// wl_callback.done of the callback 11 without its time.
const DONE: &[u8] = b"\x0b\0\0\0\0\0\x0c\0";

/// wl_display.delete_id of the callback 11.
const DELETED: &[u8] = b"\x01\0\0\0\x01\0\x0c\0\x0b\0\0\0";

/// A hub with a client that syncs, and one that draws a window. None where there is no memory.
fn hub(alloc: Global) -> Option<MemoryHub<'static>> {
    let mut clients = Vec::new(alloc);
    clients.push(Client::new(alloc, SYNC)).ok()?;
    clients.push(Client::new(alloc, WINDOW)).ok()?;
    Some(MemoryHub::new(clients, 4096))
}

/// Whether these bytes end with wl_callback.done at this time, and wl_display.delete_id.
fn is_done(taken: &[u8], time: u32) -> bool {
    match taken.strip_suffix(DELETED) {
        Some(told) => match told.split_last_chunk::<4>() {
            Some((front, at)) => *at == time.to_le_bytes() && front.ends_with(DONE),
            None => false,
        },
        None => false,
    }
}

/// Whether the first client took the answer of its sync, and the second was told of its frame at
/// this time.
fn are_answered(hub: &MemoryHub, time: u32) -> bool {
    match hub.clients.as_slice() {
        [one, other] => one.taken.as_slice() == ANSWER && is_done(other.taken.as_slice(), time),
        _ => false,
    }
}

/// Both clients' session over that hub.
type Served = Service<Global, Vec<u8>, MemoryHub<'static>, OneFile<'static>>;

/// That session before its first turn. None where there is no memory.
fn begun(alloc: Global) -> Option<Served> {
    let session = Session::new(alloc, SMALL).ok()?;
    let side = OneFile::new("2.1", PIXELS);
    Some(Service::new(
        Recorded::without(session),
        hub(alloc)?,
        side,
        Vec::new(alloc),
    ))
}

/// How serving ends at this pace, where the images are as wanted. None where they aren't.
fn serves<W: Write>(
    rt: &HostRuntime,
    service: &mut Served,
    pace: Pace,
    report: &mut W,
    images: &[u8],
) -> Option<Result<(), Fault>> {
    let mut ppm = Some(Vec::new(rt.alloc()));
    let mut connections = Connections::new();
    let schedule = Schedule { clock: rt, pace };
    let served = serve_on(schedule, service, &mut connections, report, &mut ppm);
    if ppm?.as_slice() == images {
        Some(served)
    } else {
        None
    }
}

/// Whether three turns at a rate are reported so, and the frame is told of at this time.
fn tells(rt: &HostRuntime, rate: Option<Rate>, wanted: &[u8], time: u32) -> bool {
    let pace = Pace {
        turns: Some(3),
        rate,
    };
    let mut report = Vec::new(rt.alloc());
    match begun(rt.alloc()) {
        Some(mut service) => {
            serves(rt, &mut service, pace, &mut report, IMAGE) == Some(Ok(()))
                && report.as_slice() == wanted
                && are_answered(&service.hub, time)
        }
        None => false,
    }
}

#[test]
fn two_clients_are_served(rt: HostRuntime) {
    assert!(rt; tells(&rt, None, b"client 1\nclient 2\nframe 1 2\n", 1));
}

#[test]
fn times_are_milliseconds_at_a_rate(rt: HostRuntime) {
    let rate = Rate::parse("250");
    assert!(rt; rate.is_some());
    assert!(rt; tells(&rt, rate, b"client 1\nclient 2\nframe 4 2\n", 4));
}

/// How turns without an end are left whose report fails at this call.
fn stops(rt: &HostRuntime, call: u64, images: &[u8]) -> Option<Result<(), Fault>> {
    let pace = Pace {
        turns: None,
        rate: Rate::parse("1000"),
    };
    let mut report = FaultyWriter::new(rt.alloc()).failing_at(call);
    let mut service = begun(rt.alloc())?;
    serves(rt, &mut service, pace, &mut report, images)
}

#[test]
fn turns_go_on_until_a_write_fails(rt: HostRuntime) {
    assert_eq!(rt; stops(&rt, 0, b""), Some(Err(Fault::Write)));
    assert_eq!(rt; stops(&rt, 20, IMAGE), Some(Err(Fault::Write)));
}
