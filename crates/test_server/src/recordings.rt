//! What is recorded of a session that is served, and recordings whose writers fail.

use crate::memory::{Client, MemoryHub, OneFile};
use crate::turns::CONFIG;
use crate::writers::Failing;
use std::alloc::Global;
use std::io::Write;
use wl_server::{Connections, Recorded, Service, TurnError, turn};
use wl_session::Session;

/// wl_display.sync with the new callback 2.
const SYNC: &[u8] = b"\x01\0\0\0\0\0\x0c\0\x02\0\0\0";

/// What is recorded of a client that sends it, in the first turn.
const RECORDED: &[u8] = b"connect\nbytes 1 0100000000000c0002000000\ntick 1\n";

/// What the turns of a session are answered that is recorded by this writer. It ends with the first
/// that isn't `Ok`. None where there is no memory.
fn records<R: Write + Drop>(alloc: Global, writer: R, turns: u32) -> Option<Result<(), TurnError>> {
    let Ok(session) = Session::new(alloc, CONFIG) else {
        return None;
    };
    let recorded = Recorded::new(session, writer);
    let mut clients = Vec::new(alloc);
    clients.push(Client::new(alloc, SYNC)).ok()?;
    let hub = MemoryHub::new(clients, 4096);
    let side = OneFile {
        name: "",
        opened: 0,
    };
    let mut service = Service::new(recorded, hub, side, Vec::new(alloc));
    let mut connections = Connections::new();
    let mut report = Vec::new(alloc);
    for time in 1..turns.saturating_add(1) {
        let answer = turn(
            &mut service,
            &mut connections,
            time,
            &mut report,
            &mut None::<Vec<u8>>,
        );
        if answer.is_err() {
            return Some(answer);
        }
    }
    service.recorded.is_recorded();
    Some(Ok(()))
}

/// Whether just this is recorded in so many turns.
fn is_recorded(alloc: Global, turns: u32, wanted: &[u8]) -> bool {
    let mut text = Vec::new(alloc);
    records(alloc, &mut text, turns) == Some(Ok(())) && text.as_slice() == wanted
}

#[test]
fn what_is_asked_is_recorded(rt: HostRuntime) {
    let alloc = rt.alloc();
    assert!(rt; is_recorded(alloc, 0, b""));
    assert!(rt; is_recorded(alloc, 1, RECORDED));
    assert!(rt;
        is_recorded(
            alloc,
            3,
            b"connect\nbytes 1 0100000000000c0002000000\ntick 1\ntick 2\ntick 3\n"
        )
    );
}

#[test]
fn a_recording_that_fails_is_answered(rt: HostRuntime) {
    let alloc = rt.alloc();
    for room in 0..RECORDED.len() {
        assert_eq!(rt;
            records(alloc, Failing { room }, 1),
            Some(Err(TurnError::Write)),
            "{room}"
        );
    }
    assert_eq!(rt;
        records(
            alloc,
            Failing {
                room: RECORDED.len()
            },
            1
        ),
        Some(Ok(()))
    );
    assert_eq!(rt;
        records(
            alloc,
            Failing {
                room: RECORDED.len()
            },
            2
        ),
        Some(Err(TurnError::Write))
    );
}
