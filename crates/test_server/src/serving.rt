//! Turns over a hub in memory.

use crate::memory::{Client, MemoryHub, OneFile};
use crate::turns::{reports, served, takes};
use std::alloc::Global;
use wl_server::Connections;

/// wl_display.sync with the new callback 2.
pub(crate) const SYNC: &[u8] = b"\x01\0\0\0\0\0\x0c\0\x02\0\0\0";

/// wl_callback.done of the callback 2, and wl_display.delete_id of it.
pub(crate) const ANSWER: &[u8] = b"\x02\0\0\0\0\0\x0c\0\0\0\0\0\x01\0\0\0\x01\0\x0c\0\x02\0\0\0";

/// The clients of a hub.
fn two<'a>(alloc: Global, first: Client<'a>, second: Client<'a>) -> Option<Vec<Client<'a>>> {
    let mut clients = Vec::new(alloc);
    clients.push(first).ok()?;
    clients.push(second).ok()?;
    Some(clients)
}

/// Whether a client took just these bytes.
fn has_taken(hub: &MemoryHub, place: usize, bytes: &[u8]) -> bool {
    match hub.clients.get(place) {
        Some(client) => client.taken.as_slice() == bytes,
        None => false,
    }
}

fn is_closed(hub: &MemoryHub, place: usize) -> bool {
    match hub.clients.get(place) {
        Some(client) => client.is_closed,
        None => false,
    }
}

/// Whether two clients are served for two turns, this is reported, and each took so many bytes of
/// its answer.
fn serves(
    alloc: Global,
    clients: Option<Vec<Client>>,
    largest: usize,
    wanted: &[u8],
    taken: [usize; 2],
) -> bool {
    let Some(clients) = clients else {
        return false;
    };
    let hub = MemoryHub::new(clients, largest);
    let side = OneFile {
        name: "1.1",
        opened: 0,
    };
    match reports(alloc, hub, side, 2, wanted) {
        Some(service) => {
            has_taken(&service.hub, 0, &ANSWER[..taken[0].min(ANSWER.len())])
                && has_taken(&service.hub, 1, &ANSWER[..taken[1].min(ANSWER.len())])
                && service.side.opened == 0
        }
        None => false,
    }
}

const STAY: &[u8] = b"client 1\nclient 2\n";

const FIRST_GONE: &[u8] = b"client 1\nclient 2\nend 1 gone\n";

#[test]
fn small_writes_give_the_same_bytes(rt: HostRuntime) {
    for largest in [1, 5, 24, 4096_usize] {
        let clients = two(
            rt.alloc(),
            Client::new(rt.alloc(), SYNC),
            Client::new(rt.alloc(), SYNC),
        );
        assert!(rt;
            serves(rt.alloc(), clients, largest, STAY, [24, 24]),
            "{largest}"
        );
    }
}

/// A client whose writes fail after so many bytes.
fn with_room<'a>(alloc: Global, room: usize) -> Client<'a> {
    let mut client = Client::new(alloc, SYNC);
    client.room = room;
    client
}

#[test]
fn a_write_that_fails_ends_its_client_alone(rt: HostRuntime) {
    for room in 0..24_usize {
        let clients = two(
            rt.alloc(),
            with_room(rt.alloc(), room),
            Client::new(rt.alloc(), SYNC),
        );
        assert!(rt;
            serves(rt.alloc(), clients, 1, FIRST_GONE, [room, 24]),
            "{room}"
        );
    }
}

/// A client that sends a sync, and whose reads fail.
fn broken<'a>(alloc: Global) -> Client<'a> {
    let mut client = Client::new(alloc, SYNC);
    client.is_broken = true;
    client
}

/// A client that sends a sync and ends.
fn ended<'a>(alloc: Global) -> Client<'a> {
    let mut client = Client::new(alloc, SYNC);
    client.is_open = false;
    client
}

#[test]
fn a_read_that_fails_or_ends_ends_its_client(rt: HostRuntime) {
    let clients = two(
        rt.alloc(),
        broken(rt.alloc()),
        Client::new(rt.alloc(), SYNC),
    );
    assert!(rt; serves(rt.alloc(), clients, 4096, FIRST_GONE, [0, 24]));
    let clients = two(rt.alloc(), ended(rt.alloc()), Client::new(rt.alloc(), SYNC));
    assert!(rt; serves(rt.alloc(), clients, 4096, FIRST_GONE, [24, 24]));
}

/// So many clients that send nothing.
fn idle<'a>(alloc: Global, count: u32) -> Option<Vec<Client<'a>>> {
    let mut clients = Vec::new(alloc);
    for _ in 0..count {
        clients.push(Client::new(alloc, b"")).ok()?;
    }
    Some(clients)
}

/// Whether the last of 33 connections is closed at once, and the one before isn't.
fn closes_the_last(alloc: Global) -> bool {
    let Some(clients) = idle(alloc, 33) else {
        return false;
    };
    let hub = MemoryHub::new(clients, 4096);
    let side = OneFile {
        name: "1.1",
        opened: 0,
    };
    let mut connections = Connections::new();
    let mut report = Vec::new(alloc);
    match served(alloc, hub, side) {
        Some(mut service) => {
            takes(&mut service, &mut connections, 1, 2, &mut report)
                && is_closed(&service.hub, 32)
                && !is_closed(&service.hub, 31)
        }
        None => false,
    }
}

#[test]
fn the_33rd_connection_is_closed_at_once(rt: HostRuntime) {
    assert!(rt; closes_the_last(rt.alloc()));
}

/// get_registry, a bind of wl_shm, and a pool of 16 bytes.
const POOL: &[u8] = b"\x01\0\0\0\x01\0\x0c\0\x02\0\0\0\
\x02\0\0\0\0\0\x20\0\x03\0\0\0\x07\0\0\0wl_shm\0\0\x01\0\0\0\x04\0\0\0\
\x04\0\0\0\0\0\x10\0\x09\0\0\0\x10\0\0\0";

/// Whether the pool of the second connection is asked for once, by its name, in three turns.
fn asks_for_its_file(alloc: Global) -> bool {
    let Some(clients) = two(alloc, Client::new(alloc, b""), Client::new(alloc, POOL)) else {
        return false;
    };
    let hub = MemoryHub::new(clients, 4096);
    let side = OneFile {
        name: "2.1",
        opened: 0,
    };
    match reports(alloc, hub, side, 3, STAY) {
        Some(service) => service.side.opened == 1,
        None => false,
    }
}

#[test]
fn a_pool_gets_its_file(rt: HostRuntime) {
    assert!(rt; asks_for_its_file(rt.alloc()));
}
