//! What the wl_pointers of a client are told, spelled by hand, up to the limit of the bytes that
//! may wait for it.

use crate::messages::bytes_of;
use std::alloc::{Allocator, Global};
use test_support::Refusing;
use wl_client::{Cause, Client, Output, PointerEvent};
use wl_proto::Interface;
use wl_table::Entry;

/// More allocations than any of these takes.
const MANY: u64 = 100;

/// How many events of 16 bytes may wait for a client.
const MOST_LEAVES: usize = 65_536;

/// The ids of two wl_pointers.
const TWO: &[u32] = &[5, 7];

const SURFACE: u32 = 3;

/// Ten pixels to the right of the surface's corner, and one above it.
const ENTER: PointerEvent = PointerEvent::Enter {
    surface: SURFACE,
    x: 2560,
    y: -256,
};

const LEAVE: PointerEvent = PointerEvent::Leave { surface: SURFACE };

const MOTION: PointerEvent = PointerEvent::Motion {
    time: 70,
    x: 2561,
    y: 0,
};

const PRESS: PointerEvent = PointerEvent::Button {
    time: 80,
    button: 272,
    pressed: true,
};

const RELEASE: PointerEvent = PointerEvent::Button {
    time: 90,
    button: 272,
    pressed: false,
};

/// What two wl_pointers are told by turns, and the words of the messages: one serial for both, and
/// none in a motion.
const TOLD: &[(PointerEvent, &[u32])] = &[
    (
        ENTER,
        &[
            5, 0x00180000, 1, 3, 2560, 0xffffff00, 7, 0x00180000, 1, 3, 2560, 0xffffff00,
        ],
    ),
    (
        MOTION,
        &[5, 0x00140002, 70, 2561, 0, 7, 0x00140002, 70, 2561, 0],
    ),
    (
        PRESS,
        &[5, 0x00180003, 2, 80, 272, 1, 7, 0x00180003, 2, 80, 272, 1],
    ),
    (
        RELEASE,
        &[5, 0x00180003, 3, 90, 272, 0, 7, 0x00180003, 3, 90, 272, 0],
    ),
    (LEAVE, &[5, 0x00100001, 4, 3, 7, 0x00100001, 4, 3]),
];

fn client<A: Allocator + Copy>(alloc: A) -> Option<Client<A>> {
    let output = Output {
        width: 640,
        height: 480,
    };
    Client::new(alloc, output).ok()
}

/// Whether the client is told this, and takes the bytes of these words.
fn tells(alloc: Global, client: &mut Client<Global>, event: PointerEvent, words: &[u32]) -> bool {
    let Some(wanted) = bytes_of(alloc, words) else {
        return false;
    };
    client.tell_pointers(TWO, event) == Ok(())
        && client.unsent() == wanted.as_slice()
        && client.sent(wanted.len())
}

fn tells_by_turns(alloc: Global) -> bool {
    let Some(mut client) = client(alloc) else {
        return false;
    };
    for (event, words) in TOLD {
        if !tells(alloc, &mut client, *event, words) {
            return false;
        }
    }
    client.tell_pointers(&[], ENTER) == Ok(()) && client.unsent().is_empty() && client.serial() == 5
}

#[test]
fn tells_two_wl_pointers(rt: HostRuntime) {
    assert!(rt; tells_by_turns(rt.alloc()));
}

/// A client for which so many bytes wait that one more event of 16 bytes may be queued.
fn nearly_slow(alloc: Global) -> Option<Client<Global>> {
    let mut client = client(alloc)?;
    for _ in 1..MOST_LEAVES {
        client.tell_pointers(&[5], LEAVE).ok()?;
    }
    Some(client)
}

/// The second of two events has no room: the first waits, and the client is to end. It is told
/// nothing more then, even where there is room again.
fn stops_at_the_second(alloc: Global) -> bool {
    let Some(mut client) = nearly_slow(alloc) else {
        return false;
    };
    client.to_end_for().is_none()
        && client.tell_pointers(TWO, LEAVE) == Err(Cause::Slow)
        && client.unsent().len() == 1_048_576
        && client.serial() == 65_537
        && client.to_end_for() == Some(Cause::Slow)
        && !client.has_ended()
        && client.sent(1_048_576)
        && client.tell_pointers(TWO, MOTION) == Err(Cause::Slow)
        && client.unsent().is_empty()
}

#[test]
fn stops_where_too_many_bytes_wait(rt: HostRuntime) {
    assert!(rt; stops_at_the_second(rt.alloc()));
}

/// Whether the client is told to enter, or is to end as out of memory and was told less. How often
/// it was refused memory.
fn enters<A: Allocator + Copy>(client: &mut Client<A>, wanted: &[u8]) -> Option<u32> {
    match client.tell_pointers(TWO, ENTER) {
        Ok(()) if client.unsent() == wanted && client.to_end_for().is_none() => Some(0),
        Err(Cause::Memory)
            if client.to_end_for() == Some(Cause::Memory)
                && client.unsent().len() < wanted.len()
                && wanted.starts_with(client.unsent()) => { Some(1) }
        _ => None,
    }
}

/// How often one of them was refused memory, where each is told, or is to end. None where it isn't
/// so.
fn refused(alloc: Global, wanted: &[u8]) -> Option<u32> {
    let mut times = 0u32;
    for served in 0..MANY {
        let heap = Refusing::new(alloc, served);
        if let Some(mut client) = client(&heap) {
            times = times.saturating_add(enters(&mut client, wanted)?);
        }
    }
    Some(times)
}

#[test]
fn is_to_end_for_want_of_memory(rt: HostRuntime) {
    let words = &[
        5, 0x00180000, 1, 3, 2560, 0xffffff00, 7, 0x00180000, 1, 3, 2560, 0xffffff00,
    ];
    let Some(wanted) = bytes_of(rt.alloc(), words) else {
        return;
    };
    assert!(rt; matches!(refused(rt.alloc(), &wanted), Some(1..)));
}

fn surface(target: usize) -> Entry {
    Entry {
        interface: Interface::WlSurface,
        version: 1,
        target,
    }
}

/// A surface is found by its place, and isn't any more once it is gone.
fn finds_a_surface(alloc: Global) -> bool {
    let Some(mut client) = client(alloc) else {
        return false;
    };
    client.add(6, surface(4), &[]);
    client.add(SURFACE, surface(2), &[]);
    let found = client.find(Interface::WlSurface, 2);
    client.remove(SURFACE);
    found == Some(SURFACE)
        && client.find(Interface::WlSurface, 2).is_none()
        && client.find(Interface::WlSurface, 4) == Some(6)
        && client.find(Interface::WlPointer, 4).is_none()
        && client.find(Interface::WlDisplay, 0) == Some(1)
}

#[test]
fn finds_the_id_of_a_surface(rt: HostRuntime) {
    assert!(rt; finds_a_surface(rt.alloc()));
}
