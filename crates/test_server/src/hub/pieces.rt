//! Reads and writes in pieces, that block or fail at a chosen call.

use crate::hub::clients::{accepted, delivers, none_waits, receives};
use crate::hub::memory::{Client, Kept, MemoryHub, NEVER};
use std::alloc::Global;
use wl_server::{Hub, Received};

const TEXT: &[u8] = b"one line of twenty-four.";

/// Whether just these bytes of the text are taken, and a client that is gone is counted as a fault.
fn takes<H: Kept>(hub: &mut H, client: &mut H::Conn, taken: &[u8], is_gone: bool) -> bool {
    delivers(hub, client, TEXT, taken.len(), is_gone)
        && H::has_taken(client, taken)
        && hub.faults() == if is_gone { 1 } else { 0 }
}

/// Whether the client that waits takes just these bytes of the text.
fn is_counted<H: Kept + Drop>(mut hub: H, taken: &[u8], is_gone: bool) -> bool {
    match accepted(&mut hub) {
        Some(mut client) => {
            let is_counted = takes(&mut hub, &mut client, taken, is_gone);
            hub.close(client);
            is_counted
        }
        None => false,
    }
}

/// A hub that takes one byte a call.
fn one_byte_a_call<'a>(alloc: Global, blocks_at: u64, fails_at: u64) -> MemoryHub<'a, Global> {
    MemoryHub::new(Client::new(alloc, &[], true), 1, blocks_at, fails_at)
}

/// The hub takes one byte a call, and at each call in turn it fails or would block.
#[test]
fn bytes_are_counted_up_to_the_write_that_fails_or_blocks(rt: HostRuntime) {
    for at in 0..25_usize {
        let taken = &TEXT[..at];
        let number = at as u64;
        assert!(rt;
            is_counted(
                one_byte_a_call(rt.alloc(), NEVER, number),
                taken,
                at < TEXT.len()
            ) && is_counted(one_byte_a_call(rt.alloc(), number, NEVER), taken, false),
            "at {at}"
        );
    }
}

/// Whether the text is taken in two deliveries, and there is no other client.
fn takes_in_two<H: Kept>(hub: &mut H, client: &mut H::Conn) -> bool {
    delivers(hub, client, TEXT, 10, false)
        && delivers(hub, client, &TEXT[10..], 14, false)
        && H::has_taken(client, TEXT)
        && none_waits(hub)
}

/// Whether the client that waits takes the text in two deliveries.
fn is_taken_in_two<H: Kept + Drop>(mut hub: H) -> bool {
    match accepted(&mut hub) {
        Some(mut client) => takes_in_two(&mut hub, &mut client),
        None => false,
    }
}

/// A hub that takes five bytes a call, and blocks at the third.
fn five_bytes_a_call<'a>(alloc: Global) -> MemoryHub<'a, Global> {
    MemoryHub::new(Client::new(alloc, &[], true), 5, 2, NEVER)
}

/// The rest after a write that would block goes out with the next delivery.
#[test]
fn small_writes_make_the_same_bytes(rt: HostRuntime) {
    assert!(rt; is_taken_in_two(five_bytes_a_call(rt.alloc())));
}

/// Whether five bytes come, then this, and no fault is counted.
fn comes_to<H: Hub>(hub: &mut H, client: &mut H::Conn, last: Received) -> bool {
    let mut buf = [0u8; 3];
    receives(hub, client, &mut buf, Received::Bytes(3))
        && buf == *b"abc"
        && receives(hub, client, &mut buf, Received::Bytes(2))
        && buf == *b"dec"
        && receives(hub, client, &mut buf, last)
        && hub.faults() == 0
}

/// Whether the client is gone by a read, and one fault is counted.
fn is_gone<H: Hub>(hub: &mut H, client: &mut H::Conn) -> bool {
    let mut buf = [0u8; 3];
    receives(hub, client, &mut buf, Received::Gone) && hub.faults() == 1
}

/// Whether five bytes come and then this, and the client is gone by the read after.
fn ends<H: Hub + Drop>(mut hub: H, last: Received) -> bool {
    match accepted(&mut hub) {
        Some(mut client) => comes_to(&mut hub, &mut client, last) && is_gone(&mut hub, &mut client),
        None => false,
    }
}

/// A hub whose client sends five bytes, and whose fourth call fails.
fn five_bytes<'a>(alloc: Global, is_open: bool) -> MemoryHub<'a, Global> {
    MemoryHub::new(Client::new(alloc, b"abcde", is_open), 3, NEVER, 3)
}

/// A client that is open leaves a reader waiting, one that has ended is gone, and so is one whose
/// read fails.
#[test]
fn a_client_is_gone_at_its_end(rt: HostRuntime) {
    assert!(rt; ends(five_bytes(rt.alloc(), false), Received::Gone));
    assert!(rt; ends(five_bytes(rt.alloc(), true), Received::Later));
}
