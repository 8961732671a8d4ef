//! Each client gets its own bytes, and each store as many as it holds.

ghost use Rattle.std.specs.Prelude.{⊤};

use crate::memory::{Client, MemoryHub};
use crate::serving::{ANSWER, SYNC};
use crate::turns::reports;
use std::alloc::Global;
use wl_recording::{SideFault, SideFiles};

/// wl_display.sync with the new callback 3.
const OTHER_SYNC: &[u8] = b"\x01\0\0\0\0\0\x0c\0\x03\0\0\0";

/// wl_callback.done of the callback 3, and wl_display.delete_id of it.
const OTHER_ANSWER: &[u8] = b"\x03\0\0\0\0\0\x0c\0\0\0\0\0\x01\0\0\0\x01\0\x0c\0\x03\0\0\0";

/// get_registry, a bind of wl_shm, and a pool of 5,000 bytes.
const POOL: &[u8] = b"\x01\0\0\0\x01\0\x0c\0\x02\0\0\0\
\x02\0\0\0\0\0\x20\0\x03\0\0\0\x07\0\0\0wl_shm\0\0\x01\0\0\0\x04\0\0\0\
\x04\0\0\0\0\0\x10\0\x09\0\0\0\x88\x13\0\0";

/// Side files without an end, of which there is one. It keeps how often it was read, and how many
/// bytes were asked of it.
#[derive(Drop)]
struct Endless {
    reads: u64,
    asked: usize,
}

impl SideFiles for Endless {
    ghost fault_count = { λ _. 0 };

    ghost gives = { λ _ _ _. ⊤ };

    ghost opens = { λ _ _ _ _ _. ⊤ };

    fn open(&mut self, name: &str, _from: u32) -> Result<bool, SideFault> {
        Ok(name == "2.1")
    }

    fn read(&mut self, buf: &mut [u8]) -> Result<usize, SideFault> {
        self.reads = self.reads.saturating_add(1);
        self.asked = self.asked.saturating_add(buf.len());
        Ok(buf.len())
    }

    fn faults(&self) -> u64 {
        0
    }
}

/// The hub of two clients that send these bytes. None where there is no memory.
fn hub<'a>(alloc: Global, first: &'a [u8], second: &'a [u8]) -> Option<MemoryHub<'a>> {
    let mut clients = Vec::new(alloc);
    clients.push(Client::new(alloc, first)).ok()?;
    clients.push(Client::new(alloc, second)).ok()?;
    Some(MemoryHub::new(clients, 4096))
}

/// Both clients connect.
const BOTH: &[u8] = b"client 1\nclient 2\n";

/// Whether the two took these bytes.
fn have_taken(hub: &MemoryHub, first: &[u8], second: &[u8]) -> bool {
    match hub.clients.as_slice() {
        [one, other] => one.taken.as_slice() == first && other.taken.as_slice() == second,
        _ => false,
    }
}

/// Whether two clients that send a sync each are given their own answers in three turns.
fn answers_each(alloc: Global) -> bool {
    let side = Endless { reads: 0, asked: 0 };
    let Some(hub) = hub(alloc, SYNC, OTHER_SYNC) else {
        return false;
    };
    match reports(alloc, hub, side, 3, BOTH) {
        Some(service) => have_taken(&service.hub, ANSWER, OTHER_ANSWER),
        None => false,
    }
}

#[test]
fn each_gets_its_own_answer(rt: HostRuntime) {
    assert!(rt; answers_each(rt.alloc()));
}

/// Whether the file of a pool is read twice in three turns, up to the end of its store.
fn reads_twice(alloc: Global) -> bool {
    let side = Endless { reads: 0, asked: 0 };
    let Some(hub) = hub(alloc, b"", POOL) else {
        return false;
    };
    match reports(alloc, hub, side, 3, BOTH) {
        Some(service) => service.side.reads == 2 && service.side.asked == 5000,
        None => false,
    }
}

#[test]
fn a_file_is_read_up_to_the_end_of_its_store(rt: HostRuntime) {
    assert!(rt; reads_twice(rt.alloc()));
}
