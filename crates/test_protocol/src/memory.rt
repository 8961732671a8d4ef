//! Each allocation refused in turn, alone: what is put, encoded or inserted is as it was then, and
//! once there is memory the same call succeeds.

use crate::objects::{IN_ANY_ORDER, has, inserts, surface};
use crate::words::ARGS;
use std::alloc::{Allocator, Global};
use test_support::Refusing;
use wl_proto::{Event, EventBody, WlRegistryEvent, encode};
use wl_table::{Objects, TableError};
use wl_wire::{PutError, put};

/// More allocations than any of these takes.
const MANY: u64 = 100;

/// What is appended to bytes that have been put before.
#[derive(Clone, Copy)]
enum Written {
    /// A message with an argument of each kind.
    Message,
    /// An event that tells of a global.
    Event,
}

const GLOBAL: Event = Event {
    object: 2,
    body: EventBody::WlRegistry(WlRegistryEvent::Global {
        name: 1,
        interface: b"wl_compositor",
        version: 2,
    }),
};

fn write<A: Allocator>(out: &mut Vec<u8, A>, written: Written) -> Result<(), PutError> {
    match written {
        Written::Message => put(out, 3, 2, ARGS),
        Written::Event => encode(&GLOBAL, out),
    }
}

/// Writes four times, and again where that is refused memory. How often it was, or None where
/// something else is answered or left.
fn writes<A: Allocator>(out: &mut Vec<u8, A>, written: Written, wanted: &[u8]) -> Option<u32> {
    let mut refused = 0u32;
    for _ in 0..4u32 {
        let before = out.len();
        if let Err(error) = write(out, written) {
            refused = refused.saturating_add(1);
            if error != PutError::Memory || out.len() != before || write(out, written).is_err() {
                return None;
            }
        }
        if !wanted.starts_with(out.as_slice()) {
            return None;
        }
    }
    if out.as_slice() == wanted {
        Some(refused)
    } else {
        None
    }
}

/// Whether it is so with one allocation refused, and whether one was.
fn writes_with(alloc: Global, served: u64, written: Written, wanted: &[u8]) -> Option<bool> {
    let heap = Refusing::once(alloc, served);
    let mut out = Vec::new(&heap);
    let refused = writes(&mut out, written, wanted)?;
    if refused == u32::from(heap.refused()) {
        Some(heap.refused())
    } else {
        None
    }
}

/// How many allocations were refused, one in each of as many runs. None where something was
/// otherwise.
fn refused_of(alloc: Global, written: Written) -> Option<u64> {
    let mut wanted = Vec::new(alloc);
    for _ in 0..4u32 {
        write(&mut wanted, written).ok()?;
    }
    for served in 0..MANY {
        if !writes_with(alloc, served, written, &wanted)? {
            return Some(served);
        }
    }
    None
}

#[test]
fn what_finds_no_memory_is_not_put(rt: HostRuntime) {
    match refused_of(rt.alloc(), Written::Message) {
        Some(refused) => assert!(rt; refused > 1, "{refused}"),
        None => assert!(rt; false, "otherwise than wanted"),
    }
}

#[test]
fn what_finds_no_memory_is_not_encoded(rt: HostRuntime) {
    match refused_of(rt.alloc(), Written::Event) {
        Some(refused) => assert!(rt; refused > 1, "{refused}"),
        None => assert!(rt; false, "otherwise than wanted"),
    }
}

/// Whether the objects with the first so many of these ids are there, and no others.
fn has_first<A: Allocator>(objects: &Objects<A>, ids: &[u32], count: usize) -> bool {
    for (place, &id) in ids.iter().enumerate() {
        if has(objects, id, id as usize) != (place < count) {
            return false;
        }
    }
    objects.len() == count
}

/// Inserts an object, and again where that is refused memory. Whether it was, or None where
/// something else is answered or left.
fn inserts_at<A: Allocator + Copy>(
    objects: &mut Objects<A>,
    ids: &[u32],
    place: usize,
) -> Option<bool> {
    let id = ids.get(place).copied()?;
    match objects.insert(id, surface(id)) {
        Ok(()) => Some(false),
        Err(TableError::Memory) if has_first(objects, ids, place) && inserts(objects, id) => {
            Some(true)
        }
        Err(_) => None,
    }
}

fn inserts_all<A: Allocator + Copy>(objects: &mut Objects<A>, ids: &[u32]) -> Option<u32> {
    let mut refused = 0u32;
    for place in 0..ids.len() {
        refused = refused.saturating_add(u32::from(inserts_at(objects, ids, place)?));
    }
    if has_first(objects, ids, ids.len()) {
        Some(refused)
    } else {
        None
    }
}

fn inserts_with(alloc: Global, served: u64, ids: &[u32]) -> Option<bool> {
    let heap = Refusing::once(alloc, served);
    let mut objects = Objects::new(&heap);
    let refused = inserts_all(&mut objects, ids)?;
    if refused == u32::from(heap.refused()) {
        Some(heap.refused())
    } else {
        None
    }
}

/// How many allocations were refused, one in each of as many tables. None where something was
/// otherwise.
fn refused_of_objects(alloc: Global, ids: &[u32]) -> Option<u64> {
    for served in 0..MANY {
        if !inserts_with(alloc, served, ids)? {
            return Some(served);
        }
    }
    None
}

#[test]
fn an_object_that_finds_no_memory_is_not_held(rt: HostRuntime) {
    match refused_of_objects(rt.alloc(), IN_ANY_ORDER) {
        Some(refused) => assert!(rt; refused > 2, "{refused}"),
        None => assert!(rt; false, "otherwise than wanted"),
    }
}
