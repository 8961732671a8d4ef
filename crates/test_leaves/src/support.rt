//! The allocator that refuses, and the streams that fail: what the other tests rest on.

use std::alloc::{AllocError, Allocator, Global};
use std::io::{BufRead, Read, Write};
use test_support::{FaultyReader, FaultyWriter, Refusing};

// Pushes eight numbers, and makes a box: how many numbers there are.
fn fills<A: Allocator + Copy>(list: &mut Vec<u32, A>, alloc: A) -> Result<usize, AllocError> {
    for i in 0..8_u32 {
        list.push(i)?;
    }
    let seven = Box::new(alloc, 7_u8)?;
    let _ = Box::into_inner(seven);
    Ok(list.len())
}

// A list that grows to eight numbers, and a box.
fn work<A: Allocator + Copy>(alloc: A) -> Result<usize, AllocError> {
    match Vec::with_capacity(alloc, 1) {
        Ok(mut list) => fills(&mut list, alloc),
        Err(error) => Err(error),
    }
}

fn cannot_allocate<A: Allocator>(alloc: A) -> bool {
    let list: Result<Vec<u8, A>, AllocError> = Vec::with_capacity(alloc, 1);
    list.is_err()
}

// Whether the work was refused memory. None where that isn't answered so, or all after it isn't
// refused.
fn is_refused(alloc: Global, served: u64) -> Option<bool> {
    let heap = Refusing::new(alloc, served);
    let done = work(&heap);
    if !heap.refused() {
        return if done == Ok(8) { Some(false) } else { None };
    }
    if done == Err(AllocError) && heap.served() == served && cannot_allocate(&heap) {
        Some(true)
    } else {
        None
    }
}

// How many allocations the work takes: the first number of them with which it isn't refused.
fn taken(alloc: Global) -> Option<u64> {
    for served in 0..1000_u64 {
        if !is_refused(alloc, served)? {
            return Some(served);
        }
    }
    None
}

#[test]
fn refuses_all_after_those_it_serves(rt: HostRuntime) {
    match taken(rt.alloc()) {
        Some(served) => assert!(rt; served >= 3 && served < 20, "{served}"),
        None => assert!(rt; false),
    }
}

// Whether the work fails once and succeeds then. None where it isn't refused.
fn is_refused_once(alloc: Global, served: u64) -> Option<bool> {
    let heap = Refusing::once(alloc, served);
    let first = work(&heap);
    if heap.refused() {
        Some(first == Err(AllocError) && work(&heap) == Ok(8))
    } else {
        None
    }
}

#[test]
fn refuses_one_alone(rt: HostRuntime) {
    assert!(rt; is_refused_once(rt.alloc(), 0) == Some(true));
    assert!(rt; is_refused_once(rt.alloc(), 2) == Some(true));
    assert!(rt; is_refused_once(rt.alloc(), 1000).is_none());
}

fn is_read(reader: &mut FaultyReader, buf: &mut [u8], wanted: usize) -> bool {
    match reader.read(buf) {
        Ok(count) => count == wanted,
        Err(_) => false,
    }
}

// Whether the reader holds these bytes for its next read. None where it fails.
fn holds(reader: &mut FaultyReader, wanted: &[u8]) -> Option<bool> {
    match reader.fill_buf() {
        Ok(held) => Some(held == wanted),
        Err(_) => None,
    }
}

// The second call fails, and the third goes on from there.
fn reads_on(reader: &mut FaultyReader) -> bool {
    let mut buf = [0_u8; 3];
    let goes_on = is_read(reader, &mut buf, 1)
        && holds(reader, b"b").is_none()
        && reader.has_failed()
        && holds(reader, b"b") == Some(true);
    reader.consume(1);
    goes_on && is_read(reader, &mut buf, 1) && buf == [b'c', 0, 0] && is_read(reader, &mut buf, 0)
}

// How many bytes are taken. None where the writer fails.
fn taken_of<A: Allocator>(writer: &mut FaultyWriter<A>, bytes: &[u8]) -> Option<usize> {
    match writer.write(bytes) {
        Ok(count) => Some(count),
        Err(_) => None,
    }
}

fn writes_on<A: Allocator>(writer: &mut FaultyWriter<A>) -> bool {
    taken_of(writer, b"xyz") == Some(1)
        && taken_of(writer, b"yz").is_none()
        && writer.has_failed()
        && writer.write_all(b"yz").is_ok()
        && writer.written.as_slice() == b"xyz".as_slice()
}

#[test]
fn a_stream_fails_once_and_goes_on(rt: HostRuntime) {
    let mut reader = FaultyReader::new(b"abc").byte_by_byte().failing_at(1);
    assert!(rt; reads_on(&mut reader));
    let mut writer = FaultyWriter::new(rt.alloc()).byte_by_byte().failing_at(1);
    assert!(rt; writes_on(&mut writer));
}
