//! Faults of the streams and of memory, at each call in turn.

use crate::replay::support::play;
use std::alloc::Global;
use test_support::{FaultyReader, FaultyWriter, Refusing};
use wl_replay::{ReplayError, Summary};

const RECORDING: &[u8] = b"connect\nbytes 1 01000000 00000c00 02000000\ntick 0\ngone 1\n";

const REPORT: &[u8] =
    b"client 1\nto 1 0200000000000c00000000000100000001000c0002000000\nframe 0 0\nend 1 gone\n";

const SUMMARY: Summary = Summary {
    lines: 4,
    frames: 1,
    clients: 1,
};

/// How much of the report tells of the whole lines among these bytes of the recording.
fn told(read: &[u8]) -> usize {
    let lines = read.iter().filter(|b| **b == b'\n').count();
    match lines {
        0 => 0,
        1 => 9,
        2 => 63,
        3 => 73,
        _ => REPORT.len(),
    }
}

/// What fails once.
#[derive(Clone, Copy)]
enum Failing {
    Read,
    Write,
    /// A write of an image.
    Image,
    Allocation,
}

/// What became of a run.
#[derive(Drop)]
enum Outcome {
    /// Nothing failed, and the report is whole.
    Whole,
    /// Something failed, and the run ended as it should.
    Failed,
    Wrong,
}

fn judged_whole(played: Result<Summary, ReplayError>, report: &[u8]) -> Outcome {
    if played == Ok(SUMMARY) && report == REPORT {
        Outcome::Whole
    } else {
        Outcome::Wrong
    }
}

fn judged_failed(is_as_wanted: bool) -> Outcome {
    if is_as_wanted {
        Outcome::Failed
    } else {
        Outcome::Wrong
    }
}

/// Whether so many bytes of the recording were left unread, and the report tells of the lines
/// before them.
fn is_told(left: usize, report: &[u8]) -> bool {
    let read = RECORDING.len().saturating_sub(left);
    let end = told(&RECORDING[..read]).min(REPORT.len());
    report == &REPORT[..end]
}

fn run_with_a_read(alloc: Global, call: u64) -> Outcome {
    let mut reader = FaultyReader::new(RECORDING).byte_by_byte().failing_at(call);
    let mut written = Vec::new(alloc);
    let mut none = None::<Vec<u8>>;
    let played = play(alloc, &mut reader, &mut written, &mut none);
    if !reader.has_failed() {
        return judged_whole(played, written.as_slice());
    }
    judged_failed(
        played == Err(ReplayError::Read) && is_told(reader.rest.len(), written.as_slice()),
    )
}

fn run_with_a_write(alloc: Global, call: u64) -> Outcome {
    let mut writer = FaultyWriter::new(alloc).byte_by_byte().failing_at(call);
    let mut ppm = Some(Vec::new(alloc));
    let played = play(alloc, &mut &*RECORDING, &mut writer, &mut ppm);
    if !writer.has_failed() {
        return judged_whole(played, writer.written.as_slice());
    }
    judged_failed(played == Err(ReplayError::Write))
}

fn run_with_an_image(alloc: Global, call: u64) -> Outcome {
    let mut written = Vec::new(alloc);
    let mut ppm = Some(FaultyWriter::new(alloc).byte_by_byte().failing_at(call));
    let played = play(alloc, &mut &*RECORDING, &mut written, &mut ppm);
    let has_failed = match &ppm {
        Some(writer) => writer.has_failed(),
        None => false,
    };
    if !has_failed {
        return judged_whole(played, written.as_slice());
    }
    judged_failed(played == Err(ReplayError::Write))
}

fn run_with_memory(alloc: Global, served: u64) -> Outcome {
    let heap = Refusing::new(alloc, served);
    let mut written = Vec::new(alloc);
    let mut none = None::<Vec<u8>>;
    let played = play(&heap, &mut &*RECORDING, &mut written, &mut none);
    if !heap.refused() {
        return judged_whole(played, written.as_slice());
    }
    judged_failed(
        played == Err(ReplayError::Memory)
            || played == Ok(SUMMARY) && ends_for_memory(written.as_slice()),
    )
}

/// Whether the report tells that client 1 ended as out of memory.
fn ends_for_memory(report: &[u8]) -> bool {
    report
        .windows(12)
        .any(|part| part == b"end 1 memory".as_slice())
}

/// A run in which the call of this number fails, from 0.
fn run(alloc: Global, failing: Failing, call: u64) -> Outcome {
    match failing {
        Failing::Read => run_with_a_read(alloc, call),
        Failing::Write => run_with_a_write(alloc, call),
        Failing::Image => run_with_an_image(alloc, call),
        Failing::Allocation => run_with_memory(alloc, call),
    }
}

/// The calls of which one fails, each in a run of its own.
const CALLS: u64 = 1000;

/// The call whose failing isn't answered as wanted; `CALLS` where a call failed in each run.
fn first_missed(alloc: Global, failing: Failing) -> Option<u64> {
    for call in 0..CALLS {
        match run(alloc, failing, call) {
            Outcome::Whole => return None,
            Outcome::Failed => {}
            Outcome::Wrong => return Some(call),
        }
    }
    Some(CALLS)
}

#[test]
fn each_read_fails_in_turn(rt: HostRuntime) {
    assert_eq!(rt; first_missed(rt.alloc(), Failing::Read), None);
}

#[test]
fn each_write_fails_in_turn(rt: HostRuntime) {
    assert_eq!(rt; first_missed(rt.alloc(), Failing::Write), None);
}

#[test]
fn each_write_of_an_image_fails_in_turn(rt: HostRuntime) {
    assert_eq!(rt; first_missed(rt.alloc(), Failing::Image), None);
}

#[test]
fn each_allocation_is_refused_in_turn(rt: HostRuntime) {
    assert_eq!(rt; first_missed(rt.alloc(), Failing::Allocation), None);
}
