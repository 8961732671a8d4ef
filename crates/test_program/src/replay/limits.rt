//! The limits of recordings.

use crate::replay::support::played;
use std::alloc::Global;
use wl_replay::{LINE_LIMIT, MAX_LINES, ReplayError, Summary};

/// So many bytes that are alike, and a line feed behind them where it is asked for. None where
/// there is no memory for them.
fn alike(alloc: Global, byte: u8, count: usize, is_ended: bool) -> Option<Vec<u8>> {
    let mut recording = vec![in alloc; byte; count].ok()?;
    if is_ended {
        recording.push(b'\n').ok()?;
    }
    Some(recording)
}

/// How a recording of such bytes is played. None where there is no memory for it.
fn played_alike(
    alloc: Global,
    byte: u8,
    count: usize,
    is_ended: bool,
) -> Option<Result<Summary, ReplayError>> {
    let recording = alike(alloc, byte, count, is_ended)?;
    let (played, _) = played(alloc, recording.as_slice());
    Some(played)
}

const ONE_LINE: Summary = Summary {
    lines: 1,
    frames: 0,
    clients: 0,
};

/// Whether a line of so many bytes is played like this, with and without its line feed.
fn is_line_played(alloc: Global, length: usize, wanted: Result<Summary, ReplayError>) -> bool {
    played_alike(alloc, b'#', length, false) == Some(wanted)
        && played_alike(alloc, b'#', length, true) == Some(wanted)
}

#[test]
fn lines_have_a_greatest_length(rt: HostRuntime) {
    let longer = Err(ReplayError::BadLine(1));
    assert!(rt; is_line_played(rt.alloc(), LINE_LIMIT, Ok(ONE_LINE)));
    assert!(rt; is_line_played(rt.alloc(), LINE_LIMIT + 1, longer));
}

const EMPTY_LINES: Summary = Summary {
    lines: 1_000_000,
    frames: 0,
    clients: 0,
};

/// How so many empty lines are played.
fn played_empty(alloc: Global, lines: u32) -> Option<Result<Summary, ReplayError>> {
    played_alike(alloc, b'\n', lines as usize, false)
}

#[test]
fn recordings_have_a_greatest_number_of_lines(rt: HostRuntime) {
    let most = played_empty(rt.alloc(), MAX_LINES);
    assert_eq!(rt; most, Some(Ok(EMPTY_LINES)));
    let more = played_empty(rt.alloc(), MAX_LINES + 1);
    assert_eq!(rt; more, Some(Err(ReplayError::BadLine(1_000_001))));
}

/// 32 clients, one more, and one in the place of the fifth.
fn clients(alloc: Global) -> Option<Vec<u8>> {
    let mut recording = Vec::new(alloc);
    for _ in 0..32 {
        recording.extend_from_slice(b"connect\n").ok()?;
    }
    recording
        .extend_from_slice(b"connect\ngone 5\nconnect\n")
        .ok()?;
    Some(recording)
}

/// What is told of them.
fn clients_told(alloc: Global) -> Option<Vec<u8>> {
    let mut report = Vec::new(alloc);
    for client in 1..33_u32 {
        let line = format!(in alloc; "client {client}\n").ok()?;
        report.extend_from_slice(line.as_bytes()).ok()?;
    }
    report
        .extend_from_slice(b"full\nend 5 gone\nclient 5\n")
        .ok()?;
    Some(report)
}

const CLIENTS: Summary = Summary {
    lines: 35,
    frames: 0,
    clients: 33,
};

/// Whether they are played and told of like this. None where there is no memory for it.
fn takes_32(alloc: Global) -> Option<bool> {
    let recording = clients(alloc)?;
    let report = clients_told(alloc)?;
    let (played, written) = played(alloc, recording.as_slice());
    Some(played == Ok(CLIENTS) && written.as_slice() == report.as_slice())
}

#[test]
fn numbers_are_taken_up_to_32(rt: HostRuntime) {
    assert_eq!(rt; takes_32(rt.alloc()), Some(true));
}
