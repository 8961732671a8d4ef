//! Side files, and the lines that name them.

use crate::replay::support::{OneFile, play_with, played};
use std::alloc::Global;
use wl_replay::ReplayError;

/// Whether a recording is played to its end with this report, and no file is opened.
fn opens_none(alloc: Global, recording: &[u8], report: &[u8]) -> bool {
    let mut reader = recording;
    let mut written = Vec::new(alloc);
    let mut side = OneFile::new("a", b"bytes").failing_at(0);
    let played = play_with(alloc, &mut reader, &mut written, &mut side);
    played.is_ok() && side.opens == 0 && written.as_slice() == report
}

#[test]
fn no_file_is_opened_without_a_store(rt: HostRuntime) {
    let recording = b"connect\nfile 1 1 0 a\nfile 2 1 0 a\nfile 1 1 0 b\n";
    let report = b"client 1\nnostore 1 1\nnone 2\nnostore 1 1\n";
    assert!(rt; opens_none(rt.alloc(), recording, report));
}

/// A name of 64 bytes, and one of 65.
const LONGEST: &[u8] =
    b"file 1 1 0 abcdefghijklmnopqrstuvwxyzABCDEFGHIJKLMNOPQRSTUVWXYZ0123456789._\n";

const LONGER: &[u8] =
    b"file 1 1 0 abcdefghijklmnopqrstuvwxyzABCDEFGHIJKLMNOPQRSTUVWXYZ0123456789._-\n";

/// Whether the longest name is taken, and a longer one isn't.
fn takes_the_longest(alloc: Global) -> bool {
    let (longest, written) = played(alloc, LONGEST);
    let (longer, _) = played(alloc, LONGER);
    longest.is_ok()
        && written.as_slice() == b"none 1\n".as_slice()
        && longer == Err(ReplayError::BadLine(1))
}

#[test]
fn names_have_a_greatest_length(rt: HostRuntime) {
    assert!(rt; takes_the_longest(rt.alloc()));
}
