//! The reports of recordings, worked out from the protocol by hand.

use crate::replay::support::{play, played};
use std::alloc::Global;
use wl_replay::{ReplayError, Summary};

/// A recording and its report. The last line of each report has its line feed.
const REPORTS: &[(&[u8], &[u8])] = &[
    // One sync in one piece.
    (
        b"connect\nbytes 1 01000000 00000c00 02000000\ntick 0\n",
        b"client 1\nto 1 0200000000000c00000000000100000001000c0002000000\nframe 0 0\n",
    ),
    // The same in twelve pieces.
    (
        b"connect\nbytes 1 01\nbytes 1 00\nbytes 1 00\nbytes 1 00\nbytes 1 00\nbytes 1 00\nbytes 1 0c\nbytes 1 00\nbytes 1 02\nbytes 1 00\nbytes 1 00\nbytes 1 00\ntick 0\n",
        b"client 1\nto 1 0200000000000c00000000000100000001000c0002000000\nframe 0 0\n",
    ),
    // A header whose size is too small: invalid_method.
    (
        b"connect\nbytes 1 01000000 00000400\n",
        b"client 1\nto 1 010000000000240001000000010000000f000000696e76616c69645f6d6574686f640000\nend 1 protocol 1 1\n",
    ),
    // A sync whose new id is in use, and one whose new id is out of range: invalid_object.
    (
        b"connect\nbytes 1 01000000 00000c00 01000000\n",
        b"client 1\nto 1 010000000000240001000000000000000f000000696e76616c69645f6f626a6563740000\nend 1 protocol 1 0\n",
    ),
    (
        b"connect\nbytes 1 01000000 00000c00 000000ff\n",
        b"client 1\nto 1 010000000000240001000000000000000f000000696e76616c69645f6f626a6563740000\nend 1 protocol 1 0\n",
    ),
    // A client goes in the middle of a message; then nobody has its number.
    (
        b"connect\nbytes 1 01000000 0000\ngone 1\nbytes 1 00\ngone 1\n",
        b"client 1\nend 1 gone\nnone 1\nnone 1\n",
    ),
    // The lowest free number is taken, and numbers that no client can have are nobody's.
    (
        b"connect\nconnect\ngone 1\nconnect\ngone 0\ngone 4294967295\n",
        b"client 1\nclient 2\nend 1 gone\nclient 1\nnone 0\nnone 4294967295\n",
    ),
    // Words may have spaces round them, numbers leading zeros, and hex either case.
    (
        b"\n   \n# bytes\n#\n  connect  \n bytes   01 0100 0000 00000C00  fF000000 \ntick 0004294967295",
        b"client 1\nto 1 ff00000000000c00000000000100000001000c00ff000000\nframe 4294967295 0\n",
    ),
    // A client without stores, and numbers that no client has.
    (
        b"connect\nstore 1 1 0 00\nfile 1 4294967295 0 a\nstore 2 1 0 00\nfile 0 1 0 a\ngone 1\nstore 1 1 0 00\nfile 1 1 0 a\n",
        b"client 1\nnostore 1 1\nnostore 1 4294967295\nnone 2\nnone 0\nend 1 gone\nnone 1\nnone 1\n",
    ),
    (b"", b""),
];

/// Whether a recording is played to its end, and has this report.
fn is_reported(alloc: Global, recording: &[u8], report: &[u8]) -> bool {
    let (played, written) = played(alloc, recording);
    played.is_ok() && written.as_slice() == report
}

/// The place of the first recording that isn't played to its end, or has another report.
fn first_missed(alloc: Global, reports: &[(&[u8], &[u8])]) -> Option<usize> {
    for (place, &(recording, report)) in reports.iter().enumerate() {
        if !is_reported(alloc, recording, report) {
            return Some(place);
        }
    }
    None
}

#[test]
fn reports(rt: HostRuntime) {
    assert_eq!(rt; first_missed(rt.alloc(), REPORTS), None);
}

const TWO_FRAMES: Summary = Summary {
    lines: 2,
    frames: 2,
    clients: 0,
};

/// How two frames are played, with their report and images.
fn played_frames(alloc: Global) -> (Result<Summary, ReplayError>, Vec<u8>, Option<Vec<u8>>) {
    let mut reader = b"tick 0\ntick 1\n".as_slice();
    let mut written = Vec::new(alloc);
    let mut ppm = Some(Vec::new(alloc));
    let played = play(alloc, &mut reader, &mut written, &mut ppm);
    (played, written, ppm)
}

const IMAGES: &[u8] = b"P6\n2 1\n255\n\0\0\0\0\0\0P6\n2 1\n255\n\0\0\0\0\0\0";

/// Whether two frames are reported, and shown as two black images.
fn shows_two(alloc: Global) -> bool {
    let (played, written, ppm) = played_frames(alloc);
    match &ppm {
        Some(images) => {
            played == Ok(TWO_FRAMES)
                && written.as_slice() == b"frame 0 0\nframe 1 0\n".as_slice()
                && images.as_slice() == IMAGES
        }
        None => false,
    }
}

#[test]
fn images(rt: HostRuntime) {
    assert!(rt; shows_two(rt.alloc()));
}

const BAD_LINES: &[&str] = &[
    "tock 1",
    "connect 1",
    "Connect",
    "tick",
    "tick 1 2",
    "tick -1",
    "tick +1",
    "tick 4294967296",
    "tick 1x",
    "gone",
    "gone x",
    "bytes 1",
    "bytes 1 0",
    "bytes 1 0 0",
    "bytes 1 0g",
    "bytes x 00",
    " # comment",
    "tick\t1",
    "tick 1\r",
    "store 1 1 0",
    "store 1 1 00",
    "store 1 1 0 0",
    "store 1 1 0 00 0g",
    "store 1 1 -1 00",
    "store 1 1 4294967296 00",
    "store 1 4294967296 0 00",
    "store 4294967296 1 0 00",
    "store 1 1 x 00",
    "store 9 1 0 x",
    "file 1 1 0",
    "file 1 1 a",
    "file 1 1 0 a b",
    "file 1 1 4294967296 a",
    "file 1 1 +1 a",
    "file x 1 0 a",
    "file 9 1 0 .a",
    "file 1 1 0 ..",
    "file 1 1 0 .",
    "file 1 1 0 a/b",
    "file 1 1 0 a\0",
    "file 1 1 0 a:b",
    "file 1 1 0 @",
    "file 1 1 0 [",
    "file 1 1 0 `",
    "file 1 1 0 {",
    "file 1 1 0 \u{e4}",
    "file 1 1 0 abcdefghijklmnopqrstuvwxyzABCDEFGHIJKLMNOPQRSTUVWXYZ0123456789._-",
    "motion 0 0",
    "motion 0 0 0 0",
    "motion -1 0 0",
    "motion 4294967296 0 0",
    "motion 0 2147483648 0",
    "motion 0 0 -2147483649",
    "motion 0 +1 0",
    "motion 0 0 +1",
    "motion 0 0 -",
    "button 0 272",
    "button 0 272 1 1",
    "button 0 272 2",
    "button 0 272 -0",
    "button 0 -272 1",
    "button 0 4294967296 1",
    "button -1 272 1",
    "button 4294967296 272 1",
    "button 0 x 1",
];

/// Whether the line after that of a client is refused by its number, and no more is reported than
/// of the client.
fn is_refused(alloc: Global, line: &str) -> Option<bool> {
    let text = format!(in alloc; "connect\n{line}\ntick 0\n").ok()?;
    let (played, written) = played(alloc, text.as_bytes());
    Some(played == Err(ReplayError::BadLine(2)) && written.as_slice() == b"client 1\n".as_slice())
}

/// The place of the first line that isn't refused.
fn first_taken(alloc: Global, lines: &[&str]) -> Option<usize> {
    for (place, &line) in lines.iter().enumerate() {
        if is_refused(alloc, line) != Some(true) {
            return Some(place);
        }
    }
    None
}

#[test]
fn bad_lines(rt: HostRuntime) {
    assert_eq!(rt; first_taken(rt.alloc(), BAD_LINES), None);
}
