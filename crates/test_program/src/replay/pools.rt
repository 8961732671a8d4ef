//! Store writes and side files, with a client that has a pool of 12,800 bytes.

use crate::replay::support::{OneFile, play_with, played};
use std::alloc::Global;
use wl_replay::{Config, ReplayError, Rgb, SideFiles, Summary, replay};

/// get_registry(2), and binds of wl_compositor as 3, wl_shm as 4 and xdg_wm_base as 5; then
/// create_pool(9, 12800), and two buffers of 40 by 40.
const POOL: &[u8] = b"connect
bytes 1 01000000 01000c00 02000000
bytes 1 02000000 00002800 01000000 0e000000 776c5f636f6d706f7369746f72000000 02000000 03000000
bytes 1 02000000 00002000 03000000 07000000 776c5f73686d0000 01000000 04000000
bytes 1 02000000 00002400 06000000 0c000000 7864675f776d5f6261736500 01000000 05000000
bytes 1 04000000 00001000 09000000 00320000
bytes 1 09000000 00002000 0a000000 00000000 28000000 28000000 a0000000 01000000
bytes 1 09000000 00002000 0b000000 00190000 28000000 28000000 a0000000 01000000
";

/// How many lines that is.
const POOL_LINES: u32 = 8;

/// The lines of the pool, and these. None where there is no memory for them.
fn after_pool(alloc: Global, lines: &[u8]) -> Option<Vec<u8>> {
    let mut recording = Vec::new(alloc);
    recording.extend_from_slice(POOL).ok()?;
    recording.extend_from_slice(lines).ok()?;
    Some(recording)
}

/// How lines are played after those of the pool. None where something else is reported of them.
fn plays<S: SideFiles>(
    alloc: Global,
    lines: &[u8],
    side: &mut S,
    report: &[u8],
) -> Option<Result<Summary, ReplayError>> {
    let (_, before) = played(alloc, POOL);
    let recording = after_pool(alloc, lines)?;
    let mut reader = recording.as_slice();
    let mut written = Vec::new(alloc);
    let played = play_with(alloc, &mut reader, &mut written, side);
    let own = written.as_slice().strip_prefix(before.as_slice())?;
    if own == report { Some(played) } else { None }
}

/// Whether a line is played after those of the pool, and this is reported of it.
fn is_told(alloc: Global, line: &str, side: &mut OneFile, report: &str) -> bool {
    match plays(alloc, line.as_bytes(), side, report.as_bytes()) {
        Some(played) => played.is_ok(),
        None => false,
    }
}

/// A line, and its report.
const WRITES: &[(&str, &str)] = &[
    ("store 1 1 12799 00\n", ""),
    ("store 1 1 12800 00\n", "outside 1 1\n"),
    ("store 1 1 12799 0000\n", "outside 1 1\n"),
    ("store 1 1 4294967295 00\n", "outside 1 1\n"),
    ("store 1 1 4294967295 0000\n", "outside 1 1\n"),
    ("store 1 2 0 00\n", "nostore 1 2\n"),
    ("store 1 0 0 00\n", "nostore 1 0\n"),
    ("store 2 1 0 00\n", "none 2\n"),
];

/// The place of the first line that isn't played, or has another report.
fn first_missed_write(alloc: Global, lines: &[(&str, &str)]) -> Option<usize> {
    for (place, &(line, report)) in lines.iter().enumerate() {
        let mut side = OneFile::new("a", b"");
        if !is_told(alloc, line, &mut side, report) {
            return Some(place);
        }
    }
    None
}

#[test]
fn writes_within_a_store_and_not_outside(rt: HostRuntime) {
    assert_eq!(rt; first_missed_write(rt.alloc(), WRITES), None);
}

/// A line, its report, and how often the file is opened and read, with how many bytes asked and
/// given.
type Line<'a> = (&'a str, &'a str, [u64; 4]);

const FILES: &[Line] = &[
    ("file 1 1 0 a\n", "", [1, 4, 12_800, 12_800]),
    ("file 1 1 4096 a\n", "", [1, 3, 8_704, 8_704]),
    ("file 1 1 12799 a\n", "", [1, 1, 1, 1]),
    ("file 1 1 12800 a\n", "", [1, 0, 0, 0]),
    ("file 1 1 12801 a\n", "outside 1 1\n", [0, 0, 0, 0]),
    ("file 1 1 4294967295 a\n", "outside 1 1\n", [0, 0, 0, 0]),
    ("file 1 2 0 a\n", "nostore 1 2\n", [0, 0, 0, 0]),
    ("file 2 1 0 a\n", "none 2\n", [0, 0, 0, 0]),
];

/// Whether a line is played after those of the pool with a file of these bytes beside it, and all
/// is as wanted.
fn is_read(alloc: Global, bytes: &[u8], line: &Line) -> bool {
    let mut side = OneFile::new("a", bytes);
    is_told(alloc, line.0, &mut side, line.1)
        && [side.opens, side.reads, side.asked, side.given] == line.2
}

/// The place of the first line that isn't as wanted with a file of 12,801 bytes beside it.
/// `Some(None)` where all are, and None where there is no memory for the file.
fn first_missed_file(alloc: Global, lines: &[Line]) -> Option<Option<usize>> {
    let bytes = vec![in alloc; 7u8; 12_801].ok()?;
    for (place, line) in lines.iter().enumerate() {
        if !is_read(alloc, bytes.as_slice(), line) {
            return Some(Some(place));
        }
    }
    Some(None)
}

#[test]
fn files_come_into_a_store(rt: HostRuntime) {
    assert_eq!(rt; first_missed_file(rt.alloc(), FILES), Some(None));
}

/// create_surface(6), get_xdg_surface(7, 6), get_toplevel(8), a commit and its ack_configure(1).
/// Then the buffer 12 of 40 by 80 pixels, which is all of the pool, and the file. Last the buffer
/// is attached and committed, with all of it damaged.
const SHOWS: &[u8] = b"bytes 1 03000000 00000c00 06000000
bytes 1 05000000 02001000 07000000 06000000
bytes 1 07000000 01000c00 08000000
bytes 1 06000000 06000800
bytes 1 07000000 04000c00 01000000
bytes 1 09000000 00002000 0c000000 00000000 28000000 50000000 a0000000 01000000
file 1 1 0 a
bytes 1 06000000 01001400 0c000000 00000000 00000000
bytes 1 06000000 02001800 00000000 00000000 28000000 50000000
bytes 1 06000000 06000800
tick 0
";

/// As large as the buffer.
const TALL: Config = Config {
    width: 40,
    height: 80,
    background: Rgb { r: 0, g: 0, b: 0 },
};

/// The byte of a file at a place. Those of 251 bytes differ, so that no part of it is taken for
/// another.
fn byte_at(place: usize) -> u8 {
    (place % 251) as u8
}

fn patterned(alloc: Global, count: usize) -> Option<Vec<u8>> {
    let mut bytes = Vec::new(alloc);
    for place in 0..count {
        bytes.push(byte_at(place)).ok()?;
    }
    Some(bytes)
}

/// The image of the buffer once the file came into its store. None where the recording isn't played
/// to its end.
fn image_with(alloc: Global, file: &[u8]) -> Option<Vec<u8>> {
    let recording = after_pool(alloc, SHOWS)?;
    let mut reader = recording.as_slice();
    let mut report = Vec::new(alloc);
    let mut images = Some(Vec::new(alloc));
    let mut side = OneFile::new("a", file);
    let played = replay(
        alloc,
        TALL,
        &mut reader,
        &mut report,
        &mut images,
        &mut side,
    );
    if played.is_ok() { images } else { None }
}

/// Whether each of the 3,200 points has the bytes of the file at its place: blue, green and red,
/// and one that isn't shown.
fn shows_pattern(image: &[u8]) -> bool {
    let Some(colors) = image.strip_prefix(b"P6\n40 80\n255\n".as_slice()) else {
        return false;
    };
    for (point, color) in colors.chunks_exact(3).enumerate() {
        let at = point.saturating_mul(4);
        let red = byte_at(at.saturating_add(2));
        let green = byte_at(at.saturating_add(1));
        if color != [red, green, byte_at(at)].as_slice() {
            return false;
        }
    }
    colors.len() == 9_600
}

/// Whether all bytes of a file that is one byte too long are shown but the last. None where there
/// is no image.
fn is_shown_whole(alloc: Global) -> Option<bool> {
    let file = patterned(alloc, 12_801)?;
    let image = image_with(alloc, file.as_slice())?;
    Some(shows_pattern(image.as_slice()))
}

#[test]
fn files_are_shown_as_they_are(rt: HostRuntime) {
    assert_eq!(rt; is_shown_whole(rt.alloc()), Some(true));
}

#[test]
fn short_files_end_by_themselves(rt: HostRuntime) {
    // The first read gives five bytes, and the second, of what is left, none.
    let line = ("file 1 1 12000 a\n", "", [1, 2, 1_595, 5]);
    assert!(rt; is_read(rt.alloc(), b"three", &line));
}

/// How lines are played of which the second names a file that isn't there. None where more is
/// reported than of the line before it.
fn plays_missing(alloc: Global) -> Option<Result<Summary, ReplayError>> {
    let lines = b"store 1 2 0 00\nfile 1 1 0 b\ngone 1\n";
    let mut side = OneFile::new("a", b"bytes");
    plays(alloc, lines, &mut side, b"nostore 1 2\n")
}

#[test]
fn a_missing_file_stops_the_replay(rt: HostRuntime) {
    let wanted = Some(Err(ReplayError::Side(POOL_LINES + 2)));
    assert_eq!(rt; plays_missing(rt.alloc()), wanted);
}

/// Five reads in all: three that give something and the file's end, and the one of a full store.
const FIVE_READS: &[u8] = b"store 1 2 0 00\nfile 1 1 0 a\nfile 1 1 12799 a\ngone 1\n";

/// Whether the read of this number fails, the line of its file is named, and no more is reported
/// than of the lines before the first file.
fn fails_at(alloc: Global, bytes: &[u8], read: u64) -> bool {
    let mut side = OneFile::new("a", bytes).failing_at(read);
    let line = POOL_LINES + if read < 4 { 2 } else { 3 };
    let played = plays(alloc, FIVE_READS, &mut side, b"nostore 1 2\n");
    side.has_failed() && played == Some(Err(ReplayError::Side(line)))
}

/// Whether there is no sixth read, and the lines are played to their end.
fn plays_without_a_fault(alloc: Global, bytes: &[u8]) -> bool {
    let mut side = OneFile::new("a", bytes).failing_at(5);
    let played = plays(alloc, FIVE_READS, &mut side, b"nostore 1 2\nend 1 gone\n");
    match played {
        Some(Ok(_)) => !side.has_failed(),
        _ => false,
    }
}

/// The first of the reads whose failing isn't told of, or 5 where all five are and a run without a
/// fault isn't as wanted. `Some(None)` where all is as wanted, and None where there is no memory
/// for the file.
fn first_missed_read(alloc: Global) -> Option<Option<u64>> {
    let bytes = vec![in alloc; 7u8; 9_000].ok()?;
    for read in 0..5_u64 {
        if !fails_at(alloc, bytes.as_slice(), read) {
            return Some(Some(read));
        }
    }
    if plays_without_a_fault(alloc, bytes.as_slice()) {
        Some(None)
    } else {
        Some(Some(5))
    }
}

#[test]
fn each_read_of_a_file_fails_in_turn(rt: HostRuntime) {
    assert_eq!(rt; first_missed_read(rt.alloc()), Some(None));
}
