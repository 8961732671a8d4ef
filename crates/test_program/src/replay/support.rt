//! What the tests share.

ghost use Rattle.std.specs.Prelude.{◌≡◌, ◌++◌, true};
ghost use Rattle.wl_session.specs.Frame.{is_side};

use std::alloc::{Allocator, Global};
use std::io::{BufRead, Write};
use wl_replay::{ReplayError, SideFault, SideFiles, Summary, replay};
use wl_session::{Config, Rgb};

/// No side files.
#[derive(Drop)]
pub(crate) struct NoFiles;

impl SideFiles for NoFiles {
    ghost fault_count = { λ _. 0 };

    ghost gives = { λ _ _ _. Unit {0} };

    ghost opens = { λ _ _ _ _ _. Unit {0} };

    fn open(&mut self, _name: &str, _from: u32) -> Result<bool, SideFault> {
        Ok(false)
    }

    fn read(&mut self, _buf: &mut [u8]) -> Result<usize, SideFault> {
        Ok(0)
    }

    fn faults(&self) -> u64 {
        0
    }
}

/// One file in memory. It counts what is asked of it, and a read may fail.
#[derive(Drop)]
pub(crate) struct OneFile<'a> {
    name: &'a str,
    bytes: &'a [u8],
    rest: &'a [u8],
    fails_at: u64,
    pub(crate) opens: u64,
    pub(crate) reads: u64,
    pub(crate) asked: u64,
    pub(crate) given: u64,
    faults: u64,
}

impl<'a> OneFile<'a> {
    pub(crate) fn new(name: &'a str, bytes: &'a [u8]) -> OneFile<'a> {
        OneFile {
            name,
            bytes,
            rest: &[],
            fails_at: u64::MAX,
            opens: 0,
            reads: 0,
            asked: 0,
            given: 0,
            faults: 0,
        }
    }

    /// The read of this number, from 0, fails.
    pub(crate) fn failing_at(self, read: u64) -> OneFile<'a> {
        OneFile {
            fails_at: read,
            ..self
        }
    }

    pub(crate) fn has_failed(&self) -> bool {
        self.faults > 0
    }
}

impl SideFiles for OneFile<'_> {
    ghost fault_count = { λ side. side.faults };

    ghost gives = { λ old bytes new. old.rest.now ≡ bytes ++ new.rest.now };

    ghost opens = { λ old name from there new. from ≡ 0 → there ≡ true → new.rest.now ≡ old.bytes.now };

    /// Of a file that isn't read from its start on nothing is given.
    fn open(&mut self, name: &str, from: u32) -> Result<bool, SideFault> {
        self.opens = self.opens.saturating_add(1);
        self.rest = &[];
        if name != self.name {
            return Ok(false);
        }
        if from == 0 {
            self.rest = self.bytes;
        }
        Ok(true)
    }

    fn read(&mut self, buf: &mut [u8]) -> Result<usize, SideFault> {
        if self.reads == self.fails_at {
            self.faults = self.faults.saturating_add(1);
            return Err(SideFault);
        }
        self.reads = self.reads.saturating_add(1);
        self.asked = self.asked.saturating_add(buf.len() as u64);
        let count = buf.len().min(self.rest.len());
        let (front, rest) = self.rest.split_at(count);
        buf[..count].copy_from_slice(front);
        self.rest = rest;
        self.given = self.given.saturating_add(count as u64);
        Ok(count)
    }

    fn faults(&self) -> u64 {
        self.faults
    }
}

/// An output of 2 by 1 black pixels.
pub(crate) const SMALL: Config = Config {
    width: 2,
    height: 1,
    background: Rgb { r: 0, g: 0, b: 0 },
};

/// An output of 64 by 64 black pixels.
pub(crate) const SQUARE: Config = Config {
    width: 64,
    height: 64,
    background: Rgb { r: 0, g: 0, b: 0 },
};

/// Plays a recording on the small output.
pub(crate) fn play<A: Allocator + Copy, R: BufRead, W: Write, P: Write>(
    alloc: A,
    reader: &mut R,
    writer: &mut W,
    ppm: &mut Option<P>,
) -> Result<Summary, ReplayError> {
    replay(alloc, SMALL, reader, writer, ppm, &mut NoFiles)
}

/// Plays a recording with side files, and without images.
pub(crate) fn play_with<A: Allocator + Copy, R: BufRead, W: Write, S: SideFiles>(
    alloc: A,
    reader: &mut R,
    writer: &mut W,
    side: &mut S,
) -> Result<Summary, ReplayError> {
    let mut none = None::<Vec<u8>>;
    replay(alloc, SMALL, reader, writer, &mut none, side)
}

/// How a recording is played on the small output without side files and images, and its report.
pub(crate) fn played(alloc: Global, recording: &[u8]) -> (Result<Summary, ReplayError>, Vec<u8>) {
    played_on(alloc, SMALL, recording)
}

/// The same on any output.
fn played_on(
    alloc: Global,
    config: Config,
    recording: &[u8],
) -> (Result<Summary, ReplayError>, Vec<u8>)
    requires width { is_side config.width ≡ true }
    requires height { is_side config.height ≡ true }
{
    let mut reader = recording;
    let mut written = Vec::new(alloc);
    let mut none = None::<Vec<u8>>;
    let played = replay(
        alloc,
        config,
        &mut reader,
        &mut written,
        &mut none,
        &mut NoFiles,
    );
    (played, written)
}

/// Whether lines behind those of a beginning are played to their end, and this is reported of them.
fn is_reported(alloc: Global, config: Config, beginning: &[u8], lines: &[u8], report: &[u8]) -> bool
    requires width { is_side config.width ≡ true }
    requires height { is_side config.height ≡ true }
{
    let (_, before) = played_on(alloc, config, beginning);
    let mut recording = Vec::new(alloc);
    if recording.extend_from_slice(beginning).is_err()
        || recording.extend_from_slice(lines).is_err()
    {
        return false;
    }
    let (played, written) = played_on(alloc, config, recording.as_slice());
    match written.as_slice().strip_prefix(before.as_slice()) {
        Some(own) => played.is_ok() && own == report,
        None => false,
    }
}

/// The place of the first lines behind those of a beginning that aren't played to their end, or
/// have another report.
pub(crate) fn first_missed(
    alloc: Global,
    config: Config,
    beginning: &[u8],
    rows: &[(&[u8], &[u8])],
) -> Option<usize>
    requires width { is_side config.width ≡ true }
    requires height { is_side config.height ≡ true }
{
    for (place, &(lines, report)) in rows.iter().enumerate() {
        if !is_reported(alloc, config, beginning, lines, report) {
            return Some(place);
        }
    }
    None
}
