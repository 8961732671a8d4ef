//! The lines of a recording, read one at a time.

ghost use Rattle.std.specs.Prelude.{◌≡◌, ◌+◌, ◌-◌, ◌≤◌, ◌<◌, ◌++◌, All, List, ℕ, IfOk, OnOk, Ok, Err, true, false, length, take, vec_len};
ghost use Rattle.wl_recording.specs.Lines.{InLine, IsTaken, IsTooLong, TakesLine, ending_len, part_of};
ghost use Rattle.std.specs.Io.KnownBytes.{Consumes, IsAtEnd};

use std::alloc::{AllocError, Allocator};
use std::io::{BufRead, ErrorKind};
use thiserror::Error;

/// How many bytes a line may have, besides its line feed.
pub const LINE_LIMIT: usize = 140_000;

/// Why no line was read.
#[derive(Clone, Copy, Debug, PartialEq, Eq, Error)]
pub enum LineError {
    /// The reader failed.
    #[error("read failed")]
    Read,
    /// The line has more than 140,000 bytes.
    #[error("the line is too long")]
    TooLong,
    /// Memory ran out for the line.
    #[error("out of memory")]
    Memory,
}

/// What ends the bytes taken for a line.
#[derive(Clone, Copy, Debug, PartialEq, Eq)]
pub(crate) enum Part {
    /// Nothing yet.
    More,
    LineFeed,
    /// The end of the input.
    End,
}

/// Reads the next line into `line`, without its line feed. The last line may lack that. The answer
/// is false at the end.
///
/// # Errors
///
/// `Read` if the reader fails, `TooLong` if the line has more than 140,000 bytes, or `Memory`. A
/// part of the line may be taken then.
pub fn read_line<R: BufRead, A: Allocator>(
    reader: &mut R,
    line: &mut Vec<u8, A>,
) -> Result<bool, LineError>
    ensures taken { result ≡ Ok true → TakesLine (R.remaining reader.old) (R.remaining reader.new) line.new.items }
    ensures end { result ≡ Ok false → IsAtEnd (R.remaining reader.old) }
    ensures long { result ≡ Err LineError.TooLong → IsTooLong LINE_LIMIT (R.remaining reader.old) }
    ensures bound { OnOk result (length line.new.items ≤ LINE_LIMIT) }
{
    line.clear();
    for _ in 0..u64::MAX {
        let room = LINE_LIMIT + 1 - line.len();
        match take_part(reader, line, room)? {
            Part::LineFeed => return Ok(true),
            Part::End => return Ok(!line.is_empty()),
            Part::More => {
                if line.len() > LINE_LIMIT {
                    return Err(LineError::TooLong);
                }
            }
        }
    }
    Err(LineError::Read)
}

/// Takes at most `room` bytes that the reader has at hand, up to a line feed, and appends them
/// without it.
fn take_part<R: BufRead, A: Allocator>(
    reader: &mut R,
    line: &mut Vec<u8, A>,
    room: usize,
) -> Result<Part, LineError>
    requires { 1 ≤ room }
    ensures taken { IfOk result (λ part. (front : List ℕ) × (line.new.items ≡ line.old.items ++ front) × All InLine front
        × IsTaken part (R.remaining reader.old) (R.remaining reader.new) front) }
    ensures bound { IfOk result (λ part. vec_len line.new + ending_len part ≤ vec_len line.old + room) }
    ensures kind { result ≡ Err LineError.TooLong → ⊥ }
{
    let available = match reader.fill_buf() {
        Ok(available) => available,
        Err(error) => {
            return if error.kind() == ErrorKind::Interrupted {
                Ok(Part::More)
            } else {
                Err(LineError::Read)
            };
        }
    };
    let end = end_of(available, room);
    let part = part_of(&available[..end]);
    let kept = kept_of(part, end);
    append(line, &available[..kept])?;
    reader.consume(end);
    Ok(part)
}

/// How many bytes stand up to the first line feed, with it, or in all if there is none. The answer
/// is at most `room`.
fn end_of(bytes: &[u8], room: usize) -> usize
    requires { 1 ≤ room }
    ensures within { result ≤ length bytes.now }
    ensures room { result ≤ room }
    ensures some { 0 < length bytes.now → 0 < result }
    ensures before { All InLine (take (result - 1) bytes.now) }
{
    let most = bytes.len().min(room);
    for i in 0..most {
        if bytes[i] == b'\n' {
            return i + 1;
        }
    }
    most
}

fn part_of(bytes: &[u8]) -> Part
    ensures { result ≡ part_of bytes.now }
{
    if bytes.is_empty() {
        Part::End
    } else if bytes[bytes.len() - 1] == b'\n' {
        Part::LineFeed
    } else {
        Part::More
    }
}

/// How many of `end` bytes belong to the line.
fn kept_of(part: Part, end: usize) -> usize
    ensures { result ≡ end - ending_len part }
{
    match part {
        Part::LineFeed => end.saturating_sub(1),
        Part::More | Part::End => end,
    }
}

fn append<A: Allocator>(line: &mut Vec<u8, A>, bytes: &[u8]) -> Result<(), LineError>
    ensures items { OnOk result (line.new.items ≡ line.old.items ++ bytes.now) }
    ensures len { OnOk result (vec_len line.new ≡ vec_len line.old + length bytes.now) }
    ensures kind { result ≡ Err LineError.TooLong → ⊥ }
{
    match line.extend_from_slice(bytes) {
        Ok(()) => Ok(()),
        Err(AllocError) => Err(LineError::Memory),
    }
}
