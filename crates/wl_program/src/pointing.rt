//! The pointer's file.

ghost use Rattle.std.specs.Io.KnownBytes.{IsAtEnd};
ghost use Rattle.std.specs.Prelude.{◌≡◌, ◌≤◌, ◌⊎◌, [], IfErr, IfOk, Ok, OnOk, is_some, false, length, true};
ghost use Rattle.wl_recording.specs.Lines.{TakesLine};
ghost use Rattle.wl_program.specs.Pointing.{AreLines, FailsLine, FailsLines, IsNextLine};
ghost use Rattle.wl_program.specs.Serving.{IsOfPointer};

use crate::fault::Fault;
use std::alloc::Allocator;
use std::io::{BufRead, BufReader, ErrorKind};
use std::rt::Files;
use std::{fs, io};
use wl_recording::{LINE_LIMIT, LineError, PointerLine, pointer_line, read_line};

/// Reads the lines of the pointer's file, if there is one.
///
/// # Errors
///
/// `Read` if the file can't be opened or read, `BadLine` for the first bad line, and `Memory` out
/// of memory.
pub(crate) fn read_pointer<F: Files + AllocGlobal, A: Allocator + Copy>(
    files: &F,
    alloc: A,
    path: Option<&str>,
) -> Result<Vec<PointerLine, A>, Fault>
    ensures unpointed { is_some path.entry ≡ false → IfOk result (λ lines. lines.items ≡ []) }
    ensures failed { IfErr result (IsOfPointer (is_some path.entry)) }
{
    match path {
        Some(path) => read_file(files, alloc, path),
        None => Ok(Vec::new(alloc)),
    }
}

fn read_file<F: Files + AllocGlobal, A: Allocator + Copy>(
    files: &F,
    alloc: A,
    path: &str,
) -> Result<Vec<PointerLine, A>, Fault>
    ensures { IfErr result (IsOfPointer true) }
{
    let file = fs::open(files, path).map_err(opening_failed)?;
    let mut reader = BufReader::new(files.alloc(), file).map_err(opening_failed)?;
    read_lines(alloc, &mut reader)
}

fn opening_failed(error: io::Error) -> Fault
    ensures { (result ≡ Fault.Read) ⊎ (result ≡ Fault.Memory) }
{
    match error.kind() {
        ErrorKind::OutOfMemory => Fault::Memory,
        _ => Fault::Read,
    }
}

/// Reads all lines. More than can be numbered count as out of memory.
fn read_lines<A: Allocator + Copy, R: BufRead>(
    alloc: A,
    reader: &mut R,
) -> Result<Vec<PointerLine, A>, Fault>
    ensures ok { IfOk result (λ lines. AreLines (R.remaining reader.old) lines.items) }
    ensures failed { IfErr result (FailsLines (R.remaining reader.old)) }
{
    let mut lines = Vec::new(alloc);
    let mut text = Vec::new(alloc);
    for before in 0..u32::MAX {
        match next_line(before + 1, reader, &mut text)? {
            Some(line) => lines.push(line).map_err(|_| Fault::Memory)?,
            None => return Ok(lines),
        }
    }
    Err(Fault::Memory)
}

/// Reads the next line, which has this number. `None` at the end.
fn next_line<A: Allocator, R: BufRead>(
    number: u32,
    reader: &mut R,
    text: &mut Vec<u8, A>,
) -> Result<Option<PointerLine>, Fault>
    ensures ok { IfOk result (IsNextLine (R.remaining reader.old) (R.remaining reader.new)) }
    ensures failed { IfErr result (FailsLine number (R.remaining reader.old)) }
{
    if !read_text(number, reader, text)? {
        return Ok(None);
    }
    match pointer_line(text) {
        PointerLine::Bad => Err(Fault::BadLine(number)),
        line => Ok(Some(line)),
    }
}

/// Reads the next line, which has this number, without its line feed. The answer is false at the
/// end.
fn read_text<A: Allocator, R: BufRead>(
    number: u32,
    reader: &mut R,
    text: &mut Vec<u8, A>,
) -> Result<bool, Fault>
    ensures taken { result ≡ Ok true → TakesLine (R.remaining reader.old) (R.remaining reader.new) text.new.items }
    ensures end { result ≡ Ok false → IsAtEnd (R.remaining reader.old) }
    ensures short { OnOk result (length text.new.items ≤ LINE_LIMIT) }
    ensures failed { IfErr result (FailsLine number (R.remaining reader.old)) }
{
    read_line(reader, text).map_err(|error| match error {
        LineError::Read => Fault::Read,
        LineError::TooLong => Fault::BadLine(number),
        LineError::Memory => Fault::Memory,
    })
}
