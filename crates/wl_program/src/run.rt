//! The program, over its words, a runtime and streams.

ghost use Rattle.std.specs.Prelude.{◌≡◌, IfErr, OnOk, map, string_bytes};
ghost use Rattle.clap.specs.Words.{kind_of};
ghost use Rattle.wl_program.specs.Run.{Ends, Fails, IsReported, IsToldBy};
ghost use Rattle.wl_program.specs.Status.{fault_with};

use crate::command::{Asked, CommandError, Replay, parse};
use crate::fault::{Fault, Status};
use crate::folder::Folder;
use crate::serving::serve;
use crate::streams::{create, flush};
use std::alloc::Allocator;
use std::io::{BufRead, Write};
use std::net::Net;
use std::rt::Files;
use std::time::Clock;
use wl_recording::ReplayError;
use wl_replay::{Config, Rgb};

/// The background of every output.
pub(crate) const BLACK: Rgb = Rgb { r: 0, g: 0, b: 0 };

/// Does what the words ask, of which the first is the program's name, and answers how the program
/// ends. A recording is read from `input`, and reports go to `output`. Help and faults go to
/// `terminal`. The session's memory comes from `alloc`.
pub fn run_program<
    T: Print + Eprint,
    F: Files + Net + Clock + AllocGlobal,
    A: Allocator + Copy,
    I: BufRead,
    W: Write,
>(terminal: &T, files: &F, alloc: A, words: &[String], input: &mut I, output: &mut W) -> Status
    ensures { Ends (map string_bytes words.now) result (I.remaining input.old) (W.contents output.old) (W.contents output.new) }
{
    match parse(files.alloc(), words) {
        Ok(Asked::Replay(replay)) => match play(files, alloc, replay, input, output) {
            Ok(()) => Status::Done,
            Err(fault) => fault.report(terminal),
        },
        Ok(Asked::Serve(asked)) => match serve(files, alloc, asked, output) {
            Ok(()) => Status::Done,
            Err(fault) => fault.report(terminal),
        },
        Err(CommandError::Fault(fault)) => fault.report(terminal),
        Err(CommandError::Usage(error)) => show(terminal, error),
    }
}

/// Prints what clap says of the usage.
fn show<T: Print + Eprint>(terminal: &T, error: clap::Error) -> Status
    ensures { IsToldBy (kind_of error) result }
{
    match error.print(terminal) {
        Ok(()) => if error.use_stderr() {
            Status::Usage
        } else {
            Status::Done
        },
        Err(_) => Fault::Write.report(terminal),
    }
}

/// Plays a recording from the input.
fn play<F: Files + AllocGlobal, A: Allocator + Copy, I: BufRead, W: Write>(
    files: &F,
    alloc: A,
    replay: Replay,
    input: &mut I,
    output: &mut W,
) -> Result<(), Fault>
    ensures played { OnOk result (IsReported replay.entry (I.remaining input.old) (W.contents output.old) (W.contents output.new)) }
    ensures failed { IfErr result (λ fault. Fails fault replay.entry (I.remaining input.old) (W.contents output.old) (W.contents output.new)) }
{
    let mut ppm = create(files, replay.ppm)?;
    let mut side = Folder::new(files, replay.dir);
    let config = Config {
        width: replay.size.width,
        height: replay.size.height,
        background: BLACK,
    };
    let played = wl_replay::replay(alloc, config, input, output, &mut ppm, &mut side);
    let flushed = flush(output, &mut ppm);
    match played {
        Ok(_) => flushed,
        Err(error) => Err(fault_of(error, side.lacks_memory())),
    }
}

/// Why a recording wasn't played to its end. If there was no memory to open a side file, that is
/// why.
fn fault_of(error: ReplayError, lacks_memory: bool) -> Fault
    ensures { result ≡ fault_with lacks_memory error }
{
    match error {
        ReplayError::Side(_) if lacks_memory => Fault::Memory,
        error => Fault::from(error),
    }
}
