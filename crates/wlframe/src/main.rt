//! The program wlframe: a Wayland compositor that plays recordings and serves clients. It only
//! takes its words, its input and its output from the process. All else is left to [`run_program`]
//! of wl_program, where to begin reading.
#![tactic(auto)]

use std::io::{BufReader, BufWriter};
use std::process::ExitCode;
use std::{env, io};
use wl_program::{Fault, Status, run_program};

/// How many bytes are read or written at once.
const BUFFER: usize = 65_536;

fn main(rt: HostRuntime) -> ExitCode {
    let status = match run_on_streams(&rt) {
        Ok(status) => status,
        Err(_) => Fault::Memory.report(&rt),
    };
    ExitCode::from(status as u8)
}

/// Runs the program on the words, the input and the output of the process.
fn run_on_streams(rt: &HostRuntime) -> io::Result<Status> {
    let words = env::args(rt)?.collect::<Vec<String>>(rt.alloc())?;
    let mut input = BufReader::with_capacity(rt.alloc(), BUFFER, rt.reader())?;
    let mut output = BufWriter::with_capacity(rt.alloc(), BUFFER, io::writer(rt))?;
    Ok(run_program(
        rt,
        rt,
        rt.alloc(),
        words.as_slice(),
        &mut input,
        &mut output,
    ))
}
