//! Runs of the program, and what is wanted of them.

use std::alloc::{Allocator, Global};
use std::cell::RefCell;
use std::fmt::Display;
use std::io::{BufRead, Write};
use std::{env, io, process};
use wl_program::{Status, run_program};

/// Keeps what is printed.
#[derive(Drop)]
struct Terminal {
    out: RefCell<String>,
    err: RefCell<String>,
}

impl Terminal {
    fn new(alloc: Global) -> Terminal {
        Terminal {
            out: RefCell::new(String::new(alloc)),
            err: RefCell::new(String::new(alloc)),
        }
    }
}

fn keep<D: Display + Drop>(text: &RefCell<String>, value: D, end: &str) -> io::Result<()> {
    let Ok(mut text) = text.try_borrow_mut() else {
        return Err(io::Error::from(io::ErrorKind::Other));
    };
    write!(text, "{value}{end}")?;
    Ok(())
}

impl Print for Terminal {
    fn print<D: Display + Drop>(&self, value: D) -> io::Result<()> {
        keep(&self.out, value, "")
    }

    fn println<D: Display + Drop>(&self, value: D) -> io::Result<()> {
        keep(&self.out, value, "\n")
    }

    fn write_all(&self, _bytes: &[u8]) -> io::Result<()> {
        Err(io::Error::from(io::ErrorKind::Unsupported))
    }
}

impl Eprint for Terminal {
    fn eprint<D: Display + Drop>(&self, value: D) -> io::Result<()> {
        keep(&self.err, value, "")
    }

    fn eprintln<D: Display + Drop>(&self, value: D) -> io::Result<()> {
        keep(&self.err, value, "\n")
    }
}

/// The words of a text. None where there is no memory for them.
fn words_of(text: &str, alloc: Global) -> Option<Vec<String>> {
    let mut words = Vec::new(alloc);
    for word in text.split(' ') {
        words.push(String::from_str(alloc, word).ok()?).ok()?;
    }
    Some(words)
}

/// How the program ends that is run with these words, with what it printed, and what it said of a
/// fault.
pub(crate) fn printed<A: Allocator + Copy, I: BufRead, W: Write>(
    rt: &HostRuntime,
    alloc: A,
    text: &str,
    input: &mut I,
    output: &mut W,
) -> Option<(Status, String, String)> {
    let terminal = Terminal::new(rt.alloc());
    let words = words_of(text, rt.alloc())?;
    let status = run_program(&terminal, rt, alloc, words.as_slice(), input, output);
    Some((status, terminal.out.into_inner(), terminal.err.into_inner()))
}

/// How the program ends that is run with these words, with what it said of a fault.
pub(crate) fn told<A: Allocator + Copy, I: BufRead, W: Write>(
    rt: &HostRuntime,
    alloc: A,
    text: &str,
    input: &mut I,
    output: &mut W,
) -> Option<(Status, String)> {
    let (status, _, said) = printed(rt, alloc, text, input, output)?;
    Some((status, said))
}

/// How the program ends. None where it said something else of a fault.
pub(crate) fn ends<A: Allocator + Copy, I: BufRead, W: Write>(
    rt: &HostRuntime,
    alloc: A,
    text: &str,
    input: &mut I,
    output: &mut W,
    fault: &str,
) -> Option<Status> {
    let (status, said) = told(rt, alloc, text, input, output)?;
    if said.as_str() == fault {
        Some(status)
    } else {
        None
    }
}

/// How the program ends that reads a recording. None where it said something else of a fault, or
/// gave another report.
pub(crate) fn plays(
    rt: &HostRuntime,
    text: &str,
    recording: &[u8],
    fault: &str,
    report: &[u8],
) -> Option<Status> {
    let mut input = recording;
    let mut output = Vec::new(rt.alloc());
    let status = ends(rt, rt.alloc(), text, &mut input, &mut output, fault)?;
    if output.as_slice() == report {
        Some(status)
    } else {
        None
    }
}

/// Two texts, one behind the other.
pub(crate) fn joined(alloc: Global, front: &str, back: &str) -> Option<String> {
    let mut text = String::from_str(alloc, front).ok()?;
    text.push_str(back).ok()?;
    Some(text)
}

/// The folder of the system for files that don't last.
pub(crate) fn folder(rt: &HostRuntime) -> Option<String> {
    let path = env::temp_dir(rt).ok()?;
    String::from_str(rt.alloc(), path.as_path().to_string_lossy()).ok()
}

/// A name for a file of this process.
pub(crate) fn file_name(rt: &HostRuntime, ending: &str) -> Option<String> {
    format!(in rt.alloc(); "wlframe-{}.{ending}", process::id(rt.process())).ok()
}

/// The path of a file in a folder.
pub(crate) fn path_in(rt: &HostRuntime, folder: &str, name: &str) -> Option<String> {
    format!(in rt.alloc(); "{folder}/{name}").ok()
}
