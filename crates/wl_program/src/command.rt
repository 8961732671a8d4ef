//! The command line.

ghost use Rattle.std.specs.Prelude.{◌≡◌, ◌≤◌, Bool, ℕ, IfErr, IfOk, IfSome, MatchResult, Some, None, codes, false, map, option_map, string_bytes};
ghost use Rattle.clap.specs.Words.{app_of, first_value, found_of, new_app, rule_of};
ghost use Rattle.wl_recording.specs.Line.{number_of};
ghost use Rattle.wl_program.specs.Command.{AreTurns, Asks, IsAskedBy, IsFaulty, IsGiven, IsRate, IsRefused, IsServed, IsToldAs, bare_command, dir_option, is_paced, is_rate_word, option_named, pointer_option, ppm_option, program, rate_option, record_option, replay_command, serve_command, size_option, socket_option, turns_option, viewer_option, with_output};

use crate::fault::Fault;
use crate::rate::Rate;
use crate::size::Size;
use clap::builder::ValueParser;
use clap::error::ErrorKind;
use clap::{Arg, ArgMatches, Command};
use std::alloc::{AllocError, Global};
use thiserror::Error;
use wl_recording::number;

/// How many turns may be asked for.
const MAX_TURNS: u32 = 1_000_000;

/// What the command line asks.
#[derive(Clone, Copy, Debug, PartialEq, Eq)]
pub enum Asked<'a> {
    /// A recording is to be played.
    Replay(Replay<'a>),
    /// Clients are to be served.
    Serve(Serve<'a>),
}

/// A recording is to be played.
#[derive(Clone, Copy, Debug, PartialEq, Eq)]
pub struct Replay<'a> {
    pub size: Size,
    /// The folder of the side files.
    pub dir: &'a str,
    /// The file that gets an image for each frame.
    pub ppm: Option<&'a str>,
}

/// Clients are to be served.
#[derive(Clone, Copy, Debug, PartialEq, Eq)]
pub struct Serve<'a> {
    /// The path of the socket that clients connect to.
    pub socket: &'a str,
    /// How many turns are taken, 1 to 1,000,000. If it isn't said, as many as can be counted.
    pub turns: Option<u32>,
    /// How often turns begin, if it is said.
    pub rate: Option<Rate>,
    pub size: Size,
    /// The folder of the side files.
    pub dir: &'a str,
    /// The file that gets an image for each frame.
    pub ppm: Option<&'a str>,
    /// The file of the pointer's lines.
    pub pointer: Option<&'a str>,
    /// The path of the socket that a viewer connects to.
    pub viewer: Option<&'a str>,
    /// The file that gets a recording of what is served.
    pub record: Option<&'a str>,
}

/// Why nothing is to be done.
#[derive(Debug, Drop, Error)]
pub enum CommandError {
    /// A fault of usage, or help that was asked for.
    #[error(transparent)]
    Usage(clap::Error),
    /// A fault of a value, or want of memory.
    #[error(transparent)]
    Fault(Fault),
}

impl From<AllocError> for CommandError {
    ghost use Rattle.wl_program.specs.declared.command.CommandError.TheVariants.{Fault};
    ghost use Rattle.wl_program.specs.declared.fault.Fault.TheVariants.{Memory};

    ghost from_gives = { λ _ e. e ≡ Fault Memory };

    fn from(_error: AllocError) -> CommandError {
        CommandError::Fault(Fault::Memory)
    }
}

impl From<clap::Error> for CommandError {
    ghost from_gives = { IsToldAs };

    fn from(error: clap::Error) -> CommandError {
        match error.kind() {
            ErrorKind::OutOfMemory => CommandError::Fault(Fault::Memory),
            _ => CommandError::Usage(error),
        }
    }
}

/// What these words ask, of which the first is the program's name.
///
/// # Errors
///
/// - `Usage`: clap refuses the words, or shows its help or the version.
/// - `Fault::Rate`: the rate isn't one.
/// - `Fault::Size`: the size isn't one.
/// - `Fault::Memory`: memory runs out.
pub fn parse<'a>(alloc: Global, words: &'a [String]) -> Result<Asked<'a>, CommandError>
    ensures { MatchResult result (Asks (map string_bytes words.entry.now)) (IsRefused (map string_bytes words.entry.now)) }
{
    let command = command(alloc, is_paced(words))?;
    let matches = command.try_get_matches_from(words)?;
    match matches.subcommand() {
        Some((name, matches)) => asked_of(name, matches),
        None => Err(CommandError::Fault(Fault::Size)),
    }
}

/// Whether a word says how often turns begin. Then it needn't be said how many are taken.
fn is_paced(words: &[String]) -> bool
    ensures { result ≡ is_paced (map string_bytes words.now) }
{
    for word in words {
        if is_rate_word(word.as_str()) {
            return true;
        }
    }
    false
}

/// Whether this is the word `--rate`, or `--rate=` and a value.
fn is_rate_word(word: &str) -> bool
    ensures { result ≡ is_rate_word word.now }
{
    match word.split_once('=') {
        Some((name, _)) => name == "--rate",
        None => word == "--rate",
    }
}

fn command<'a>(alloc: Global, is_paced: bool) -> Result<Command<'a>, AllocError>
    ensures { IfOk result (λ command. app_of command ≡ program is_paced) }
{
    let replay = replay_command(alloc)?;
    let serve = serve_command(alloc, is_paced)?;
    bare_command(alloc).subcommand(replay)?.subcommand(serve)
}

/// The command without its subcommands.
fn bare_command<'a>(alloc: Global) -> Command<'a>
    ensures { app_of result ≡ bare_command }
{
    Command::new(alloc, "wlframe")
        .about("A Wayland compositor without a screen")
        .version(VERSION)
        .after_help(PROGRAM_EXAMPLE)
        .subcommand_required(true)
        .arg_required_else_help(true)
}

/// What `--version` prints behind the program's name.
const VERSION: &str = "0.1.0";

const PROGRAM_EXAMPLE: &str = "Examples:
  wlframe replay --size 2x1 < examples/sync.rec
  wlframe serve --socket wlframe.sock --rate 60 --ppm frames.ppm";

const REPLAY_EXAMPLE: &str =
    "Example: wlframe replay --size 112x96 --ppm frames.ppm < examples/two_windows.rec";

const SERVE_EXAMPLE: &str = "Examples:
  wlframe serve --socket wlframe.sock --turns 1000 --ppm frames.ppm
  wlframe serve --socket wlframe.sock --rate 60";

fn replay_command<'a>(alloc: Global) -> Result<Command<'a>, AllocError>
    ensures { IfOk result (λ command. app_of command ≡ replay_command) }
{
    let replay = Command::new(alloc, "replay")
        .about("Plays a recording from standard input")
        .after_help(REPLAY_EXAMPLE);
    with_output(alloc, replay)
}

fn serve_command<'a>(alloc: Global, is_paced: bool) -> Result<Command<'a>, AllocError>
    ensures { IfOk result (λ command. app_of command ≡ serve_command is_paced) }
{
    let serve = Command::new(alloc, "serve")
        .about("Serves clients over a Unix socket")
        .after_help(SERVE_EXAMPLE)
        .arg(socket_option(alloc))?
        .arg(turns_option(alloc, is_paced))?
        .arg(rate_option(alloc))?;
    with_output(alloc, serve)?
        .arg(pointer_option(alloc))?
        .arg(viewer_option(alloc))?
        .arg(record_option(alloc))
}

/// The subcommand with the options of its output: its size, the file of its images, and the folder
/// of its side files.
fn with_output<'a>(alloc: Global, subcommand: Command<'a>) -> Result<Command<'a>, AllocError>
    ensures { IfOk result (λ r. app_of r ≡ with_output (app_of subcommand.entry)) }
{
    subcommand
        .arg(size_option(alloc))?
        .arg(ppm_option(alloc))?
        .arg(dir_option(alloc))
}

/// `--name VALUE`, with what help calls the value and says of it.
fn named_option<'a>(alloc: Global, name: &'a str, value: &'a str, help: &'a str) -> Arg<'a>
    ensures rule { rule_of result ≡ option_named name.entry.now }
    ensures own { result.global ≡ false }
{
    Arg::new(alloc, name)
        .long(name)
        .value_name(value)
        .help(help)
}

fn socket_option<'a>(alloc: Global) -> Arg<'a>
    ensures rule { rule_of result ≡ socket_option }
    ensures own { result.global ≡ false }
{
    named_option(
        alloc,
        "socket",
        "PATH",
        "The socket that clients connect to, which is made there",
    )
    .required(true)
}

fn turns_option<'a>(alloc: Global, is_paced: bool) -> Arg<'a>
    ensures rule { rule_of result ≡ turns_option is_paced }
    ensures own { result.global ≡ false }
{
    named_option(
        alloc,
        "turns",
        "N",
        "How many turns are taken, 1 to 1000000; with --rate it may be left out",
    )
    .required(!is_paced)
    .value_parser(ValueParser::unsigned(1, u64::from(MAX_TURNS)))
}

fn rate_option<'a>(alloc: Global) -> Arg<'a>
    ensures rule { rule_of result ≡ rate_option }
    ensures own { result.global ≡ false }
{
    named_option(
        alloc,
        "rate",
        "HZ",
        "How often turns begin at most, 1 to 1000 times a second",
    )
}

fn size_option<'a>(alloc: Global) -> Arg<'a>
    ensures rule { rule_of result ≡ size_option }
    ensures own { result.global ≡ false }
{
    named_option(alloc, "size", "WxH", "The output's sides in pixels").default_value("640x480")
}

fn ppm_option<'a>(alloc: Global) -> Arg<'a>
    ensures rule { rule_of result ≡ ppm_option }
    ensures own { result.global ≡ false }
{
    named_option(
        alloc,
        "ppm",
        "FILE",
        "Writes an image of each frame to this file",
    )
}

fn dir_option<'a>(alloc: Global) -> Arg<'a>
    ensures rule { rule_of result ≡ dir_option }
    ensures own { result.global ≡ false }
{
    named_option(alloc, "dir", "DIR", "The folder of the side files").default_value(".")
}

fn pointer_option<'a>(alloc: Global) -> Arg<'a>
    ensures rule { rule_of result ≡ pointer_option }
    ensures own { result.global ≡ false }
{
    named_option(
        alloc,
        "pointer",
        "FILE",
        "Reads what the pointer does from this file",
    )
}

fn viewer_option<'a>(alloc: Global) -> Arg<'a>
    ensures rule { rule_of result ≡ viewer_option }
    ensures own { result.global ≡ false }
{
    named_option(
        alloc,
        "viewer",
        "PATH",
        "The socket that a viewer connects to, which is made there",
    )
}

fn record_option<'a>(alloc: Global) -> Arg<'a>
    ensures rule { rule_of result ≡ record_option }
    ensures own { result.global ≡ false }
{
    named_option(
        alloc,
        "record",
        "FILE",
        "Writes a recording of what is served into this file",
    )
}

/// What these matches of the subcommand of this name ask.
fn asked_of<'a>(name: &str, matches: &ArgMatches<'a>) -> Result<Asked<'a>, CommandError>
    ensures asked { IfOk result (IsAskedBy name.now (first_value (found_of matches.now))) }
    ensures faulty { IfErr result (IsFaulty (first_value (found_of matches.now))) }
{
    if name == "serve" {
        Ok(Asked::Serve(serve_of(matches)?))
    } else {
        Ok(Asked::Replay(replay_of(matches)?))
    }
}

/// The replay that these matches ask.
fn replay_of<'a>(matches: &ArgMatches<'a>) -> Result<Replay<'a>, CommandError>
    ensures asked { IfOk result (IsGiven (first_value (found_of matches.now))) }
    ensures faulty { IfErr result (IsFaulty (first_value (found_of matches.now))) }
{
    let Some(size) = Size::parse(matches.get_str("size").unwrap_or("")) else {
        return Err(CommandError::Fault(Fault::Size));
    };
    Ok(Replay {
        size,
        dir: matches.get_str("dir").unwrap_or("."),
        ppm: matches.get_str("ppm"),
    })
}

/// What these matches ask to be served.
fn serve_of<'a>(matches: &ArgMatches<'a>) -> Result<Serve<'a>, CommandError>
    ensures asked { IfOk result (IsServed (first_value (found_of matches.now))) }
    ensures faulty { IfErr result (IsFaulty (first_value (found_of matches.now))) }
{
    let rate = rate_of(matches)?;
    let Replay { size, dir, ppm } = replay_of(matches)?;
    Ok(Serve {
        socket: matches.get_str("socket").unwrap_or(""),
        turns: turns_of(matches),
        rate,
        size,
        dir,
        ppm,
        pointer: matches.get_str("pointer"),
        viewer: matches.get_str("viewer"),
        record: matches.get_str("record"),
    })
}

/// How often turns begin, if these matches say it.
fn rate_of(matches: &ArgMatches<'_>) -> Result<Option<Rate>, CommandError>
    ensures asked { IfOk result (λ rate. IsRate (first_value (found_of matches.now) (codes "rate")) (option_map (λ r. r.hertz) rate)) }
    ensures faulty { IfErr result (IsFaulty (first_value (found_of matches.now))) }
{
    let Some(word) = matches.get_str("rate") else {
        return Ok(None);
    };
    match Rate::parse(word) {
        Some(rate) => Ok(Some(rate)),
        None => Err(CommandError::Fault(Fault::Rate)),
    }
}

/// How many turns are taken, if these matches say it.
fn turns_of(matches: &ArgMatches<'_>) -> Option<u32>
    ensures { AreTurns (first_value (found_of matches.now) (codes "turns")) result }
{
    match matches.get_str("turns") {
        Some(word) => Some(turns_in(word)),
        None => None,
    }
}

/// The number of turns that a word spells, which clap accepted. It may begin with a `+`.
fn turns_in(word: &str) -> u32
    ensures within { (1 ≤ result) × (result ≤ 1000000) }
    ensures spelt { (n : ℕ) → number_of word.now ≡ Some n → 1 ≤ n → n ≤ 1000000 → result ≡ n }
{
    let turns = match number(word.as_bytes()) {
        Some(turns) => turns,
        None => unsigned(word),
    };
    turns.clamp(1, MAX_TURNS)
}

/// The number behind the `+` of a word.
fn unsigned(word: &str) -> u32 {
    let digits = word.strip_prefix('+').unwrap_or(word);
    number(digits.as_bytes()).unwrap_or(1)
}
