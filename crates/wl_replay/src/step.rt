//! The steps that the lines of a recording ask.

ghost use Rattle.std.specs.Prelude.{◌≡◌, ◌≤◌, ◌⊎◌, Err, IfOk, IfErr, OnOk};
ghost use Rattle.std.specs.Io.KnownBytes.{Appends};
ghost use Rattle.wl_session.specs.Image.{image_of};
ghost use Rattle.wl_session.specs.Agreeing.{Agrees};
ghost use Rattle.spec_desktop.specs.Desktop.{Desktop};
ghost use Rattle.wl_recording.specs.Line.{meaning};
ghost use Rattle.wl_recording.specs.Images.{images_in};
ghost use Rattle.wl_replay.specs.Report.{LacksAsked, TellsBytes, TellsConnect, TellsGone, TellsLine, TellsStep, TellsTick, absent_text};
ghost use Rattle.wl_recording.specs.Side.{files_of};
ghost use Rattle.wl_replay.specs.Told.{Counts, IsSilent, Leads};

use crate::error::{StepError, write_failed};
use crate::filling::put_file;
use crate::storing::store;
use crate::tell::tell_clients;
use std::alloc::Allocator;
use std::io::Write;
use wl_recording::{
    Line, SideFiles, write_client, write_frame, write_full, write_image, write_none,
};
use wl_session::{ConnectError, Fed, Session};

/// How many frames a line showed, and how many clients it connected.
#[derive(Clone, Copy, Debug, PartialEq, Eq)]
pub(crate) struct Shown {
    pub(crate) frames: u32,
    pub(crate) clients: u32,
}

const NOTHING: Shown = Shown {
    frames: 0,
    clients: 0,
};

/// What a line asks, and the bytes that it spells.
#[derive(Clone, Copy)]
pub(crate) struct Asked<'a> {
    pub(crate) line: Line<'a>,
    pub(crate) piece: &'a [u8],
}

/// Takes the step that a line asks, and reports it.
pub(crate) fn take_line<A: Allocator + Copy, W: Write, P: Write, S: SideFiles>(
    session: &mut Session<A>,
    asked: Asked<'_>,
    writer: &mut W,
    ppm: &mut Option<P>,
    side: &mut S,
) -> Result<Shown, StepError>
    ensures told { IfOk result (λ shown. Leads (TellsLine (files_of S.opens S.gives S.fault_count) (meaning asked.entry.piece.now asked.entry.line) side.old side.new) session.old session.new (W.contents writer.old) (W.contents writer.new)
        (Counts (images_in P.contents ppm.old) (images_in P.contents ppm.new) shown.frames shown.clients)) }
    ensures small { IfOk result (λ shown. (shown.frames ≤ 1) × (shown.clients ≤ 1)) }
    ensures calm { OnOk result (S.fault_count side.new ≡ S.fault_count side.old) }
    ensures lacking { result ≡ Err StepError.Side → (writer.new ≡ writer.old) × (ppm.new ≡ ppm.old) × ((d : Desktop) → Agrees session.old.desk d
        → LacksAsked (files_of S.opens S.gives S.fault_count) (meaning asked.entry.piece.now asked.entry.line) d side.old side.new) }
{
    if let Line::Nothing = asked.line {
        return Ok(NOTHING);
    }
    let shown = take_step(session, asked, writer, ppm, side)?;
    tell_clients(session, writer).map_err(write_failed)?;
    Ok(shown)
}

fn take_step<A: Allocator + Copy, W: Write, P: Write, S: SideFiles>(
    session: &mut Session<A>,
    asked: Asked<'_>,
    writer: &mut W,
    ppm: &mut Option<P>,
    side: &mut S,
) -> Result<Shown, StepError>
    ensures told { IfOk result (λ shown. Leads (TellsStep (files_of S.opens S.gives S.fault_count) (meaning asked.entry.piece.now asked.entry.line) side.old side.new) session.old session.new (W.contents writer.old) (W.contents writer.new)
        (Counts (images_in P.contents ppm.old) (images_in P.contents ppm.new) shown.frames shown.clients)) }
    ensures small { IfOk result (λ shown. (shown.frames ≤ 1) × (shown.clients ≤ 1)) }
    ensures calm { OnOk result (S.fault_count side.new ≡ S.fault_count side.old) }
    ensures lacking { result ≡ Err StepError.Side → (writer.new ≡ writer.old) × (ppm.new ≡ ppm.old) × ((d : Desktop) → Agrees session.old.desk d
        → LacksAsked (files_of S.opens S.gives S.fault_count) (meaning asked.entry.piece.now asked.entry.line) d side.old side.new) }
{
    let Asked { line, piece } = asked;
    match line {
        Line::Connect => {
            let clients = connect(session, writer)?;
            Ok(Shown { frames: 0, clients })
        }
        Line::Bytes { client } => {
            feed(session, client, piece, writer)?;
            Ok(NOTHING)
        }
        Line::Store { place } => {
            store(session, place, piece, writer)?;
            Ok(NOTHING)
        }
        Line::File { place, name } => {
            put_file(session, place, name, writer, side)?;
            Ok(NOTHING)
        }
        Line::Gone { client } => {
            gone(session, client, writer)?;
            Ok(NOTHING)
        }
        Line::Motion { time, x, y } => {
            session.motion(time, x, y);
            Ok(NOTHING)
        }
        Line::Button {
            time,
            code,
            pressed,
        } => {
            session.button(time, code, pressed);
            Ok(NOTHING)
        }
        Line::Tick { time } => {
            tick(session, time, writer, ppm)?;
            Ok(Shown {
                frames: 1,
                clients: 0,
            })
        }
        Line::Nothing => Ok(NOTHING),
    }
}

/// A client connects. The answer is how many did.
fn connect<A: Allocator + Copy, W: Write>(
    session: &mut Session<A>,
    writer: &mut W,
) -> Result<u32, StepError>
    ensures told { IfOk result (λ count. Leads TellsConnect session.old session.new (W.contents writer.old) (W.contents writer.new)
        (IsSilent count)) }
    ensures small { IfOk result (λ count. count ≤ 1) }
    ensures kind { IfErr result (λ e. (e ≡ StepError.Write) ⊎ (e ≡ StepError.Memory)) }
{
    match session.connect() {
        Ok(client) => {
            write_client(client, writer).map_err(write_failed)?;
            Ok(1)
        }
        Err(ConnectError::Full) => {
            write_full(writer).map_err(write_failed)?;
            Ok(0)
        }
        Err(ConnectError::Memory) => Err(StepError::Memory),
    }
}

/// A piece of a client's stream comes.
fn feed<A: Allocator + Copy, W: Write>(
    session: &mut Session<A>,
    client: u32,
    piece: &[u8],
    writer: &mut W,
) -> Result<(), StepError>
    ensures told { OnOk result (Leads (TellsBytes client piece.now) session.old session.new (W.contents writer.old) (W.contents writer.new)
        (IsSilent 0)) }
    ensures kind { IfErr result (λ e. e ≡ StepError.Write) }
{
    let before = session.status(client);
    session.feed(client, piece);
    write_absent(client, before, writer)
}

/// A client closes its connection.
fn gone<A: Allocator + Copy, W: Write>(
    session: &mut Session<A>,
    client: u32,
    writer: &mut W,
) -> Result<(), StepError>
    ensures told { OnOk result (Leads (TellsGone client) session.old session.new (W.contents writer.old) (W.contents writer.new)
        (IsSilent 0)) }
    ensures kind { IfErr result (λ e. e ≡ StepError.Write) }
{
    let before = session.status(client);
    session.gone(client);
    write_absent(client, before, writer)
}

/// A frame is shown.
fn tick<A: Allocator + Copy, W: Write, P: Write>(
    session: &mut Session<A>,
    time: u32,
    writer: &mut W,
    ppm: &mut Option<P>,
) -> Result<(), StepError>
    ensures told { OnOk result (Leads (TellsTick time) session.old session.new (W.contents writer.old) (W.contents writer.new)
        (Counts (images_in P.contents ppm.old) (images_in P.contents ppm.new) 1 0)) }
    ensures kind { IfErr result (λ e. e ≡ StepError.Write) }
{
    let frame = session.tick(time);
    let count = frame.damage.count();
    write_frame(time, count, writer).map_err(write_failed)?;
    write_image(frame.pixels, ppm).map_err(write_failed)
}

/// Reports it if no client had the number.
fn write_absent<W: Write>(client: u32, before: Fed, writer: &mut W) -> Result<(), StepError>
    ensures told { OnOk result (Appends (W.contents writer.old) (W.contents writer.new) (absent_text client before)) }
    ensures kind { IfErr result (λ e. e ≡ StepError.Write) }
{
    match before {
        Fed::NoClient => write_none(client, writer).map_err(write_failed),
        Fed::Alive | Fed::Ended(_) => Ok(()),
    }
}
