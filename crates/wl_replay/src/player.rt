//! The replay of a recording.

ghost use Rattle.std.specs.Prelude.{◌≡◌, ◌≤◌, ◌⊎◌, ⊤, IfOk, IfErr, OnOk, MatchOption, length, Ok, true, false};
ghost use Rattle.std.specs.Io.KnownBytes.{IsAtEnd};
ghost use Rattle.wl_session.specs.Frame.{is_side};
ghost use Rattle.wl_session.specs.Agreeing.{Agrees};
ghost use Rattle.spec_desktop.specs.Desktop.{Desktop};
ghost use Rattle.wl_recording.specs.Lines.{TakesLine};
ghost use Rattle.wl_recording.specs.Images.{images_in};
ghost use Rattle.wl_replay.specs.Report.{FailsAt, IsLackingLine, IsPlayed, StopsAs, TakesOne};
ghost use Rattle.wl_recording.specs.Side.{files_of};
ghost use Rattle.wl_replay.specs.Told.{Counts, IsFirst, Stage, Stands};

use crate::error::StepError;
use crate::step::{Asked, Shown, take_line};
use std::alloc::Allocator;
use std::io::{BufRead, Write};
use wl_recording::{LineError, ReplayError, SideFiles, Summary, parse, read_line};
use wl_session::{Config, Session};

/// The greatest number of lines of a recording.
pub const MAX_LINES: u32 = 1_000_000;

/// Plays a recording, and writes a report of what the clients are sent and of the frames that are
/// shown. `ppm`, if it is there, gets an image for each frame. The output's sides are 1 to 4,096
/// pixels.
///
/// Each image is the desktop as its tick began, painted from nothing in stacking order. That holds
/// at each point that no window covers of a client that broke a promise since it connected. A
/// client promises to damage what it changes, to leave a shown buffer as it is, and to call only
/// opaque pixels opaque.
///
/// # Errors
///
/// `BadLine` is decided before anything of its line is done. `Side` comes only if a side file that
/// is asked for isn't there, or if a call on the side files failed. After both the report has the
/// lines before.
pub fn replay<A: Allocator + Copy, R: BufRead, W: Write, P: Write, S: SideFiles>(
    alloc: A,
    config: Config,
    reader: &mut R,
    writer: &mut W,
    ppm: &mut Option<P>,
    side: &mut S,
) -> Result<Summary, ReplayError>
    requires width { is_side config.width ≡ true }
    requires height { is_side config.height ≡ true }
    ensures played { IfOk result (λ summary. (first : Stage) × IsFirst config first × IsPlayed (files_of S.opens S.gives S.fault_count) first side.old side.new summary (R.remaining reader.old) (W.contents writer.old) (W.contents writer.new)
        (images_in P.contents ppm.old) (images_in P.contents ppm.new)) }
    ensures stopped { IfErr result (λ error. (first : Stage) × IsFirst config first × StopsAs (files_of S.opens S.gives S.fault_count) error first side.old side.new (R.remaining reader.old) (W.contents writer.old) (W.contents writer.new)
        (images_in P.contents ppm.old) (images_in P.contents ppm.new)) }
{
    match Session::new(alloc, config) {
        Ok(session) => {
            let mut player = Player {
                session,
                number: 1,
                text: Vec::new(alloc),
                piece: Vec::new(alloc),
            };
            player.play(reader, writer, ppm, side)
        }
        Err(_) => Err(ReplayError::Memory),
    }
}

/// A session that a recording is played to, with the line that is played.
#[derive(Drop)]
struct Player<A: Allocator> {
    session: Session<A>,
    /// The line's number, from 1 on.
    number: u32,
    /// The line without its line feed.
    text: Vec<u8, A>,
    /// The bytes that it spells.
    piece: Vec<u8, A>,
}

impl<A: Allocator + Copy> Player<A> {
    /// Plays a recording.
    fn play<R: BufRead, W: Write, P: Write, S: SideFiles>(
        &mut self,
        reader: &mut R,
        writer: &mut W,
        ppm: &mut Option<P>,
        side: &mut S,
    ) -> Result<Summary, ReplayError>
        ensures played { IfOk result (λ summary. (first : Stage) → Stands self.old.session first → IsPlayed (files_of S.opens S.gives S.fault_count) first side.old side.new summary (R.remaining reader.old) (W.contents writer.old) (W.contents writer.new)
            (images_in P.contents ppm.old) (images_in P.contents ppm.new)) }
        ensures stopped { IfErr result (λ error. (first : Stage) → Stands self.old.session first → StopsAs (files_of S.opens S.gives S.fault_count) error first side.old side.new (R.remaining reader.old) (W.contents writer.old) (W.contents writer.new)
            (images_in P.contents ppm.old) (images_in P.contents ppm.new)) }
    {
        let mut frames = 0;
        let mut clients = 0;
        for lines in 0..MAX_LINES {
            self.number = lines + 1;
            match self.play_line(reader, writer, ppm, side)? {
                None => return Ok(Summary {
                    lines,
                    frames,
                    clients,
                }),
                Some(shown) => {
                    frames += shown.frames;
                    clients += shown.clients;
                }
            }
        }
        if read_text(MAX_LINES + 1, reader, &mut self.text)? {
            return Err(ReplayError::BadLine(MAX_LINES + 1));
        }
        Ok(Summary {
            lines: MAX_LINES,
            frames,
            clients,
        })
    }

    /// Plays the next line. `None` at the end of the recording.
    fn play_line<R: BufRead, W: Write, P: Write, S: SideFiles>(
        &mut self,
        reader: &mut R,
        writer: &mut W,
        ppm: &mut Option<P>,
        side: &mut S,
    ) -> Result<Option<Shown>, ReplayError>
        ensures played { IfOk result (λ shown. MatchOption shown (IsAtEnd (R.remaining reader.old) × (writer.new ≡ writer.old) × (ppm.new ≡ ppm.old) × (side.new ≡ side.old))
            (λ shown. TakesOne (files_of S.opens S.gives S.fault_count) side.old side.new (R.remaining reader.old) (R.remaining reader.new) self.old.session self.new.session (W.contents writer.old) (W.contents writer.new)
            (Counts (images_in P.contents ppm.old) (images_in P.contents ppm.new) shown.frames shown.clients))) }
        ensures small { IfOk result (λ shown. MatchOption shown ⊤ (λ shown. (shown.frames ≤ 1) × (shown.clients ≤ 1))) }
        ensures failed { IfErr result (λ error. FailsAt error self.old.number (R.remaining reader.old) ((writer.new ≡ writer.old) × (ppm.new ≡ ppm.old) × (side.new ≡ side.old))
            ((writer.new ≡ writer.old) × (ppm.new ≡ ppm.old) × ((d : Desktop) → Agrees self.old.session.desk d
            → IsLackingLine (files_of S.opens S.gives S.fault_count) (R.remaining reader.old) d side.old side.new))) }
    {
        if !read_text(self.number, reader, &mut self.text)? {
            return Ok(None);
        }
        let Some(line) = parse(&self.text, &mut self.piece)? else {
            return Err(ReplayError::BadLine(self.number));
        };
        let asked = Asked {
            line,
            piece: &self.piece,
        };
        match take_line(&mut self.session, asked, writer, ppm, side) {
            Ok(shown) => Ok(Some(shown)),
            Err(StepError::Write) => Err(ReplayError::Write),
            Err(StepError::Side) => Err(ReplayError::Side(self.number)),
            Err(StepError::Memory) => Err(ReplayError::Memory),
        }
    }
}

/// Reads the next line, which has this number, without its line feed. The answer is false at the
/// end.
fn read_text<R: BufRead, A: Allocator>(
    number: u32,
    reader: &mut R,
    text: &mut Vec<u8, A>,
) -> Result<bool, ReplayError>
    ensures taken { result ≡ Ok true → TakesLine (R.remaining reader.old) (R.remaining reader.new) text.new.items }
    ensures end { result ≡ Ok false → IsAtEnd (R.remaining reader.old) }
    ensures short { OnOk result (length text.new.items ≤ 140000) }
    ensures failed { IfErr result (λ error. FailsAt error number (R.remaining reader.old) ⊤ ⊥) }
{
    read_line(reader, text).map_err(|error| match error {
        LineError::Read => ReplayError::Read,
        LineError::TooLong => ReplayError::BadLine(number),
        LineError::Memory => ReplayError::Memory,
    })
}
