//! The lines of a recording, as they are written.

ghost use Rattle.std.specs.Prelude.{◌≡◌, OnOk};
ghost use Rattle.std.specs.Io.KnownBytes.{Appends};
ghost use Rattle.wl_recording.specs.Line.{meaning};
ghost use Rattle.wl_recording.specs.Written.{WrittenIsRead, digit_of, last_line, line_of, place_text, text_of};

use crate::line::Line;
use crate::lines::LINE_LIMIT;
use crate::place::Place;
use crate::report::write_hex;
use std::io;
use std::io::Write;

/// How many bytes one line may spell. Each takes two digits, besides a word and three numbers.
pub const PIECE_LIMIT: usize = 65_536;

/// Appends the line that asks this, with its line feed. `piece` has the bytes of a `Bytes` or a
/// `Store`.
///
/// # Errors
///
/// The writer's. It may have written a part of the line then.
pub fn write_line<W: Write>(line: &Line<'_>, piece: &[u8], writer: &mut W) -> io::Result<()>
    ensures { OnOk result (Appends (W.contents writer.old) (W.contents writer.new) (line_of (meaning piece.now line.now))) }
{
    write_text(line, piece, writer)?;
    writer.write_all(b"\n")
}

/// Appends the line that ends a recording with as many lines as it may have. It asks nothing.
pub fn write_last_line<W: Write>(writer: &mut W) -> io::Result<()>
    ensures { OnOk result (Appends (W.contents writer.old) (W.contents writer.new) last_line) }
{
    writer.write_all(b"# the recording ends here: it has as many lines as a recording may have\n")
}

/// A line that was written is read as what it was written from. Its numbers have to fit, and it
/// spells from 1 to `PIECE_LIMIT` bytes.
pub fn written_is_read()
    ensures { WrittenIsRead PIECE_LIMIT LINE_LIMIT }
{}

fn write_text<W: Write>(line: &Line<'_>, piece: &[u8], writer: &mut W) -> io::Result<()>
    ensures { OnOk result (Appends (W.contents writer.old) (W.contents writer.new) (text_of (meaning piece.now line.now))) }
{
    match *line {
        Line::Connect => writer.write_all(b"connect"),
        Line::Bytes { client } => {
            write!(writer, "bytes {client} ")?;
            write_hex(piece, writer)
        }
        Line::Store { place } => {
            writer.write_all(b"store ")?;
            write_place(&place, writer)?;
            writer.write_all(b" ")?;
            write_hex(piece, writer)
        }
        Line::File { place, name } => {
            writer.write_all(b"file ")?;
            write_place(&place, writer)?;
            writer.write_all(b" ")?;
            writer.write_all(name.as_bytes())
        }
        Line::Gone { client } => write!(writer, "gone {client}"),
        Line::Motion { time, x, y } => write!(writer, "motion {time} {x} {y}"),
        Line::Button {
            time,
            code,
            pressed,
        } => write!(writer, "button {time} {code} {}", digit_of(pressed)),
        Line::Tick { time } => write!(writer, "tick {time}"),
        Line::Nothing => Ok(()),
    }
}

fn write_place<W: Write>(place: &Place, writer: &mut W) -> io::Result<()>
    ensures { OnOk result (Appends (W.contents writer.old) (W.contents writer.new) (place_text place.now)) }
{
    write!(writer, "{} {} {}", place.client, place.store, place.at)
}

/// 1 if a button is pressed, else 0.
fn digit_of(pressed: bool) -> u32
    ensures { result ≡ digit_of pressed }
{
    u32::from(pressed)
}
