//! The lines of a report.

ghost use Rattle.std.specs.Prelude.{◌≡◌, ◌*◌, ◌<◌, ◌≤◌, length, take, OnOk};
ghost use Rattle.std.specs.Io.KnownBytes.{Appends};
ghost use Rattle.wl_recording.specs.Text.{cause_text, client_line, end_line, frame_line, full_line, hex_digit, hex_of, none_line, nostore_line, outside_line, to_line};

use spec_desktop::Cause;
use std::io;
use std::io::Write;

/// How many bytes are written as hex digits at once.
const CHUNK: usize = 1024;

/// A client connected.
pub fn write_client<W: Write>(client: u32, writer: &mut W) -> io::Result<()>
    ensures { OnOk result (Appends (W.contents writer.old) (W.contents writer.new) (client_line client)) }
{
    write!(writer, "client {client}\n")
}

/// No client could connect.
pub fn write_full<W: Write>(writer: &mut W) -> io::Result<()>
    ensures { OnOk result (Appends (W.contents writer.old) (W.contents writer.new) full_line) }
{
    writer.write_all(b"full\n")
}

/// No client has this number.
pub fn write_none<W: Write>(client: u32, writer: &mut W) -> io::Result<()>
    ensures { OnOk result (Appends (W.contents writer.old) (W.contents writer.new) (none_line client)) }
{
    write!(writer, "none {client}\n")
}

/// The client has no store of this number.
pub fn write_nostore<W: Write>(client: u32, store: u32, writer: &mut W) -> io::Result<()>
    ensures { OnOk result (Appends (W.contents writer.old) (W.contents writer.new) (nostore_line client store)) }
{
    write!(writer, "nostore {client} {store}\n")
}

/// The place is outside the store.
pub fn write_outside<W: Write>(client: u32, store: u32, writer: &mut W) -> io::Result<()>
    ensures { OnOk result (Appends (W.contents writer.old) (W.contents writer.new) (outside_line client store)) }
{
    write!(writer, "outside {client} {store}\n")
}

/// A frame was shown at this time, in milliseconds, with this many damaged pixels.
pub fn write_frame<W: Write>(time: u32, count: u32, writer: &mut W) -> io::Result<()>
    ensures { OnOk result (Appends (W.contents writer.old) (W.contents writer.new) (frame_line time count)) }
{
    write!(writer, "frame {time} {count}\n")
}

/// Bytes are sent to a client.
pub fn write_to<W: Write>(client: u32, bytes: &[u8], writer: &mut W) -> io::Result<()>
    ensures { OnOk result (Appends (W.contents writer.old) (W.contents writer.new) (to_line client bytes.now)) }
{
    write!(writer, "to {client} ")?;
    write_hex(bytes, writer)?;
    writer.write_all(b"\n")
}

/// A client ended.
pub fn write_end<W: Write>(client: u32, cause: Cause, writer: &mut W) -> io::Result<()>
    ensures { OnOk result (Appends (W.contents writer.old) (W.contents writer.new) (end_line client cause)) }
{
    write!(writer, "end {client} ")?;
    write_cause(cause, writer)?;
    writer.write_all(b"\n")
}

fn write_cause<W: Write>(cause: Cause, writer: &mut W) -> io::Result<()>
    ensures { OnOk result (Appends (W.contents writer.old) (W.contents writer.new) (cause_text cause)) }
{
    match cause {
        Cause::Protocol { object, code } => write!(writer, "protocol {object} {code}"),
        Cause::Memory => writer.write_all(b"memory"),
        Cause::Slow => writer.write_all(b"slow"),
        Cause::Gone => writer.write_all(b"gone"),
    }
}

pub(crate) fn write_hex<W: Write>(bytes: &[u8], writer: &mut W) -> io::Result<()>
    ensures { OnOk result (Appends (W.contents writer.old) (W.contents writer.new) (hex_of bytes.now)) }
{
    let mut done = 0;
    while done < bytes.len() {
        let end = bytes.len().min(done + CHUNK);
        write_chunk(&bytes[done..end], writer)?;
        done = end;
    }
    Ok(())
}

fn write_chunk<W: Write>(bytes: &[u8], writer: &mut W) -> io::Result<()>
    requires { length bytes.now ≤ CHUNK }
    ensures { OnOk result (Appends (W.contents writer.old) (W.contents writer.new) (hex_of bytes.now)) }
{
    let mut digits = [0; 2 * CHUNK];
    spell(bytes, &mut digits);
    writer.write_all(&digits[..2 * bytes.len()])
}

/// Puts two hex digits for each byte to the front of `digits`.
fn spell(bytes: &[u8], digits: &mut [u8])
    requires { 2 * length bytes.now ≤ length digits.old }
    ensures { take (2 * length bytes.now) digits.new ≡ hex_of bytes.now }
{
    for i in 0..bytes.len() {
        digits[2 * i] = digit(bytes[i] / 16);
        digits[2 * i + 1] = digit(bytes[i] % 16);
    }
}

fn digit(value: u8) -> u8
    requires { value < 16 }
    ensures { result ≡ hex_digit value }
{
    if value < 10 {
        b'0' + value
    } else {
        b'a' - 10 + value
    }
}
