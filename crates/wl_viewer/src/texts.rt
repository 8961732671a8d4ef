//! What is told to a viewer, as text and as pixels.

ghost use Rattle.std.specs.Prelude.{◌≡◌, ◌++◌, OnOk};
ghost use Rattle.std.specs.Io.KnownBytes.{Appends};
ghost use Rattle.wl_recording.specs.Text.{frame_line};
ghost use Rattle.wl_session.specs.Run.{LiesIn};
ghost use Rattle.wl_viewer.specs.Telling.{count_line, greeting, piece_of, piece_text, pixels_of, place_text, synced_line, window_line};

use std::alloc::{AllocError, Allocator};
use std::io;
use std::io::Write;
use wl_session::{Framebuffer, Run};

/// A window that is shown, as a viewer is told of it.
#[derive(Clone, Copy, Debug, PartialEq, Eq)]
pub struct WindowLine {
    /// The number of its client.
    pub client: u32,
    /// The id of its wl_surface.
    pub surface: u32,
    /// The left edge, in pixels from that of the output.
    pub x: i32,
    /// The upper edge, in pixels from that of the output.
    pub y: i32,
    /// The width, in pixels.
    pub w: u32,
    /// The height, in pixels.
    pub h: u32,
}

/// Writes the sides of the output, in pixels.
pub(crate) fn write_greeting<W: Write>(width: u32, height: u32, writer: &mut W) -> io::Result<()>
    ensures { OnOk result (Appends (W.contents writer.old) (W.contents writer.new) (greeting width height)) }
{
    write!(writer, "wlframe 1 {width} {height}\n")
}

/// Writes that an update of this many runs follows.
pub(crate) fn write_head<W: Write>(time: u32, count: usize, writer: &mut W) -> io::Result<()>
    ensures { OnOk result (Appends (W.contents writer.old) (W.contents writer.new) (frame_line time count)) }
{
    write!(writer, "frame {time} {count}\n")
}

/// Writes the answer to a sync.
pub(crate) fn write_synced<W: Write>(number: u32, time: u32, writer: &mut W) -> io::Result<()>
    ensures { OnOk result (Appends (W.contents writer.old) (W.contents writer.new) (synced_line number time)) }
{
    write!(writer, "synced {number} {time}\n")
}

/// Writes that this many windows follow.
pub(crate) fn write_count<W: Write>(count: usize, writer: &mut W) -> io::Result<()>
    ensures { OnOk result (Appends (W.contents writer.old) (W.contents writer.new) (count_line count)) }
{
    write!(writer, "windows {count}\n")
}

/// Writes a window.
pub(crate) fn write_window<W: Write>(line: &WindowLine, writer: &mut W) -> io::Result<()>
    ensures { OnOk result (Appends (W.contents writer.old) (W.contents writer.new) (window_line line.now)) }
{
    let WindowLine {
        client,
        surface,
        x,
        y,
        w,
        h,
    } = *line;
    write!(writer, "window {client} {surface} ")?;
    write!(writer, "{x} {y} ")?;
    write!(writer, "{w} {h}\n")
}

/// Appends a run: its first column, its row and its width in pixels, in 4 bytes each with the least
/// first, and then its pixels.
pub(crate) fn append_run<A: Allocator>(
    out: &mut Vec<u8, A>,
    run: &Run,
    frame: &Framebuffer<A>,
) -> Result<(), AllocError>
    requires { LiesIn frame.now.width frame.now.height run.now }
    ensures { OnOk result (out.new.items ≡ out.old.items ++ piece_text (piece_of frame.now run.now)) }
{
    append_place(out, run)?;
    out.extend_from_slice(pixels_of(frame, run))?;
    Ok(())
}

/// Appends where a run begins and how wide it is.
fn append_place<A: Allocator>(out: &mut Vec<u8, A>, run: &Run) -> Result<(), AllocError>
    ensures { OnOk result (out.new.items ≡ out.old.items ++ place_text run.now.x run.now.y run.now.w) }
{
    out.extend_from_slice(&run.x.to_le_bytes())?;
    out.extend_from_slice(&run.y.to_le_bytes())?;
    out.extend_from_slice(&run.w.to_le_bytes())?;
    Ok(())
}

/// The bytes of the pixels of a run.
fn pixels_of<'a, A: Allocator>(frame: &'a Framebuffer<A>, run: &Run) -> &'a [u8]
    requires { LiesIn frame.now.width frame.now.height run.now }
    ensures { result.now ≡ pixels_of frame.now run.now }
{
    let pixels = frame.pixels();
    let first = 4 * (run.y as usize * frame.width() as usize + run.x as usize);
    let len = 4 * run.w as usize;
    &pixels[first..first + len]
}
