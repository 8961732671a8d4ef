//! The writer of a recording, line by line as things happen.

ghost use Rattle.std.specs.Prelude.{◌≡◌, ◌≤◌, ◌++◌, ◌∷◌, [], ℕ, List, OnOk, Option, length};
ghost use Rattle.std.specs.Io.KnownBytes.{Keeps};
ghost use Rattle.wl_recording.specs.Line.{Asked, meaning};
ghost use Rattle.wl_recording.specs.Recording.{Holds, Recording};

use crate::line::Line;
use crate::writing::{write_last_line, write_line};
use std::io;
use std::io::Write;
use std::marker::Model;

/// How many lines a recording may have.
pub const MAX_LINES: u32 = 1_000_000;

/// Writes a recording: a line for each thing that is asked. The last line that a recording may have
/// says that it ends. Nothing more is written then.
#[derive(Drop)]
pub struct Recorder<W> {
    writer: W,
    lines: u32,
}

impl<W> Model for Recorder<W> {
    ghost use Rattle.wl_recording.specs.Recording.{Recording};

    ghost Value = { Recording W };

    ghost view = { λ r. record { writer = r.writer; lines = r.lines } };
}

impl<W: Write> Recorder<W> {
    /// A recorder that has written nothing yet.
    pub fn new(writer: W) -> Recorder<W>
        ensures { result ≡ record { writer = writer; lines = 0 } }
    {
        Recorder { writer, lines: 0 }
    }

    /// Writes the line that asks this. `piece` has the bytes of a `Bytes` or a `Store`.
    ///
    /// # Errors
    ///
    /// The writer's. It may have written a part of the line then.
    pub fn record(&mut self, line: &Line<'_>, piece: &[u8]) -> io::Result<()>
        ensures { OnOk result ((first : Option (List ℕ)) (asked : List Asked) → Holds MAX_LINES W.contents first asked self.old
            → Holds MAX_LINES W.contents first (asked ++ meaning piece.now line.now ∷ []) self.new) }
    {
        if self.lines >= MAX_LINES {
            return Ok(());
        }
        self.lines += 1;
        if self.lines == MAX_LINES {
            write_last_line(&mut self.writer)
        } else {
            write_line(line, piece, &mut self.writer)
        }
    }

    /// Flushes the writer. The only error is the writer's.
    pub fn flush(&mut self) -> io::Result<()>
        ensures text { Keeps (W.contents self.old.writer) (W.contents self.new.writer) }
        ensures lines { self.new.lines ≡ self.old.lines }
    {
        self.writer.flush()
    }
}
