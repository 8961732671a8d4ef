//! A recording of what a server's clients do, and which client has which number in it.

ghost use Rattle.std.specs.Prelude.{◌≡◌, ◌<◌, ◌≤◌, ◌+◌, ◌-◌, ◌^◌, ◌++◌, ◌∷◌, [], ℕ, List, None, OnOk, Option, Some, drop, false, length, replicate, take};
ghost use Rattle.wl_recording.specs.Line.{Asked, Connect, meaning};
ghost use Rattle.wl_recording.specs.Recording.{Differs, Feeds, HoldsTo, goes, joined, left, number_of, stores};

use crate::differing::difference;
use crate::line::Line;
use crate::place::Place;
use crate::recorder::Recorder;
use crate::roster::Roster;
use crate::writing::PIECE_LIMIT;
use std::io;
use std::io::{ErrorKind, Write};
use std::marker::Model;

/// A recording of what a server's clients do. The calls name clients by their numbers in its
/// session. After a failed write it writes nothing more.
#[derive(Drop)]
pub struct Recording<W> {
    recorder: Recorder<W>,
    roster: Roster,
    has_failed: bool,
}

impl<W> Model for Recording<W> {
    ghost use Rattle.wl_recording.specs.Recording.{Recorded};

    ghost Value = { Recorded W };

    ghost view = { λ r. record { written = r.recorder; clients = r.roster; has_failed = r.has_failed } };
}

impl<W: Write> Recording<W> {
    /// A recording of nothing, without clients.
    pub fn new(writer: W) -> Recording<W>
        ensures { result ≡ record { written = record { writer = writer; lines = 0 }; clients = replicate 32 None; has_failed = false } }
    {
        Recording {
            recorder: Recorder::new(writer),
            roster: Roster::new(),
            has_failed: false,
        }
    }

    /// A client connects, and gets the lowest free number of the recording.
    pub fn connect(&mut self, client: u32)
        ensures asked { (first : Option (List ℕ)) (asked : List Asked) → HoldsTo 1000000 W.contents first asked self.old
            → HoldsTo 1000000 W.contents first (asked ++ Connect ∷ []) self.new }
        ensures clients { self.new.clients ≡ joined client self.old.clients }
    {
        self.record(&Line::Connect, &[]);
        self.roster.join(client);
    }

    /// A client sends a piece of its stream. A long piece goes into several lines, since a stream
    /// may be cut anywhere.
    pub fn feed(&mut self, client: u32, piece: &[u8])
        ensures asked { (first : Option (List ℕ)) (asked : List Asked) → HoldsTo 1000000 W.contents first asked self.old
            → (more : List Asked) × Feeds (number_of client self.old.clients) piece.now more × HoldsTo 1000000 W.contents first (asked ++ more) self.new }
        ensures clients { self.new.clients ≡ self.old.clients }
    {
        if let Some(client) = self.roster.number(client) {
            self.feed_all(client, piece);
        }
    }

    /// Bytes come into a client's store, which holds `held` in their place. The line has those that
    /// differ, from the first to the last. If none does, there is no line.
    pub fn store(&mut self, place: &Place, bytes: &[u8], held: &[u8])
        requires short { length bytes.now ≤ PIECE_LIMIT }
        requires alike { length held.now ≡ length bytes.now }
        requires room { place.now.at + length bytes.now < 2 ^ 32 }
        ensures asked { (first : Option (List ℕ)) (asked : List Asked) → HoldsTo 1000000 W.contents first asked self.old
            → (from : ℕ) × (to : ℕ) × Differs bytes.now held.now from to
            × HoldsTo 1000000 W.contents first (asked ++ stores (number_of place.now.client self.old.clients) place.now from (take (to - from) (drop from bytes.now))) self.new }
        ensures clients { self.new.clients ≡ self.old.clients }
    {
        let differs = difference(bytes, held);
        let from = differs.start;
        if let Some(client) = self.roster.number(place.client) {
            let piece = &bytes[differs];
            self.store_there(client, place, from, piece);
        }
    }

    /// A client goes. It keeps its number until it leaves.
    pub fn gone(&mut self, client: u32)
        ensures asked { (first : Option (List ℕ)) (asked : List Asked) → HoldsTo 1000000 W.contents first asked self.old
            → HoldsTo 1000000 W.contents first (asked ++ goes (number_of client self.old.clients)) self.new }
        ensures clients { self.new.clients ≡ self.old.clients }
    {
        if let Some(client) = self.roster.number(client) {
            self.record(&Line::Gone { client }, &[]);
        }
    }

    /// A client ended. Its number in the recording is free again.
    pub fn leave(&mut self, client: u32)
        ensures written { self.new.written ≡ self.old.written }
        ensures has_failed { self.new.has_failed ≡ self.old.has_failed }
        ensures clients { self.new.clients ≡ left client self.old.clients }
    {
        self.roster.leave(client);
    }

    /// The number that a client of the session has in the recording. `None` if it has none.
    pub fn number(&self, client: u32) -> Option<u32>
        ensures { result ≡ number_of client self.now.clients }
    {
        self.roster.number(client)
    }

    /// Records what is asked. `piece` has the bytes of a `Bytes` or a `Store`.
    pub fn record(&mut self, line: &Line<'_>, piece: &[u8])
        ensures asked { (first : Option (List ℕ)) (asked : List Asked) → HoldsTo 1000000 W.contents first asked self.old
            → HoldsTo 1000000 W.contents first (asked ++ meaning piece.now line.now ∷ []) self.new }
        ensures clients { self.new.clients ≡ self.old.clients }
    {
        if self.has_failed {
            return;
        }
        match self.recorder.record(line, piece) {
            Ok(()) => {}
            Err(_) => self.has_failed = true,
        }
    }

    /// Flushes the writer. An `Err` says that a write failed, now or before.
    pub fn flush(&mut self) -> io::Result<()>
        ensures asked { (first : Option (List ℕ)) (asked : List Asked) → HoldsTo 1000000 W.contents first asked self.old
            → HoldsTo 1000000 W.contents first asked self.new }
        ensures whole { OnOk result (self.new.has_failed ≡ false) }
        ensures clients { self.new.clients ≡ self.old.clients }
    {
        if self.has_failed {
            return Err(io::Error::from(ErrorKind::Other));
        }
        let flushed = self.recorder.flush();
        self.has_failed = flushed.is_err();
        flushed
    }

    /// Writes that bytes are put into a store. `client` is the number in the recording, and `from`
    /// says how many bytes behind the place these begin.
    fn store_there(&mut self, client: u32, place: &Place, from: usize, piece: &[u8])
        requires { place.now.at + from < 2 ^ 32 }
        ensures asked { (first : Option (List ℕ)) (asked : List Asked) → HoldsTo 1000000 W.contents first asked self.old
            → HoldsTo 1000000 W.contents first (asked ++ stores (Some client) place.now from piece.now) self.new }
        ensures clients { self.new.clients ≡ self.old.clients }
    {
        if piece.is_empty() {
            return;
        }
        let there = Place {
            client,
            store: place.store,
            at: place.at + from as u32,
        };
        self.record(&Line::Store { place: there }, piece);
    }

    /// Writes the bytes of a client in lines. `client` is the number in the recording.
    fn feed_all(&mut self, client: u32, piece: &[u8])
        ensures asked { (first : Option (List ℕ)) (asked : List Asked) → HoldsTo 1000000 W.contents first asked self.old
            → (more : List Asked) × Feeds (Some client) piece.now more × HoldsTo 1000000 W.contents first (asked ++ more) self.new }
        ensures clients { self.new.clients ≡ self.old.clients }
    {
        let mut done = 0;
        while done < piece.len() {
            let end = piece.len().min(done + PIECE_LIMIT);
            self.record(&Line::Bytes { client }, &piece[done..end]);
            done = end;
        }
    }
}
