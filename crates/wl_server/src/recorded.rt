//! A session, and the recording of what is asked of it.

ghost use Rattle.std.specs.Prelude.{◌≡◌, ◌<◌, ◌≤◌, ℕ, IfSome, None, OnErr, OnOk, Some, false, length, replicate};
ghost use Rattle.spec_desktop.specs.Act.{Button, Close, Connect, Feed, Leave, Motion, Send, Store, peer_at, store_size_of};
ghost use Rattle.spec_desktop.specs.declared.answers.Done.{Done};
ghost use Rattle.wl_session.specs.Course.{TakesCourse};
ghost use Rattle.wl_session.specs.NextStore.{next_store_of};

use crate::error::TurnError;
use crate::noting::{
    flush_recording, note_button, note_connect, note_fed, note_gone, note_motion, note_store,
    settle,
};
use std::alloc::Allocator;
use std::io::Write;
use std::marker::Model;
use wl_recording::{Place, Recording};
use wl_session::{ClientNo, ConnectError, Fed, Session, StoreNo, Stored};

/// A session, and the recording of what is asked of it, where there is to be one. What changes the
/// session goes by here.
///
/// Each act is a line, in order; before it those that ended by then have lost their numbers there,
/// and those that a replay wouldn't end are gone. This is so of each value, unless a write failed
/// (`IsRecorded`).
#[derive(Drop)]
pub struct Recorded<A: Allocator, R: Write> {
    pub session: Session<A>,
    pub(crate) recording: Option<Recording<R>>,
}

impl<A: Allocator, R: Write> Model for Recorded<A, R> {
    ghost use Rattle.wl_server.specs.Recorded.{IsRecorded, RecordedView};

    ghost Value = { RecordedView R };

    ghost view = { λ r. record { session = r.session; recording = r.recording } };

    ghost invariant = { λ r. IsRecorded R.contents r.session r.recording };
}

impl<A: Allocator + Copy, R: Write> Recorded<A, R> {
    ghost use Rattle.spec_desktop.specs.Desktop.{Desktop, empty};
    ghost use Rattle.wl_server.specs.Agreeing.{Agrees};
    ghost use Rattle.wl_server.specs.Recorded.{IsAllRecorded, IsNoted, IsRecorded, Looks, OnBoth};

    /// A session that isn't recorded. It takes no memory.
    pub fn without(session: Session<A>) -> Recorded<A, R>
        ensures { result ≡ record { session = session; recording = None } }
    {
        Recorded {
            session,
            recording: None,
        }
    }

    /// A session of which nothing was asked yet. It takes no memory.
    pub fn new(session: Session<A>, writer: R) -> Recorded<A, R>
        requires { (width : ℕ) × (height : ℕ) × Agrees session.desk (empty (record { width = width; height = height })) }
        ensures session { result.session ≡ session }
        ensures recording { result.recording ≡ Some (record { written = record { writer = writer; lines = 0 }; clients = replicate 32 None; has_failed = false }) }
    {
        Recorded {
            session,
            recording: Some(Recording::new(writer)),
        }
    }

    /// What was asked since the session began stands in the recording, in order, if there is one,
    /// and no write failed.
    pub fn is_recorded(&self)
        ensures { IsRecorded R.contents self.now.session self.now.recording }
    {
        let _recording = &self.recording;
    }

    /// How many bytes a client's store has. None where the client or the store isn't live.
    pub(crate) fn store_size(&self, client: ClientNo, store: StoreNo) -> Option<u32>
        ensures { (d : Desktop) → Agrees self.now.session.desk d → result ≡ store_size_of store (peer_at client d) }
    {
        self.session.store_size(client, store)
    }

    /// The least number of a client's live store that is above this one. None where there is none.
    pub(crate) fn next_store(&self, client: ClientNo, number: StoreNo) -> Option<StoreNo>
        ensures next { (d : Desktop) → Agrees self.now.session.desk d → result ≡ next_store_of number (peer_at client d) }
        ensures rises { IfSome result (λ next. number < next) }
    {
        self.session.next_store(client, number)
    }

    /// A client connects.
    pub(crate) fn connect(&mut self) -> Result<ClientNo, ConnectError>
        ensures course { TakesCourse Connect (Done.Connect result) self.old.session self.new.session }
        ensures noted { IsNoted R.contents Connect (Done.Connect result) self.old self.new }
        ensures unchanged { OnErr result (self.new.session ≡ self.old.session) }
        ensures frame { self.new.session.frame ≡ self.old.session.frame }
    {
        settle(&mut self.recording, &self.session);
        let connected = self.session.connect();
        note_connect(&mut self.recording, connected);
        connected
    }

    /// A piece of a client's stream comes.
    pub(crate) fn feed(&mut self, client: ClientNo, piece: &[u8]) -> Fed
        ensures course { TakesCourse (Feed client piece.now) (Done.Feed result) self.old.session self.new.session }
        ensures noted { IsNoted R.contents (Feed client piece.now) (Done.Feed result) self.old self.new }
        ensures frame { self.new.session.frame ≡ self.old.session.frame }
    {
        settle(&mut self.recording, &self.session);
        note_fed(&mut self.recording, client, piece);
        self.session.feed(client, piece)
    }

    /// Bytes come into a store.
    pub(crate) fn store(
        &mut self,
        client: ClientNo,
        store: StoreNo,
        at: u32,
        bytes: &[u8],
    ) -> Stored
        requires { length bytes.now ≤ 4096 }
        ensures course { TakesCourse (Store client store at bytes.now) (Done.Store result) self.old.session self.new.session }
        ensures noted { IsNoted R.contents (Store client store at bytes.now) (Done.Store result) self.old self.new }
        ensures frame { self.new.session.frame ≡ self.old.session.frame }
    {
        settle(&mut self.recording, &self.session);
        let place = Place { client, store, at };
        note_store(&mut self.recording, &self.session, &place, bytes);
        self.session.store(client, store, at, bytes)
    }

    /// A client goes.
    pub(crate) fn gone(&mut self, client: ClientNo) -> bool
        ensures course { TakesCourse (Leave client) (Done.Gone result) self.old.session self.new.session }
        ensures noted { IsNoted R.contents (Leave client) (Done.Gone result) self.old self.new }
        ensures frame { self.new.session.frame ≡ self.old.session.frame }
    {
        settle(&mut self.recording, &self.session);
        note_gone(&mut self.recording, client);
        self.session.gone(client)
    }

    /// So many of a client's unsent bytes were sent. A replay sends all at once.
    pub(crate) fn sent(&mut self, client: ClientNo, count: usize) -> bool
        ensures course { TakesCourse (Send client count) (Done.Sent result) self.old.session self.new.session }
        ensures noted { IsNoted R.contents (Send client count) (Done.Sent result) self.old self.new }
        ensures frame { self.new.session.frame ≡ self.old.session.frame }
    {
        settle(&mut self.recording, &self.session);
        self.session.sent(client, count)
    }

    /// The number of a client that ended is free.
    pub(crate) fn close(&mut self, client: ClientNo) -> bool
        ensures course { TakesCourse (Close client) (Done.Close result) self.old.session self.new.session }
        ensures noted { IsNoted R.contents (Close client) (Done.Close result) self.old self.new }
        ensures frame { self.new.session.frame ≡ self.old.session.frame }
    {
        settle(&mut self.recording, &self.session);
        self.session.close(client)
    }

    /// The pointer goes to a point of the output, at a time in milliseconds.
    pub(crate) fn motion(&mut self, time: u32, x: i32, y: i32)
        ensures course { TakesCourse (Motion time x y) Done.Motion self.old.session self.new.session }
        ensures noted { IsNoted R.contents (Motion time x y) Done.Motion self.old self.new }
        ensures frame { self.new.session.frame ≡ self.old.session.frame }
    {
        settle(&mut self.recording, &self.session);
        note_motion(&mut self.recording, time, x, y);
        self.session.motion(time, x, y);
    }

    /// A button of the pointer is pressed or released, at a time in milliseconds.
    pub(crate) fn button(&mut self, time: u32, code: u32, pressed: bool)
        ensures course { TakesCourse (Button time code pressed) Done.Button self.old.session self.new.session }
        ensures noted { IsNoted R.contents (Button time code pressed) Done.Button self.old self.new }
        ensures frame { self.new.session.frame ≡ self.old.session.frame }
    {
        settle(&mut self.recording, &self.session);
        note_button(&mut self.recording, time, code, pressed);
        self.session.button(time, code, pressed);
    }

    /// What was written isn't held back any more. `Write` is answered where a write failed.
    pub(crate) fn flush(&mut self) -> Result<(), TurnError>
        ensures kept { self.new.session ≡ self.old.session }
        ensures noted { OnBoth (Looks R.contents self.old.session) self.old.recording self.new.recording }
        ensures recorded { OnOk result (IsAllRecorded R.contents self.new.session self.new.recording) }
    {
        settle(&mut self.recording, &self.session);
        flush_recording(&mut self.recording)
    }
}
