//! What is noted in the recording of a session, if there is one.

ghost use Rattle.std.specs.Option.{option_copied};
ghost use Rattle.std.specs.Prelude.{◌≡◌, ◌+◌, ◌-◌, ◌<◌, ◌≤◌, ◌^◌, ℕ, IfSome, List, Option, OnOk, Some, length};
ghost use Rattle.spec_desktop.specs.Act.{Button, Connect, Feed, Leave, Motion, Store, Tick, peer_at};
ghost use Rattle.spec_desktop.specs.Desktop.{Desktop};
ghost use Rattle.spec_desktop.specs.declared.answers.Done.{Done};
ghost use Rattle.spec_desktop.specs.declared.answers.Fed.{Fed};
ghost use Rattle.wl_session.specs.StoreBytes.{store_bytes_of};
ghost use Rattle.wl_server.specs.Agreeing.{Agrees};
ghost use Rattle.wl_server.specs.Recorded.{Flushes, HoldsNotes, IsWhole, Looks, Notes, NotesIn, NotesOf, OnBoth, held_at, looked_at, outlasts};

use crate::error::{TurnError, write_failed};
use std::alloc::Allocator;
use std::io::Write;
use wl_recording::{Line, Place, Recording};
use wl_session::{Cause, ClientNo, ConnectError, Fed, MAX_CLIENTS, Session};

/// Whoever ended in the session has no number in the recording any more.
pub(crate) fn settle<A: Allocator + Copy, R: Write>(
    recording: &mut Option<Recording<R>>,
    session: &Session<A>,
)
    ensures { OnBoth (Looks R.contents session.now) recording.old recording.new }
{
    if let Some(recording) = recording {
        look_at_all(recording, session);
    }
}

fn look_at_all<A: Allocator + Copy, R: Write>(recording: &mut Recording<R>, session: &Session<A>)
    ensures { Looks R.contents session.now recording.old recording.new }
{
    for place in 0..MAX_CLIENTS {
        let client = place as u32 + 1;
        look_at(recording, client, session.status(client));
    }
}

/// Who ended has no number there any more.
fn look_at<R: Write>(recording: &mut Recording<R>, client: ClientNo, status: Fed)
    ensures { (first : Option (List ℕ)) (notes : Notes) → HoldsNotes R.contents first notes recording.old
        → HoldsNotes R.contents first (looked_at client status notes) recording.new }
{
    match status {
        Fed::Alive => {}
        Fed::Ended(cause) => end_there(recording, client, cause),
        Fed::NoClient => recording.leave(client),
    }
}

/// Who ended for this cause has no number there any more. Where a replay wouldn't end it, it goes.
fn end_there<R: Write>(recording: &mut Recording<R>, client: ClientNo, cause: Cause)
    ensures { (first : Option (List ℕ)) (notes : Notes) → HoldsNotes R.contents first notes recording.old
        → HoldsNotes R.contents first (looked_at client (Fed.Ended cause) notes) recording.new }
{
    if outlasts(cause) {
        recording.gone(client);
        recording.leave(client);
    } else {
        recording.leave(client);
    }
}

/// Whether a replay doesn't end a client for this cause: it takes all bytes that wait after each
/// line, and has memory.
fn outlasts(cause: Cause) -> bool
    ensures { result ≡ outlasts cause }
{
    match cause {
        Cause::Slow | Cause::Memory => true,
        Cause::Gone | Cause::Protocol { .. } => false,
    }
}

/// A client connected, or couldn't.
pub(crate) fn note_connect<R: Write>(
    recording: &mut Option<Recording<R>>,
    connected: Result<ClientNo, ConnectError>,
)
    ensures { OnBoth (NotesOf R.contents Connect (Done.Connect connected)) recording.old recording.new }
{
    if let Some(recording) = recording {
        note_connected(recording, connected);
    }
}

fn note_connected<R: Write>(recording: &mut Recording<R>, connected: Result<ClientNo, ConnectError>)
    ensures { NotesOf R.contents Connect (Done.Connect connected) recording.old recording.new }
{
    match connected {
        Ok(client) => recording.connect(client),
        Err(_) => {}
    }
}

/// A piece of a client's stream comes.
pub(crate) fn note_fed<R: Write>(
    recording: &mut Option<Recording<R>>,
    client: ClientNo,
    piece: &[u8],
)
    ensures { (done : Done) → OnBoth (NotesOf R.contents (Feed client piece.now) done) recording.old recording.new }
{
    if let Some(recording) = recording {
        recording.feed(client, piece);
    }
}

/// Bytes come into a store. Noted are those that differ from what it holds in their place.
pub(crate) fn note_store<A: Allocator + Copy, R: Write>(
    recording: &mut Option<Recording<R>>,
    session: &Session<A>,
    place: &Place,
    bytes: &[u8],
)
    requires { length bytes.now ≤ 4096 }
    ensures { (done : Done) → OnBoth (NotesIn R.contents session.now (Store place.now.client place.now.store place.now.at bytes.now) done) recording.old recording.new }
{
    if let Some(recording) = recording {
        note_put(recording, session, place, bytes);
    }
}

fn note_put<A: Allocator + Copy, R: Write>(
    recording: &mut Recording<R>,
    session: &Session<A>,
    place: &Place,
    bytes: &[u8],
)
    requires { length bytes.now ≤ 4096 }
    ensures { (done : Done) → NotesIn R.contents session.now (Store place.now.client place.now.store place.now.at bytes.now) done recording.old recording.new }
{
    if let Some(held) = held_at(session, place, bytes.len()) {
        recording.store(place, bytes, held);
    }
}

/// What a store holds from a place on, so many bytes. None if they pass its end, or if the client
/// or the store isn't live.
fn held_at<'a, A: Allocator + Copy>(
    session: &'a Session<A>,
    place: &Place,
    count: usize,
) -> Option<&'a [u8]>
    requires { count ≤ 4096 }
    ensures held { (d : Desktop) → Agrees session.now.desk d
        → option_copied result ≡ held_at place.now.at count (store_bytes_of place.now.store (peer_at place.now.client d)) }
    ensures len { IfSome result (λ held. length held.now ≡ count) }
    ensures room { IfSome result (λ held. place.now.at + count < 2 ^ 32) }
{
    let size = session.store_size(place.client, place.store)?;
    let from = place.at as usize;
    let end = from + count;
    if end > size as usize {
        return None;
    }
    part(session.store_bytes(place.client, place.store)?, from, end)
}

/// The bytes from one place to another. None if they pass the end.
fn part(bytes: &[u8], from: usize, end: usize) -> Option<&[u8]>
    requires { from ≤ end }
    ensures held { option_copied result ≡ held_at from (end - from) (Some bytes.now) }
    ensures len { IfSome result (λ held. length held.now ≡ end - from) }
{
    if bytes.len() < end {
        return None;
    }
    Some(&bytes[from..end])
}

/// A client goes.
pub(crate) fn note_gone<R: Write>(recording: &mut Option<Recording<R>>, client: ClientNo)
    ensures { (done : Done) → OnBoth (NotesOf R.contents (Leave client) done) recording.old recording.new }
{
    if let Some(recording) = recording {
        recording.gone(client);
    }
}

/// A frame is shown.
pub(crate) fn note_tick<R: Write>(recording: &mut Option<Recording<R>>, time: u32)
    ensures { OnBoth (NotesOf R.contents (Tick time) Done.Tick) recording.old recording.new }
{
    if let Some(recording) = recording {
        recording.record(&Line::Tick { time }, &[]);
    }
}

/// The pointer goes to a point.
pub(crate) fn note_motion<R: Write>(recording: &mut Option<Recording<R>>, time: u32, x: i32, y: i32)
    ensures { OnBoth (NotesOf R.contents (Motion time x y) Done.Motion) recording.old recording.new }
{
    if let Some(recording) = recording {
        recording.record(&Line::Motion { time, x, y }, &[]);
    }
}

/// A button is pressed or released.
pub(crate) fn note_button<R: Write>(
    recording: &mut Option<Recording<R>>,
    time: u32,
    code: u32,
    pressed: bool,
)
    ensures { OnBoth (NotesOf R.contents (Button time code pressed) Done.Button) recording.old recording.new }
{
    if let Some(recording) = recording {
        recording.record(
            &Line::Button {
                time,
                code,
                pressed,
            },
            &[],
        );
    }
}

/// What was written isn't held back any more. `Write` is answered where a write failed.
pub(crate) fn flush_recording<R: Write>(
    recording: &mut Option<Recording<R>>,
) -> Result<(), TurnError>
    ensures notes { OnBoth (Flushes R.contents) recording.old recording.new }
    ensures whole { OnOk result (IsWhole recording.new) }
{
    match recording {
        Some(recording) => recording.flush().map_err(write_failed),
        None => Ok(()),
    }
}
