//! What a step of a recording leads to: unsent bytes are sent, and ended clients closed.

ghost use Rattle.std.specs.Prelude.{◌≡◌, ◌≤◌, ◌+◌, ◌*◌, ℕ, List, OnOk, IfOk, Ok, Err};
ghost use Rattle.std.specs.Io.KnownBytes.{Appends};
ghost use Rattle.spec_desktop.specs.Act.{peer_at, status_of, unsent_of};
ghost use Rattle.wl_replay.specs.Clients.{Closes, Sends, TellsClient, TellsFirst};
ghost use Rattle.wl_replay.specs.Told.{Stage, Stands};

use std::alloc::Allocator;
use std::io;
use std::io::Write;
use wl_recording::{write_end, write_to};
use wl_session::{Fed, MAX_CLIENTS, Session};

/// Sends each client its unsent bytes, in rising number, and closes those that ended.
pub(crate) fn tell_clients<A: Allocator + Copy, W: Write>(
    session: &mut Session<A>,
    writer: &mut W,
) -> io::Result<()>
    ensures { OnOk result ((old : Stage) → Stands session.old old → (new : Stage) × (text : List ℕ) × TellsFirst 32 old text new
        × Stands session.new new × Appends (W.contents writer.old) (W.contents writer.new) text) }
{
    for before in 0..MAX_CLIENTS {
        tell_client(session, before as u32 + 1, writer)?;
    }
    Ok(())
}

fn tell_client<A: Allocator + Copy, W: Write>(
    session: &mut Session<A>,
    client: u32,
    writer: &mut W,
) -> io::Result<()>
    ensures { OnOk result ((old : Stage) → Stands session.old old → (new : Stage) × (text : List ℕ) × TellsClient client old text new
        × Stands session.new new × Appends (W.contents writer.old) (W.contents writer.new) text) }
{
    send(session, client, writer)?;
    close(session, client, writer)
}

/// Sends a client all its unsent bytes.
fn send<A: Allocator + Copy, W: Write>(
    session: &mut Session<A>,
    client: u32,
    writer: &mut W,
) -> io::Result<()>
    ensures { OnOk result ((old : Stage) → Stands session.old old → (new : Stage) × (text : List ℕ)
        × Sends client (unsent_of (peer_at client old.now.desktop)) old text new × Stands session.new new × Appends (W.contents writer.old) (W.contents writer.new) text) }
{
    let Some(bytes) = session.out(client) else {
        return Ok(());
    };
    let count = bytes.len();
    if count == 0 {
        return Ok(());
    }
    write_to(client, bytes, writer)?;
    session.sent(client, count);
    Ok(())
}

/// Closes a client that ended.
fn close<A: Allocator + Copy, W: Write>(
    session: &mut Session<A>,
    client: u32,
    writer: &mut W,
) -> io::Result<()>
    ensures { OnOk result ((old : Stage) → Stands session.old old → (new : Stage) × (text : List ℕ)
        × Closes client (status_of (peer_at client old.now.desktop)) old text new × Stands session.new new × Appends (W.contents writer.old) (W.contents writer.new) text) }
{
    if let Fed::Ended(cause) = session.status(client) {
        write_end(client, cause, writer)?;
        session.close(client);
    }
    Ok(())
}
