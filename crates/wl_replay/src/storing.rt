//! Lines that write to stores.

ghost use Rattle.std.specs.Prelude.{◌≡◌, IfErr, OnOk};
ghost use Rattle.std.specs.Io.KnownBytes.{Appends};
ghost use Rattle.wl_replay.specs.Storing.{TellsStore, stored_text};
ghost use Rattle.wl_replay.specs.Told.{IsSilent, Leads};

use crate::error::{StepError, write_failed};
use std::alloc::Allocator;
use std::io::Write;
use wl_recording::{Place, write_none, write_nostore, write_outside};
use wl_session::{Session, Stored};

/// Puts bytes into a store.
pub(crate) fn store<A: Allocator + Copy, W: Write>(
    session: &mut Session<A>,
    place: Place,
    bytes: &[u8],
    writer: &mut W,
) -> Result<(), StepError>
    ensures told { OnOk result (Leads (TellsStore place bytes.now) session.old session.new (W.contents writer.old) (W.contents writer.new)
        (IsSilent 0)) }
    ensures kind { IfErr result (λ e. e ≡ StepError.Write) }
{
    let stored = session.store(place.client, place.store, place.at, bytes);
    write_stored(place, stored, writer)
}

/// Reports it if nothing could be written to a place.
pub(crate) fn write_stored<W: Write>(
    place: Place,
    stored: Stored,
    writer: &mut W,
) -> Result<(), StepError>
    ensures told { OnOk result (Appends (W.contents writer.old) (W.contents writer.new) (stored_text place stored)) }
    ensures kind { IfErr result (λ e. e ≡ StepError.Write) }
{
    match stored {
        Stored::Done => Ok(()),
        Stored::NoClient => write_none(place.client, writer).map_err(write_failed),
        Stored::NoStore => write_nostore(place.client, place.store, writer).map_err(write_failed),
        Stored::OutOfRange => write_outside(place.client, place.store, writer).map_err(
            write_failed,
        ),
    }
}
