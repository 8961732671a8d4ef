//! Lines that put side files into stores.

ghost use Rattle.std.specs.Prelude.{◌≡◌, ◌≤◌, ℕ, List, length, true, false, Ok, Err, IfOk, OnOk};
ghost use Rattle.wl_session.specs.Agreeing.{Agrees};
ghost use Rattle.spec_desktop.specs.Desktop.{Desktop};
ghost use Rattle.wl_recording.specs.Side.{CountsFault, files_of};
ghost use Rattle.wl_replay.specs.Storing.{FillsAll, LacksFile, Puts, TellsFile, room_in};
ghost use Rattle.wl_replay.specs.Told.{IsSilent, Leads, Stage, Stands};

use crate::error::StepError;
use crate::storing::write_stored;
use std::alloc::Allocator;
use std::io::Write;
use wl_recording::{Place, SideFault, SideFiles};
use wl_session::{Fed, Session, Stored};

/// How many bytes are asked of a file at once, at most.
const PIECE: usize = 4096;

/// Puts the bytes of a side file into a store, up to the end of either.
pub(crate) fn put_file<A: Allocator + Copy, W: Write, S: SideFiles>(
    session: &mut Session<A>,
    place: Place,
    name: &str,
    writer: &mut W,
    side: &mut S,
) -> Result<(), StepError>
    ensures told { OnOk result (Leads (TellsFile (files_of S.opens S.gives S.fault_count) place name.now side.old side.new) session.old session.new
        (W.contents writer.old) (W.contents writer.new) (IsSilent 0)) }
    ensures calm { OnOk result (S.fault_count side.new ≡ S.fault_count side.old) }
    ensures lacking { result ≡ Err StepError.Side → (writer.new ≡ writer.old) × ((d : Desktop) → Agrees session.old.desk d
        → LacksFile (files_of S.opens S.gives S.fault_count) place name.now d side.old side.new) }
{
    match room_for(session, place) {
        Err(stored) => write_stored(place, stored, writer),
        Ok(size) => match load(session, place, size, name, side) {
            Ok(true) => Ok(()),
            Ok(false) | Err(SideFault) => Err(StepError::Side),
        },
    }
}

/// The size of a store, if a file may be put into it from this place on; else why not.
fn room_for<A: Allocator + Copy>(session: &Session<A>, place: Place) -> Result<u32, Stored>
    ensures room { (d : Desktop) → Agrees session.now.desk d → result ≡ room_in d place }
    ensures within { IfOk result (λ size. place.at ≤ size) }
{
    match session.status(place.client) {
        Fed::NoClient | Fed::Ended(_) => Err(Stored::NoClient),
        Fed::Alive => match session.store_size(place.client, place.store) {
            None => Err(Stored::NoStore),
            Some(size) => if place.at > size {
                Err(Stored::OutOfRange)
            } else {
                Ok(size)
            },
        },
    }
}

/// Opens a file and puts its bytes into a store of this size. The answer is false if there is no
/// such file.
fn load<A: Allocator + Copy, S: SideFiles>(
    session: &mut Session<A>,
    place: Place,
    size: u32,
    name: &str,
    side: &mut S,
) -> Result<bool, SideFault>
    requires { place.at ≤ size }
    ensures filled { result ≡ Ok true → (opened : S) × S.opens side.old name.now 0 true opened × ((old : Stage) → Stands session.old old
        → (new : Stage) × FillsAll (files_of S.opens S.gives S.fault_count) place size old opened new side.new × Stands session.new new) }
    ensures missing { result ≡ Ok false → S.opens side.old name.now 0 false side.new }
    ensures faults { CountsFault (S.fault_count side.old) (S.fault_count side.new) result }
{
    if !side.open(name, 0)? {
        return Ok(false);
    }
    fill(session, place, size, side)?;
    Ok(true)
}

/// Writes what the open file gives to a store of this size.
fn fill<A: Allocator + Copy, S: SideFiles>(
    session: &mut Session<A>,
    place: Place,
    size: u32,
    side: &mut S,
) -> Result<(), SideFault>
    requires { place.at ≤ size }
    ensures filled { OnOk result ((old : Stage) → Stands session.old old
        → (new : Stage) × FillsAll (files_of S.opens S.gives S.fault_count) place size old side.old new side.new × Stands session.new new) }
    ensures faults { CountsFault (S.fault_count side.old) (S.fault_count side.new) result }
{
    let mut buf = [0; PIECE];
    let mut at = place.at;
    while at < size {
        let room = PIECE.min((size - at) as usize);
        let count = write_piece(session, Place { at, ..place }, &mut buf[..room], side)?;
        if count == 0 {
            return Ok(());
        }
        at += count;
    }
    Ok(())
}

/// Writes what one read of the open file gives to a place. The answer is how many bytes; 0 only at
/// the file's end.
fn write_piece<A: Allocator + Copy, S: SideFiles>(
    session: &mut Session<A>,
    place: Place,
    buf: &mut [u8],
    side: &mut S,
) -> Result<u32, SideFault>
    requires { length buf.old ≤ PIECE }
    ensures wrote { IfOk result (λ count. (bytes : List ℕ) × (length bytes ≡ count) × S.gives side.old bytes side.new
        × Puts place bytes session.old session.new) }
    ensures within { IfOk result (λ count. count ≤ length buf.old) }
    ensures faults { CountsFault (S.fault_count side.old) (S.fault_count side.new) result }
{
    let count = side.read(buf)?;
    if count > 0 {
        session.store(place.client, place.store, place.at, &buf[..count]);
    }
    Ok(count as u32)
}
