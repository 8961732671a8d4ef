//! Putting side files into the stores of clients that sent bytes.

ghost use Rattle.std.specs.Prelude.{◌≡◌, ◌≤◌, ◌<◌, ◌+◌, ◌-◌, ◌^◌, ◌++◌, ℕ, List, [], length, min};
ghost use Rattle.arrayvec.specs.ArrayVec.{array_vec_len};
ghost use Rattle.wl_recording.specs.Ranges.{ranges_of};
ghost use Rattle.wl_recording.specs.Side.{files_of};
ghost use Rattle.wl_server.specs.Acting.{InTurn, Takes};
ghost use Rattle.wl_server.specs.Filling.{Opens, PutsFile, PutsOnce, PutsPart, side_name};
ghost use Rattle.wl_server.specs.Phases.{Fills, FillsClient, FillsSeat, FillsStores, Puts};
ghost use Rattle.wl_server.specs.Ranges.{FillsListed, GivesOnce, GivesText, PutsRange, PutsRanges, list_name};

use crate::recorded::Recorded;
use crate::seat::Seat;
use arrayvec::{ArrayString, ArrayVec};
use itoa::Buffer;
use std::alloc::Allocator;
use std::io::Write;
use wl_recording::{SideFault, SideFiles, StoreRange, next_range};
use wl_session::{ClientNo, StoreNo};

/// How many bytes are asked of a file at once, at most.
const PIECE: usize = 4096;

/// How many lines of a list of ranges count.
const LINES: usize = 4096;

/// How many bytes of a list of ranges are looked at: that many lines of 36 bytes, the most that
/// numbers without leading zeros take.
const TEXT: usize = 147_456;

/// How many bytes a side file's name has, at most: two numbers, and a point.
const NAME: usize = 21;

/// A store of a client.
#[derive(Clone, Copy)]
struct Target {
    client: ClientNo,
    /// The place of its client among the accepted connections, from 1.
    number: u32,
    store: StoreNo,
}

/// Puts the side files of each client that sent bytes into its stores.
pub(crate) fn fill_all<A: Allocator + Copy, R: Write, C: Drop, S: SideFiles>(
    recorded: &mut Recorded<A, R>,
    seats: &[Option<Seat<C>>],
    side: &mut S,
)
    requires { length seats.now ≡ 32 }
    ensures { Takes R.contents (InTurn (Fills (files_of S.opens S.gives S.fault_count) seats.now) 32 side.old side.new) recorded.old recorded.new }
{
    let mut buf = [0; PIECE];
    for k in 0..seats.len() {
        fill_seat(recorded, k as u32 + 1, &seats[k], side, &mut buf);
    }
}

/// Fills the stores of a client, if it has a connection and sent bytes.
pub(crate) fn fill_seat<A: Allocator + Copy, R: Write, C: Drop, S: SideFiles>(
    recorded: &mut Recorded<A, R>,
    client: ClientNo,
    seat: &Option<Seat<C>>,
    side: &mut S,
    buf: &mut [u8],
)
    requires { length buf.old ≡ 4096 }
    ensures { Takes R.contents (FillsSeat (files_of S.opens S.gives S.fault_count) client seat.now side.old side.new) recorded.old recorded.new }
{
    if let Some(seat) = seat {
        if seat.has_sent {
            fill_client(recorded, client, seat.number, side, buf);
        }
    }
}

/// Fills the stores of a client: the ranges that its list names, if there is one, else each live
/// store whole.
fn fill_client<A: Allocator + Copy, R: Write, S: SideFiles>(
    recorded: &mut Recorded<A, R>,
    client: ClientNo,
    number: u32,
    side: &mut S,
    buf: &mut [u8],
)
    requires { length buf.old ≡ 4096 }
    ensures { Takes R.contents (FillsClient (files_of S.opens S.gives S.fault_count) client number side.old side.new) recorded.old recorded.new }
{
    if opens(list_name(number).as_str(), 0, side) {
        fill_listed(recorded, client, number, side, buf);
    } else {
        fill_stores(recorded, client, number, side, buf);
    }
}

/// Fills each live store of a client whole, in rising number.
fn fill_stores<A: Allocator + Copy, R: Write, S: SideFiles>(
    recorded: &mut Recorded<A, R>,
    client: ClientNo,
    number: u32,
    side: &mut S,
    buf: &mut [u8],
)
    requires { length buf.old ≡ 4096 }
    ensures { Takes R.contents (FillsStores (files_of S.opens S.gives S.fault_count) client number side.old side.new) recorded.old recorded.new }
{
    let mut last = 0;
    while let Some(store) = recorded.next_store(client, last) {
        let target = Target {
            client,
            number,
            store,
        };
        fill_store(recorded, target, side, buf);
        last = store;
    }
}

/// Fills a store from its start on. If its file is missing or fails, the rest stays.
fn fill_store<A: Allocator + Copy, R: Write, S: SideFiles>(
    recorded: &mut Recorded<A, R>,
    target: Target,
    side: &mut S,
    buf: &mut [u8],
)
    requires { length buf.old ≡ 4096 }
    ensures { Takes R.contents (Puts (files_of S.opens S.gives S.fault_count) target.client target.number target.store side.old side.new) recorded.old recorded.new }
{
    if let Some(size) = recorded.store_size(target.client, target.store) {
        fill_part(recorded, target, 0, 0, size, side, buf);
    }
}

/// Fills the ranges that the open list names, in its order.
fn fill_listed<A: Allocator + Copy, R: Write, S: SideFiles>(
    recorded: &mut Recorded<A, R>,
    client: ClientNo,
    number: u32,
    side: &mut S,
    buf: &mut [u8],
)
    requires { length buf.old ≡ 4096 }
    ensures { Takes R.contents (FillsListed (files_of S.opens S.gives S.fault_count) client number side.old side.new) recorded.old recorded.new }
{
    let mut text = ArrayVec::new();
    read_text(side, &mut text, buf);
    fill_ranges(recorded, client, number, text.as_slice(), side, buf);
}

/// Reads the open file, up to its end or as much as there is room for.
fn read_text<S: SideFiles>(side: &mut S, text: &mut ArrayVec<u8, TEXT>, buf: &mut [u8])
    requires buf { length buf.old ≡ 4096 }
    requires text { text.old.items ≡ [] }
    ensures { GivesText (files_of S.opens S.gives S.fault_count) text.new.items side.old side.new }
{
    while text.len() < TEXT {
        let room = PIECE.min(TEXT - text.len());
        let count = read_piece(side, text, &mut buf[..room]);
        if count == 0 {
            return;
        }
    }
}

/// Appends what one read of the open file gives to a text that has room for it, and answers how
/// many bytes. It is 0 at the file's end, and if the read fails.
fn read_piece<S: SideFiles>(side: &mut S, text: &mut ArrayVec<u8, TEXT>, buf: &mut [u8]) -> usize
    requires buf { length buf.old ≤ PIECE }
    requires room { array_vec_len text.old + length buf.old ≤ TEXT }
    ensures gave { (piece : List ℕ) × (text.new.items ≡ text.old.items ++ piece) × (length piece ≡ result)
        × GivesOnce (files_of S.opens S.gives S.fault_count) piece side.old side.new }
    ensures len { array_vec_len text.new ≡ array_vec_len text.old + result }
    ensures within { result ≤ length buf.old }
{
    match side.read(buf) {
        Ok(0) | Err(SideFault) => 0,
        Ok(count) => {
            let Ok(()) = text.try_extend_from_slice(&buf[..count]) else {
                unreachable!()
            };
            count
        }
    }
}

/// Fills the ranges that a text names, in its order.
fn fill_ranges<A: Allocator + Copy, R: Write, S: SideFiles>(
    recorded: &mut Recorded<A, R>,
    client: ClientNo,
    number: u32,
    text: &[u8],
    side: &mut S,
    buf: &mut [u8],
)
    requires { length buf.old ≡ 4096 }
    ensures { Takes R.contents (PutsRanges (files_of S.opens S.gives S.fault_count) client number (ranges_of text.now) side.old side.new) recorded.old recorded.new }
{
    let mut text = text;
    let mut before = None;
    for taken in 0..LINES {
        let Some((range, rest)) = next_range(before, text) else {
            return;
        };
        fill_range(recorded, client, number, range, side, buf);
        before = Some(range);
        text = rest;
    }
}

/// Fills a range of a store, up to the store's end. The range stays if its file is missing or
/// fails, or there is no such store.
fn fill_range<A: Allocator + Copy, R: Write, S: SideFiles>(
    recorded: &mut Recorded<A, R>,
    client: ClientNo,
    number: u32,
    range: StoreRange,
    side: &mut S,
    buf: &mut [u8],
)
    requires { length buf.old ≡ 4096 }
    ensures { Takes R.contents (PutsRange (files_of S.opens S.gives S.fault_count) client number range side.old side.new) recorded.old recorded.new }
{
    let target = Target {
        client,
        number,
        store: range.store,
    };
    if let Some(size) = recorded.store_size(client, range.store) {
        let most = range.len.min(size.saturating_sub(range.at));
        fill_part(recorded, target, range.from, range.at, most, side, buf);
    }
}

/// Puts at most `most` bytes of a store's file, from its byte `from` on, into the store from its
/// byte `at` on.
fn fill_part<A: Allocator + Copy, R: Write, S: SideFiles>(
    recorded: &mut Recorded<A, R>,
    target: Target,
    from: u32,
    at: u32,
    most: u32,
    side: &mut S,
    buf: &mut [u8],
)
    requires buf { length buf.old ≡ 4096 }
    requires room { at + most < 2 ^ 32 }
    ensures { Takes R.contents (PutsPart (files_of S.opens S.gives S.fault_count) target.client target.number target.store from at most side.old side.new) recorded.old recorded.new }
{
    if opens(side_name(target.number, target.store).as_str(), from, side) {
        put_file(recorded, target, at, most, side, buf);
    }
}

/// Opens a side file, to be read from this byte on. The answer is false if it is missing or fails.
fn opens<S: SideFiles>(name: &str, from: u32, side: &mut S) -> bool
    ensures { Opens (files_of S.opens S.gives S.fault_count) name.now from result side.old side.new }
{
    match side.open(name, from) {
        Ok(is_there) => is_there,
        Err(SideFault) => false,
    }
}

/// The name of the side file of a store.
fn side_name(number: u32, store: StoreNo) -> ArrayString<NAME>
    ensures { result.bytes ≡ side_name number store }
{
    let mut name = ArrayString::new();
    let mut digits = Buffer::new();
    push(&mut name, digits.format(number));
    push(&mut name, ".");
    push(&mut name, digits.format(store));
    name
}

/// The name of a client's list of ranges.
fn list_name(number: u32) -> ArrayString<NAME>
    ensures { result.bytes ≡ list_name number }
{
    let mut name = ArrayString::new();
    push(&mut name, Buffer::new().format(number));
    push(&mut name, ".r");
    name
}

/// Appends a text. There is room for it.
fn push(name: &mut ArrayString<NAME>, text: &str)
    requires { length name.old.bytes + length text.now ≤ 21 }
    ensures { name.new.bytes ≡ name.old.bytes ++ text.now }
{
    let Ok(()) = name.try_push_str(text) else {
        unreachable!()
    };
}

/// Puts at most this many of the open file's bytes into a store, from its byte `at` on.
fn put_file<A: Allocator + Copy, R: Write, S: SideFiles>(
    recorded: &mut Recorded<A, R>,
    target: Target,
    at: u32,
    most: u32,
    side: &mut S,
    buf: &mut [u8],
)
    requires buf { length buf.old ≡ 4096 }
    requires room { at + most < 2 ^ 32 }
    ensures { Takes R.contents (PutsFile (files_of S.opens S.gives S.fault_count) target.client target.store at most side.old side.new) recorded.old recorded.new }
{
    let mut done = 0;
    while done < most {
        let room = PIECE.min((most - done) as usize);
        let count = put_piece(recorded, target, at + done, side, &mut buf[..room]);
        if count == 0 {
            return;
        }
        done += count;
    }
}

/// Puts what one read of the open file gives into a store, and answers how many bytes. It is 0 at
/// the file's end, and if the read fails.
fn put_piece<A: Allocator + Copy, R: Write, S: SideFiles>(
    recorded: &mut Recorded<A, R>,
    target: Target,
    at: u32,
    side: &mut S,
    buf: &mut [u8],
) -> u32
    requires { length buf.old ≤ PIECE }
    ensures put { Takes R.contents (PutsOnce (files_of S.opens S.gives S.fault_count) target.client target.store at result side.old side.new) recorded.old recorded.new }
    ensures within { result ≤ length buf.old }
{
    match side.read(buf) {
        Ok(0) | Err(SideFault) => 0,
        Ok(count) => {
            recorded.store(target.client, target.store, at, &buf[..count]);
            count as u32
        }
    }
}
