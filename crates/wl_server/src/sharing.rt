//! Clients share the server's time: each is read while its share of a turn lasts, and pays for what
//! it took.

ghost use Rattle.std.specs.Prelude.{◌≡◌, ◌≤◌, ℕ, length};
ghost use Rattle.wl_recording.specs.Side.{files_of};
ghost use Rattle.wl_server.specs.Acting.{InTurn, Takes};
ghost use Rattle.wl_server.specs.Phases.{AtSeat, ReadsUntil};
ghost use Rattle.wl_server.specs.Sharing.{AreCharged, IsShareOver, NobodyIsPassedOver, ReadsShare, ReadsShared, SharesSeat, owes};
ghost use Rattle.wl_server.specs.Ways.{ways};

use crate::filling::fill_seat;
use crate::hub::Hub;
use crate::reading::read_once;
use crate::recorded::Recorded;
use crate::seat::Seat;
use std::alloc::Allocator;
use std::io::Write;
use std::time::{Clock, Instant};
use wl_recording::SideFiles;
use wl_session::ClientNo;

/// How much a client may owe at most, in nanoseconds.
const MOST_OWED: u64 = 1_000_000_000;

/// How much a turn pays each client at least, in nanoseconds.
const LEAST_PAID: u64 = 50_000;

/// How long all clients together are read in a turn, in nanoseconds.
const TURN: u64 = 4_000_000;

/// How long each client may be read at least, in nanoseconds.
const LEAST_SHARE: u64 = 250_000;

/// A read that takes less than this with what it feeds, in nanoseconds, is followed by a larger
/// one.
const CHEAP: u64 = 100_000;

/// How often a client is read in a turn, at most.
const READS: usize = 16;

/// How many bytes a read has, at least and at most.
const LEAST_PIECE: usize = 8;

const PIECE: usize = 4096;

/// How many bytes of all clients together are read at once, and how many of each at least. What one
/// read asks can't be cut short.
const TOGETHER: u64 = 1024;

const LEAST_MOST: u64 = 32;

/// The clock by which clients share the server's time, and when they were paid last. If it tells no
/// time, nothing is owed.
#[derive(Drop)]
pub struct Shares<'a, K: Clock> {
    clock: &'a K,
    last: Option<Instant>,
}

impl<'a, K: Clock> Shares<'a, K> {
    /// Nobody was paid yet.
    pub fn new(clock: &'a K) -> Shares<'a, K> {
        Shares { clock, last: None }
    }

    /// The share of each of this many clients, in a turn that begins now. It is paid for the time
    /// since the last one began.
    fn share(&mut self, count: u64) -> Share<'a, K>
        ensures { LEAST_PAID ≤ result.paid }
    {
        let passed = since(self.clock, self.last);
        self.last = Instant::now(self.clock).ok();
        Share {
            clock: self.clock,
            paid: passed.max(LEAST_PAID),
            count,
        }
    }
}

/// What each client has of a turn.
#[derive_where(Clone, Copy)]
struct Share<'a, K: Clock> {
    clock: &'a K,
    /// What it is paid, in nanoseconds.
    paid: u64,
    /// How many clients share the turn.
    count: u64,
}

impl<K: Clock> Share<'_, K> {
    /// This moment.
    fn now(self) -> Option<Instant> {
        Instant::now(self.clock).ok()
    }

    /// How long it is since this moment, in nanoseconds.
    fn since(self, begun: Option<Instant>) -> u64 {
        since(self.clock, begun)
    }

    /// Whether a client that began to be served then was served long enough.
    fn is_over(self, begun: Option<Instant>) -> bool {
        self.since(begun) > (TURN / self.count.max(1)).max(LEAST_SHARE)
    }

    /// The most bytes that a client is read at once.
    fn most(self) -> usize
        ensures { result ≤ PIECE }
    {
        (TOGETHER / self.count.max(1)).max(LEAST_MOST).min(TOGETHER) as usize
    }

    /// What a client owes, in nanoseconds, that began to be served then: what all of them would
    /// have taken meanwhile.
    fn owed(self, begun: Option<Instant>) -> u64
        ensures { result ≤ MOST_OWED }
    {
        self.since(begun).saturating_mul(self.count).min(MOST_OWED)
    }
}

/// How long it is since this moment, in nanoseconds; 0 if the clock doesn't tell.
fn since<K: Clock>(clock: &K, begun: Option<Instant>) -> u64 {
    let (Some(begun), Ok(now)) = (begun, Instant::now(clock)) else {
        return 0;
    };
    u64::try_from(now.duration_since(begun).as_nanos()).unwrap_or(u64::MAX)
}

/// How many clients there are.
fn count_of<C: Drop>(seats: &[Option<Seat<C>>]) -> u64 {
    let mut count = 0_u64;
    for seat in seats {
        if seat.is_some() {
            count = count.saturating_add(1);
        }
    }
    count
}

/// Serves each client while its share lasts, one after another: reads it, and puts its side files
/// into its stores.
pub(crate) fn share_all<A: Allocator + Copy, R: Write, H: Hub, S: SideFiles, K: Clock>(
    shares: &mut Shares<'_, K>,
    hub: &mut H,
    recorded: &mut Recorded<A, R>,
    seats: &mut [Option<Seat<H::Conn>>],
    side: &mut S,
)
    requires { length seats.old ≡ 32 }
    ensures { (paid : ℕ) × (LEAST_PAID ≤ paid) × Takes R.contents (InTurn (AtSeat (SharesSeat (ways H.accepts H.reads H.writes H.closes H.fault_count) (files_of S.opens S.gives S.fault_count) paid)) 32
        ((hub.old, side.old), seats.old) ((hub.new, side.new), seats.new)) recorded.old recorded.new }
{
    let share = shares.share(count_of(seats));
    share_each(share, hub, recorded, seats, side);
}

/// Serves each client while this share lasts.
fn share_each<A: Allocator + Copy, R: Write, H: Hub, S: SideFiles, K: Clock>(
    share: Share<'_, K>,
    hub: &mut H,
    recorded: &mut Recorded<A, R>,
    seats: &mut [Option<Seat<H::Conn>>],
    side: &mut S,
)
    requires { length seats.old ≡ 32 }
    ensures { Takes R.contents (InTurn (AtSeat (SharesSeat (ways H.accepts H.reads H.writes H.closes H.fault_count) (files_of S.opens S.gives S.fault_count) share.entry.paid)) 32
        ((hub.old, side.old), seats.old) ((hub.new, side.new), seats.new)) recorded.old recorded.new }
{
    let mut buf = [0; PIECE];
    for k in 0..seats.len() {
        share_seat(
            share,
            hub,
            recorded,
            k as u32 + 1,
            &mut seats[k],
            side,
            &mut buf,
        );
    }
}

/// Serves a client, if it has a connection, while this share lasts.
fn share_seat<A: Allocator + Copy, R: Write, H: Hub, S: SideFiles, K: Clock>(
    share: Share<'_, K>,
    hub: &mut H,
    recorded: &mut Recorded<A, R>,
    client: ClientNo,
    seat: &mut Option<Seat<H::Conn>>,
    side: &mut S,
    buf: &mut [u8],
)
    requires { length buf.old ≡ 4096 }
    ensures { Takes R.contents (SharesSeat (ways H.accepts H.reads H.writes H.closes H.fault_count) (files_of S.opens S.gives S.fault_count) share.entry.paid client
        ((hub.old, side.old), seat.old) ((hub.new, side.new), seat.new)) recorded.old recorded.new }
{
    let begun = share.now();
    let piece = read_seat(share, begun, hub, recorded, client, seat, buf);
    fill_seat(recorded, client, seat, side, buf);
    charge(seat, piece, share.owed(begun));
}

/// Charges a client that sent bytes this debt, in nanoseconds, and sets the size of the pieces by
/// which it is read.
fn charge<C: Drop>(seat: &mut Option<Seat<C>>, piece: usize, debt: u64)
    requires { debt ≤ MOST_OWED }
    ensures { AreCharged seat.old seat.new }
{
    if let Some(seat) = seat {
        if seat.has_sent {
            seat.debt = debt;
            seat.piece = piece;
        }
    }
}

/// Reads a client, if it has a connection, while this share lasts. The answer is the size of the
/// pieces by which it is to be read next.
fn read_seat<A: Allocator + Copy, R: Write, H: Hub, K: Clock>(
    share: Share<'_, K>,
    begun: Option<Instant>,
    hub: &mut H,
    recorded: &mut Recorded<A, R>,
    client: ClientNo,
    seat: &mut Option<Seat<H::Conn>>,
    buf: &mut [u8],
) -> usize
    requires { length buf.old ≡ 4096 }
    ensures { Takes R.contents (ReadsShared (ways H.accepts H.reads H.writes H.closes H.fault_count) share.entry.paid client (hub.old, seat.old) (hub.new, seat.new)) recorded.old recorded.new }
{
    match seat {
        Some(seat) => read_owing(share, begun, hub, recorded, client, seat, buf),
        None => LEAST_PIECE,
    }
}

/// Reads a client while this share lasts, unless it owes more than it is paid.
fn read_owing<A: Allocator + Copy, R: Write, H: Hub, K: Clock>(
    share: Share<'_, K>,
    begun: Option<Instant>,
    hub: &mut H,
    recorded: &mut Recorded<A, R>,
    client: ClientNo,
    seat: &mut Seat<H::Conn>,
    buf: &mut [u8],
) -> usize
    requires { length buf.old ≡ 4096 }
    ensures { Takes R.contents (ReadsShare (ways H.accepts H.reads H.writes H.closes H.fault_count) share.entry.paid client (hub.old, seat.old) (hub.new, seat.new)) recorded.old recorded.new }
{
    if owes(seat, share.paid) {
        seat.has_sent = false;
        seat.debt = seat.debt.saturating_sub(share.paid);
        return seat.piece;
    }
    seat.debt = 0;
    read_client(share, begun, hub, recorded, client, seat, buf)
}

/// Whether a client owes more than it is paid, in nanoseconds.
fn owes<C: Drop>(seat: &Seat<C>, paid: u64) -> bool
    ensures { result ≡ owes paid seat.now }
{
    seat.debt > paid
}

/// Reads a client until it would block, or its share is over, but at most [`READS`] times. Pieces
/// grow while they are cheap.
fn read_client<A: Allocator + Copy, R: Write, H: Hub, K: Clock>(
    share: Share<'_, K>,
    begun: Option<Instant>,
    hub: &mut H,
    recorded: &mut Recorded<A, R>,
    client: ClientNo,
    seat: &mut Seat<H::Conn>,
    buf: &mut [u8],
) -> usize
    requires { length buf.old ≡ 4096 }
    ensures { Takes R.contents (ReadsUntil IsShareOver (ways H.accepts H.reads H.writes H.closes H.fault_count) client (hub.old, seat.old) (hub.new, seat.new)) recorded.old recorded.new }
{
    seat.has_sent = false;
    let most = share.most();
    let mut piece = first_piece(seat.piece, most);
    for before in 0..READS {
        let from = share.now();
        if !read_once(hub, recorded, client, seat, &mut buf[..piece]) {
            return piece;
        }
        piece = next_piece(piece, most, share.since(from));
        if share.is_over(begun) {
            return piece;
        }
    }
    piece
}

/// The size of the first piece, in bytes: the one that was kept, but at most `most`, and at least
/// [`LEAST_PIECE`].
fn first_piece(piece: usize, most: usize) -> usize
    requires { most ≤ PIECE }
    ensures least { LEAST_PIECE ≤ result }
    ensures most { result ≤ PIECE }
{
    piece.min(most).max(LEAST_PIECE)
}

/// The size of the next piece, in bytes, after one of this size took this long, in nanoseconds. It
/// is at most `most`, and at least [`LEAST_PIECE`].
fn next_piece(piece: usize, most: usize, took: u64) -> usize
    requires piece { piece ≤ PIECE }
    requires most { most ≤ PIECE }
    ensures least { LEAST_PIECE ≤ result }
    ensures most { result ≤ PIECE }
{
    if took < CHEAP {
        (piece * 2).min(most).max(LEAST_PIECE)
    } else {
        LEAST_PIECE
    }
}

/// Nobody is passed over for ever: a client that owes at most a second is read in the 20,000th turn
/// at the latest.
pub fn nobody_is_passed_over()
    ensures { NobodyIsPassedOver }
{}
