//! Each allocation of a session refused in turn. The heap refuses every allocation after its last.

use std::alloc::{Allocator, Global};
use test_rows::asks::{Ask, Interface, bytes_of};
use test_rows::events::{Event, told_bytes};
use test_rows::rows::SYNC;
use test_support::Refusing;
use wl_session::{Cause, Config, ConnectError, Fed, FrameError, Rgb, RunError, Session, Step};

const CONFIG: Config = Config {
    width: 2,
    height: 1,
    background: Rgb { r: 0, g: 0, b: 0 },
};

const RUN: &[Step] = &[
    Step::Connect,
    Step::Feed {
        client: 1,
        piece: SYNC,
    },
    Step::Tick { time: 0 },
];

const NO_MEMORY: Fed = Fed::Ended(Cause::Memory);

/// More allocations than any of these sessions makes.
const MANY: u64 = 1000;

fn waiting<A: Allocator + Copy>(session: &Session<A>) -> usize {
    session.out(1).map_or(0, |out| out.len())
}

/// What became of a run, with how its client is afterwards and how many bytes wait for it.
#[derive(Clone, Copy)]
enum Outcome {
    NoSession(FrameError),
    Stopped(RunError, Fed),
    Ran(Fed, usize),
}

fn run<A: Allocator + Copy>(session: &mut Session<A>) -> Outcome {
    let stopped = session.run(RUN).err();
    match stopped {
        None => Outcome::Ran(session.status(1), waiting(session)),
        Some(error) => Outcome::Stopped(error, session.status(1)),
    }
}

/// A run with so many allocations served, and whether one was refused.
fn run_with(alloc: Global, served: u64) -> (Outcome, bool) {
    let heap = Refusing::new(alloc, served);
    let outcome = match Session::new(&heap, CONFIG) {
        Ok(mut session) => run(&mut session),
        Err(error) => Outcome::NoSession(error),
    };
    (outcome, heap.refused())
}

fn has_answer(outcome: Outcome) -> bool {
    match outcome {
        Outcome::Ran(fed, count) => fed == Fed::Alive && count == 24,
        Outcome::NoSession(_) | Outcome::Stopped(..) => false,
    }
}

/// How many runs stopped at the connect, and how many at the tick.
#[derive(Clone, Copy)]
struct Stops {
    at_connect: u32,
    at_tick: u32,
}

/// Counts a run for which an allocation was refused. False where it is none that may be.
fn is_stop(outcome: Outcome, stops: &mut Stops) -> bool {
    match outcome {
        Outcome::NoSession(error) => error == FrameError::Memory,
        Outcome::Stopped(RunError::Memory(0), status) => {
            stops.at_connect = stops.at_connect.saturating_add(1);
            status == Fed::NoClient
        }
        Outcome::Stopped(RunError::Memory(2), status) => {
            stops.at_tick = stops.at_tick.saturating_add(1);
            status == Fed::Alive || status == NO_MEMORY
        }
        Outcome::Stopped(..) | Outcome::Ran(..) => false,
    }
}

/// A session that finds no memory isn't made. A run stops at the connect or at the tick that finds
/// none, with the steps before it taken. The client isn't there yet, or is there. If there was none
/// for its message, it has ended for it.
#[test]
fn a_run_stops_where_memory_is_refused(rt: HostRuntime) {
    let mut stops = Stops {
        at_connect: 0,
        at_tick: 0,
    };
    for served in 0..MANY {
        let (outcome, was_refused) = run_with(rt.alloc(), served);
        if !was_refused {
            assert!(rt; has_answer(outcome) && stops.at_connect > 0 && stops.at_tick > 0);
            return;
        }
        assert!(rt; is_stop(outcome, &mut stops), "after {served} allocations");
    }
    assert!(rt; false, "memory was refused in each run");
}

/// What became of a connect, and of a sync after it.
#[derive(Clone, Copy)]
enum Synced {
    NoSession,
    /// Why there is no client, and how the client 1 is.
    NotConnected(ConnectError, Fed),
    /// The client's number, how it is, and how many bytes wait.
    Answered(u32, Fed, usize),
    /// The client's number, how it is by the call and by its status, how many bytes wait, how it is
    /// after another sync, and whether it was
    /// closed then.
    Ended(u32, Fed, Fed, usize, Fed, bool),
}

/// Syncs as the client of this number.
fn sync<A: Allocator + Copy>(session: &mut Session<A>, client: u32) -> Synced {
    let fed = session.feed(1, SYNC);
    let status = session.status(1);
    let count = waiting(session);
    if fed == Fed::Alive {
        return Synced::Answered(client, status, count);
    }
    let again = session.feed(1, SYNC);
    Synced::Ended(client, fed, status, count, again, session.close(1))
}

fn connect_and_sync<A: Allocator + Copy>(session: &mut Session<A>) -> Synced {
    match session.connect() {
        Ok(client) => sync(session, client),
        Err(error) => Synced::NotConnected(error, session.status(1)),
    }
}

fn sync_with(alloc: Global, served: u64) -> Synced {
    let heap = Refusing::new(alloc, served);
    match Session::new(&heap, CONFIG) {
        Ok(mut session) => connect_and_sync(&mut session),
        Err(_) => Synced::NoSession,
    }
}

/// How many connects found no memory, and how many clients ended for want of it.
#[derive(Clone, Copy)]
struct Ends {
    refused: u32,
    ended: u32,
}

/// Counts a session for which an allocation was refused. False where it is none that may be.
fn is_end(synced: Synced, ends: &mut Ends) -> bool {
    match synced {
        Synced::NoSession => true,
        Synced::NotConnected(error, status) => {
            ends.refused = ends.refused.saturating_add(1);
            error == ConnectError::Memory && status == Fed::NoClient
        }
        Synced::Ended(client, fed, status, count, again, closed) => {
            ends.ended = ends.ended.saturating_add(1);
            client == 1
                && fed == NO_MEMORY
                && status == NO_MEMORY
                && (count == 0 || count == 12)
                && again == NO_MEMORY
                && closed
        }
        Synced::Answered(..) => false,
    }
}

/// A connect that finds no memory gives no number, and a client whose message finds none ends for
/// it, with nothing of
/// an event that wasn't queued.
#[test]
fn a_client_ends_where_memory_is_refused(rt: HostRuntime) {
    let mut ends = Ends {
        refused: 0,
        ended: 0,
    };
    for served in 0..MANY {
        let synced = sync_with(rt.alloc(), served);
        if let Synced::Answered(client, status, count) = synced {
            assert!(rt; client == 1 && status == Fed::Alive && count == 24);
            assert!(rt; ends.refused > 0 && ends.ended > 0);
            return;
        }
        assert!(rt; is_end(synced, &mut ends), "after {served} allocations");
    }
    assert!(rt; false, "memory was refused in each session");
}

/// What a client is told that is fed some messages.
#[derive(Drop)]
struct Answers {
    /// Where no allocation is refused.
    all: Vec<u8, Global>,
    /// Of running out of memory.
    error: Vec<u8, Global>,
}

/// wl_display.error(1, 2, "no_memory").
const ERROR: &[Event] = &[Event::NoMemory];

/// What a client is told in a session of its own. None where it ends, or doesn't connect.
fn all_told(session: &mut Session<Global>, alloc: Global, piece: &[u8]) -> Option<Vec<u8, Global>> {
    if session.connect() != Ok(1) || session.feed(1, piece) != Fed::Alive {
        return None;
    }
    let out = session.out(1).unwrap_or(&[]);
    out.to_vec(alloc).ok()
}

fn answers_of(alloc: Global, piece: &[u8]) -> Option<Answers> {
    let all = all_of(alloc, piece)?;
    let error = told_bytes(alloc, ERROR)?;
    Some(Answers { all, error })
}

/// What a client is told of a piece in a session of its own.
fn all_of(alloc: Global, piece: &[u8]) -> Option<Vec<u8, Global>> {
    match Session::new(alloc, CONFIG) {
        Ok(mut session) => all_told(&mut session, alloc, piece),
        Err(_) => None,
    }
}

/// What became of a client that was fed a piece.
#[derive(Clone, Copy)]
enum Told {
    NoClient,
    /// It lives and was told all, and its store 1 has so many bytes.
    Alive(Option<u32>),
    /// It ended as out of memory and has no store. Whether it was told all before, and whether of
    /// the end.
    Ended(bool, bool),
    Wrong,
}

fn judged(fed: Fed, out: &[u8], size: Option<u32>, answers: &Answers) -> Told {
    let all = answers.all.as_slice();
    if fed == Fed::Alive && out == all {
        return Told::Alive(size);
    }
    let (kept, with_error) = match out.strip_suffix(&answers.error) {
        Some(kept) => (kept, true),
        None => (out, false),
    };
    if fed == NO_MEMORY && size.is_none() && all.starts_with(kept) {
        Told::Ended(kept.len() == all.len(), with_error)
    } else {
        Told::Wrong
    }
}

/// Feeds a piece to a new client.
fn feed<A: Allocator + Copy>(session: &mut Session<A>, piece: &[u8], answers: &Answers) -> Told {
    if session.connect().is_err() {
        return Told::NoClient;
    }
    let fed = session.feed(1, piece);
    let out = session.out(1).unwrap_or(&[]);
    judged(fed, out, session.store_size(1, 1), answers)
}

/// Feeds a piece to a client with so many allocations served.
fn feed_with(alloc: Global, served: u64, piece: &[u8], answers: &Answers) -> Told {
    let heap = Refusing::new(alloc, served);
    match Session::new(&heap, CONFIG) {
        Ok(mut session) => feed(&mut session, piece, answers),
        Err(_) => Told::NoClient,
    }
}

/// The clients that ended as out of memory.
#[derive(Clone, Copy)]
struct Ended {
    count: u32,
    /// Those that had been told all.
    told_all: u32,
    /// Those that were told of the end.
    told_end: u32,
}

/// Feeds messages to clients with ever more allocations served, until none is refused. Gives the
/// clients that ended, and the size of the store of
/// the one that lived. None where something else became of a client.
fn ended_by(alloc: Global, asks: &[Ask]) -> Option<(Ended, Option<u32>)> {
    let piece = bytes_of(alloc, asks)?;
    let answers = answers_of(alloc, &piece)?;
    let mut ended = Ended {
        count: 0,
        told_all: 0,
        told_end: 0,
    };
    for served in 0..MANY {
        match feed_with(alloc, served, &piece, &answers) {
            Told::NoClient => {}
            Told::Alive(size) => return Some((ended, size)),
            Told::Ended(all, end) => {
                ended.count = ended.count.saturating_add(1);
                ended.told_all = ended.told_all.saturating_add(u32::from(all));
                ended.told_end = ended.told_end.saturating_add(u32::from(end));
            }
            Told::Wrong => return None,
        }
    }
    None
}

/// wl_display.get_registry of 2, wl_registry.bind of the seat as 3 and wl_display.sync of 4, in one
/// piece.
const REGISTRY_AND_SEAT: &[Ask] = &[
    Ask::GetRegistry(2),
    Ask::Bind(2, 5, Interface::Seat, 1, 3),
    Ask::Sync(4),
];

/// Where there is no memory for an object or for an event, the client ends for it. What was queued
/// before stays.
#[test]
fn a_registry_finds_no_memory(rt: HostRuntime) {
    let Some((ended, size)) = ended_by(rt.alloc(), REGISTRY_AND_SEAT) else {
        panic!(rt; "a client that lived, or ended for another cause")
    };
    assert!(rt; ended.count > 2 && ended.told_all == 0 && ended.told_end == 0);
    assert_eq!(rt; size, None);
}

/// The registry 2, the wl_compositor 3 and the wl_shm 4. The region 5, to which a rectangle is
/// added. The pool 6 of 64 bytes with the buffer 7; it grows to 128 then.
const REGION_AND_POOL: &[Ask] = &[
    Ask::GetRegistry(2),
    Ask::Bind(2, 1, Interface::Compositor, 2, 3),
    Ask::Bind(2, 3, Interface::Shm, 1, 4),
    Ask::CreateRegion(3, 5),
    Ask::RegionAdd(5, 0, 0, 4, 4),
    Ask::CreatePool(4, 6, 64),
    Ask::CreateBuffer(6, 7, 0, 4, 4, 16, 1),
    Ask::PoolResize(6, 128),
];

/// Where there is no memory for a region, its change, a pool, its store, a buffer or more bytes,
/// the client ends for it, and has no stores.
#[test]
fn a_pool_finds_no_memory(rt: HostRuntime) {
    let Some((ended, size)) = ended_by(rt.alloc(), REGION_AND_POOL) else {
        panic!(rt; "a client that lived, or ended for another cause")
    };
    assert!(rt; ended.count > 8);
    assert_eq!(rt; size, Some(128));
}
