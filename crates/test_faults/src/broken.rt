//! Streams that break off, come byte by byte, or have a word replaced, beside a client that has a
//! window: what that one keeps.

use crate::acts::{Act, Layer, OUTPUT, is_painted, plan_of, step_of, stream_of};
use crate::known::{Known, begins_message, has_stores, is_known, known_of};
use crate::recorded::{BEGINS, MAPS_WIDE, WIDE_BUFFERS};
use crate::scenes::{Scene, parts_of};
use std::alloc::Global;
use wl_session::{Cause, Fed, Session};

/// The client 1 shows a window of 40 by 40 grey points at (0, 0), and doesn't take what it is told.
const STAYS: &[Act] = &[
    Act::Connects(1),
    Act::Sends(1, BEGINS),
    Act::Sends(1, WIDE_BUFFERS),
    Act::Fills(1, 1, 0, 6400, 200),
    Act::Maps(1, MAPS_WIDE),
];

const WINDOW: &[Layer] = &[Layer {
    client: 1,
    x: 0,
    y: 0,
    w: 40,
    h: 40,
    color: [200, 200, 200],
}];

/// What takes the place of a word.
pub(crate) const WORDS: [u32; 5] = [0, 1, 0x7fffffff, 0x80000000, 0xffffffff];

/// A session in which the client 1 stays. False where it doesn't come so far.
pub(crate) fn begin(alloc: Global, session: &mut Session<Global>, acts: &[Act]) -> bool {
    let Some(plan) = plan_of(alloc, acts) else {
        return false;
    };
    for planned in &plan.steps {
        session.step(&step_of(&plan, *planned));
    }
    begins_message(session)
}

fn begin_staying(alloc: Global, session: &mut Session<Global>) -> bool {
    begin(alloc, session, STAYS)
}

/// What the client 1 keeps: what waits for it, and each frame without another client.
#[derive(Clone, Copy)]
struct Kept<'a> {
    waiting: &'a [u8],
    alone: &'a [u8],
}

/// Whether the client 1 lives, and its stores and what waits for it are as they were.
fn keeps(session: &Session<Global>, kept: Kept) -> bool {
    has_stores(session, None) && session.out(1).unwrap_or(&[]) == kept.waiting
}

fn shows_alone(session: &mut Session<Global>, kept: Kept) -> bool {
    session.tick(0).pixels.pixels() == kept.alone
}

/// What all windows of the client 2 show.
const BLACK: &[u8] = &[0, 0, 0, 255];

fn pixel_of(row: &[u8], x: usize) -> &[u8] {
    let at = x.saturating_mul(4);
    row.get(at..at.saturating_add(4)).unwrap_or(&[])
}

/// Whether each pixel of a row is as without another client, or black.
fn is_covered_at_most(row: &[u8], alone: &[u8]) -> bool {
    for x in 0..64_usize {
        let pixel = pixel_of(row, x);
        if pixel != pixel_of(alone, x) && pixel != BLACK {
            return false;
        }
    }
    row.len() == alone.len()
}

fn row_of(image: &[u8], y: usize) -> &[u8] {
    let at = y.saturating_mul(256);
    image.get(at..at.saturating_add(256)).unwrap_or(&[])
}

fn shows_both(session: &mut Session<Global>, kept: Kept) -> bool {
    let pixels = session.tick(0).pixels.pixels();
    for y in 0..64_usize {
        let row = row_of(pixels, y);
        let alone = row_of(kept.alone, y);
        if row != alone && !is_covered_at_most(row, alone) {
            return false;
        }
    }
    pixels.len() == kept.alone.len()
}

/// The client 2 goes if it is there still, and its number is free.
fn leaves(session: &mut Session<Global>, fed: Fed) -> bool {
    session.gone(2) == (fed == Fed::Alive) && session.close(2)
}

/// Whether a client that sent this lives on or ended by an error of its own.
pub(crate) fn is_answered(fed: Fed) -> bool {
    match fed {
        Fed::Alive | Fed::Ended(Cause::Protocol { .. }) => true,
        Fed::Ended(_) | Fed::NoClient => false,
    }
}

/// The client 2 sends a stream, a frame is shown, it goes, and another is: what the client 1 keeps.
fn stays_beside(session: &mut Session<Global>, stream: &[u8], kept: Kept) -> bool {
    if session.connect() != Ok(2) {
        return false;
    }
    let fed = session.feed(2, stream);
    is_answered(fed)
        && keeps(session, kept)
        && shows_both(session, kept)
        && keeps(session, kept)
        && leaves(session, fed)
        && shows_alone(session, kept)
        && keeps(session, kept)
}

/// The first number of bytes after which a stream was cut and the client 1 didn't keep all.
fn first_cut(session: &mut Session<Global>, stream: &[u8], kept: Kept) -> Option<usize> {
    for count in 0..stream.len().saturating_add(1) {
        if !stays_beside(session, stream.get(..count).unwrap_or(&[]), kept) {
            return Some(count);
        }
    }
    None
}

/// Puts a word into a stream.
pub(crate) fn set_word(stream: &mut [u8], at: usize, word: u32) {
    for (k, byte) in word.to_le_bytes().iter().enumerate() {
        if let Some(place) = stream.get_mut(at.saturating_add(k)) {
            *place = *byte;
        }
    }
}

pub(crate) fn word_at(stream: &[u8], at: usize) -> u32 {
    match stream.get(at..).unwrap_or(&[]) {
        [a, b, c, d, ..] => u32::from_le_bytes([*a, *b, *c, *d]),
        _ => 0,
    }
}

/// Replaces one word by each of the others in turn. The one with which the client 1 didn't keep
/// all.
fn first_word(
    session: &mut Session<Global>,
    stream: &mut [u8],
    at: usize,
    kept: Kept,
) -> Option<u32> {
    let right = word_at(stream, at);
    for word in WORDS {
        set_word(stream, at, word);
        if !stays_beside(session, stream, kept) {
            return Some(word);
        }
    }
    set_word(stream, at, right);
    None
}

/// The first place whose word was replaced where the client 1 didn't keep all.
fn first_replaced(
    session: &mut Session<Global>,
    stream: &mut [u8],
    kept: Kept,
) -> Option<(usize, u32)> {
    for number in 0..stream.len() / 4 {
        let at = number.saturating_mul(4);
        if let Some(word) = first_word(session, stream, at, kept) {
            return Some((at, word));
        }
    }
    None
}

/// What went wrong beside a client whose stream is broken.
#[derive(Clone, Copy, Debug, PartialEq, Eq)]
enum Wrong {
    /// There was no memory, or the client 1 didn't come so far.
    NotBegun,
    /// Cut after so many bytes.
    Cut(usize),
    /// The word at this place replaced by this one.
    Replaced(usize, u32),
    /// After all of them the client 1 isn't answered as if nobody had been beside it.
    Answered,
}

fn break_in(session: &mut Session<Global>, stream: &mut [u8], kept: Kept) -> Result<(), Wrong> {
    if let Some(count) = first_cut(session, stream, kept) {
        return Err(Wrong::Cut(count));
    }
    match first_replaced(session, stream, kept) {
        Some((at, word)) => Err(Wrong::Replaced(at, word)),
        None => Ok(()),
    }
}

/// The frame of the client 1 alone, which is as painted. None where it isn't.
fn alone(alloc: Global, session: &mut Session<Global>) -> Option<Vec<u8, Global>> {
    let pixels = session.tick(0).pixels.pixels();
    if is_painted(pixels, WINDOW, [Some(0), None]) {
        pixels.to_vec(alloc).ok()
    } else {
        None
    }
}

fn waiting(alloc: Global, session: &Session<Global>) -> Option<Vec<u8, Global>> {
    session.out(1).unwrap_or(&[]).to_vec(alloc).ok()
}

fn break_with(
    session: &mut Session<Global>,
    stream: &mut [u8],
    alone: &[u8],
    waiting: &[u8],
) -> Result<(), Wrong> {
    if waiting.is_empty() {
        return Err(Wrong::NotBegun);
    }
    break_in(session, stream, Kept { waiting, alone })
}

fn break_beside(
    alloc: Global,
    session: &mut Session<Global>,
    stream: &mut [u8],
) -> Result<(), Wrong> {
    if !begin_staying(alloc, session) {
        return Err(Wrong::NotBegun);
    }
    match (alone(alloc, session), waiting(alloc, session)) {
        (Some(alone), Some(waiting)) => break_with(session, stream, &alone, &waiting),
        _ => Err(Wrong::NotBegun),
    }
}

/// What is known of the client 1 where nobody was beside it.
fn known_alone(alloc: Global) -> Option<Known> {
    match Session::new(alloc, OUTPUT) {
        Ok(mut session) => known_begun(alloc, &mut session),
        Err(_) => None,
    }
}

fn known_begun(alloc: Global, session: &mut Session<Global>) -> Option<Known> {
    if begin_staying(alloc, session) {
        known_of(alloc, session)
    } else {
        None
    }
}

fn break_known(
    alloc: Global,
    session: &mut Session<Global>,
    stream: &mut [u8],
) -> Result<(), Wrong> {
    break_beside(alloc, session, stream)?;
    match known_alone(alloc) {
        Some(known) if is_known(session, &known) => Ok(()),
        _ => Err(Wrong::Answered),
    }
}

/// All that a client of a worked session sends.
fn stream_in(alloc: Global, scene: Scene, client: u32) -> Option<Vec<u8, Global>> {
    let parts = parts_of(alloc, scene)?;
    stream_of(alloc, &parts, client)
}

/// Breaks the stream of a client of a worked session in each way, always beside the client 1.
fn broken(alloc: Global, scene: Scene, client: u32) -> Result<(), Wrong> {
    match (Session::new(alloc, OUTPUT), stream_in(alloc, scene, client)) {
        (Ok(mut session), Some(mut stream)) => break_known(alloc, &mut session, &mut stream),
        _ => Err(Wrong::NotBegun),
    }
}

#[test]
fn broken_streams_of_a_window_below_another(rt: HostRuntime) {
    assert_eq!(rt; broken(rt.alloc(), Scene::TwoWindows, 1), Ok(()));
}

#[test]
fn broken_streams_of_a_window_above_another(rt: HostRuntime) {
    assert_eq!(rt; broken(rt.alloc(), Scene::TwoWindows, 2), Ok(()));
}

#[test]
fn broken_streams_with_a_subsurface(rt: HostRuntime) {
    assert_eq!(rt; broken(rt.alloc(), Scene::Subsurface, 1), Ok(()));
}

#[test]
fn broken_streams_with_a_popup(rt: HostRuntime) {
    assert_eq!(rt; broken(rt.alloc(), Scene::Menu, 1), Ok(()));
}

/// Nobody pressed a button here, so the grab is refused.
#[test]
fn broken_streams_with_a_grab(rt: HostRuntime) {
    assert_eq!(rt; broken(rt.alloc(), Scene::Grab, 1), Ok(()));
}

/// Whether the client 2 lives after each byte of a stream.
fn drips(session: &mut Session<Global>, stream: &[u8]) -> bool {
    for byte in stream {
        if session.feed(2, &[*byte]) != Fed::Alive {
            return false;
        }
    }
    true
}

/// Whether two sessions show the same, with as many points painted, and tell both clients the same.
fn are_same(one: &mut Session<Global>, other: &mut Session<Global>) -> bool {
    let is_told = one.out(1).unwrap_or(&[]) == other.out(1).unwrap_or(&[])
        && one.out(2).unwrap_or(&[]) == other.out(2).unwrap_or(&[]);
    let frame = one.tick(0);
    let wanted = other.tick(0);
    is_told
        && frame.damage.count() == wanted.damage.count()
        && frame.pixels.pixels() == wanted.pixels.pixels()
}

/// Sends a stream in one piece in one session, and byte by byte in the other.
fn drips_as_sent(
    alloc: Global,
    one: &mut Session<Global>,
    other: &mut Session<Global>,
    stream: &[u8],
) -> bool {
    begin_staying(alloc, one)
        && begin_staying(alloc, other)
        && one.connect() == Ok(2)
        && other.connect() == Ok(2)
        && one.feed(2, stream) == Fed::Alive
        && drips(other, stream)
        && are_same(one, other)
}

/// Whether it is the same how the stream of a client of a worked session comes.
fn dripped(alloc: Global, scene: Scene, client: u32) -> bool {
    let Some(stream) = stream_in(alloc, scene, client) else {
        return false;
    };
    match (Session::new(alloc, OUTPUT), Session::new(alloc, OUTPUT)) {
        (Ok(mut one), Ok(mut other)) => drips_as_sent(alloc, &mut one, &mut other, &stream),
        _ => false,
    }
}

/// The streams that come byte by byte: of a client of a worked session.
const STREAMS: &[(Scene, u32)] = &[
    (Scene::TwoWindows, 1),
    (Scene::TwoWindows, 2),
    (Scene::Subsurface, 1),
    (Scene::Menu, 1),
    (Scene::Grab, 1),
];

/// The first stream for which it isn't.
fn first_dripped_otherwise(alloc: Global, streams: &[(Scene, u32)]) -> Option<usize> {
    for (place, &(scene, client)) in streams.iter().enumerate() {
        if !dripped(alloc, scene, client) {
            return Some(place);
        }
    }
    None
}

#[test]
fn streams_come_byte_by_byte(rt: HostRuntime) {
    assert_eq!(rt; first_dripped_otherwise(rt.alloc(), STREAMS), None);
}
