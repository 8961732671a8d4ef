//! Streams of a client whose popup grabs by the serial of a press, broken in each way. The pointer
//! moves and presses between what it sends. Tested is what a client below keeps that has a pointer
//! too.

use crate::acts::{Act, OUTPUT, stream_of};
use crate::broken::{WORDS, begin, is_answered, set_word, word_at};
use crate::known::{Known, is_known, known_of};
use crate::menus::SEAT;
use crate::recorded::{BEGINS, MAPS_WIDE, WIDE_BUFFERS};
use crate::rivals::{GRABS, SHOWS_POPUP};
use std::alloc::Global;
use wl_session::{Fed, Session};

/// The client 1 shows a window of 40 by 40 grey points at (0, 0), has a pointer, and doesn't take
/// what it is told.
const STAYS: &[Act] = &[
    Act::Connects(1),
    Act::Sends(1, BEGINS),
    Act::Sends(1, WIDE_BUFFERS),
    Act::Fills(1, 1, 0, 6400, 200),
    Act::Maps(1, MAPS_WIDE),
    Act::Sends(1, SEAT),
];

/// What the client 2 sends before the button is pressed, and after that.
const BEFORE: &[Act] = &[
    Act::Sends(2, BEGINS),
    Act::Sends(2, WIDE_BUFFERS),
    Act::Maps(2, MAPS_WIDE),
    Act::Sends(2, SEAT),
];

const AFTER: &[Act] = &[Act::Sends(2, GRABS), Act::Sends(2, SHOWS_POPUP)];

fn begin_staying(alloc: Global, session: &mut Session<Global>) -> bool {
    begin(alloc, session, STAYS)
}

/// The button is pressed over the window of the client 2 alone.
fn press(session: &mut Session<Global>) {
    session.motion(1, 45, 45);
    session.button(2, 272, true);
}

/// It is released there, and the pointer goes where the popup covers the window of the client 1.
fn release(session: &mut Session<Global>) {
    session.button(3, 272, false);
    session.motion(4, 10, 10);
}

/// The client 2 sends the first part of a stream before the press, and the rest before the release:
/// how it is then.
fn send(session: &mut Session<Global>, stream: &[u8], split: usize) -> Fed {
    let (first, rest) = stream.split_at(split.min(stream.len()));
    session.feed(2, first);
    press(session);
    session.feed(2, rest);
    release(session);
    session.status(2)
}

/// A frame is shown, and the client 2 goes if it is there still.
fn leaves(session: &mut Session<Global>, fed: Fed) -> bool {
    session.tick(5);
    session.gone(2) == (fed == Fed::Alive) && session.close(2)
}

fn plays(session: &mut Session<Global>, stream: &[u8], split: usize) -> bool {
    if session.connect() != Ok(2) {
        return false;
    }
    let fed = send(session, stream, split);
    is_answered(fed) && leaves(session, fed)
}

/// Whether all that is known of the client 1 is as if nobody had sent this beside it.
fn stays_beside(alloc: Global, stream: &[u8], split: usize, known: &Known) -> bool {
    match Session::new(alloc, OUTPUT) {
        Ok(mut session) => {
            begin_staying(alloc, &mut session)
                && plays(&mut session, stream, split)
                && is_known(&mut session, known)
        }
        Err(_) => false,
    }
}

/// The first number of bytes after which the stream was cut and the client 1 didn't keep all.
fn first_cut(alloc: Global, stream: &[u8], split: usize, known: &Known) -> Option<usize> {
    for count in 0..stream.len().saturating_add(1) {
        let cut = stream.get(..count).unwrap_or(&[]);
        if !stays_beside(alloc, cut, split, known) {
            return Some(count);
        }
    }
    None
}

/// Replaces one word by each of the others in turn. The one with which the client 1 didn't keep
/// all.
fn first_word(
    alloc: Global,
    stream: &mut [u8],
    (at, split): (usize, usize),
    known: &Known,
) -> Option<u32> {
    let right = word_at(stream, at);
    for word in WORDS {
        set_word(stream, at, word);
        if !stays_beside(alloc, stream, split, known) {
            return Some(word);
        }
    }
    set_word(stream, at, right);
    None
}

/// The first place whose word was replaced where the client 1 didn't keep all, and that word.
fn first_replaced(
    alloc: Global,
    stream: &mut [u8],
    split: usize,
    known: &Known,
) -> Option<(usize, u32)> {
    for number in 0..stream.len() / 4 {
        let at = number.saturating_mul(4);
        if let Some(word) = first_word(alloc, stream, (at, split), known) {
            return Some((at, word));
        }
    }
    None
}

/// What is known of the client 1 where the pointer did the same and nobody was beside it.
fn known_alone(alloc: Global) -> Option<Known> {
    match Session::new(alloc, OUTPUT) {
        Ok(mut session) => known_pointed(alloc, &mut session),
        Err(_) => None,
    }
}

fn known_pointed(alloc: Global, session: &mut Session<Global>) -> Option<Known> {
    if !begin_staying(alloc, session) {
        return None;
    }
    press(session);
    release(session);
    known_of(alloc, session)
}

/// The stream of the client 2, and where it is split. None where there is no memory for it.
fn split_stream(alloc: Global) -> Option<(Vec<u8, Global>, usize)> {
    let mut stream = stream_of(alloc, &[BEFORE], 2)?;
    let split = stream.len();
    let rest = stream_of(alloc, &[AFTER], 2)?;
    if stream.extend_from_slice(&rest).is_err() {
        return None;
    }
    Some((stream, split))
}

#[test]
fn streams_with_a_grab_are_cut(rt: HostRuntime) {
    let (Some(known), Some((stream, split))) = (known_alone(rt.alloc()), split_stream(rt.alloc()))
    else {
        panic!(rt; "no stream")
    };
    assert_eq!(rt; first_cut(rt.alloc(), &stream, split, &known), None);
}

#[test]
fn words_of_streams_with_a_grab_are_replaced(rt: HostRuntime) {
    let (Some(known), Some((mut stream, split))) = (
        known_alone(rt.alloc()),
        split_stream(rt.alloc()),
    ) else {
        panic!(rt; "no stream")
    };
    assert_eq!(rt;
        first_replaced(rt.alloc(), &mut stream, split, &known),
        None
    );
}

/// xdg_popup.popup_done of the popup 17.
const DONE: &[u8] = &[17, 0, 0, 0, 1, 0, 8, 0];

/// Whether the grab of the unbroken stream is taken: a press where nothing is dismisses the popup.
fn grabs(session: &mut Session<Global>, stream: &[u8], split: usize) -> bool {
    if session.connect() != Ok(2) || send(session, stream, split) != Fed::Alive {
        return false;
    }
    session.motion(5, 60, 5);
    let is_done_before = session.out(2).unwrap_or(&[]).ends_with(DONE);
    session.button(6, 272, true);
    !is_done_before && session.out(2).unwrap_or(&[]).ends_with(DONE)
}

fn grabs_beside(alloc: Global) -> bool {
    match (Session::new(alloc, OUTPUT), split_stream(alloc)) {
        (Ok(mut session), Some((stream, split))) => {
            begin_staying(alloc, &mut session) && grabs(&mut session, &stream, split)
        }
        _ => false,
    }
}

#[test]
fn the_whole_stream_grabs(rt: HostRuntime) {
    assert!(rt; grabs_beside(rt.alloc()));
}
