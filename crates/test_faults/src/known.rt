//! All that public calls tell of the client 1, which has a window of 40 by 40 pixels and half a
//! message. These are its stores, what waits for it and the frame. It is told again once it sent
//! the rest and asked for more. So its objects, serials and buffers are compared too.

use std::alloc::Global;
use test_rows::asks::{Ask, bytes_of};
use test_rows::begun::COMMIT;
use wl_session::{Fed, Session};

/// The first bytes of wl_display.sync with the callback 30, and those that are left.
const HALF: &[u8] = &[1, 0, 0, 0, 0];

const REST: &[u8] = &[0, 12, 0, 30, 0, 0, 0];

/// It asks for another state, shows a buffer that ends where its store does, destroys the other
/// two, and has another store.
const ASKS: &[Ask] = &[
    Ask::SetMaximized(8),
    Ask::CreateBuffer(9, 31, 12544, 8, 8, 32, 1),
    Ask::Attach(6, 31),
    COMMIT,
    Ask::BufferDestroy(10),
    Ask::BufferDestroy(11),
    Ask::CreatePool(4, 32, 16),
    Ask::Sync(33),
];

/// What is told of the client 1 and shown, before and after it asks, and what it sends for that.
#[derive(Drop)]
pub(crate) struct Known {
    told: Vec<u8, Global>,
    frame: Vec<u8, Global>,
    asks: Vec<u8, Global>,
    told_after: Vec<u8, Global>,
    frame_after: Vec<u8, Global>,
}

/// The client 1 sends half a message.
pub(crate) fn begins_message(session: &mut Session<Global>) -> bool {
    session.feed(1, HALF) == Fed::Alive
}

fn told(alloc: Global, session: &Session<Global>) -> Option<Vec<u8, Global>> {
    session.out(1)?.to_vec(alloc).ok()
}

fn frame(alloc: Global, session: &mut Session<Global>) -> Option<Vec<u8, Global>> {
    session.tick(0).pixels.pixels().to_vec(alloc).ok()
}

fn asks(session: &mut Session<Global>, messages: &[u8]) -> bool {
    session.feed(1, REST) == Fed::Alive && session.feed(1, messages) == Fed::Alive
}

/// What is known of a session in which nobody is beside the client 1. None where it has no window,
/// or can't ask.
pub(crate) fn known_of(alloc: Global, session: &mut Session<Global>) -> Option<Known> {
    let before = told(alloc, session)?;
    let frame_before = frame(alloc, session)?;
    let messages = bytes_of(alloc, ASKS)?;
    if !asks(session, &messages) {
        return None;
    }
    Some(Known {
        told: before,
        frame: frame_before,
        asks: messages,
        told_after: told(alloc, session)?,
        frame_after: frame(alloc, session)?,
    })
}

/// Whether the client 1 lives with its store, and with a second one of so many bytes.
pub(crate) fn has_stores(session: &Session<Global>, second: Option<u32>) -> bool {
    session.status(1) == Fed::Alive
        && session.store_size(1, 1) == Some(12800)
        && session.store_size(1, 2) == second
        && session.store_size(1, 3).is_none()
}

fn is_told(session: &Session<Global>, wanted: &[u8]) -> bool {
    match session.out(1) {
        Some(out) => out == wanted,
        None => false,
    }
}

fn shows(session: &mut Session<Global>, wanted: &[u8]) -> bool {
    session.tick(0).pixels.pixels() == wanted
}

/// Whether the same is known of another session, in which the client 1 asks then.
pub(crate) fn is_known(session: &mut Session<Global>, known: &Known) -> bool {
    has_stores(session, None)
        && is_told(session, &known.told)
        && shows(session, &known.frame)
        && asks(session, &known.asks)
        && has_stores(session, Some(16))
        && is_told(session, &known.told_after)
        && shows(session, &known.frame_after)
}
