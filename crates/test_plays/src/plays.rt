//! At each tick a viewer copies only what was painted. It holds every window painted from nothing
//! in stacking order, but where a window of a client that broke a promise covers it.

use crate::desktop::{Life, SURFACES, World, new_world, number_of};
use crate::tally::{Deed, NOTHING, Tally, add, first_missing};
use crate::viewer::{Seen, UNSEEN, see};
use std::alloc::Global;

/// What happened in a play, and what was seen of it.
#[derive(Clone, Copy)]
struct Outcome {
    tally: Tally,
    seen: Seen,
}

/// How often something is done in a session.
const TURNS: u32 = 480;

fn turns(world: &mut World, count: u32) {
    for _ in 0..count {
        world.turn_once();
    }
}

/// Ends with two frames, the second of which has nothing to paint.
fn finish(alloc: Global, world: &mut World) -> Option<Outcome> {
    world.tick();
    world.tick();
    let seen = see(alloc, world)?;
    Some(Outcome {
        tally: world.tally,
        seen,
    })
}

/// Plays a session in which all clients keep their promises, or the first one doesn't.
fn play(alloc: Global, seed: u64, liar: bool) -> Option<Outcome> {
    match new_world(alloc, seed, liar) {
        Some(mut world) => {
            turns(&mut world, TURNS);
            finish(alloc, &mut world)
        }
        None => None,
    }
}

/// The first client, which lies, goes after some turns; the next one that has its number doesn't.
fn play_again(alloc: Global, seed: u64) -> Option<Outcome> {
    match new_world(alloc, seed, true) {
        Some(mut world) => {
            turns_until_shown(&mut world, TURNS);
            renew(&mut world);
            turns(&mut world, TURNS);
            finish(alloc, &mut world)
        }
        None => None,
    }
}

/// At most so many turns, up to one after which the first client shows something.
fn turns_until_shown(world: &mut World, count: u32) {
    for _ in 0..count {
        world.turn_once();
        if world.is_mapped(0) {
            return;
        }
    }
}

/// The first client draws into what it shows, and goes. Its number is used again.
fn renew(world: &mut World) {
    world.tick();
    for slot in 0..SURFACES {
        spoil(world, slot);
    }
    world.tick();
    match world.client(0).life {
        Life::Alive => {
            world.leave(0);
            world.close(0);
        }
        Life::Gone | Life::Refused(_) | Life::Slow => world.close(0),
        Life::Free => {}
    }
    world.liar = false;
    world.forget_deed(Deed::MapOfFirst);
    world.connect();
    world.tick();
}

fn spoil(world: &mut World, slot: usize) {
    let surface = world.surface(number_of(0, slot));
    if let Some(buffer) = surface.current.buffer {
        world.draw_all(0, buffer.number);
    }
}

/// Adds what happened in one play, and what was seen of it, to that of others.
fn add_play(all: &mut Outcome, one: &Outcome) {
    add(&mut all.tally, &one.tally);
    all.seen = all.seen.with(one.seen);
}

/// Before anything is played.
const NONE: Outcome = Outcome {
    tally: NOTHING,
    seen: UNSEEN,
};

/// How many sessions each test plays.
const PLAYS: u64 = 40;

#[derive(Clone, Copy)]
enum Kind {
    Honest,
    Liar,
    Again,
}

fn played(alloc: Global, kind: Kind, seed: u64) -> Option<Outcome> {
    match kind {
        Kind::Honest => play(alloc, seed, false),
        Kind::Liar => play(alloc, seed, true),
        Kind::Again => play_again(alloc, seed),
    }
}

/// Plays sessions up to the first in which something was wrong, and adds up what happened. That
/// one, and all with it.
fn first_wrong(alloc: Global, kind: Kind, all: &mut Outcome) -> Option<u64> {
    for seed in 1..PLAYS.saturating_add(1) {
        let Some(one) = played(alloc, kind, seed) else {
            return Some(seed);
        };
        add_play(all, &one);
        if one.seen.wrong > 0 || !one.seen.proper {
            return Some(seed);
        }
    }
    None
}

/// How often each deed has to happen in the plays of a test: a third of what comes.
const LEAST: &[(Deed, u32)] = &[
    (Deed::Map, 163),
    (Deed::MapOfFirst, 49),
    (Deed::Unmap, 44),
    (Deed::Connect, 96),
    (Deed::End, 58),
    (Deed::SlowByItself, 1),
    (Deed::SlowByOthers, 2),
    (Deed::Overlap, 61007),
    (Deed::Cut, 1050),
    (Deed::Sent, 238),
    (Deed::Release, 233),
    (Deed::Link, 42),
    (Deed::Unlink, 8),
    (Deed::Desync, 7),
    (Deed::Sync, 5),
    (Deed::Hold, 74),
    (Deed::Unhold, 6),
    (Deed::Position, 45),
    (Deed::Above, 4),
    (Deed::Below, 5),
    (Deed::Inner, 318),
    (Deed::Input, 58),
    (Deed::LatePointer, 1),
    (Deed::Enter, 38),
    (Deed::Motion, 32),
    (Deed::Button, 46),
    (Deed::Raise, 22),
    (Deed::Drag, 3),
    (Deed::Popup, 32),
    (Deed::PopupMap, 19),
    (Deed::PopupUnmap, 8),
    (Deed::PopupEnd, 8),
    (Deed::Menu, 108),
    (Deed::MenuByGeometry, 33),
    (Deed::Grab, 2),
    (Deed::Refusal, 10),
    (Deed::Dismissal, 14),
    (Deed::Outside, 1),
    (Deed::Scale, 63),
    (Deed::Scaled, 359),
    (Deed::BothDamages, 19),
    (Deed::MuchDamage, 2),
    (Deed::BadScale, 1),
    (Deed::BadSize, 1),
    (Deed::TooNew, 2),
    (Deed::Reposition, 18),
    (Deed::RepositionOfFresh, 6),
    (Deed::RepositionOfDismissed, 2),
    (Deed::Together, 3),
    (Deed::InForce, 4),
    (Deed::InForceBefore, 1),
    (Deed::Forgotten, 2),
    (Deed::Slide, 10),
    (Deed::Incomplete, 1),
    (Deed::WithoutEffect, 16),
];

/// How many frames have to be painted, and how many have nothing to paint.
const PAINTED: u32 = 287;

const IDLE: u32 = 510;

/// How many points have to be seen that aren't as painted, inside the windows of a client that
/// lies, and where such a client goes soon.
const SPOILED: u32 = 30228;

const SPOILED_ONCE: u32 = 1663;

/// Whether enough frames with and without damage were seen, and enough points that a client that
/// lies spoiled.
fn has_frames(seen: Seen, spoiled: u32) -> bool {
    seen.painted >= PAINTED && seen.idle >= IDLE && seen.spoiled >= spoiled
}

#[test]
fn honest(rt: HostRuntime) {
    let mut all = NONE;
    let wrong = first_wrong(rt.alloc(), Kind::Honest, &mut all);
    assert!(rt; wrong.is_none(), "{wrong:?} {:?}", all.seen);
    let missing = first_missing(&all.tally, LEAST);
    assert!(rt; missing.is_none(), "{missing:?}");
    assert!(rt; has_frames(all.seen, 0), "{:?}", all.seen);
}

#[test]
fn one_liar(rt: HostRuntime) {
    let mut all = NONE;
    let wrong = first_wrong(rt.alloc(), Kind::Liar, &mut all);
    assert!(rt; wrong.is_none(), "{wrong:?} {:?}", all.seen);
    let missing = first_missing(&all.tally, LEAST);
    assert!(rt; missing.is_none(), "{missing:?}");
    assert!(rt; has_frames(all.seen, SPOILED), "{:?}", all.seen);
}

#[test]
fn a_number_used_again(rt: HostRuntime) {
    let mut all = NONE;
    let wrong = first_wrong(rt.alloc(), Kind::Again, &mut all);
    assert!(rt; wrong.is_none(), "{wrong:?} {:?}", all.seen);
    let missing = first_missing(&all.tally, LEAST);
    assert!(rt; missing.is_none(), "{missing:?}");
    assert!(rt; has_frames(all.seen, SPOILED_ONCE), "{:?}", all.seen);
}
