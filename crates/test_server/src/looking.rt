//! A viewer that reads pieces of random lengths, while a client draws at random: what it holds
//! after each update is the frame at the update's time.

use crate::chance::Chance;
use crate::drawing::{Noise, stream};
use crate::drips::DripHub;
use crate::memory::{MemoryHub, Place};
use crate::turns::hub_of;
use crate::updates::{Stream, copy, shows};
use std::alloc::Global;
use wl_server::{Connections, Recorded, Service, Viewing, turn_viewed};
use wl_session::{Config, Rgb, Session};

const OUTPUT: Config = Config {
    width: 16,
    height: 12,
    background: Rgb {
        r: 10,
        g: 20,
        b: 30,
    },
};

/// How many bytes an image of the output has, without its head, and a picture.
const IMAGE: usize = 576;

const PICTURE: usize = 768;

/// How many commits the client sends. In so many turns it sends all of them, and the viewer takes
/// what it is told.
const COMMITS: u32 = 120;

const TURNS: u32 = 200;

/// What a viewer took, and the images of the turns from 0 on.
#[derive(Drop)]
struct Play {
    viewer: DripHub,
    images: Vec<u8>,
    /// In how many turns something was painted.
    painted: u32,
}

/// A session with a viewer and the client.
#[derive(Drop)]
struct Stage<'a> {
    service: Service<Global, Vec<u8>, MemoryHub<'a>, Noise>,
    viewing: Viewing<Global, DripHub, u8>,
    images: Vec<u8>,
    painted: u32,
}

fn new_stage<'a>(alloc: Global, seed: u64) -> Option<Stage<'a>> {
    let noise = Noise {
        chance: Chance::new(seed),
    };
    let session = Session::new(alloc, OUTPUT).ok()?;
    let mut images = Vec::new(alloc);
    for _ in 0..IMAGE / 3 {
        images.extend_from_slice(&[10, 20, 30]).ok()?;
    }
    Some(Stage {
        service: Service::new(
            Recorded::without(session),
            hub_of(alloc, b"")?,
            noise,
            Vec::new(alloc),
        ),
        viewing: Viewing::new(
            alloc,
            OUTPUT.width,
            OUTPUT.height,
            DripHub::new(alloc, seed, 160),
        ),
        images,
        painted: 0,
    })
}

/// Keeps the image of a turn: that of its frame, or the last one where nothing was painted.
fn keep(alloc: Global, images: &mut Vec<u8>, ppm: &[u8]) -> Option<()> {
    if let Some(colors) = ppm.strip_prefix(b"P6\n16 12\n255\n".as_slice()) {
        return images.extend_from_slice(colors).ok();
    }
    let mut last = Vec::new(alloc);
    last.extend_from_slice(images.get(images.len().saturating_sub(IMAGE)..)?)
        .ok()?;
    images.extend_from_slice(last.as_slice()).ok()
}

/// The client has sent these bytes.
fn send<'a>(hub: &mut MemoryHub<'a>, piece: &'a [u8]) {
    if let Some(client) = hub.clients.get_mut(0) {
        client.sends = piece;
    }
}

/// Takes a turn in which the client has sent these bytes.
fn take_turn<'a>(
    alloc: Global,
    stage: &mut Stage<'a>,
    connections: &mut Connections<Place>,
    piece: &'a [u8],
    time: u32,
) -> Option<()> {
    send(&mut stage.service.hub, piece);
    let mut report = Vec::new(alloc);
    let mut ppm = Some(Vec::new(alloc));
    turn_viewed(
        &mut stage.service,
        connections,
        &mut stage.viewing,
        time,
        &mut report,
        &mut ppm,
    )
    .ok()?;
    let ppm = ppm?;
    if !ppm.is_empty() {
        stage.painted = stage.painted.saturating_add(1);
    }
    keep(alloc, &mut stage.images, ppm.as_slice())
}

/// Plays a session whose client sends a piece of random length in each turn.
fn played(alloc: Global, seed: u64) -> Option<Play> {
    let mut chance = Chance::new(seed);
    let sends = stream(alloc, &mut chance, COMMITS)?;
    play_all(alloc, seed, sends.as_slice())
}

fn play_all(alloc: Global, seed: u64, sends: &[u8]) -> Option<Play> {
    let mut chance = Chance::new(seed);
    let mut rest = sends;
    let mut stage = new_stage(alloc, seed)?;
    let mut connections = Connections::new();
    for time in 1..TURNS.saturating_add(1) {
        let (piece, later) = rest.split_at(chance.below(99).min(rest.len()));
        rest = later;
        take_turn(alloc, &mut stage, &mut connections, piece, time)?;
    }
    let painted = stage.painted;
    let images = stage.images;
    let viewing = stage.viewing;
    Some(Play {
        viewer: viewing.hub,
        images,
        painted,
    })
}

/// What is seen of a play.
#[derive(Clone, Copy, Debug, PartialEq, Eq)]
struct Seen {
    updates: u32,
    /// How many of these show something else than the one before.
    changes: u32,
    runs: u32,
    /// After how many updates the picture isn't the frame at their time.
    wrong: u32,
}

const NOTHING: Seen = Seen {
    updates: 0,
    changes: 0,
    runs: 0,
    wrong: 0,
};

impl Seen {
    /// Whether there was much to see.
    fn is_enough(&self) -> bool {
        self.updates > 20 && self.changes > 20 && self.runs > 100
    }
}

/// The image of a turn.
fn image_of(play: &Play, time: u32) -> Option<&[u8]> {
    let from = usize::try_from(time).ok()?.saturating_mul(IMAGE);
    play.images.get(from..from.saturating_add(IMAGE))
}

/// Copies the runs of an update, except the one of this number.
fn copy_update(
    stream: &mut Stream,
    picture: &mut [u8],
    count: u32,
    seen: &mut Seen,
    forgotten: Option<u32>,
) -> Option<()> {
    for _ in 0..count {
        let run = stream.run()?;
        if Some(seen.runs) != forgotten {
            copy(picture, OUTPUT.width, run)?;
        }
        seen.runs = seen.runs.saturating_add(1);
    }
    seen.updates = seen.updates.saturating_add(1);
    Some(())
}

/// What is seen of a play by somebody who forgets a run, or none. None where the viewer isn't told
/// whole updates alone, or doesn't hold the last image at the end.
fn look(alloc: Global, play: &Play, forgotten: Option<u32>) -> Option<Seen> {
    let mut stream = Stream {
        rest: play.viewer.taken.as_slice(),
    };
    stream.skip(b"wlframe 1 16 12\n")?;
    let mut picture = vec![in alloc; 0u8; PICTURE].ok()?;
    let mut seen = NOTHING;
    let mut last = image_of(play, 0)?;
    for _ in 0..TURNS {
        if stream.rest.is_empty() {
            break;
        }
        let (time, count) = stream.head()?;
        copy_update(&mut stream, &mut picture, count, &mut seen, forgotten)?;
        let image = image_of(play, time)?;
        if !shows(picture.as_slice(), image) {
            seen.wrong = seen.wrong.saturating_add(1);
        }
        if image != last {
            seen.changes = seen.changes.saturating_add(1);
        }
        last = image;
    }
    if Some(last) == image_of(play, TURNS) {
        Some(seen)
    } else {
        None
    }
}

/// What is seen of a play, and whether the viewer's pieces had many lengths and it skipped frames.
fn seen_of(alloc: Global, seed: u64) -> Option<(Seen, bool)> {
    let play = played(alloc, seed)?;
    let seen = look(alloc, &play, None)?;
    let is_random = play.viewer.lengths.count_ones() > 30;
    Some((seen, is_random && seen.updates < play.painted))
}

#[test]
fn a_viewer_holds_the_frame_of_each_update(rt: HostRuntime) {
    for seed in 0..8_u64 {
        let (seen, is_slow) = seen_of(rt.alloc(), seed).unwrap_or((NOTHING, false));
        assert!(rt;
            is_slow && seen.wrong == 0 && seen.is_enough(),
            "{seed}: {seen:?}"
        );
    }
}

/// How many runs a play has, and of how many it is seen that they are forgotten.
fn missed(alloc: Global, seed: u64) -> Option<(u32, u32)> {
    let play = played(alloc, seed)?;
    let seen = look(alloc, &play, None)?;
    let mut missed = 0_u32;
    for run in 0..seen.runs {
        if look(alloc, &play, Some(run))?.wrong > 0 {
            missed = missed.saturating_add(1);
        }
    }
    Some((seen.runs, missed))
}

/// Few runs show nothing new.
#[test]
fn a_run_that_is_forgotten_is_missed(rt: HostRuntime) {
    let (runs, missed) = missed(rt.alloc(), 1).unwrap_or((0, 0));
    assert!(rt;
        runs > 100 && missed.saturating_add(5) >= runs,
        "{missed} of {runs}"
    );
}
