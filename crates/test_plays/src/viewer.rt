//! A viewer that copies only what each frame painted, and the session that it looks at.

use crate::desktop::{Life, Planned, World};
use crate::painter::BACKGROUND;
use crate::telling::{Event, Mistake, Note, size_of};
use std::alloc::Global;
use wl_session::{Cause, Config, Done, Fed, Rgb, Run, Session, Shot, Step, Stored};

const OUTPUT: Config = Config {
    width: 48,
    height: 40,
    background: Rgb {
        r: 10,
        g: 20,
        b: 30,
    },
};

/// How many points the output has.
const POINTS: usize = 1920;

/// What a viewer saw in all ticks.
#[derive(Clone, Copy, Debug)]
pub(crate) struct Seen {
    /// Points that weren't as painted from nothing, outside the windows of clients that lie.
    pub wrong: u32,
    /// Points that weren't, inside of them.
    pub spoiled: u32,
    /// Frames in which something was painted.
    pub painted: u32,
    /// Frames in which nothing was.
    pub idle: u32,
    /// Whether the runs of all frames, the answers to all steps and the number of frames are as
    /// they have to be.
    pub proper: bool,
    /// The first step that was answered otherwise, or after which it isn't as long what waits for
    /// the clients.
    pub fault: Option<Fault>,
}

/// A step by its place. `waiting` has how many bytes wait for each client after it, and `wanted`
/// how many have to. `told` says whether the events are there whose bytes are known.
#[derive(Clone, Copy, Debug)]
pub(crate) struct Fault {
    pub step: usize,
    pub planned: Planned,
    pub waiting: [usize; 3],
    pub wanted: [usize; 3],
    pub told: bool,
}

pub(crate) const UNSEEN: Seen = Seen {
    wrong: 0,
    spoiled: 0,
    painted: 0,
    idle: 0,
    proper: true,
    fault: None,
};

impl Seen {
    /// With what was seen in another play.
    pub(crate) fn with(self, more: Seen) -> Seen {
        Seen {
            wrong: self.wrong.saturating_add(more.wrong),
            spoiled: self.spoiled.saturating_add(more.spoiled),
            painted: self.painted.saturating_add(more.painted),
            idle: self.idle.saturating_add(more.idle),
            proper: self.proper && more.proper,
            fault: self.fault.or(more.fault),
        }
    }
}

fn number(client: usize) -> u32 {
    u32::try_from(client).unwrap_or(0).saturating_add(1)
}

fn step_of<'a>(world: &'a World, planned: Planned) -> Step<'a> {
    match planned {
        Planned::Connect(_) => Step::Connect,
        Planned::Feed(client, from, to, _) => Step::Feed {
            client: number(client),
            piece: world.streams.get(from..to).unwrap_or(&[]),
        },
        Planned::Store(client, at, from, to) => Step::Store {
            client: number(client),
            store: 1,
            at,
            bytes: world.writes.get(from..to).unwrap_or(&[]),
        },
        Planned::Gone(client) => Step::Gone {
            client: number(client),
        },
        Planned::Close(client) => Step::Close {
            client: number(client),
        },
        Planned::Tick(time) => Step::Tick { time },
        Planned::Sent(client, count, _) => Step::Sent {
            client: number(client),
            count,
        },
        Planned::Motion(x, y) => Step::Motion { time: 7, x, y },
        Planned::Button(button, pressed) => Step::Button {
            time: 7,
            button: if button == 0 { 272 } else { 273 },
            pressed,
        },
    }
}

/// What is answered to a step.
fn answer(planned: Planned) -> Done {
    match planned {
        Planned::Connect(client) => Done::Connect(Ok(number(client))),
        Planned::Feed(_, _, _, Life::Alive) => Done::Feed(Fed::Alive),
        Planned::Feed(_, _, _, Life::Gone) => Done::Feed(Fed::Ended(Cause::Gone)),
        Planned::Feed(_, _, _, Life::Refused(Mistake { object, code, .. })) => {
            Done::Feed(Fed::Ended(Cause::Protocol { object, code }))
        }
        Planned::Feed(_, _, _, Life::Slow) => Done::Feed(Fed::Ended(Cause::Slow)),
        Planned::Feed(_, _, _, Life::Free) => Done::Feed(Fed::NoClient),
        Planned::Store(..) => Done::Store(Stored::Done),
        Planned::Gone(_) => Done::Gone(true),
        Planned::Close(_) => Done::Close(true),
        Planned::Tick(_) => Done::Tick,
        Planned::Sent(_, _, is_there) => Done::Sent(is_there),
        Planned::Motion(..) => Done::Motion,
        Planned::Button(..) => Done::Button,
    }
}

fn steps_of<'a>(alloc: Global, world: &'a World) -> Option<Vec<Step<'a>, Global>> {
    let mut steps = Vec::new(alloc);
    for planned in &world.steps {
        if steps.push(step_of(world, *planned)).is_err() {
            return None;
        }
    }
    Some(steps)
}

/// Whether runs are in reading order within the output, and no two of them touch.
fn are_in_order(runs: &[Run]) -> bool {
    let mut row = 0;
    let mut free = 0;
    for run in runs {
        let past = run.x.saturating_add(run.w);
        let follows = row < run.y || (row == run.y && free <= run.x);
        if !follows || run.w == 0 || OUTPUT.width < past || OUTPUT.height <= run.y {
            return false;
        }
        row = run.y;
        free = past.saturating_add(1);
    }
    true
}

/// How many points runs have.
fn count_of(runs: &[Run]) -> u32 {
    let mut count = 0u32;
    for run in runs {
        count = count.saturating_add(run.w);
    }
    count
}

/// Where the pixel of a point begins in an image.
fn place_of(x: u32, y: u32) -> usize {
    let point = y.saturating_mul(OUTPUT.width).saturating_add(x);
    usize::try_from(point).unwrap_or(0).saturating_mul(4)
}

/// Copies a part of an image.
fn copy(image: &mut [u8], pixels: &[u8], from: usize, past: usize) {
    if let (Some(part), Some(pixels)) = (image.get_mut(from..past), pixels.get(from..past))
        && part.len() == pixels.len()
    {
        part.copy_from_slice(pixels);
    }
}

fn copy_runs(image: &mut [u8], shot: &Shot<Global>) {
    for run in &shot.runs {
        let past = place_of(run.x.saturating_add(run.w), run.y);
        copy(image, &shot.pixels, place_of(run.x, run.y), past);
    }
}

fn part(bytes: &[u8], from: usize, count: usize) -> &[u8] {
    bytes.get(from..from.saturating_add(count)).unwrap_or(&[])
}

/// Compares what the viewer holds at a tick with the painted frame.
fn compare(world: &World, tick: usize, image: &[u8], seen: &mut Seen) {
    let first = tick.saturating_mul(POINTS);
    for point in 0..POINTS {
        let number = first.saturating_add(point);
        let wanted = part(&world.images, number.saturating_mul(4), 4);
        let held = part(image, point.saturating_mul(4), 4);
        if wanted.len() == 4 && wanted == held {
            continue;
        }
        if world.covered.get(number).copied().unwrap_or(false) {
            seen.spoiled = seen.spoiled.saturating_add(1);
        } else {
            seen.wrong = seen.wrong.saturating_add(1);
        }
    }
}

fn look(world: &World, tick: usize, image: &mut [u8], shot: &Shot<Global>, seen: &mut Seen) {
    copy_runs(image, shot);
    compare(world, tick, image, seen);
    if shot.runs.is_empty() {
        seen.idle = seen.idle.saturating_add(1);
    } else {
        seen.painted = seen.painted.saturating_add(1);
    }
    seen.proper = seen.proper && are_in_order(&shot.runs);
}

/// Looks at all frames, beginning with the background.
fn watch(world: &World, image: &mut [u8], shots: &[Shot<Global>], seen: &mut Seen) {
    for at in 0..POINTS {
        copy_color(image, at.saturating_mul(4));
    }
    for (tick, shot) in shots.iter().enumerate() {
        look(world, tick, image, shot, seen);
    }
    let wanted = usize::try_from(world.ticks).unwrap_or(0);
    seen.proper = seen.proper && shots.len() == wanted;
}

fn copy_color(image: &mut [u8], at: usize) {
    for (k, byte) in BACKGROUND.iter().enumerate() {
        if let Some(place) = image.get_mut(at.saturating_add(k)) {
            *place = *byte;
        }
    }
}

/// Whether a tick of its own call answers the same frame, and as many points as the runs have are
/// damaged.
fn is_same_tick(session: &mut Session<Global>, time: u32, shot: &Shot<Global>) -> bool {
    let frame = session.tick(time);
    frame.time == shot.time
        && frame.damage.count() == count_of(&shot.runs)
        && frame.pixels.pixels() == shot.pixels.as_slice()
}

/// How many bytes wait for each client.
fn waiting_in(session: &Session<Global>) -> [usize; 3] {
    let mut waiting = [0; 3];
    for (client, count) in waiting.iter_mut().enumerate() {
        *count = session.out(number(client)).map_or(0, |out| out.len());
    }
    waiting
}

fn is_word(bytes: &[u8], at: usize, word: u32) -> bool {
    part(bytes, at, 4) == word.to_ne_bytes().as_slice()
}

/// Whether an event begins at a place of what waits for a client.
fn has_event(bytes: &[u8], at: usize, event: Event) -> bool {
    let size = u32::try_from(size_of(event)).unwrap_or(0);
    let header = size.saturating_mul(65536).saturating_add(event.opcode);
    let mut holds = is_word(bytes, at, event.object);
    holds = holds && is_word(bytes, at.saturating_add(4), header);
    for (k, word) in event.words.iter().take(event.count).enumerate() {
        let place = k.saturating_mul(4).saturating_add(8);
        holds = holds && is_word(bytes, at.saturating_add(place), *word);
    }
    holds
}

/// The place past the events of a step, the first of which is this one. None where clients weren't
/// told all of them.
fn past_told(
    session: &Session<Global>,
    notes: &[Note],
    first: usize,
    step: usize,
) -> Option<usize> {
    let mut next = first;
    for note in notes.get(first..).unwrap_or(&[]) {
        if step < note.step {
            break;
        }
        let bytes = session.out(number(note.client)).unwrap_or(&[]);
        if !has_event(bytes, note.at, note.event) {
            return None;
        }
        next = next.saturating_add(1);
    }
    Some(next)
}

/// Takes the steps one by one in another session. The first that isn't answered as it has to be.
fn first_fault(
    session: &mut Session<Global>,
    world: &World,
    shots: &[Shot<Global>],
) -> Option<Fault> {
    let mut ticks = 0usize;
    let mut next = 0usize;
    for (step, (planned, wanted)) in world.steps.iter().zip(&world.unsent).enumerate() {
        let met = match (*planned, shots.get(ticks)) {
            (Planned::Tick(time), Some(shot)) => {
                ticks = ticks.saturating_add(1);
                is_same_tick(session, time, shot)
            }
            (Planned::Tick(_), None) => false,
            _ => session.step(&step_of(world, *planned)) == answer(*planned),
        };
        let waiting = waiting_in(session);
        let told = past_told(session, &world.notes, next, step);
        next = told.unwrap_or(next);
        if !met || told.is_none() || waiting != *wanted {
            return Some(Fault {
                step,
                planned: *planned,
                waiting,
                wanted: *wanted,
                told: told.is_some(),
            });
        }
    }
    None
}

fn see_run(
    alloc: Global,
    world: &World,
    session: &mut Session<Global>,
    image: &mut [u8],
    seen: &mut Seen,
) -> bool {
    let Some(steps) = steps_of(alloc, world) else {
        return false;
    };
    match session.run(&steps) {
        Ok(shots) => {
            watch(world, image, &shots, seen);
            answered_anew(alloc, world, &shots, seen)
        }
        Err(_) => false,
    }
}

fn answered_anew(alloc: Global, world: &World, shots: &[Shot<Global>], seen: &mut Seen) -> bool {
    match Session::new(alloc, OUTPUT) {
        Ok(mut session) => {
            seen.fault = first_fault(&mut session, world, shots);
            seen.proper = seen.proper
                && seen.fault.is_none()
                && world.steps.len() == world.unsent.len();
            true
        }
        Err(_) => false,
    }
}

/// What a viewer of a session in which all steps are taken sees. None where there was no memory.
pub(crate) fn see(alloc: Global, world: &World) -> Option<Seen> {
    let mut seen = UNSEEN;
    match (
        Session::new(alloc, OUTPUT),
        Vec::from_elem(alloc, 0u8, 4 * POINTS),
    ) {
        (Ok(mut session), Ok(mut image)) => {
            let done = see_run(alloc, world, &mut session, &mut image, &mut seen);
            if done && !world.failed {
                Some(seen)
            } else {
                None
            }
        }
        _ => None,
    }
}
