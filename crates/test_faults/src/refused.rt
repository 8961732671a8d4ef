//! Each allocation of worked sessions refused in turn, with all after it or alone. A session isn't
//! made, a client doesn't connect or ends as out of memory, or nothing is struck. Each frame shows
//! the windows of the clients that are left.

use crate::acts::{Layer, OUTPUT, Part, Places, Plan, Planned, is_painted, plan_of_parts};
use crate::scenes::{Scene, parts_of};
use std::alloc::{Allocator, Global};
use test_support::Refusing;
use wl_session::{Cause, ConnectError, Fed, FrameError, Session, Stored};

/// More allocations than any of these sessions makes.
pub(crate) const MANY: u64 = 2000;

pub(crate) const NO_MEMORY: Fed = Fed::Ended(Cause::Memory);

/// How far a session came: the clients that live, where their toplevels stand, and how many were
/// mapped. Also how many ended by what another one sent, and what the last frame showed.
#[derive(Clone, Copy)]
struct Progress<'a> {
    lives: [bool; 2],
    places: Places,
    mappings: usize,
    struck: usize,
    shown: &'a [Layer],
}

const BEGUN: Progress = Progress {
    lives: [false; 2],
    places: [None; 2],
    mappings: 0,
    struck: 0,
    shown: &[],
};

/// What became of a session.
#[derive(Clone, Copy, PartialEq, Eq)]
enum Outcome {
    /// There is none.
    NoSession,
    /// A client didn't connect, and nothing more was done.
    Stopped,
    /// All was done. So many clients live, and so many ended by what another one sent.
    Played { left: usize, struck: usize },
    /// The step at this place was answered otherwise than it may be.
    Wrong(usize),
}

/// What became of a step.
#[derive(Clone, Copy, PartialEq, Eq)]
enum Taken {
    Done,
    NotConnected,
    Wrong,
}

fn done_if(is_right: bool) -> Taken {
    if is_right { Taken::Done } else { Taken::Wrong }
}

impl<'a> Progress<'a> {
    fn has(&self, client: u32) -> bool {
        match client {
            1 => self.lives[0],
            2 => self.lives[1],
            _ => false,
        }
    }

    fn set(&mut self, client: u32, lives: bool, place: Option<usize>) {
        if client == 1 {
            self.lives[0] = lives;
            self.places[0] = place;
        } else {
            self.lives[1] = lives;
            self.places[1] = place;
        }
    }

    /// A client may end as out of memory, and has ended so from then on.
    fn is_fed(&mut self, client: u32, fed: Fed) -> bool {
        if self.has(client) && fed == Fed::Alive {
            return true;
        }
        self.set(client, false, None);
        fed == NO_MEMORY
    }

    /// A client's toplevel takes the next place.
    fn map(&mut self, client: u32) {
        if self.has(client) {
            let place = (self.mappings % 8).saturating_mul(32);
            self.set(client, true, Some(place));
            self.mappings = self.mappings.saturating_add(1);
        }
    }

    fn count(&self) -> usize {
        usize::from(self.lives[0]).saturating_add(usize::from(self.lives[1]))
    }
}

fn connect<A: Allocator + Copy>(
    session: &mut Session<A>,
    client: u32,
    progress: &mut Progress,
) -> Taken {
    match session.connect() {
        Ok(number) => {
            progress.set(client, true, None);
            done_if(number == client)
        }
        Err(ConnectError::Memory) if session.status(client) == Fed::NoClient => Taken::NotConnected,
        Err(_) => Taken::Wrong,
    }
}

/// What waits for a client that lives begins with these bytes, and they are taken.
fn send<A: Allocator + Copy>(session: &mut Session<A>, client: u32, told: &[u8]) -> bool {
    session.out(client).unwrap_or(&[]).starts_with(told) && session.sent(client, told.len())
}

/// All that waits for a client is the first of these parts or, where the other client has ended,
/// any of them. It is taken.
fn send_any<A: Allocator + Copy>(
    session: &mut Session<A>,
    plan: &Plan,
    (client, first, second, third): (u32, Part, Part, Part),
    are_both_there: bool,
) -> bool {
    let out = session.out(client).unwrap_or(&[]);
    let count = out.len();
    let is_first = out == plan.part(first);
    let is_other = out == plan.part(second) || out == plan.part(third);
    (is_first || (is_other && !are_both_there)) && session.sent(client, count)
}

fn is_silent<A: Allocator + Copy>(session: &Session<A>, client: u32) -> bool {
    match session.out(client) {
        Some(out) => out.is_empty(),
        None => false,
    }
}

pub(crate) fn shows<A: Allocator + Copy>(
    session: &mut Session<A>,
    layers: &[Layer],
    places: Places,
) -> bool {
    let frame = session.tick(0);
    is_painted(frame.pixels.pixels(), layers, places)
}

fn feed<A: Allocator + Copy>(
    session: &mut Session<A>,
    client: u32,
    piece: &[u8],
    maps: bool,
    progress: &mut Progress,
) -> bool {
    let fed = session.feed(client, piece);
    let is_right = progress.is_fed(client, fed) && session.status(client) == fed;
    if maps {
        progress.map(client);
    }
    let before = progress.count();
    let are_others_right = are_left(session, progress);
    progress.struck = progress
        .struck
        .saturating_add(before.saturating_sub(progress.count()));
    is_right && are_others_right
}

/// Each client lives on, or has ended as out of memory, after the pointer did something or was
/// settled anew.
fn are_left<A: Allocator + Copy>(session: &Session<A>, progress: &mut Progress) -> bool {
    for client in [1, 2] {
        if progress.has(client) && !progress.is_fed(client, session.status(client)) {
            return false;
        }
    }
    true
}

fn store<A: Allocator + Copy>(
    session: &mut Session<A>,
    plan: &Plan,
    (client, store, at, part): (u32, u32, u32, Part),
    lives: bool,
) -> bool {
    let wanted = if lives {
        Stored::Done
    } else {
        Stored::NoClient
    };
    session.store(client, store, at, plan.part(part)) == wanted
}

/// A client goes that lives, and the other lives on or has ended as out of memory.
fn goes<A: Allocator + Copy>(
    session: &mut Session<A>,
    client: u32,
    progress: &mut Progress,
) -> bool {
    let lives = progress.has(client);
    progress.set(client, false, None);
    let before = progress.count();
    let is_right = session.gone(client) == lives && are_left(session, progress);
    progress.struck = progress
        .struck
        .saturating_add(before.saturating_sub(progress.count()));
    is_right
}

fn tick<'a, A: Allocator + Copy>(
    session: &mut Session<A>,
    layers: &'a [Layer],
    progress: &mut Progress<'a>,
) -> Taken {
    progress.shown = layers;
    done_if(shows(session, layers, progress.places))
}

/// Takes a step by its own call.
fn take<'a, A: Allocator + Copy>(
    session: &mut Session<A>,
    plan: &Plan,
    planned: Planned<'a>,
    progress: &mut Progress<'a>,
) -> Taken {
    match planned {
        Planned::Connect(client) => connect(session, client, progress),
        Planned::Feed(client, part, maps) => {
            done_if(feed(session, client, plan.part(part), maps, progress))
        }
        Planned::FeedBeside(client, part) => {
            let is_alone = progress.count() < 2;
            done_if(is_alone || feed(session, client, plan.part(part), false, progress))
        }
        Planned::Store(client, number, at, part) => {
            let lives = progress.has(client);
            done_if(store(session, plan, (client, number, at, part), lives))
        }
        Planned::Sent(client, part) => {
            done_if(!progress.has(client) || send(session, client, plan.part(part)))
        }
        Planned::SentAny(client, first, second, third) => {
            let are_both_there = progress.count() == 2;
            let wanted = (client, first, second, third);
            done_if(!progress.has(client) || send_any(session, plan, wanted, are_both_there))
        }
        Planned::Silent(client) => done_if(!progress.has(client) || is_silent(session, client)),
        Planned::SilentBeside(client) => {
            done_if(progress.count() < 2 || is_silent(session, client))
        }
        Planned::Gone(client) => done_if(goes(session, client, progress)),
        Planned::Motion(x, y) => {
            session.motion(1, x, y);
            done_if(are_left(session, progress))
        }
        Planned::Button(pressed) => {
            session.button(2, 272, pressed);
            done_if(are_left(session, progress))
        }
        Planned::Tick(layers) => tick(session, layers, progress),
        Planned::TickEither(both, one) => {
            let layers = if progress.count() == 2 { both } else { one };
            tick(session, layers, progress)
        }
    }
}

/// Takes the steps of a plan by their own calls. Where a client doesn't connect, the next frame
/// shows what the last one did.
fn play<A: Allocator + Copy>(session: &mut Session<A>, plan: &Plan) -> Outcome {
    let mut progress = BEGUN;
    for (place, planned) in plan.steps.iter().enumerate() {
        match take(session, plan, *planned, &mut progress) {
            Taken::Done => {}
            Taken::NotConnected => {
                return if shows(session, progress.shown, progress.places) {
                    Outcome::Stopped
                } else {
                    Outcome::Wrong(place)
                };
            }
            Taken::Wrong => return Outcome::Wrong(place),
        }
    }
    Outcome::Played {
        left: progress.count(),
        struck: progress.struck,
    }
}

/// A heap that refuses one allocation, or that and all after it.
pub(crate) fn heap_of(alloc: Global, served: u64, once: bool) -> Refusing<Global> {
    if once {
        Refusing::once(alloc, served)
    } else {
        Refusing::new(alloc, served)
    }
}

/// Plays a plan, and tells whether an allocation was refused.
fn play_with(alloc: Global, plan: &Plan, served: u64, once: bool) -> (Outcome, bool) {
    let heap = heap_of(alloc, served, once);
    let outcome = match Session::new(&heap, OUTPUT) {
        Ok(mut session) => play(&mut session, plan),
        Err(FrameError::Memory) => Outcome::NoSession,
        Err(FrameError::BadSize) => Outcome::Wrong(0),
    };
    (outcome, heap.refused())
}

/// What became of several sessions.
#[derive(Clone, Copy, Debug, PartialEq, Eq)]
struct Tally {
    /// In so many a client didn't connect.
    stopped: u32,
    /// In so many all clients ended.
    none: u32,
    /// In so many one was left, and in so many two.
    one: u32,
    two: u32,
    /// In so many a client ended by what another one sent.
    struck: u32,
}

impl Tally {
    fn count(&mut self, outcome: Outcome) {
        match outcome {
            Outcome::Stopped => self.stopped = self.stopped.saturating_add(1),
            Outcome::Played { left, struck } => self.count_played(left, struck),
            Outcome::NoSession | Outcome::Wrong(_) => {}
        }
    }

    fn count_played(&mut self, left: usize, struck: usize) {
        match left {
            0 => self.none = self.none.saturating_add(1),
            1 => self.one = self.one.saturating_add(1),
            _ => self.two = self.two.saturating_add(1),
        }
        if struck > 0 {
            self.struck = self.struck.saturating_add(1);
        }
    }
}

const UNCOUNTED: Tally = Tally {
    stopped: 0,
    none: 0,
    one: 0,
    two: 0,
    struck: 0,
};

/// Plays a plan with ever more allocations served, until none is refused. None where something
/// happened that may not.
fn tally_of(alloc: Global, plan: &Plan, once: bool) -> Option<Tally> {
    let mut tally = UNCOUNTED;
    for served in 0..MANY {
        let (outcome, was_refused) = play_with(alloc, plan, served, once);
        if let Outcome::Wrong(_) = outcome {
            return None;
        }
        tally.count(outcome);
        if !was_refused {
            return Some(tally);
        }
    }
    None
}

/// What becomes of a worked session where each allocation is refused in turn, with all after it,
/// and alone.
fn tallies_of(alloc: Global, scene: Scene) -> Option<(Tally, Tally)> {
    let parts = parts_of(alloc, scene)?;
    let plan = plan_of_parts(alloc, &parts)?;
    let all = tally_of(alloc, &plan, false)?;
    let alone = tally_of(alloc, &plan, true)?;
    Some((all, alone))
}

/// What is wanted of several sessions: at least so many of each kind, and at most so many in which
/// two clients are left.
#[derive(Clone, Copy)]
struct Wanted {
    least: Tally,
    most_two: u32,
}

fn is_wanted(tally: Tally, wanted: Wanted) -> bool {
    let least = wanted.least;
    tally.stopped >= least.stopped
        && tally.none >= least.none
        && tally.one >= least.one
        && tally.two >= least.two
        && tally.two <= wanted.most_two
        && tally.struck >= least.struck
}

const ANY: Wanted = Wanted {
    least: UNCOUNTED,
    most_two: u32::MAX,
};

/// A worked session, and what is wanted where each allocation is refused in turn, with all after
/// it, and alone.
type Case = (Scene, Wanted, Wanted);

const ONE_OR_NONE: Wanted = Wanted {
    least: Tally {
        none: 31,
        one: 1,
        ..UNCOUNTED
    },
    ..ANY
};

const STRUCK_ALONE: Wanted = Wanted {
    least: Tally {
        one: 21,
        two: 1,
        struck: 1,
        ..UNCOUNTED
    },
    ..ANY
};

/// What is counted of a case that isn't as wanted. No counts are of one in which something happened
/// that may not.
fn missed(alloc: Global, case: Case) -> Option<Option<(Tally, Tally)>> {
    let (scene, wanted_all, wanted_alone) = case;
    let tallies = tallies_of(alloc, scene);
    match tallies {
        Some((all, alone)) if is_wanted(all, wanted_all) && is_wanted(alone, wanted_alone) => None,
        _ => Some(tallies),
    }
}

const TWO_WINDOWS: Case = (
    Scene::TwoWindows,
    Wanted {
        least: Tally {
            stopped: 6,
            none: 6,
            one: 1,
            two: 1,
            struck: 0,
        },
        ..ANY
    },
    Wanted {
        least: Tally {
            one: 21,
            two: 1,
            ..UNCOUNTED
        },
        ..ANY
    },
);

#[test]
fn two_windows_without_memory(rt: HostRuntime) {
    assert_eq!(rt; missed(rt.alloc(), TWO_WINDOWS), None);
}

const SUBSURFACE: Case = (
    Scene::Subsurface,
    Wanted {
        least: Tally {
            none: 41,
            one: 1,
            ..UNCOUNTED
        },
        ..ANY
    },
    Wanted {
        least: Tally {
            none: 41,
            one: 1,
            ..UNCOUNTED
        },
        ..ANY
    },
);

#[test]
fn a_subsurface_without_memory(rt: HostRuntime) {
    assert_eq!(rt; missed(rt.alloc(), SUBSURFACE), None);
}

const MENU: Case = (Scene::Menu, ONE_OR_NONE, ONE_OR_NONE);

#[test]
fn a_popup_without_memory(rt: HostRuntime) {
    assert_eq!(rt; missed(rt.alloc(), MENU), None);
}

const GRAB: Case = (Scene::Grab, ONE_OR_NONE, ONE_OR_NONE);

#[test]
fn a_grab_without_memory(rt: HostRuntime) {
    assert_eq!(rt; missed(rt.alloc(), GRAB), None);
}

/// The popup's client goes in the end, so the client 1 is left, or none.
const RIVALS: Case = (
    Scene::Rivals,
    Wanted {
        least: Tally {
            stopped: 21,
            one: 21,
            ..UNCOUNTED
        },
        most_two: 0,
    },
    Wanted {
        least: Tally {
            none: 21,
            one: 21,
            ..UNCOUNTED
        },
        most_two: 0,
    },
);

#[test]
fn rivals_without_memory(rt: HostRuntime) {
    assert_eq!(rt; missed(rt.alloc(), RIVALS), None);
}

/// Who can't be told that another's window hides its own from the pointer ends, and the other is
/// settled on and lives.
const LEFT_BELOW: Case = (
    Scene::LeftBelow,
    Wanted {
        least: Tally {
            one: 11,
            two: 1,
            struck: 1,
            ..UNCOUNTED
        },
        ..ANY
    },
    STRUCK_ALONE,
);

#[test]
fn a_window_below_another_without_memory(rt: HostRuntime) {
    assert_eq!(rt; missed(rt.alloc(), LEFT_BELOW), None);
}

/// Who can't be told that the pointer enters its window as another's goes ends, and its window
/// goes.
const ENTERED_ANEW: Case = (
    Scene::EnteredAnew,
    Wanted {
        least: Tally {
            none: 11,
            one: 1,
            struck: 3,
            ..UNCOUNTED
        },
        ..ANY
    },
    STRUCK_ALONE,
);

#[test]
fn a_window_that_comes_out_without_memory(rt: HostRuntime) {
    assert_eq!(rt; missed(rt.alloc(), ENTERED_ANEW), None);
}

const SHOWN_TWICE: Case = (Scene::ShownTwice, ONE_OR_NONE, ONE_OR_NONE);

#[test]
fn a_buffer_shown_twice_without_memory(rt: HostRuntime) {
    assert_eq!(rt; missed(rt.alloc(), SHOWN_TWICE), None);
}
