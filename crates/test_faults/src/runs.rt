//! Runs of worked sessions with each allocation refused in turn, with all after it or alone: where
//! they stop, and what their clients are told then.

use crate::acts::{
    Layer, OUTPUT, Places, Plan, Planned, is_painted, plan_of_parts, step_of, steps_of,
};
use crate::refused::{MANY, NO_MEMORY, heap_of, shows};
use crate::scenes::{Scene, parts_of};
use std::alloc::{Allocator, Global};
use wl_session::{Fed, FrameError, RunError, Session, Shot, Step};

/// What became of a run.
#[derive(Clone, Copy, PartialEq, Eq)]
enum Ran {
    NoSession,
    /// It stopped at a connect, or at a tick.
    AtConnect,
    AtTick,
    /// It answered a frame of each tick.
    All,
    Wrong,
}

/// Takes so many steps of a plan in a session of ample memory.
fn take_steps(session: &mut Session<Global>, plan: &Plan, count: usize) {
    for planned in plan.steps.iter().take(count) {
        session.step(&step_of(plan, *planned));
    }
}

/// Whether a client is as in the other session, or ended as out of memory.
fn is_as<A: Allocator + Copy>(session: &Session<A>, other: &Session<Global>, client: u32) -> bool {
    match session.status(client) {
        Fed::Alive => {
            other.status(client) == Fed::Alive
                && session.out(client).unwrap_or(&[]) == other.out(client).unwrap_or(&[])
                && session.store_size(client, 1) == other.store_size(client, 1)
                && session.store_size(client, 2) == other.store_size(client, 2)
        }
        fed => fed == NO_MEMORY || fed == other.status(client),
    }
}

/// Where the toplevels of those that live stand once both were mapped.
fn places_in<A: Allocator + Copy>(session: &Session<A>) -> Places {
    [
        (session.status(1) == Fed::Alive).then_some(0),
        (session.status(2) == Fed::Alive).then_some(32),
    ]
}

/// What the tick at a place shows, or the one before it.
fn layers_at<'a>(plan: &Plan<'a>, place: usize) -> &'a [Layer] {
    let mut shown: &'a [Layer] = &[];
    for planned in plan.steps.iter().take(place.saturating_add(1)) {
        if let Planned::Tick(layers) | Planned::TickEither(layers, _) = *planned {
            shown = layers;
        }
    }
    shown
}

/// A client's toplevel stands nowhere any more.
fn leave(places: &mut Places, client: u32) {
    if client == 1 {
        places[0] = None;
    } else {
        places[1] = None;
    }
}

fn are_both_alive<A: Allocator + Copy>(session: &Session<A>, other: &Session<Global>) -> bool {
    session.status(1) == other.status(1) && session.status(2) == other.status(2)
}

/// Whether a tick paints as many points as in the other session.
fn paints_as_much<A: Allocator + Copy>(
    session: &mut Session<A>,
    other: &mut Session<Global>,
) -> bool {
    let is_same = are_both_alive(session, other);
    let wanted = other.tick(0).damage.count();
    session.tick(0).damage.count() == wanted || !is_same
}

/// Who ended as out of memory goes in the other session too.
fn part_alike<A: Allocator + Copy>(session: &Session<A>, other: &mut Session<Global>) {
    for client in [1, 2] {
        if session.status(client) == NO_MEMORY {
            other.gone(client);
        }
    }
}

/// Whether a session that stopped before a step took those before it and nothing of it: its clients
/// are told the same, and the next frame is that tick's.
fn is_stopped_at<A: Allocator + Copy>(
    session: &mut Session<A>,
    other: &mut Session<Global>,
    plan: &Plan,
    place: usize,
) -> bool {
    take_steps(other, plan, place);
    part_alike(session, other);
    let places = places_in(session);
    is_as(session, other, 1)
        && is_as(session, other, 2)
        && paints_as_much(session, other)
        && shows(session, layers_at(plan, place), places)
}

fn stopped<A: Allocator + Copy>(
    alloc: Global,
    session: &mut Session<A>,
    plan: &Plan,
    place: usize,
) -> Ran {
    let is_right = match Session::new(alloc, OUTPUT) {
        Ok(mut other) => is_stopped_at(session, &mut other, plan, place),
        Err(_) => false,
    };
    match plan.steps.get(place) {
        Some(Planned::Connect(_)) if is_right => Ran::AtConnect,
        Some(Planned::Tick(_) | Planned::TickEither(..)) if is_right => Ran::AtTick,
        _ => Ran::Wrong,
    }
}

/// Whether there is a frame of each tick and, where no client ended by itself, whether all of them
/// are as painted.
fn are_shown<A: Allocator>(shots: &[Shot<A>], plan: &Plan, all: bool) -> bool {
    let mut places = [Some(0), Some(32)];
    let mut ticks = 0usize;
    for planned in &plan.steps {
        if let Planned::Gone(client) = *planned {
            leave(&mut places, client);
        }
        if let Planned::Tick(layers) | Planned::TickEither(layers, _) = *planned {
            let is_right = match shots.get(ticks) {
                Some(shot) => !all || is_painted(&shot.pixels, layers, places),
                None => false,
            };
            if !is_right {
                return false;
            }
            ticks = ticks.saturating_add(1);
        }
    }
    shots.len() == ticks
}

fn run<A: Allocator + Copy>(
    alloc: Global,
    session: &mut Session<A>,
    plan: &Plan,
    steps: &[Step],
) -> Ran {
    match session.run(steps) {
        Ok(shots) => {
            let all = session.status(1) == Fed::Alive && session.status(2) != NO_MEMORY;
            if are_shown(&shots, plan, all) {
                Ran::All
            } else {
                Ran::Wrong
            }
        }
        Err(RunError::Memory(place)) => stopped(alloc, session, plan, place),
    }
}

fn run_with(alloc: Global, plan: &Plan, steps: &[Step], served: u64, once: bool) -> (Ran, bool) {
    let heap = heap_of(alloc, served, once);
    let ran = match Session::new(&heap, OUTPUT) {
        Ok(mut session) => run(alloc, &mut session, plan, steps),
        Err(FrameError::Memory) => Ran::NoSession,
        Err(FrameError::BadSize) => Ran::Wrong,
    };
    (ran, heap.refused())
}

/// How many runs stopped at a connect, and how many at a tick.
#[derive(Clone, Copy, Debug, PartialEq, Eq)]
struct Stops {
    at_connect: u32,
    at_tick: u32,
}

/// Runs a plan with ever more allocations served, until none is refused. None where something
/// happened that may not.
fn stops_of(alloc: Global, plan: &Plan, steps: &[Step], once: bool) -> Option<Stops> {
    let mut stops = Stops {
        at_connect: 0,
        at_tick: 0,
    };
    for served in 0..MANY {
        let (ran, was_refused) = run_with(alloc, plan, steps, served, once);
        match ran {
            Ran::Wrong => return None,
            Ran::AtConnect => stops.at_connect = stops.at_connect.saturating_add(1),
            Ran::AtTick => stops.at_tick = stops.at_tick.saturating_add(1),
            Ran::NoSession | Ran::All => {}
        }
        if !was_refused {
            return if ran == Ran::All { Some(stops) } else { None };
        }
    }
    None
}

/// Where runs of a worked session stop with each allocation refused in turn, with all after it, and
/// alone.
fn all_stops_of(alloc: Global, scene: Scene) -> Option<(Stops, Stops)> {
    let parts = parts_of(alloc, scene)?;
    let plan = plan_of_parts(alloc, &parts)?;
    let steps = steps_of(alloc, &plan)?;
    let all = stops_of(alloc, &plan, &steps, false)?;
    let alone = stops_of(alloc, &plan, &steps, true)?;
    Some((all, alone))
}

/// A worked session, and where at least so many runs of it stop where each allocation is refused in
/// turn, with all after it, and alone.
type Run = (Scene, Stops, Stops);

const AT_TICKS: Stops = Stops {
    at_connect: 0,
    at_tick: 11,
};

const AT_TICKS_ALONE: Stops = Stops {
    at_connect: 0,
    at_tick: 6,
};

fn are_at_least(stops: Stops, least: Stops) -> bool {
    stops.at_connect >= least.at_connect && stops.at_tick >= least.at_tick
}

/// Where the runs of a worked session stop, where that isn't as wanted. No places are where
/// something happened that may not.
fn missed_run(alloc: Global, run: Run) -> Option<Option<(Stops, Stops)>> {
    let (scene, wanted_all, wanted_alone) = run;
    let stops = all_stops_of(alloc, scene);
    match stops {
        Some((all, alone)) if are_at_least(all, wanted_all) && are_at_least(alone, wanted_alone) =>
            { None }
        _ => Some(stops),
    }
}

const RUN_OF_TWO_WINDOWS: Run = (
    Scene::TwoWindows,
    Stops {
        at_connect: 1,
        ..AT_TICKS
    },
    Stops {
        at_connect: 1,
        ..AT_TICKS_ALONE
    },
);

#[test]
fn a_run_of_two_windows_stops_where_memory_is_refused(rt: HostRuntime) {
    assert_eq!(rt; missed_run(rt.alloc(), RUN_OF_TWO_WINDOWS), None);
}

const RUN_WITH_A_SUBSURFACE: Run = (Scene::Subsurface, AT_TICKS, AT_TICKS_ALONE);

#[test]
fn a_run_with_a_subsurface_stops_where_memory_is_refused(rt: HostRuntime) {
    assert_eq!(rt; missed_run(rt.alloc(), RUN_WITH_A_SUBSURFACE), None);
}

const RUN_WITH_A_POPUP: Run = (Scene::Menu, AT_TICKS, AT_TICKS_ALONE);

#[test]
fn a_run_with_a_popup_stops_where_memory_is_refused(rt: HostRuntime) {
    assert_eq!(rt; missed_run(rt.alloc(), RUN_WITH_A_POPUP), None);
}

const RUN_WITH_A_GRAB: Run = (Scene::Grab, AT_TICKS, AT_TICKS_ALONE);

#[test]
fn a_run_with_a_grab_stops_where_memory_is_refused(rt: HostRuntime) {
    assert_eq!(rt; missed_run(rt.alloc(), RUN_WITH_A_GRAB), None);
}

const RUN_OF_RIVALS: Run = (
    Scene::Rivals,
    Stops {
        at_connect: 1,
        at_tick: 51,
    },
    Stops {
        at_connect: 1,
        at_tick: 11,
    },
);

#[test]
fn a_run_of_rivals_stops_where_memory_is_refused(rt: HostRuntime) {
    assert_eq!(rt; missed_run(rt.alloc(), RUN_OF_RIVALS), None);
}

const RUN_WITH_A_BUFFER_SHOWN_TWICE: Run = (Scene::ShownTwice, AT_TICKS, AT_TICKS_ALONE);

#[test]
fn a_run_with_a_buffer_shown_twice_stops_where_memory_is_refused(rt: HostRuntime) {
    assert_eq!(rt; missed_run(rt.alloc(), RUN_WITH_A_BUFFER_SHOWN_TWICE), None);
}
