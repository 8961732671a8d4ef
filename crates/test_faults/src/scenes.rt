//! The worked sessions by name, and the parts that they are made of. Each list of acts is named in
//! one function alone: what a body takes to prove grows
//! with the square of the references in it.

use crate::acts::Act;
use crate::menus::{GRAB, MENU, PLACED_POPUP, SEATED};
use crate::recorded::{
    BLACK_WINDOW, FIRST_CLIENT, GREY_WINDOW, HELD, SECOND_CLIENT, SHOWN_TWICE, SUBSURFACE,
    TWO_WINDOWS,
};
use crate::rivals::{RIVAL, RIVAL_GOES, RIVAL_GRABS, SHOWN};
use crate::settling::{ENTERED_ANEW, LEFT_BELOW, READY, RESTING, WAITING};
use std::alloc::Global;

/// A worked session.
#[derive(Clone, Copy)]
pub(crate) enum Scene {
    /// Two clients whose windows overlap.
    TwoWindows,
    /// A window with a subsurface.
    Subsurface,
    /// A buffer that two surfaces show.
    ShownTwice,
    /// A window with a popup.
    Menu,
    /// A popup that grabs.
    Grab,
    /// Two clients, of which the upper one has a popup that grabs, and goes.
    Rivals,
    /// A window comes above another where the pointer rests.
    LeftBelow,
    /// A window goes from above another where the pointer rests.
    EnteredAnew,
}

/// A part of worked sessions.
#[derive(Clone, Copy)]
enum Part {
    FirstClient,
    GreyWindow,
    SecondClient,
    BlackWindow,
    TwoWindows,
    Subsurface,
    Held,
    ShownTwice,
    PlacedPopup,
    Menu,
    Seated,
    Grab,
    Shown,
    Rival,
    RivalGrabs,
    RivalGoes,
    Resting,
    Ready,
    LeftBelow,
    Waiting,
    EnteredAnew,
}

fn first_client() -> &'static [Act<'static>] {
    FIRST_CLIENT
}

fn grey_window() -> &'static [Act<'static>] {
    GREY_WINDOW
}

fn second_client() -> &'static [Act<'static>] {
    SECOND_CLIENT
}

fn black_window() -> &'static [Act<'static>] {
    BLACK_WINDOW
}

fn two_windows() -> &'static [Act<'static>] {
    TWO_WINDOWS
}

fn subsurface() -> &'static [Act<'static>] {
    SUBSURFACE
}

fn held() -> &'static [Act<'static>] {
    HELD
}

fn shown_twice() -> &'static [Act<'static>] {
    SHOWN_TWICE
}

fn placed_popup() -> &'static [Act<'static>] {
    PLACED_POPUP
}

fn menu() -> &'static [Act<'static>] {
    MENU
}

fn seated() -> &'static [Act<'static>] {
    SEATED
}

fn grab() -> &'static [Act<'static>] {
    GRAB
}

fn shown() -> &'static [Act<'static>] {
    SHOWN
}

fn rival() -> &'static [Act<'static>] {
    RIVAL
}

fn rival_grabs() -> &'static [Act<'static>] {
    RIVAL_GRABS
}

fn rival_goes() -> &'static [Act<'static>] {
    RIVAL_GOES
}

fn resting() -> &'static [Act<'static>] {
    RESTING
}

fn ready() -> &'static [Act<'static>] {
    READY
}

fn left_below() -> &'static [Act<'static>] {
    LEFT_BELOW
}

fn waiting() -> &'static [Act<'static>] {
    WAITING
}

fn entered_anew() -> &'static [Act<'static>] {
    ENTERED_ANEW
}

fn acts_in(part: Part) -> &'static [Act<'static>] {
    match part {
        Part::FirstClient => first_client(),
        Part::GreyWindow => grey_window(),
        Part::SecondClient => second_client(),
        Part::BlackWindow => black_window(),
        Part::TwoWindows => two_windows(),
        Part::Subsurface => subsurface(),
        Part::Held => held(),
        Part::ShownTwice => shown_twice(),
        Part::PlacedPopup => placed_popup(),
        Part::Menu => menu(),
        Part::Seated => seated(),
        Part::Grab => grab(),
        Part::Shown => shown(),
        Part::Rival => rival(),
        Part::RivalGrabs => rival_grabs(),
        Part::RivalGoes => rival_goes(),
        Part::Resting => resting(),
        Part::Ready => ready(),
        Part::LeftBelow => left_below(),
        Part::Waiting => waiting(),
        Part::EnteredAnew => entered_anew(),
    }
}

fn names_of(scene: Scene) -> &'static [Part] {
    match scene {
        Scene::TwoWindows => &[
            Part::FirstClient,
            Part::BlackWindow,
            Part::SecondClient,
            Part::TwoWindows,
        ],
        Scene::Subsurface => &[
            Part::FirstClient,
            Part::GreyWindow,
            Part::Subsurface,
            Part::Held,
        ],
        Scene::ShownTwice => &[Part::FirstClient, Part::GreyWindow, Part::ShownTwice],
        Scene::Menu => &[
            Part::FirstClient,
            Part::GreyWindow,
            Part::PlacedPopup,
            Part::Menu,
        ],
        Scene::Grab => &[
            Part::FirstClient,
            Part::GreyWindow,
            Part::PlacedPopup,
            Part::Seated,
            Part::Grab,
        ],
        Scene::Rivals => &[
            Part::FirstClient,
            Part::GreyWindow,
            Part::Seated,
            Part::Shown,
            Part::SecondClient,
            Part::Rival,
            Part::RivalGrabs,
            Part::RivalGoes,
        ],
        Scene::LeftBelow => &[
            Part::FirstClient,
            Part::GreyWindow,
            Part::Seated,
            Part::Resting,
            Part::SecondClient,
            Part::Ready,
            Part::LeftBelow,
        ],
        Scene::EnteredAnew => &[
            Part::FirstClient,
            Part::GreyWindow,
            Part::Seated,
            Part::Waiting,
            Part::SecondClient,
            Part::Ready,
            Part::EnteredAnew,
        ],
    }
}

/// The acts of a session, part by part. None where there is no memory for them.
pub(crate) fn parts_of(
    alloc: Global,
    scene: Scene,
) -> Option<Vec<&'static [Act<'static>], Global>> {
    let mut parts = Vec::new(alloc);
    for part in names_of(scene) {
        if parts.push(acts_in(*part)).is_err() {
            return None;
        }
    }
    Some(parts)
}
