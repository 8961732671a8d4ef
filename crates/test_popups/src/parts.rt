//! The parts that many cases share, by their names. Each list of their rows is named in one
//! function alone: what a body takes to prove grows with the
//! square of the references in it.

use crate::grabs::{
    DISMISSES, DISMISSES_UNMAPPED, GETS, GRABS, GRABS_DISMISSED, MAPS_5, STAYS_DISMISSED,
};
use crate::outside::{
    GETS_SUBMENU, GOES_OUT, MAPS_4, SUBMENU_GRABS, SUBMENU_MAPS as OUTSIDE_SUBMENU_MAPS, SURFACE_22,
};
use crate::pointing::{CLICKS_NOTHING, LEAVES, PRESSES, RELEASES};
use crate::popups::POPUP_SHOWS as POPUPS_POPUP_SHOWS;
use crate::repositions::{PLACED_AGAIN, PLACED_ANEW, POPUP_SHOWS as REPOSITIONS_POPUP_SHOWS};
use crate::rivals::{
    CLICKS_FIRST, FIRST_GETS, PRESSES_NEXT, PRESSES_SECOND, SECOND_GETS, SECOND_GRABS, SECOND_MAPS,
    SECOND_SEATED, SHOWS_SECOND,
};
use crate::submenus::{POSITIONER_21, SUBMENU, SUBMENU_MAPS as SUBMENUS_SUBMENU_MAPS};
use crate::support::{OUTPUT, POPUP, POPUP_MAPS, POSITIONER, SURFACE};
use std::alloc::Global;
use test_rows::begun::{SEATED, SECOND};
use test_rows::rows::{Fault, Row, play_in};
use wl_session::Session;

/// A part of a case.
#[derive(Clone, Copy)]
pub(crate) enum Part {
    /// Rows of its own.
    Own(&'static [Row<'static>]),
    Seated,
    Second,
    Surface,
    Positioner,
    Popup,
    PopupMaps,
    Presses,
    Releases,
    Leaves,
    ClicksNothing,
    Gets,
    Grabs,
    MapsGrabbing,
    StaysDismissed,
    Dismisses,
    GrabsDismissed,
    DismissesUnmapped,
    MapsPressed,
    Surface22,
    GetsSubmenu,
    SubmenuGrabs,
    SubmenuMapsGrabbing,
    GoesOut,
    PopupShows,
    Positioner21,
    Submenu,
    SubmenuMaps,
    ShowsSecond,
    SecondSeated,
    PressesSecond,
    SecondGets,
    SecondGrabs,
    SecondMaps,
    ClicksFirst,
    PressesNext,
    FirstGets,
    GreenPopup,
    PlacedAnew,
    PlacedAgain,
}

/// A case: its name, and the parts that are played in turn in a session of its own.
pub(crate) type Case<'a> = (&'a str, &'a [Part]);

fn seated() -> &'static [Row<'static>] {
    SEATED
}

fn second() -> &'static [Row<'static>] {
    SECOND
}

fn surface() -> &'static [Row<'static>] {
    SURFACE
}

fn positioner() -> &'static [Row<'static>] {
    POSITIONER
}

fn popup() -> &'static [Row<'static>] {
    POPUP
}

fn popup_maps() -> &'static [Row<'static>] {
    POPUP_MAPS
}

fn presses() -> &'static [Row<'static>] {
    PRESSES
}

fn releases() -> &'static [Row<'static>] {
    RELEASES
}

fn leaves() -> &'static [Row<'static>] {
    LEAVES
}

fn clicks_nothing() -> &'static [Row<'static>] {
    CLICKS_NOTHING
}

fn gets() -> &'static [Row<'static>] {
    GETS
}

fn grabs() -> &'static [Row<'static>] {
    GRABS
}

fn maps_grabbing() -> &'static [Row<'static>] {
    MAPS_5
}

fn stays_dismissed() -> &'static [Row<'static>] {
    STAYS_DISMISSED
}

fn dismisses() -> &'static [Row<'static>] {
    DISMISSES
}

fn grabs_dismissed() -> &'static [Row<'static>] {
    GRABS_DISMISSED
}

fn dismisses_unmapped() -> &'static [Row<'static>] {
    DISMISSES_UNMAPPED
}

fn maps_pressed() -> &'static [Row<'static>] {
    MAPS_4
}

fn surface_22() -> &'static [Row<'static>] {
    SURFACE_22
}

fn gets_submenu() -> &'static [Row<'static>] {
    GETS_SUBMENU
}

fn submenu_grabs() -> &'static [Row<'static>] {
    SUBMENU_GRABS
}

fn submenu_maps_grabbing() -> &'static [Row<'static>] {
    OUTSIDE_SUBMENU_MAPS
}

fn goes_out() -> &'static [Row<'static>] {
    GOES_OUT
}

fn popup_shows() -> &'static [Row<'static>] {
    POPUPS_POPUP_SHOWS
}

fn positioner_21() -> &'static [Row<'static>] {
    POSITIONER_21
}

fn submenu() -> &'static [Row<'static>] {
    SUBMENU
}

fn submenu_maps() -> &'static [Row<'static>] {
    SUBMENUS_SUBMENU_MAPS
}

fn shows_second() -> &'static [Row<'static>] {
    SHOWS_SECOND
}

fn second_seated() -> &'static [Row<'static>] {
    SECOND_SEATED
}

fn presses_second() -> &'static [Row<'static>] {
    PRESSES_SECOND
}

fn second_gets() -> &'static [Row<'static>] {
    SECOND_GETS
}

fn second_grabs() -> &'static [Row<'static>] {
    SECOND_GRABS
}

fn second_maps() -> &'static [Row<'static>] {
    SECOND_MAPS
}

fn clicks_first() -> &'static [Row<'static>] {
    CLICKS_FIRST
}

fn presses_next() -> &'static [Row<'static>] {
    PRESSES_NEXT
}

fn first_gets() -> &'static [Row<'static>] {
    FIRST_GETS
}

fn green_popup() -> &'static [Row<'static>] {
    REPOSITIONS_POPUP_SHOWS
}

fn placed_anew() -> &'static [Row<'static>] {
    PLACED_ANEW
}

fn placed_again() -> &'static [Row<'static>] {
    PLACED_AGAIN
}

fn rows_of(part: Part) -> &'static [Row<'static>] {
    match part {
        Part::Own(rows) => rows,
        Part::Seated => seated(),
        Part::Second => second(),
        Part::Surface => surface(),
        Part::Positioner => positioner(),
        Part::Popup => popup(),
        Part::PopupMaps => popup_maps(),
        Part::Presses => presses(),
        Part::Releases => releases(),
        Part::Leaves => leaves(),
        Part::ClicksNothing => clicks_nothing(),
        Part::Gets => gets(),
        Part::Grabs => grabs(),
        Part::MapsGrabbing => maps_grabbing(),
        Part::StaysDismissed => stays_dismissed(),
        Part::Dismisses => dismisses(),
        Part::GrabsDismissed => grabs_dismissed(),
        Part::DismissesUnmapped => dismisses_unmapped(),
        Part::MapsPressed => maps_pressed(),
        Part::Surface22 => surface_22(),
        Part::GetsSubmenu => gets_submenu(),
        Part::SubmenuGrabs => submenu_grabs(),
        Part::SubmenuMapsGrabbing => submenu_maps_grabbing(),
        Part::GoesOut => goes_out(),
        Part::PopupShows => popup_shows(),
        Part::Positioner21 => positioner_21(),
        Part::Submenu => submenu(),
        Part::SubmenuMaps => submenu_maps(),
        Part::ShowsSecond => shows_second(),
        Part::SecondSeated => second_seated(),
        Part::PressesSecond => presses_second(),
        Part::SecondGets => second_gets(),
        Part::SecondGrabs => second_grabs(),
        Part::SecondMaps => second_maps(),
        Part::ClicksFirst => clicks_first(),
        Part::PressesNext => presses_next(),
        Part::FirstGets => first_gets(),
        Part::GreenPopup => green_popup(),
        Part::PlacedAnew => placed_anew(),
        Part::PlacedAgain => placed_again(),
    }
}

fn play_parts(alloc: Global, session: &mut Session<Global>, parts: &[Part]) -> Result<(), Fault> {
    for (place, part) in parts.iter().enumerate() {
        match play_in(alloc, session, &[rows_of(*part)]) {
            Ok(()) => {}
            Err(Fault::Row(_, row)) => return Err(Fault::Row(place, row)),
            Err(Fault::NoSession) => return Err(Fault::NoSession),
        }
    }
    Ok(())
}

fn play_both(
    alloc: Global,
    session: &mut Session<Global>,
    first: &[&[Row]],
    parts: &[Part],
) -> Result<(), Fault> {
    play_in(alloc, session, first)?;
    play_parts(alloc, session, parts)
}

fn play(alloc: Global, first: &[&[Row]], parts: &[Part]) -> Result<(), Fault> {
    match Session::new(alloc, OUTPUT) {
        Ok(mut session) => play_both(alloc, &mut session, first, parts),
        Err(_) => Err(Fault::NoSession),
    }
}

/// The first of the cases that isn't as wanted, each in a session of its own after what they all
/// begin with, and what wasn't.
pub(crate) fn first_missed(
    alloc: Global,
    first: &[&[Row]],
    cases: &[Case],
) -> Option<(usize, Fault)> {
    for (place, &(_, parts)) in cases.iter().enumerate() {
        if let Err(fault) = play(alloc, first, parts) {
            return Some((place, fault));
        }
    }
    None
}
