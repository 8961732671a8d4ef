//! Grabs of popups: by which serials they are taken, and what becomes of a popup whose grab is
//! refused (xdg-shell.xml, xdg_popup.grab).

use crate::parts::{Case, Part};
use crate::pointing::{PRESS, RELEASE, SECOND_PRESS, TO_NOTHING};
use crate::support::{
    ATTACH_18, BUFFER_18, COMMIT_14, DETACH_14, GET_POPUP, PLACED, RELEASED_18,
    missed_after_toplevel,
};
use test_rows::asks::Ask;
use test_rows::events::Event;
use test_rows::rows::{Pixel, Row};
use wl_session::{Cause, Fed};

/// xdg_popup.popup_done of the popup 17.
pub(crate) const DISMISSED: Event = Event::PopupDone(17);

/// The popup 17 is made.
pub(crate) const GETS: &[Row] = &[Row::Sends(GET_POPUP), Row::Silent(1)];

/// It grabs with the serial of the first press, or of its release: nothing is told of it.
pub(crate) const GRAB_3: Ask = Ask::Grab(17, 12, 3);

const GRAB_4: Ask = Ask::Grab(17, 12, 4);

pub(crate) const GRABS: &[Row] = &[Row::Untold(GRAB_3)];

const GRABS_4: &[Row] = &[Row::Untold(GRAB_4)];

/// With these serials its grab is refused, and it is dismissed at once.
const REFUSED_3: &[Row] = &[Row::Accepts(GRAB_3, &[DISMISSED])];

const REFUSED_4: &[Row] = &[Row::Accepts(GRAB_4, &[DISMISSED])];

const REFUSED_2: &[Row] = &[Row::Accepts(Ask::Grab(17, 12, 2), &[DISMISSED])];

/// The serial of the toplevel's first configure is none of a press.
const GRAB_1: Ask = Ask::Grab(17, 12, 1);

const REFUSED_1: &[Row] = &[Row::Accepts(GRAB_1, &[DISMISSED])];

const REFUSED_5: &[Row] = &[Row::Accepts(Ask::Grab(17, 12, 5), &[DISMISSED])];

/// A popup that was dismissed isn't configured, nor is it shown: its commits have no effect.
pub(crate) const STAYS_DISMISSED: &[Row] = &[
    Row::Untold(COMMIT_14),
    Row::Sends(BUFFER_18),
    Row::Sends(ATTACH_18),
    Row::Untold(COMMIT_14),
    Row::Shows(0, 0, &[Pixel(40, 40, 0, 0, 0)]),
];

/// Nor is it told again that it was dismissed, whatever it grabs with.
pub(crate) const GRABS_DISMISSED: &[Row] = &[
    Row::Untold(GRAB_3),
    Row::Untold(GRAB_4),
    Row::Untold(COMMIT_14),
];

/// The popup is placed and mapped after that, with the serial 5 of its configure where a press and
/// its release were told.
pub(crate) const MAPS_5: &[Row] = &[
    Row::Accepts(COMMIT_14, &[PLACED, Event::Configure(15, 5)]),
    Row::Sends(Ask::AckConfigure(15, 5)),
    Row::Sends(BUFFER_18),
    Row::Sends(ATTACH_18),
    Row::Sends(COMMIT_14),
    Row::Silent(1),
    Row::Shows(
        64,
        64,
        &[Pixel(40, 40, 255, 0, 0), Pixel(47, 47, 255, 0, 0)],
    ),
];

/// The pointer leaves the toplevel for where nothing is, and a press there dismisses the popup: its
/// points are painted, and no others. Another press
/// dismisses nothing.
pub(crate) const DISMISSES: &[Row] = &[
    TO_NOTHING,
    Row::ToldOf(1, &[Event::Leave(13, 6, 6)]),
    PRESS,
    Row::ToldOf(1, &[DISMISSED]),
    Row::Shows(
        64,
        64,
        &[
            Pixel(40, 40, 0, 0, 0),
            Pixel(47, 47, 0, 0, 0),
            Pixel(39, 39, 255, 0, 0),
        ],
    ),
    RELEASE,
    Row::Silent(1),
    PRESS,
    Row::Silent(1),
    Row::Paints(0, 0),
];

/// The second button is pressed and told with the serial 4, so that the press before it isn't the
/// latest.
const PRESSES_SECOND: &[Row] = &[
    SECOND_PRESS,
    Row::ToldOf(1, &[Event::Button(13, 4, 15, 273, 1)]),
];

/// The button is pressed and released again, with the serials 5 and 6.
const PRESSES_AGAIN: &[Row] = &[PRESS, Row::Takes, RELEASE, Row::Takes];

/// A press of a button that is down, or a release of one that isn't, is ignored, and the serials
/// stay.
const PRESSES_IN_VAIN: &[Row] = &[RELEASE, Row::Silent(1)];

/// A popup that is mapped can't grab: its client ends, and its windows go.
const GRABS_MAPPED: &[Row] = &[
    Row::Paints(64, 64),
    Row::Errs(GRAB_1, 17, 0),
    Row::ErrorTold(17, 0, b"invalid_grab"),
    Row::Is(
        1,
        Fed::Ended(Cause::Protocol {
            object: 17,
            code: 0,
        }),
    ),
    Row::Shows(1664, 1664, &[Pixel(0, 0, 0, 0, 0), Pixel(40, 40, 0, 0, 0)]),
];

/// The mapped popup with a grab can't grab once more.
const GRABS_MAPPED_AGAIN: &[Row] = &[
    Row::Errs(GRAB_4, 17, 0),
    Row::ErrorTold(17, 0, b"invalid_grab"),
];

/// The toplevel goes, and the popup with it; its grab has no effect then, however right its serial
/// is. The pointer leaves the toplevel's surface.
const TOPLEVEL_GOES: &[Row] = &[Row::Accepts(
    Ask::ToplevelDestroy(8),
    &[Event::DeleteId(8), DISMISSED, Event::Leave(13, 5, 6)],
)];

/// The popup with a grab is unmapped, which ends the grab.
const UNMAPS: &[Row] = &[
    Row::Sends(DETACH_14),
    Row::Accepts(COMMIT_14, &[RELEASED_18]),
    Row::Shows(64, 64, &[Pixel(40, 40, 0, 0, 0)]),
];

/// It is mapped again, with the next configure.
const MAPS_AGAIN: &[Row] = &[
    Row::Accepts(COMMIT_14, &[PLACED, Event::Configure(15, 6)]),
    Row::Sends(Ask::AckConfigure(15, 6)),
    Row::Sends(ATTACH_18),
    Row::Sends(COMMIT_14),
    Row::Shows(64, 64, &[Pixel(40, 40, 255, 0, 0)]),
];

/// The pointer leaves the toplevel after that.
const LEAVES_LATER: &[Row] = &[TO_NOTHING, Row::ToldOf(1, &[Event::Leave(13, 7, 6)])];

const LEAVES_UNMAPPED: &[Row] = &[TO_NOTHING, Row::ToldOf(1, &[Event::Leave(13, 6, 6)])];

/// A press where nothing is dismisses the popup that is mapped again and grabbed anew.
const DISMISSES_LATER: &[Row] = &[
    PRESS,
    Row::ToldOf(1, &[DISMISSED]),
    Row::Shows(64, 64, &[Pixel(40, 40, 0, 0, 0)]),
];

/// xdg_popup.destroy of the popup with a grab.
const POPUP_GOES: &[Row] = &[
    Row::Accepts(Ask::PopupDestroy(17), &[Event::DeleteId(17)]),
    Row::Shows(64, 64, &[Pixel(40, 40, 0, 0, 0)]),
];

/// The popup isn't mapped yet, and was not placed: a press where nothing is dismisses it all the
/// same, and nothing is painted.
pub(crate) const DISMISSES_UNMAPPED: &[Row] = &[
    PRESS,
    Row::ToldOf(1, &[DISMISSED]),
    Row::Paints(0, 0),
];

/// By the serials of a press and of a release, and by none.
const BY_PRESS_OR_RELEASE: &[Case] = &[
    (
        "taken with the serial of the press",
        &[
            Part::Seated,
            Part::Presses,
            Part::Surface,
            Part::Positioner,
            Part::Gets,
            Part::Grabs,
            Part::Releases,
            Part::MapsGrabbing,
            Part::Dismisses,
        ],
    ),
    (
        "taken with it after the release",
        &[
            Part::Seated,
            Part::Presses,
            Part::Releases,
            Part::Surface,
            Part::Positioner,
            Part::Gets,
            Part::Grabs,
            Part::MapsGrabbing,
            Part::Dismisses,
        ],
    ),
    (
        "taken with the serial of the release",
        &[
            Part::Seated,
            Part::Presses,
            Part::Releases,
            Part::Surface,
            Part::Positioner,
            Part::Gets,
            Part::Own(GRABS_4),
            Part::MapsGrabbing,
            Part::Dismisses,
        ],
    ),
    (
        "refused before any press, with the serial of a configure",
        &[
            Part::Seated,
            Part::Surface,
            Part::Positioner,
            Part::Gets,
            Part::Own(REFUSED_1),
            Part::StaysDismissed,
        ],
    ),
];

/// By serials of other events, and by the latest of two presses.
const BY_OTHER_SERIALS: &[Case] = &[
    (
        "refused before any press, with a serial that comes later",
        &[
            Part::Seated,
            Part::Surface,
            Part::Positioner,
            Part::Gets,
            Part::Own(REFUSED_3),
            Part::Presses,
            Part::GrabsDismissed,
        ],
    ),
    (
        "refused with the serial of wl_pointer.enter",
        &[
            Part::Seated,
            Part::Presses,
            Part::Releases,
            Part::Surface,
            Part::Positioner,
            Part::Gets,
            Part::Own(REFUSED_2),
            Part::StaysDismissed,
            Part::GrabsDismissed,
        ],
    ),
    (
        "refused with a serial to come",
        &[
            Part::Seated,
            Part::Presses,
            Part::Releases,
            Part::Surface,
            Part::Positioner,
            Part::Gets,
            Part::Own(REFUSED_5),
            Part::StaysDismissed,
        ],
    ),
    (
        "refused with the serial of the press before the latest",
        &[
            Part::Seated,
            Part::Presses,
            Part::Own(PRESSES_SECOND),
            Part::Surface,
            Part::Positioner,
            Part::Gets,
            Part::Own(REFUSED_3),
            Part::StaysDismissed,
        ],
    ),
    (
        "taken with that of the latest of two presses",
        &[
            Part::Seated,
            Part::Presses,
            Part::Own(PRESSES_SECOND),
            Part::Surface,
            Part::Positioner,
            Part::Gets,
            Part::Own(GRABS_4),
        ],
    ),
];

/// By one before the latest, and of popups that are mapped.
const BY_THE_LATEST: &[Case] = &[
    (
        "refused with the serial of the release before the latest",
        &[
            Part::Seated,
            Part::Presses,
            Part::Releases,
            Part::Own(PRESSES_AGAIN),
            Part::Surface,
            Part::Positioner,
            Part::Gets,
            Part::Own(REFUSED_4),
            Part::StaysDismissed,
        ],
    ),
    (
        "taken where what came after it is ignored",
        &[
            Part::Seated,
            Part::Presses,
            Part::Releases,
            Part::Own(PRESSES_IN_VAIN),
            Part::Surface,
            Part::Positioner,
            Part::Gets,
            Part::Grabs,
            Part::MapsGrabbing,
            Part::Dismisses,
        ],
    ),
    (
        "a popup that is mapped can't grab",
        &[
            Part::Surface,
            Part::Positioner,
            Part::Popup,
            Part::PopupMaps,
            Part::Seated,
            Part::Own(GRABS_MAPPED),
        ],
    ),
    (
        "not even with a grab, and with the right serial",
        &[
            Part::Seated,
            Part::Presses,
            Part::Releases,
            Part::Surface,
            Part::Positioner,
            Part::Gets,
            Part::Grabs,
            Part::MapsGrabbing,
            Part::Own(GRABS_MAPPED_AGAIN),
        ],
    ),
];

/// Of popups that were dismissed, or have a grab.
const ASKED_AGAIN: &[Case] = &[
    (
        "a popup that was dismissed can't grab",
        &[
            Part::Seated,
            Part::Presses,
            Part::Releases,
            Part::Surface,
            Part::Positioner,
            Part::Gets,
            Part::Own(TOPLEVEL_GOES),
            Part::GrabsDismissed,
        ],
    ),
    (
        "a second request is judged by itself",
        &[
            Part::Seated,
            Part::Presses,
            Part::Releases,
            Part::Surface,
            Part::Positioner,
            Part::Gets,
            Part::Grabs,
            Part::Own(GRABS_4),
            Part::Own(REFUSED_2),
            Part::StaysDismissed,
        ],
    ),
    (
        "dismissed before it is mapped",
        &[
            Part::Seated,
            Part::Presses,
            Part::Releases,
            Part::Surface,
            Part::Positioner,
            Part::Gets,
            Part::Grabs,
            Part::Leaves,
            Part::DismissesUnmapped,
        ],
    ),
];

/// Of popups that are unmapped or destroyed.
const ENDED: &[Case] = &[
    (
        "unmapped without its grab",
        &[
            Part::Seated,
            Part::Presses,
            Part::Releases,
            Part::Surface,
            Part::Positioner,
            Part::Gets,
            Part::Grabs,
            Part::MapsGrabbing,
            Part::Own(UNMAPS),
            Part::Own(LEAVES_UNMAPPED),
            Part::ClicksNothing,
        ],
    ),
    (
        "mapped again without it",
        &[
            Part::Seated,
            Part::Presses,
            Part::Releases,
            Part::Surface,
            Part::Positioner,
            Part::Gets,
            Part::Grabs,
            Part::MapsGrabbing,
            Part::Own(UNMAPS),
            Part::Own(MAPS_AGAIN),
            Part::Own(LEAVES_LATER),
            Part::ClicksNothing,
        ],
    ),
    (
        "mapped again with another",
        &[
            Part::Seated,
            Part::Presses,
            Part::Releases,
            Part::Surface,
            Part::Positioner,
            Part::Gets,
            Part::Grabs,
            Part::MapsGrabbing,
            Part::Own(UNMAPS),
            Part::Grabs,
            Part::Own(MAPS_AGAIN),
            Part::Own(LEAVES_LATER),
            Part::Own(DISMISSES_LATER),
        ],
    ),
    (
        "destroyed with its grab",
        &[
            Part::Seated,
            Part::Presses,
            Part::Releases,
            Part::Surface,
            Part::Positioner,
            Part::Gets,
            Part::Grabs,
            Part::MapsGrabbing,
            Part::Own(POPUP_GOES),
            Part::Own(LEAVES_UNMAPPED),
            Part::ClicksNothing,
        ],
    ),
];

#[test]
fn grabs_by_press_and_release_are_as_worked(rt: HostRuntime) {
    assert_eq!(rt;
        missed_after_toplevel(rt.alloc(), BY_PRESS_OR_RELEASE),
        None
    );
}

#[test]
fn grabs_by_other_serials_are_as_worked(rt: HostRuntime) {
    assert_eq!(rt; missed_after_toplevel(rt.alloc(), BY_OTHER_SERIALS), None);
}

#[test]
fn grabs_by_the_latest_are_as_worked(rt: HostRuntime) {
    assert_eq!(rt; missed_after_toplevel(rt.alloc(), BY_THE_LATEST), None);
}

#[test]
fn grabs_that_are_asked_again_are_as_worked(rt: HostRuntime) {
    assert_eq!(rt; missed_after_toplevel(rt.alloc(), ASKED_AGAIN), None);
}

#[test]
fn grabs_that_end_are_as_worked(rt: HostRuntime) {
    assert_eq!(rt; missed_after_toplevel(rt.alloc(), ENDED), None);
}
