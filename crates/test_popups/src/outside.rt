//! Presses while a client's popups grab: which of them dismiss, which popups go, in which order,
//! and what is painted and told then (xdg-shell.xml,
//! xdg_popup.grab).

use crate::grabs::DISMISSED;
use crate::parts::{Case, Part};
use crate::pointing::{PRESS, RELEASE, SECOND_PRESS, TO_NOTHING, TO_POPUP, TO_TOPLEVEL};
use crate::submenus::{ATTACH_25, COMMIT_22};
use crate::support::{
    ATTACH_18, BUFFER_18, COMMIT_14, DETACH_14, PLACED, RELEASED_18, missed_after_toplevel,
};
use test_rows::asks::Ask;
use test_rows::events::Event;
use test_rows::rows::{Pixel, Row};
use wl_session::{Done, Step};

/// The popup 17 is mapped at (40, 40), with the serial 4 of its configure where just a press was
/// told.
pub(crate) const MAPS_4: &[Row] = &[
    Row::Accepts(COMMIT_14, &[PLACED, Event::Configure(15, 4)]),
    Row::Sends(Ask::AckConfigure(15, 4)),
    Row::Sends(BUFFER_18),
    Row::Sends(ATTACH_18),
    Row::Sends(COMMIT_14),
    Row::Silent(1),
    Row::Shows(64, 64, &[Pixel(40, 40, 255, 0, 0)]),
];

/// The button is released over the toplevel, with the serial 5.
const RELEASES_5: &[Row] = &[RELEASE, Row::ToldOf(1, &[Event::Button(13, 5, 13, 272, 0)])];

/// The pointer goes to the popup, which is pressed: nothing is dismissed, and nothing is painted.
const ENTERS_POPUP: &[Row] = &[
    TO_POPUP,
    Row::ToldOf(
        1,
        &[Event::Leave(13, 6, 6), Event::Enter(13, 7, 14, 512, 768)],
    ),
];

const PRESSES_POPUP: &[Row] = &[
    PRESS,
    Row::ToldOf(1, &[Event::Button(13, 8, 11, 272, 1)]),
    Row::Shows(0, 0, &[Pixel(40, 40, 255, 0, 0)]),
];

/// While the button is down the popup keeps the focus. The other button is pressed where nothing
/// is: the popup is dismissed, is told of the button,
/// and is left.
const DISMISSES_FOCUS: &[Row] = &[
    TO_NOTHING,
    Row::ToldOf(1, &[Event::Motion(13, 8, 5120, -9216)]),
    SECOND_PRESS,
    Row::ToldOf(
        1,
        &[
            DISMISSED,
            Event::Button(13, 9, 15, 273, 1),
            Event::Leave(13, 10, 14),
        ],
    ),
    Row::Shows(64, 64, &[Pixel(40, 40, 0, 0, 0)]),
    RELEASE,
    Row::Silent(1),
];

/// A press of the toplevel dismisses nothing: its surface is one of the client's.
const PRESSES_TOPLEVEL: &[Row] = &[
    PRESS,
    Row::ToldOf(1, &[Event::Button(13, 6, 11, 272, 1)]),
    Row::Shows(0, 0, &[Pixel(40, 40, 255, 0, 0)]),
];

/// A button is down that the toplevel was told of, and the pointer goes where nothing is. A press
/// of the other button there dismisses by what it
/// hits, and is told to the toplevel, which keeps the focus.
const DISMISSES_HELD: &[Row] = &[
    TO_NOTHING,
    Row::Takes,
    SECOND_PRESS,
    Row::ToldOf(1, &[DISMISSED, Event::Button(13, 5, 15, 273, 1)]),
    Row::Shows(64, 64, &[Pixel(40, 40, 0, 0, 0)]),
];

/// A press that is ignored dismisses nothing: the button is down.
const IGNORED: &[Row] = &[
    TO_NOTHING,
    Row::Takes,
    PRESS,
    Row::Silent(1),
    Row::Shows(0, 0, &[Pixel(40, 40, 255, 0, 0)]),
];

/// Nor does a release where nothing is.
const RELEASES_OUTSIDE: &[Row] = &[
    TO_NOTHING,
    Row::Takes,
    RELEASE,
    Row::ToldOf(
        1,
        &[Event::Button(13, 5, 13, 272, 0), Event::Leave(13, 6, 6)],
    ),
    Row::Shows(0, 0, &[Pixel(40, 40, 255, 0, 0)]),
];

/// A second toplevel of the client, the buffer 11 at (32, 32): the surface 26 with its xdg_surface
/// 27 and its toplevel 28.
const SECOND_TOPLEVEL: &[Row] = &[
    Row::Sends(Ask::CreateSurface(3, 26)),
    Row::Sends(Ask::GetXdgSurface(5, 27, 26)),
    Row::Sends(Ask::GetToplevel(27, 28)),
    Row::Sends(Ask::Commit(26)),
    Row::Takes,
    Row::Sends(Ask::AckConfigure(27, 2)),
    Row::Sends(Ask::Attach(26, 11)),
    Row::Sends(Ask::Commit(26)),
    Row::Silent(1),
    Row::Shows(1024, 1024, &[Pixel(32, 32, 0, 0, 0)]),
];

/// The toplevel below it is pressed, which raises it, and its popup grabs with the serial 4 of
/// that. The popup stands above the other toplevel.
const PRESSES_BELOW: &[Row] = &[
    TO_TOPLEVEL,
    Row::Takes,
    PRESS,
    Row::Takes,
    Row::Shows(64, 1600, &[Pixel(32, 32, 255, 0, 0)]),
];

const GRABS_4: &[Row] = &[Row::Untold(Ask::Grab(17, 12, 4))];

const MAPS_5: &[Row] = &[
    Row::Accepts(COMMIT_14, &[PLACED, Event::Configure(15, 5)]),
    Row::Sends(Ask::AckConfigure(15, 5)),
    Row::Sends(BUFFER_18),
    Row::Sends(ATTACH_18),
    Row::Sends(COMMIT_14),
    Row::Silent(1),
    Row::Shows(64, 64, &[Pixel(40, 40, 255, 0, 0), Pixel(48, 48, 0, 0, 0)]),
];

/// The other toplevel is pressed, which raises it and dismisses nothing, since it is of the same
/// client.
const PRESSES_SECOND_TOPLEVEL: &[Row] = &[
    RELEASE,
    Row::Takes,
    Row::Calls(
        Step::Motion {
            time: 14,
            x: 60,
            y: 60,
        },
        Done::Motion,
    ),
    Row::Takes,
    PRESS,
    Row::ToldOf(1, &[Event::Button(13, 9, 11, 272, 1)]),
    Row::Shows(128, 1024, &[Pixel(32, 32, 0, 0, 0), Pixel(40, 40, 0, 0, 0)]),
];

/// The surface 22 with its xdg_surface 23.
pub(crate) const SURFACE_22: &[Row] = &[
    Row::Sends(Ask::CreateSurface(3, 22)),
    Row::Sends(Ask::GetXdgSurface(5, 23, 22)),
];

/// It has the popup 24 on the popup 17, or on the toplevel.
pub(crate) const GETS_SUBMENU: &[Row] = &[Row::Untold(Ask::GetPopup(23, 24, 15, 21))];

const GETS_BESIDE: &[Row] = &[Row::Untold(Ask::GetPopup(23, 24, 7, 21))];

const GRAB_24: Ask = Ask::Grab(24, 12, 3);

pub(crate) const SUBMENU_GRABS: &[Row] = &[Row::Untold(GRAB_24)];

const SUBMENU_DISMISSED: Event = Event::PopupDone(24);

/// It is mapped with the buffer 25 of 4 by 4 pixels, at (32, 32).
pub(crate) const SUBMENU_MAPS: &[Row] = &[
    Row::Accepts(
        COMMIT_22,
        &[
            Event::PopupConfigure(24, -8, -8, 4, 4),
            Event::Configure(23, 5),
        ],
    ),
    Row::Sends(Ask::AckConfigure(23, 5)),
    Row::Sends(Ask::CreateBuffer(9, 25, 6400, 4, 4, 16, 1)),
    Row::Sends(ATTACH_25),
    Row::Sends(COMMIT_22),
    Row::Silent(1),
    Row::Shows(16, 16, &[Pixel(32, 32, 0, 0, 0), Pixel(36, 36, 255, 0, 0)]),
];

/// The pointer goes where nothing is while the button is down, which is released there.
pub(crate) const GOES_OUT: &[Row] = &[TO_NOTHING, RELEASE, Row::Takes];

/// A press there dismisses both, the newest first, and paints the points of both and no others.
const DISMISSES_BOTH: &[Row] = &[
    PRESS,
    Row::ToldOf(1, &[SUBMENU_DISMISSED, DISMISSED]),
    Row::Shows(
        80,
        80,
        &[
            Pixel(32, 32, 255, 0, 0),
            Pixel(40, 40, 0, 0, 0),
            Pixel(0, 0, 255, 0, 0),
        ],
    ),
];

/// The popup of one without a grab can't grab: it is dismissed, and its parent isn't.
const SUBMENU_REFUSED: &[Row] = &[
    Row::Accepts(GRAB_24, &[SUBMENU_DISMISSED]),
    Row::Untold(COMMIT_22),
    Row::Shows(0, 0, &[Pixel(40, 40, 255, 0, 0)]),
];

/// The popup that doesn't grab stays, and a press where nothing is leaves it.
const STAYS_OUTSIDE: &[Row] = &[
    PRESS,
    Row::Silent(1),
    Row::Shows(0, 0, &[Pixel(40, 40, 255, 0, 0)]),
];

/// That with the grab goes alone: the other is no popup of it.
const DISMISSES_SUBMENU: &[Row] = &[
    PRESS,
    Row::ToldOf(1, &[SUBMENU_DISMISSED]),
    Row::Shows(
        16,
        16,
        &[Pixel(32, 32, 255, 0, 0), Pixel(40, 40, 255, 0, 0)],
    ),
];

/// The other popup of the toplevel is placed, and not mapped.
const BESIDE_PLACED: &[Row] = &[
    Row::Accepts(
        COMMIT_22,
        &[
            Event::PopupConfigure(24, -8, -8, 4, 4),
            Event::Configure(23, 5),
        ],
    ),
    Row::Paints(0, 0),
];

const DISMISSES_BESIDE: &[Row] = &[
    PRESS,
    Row::ToldOf(1, &[SUBMENU_DISMISSED]),
    Row::Shows(0, 0, &[Pixel(40, 40, 255, 0, 0)]),
];

/// The menu is unmapped, and its submenu isn't seen with it. That grabs still.
const MENU_UNMAPS: &[Row] = &[
    Row::Sends(DETACH_14),
    Row::Accepts(COMMIT_14, &[RELEASED_18]),
    Row::Shows(80, 80, &[Pixel(40, 40, 0, 0, 0), Pixel(32, 32, 255, 0, 0)]),
];

/// A press where nothing is dismisses the submenu alone, of which nothing is painted.
const DISMISSES_UNSEEN: &[Row] = &[
    PRESS,
    Row::ToldOf(1, &[SUBMENU_DISMISSED]),
    Row::Paints(0, 0),
];

/// The submenu goes, and the menu grabs still: a press where nothing is dismisses it.
const SUBMENU_GOES: &[Row] = &[
    Row::Accepts(Ask::PopupDestroy(24), &[Event::DeleteId(24)]),
    Row::Shows(16, 16, &[Pixel(32, 32, 255, 0, 0)]),
];

const DISMISSES_MENU: &[Row] = &[
    PRESS,
    Row::ToldOf(1, &[DISMISSED]),
    Row::Shows(64, 64, &[Pixel(40, 40, 0, 0, 0)]),
];

/// The popup of one that was dismissed can't grab, and is dismissed too.
const SUBMENU_DISMISSED_TOO: &[Row] = &[
    Row::Accepts(GRAB_24, &[SUBMENU_DISMISSED]),
    Row::Untold(COMMIT_22),
];

/// By what is pressed.
const BY_WHERE: &[Case] = &[
    (
        "the popup is pressed, and is dismissed with the focus",
        &[
            Part::Seated,
            Part::Presses,
            Part::Surface,
            Part::Positioner,
            Part::Gets,
            Part::Grabs,
            Part::MapsPressed,
            Part::Own(RELEASES_5),
            Part::Own(ENTERS_POPUP),
            Part::Own(PRESSES_POPUP),
            Part::Own(DISMISSES_FOCUS),
        ],
    ),
    (
        "its toplevel is pressed",
        &[
            Part::Seated,
            Part::Presses,
            Part::Surface,
            Part::Positioner,
            Part::Gets,
            Part::Grabs,
            Part::MapsPressed,
            Part::Own(RELEASES_5),
            Part::Own(PRESSES_TOPLEVEL),
        ],
    ),
];

/// By a press of another toplevel.
const BY_SECOND_TOPLEVEL: &[Case] = &[(
    "another toplevel of the client is pressed",
    &[
        Part::Own(SECOND_TOPLEVEL),
        Part::Seated,
        Part::Own(PRESSES_BELOW),
        Part::Surface,
        Part::Positioner,
        Part::Gets,
        Part::Own(GRABS_4),
        Part::Own(MAPS_5),
        Part::Own(PRESSES_SECOND_TOPLEVEL),
    ],
)];

/// While a button is down, by a press that is ignored, and by a release.
const BY_BUTTON: &[Case] = &[
    (
        "dismissed while a button is down",
        &[
            Part::Seated,
            Part::Presses,
            Part::Surface,
            Part::Positioner,
            Part::Gets,
            Part::Grabs,
            Part::MapsPressed,
            Part::Own(DISMISSES_HELD),
        ],
    ),
    (
        "a press that is ignored",
        &[
            Part::Seated,
            Part::Presses,
            Part::Surface,
            Part::Positioner,
            Part::Gets,
            Part::Grabs,
            Part::MapsPressed,
            Part::Own(IGNORED),
        ],
    ),
    (
        "a release",
        &[
            Part::Seated,
            Part::Presses,
            Part::Surface,
            Part::Positioner,
            Part::Gets,
            Part::Grabs,
            Part::MapsPressed,
            Part::Own(RELEASES_OUTSIDE),
        ],
    ),
];

/// A menu with a submenu.
const SUBMENUS: &[Case] = &[
    (
        "a menu and its submenu grab",
        &[
            Part::Seated,
            Part::Presses,
            Part::Surface,
            Part::Positioner,
            Part::Gets,
            Part::Grabs,
            Part::MapsPressed,
            Part::Positioner21,
            Part::Surface22,
            Part::GetsSubmenu,
            Part::SubmenuGrabs,
            Part::SubmenuMapsGrabbing,
            Part::GoesOut,
            Part::Own(DISMISSES_BOTH),
        ],
    ),
    (
        "a submenu without a grab goes with its menu",
        &[
            Part::Seated,
            Part::Presses,
            Part::Surface,
            Part::Positioner,
            Part::Gets,
            Part::Grabs,
            Part::MapsPressed,
            Part::Positioner21,
            Part::Surface22,
            Part::GetsSubmenu,
            Part::SubmenuMapsGrabbing,
            Part::GoesOut,
            Part::Own(DISMISSES_BOTH),
        ],
    ),
    (
        "no submenu of a menu without a grab has one",
        &[
            Part::Seated,
            Part::Presses,
            Part::Surface,
            Part::Positioner,
            Part::Gets,
            Part::MapsPressed,
            Part::Positioner21,
            Part::Surface22,
            Part::GetsSubmenu,
            Part::Own(SUBMENU_REFUSED),
            Part::GoesOut,
            Part::Own(STAYS_OUTSIDE),
        ],
    ),
];

/// Where one of them went, or has no grab.
const ENDED: &[Case] = &[
    (
        "one of two popups of the toplevel grabs",
        &[
            Part::Seated,
            Part::Presses,
            Part::Surface,
            Part::Positioner,
            Part::Gets,
            Part::MapsPressed,
            Part::Positioner21,
            Part::Surface22,
            Part::Own(GETS_BESIDE),
            Part::SubmenuGrabs,
            Part::Own(BESIDE_PLACED),
            Part::GoesOut,
            Part::Own(DISMISSES_BESIDE),
        ],
    ),
    (
        "a submenu's grab stays where its menu is unmapped",
        &[
            Part::Seated,
            Part::Presses,
            Part::Surface,
            Part::Positioner,
            Part::Gets,
            Part::Grabs,
            Part::MapsPressed,
            Part::Positioner21,
            Part::Surface22,
            Part::GetsSubmenu,
            Part::SubmenuGrabs,
            Part::SubmenuMapsGrabbing,
            Part::Own(MENU_UNMAPS),
            Part::GoesOut,
            Part::Own(DISMISSES_UNSEEN),
        ],
    ),
    (
        "a menu's grab stays where its submenu goes",
        &[
            Part::Seated,
            Part::Presses,
            Part::Surface,
            Part::Positioner,
            Part::Gets,
            Part::Grabs,
            Part::MapsPressed,
            Part::Positioner21,
            Part::Surface22,
            Part::GetsSubmenu,
            Part::SubmenuGrabs,
            Part::SubmenuMapsGrabbing,
            Part::Own(SUBMENU_GOES),
            Part::GoesOut,
            Part::Own(DISMISSES_MENU),
        ],
    ),
    (
        "no popup of one that was dismissed grabs",
        &[
            Part::Seated,
            Part::Presses,
            Part::Releases,
            Part::Surface,
            Part::Positioner,
            Part::Gets,
            Part::Grabs,
            Part::Leaves,
            Part::DismissesUnmapped,
            Part::Positioner21,
            Part::Surface22,
            Part::GetsSubmenu,
            Part::Own(SUBMENU_DISMISSED_TOO),
        ],
    ),
];

#[test]
fn presses_dismiss_by_where_as_worked(rt: HostRuntime) {
    assert_eq!(rt; missed_after_toplevel(rt.alloc(), BY_WHERE), None);
}

#[test]
fn presses_of_another_toplevel_as_worked(rt: HostRuntime) {
    assert_eq!(rt; missed_after_toplevel(rt.alloc(), BY_SECOND_TOPLEVEL), None);
}

#[test]
fn presses_dismiss_by_button_as_worked(rt: HostRuntime) {
    assert_eq!(rt; missed_after_toplevel(rt.alloc(), BY_BUTTON), None);
}

#[test]
fn presses_dismiss_submenus_as_worked(rt: HostRuntime) {
    assert_eq!(rt; missed_after_toplevel(rt.alloc(), SUBMENUS), None);
}

#[test]
fn presses_dismiss_what_is_left_as_worked(rt: HostRuntime) {
    assert_eq!(rt; missed_after_toplevel(rt.alloc(), ENDED), None);
}
