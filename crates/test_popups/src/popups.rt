//! A popup of a toplevel: where it stands, and what is painted again as it comes, changes and goes.

use crate::parts::{Case, Part};
use crate::support::{
    ATTACH_18, COMMIT_14, DETACH_14, GET_POPUP, PLACED, RELEASED_18, missed_after_toplevel,
};
use test_rows::asks::Ask;
use test_rows::begun::{ATTACH_10, ATTACH_NONE, COMMIT, CONFIGURED};
use test_rows::events::Event;
use test_rows::rows::{Pixel, Row};
use wl_session::{Done, Step};

/// The popup's points are painted, and no others: it stands at (40, 40).
pub(crate) const POPUP_SHOWS: &[Row] = &[
    Row::Shows(
        64,
        64,
        &[
            Pixel(40, 40, 255, 0, 0),
            Pixel(47, 47, 255, 0, 0),
            Pixel(48, 40, 0, 0, 0),
            Pixel(40, 48, 0, 0, 0),
            Pixel(39, 40, 0, 0, 0),
            Pixel(39, 39, 255, 0, 0),
        ],
    ),
    Row::Paints(0, 0),
];

/// The corner of the toplevel's window geometry moves, and the popup goes along. Its tree is
/// painted again where it was and where it is, and the toplevel isn't. The anchor rectangle is
/// relative to that geometry (xdg-shell.xml, xdg_positioner.set_anchor_rect).
const GEOMETRY_MOVES: &[Row] = &[
    Row::Sends(Ask::SetWindowGeometry(7, 4, 4, 32, 32)),
    Row::Paints(0, 0),
    Row::Sends(COMMIT),
    Row::Silent(1),
    Row::Shows(
        112,
        112,
        &[
            Pixel(44, 44, 255, 0, 0),
            Pixel(51, 51, 255, 0, 0),
            Pixel(43, 43, 0, 0, 0),
            Pixel(40, 40, 0, 0, 0),
            Pixel(52, 44, 0, 0, 0),
            Pixel(39, 39, 255, 0, 0),
        ],
    ),
];

/// xdg_toplevel.destroy: the popup is dismissed, and nothing of both is shown any more.
const TOPLEVEL_GOES: &[Row] = &[
    Row::Accepts(
        Ask::ToplevelDestroy(8),
        &[Event::DeleteId(8), Event::PopupDone(17)],
    ),
    Row::Shows(1664, 1664, &[Pixel(0, 0, 0, 0, 0), Pixel(44, 44, 0, 0, 0)]),
    Row::Paints(0, 0),
];

/// Damage of the toplevel paints no popup again.
const TOPLEVEL_DAMAGED: &[Row] = &[
    Row::Sends(Ask::Damage(6, 0, 0, 1, 1)),
    Row::Sends(COMMIT),
    Row::Paints(1, 1),
];

/// Nor does damage of the popup the toplevel.
const POPUP_DAMAGED: &[Row] = &[
    Row::Sends(Ask::Damage(14, 1, 1, 2, 1)),
    Row::Sends(COMMIT_14),
    Row::Paints(2, 2),
];

/// A popup that is unmapped is configured again by its next commit, with another serial
/// (xdg-shell.xml, xdg_surface).
const POPUP_UNMAPS: &[Row] = &[
    Row::Sends(DETACH_14),
    Row::Accepts(COMMIT_14, &[RELEASED_18]),
    Row::Shows(64, 64, &[Pixel(40, 40, 0, 0, 0)]),
    Row::Accepts(COMMIT_14, &[PLACED, Event::Configure(15, 3)]),
    Row::Paints(0, 0),
    Row::Sends(Ask::AckConfigure(15, 3)),
    Row::Sends(ATTACH_18),
    Row::Sends(COMMIT_14),
    Row::Shows(64, 64, &[Pixel(40, 40, 255, 0, 0)]),
];

/// With the toplevel its popup is unmapped and comes back. The toplevel's next mapping is 32 pixels
/// farther to the right and down, and the popup is beside it. Of the toplevel 32 by 32 points are
/// in the output, and none of the popup.
const TOPLEVEL_UNMAPS: &[Row] = &[
    Row::Sends(ATTACH_NONE),
    Row::Accepts(COMMIT, &[Event::Release(10)]),
    Row::Shows(1664, 1664, &[Pixel(0, 0, 0, 0, 0), Pixel(40, 40, 0, 0, 0)]),
    Row::Accepts(COMMIT, &[CONFIGURED, Event::Configure(7, 3)]),
    Row::Sends(Ask::AckConfigure(7, 3)),
    Row::Sends(ATTACH_10),
    Row::Sends(COMMIT),
    Row::Shows(
        1024,
        1024,
        &[Pixel(32, 32, 255, 0, 0), Pixel(63, 63, 255, 0, 0)],
    ),
];

/// xdg_popup.destroy: its id is given back, and it isn't shown any more.
const POPUP_GOES: &[Row] = &[
    Row::Accepts(Ask::PopupDestroy(17), &[Event::DeleteId(17)]),
    Row::Shows(64, 64, &[Pixel(40, 40, 0, 0, 0)]),
    Row::Accepts(Ask::XdgSurfaceDestroy(15), &[Event::DeleteId(15)]),
    Row::Accepts(Ask::SurfaceDestroy(14), &[Event::DeleteId(14), RELEASED_18]),
    Row::Paints(0, 0),
];

/// A client that goes leaves the points of its toplevel and of its popup to be painted again.
const CLIENT_GOES: &[Row] = &[
    Row::Calls(Step::Gone { client: 1 }, Done::Gone(true)),
    Row::Shows(1664, 1664, &[Pixel(0, 0, 0, 0, 0), Pixel(40, 40, 0, 0, 0)]),
];

/// A commit before the popup was configured places it once. A change of the positioner afterwards
/// has no effect, nor does its end, since the popup has a copy of it.
const POSITIONER_CHANGES: &[Row] = &[
    Row::Sends(Ask::SetOffset(16, -8, -8)),
    Row::Accepts(Ask::PositionerDestroy(16), &[Event::DeleteId(16)]),
];

/// It is shown, changes, and comes back.
const CHANGES: &[Case] = &[
    (
        "a popup is shown at its place",
        &[
            Part::Surface,
            Part::Positioner,
            Part::Popup,
            Part::PopupMaps,
            Part::PopupShows,
        ],
    ),
    (
        "it goes along with its parent's geometry, and with its parent",
        &[
            Part::Surface,
            Part::Positioner,
            Part::Popup,
            Part::PopupMaps,
            Part::PopupShows,
            Part::Own(GEOMETRY_MOVES),
            Part::Own(TOPLEVEL_GOES),
        ],
    ),
    (
        "damage is that of one tree",
        &[
            Part::Surface,
            Part::Positioner,
            Part::Popup,
            Part::PopupMaps,
            Part::PopupShows,
            Part::Own(TOPLEVEL_DAMAGED),
            Part::Own(POPUP_DAMAGED),
        ],
    ),
    (
        "a popup is unmapped and comes back",
        &[
            Part::Surface,
            Part::Positioner,
            Part::Popup,
            Part::PopupMaps,
            Part::PopupShows,
            Part::Own(POPUP_UNMAPS),
        ],
    ),
];

/// It goes and comes with others, and ends.
const ENDS: &[Case] = &[
    (
        "with its toplevel it is unmapped and comes back",
        &[
            Part::Surface,
            Part::Positioner,
            Part::Popup,
            Part::PopupMaps,
            Part::PopupShows,
            Part::Own(TOPLEVEL_UNMAPS),
        ],
    ),
    (
        "a popup goes",
        &[
            Part::Surface,
            Part::Positioner,
            Part::Popup,
            Part::PopupMaps,
            Part::PopupShows,
            Part::Own(POPUP_GOES),
        ],
    ),
    (
        "a popup goes with its client",
        &[
            Part::Surface,
            Part::Positioner,
            Part::Popup,
            Part::PopupMaps,
            Part::PopupShows,
            Part::Own(CLIENT_GOES),
        ],
    ),
    (
        "a popup has a copy of its positioner",
        &[
            Part::Surface,
            Part::Positioner,
            Part::Own(&[Row::Sends(GET_POPUP)]),
            Part::Own(POSITIONER_CHANGES),
            Part::Own(&[Row::Accepts(COMMIT_14, &[PLACED, Event::Configure(15, 2)])]),
            Part::PopupMaps,
            Part::PopupShows,
        ],
    ),
];

#[test]
fn popups_are_shown_as_worked(rt: HostRuntime) {
    assert_eq!(rt; missed_after_toplevel(rt.alloc(), CHANGES), None);
}

#[test]
fn popups_end_as_worked(rt: HostRuntime) {
    assert_eq!(rt; missed_after_toplevel(rt.alloc(), ENDS), None);
}
