//! A popup of a popup, as a submenu is: it stands by its parent, goes with it, and is dismissed
//! before it.

use crate::parts::{Case, Part};
use crate::support::{ATTACH_18, COMMIT_14, DETACH_14, RELEASED_18, missed_after_toplevel};
use test_rows::asks::Ask;
use test_rows::begun::COMMIT;
use test_rows::events::Event;
use test_rows::rows::{Pixel, Row};

/// The menu is shown.
const MENU: &[Row] = &[Row::Paints(64, 64)];

/// The positioner 21 places a popup of 4 by 4 pixels 8 pixels to the left and up of its parent.
pub(crate) const POSITIONER_21: &[Row] = &[
    Row::Sends(Ask::CreatePositioner(5, 21)),
    Row::Sends(Ask::SetSize(21, 4, 4)),
    Row::Sends(Ask::SetAnchorRect(21, 0, 0, 1, 1)),
    Row::Sends(Ask::SetAnchor(21, 5)),
    Row::Sends(Ask::SetGravity(21, 8)),
    Row::Sends(Ask::SetOffset(21, -8, -8)),
];

pub(crate) const COMMIT_22: Ask = Ask::Commit(22);

/// The surface 22 with its xdg_surface 23 has the popup 24 on that of the surface 14.
pub(crate) const SUBMENU: &[Row] = &[
    Row::Sends(Ask::CreateSurface(3, 22)),
    Row::Sends(Ask::GetXdgSurface(5, 23, 22)),
    Row::Sends(Ask::GetPopup(23, 24, 15, 21)),
    Row::Accepts(
        COMMIT_22,
        &[
            Event::PopupConfigure(24, -8, -8, 4, 4),
            Event::Configure(23, 3),
        ],
    ),
];

/// wl_surface.attach of the surface 22 of the buffer 25, of 4 by 4 pixels at the start of the pool
/// 9.
pub(crate) const ATTACH_25: Ask = Ask::Attach(22, 25);

/// It is mapped and shown at (32, 32), above the toplevel.
pub(crate) const SUBMENU_MAPS: &[Row] = &[
    Row::Sends(Ask::AckConfigure(23, 3)),
    Row::Sends(Ask::CreateBuffer(9, 25, 0, 4, 4, 16, 1)),
    Row::Sends(ATTACH_25),
    Row::Sends(COMMIT_22),
    Row::Silent(1),
    Row::Shows(16, 16, &[Pixel(32, 32, 255, 0, 0)]),
];

/// The corner of the toplevel's window geometry moves both.
const TOPLEVEL_MOVES: &[Row] = &[
    Row::Sends(Ask::SetWindowGeometry(7, 4, 4, 32, 32)),
    Row::Sends(COMMIT),
    Row::Shows(
        144,
        144,
        &[Pixel(44, 44, 255, 0, 0), Pixel(40, 40, 0, 0, 0)],
    ),
];

/// The corner of the menu's own geometry moves the menu alone: it is taken off in its place and
/// added again where its popups stand.
const MENU_MOVES: &[Row] = &[
    Row::Sends(Ask::SetWindowGeometry(15, 2, 3, 4, 4)),
    Row::Sends(COMMIT_14),
    Row::Shows(98, 98, &[Pixel(38, 37, 255, 0, 0), Pixel(46, 46, 0, 0, 0)]),
];

/// The menu's offset moves both (wayland.xml, wl_surface.attach).
const MENU_IS_OFFSET: &[Row] = &[
    Row::Sends(Ask::AttachAt(14, 18, 8, 0)),
    Row::Sends(COMMIT_14),
    Row::Shows(
        160,
        160,
        &[
            Pixel(48, 40, 255, 0, 0),
            Pixel(55, 47, 255, 0, 0),
            Pixel(47, 40, 0, 0, 0),
            Pixel(40, 35, 255, 0, 0),
            Pixel(43, 32, 255, 0, 0),
        ],
    ),
];

/// The menu is unmapped, and its submenu with it; and both come back with the menu.
const MENU_UNMAPS: &[Row] = &[
    Row::Sends(DETACH_14),
    Row::Accepts(COMMIT_14, &[RELEASED_18]),
    Row::Shows(80, 80, &[Pixel(40, 40, 0, 0, 0)]),
    Row::Sends(COMMIT_14),
    Row::Takes,
    Row::Sends(Ask::AckConfigure(15, 4)),
    Row::Sends(ATTACH_18),
    Row::Sends(COMMIT_14),
    Row::Shows(80, 80, &[Pixel(40, 40, 255, 0, 0)]),
];

/// xdg_toplevel.destroy dismisses the newest first, after the toplevel's id was given back.
const TOPLEVEL_GOES: &[Row] = &[
    Row::Accepts(
        Ask::ToplevelDestroy(8),
        &[
            Event::DeleteId(8),
            Event::PopupDone(24),
            Event::PopupDone(17),
        ],
    ),
    Row::Paints(1664, 1664),
];

/// A menu with a submenu doesn't go before that.
const MENU_GOES_FIRST: &[Row] = &[
    Row::Errs(Ask::PopupDestroy(17), 5, 2),
    Row::ErrorTold(5, 2, b"not_the_topmost_popup"),
];

/// The submenu goes, and then the menu.
const BOTH_GO: &[Row] = &[
    Row::Accepts(Ask::PopupDestroy(24), &[Event::DeleteId(24)]),
    Row::Paints(16, 16),
    Row::Accepts(Ask::PopupDestroy(17), &[Event::DeleteId(17)]),
    Row::Paints(64, 64),
];

/// A popup that was dismissed may be a parent still: its popup is configured, and never shown. What
/// the dismissed one commits has no effect.
const ON_DISMISSED: &[Row] = &[
    Row::Sends(Ask::ToplevelDestroy(8)),
    Row::Takes,
    Row::Paints(1664, 1664),
    Row::Sends(ATTACH_18),
    Row::Sends(COMMIT_14),
    Row::Silent(1),
];

const SUBMENU_OF_DISMISSED: &[Row] = &[
    Row::Sends(Ask::AckConfigure(23, 3)),
    Row::Sends(Ask::CreateBuffer(9, 25, 0, 4, 4, 16, 1)),
    Row::Sends(ATTACH_25),
    Row::Sends(COMMIT_22),
    Row::Silent(1),
    Row::Paints(0, 0),
];

/// It moves with its parents.
const MOVES: &[Case] = &[
    (
        "both go along with the toplevel's geometry",
        &[
            Part::Surface,
            Part::Positioner,
            Part::Popup,
            Part::PopupMaps,
            Part::Own(MENU),
            Part::Positioner21,
            Part::Submenu,
            Part::SubmenuMaps,
            Part::Own(TOPLEVEL_MOVES),
        ],
    ),
    (
        "the menu's own geometry moves the menu alone",
        &[
            Part::Surface,
            Part::Positioner,
            Part::Popup,
            Part::PopupMaps,
            Part::Own(MENU),
            Part::Positioner21,
            Part::Submenu,
            Part::SubmenuMaps,
            Part::Own(MENU_MOVES),
        ],
    ),
    (
        "the menu's offset moves both",
        &[
            Part::Surface,
            Part::Positioner,
            Part::Popup,
            Part::PopupMaps,
            Part::Own(MENU),
            Part::Positioner21,
            Part::Submenu,
            Part::SubmenuMaps,
            Part::Own(MENU_IS_OFFSET),
        ],
    ),
];

/// It is unmapped, dismissed or destroyed.
const ENDS: &[Case] = &[
    (
        "with the menu its submenu is unmapped and comes back",
        &[
            Part::Surface,
            Part::Positioner,
            Part::Popup,
            Part::PopupMaps,
            Part::Own(MENU),
            Part::Positioner21,
            Part::Submenu,
            Part::SubmenuMaps,
            Part::Own(MENU_UNMAPS),
        ],
    ),
    (
        "the newest is dismissed first",
        &[
            Part::Surface,
            Part::Positioner,
            Part::Popup,
            Part::PopupMaps,
            Part::Own(MENU),
            Part::Positioner21,
            Part::Submenu,
            Part::SubmenuMaps,
            Part::Own(TOPLEVEL_GOES),
        ],
    ),
    (
        "a menu doesn't go before its submenu",
        &[
            Part::Surface,
            Part::Positioner,
            Part::Popup,
            Part::PopupMaps,
            Part::Own(MENU),
            Part::Positioner21,
            Part::Submenu,
            Part::SubmenuMaps,
            Part::Own(MENU_GOES_FIRST),
        ],
    ),
    (
        "both go in turn",
        &[
            Part::Surface,
            Part::Positioner,
            Part::Popup,
            Part::PopupMaps,
            Part::Own(MENU),
            Part::Positioner21,
            Part::Submenu,
            Part::SubmenuMaps,
            Part::Own(BOTH_GO),
        ],
    ),
    (
        "a popup of one that was dismissed is never shown",
        &[
            Part::Surface,
            Part::Positioner,
            Part::Popup,
            Part::PopupMaps,
            Part::Own(MENU),
            Part::Positioner21,
            Part::Own(ON_DISMISSED),
            Part::Submenu,
            Part::Own(SUBMENU_OF_DISMISSED),
        ],
    ),
];

#[test]
fn submenus_move_as_worked(rt: HostRuntime) {
    assert_eq!(rt; missed_after_toplevel(rt.alloc(), MOVES), None);
}

#[test]
fn submenus_end_as_worked(rt: HostRuntime) {
    assert_eq!(rt; missed_after_toplevel(rt.alloc(), ENDS), None);
}
