//! Popups that are placed anew (xdg-shell.xml, xdg_popup.reposition): what is told of it, and from
//! which commit on they stand there.

use crate::parts::{Case, Part, first_missed};
use crate::submenus::{ATTACH_25, COMMIT_22};
use crate::support::{
    ATTACH_18, COMMIT_14, DETACH_14, GET_POPUP, POSITIONER, RELEASED_18, SURFACE,
};
use std::alloc::Global;
use test_rows::asks::{Ask, Interface};
use test_rows::begun::{
    ACKNOWLEDGES, BUFFERS, CONFIGURES, GLOBALS, GLOBALS_4, GREEN, MADE, MAPS, RED_10,
};
use test_rows::events::Event;
use test_rows::rows::{Fault, Pixel, REGISTRY, Row};
use wl_session::Fed;

/// The surface 6 with its toplevel 8 at the latest versions shows the buffer 10, which is all red,
/// at (0, 0), and was painted. The second half of the
/// pool is green.
const SHOWN: &[&[Row]] = &[
    REGISTRY,
    GLOBALS_4,
    MADE,
    CONFIGURES,
    ACKNOWLEDGES,
    BUFFERS,
    RED_10,
    &[Row::Fills(1, 1, 6400, 64, GREEN)],
    MAPS,
    &[Row::Paints(1600, 1600)],
    SURFACE,
    POSITIONER,
];

/// The first of the cases that isn't as wanted after the toplevel was painted and the positioner
/// made, and what wasn't.
fn missed(alloc: Global, cases: &[Case]) -> Option<(usize, Fault)> {
    first_missed(alloc, SHOWN, cases)
}

/// The popup 17 is mapped with the green buffer 18 of 8 by 8 pixels, and painted at (40, 40).
pub(crate) const POPUP_SHOWS: &[Row] = &[
    Row::Sends(Ask::AckConfigure(15, 2)),
    Row::Sends(Ask::CreateBuffer(9, 18, 6400, 8, 8, 32, 1)),
    Row::Sends(ATTACH_18),
    Row::Sends(COMMIT_14),
    Row::Silent(1),
    Row::Shows(
        64,
        64,
        &[
            Pixel(40, 40, 0, 255, 0),
            Pixel(47, 47, 0, 255, 0),
            Pixel(39, 39, 255, 0, 0),
        ],
    ),
];

/// xdg_positioner.set_offset of the positioner 16.
const OFFSET_8: Ask = Ask::SetOffset(16, -8, -8);

const OFFSET_16: Ask = Ask::SetOffset(16, -16, -16);

/// xdg_popup.reposition by the positioner 16.
const REPOSITION_77: Ask = Ask::Reposition(17, 16, 77);

const REPOSITION_78: Ask = Ask::Reposition(17, 16, 78);

/// xdg_popup.repositioned, and where the popup will stand.
const REPOSITIONED_77: Event = Event::Repositioned(17, 77);

const REPOSITIONED_78: Event = Event::Repositioned(17, 78);

const AT_32: Event = Event::PopupConfigure(17, 32, 32, 8, 8);

const AT_24: Event = Event::PopupConfigure(17, 24, 24, 8, 8);

/// xdg_surface.ack_configure of the xdg_surface 15.
const ACK_2: Ask = Ask::AckConfigure(15, 2);

const ACK_3: Ask = Ask::AckConfigure(15, 3);

const ACK_4: Ask = Ask::AckConfigure(15, 4);

/// It is placed anew 8 pixels farther to the left and up.
pub(crate) const PLACED_ANEW: &[Row] = &[
    Row::Sends(OFFSET_8),
    Row::Accepts(
        REPOSITION_77,
        &[REPOSITIONED_77, AT_32, Event::Configure(15, 3)],
    ),
    Row::Paints(0, 0),
];

/// And once more.
pub(crate) const PLACED_AGAIN: &[Row] = &[
    Row::Sends(OFFSET_16),
    Row::Accepts(
        REPOSITION_78,
        &[REPOSITIONED_78, AT_24, Event::Configure(15, 4)],
    ),
    Row::Paints(0, 0),
];

/// It is painted where it was and where it is, and the toplevel isn't.
const MOVED_TO_32: &[Pixel] = &[
    Pixel(31, 31, 255, 0, 0),
    Pixel(32, 32, 0, 255, 0),
    Pixel(39, 39, 0, 255, 0),
    Pixel(40, 40, 0, 0, 0),
    Pixel(47, 47, 0, 0, 0),
];

const MOVED_TO_24: &[Pixel] = &[
    Pixel(23, 23, 255, 0, 0),
    Pixel(24, 24, 0, 255, 0),
    Pixel(31, 31, 0, 255, 0),
    Pixel(32, 32, 255, 0, 0),
    Pixel(40, 40, 0, 0, 0),
];

/// Its place is that of the first commit after the acknowledgement.
const FROM_THE_COMMIT_ON: &[Row] = &[
    Row::Sends(ACK_3),
    Row::Shows(0, 0, &[Pixel(40, 40, 0, 255, 0)]),
    Row::Sends(COMMIT_14),
    Row::Silent(1),
    Row::Shows(128, 128, MOVED_TO_32),
    Row::Sends(COMMIT_14),
    Row::Paints(0, 0),
];

/// A commit before the acknowledgement leaves it where it stands.
const COMMITTED_FIRST: &[Row] = &[
    Row::Sends(COMMIT_14),
    Row::Shows(0, 0, &[Pixel(40, 40, 0, 255, 0)]),
    Row::Sends(ACK_3),
    Row::Sends(COMMIT_14),
    Row::Shows(128, 128, MOVED_TO_32),
];

/// The earlier configure is acknowledged with the later one, and not by itself any more.
const WITH_A_LATER_ONE: &[Row] = &[
    Row::Sends(ACK_4),
    Row::Paints(0, 0),
    Row::Sends(COMMIT_14),
    Row::Silent(1),
    Row::Shows(128, 128, MOVED_TO_24),
    Row::Errs(ACK_3, 15, 4),
];

/// Of several that were acknowledged the latest counts.
const THE_LATEST: &[Row] = &[
    Row::Sends(ACK_3),
    Row::Sends(ACK_4),
    Row::Sends(COMMIT_14),
    Row::Shows(128, 128, MOVED_TO_24),
    Row::Sends(COMMIT_14),
    Row::Paints(0, 0),
];

const PLACES: &[Case] = &[
    (
        "from the commit after the acknowledgement on",
        &[
            Part::Popup,
            Part::GreenPopup,
            Part::PlacedAnew,
            Part::Own(FROM_THE_COMMIT_ON),
        ],
    ),
    (
        "not from a commit before it",
        &[
            Part::Popup,
            Part::GreenPopup,
            Part::PlacedAnew,
            Part::Own(COMMITTED_FIRST),
        ],
    ),
    (
        "acknowledged with a later one",
        &[
            Part::Popup,
            Part::GreenPopup,
            Part::PlacedAnew,
            Part::PlacedAgain,
            Part::Own(WITH_A_LATER_ONE),
        ],
    ),
    (
        "the latest of two that were acknowledged",
        &[
            Part::Popup,
            Part::GreenPopup,
            Part::PlacedAnew,
            Part::PlacedAgain,
            Part::Own(THE_LATEST),
        ],
    ),
];

#[test]
fn popups_are_placed_anew_as_worked(rt: HostRuntime) {
    assert_eq!(rt; missed(rt.alloc(), PLACES), None);
}

/// Each of two is acknowledged and put in force by itself.
const ONE_BY_ONE: &[Row] = &[
    Row::Sends(ACK_3),
    Row::Sends(COMMIT_14),
    Row::Shows(128, 128, MOVED_TO_32),
    Row::Sends(ACK_4),
    Row::Paints(0, 0),
    Row::Sends(COMMIT_14),
    Row::Shows(128, 128, MOVED_TO_24),
];

/// A commit that unmaps it forgets what was acknowledged and what was not: it is placed by the
/// latest positioner as it is configured again.
const UNMAPPED: &[Row] = &[
    Row::Sends(ACK_3),
    Row::Sends(DETACH_14),
    Row::Accepts(COMMIT_14, &[RELEASED_18]),
    Row::Shows(64, 64, &[Pixel(40, 40, 0, 0, 0)]),
    Row::Accepts(COMMIT_14, &[AT_24, Event::Configure(15, 5)]),
    Row::Sends(Ask::AckConfigure(15, 5)),
    Row::Sends(ATTACH_18),
    Row::Sends(COMMIT_14),
    Row::Silent(1),
    Row::Shows(64, 64, MOVED_TO_24),
];

const FORGOTTEN: &[Row] = &[
    Row::Sends(DETACH_14),
    Row::Accepts(COMMIT_14, &[RELEASED_18]),
    Row::Errs(ACK_4, 15, 4),
    Row::ErrorTold(15, 4, b"invalid_serial"),
];

const IN_TURN: &[Case] = &[
    (
        "one by one",
        &[
            Part::Popup,
            Part::GreenPopup,
            Part::PlacedAnew,
            Part::PlacedAgain,
            Part::Own(ONE_BY_ONE),
        ],
    ),
    (
        "a commit that unmaps forgets an acknowledged one",
        &[
            Part::Popup,
            Part::GreenPopup,
            Part::PlacedAnew,
            Part::PlacedAgain,
            Part::Own(UNMAPPED),
        ],
    ),
    (
        "and one that isn't acknowledged",
        &[
            Part::Popup,
            Part::GreenPopup,
            Part::PlacedAnew,
            Part::PlacedAgain,
            Part::Own(FORGOTTEN),
        ],
    ),
];

#[test]
fn places_are_forgotten_as_worked(rt: HostRuntime) {
    assert_eq!(rt; missed(rt.alloc(), IN_TURN), None);
}

/// The green buffer 18 of 8 by 8 pixels is attached and committed.
const MAPPED_LATER: &[Row] = &[
    Row::Sends(Ask::CreateBuffer(9, 18, 6400, 8, 8, 32, 1)),
    Row::Sends(ATTACH_18),
    Row::Sends(COMMIT_14),
    Row::Silent(1),
];

/// A popup that waits for its first acknowledgement is placed anew; both are acknowledged, and it
/// is mapped there.
const MAPPED_THERE: &[Row] = &[Row::Shows(64, 64, MOVED_TO_32)];

/// Only the first is acknowledged: it is mapped where that placed it.
const MAPPED_BEFORE: &[Row] = &[
    Row::Shows(
        64,
        64,
        &[Pixel(40, 40, 0, 255, 0), Pixel(39, 39, 255, 0, 0)],
    ),
    Row::Sends(ACK_3),
    Row::Sends(COMMIT_14),
    Row::Shows(128, 128, MOVED_TO_32),
];

/// Before its first commit nothing is told of it, and that commit places it by the copy.
const BEFORE_ITS_COMMIT: &[Row] = &[
    Row::Sends(GET_POPUP),
    Row::Sends(OFFSET_8),
    Row::Untold(REPOSITION_77),
    Row::Sends(OFFSET_16),
    Row::Accepts(COMMIT_14, &[AT_32, Event::Configure(15, 2)]),
    Row::Sends(ACK_2),
];

/// It has a copy of its positioner, which goes.
const POSITIONER_GOES: &[Row] = &[
    Row::Accepts(Ask::PositionerDestroy(16), &[Event::DeleteId(16)]),
    Row::Sends(ACK_3),
    Row::Sends(COMMIT_14),
    Row::Shows(128, 128, MOVED_TO_32),
];

const UNMAPPED_YET: &[Case] = &[
    (
        "before it is mapped",
        &[
            Part::Popup,
            Part::PlacedAnew,
            Part::Own(&[Row::Sends(ACK_3)]),
            Part::Own(MAPPED_LATER),
            Part::Own(MAPPED_THERE),
        ],
    ),
    (
        "acknowledged after it is mapped",
        &[
            Part::Popup,
            Part::PlacedAnew,
            Part::Own(&[Row::Sends(ACK_2)]),
            Part::Own(MAPPED_LATER),
            Part::Own(MAPPED_BEFORE),
        ],
    ),
    (
        "before its first commit",
        &[
            Part::Own(BEFORE_ITS_COMMIT),
            Part::Own(MAPPED_LATER),
            Part::Own(MAPPED_THERE),
        ],
    ),
    (
        "by a positioner that goes",
        &[
            Part::Popup,
            Part::GreenPopup,
            Part::PlacedAnew,
            Part::Own(POSITIONER_GOES),
        ],
    ),
];

#[test]
fn popups_are_placed_anew_before_they_are_mapped(rt: HostRuntime) {
    assert_eq!(rt; missed(rt.alloc(), UNMAPPED_YET), None);
}

/// xdg_toplevel.destroy: the popup is dismissed.
const DISMISSED: &[Row] = &[
    Row::Accepts(
        Ask::ToplevelDestroy(8),
        &[Event::DeleteId(8), Event::PopupDone(17)],
    ),
    Row::Shows(1664, 1664, &[Pixel(40, 40, 0, 0, 0)]),
];

/// Nothing is told of one that was dismissed, and it isn't shown.
const PLACED_IN_VAIN: &[Row] = &[
    Row::Sends(OFFSET_8),
    Row::Untold(REPOSITION_77),
    Row::Untold(COMMIT_14),
    Row::Paints(0, 0),
];

/// The positioner 19 is incomplete.
const INCOMPLETE: &[Row] = &[
    Row::Sends(Ask::CreatePositioner(5, 19)),
    Row::Errs(Ask::Reposition(17, 19, 1), 5, 5),
    Row::ErrorTold(5, 5, b"invalid_positioner"),
];

/// The sides of a buffer are looked at in what a dismissed popup commits, too (wayland.xml,
/// wl_surface.set_buffer_scale).
const SIZE_OF_DISMISSED: &[Row] = &[
    Row::Sends(Ask::SetBufferScale(14, 3)),
    Row::Errs(COMMIT_14, 14, 2),
    Row::ErrorTold(14, 2, b"invalid_size"),
];

/// A commit of one that was dismissed puts no place in force: its own popups are placed by where it
/// stood. At (40, 40) there are 24 pixels to the right of it. So a popup of 4 by 4 that is to stand
/// 22 to the right slides back by 2.
const STOOD: &[Row] = &[
    Row::Sends(COMMIT_14),
    Row::Sends(Ask::SetConstraintAdjustment(21, 1)),
    Row::Sends(Ask::SetOffset(21, 22, 0)),
    Row::Sends(Ask::CreateSurface(3, 22)),
    Row::Sends(Ask::GetXdgSurface(5, 23, 22)),
    Row::Sends(Ask::GetPopup(23, 24, 15, 21)),
    Row::Accepts(
        COMMIT_22,
        &[
            Event::PopupConfigure(24, 20, 0, 4, 4),
            Event::Configure(23, 4),
        ],
    ),
];

const GONE: &[Case] = &[
    (
        "one that was dismissed",
        &[
            Part::Popup,
            Part::GreenPopup,
            Part::Own(DISMISSED),
            Part::Own(PLACED_IN_VAIN),
        ],
    ),
    (
        "by an incomplete positioner",
        &[
            Part::Popup,
            Part::GreenPopup,
            Part::Own(DISMISSED),
            Part::Own(INCOMPLETE),
        ],
    ),
    (
        "the sides of its buffer",
        &[
            Part::Popup,
            Part::GreenPopup,
            Part::Own(DISMISSED),
            Part::Own(SIZE_OF_DISMISSED),
        ],
    ),
    (
        "its own popups are placed by where it stood",
        &[
            Part::Popup,
            Part::GreenPopup,
            Part::PlacedAnew,
            Part::Own(&[Row::Sends(ACK_3)]),
            Part::Own(DISMISSED),
            Part::Positioner21,
            Part::Own(STOOD),
        ],
    ),
];

#[test]
fn dismissed_popups_are_not_placed_anew(rt: HostRuntime) {
    assert_eq!(rt; missed(rt.alloc(), GONE), None);
}

/// 64 configures wait, and there is no room for another, whatever the positioner.
const CONFIGURE_65: &[Row] = &[
    Row::Changes(32, REPOSITION_77, REPOSITION_78),
    Row::Takes,
    Row::Sends(Ask::CreatePositioner(5, 19)),
    Row::Errs(Ask::Reposition(17, 19, 1), 1, 3),
    Row::ErrorTold(1, 3, b"implementation"),
];

const REFUSED: &[Case] = &[
    (
        "by an incomplete positioner",
        &[Part::Popup, Part::GreenPopup, Part::Own(INCOMPLETE)],
    ),
    (
        "before its first commit",
        &[Part::Own(&[Row::Sends(GET_POPUP)]), Part::Own(INCOMPLETE)],
    ),
    (
        "at most 64 configures wait",
        &[Part::Popup, Part::GreenPopup, Part::Own(CONFIGURE_65)],
    ),
];

#[test]
fn repositions_are_refused_as_worked(rt: HostRuntime) {
    assert_eq!(rt; missed(rt.alloc(), REFUSED), None);
}

/// The xdg_wm_base 5 at version 2.
const GLOBALS_2: &[Row] = &[
    Row::Binds(1, Interface::Compositor, 4, 3, Fed::Alive),
    Row::Binds(3, Interface::Shm, 1, 4, Fed::Alive),
    Row::Binds(6, Interface::WmBase, 2, 5, Fed::Alive),
    Row::Takes,
];

/// No popup of an earlier version is placed anew, and no positioner has the requests of a reactive
/// one.
const NO_REPOSITION: &[Row] = &[
    Row::Sends(GET_POPUP),
    Row::Errs(REPOSITION_77, 1, 1),
    Row::ErrorTold(1, 1, b"invalid_method"),
];

const NOT_REACTIVE: &[Row] = &[
    Row::Errs(Ask::SetReactive(16), 1, 1),
    Row::ErrorTold(1, 1, b"invalid_method"),
];

const EARLIER: &[Case] = &[
    (
        "at version 1",
        &[
            Part::Own(GLOBALS),
            Part::Own(MADE),
            Part::Surface,
            Part::Positioner,
            Part::Own(NO_REPOSITION),
        ],
    ),
    (
        "at version 2",
        &[
            Part::Own(GLOBALS_2),
            Part::Own(MADE),
            Part::Surface,
            Part::Positioner,
            Part::Own(NO_REPOSITION),
        ],
    ),
    (
        "set_reactive at version 2",
        &[
            Part::Own(GLOBALS_2),
            Part::Own(MADE),
            Part::Surface,
            Part::Positioner,
            Part::Own(NOT_REACTIVE),
        ],
    ),
];

/// The first of the cases that isn't as wanted after the registry was told, and what wasn't.
fn missed_after_registry(alloc: Global, cases: &[Case]) -> Option<(usize, Fault)> {
    first_missed(alloc, &[REGISTRY], cases)
}

#[test]
fn earlier_versions_place_no_popup_anew(rt: HostRuntime) {
    assert_eq!(rt; missed_after_registry(rt.alloc(), EARLIER), None);
}

/// The surface 22 with its xdg_surface 23 has the popup 24 on the popup 17, and shows the buffer 25
/// of 4 by 4 red pixels at (32, 32).
const SUBMENU: &[Row] = &[
    Row::Sends(Ask::CreateSurface(3, 22)),
    Row::Sends(Ask::GetXdgSurface(5, 23, 22)),
    Row::Sends(Ask::GetPopup(23, 24, 15, 21)),
    Row::Sends(COMMIT_22),
    Row::Takes,
    Row::Sends(Ask::AckConfigure(23, 3)),
    Row::Sends(Ask::CreateBuffer(9, 25, 6400, 4, 4, 16, 1)),
    Row::Sends(ATTACH_25),
    Row::Sends(COMMIT_22),
    Row::Silent(1),
    Row::Shows(
        16,
        16,
        &[
            Pixel(32, 32, 0, 255, 0),
            Pixel(35, 35, 0, 255, 0),
            Pixel(36, 36, 255, 0, 0),
        ],
    ),
];

/// As its parent is placed anew a submenu goes along. Their two windows are painted where they were
/// and where they are, and no other points. 16 of these points are the same.
const BOTH_MOVE: &[Row] = &[
    Row::Sends(OFFSET_8),
    Row::Accepts(
        REPOSITION_77,
        &[REPOSITIONED_77, AT_32, Event::Configure(15, 4)],
    ),
    Row::Sends(ACK_4),
    Row::Paints(0, 0),
    Row::Sends(COMMIT_14),
    Row::Silent(1),
    Row::Shows(
        144,
        144,
        &[
            Pixel(23, 23, 255, 0, 0),
            Pixel(24, 24, 0, 255, 0),
            Pixel(27, 27, 0, 255, 0),
            Pixel(28, 28, 255, 0, 0),
            Pixel(32, 32, 0, 255, 0),
            Pixel(39, 39, 0, 255, 0),
            Pixel(40, 40, 0, 0, 0),
        ],
    ),
];

/// A submenu that is placed anew moves alone, by its parent's place.
const SUBMENU_MOVES: &[Row] = &[
    Row::Sends(Ask::SetOffset(21, -16, -8)),
    Row::Accepts(
        Ask::Reposition(24, 21, 0),
        &[
            Event::Repositioned(24, 0),
            Event::PopupConfigure(24, -16, -8, 4, 4),
            Event::Configure(23, 4),
        ],
    ),
    Row::Sends(Ask::AckConfigure(23, 4)),
    Row::Sends(COMMIT_22),
    Row::Shows(
        32,
        32,
        &[
            Pixel(24, 32, 0, 255, 0),
            Pixel(27, 35, 0, 255, 0),
            Pixel(32, 32, 255, 0, 0),
        ],
    ),
];

const SUBMENUS: &[Case] = &[
    (
        "a submenu goes along",
        &[
            Part::Popup,
            Part::GreenPopup,
            Part::Positioner21,
            Part::Own(SUBMENU),
            Part::Own(BOTH_MOVE),
        ],
    ),
    (
        "a submenu moves alone",
        &[
            Part::Popup,
            Part::GreenPopup,
            Part::Positioner21,
            Part::Own(SUBMENU),
            Part::Own(SUBMENU_MOVES),
        ],
    ),
];

#[test]
fn submenus_go_along(rt: HostRuntime) {
    assert_eq!(rt; missed(rt.alloc(), SUBMENUS), None);
}
