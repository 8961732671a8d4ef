//! Requests of popups that are refused: the first error of each, and its text.

use crate::parts::{Case, Part};
use crate::support::{GET_POPUP, missed_after_toplevel};
use test_rows::asks::Ask;
use test_rows::events::Event;
use test_rows::rows::Row;

/// The positioner 16 has no size, or no rectangle.
const NO_SIZE: &[Row] = &[
    Row::Sends(Ask::CreatePositioner(5, 16)),
    Row::Sends(Ask::SetAnchorRect(16, 0, 0, 40, 40)),
];

const NO_RECTANGLE: &[Row] = &[
    Row::Sends(Ask::CreatePositioner(5, 16)),
    Row::Sends(Ask::SetSize(16, 8, 8)),
];

const INVALID_POSITIONER: &[Row] = &[
    Row::Errs(GET_POPUP, 5, 5),
    Row::ErrorTold(5, 5, b"invalid_positioner"),
];

/// The parent is null, the xdg_surface itself, or one without a role object.
const NULL_PARENT: &[Row] = &[
    Row::Errs(Ask::GetPopup(15, 17, 0, 16), 5, 3),
    Row::ErrorTold(5, 3, b"invalid_popup_parent"),
];

const OWN_PARENT: &[Row] = &[Row::Errs(Ask::GetPopup(15, 17, 15, 16), 5, 3)];

const BARE_PARENT: &[Row] = &[
    Row::Sends(Ask::CreateSurface(3, 22)),
    Row::Sends(Ask::GetXdgSurface(5, 23, 22)),
    Row::Errs(Ask::GetPopup(15, 17, 23, 16), 5, 3),
];

/// The parent is looked at before the positioner.
const PARENT_FIRST: &[Row] = &[Row::Errs(Ask::GetPopup(15, 17, 0, 16), 5, 3)];

/// The xdg_surface has a popup already.
const SECOND_POPUP: &[Row] = &[
    Row::Sends(GET_POPUP),
    Row::Errs(Ask::GetPopup(15, 20, 7, 16), 15, 2),
    Row::ErrorTold(15, 2, b"already_constructed"),
];

/// Its popup went: the surface keeps the role of one, and gets no toplevel.
const OTHER_ROLE: &[Row] = &[
    Row::Sends(GET_POPUP),
    Row::Accepts(Ask::ToplevelDestroy(17), &[Event::DeleteId(17)]),
    Row::Errs(Ask::GetToplevel(15, 17), 5, 0),
    Row::ErrorTold(5, 0, b"role"),
];

/// Another popup of it is as good as the first.
const SAME_ROLE: &[Row] = &[
    Row::Sends(GET_POPUP),
    Row::Accepts(Ask::ToplevelDestroy(17), &[Event::DeleteId(17)]),
];

/// The xdg_surface doesn't go before its popup, nor the wl_surface before that.
const XDG_SURFACE_FIRST: &[Row] = &[
    Row::Sends(GET_POPUP),
    Row::Errs(Ask::XdgSurfaceDestroy(15), 15, 6),
    Row::ErrorTold(15, 6, b"defunct_role_object"),
];

/// A buffer before the popup was configured.
const BUFFER_FIRST: &[Row] = &[
    Row::Sends(GET_POPUP),
    Row::Sends(Ask::Attach(14, 10)),
    Row::Errs(Ask::Commit(14), 15, 3),
    Row::ErrorTold(15, 3, b"unconfigured_buffer"),
];

/// A request of the xdg_popup by a number that it doesn't have.
const NO_METHOD: &[Row] = &[
    Row::Sends(GET_POPUP),
    Row::Errs(Ask::Reposition(17, 16, 1), 1, 1),
    Row::ErrorTold(1, 1, b"invalid_method"),
];

/// For what its positioner or its parent is.
const BY_POSITIONER_OR_PARENT: &[Case] = &[
    (
        "a positioner has a size",
        &[
            Part::Surface,
            Part::Own(NO_SIZE),
            Part::Own(INVALID_POSITIONER),
        ],
    ),
    (
        "a positioner has a rectangle",
        &[
            Part::Surface,
            Part::Own(NO_RECTANGLE),
            Part::Own(INVALID_POSITIONER),
        ],
    ),
    (
        "no popup is on nothing",
        &[Part::Surface, Part::Positioner, Part::Own(NULL_PARENT)],
    ),
    (
        "none is on itself",
        &[Part::Surface, Part::Positioner, Part::Own(OWN_PARENT)],
    ),
    (
        "none is on an xdg_surface without a role object",
        &[Part::Surface, Part::Positioner, Part::Own(BARE_PARENT)],
    ),
    (
        "the parent is looked at first",
        &[Part::Surface, Part::Own(NO_SIZE), Part::Own(PARENT_FIRST)],
    ),
];

/// For what its surface is or was.
const BY_SURFACE: &[Case] = &[
    (
        "an xdg_surface has one popup",
        &[Part::Surface, Part::Positioner, Part::Own(SECOND_POPUP)],
    ),
    (
        "a popup's surface gets no toplevel",
        &[Part::Surface, Part::Positioner, Part::Own(OTHER_ROLE)],
    ),
    (
        "it gets another popup",
        &[
            Part::Surface,
            Part::Positioner,
            Part::Own(SAME_ROLE),
            Part::Popup,
        ],
    ),
    (
        "an xdg_surface doesn't go before its popup",
        &[
            Part::Surface,
            Part::Positioner,
            Part::Own(XDG_SURFACE_FIRST),
        ],
    ),
    (
        "a buffer waits for the configure",
        &[Part::Surface, Part::Positioner, Part::Own(BUFFER_FIRST)],
    ),
    (
        "a popup isn't placed anew at version 1",
        &[Part::Surface, Part::Positioner, Part::Own(NO_METHOD)],
    ),
];

#[test]
fn positioners_and_parents_are_refused_as_worked(rt: HostRuntime) {
    assert_eq!(rt;
        missed_after_toplevel(rt.alloc(), BY_POSITIONER_OR_PARENT),
        None
    );
}

#[test]
fn surfaces_are_refused_as_worked(rt: HostRuntime) {
    assert_eq!(rt; missed_after_toplevel(rt.alloc(), BY_SURFACE), None);
}
