//! A toplevel with a popup, and a popup of that: what many cases begin with.

use crate::parts::{Case, first_missed};
use std::alloc::Global;
use test_rows::asks::Ask;
use test_rows::begun::{ACKNOWLEDGES, BUFFERS, CONFIGURES, GLOBALS, MADE, MAPS, RED_10};
use test_rows::events::Event;
use test_rows::rows::{Fault, REGISTRY, Row};
use wl_session::{Config, Rgb};

/// The output, which is as wide as the rows read frames.
pub(crate) const OUTPUT: Config = Config {
    width: 64,
    height: 64,
    background: Rgb { r: 0, g: 0, b: 0 },
};

/// The surface 6 with its toplevel 8 shows the buffer 10, which is all red, at (0, 0), and was
/// painted.
pub(crate) const SHOWN: &[&[Row]] = &[
    REGISTRY,
    GLOBALS,
    MADE,
    CONFIGURES,
    ACKNOWLEDGES,
    BUFFERS,
    RED_10,
    MAPS,
    &[Row::Paints(1600, 1600)],
];

/// The positioner 16 places a popup of 8 by 8 pixels at the lower right corner of a rectangle of 40
/// by 40.
pub(crate) const POSITIONER: &[Row] = &[
    Row::Sends(Ask::CreatePositioner(5, 16)),
    Row::Sends(Ask::SetSize(16, 8, 8)),
    Row::Sends(Ask::SetAnchorRect(16, 0, 0, 40, 40)),
    Row::Sends(Ask::SetAnchor(16, 8)),
    Row::Sends(Ask::SetGravity(16, 8)),
];

/// The surface 14 with its xdg_surface 15.
pub(crate) const SURFACE: &[Row] = &[
    Row::Sends(Ask::CreateSurface(3, 14)),
    Row::Sends(Ask::GetXdgSurface(5, 15, 14)),
];

/// xdg_surface.get_popup: the popup 17 of the surface 14, on the toplevel.
pub(crate) const GET_POPUP: Ask = Ask::GetPopup(15, 17, 7, 16);

pub(crate) const COMMIT_14: Ask = Ask::Commit(14);

/// xdg_popup.configure of the popup 17 at the lower right corner of the toplevel.
pub(crate) const PLACED: Event = Event::PopupConfigure(17, 40, 40, 8, 8);

/// The buffer 18 of the pool 9 at its start: 8 by 8 pixels with a stride of 32, of the format 1.
pub(crate) const BUFFER_18: Ask = Ask::CreateBuffer(9, 18, 0, 8, 8, 32, 1);

/// wl_surface.attach of the surface 14: the buffer 18, or none.
pub(crate) const ATTACH_18: Ask = Ask::Attach(14, 18);

pub(crate) const DETACH_14: Ask = Ask::Attach(14, 0);

/// wl_buffer.release of the buffer 18.
pub(crate) const RELEASED_18: Event = Event::Release(18);

/// The popup 17 is placed by its first commit.
pub(crate) const POPUP: &[Row] = &[
    Row::Sends(GET_POPUP),
    Row::Silent(1),
    Row::Accepts(COMMIT_14, &[PLACED, Event::Configure(15, 2)]),
];

/// The configure is acknowledged, and the popup is mapped with the buffer 18.
pub(crate) const POPUP_MAPS: &[Row] = &[
    Row::Sends(Ask::AckConfigure(15, 2)),
    Row::Sends(BUFFER_18),
    Row::Sends(ATTACH_18),
    Row::Sends(COMMIT_14),
    Row::Silent(1),
];

/// The first of the cases that isn't as wanted after the toplevel was painted, and what wasn't.
pub(crate) fn missed_after_toplevel(alloc: Global, cases: &[Case]) -> Option<(usize, Fault)> {
    first_missed(alloc, SHOWN, cases)
}
