//! The windows of the output, read one by one from bottom to top, where there is a popup.

use crate::parts::{Case, Part};
use crate::support::{COMMIT_14, DETACH_14, missed_after_toplevel};
use test_rows::rows::Row;
use wl_session::ShownWindow;

/// The window of the toplevel.
const TOPLEVEL: ShownWindow = ShownWindow {
    client: 1,
    surface: 6,
    x: 0,
    y: 0,
    width: 40,
    height: 40,
};

/// That of the popup, at the lower right corner of it.
const MENU: ShownWindow = ShownWindow {
    client: 1,
    surface: 14,
    x: 40,
    y: 40,
    width: 8,
    height: 8,
};

const ALONE: &[Row] = &[Row::Stacked(&[TOPLEVEL])];

const WITH_MENU: &[Row] = &[Row::Stacked(&[TOPLEVEL, MENU])];

const MENU_UNMAPS: &[Row] = &[
    Row::Sends(DETACH_14),
    Row::Sends(COMMIT_14),
    Row::Stacked(&[TOPLEVEL]),
];

/// Each begins with a toplevel that was painted.
const CASES: &[Case] = &[(
    "a popup",
    &[
        Part::Surface,
        Part::Positioner,
        Part::Popup,
        Part::Own(ALONE),
        Part::PopupMaps,
        Part::Own(WITH_MENU),
        Part::Own(MENU_UNMAPS),
    ],
)];

#[test]
fn a_popup_is_above_its_parent(rt: HostRuntime) {
    assert_eq!(rt; missed_after_toplevel(rt.alloc(), CASES), None);
}
