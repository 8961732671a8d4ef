//! The windows of the output, read one by one from bottom to top: whose they are, where they stand
//! and how large they are.

use crate::frames::GREEN_SQUARE;
use crate::hovering::COMES;
use crate::pressing::PRESS;
use crate::subsurfaces::{COMMIT_14, PLACE_BELOW, SHOWN, SUBSURFACE};
use test_rows::asks::Ask;
use test_rows::begun::{ATTACH_NONE, COMMIT, MAPS, SECOND, missed_after_buffers};
use test_rows::rows::{Case, Row};
use wl_session::{Done, ShownWindow, Step};

/// The window of the client 1's toplevel, the first that is mapped.
const FIRST: ShownWindow = ShownWindow {
    client: 1,
    surface: 6,
    x: 0,
    y: 0,
    width: 40,
    height: 40,
};

/// That of the client 2's toplevel, the second.
const OTHER: ShownWindow = ShownWindow {
    client: 2,
    surface: 6,
    x: 32,
    y: 32,
    width: 8,
    height: 8,
};

/// That of the subsurface of the client 1's toplevel.
const CHILD: ShownWindow = ShownWindow {
    client: 1,
    surface: 14,
    x: 4,
    y: 4,
    width: 4,
    height: 4,
};

const NONE: &[Row] = &[Row::Stacked(&[])];

const ONE: &[Row] = &[
    Row::Stacked(&[FIRST]),
    Row::Calls(Step::Tick { time: 0 }, Done::Tick),
];

/// A toplevel that isn't mapped, and a subsurface that shows no buffer, have none.
const STILL_ONE: &[Row] = &[Row::Stacked(&[FIRST])];

const TWO: &[Row] = &[Row::Stacked(&[FIRST, OTHER])];

/// A press over the lower window raises it (xdg-shell.xml, xdg_toplevel).
const RAISED: &[Row] = &[
    COMES,
    Row::Calls(PRESS, Done::Button),
    Row::Stacked(&[OTHER, FIRST]),
];

const OTHER_GOES: &[Row] = &[
    Row::Calls(Step::Gone { client: 2 }, Done::Gone(true)),
    Row::Stacked(&[FIRST]),
];

const UNMAPS: &[Row] = &[
    Row::Sends(ATTACH_NONE),
    Row::Sends(COMMIT),
    Row::Stacked(&[]),
];

const CHILD_ABOVE: &[Row] = &[Row::Stacked(&[FIRST, CHILD])];

const CHILD_BELOW: &[Row] = &[Row::Stacked(&[CHILD, FIRST])];

/// The subsurface shows no buffer any more, once its parent commits.
const CHILD_UNMAPS: &[Row] = &[
    Row::Sends(Ask::Attach(14, 0)),
    Row::Sends(COMMIT_14),
    Row::Stacked(&[CHILD, FIRST]),
    Row::Sends(COMMIT),
    Row::Stacked(&[FIRST]),
];

/// Each begins with a toplevel and its buffers.
const CASES: &[Case] = &[
    (
        "toplevels",
        &[
            NONE,
            MAPS,
            ONE,
            SECOND,
            STILL_ONE,
            GREEN_SQUARE,
            TWO,
            RAISED,
            OTHER_GOES,
            UNMAPS,
        ],
    ),
    (
        "a subsurface",
        &[
            MAPS,
            SUBSURFACE,
            STILL_ONE,
            SHOWN,
            CHILD_ABOVE,
            PLACE_BELOW,
            CHILD_BELOW,
            CHILD_UNMAPS,
        ],
    ),
];

#[test]
fn windows_are_in_stacking_order(rt: HostRuntime) {
    assert_eq!(rt; missed_after_buffers(rt.alloc(), CASES), None);
}
