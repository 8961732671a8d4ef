//! Buttons of the pointer over windows (wayland.xml, wl_pointer.button, and xdg-shell.xml,
//! xdg_toplevel.move): what a client is told, which window
//! is raised, and how one is moved.

use crate::frames::{CHANGES_NINE, GREEN_SQUARE, NINE_RED, SHOWS_BLACK, SHOWS_THREE_RED};
use crate::hovering::{COMES, ENTERED};
use test_rows::asks::Ask;
use test_rows::begun::{
    ATTACH_NONE, COMMIT, CONFIGURED, GREEN, MAPS, RED_10, SEATED, SECOND, missed_after_buffers,
};
use test_rows::events::Event;
use test_rows::rows::{Case, Pixel, Row};
use wl_session::{Cause, Done, Fed, Step};

/// The left button is pressed at the time 11, and released at the time 13.
pub(crate) const PRESS: Step = Step::Button {
    time: 11,
    button: 272,
    pressed: true,
};

const RELEASE: Step = Step::Button {
    time: 13,
    button: 272,
    pressed: false,
};

/// wl_pointer.button of both, with the serials 3 and 4.
const PRESSED: Event = Event::Button(13, 3, 11, 272, 1);

const RELEASED: Event = Event::Button(13, 4, 13, 272, 0);

/// The pointer comes to (5, 5), over the window, and the button is pressed there.
const HOLDS: &[Row] = &[
    COMES,
    Row::Told(&[ENTERED]),
    Row::Takes,
    Row::Calls(PRESS, Done::Button),
    Row::Told(&[PRESSED]),
    Row::Takes,
];

/// While it is down the surface keeps the focus, also beside its window. It loses that once the
/// button is up.
const HELD: &[Row] = &[
    Row::Steps(
        Step::Motion {
            time: 12,
            x: 50,
            y: 50,
        },
        Done::Motion,
    ),
    Row::Told(&[Event::Motion(13, 12, 12800, 12800)]),
    Row::Takes,
    Row::Steps(RELEASE, Done::Button),
    Row::Told(&[RELEASED, Event::Leave(13, 5, 6)]),
];

/// A button that is down can't be pressed, nor can one be released that isn't.
const IGNORED: &[Row] = &[
    Row::Steps(PRESS, Done::Button),
    Row::Silent(1),
    Row::Steps(
        Step::Button {
            time: 12,
            button: 273,
            pressed: false,
        },
        Done::Button,
    ),
    Row::Silent(1),
    Row::Calls(RELEASE, Done::Button),
    Row::Told(&[RELEASED]),
    Row::Takes,
    Row::Calls(RELEASE, Done::Button),
    Row::Silent(1),
];

const SHOWS_RED: &[Row] = &[Row::Shows(1600, 1600, &[Pixel(0, 0, 255, 0, 0)])];

/// xdg_toplevel.move of the toplevel 8 with the serial of the press.
const MOVE: Ask = Ask::Move(8, 12, 3);

/// The pointer goes to (6, 5), one to the right.
const GOES: Row = Row::Calls(
    Step::Motion {
        time: 12,
        x: 6,
        y: 5,
    },
    Done::Motion,
);

/// wl_pointer.motion there where the window stands at (0, 0).
const GONE_OVER: Event = Event::Motion(13, 12, 1536, 1280);

/// The window goes along with the pointer, which tells nothing, until the button is up; then it
/// stays at (1, 0).
const MOVED: &[Row] = &[
    Row::Sends(MOVE),
    Row::Silent(1),
    GOES,
    Row::Silent(1),
    Row::Shows(
        1640,
        1640,
        &[
            Pixel(0, 0, 0, 0, 0),
            Pixel(1, 0, 255, 0, 0),
            Pixel(40, 39, 255, 0, 0),
            Pixel(41, 39, 0, 0, 0),
            Pixel(40, 40, 0, 0, 0),
        ],
    ),
    Row::Calls(RELEASE, Done::Button),
    Row::Told(&[RELEASED]),
    Row::Takes,
    Row::Calls(
        Step::Motion {
            time: 14,
            x: 8,
            y: 5,
        },
        Done::Motion,
    ),
    Row::Told(&[Event::Motion(13, 14, 1792, 1280)]),
    Row::Shows(0, 0, &[Pixel(1, 0, 255, 0, 0)]),
];

/// With another serial than that of the press nothing is moved.
const ANOTHER_SERIAL: &[Row] = &[
    Row::Sends(Ask::Move(8, 12, 2)),
    GOES,
    Row::Told(&[GONE_OVER]),
    Row::Shows(0, 0, &[Pixel(0, 0, 255, 0, 0)]),
];

/// Nor with that of a second press: the first began to hold.
const SECOND_PRESS: &[Row] = &[
    Row::Calls(
        Step::Button {
            time: 11,
            button: 273,
            pressed: true,
        },
        Done::Button,
    ),
    Row::Told(&[Event::Button(13, 4, 11, 273, 1)]),
    Row::Takes,
    Row::Sends(Ask::Move(8, 12, 4)),
    GOES,
    Row::Told(&[GONE_OVER]),
];

/// Nor once the button is up.
const TOO_LATE: &[Row] = &[
    Row::Calls(RELEASE, Done::Button),
    Row::Takes,
    Row::Sends(MOVE),
    GOES,
    Row::Told(&[GONE_OVER]),
    Row::Shows(0, 0, &[Pixel(0, 0, 255, 0, 0)]),
];

/// A window that is unmapped isn't moved any more. Mapped again it stands at (32, 32), and stays
/// there; the button is still down, and no surface has
/// the focus.
const UNMAPPED: &[Row] = &[
    Row::Sends(MOVE),
    Row::Sends(ATTACH_NONE),
    Row::Sends(COMMIT),
    Row::Told(&[Event::Release(10), Event::Leave(13, 4, 6)]),
    Row::Takes,
    Row::Sends(COMMIT),
    Row::Told(&[CONFIGURED, Event::Configure(7, 5)]),
    Row::Takes,
    Row::Sends(Ask::AckConfigure(7, 5)),
];

const STAYS: &[Row] = &[
    GOES,
    Row::Silent(1),
    Row::Shows(
        2560,
        2560,
        &[
            Pixel(0, 0, 0, 0, 0),
            Pixel(31, 32, 0, 0, 0),
            Pixel(32, 31, 0, 0, 0),
            Pixel(32, 32, 255, 0, 0),
            Pixel(63, 63, 255, 0, 0),
        ],
    ),
    Row::Calls(RELEASE, Done::Button),
    Row::Silent(1),
];

/// A second window of the client, green, at (32, 32): the surface 14 with its xdg_surface 15 and
/// its toplevel 16.
const SECOND_WINDOW: &[Row] = &[
    Row::Fills(1, 1, 6400, 1600, GREEN),
    Row::Sends(Ask::CreateSurface(3, 14)),
    Row::Sends(Ask::GetXdgSurface(5, 15, 14)),
    Row::Sends(Ask::GetToplevel(15, 16)),
    Row::Sends(Ask::Commit(14)),
    Row::Sends(Ask::AckConfigure(15, 2)),
    Row::Sends(Ask::Attach(14, 11)),
    Row::Sends(Ask::Commit(14)),
    Row::Shows(
        2560,
        2560,
        &[Pixel(31, 32, 255, 0, 0), Pixel(32, 32, 0, 255, 0)],
    ),
    COMES,
    Row::Takes,
];

/// A press over the lower window puts it on top, and it stays there.
const RAISED: &[Row] = &[
    Row::Calls(PRESS, Done::Button),
    Row::Told(&[Event::Button(13, 4, 11, 272, 1)]),
    Row::Shows(
        64,
        1600,
        &[
            Pixel(32, 32, 255, 0, 0),
            Pixel(39, 39, 255, 0, 0),
            Pixel(40, 39, 0, 255, 0),
            Pixel(39, 40, 0, 255, 0),
        ],
    ),
    Row::Steps(RELEASE, Done::Button),
    Row::Steps(PRESS, Done::Button),
    Row::Shows(0, 0, &[Pixel(32, 32, 255, 0, 0)]),
];

/// A press over another client's window puts that on top: the nine red points come out from below
/// the green square.
const RAISED_ABOVE_ANOTHER: &[Row] = &[
    Row::Calls(
        Step::Motion {
            time: 20,
            x: 5,
            y: 5,
        },
        Done::Motion,
    ),
    Row::Told(&[ENTERED]),
    Row::Takes,
    Row::Calls(
        Step::Button {
            time: 21,
            button: 272,
            pressed: true,
        },
        Done::Button,
    ),
    Row::Told(&[Event::Button(13, 3, 21, 272, 1)]),
    Row::Silent(2),
    Row::Shows(
        64,
        1600,
        &[
            Pixel(31, 33, 255, 0, 0),
            Pixel(33, 35, 255, 0, 0),
            Pixel(34, 35, 0, 0, 0),
            Pixel(32, 32, 0, 0, 0),
            Pixel(39, 39, 0, 0, 0),
        ],
    ),
];

/// With 1,048,560 bytes that wait there is no room for wl_pointer.button, of 24. The window is to
/// be painted over.
const TOO_SLOW: &[Row] = &[
    COMES,
    Row::Takes,
    Row::Changes(87_380, Ask::CreateRegion(3, 16), Ask::RegionDestroy(16)),
    Row::Waiting(1_048_560),
    Row::Calls(PRESS, Done::Button),
    Row::Is(1, Fed::Ended(Cause::Slow)),
    Row::Waiting(1_048_560),
    Row::Shows(1600, 1600, &[Pixel(0, 0, 0, 0, 0)]),
];

/// Each case begins with a toplevel that can show the buffer 10.
const TOLD: &[Case] = &[
    ("held and let go", &[RED_10, MAPS, SEATED, HOLDS, HELD]),
    (
        "pressed twice, released twice",
        &[RED_10, MAPS, SEATED, HOLDS, IGNORED],
    ),
    (
        "who is too slow",
        &[RED_10, MAPS, SHOWS_RED, SEATED, TOO_SLOW],
    ),
];

const MOVES: &[Case] = &[
    (
        "a window is moved",
        &[RED_10, MAPS, SHOWS_RED, SEATED, HOLDS, MOVED],
    ),
    (
        "unmapped while it is moved",
        &[
            RED_10, MAPS, SHOWS_RED, SEATED, HOLDS, UNMAPPED, MAPS, STAYS,
        ],
    ),
];

const REFUSED_MOVES: &[Case] = &[
    (
        "moved with another serial",
        &[RED_10, MAPS, SHOWS_RED, SEATED, HOLDS, ANOTHER_SERIAL],
    ),
    (
        "moved with the serial of a second press",
        &[RED_10, MAPS, SEATED, HOLDS, SECOND_PRESS],
    ),
    (
        "moved after the release",
        &[RED_10, MAPS, SHOWS_RED, SEATED, HOLDS, TOO_LATE],
    ),
];

const RAISES: &[Case] = &[
    (
        "a window is raised",
        &[RED_10, MAPS, SEATED, SECOND_WINDOW, RAISED],
    ),
    (
        "a window is raised above another client's",
        &[
            NINE_RED,
            MAPS,
            SHOWS_BLACK,
            SECOND,
            GREEN_SQUARE,
            CHANGES_NINE,
            SHOWS_THREE_RED,
            SEATED,
            RAISED_ABOVE_ANOTHER,
        ],
    ),
];

#[test]
fn buttons_are_told(rt: HostRuntime) {
    assert_eq!(rt; missed_after_buffers(rt.alloc(), TOLD), None);
}

#[test]
fn windows_are_moved(rt: HostRuntime) {
    assert_eq!(rt; missed_after_buffers(rt.alloc(), MOVES), None);
}

#[test]
fn windows_are_not_moved_otherwise(rt: HostRuntime) {
    assert_eq!(rt; missed_after_buffers(rt.alloc(), REFUSED_MOVES), None);
}

#[test]
fn windows_are_raised(rt: HostRuntime) {
    assert_eq!(rt; missed_after_buffers(rt.alloc(), RAISES), None);
}
