//! What the pointer does in cases of grabs, and what the client 1 is told of it where it has the
//! wl_pointer 13 (wayland.xml, wl_pointer).

use test_rows::events::Event;
use test_rows::rows::Row;
use wl_session::{Done, Step};

/// The left button is pressed at the time 11, and released at the time 13.
pub(crate) const PRESS: Row = Row::Calls(
    Step::Button {
        time: 11,
        button: 272,
        pressed: true,
    },
    Done::Button,
);

pub(crate) const RELEASE: Row = Row::Calls(
    Step::Button {
        time: 13,
        button: 272,
        pressed: false,
    },
    Done::Button,
);

/// The right button is pressed at the time 15, by `step`.
pub(crate) const SECOND_PRESS: Row = Row::Steps(
    Step::Button {
        time: 15,
        button: 273,
        pressed: true,
    },
    Done::Button,
);

/// The pointer goes to (5, 4), over the toplevel.
pub(crate) const TO_TOPLEVEL: Row = Row::Calls(
    Step::Motion {
        time: 1,
        x: 5,
        y: 4,
    },
    Done::Motion,
);

/// It goes to (42, 43), which are (2, 3) of the popup.
pub(crate) const TO_POPUP: Row = Row::Calls(
    Step::Motion {
        time: 7,
        x: 42,
        y: 43,
    },
    Done::Motion,
);

/// It goes to (60, 4), where nothing is.
pub(crate) const TO_NOTHING: Row = Row::Calls(
    Step::Motion {
        time: 8,
        x: 60,
        y: 4,
    },
    Done::Motion,
);

/// The surface 6 is entered there.
const ENTERED: Event = Event::Enter(13, 2, 6, 1280, 1024);

/// wl_pointer.button of the first press and its release, with the serials 3 and 4.
const PRESSED: Event = Event::Button(13, 3, 11, 272, 1);

const RELEASED: Event = Event::Button(13, 4, 13, 272, 0);

/// The button is pressed over the toplevel, which is told it with the serial 3.
pub(crate) const PRESSES: &[Row] = &[
    TO_TOPLEVEL,
    Row::ToldOf(1, &[ENTERED]),
    PRESS,
    Row::ToldOf(1, &[PRESSED]),
];

/// It is released again, which has the serial 4.
pub(crate) const RELEASES: &[Row] = &[RELEASE, Row::ToldOf(1, &[RELEASED])];

/// The pointer goes where nothing is, and the toplevel is left with the serial 5.
pub(crate) const LEAVES: &[Row] = &[TO_NOTHING, Row::ToldOf(1, &[Event::Leave(13, 5, 6)])];

/// The button is pressed and released there, and nobody is told of it.
pub(crate) const CLICKS_NOTHING: &[Row] = &[
    PRESS,
    Row::Silent(1),
    RELEASE,
    Row::Silent(1),
    Row::Paints(0, 0),
];
