//! Grabs beside another client: a press of its windows dismisses, and no client grabs while another
//! does (xdg-shell.xml, xdg_popup.grab).

use crate::parts::{Case, Part};
use crate::support::missed_after_toplevel;
use test_rows::asks::{Ask, Interface};
use test_rows::begun::GREEN;
use test_rows::events::Event;
use test_rows::rows::{Pixel, Row};
use wl_session::{Done, Step};

/// The client 2 shows a green window at (32, 32), above that of the client 1, which is red at (0,
/// 0).
pub(crate) const SHOWS_SECOND: &[Row] = &[
    Row::From(2, Ask::CreateBuffer(9, 10, 0, 40, 40, 160, 1)),
    Row::Fills(2, 1, 0, 1600, GREEN),
    Row::From(2, Ask::Attach(6, 10)),
    Row::From(2, Ask::Commit(6)),
    Row::ToldOf(2, &[]),
    Row::Shows(
        1024,
        1024,
        &[Pixel(31, 32, 255, 0, 0), Pixel(32, 32, 0, 255, 0)],
    ),
];

/// It has the wl_seat 12 and the wl_pointer 13 too.
pub(crate) const SECOND_SEATED: &[Row] = &[
    Row::From(2, Ask::Bind(2, 5, Interface::Seat, 1, 12)),
    Row::TakesOf(2),
    Row::From(2, Ask::GetPointer(12, 13)),
];

/// The left button.
const PRESS: Row = Row::Calls(
    Step::Button {
        time: 2,
        button: 272,
        pressed: true,
    },
    Done::Button,
);

const RELEASE: Row = Row::Calls(
    Step::Button {
        time: 3,
        button: 272,
        pressed: false,
    },
    Done::Button,
);

/// wl_pointer.button of both with a serial.
const PRESSED_3: Event = Event::Button(13, 3, 2, 272, 1);

const RELEASED_4: Event = Event::Button(13, 4, 3, 272, 0);

const RELEASED_5: Event = Event::Button(13, 5, 3, 272, 0);

/// The pointer goes over the window of the client 2 alone, to (45, 45), which are (13, 13) of it.
const TO_SECOND: Row = Row::Calls(
    Step::Motion {
        time: 1,
        x: 45,
        y: 45,
    },
    Done::Motion,
);

const ENTERED_BY_13: Event = Event::Enter(13, 2, 6, 3328, 3328);

/// The window of the client 2 is pressed.
pub(crate) const PRESSES_SECOND: &[Row] = &[
    TO_SECOND,
    Row::ToldOf(2, &[ENTERED_BY_13]),
    PRESS,
    Row::ToldOf(2, &[PRESSED_3]),
];

/// The client 2 makes the popup 17 of the surface 14, 8 by 8 pixels and 24 to the left and up of
/// its window.
pub(crate) const SECOND_GETS: &[Row] = &[
    Row::From(2, Ask::CreateSurface(3, 14)),
    Row::From(2, Ask::GetXdgSurface(5, 15, 14)),
    Row::From(2, Ask::CreatePositioner(5, 16)),
    Row::From(2, Ask::SetSize(16, 8, 8)),
    Row::From(2, Ask::SetAnchorRect(16, 0, 0, 1, 1)),
    Row::From(2, Ask::SetAnchor(16, 5)),
    Row::From(2, Ask::SetGravity(16, 8)),
    Row::From(2, Ask::SetOffset(16, -24, -24)),
    Row::From(2, Ask::GetPopup(15, 17, 7, 16)),
];

/// It grabs with the serial of the press.
pub(crate) const SECOND_GRABS: &[Row] = &[Row::From(2, Ask::Grab(17, 12, 3)), Row::ToldOf(2, &[])];

/// It is mapped at (8, 8), and the button is released.
pub(crate) const SECOND_MAPS: &[Row] = &[
    Row::From(2, Ask::Commit(14)),
    Row::ToldOf(
        2,
        &[
            Event::PopupConfigure(17, -24, -24, 8, 8),
            Event::Configure(15, 4),
        ],
    ),
    Row::From(2, Ask::AckConfigure(15, 4)),
    Row::From(2, Ask::CreateBuffer(9, 18, 0, 8, 8, 32, 1)),
    Row::From(2, Ask::Attach(14, 18)),
    Row::From(2, Ask::Commit(14)),
    Row::ToldOf(2, &[]),
    RELEASE,
    Row::ToldOf(2, &[RELEASED_5]),
    Row::Shows(64, 64, &[Pixel(8, 8, 0, 255, 0), Pixel(16, 16, 255, 0, 0)]),
];

const SECOND_DISMISSED: Event = Event::PopupDone(17);

/// The pointer leaves the client 2 for (50, 5), where nothing is, and a press there dismisses the
/// popup, of which all points are painted again.
const DISMISSED_BY_NOTHING: &[Row] = &[
    Row::Calls(
        Step::Motion {
            time: 4,
            x: 50,
            y: 5,
        },
        Done::Motion,
    ),
    Row::ToldOf(2, &[Event::Leave(13, 6, 6)]),
    PRESS,
    Row::ToldOf(2, &[SECOND_DISMISSED]),
    Row::ToldOf(1, &[]),
    Row::Shows(
        64,
        64,
        &[
            Pixel(8, 8, 255, 0, 0),
            Pixel(15, 15, 255, 0, 0),
            Pixel(32, 32, 0, 255, 0),
        ],
    ),
];

/// The pointer goes over the popup, (2, 2) of it, and the client 2 goes. The pointer enters the
/// toplevel of the client 1 there, and the windows of the other are painted over.
const SECOND_GOES: &[Row] = &[
    Row::Calls(
        Step::Motion {
            time: 4,
            x: 10,
            y: 10,
        },
        Done::Motion,
    ),
    Row::ToldOf(
        2,
        &[Event::Leave(13, 6, 6), Event::Enter(13, 7, 14, 512, 512)],
    ),
    Row::Paints(0, 0),
    Row::ToldOf(1, &[]),
    Row::Calls(Step::Gone { client: 2 }, Done::Gone(true)),
    Row::ToldOf(1, &[Event::Enter(13, 2, 6, 2560, 2560)]),
    Row::Shows(
        1088,
        1088,
        &[Pixel(8, 8, 255, 0, 0), Pixel(40, 40, 0, 0, 0)],
    ),
];

/// The pointer goes to (5, 5), over the toplevel of the client 1 alone.
const TO_FIRST: Row = Row::Calls(
    Step::Motion {
        time: 4,
        x: 5,
        y: 5,
    },
    Done::Motion,
);

/// It is pressed: the popup of the other client is dismissed, whose points are painted, and the
/// toplevel is raised, with its points of both windows.
const DISMISSED_BY_FIRST: &[Row] = &[
    TO_FIRST,
    Row::TakesOf(1),
    Row::TakesOf(2),
    PRESS,
    Row::ToldOf(2, &[SECOND_DISMISSED]),
    Row::ToldOf(1, &[PRESSED_3]),
    Row::Shows(
        128,
        1600,
        &[
            Pixel(8, 8, 255, 0, 0),
            Pixel(39, 39, 255, 0, 0),
            Pixel(40, 40, 0, 255, 0),
        ],
    ),
];

/// The same where the client 1 has no wl_pointer: it is told nothing.
const DISMISSED_BY_UNTOLD: &[Row] = &[
    TO_FIRST,
    Row::TakesOf(2),
    PRESS,
    Row::ToldOf(2, &[SECOND_DISMISSED]),
    Row::ToldOf(1, &[]),
    Row::Shows(
        128,
        1600,
        &[Pixel(8, 8, 255, 0, 0), Pixel(39, 39, 255, 0, 0)],
    ),
];

/// The client 1 is clicked first, with the serials 3 and 4, and its toplevel is raised; and left,
/// with the serial 5.
pub(crate) const CLICKS_FIRST: &[Row] = &[
    TO_FIRST,
    Row::TakesOf(1),
    PRESS,
    Row::ToldOf(1, &[PRESSED_3]),
    RELEASE,
    Row::ToldOf(1, &[RELEASED_4]),
    Row::Shows(64, 1600, &[Pixel(39, 39, 255, 0, 0)]),
];

/// Then the client 2 is: its window is raised again.
pub(crate) const PRESSES_NEXT: &[Row] = &[
    TO_SECOND,
    Row::ToldOf(1, &[Event::Leave(13, 5, 6)]),
    Row::ToldOf(2, &[ENTERED_BY_13]),
    PRESS,
    Row::ToldOf(2, &[PRESSED_3]),
    Row::Shows(64, 1024, &[Pixel(39, 39, 0, 255, 0)]),
];

/// The client 1 makes a popup 17 of its own surface 14, of 8 by 8 pixels at the lower right corner.
pub(crate) const FIRST_GETS: &[Row] = &[
    Row::Sends(Ask::CreateSurface(3, 14)),
    Row::Sends(Ask::GetXdgSurface(5, 15, 14)),
    Row::Sends(Ask::CreatePositioner(5, 16)),
    Row::Sends(Ask::SetSize(16, 8, 8)),
    Row::Sends(Ask::SetAnchorRect(16, 0, 0, 1, 1)),
    Row::Untold(Ask::GetPopup(15, 17, 7, 16)),
];

const FIRST_GRAB: Ask = Ask::Grab(17, 12, 3);

/// Its grab is refused while the client 2 grabs, and its popup is dismissed; that of the client 2
/// isn't.
const FIRST_REFUSED: &[Row] = &[
    Row::Accepts(FIRST_GRAB, &[Event::PopupDone(17)]),
    Row::ToldOf(2, &[]),
    Row::Shows(0, 0, &[Pixel(8, 8, 0, 255, 0)]),
];

/// It is taken while nobody else grabs.
const FIRST_GRABS: &[Row] = &[Row::Untold(FIRST_GRAB), Row::ToldOf(2, &[])];

/// A grab of the client 2 is refused while the client 1 has one.
const SECOND_REFUSED: &[Row] = &[
    Row::From(2, Ask::Grab(17, 12, 3)),
    Row::ToldOf(2, &[SECOND_DISMISSED]),
    Row::ToldOf(1, &[]),
];

/// The popup of the client 2 goes, or its client.
const SECOND_DESTROYS: &[Row] = &[
    Row::From(2, Ask::PopupDestroy(17)),
    Row::ToldOf(2, &[Event::DeleteId(17)]),
];

const SECOND_ENDS: &[Row] = &[
    Row::Calls(Step::Gone { client: 2 }, Done::Gone(true)),
    Row::TakesOf(1),
];

/// A client that grabs, and goes.
const FREED: &[Case] = &[
    (
        "a press where nothing is",
        &[
            Part::Seated,
            Part::Second,
            Part::ShowsSecond,
            Part::SecondSeated,
            Part::PressesSecond,
            Part::SecondGets,
            Part::SecondGrabs,
            Part::SecondMaps,
            Part::Own(DISMISSED_BY_NOTHING),
        ],
    ),
    (
        "the client that grabs goes",
        &[
            Part::Seated,
            Part::Second,
            Part::ShowsSecond,
            Part::SecondSeated,
            Part::PressesSecond,
            Part::SecondGets,
            Part::SecondGrabs,
            Part::SecondMaps,
            Part::Own(SECOND_GOES),
        ],
    ),
];

/// A press over another client's window.
const PRESSED: &[Case] = &[
    (
        "a press of another client's window",
        &[
            Part::Seated,
            Part::Second,
            Part::ShowsSecond,
            Part::SecondSeated,
            Part::PressesSecond,
            Part::SecondGets,
            Part::SecondGrabs,
            Part::SecondMaps,
            Part::Own(DISMISSED_BY_FIRST),
        ],
    ),
    (
        "a press of a client's without wl_pointer",
        &[
            Part::Second,
            Part::ShowsSecond,
            Part::SecondSeated,
            Part::PressesSecond,
            Part::SecondGets,
            Part::SecondGrabs,
            Part::SecondMaps,
            Part::Own(DISMISSED_BY_UNTOLD),
        ],
    ),
];

/// Where another client holds a grab.
const HELD: &[Case] = &[
    (
        "no client grabs while another does",
        &[
            Part::Seated,
            Part::Second,
            Part::ShowsSecond,
            Part::SecondSeated,
            Part::ClicksFirst,
            Part::PressesNext,
            Part::SecondGets,
            Part::SecondGrabs,
            Part::SecondMaps,
            Part::FirstGets,
            Part::Own(FIRST_REFUSED),
        ],
    ),
    (
        "nor the other while the first does",
        &[
            Part::Seated,
            Part::Second,
            Part::ShowsSecond,
            Part::SecondSeated,
            Part::ClicksFirst,
            Part::PressesNext,
            Part::FirstGets,
            Part::Own(FIRST_GRABS),
            Part::SecondGets,
            Part::Own(SECOND_REFUSED),
        ],
    ),
];

/// Once the other client's grab is over.
const AFTER: &[Case] = &[
    (
        "it grabs once the other's popup went",
        &[
            Part::Seated,
            Part::Second,
            Part::ShowsSecond,
            Part::SecondSeated,
            Part::ClicksFirst,
            Part::PressesNext,
            Part::SecondGets,
            Part::SecondGrabs,
            Part::Own(SECOND_DESTROYS),
            Part::FirstGets,
            Part::Own(FIRST_GRABS),
        ],
    ),
    (
        "and once the other is gone",
        &[
            Part::Seated,
            Part::Second,
            Part::ShowsSecond,
            Part::SecondSeated,
            Part::ClicksFirst,
            Part::PressesNext,
            Part::SecondGets,
            Part::SecondGrabs,
            Part::Own(SECOND_ENDS),
            Part::FirstGets,
            Part::Own(FIRST_GRABS),
        ],
    ),
];

#[test]
fn grabs_of_two_clients_end_as_worked(rt: HostRuntime) {
    assert_eq!(rt; missed_after_toplevel(rt.alloc(), FREED), None);
}

#[test]
fn presses_over_another_client_are_as_worked(rt: HostRuntime) {
    assert_eq!(rt; missed_after_toplevel(rt.alloc(), PRESSED), None);
}

#[test]
fn grabs_that_are_held_are_as_worked(rt: HostRuntime) {
    assert_eq!(rt; missed_after_toplevel(rt.alloc(), HELD), None);
}

#[test]
fn grabs_after_another_are_as_worked(rt: HostRuntime) {
    assert_eq!(rt; missed_after_toplevel(rt.alloc(), AFTER), None);
}
