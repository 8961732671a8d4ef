//! Worked sessions with a popup as acts. It is placed and shown, goes along with its parent, and is
//! dismissed with it. Or it grabs, and is dismissed by a press.

use crate::acts::{Act, Layer};
use crate::recorded::PARENT;
use test_rows::asks::{Ask, Interface};
use test_rows::begun::COMMIT;
use test_rows::events::Event;

const COMMIT_14: Ask = Ask::Commit(14);

/// The surface 14 has the popup 17, which the positioner 16 places at the lower right corner of the
/// toplevel.
const MAKES_POPUP: &[Ask] = &[
    Ask::CreateSurface(3, 14),
    Ask::GetXdgSurface(5, 15, 14),
    Ask::CreatePositioner(5, 16),
    Ask::SetSize(16, 8, 8),
    Ask::SetAnchorRect(16, 0, 0, 40, 40),
    Ask::SetAnchor(16, 8),
    Ask::SetGravity(16, 8),
    Ask::GetPopup(15, 17, 7, 16),
    COMMIT_14,
];

const PLACED: &[Event] = &[
    Event::PopupConfigure(17, 40, 40, 8, 8),
    Event::Configure(15, 2),
];

/// It is mapped with the buffer 18 of 8 by 8 pixels, behind the buffer 10 in the pool 9.
const SHOWS_POPUP: &[Ask] = &[
    Ask::AckConfigure(15, 2),
    Ask::CreateBuffer(9, 18, 6400, 8, 8, 32, 1),
    Ask::Attach(14, 18),
    COMMIT_14,
];

/// The corner of the toplevel's window geometry moves.
const MOVES: &[Ask] = &[Ask::SetWindowGeometry(7, 4, 4, 32, 32), COMMIT];

const ENDS_TOPLEVEL: &[Ask] = &[Ask::ToplevelDestroy(8)];

const DISMISSED: &[Event] = &[Event::DeleteId(8), Event::PopupDone(17)];

/// The popup, which is black, at its first place, and at its second.
const POPUP: Layer = Layer {
    client: 1,
    x: 40,
    y: 40,
    w: 8,
    h: 8,
    color: [0, 0, 0],
};

const MOVED: Layer = Layer {
    client: 1,
    x: 44,
    y: 44,
    w: 8,
    h: 8,
    color: [0, 0, 0],
};

/// The window is shown, and has a popup that is placed.
pub(crate) const PLACED_POPUP: &[Act] = &[
    Act::Shows(&[PARENT]),
    Act::Sends(1, MAKES_POPUP),
    Act::Told(1, PLACED),
];

/// The popup is shown, goes along with its parent and is dismissed as that goes.
pub(crate) const MENU: &[Act] = &[
    Act::Sends(1, SHOWS_POPUP),
    Act::Silent(1),
    Act::Shows(&[PARENT, POPUP]),
    Act::Sends(1, MOVES),
    Act::Shows(&[PARENT, MOVED]),
    Act::Sends(1, ENDS_TOPLEVEL),
    Act::Told(1, DISMISSED),
    Act::Shows(&[]),
    Act::Silent(1),
];

/// The wl_seat 12, and its wl_pointer 13.
pub(crate) const SEAT: &[Ask] = &[
    Ask::Bind(2, 5, Interface::Seat, 1, 12),
    Ask::GetPointer(12, 13),
];

pub(crate) const CAPABLE: &[Event] = &[Event::Capabilities(12, 1)];

/// The pointer enters the toplevel at (5, 4) with the serial 3, and the button is pressed there
/// with the serial 4, and released with 5.
const ENTERED: &[Event] = &[Event::Enter(13, 3, 6, 1280, 1024)];

const PRESSED: &[Event] = &[Event::Button(13, 4, 2, 272, 1)];

const RELEASED: &[Event] = &[Event::Button(13, 5, 2, 272, 0)];

/// The popup grabs with the serial of the press before it is mapped.
const GRABS: &[Ask] = &[
    Ask::AckConfigure(15, 2),
    Ask::Grab(17, 12, 4),
    Ask::CreateBuffer(9, 18, 6400, 8, 8, 32, 1),
    Ask::Attach(14, 18),
    COMMIT_14,
];

const LEFT: &[Event] = &[Event::Leave(13, 6, 6)];

const DONE: &[Event] = &[Event::PopupDone(17)];

/// The client 1 has a wl_pointer.
pub(crate) const SEATED: &[Act] = &[Act::Sends(1, SEAT), Act::Told(1, CAPABLE)];

/// The popup grabs, and a press where nothing is dismisses it.
pub(crate) const GRAB: &[Act] = &[
    Act::Points(5, 4),
    Act::Told(1, ENTERED),
    Act::Presses(true),
    Act::Told(1, PRESSED),
    Act::Sends(1, GRABS),
    Act::Silent(1),
    Act::Shows(&[PARENT, POPUP]),
    Act::Presses(false),
    Act::Told(1, RELEASED),
    Act::Points(60, 4),
    Act::Told(1, LEFT),
    Act::Presses(true),
    Act::Told(1, DONE),
    Act::Shows(&[PARENT]),
    Act::Silent(1),
];
