//! Two clients with windows. The upper one has a popup that grabs by the serial of a press, and
//! goes. Here are the acts of both, and the pointer's between them.

use crate::acts::{Act, Layer};
use crate::menus::{CAPABLE, SEAT};
use crate::recorded::{MAPS_WIDE, PARENT, WIDE_BUFFERS};
use test_rows::asks::Ask;
use test_rows::events::Event;

/// The window of the client 2, which is black, and its popup, which is black too and lies above and
/// to the left of it.
const ABOVE: Layer = Layer {
    client: 2,
    x: 0,
    y: 0,
    w: 40,
    h: 40,
    color: [0, 0, 0],
};

const POPUP: Layer = Layer {
    client: 2,
    x: -24,
    y: -24,
    w: 8,
    h: 8,
    color: [0, 0, 0],
};

/// The pointer enters the upper window at (45, 45), 13 points right and below its corner, and is
/// pressed and released there.
const ENTERED: &[Event] = &[Event::Enter(13, 2, 6, 3328, 3328)];

const PRESSED: &[Event] = &[Event::Button(13, 3, 2, 272, 1)];

const RELEASED: &[Event] = &[Event::Button(13, 5, 2, 272, 0)];

/// The same where nothing was asked for a popup, which is configured with the serial 4.
const RELEASED_ALONE: &[Event] = &[Event::Button(13, 4, 2, 272, 0)];

const COMMIT_14: Ask = Ask::Commit(14);

/// The surface 14 has the popup 17, which the positioner 16 places to the left and above, and which
/// grabs by the serial of the press.
pub(crate) const GRABS: &[Ask] = &[
    Ask::CreateSurface(3, 14),
    Ask::GetXdgSurface(5, 15, 14),
    Ask::CreatePositioner(5, 16),
    Ask::SetSize(16, 8, 8),
    Ask::SetAnchorRect(16, 0, 0, 1, 1),
    Ask::SetAnchor(16, 5),
    Ask::SetGravity(16, 8),
    Ask::SetOffset(16, -24, -24),
    Ask::GetPopup(15, 17, 7, 16),
    Ask::Grab(17, 12, 3),
    COMMIT_14,
];

const PLACED: &[Event] = &[
    Event::PopupConfigure(17, -24, -24, 8, 8),
    Event::Configure(15, 4),
];

/// It is mapped with the buffer 18.
pub(crate) const SHOWS_POPUP: &[Ask] = &[
    Ask::AckConfigure(15, 4),
    Ask::CreateBuffer(9, 18, 0, 8, 8, 32, 1),
    Ask::Attach(14, 18),
    COMMIT_14,
];

/// The pointer goes to (10, 10): from the upper window to its popup.
const GOES_OVER: &[Event] = &[Event::Leave(13, 6, 6), Event::Enter(13, 7, 14, 512, 512)];

/// It leaves the window there where that has no popup.
const LEFT_ALONE: &[Event] = &[Event::Leave(13, 5, 6)];

/// It enters a window at (0, 0) there.
const ENTERED_BELOW: &[Event] = &[Event::Enter(13, 2, 6, 2560, 2560)];

/// The window of the client 1 is shown.
pub(crate) const SHOWN: &[Act] = &[Act::Shows(&[PARENT])];

/// A window of the client 2 covers a part of it, and is pressed.
pub(crate) const RIVAL: &[Act] = &[
    Act::Sends(2, WIDE_BUFFERS),
    Act::Maps(2, MAPS_WIDE),
    Act::Sends(2, SEAT),
    Act::Told(2, CAPABLE),
    Act::Points(45, 45),
    Act::ToldAny(2, ENTERED, &[], &[]),
    Act::Presses(true),
    Act::ToldAny(2, PRESSED, &[], &[]),
];

/// It has a popup that grabs. Where the client 1 has ended, nothing is asked for a popup.
pub(crate) const RIVAL_GRABS: &[Act] = &[
    Act::SendsBeside(2, GRABS),
    Act::ToldAny(2, PLACED, &[], &[]),
    Act::SendsBeside(2, SHOWS_POPUP),
    Act::Silent(2),
];

/// Its client goes: then the pointer enters the other window. The window of the client 2 is at (0,
/// 0) if that of the client 1 was never mapped, and
/// else at (32, 32).
pub(crate) const RIVAL_GOES: &[Act] = &[
    Act::Presses(false),
    Act::ToldAny(2, RELEASED, RELEASED_ALONE, &[]),
    Act::Points(10, 10),
    Act::ToldAny(2, GOES_OVER, ENTERED_BELOW, LEFT_ALONE),
    Act::SilentBeside(1),
    Act::ShowsEither(&[PARENT, ABOVE, POPUP], &[PARENT, ABOVE]),
    Act::Goes(2),
    Act::Told(1, ENTERED_BELOW),
    Act::Shows(&[PARENT]),
    Act::Silent(1),
];
