//! The pointer rests where the windows of two clients overlap. What one of them sends brings its
//! own on top or takes it away. Who can't be told so ends, and the other lives on.

use crate::acts::{Act, Layer};
use crate::menus::{CAPABLE, SEAT};
use crate::recorded::{MAPS_WIDE, PARENT, WIDE_BUFFERS};
use test_rows::asks::Ask;
use test_rows::begun::{ATTACH_NONE, COMMIT};
use test_rows::events::Event;

/// wl_display.sync with the new callback 14, by turns: so many that another event takes memory
/// where they wait.
const SYNC: Ask = Ask::Sync(14);

const SYNCS: &[Ask] = &[
    SYNC, SYNC, SYNC, SYNC, SYNC, SYNC, SYNC, SYNC, SYNC, SYNC, SYNC, SYNC, SYNC, SYNC, SYNC, SYNC,
    SYNC, SYNC, SYNC, SYNC, SYNC,
];

/// What answers seven of them.
const SEVEN: &[Event] = &[
    CALLED, GIVEN_BACK, CALLED, GIVEN_BACK, CALLED, GIVEN_BACK, CALLED, GIVEN_BACK, CALLED,
    GIVEN_BACK, CALLED, GIVEN_BACK, CALLED, GIVEN_BACK,
];

const CALLED: Event = Event::Done(14, 0);

const GIVEN_BACK: Event = Event::DeleteId(14);

const UNMAPS: &[Ask] = &[ATTACH_NONE, COMMIT];

/// The window of the client 2, which is black.
const ABOVE: Layer = Layer {
    client: 2,
    x: 0,
    y: 0,
    w: 40,
    h: 40,
    color: [0, 0, 0],
};

/// The pointer enters the surface 6 with the serial 2 at (36, 36), or at (4, 4).
const ENTERED: Event = Event::Enter(13, 2, 6, 9216, 9216);

const ENTERED_ABOVE: Event = Event::Enter(13, 2, 6, 1024, 1024);

/// It is left with the serial 3, and entered again at (36, 36).
const LEFT: Event = Event::Leave(13, 3, 6);

const ENTERED_AGAIN: Event = Event::Enter(13, 4, 6, 9216, 9216);

const RELEASED_10: Event = Event::Release(10);

/// The pointer rests over the window of the client 1, for which much waits.
pub(crate) const RESTING: &[Act] = &[
    Act::Points(36, 36),
    Act::Told(1, &[ENTERED]),
    Act::Sends(1, SYNCS),
    Act::Shows(&[PARENT]),
];

/// The client 2 has buffers and a wl_pointer, and its window is mapped above that of the client 1.
pub(crate) const READY: &[Act] = &[
    Act::Sends(2, WIDE_BUFFERS),
    Act::Sends(2, SEAT),
    Act::Told(2, CAPABLE),
    Act::Maps(2, MAPS_WIDE),
];

/// The client 1 is left, and the client 2 is entered. Where that one isn't mapped the client 1
/// isn't left, and where it can't be told it is entered
/// again. Where the client 1 was never mapped, the window of the client 2 is at the corner.
pub(crate) const LEFT_BELOW: &[Act] = &[
    Act::Told(1, SEVEN),
    Act::Told(1, SEVEN),
    Act::Told(1, SEVEN),
    Act::ToldAny(1, &[LEFT], &[], &[LEFT, ENTERED_AGAIN]),
    Act::ToldAny(2, &[ENTERED_ABOVE], &[ENTERED_ABOVE], &[ENTERED]),
    Act::Shows(&[PARENT, ABOVE]),
    Act::Silent(1),
    Act::Silent(2),
];

/// Much waits for the client 1, whose window is shown.
pub(crate) const WAITING: &[Act] = &[Act::Sends(1, SYNCS), Act::Shows(&[PARENT])];

/// The window of the client 2 is unmapped below the pointer. The client 2 is left, and the client 1
/// is entered.
pub(crate) const ENTERED_ANEW: &[Act] = &[
    Act::Points(36, 36),
    Act::ToldAny(2, &[ENTERED_ABOVE], &[ENTERED_ABOVE], &[ENTERED]),
    Act::Shows(&[PARENT, ABOVE]),
    Act::Sends(2, UNMAPS),
    Act::Told(2, &[RELEASED_10, LEFT]),
    Act::Told(1, SEVEN),
    Act::Told(1, SEVEN),
    Act::Told(1, SEVEN),
    Act::Told(1, &[ENTERED]),
    Act::Shows(&[PARENT]),
    Act::Silent(1),
    Act::Silent(2),
];
