//! The pointer over a window (wayland.xml, wl_pointer): what its client is told; and who can't be
//! told that it is entered ends, and its window
//! goes.

use test_rows::asks::Ask;
use test_rows::begun::{MAPS, RED_10, SEATED, missed_after_buffers};
use test_rows::events::Event;
use test_rows::rows::{Case, Pixel, Row};
use wl_session::{Cause, Done, Fed, Step};

/// The pointer goes to (5, 5), over the window.
pub(crate) const COMES: Row = Row::Calls(
    Step::Motion {
        time: 10,
        x: 5,
        y: 5,
    },
    Done::Motion,
);

/// The surface 6 is entered there, in 256ths of a pixel.
pub(crate) const ENTERED: Event = Event::Enter(13, 2, 6, 1280, 1280);

/// It is entered, moved over and left, by `step` too.
const HOVERED: &[Row] = &[
    COMES,
    Row::Told(&[ENTERED]),
    Row::Takes,
    Row::Steps(
        Step::Motion {
            time: 7,
            x: 5,
            y: 0,
        },
        Done::Motion,
    ),
    Row::Told(&[Event::Motion(13, 7, 1280, 0)]),
    Row::Takes,
    Row::Steps(
        Step::Motion {
            time: 8,
            x: 60,
            y: 0,
        },
        Done::Motion,
    ),
    Row::Told(&[Event::Leave(13, 3, 6)]),
    Row::Takes,
    Row::Steps(
        Step::Motion {
            time: 9,
            x: 61,
            y: 0,
        },
        Done::Motion,
    ),
    Row::Silent(1),
    Row::Shows(1600, 1600, &[Pixel(0, 0, 255, 0, 0)]),
    Row::Shows(0, 0, &[Pixel(0, 0, 255, 0, 0)]),
];

/// A client without wl_pointer is told nothing, and its next configure has the serial 2.
const WITHOUT: &[Row] = &[
    COMES,
    Row::Silent(1),
    Row::Sends(Ask::SetMaximized(8)),
    Row::Told(&[Event::ToplevelConfigure(8, 0, 0), Event::Configure(7, 2)]),
];

/// With 1,048,560 bytes that wait there is no room for wl_pointer.enter, of 24. Its window is to be
/// painted over.
const TOO_SLOW: &[Row] = &[
    Row::Shows(1600, 1600, &[Pixel(0, 0, 255, 0, 0)]),
    Row::Changes(87_380, Ask::CreateRegion(3, 16), Ask::RegionDestroy(16)),
    Row::Waiting(1_048_560),
    COMES,
    Row::Is(1, Fed::Ended(Cause::Slow)),
    Row::Waiting(1_048_560),
    Row::Shows(1600, 1600, &[Pixel(0, 0, 0, 0, 0)]),
    Row::Shows(0, 0, &[Pixel(0, 0, 0, 0, 0)]),
];

/// Each begins with a toplevel that can show the buffer 10, all red.
const CASES: &[Case] = &[
    ("over a window", &[RED_10, MAPS, SEATED, HOVERED]),
    ("without wl_pointer", &[RED_10, MAPS, WITHOUT]),
    ("who is too slow", &[RED_10, MAPS, SEATED, TOO_SLOW]),
];

#[test]
fn the_pointer_is_told_of_windows(rt: HostRuntime) {
    assert_eq!(rt; missed_after_buffers(rt.alloc(), CASES), None);
}
