//! The pointer rests where the windows of two clients overlap, and that of the client 2 comes or
//! goes. For the client 1 too much waits to be told so: it ends, and its window is to be painted
//! over. The client 2 is told what it should be.

use test_rows::asks::{Ask, Interface};
use test_rows::begun::{
    ATTACH_10, ATTACH_NONE, COMMIT, GREEN, MAPS, RED_10, SEATED, SECOND, missed_after_buffers,
};
use test_rows::events::Event;
use test_rows::rows::{Case, Pixel, Row};
use wl_session::{Cause, Done, Fed, Step};

/// The client 2 has the buffer 10 of 40 by 40 pixels, all green, and the wl_pointer 13 of the
/// wl_seat 12.
const READY: &[Row] = &[
    Row::From(2, Ask::CreateBuffer(9, 10, 0, 40, 40, 160, 1)),
    Row::Fills(2, 1, 0, 1600, GREEN),
    Row::From(2, Ask::Bind(2, 5, Interface::Seat, 1, 12)),
    Row::From(2, Ask::GetPointer(12, 13)),
    Row::TakesOf(2),
];

/// Its window is mapped at (32, 32), above that of the client 1.
const COVERS: &[Row] = &[
    Row::From(2, ATTACH_10),
    Row::From(2, Ask::Damage(6, 0, 0, 40, 40)),
    Row::From(2, COMMIT),
];

/// The pointer goes to where both windows are.
const COMES: &[Row] = &[Row::Calls(
    Step::Motion {
        time: 1,
        x: 36,
        y: 36,
    },
    Done::Motion,
)];

/// The surface 6 of the client 2 is entered at (4, 4), in 256ths of a pixel, and left.
const ENTERED: Event = Event::Enter(13, 2, 6, 1024, 1024);

const LEFT: Event = Event::Leave(13, 3, 6);

const RELEASED_10: Event = Event::Release(10);

const MAKES_REGION: Ask = Ask::CreateRegion(3, 16);

const DESTROYS_REGION: Ask = Ask::RegionDestroy(16);

/// With 1,048,572 bytes that wait for the client 1 there is no room for wl_pointer.leave, of 16.
const NOT_LEFT: &[Row] = &[
    Row::Shows(1600, 1600, &[Pixel(0, 0, 255, 0, 0)]),
    Row::Takes,
    Row::Changes(87_381, MAKES_REGION, DESTROYS_REGION),
    Row::Waiting(1_048_572),
];

/// Both windows are to be painted over, and that of the client 2 alone is seen.
const ONE_SEEN: &[Row] = &[
    Row::Is(1, Fed::Ended(Cause::Slow)),
    Row::Waiting(1_048_572),
    Row::Is(2, Fed::Alive),
    Row::ToldOf(2, &[ENTERED]),
    Row::Shows(
        2560,
        2560,
        &[
            Pixel(0, 0, 0, 0, 0),
            Pixel(31, 32, 0, 0, 0),
            Pixel(32, 32, 0, 255, 0),
            Pixel(63, 47, 0, 255, 0),
        ],
    ),
    Row::Shows(0, 0, &[Pixel(32, 32, 0, 255, 0)]),
];

/// With 1,048,560 bytes that wait for the client 1 there is no room for wl_pointer.enter, of 24.
const NOT_ENTERED: &[Row] = &[
    Row::ToldOf(2, &[ENTERED]),
    Row::Shows(
        2560,
        2560,
        &[Pixel(31, 32, 255, 0, 0), Pixel(32, 32, 0, 255, 0)],
    ),
    Row::Waiting(0),
    Row::Changes(87_380, MAKES_REGION, DESTROYS_REGION),
    Row::Waiting(1_048_560),
];

/// The window of the client 2 goes, and so does that of the client 1: nothing is seen.
const NONE_SEEN: &[Row] = &[
    Row::From(2, ATTACH_NONE),
    Row::From(2, COMMIT),
    Row::Is(1, Fed::Ended(Cause::Slow)),
    Row::Waiting(1_048_560),
    Row::Is(2, Fed::Alive),
    Row::ToldOf(2, &[RELEASED_10, LEFT]),
    Row::Shows(
        2560,
        2560,
        &[
            Pixel(0, 0, 0, 0, 0),
            Pixel(32, 32, 0, 0, 0),
            Pixel(63, 47, 0, 0, 0),
        ],
    ),
    Row::Paints(0, 0),
];

/// Each begins with a toplevel of the client 1 that can show the buffer 10.
const CASES: &[Case] = &[
    (
        "who can't be left",
        &[
            RED_10, MAPS, SEATED, SECOND, READY, COMES, NOT_LEFT, COVERS, ONE_SEEN,
        ],
    ),
    (
        "who can't be entered",
        &[
            RED_10,
            MAPS,
            SEATED,
            SECOND,
            READY,
            COVERS,
            COMES,
            NOT_ENTERED,
            NONE_SEEN,
        ],
    ),
];

#[test]
fn who_is_too_slow_for_anothers_window_ends(rt: HostRuntime) {
    assert_eq!(rt; missed_after_buffers(rt.alloc(), CASES), None);
}
