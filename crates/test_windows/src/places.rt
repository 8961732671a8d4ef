//! Windows far away, and what a client spoils that draws into what it shows.

use crate::frames::{GREEN_SQUARE, NINE_RED, SHOWS_BLACK};
use test_rows::asks::Ask;
use test_rows::begun::{COMMIT, MAPS, RED, RED_10, SECOND, missed_after_buffers};
use test_rows::events::Event;
use test_rows::rows::{Case, Pixel, Row, Span};

/// wl_surface.attach of the buffer 11 as far to the right as can be said, and of the buffer 10 as
/// far to the left as a place goes.
const FAR_RIGHT: Ask = Ask::AttachAt(6, 11, 2147483647, 0);

const FAR_LEFT: Ask = Ask::AttachAt(6, 10, -16777216, 0);

/// An offset is held within 16,777,216: the window is away, and as far to the left again it stands
/// where it was.
const HELD_PLACES: &[Row] = &[
    Row::Shows(1600, 1600, &[Pixel(0, 0, 255, 0, 0)]),
    Row::Sends(FAR_RIGHT),
    Row::Sends(COMMIT),
    Row::Told(&[Event::Release(10)]),
    Row::Takes,
    Row::Shows(
        1600,
        1600,
        &[
            Pixel(0, 0, 0, 0, 0),
            Pixel(39, 39, 0, 0, 0),
            Pixel(63, 47, 0, 0, 0),
        ],
    ),
    Row::Sends(FAR_LEFT),
    Row::Sends(COMMIT),
    Row::Told(&[Event::Release(11)]),
    Row::Takes,
    Row::Shows(
        1600,
        1600,
        &[
            Pixel(0, 0, 255, 0, 0),
            Pixel(39, 39, 255, 0, 0),
            Pixel(40, 0, 0, 0, 0),
            Pixel(0, 40, 0, 0, 0),
        ],
    ),
];

/// The client 2 draws into the buffer that its window of 8 by 8 points at (32, 32) shows, and tells
/// of no damage.
const SPOILED: &[Row] = &[Row::Spoils(2, 0, RED, Span { from: 32, past: 40 })];

/// Each begins with a toplevel and its buffers.
const CASES: &[Case] = &[
    ("places are held", &[RED_10, MAPS, HELD_PLACES]),
    (
        "a client spoils nothing but its own window",
        &[NINE_RED, MAPS, SHOWS_BLACK, SECOND, GREEN_SQUARE, SPOILED],
    ),
];

#[test]
fn places_are_held_and_others_kept(rt: HostRuntime) {
    assert_eq!(rt; missed_after_buffers(rt.alloc(), CASES), None);
}
