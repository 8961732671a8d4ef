//! wl_surface.frame: after a frame a client is told that those of its callbacks are done whose
//! requests a commit applied.

use test_rows::asks::Ask;
use test_rows::begun::{ATTACH_NONE, COMMIT, MAPS, RED_10, missed_after_buffers};
use test_rows::events::Event;
use test_rows::rows::{Case, Pixel, Row};
use wl_session::{Cause, Done, Fed, Step};

/// A frame at the time 7, in milliseconds.
const TICK_7: Row = Row::Calls(Step::Tick { time: 7 }, Done::Tick);

/// wl_surface.frame of the surface 6, with the new callback 14.
const ASKS_14: Ask = Ask::Frame(6, 14);

/// wl_callback.done at the time 7, and the id is given back.
const DONE_14: Event = Event::Done(14, 7);

const FREED_14: Event = Event::DeleteId(14);

/// Another surface, which has no role.
const MAKES_15: Ask = Ask::CreateSurface(3, 15);

const COMMITS_15: Ask = Ask::Commit(15);

/// It is told after the frame that follows the commit, and once. Then its id is free.
const ANSWERED: &[Row] = &[
    Row::Sends(ASKS_14),
    Row::Sends(COMMIT),
    Row::Silent(1),
    TICK_7,
    Row::Told(&[DONE_14, FREED_14]),
    Row::Takes,
    TICK_7,
    Row::Silent(1),
    Row::Sends(ASKS_14),
];

/// What no commit applied waits for one.
const NOT_APPLIED: &[Row] = &[
    Row::Sends(ASKS_14),
    TICK_7,
    Row::Silent(1),
    Row::Sends(COMMIT),
    Row::Silent(1),
    TICK_7,
    Row::Told(&[DONE_14, FREED_14]),
];

/// They come in the order of the requests, of whichever surface, and whether it is shown or not.
const IN_ORDER: &[Row] = &[
    Row::Sends(MAKES_15),
    Row::Sends(Ask::Frame(6, 20)),
    Row::Sends(Ask::Frame(15, 19)),
    Row::Sends(Ask::Frame(6, 18)),
    Row::Sends(COMMITS_15),
    Row::Sends(COMMIT),
    TICK_7,
    Row::Told(&[
        Event::Done(20, 7),
        Event::DeleteId(20),
        Event::Done(19, 7),
        Event::DeleteId(19),
        Event::Done(18, 7),
        Event::DeleteId(18),
    ]),
];

/// A commit applies the requests of its own surface.
const OF_ONE_SURFACE: &[Row] = &[
    Row::Sends(MAKES_15),
    Row::Sends(Ask::Frame(15, 16)),
    Row::Sends(ASKS_14),
    Row::Sends(COMMIT),
    TICK_7,
    Row::Told(&[DONE_14, FREED_14]),
    Row::Takes,
    Row::Sends(COMMITS_15),
    TICK_7,
    Row::Told(&[Event::Done(16, 7), Event::DeleteId(16)]),
];

/// Those of a surface that goes go with it: their ids are given back after its own, in the order of
/// their requests.
const SURFACE_GONE: &[Row] = &[
    Row::Sends(MAKES_15),
    Row::Sends(Ask::Frame(15, 17)),
    Row::Sends(COMMITS_15),
    Row::Sends(Ask::Frame(15, 16)),
    Row::Sends(ASKS_14),
    Row::Sends(COMMIT),
    Row::Sends(Ask::SurfaceDestroy(15)),
    Row::Told(&[
        Event::DeleteId(15),
        Event::DeleteId(17),
        Event::DeleteId(16),
    ]),
    Row::Takes,
    TICK_7,
    Row::Told(&[DONE_14, FREED_14]),
];

/// The commit that unmaps a window applies them too; its answer, the release of the buffer, comes
/// before.
const UNMAPPED: &[Row] = &[
    Row::Sends(ASKS_14),
    Row::Sends(ATTACH_NONE),
    Row::Sends(COMMIT),
    Row::Told(&[Event::Release(10)]),
    Row::Takes,
    TICK_7,
    Row::Told(&[DONE_14, FREED_14]),
];

/// A client to which it can't be told any more ends: regions that came and went left room for
/// wl_callback.done, and none for
/// wl_display.delete_id. Its window is in that frame, and not in the next, which paints the points
/// that it had, and no more.
const TOO_SLOW: &[Row] = &[
    Row::Sends(ASKS_14),
    Row::Sends(COMMIT),
    Row::Changes(87_380, Ask::CreateRegion(3, 16), Ask::RegionDestroy(16)),
    Row::Waiting(1_048_560),
    Row::Is(1, Fed::Alive),
    Row::Shows(1600, 1600, &[Pixel(0, 0, 255, 0, 0)]),
    Row::Is(1, Fed::Ended(Cause::Slow)),
    Row::Waiting(1_048_572),
    Row::Shows(1600, 1600, &[Pixel(0, 0, 0, 0, 0)]),
    Row::Shows(0, 0, &[Pixel(0, 0, 0, 0, 0)]),
];

/// Each begins with a toplevel that shows the buffer 10, all red.
const CASES: &[Case] = &[
    ("a commit and a frame answer it", &[RED_10, MAPS, ANSWERED]),
    ("no commit applied it", &[RED_10, MAPS, NOT_APPLIED]),
    ("in the order of the requests", &[RED_10, MAPS, IN_ORDER]),
    ("another surface commits", &[RED_10, MAPS, OF_ONE_SURFACE]),
    ("its surface goes", &[RED_10, MAPS, SURFACE_GONE]),
    ("its window is unmapped", &[RED_10, MAPS, UNMAPPED]),
    ("the client is too slow", &[RED_10, MAPS, TOO_SLOW]),
];

#[test]
fn callbacks_are_answered(rt: HostRuntime) {
    assert_eq!(rt; missed_after_buffers(rt.alloc(), CASES), None);
}
