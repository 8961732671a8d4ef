//! wl_buffer.release: a buffer that no surface shows any more is told, while its wl_buffer is
//! there.

use test_rows::asks::Ask;
use test_rows::begun::{ATTACH_NONE, BUFFERS, COMMIT, CONFIGURES, GLOBALS, missed_after_map};
use test_rows::events::Event;
use test_rows::rows::{Case, Pixel, REGISTRY, Row, play};
use wl_session::{Cause, Done, Fed, Step};

/// wl_buffer.release of the buffer 10.
const RELEASED: Event = Event::Release(10);

/// wl_surface.attach of the buffer 11, 3 pixels to the right of where the toplevel was.
const ATTACH_11: Ask = Ask::AttachAt(6, 11, 3, 0);

/// Another buffer takes its place.
const REPLACED: &[Row] = &[
    Row::Sends(ATTACH_11),
    Row::Silent(1),
    Row::Sends(COMMIT),
    Row::Told(&[RELEASED]),
];

/// None takes its place.
const UNMAPPED: &[Row] = &[
    Row::Sends(ATTACH_NONE),
    Row::Silent(1),
    Row::Sends(COMMIT),
    Row::Told(&[RELEASED]),
];

/// Its wl_buffer is gone.
const GONE: &[Row] = &[
    Row::Sends(Ask::BufferDestroy(10)),
    Row::Told(&[Event::DeleteId(10)]),
    Row::Takes,
    Row::Sends(ATTACH_11),
    Row::Sends(COMMIT),
    Row::Silent(1),
];

/// The surface 14 shows it too: it is released when that one shows it no more.
const SHOWN_TWICE: &[Row] = &[
    Row::Sends(Ask::CreateSurface(3, 14)),
    Row::Sends(Ask::Attach(14, 10)),
    Row::Sends(Ask::Commit(14)),
    Row::Sends(ATTACH_11),
    Row::Sends(COMMIT),
    Row::Silent(1),
    Row::Sends(Ask::Attach(14, 0)),
    Row::Sends(Ask::Commit(14)),
    Row::Waits(1, Some(&[10, 0, 0, 0, 0, 0, 8, 0])),
];

/// The surface 14 showed it, and goes: its id is given back, and then it is released.
const SURFACE_GONE: &[Row] = &[
    Row::Sends(Ask::CreateSurface(3, 14)),
    Row::Sends(Ask::Attach(14, 10)),
    Row::Sends(Ask::Commit(14)),
    Row::Sends(Ask::SurfaceDestroy(14)),
    Row::Told(&[Event::DeleteId(14), RELEASED]),
];

/// A toplevel goes, and the next one of its surface is configured by a commit of no buffer: it is
/// released after that.
const CONFIGURED_AGAIN: &[Row] = &[
    Row::Calls(Step::Tick { time: 0 }, Done::Tick),
    Row::Sends(Ask::ToplevelDestroy(8)),
    Row::Takes,
    Row::Sends(Ask::GetToplevel(7, 12)),
    Row::Sends(ATTACH_NONE),
    Row::Silent(1),
    Row::Sends(COMMIT),
    Row::Told(&[
        Event::ToplevelConfigure(12, 0, 0),
        Event::Configure(7, 2),
        RELEASED,
    ]),
];

/// A client to which the release can't be told ends. The commit had moved the window by 3 pixels.
/// It is painted again where it was and where it was then, 43 by 40 points, and no more.
const TOO_SLOW: &[Row] = &[
    Row::Paints(1600, 1600),
    Row::Changes(87_381, Ask::CreateRegion(3, 16), Ask::RegionDestroy(16)),
    Row::Waiting(1_048_572),
    Row::Sends(ATTACH_11),
    Row::Calls(
        Step::Feed {
            client: 1,
            piece: &[6, 0, 0, 0, 6, 0, 8, 0],
        },
        Done::Feed(Fed::Ended(Cause::Slow)),
    ),
    Row::Shows(1720, 1720, &[Pixel(0, 0, 0, 0, 0), Pixel(42, 39, 0, 0, 0)]),
    Row::Paints(0, 0),
];

const CASES: &[Case] = &[
    ("another buffer takes its place", &[REPLACED]),
    ("none takes its place", &[UNMAPPED]),
    ("its wl_buffer is gone", &[GONE]),
    ("two surfaces show it", &[SHOWN_TWICE]),
    ("the next toplevel is configured", &[CONFIGURED_AGAIN]),
    ("the client is too slow", &[TOO_SLOW]),
];

#[test]
fn buffers_are_released(rt: HostRuntime) {
    assert_eq!(rt; missed_after_map(rt.alloc(), CASES), None);
}

#[test]
fn a_buffer_is_released_with_its_surface(rt: HostRuntime) {
    assert_eq!(rt;
        play(rt.alloc(), &[REGISTRY, GLOBALS, BUFFERS, SURFACE_GONE]),
        Ok(())
    );
}
