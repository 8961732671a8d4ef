//! Frames of windows: what they show, and which points are painted again.

use std::alloc::Global;
use test_rows::asks::{Ask, Interface, bytes_of};
use test_rows::begun::{
    ACKNOWLEDGES, ATTACH_NONE, BUFFERS, COMMIT, CONFIGURED, CONFIGURES, GLOBALS, GREEN, MADE, MAPS,
    RED, RED_10, SECOND, missed_after_buffers,
};
use test_rows::events::Event;
use test_rows::rows::{Case, Fault, Pixel, REGISTRY, Row, first_missed_case, is_pixel, play_after};
use wl_session::{Config, Done, Fed, Rgb, Run, Session, Shot, Step};

const WHITE: [u8; 4] = [255, 255, 255, 0];

const HALF_RED: [u8; 4] = [0, 0, 128, 128];

/// wl_surface.attach of the buffer 11.
const ATTACH_11: Ask = Ask::Attach(6, 11);

/// wl_buffer.release of the buffer 10, which is no longer shown.
const RELEASED_10: Event = Event::Release(10);

/// The window is there: 40 by 40 points at (0, 0), and black around it.
const SHOWS_RED: &[Row] = &[
    Row::Shows(
        1600,
        1600,
        &[
            Pixel(0, 0, 255, 0, 0),
            Pixel(39, 39, 255, 0, 0),
            Pixel(40, 0, 0, 0, 0),
            Pixel(0, 40, 0, 0, 0),
        ],
    ),
    Row::Shows(0, 0, &[Pixel(0, 0, 255, 0, 0)]),
];

/// The pool goes, and its store can be written to still: the buffers keep it.
const WITHOUT_POOL: &[Row] = &[
    Row::Sends(Ask::PoolDestroy(9)),
    Row::Told(&[Event::DeleteId(9)]),
    Row::Takes,
    Row::Fills(1, 1, 0, 1, RED),
];

const SHOWS_ONE_RED: &[Row] = &[Row::Shows(
    1600,
    1600,
    &[
        Pixel(0, 0, 255, 0, 0),
        Pixel(1, 0, 0, 0, 0),
        Pixel(0, 1, 0, 0, 0),
    ],
)];

/// What is written after the commit is seen in the next frame: a buffer isn't copied (wayland.xml,
/// wl_surface.attach).
const WRITTEN_AFTERWARDS: &[Row] = &[
    Row::Fills(1, 1, 0, 1600, GREEN),
    Row::Shows(
        1600,
        1600,
        &[Pixel(0, 0, 0, 255, 0), Pixel(39, 39, 0, 255, 0)],
    ),
];

/// A later write is seen where a commit tells of it.
const WRITTEN_LATER: &[Row] = &[
    Row::Fills(1, 1, 0, 1, GREEN),
    Row::Shows(0, 0, &[Pixel(0, 0, 255, 0, 0)]),
    Row::Sends(Ask::Damage(6, 0, 0, 1, 1)),
    Row::Sends(COMMIT),
    Row::Shows(1, 1, &[Pixel(0, 0, 0, 255, 0), Pixel(1, 0, 255, 0, 0)]),
];

/// wl_surface.damage of one pixel.
const ONE_PIXEL: Ask = Ask::Damage(6, 0, 0, 1, 1);

/// 1,024 rectangles count one by one, and one more means the whole surface.
const MANY_RECTANGLES: &[Row] = &[
    Row::Changes(512, ONE_PIXEL, ONE_PIXEL),
    Row::Sends(COMMIT),
    Row::Paints(1, 1),
    Row::Changes(512, ONE_PIXEL, ONE_PIXEL),
    Row::Sends(ONE_PIXEL),
    Row::Sends(COMMIT),
    Row::Paints(1600, 1600),
    Row::Sends(COMMIT),
    Row::Paints(0, 0),
];

/// Damage is cut to the surface, however far it reaches.
const BEYOND_THE_SURFACE: &[Row] = &[
    Row::Sends(Ask::Damage(6, -2147483648, 0, 2147483647, 2147483647)),
    Row::Sends(COMMIT),
    Row::Paints(0, 0),
    Row::Sends(Ask::Damage(6, 0, 0, 2147483647, 1)),
    Row::Sends(COMMIT),
    Row::Paints(40, 40),
    Row::Sends(Ask::Damage(6, -5, 38, 10, 10)),
    Row::Sends(COMMIT),
    Row::Paints(10, 10),
];

/// A window that is turned is painted again as a whole.
const TURNS: &[Row] = &[
    Row::Sends(Ask::SetBufferTransform(6, 1)),
    Row::Sends(COMMIT),
    Row::Paints(1600, 1600),
];

/// The client 2 damages two pixels of its window at (32, 32), of which one lies beyond the output,
/// and what a window hides is painted too.
const MOVED_TO_THE_CORNER: &[Row] = &[
    Row::From(2, Ask::Damage(6, 31, 3, 2, 1)),
    Row::From(2, COMMIT),
    Row::Paints(1, 1),
    Row::Sends(Ask::Damage(6, 31, 33, 3, 3)),
    Row::Sends(COMMIT),
    Row::Paints(9, 9),
];

/// The window moves 3 to the right: what it left is painted again, and where it is now.
const MOVES: &[Row] = &[
    Row::Fills(1, 1, 6400, 1600, GREEN),
    Row::Sends(Ask::AttachAt(6, 11, 3, 0)),
    Row::Sends(COMMIT),
    Row::Told(&[RELEASED_10]),
    Row::Takes,
    Row::Shows(
        1720,
        1720,
        &[
            Pixel(0, 0, 0, 0, 0),
            Pixel(2, 39, 0, 0, 0),
            Pixel(3, 0, 0, 255, 0),
            Pixel(42, 39, 0, 255, 0),
            Pixel(43, 0, 0, 0, 0),
        ],
    ),
];

/// Without a buffer the window isn't mapped. Mapped again it stands in the next place, at (32, 32).
const MAPPED_AGAIN: &[Row] = &[
    Row::Sends(ATTACH_NONE),
    Row::Sends(COMMIT),
    Row::Told(&[RELEASED_10]),
    Row::Takes,
    Row::Shows(1600, 1600, &[Pixel(0, 0, 0, 0, 0), Pixel(39, 39, 0, 0, 0)]),
    Row::Sends(COMMIT),
    Row::Told(&[CONFIGURED, Event::Configure(7, 2)]),
    Row::Takes,
    Row::Sends(Ask::AckConfigure(7, 2)),
    Row::Sends(Ask::Attach(6, 10)),
    Row::Sends(COMMIT),
    Row::Shows(
        1024,
        1024,
        &[
            Pixel(0, 0, 0, 0, 0),
            Pixel(31, 31, 0, 0, 0),
            Pixel(32, 32, 255, 0, 0),
            Pixel(63, 63, 255, 0, 0),
        ],
    ),
];

/// The toplevel goes, and its window with it.
const DESTROYED: &[Row] = &[
    Row::Sends(Ask::ToplevelDestroy(8)),
    Row::Shows(1600, 1600, &[Pixel(0, 0, 0, 0, 0), Pixel(39, 39, 0, 0, 0)]),
];

/// The client ends by an error, and its window goes: its points are painted again, and no more.
const ENDS: &[Row] = &[
    Row::Errs(Ask::AckConfigure(7, 9), 7, 4),
    Row::Shows(1600, 1600, &[Pixel(0, 0, 0, 0, 0), Pixel(39, 39, 0, 0, 0)]),
];

/// So it does where it goes by itself.
const GOES: &[Row] = &[
    Row::Calls(Step::Gone { client: 1 }, Done::Gone(true)),
    Row::Shows(1600, 1600, &[Pixel(0, 0, 0, 0, 0), Pixel(39, 39, 0, 0, 0)]),
];

/// The buffer 10 stays shown, though its wl_buffer went and another has its id.
const ID_USED_AGAIN: &[Row] = &[
    Row::Sends(Ask::BufferDestroy(10)),
    Row::Sends(Ask::CreateBuffer(9, 10, 6400, 40, 40, 160, 1)),
    Row::Fills(1, 1, 6400, 1600, GREEN),
    Row::Sends(COMMIT),
    Row::Shows(0, 0, &[Pixel(0, 0, 255, 0, 0), Pixel(39, 39, 255, 0, 0)]),
];

/// A buffer 10 of 40 by 40 pixels with alpha, half red, is mapped.
const SECOND_BUFFER: &[Row] = &[
    Row::From(2, Ask::CreateBuffer(9, 10, 0, 40, 40, 160, 0)),
    Row::Fills(2, 1, 0, 1600, HALF_RED),
    Row::From(2, Ask::Attach(6, 10)),
    Row::From(2, COMMIT),
    Row::Silent(2),
];

/// Half red over white, and over the background; the other window is as it was.
const SHOWS_BOTH: &[Row] = &[Row::Shows(
    1024,
    1024,
    &[
        Pixel(31, 31, 255, 255, 255),
        Pixel(32, 32, 255, 127, 127),
        Pixel(39, 39, 255, 127, 127),
        Pixel(40, 32, 128, 0, 0),
        Pixel(63, 63, 128, 0, 0),
    ],
)];

const WHITE_10: &[Row] = &[Row::Fills(1, 1, 0, 1600, WHITE)];

const SHOWS_WHITE: &[Row] = &[Row::Shows(1600, 1600, &[Pixel(39, 39, 255, 255, 255)])];

/// The client below commits again: its window is painted below the other.
const BELOW: &[Row] = &[
    Row::Sends(ATTACH_11),
    Row::Sends(Ask::Damage(6, 0, 0, 40, 40)),
    Row::Sends(COMMIT),
    Row::Shows(
        1600,
        1600,
        &[
            Pixel(31, 31, 0, 0, 0),
            Pixel(32, 32, 128, 0, 0),
            Pixel(40, 40, 128, 0, 0),
        ],
    ),
];

/// Nine points of the buffer 11 are red: 31 to 33 of the rows 33 to 35.
pub(crate) const NINE_RED: &[Row] = &[
    Row::Fills(1, 1, 11804, 3, RED),
    Row::Fills(1, 1, 11964, 3, RED),
    Row::Fills(1, 1, 12124, 3, RED),
];

pub(crate) const SHOWS_BLACK: &[Row] = &[Row::Shows(1600, 1600, &[Pixel(31, 33, 0, 0, 0)])];

/// The client 2 shows a green buffer 10 of 8 by 8 pixels, at (32, 32).
pub(crate) const GREEN_SQUARE: &[Row] = &[
    Row::From(2, Ask::CreateBuffer(9, 10, 0, 8, 8, 32, 1)),
    Row::Fills(2, 1, 0, 64, GREEN),
    Row::From(2, Ask::Attach(6, 10)),
    Row::From(2, Ask::Damage(6, 0, 0, 8, 8)),
    Row::From(2, COMMIT),
    Row::Shows(
        64,
        64,
        &[Pixel(32, 32, 0, 255, 0), Pixel(39, 39, 0, 255, 0)],
    ),
];

/// Nine points of the client 1's window change, the left three of them beside the window of the
/// client 2 and the others below it.
pub(crate) const CHANGES_NINE: &[Row] = &[
    Row::Sends(ATTACH_11),
    Row::Sends(Ask::Damage(6, 31, 33, 3, 3)),
    Row::Sends(COMMIT),
    Row::Told(&[RELEASED_10]),
];

/// What changed below another window is painted again, and shown where that one doesn't hide it.
pub(crate) const SHOWS_THREE_RED: &[Row] = &[Row::Shows(
    9,
    9,
    &[
        Pixel(31, 32, 0, 0, 0),
        Pixel(31, 33, 255, 0, 0),
        Pixel(31, 35, 255, 0, 0),
        Pixel(31, 36, 0, 0, 0),
        Pixel(32, 33, 0, 255, 0),
        Pixel(33, 35, 0, 255, 0),
        Pixel(39, 39, 0, 255, 0),
        Pixel(40, 33, 0, 0, 0),
    ],
)];

/// The client 2 shows a buffer 10 of 8 by 8 pixels of argb8888 that lets all through, at (32, 32).
/// Then a region that would call all of it opaque waits for a commit, which doesn't come.
const CLEAR_SQUARE: &[Row] = &[
    Row::From(2, Ask::CreateBuffer(9, 10, 0, 8, 8, 32, 0)),
    Row::From(2, Ask::Attach(6, 10)),
    Row::From(2, Ask::Damage(6, 0, 0, 8, 8)),
    Row::From(2, COMMIT),
    Row::Shows(64, 64, &[Pixel(32, 32, 0, 0, 0), Pixel(39, 39, 0, 0, 0)]),
    Row::From(2, Ask::CreateRegion(3, 14)),
    Row::From(2, Ask::RegionAdd(14, 0, 0, 8, 8)),
    Row::From(2, Ask::SetOpaqueRegion(6, 14)),
];

/// A window hides nothing by an opaque region that it has asked for and not committed.
const SHOWS_NINE_RED: &[Row] = &[Row::Shows(
    9,
    9,
    &[
        Pixel(31, 33, 255, 0, 0),
        Pixel(32, 33, 255, 0, 0),
        Pixel(33, 33, 255, 0, 0),
        Pixel(31, 34, 255, 0, 0),
        Pixel(32, 34, 255, 0, 0),
        Pixel(33, 34, 255, 0, 0),
        Pixel(31, 35, 255, 0, 0),
        Pixel(32, 35, 255, 0, 0),
        Pixel(33, 35, 255, 0, 0),
        Pixel(34, 35, 0, 0, 0),
    ],
)];

/// The client 1 ends: its window goes, and that of the client 2 stays, which is told nothing.
const OTHER_STAYS: &[Row] = &[
    Row::Errs(Ask::AckConfigure(7, 9), 7, 4),
    Row::Is(2, Fed::Alive),
    Row::Silent(2),
    Row::Shows(
        1600,
        1600,
        &[
            Pixel(31, 31, 0, 0, 0),
            Pixel(32, 32, 128, 0, 0),
            Pixel(63, 63, 128, 0, 0),
        ],
    ),
];

/// A client whose buffer comes before its configure was acknowledged ends; the window of the other
/// stays.
const UNCONFIGURED: &[Row] = &[
    Row::Sends(Ask::Attach(6, 10)),
    Row::Errs(COMMIT, 7, 3),
    Row::Is(2, Fed::Alive),
    Row::Silent(2),
    Row::Shows(0, 0, &[Pixel(0, 0, 128, 0, 0), Pixel(39, 39, 128, 0, 0)]),
];

const SHOWS_SECOND_ALONE: &[Row] = &[Row::Shows(
    1600,
    1600,
    &[Pixel(0, 0, 128, 0, 0), Pixel(40, 40, 0, 0, 0)],
)];

const CASES: &[Case] = &[
    (
        "a window shows what its store has",
        &[WITHOUT_POOL, MAPS, SHOWS_ONE_RED],
    ),
    (
        "a buffer is not copied at its commit",
        &[RED_10, MAPS, WRITTEN_AFTERWARDS],
    ),
    (
        "a change below another window is painted",
        &[
            NINE_RED,
            MAPS,
            SHOWS_BLACK,
            SECOND,
            GREEN_SQUARE,
            CHANGES_NINE,
            SHOWS_THREE_RED,
        ],
    ),
    (
        "an opaque region that waits for its commit hides nothing",
        &[
            NINE_RED,
            MAPS,
            SHOWS_BLACK,
            SECOND,
            CLEAR_SQUARE,
            CHANGES_NINE,
            SHOWS_NINE_RED,
        ],
    ),
];

#[test]
fn frames_are_as_worked(rt: HostRuntime) {
    assert_eq!(rt; missed_after_buffers(rt.alloc(), CASES), None);
}

/// A window that is all red, and a clean tick after its frame.
const SHOWN: &[&[Row]] = &[
    REGISTRY,
    GLOBALS,
    MADE,
    CONFIGURES,
    ACKNOWLEDGES,
    BUFFERS,
    RED_10,
    MAPS,
    SHOWS_RED,
];

const SHOWN_CASES: &[Case] = &[
    ("a clean tick paints nothing", &[]),
    (
        "a later write is seen where a commit tells of it",
        &[WRITTEN_LATER],
    ),
    (
        "1,025 rectangles of damage mean the whole surface",
        &[MANY_RECTANGLES],
    ),
    ("damage is cut to the surface", &[BEYOND_THE_SURFACE]),
    ("a window that is turned is painted as a whole", &[TURNS]),
    ("a window that moves leaves its old place", &[MOVES]),
    (
        "a window that is mapped again takes the next place",
        &[MAPPED_AGAIN],
    ),
    ("a toplevel takes its window with it", &[DESTROYED]),
    ("an error takes the window", &[ENDS]),
    ("a client that goes takes its window", &[GOES]),
    (
        "a buffer stays shown though its id is used again",
        &[ID_USED_AGAIN],
    ),
];

/// The first of the cases that isn't as wanted after the window was shown, and what wasn't.
fn missed_after_frame(alloc: Global, cases: &[Case]) -> Option<(usize, Fault)> {
    first_missed_case(alloc, SHOWN, cases)
}

#[test]
fn frames_of_a_shown_window(rt: HostRuntime) {
    assert_eq!(rt; missed_after_frame(rt.alloc(), SHOWN_CASES), None);
}

/// The white window of the client 1, and above it one of the client 2 that is half red.
const TWO: &[&[Row]] = &[
    REGISTRY,
    GLOBALS,
    MADE,
    CONFIGURES,
    ACKNOWLEDGES,
    BUFFERS,
    WHITE_10,
    MAPS,
    SHOWS_WHITE,
    SECOND,
    SECOND_BUFFER,
    SHOWS_BOTH,
];

const TWO_CASES: &[Case] = &[
    ("a commit below the other window", &[BELOW]),
    ("both windows are damaged", &[MOVED_TO_THE_CORNER]),
    ("the client below ends", &[OTHER_STAYS]),
];

/// The first of the cases that isn't as wanted after both windows were shown, and what wasn't.
fn missed_after_two(alloc: Global, cases: &[Case]) -> Option<(usize, Fault)> {
    first_missed_case(alloc, TWO, cases)
}

#[test]
fn windows_of_two_clients(rt: HostRuntime) {
    assert_eq!(rt; missed_after_two(rt.alloc(), TWO_CASES), None);
}

/// The parts of a session before the client 2 has the only window.
const SECOND_ALONE: &[&[Row]] = &[REGISTRY, GLOBALS, MADE, CONFIGURES, BUFFERS];

/// Plays the parts after those.
fn play_alone(alloc: Global, parts: &[&[Row]]) -> Result<(), Fault> {
    play_after(alloc, SECOND_ALONE, parts)
}

#[test]
fn a_window_of_the_second_client_alone(rt: HostRuntime) {
    let parts: &[&[Row]] = &[SECOND, SECOND_BUFFER, SHOWS_SECOND_ALONE, UNCONFIGURED];
    assert_eq!(rt; play_alone(rt.alloc(), parts), Ok(()));
}

/// Four pixels by three.
const SMALL: Config = Config {
    width: 4,
    height: 3,
    background: Rgb { r: 0, g: 0, b: 9 },
};

/// A client with a window of 2 by 2 points at (0, 0), up to its configure.
const UP_TO_CONFIGURE: &[Ask] = &[
    Ask::GetRegistry(2),
    Ask::Bind(2, 1, Interface::Compositor, 2, 3),
    Ask::Bind(2, 3, Interface::Shm, 1, 4),
    Ask::Bind(2, 6, Interface::WmBase, 1, 5),
    Ask::CreateSurface(3, 6),
    Ask::GetXdgSurface(5, 7, 6),
    Ask::GetToplevel(7, 8),
    COMMIT,
    Ask::AckConfigure(7, 1),
    Ask::CreatePool(4, 9, 16),
    Ask::CreateBuffer(9, 10, 0, 2, 2, 8, 1),
    Ask::Attach(6, 10),
    COMMIT,
];

/// The runs of the window.
const OF_THE_WINDOW: &[Run] = &[Run { x: 0, y: 0, w: 2 }, Run { x: 0, y: 1, w: 2 }];

/// The runs of the window, and of nothing.
fn are_runs(shots: &[Shot<Global>]) -> bool {
    match shots {
        [first, second] => first.runs.as_slice() == OF_THE_WINDOW && second.runs.is_empty(),
        _ => false,
    }
}

/// The first pixel of the window is red, its others black, and the background is around it; the
/// second frame is the same.
fn are_images(shots: &[Shot<Global>]) -> bool {
    let wanted = &[
        Pixel(0, 0, 255, 0, 0),
        Pixel(1, 0, 0, 0, 0),
        Pixel(0, 1, 0, 0, 0),
        Pixel(2, 0, 0, 0, 9),
        Pixel(0, 2, 0, 0, 9),
        Pixel(3, 2, 0, 0, 9),
    ];
    shots.len() == 2
        && wanted
            .iter()
            .all(|pixel| is_pixel(&shots[0].pixels, 4, pixel))
        && shots[1].pixels.as_slice() == shots[0].pixels.as_slice()
}

fn runs_in(session: &mut Session<Global>, piece: &[u8]) -> bool {
    let steps = [
        Step::Connect,
        Step::Feed { client: 1, piece },
        Step::Store {
            client: 1,
            store: 1,
            at: 0,
            bytes: &RED,
        },
        Step::Tick { time: 5 },
        Step::Tick { time: 6 },
    ];
    match session.run(&steps) {
        Ok(shots) => are_runs(&shots) && are_images(&shots),
        Err(_) => false,
    }
}

fn runs(alloc: Global) -> bool {
    match (Session::new(alloc, SMALL), bytes_of(alloc, UP_TO_CONFIGURE)) {
        (Ok(mut session), Some(piece)) => runs_in(&mut session, &piece),
        _ => false,
    }
}

#[test]
fn a_run_copies_the_frames_of_windows(rt: HostRuntime) {
    assert!(rt; runs(rt.alloc()));
}
