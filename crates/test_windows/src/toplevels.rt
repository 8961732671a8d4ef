//! Surfaces and toplevels: what is told of them, their errors, and how long their buffers keep
//! stores.

use std::alloc::Global;
use test_rows::asks::Ask;
use test_rows::begun::{
    ACKNOWLEDGES, ATTACH_10, ATTACH_NONE, BUFFER_10, BUFFERS, COMMIT, CONFIGURED, CONFIGURES,
    GLOBALS, MADE, missed_after_map,
};
use test_rows::events::Event;
use test_rows::rows::{Case, Fault, REGISTRY, Row, first_missed_case, first_missed_row};
use wl_session::{Done, Fed, Step, Stored};

/// Another state is asked for: the toplevel is configured again. A serial that doesn't wait can't
/// be acknowledged.
const MAXIMIZES: &[Row] = &[
    Row::Sends(Ask::SetMaximized(8)),
    Row::Told(&[CONFIGURED, Event::Configure(7, 2)]),
    Row::Takes,
    Row::Errs(Ask::AckConfigure(7, 3), 7, 4),
    Row::ErrorTold(7, 4, b"invalid_serial"),
];

/// Neither minimizing nor a title, a size or a pong has an effect.
const WITHOUT_EFFECT: &[Row] = &[
    Row::Sends(Ask::SetMinimized(8)),
    Row::Sends(Ask::SetTitle(8)),
    Row::Sends(Ask::SetMaxSize(8, 1, 1)),
    Row::Sends(Ask::Pong(5, 7)),
    Row::Silent(1),
];

/// A buffer before the configure was acknowledged.
const UNCONFIGURED: &[Row] = &[
    Row::Sends(ATTACH_10),
    Row::Errs(COMMIT, 7, 3),
    Row::ErrorTold(7, 3, b"unconfigured_buffer"),
];

/// 64 configures wait to be acknowledged; the next is past the limit.
const CONFIGURE_65: &[Row] = &[
    Row::Changes(32, Ask::SetMaximized(8), Ask::UnsetMaximized(8)),
    Row::Takes,
    Row::Errs(Ask::SetMaximized(8), 1, 3),
    Row::ErrorTold(1, 3, b"implementation"),
];

/// A mapped toplevel is configured by each request to be maximized, with the serials 2 to 65; the
/// next is past the limit.
const MAXIMIZED_65: &[Row] = &[
    Row::Maximizes(2, 66),
    Row::Errs(Ask::SetMaximized(8), 1, 3),
    Row::ErrorTold(1, 3, b"implementation"),
];

/// A client has at most 256 surfaces.
const SURFACE_257: &[Row] = &[
    Row::MakesSurfaces(10, 266),
    Row::Errs(Ask::CreateSurface(3, 266), 1, 3),
    Row::ErrorTold(1, 3, b"implementation"),
];

/// Objects go in this order, and each gives its id back.
const GOES: &[Row] = &[
    Row::Sends(Ask::ToplevelDestroy(8)),
    Row::Sends(Ask::XdgSurfaceDestroy(7)),
    Row::Sends(Ask::SurfaceDestroy(6)),
    Row::Sends(Ask::WmBaseDestroy(5)),
    Row::Told(&[
        Event::DeleteId(8),
        Event::DeleteId(7),
        Event::DeleteId(6),
        Event::DeleteId(5),
    ]),
];

/// The pool 9 and the wl_buffers 10 and 11 go.
const WITHOUT_BUFFERS: &[Row] = &[
    Row::Sends(Ask::PoolDestroy(9)),
    Row::Sends(Ask::BufferDestroy(10)),
    Row::Sends(Ask::BufferDestroy(11)),
    Row::Takes,
];

/// The store stays while the buffer is pending or applied, and goes with the commit of none.
const STORE_STAYS_WHILE_SHOWN: &[Row] = &[
    Row::Store(1, 1, Some(12800)),
    Row::Calls(
        Step::Store {
            client: 1,
            store: 1,
            at: 0,
            bytes: &[0, 0, 255, 0],
        },
        Done::Store(Stored::Done),
    ),
    Row::Sends(ATTACH_NONE),
    Row::Store(1, 1, Some(12800)),
    Row::Sends(COMMIT),
    Row::Store(1, 1, None),
    Row::Calls(
        Step::Store {
            client: 1,
            store: 1,
            at: 0,
            bytes: &[0],
        },
        Done::Store(Stored::NoStore),
    ),
];

/// A buffer that was attached and not committed is pending until another is attached.
const STORE_STAYS_WHILE_PENDING: &[Row] = &[
    Row::Store(1, 1, Some(12800)),
    Row::Sends(ATTACH_NONE),
    Row::Store(1, 1, None),
];

/// The buffer stays the surface's though its wl_buffer went and another has the id: with that one
/// attached the first store goes.
const ID_USED_AGAIN: &[Row] = &[
    Row::Sends(Ask::CreatePool(4, 9, 6400)),
    Row::Sends(BUFFER_10),
    Row::Store(1, 1, Some(12800)),
    Row::Store(1, 2, Some(6400)),
    Row::Sends(ATTACH_10),
    Row::Store(1, 1, Some(12800)),
    Row::Sends(COMMIT),
    Row::Store(1, 1, None),
    Row::Store(1, 2, Some(6400)),
];

/// A surface that goes lets its buffers' stores go.
const STORE_GOES_WITH_ITS_SURFACE: &[Row] = &[
    Row::Sends(Ask::ToplevelDestroy(8)),
    Row::Sends(Ask::XdgSurfaceDestroy(7)),
    Row::Store(1, 1, Some(12800)),
    Row::Sends(Ask::SurfaceDestroy(6)),
    Row::Store(1, 1, None),
];

const MAPPED_CASES: &[Case] = &[
    ("at most 64 configures of a window wait", &[MAXIMIZED_65]),
    ("another state is answered with a configure", &[MAXIMIZES]),
    (
        "a store stays while its buffer is shown",
        &[WITHOUT_BUFFERS, STORE_STAYS_WHILE_SHOWN],
    ),
    (
        "a buffer is itself, not its id",
        &[WITHOUT_BUFFERS, ID_USED_AGAIN],
    ),
    (
        "a store goes with its surface",
        &[WITHOUT_BUFFERS, STORE_GOES_WITH_ITS_SURFACE],
    ),
];

#[test]
fn mapped_toplevels_are_as_worked(rt: HostRuntime) {
    assert_eq!(rt; missed_after_map(rt.alloc(), MAPPED_CASES), None);
}

const ACKNOWLEDGED_CASES: &[Case] = &[
    ("what has no effect is not answered", &[WITHOUT_EFFECT]),
    ("at most 64 configures wait", &[CONFIGURE_65]),
    ("objects go in order", &[GOES]),
];

const ACKNOWLEDGED: &[&[Row]] = &[REGISTRY, GLOBALS, MADE, CONFIGURES, ACKNOWLEDGES];

/// The first of the cases that isn't as wanted after the toplevel's configure was acknowledged, and
/// what wasn't.
fn missed_after_acknowledgement(alloc: Global, cases: &[Case]) -> Option<(usize, Fault)> {
    first_missed_case(alloc, ACKNOWLEDGED, cases)
}

#[test]
fn acknowledged_toplevels_are_as_worked(rt: HostRuntime) {
    assert_eq!(rt;
        missed_after_acknowledgement(rt.alloc(), ACKNOWLEDGED_CASES),
        None
    );
}

const CASES: &[Case] = &[
    (
        "a buffer waits for the configure",
        &[MADE, CONFIGURES, BUFFERS, UNCONFIGURED],
    ),
    ("a client has at most 256 surfaces", &[SURFACE_257]),
    (
        "a store stays while its buffer is pending",
        &[
            MADE,
            BUFFERS,
            &[Row::Sends(ATTACH_10)],
            WITHOUT_BUFFERS,
            STORE_STAYS_WHILE_PENDING,
        ],
    ),
];

/// The first of the cases that isn't as wanted after the globals were bound, and what wasn't.
fn missed_after_globals(alloc: Global, cases: &[Case]) -> Option<(usize, Fault)> {
    first_missed_case(alloc, &[REGISTRY, GLOBALS], cases)
}

#[test]
fn toplevels_are_as_worked(rt: HostRuntime) {
    assert_eq!(rt; missed_after_globals(rt.alloc(), CASES), None);
}

/// Each is an error of its own, of a toplevel whose configure was acknowledged.
const ERRORS: &[Row] = &[
    Row::Errs(Ask::SurfaceDestroy(6), 6, 4),
    Row::Errs(Ask::XdgSurfaceDestroy(7), 7, 6),
    Row::Errs(Ask::WmBaseDestroy(5), 5, 1),
    Row::Errs(Ask::SetBufferTransform(6, 8), 6, 1),
    Row::Errs(Ask::SetBufferTransform(6, -1), 6, 1),
    Row::Errs(Ask::GetToplevel(7, 20), 7, 2),
    Row::Errs(Ask::SetWindowGeometry(7, 0, 0, 0, 1), 7, 5),
    Row::Errs(Ask::AckConfigure(7, 1), 7, 4),
    Row::Errs(Ask::GetXdgSurface(5, 20, 6), 5, 0),
    // the id of a frame callback is in use
    Row::Errs(Ask::Frame(6, 6), 1, 0),
];

/// The first of the rows that isn't as wanted, each after the toplevel's configure was
/// acknowledged, and what wasn't.
fn missed_row(alloc: Global, rows: &[Row]) -> Option<(usize, Fault)> {
    first_missed_row(alloc, ACKNOWLEDGED, rows)
}

#[test]
fn requests_of_toplevels_are_refused(rt: HostRuntime) {
    assert_eq!(rt; missed_row(rt.alloc(), ERRORS), None);
}

/// An xdg_surface without a role object, and a surface that has a buffer.
const BARE_ERRORS: &[Row] = &[
    Row::Errs(Ask::AckConfigure(7, 1), 7, 1),
    Row::Errs(COMMIT, 7, 3),
    Row::Errs(Ask::GetXdgSurface(5, 20, 12), 5, 4),
];

/// The surface 6 with its xdg_surface 7, and the surface 12 with a buffer.
const BARE: &[Row] = &[
    Row::Sends(Ask::CreateSurface(3, 6)),
    Row::Sends(Ask::GetXdgSurface(5, 7, 6)),
    Row::Sends(ATTACH_10),
    Row::Sends(Ask::CreateSurface(3, 12)),
    Row::Sends(Ask::Attach(12, 11)),
];

/// The first of the rows that isn't as wanted, each after these surfaces were made, and what
/// wasn't.
fn missed_row_of_bare(alloc: Global, rows: &[Row]) -> Option<(usize, Fault)> {
    first_missed_row(alloc, &[REGISTRY, GLOBALS, BUFFERS, BARE], rows)
}

#[test]
fn an_xdg_surface_needs_its_toplevel(rt: HostRuntime) {
    assert_eq!(rt; missed_row_of_bare(rt.alloc(), BARE_ERRORS), None);
}
