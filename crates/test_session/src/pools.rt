//! Pools, buffers and the stores behind them.

use std::alloc::Global;
use test_rows::asks::Ask;
use test_rows::begun::{BUFFER_10, BUFFER_11, BUFFERS, POOL_12800, SHM};
use test_rows::events::Event;
use test_rows::rows::{Case, Fault, REGISTRY, Row, first_missed_case};
use wl_session::{Cause, Done, Fed, Step, Stored};

const POOL_12799: Ask = Ask::CreatePool(4, 9, 12799);

const POOL_6399: Ask = Ask::CreatePool(4, 9, 6399);

const STORED: &[Row] = &[
    Row::Silent(1),
    Row::Store(1, 1, Some(12800)),
    Row::Calls(
        Step::Store {
            client: 1,
            store: 1,
            at: 12799,
            bytes: &[0],
        },
        Done::Store(Stored::Done),
    ),
    Row::Calls(
        Step::Store {
            client: 1,
            store: 1,
            at: 12800,
            bytes: &[0],
        },
        Done::Store(Stored::OutOfRange),
    ),
    Row::Calls(
        Step::Store {
            client: 1,
            store: 1,
            at: 4294967295,
            bytes: &[0, 0],
        },
        Done::Store(Stored::OutOfRange),
    ),
    Row::Calls(
        Step::Store {
            client: 1,
            store: 2,
            at: 0,
            bytes: &[0],
        },
        Done::Store(Stored::NoStore),
    ),
    Row::Calls(
        Step::Store {
            client: 2,
            store: 1,
            at: 0,
            bytes: &[0],
        },
        Done::Store(Stored::NoClient),
    ),
    Row::Store(1, 2, None),
    Row::Store(2, 1, None),
];

const STEPS: &[Row] = &[
    Row::Steps(
        Step::Store {
            client: 1,
            store: 1,
            at: 0,
            bytes: &[1, 2, 3],
        },
        Done::Store(Stored::Done),
    ),
    Row::Steps(
        Step::Store {
            client: 1,
            store: 1,
            at: 12798,
            bytes: &[1, 2, 3],
        },
        Done::Store(Stored::OutOfRange),
    ),
];

const ENDED: &[Row] = &[
    Row::Calls(Step::Gone { client: 1 }, Done::Gone(true)),
    Row::Calls(
        Step::Store {
            client: 1,
            store: 1,
            at: 0,
            bytes: &[0],
        },
        Done::Store(Stored::NoClient),
    ),
    Row::Store(1, 1, None),
];

const DESTROYED: &[Row] = &[
    Row::Takes,
    Row::Sends(Ask::BufferDestroy(10)),
    Row::Told(&[Event::DeleteId(10)]),
];

const LIVES: &[Row] = &[
    Row::Takes,
    Row::Sends(Ask::PoolDestroy(9)),
    Row::Told(&[Event::DeleteId(9)]),
    Row::Calls(
        Step::Store {
            client: 1,
            store: 1,
            at: 0,
            bytes: &[0, 0, 255, 0],
        },
        Done::Store(Stored::Done),
    ),
    Row::Takes,
    Row::Sends(Ask::BufferDestroy(10)),
    Row::Store(1, 1, Some(12800)),
    Row::Takes,
    Row::Sends(Ask::BufferDestroy(11)),
    Row::Store(1, 1, None),
];

const SECOND_STORE: &[Row] = &[
    Row::Sends(Ask::CreatePool(4, 12, 7)),
    Row::Store(1, 2, Some(7)),
];

const RESIZED: &[Row] = &[
    Row::Sends(Ask::PoolResize(9, 12800)),
    Row::Sends(Ask::PoolResize(9, 12801)),
    Row::Store(1, 1, Some(12801)),
    Row::Takes,
    Row::Errs(Ask::PoolResize(9, 12800), 9, 2),
    Row::ErrorTold(9, 2, b"invalid_fd"),
];

const NO_BYTES: &[Row] = &[
    Row::Errs(Ask::CreatePool(4, 9, 0), 4, 1),
    Row::ErrorTold(4, 1, b"invalid_stride"),
];

const TOO_MANY_BYTES: &[Row] = &[
    Row::Errs(Ask::CreatePool(4, 9, 268435457), 1, 3),
    Row::ErrorTold(1, 3, b"implementation"),
];

const STORE_65: &[Row] = &[
    Row::MakesPools(5, 69),
    Row::Errs(Ask::CreatePool(4, 69, 0), 1, 3),
];

const WITHIN: &[Row] = &[
    Row::Sends(POOL_12800),
    Row::Sends(BUFFER_11),
    Row::Is(1, Fed::Alive),
];

const PAST: &[Row] = &[
    Row::Sends(POOL_12799),
    Row::Errs(BUFFER_11, 9, 1),
    Row::Is(1, Fed::Ended(Cause::Protocol { object: 9, code: 1 })),
];

const SHORT: &[Row] = &[
    Row::Sends(POOL_6399),
    Row::Errs(BUFFER_10, 9, 1),
    Row::Is(1, Fed::Ended(Cause::Protocol { object: 9, code: 1 })),
    Row::ErrorTold(9, 1, b"invalid_stride"),
];

const BAD_FORMAT: &[Row] = &[
    Row::Sends(POOL_6399),
    Row::Errs(Ask::CreateBuffer(9, 10, 0, 40, 40, 160, 2), 9, 0),
    Row::Is(1, Fed::Ended(Cause::Protocol { object: 9, code: 0 })),
    Row::ErrorTold(9, 0, b"invalid_format"),
];

const CASES: &[Case] = &[
    ("bytes lie in their store", &[STORED]),
    ("a step stores as its call", &[STEPS]),
    ("an ended client has no stores", &[ENDED]),
    ("a destroyed buffer gives its id back", &[DESTROYED]),
    ("a store lives while its pool or a buffer does", &[LIVES]),
    ("stores are numbered by their pools", &[SECOND_STORE]),
    ("a pool grows and does not shrink", &[RESIZED]),
];

const CASES_WITHOUT_BUFFERS: &[Case] = &[
    ("a pool has bytes", &[NO_BYTES]),
    ("all stores have at most 268435456 bytes", &[TOO_MANY_BYTES]),
    ("the format is looked at first", &[BAD_FORMAT]),
    ("at most 64 stores are live", &[STORE_65]),
    ("a buffer lies in its store", &[WITHIN]),
    ("a buffer past its store", &[PAST]),
    ("a store that is too short", &[SHORT]),
];

/// The first of the cases that isn't as wanted after a pool and its buffers were made, and what
/// wasn't.
fn missed_after_buffers(alloc: Global, cases: &[Case]) -> Option<(usize, Fault)> {
    first_missed_case(alloc, &[REGISTRY, SHM, BUFFERS], cases)
}

#[test]
fn pools_and_stores_are_as_worked(rt: HostRuntime) {
    assert_eq!(rt; missed_after_buffers(rt.alloc(), CASES), None);
}

/// The first of the cases that isn't as wanted after wl_shm was bound, and what wasn't.
fn missed_after_shm(alloc: Global, cases: &[Case]) -> Option<(usize, Fault)> {
    first_missed_case(alloc, &[REGISTRY, SHM], cases)
}

#[test]
fn pools_have_limits(rt: HostRuntime) {
    assert_eq!(rt; missed_after_shm(rt.alloc(), CASES_WITHOUT_BUFFERS), None);
}
