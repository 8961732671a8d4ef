//! Worked recordings, with the answers that the protocol asks for.

use std::alloc::Global;
use test_rows::rows::{CLIENT, CONFIG, Case, Row, SYNC, first_missed_case, has_out};
use wl_session::{Cause, Config, ConnectError, Done, Fed, FrameError, Rgb, Session, Shot, Step};

/// wl_callback.done of object 2, and wl_display.delete_id of 2.
const ANSWER: &[u8] = &[
    2, 0, 0, 0, 0, 0, 12, 0, 0, 0, 0, 0, 1, 0, 0, 0, 1, 0, 12, 0, 2, 0, 0, 0,
];

/// wl_display.error(1, 1, "invalid_method").
const INVALID_METHOD: &[u8] = &[
    1, 0, 0, 0, 0, 0, 36, 0, 1, 0, 0, 0, 1, 0, 0, 0, 15, 0, 0, 0, b'i', b'n', b'v', b'a', b'l',
    b'i', b'd', b'_', b'm', b'e', b't', b'h', b'o', b'd', 0, 0,
];

/// wl_display.error(1, 0, "invalid_object").
const INVALID_OBJECT: &[u8] = &[
    1, 0, 0, 0, 0, 0, 36, 0, 1, 0, 0, 0, 0, 0, 0, 0, 15, 0, 0, 0, b'i', b'n', b'v', b'a', b'l',
    b'i', b'd', b'_', b'o', b'b', b'j', b'e', b'c', b't', 0, 0,
];

const HAS_ENDED: Done = Done::Feed(Fed::Ended(Cause::Protocol { object: 1, code: 1 }));

const NO_NEW_ID: Done = Done::Feed(Fed::Ended(Cause::Protocol { object: 1, code: 0 }));

const SYNCED: Step = Step::Feed {
    client: 1,
    piece: SYNC,
};

const CLOSE: Step = Step::Close { client: 1 };

/// Two pixels side by side.
const TWO: Config = Config {
    width: 2,
    height: 1,
    background: Rgb { r: 3, g: 2, b: 1 },
};

const SYNC_ANSWERED: &[Row] = &[
    Row::Calls(SYNCED, Done::Feed(Fed::Alive)),
    Row::Waits(1, Some(ANSWER)),
    Row::Calls(
        Step::Sent {
            client: 1,
            count: 25,
        },
        Done::Sent(false),
    ),
    Row::Waits(1, Some(ANSWER)),
    Row::Calls(
        Step::Sent {
            client: 1,
            count: 20,
        },
        Done::Sent(true),
    ),
    Row::Waits(1, Some(&[2, 0, 0, 0])),
    Row::Calls(SYNCED, Done::Feed(Fed::Alive)),
    Row::Calls(
        Step::Sent {
            client: 1,
            count: 4,
        },
        Done::Sent(true),
    ),
    Row::Waits(1, Some(ANSWER)),
];

const DRIPS: &[Row] = &[Row::Drips(SYNC), Row::Waits(1, Some(ANSWER))];

/// The first tick of a session shows its background, and nothing is damaged.
fn shows_background(session: &mut Session<Global>) -> bool {
    let frame = session.tick(7);
    frame.time == 7
        && frame.damage.count() == 0
        && frame.pixels.pixels() == [1, 2, 3, 255, 1, 2, 3, 255].as_slice()
}

fn has_tick(alloc: Global) -> bool {
    match Session::new(alloc, TWO) {
        Ok(mut session) => shows_background(&mut session),
        Err(_) => false,
    }
}

#[test]
fn a_tick_shows_the_background(rt: HostRuntime) {
    assert!(rt; has_tick(rt.alloc()));
}

const BAD_SIZE: &[Row] = &[
    Row::Calls(
        Step::Feed {
            client: 1,
            piece: &[1, 0, 0, 0, 0, 0, 4, 0],
        },
        HAS_ENDED,
    ),
    Row::Waits(1, Some(INVALID_METHOD)),
    Row::Calls(SYNCED, HAS_ENDED),
    Row::Is(1, Fed::Ended(Cause::Protocol { object: 1, code: 1 })),
    Row::Waits(1, Some(INVALID_METHOD)),
    Row::Calls(Step::Gone { client: 1 }, Done::Gone(false)),
    Row::Calls(CLOSE, Done::Close(true)),
    Row::Is(1, Fed::NoClient),
    Row::Calls(CLOSE, Done::Close(false)),
];

/// The new ids 1, 0xff000000 and 0.
const NEW_ID_1: &[Row] = &[
    Row::Calls(
        Step::Feed {
            client: 1,
            piece: &[1, 0, 0, 0, 0, 0, 12, 0, 1, 0, 0, 0],
        },
        NO_NEW_ID,
    ),
    Row::Waits(1, Some(INVALID_OBJECT)),
];

const NEW_ID_OF_THE_SERVER: &[Row] = &[
    Row::Calls(
        Step::Feed {
            client: 1,
            piece: &[1, 0, 0, 0, 0, 0, 12, 0, 0, 0, 0, 0xff],
        },
        NO_NEW_ID,
    ),
    Row::Waits(1, Some(INVALID_OBJECT)),
];

const NEW_ID_0: &[Row] = &[
    Row::Calls(
        Step::Feed {
            client: 1,
            piece: &[1, 0, 0, 0, 0, 0, 12, 0, 0, 0, 0, 0],
        },
        NO_NEW_ID,
    ),
    Row::Waits(1, Some(INVALID_OBJECT)),
];

const FULL: Row = Row::Calls(Step::Connect, Done::Connect(Err(ConnectError::Full)));

const NUMBERS: &[Row] = &[
    Row::Connects(1, 33),
    FULL,
    Row::Calls(Step::Close { client: 5 }, Done::Close(false)),
    Row::Calls(Step::Gone { client: 5 }, Done::Gone(true)),
    Row::Is(5, Fed::Ended(Cause::Gone)),
    FULL,
    Row::Calls(Step::Close { client: 5 }, Done::Close(true)),
    Row::Calls(Step::Connect, Done::Connect(Ok(5))),
    Row::Calls(
        Step::Feed {
            client: 33,
            piece: SYNC,
        },
        Done::Feed(Fed::NoClient),
    ),
    Row::Calls(
        Step::Feed {
            client: 0,
            piece: SYNC,
        },
        Done::Feed(Fed::NoClient),
    ),
];

const GOES: &[Row] = &[
    Row::Calls(
        Step::Feed {
            client: 1,
            piece: &[1, 0, 0, 0, 0, 0],
        },
        Done::Feed(Fed::Alive),
    ),
    Row::Calls(Step::Gone { client: 1 }, Done::Gone(true)),
    Row::Silent(1),
    Row::Calls(CLOSE, Done::Close(true)),
    Row::Calls(
        Step::Feed {
            client: 1,
            piece: &[0],
        },
        Done::Feed(Fed::NoClient),
    ),
    Row::Waits(1, None),
];

/// How a session of this size is made.
fn made(alloc: Global, width: u32, height: u32) -> Result<Fed, FrameError> {
    let config = Config {
        width,
        height,
        background: CONFIG.background,
    };
    let session = Session::new(alloc, config)?;
    Ok(session.status(1))
}

#[test]
fn sides_are_1_to_4096(rt: HostRuntime) {
    for (width, height) in [(0, 1), (4097, 1), (1, 0), (1, 4097)] {
        let made = made(rt.alloc(), width, height);
        assert!(rt; made == Err(FrameError::BadSize), "{width} by {height}");
    }
    assert!(rt; made(rt.alloc(), 4096, 1) == Ok(Fed::NoClient));
}

const RUN: &[Step] = &[Step::Connect, SYNCED, Step::Tick { time: 9 }];

fn is_shot(shot: &Shot<Global>, time: u32, pixels: &[u8]) -> bool {
    shot.time == time && shot.runs.len() == 0 && shot.pixels.as_slice() == pixels
}

/// A run answers one frame, of its tick.
fn shows_run(session: &mut Session<Global>) -> bool {
    match session.run(RUN) {
        Ok(shots) => shots.len() == 1 && is_shot(&shots[0], 9, &[1, 2, 3, 255, 1, 2, 3, 255]),
        Err(_) => false,
    }
}

fn has_run(alloc: Global) -> bool {
    match Session::new(alloc, TWO) {
        Ok(mut session) => shows_run(&mut session) && has_out(&session, 1, ANSWER),
        Err(_) => false,
    }
}

#[test]
fn a_run_answers_the_frames_of_its_ticks(rt: HostRuntime) {
    assert!(rt; has_run(rt.alloc()));
}

const STEPS: &[Row] = &[
    Row::Steps(Step::Connect, Done::Connect(Ok(1))),
    Row::Steps(SYNCED, Done::Feed(Fed::Alive)),
    Row::Steps(Step::Tick { time: 0 }, Done::Tick),
    Row::Steps(
        Step::Sent {
            client: 1,
            count: 24,
        },
        Done::Sent(true),
    ),
    Row::Silent(1),
    Row::Steps(Step::Gone { client: 1 }, Done::Gone(true)),
    Row::Steps(CLOSE, Done::Close(true)),
    Row::Steps(CLOSE, Done::Close(false)),
];

const CASES: &[Case] = &[
    ("a sync is answered", &[CLIENT, SYNC_ANSWERED]),
    (
        "a size that is not allowed ends the client",
        &[CLIENT, BAD_SIZE],
    ),
    ("a client may go within a message", &[CLIENT, GOES]),
    ("a step answers as its call", &[STEPS]),
    ("a stream may be cut anywhere", &[CLIENT, DRIPS]),
    ("the new id 1 is in use", &[CLIENT, NEW_ID_1]),
    ("a new id is the client's", &[CLIENT, NEW_ID_OF_THE_SERVER]),
    ("a new id is not null", &[CLIENT, NEW_ID_0]),
    ("clients take the lowest free number", &[NUMBERS]),
];

#[test]
fn recordings_are_as_worked(rt: HostRuntime) {
    assert_eq!(rt; first_missed_case(rt.alloc(), &[], CASES), None);
}
