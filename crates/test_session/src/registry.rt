//! The registry, binds, and the order in which messages are refused.

use std::alloc::Global;
use test_rows::asks::{Ask, Interface};
use test_rows::begun::ANNOUNCED;
use test_rows::events::Event;
use test_rows::rows::{
    CLIENT, Case, Fault, INVALID_OBJECT, REGISTRY, Row, SYNC, first_missed_case, first_missed_row,
    play,
};
use wl_session::{Cause, Done, Fed, Step};

/// The bytes of the first of them.
const FIRST_GLOBAL: &[u8] = &[
    2, 0, 0, 0, 0, 0, 36, 0, 1, 0, 0, 0, 14, 0, 0, 0, b'w', b'l', b'_', b'c', b'o', b'm', b'p',
    b'o', b's', b'i', b't', b'o', b'r', 0, 0, 0, 4, 0, 0, 0,
];

const GLOBALS_TOLD: &[Row] = &[
    Row::Sends(Ask::GetRegistry(2)),
    Row::Told(ANNOUNCED),
    Row::Starts(FIRST_GLOBAL),
];

/// Binds of each global: 3 to 8 in their order.
const ALL_GLOBALS: &[Row] = &[
    Row::Binds(1, Interface::Compositor, 2, 3, Fed::Alive),
    Row::Binds(2, Interface::Subcompositor, 1, 4, Fed::Alive),
    Row::Binds(3, Interface::Shm, 1, 5, Fed::Alive),
    Row::Binds(4, Interface::Output, 1, 6, Fed::Alive),
    Row::Binds(5, Interface::Seat, 1, 7, Fed::Alive),
    Row::Binds(6, Interface::WmBase, 1, 8, Fed::Alive),
];

/// wl_shm tells its formats, wl_output its geometry and its mode, wl_seat that it has a pointer,
/// and the others nothing.
const OBJECTS_TOLD: &[Row] = &[
    Row::Is(1, Fed::Alive),
    Row::Told(&[
        Event::Format(5, 0),
        Event::Format(5, 1),
        Event::Geometry(6),
        Event::Mode(6, 3, 64, 64, 0),
        Event::Capabilities(7, 1),
    ]),
];

/// The versions of wl_compositor that are bound, and others.
const VERSIONS: &[Row] = &[
    Row::Binds(1, Interface::Compositor, 0, 3, INVALID_OBJECT),
    Row::Binds(1, Interface::Compositor, 1, 3, Fed::Alive),
    Row::Binds(1, Interface::Compositor, 2, 3, Fed::Alive),
    Row::Binds(1, Interface::Compositor, 4, 3, Fed::Alive),
    Row::Binds(1, Interface::Compositor, 5, 3, INVALID_OBJECT),
];

/// Those of xdg_wm_base.
const SHELL_VERSIONS: &[Row] = &[
    Row::Binds(6, Interface::WmBase, 0, 3, INVALID_OBJECT),
    Row::Binds(6, Interface::WmBase, 2, 3, Fed::Alive),
    Row::Binds(6, Interface::WmBase, 3, 3, Fed::Alive),
    Row::Binds(6, Interface::WmBase, 4, 3, INVALID_OBJECT),
];

const WRONG_NAMES: &[Row] = &[
    Row::Binds(2, Interface::Compositor, 1, 3, INVALID_OBJECT),
    Row::Binds(0, Interface::Compositor, 1, 3, INVALID_OBJECT),
    Row::Binds(7, Interface::WmBase, 1, 3, INVALID_OBJECT),
    Row::Binds(5, Interface::SeatCutShort, 1, 3, INVALID_OBJECT),
    Row::Binds(5, Interface::SeatAndNul, 1, 3, INVALID_OBJECT),
];

const WORD_TOO_MANY: &[Row] = &[
    Row::Errs(Ask::Other(1, 0, 2, [2, 0, 0, 0]), 1, 1),
    Row::ErrorTold(1, 1, b"invalid_method"),
];

const UNKNOWN_OBJECT: &[Row] = &[
    Row::Errs(Ask::GetPointer(7, 2), 1, 0),
    Row::ErrorTold(1, 0, b"invalid_object"),
];

/// An unknown object goes before an unknown opcode, and that before the arguments.
const OBJECTS_AND_OPCODES: &[Row] = &[
    Row::Errs(Ask::Other(9, 99, 0, [0; 4]), 1, 0),
    Row::Errs(Ask::Other(2, 1, 1, [2, 0, 0, 0]), 1, 1),
    Row::Errs(Ask::Other(6, 0, 0, [0; 4]), 1, 1),
];

/// Arguments, and the objects that they name, go before a new id that is in use. Tried are no
/// argument, a null text, objects that aren't there, an object of another interface, and a null
/// object.
const ARGUMENTS: &[Row] = &[
    Row::Errs(Ask::Other(1, 1, 0, [0; 4]), 1, 1),
    Row::Errs(Ask::Other(2, 0, 4, [1, 0, 1, 2]), 1, 1),
    Row::Errs(Ask::GetSubsurface(4, 2, 9, 9), 1, 1),
    Row::Errs(Ask::GetXdgSurface(8, 2, 3), 1, 1),
    Row::Errs(Ask::GetXdgSurface(8, 9, 0), 1, 1),
];

/// A new id that is in use goes before the request's own errors.
const NEW_IDS: &[Row] = &[
    Row::Errs(Ask::CreateSurface(3, 2), 1, 0),
    Row::Errs(Ask::GetKeyboard(7, 2), 1, 0),
];

const KEYBOARD_AND_TOUCH: &[Row] = &[
    Row::Errs(Ask::GetKeyboard(7, 9), 7, 0),
    Row::Errs(Ask::GetTouch(7, 9), 7, 0),
];

const KEYBOARD: &[Row] = &[
    Row::Takes,
    Row::Errs(Ask::GetKeyboard(7, 9), 7, 0),
    Row::ErrorTold(7, 0, b"missing_capability"),
];

/// The wl_surface 9 becomes a subsurface of 10.
const SUBSURFACE: &[Row] = &[
    Row::Sends(Ask::CreateSurface(3, 9)),
    Row::Sends(Ask::CreateSurface(3, 10)),
    Row::Sends(Ask::GetSubsurface(4, 11, 9, 10)),
];

/// It becomes none once more, and no surface one of its own (wayland.xml,
/// wl_subcompositor.get_subsurface).
const SECOND_SUBSURFACE: &[Row] = &[
    Row::Errs(Ask::GetSubsurface(4, 12, 9, 10), 4, 0),
    Row::Errs(Ask::GetSubsurface(4, 12, 10, 10), 4, 1),
];

/// The id of a wl_subcompositor is free once it was destroyed.
const SUBCOMPOSITOR_DESTROYED: &[Row] = &[
    Row::Takes,
    Row::Sends(Ask::SubcompositorDestroy(4)),
    Row::Told(&[Event::DeleteId(4)]),
    Row::Binds(2, Interface::Subcompositor, 1, 4, Fed::Alive),
    Row::Sends(Ask::SubcompositorDestroy(4)),
    Row::Errs(Ask::SubcompositorDestroy(4), 1, 0),
];

const TOO_SLOW: Done = Done::Feed(Fed::Ended(Cause::Slow));

/// 43,690 syncs leave 1,048,560 bytes.
const UNREAD: &[Row] = &[
    Row::Syncs(43_690),
    Row::Is(1, Fed::Alive),
    Row::Waiting(1_048_560),
];

/// There is room for wl_callback.done, and none for wl_display.delete_id.
const READS_NOTHING: &[Row] = &[
    Row::Calls(
        Step::Feed {
            client: 1,
            piece: SYNC,
        },
        TOO_SLOW,
    ),
    Row::Waiting(1_048_572),
    Row::Calls(
        Step::Feed {
            client: 1,
            piece: SYNC,
        },
        TOO_SLOW,
    ),
    Row::Waiting(1_048_572),
];

/// Where there is no room for the error event, the client ends as too slow.
const NO_ROOM: &[Row] = &[
    Row::Calls(
        Step::Feed {
            client: 1,
            piece: &[7, 0, 0, 0, 0, 0, 8, 0],
        },
        TOO_SLOW,
    ),
    Row::Waiting(1_048_560),
];

/// The client has 8,192 objects: wl_display, the registry 2, the seat 3, and compositors.
const FULL: &[Row] = &[
    Row::Binds(5, Interface::Seat, 1, 3, Fed::Alive),
    Row::BindsCompositors(4, 8_193),
    Row::Is(1, Fed::Alive),
    Row::Takes,
];

/// The limit on objects is looked at before the request's own errors: of a sync, a
/// wl_seat.get_keyboard, and a bind of a
/// global that isn't there.
const OBJECT_8193: &[Row] = &[
    Row::Errs(Ask::Sync(9000), 1, 3),
    Row::Errs(Ask::GetKeyboard(3, 9000), 1, 3),
    Row::Errs(Ask::Bind(2, 9, Interface::Compositor, 2, 9000), 1, 3),
];

const REGISTRY_8193: &[Row] = &[
    Row::GetsRegistries(2, 8_193),
    Row::Is(1, Fed::Alive),
    Row::Errs(Ask::GetRegistry(8_193), 1, 3),
    Row::ErrorTold(1, 3, b"implementation"),
];

/// The client has 8,192 objects: wl_display, the registry 2, the wl_compositor 3, and regions. The
/// next is past the limit.
const REGION_8193: &[Row] = &[
    Row::Sends(Ask::GetRegistry(2)),
    Row::Binds(1, Interface::Compositor, 2, 3, Fed::Alive),
    Row::Takes,
    Row::MakesRegions(4, 8_193),
    Row::Silent(1),
    Row::Errs(Ask::CreateRegion(3, 8_193), 1, 3),
    Row::ErrorTold(1, 3, b"implementation"),
];

/// The id of a sync's callback is free again once it was given back.
const USED_AGAIN: &[Row] = &[
    Row::Sends(Ask::Sync(2)),
    Row::Sends(Ask::GetRegistry(2)),
    Row::Sends(Ask::Sync(3)),
    Row::Errs(Ask::Sync(2), 1, 0),
];

/// A client's error ends that client alone: another keeps its objects and its bytes.
const ANOTHER_ERRS: &[Row] = &[
    Row::Binds(3, Interface::Shm, 1, 4, Fed::Alive),
    Row::Calls(Step::Connect, Done::Connect(Ok(2))),
    Row::Calls(
        Step::Feed {
            client: 2,
            piece: &[7, 0, 0, 0, 0, 0, 8, 0],
        },
        Done::Feed(Fed::Ended(Cause::Protocol { object: 1, code: 0 })),
    ),
    Row::Is(1, Fed::Alive),
    Row::Waiting(24),
    Row::Binds(5, Interface::Seat, 1, 5, Fed::Alive),
    Row::Waiting(36),
    Row::Errs(Ask::Bind(2, 5, Interface::Seat, 1, 4), 1, 0),
];

const CASES: &[Case] = &[
    ("a registry tells the globals", &[GLOBALS_TOLD]),
    ("a word too many is refused", &[WORD_TOO_MANY]),
    ("an unknown object is refused", &[UNKNOWN_OBJECT]),
    ("an id is used again", &[USED_AGAIN]),
    (
        "a client that reads nothing is too slow",
        &[UNREAD, READS_NOTHING],
    ),
    ("an error that has no room ends as slow", &[UNREAD, NO_ROOM]),
    ("no client has 8193 objects", &[REGISTRY_8193]),
    ("regions count among them", &[REGION_8193]),
];

const CASES_OF_GLOBALS: &[Case] = &[
    ("bound objects tell what they are", &[OBJECTS_TOLD]),
    ("a seat has no keyboard", &[KEYBOARD]),
    (
        "a destroyed wl_subcompositor gives its id back",
        &[SUBCOMPOSITOR_DESTROYED],
    ),
];

/// The first of the cases that isn't as wanted after all globals were bound, and what wasn't.
fn missed_after_globals(alloc: Global, cases: &[Case]) -> Option<(usize, Fault)> {
    first_missed_case(alloc, &[REGISTRY, ALL_GLOBALS], cases)
}

#[test]
fn globals_are_as_worked(rt: HostRuntime) {
    assert_eq!(rt; missed_after_globals(rt.alloc(), CASES_OF_GLOBALS), None);
}

#[test]
fn an_error_ends_its_sender_alone(rt: HostRuntime) {
    assert_eq!(rt; play(rt.alloc(), &[REGISTRY, ANOTHER_ERRS]), Ok(()));
}

#[test]
fn registries_are_as_worked(rt: HostRuntime) {
    assert_eq!(rt; first_missed_case(rt.alloc(), &[CLIENT], CASES), None);
}

/// Rows that are each played in a session of their own, by the name of the case and after its
/// parts.
const ROWS: &[(Case, &[Row])] = &[
    (
        ("only a version of the global is bound", &[REGISTRY]),
        VERSIONS,
    ),
    (("and of the xdg_wm_base", &[REGISTRY]), SHELL_VERSIONS),
    (
        ("only the name of the global is bound", &[REGISTRY]),
        WRONG_NAMES,
    ),
    (
        (
            "objects and opcodes are looked at first",
            &[REGISTRY, ALL_GLOBALS],
        ),
        OBJECTS_AND_OPCODES,
    ),
    (
        (
            "arguments are looked at before new ids",
            &[REGISTRY, ALL_GLOBALS],
        ),
        ARGUMENTS,
    ),
    (
        (
            "new ids are looked at before own errors",
            &[REGISTRY, ALL_GLOBALS],
        ),
        NEW_IDS,
    ),
    (
        (
            "a seat has no keyboard and no touch",
            &[REGISTRY, ALL_GLOBALS],
        ),
        KEYBOARD_AND_TOUCH,
    ),
    (
        (
            "a surface becomes a subsurface once, and not of itself",
            &[REGISTRY, ALL_GLOBALS, SUBSURFACE],
        ),
        SECOND_SUBSURFACE,
    ),
    (
        (
            "the limit on objects goes before own errors",
            &[REGISTRY, FULL],
        ),
        OBJECT_8193,
    ),
];

// The first of the cases of which a row isn't as wanted, and what wasn't.
fn first_missed_of(alloc: Global, cases: &[(Case, &[Row])]) -> Option<(usize, (usize, Fault))> {
    for (place, &((_, parts), rows)) in cases.iter().enumerate() {
        if let Some(missed) = first_missed_row(alloc, parts, rows) {
            return Some((place, missed));
        }
    }
    None
}

#[test]
fn messages_are_refused_in_order(rt: HostRuntime) {
    assert_eq!(rt; first_missed_of(rt.alloc(), ROWS), None);
}
