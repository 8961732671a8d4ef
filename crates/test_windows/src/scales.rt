//! Buffers at a scale, and damage that is told by the points of a buffer (wayland.xml,
//! wl_surface.set_buffer_scale and wl_surface.damage_buffer).

use std::alloc::Global;
use test_rows::asks::{Ask, Interface};
use test_rows::begun::{
    ACKNOWLEDGES, BUFFERS, COMMIT, CONFIGURES, GLOBALS, GLOBALS_4, GREEN, MADE, MAPS, RED, RED_10,
    SEATED,
};
use test_rows::events::Event;
use test_rows::rows::{Case, Fault, Pixel, REGISTRY, Row, first_missed_case};
use wl_session::{Done, Fed, Step};

/// wl_surface.set_buffer_scale of the surface 6.
const SCALE_0: Ask = Ask::SetBufferScale(6, 0);

const SCALE_1: Ask = Ask::SetBufferScale(6, 1);

const SCALE_2: Ask = Ask::SetBufferScale(6, 2);

const SCALE_3: Ask = Ask::SetBufferScale(6, 3);

const SCALE_4: Ask = Ask::SetBufferScale(6, 4);

/// wl_surface.attach of the buffer 11, and wl_buffer.release of the buffer 10, which is no longer
/// shown.
const ATTACH_11: Ask = Ask::Attach(6, 11);

const RELEASED_10: Event = Event::Release(10);

/// A toplevel at the latest versions whose configure was acknowledged, and its buffers.
const BEGUN: &[&[Row]] = &[REGISTRY, GLOBALS_4, MADE, CONFIGURES, ACKNOWLEDGES, BUFFERS];

/// The scale 2 is set before the toplevel is mapped: its window is 20 by 20 points.
const SETS_2: &[Row] = &[Row::Sends(SCALE_2)];

const SHOWS_400: &[Row] = &[Row::Paints(400, 400)];

/// The first of the cases that isn't as wanted, each after the toplevel's configure was
/// acknowledged, and what wasn't.
fn missed(alloc: Global, cases: &[Case]) -> Option<(usize, Fault)> {
    first_missed_case(alloc, BEGUN, cases)
}

/// The point (1, 1) shows the buffer's point (2, 2), the first of its block of 2 by 2.
const ONE_BLOCK: &[Row] = &[
    Row::Fills(1, 1, 6728, 1, RED),
    Row::Sends(ATTACH_11),
    Row::Sends(Ask::DamageBuffer(6, 2, 2, 1, 1)),
    Row::Sends(COMMIT),
    Row::Told(&[RELEASED_10]),
    Row::Takes,
    Row::Shows(
        1,
        1,
        &[
            Pixel(1, 1, 255, 0, 0),
            Pixel(0, 0, 0, 0, 0),
            Pixel(2, 1, 0, 0, 0),
            Pixel(1, 2, 0, 0, 0),
            Pixel(2, 2, 0, 0, 0),
        ],
    ),
];

/// Four points of the buffer lie in four blocks.
const FOUR_BLOCKS: &[Row] = &[
    Row::Sends(Ask::DamageBuffer(6, 1, 1, 2, 2)),
    Row::Sends(COMMIT),
    Row::Paints(4, 4),
];

/// Turned by a quarter, the buffer's first point is seen at the end of the first row.
const TURNED: &[Row] = &[
    Row::Sends(Ask::SetBufferTransform(6, 1)),
    Row::Sends(COMMIT),
    Row::Shows(400, 400, &[Pixel(19, 0, 0, 0, 0)]),
    Row::Fills(1, 1, 0, 1, RED),
    Row::Sends(Ask::DamageBuffer(6, 0, 0, 1, 1)),
    Row::Sends(COMMIT),
    Row::Shows(1, 1, &[Pixel(19, 0, 255, 0, 0), Pixel(18, 0, 0, 0, 0)]),
];

/// No scale is less than 1.
const NO_SCALE: &[Row] = &[
    Row::Errs(SCALE_0, 6, 0),
    Row::ErrorTold(6, 0, b"invalid_scale"),
];

const BELOW_NONE: &[Row] = &[
    Row::Errs(Ask::SetBufferScale(6, -2147483648), 6, 0),
    Row::ErrorTold(6, 0, b"invalid_scale"),
];

/// 40 is no multiple of 3.
const NO_MULTIPLE: &[Row] = &[
    Row::Sends(SCALE_3),
    Row::Silent(1),
    Row::Errs(COMMIT, 6, 2),
    Row::ErrorTold(6, 2, b"invalid_size"),
];

/// Each begins with a window at the scale 2.
const CASES: &[Case] = &[
    (
        "a point shows the first of its block",
        &[SETS_2, MAPS, SHOWS_400, ONE_BLOCK],
    ),
    (
        "damage of the buffer is told by blocks",
        &[SETS_2, MAPS, SHOWS_400, FOUR_BLOCKS],
    ),
    (
        "damage of a buffer that is turned",
        &[SETS_2, MAPS, SHOWS_400, TURNED],
    ),
];

#[test]
fn scales_are_as_worked(rt: HostRuntime) {
    assert_eq!(rt; missed(rt.alloc(), CASES), None);
}

const REFUSED: &[Case] = &[
    ("the scale 0", &[SETS_2, MAPS, NO_SCALE]),
    ("a scale below it", &[BELOW_NONE]),
    ("sides that are no multiples", &[SETS_2, MAPS, NO_MULTIPLE]),
];

#[test]
fn scales_are_refused_as_worked(rt: HostRuntime) {
    assert_eq!(rt; missed(rt.alloc(), REFUSED), None);
}

/// A wl_surface of a wl_compositor at an earlier version has no such requests.
const INVALID_METHOD: &[Row] = &[
    Row::Errs(SCALE_2, 1, 1),
    Row::ErrorTold(1, 1, b"invalid_method"),
];

/// wl_surface.damage_buffer of the first point of the buffer.
const FIRST_OF_BUFFER: Ask = Ask::DamageBuffer(6, 0, 0, 1, 1);

/// At version 3 there is a scale, and no damage of the buffer.
const BOUND_AT_3: &[Row] = &[
    Row::Binds(1, Interface::Compositor, 3, 3, Fed::Alive),
    Row::Sends(Ask::CreateSurface(3, 6)),
    Row::Sends(SCALE_2),
    Row::Silent(1),
    Row::Errs(FIRST_OF_BUFFER, 1, 1),
    Row::ErrorTold(1, 1, b"invalid_method"),
];

const EARLIER: &[Case] = &[
    ("at version 2", &[GLOBALS, MADE, INVALID_METHOD]),
    ("at version 3", &[BOUND_AT_3]),
];

/// The first of the cases that isn't as wanted after the registry was told, and what wasn't.
fn missed_after_registry(alloc: Global, cases: &[Case]) -> Option<(usize, Fault)> {
    first_missed_case(alloc, &[REGISTRY], cases)
}

#[test]
fn earlier_versions_have_no_scale(rt: HostRuntime) {
    assert_eq!(rt; missed_after_registry(rt.alloc(), EARLIER), None);
}

/// At the scale 1 the points of the buffer are those of the surface, and what lies beyond is cut
/// off.
const AT_SCALE_1: &[Row] = &[
    Row::Paints(1600, 1600),
    Row::Sends(Ask::DamageBuffer(6, 2, 3, 4, 5)),
    Row::Sends(COMMIT),
    Row::Paints(20, 20),
    Row::Sends(Ask::DamageBuffer(6, -5, 38, 10, 10)),
    Row::Sends(COMMIT),
    Row::Paints(10, 10),
];

/// However far it reaches; and a rectangle without points is none, though it begins within a block.
const BEYOND_THE_BUFFER: &[Row] = &[
    Row::Sends(Ask::DamageBuffer(6, -2147483648, 0, 2147483647, 2147483647)),
    Row::Sends(Ask::DamageBuffer(6, 1, 1, 0, 9)),
    Row::Sends(Ask::DamageBuffer(6, 9, 9, 9, -8)),
    Row::Sends(COMMIT),
    Row::Paints(0, 0),
    Row::Sends(Ask::DamageBuffer(6, 39, 0, 2147483647, 2147483647)),
    Row::Sends(COMMIT),
    Row::Paints(20, 20),
];

/// The buffer 14 of 36 by 36 pixels at the start of the pool is shown at the scale 3, by 12 by 12
/// points.
const SHOWS_144: &[Row] = &[
    Row::Sends(Ask::CreateBuffer(9, 14, 0, 36, 36, 160, 1)),
    Row::Sends(SCALE_3),
    Row::Sends(Ask::Attach(6, 14)),
    Row::Sends(COMMIT),
    Row::Shows(
        144,
        144,
        &[
            Pixel(11, 11, 255, 0, 0),
            Pixel(12, 0, 0, 0, 0),
            Pixel(0, 12, 0, 0, 0),
        ],
    ),
];

/// One point of the buffer in each of two blocks each way, all of one block, and points of two
/// blocks in a row.
const AT_SCALE_3: &[Row] = &[
    Row::Sends(Ask::DamageBuffer(6, 2, 2, 2, 2)),
    Row::Sends(COMMIT),
    Row::Paints(4, 4),
    Row::Sends(Ask::DamageBuffer(6, 3, 3, 3, 3)),
    Row::Sends(COMMIT),
    Row::Paints(1, 1),
    Row::Sends(Ask::DamageBuffer(6, 1, 0, 3, 1)),
    Row::Sends(COMMIT),
    Row::Paints(2, 2),
];

/// wl_surface.damage of the surface's first point.
const FIRST_POINT: Ask = Ask::Damage(6, 0, 0, 1, 1);

/// 1,024 rectangles of both kinds count one by one, and one more means the whole surface.
const MANY_RECTANGLES: &[Row] = &[
    Row::Changes(512, FIRST_POINT, FIRST_OF_BUFFER),
    Row::Sends(COMMIT),
    Row::Paints(1, 1),
    Row::Changes(512, FIRST_OF_BUFFER, FIRST_POINT),
    Row::Sends(FIRST_OF_BUFFER),
    Row::Sends(COMMIT),
    Row::Paints(400, 400),
    Row::Sends(COMMIT),
    Row::Paints(0, 0),
];

const DAMAGED: &[Case] = &[
    ("at the scale 1", &[MAPS, AT_SCALE_1]),
    (
        "damage is cut to the buffer",
        &[SETS_2, MAPS, SHOWS_400, BEYOND_THE_BUFFER],
    ),
    ("at the scale 3", &[RED_10, SHOWS_144, AT_SCALE_3]),
    (
        "1,025 rectangles of both kinds mean the whole surface",
        &[SETS_2, MAPS, SHOWS_400, MANY_RECTANGLES],
    ),
];

#[test]
fn buffers_are_damaged_as_worked(rt: HostRuntime) {
    assert_eq!(rt; missed(rt.alloc(), DAMAGED), None);
}

/// The black buffer 14 of 24 by 12 pixels is attached, of which the surface is 6 by 12 points as it
/// is turned by a quarter.
const ATTACHES_14: &[Row] = &[
    Row::Sends(Ask::CreateBuffer(9, 14, 0, 24, 12, 160, 1)),
    Row::Sends(SCALE_2),
    Row::Sends(Ask::Attach(6, 14)),
];

const SHOWS_72: &[Row] = &[Row::Sends(COMMIT), Row::Paints(72, 72)];

/// wl_surface.set_buffer_transform to 90, 270, flipped_90 and flipped_270.
const TURNED_90: &[Row] = &[Row::Sends(Ask::SetBufferTransform(6, 1))];

const TURNED_270: &[Row] = &[Row::Sends(Ask::SetBufferTransform(6, 3))];

const FLIPPED_90: &[Row] = &[Row::Sends(Ask::SetBufferTransform(6, 5))];

const FLIPPED_270: &[Row] = &[Row::Sends(Ask::SetBufferTransform(6, 7))];

/// The first point of the block (5, 1) of the buffer becomes red, and only it is damaged.
const RED_BLOCK: &[Row] = &[
    Row::Fills(1, 1, 360, 1, RED),
    Row::Sends(Ask::DamageBuffer(6, 10, 2, 1, 1)),
    Row::Sends(COMMIT),
];

/// Each begins with a toplevel that may be mapped.
const EXCHANGED: &[Case] = &[
    (
        "90",
        &[
            ATTACHES_14,
            TURNED_90,
            SHOWS_72,
            RED_BLOCK,
            &[Row::Shows(1, 1, &[Pixel(4, 5, 255, 0, 0)])],
        ],
    ),
    (
        "270",
        &[
            ATTACHES_14,
            TURNED_270,
            SHOWS_72,
            RED_BLOCK,
            &[Row::Shows(1, 1, &[Pixel(1, 6, 255, 0, 0)])],
        ],
    ),
    (
        "flipped_90",
        &[
            ATTACHES_14,
            FLIPPED_90,
            SHOWS_72,
            RED_BLOCK,
            &[Row::Shows(1, 1, &[Pixel(1, 5, 255, 0, 0)])],
        ],
    ),
    (
        "flipped_270",
        &[
            ATTACHES_14,
            FLIPPED_270,
            SHOWS_72,
            RED_BLOCK,
            &[Row::Shows(1, 1, &[Pixel(4, 6, 255, 0, 0)])],
        ],
    ),
];

#[test]
fn sides_are_exchanged_after_they_are_divided(rt: HostRuntime) {
    assert_eq!(rt; missed(rt.alloc(), EXCHANGED), None);
}

/// A scale counts from the commit on: the window grows to 40 by 40 points.
const SCALE_COUNTS: &[Row] = &[
    Row::Sends(SCALE_1),
    Row::Shows(0, 0, &[Pixel(20, 0, 0, 0, 0)]),
    Row::Sends(COMMIT),
    Row::Silent(1),
    Row::Shows(
        1600,
        1600,
        &[
            Pixel(0, 0, 255, 0, 0),
            Pixel(20, 0, 255, 0, 0),
            Pixel(39, 39, 255, 0, 0),
        ],
    ),
];

/// A window whose scale grows leaves its old points. The buffer needn't be attached anew.
const SCALE_GROWS: &[Row] = &[
    Row::Sends(SCALE_4),
    Row::Sends(COMMIT),
    Row::Silent(1),
    Row::Shows(
        400,
        400,
        &[
            Pixel(9, 9, 255, 0, 0),
            Pixel(10, 9, 0, 0, 0),
            Pixel(9, 10, 0, 0, 0),
            Pixel(19, 19, 0, 0, 0),
        ],
    ),
    Row::Sends(COMMIT),
    Row::Paints(0, 0),
];

/// The last of several scales counts, and without a buffer each does.
const WITHOUT_BUFFER: &[Row] = &[
    Row::Sends(SCALE_3),
    Row::Sends(Ask::SetBufferScale(6, 2147483647)),
    Row::Sends(Ask::Attach(6, 0)),
    Row::Accepts(COMMIT, &[RELEASED_10]),
    Row::Shows(400, 400, &[Pixel(0, 0, 0, 0, 0), Pixel(19, 19, 0, 0, 0)]),
];

/// The pointer enters the window, in points of the surface, and leaves it beside its 20 by 20
/// points.
const POINTED: &[Row] = &[
    Row::Calls(
        Step::Motion {
            time: 1,
            x: 19,
            y: 4,
        },
        Done::Motion,
    ),
    Row::Told(&[Event::Enter(13, 2, 6, 4864, 1024)]),
    Row::Takes,
    Row::Calls(
        Step::Motion {
            time: 2,
            x: 20,
            y: 4,
        },
        Done::Motion,
    ),
    Row::Told(&[Event::Leave(13, 3, 6)]),
];

const COMMITTED: &[Case] = &[
    (
        "a scale counts from the commit on",
        &[RED_10, SETS_2, MAPS, SHOWS_400, SCALE_COUNTS],
    ),
    (
        "a window whose scale grows leaves its old points",
        &[RED_10, SETS_2, MAPS, SHOWS_400, SCALE_GROWS],
    ),
    (
        "a surface without a buffer has any scale",
        &[RED_10, SETS_2, MAPS, SHOWS_400, WITHOUT_BUFFER],
    ),
    (
        "the pointer is over points of the surface",
        &[SETS_2, MAPS, SEATED, POINTED],
    ),
];

#[test]
fn scales_count_from_the_commit_on(rt: HostRuntime) {
    assert_eq!(rt; missed(rt.alloc(), COMMITTED), None);
}

/// The buffer 18 of the pool 17: 4 by 4 pixels with a stride of 16, of the format 1.
const BUFFER_18: Ask = Ask::CreateBuffer(17, 18, 0, 4, 4, 16, 1);

/// wl_surface.commit of the subsurface's surface 14, and what it sets the scale by.
const COMMIT_14: Ask = Ask::Commit(14);

const SCALE_1_OF_14: Ask = Ask::SetBufferScale(14, 1);

const SCALE_2_OF_14: Ask = Ask::SetBufferScale(14, 2);

/// The subsurface 16 of the toplevel stands at (4, 4) and has the buffer 18, black in the store 2.
const SUBSURFACE: &[Row] = &[
    Row::Binds(2, Interface::Subcompositor, 1, 15, Fed::Alive),
    Row::Sends(Ask::CreateSurface(3, 14)),
    Row::Sends(Ask::GetSubsurface(15, 16, 14, 6)),
    Row::Sends(Ask::SetPosition(16, 4, 4)),
    Row::Sends(Ask::CreatePool(4, 17, 64)),
    Row::Sends(BUFFER_18),
    Row::Sends(Ask::Attach(14, 18)),
];

/// It is shown at the scale 2, by 2 by 2 points.
const SUBSURFACE_SHOWS: &[Row] = &[
    Row::Sends(SCALE_2_OF_14),
    Row::Sends(COMMIT_14),
    Row::Sends(COMMIT),
    Row::Silent(1),
    Row::Shows(
        1600,
        1600,
        &[
            Pixel(3, 3, 255, 0, 0),
            Pixel(4, 4, 0, 0, 0),
            Pixel(6, 6, 255, 0, 0),
        ],
    ),
];

/// Damage of a commit that is held is read by the scale that is applied, not by that of the commit.
const TWO_SCALES: &[Row] = &[
    Row::Fills(1, 2, 8, 1, GREEN),
    Row::Fills(1, 2, 32, 1, GREEN),
    Row::Sends(SCALE_1_OF_14),
    Row::Sends(Ask::DamageBuffer(14, 2, 0, 1, 1)),
    Row::Sends(COMMIT_14),
    Row::Sends(SCALE_2_OF_14),
    Row::Sends(Ask::DamageBuffer(14, 0, 2, 1, 1)),
    Row::Sends(COMMIT_14),
    Row::Shows(0, 0, &[Pixel(5, 4, 0, 0, 0), Pixel(4, 5, 0, 0, 0)]),
    Row::Sends(COMMIT),
    Row::Silent(1),
    Row::Shows(
        2,
        2,
        &[
            Pixel(5, 4, 0, 255, 0),
            Pixel(4, 5, 0, 255, 0),
            Pixel(4, 4, 0, 0, 0),
            Pixel(5, 5, 0, 0, 0),
        ],
    ),
];

/// The sides are looked at as a commit is held.
const HELD_SIZE: &[Row] = &[
    Row::Sends(Ask::SetBufferScale(14, 3)),
    Row::Errs(COMMIT_14, 14, 2),
    Row::ErrorTold(14, 2, b"invalid_size"),
];

const HELD: &[Case] = &[
    (
        "damage of held commits with two scales",
        &[RED_10, MAPS, SUBSURFACE, SUBSURFACE_SHOWS, TWO_SCALES],
    ),
    (
        "the sides of a held commit's buffer",
        &[RED_10, MAPS, SUBSURFACE, HELD_SIZE],
    ),
];

#[test]
fn held_commits_have_scales(rt: HostRuntime) {
    assert_eq!(rt; missed(rt.alloc(), HELD), None);
}
