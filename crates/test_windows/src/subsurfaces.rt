//! Subsurfaces: when what they commit is shown, where they stand, and how deep they go.

use std::alloc::Global;
use test_rows::asks::{Ask, Interface};
use test_rows::begun::{COMMIT, GLOBALS, GREEN, RED, missed_after_map};
use test_rows::events::Event;
use test_rows::rows::{Case, Fault, Pixel, REGISTRY, Row, first_missed_case};
use wl_session::Fed;

/// The buffers 18, 19 and 20, one behind another in the pool 17: 4 by 4 pixels with a stride of 16,
/// of the format 1.
const BUFFER_18: Ask = Ask::CreateBuffer(17, 18, 0, 4, 4, 16, 1);

const BUFFER_19: Ask = Ask::CreateBuffer(17, 19, 64, 4, 4, 16, 1);

const BUFFER_20: Ask = Ask::CreateBuffer(17, 20, 128, 4, 4, 16, 1);

/// wl_surface.commit of the subsurface's surface 14.
pub(crate) const COMMIT_14: Ask = Ask::Commit(14);

/// wl_surface.attach of the surface 14. The buffer 18 is black, the first pixel of the buffer 19 is
/// red. Of the buffer 20 the first pixel is red and the last is green.
const ATTACH_18: Ask = Ask::Attach(14, 18);

const ATTACH_19: Ask = Ask::Attach(14, 19);

const ATTACH_20: Ask = Ask::Attach(14, 20);

/// wl_surface.damage of the first pixel of the surface 14, and of its last.
const FIRST_PIXEL: Ask = Ask::Damage(14, 0, 0, 1, 1);

const LAST_PIXEL: Ask = Ask::Damage(14, 3, 3, 1, 1);

/// The subsurface 16 of the toplevel stands at (4, 4). Its buffers lie in the store 2.
pub(crate) const SUBSURFACE: &[Row] = &[
    Row::Binds(2, Interface::Subcompositor, 1, 15, Fed::Alive),
    Row::Sends(Ask::CreateSurface(3, 14)),
    Row::Sends(Ask::GetSubsurface(15, 16, 14, 6)),
    Row::Sends(Ask::SetPosition(16, 4, 4)),
    Row::Sends(Ask::CreatePool(4, 17, 192)),
    Row::Sends(BUFFER_18),
    Row::Sends(BUFFER_19),
    Row::Sends(BUFFER_20),
    Row::Fills(1, 2, 64, 1, RED),
    Row::Fills(1, 2, 128, 1, RED),
    Row::Fills(1, 2, 188, 1, GREEN),
];

/// Nothing of the subsurface is seen but what is black as its parent.
const ALL_BLACK: &[Pixel] = &[
    Pixel(0, 0, 0, 0, 0),
    Pixel(4, 4, 0, 0, 0),
    Pixel(7, 7, 0, 0, 0),
    Pixel(39, 39, 0, 0, 0),
    Pixel(63, 47, 0, 0, 0),
];

/// It is mapped with the black buffer 18, by a commit of its own and then one of its parent
/// (wayland.xml, wl_subcompositor.get_subsurface).
/// All of the window is painted, each point once.
pub(crate) const SHOWN: &[Row] = &[
    Row::Sends(ATTACH_18),
    Row::Sends(COMMIT_14),
    Row::Sends(COMMIT),
    Row::Silent(1),
    Row::Shows(1600, 1600, ALL_BLACK),
];

/// Only the first pixel of the subsurface is red; those beside it are black.
const RED_AT_4: &[Pixel] = &[
    Pixel(4, 4, 255, 0, 0),
    Pixel(0, 0, 0, 0, 0),
    Pixel(3, 4, 0, 0, 0),
    Pixel(4, 3, 0, 0, 0),
    Pixel(5, 4, 0, 0, 0),
    Pixel(4, 5, 0, 0, 0),
    Pixel(7, 7, 0, 0, 0),
    Pixel(39, 39, 0, 0, 0),
];

/// Its first pixel is red and its last is green; those beside them are black.
const RED_AND_GREEN: &[Pixel] = &[
    Pixel(4, 4, 255, 0, 0),
    Pixel(7, 7, 0, 255, 0),
    Pixel(0, 0, 0, 0, 0),
    Pixel(3, 4, 0, 0, 0),
    Pixel(5, 4, 0, 0, 0),
    Pixel(5, 5, 0, 0, 0),
    Pixel(6, 7, 0, 0, 0),
    Pixel(8, 7, 0, 0, 0),
    Pixel(8, 8, 0, 0, 0),
    Pixel(39, 39, 0, 0, 0),
];

/// What a synchronised subsurface commits is held until its parent commits (wayland.xml,
/// wl_subsurface.set_sync). A later commit takes the place
/// of one that is held, whose buffer is released then though it was never shown
/// (wl_buffer.release). The damage of both adds up, and the buffer
/// that was shown is released with the commit of the parent.
const HELD: &[Row] = &[
    Row::Sends(ATTACH_19),
    Row::Sends(FIRST_PIXEL),
    Row::Sends(COMMIT_14),
    Row::Silent(1),
    Row::Sends(ATTACH_20),
    Row::Sends(LAST_PIXEL),
    Row::Sends(COMMIT_14),
    Row::Told(&[Event::Release(19)]),
    Row::Takes,
    Row::Shows(0, 0, ALL_BLACK),
    Row::Sends(COMMIT),
    Row::Told(&[Event::Release(18)]),
    Row::Takes,
    Row::Shows(2, 2, RED_AND_GREEN),
];

/// A subsurface that is no longer synchronised shows what was held at once, without a commit of its
/// parent
/// (wayland.xml, wl_subsurface.set_desync).
const SET_DESYNC: &[Row] = &[
    Row::Sends(ATTACH_19),
    Row::Sends(FIRST_PIXEL),
    Row::Sends(COMMIT_14),
    Row::Silent(1),
    Row::Paints(0, 0),
    Row::Sends(Ask::SetDesync(16)),
    Row::Told(&[Event::Release(18)]),
    Row::Takes,
    Row::Shows(1, 1, RED_AT_4),
];

/// Placed below its parent it is hidden by it once the parent commits (wayland.xml,
/// wl_subsurface.place_below). Its own points alone are painted
/// again.
pub(crate) const PLACE_BELOW: &[Row] = &[
    Row::Sends(Ask::PlaceBelow(16, 6)),
    Row::Sends(COMMIT),
    Row::Shows(16, 16, ALL_BLACK),
    Row::Silent(1),
];

/// Without its wl_subsurface a surface is unmapped at once (wayland.xml, wl_subsurface.destroy).
/// Its buffer isn't released before it commits none
/// (wl_buffer.release).
const DESTROY: &[Row] = &[
    Row::Sends(Ask::SubsurfaceDestroy(16)),
    Row::Told(&[Event::DeleteId(16)]),
    Row::Takes,
    Row::Shows(16, 16, ALL_BLACK),
    Row::Sends(Ask::Attach(14, 0)),
    Row::Sends(COMMIT_14),
    Row::Told(&[Event::Release(20)]),
];

/// Placed below and above its parent again, and synchronised as it is, it changes nothing. A frame
/// of its parent is answered at the tick
/// (wayland.xml, wl_surface.frame). Its wl_subsurface goes, and then its surface, whose buffer is
/// released (wl_buffer.release).
const PLACED_ABOVE_AGAIN: &[Row] = &[
    Row::Sends(Ask::PlaceBelow(16, 6)),
    Row::Sends(Ask::PlaceAbove(16, 6)),
    Row::Sends(Ask::SetSync(16)),
    Row::Sends(Ask::Frame(6, 21)),
    Row::Sends(COMMIT),
    Row::Silent(1),
    Row::Ticks(9, 0),
    Row::Told(&[Event::Done(21, 9), Event::DeleteId(21)]),
    Row::Takes,
    Row::Sends(Ask::SubsurfaceDestroy(16)),
    Row::Told(&[Event::DeleteId(16)]),
    Row::Takes,
    Row::Sends(Ask::SurfaceDestroy(14)),
    Row::Told(&[Event::DeleteId(14), Event::Release(20)]),
];

/// The damage of commits that are held adds up (wayland.xml, wl_surface.damage): 1,024 rectangles
/// in all count one by one.
const RECTANGLES_1024: &[Row] = &[
    Row::Changes(511, FIRST_PIXEL, FIRST_PIXEL),
    Row::Sends(FIRST_PIXEL),
    Row::Sends(COMMIT_14),
    Row::Sends(FIRST_PIXEL),
    Row::Sends(COMMIT_14),
    Row::Sends(COMMIT),
    Row::Silent(1),
    Row::Paints(1, 1),
];

/// One more means the whole surface, though no commit has more than 1,024 of its own.
const RECTANGLES_1025: &[Row] = &[
    Row::Changes(512, FIRST_PIXEL, FIRST_PIXEL),
    Row::Sends(COMMIT_14),
    Row::Sends(FIRST_PIXEL),
    Row::Sends(COMMIT_14),
    Row::Sends(COMMIT),
    Row::Silent(1),
    Row::Paints(16, 16),
];

/// Each begins with a subsurface of a toplevel, both shown.
const CASES: &[Case] = &[
    ("what it commits is held", &[SUBSURFACE, SHOWN, HELD]),
    (
        "it is synchronised no longer",
        &[SUBSURFACE, SHOWN, SET_DESYNC],
    ),
    (
        "its parent hides it",
        &[SUBSURFACE, SHOWN, HELD, PLACE_BELOW],
    ),
    (
        "its wl_subsurface goes",
        &[SUBSURFACE, SHOWN, HELD, DESTROY],
    ),
    (
        "it is placed above again, and goes",
        &[SUBSURFACE, SHOWN, HELD, PLACED_ABOVE_AGAIN],
    ),
    (
        "1,024 held rectangles",
        &[SUBSURFACE, SHOWN, RECTANGLES_1024],
    ),
    (
        "1,025 held rectangles",
        &[SUBSURFACE, SHOWN, RECTANGLES_1025],
    ),
];

#[test]
fn subsurfaces_are_as_worked(rt: HostRuntime) {
    assert_eq!(rt; missed_after_map(rt.alloc(), CASES), None);
}

/// The wl_subcompositor 9, and the surfaces 100 to 117. From 101 on each up to 115 is a subsurface
/// of the one before it: 115 is at depth 15.
const DEPTH_15: &[Row] = &[
    Row::Binds(2, Interface::Subcompositor, 1, 9, Fed::Alive),
    Row::MakesSurfaces(100, 118),
    Row::Nests(101, 116),
    Row::Silent(1),
];

/// wl_display.error of wl_display with implementation.
const TOO_DEEP: Row = Row::ErrorTold(1, 3, b"implementation");

/// One at depth 16 is made, and none below it: the limit of this compositor on
/// wl_subcompositor.get_subsurface, where a surface without a parent
/// is at depth 0.
const DEPTH_17: &[Row] = &[
    Row::Nests(116, 117),
    Row::Silent(1),
    Row::Errs(Ask::GetSubsurface(9, 217, 117, 116), 1, 3),
    TOO_DEEP,
];

/// It holds for what hangs below the surface already as well: the new subsurface would be at depth
/// 16, and its own one at 17.
const PUSHED_TO_DEPTH_17: &[Row] = &[
    Row::Nests(117, 118),
    Row::Silent(1),
    Row::Errs(Ask::GetSubsurface(9, 216, 116, 115), 1, 3),
    TOO_DEEP,
];

const DEEP: &[Case] = &[
    ("it is too deep", &[DEPTH_17]),
    ("its own subsurface is too deep", &[PUSHED_TO_DEPTH_17]),
];

/// The first of the cases that isn't as wanted after the subsurface at depth 15 was made, and what
/// wasn't.
fn missed_after_depth_15(alloc: Global, cases: &[Case]) -> Option<(usize, Fault)> {
    first_missed_case(alloc, &[REGISTRY, GLOBALS, DEPTH_15], cases)
}

#[test]
fn subsurfaces_go_16_deep(rt: HostRuntime) {
    assert_eq!(rt; missed_after_depth_15(rt.alloc(), DEEP), None);
}
