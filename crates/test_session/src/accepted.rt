//! Each request that is served, where it is accepted: its client lives on, and is told what the
//! protocol says (wayland.xml and xdg-shell.xml).

use std::alloc::Global;
use test_rows::asks::{Ask, Interface};
use test_rows::begun::{
    ACKNOWLEDGES, ANNOUNCED, ATTACH_10, BUFFER_10, BUFFERS, COMMIT, CONFIGURED, CONFIGURES,
    GLOBALS, GLOBALS_4, GREEN, MADE, MAPS,
};
use test_rows::events::Event;
use test_rows::rows::{CLIENT, Fault, Pixel, REGISTRY, Row, play, play_after};
use wl_session::{Done, Fed, Step};

/// The requests of wl_display, wl_registry, wl_compositor, wl_region, wl_shm, wl_shm_pool and
/// wl_buffer.
const CORE: &[Row] = &[
    Row::Accepts(Ask::Sync(2), &[Event::Done(2, 0), Event::DeleteId(2)]),
    Row::Accepts(Ask::GetRegistry(2), ANNOUNCED),
    Row::Untold(Ask::Bind(2, 1, Interface::Compositor, 2, 3)),
    Row::Accepts(
        Ask::Bind(2, 3, Interface::Shm, 1, 4),
        &[Event::Format(4, 0), Event::Format(4, 1)],
    ),
    Row::Untold(Ask::CreateSurface(3, 6)),
    Row::Untold(Ask::CreateRegion(3, 12)),
    Row::Untold(Ask::RegionAdd(12, 0, 0, 40, 40)),
    Row::Untold(Ask::RegionSubtract(12, 0, 0, 40, 40)),
    Row::Accepts(Ask::RegionDestroy(12), &[Event::DeleteId(12)]),
    Row::Untold(Ask::CreatePool(4, 9, 6400)),
    Row::Untold(BUFFER_10),
    Row::Store(1, 1, Some(6400)),
    Row::Untold(Ask::PoolResize(9, 12800)),
    Row::Store(1, 1, Some(12800)),
    Row::Accepts(Ask::PoolDestroy(9), &[Event::DeleteId(9)]),
    Row::Accepts(Ask::BufferDestroy(10), &[Event::DeleteId(10)]),
    Row::Store(1, 1, None),
];

#[test]
fn requests_of_the_core_are_accepted(rt: HostRuntime) {
    assert_eq!(rt; play(rt.alloc(), &[CLIENT, CORE]), Ok(()));
}

/// The requests of wl_surface but destroy: the window is shown, and its frame callback is answered.
const OF_A_SURFACE: &[Row] = &[
    Row::Sends(Ask::CreateRegion(3, 12)),
    Row::Sends(Ask::RegionAdd(12, 0, 0, 40, 40)),
    Row::Untold(ATTACH_10),
    Row::Untold(Ask::Damage(6, 0, 0, 40, 40)),
    Row::Untold(Ask::Frame(6, 14)),
    Row::Untold(Ask::SetOpaqueRegion(6, 12)),
    Row::Untold(Ask::SetInputRegion(6, 12)),
    Row::Untold(Ask::SetBufferTransform(6, 2)),
    Row::Untold(COMMIT),
    Row::Paints(1600, 1600),
    Row::Told(&[Event::Done(14, 0), Event::DeleteId(14)]),
    Row::Takes,
];

/// Those of later versions: the buffer's 40 by 40 pixels are 20 by 20 points, and four pixels that
/// are damaged are one.
const OF_A_SCALED_SURFACE: &[Row] = &[
    Row::Untold(Ask::SetBufferScale(6, 2)),
    Row::Untold(ATTACH_10),
    Row::Untold(Ask::DamageBuffer(6, 0, 0, 40, 40)),
    Row::Untold(COMMIT),
    Row::Paints(400, 400),
    Row::Untold(Ask::DamageBuffer(6, 4, 6, 2, 2)),
    Row::Untold(COMMIT),
    Row::Paints(1, 1),
];

fn accepts_scale(alloc: Global) -> Result<(), Fault> {
    play_after(alloc, CONFIGURED_LATEST, &[OF_A_SCALED_SURFACE])
}

#[test]
fn requests_of_scaled_surfaces_are_accepted(rt: HostRuntime) {
    assert_eq!(rt; accepts_scale(rt.alloc()), Ok(()));
}

/// Those of wl_subcompositor and wl_subsurface: the green surface 17 is shown at (4, 4), above its
/// parent. Its surface goes, and so does the wl_subcompositor.
const OF_A_SUBSURFACE: &[Row] = &[
    Row::Fills(1, 1, 6400, 1600, GREEN),
    Row::Binds(2, Interface::Subcompositor, 1, 15, Fed::Alive),
    Row::Sends(Ask::CreateSurface(3, 17)),
    Row::Sends(Ask::Attach(17, 11)),
    Row::Untold(Ask::GetSubsurface(15, 18, 17, 6)),
    Row::Untold(Ask::SetPosition(18, 4, 4)),
    Row::Untold(Ask::PlaceBelow(18, 6)),
    Row::Untold(Ask::PlaceAbove(18, 6)),
    Row::Untold(Ask::SetDesync(18)),
    Row::Untold(Ask::SetSync(18)),
    Row::Untold(Ask::Commit(17)),
    Row::Untold(COMMIT),
    Row::Shows(
        1600,
        1936,
        &[
            Pixel(3, 4, 0, 0, 0),
            Pixel(4, 3, 0, 0, 0),
            Pixel(4, 4, 0, 255, 0),
            Pixel(43, 43, 0, 255, 0),
            Pixel(44, 43, 0, 0, 0),
        ],
    ),
    Row::Accepts(Ask::SubsurfaceDestroy(18), &[Event::DeleteId(18)]),
    Row::Accepts(
        Ask::SurfaceDestroy(17),
        &[Event::DeleteId(17), Event::Release(11)],
    ),
    Row::Accepts(Ask::SubcompositorDestroy(15), &[Event::DeleteId(15)]),
];

#[test]
fn requests_of_surfaces_are_accepted(rt: HostRuntime) {
    assert_eq!(rt; accepts_surfaces(rt.alloc()), Ok(()));
}

fn accepts_surfaces(alloc: Global) -> Result<(), Fault> {
    play_after(alloc, CONFIGURED_TOPLEVEL, &[OF_A_SURFACE, OF_A_SUBSURFACE])
}

/// A toplevel whose configure was acknowledged, and its buffers.
const CONFIGURED_TOPLEVEL: &[&[Row]] = &[
    REGISTRY,
    GLOBALS,
    MADE,
    CONFIGURES,
    ACKNOWLEDGES,
    BUFFERS,
];

/// The same by globals at their latest versions.
const CONFIGURED_LATEST: &[&[Row]] = &[
    REGISTRY,
    GLOBALS_4,
    MADE,
    CONFIGURES,
    ACKNOWLEDGES,
    BUFFERS,
];

/// The wl_seat 12, the wl_output 13 and the surface 6.
const SEATED: &[Row] = &[
    Row::Binds(5, Interface::Seat, 1, 12, Fed::Alive),
    Row::Binds(4, Interface::Output, 1, 13, Fed::Alive),
    Row::Sends(Ask::CreateSurface(3, 6)),
    Row::Takes,
];

/// The requests of xdg_wm_base, xdg_surface and xdg_toplevel up to the first configure, and its
/// acknowledgement.
const OF_THE_SHELL: &[Row] = &[
    Row::Untold(Ask::Pong(5, 7)),
    Row::Untold(Ask::GetXdgSurface(5, 7, 6)),
    Row::Untold(Ask::GetToplevel(7, 8)),
    Row::Untold(Ask::SetParent(8, 0)),
    Row::Untold(Ask::SetTitle(8)),
    Row::Untold(Ask::SetAppId(8)),
    Row::Untold(Ask::SetMaxSize(8, 80, 80)),
    Row::Untold(Ask::SetMinSize(8, 1, 1)),
    Row::Accepts(COMMIT, &[CONFIGURED, Event::Configure(7, 1)]),
    Row::Untold(Ask::AckConfigure(7, 1)),
    Row::Untold(Ask::SetWindowGeometry(7, 0, 0, 40, 40)),
];

/// Those of a mapped xdg_toplevel. What asks for another state is answered by a configure; no other
/// request but destroy has an effect, for the seat has
/// told of no press.
const OF_A_TOPLEVEL: &[Row] = &[
    Row::Untold(Ask::ShowWindowMenu(8, 12, 1, 3, 4)),
    Row::Untold(Ask::Move(8, 12, 1)),
    Row::Untold(Ask::ToplevelResize(8, 12, 1, 8)),
    Row::Accepts(Ask::SetMaximized(8), &[CONFIGURED, Event::Configure(7, 2)]),
    Row::Accepts(
        Ask::UnsetMaximized(8),
        &[CONFIGURED, Event::Configure(7, 3)],
    ),
    Row::Accepts(
        Ask::SetFullscreen(8, 13),
        &[CONFIGURED, Event::Configure(7, 4)],
    ),
    Row::Accepts(
        Ask::UnsetFullscreen(8),
        &[CONFIGURED, Event::Configure(7, 5)],
    ),
    Row::Untold(Ask::SetMinimized(8)),
    Row::Paints(1600, 1600),
    Row::Accepts(Ask::ToplevelDestroy(8), &[Event::DeleteId(8)]),
    Row::Accepts(Ask::XdgSurfaceDestroy(7), &[Event::DeleteId(7)]),
    Row::Accepts(Ask::WmBaseDestroy(5), &[Event::DeleteId(5)]),
    Row::Paints(1600, 1600),
];

/// The wl_pointer 14 tells of a press with the serial 3.
const PRESSED: &[Row] = &[
    Row::Untold(Ask::GetPointer(12, 14)),
    Row::Calls(
        Step::Motion {
            time: 1,
            x: 5,
            y: 4,
        },
        Done::Motion,
    ),
    Row::Calls(
        Step::Button {
            time: 2,
            button: 272,
            pressed: true,
        },
        Done::Button,
    ),
    Row::Takes,
    Row::Untold(Ask::SetCursor(14, 2, 0, 0, 0)),
];

/// Those of xdg_positioner, get_popup, and the requests of xdg_popup: the popup 19 of the surface
/// 16 grabs with that serial.
const OF_A_POPUP: &[Row] = &[
    Row::Untold(Ask::CreatePositioner(5, 15)),
    Row::Untold(Ask::SetSize(15, 8, 8)),
    Row::Untold(Ask::SetAnchorRect(15, 0, 0, 40, 40)),
    Row::Untold(Ask::SetAnchor(15, 8)),
    Row::Untold(Ask::SetGravity(15, 8)),
    Row::Untold(Ask::SetConstraintAdjustment(15, 63)),
    Row::Untold(Ask::SetOffset(15, -1, 1)),
    Row::Untold(Ask::CreateSurface(3, 16)),
    Row::Untold(Ask::GetXdgSurface(5, 17, 16)),
    Row::Untold(Ask::GetPopup(17, 19, 7, 15)),
    Row::Untold(Ask::Grab(19, 12, 3)),
    Row::Accepts(Ask::PopupDestroy(19), &[Event::DeleteId(19)]),
    Row::Accepts(Ask::PositionerDestroy(15), &[Event::DeleteId(15)]),
];

fn accepts_popup(alloc: Global) -> Result<(), Fault> {
    play_after(
        alloc,
        &[REGISTRY, GLOBALS, BUFFERS, SEATED],
        &[OF_THE_SHELL, MAPS, PRESSED, OF_A_POPUP],
    )
}

#[test]
fn requests_of_popups_are_accepted(rt: HostRuntime) {
    assert_eq!(rt; accepts_popup(rt.alloc()), Ok(()));
}

/// Those of later versions: the positioner 15 is told more, of any numbers, which changes nothing,
/// and places the popup 19 anew.
const OF_A_LATER_POPUP: &[Row] = &[
    Row::Untold(Ask::CreatePositioner(5, 15)),
    Row::Untold(Ask::SetSize(15, 8, 8)),
    Row::Untold(Ask::SetAnchorRect(15, 0, 0, 40, 40)),
    Row::Untold(Ask::SetReactive(15)),
    Row::Untold(Ask::SetParentSize(15, -2147483648, 0)),
    Row::Untold(Ask::SetParentConfigure(15, 4294967295)),
    Row::Untold(Ask::CreateSurface(3, 16)),
    Row::Untold(Ask::GetXdgSurface(5, 17, 16)),
    Row::Untold(Ask::GetPopup(17, 19, 7, 15)),
    Row::Accepts(
        Ask::Commit(16),
        &[
            Event::PopupConfigure(19, 16, 16, 8, 8),
            Event::Configure(17, 2),
        ],
    ),
    Row::Untold(Ask::SetOffset(15, -1, 1)),
    Row::Accepts(
        Ask::Reposition(19, 15, 4294967295),
        &[
            Event::Repositioned(19, 4294967295),
            Event::PopupConfigure(19, 15, 17, 8, 8),
            Event::Configure(17, 3),
        ],
    ),
];

fn accepts_later_popup(alloc: Global) -> Result<(), Fault> {
    play_after(alloc, CONFIGURED_LATEST, &[MAPS, OF_A_LATER_POPUP])
}

#[test]
fn requests_of_later_popups_are_accepted(rt: HostRuntime) {
    assert_eq!(rt; accepts_later_popup(rt.alloc()), Ok(()));
}

fn accepts_shell(alloc: Global) -> Result<(), Fault> {
    play_after(
        alloc,
        &[REGISTRY, GLOBALS, BUFFERS, SEATED],
        &[OF_THE_SHELL, MAPS, OF_A_TOPLEVEL],
    )
}

#[test]
fn requests_of_the_shell_are_accepted(rt: HostRuntime) {
    assert_eq!(rt; accepts_shell(rt.alloc()), Ok(()));
}
