//! What many rows begin with: the globals that a client binds, its buffers, and a toplevel that is
//! mapped.

use crate::asks::{Ask, Interface};
use crate::events::Event;
use crate::rows::{Case, Fault, REGISTRY, Row, first_missed_case};
use std::alloc::Global;
use wl_session::{Done, Fed, Step};

/// What the registry 2 tells.
pub const ANNOUNCED: &[Event] = &[
    Event::Global(2, 1, Interface::Compositor, 4),
    Event::Global(2, 2, Interface::Subcompositor, 1),
    Event::Global(2, 3, Interface::Shm, 1),
    Event::Global(2, 4, Interface::Output, 1),
    Event::Global(2, 5, Interface::Seat, 1),
    Event::Global(2, 6, Interface::WmBase, 3),
];

/// The wl_compositor 3 and the wl_shm 4, by the registry 2.
pub const SHM: &[Row] = &[
    Row::Binds(1, Interface::Compositor, 2, 3, Fed::Alive),
    Row::Binds(3, Interface::Shm, 1, 4, Fed::Alive),
    Row::Takes,
];

/// The wl_compositor 3, the wl_shm 4 and the xdg_wm_base 5, by the registry 2.
pub const GLOBALS: &[Row] = &[
    Row::Binds(1, Interface::Compositor, 2, 3, Fed::Alive),
    Row::Binds(3, Interface::Shm, 1, 4, Fed::Alive),
    Row::Binds(6, Interface::WmBase, 1, 5, Fed::Alive),
    Row::Takes,
];

/// The same, the wl_compositor 3 at version 4 and the xdg_wm_base 5 at version 3.
pub const GLOBALS_4: &[Row] = &[
    Row::Binds(1, Interface::Compositor, 4, 3, Fed::Alive),
    Row::Binds(3, Interface::Shm, 1, 4, Fed::Alive),
    Row::Binds(6, Interface::WmBase, 3, 5, Fed::Alive),
    Row::Takes,
];

/// The pool 9 of so many bytes.
pub const POOL_12800: Ask = Ask::CreatePool(4, 9, 12800);

/// The buffer 10 of the pool 9 at its start, and the buffer 11 behind it: 40 by 40 pixels with a
/// stride of 160, of the format 1.
pub const BUFFER_10: Ask = Ask::CreateBuffer(9, 10, 0, 40, 40, 160, 1);

pub const BUFFER_11: Ask = Ask::CreateBuffer(9, 11, 6400, 40, 40, 160, 1);

/// The pool 9 of 12,800 bytes and its buffers 10 and 11.
pub const BUFFERS: &[Row] = &[
    Row::Sends(POOL_12800),
    Row::Sends(BUFFER_10),
    Row::Sends(BUFFER_11),
];

/// Pixels as a store has them: blue, green, red and alpha.
pub const RED: [u8; 4] = [0, 0, 255, 0];

pub const GREEN: [u8; 4] = [0, 255, 0, 0];

/// The buffer 10 is all red before it is shown.
pub const RED_10: &[Row] = &[Row::Fills(1, 1, 0, 1600, RED)];

/// The surface 6 with its xdg_surface 7 and its toplevel 8.
pub const MADE: &[Row] = &[
    Row::Sends(Ask::CreateSurface(3, 6)),
    Row::Sends(Ask::GetXdgSurface(5, 7, 6)),
    Row::Sends(Ask::GetToplevel(7, 8)),
    Row::Silent(1),
];

pub const COMMIT: Ask = Ask::Commit(6);

/// xdg_toplevel.configure of the toplevel 8: of no size, and activated.
pub const CONFIGURED: Event = Event::ToplevelConfigure(8, 0, 0);

/// Its first commit is answered with a configure.
pub const CONFIGURES: &[Row] = &[
    Row::Sends(COMMIT),
    Row::Told(&[CONFIGURED, Event::Configure(7, 1)]),
    Row::Takes,
];

pub const ACKNOWLEDGES: &[Row] = &[Row::Sends(Ask::AckConfigure(7, 1)), Row::Silent(1)];

/// wl_surface.attach of a buffer, or of none for null.
pub const ATTACH_10: Ask = Ask::Attach(6, 10);

pub const ATTACH_NONE: Ask = Ask::Attach(6, 0);

/// The buffer 10 is attached, all of it is damaged, and the toplevel is mapped.
pub const MAPS: &[Row] = &[
    Row::Sends(ATTACH_10),
    Row::Sends(Ask::Damage(6, 0, 0, 40, 40)),
    Row::Sends(COMMIT),
    Row::Silent(1),
];

/// The wl_seat 12, and its wl_pointer 13.
pub const SEATED: &[Row] = &[
    Row::Binds(5, Interface::Seat, 1, 12, Fed::Alive),
    Row::Takes,
    Row::Sends(Ask::GetPointer(12, 13)),
];

/// The client 2 has the registry 2, the wl_compositor 3, the wl_shm 4 and the xdg_wm_base 5, and a
/// toplevel that was configured.
pub const SECOND: &[Row] = &[
    Row::Calls(Step::Connect, Done::Connect(Ok(2))),
    Row::From(2, Ask::GetRegistry(2)),
    Row::From(2, Ask::Bind(2, 1, Interface::Compositor, 2, 3)),
    Row::From(2, Ask::Bind(2, 3, Interface::Shm, 1, 4)),
    Row::From(2, Ask::Bind(2, 6, Interface::WmBase, 1, 5)),
    Row::From(2, Ask::CreateSurface(3, 6)),
    Row::From(2, Ask::GetXdgSurface(5, 7, 6)),
    Row::From(2, Ask::GetToplevel(7, 8)),
    Row::From(2, COMMIT),
    Row::From(2, Ask::AckConfigure(7, 1)),
    Row::From(2, Ask::CreatePool(4, 9, 6400)),
    Row::TakesOf(2),
];

/// A toplevel whose configure was acknowledged, and its buffers.
const BUFFERED: &[&[Row]] = &[REGISTRY, GLOBALS, MADE, CONFIGURES, ACKNOWLEDGES, BUFFERS];

/// A toplevel that shows the buffer 10, with the buffer 11 beside it.
pub const MAPPED: &[&[Row]] = &[
    REGISTRY,
    GLOBALS,
    MADE,
    CONFIGURES,
    ACKNOWLEDGES,
    BUFFERS,
    MAPS,
];

/// The first of the cases that isn't as wanted after the toplevel's configure was acknowledged and
/// its buffers were made, and what wasn't.
pub fn missed_after_buffers(alloc: Global, cases: &[Case]) -> Option<(usize, Fault)> {
    first_missed_case(alloc, BUFFERED, cases)
}

/// The first of the cases that isn't as wanted after the toplevel was mapped, and what wasn't.
pub fn missed_after_map(alloc: Global, cases: &[Case]) -> Option<(usize, Fault)> {
    first_missed_case(alloc, MAPPED, cases)
}
