//! Worked sessions as acts: two clients whose windows overlap, one with a subsurface, and one whose
//! buffer two surfaces show.

use crate::acts::{Act, Layer};
use test_rows::asks::{Ask, Interface};
use test_rows::begun::{
    ANNOUNCED, ATTACH_10, BUFFER_10, BUFFER_11, COMMIT, CONFIGURED, POOL_12800,
};
use test_rows::events::Event;

/// The registry 2, the wl_compositor 3, the wl_shm 4, the xdg_wm_base 5, and the toplevel 8 of the
/// surface 6, which was configured.
pub(crate) const BEGINS: &[Ask] = &[
    Ask::GetRegistry(2),
    Ask::Bind(2, 1, Interface::Compositor, 2, 3),
    Ask::Bind(2, 3, Interface::Shm, 1, 4),
    Ask::Bind(2, 6, Interface::WmBase, 1, 5),
    Ask::CreateSurface(3, 6),
    Ask::GetXdgSurface(5, 7, 6),
    Ask::GetToplevel(7, 8),
    COMMIT,
    Ask::AckConfigure(7, 1),
];

/// What it is told, after the globals: the formats, and the first configure.
pub(crate) const BEGUN: &[Event] = &[
    Event::Format(4, 0),
    Event::Format(4, 1),
    CONFIGURED,
    Event::Configure(7, 1),
];

/// The pool 9 with the buffers 10 and 11 of 40 by 40 pixels.
pub(crate) const WIDE_BUFFERS: &[Ask] = &[POOL_12800, BUFFER_10, BUFFER_11];

/// The same with buffers of 8 by 8 pixels.
const SMALL_BUFFERS: &[Ask] = &[
    POOL_12800,
    Ask::CreateBuffer(9, 10, 0, 8, 8, 32, 1),
    Ask::CreateBuffer(9, 11, 256, 8, 8, 32, 1),
];

/// The buffer 10 is attached and damaged, and the toplevel is mapped.
pub(crate) const MAPS_WIDE: &[Ask] = &[ATTACH_10, Ask::Damage(6, 0, 0, 40, 40), COMMIT];

const MAPS_SMALL: &[Ask] = &[ATTACH_10, Ask::Damage(6, 0, 0, 8, 8), COMMIT];

/// Three red pixels, as a store has them.
const THREE_RED: &[u8] = &[0, 0, 255, 0, 0, 0, 255, 0, 0, 0, 255, 0];

const RED: [u8; 3] = [0, 0, 255];

const GREEN: [u8; 3] = [0, 255, 0];

const BLACK: [u8; 3] = [0, 0, 0];

const GREY: [u8; 3] = [128, 128, 128];

/// The window of the client 1, all of one colour.
const WIDE: Layer = Layer {
    client: 1,
    x: 0,
    y: 0,
    w: 40,
    h: 40,
    color: BLACK,
};

/// Its nine red points.
const NINE: Layer = Layer {
    client: 1,
    x: 31,
    y: 33,
    w: 3,
    h: 3,
    color: RED,
};

/// The window of the client 2.
const SMALL: Layer = Layer {
    client: 2,
    x: 0,
    y: 0,
    w: 8,
    h: 8,
    color: GREY,
};

/// The buffer 11, of which nine points are red, takes the place of the buffer 10.
const CHANGES_NINE: &[Ask] = &[Ask::Attach(6, 11), Ask::Damage(6, 31, 33, 3, 3), COMMIT];

const RELEASED_10: &[Event] = &[Event::Release(10)];

/// The client 1 has a toplevel that was configured, and its buffers.
pub(crate) const FIRST_CLIENT: &[Act] = &[
    Act::Connects(1),
    Act::Sends(1, BEGINS),
    Act::Told(1, ANNOUNCED),
    Act::Told(1, BEGUN),
    Act::Sends(1, WIDE_BUFFERS),
];

/// The client 2 has a toplevel that was configured.
pub(crate) const SECOND_CLIENT: &[Act] = &[
    Act::Connects(2),
    Act::Sends(2, BEGINS),
    Act::Told(2, ANNOUNCED),
    Act::Told(2, BEGUN),
];

/// The window of the client 1 is mapped in black; nine points of its other buffer are red.
pub(crate) const BLACK_WINDOW: &[Act] = &[
    Act::Stores(1, 1, 11804, THREE_RED),
    Act::Stores(1, 1, 11964, THREE_RED),
    Act::Stores(1, 1, 12124, THREE_RED),
    Act::Maps(1, MAPS_WIDE),
    Act::Shows(&[WIDE]),
];

/// The client 2 shows a grey window above that; then nine points of the lower one change.
pub(crate) const TWO_WINDOWS: &[Act] = &[
    Act::Sends(2, SMALL_BUFFERS),
    Act::Fills(2, 1, 0, 256, 128),
    Act::Maps(2, MAPS_SMALL),
    Act::Shows(&[WIDE, SMALL]),
    Act::Silent(1),
    Act::Sends(1, CHANGES_NINE),
    Act::Told(1, RELEASED_10),
    Act::Shows(&[WIDE, NINE, SMALL]),
    Act::Silent(1),
    Act::Silent(2),
];

/// The wl_subcompositor 15, the surface 14 as a subsurface 16 at (4, 4), and its buffers 18, 19 and
/// 20 of 4 by 4 pixels in the pool 17.
const MAKES_SUBSURFACE: &[Ask] = &[
    Ask::Bind(2, 2, Interface::Subcompositor, 1, 15),
    Ask::CreateSurface(3, 14),
    Ask::GetSubsurface(15, 16, 14, 6),
    Ask::SetPosition(16, 4, 4),
    Ask::CreatePool(4, 17, 192),
    Ask::CreateBuffer(17, 18, 0, 4, 4, 16, 1),
    Ask::CreateBuffer(17, 19, 64, 4, 4, 16, 1),
    Ask::CreateBuffer(17, 20, 128, 4, 4, 16, 1),
];

const COMMIT_14: Ask = Ask::Commit(14);

const SHOWS_18: &[Ask] = &[Ask::Attach(14, 18), COMMIT_14, COMMIT];

/// A commit with the buffer 19 is held, and then one with the buffer 20.
const HOLDS_19: &[Ask] = &[Ask::Attach(14, 19), Ask::Damage(14, 0, 0, 1, 1), COMMIT_14];

const HOLDS_20: &[Ask] = &[Ask::Attach(14, 20), Ask::Damage(14, 3, 3, 1, 1), COMMIT_14];

const COMMITS: &[Ask] = &[COMMIT];

/// The window of the client 1 in grey, and the subsurface in it with its first and its last point.
pub(crate) const PARENT: Layer = Layer {
    client: 1,
    x: 0,
    y: 0,
    w: 40,
    h: 40,
    color: GREY,
};

const CHILD: Layer = Layer {
    client: 1,
    x: 4,
    y: 4,
    w: 4,
    h: 4,
    color: BLACK,
};

const FIRST: Layer = Layer {
    client: 1,
    x: 4,
    y: 4,
    w: 1,
    h: 1,
    color: RED,
};

const LAST: Layer = Layer {
    client: 1,
    x: 7,
    y: 7,
    w: 1,
    h: 1,
    color: GREEN,
};

/// Its window is mapped in grey.
pub(crate) const GREY_WINDOW: &[Act] = &[Act::Fills(1, 1, 0, 6400, 128), Act::Maps(1, MAPS_WIDE)];

/// A subsurface is shown by a commit of its parent.
pub(crate) const SUBSURFACE: &[Act] = &[
    Act::Sends(1, MAKES_SUBSURFACE),
    Act::Stores(1, 2, 64, &[0, 0, 255, 0]),
    Act::Stores(1, 2, 128, &[0, 0, 255, 0]),
    Act::Stores(1, 2, 188, &[0, 255, 0, 0]),
    Act::Sends(1, SHOWS_18),
    Act::Shows(&[PARENT, CHILD]),
];

/// Two commits of it are held, and shown with the next one of its parent.
pub(crate) const HELD: &[Act] = &[
    Act::Sends(1, HOLDS_19),
    Act::Silent(1),
    Act::Sends(1, HOLDS_20),
    Act::Told(1, &[Event::Release(19)]),
    Act::Shows(&[PARENT, CHILD]),
    Act::Silent(1),
    Act::Sends(1, COMMITS),
    Act::Told(1, &[Event::Release(18)]),
    Act::Shows(&[PARENT, CHILD, FIRST, LAST]),
    Act::Silent(1),
];

/// The surface 14 without a role shows the buffer 10 too.
const SHOWS_10_TWICE: &[Ask] = &[Ask::CreateSurface(3, 14), Ask::Attach(14, 10), COMMIT_14];

const ATTACHES_11: &[Ask] = &[Ask::Attach(6, 11), Ask::Damage(6, 0, 0, 40, 40), COMMIT];

const NONE_FOR_14: &[Ask] = &[Ask::Attach(14, 0), COMMIT_14];

/// A buffer that two surfaces show is released once neither does.
pub(crate) const SHOWN_TWICE: &[Act] = &[
    Act::Shows(&[PARENT]),
    Act::Sends(1, SHOWS_10_TWICE),
    Act::Sends(1, ATTACHES_11),
    Act::Silent(1),
    Act::Shows(&[WIDE]),
    Act::Sends(1, NONE_FOR_14),
    Act::Told(1, RELEASED_10),
    Act::Silent(1),
    Act::Shows(&[WIDE]),
];
