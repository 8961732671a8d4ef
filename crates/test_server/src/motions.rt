//! Motions and buttons of a pointer file, which a client with a wl_pointer is told.

use crate::memory::{Client, MemoryHub, OneFile};
use crate::turns::{CONFIG, takes};
use std::alloc::Global;
use wl_recording::PointerLine;
use wl_server::{Connections, Recorded, Service};
use wl_session::Session;

/// The globals wl_compositor, wl_shm, xdg_wm_base and wl_seat are bound as 3, 4, 5 and 12, and the
/// wl_pointer 13 is made. A toplevel of the surface 6 gets its first commit, and acknowledges the
/// configure of serial 1. A buffer of 2 by 1 pixels, of a pool of 8 bytes, is attached, and the
/// surface is committed.
pub(crate) const WINDOW: &[u8] = b"\x01\0\0\0\x01\0\x0c\0\x02\0\0\0\
\x02\0\0\0\0\0\x28\0\x01\0\0\0\x0e\0\0\0wl_compositor\0\0\0\x02\0\0\0\x03\0\0\0\
\x02\0\0\0\0\0\x20\0\x03\0\0\0\x07\0\0\0wl_shm\0\0\x01\0\0\0\x04\0\0\0\
\x02\0\0\0\0\0\x24\0\x06\0\0\0\x0c\0\0\0xdg_wm_base\0\x01\0\0\0\x05\0\0\0\
\x02\0\0\0\0\0\x20\0\x05\0\0\0\x08\0\0\0wl_seat\0\x01\0\0\0\x0c\0\0\0\
\x0c\0\0\0\0\0\x0c\0\x0d\0\0\0\
\x03\0\0\0\0\0\x0c\0\x06\0\0\0\
\x05\0\0\0\x02\0\x10\0\x07\0\0\0\x06\0\0\0\
\x07\0\0\0\x01\0\x0c\0\x08\0\0\0\
\x06\0\0\0\x06\0\x08\0\
\x07\0\0\0\x04\0\x0c\0\x01\0\0\0\
\x04\0\0\0\0\0\x10\0\x09\0\0\0\x08\0\0\0\
\x09\0\0\0\0\0\x20\0\x0a\0\0\0\0\0\0\0\x02\0\0\0\x01\0\0\0\x08\0\0\0\x01\0\0\0\
\x06\0\0\0\x01\0\x14\0\x0a\0\0\0\0\0\0\0\0\0\0\0\
\x06\0\0\0\x06\0\x08\0";

/// The first motion is due in the second turn, the two after it in the third, and the press in the
/// fourth. What is behind it is due in the sixth, since the release waits for the motion before it.
pub(crate) const LINES: &[PointerLine] = &[
    PointerLine::Skip,
    PointerLine::Motion {
        time: 2,
        x: 1,
        y: 0,
    },
    PointerLine::Motion {
        time: 3,
        x: 0,
        y: 0,
    },
    PointerLine::Motion {
        time: 2,
        x: 7,
        y: -7,
    },
    PointerLine::Button {
        time: 4,
        code: 272,
        pressed: true,
    },
    PointerLine::Motion {
        time: 6,
        x: 0,
        y: 0,
    },
    PointerLine::Button {
        time: 1,
        code: 272,
        pressed: false,
    },
    PointerLine::Button {
        time: 6,
        code: 272,
        pressed: false,
    },
];

/// wl_pointer.enter with the serial 2, of the surface 6 at (1, 0).
pub(crate) const ENTER: &[u8] = b"\x0d\0\0\0\0\0\x18\0\x02\0\0\0\x06\0\0\0\0\x01\0\0\0\0\0\0";

/// wl_pointer.motion at the time 3 at (0, 0), and at the time 2 at (1, 0), which is the end of the
/// output.
const MOTIONS: &[u8] = b"\x0d\0\0\0\x02\0\x14\0\x03\0\0\0\0\0\0\0\0\0\0\0\
\x0d\0\0\0\x02\0\x14\0\x02\0\0\0\0\x01\0\0\0\0\0\0";

/// wl_pointer.button with the serial 3: the button 272 is pressed, at the time 4.
const PRESS: &[u8] = b"\x0d\0\0\0\x03\0\x18\0\x03\0\0\0\x04\0\0\0\x10\x01\0\0\x01\0\0\0";

/// wl_pointer.motion at the time 6 at (0, 0); then the button is released, at the time 1, with the
/// serial 4. It isn't again.
const RELEASE: &[u8] = b"\x0d\0\0\0\x02\0\x14\0\x06\0\0\0\0\0\0\0\0\0\0\0\
\x0d\0\0\0\x03\0\x18\0\x04\0\0\0\x01\0\0\0\x10\x01\0\0\0\0\0\0";

/// What the client took in so many turns. None where there is no memory.
fn taken_in(alloc: Global, turns: u32) -> Option<Vec<u8>> {
    let mut clients = Vec::new(alloc);
    clients.push(Client::new(alloc, WINDOW)).ok()?;
    let hub = MemoryHub::new(clients, 4096);
    let side = OneFile {
        name: "",
        opened: 0,
    };
    let mut lines = Vec::new(alloc);
    lines.extend_from_slice(LINES).ok()?;
    let session = Session::new(alloc, CONFIG).ok()?;
    let mut service = Service::new(Recorded::without(session), hub, side, lines);
    let mut report = Vec::new(alloc);
    if !takes(&mut service, &mut Connections::new(), 1, turns, &mut report) {
        return None;
    }
    let client = service.hub.clients.pop()?;
    Some(client.taken)
}

/// Whether the turn of this number gives the client just these bytes.
fn gives(alloc: Global, number: u32, bytes: &[u8]) -> Option<bool> {
    let before = taken_in(alloc, number.saturating_sub(1))?;
    let after = taken_in(alloc, number)?;
    Some(after.as_slice().strip_prefix(before.as_slice()) == Some(bytes))
}

#[test]
fn motions_are_told_once_they_are_due(rt: HostRuntime) {
    for (number, bytes) in [(2, ENTER), (3, MOTIONS)] {
        assert_eq!(rt; gives(rt.alloc(), number, bytes), Some(true), "{number}");
    }
}

#[test]
fn buttons_are_told_once_they_are_due(rt: HostRuntime) {
    for (number, bytes) in [(4, PRESS), (5, b"".as_slice()), (6, RELEASE)] {
        assert_eq!(rt; gives(rt.alloc(), number, bytes), Some(true), "{number}");
    }
}
