//! Steps as values, and why a run of them stops.

use thiserror::Error;
use wl_client::StoreNo;
use wl_desk::ClientNo;

/// Something that happens to a session, as a value.
#[derive(Clone, Copy, Debug)]
pub enum Step<'a> {
    /// A client connects.
    Connect,
    /// A piece of a client's stream comes. A stream may be cut anywhere.
    Feed {
        client: ClientNo,
        piece: &'a [u8],
    },
    /// Bytes are put into a store of a client, from `at` on.
    Store {
        client: ClientNo,
        store: StoreNo,
        at: u32,
        bytes: &'a [u8],
    },
    /// A client closes its connection.
    Gone {
        client: ClientNo,
    },
    /// A frame is shown. `time` is in milliseconds, from any start.
    Tick {
        time: u32,
    },
    /// This many of a client's unsent bytes were sent.
    Sent {
        client: ClientNo,
        count: usize,
    },
    /// The number of a client that ended is given back.
    Close {
        client: ClientNo,
    },
    /// The pointer moves to a point of the output, in pixels and held within it. `time` is in
    /// milliseconds, from any start.
    Motion {
        time: u32,
        x: i32,
        y: i32,
    },
    /// A button of the pointer is pressed or released. `time` is in milliseconds, from any start.
    /// `button` is the kernel's number of the button.
    Button {
        time: u32,
        button: u32,
        pressed: bool,
    },
}

/// Why a run stopped.
#[derive(Clone, Copy, Debug, PartialEq, Eq, Error)]
pub enum RunError {
    /// A connect or the copy of a frame found no memory. This many steps were taken, and nothing of
    /// the next.
    #[error("out of memory after {0} steps")]
    Memory(usize),
}
