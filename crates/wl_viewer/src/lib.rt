//! What a viewer of the output holds and is owed, without any socket: the lines that it sends, what
//! it wasn't told yet, and the bytes that wait for it. Begin with [`Viewer`]. Frames are left to
//! wl_session, and sockets to wl_server.
#![tactic(auto)]

mod asked;
mod laws;
mod texts;
mod viewer;

pub use asked::{Asked, asked_of};
pub use laws::{copies_hold, lines_are_taken};
pub use texts::WindowLine;
pub use viewer::{LINE_LIMIT, MOST_HELD, Viewer};
