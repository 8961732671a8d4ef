//! All clients by number, and the screen that they change. Begin with [`Clients::take`], which
//! serves a message, then [`Screen`]. The pointer and its focus are left to wl_desk.
//!
//! After each message the toplevels and the windows stacked with them follow, and what changed is
//! marked to be painted again. At a frame the windows are lent to be painted.
#![tactic(auto)]

mod clients;
mod grabs;
mod moving;
mod painting;
mod pictures;
mod pointing;
mod screen;
mod shown;
mod windows;

pub use clients::{Clients, MAX_CLIENTS};
pub use grabs::Latest;
pub use painting::{lends_opaque_as_said, paints_the_desktop};
pub use pictures::lend;
pub use pointing::{mid_begins_and_ends, mid_is_numbered_once, mid_names_surfaces};
pub use screen::{Screen, Taken, bare, sent, store, touched_by};
pub use shown::ShownWindow;
pub use spec_desktop::{ClientNo, ConnectError, Done, Fed, Stored};
pub use wl_client::PointerEvent;
pub use wl_requests::PointerAsked;
