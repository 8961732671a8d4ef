//! The core of a compositor: clients, their streams, and steps of all of them in any order. Begin
//! with [`Session`] and its `run`. Sockets, viewers and recordings are left to wl_server, wl_viewer
//! and wl_replay.
#![tactic(auto)]

mod laws;
mod sessions;
mod settling;
mod shots;
mod shown;
mod steps;

pub use laws::{
    others_stay, output_stays, promises_are_enough, seen_is_scratch, stays_right, unmarked_stays,
    write_hides_nothing,
};
pub use sessions::{Session, runs_of};
pub use shots::{Frame, Run, Shot};
pub use steps::{RunError, Step};
pub use wl_blend::Rgb;
pub use wl_client::{Cause, Config, StoreNo};
pub use wl_desk::{ClientNo, ConnectError, Done, Fed, MAX_CLIENTS, ShownWindow, Stored};
pub use wl_paint::{Damage, FrameError, Framebuffer, MAX_SIDE, write_ppm};
