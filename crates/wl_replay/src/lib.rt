//! Replays of recordings: what a compositor answers to what happens to it, in reports and images.
//! Begin with [`replay`]. The lines of recordings and reports are left to wl_recording, and what
//! happens to wl_session.
#![tactic(auto)]

mod error;
mod filling;
mod player;
mod step;
mod storing;
mod tell;

pub use player::{MAX_LINES, replay};
pub use wl_recording::{
    LINE_LIMIT, PointerLine, ReplayError, SideFault, SideFiles, Summary, number, pointer_line,
};
pub use wl_session::{Config, Rgb};
