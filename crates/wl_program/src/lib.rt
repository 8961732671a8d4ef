//! All of the program but its `main`: the command line, the side files of a folder, and the
//! statuses by which it ends. Begin with [`run_program`]. Playing recordings is left to wl_replay,
//! and the turns of a server to wl_server.
#![tactic(auto)]

mod command;
mod fault;
mod folder;
mod pace;
mod pointing;
mod rate;
mod run;
mod serving;
mod size;
mod steps;
mod streams;

pub use command::{Asked, CommandError, Replay, Serve, parse};
pub use fault::{Fault, Status};
pub use folder::Folder;
pub use pace::{Pace, Schedule};
pub use rate::Rate;
pub use run::run_program;
pub use serving::{serve_on, serve_viewed};
pub use size::Size;
