//! The desk: all clients with the windows that they show, and the pointer over them. Begin with
//! [`Desk::serve`], then `motion` and `button`. Steps, frames and reports are left to wl_session.
#![tactic(auto)]

mod desks;
mod dragging;
mod latest;
mod moves;
mod pointing;
mod pressing;
mod seating;
mod seats;
mod shown;

pub use desks::Desk;
pub use wl_clients::{ClientNo, ConnectError, Done, Fed, MAX_CLIENTS, ShownWindow, Stored};
