//! The server: turns of a session whose clients are connections of a hub. Begin with [`Service`],
//! which lasts from turn to turn, then [`turn`] and [`short_turn`], a turn without a frame. Options
//! and the pace of turns are left to wl_program.
//!
//! A turn accepts, reads, writes and closes connections. [`Hub`] is the trait for that, and
//! [`SocketHub`] the hub over a Unix socket whose ends don't block. [`receive`] and [`deliver`] say
//! what a read or a write came to, and when a client is gone.
#![tactic(auto)]

mod accepting;
mod closing;
mod delivery;
mod error;
mod filling;
mod hearing;
mod hub;
mod noting;
mod outcome;
mod phases;
mod pointing;
mod reading;
mod receiving;
mod recorded;
mod seat;
mod service;
mod shared;
mod sharing;
mod short;
mod showing;
mod sockets;
mod viewed;
mod viewing;
mod waiting;
mod writing;

pub use delivery::{Delivered, deliver};
pub use error::TurnError;
pub use hub::{Hub, HubFault};
pub use receiving::{Received, receive};
pub use recorded::Recorded;
pub use seat::{Connections, Seat};
pub use service::{Service, turn, turn_viewed};
pub use shared::{shared_turn, shared_turn_viewed};
pub use sharing::{Shares, nobody_is_passed_over};
pub use short::{short_turn, short_turn_viewed};
pub use sockets::SocketHub;
pub use viewing::{Viewing, Watcher};
pub use waiting::Waiting;
pub use wl_session::Session;
