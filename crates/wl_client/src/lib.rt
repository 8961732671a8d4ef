//! One client of a compositor: the bytes that came from it, its objects and what they hold, and the
//! bytes that wait to be sent to it. Begin with [`Client`], then `first`, `own_action` and
//! `serve_own`. Requests that touch surfaces, popups or the pointer are left to wl_requests.
#![tactic(auto)]

mod backlog;
mod checks;
mod clients;
mod config;
mod events;
mod first_message;
mod globals;
mod incoming;
mod judgement;
mod outputs;
mod pointers;
mod served;
mod serving;
mod wl_buffer;
mod wl_display;
mod wl_region;
mod wl_registry;
mod wl_shm;
mod wl_shm_pool;
mod xdg_positioner;

pub use clients::Client;
pub use config::Config;
pub use events::release_event;
pub use first_message::First;
pub use outputs::Output;
pub use pointers::PointerEvent;
pub use served::Served;
pub use spec_desktop::{Action, Cause, ErrorCode, Place, Refusal, ShmBuffer};
pub use wl_store::{StoreError, StoreNo};
