//! The objects of a client, by their ids; and ids in rising order, each once. Begin with
//! [`Objects`]. What an object stands for, and what its requests do, is left to wl_client and
//! wl_requests.
//!
//! A client numbers the objects that it makes from 1 to 0xfeffffff, in any order. It may use an id
//! again once its object is gone (Wayland protocol, "Wire Format" and "Object IDs").
#![tactic(auto)]

mod entry;
mod objects;
mod rising;

pub use entry::{Entry, TableError};
pub use objects::{MAX_ID, MAX_OBJECTS, Objects};
pub use rising::put_rising;
