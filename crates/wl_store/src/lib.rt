//! Stores of bytes, as `wl_shm_pool` shares them, and pictures that lend a store's bytes as the
//! content of a surface. Begin with [`Stores`], a client's stores by their numbers. How colours are
//! laid over others is left to wl_blend and wl_paint.
//!
//! [`layout`] judges where a buffer's pixels lie in a store, and [`Stores::picture`] lends them. A
//! [`Picture`] copies nothing, so its colours are those of the store's bytes now.
#![tactic(auto)]

mod accept;
mod color;
mod picture;
mod place;
mod reading;
mod scale;
mod store;
mod stores;
mod transform;
mod zeros;

pub use accept::layout;
pub use color::{Argb, Format};
pub use picture::Picture;
pub use place::{Layout, LayoutError};
pub use scale::Scale;
pub use stores::{MAX_STORES, MAX_TOTAL, StoreError, StoreNo, Stores};
pub use transform::Transform;
