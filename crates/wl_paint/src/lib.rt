//! The pixels of an output: which are to be painted again, the image, and painting windows into it.
//! Begin with [`Damage`], the points to paint, then [`Framebuffer`], the image, and its `paint`.
//! Which windows there are is left to who implements [`Windows`]: wl_clients.
//!
//! Windows are asked from the lowest to the highest. [`write_ppm`] writes the image as a file.
#![tactic(auto)]

mod copying;
mod damage;
mod filling;
mod framebuffer;
mod layer;
mod painting;
mod ppm;
mod row;
mod source;
mod span;
mod windows;
mod words;

pub use damage::Damage;
pub use framebuffer::{FrameError, Framebuffer, MAX_SIDE, is_side};
pub use ppm::write_ppm;
pub use windows::{Painted, Windows};
