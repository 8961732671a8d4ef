//! Rectangles and regions of points with 32-bit coordinates, as `wl_region` and damage requests use
//! them. Begin with [`Rect`], which a request carries, then [`Region`], which keeps the adds and
//! subtracts made on it. What a point is (of a surface, a buffer or the output) is left to the
//! crates above.
#![tactic(auto)]

mod cut;
mod edits;
mod parts;
mod rect;
mod region;
mod span;

pub use rect::Rect;
pub use region::{MAX_CHANGES, Region, RegionError};
