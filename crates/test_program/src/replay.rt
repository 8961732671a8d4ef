//! Recordings, their reports and their images.

mod cursors;
mod faults;
mod files;
mod grabbing;
mod hovering;
mod limits;
mod pools;
mod positioners;
mod pressing;
mod reports;
pub(crate) mod support;
