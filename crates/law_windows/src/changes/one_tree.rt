//! The laws of what is told of a client's surfaces by their numbers. It is the damage that is
//! applied to the windows of each of their trees (wayland.xml, wl_surface.damage and
//! wl_subsurface). Each law is a function that promises it.

mod telling;

pub use telling::{
    commit_told_by_name, desync_told_by_name, end_told_by_name, nothing_told_by_name,
    unlink_told_by_name,
};
