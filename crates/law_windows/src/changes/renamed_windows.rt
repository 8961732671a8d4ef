//! The laws of windows under other names. The names of a client's surfaces make no difference to
//! the windows of a tree of surfaces. They make none to what is told and marked of them either
//! (wayland.xml, wl_surface and wl_subsurface). Each law is a function that promises it.

mod marks;
mod windows;

pub use marks::{marks_applied_by_name, marks_between_by_name, same_by_name};
pub use windows::{shows_those_there, tells_trees_by_name, trees_heed_no_names};
