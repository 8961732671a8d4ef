//! The laws of the windows that are kept of the output. Each law is a function that does nothing
//! and promises it. Begin with [`changes`], what is told of surfaces, then [`runs`], the windows of
//! one toplevel. Laws of the desktop alone are left to law_desktop, and the code that keeps windows
//! to wl_scene and wl_clients.
//!
//! What is told of a tree of surfaces is what is applied of it. The windows stacked with one
//! toplevel change as the desktop's do. What is marked by them is neither too little nor too much.
#![tactic(auto)]

pub mod changes;
pub mod grabs;
pub mod repainting;
pub mod runs;
