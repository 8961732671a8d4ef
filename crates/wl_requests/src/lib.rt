//! The requests of one client that are not its own alone: those of its surfaces, subsurfaces,
//! xdg_surfaces, toplevels and popups, and of its seats and wl_pointers. Begin with [`Resident`],
//! then `asked` and `serve`. Other clients, the windows of the output and the pointer's focus are
//! left to wl_clients and wl_desk.
//!
//! Each interface has its own file. Frame callbacks are answered here too.
#![tactic(auto)]

mod configures;
mod dismissing;
mod frames;
mod messages;
mod pointer_asked;
mod releases;
mod residents;
mod surface_requests;
mod wl_compositor;
mod wl_pointer;
mod wl_seat;
mod wl_subcompositor;
mod wl_subsurface;
mod xdg_popup;
mod xdg_surface;
mod xdg_toplevel;
mod xdg_wm_base;

pub use messages::{Asked, Kind};
pub use pointer_asked::PointerAsked;
pub use residents::{Grabbing, Outcome, Placing, Resident, Stacking};
pub use xdg_toplevel::ToplevelAsked;
