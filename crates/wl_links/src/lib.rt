//! How the surfaces of a client hang together (wayland.xml, wl_subcompositor and wl_subsurface):
//! their trees, their stacks, and the ids of wl_subsurfaces. Begin with [`Family`], then [`Trees`]
//! and [`Children`]. When a surface's state is held or applied is left to wl_surface.
//!
//! A tree is kept flat from its root. The stack of a surface and its children is kept pending, held
//! and applied.
#![tactic(auto)]

mod children;
mod error;
mod family;
mod link;
mod placed;
mod stack;
mod stacks;
mod subsurfaces;
mod trees;

pub use children::Children;
pub use error::PlaceError;
pub use family::Family;
pub use link::Link;
pub use placed::{Member, Placed, Side};
pub use subsurfaces::Subsurfaces;
pub use trees::{MAX_DEPTH, Place, SurfaceNo, Trees};
