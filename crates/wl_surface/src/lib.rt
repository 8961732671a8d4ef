//! The surfaces of a client with the links between them (wayland.xml, wl_surface, wl_subcompositor
//! and wl_subsurface). Begin with [`Surfaces`], then [`SurfaceStates`], each surface by itself.
//! Where windows stand on the output is left to wl_scene, and what a client is told to wl_requests.
//!
//! It keeps what a client asked of each surface: pending, held and applied. It says what a commit,
//! a mode or the end of a link applies over whole trees.
#![tactic(auto)]

ghost use Rattle.wl_surface.specs.StateLaws.{CommitTakesAll};

mod applied;
mod commits;
mod content;
mod damage;
mod error;
mod frames;
mod held_damage;
mod look;
mod requests;
mod role;
mod seen;
mod shape;
mod state;
mod states;
mod surfaces;
mod tree;
pub mod tree_laws;

pub use applied::{Applied, Change};
pub use content::{Attached, BufferNo, Offset, bounded_sum, held};
pub use error::SurfaceError;
pub use role::Role;
pub use state::Current;
pub use states::{MAX_SURFACES, SurfaceNo, SurfaceStates};
pub use surfaces::Surfaces;
pub use wl_links::Side;

/// A commit makes the pending state the held one, and applying a surface makes that the applied
/// one.
pub fn commit_takes_all()
    ensures { CommitTakesAll }
{}
