//! The scene: the mapped toplevels from bottom to top, the windows of the output, what a point
//! hits, what is marked when windows change, and the pointer. Begin with [`Scene`], then
//! [`StackedWindows`] and [`Focus`]. When toplevels and windows change is left to wl_clients, and
//! when the pointer does to wl_desk.
//!
//! The windows of a toplevel are those of its tree of surfaces, and those of the trees of its
//! popups.
#![tactic(auto)]

ghost use Rattle.wl_scene.specs.Stacked.{ReplacesARun, ReplacesNothing};

mod actions;
mod coordinates;
mod corners;
mod focus;
mod hitting;
mod marking;
mod owned;
mod repaint;
mod repaint_trees;
mod roots;
mod runs;
mod scene;
mod span;
mod stacked;
mod stacked_trees;
mod stacked_windows;
mod stacking;
mod tree_window;
mod tree_windows;
mod window;

pub use actions::{Action, Actions, Target};
pub use coordinates::fixed;
pub use corners::parent_corner;
pub use focus::{Focus, Point};
pub use hitting::{
    Surfaced, current_of, hit, hits_by_numbers, is_among, settles_by_numbers, takes_input,
};
pub use marking::{mark_damage, mark_window};
pub use owned::Owned;
pub use repaint::{mark_tree, mark_windows};
pub use repaint_trees::mark_trees;
pub use roots::{RootPlace, add_roots};
pub use scene::{Scene, Surface, Toplevel};
pub use stacked::Stacked;
pub use stacked_trees::add_trees;
pub use stacked_windows::StackedWindows;
pub use stacking::{
    both_are_stacked, first_are_stacked, moved_trees_are_as_long, run_is_stacked, run_is_there,
    stacked_are_told, stacked_client_gone, stacked_pushed, stacked_removed, stacked_renumbered,
    stacked_replaced, stacked_run_gone, stacked_run_raised, trees_are_moved,
};
pub use tree_window::TreeWindow;
pub use tree_windows::add_windows;
pub use window::Window;

/// When other windows of a toplevel take the place of those that stand together, those below and
/// above stay.
pub fn replaces_a_run()
    ensures { ReplacesARun }
{}

/// Replacing the windows of a toplevel that has none changes nothing.
pub fn replaces_nothing()
    ensures { ReplacesNothing }
{}
