//! The laws of the windows stacked with one toplevel, a run among all windows (wayland.xml,
//! wl_surface and wl_subsurface; xdg-shell.xml, xdg_popup). They say which run the tree of a
//! surface belongs to, found by the windows that are shown. They also say what is marked when a
//! step changes a run, told by other names of its surfaces. Each law is a function that promises
//! it.

mod demands;
mod kept;
mod lookup;
mod marks;
mod moves;
mod names;

pub use demands::{no_surface_comes, nothing_is_marked, touches_found, touches_nothing};
pub use kept::{run_comes, run_goes, run_rises, run_stays, run_was_told, stacked_are_kept};
pub use lookup::{finds_by_numbers, finds_toplevels, finds_toplevels_in_order};
pub use marks::{
    adds_at_least, adds_at_most, gone_run_adds, marks_trees_by_name, run_is_told, runs_are_marked,
    runs_are_of_client, runs_are_there, told_together_by_name,
};
pub use moves::{
    moves_are_marked, moves_change_one_toplevel, raises_lift_runs, run_is_of_all, stays_whole,
};
pub use names::{placed_roots_have_runs, roots_heed_no_names, runs_heed_no_names};
