//! The laws of the desktop while nobody points. They say what holds of every desktop that comes
//! about, with subsurfaces and with popups, and what a step on one tree of surfaces marks and
//! leaves. Each law is a function that promises it.

mod in_order;
mod nobody_points;
mod one_buffer;
mod shown;
mod tree_buffers;
mod tree_marks;
mod tree_steps;
mod xdg_roots;

pub use in_order::{
    clients_are_in_order, demands_keep_in_order, empty_is_in_order, ends_keep_in_order,
    frames_keep_in_order, in_order_is_sound, in_order_stays, messages_keep_in_order,
    others_dismiss_none, peers_keep_in_order, pieces_keep_in_order, popups_are_numbered,
    popups_rise,
};
pub use nobody_points::{
    empty_is_unpointed, ends_keep_unpointed, frames_keep_unpointed, grabs_are_refused,
    grabs_dismiss, messages_keep_unpointed, pieces_keep_unpointed, unpointed_stays,
};
pub use one_buffer::{arrival_has_one_buffer, happens_keeps_one_buffer, run_has_one_buffer};
pub use shown::{
    empty_is_shown, ends_keep_shown, frames_keep_shown, messages_keep_shown, pieces_keep_shown,
    shown_stays,
};
pub use tree_buffers::{after_all_is_after_these, lets_go_alike, releases_commute, releases_rise};
pub use tree_marks::{
    is_tree_of_root, marks_damage_alone, marks_nothing_more, marks_tree_alone, may_mark_whole_tree,
};
pub use tree_steps::{
    all_trees_stay, applies_nothing, commit_keeps_others, destruction_keeps_others,
    end_keeps_others, has_root, link_keeps_all, mode_keeps_all, mode_keeps_others, no_child_is_top,
    other_trees_stay, request_keeps_all, role_keeps_all, roots_apart, tree_stays,
};
pub use xdg_roots::{
    links_are_apart, links_have_subsurfaces, surfaces_are_tied, xdg_surfaces_are_roots,
};
