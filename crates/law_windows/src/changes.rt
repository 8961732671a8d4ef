//! The laws of what is told of the surfaces of a tree, under whatever names. It is what is applied
//! of it, and what is marked by it is neither too little nor too much. Each law is a function that
//! promises it.

mod one_tree;
mod renamed_windows;
mod told;

pub use one_tree::{
    commit_told_by_name, desync_told_by_name, end_told_by_name, nothing_told_by_name,
    unlink_told_by_name,
};
pub use renamed_windows::{
    marks_applied_by_name, marks_between_by_name, same_by_name, shows_those_there,
    tells_trees_by_name, trees_heed_no_names,
};
pub use told::{
    between_is_applied, commit_tells_applied, desync_tells_applied, end_tells_applied,
    link_end_tells_applied, tells_windows, unlink_tells_applied,
};
