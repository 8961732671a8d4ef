//! The laws of the windows stacked with one toplevel: those of its tree and of the trees of its
//! popups (xdg-shell.xml, xdg_popup). A message of a client that lives on changes no others. Tree
//! by tree, the laws say what has to be marked of the output, and what may be. Each law is a
//! function that promises it.

mod demands;
mod marked;
mod messages;
mod order;
mod roots;

pub use demands::{
    commits_change_one_toplevel, demands_change_one_toplevel, grabs_change_no_window,
    modes_change_one_toplevel, popup_ends_change_one_toplevel, requests_change_no_window,
    roles_change_no_window, states_change_no_window, subsurface_ends_change_one_toplevel,
    surface_ends_change_one_toplevel, toplevel_ends_change_one_toplevel,
};
pub use marked::marks_by_trees_between;
pub use messages::messages_change_one_toplevel;
pub use order::{in_order_has_trees, judged_is_meant};
pub use roots::roots_stay;
