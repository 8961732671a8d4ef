//! The laws of what is marked, tree by tree, when the windows stacked with one toplevel change.
//! Each law is a function that promises it.

ghost use Rattle.law_desktop.specs.Marked.{MarksByTreesBetween};

/// If a step changes the windows stacked with one toplevel, it is enough to mark each of their
/// trees by itself. That is all that the step has to mark, and nothing of the output that it may
/// not mark (wayland.xml, wl_surface.damage and wl_subsurface; xdg-shell.xml, xdg_popup).
pub fn marks_by_trees_between()
    ensures { MarksByTreesBetween }
{}
