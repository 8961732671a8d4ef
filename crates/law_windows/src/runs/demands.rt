//! The laws of what is marked after a demand of a client that lives on (wayland.xml, wl_surface,
//! wl_subcompositor and wl_subsurface; xdg-shell.xml, xdg_surface, xdg_toplevel and xdg_popup).
//! Each law is a function that promises it.

ghost use Rattle.law_windows.specs.Runs.Demands.{NoSurfaceComes, NothingIsMarked, TouchesFound, TouchesNothing};

use law_desktop::toplevels::marks_by_trees_between;
use std::alloc::Allocator;

/// A demand that touches a surface makes no new one.
pub fn no_surface_comes()
    ensures { NoSurfaceComes }
{}

/// If no window changes, nothing has to be marked.
pub fn nothing_is_marked()
    ensures { NothingIsMarked }
{}

/// A demand that touches a surface changes the windows of the toplevel that is found for the root
/// of its tree, if one is. What is marked of them tree by tree is all that has to be marked, and
/// nothing of the output that may not be.
pub fn touches_found<A: Allocator>()
    ensures { TouchesFound A }
{
    marks_by_trees_between();
}

/// A demand that touches no surface changes no window.
pub fn touches_nothing()
    ensures { TouchesNothing }
{}
