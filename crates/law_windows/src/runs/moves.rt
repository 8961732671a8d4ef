//! The laws of a toplevel that is raised or moved, with its popups (wayland.xml, wl_pointer.button;
//! xdg-shell.xml, xdg_toplevel.move and xdg_popup). Each law is a function that promises it.

ghost use Rattle.law_windows.specs.Runs.Moves.{MovesAreMarked, MovesChangeOneToplevel, RaisesLiftRuns, RunIsOfAll, StaysWhole};

use law_desktop::toplevels::marks_by_trees_between;
use std::alloc::Allocator;

/// After a toplevel was raised or moved, toplevels, popups and subsurfaces still make trees, and
/// exactly the mapped toplevels stand.
pub fn stays_whole()
    ensures { StaysWhole }
{}

/// The windows stacked with a toplevel are those of it among all windows.
pub fn run_is_of_all()
    ensures { RunIsOfAll }
{}

/// If a toplevel is raised, the windows stacked with it come on top of the others.
pub fn raises_lift_runs()
    ensures { RaisesLiftRuns }
{}

/// If a toplevel is moved, only the windows stacked with it change.
pub fn moves_change_one_toplevel()
    ensures { MovesChangeOneToplevel }
{}

/// What is marked of them then is all that has to be marked, and nothing of the output that may not
/// be.
pub fn moves_are_marked<A: Allocator>()
    ensures { MovesAreMarked A }
{
    marks_by_trees_between();
}
