//! The laws of what is marked when a step changes the windows stacked with one toplevel, told by
//! other names of their surfaces (wayland.xml, wl_surface.damage and wl_subsurface; xdg-shell.xml,
//! xdg_popup). Each law is a function that promises it.

ghost use Rattle.law_windows.specs.Runs.Marks.{AddsAtLeast, AddsAtMost, GoneRunAdds, MarksTreesByName, RunIsTold, RunsAreMarked, RunsAreOfClient};
ghost use Rattle.law_windows.specs.Runs.Marks.{RunsAreThere, ToldTogetherByName};

use law_desktop::toplevels::marks_by_trees_between;
use std::alloc::Allocator;

/// If trees stand one after another, they are told by names with the windows of each tree together.
pub fn told_together_by_name()
    ensures { ToldTogetherByName }
{}

/// What is marked of the windows of several trees, told by name, is what is marked of the plain
/// ones tree by tree.
pub fn marks_trees_by_name<A: Allocator>()
    ensures { MarksTreesByName A }
{}

/// The windows stacked with a toplevel are of surfaces that their client has, in trees of such
/// surfaces.
pub fn runs_are_there()
    ensures { RunsAreThere }
{}

/// The windows that change are of one client, and each is turned in one of the eight ways.
pub fn runs_are_of_client()
    ensures { RunsAreOfClient }
{}

/// The damage told of a client's surfaces is the damage applied to the windows that its toplevel
/// has afterwards.
pub fn run_is_told<A: Allocator>()
    ensures { RunIsTold A }
{}

/// What is marked tree by tree of the windows that change is all that the step has to mark, and
/// nothing of the output that it may not mark.
pub fn runs_are_marked<A: Allocator>()
    ensures { RunsAreMarked A }
{
    marks_by_trees_between();
}

/// If a toplevel has no windows any more, all points of those that it had are marked tree by tree.
pub fn gone_run_adds<A: Allocator>()
    ensures { GoneRunAdds A }
{}

/// All that the step marks at least is to be painted, once the trees are marked.
pub fn adds_at_least<A: Allocator>()
    ensures { AddsAtLeast A }
{}

/// All that is to be painted then was so before, or is among what the step marks at most.
pub fn adds_at_most<A: Allocator>()
    ensures { AddsAtMost A }
{}
