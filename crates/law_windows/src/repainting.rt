//! The laws of what is marked when trees change, by the plain windows of the trees. Each law is a
//! function that promises it.

ghost use Rattle.law_windows.specs.RepaintLaws.{MarksAsApplied, MarksBetween, MarksTreesAsApplied, MarksTreesBetween, SameAsRecords, ToldTogether};

use law_desktop::invariants::{
    is_tree_of_root, marks_damage_alone, marks_tree_alone, may_mark_whole_tree,
};
use law_desktop::toplevels::marks_by_trees_between;
use std::alloc::Allocator;

/// The windows of a tree that keep their records are told to be the same.
pub fn same_as_records()
    ensures { SameAsRecords }
{}

/// If the told windows of a tree keep their records, the damage applied to its surfaces is marked.
/// Else all points of the windows are, before and after (wayland.xml, wl_surface.damage and
/// wl_subsurface).
pub fn marks_as_applied<A: Allocator>()
    ensures { MarksAsApplied A }
{}

/// If a step changes one tree, what is marked of its told windows is all that the step has to mark.
/// It is nothing of the output that the step may not mark.
pub fn marks_between<A: Allocator>()
    ensures { MarksBetween A }
{
    is_tree_of_root();
    marks_damage_alone();
    marks_tree_alone();
    may_mark_whole_tree();
}

/// If trees stand one after another, they are told with the windows of each tree together.
pub fn told_together()
    ensures { ToldTogether }
{}

/// What is marked of the told windows of several trees is what is marked of the plain ones, of each
/// tree by itself.
pub fn marks_trees_as_applied<A: Allocator>()
    ensures { MarksTreesAsApplied A }
{}

/// If a step changes the windows stacked with one toplevel, what is marked of their told trees is
/// all that the step has to mark. It is nothing of the output that the step may not mark
/// (wayland.xml, wl_surface.damage and wl_subsurface; xdg-shell.xml, xdg_popup).
pub fn marks_trees_between<A: Allocator>()
    ensures { MarksTreesBetween A }
{
    marks_by_trees_between();
}
