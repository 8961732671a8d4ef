//! What is marked when one tree changes, of windows that are told under other names of their
//! surfaces.

ghost use Rattle.law_windows.specs.RenamedMarks.{MarksAppliedByName, MarksBetweenByName, SameByName};

use crate::repainting::same_as_records;
use law_desktop::invariants::{
    is_tree_of_root, marks_damage_alone, marks_tree_alone, may_mark_whole_tree,
};
use std::alloc::Allocator;

/// The windows of a tree that keep their records are told by name to be the same.
pub fn same_by_name()
    ensures { SameByName }
{
    same_as_records();
}

/// If windows that are told by name keep their records, the damage applied to their surfaces is
/// marked. Else all points of the windows are, before and after (wayland.xml, wl_surface.damage and
/// wl_subsurface).
pub fn marks_applied_by_name<A: Allocator>()
    ensures { MarksAppliedByName A }
{
    same_by_name();
}

/// If a step changes one tree, what is marked of its windows, told by name, is all that the step
/// has to mark. It is nothing of the output that the step may not mark.
pub fn marks_between_by_name<A: Allocator>()
    ensures { MarksBetweenByName A }
{
    marks_applied_by_name::<A>();
    is_tree_of_root();
    marks_damage_alone();
    marks_tree_alone();
    may_mark_whole_tree();
}
