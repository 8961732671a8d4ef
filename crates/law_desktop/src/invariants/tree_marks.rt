//! The laws of what a step on one tree of surfaces marks. If the tree's windows keep their records,
//! that is the damage applied. If not, it is any points of the tree's windows, before and after.
//! Each law is a function that promises it.

ghost use Rattle.law_desktop.specs.TreeMarksLaws.{IsTreeOfRoot, MarksDamageAlone, MarksNothingMore, MarksTreeAlone, MayMarkWholeTree};

/// If the windows of the tree keep their records, a step marks the points of applied damage at
/// these windows, and no others.
pub fn marks_damage_alone()
    ensures { MarksDamageAlone }
{}

/// Whatever changed of the tree, a step has to mark no points but those of the tree's windows,
/// before and after.
pub fn marks_tree_alone()
    ensures { MarksTreeAlone }
{}

/// If the records of the tree's windows differ, a step may mark every point of them, before and
/// after.
pub fn may_mark_whole_tree()
    ensures { MayMarkWholeTree }
{}

/// If they keep their records and no press raised a toplevel, a step may mark no more than it has
/// to.
pub fn marks_nothing_more()
    ensures { MarksNothingMore }
{}

/// Windows with a root that none of the others has make one tree.
pub fn is_tree_of_root()
    ensures { IsTreeOfRoot }
{}
