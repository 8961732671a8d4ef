//! The laws of what a request on one tree of surfaces leaves alone in the other trees (wayland.xml,
//! wl_subcompositor and wl_subsurface): what was asked of their surfaces, and their windows. Each
//! law is a function that promises it.

ghost use Rattle.law_desktop.specs.TreeStepsLaws.{AllTreesStay, AppliesNothing, HasRoot, NoChildIsTop, OtherTreesStay, RootsApart, TreeStays};
ghost use Rattle.law_desktop.specs.TreeRequests.{CommitKeepsOthers, DestructionKeepsOthers, EndKeepsOthers};
ghost use Rattle.law_desktop.specs.TreeRequests.{LinkKeepsAll, ModeKeepsAll, ModeKeepsOthers, RequestKeepsAll, RoleKeepsAll};

/// A tree shows the same windows if the applied state of each of its surfaces stays, and the child
/// of each living link.
pub fn tree_stays()
    ensures { TreeStays }
{}

/// If the applied state of each surface stays, and the child of each link, every tree shows the
/// same windows.
pub fn all_trees_stay()
    ensures { AllTreesStay }
{}

/// If the same surface descends from two surfaces without a parent, these are one.
pub fn roots_apart()
    ensures { RootsApart }
{}

/// Each surface descends from some surface without a parent.
pub fn has_root()
    ensures { HasRoot }
{}

/// A surface that is the child of no living link has no parent.
pub fn no_child_is_top()
    ensures { NoChildIsTop }
{}

/// A change that keeps the surfaces which don't descend from one keeps each tree that this one
/// isn't in, and its windows.
pub fn other_trees_stay()
    ensures { OtherTreesStay }
{}

/// A commit keeps the surfaces that don't descend from the committed one.
pub fn commit_keeps_others()
    ensures { CommitKeepsOthers }
{}

/// A new link changes no applied state.
pub fn link_keeps_all()
    ensures { LinkKeepsAll }
{}

/// A request that isn't applied changes no applied state.
pub fn request_keeps_all()
    ensures { RequestKeepsAll }
{}

/// A role changes nothing of what was asked of any surface.
pub fn role_keeps_all()
    ensures { RoleKeepsAll }
{}

/// A mode by itself changes no applied state.
pub fn mode_keeps_all()
    ensures { ModeKeepsAll }
{}

/// A subsurface that is desynchronised changes no surface that doesn't descend from it.
pub fn mode_keeps_others()
    ensures { ModeKeepsOthers }
{}

/// The end of a wl_subsurface changes no surface that doesn't descend from its child.
pub fn end_keeps_others()
    ensures { EndKeepsOthers }
{}

/// The end of a surface with its links changes no surface that doesn't descend from it.
pub fn destruction_keeps_others()
    ensures { DestructionKeepsOthers }
{}

/// No damage is applied to a surface whose applied state stays.
pub fn applies_nothing()
    ensures { AppliesNothing }
{}
