//! The laws of trees of surfaces (wayland.xml, wl_subcompositor and wl_subsurface). They say what
//! applying a surface does with its children, and that the kept links agree with the definitions.
//! Each law is a function that promises it.

ghost use Rattle.wl_surface.specs.Stacks.{StacksFollow};
ghost use Rattle.wl_surface.specs.Hanging.{AppliesStack, AppliesTree, AsksAlone, CommitsStack, CreatesSurface, DestroysSurface, EndsLink, EndsLinks, JoinsChild, MovesChild, PlacesChild, RemovesSurface, SetsMode};
ghost use Rattle.wl_surface.specs.TreeLaws.{AppliesDescendants, HasOneRoot, HaveSameDepth, HaveSameDescent, HaveSameHeight, HaveSameModes, HaveSameRefusals};

/// Applying a surface applies it and each of its descendants once, and no other, if each child has
/// one living link.
pub fn applies_descendants()
    ensures { AppliesDescendants }
{}

/// A surface is as deep by the kept links as by definition.
pub fn have_same_depth()
    ensures { HaveSameDepth }
{}

/// A surface descends from another by the kept links exactly if it does by definition.
pub fn have_same_descent()
    ensures { HaveSameDescent }
{}

/// As many levels stand below a surface by the kept links as by definition.
pub fn have_same_height()
    ensures { HaveSameHeight }
{}

/// The kept links refuse the same children as the definition: those too deep, and those that their
/// parent descends from.
pub fn have_same_refusals()
    ensures { HaveSameRefusals }
{}

/// A surface behaves synchronised by the kept links exactly if it does by definition.
pub fn have_same_modes()
    ensures { HaveSameModes }
{}

/// If no surface is deeper than 16, the kept links lead from child to parent up to a root. By
/// definition the surface descends from that root alone.
pub fn has_one_root()
    ensures { HasOneRoot }
{}

/// Each request does to the kept stack what it does to the stack of the surface's children by
/// definition. So does the end of a link.
pub fn stacks_follow()
    ensures { StacksFollow }
{}

/// What a client asks of a surface itself changes nothing of how surfaces hang together.
pub fn asks_alone()
    ensures { AsksAlone }
{}

/// A commit makes the pending stack of the surface the held one.
pub fn commits_stack()
    ensures { CommitsStack }
{}

/// Applying a surface makes its held stack the applied one.
pub fn applies_stack()
    ensures { AppliesStack }
{}

/// set_position changes the place of the child in the parent's pending stack.
pub fn moves_child()
    ensures { MovesChild }
{}

/// A child that is placed above or below its parent or a sibling stands there in the parent's
/// pending stack.
pub fn places_child()
    ensures { PlacesChild }
{}

/// set_sync and set_desync change the mode of the child's link, and nothing else.
pub fn sets_mode()
    ensures { SetsMode }
{}

/// After the end of a link, its child is in none of the stacks of its former parent.
pub fn ends_link()
    ensures { EndsLink }
{}

/// A new child is synchronised, and topmost in the parent's pending stack.
pub fn joins_child()
    ensures { JoinsChild }
{}

/// Applying a surface makes the held stacks of it and of each of its descendants the applied ones.
pub fn applies_tree()
    ensures { AppliesTree }
{}

/// A new surface has no link and no children.
pub fn creates_surface()
    ensures { CreatesSurface }
{}

/// After a surface without links is gone, what is kept stands for the others.
pub fn removes_surface()
    ensures { RemovesSurface }
{}

/// The end of a surface and its links applies each of its descendants once, and no other.
pub fn ends_links()
    ensures { EndsLinks }
{}

/// The end of a surface and its links makes the held stacks of its former descendants the applied
/// ones.
pub fn destroys_surface()
    ensures { DestroysSurface }
{}
