//! The laws of names. Other names of a client's surfaces make no difference to what is read of
//! them, how they hang together, and what is done to them (wayland.xml, wl_subcompositor and
//! wl_subsurface). Each law is a function that promises it.

ghost use Rattle.law_desktop.specs.RenamingChanges.{AppliesTree, ChangesSurface, CommitsSurface, CreatesSurface, Desynchronises, DestroysSurface};
ghost use Rattle.law_desktop.specs.RenamingChanges.{LinksSurfaces, HeedNoNames, RemovesSurface, Synchronises, Unlinks};
ghost use Rattle.law_desktop.specs.RenamingLaws.{FindsLinks, KeepsDescent, KeepsPlaces, KeepsRefusals, NamesThoseThere, ReadsSurfaces};

/// Under another name a surface has the same history, the same link to its parent and the same
/// children (wayland.xml, wl_subsurface).
pub fn reads_surfaces()
    ensures { ReadsSurfaces }
{}

/// A wl_subsurface is found by its number, whatever its surfaces are called (wayland.xml,
/// wl_subcompositor.get_subsurface).
pub fn finds_links()
    ensures { FindsLinks }
{}

/// Under another name a surface stands as deep and as high in its tree, and behaves as synchronised
/// (wayland.xml, wl_subsurface).
pub fn keeps_places()
    ensures { KeepsPlaces }
{}

/// Under other names the same surfaces descend from a surface (wayland.xml,
/// wl_subcompositor.get_subsurface).
pub fn keeps_descent()
    ensures { KeepsDescent }
{}

/// Under other names the same surfaces are refused as a child and a parent (wayland.xml,
/// wl_subcompositor.get_subsurface).
pub fn keeps_refusals()
    ensures { KeepsRefusals }
{}

/// Names that differ only for ids that no surface has are the same for all surfaces and living
/// links: an id may be used again (wayland.xml, wl_display.delete_id).
pub fn names_those_there()
    ensures { NamesThoseThere }
{}

/// A change that goes by no id, made of a surface, is made of it under its other name. The names
/// still tell surfaces apart.
pub fn changes_surface()
    ensures { ChangesSurface }
{}

/// Asking a request of a surface, applying it and giving it a role go by no id (wayland.xml,
/// wl_surface).
pub fn heed_no_names()
    ensures { HeedNoNames }
{}

/// Under another name a surface is applied with the same children (wayland.xml, wl_subsurface).
pub fn applies_tree()
    ensures { AppliesTree }
{}

/// Under another name a commit applies the same surfaces, or none (wayland.xml, wl_surface.commit
/// and wl_subsurface).
pub fn commits_surface()
    ensures { CommitsSurface }
{}

/// Under other names a child is linked to its parent in the same way (wayland.xml,
/// wl_subcompositor.get_subsurface).
pub fn links_surfaces()
    ensures { LinksSurfaces }
{}

/// Under other names a wl_subsurface becomes synchronised in the same way (wayland.xml,
/// wl_subsurface.set_sync).
pub fn synchronises()
    ensures { Synchronises }
{}

/// Under other names a wl_subsurface that lives becomes desynchronised, and its held state is
/// applied (wayland.xml, wl_subsurface.set_desync).
pub fn desynchronises()
    ensures { Desynchronises }
{}

/// Under other names the link of a wl_subsurface ends, and its child is applied (wayland.xml,
/// wl_subsurface.destroy).
pub fn unlinks()
    ensures { Unlinks }
{}

/// A new surface gets a name that no other has, and all are still told apart (wayland.xml,
/// wl_compositor.create_surface).
pub fn creates_surface()
    ensures { CreatesSurface }
{}

/// Under another name the same surface goes, and the others are still told apart (wayland.xml,
/// wl_surface.destroy).
pub fn removes_surface()
    ensures { RemovesSurface }
{}

/// Under another name the same surface is destroyed, with its links to its parent and to its
/// children (wayland.xml, wl_surface.destroy).
pub fn destroys_surface()
    ensures { DestroysSurface }
{}
