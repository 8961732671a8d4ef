//! A client names its surfaces by the ids of their wl_surface objects; they are kept under numbers.
//! The values kept stand for the surfaces after each request (wayland.xml, wl_surface,
//! wl_subcompositor and wl_subsurface). Each law is a function that promises it.

ghost use Rattle.law_desktop.specs.Named.{AsksNamed, BeginsNamed, CommitsNamed, CreatesNamed, DestroysNamed, DesynchronisesNamed, LinksNamed};
ghost use Rattle.law_desktop.specs.Named.{MovesNamed, PlacesNamed, RenamesNamed, RolesNamed, StaysNamed, SynchronisesNamed, UnlinksNamed};
ghost use Rattle.law_desktop.specs.Reading.{BuffersNamed, FindsNamed, FreesNamed, HoldsNamed, NumbersNamed, ReadsNamed, RefusesNamed};
ghost use Rattle.law_desktop.specs.Reading.{ShowsNamed, SiblingsNamed, StacksNamed, TiesNamed};
ghost use Rattle.law_desktop.specs.Telling.{TellsCommit, TellsDesync, TellsEnd, TellsUnlink};

mod renamed;

pub use renamed::{
    applies_tree, changes_surface, commits_surface, creates_surface, destroys_surface,
    desynchronises, finds_links, heed_no_names, keeps_descent, keeps_places, keeps_refusals,
    links_surfaces, names_those_there, reads_surfaces, removes_surface, synchronises, unlinks,
};
use std::alloc::Allocator;
use wl_surface::Change;

/// At first there are no surfaces.
pub fn begins_named()
    ensures { BeginsNamed }
{}

/// A request of a surface itself, other than a commit, is asked of it under its number
/// (wayland.xml, wl_surface).
pub fn asks_named()
    ensures { AsksNamed }
{}

/// A surface gets its role under its number (wayland.xml, wl_surface).
pub fn roles_named()
    ensures { RolesNamed }
{}

/// A surface is committed under its number (wayland.xml, wl_surface.commit).
pub fn commits_named()
    ensures { CommitsNamed }
{}

/// A child is linked to its parent under their numbers (wayland.xml,
/// wl_subcompositor.get_subsurface).
pub fn links_named()
    ensures { LinksNamed }
{}

/// If a child is refused, the values kept stand for the same surfaces (wayland.xml,
/// wl_subcompositor.get_subsurface).
pub fn stays_named()
    ensures { StaysNamed }
{}

/// A child is moved by its link (wayland.xml, wl_subsurface.set_position).
pub fn moves_named()
    ensures { MovesNamed }
{}

/// A child is placed by its link, beside its parent or another child of it (wayland.xml,
/// wl_subsurface.place_above and place_below).
pub fn places_named()
    ensures { PlacesNamed }
{}

/// A child becomes synchronised by its link (wayland.xml, wl_subsurface.set_sync).
pub fn synchronises_named()
    ensures { SynchronisesNamed }
{}

/// A child becomes desynchronised by its link (wayland.xml, wl_subsurface.set_desync).
pub fn desynchronises_named()
    ensures { DesynchronisesNamed }
{}

/// The link of a child ends, and no other (wayland.xml, wl_subsurface.destroy).
pub fn unlinks_named()
    ensures { UnlinksNamed }
{}

/// A surface is destroyed under its number (wayland.xml, wl_surface.destroy).
pub fn destroys_named()
    ensures { DestroysNamed }
{}

/// Other names serve as well if they give the same numbers to the surfaces that are there: an id
/// that is used again may get another number (wayland.xml, wl_display.delete_id).
pub fn renames_named()
    ensures { RenamesNamed }
{}

/// A new surface is kept under a number that no other has (wayland.xml,
/// wl_compositor.create_surface).
pub fn creates_named()
    ensures { CreatesNamed }
{}

/// What is read of a surface under its number holds of it by its id (wayland.xml, wl_surface).
pub fn reads_named()
    ensures { ReadsNamed }
{}

/// A number stands for a surface that is there by its id, or for none (wayland.xml, wl_surface).
pub fn numbers_named()
    ensures { NumbersNamed }
{}

/// Other names that give the surfaces the same numbers show the same under each (wayland.xml,
/// wl_display.delete_id).
pub fn shows_named()
    ensures { ShowsNamed }
{}

/// The same buffers are busy, and the same are used, whatever the surfaces are called (wayland.xml,
/// wl_buffer.release).
pub fn buffers_named()
    ensures { BuffersNamed }
{}

/// A buffer is busy, or used, if it is that of a surface under some number (wayland.xml,
/// wl_buffer.release).
pub fn holds_named()
    ensures { HoldsNamed }
{}

/// The buffers that are freed were busy and aren't any more (wayland.xml, wl_buffer.release).
pub fn frees_named()
    ensures { FreesNamed }
{}

/// The link kept of a child is the living one (wayland.xml, wl_subsurface).
pub fn ties_named()
    ensures { TiesNamed }
{}

/// The living link of a child is found by its number (wayland.xml,
/// wl_subcompositor.get_subsurface).
pub fn finds_named()
    ensures { FindsNamed }
{}

/// The same siblings are refused (wayland.xml, wl_subsurface.place_above and place_below).
pub fn siblings_named()
    ensures { SiblingsNamed }
{}

/// A child is refused for the same reason (wayland.xml, wl_subcompositor.get_subsurface).
pub fn refuses_named()
    ensures { RefusesNamed }
{}

/// The stacks kept of a surface are those that its requests make (wayland.xml,
/// wl_subsurface.place_above and place_below).
pub fn stacks_named()
    ensures { StacksNamed }
{}

/// What is told of a commit is told of surfaces by their ids (wayland.xml, wl_surface.commit).
pub fn tells_commit<A: Allocator>(changes: &[Change<A>])
    ensures { TellsCommit changes.now }
{}

/// What is told as a child becomes desynchronised is told of surfaces by their ids (wayland.xml,
/// wl_subsurface.set_desync).
pub fn tells_desync<A: Allocator>(changes: &[Change<A>])
    ensures { TellsDesync changes.now }
{}

/// What is told as a link ends is told of surfaces by their ids (wayland.xml,
/// wl_subsurface.destroy).
pub fn tells_unlink<A: Allocator>(changes: &[Change<A>])
    ensures { TellsUnlink changes.now }
{}

/// What is told as a surface ends is told of surfaces by their ids (wayland.xml,
/// wl_surface.destroy).
pub fn tells_end<A: Allocator>(changes: &[Change<A>])
    ensures { TellsEnd changes.now }
{}
