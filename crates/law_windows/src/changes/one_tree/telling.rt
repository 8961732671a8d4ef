//! What is told of surfaces by their numbers is told of the windows of their trees.

ghost use Rattle.law_windows.specs.Telling.{CommitToldByName, DesyncToldByName, EndToldByName};
ghost use Rattle.law_windows.specs.Telling.{NothingToldByName, UnlinkToldByName};

use crate::changes::{
    commit_tells_applied, desync_tells_applied, end_tells_applied, unlink_tells_applied,
};
use law_desktop::invariants::applies_nothing;
use law_desktop::named::{
    commits_surface, destroys_surface, desynchronises, finds_links, keeps_places, reads_surfaces,
    unlinks,
};
use std::alloc::Allocator;

/// What a commit tells by name is the damage that it applies to the windows of each tree
/// (wayland.xml, wl_surface.commit).
pub fn commit_told_by_name<A: Allocator>()
    ensures { CommitToldByName A }
{
    reads_surfaces();
    commits_surface();
    commit_tells_applied::<A>();
}

/// What wl_subsurface.set_desync of a living link tells is that damage too.
pub fn desync_told_by_name<A: Allocator>()
    ensures { DesyncToldByName A }
{
    reads_surfaces();
    finds_links();
    desynchronises();
    desync_tells_applied::<A>();
}

/// What the end of a living link tells is that damage too (wayland.xml, wl_subsurface.destroy).
pub fn unlink_told_by_name<A: Allocator>()
    ensures { UnlinkToldByName A }
{
    reads_surfaces();
    finds_links();
    unlinks();
    unlink_tells_applied::<A>();
}

/// What the end of a surface that is there tells is that damage too (wayland.xml,
/// wl_surface.destroy).
pub fn end_told_by_name<A: Allocator>()
    ensures { EndToldByName A }
{
    reads_surfaces();
    keeps_places();
    destroys_surface();
    end_tells_applied::<A>();
}

/// Nothing is to be told of surfaces that stay as they are.
pub fn nothing_told_by_name<A: Allocator>()
    ensures { NothingToldByName A }
{
    applies_nothing();
}
