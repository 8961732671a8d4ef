//! The laws of what is told of surfaces: the damage that a call tells of is exactly the damage that
//! it applies (wayland.xml, wl_surface.damage and wl_subsurface). Each law is a function that
//! promises it.

ghost use Rattle.law_windows.specs.ToldLaws.{CommitTellsApplied, DesyncTellsApplied, EndTellsApplied, LinkEndTellsApplied, UnlinkTellsApplied};
ghost use Rattle.law_windows.specs.ToldWindows.{BetweenIsApplied, TellsWindows};

use std::alloc::Allocator;

/// What a commit tells of each surface is the damage that it applies to it: nothing, if it doesn't
/// apply the surface.
pub fn commit_tells_applied<A: Allocator>()
    ensures { CommitTellsApplied A }
{}

/// What wl_subsurface.set_desync of a living link tells of each surface is the damage that it
/// applies to it.
pub fn desync_tells_applied<A: Allocator>()
    ensures { DesyncTellsApplied A }
{}

/// What is told of each surface when a living link ends is the damage that this applies to it
/// (wl_subsurface.destroy).
pub fn link_end_tells_applied<A: Allocator>()
    ensures { LinkEndTellsApplied A }
{}

/// The same holds if the link is ended by its number, which no other link has
/// (wl_subsurface.destroy).
pub fn unlink_tells_applied<A: Allocator>()
    ensures { UnlinkTellsApplied A }
{}

/// What is told when a surface goes is the damage that this applies to the others, if none stands
/// deeper than 16 (wl_surface.destroy).
pub fn end_tells_applied<A: Allocator>()
    ensures { EndTellsApplied A }
{}

/// What was applied between two desktops is what was applied to each client's surfaces.
pub fn between_is_applied()
    ensures { BetweenIsApplied }
{}

/// What is told of surfaces is told of each window of a tree of them.
pub fn tells_windows<A: Allocator>()
    ensures { TellsWindows A }
{}
