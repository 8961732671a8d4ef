//! The windows of the trees of several roots, one after another.

ghost use Rattle.std.specs.Prelude.{◌≡◌, ◌≤◌, ◌+◌, ◌++◌, IsOk, OnOk, length, vec_capacity, vec_len};
ghost use Rattle.wl_surface.specs.Linked.{Stand};
ghost use Rattle.spec_desktop.specs.Windows.{Owner};
ghost use Rattle.wl_surface.specs.Surfaces.{Surfaces as Asked};
ghost use Rattle.wl_scene.specs.Told.{told_at, told_trees};

use crate::roots::RootPlace;
use crate::tree_window::TreeWindow;
use crate::tree_windows::add_windows;
use std::alloc::{AllocError, Allocator};
use wl_surface::Surfaces;

/// Adds the windows of the tree of this root behind the others, from bottom to top, at the root's
/// place.
fn add_root<A: Allocator + Copy>(
    surfaces: &Surfaces<A>,
    root: &RootPlace,
    windows: &mut Vec<TreeWindow, A>,
) -> Result<(), AllocError>
    ensures ok { OnOk result ((all : Asked) (owner : Owner) → Stand surfaces.now.states surfaces.now.family all
        → windows.new.items ≡ windows.old.items ++ told_at owner all root.now) }
    ensures succeeds { (all : Asked) (owner : Owner) → Stand surfaces.now.states surfaces.now.family all
        → vec_len windows.old + length (told_at owner all root.now) ≤ vec_capacity windows.old → IsOk result }
    ensures capacity { vec_capacity windows.old ≤ vec_capacity windows.new }
{
    add_windows(surfaces, root.surface, root.x, root.y, windows)
}

/// Adds the windows of the trees of these roots behind the others, tree after tree, each from
/// bottom to top at its root's place.
///
/// # Errors
///
/// An `Err` means that memory ran out; only those of the first roots may have come then. It can't
/// come if there is room for all of them already.
pub fn add_trees<A: Allocator + Copy>(
    surfaces: &Surfaces<A>,
    roots: &[RootPlace],
    windows: &mut Vec<TreeWindow, A>,
) -> Result<(), AllocError>
    ensures ok { OnOk result ((all : Asked) (owner : Owner) → Stand surfaces.now.states surfaces.now.family all
        → windows.new.items ≡ windows.old.items ++ told_trees owner all roots.now) }
    ensures succeeds { (all : Asked) (owner : Owner) → Stand surfaces.now.states surfaces.now.family all
        → vec_len windows.old + length (told_trees owner all roots.now) ≤ vec_capacity windows.old → IsOk result }
    ensures capacity { vec_capacity windows.old ≤ vec_capacity windows.new }
{
    for root in roots {
        add_root(surfaces, root, windows)?;
    }
    Ok(())
}
