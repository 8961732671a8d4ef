//! The windows of a tree of surfaces, from bottom to top.

ghost use Rattle.std.specs.Prelude.{◌≡◌, ◌≤◌, ◌+◌, ◌++◌, IsOk, OnErr, OnOk, flat_map, length, map, vec_capacity, vec_len};
ghost use Rattle.wl_surface.specs.Linked.{Stand};
ghost use Rattle.spec_desktop.specs.Windows.{Owner, tree};
ghost use Rattle.wl_surface.specs.Surfaces.{Surfaces as Asked};
ghost use Rattle.wl_scene.specs.TreeWindows.{Continues, place_beside, placed_windows, rooted, told_of, told_tree};

use crate::tree_window::{Point, Spot, TreeWindow, window_of};
use std::alloc::{AllocError, Allocator};
use wl_links::{MAX_DEPTH, Member, Placed};
use wl_surface::{SurfaceNo, Surfaces};

/// The levels of a tree: that of its root, and those below it.
const LEVELS: u8 = MAX_DEPTH as u8 + 1;

/// Adds what stands at one place in the stack of a surface with this window: the window itself, or
/// a child's windows. It goes down this many levels at most.
#[cycle(tree)]
fn add_placed<A: Allocator + Copy>(
    surfaces: &Surfaces<A>,
    levels: u8,
    window: &TreeWindow,
    placed: &Placed,
    windows: &mut Vec<TreeWindow, A>,
) -> Result<(), AllocError>
    ensures ok { OnOk result ((all : Asked) (owner : Owner) → Stand surfaces.now.states surfaces.now.family all
        → windows.new.items
        ≡ windows.old.items ++ placed_windows (told_tree levels (rooted window.now.root owner) all) window.now placed.now) }
    ensures more { Continues windows.old.items windows.new.items }
    ensures succeeds { (all : Asked) (owner : Owner) → Stand surfaces.now.states surfaces.now.family all
        → vec_len windows.old + length (placed_windows (told_tree levels (rooted window.now.root owner) all) window.now placed.now)
        ≤ vec_capacity windows.old → IsOk result }
    ensures capacity { vec_capacity windows.old ≤ vec_capacity windows.new }
{
    match placed.member {
        Member::Itself => windows.push(*window)?,
        Member::Child(child) => {
            let spot = Spot {
                root: window.root,
                corner: Point {
                    x: window.x,
                    y: window.y,
                },
                position: Point {
                    x: placed.x,
                    y: placed.y,
                },
            };
            add_tree(surfaces, levels, child, &spot, windows)?;
        }
    }
    Ok(())
}

/// Adds what stands in the stack of a surface with this window, from below. It goes down this many
/// levels at most.
#[cycle(tree)]
fn add_stack<A: Allocator + Copy>(
    surfaces: &Surfaces<A>,
    levels: u8,
    window: &TreeWindow,
    stack: &[Placed],
    windows: &mut Vec<TreeWindow, A>,
) -> Result<(), AllocError>
    ensures ok { OnOk result ((all : Asked) (owner : Owner) → Stand surfaces.now.states surfaces.now.family all
        → windows.new.items
        ≡ windows.old.items ++ flat_map (placed_windows (told_tree levels (rooted window.now.root owner) all) window.now) stack.now) }
    ensures more { Continues windows.old.items windows.new.items }
    ensures succeeds { (all : Asked) (owner : Owner) → Stand surfaces.now.states surfaces.now.family all
        → vec_len windows.old
        + length (flat_map (placed_windows (told_tree levels (rooted window.now.root owner) all) window.now) stack.now)
        ≤ vec_capacity windows.old → IsOk result }
    ensures capacity { vec_capacity windows.old ≤ vec_capacity windows.new }
{
    for placed in stack {
        add_placed(surfaces, levels, window, placed, windows)?;
    }
    Ok(())
}

/// Adds the windows of the tree of a surface that is placed there. It goes down this many levels at
/// most.
#[cycle(tree)]
fn add_tree<A: Allocator + Copy>(
    surfaces: &Surfaces<A>,
    levels: u8,
    surface: SurfaceNo,
    spot: &Spot,
    windows: &mut Vec<TreeWindow, A>,
) -> Result<(), AllocError>
    ensures ok { OnOk result ((all : Asked) (owner : Owner) → Stand surfaces.now.states surfaces.now.family all
        → windows.new.items ≡ windows.old.items ++ told_tree levels (rooted spot.now.root owner) all surface (place_beside spot.now)) }
    ensures more { Continues windows.old.items windows.new.items }
    ensures succeeds { (all : Asked) (owner : Owner) → Stand surfaces.now.states surfaces.now.family all
        → vec_len windows.old + length (told_tree levels (rooted spot.now.root owner) all surface (place_beside spot.now))
        ≤ vec_capacity windows.old → IsOk result }
    ensures capacity { vec_capacity windows.old ≤ vec_capacity windows.new }
{
    if levels == 0 {
        return Ok(());
    }
    let Some(window) = window_of(surfaces, surface, spot) else {
        return Ok(());
    };
    let stack = surfaces.stack(surface);
    if stack.is_empty() {
        windows.push(window)?;
        return Ok(());
    }
    add_stack(surfaces, levels - 1, &window, stack, windows)
}

/// Adds the windows of the tree of a root behind the others, from bottom to top (wayland.xml,
/// wl_surface.attach, wl_subcompositor and wl_subsurface). The root is placed there on the output,
/// in pixels.
///
/// A surface that shows a buffer adds the children below it with theirs, itself, and the children
/// above it with theirs. A surface without a buffer isn't shown, and neither are its children.
///
/// # Errors
///
/// An `Err` means that memory ran out, and adds nothing. It can't come if there is room for the
/// windows already.
pub fn add_windows<A: Allocator + Copy>(
    surfaces: &Surfaces<A>,
    root: SurfaceNo,
    x: i32,
    y: i32,
    windows: &mut Vec<TreeWindow, A>,
) -> Result<(), AllocError>
    ensures ok { OnOk result ((all : Asked) (owner : Owner) → Stand surfaces.now.states surfaces.now.family all
        → windows.new.items ≡ windows.old.items ++ map told_of (tree 17 (rooted root owner) all root (record { x = x; y = y }))) }
    ensures err { OnErr result (windows.new.items ≡ windows.old.items) }
    ensures succeeds { (all : Asked) (owner : Owner) → Stand surfaces.now.states surfaces.now.family all
        → vec_len windows.old + length (tree 17 (rooted root owner) all root (record { x = x; y = y }))
        ≤ vec_capacity windows.old → IsOk result }
    ensures capacity { vec_capacity windows.old ≤ vec_capacity windows.new }
{
    let before = windows.len();
    let spot = Spot {
        root,
        corner: Point { x, y },
        position: Point { x: 0, y: 0 },
    };
    let added = add_tree(surfaces, LEVELS, root, &spot, windows);
    if added.is_err() {
        windows.truncate(before);
    }
    added
}
