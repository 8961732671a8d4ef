//! The stacks of those surfaces of a client that have had a child.

ghost use Rattle.std.specs.Prelude.{◌≡◌, OnOk, OnErr};
ghost use Rattle.wl_links.specs.Stacks.{added, beside, moved, placed, removed, whole};
ghost use Rattle.wl_links.specs.Family.{applied, changed_at, committed, pending_as, stacks_kept};

use crate::children::Children;
use crate::placed::{Member, Placed, Side};
use crate::trees::SurfaceNo;
use std::alloc::{AllocError, Allocator};
use std::collections::BTreeMap;

/// Puts a new child topmost in a surface's pending stack. Without memory nothing changes.
pub(crate) fn add_child<A: Allocator + Copy>(
    stacks: &mut BTreeMap<SurfaceNo, Children<A>, A>,
    parent: SurfaceNo,
    child: SurfaceNo,
    alloc: A,
) -> Result<(), AllocError>
    ensures ok { OnOk result (stacks_kept stacks.new.entries ≡ changed_at parent (pending_as (added child)) (stacks_kept stacks.old.entries)) }
    ensures err { OnErr result (stacks.new.entries ≡ stacks.old.entries) }
{
    match stacks.get_mut(&parent) {
        Some(children) => children.add(child),
        None => {
            let mut children = Children::new(alloc);
            children.add(child)?;
            stacks.insert(parent, children)?;
            Ok(())
        }
    }
}

/// Moves a child in a surface's pending stack, in pixels of the surface. Without memory nothing
/// changes.
pub(crate) fn move_child<A: Allocator + Copy>(
    stacks: &mut BTreeMap<SurfaceNo, Children<A>, A>,
    parent: SurfaceNo,
    child: SurfaceNo,
    x: i32,
    y: i32,
) -> Result<(), AllocError>
    ensures ok { OnOk result (stacks_kept stacks.new.entries ≡ changed_at parent (pending_as (moved child x y)) (stacks_kept stacks.old.entries)) }
    ensures err { OnErr result (stacks.new.entries ≡ stacks.old.entries) }
{
    match stacks.get_mut(&parent) {
        Some(children) => children.set_position(child, x, y),
        None => Ok(()),
    }
}

/// Puts a child right above or right below a member, in a surface's pending stack. Without memory
/// nothing changes.
pub(crate) fn put_beside<A: Allocator + Copy>(
    stacks: &mut BTreeMap<SurfaceNo, Children<A>, A>,
    parent: SurfaceNo,
    child: SurfaceNo,
    at: Member,
    side: Side,
) -> Result<(), AllocError>
    ensures ok { OnOk result (stacks_kept stacks.new.entries ≡ changed_at parent (pending_as (placed (beside side) child at)) (stacks_kept stacks.old.entries)) }
    ensures err { OnErr result (stacks.new.entries ≡ stacks.old.entries) }
{
    match stacks.get_mut(&parent) {
        Some(children) => children.place(child, at, side),
        None => Ok(()),
    }
}

/// Takes a child out of all stacks of a surface.
pub(crate) fn take_out<A: Allocator>(
    stacks: &mut BTreeMap<SurfaceNo, Children<A>, A>,
    parent: SurfaceNo,
    child: SurfaceNo,
)
    ensures { stacks_kept stacks.new.entries ≡ changed_at parent (removed child) (stacks_kept stacks.old.entries) }
{
    if let Some(children) = stacks.get_mut(&parent) {
        children.remove(child);
    }
}

/// A surface's pending stack becomes the held one.
pub(crate) fn hold<A: Allocator>(
    stacks: &mut BTreeMap<SurfaceNo, Children<A>, A>,
    surface: SurfaceNo,
)
    ensures { stacks_kept stacks.new.entries ≡ changed_at surface committed (stacks_kept stacks.old.entries) }
{
    if let Some(children) = stacks.get_mut(&surface) {
        children.hold();
    }
}

/// A surface's held stack becomes the applied one.
pub(crate) fn apply_held<A: Allocator>(
    stacks: &mut BTreeMap<SurfaceNo, Children<A>, A>,
    surface: SurfaceNo,
)
    ensures { stacks_kept stacks.new.entries ≡ changed_at surface applied (stacks_kept stacks.old.entries) }
{
    if let Some(children) = stacks.get_mut(&surface) {
        children.apply();
    }
}

/// A surface's applied stack. It is empty for a surface without children.
pub(crate) fn applied_of<A: Allocator>(
    stacks: &BTreeMap<SurfaceNo, Children<A>, A>,
    surface: SurfaceNo,
) -> &[Placed]
    ensures { whole result.now ≡ (stacks_kept stacks.now.entries surface).applied }
{
    match stacks.get(&surface) {
        Some(children) => children.applied(),
        None => &[],
    }
}
