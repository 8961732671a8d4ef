//! A window of the output, and whose it is.

ghost use Rattle.std.specs.Prelude.{◌≡◌, ◌++◌, ◌+◌, ◌==◌, ◌≤◌, IsOk, OnErr, OnOk, length, map, vec_capacity, vec_len};
ghost use Rattle.wl_scene.specs.Stacked.{is_of, is_rooted, stacked};

use crate::tree_window::TreeWindow;
use std::alloc::{AllocError, Allocator};
use wl_surface::SurfaceNo;

/// A window of the output, with its client and the surface of the toplevel that it is stacked with.
#[derive(Clone, Copy, Debug)]
pub struct Stacked {
    pub client: u32,
    pub toplevel: SurfaceNo,
    pub window: TreeWindow,
}

/// Whether a window is stacked with this toplevel.
pub(crate) fn is_of_toplevel(stacked: &Stacked, client: u32, toplevel: SurfaceNo) -> bool
    ensures { result ≡ is_of client toplevel stacked.now }
{
    stacked.client == client && stacked.toplevel == toplevel
}

/// Whether a window is of the tree of this root.
pub(crate) fn is_of_root(stacked: &Stacked, client: u32, root: SurfaceNo) -> bool
    ensures { result ≡ is_rooted client root stacked.now }
{
    stacked.client == client && stacked.window.root == root
}

/// Whether a window is a client's.
pub(crate) fn is_of_client(stacked: &Stacked, client: u32) -> bool
    ensures { result ≡ (stacked.now.client == client) }
{
    stacked.client == client
}

/// Makes room for this many more windows, both where they are kept and where those of a toplevel
/// are told.
///
/// # Errors
///
/// An `Err` means that memory ran out, and changes no window.
pub(crate) fn reserve_both<A: Allocator>(
    all: &mut Vec<Stacked, A>,
    spare: &mut Vec<TreeWindow, A>,
    count: usize,
) -> Result<(), AllocError>
    ensures items { all.new.items ≡ all.old.items }
    ensures capacity { vec_capacity all.old ≤ vec_capacity all.new }
    ensures spare { vec_capacity spare.old ≤ vec_capacity spare.new }
    ensures ok { OnOk result (vec_len all.old + count ≤ vec_capacity all.new) }
    ensures ok_spare { OnOk result (vec_len all.old + count ≤ vec_capacity spare.new) }
    ensures succeeds { vec_len all.old + count ≤ vec_capacity all.old → vec_len all.old + count ≤ vec_capacity spare.old → IsOk result }
{
    all.try_reserve(count)?;
    spare.clear();
    spare.try_reserve(all.len() + count)
}

/// Puts these windows, stacked with a toplevel, on top of the others.
///
/// # Errors
///
/// An `Err` means that memory ran out, and adds nothing.
pub(crate) fn add_all<A: Allocator>(
    all: &mut Vec<Stacked, A>,
    client: u32,
    toplevel: SurfaceNo,
    windows: &[TreeWindow],
) -> Result<(), AllocError>
    ensures ok { OnOk result (all.new.items ≡ all.old.items ++ map (stacked client toplevel) windows.now) }
    ensures err { OnErr result (all.new.items ≡ all.old.items) }
    ensures succeeds { vec_len all.old + length windows.now ≤ vec_capacity all.old → IsOk result }
{
    all.try_reserve(windows.len())?;
    for window in windows {
        all.push_reserved(Stacked {
            client,
            toplevel,
            window: *window,
        });
    }
    Ok(())
}
