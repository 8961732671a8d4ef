//! The windows of the output from bottom to top.

ghost use Rattle.std.specs.Prelude.{◌≡◌, ◌++◌, ◌≤◌, [], IsOk, OnErr, OnOk, false, length, map};
ghost use Rattle.std.specs.List.{list_any};
ghost use Rattle.wl_surface.specs.Linked.{Stand};
ghost use Rattle.wl_scene.specs.Stacked.{AreTogether, is_of, raised, replaced, run_of, stacked, toplevel_with, without_client, without_run, without_tree};
ghost use Rattle.wl_scene.specs.Told.{told_trees};
ghost use Rattle.spec_desktop.specs.Windows.{Owner};
ghost use Rattle.wl_surface.specs.Surfaces.{Surfaces as Asked};

use crate::roots::RootPlace;
use crate::runs::{lowest_in, move_in, raise_in, replace_in, run_in};
use crate::stacked::{Stacked, add_all, is_of_client, is_of_root, is_of_toplevel, reserve_both};
use crate::stacked_trees::add_trees;
use crate::tree_window::TreeWindow;
use std::alloc::{AllocError, Allocator};
use std::marker::Model;
use wl_surface::{SurfaceNo, Surfaces};

/// The windows of all mapped toplevels from bottom to top (xdg-shell.xml, xdg_surface and
/// xdg_popup; wayland.xml, wl_subsurface). The windows stacked with a toplevel stand together:
/// those of its tree and of the trees of its popups.
///
/// Contracts see the list, and how many more windows fit without memory. `spare` has room for all
/// of them too: the windows of a toplevel that is moved are told there.
#[derive(Drop)]
pub struct StackedWindows<A: Allocator> {
    windows: Vec<Stacked, A>,
    spare: Vec<TreeWindow, A>,
}

impl<A: Allocator> Model for StackedWindows<A> {
    ghost use Rattle.std.specs.Prelude.{vec_capacity, vec_len, ◌≤◌};
    ghost use Rattle.wl_scene.specs.Stacked.{AreTogether, WindowsKept, room_for};

    ghost Value = { WindowsKept };

    ghost view = { λ all. record { windows = all.windows.items; room = room_for (vec_len all.windows) (vec_capacity all.windows) (vec_capacity all.spare) } };

    ghost invariant = { λ all. AreTogether all.windows.items × (vec_len all.windows ≤ vec_capacity all.spare) };
}

impl<A: Allocator + Copy> StackedWindows<A> {
    /// No windows.
    pub fn new(alloc: A) -> Self
        ensures { result.windows ≡ [] }
    {
        StackedWindows {
            windows: Vec::new(alloc),
            spare: Vec::new(alloc),
        }
    }

    /// Lists the windows stacked with a toplevel anew, where their roots are placed now, tree after
    /// tree and one by one. There are equally many of them. It takes no memory.
    pub fn move_run(
        &mut self,
        client: u32,
        toplevel: SurfaceNo,
        surfaces: &Surfaces<A>,
        roots: &[RootPlace],
    )
        ensures windows { (all : Asked) (owner : Owner) → Stand surfaces.now.states surfaces.now.family all
            → length (told_trees owner all roots.now) ≡ length (run_of client toplevel self.old.windows)
            → self.new.windows ≡ replaced client toplevel (told_trees owner all roots.now) self.old.windows }
        ensures room { self.old.room ≤ self.new.room }
    {
        self.spare.clear();
        if add_trees(surfaces, roots, &mut self.spare).is_ok() {
            move_in(&mut self.windows, client, toplevel, &self.spare);
        }
    }
}

impl<A: Allocator> StackedWindows<A> {
    /// The windows, from bottom to top.
    pub fn windows(&self) -> &[Stacked]
        ensures windows { result.now ≡ self.now.windows }
        ensures together { AreTogether self.now.windows }
    {
        &self.windows[..]
    }

    /// Whether a window is stacked with this toplevel.
    pub fn has_toplevel(&self, client: u32, toplevel: SurfaceNo) -> bool
        ensures { result ≡ list_any (is_of client toplevel) self.now.windows }
    {
        self.windows
            .iter()
            .any(|stacked| is_of_toplevel(stacked, client, toplevel))
    }

    /// The windows stacked with a toplevel, from bottom to top.
    pub fn run(&self, client: u32, toplevel: SurfaceNo) -> &[Stacked]
        ensures { result.now ≡ run_of client toplevel self.now.windows }
    {
        run_in(&self.windows, client, toplevel)
    }

    /// The toplevel that the lowest window of the tree of a root is stacked with. `None` if the
    /// tree has no window.
    pub fn toplevel_with(&self, client: u32, root: SurfaceNo) -> Option<SurfaceNo>
        ensures { result ≡ toplevel_with client root self.now.windows }
    {
        match lowest_in(&self.windows, client, root) {
            Some(stacked) => Some(stacked.toplevel),
            None => None,
        }
    }

    /// Makes room for this many more windows: until others are added, adding or replacing as many
    /// takes no memory.
    ///
    /// # Errors
    ///
    /// An `Err` means that memory ran out, and changes nothing.
    pub fn reserve(&mut self, count: usize) -> Result<(), AllocError>
        ensures windows { self.new.windows ≡ self.old.windows }
        ensures room { self.old.room ≤ self.new.room }
        ensures ok { OnOk result (count ≤ self.new.room) }
    {
        reserve_both(&mut self.windows, &mut self.spare, count)
    }

    /// Puts the windows stacked with a toplevel on top of the others. It has to have none there
    /// yet.
    ///
    /// # Errors
    ///
    /// An `Err` means that memory ran out, and changes nothing. It can't come if there is room for
    /// the windows already.
    pub fn push(
        &mut self,
        client: u32,
        toplevel: SurfaceNo,
        windows: &[TreeWindow],
    ) -> Result<(), AllocError>
        requires { list_any (is_of client toplevel) self.old.windows ≡ false }
        ensures ok { OnOk result (self.new.windows ≡ self.old.windows ++ map (stacked client toplevel) windows.now) }
        ensures err { OnErr result (self.new.windows ≡ self.old.windows) }
        ensures succeeds { length windows.now ≤ self.old.room → IsOk result }
    {
        reserve_both(&mut self.windows, &mut self.spare, windows.len())?;
        add_all(&mut self.windows, client, toplevel, windows)
    }

    /// Puts these windows in the place of those stacked with a toplevel. Nothing changes if it has
    /// none.
    ///
    /// # Errors
    ///
    /// An `Err` means that memory ran out, and changes nothing. It can't come if there is room for
    /// the windows already.
    pub fn replace(
        &mut self,
        client: u32,
        toplevel: SurfaceNo,
        windows: &[TreeWindow],
    ) -> Result<(), AllocError>
        ensures ok { OnOk result (self.new.windows ≡ replaced client toplevel windows.now self.old.windows) }
        ensures err { OnErr result (self.new.windows ≡ self.old.windows) }
        ensures succeeds { length windows.now ≤ self.old.room → IsOk result }
    {
        reserve_both(&mut self.windows, &mut self.spare, windows.len())?;
        replace_in(&mut self.windows, client, toplevel, windows)
    }

    /// Raises a toplevel: puts the windows stacked with it on top of the others. Nothing changes if
    /// it has none.
    pub fn raise(&mut self, client: u32, toplevel: SurfaceNo)
        ensures windows { self.new.windows ≡ raised client toplevel self.old.windows }
        ensures room { self.old.room ≤ self.new.room }
    {
        raise_in(&mut self.windows, client, toplevel);
    }

    /// Takes the windows stacked with a toplevel out.
    pub fn remove(&mut self, client: u32, toplevel: SurfaceNo)
        ensures windows { self.new.windows ≡ without_run client toplevel self.old.windows }
        ensures room { self.old.room ≤ self.new.room }
    {
        self.windows
            .retain(|stacked| !is_of_toplevel(stacked, client, toplevel));
    }

    /// Takes the windows of the tree of this root out.
    pub fn remove_tree(&mut self, client: u32, root: SurfaceNo)
        ensures windows { self.new.windows ≡ without_tree client root self.old.windows }
        ensures room { self.old.room ≤ self.new.room }
    {
        self.windows
            .retain(|stacked| !is_of_root(stacked, client, root));
    }

    /// Takes all windows of a client out.
    pub fn remove_client(&mut self, client: u32)
        ensures windows { self.new.windows ≡ without_client client self.old.windows }
        ensures room { self.old.room ≤ self.new.room }
    {
        self.windows
            .retain(|stacked| !is_of_client(stacked, client));
    }
}
