//! The windows of a toplevel, with room for as many as there can be.

ghost use Rattle.std.specs.Prelude.{◌≡◌, ◌≤◌, length};
ghost use Rattle.wl_clients.specs.Runs.{windows_told};

use std::alloc::{AllocError, Allocator};
use std::marker::Model;
use wl_scene::{Stacked, TreeWindow};
use wl_surface::MAX_SURFACES;

/// The windows stacked with one toplevel. There is room for as many as a client can have: each has
/// a surface of its own.
#[derive(Drop)]
pub(crate) struct Run<A: Allocator> {
    windows: Vec<TreeWindow, A>,
}

impl<A: Allocator> Model for Run<A> {
    ghost use Rattle.std.specs.Prelude.{List, ◌≤◌, vec_capacity};
    ghost use Rattle.wl_scene.specs.declared.tree_window.TreeWindow.{TreeWindow};

    ghost Value = { List TreeWindow };

    ghost view = { λ run. run.windows.items };

    ghost invariant = { λ run. 256 ≤ vec_capacity run.windows };
}

impl<A: Allocator> Run<A> {
    /// None yet. An `Err` means that memory ran out.
    pub(crate) fn new(alloc: A) -> Result<Self, AllocError> {
        let mut windows = Vec::new(alloc);
        windows.try_reserve(MAX_SURFACES)?;
        Ok(Run { windows })
    }

    /// The windows, from bottom to top.
    pub(crate) fn windows(&self) -> &[TreeWindow]
        ensures { result.now ≡ self.now }
    {
        &self.windows
    }

    /// Keeps these windows, which are no more than a client can have.
    pub(crate) fn keep(&mut self, windows: &[Stacked])
        ensures { length windows.now ≤ 256 → self.new ≡ windows_told windows.now }
    {
        self.windows.clear();
        if self.windows.try_reserve(windows.len()).is_err() {
            return;
        }
        for stacked in windows {
            self.windows.push_reserved(stacked.window);
        }
    }
}
