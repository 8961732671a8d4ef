//! The windows of the output, as a viewer is told of them.

ghost use Rattle.std.specs.Prelude.{◌≡◌, ◌<◌, Some, length, slice_get};
ghost use Rattle.spec_desktop.specs.Desktop.{Desktop};
ghost use Rattle.spec_desktop.specs.Stacked.{all_windows};
ghost use Rattle.wl_clients.specs.Shown.{shown_windows, windows_kept};
ghost use Rattle.wl_desk.specs.Agreeing.{Agrees};

use crate::desks::Desk;
use std::alloc::Allocator;
use wl_clients::ShownWindow;

impl<A: Allocator + Copy> Desk<A> {
    /// How many windows the output has.
    pub fn window_count(&self) -> usize
        ensures count { result ≡ windows_kept self.now.desk.kept }
        ensures windows { (d : Desktop) → Agrees self.now.desk d → result ≡ length (all_windows d) }
    {
        self.clients.window_count()
    }

    /// The window at place `k` of the stacking order, counted from 0 at the bottom. The caller
    /// makes sure that there are more than `k`.
    pub fn window(&self, k: usize) -> ShownWindow
        requires { k < windows_kept self.now.desk.kept }
        ensures { (d : Desktop) → Agrees self.now.desk d → slice_get (shown_windows d) k ≡ Some result }
    {
        self.clients.shown(k)
    }
}
