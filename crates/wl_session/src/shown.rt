//! The windows of the output, as a viewer is told of them.

ghost use Rattle.std.specs.Prelude.{◌≡◌, ◌<◌, Some, length, slice_get};
ghost use Rattle.spec_desktop.specs.Desktop.{Desktop};
ghost use Rattle.spec_desktop.specs.Stacked.{all_windows};
ghost use Rattle.wl_desk.specs.Agreeing.{Agrees};
ghost use Rattle.wl_desk.specs.Shown.{shown_windows, windows_kept};

use crate::sessions::Session;
use std::alloc::Allocator;
use wl_desk::ShownWindow;

impl<A: Allocator + Copy> Session<A> {
    /// How many windows the output has: toplevels, popups and subsurfaces that show a buffer. It
    /// takes no memory.
    pub fn window_count(&self) -> usize
        ensures count { result ≡ windows_kept self.now.desk.kept }
        ensures windows { (d : Desktop) → Agrees self.now.desk d → result ≡ length (all_windows d) }
    {
        self.desk.window_count()
    }

    /// The window at place `k` of the stacking order, counted from 0 at the bottom. It has its
    /// client, the id of its wl_surface, its upper left corner in pixels of the output, and its
    /// size in surface coordinates. It takes no memory.
    ///
    /// The caller makes sure that [`Session::window_count`] is above `k`.
    pub fn window(&self, k: usize) -> ShownWindow
        requires { k < windows_kept self.now.desk.kept }
        ensures { (d : Desktop) → Agrees self.now.desk d → slice_get (shown_windows d) k ≡ Some result }
    {
        self.desk.window(k)
    }
}
