//! The windows of the output, as a viewer is told of them.

ghost use Rattle.std.specs.Prelude.{◌≡◌, ◌<◌, Some, length, slice_get};
ghost use Rattle.spec_desktop.specs.Desktop.{Desktop};
ghost use Rattle.spec_desktop.specs.Stacked.{all_windows};
ghost use Rattle.wl_clients.specs.Agreeing.{Agrees};
ghost use Rattle.wl_clients.specs.Shown.{shown_windows, windows_kept};

use crate::clients::Clients;
use spec_desktop::ClientNo;
use std::alloc::Allocator;

/// A window of the output, as a viewer is told of it: the number of its client, and the id of its
/// wl_surface. Its upper left corner is in pixels of the output, its width and height in surface
/// coordinates (wayland.xml, wl_surface).
#[derive(Clone, Copy, Debug, PartialEq, Eq)]
pub struct ShownWindow {
    pub client: ClientNo,
    pub surface: u32,
    pub x: i32,
    pub y: i32,
    pub width: u32,
    pub height: u32,
}

impl<A: Allocator + Copy> Clients<A> {
    /// How many windows the output has.
    pub fn window_count(&self) -> usize
        ensures count { result ≡ windows_kept self.now.desk }
        ensures windows { (d : Desktop) → Agrees self.now.desk d → result ≡ length (all_windows d) }
    {
        self.screen.stacked.len()
    }

    /// The window at place `k` of the stacking order, counted from 0 at the bottom. The caller
    /// makes sure that there are more than `k`.
    pub fn shown(&self, k: usize) -> ShownWindow
        requires { k < windows_kept self.now.desk }
        ensures { (d : Desktop) → Agrees self.now.desk d → slice_get (shown_windows d) k ≡ Some result }
    {
        let window = self.screen.stacked.window(k);
        let client = window.surface.client;
        // Each window's surface is there, so it has an id: no window gets 0, which is null.
        let surface = self.surface_id(client, window.surface.surface).unwrap_or(0);
        ShownWindow {
            client,
            surface,
            x: window.x,
            y: window.y,
            width: window.w,
            height: window.h,
        }
    }
}
