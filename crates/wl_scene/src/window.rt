//! The windows of the output, read one by one in stacking order, and the surface that a point hits.

ghost use Rattle.std.specs.Prelude.{ℕ, ◌≡◌, ◌<◌, IsSomeAnd, List, length, slice_get};
ghost use Rattle.spec_desktop.specs.Desktop.{Desktop};
ghost use Rattle.spec_desktop.specs.Objects.{ById};
ghost use Rattle.spec_desktop.specs.Pointer.{target_of};
ghost use Rattle.spec_desktop.specs.Stacked.{all_windows};
ghost use Rattle.spec_desktop.specs.Windows.{Window as Plain, hit as hit_of};
ghost use Rattle.wl_scene.specs.ByNumbers.{IsNumberedOrNone};
ghost use Rattle.wl_scene.specs.Hit.{AreKept};
ghost use Rattle.wl_scene.specs.StackedAgreement.{AreStacked};
ghost use Rattle.wl_scene.specs.Window.{IsTold, named_or_none, surface_of, told_of};

use crate::hitting::{Surfaced, hit};
use crate::scene::Surface;
use crate::stacked::Stacked;
use crate::stacked_windows::StackedWindows;
use std::alloc::Allocator;

/// A window of the output: its surface, its upper left corner in pixels of the output, and its
/// width and height in surface coordinates (wayland.xml, wl_surface).
#[derive(Clone, Copy, Debug, PartialEq, Eq)]
pub struct Window {
    pub surface: Surface,
    pub x: i32,
    pub y: i32,
    pub w: u32,
    pub h: u32,
}

/// What is told of a window that is kept.
fn window_of(stacked: &Stacked) -> Window
    ensures { result ≡ told_of stacked.now }
{
    Window {
        surface: surface_of(stacked),
        x: stacked.window.x,
        y: stacked.window.y,
        w: stacked.window.w,
        h: stacked.window.h,
    }
}

/// Whose a window is.
fn surface_of(stacked: &Stacked) -> Surface
    ensures { result ≡ surface_of stacked.now }
{
    Surface {
        client: stacked.client,
        surface: stacked.window.surface,
    }
}

impl<A: Allocator> StackedWindows<A> {
    /// How many windows there are.
    pub fn len(&self) -> usize
        ensures count { result ≡ length self.now.windows }
        ensures windows { (numbers : ℕ → ById ℕ) (ws : List Plain) → AreStacked numbers self.now.windows ws → result ≡ length ws }
    {
        self.windows().len()
    }

    /// The window at place `k`, counted from 0 at the bottom. The caller makes sure that there are
    /// more than `k`.
    pub fn window(&self, k: usize) -> Window
        requires { k < length self.now.windows }
        ensures { (numbers : ℕ → ById ℕ) (ws : List Plain) → AreStacked numbers self.now.windows ws
            → IsSomeAnd (slice_get ws k) (λ w. IsTold numbers result w) }
    {
        window_of(&self.windows()[k])
    }

    /// The surface that a point hits, in pixels of the output: that of the topmost window which
    /// takes the input there (wayland.xml, wl_surface.set_input_region).
    pub fn hit<S: Surfaced>(&self, clients: &S, x: i32, y: i32) -> Option<Surface>
        ensures { (numbers : ℕ → ById ℕ) (d : Desktop) → AreKept (S.slots clients.now) numbers self.now.windows d
            → IsNumberedOrNone numbers (named_or_none result) (target_of (hit_of x y (all_windows d))) }
    {
        match hit(self.windows(), clients, x, y) {
            Some(stacked) => Some(surface_of(&stacked)),
            None => None,
        }
    }
}
