//! What a point of the output hits.

ghost use Rattle.std.specs.Prelude.{◌≡◌, ◌&&◌, ◌-ℤ◌, ℕ, List, Option, Some, option_copied, pos};
ghost use Rattle.std.specs.List.{list_any};
ghost use Rattle.std.specs.Option.{option_map};
ghost use Rattle.wl_geom.specs.Rect.{in_span};
ghost use Rattle.wl_geom.specs.Region.{Change};
ghost use Rattle.wl_surface.specs.Kept.{IsInput, Kept, Stands, counting_in, counting_of};
ghost use Rattle.wl_surface.specs.State.{History, applied};
ghost use Rattle.wl_surface.specs.Slots.{Slots, kept_at};
ghost use Rattle.wl_surface.specs.Surfaces.{Surfaces as Asked};
ghost use Rattle.spec_desktop.specs.Objects.{ById};
ghost use Rattle.spec_desktop.specs.Pointer.{is_stacked};
ghost use Rattle.spec_desktop.specs.Windows.{Window, hit as hit_of, is_hit, takes_input as input_at};
ghost use Rattle.spec_desktop.specs.Desktop.{Desktop};
ghost use Rattle.spec_desktop.specs.Stacked.{all_windows};
ghost use Rattle.wl_scene.specs.ByNumbers.{HitsByNumbers, SettlesByNumbers};
ghost use Rattle.wl_scene.specs.Hit.{AreKept, IsStackedOrNone, ShowsSurface, is_window_of};
ghost use Rattle.wl_scene.specs.Hit.{slots_or_none};
ghost use Rattle.wl_scene.specs.Hit.{IsStoodFor};
ghost use Rattle.wl_scene.specs.StackedAgreement.{AreNumberedOnce, AreStacked, IsStacked};

use crate::stacked::Stacked;
use crate::tree_window::TreeWindow;
use std::alloc::Allocator;
use wl_geom::Region;
use wl_surface::{Current, SurfaceNo, SurfaceStates};

/// The surfaces of the clients.
pub trait Surfaced {
    /// The allocator of what is kept of them.
    type Heap: Allocator;

    ghost slots: { Self → ℕ → Slots };

    /// The surfaces of the client of this number, if it is there.
    fn surfaces(&self, client: u32) -> Option<&SurfaceStates<Self::Heap>>
        ensures { slots_or_none (option_copied result) ≡ slots self.now client };
}

/// The applied state of a surface, if it is there.
pub fn current_of<A: Allocator>(
    surfaces: Option<&SurfaceStates<A>>,
    surface: SurfaceNo,
) -> Option<Current<'_, A>>
    ensures { option_map counting_in result ≡ option_map counting_of (kept_at (slots_or_none (option_copied surfaces.entry)) surface) }
{
    match surfaces {
        Some(surfaces) => surfaces.current(surface),
        None => None,
    }
}

/// Whether one of `len` coordinates from `start` on is this one.
fn spans(start: i32, len: u32, at: i32) -> bool
    ensures { result ≡ in_span start (pos len) at }
{
    let start = i64::from(start);
    let at = i64::from(at);
    start <= at && at < start + i64::from(len)
}

/// Whether the point lies in the window.
fn contains(window: &TreeWindow, x: i32, y: i32) -> bool
    ensures { result ≡ (in_span window.now.x (pos window.now.w) x && in_span window.now.y (pos window.now.h) y) }
{
    spans(window.x, window.w, x) && spans(window.y, window.h, y)
}

/// Whether an input region holds a point of its surface: everything, if none was set.
fn region_takes<A: Allocator>(input: Option<&Region<A>>, x: i64, y: i64) -> bool
    ensures { (changes : Option (List Change)) → IsInput (option_copied input.entry) changes → result ≡ input_at changes x y }
{
    let Some(region) = input else {
        return true;
    };
    let Ok(x) = i32::try_from(x) else {
        return false;
    };
    let Ok(y) = i32::try_from(y) else {
        return false;
    };
    region.contains(x, y)
}

/// How far one coordinate is from another.
fn between(from: i32, to: i32) -> i64
    ensures { result ≡ to -ℤ from }
{
    i64::from(to) - i64::from(from)
}

/// Whether the applied input region of the window's surface holds the point.
fn surface_takes<A: Allocator>(
    surfaces: Option<&SurfaceStates<A>>,
    window: &TreeWindow,
    x: i32,
    y: i32,
) -> bool
    ensures { (k : Kept) (h : History) → kept_at (slots_or_none (option_copied surfaces.entry)) window.now.surface ≡ Some k → Stands k h
        → result ≡ input_at (applied h).input (x -ℤ window.now.x) (y -ℤ window.now.y) }
{
    let Some(current) = current_of(surfaces, window.surface) else {
        return false;
    };
    let right = between(window.x, x);
    let down = between(window.y, y);
    region_takes(current.input, right, down)
}

/// Whether a window takes the input at a point, in pixels of the output: the point lies in the
/// window, and its surface's applied input region holds it (wayland.xml,
/// wl_surface.set_input_region).
pub fn takes_input<A: Allocator>(
    stacked: &Stacked,
    surfaces: Option<&SurfaceStates<A>>,
    x: i32,
    y: i32,
) -> bool
    ensures { (numbers : ℕ → ById ℕ) (all : Asked) (w : Window)
        → IsStacked numbers stacked.now w → IsStoodFor (numbers stacked.now.client) (slots_or_none (option_copied surfaces.entry)) all
        → ShowsSurface all w → result ≡ is_hit x y w }
{
    contains(&stacked.window, x, y) && surface_takes(surfaces, &stacked.window, x, y)
}

/// The window that a point hits, in pixels of the output: the topmost that takes the input there
/// (wayland.xml, wl_surface.set_input_region).
pub fn hit<S: Surfaced>(windows: &[Stacked], clients: &S, x: i32, y: i32) -> Option<Stacked>
    ensures { (numbers : ℕ → ById ℕ) (d : Desktop) → AreKept (S.slots clients.now) numbers windows.now d
        → IsStackedOrNone numbers result (hit_of x y (all_windows d)) }
{
    for place in (0..windows.len()).rev() {
        let stacked = windows[place];
        if takes_input(&stacked, clients.surfaces(stacked.client), x, y) {
            return Some(stacked);
        }
    }
    None
}

fn is_window_of(stacked: &Stacked, client: u32, surface: SurfaceNo) -> bool
    ensures { result ≡ is_window_of client surface stacked.now }
{
    stacked.client == client && stacked.window.surface == surface
}

fn has_window(windows: &[Stacked], client: u32, surface: SurfaceNo) -> bool
    ensures { result ≡ list_any (is_window_of client surface) windows.now }
{
    windows
        .iter()
        .any(|stacked| is_window_of(stacked, client, surface))
}

/// Whether a surface of a client, by its number, has a window on the output.
pub fn is_among(windows: &[Stacked], client: u32, surface: SurfaceNo) -> bool
    ensures { (numbers : ℕ → ById ℕ) (ws : List Window) (id : ℕ)
        → AreStacked numbers windows.now ws → AreNumberedOnce (numbers client) → numbers client id ≡ Some surface
        → result ≡ is_stacked (record { client = client; surface = id }) ws }
{
    has_window(windows, client, surface)
}

/// A hit found by the numbers of surfaces is the window of the surface that the point hits.
pub fn hits_by_numbers()
    ensures { HitsByNumbers }
{}

/// The focus settled by the numbers of surfaces is the same surface as settled by their ids, and
/// moves when that does.
pub fn settles_by_numbers()
    ensures { SettlesByNumbers }
{}
