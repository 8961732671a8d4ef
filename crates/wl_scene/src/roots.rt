//! The roots of the windows of a toplevel: its surface, and those of its popups that are shown
//! (xdg-shell.xml, xdg_popup).

ghost use Rattle.std.specs.Prelude.{ℕ, [], ◌∷◌, ◌≡◌, ◌==◌, ◌+◌, ◌++◌, ◌≤◌, IsOk, List, OnErr, OnOk, Option, find, length, map, not, vec_capacity, vec_len};
ghost use Rattle.std.specs.Option.{option_copied, option_map_or};
ghost use Rattle.wl_scene.specs.Focus.{place_of};
ghost use Rattle.wl_scene.specs.Roots.{AreAt, Continues, HasRole, IsHeld, IsStackedAs, is_mapped, is_past, is_root_of, kept_geometry, listed, parent_surface, shows_popup, standing_at, told_root};
ghost use Rattle.wl_shell.specs.InOrder.{AreRising, IsOnly};
ghost use Rattle.wl_shell.specs.Agreement.{IsShell};
ghost use Rattle.wl_shell.specs.PopupsKept.{IsOldest, has_popup, number_of};
ghost use Rattle.spec_desktop.specs.Popups.{placement_of, stacked_popup, stacked_popups};
ghost use Rattle.spec_desktop.specs.Stacking.{Owned as Owns, root_of};
ghost use Rattle.spec_desktop.specs.Windows.{Root, StackedPopup, corner_in, geometry_corner, root_on, roots_of, stacked, stacked_on};
ghost use Rattle.wl_surface.specs.State.{History};
ghost use Rattle.wl_shell.specs.Kept.{kept_of};
ghost use Rattle.wl_shell.specs.Popups.{Popped, popups_of};

use crate::Owned;
use crate::corners::{geometry_at, geometry_of, popup_place};
use crate::focus::Point;
use std::alloc::{AllocError, Allocator};
use wl_shell::{Popup, Shell, Stage, XdgSurface};
use wl_surface::SurfaceNo;

/// The root of a tree of windows, a toplevel's or a popup's surface, and its place in the output in
/// pixels.
#[derive(Clone, Copy, Debug, PartialEq, Eq)]
pub struct RootPlace {
    pub surface: SurfaceNo,
    pub x: i32,
    pub y: i32,
}

/// The root of a surface among these.
fn find_root(roots: &[RootPlace], surface: SurfaceNo) -> Option<&RootPlace>
    ensures { option_copied result ≡ find (λ r. r.surface == surface) roots.now }
{
    roots.iter().find(|root| root.surface == surface)
}

/// The corner of the window geometry of a root.
fn root_corner<A: Allocator + Copy>(owned: &Owned<A>, root: &RootPlace) -> Point
    ensures { (o : Owns) (r : Root) → IsHeld owned.now.surfaces.states owned.now.surfaces.family owned.now.shell o
        → root.now ≡ told_root r → r.geometry ≡ kept_geometry owned.now.shell r.surface
        → place_of result ≡ geometry_corner (corner_in o.surfaces r) r.geometry }
{
    let geometry = geometry_of(&owned.shell, root.surface);
    let place = Point {
        x: root.x,
        y: root.y,
    };
    geometry_at(&owned.surfaces, root.surface, place, geometry)
}

/// Whether its surface is mapped.
fn is_mapped(xdg_surface: &XdgSurface) -> bool
    ensures { result ≡ is_mapped xdg_surface.now }
{
    match xdg_surface.stage() {
        Some(Stage::Mapped) => true,
        None | Some(Stage::Fresh | Stage::Waiting | Stage::Ready) => false,
    }
}

/// Whether it is a popup that isn't dismissed.
fn is_undismissed(xdg_surface: &XdgSurface) -> bool
    ensures { result ≡ has_popup (λ popup. not popup.is_dismissed) xdg_surface.now }
{
    match xdg_surface.popup() {
        Some(popup) => !popup.is_dismissed(),
        None => false,
    }
}

/// Whether it is a popup that is mapped.
fn shows_popup(xdg_surface: &XdgSurface) -> bool
    ensures { result ≡ shows_popup xdg_surface.now }
{
    is_mapped(xdg_surface) && is_undismissed(xdg_surface)
}

/// The surface of the parent of a popup, if it has one.
fn parent_surface<A: Allocator>(shell: &Shell<A>, popup: &Popup) -> Option<SurfaceNo>
    ensures { (o : Owns) (histories : ℕ → Option History) → IsShell (kept_of shell.now) histories o.shell
        → result ≡ parent_surface o popup.now }
{
    let Some(parent) = popup.parent() else {
        return None;
    };
    shell.surface_at(parent)
}

/// The root that is the parent of a popup, if it is among these.
fn parent_root<'a, A: Allocator>(
    shell: &Shell<A>,
    roots: &'a [RootPlace],
    popup: &Popup,
) -> Option<&'a RootPlace>
    ensures { (o : Owns) (histories : ℕ → Option History) → IsShell (kept_of shell.now) histories o.shell
        → option_copied result ≡ find (is_root_of (parent_surface o popup.now)) roots.now }
{
    let Some(parent) = parent_surface(shell, popup) else {
        return None;
    };
    find_root(roots, parent)
}

/// The root of the popup of an xdg_surface, on its parent.
fn root_on<A: Allocator + Copy>(
    owned: &Owned<A>,
    parent: &RootPlace,
    surface: SurfaceNo,
    xdg_surface: &XdgSurface,
    popup: &Popup,
) -> RootPlace
    ensures { (o : Owns) (p : StackedPopup) (r : Root) → IsHeld owned.now.surfaces.states owned.now.surfaces.family owned.now.shell o
        → p.surface ≡ surface → p.placement ≡ placement_of popup.now.placement → p.geometry ≡ xdg_surface.now.applied
        → parent.now ≡ told_root r → r.geometry ≡ kept_geometry owned.now.shell r.surface
        → result ≡ told_root (root_on o.surfaces r p) }
{
    let at = root_corner(owned, parent);
    let place = popup_place(at, popup.placement(), xdg_surface.window_geometry());
    RootPlace {
        surface,
        x: place.x,
        y: place.y,
    }
}

/// The root of an xdg_surface's popup, which is mapped. `None` if its parent isn't among these
/// roots.
fn popup_root<A: Allocator + Copy>(
    owned: &Owned<A>,
    roots: &[RootPlace],
    surface: SurfaceNo,
    xdg_surface: &XdgSurface,
    popup: &Popup,
) -> Option<RootPlace>
    ensures { (o : Owns) (p : StackedPopup) (rs : List Root) → IsHeld owned.now.surfaces.states owned.now.surfaces.family owned.now.shell o
        → IsStackedAs o surface xdg_surface.now popup.now p → AreAt owned.now.shell rs → roots.now ≡ map told_root rs
        → listed result ≡ map told_root (stacked_on o.surfaces p rs) }
{
    match parent_root(&owned.shell, roots, popup) {
        None => None,
        Some(parent) => Some(root_on(owned, parent, surface, xdg_surface, popup)),
    }
}

/// The root of this xdg_surface's popup. `None` if it isn't mapped, or its parent isn't among these
/// roots.
fn shown_root<A: Allocator + Copy>(
    owned: &Owned<A>,
    roots: &[RootPlace],
    surface: SurfaceNo,
    xdg_surface: &XdgSurface,
) -> Option<RootPlace>
    ensures { (o : Owns) (p : Popped) (rs : List Root) → IsHeld owned.now.surfaces.states owned.now.surfaces.family owned.now.shell o
        → IsOnly o.shell surface p → kept_of owned.now.shell surface ≡ Some xdg_surface.now → AreAt owned.now.shell rs
        → roots.now ≡ map told_root rs → listed result ≡ map told_root (stacked_on o.surfaces (stacked_popup o p) rs) }
{
    let Some(popup) = xdg_surface.popup() else {
        return None;
    };
    if shows_popup(xdg_surface) {
        return popup_root(owned, roots, surface, xdg_surface, popup);
    }
    None
}

/// The root of this surface's popup. `None` if it isn't mapped, or its parent isn't among these
/// roots.
fn stacked_root<A: Allocator + Copy>(
    owned: &Owned<A>,
    roots: &[RootPlace],
    surface: SurfaceNo,
) -> Option<RootPlace>
    ensures { (o : Owns) (p : Popped) (rs : List Root) → IsHeld owned.now.surfaces.states owned.now.surfaces.family owned.now.shell o
        → IsOnly o.shell surface p → AreAt owned.now.shell rs → roots.now ≡ map told_root rs
        → listed result ≡ map told_root (stacked_on o.surfaces (stacked_popup o p) rs) }
{
    match owned.shell.get(surface) {
        None => None,
        Some(xdg_surface) => shown_root(owned, roots, surface, xdg_surface),
    }
}

fn push_some<A: Allocator>(
    roots: &mut Vec<RootPlace, A>,
    root: Option<RootPlace>,
) -> Result<(), AllocError>
    ensures ok { OnOk result (roots.new.items ≡ roots.old.items ++ listed root) }
    ensures err { OnErr result (roots.new.items ≡ roots.old.items) }
    ensures succeeds { vec_len roots.old + length (listed root) ≤ vec_capacity roots.old → IsOk result }
    ensures capacity { vec_capacity roots.old ≤ vec_capacity roots.new }
{
    if let Some(root) = root {
        roots.push(root)?;
    }
    Ok(())
}

/// Adds the root of this surface's popup, if its parent is among the roots from a place on.
fn add_popup<A: Allocator + Copy>(
    owned: &Owned<A>,
    before: usize,
    surface: SurfaceNo,
    roots: &mut Vec<RootPlace, A>,
) -> Result<(), AllocError>
    requires { before ≤ vec_len roots.old }
    ensures ok { OnOk result ((o : Owns) (p : Popped) (rs : List Root) (had : List RootPlace)
        → IsHeld owned.now.surfaces.states owned.now.surfaces.family owned.now.shell o → IsOnly o.shell surface p → AreAt owned.now.shell rs
        → length had ≡ before → roots.old.items ≡ had ++ map told_root rs
        → roots.new.items ≡ had ++ map told_root (stacked o.surfaces rs (stacked_popup o p))) }
    ensures more { Continues roots.old.items roots.new.items }
    ensures succeeds { (o : Owns) (p : Popped) (rs : List Root) (had : List RootPlace)
        → IsHeld owned.now.surfaces.states owned.now.surfaces.family owned.now.shell o → IsOnly o.shell surface p → AreAt owned.now.shell rs
        → length had ≡ before → roots.old.items ≡ had ++ map told_root rs
        → length had + length (stacked o.surfaces rs (stacked_popup o p)) ≤ vec_capacity roots.old → IsOk result }
    ensures capacity { vec_capacity roots.old ≤ vec_capacity roots.new }
{
    let root = stacked_root(owned, &roots[before..], surface);
    push_some(roots, root)
}

/// The surface of the oldest popup that is newer than this number, or of all.
fn next_popup<A: Allocator>(shell: &Shell<A>, last: Option<u64>) -> Option<SurfaceNo>
    ensures { IsOldest (has_popup (λ popup. is_past last popup.number)) (kept_of shell.now) result }
{
    match last {
        None => shell.first_popup(),
        Some(last) => shell.popup_after(last),
    }
}

/// The number of a surface's popup; 0 if it has none.
fn number_of<A: Allocator>(shell: &Shell<A>, surface: SurfaceNo) -> u64
    ensures { result ≡ option_map_or number_of (kept_of shell.now surface) 0 }
{
    let Some(xdg_surface) = shell.get(surface) else {
        return 0;
    };
    match xdg_surface.popup() {
        Some(popup) => popup.number(),
        None => 0,
    }
}

/// Adds the popups that are stacked on the toplevel that stands at a place among the roots.
fn add_popups<A: Allocator + Copy>(
    owned: &Owned<A>,
    before: usize,
    roots: &mut Vec<RootPlace, A>,
) -> Result<(), AllocError>
    requires { before ≤ vec_len roots.old }
    ensures ok { OnOk result ((o : Owns) (toplevel : Root) (had : List RootPlace)
        → IsHeld owned.now.surfaces.states owned.now.surfaces.family owned.now.shell o → AreRising (popups_of o.shell)
        → AreAt owned.now.shell (toplevel ∷ []) → length had ≡ before → roots.old.items ≡ had ++ told_root toplevel ∷ []
        → roots.new.items ≡ had ++ map told_root (roots_of o.surfaces toplevel (stacked_popups o))) }
    ensures more { Continues roots.old.items roots.new.items }
    ensures succeeds { (o : Owns) (toplevel : Root) (had : List RootPlace)
        → IsHeld owned.now.surfaces.states owned.now.surfaces.family owned.now.shell o → AreRising (popups_of o.shell)
        → AreAt owned.now.shell (toplevel ∷ []) → length had ≡ before → roots.old.items ≡ had ++ told_root toplevel ∷ []
        → length had + length (roots_of o.surfaces toplevel (stacked_popups o)) ≤ vec_capacity roots.old → IsOk result }
    ensures capacity { vec_capacity roots.old ≤ vec_capacity roots.new }
{
    let mut last = None;
    while let Some(surface) = next_popup(&owned.shell, last) {
        add_popup(owned, before, surface, roots)?;
        last = Some(number_of(&owned.shell, surface));
    }
    Ok(())
}

/// Adds a toplevel's root, and those of its popups.
fn add_all<A: Allocator + Copy>(
    owned: &Owned<A>,
    toplevel: RootPlace,
    roots: &mut Vec<RootPlace, A>,
) -> Result<(), AllocError>
    ensures ok { OnOk result ((o : Owns) (r : Root) → IsHeld owned.now.surfaces.states owned.now.surfaces.family owned.now.shell o
        → AreRising (popups_of o.shell) → AreAt owned.now.shell (r ∷ []) → toplevel ≡ told_root r
        → roots.new.items ≡ roots.old.items ++ map told_root (roots_of o.surfaces r (stacked_popups o))) }
    ensures more { Continues roots.old.items roots.new.items }
    ensures succeeds { (o : Owns) (r : Root) → IsHeld owned.now.surfaces.states owned.now.surfaces.family owned.now.shell o
        → AreRising (popups_of o.shell) → AreAt owned.now.shell (r ∷ []) → toplevel ≡ told_root r
        → vec_len roots.old + length (roots_of o.surfaces r (stacked_popups o)) ≤ vec_capacity roots.old → IsOk result }
    ensures capacity { vec_capacity roots.old ≤ vec_capacity roots.new }
{
    let before = roots.len();
    roots.push(toplevel)?;
    add_popups(owned, before, roots)
}

/// Adds the roots of the windows of a surface's toplevel, which stands at a place in the output, in
/// pixels, behind the others. They are itself, and then its popups that are shown, in order of
/// creation, each with its place. A popup is shown while it and all its parents up to the toplevel
/// are mapped and not dismissed (xdg-shell.xml, xdg_popup).
///
/// # Errors
///
/// An `Err` means that memory ran out, and adds nothing. It can't come if there is room for the
/// roots already.
pub fn add_roots<A: Allocator + Copy>(
    owned: &Owned<A>,
    toplevel: SurfaceNo,
    x: i32,
    y: i32,
    roots: &mut Vec<RootPlace, A>,
) -> Result<(), AllocError>
    ensures ok { OnOk result ((o : Owns) (client : ℕ) → IsHeld owned.now.surfaces.states owned.now.surfaces.family owned.now.shell o
        → AreRising (popups_of o.shell) → HasRole owned.now.shell toplevel
        → roots.new.items ≡ roots.old.items
        ++ map told_root (roots_of o.surfaces (root_of (λ _. o) (standing_at client toplevel x y)) (stacked_popups o))) }
    ensures err { OnErr result (roots.new.items ≡ roots.old.items) }
    ensures succeeds { (o : Owns) (client : ℕ) → IsHeld owned.now.surfaces.states owned.now.surfaces.family owned.now.shell o
        → AreRising (popups_of o.shell) → HasRole owned.now.shell toplevel
        → vec_len roots.old + length (roots_of o.surfaces (root_of (λ _. o) (standing_at client toplevel x y)) (stacked_popups o))
        ≤ vec_capacity roots.old → IsOk result }
    ensures capacity { vec_capacity roots.old ≤ vec_capacity roots.new }
{
    let before = roots.len();
    let root = RootPlace {
        surface: toplevel,
        x,
        y,
    };
    let added = add_all(owned, root, roots);
    if added.is_err() {
        roots.truncate(before);
    }
    added
}
