//! Where the window geometries of popups and of their parents stand (xdg-shell.xml, xdg_popup).

ghost use Rattle.std.specs.Prelude.{ℕ, ◌≡◌, ◌+ℤ◌, ◌-ℤ◌, Some, None};
ghost use Rattle.wl_surface.specs.Linked.{Stand};
ghost use Rattle.wl_scene.specs.Focus.{place_of};
ghost use Rattle.wl_scene.specs.Roots.{IsHeld, corner_or, kept_geometry};
ghost use Rattle.spec_desktop.specs.Popups.{corner_at_parent, corner_of_xdg, geometry_corner_at, origin, parent_corner, placement_of, standing_place};
ghost use Rattle.spec_desktop.specs.Stacking.{Owned as Owns};
ghost use Rattle.spec_desktop.specs.Windows.{Place, StackedPopup, geometry_corner, moved, popup_place, start_of};
ghost use Rattle.wl_surface.specs.State.{within_bounds};
ghost use Rattle.wl_surface.specs.Surfaces.{Surfaces as Asked, history_in};
ghost use Rattle.wl_shell.specs.Kept.{kept_of};
ghost use Rattle.wl_shell.specs.Popups.{popup_in};
ghost use Rattle.wl_shell.specs.Shell.{XdgSurface as Xdg, xdg_of};

use crate::focus::Point;
use crate::{Owned, Scene, Surface};
use std::alloc::Allocator;
use wl_geom::Rect;
use wl_shell::{Placed, Shell, XdgSurface};
use wl_surface::{MAX_SURFACES, SurfaceNo, Surfaces, held};

/// A coordinate and a distance from it in pixels, held within the bounds.
fn held_sum(place: i32, by: i32) -> i32
    ensures { result ≡ within_bounds (place +ℤ by) }
{
    held(i64::from(place) + i64::from(by))
}

/// A coordinate plus a distance, less another one, in pixels, held within the bounds.
fn held_difference(place: i32, by: i32, back: i32) -> i32
    ensures { result ≡ within_bounds ((place +ℤ by) -ℤ back) }
{
    held(i64::from(place) + i64::from(by) - i64::from(back))
}

/// The upper left corner of the output.
fn origin() -> Point
    ensures { place_of result ≡ origin }
{
    Point { x: 0, y: 0 }
}

/// The point this many pixels to the right and down.
fn moved(from: Point, right: i32, down: i32) -> Point
    ensures { place_of result ≡ moved (place_of from) right down }
{
    let x = held_sum(from.x, right);
    let y = held_sum(from.y, down);
    Point { x, y }
}

/// The corner of a window geometry, for a surface with this corner. It is the surface's own if no
/// geometry is set.
fn geometry_corner(corner: Point, geometry: Option<Rect>) -> Point
    ensures { place_of result ≡ geometry_corner (place_of corner) geometry }
{
    match geometry {
        None => corner,
        Some(geometry) => moved(corner, geometry.x, geometry.y),
    }
}

/// Where a window geometry begins on its surface.
fn start_of(geometry: Option<Rect>) -> Point
    ensures { place_of result ≡ start_of geometry }
{
    match geometry {
        None => origin(),
        Some(geometry) => Point {
            x: geometry.x,
            y: geometry.y,
        },
    }
}

/// Where a popup is placed on its parent.
fn placement_of(placement: Option<Placed>) -> Point
    ensures { place_of result ≡ placement_of placement }
{
    match placement {
        None => origin(),
        Some(placed) => Point {
            x: placed.x,
            y: placed.y,
        },
    }
}

/// The place of a popup in the output, if its parent's window geometry stands at `at`
/// (xdg-shell.xml, xdg_popup).
pub(crate) fn popup_place(at: Point, placement: Option<Placed>, geometry: Option<Rect>) -> Point
    ensures { (p : StackedPopup) → p.placement ≡ placement_of placement → p.geometry ≡ geometry
        → place_of result ≡ popup_place (place_of at) p }
{
    let by = placement_of(placement);
    let start = start_of(geometry);
    let x = held_difference(at.x, by.x, start.x);
    let y = held_difference(at.y, by.y, start.y);
    Point { x, y }
}

/// The corner of a surface that is placed at `place`: that plus its offset.
fn corner_of<A: Allocator + Copy>(surfaces: &Surfaces<A>, surface: SurfaceNo, place: Point) -> Point
    ensures { (all : Asked) → Stand surfaces.now.states surfaces.now.family all
        → place_of result ≡ corner_or (place_of place) (history_in surface all) }
{
    match surfaces.current(surface) {
        None => place,
        Some(current) => moved(place, current.offset.x, current.offset.y),
    }
}

/// The corner of this window geometry, for a surface that is placed there.
pub(crate) fn geometry_at<A: Allocator + Copy>(
    surfaces: &Surfaces<A>,
    surface: SurfaceNo,
    place: Point,
    geometry: Option<Rect>,
) -> Point
    ensures { (all : Asked) → Stand surfaces.now.states surfaces.now.family all
        → place_of result ≡ geometry_corner (corner_or (place_of place) (history_in surface all)) geometry }
{
    let corner = corner_of(surfaces, surface, place);
    geometry_corner(corner, geometry)
}

/// The window geometry of a surface's xdg_surface that counts, if there is one.
pub(crate) fn geometry_of<A: Allocator>(shell: &Shell<A>, surface: SurfaceNo) -> Option<Rect>
    ensures { result ≡ kept_geometry shell.now surface }
{
    shell.get(surface)?.window_geometry()
}

/// The place of a surface's toplevel: (0, 0) of the output if it isn't mapped.
fn toplevel_place<A: Allocator>(scene: &Scene<A>, surface: Surface) -> Point
    ensures { place_of result ≡ standing_place scene.now.standing surface.client surface.surface }
{
    match scene.place(surface) {
        None => origin(),
        Some(place) => place,
    }
}

/// The corner of the window geometry of an xdg_surface that has no popup.
fn toplevel_corner<A: Allocator + Copy>(
    scene: &Scene<A>,
    client: u32,
    owned: &Owned<A>,
    surface: SurfaceNo,
    xdg_surface: &XdgSurface,
) -> Point
    ensures { (o : Owns) (x : Xdg) (next : ℕ → Place) → IsHeld owned.now.surfaces.states owned.now.surfaces.family owned.now.shell o
        → kept_of owned.now.shell surface ≡ Some xdg_surface.now → popup_in xdg_surface.now.role ≡ None → xdg_of surface o.shell ≡ Some x
        → place_of result ≡ corner_of_xdg next (standing_place scene.now.standing client) o (Some x) }
{
    if xdg_surface.has_role() {
        let place = toplevel_place(scene, Surface { client, surface });
        return geometry_at(
            &owned.surfaces,
            surface,
            place,
            xdg_surface.window_geometry(),
        );
    }
    origin()
}

/// The corner of the window geometry of a surface's xdg_surface. It looks at this many parents at
/// most.
#[cycle(chain)]
fn surface_corner<A: Allocator + Copy>(
    scene: &Scene<A>,
    client: u32,
    owned: &Owned<A>,
    levels: u32,
    surface: SurfaceNo,
) -> Point
    ensures { (o : Owns) (x : Xdg) → IsHeld owned.now.surfaces.states owned.now.surfaces.family owned.now.shell o → xdg_of surface o.shell ≡ Some x
        → place_of result ≡ corner_of_xdg (λ parent. geometry_corner_at levels (standing_place scene.now.standing client) o parent)
        (standing_place scene.now.standing client) o (Some x) }
{
    let Some(xdg_surface) = owned.shell.get(surface) else {
        return origin();
    };
    let Some(popup) = xdg_surface.popup() else {
        return toplevel_corner(scene, client, owned, surface, xdg_surface);
    };
    let at = corner_at_parent(scene, client, owned, levels, popup.parent());
    let place = popup_place(at, popup.placement(), xdg_surface.window_geometry());
    geometry_at(
        &owned.surfaces,
        surface,
        place,
        xdg_surface.window_geometry(),
    )
}

/// The corner of the window geometry of the xdg_surface of this id. It looks at this many parents
/// at most.
#[cycle(chain)]
fn xdg_corner<A: Allocator + Copy>(
    scene: &Scene<A>,
    client: u32,
    owned: &Owned<A>,
    levels: u32,
    xdg_surface: u32,
) -> Point
    ensures { (o : Owns) → IsHeld owned.now.surfaces.states owned.now.surfaces.family owned.now.shell o
        → place_of result ≡ geometry_corner_at levels (standing_place scene.now.standing client) o xdg_surface }
{
    if levels == 0 {
        return origin();
    }
    let Some(surface) = owned.shell.surface_at(xdg_surface) else {
        return origin();
    };
    surface_corner(scene, client, owned, levels - 1, surface)
}

/// The corner of the window geometry of a popup's parent. It looks at this many parents at most.
#[cycle(chain)]
fn corner_at_parent<A: Allocator + Copy>(
    scene: &Scene<A>,
    client: u32,
    owned: &Owned<A>,
    levels: u32,
    parent: Option<u32>,
) -> Point
    ensures { (o : Owns) → IsHeld owned.now.surfaces.states owned.now.surfaces.family owned.now.shell o
        → place_of result ≡ corner_at_parent (geometry_corner_at levels (standing_place scene.now.standing client) o) parent }
{
    match parent {
        None => origin(),
        Some(parent) => xdg_corner(scene, client, owned, levels, parent),
    }
}

/// Where the window geometry of a popup's parent stands, in pixels of the output, by the id of the
/// parent's xdg_surface (xdg-shell.xml, xdg_popup and xdg_positioner). A toplevel's stands at its
/// place, which is (0, 0) if it isn't mapped. A popup's stands where it was placed last on its own
/// parent. Without a parent, or if the parent has no role object, the answer is (0, 0).
pub fn parent_corner<A: Allocator + Copy>(
    scene: &Scene<A>,
    client: u32,
    owned: &Owned<A>,
    parent: Option<u32>,
) -> (i32, i32)
    ensures { (o : Owns) → IsHeld owned.now.surfaces.states owned.now.surfaces.family owned.now.shell o
        → record { x = result.0; y = result.1 } ≡ parent_corner scene.now.standing client o parent }
{
    let corner = corner_at_parent(scene, client, owned, MAX_SURFACES as u32, parent);
    (corner.x, corner.y)
}
