//! What a point hits: windows over one another, and an input region.

use crate::calls::{commit, create, set_input};
use std::alloc::Allocator;
use wl_geom::{Rect, Region};
use wl_scene::{
    Stacked, StackedWindows, Surface, Surfaced, TreeWindow, hit, is_among, takes_input,
};
use wl_store::Transform;
use wl_surface::{SurfaceStates, Surfaces};

/// The surfaces of the client 1, which is the only one.
#[derive(Drop)]
struct Only<'a, A: Allocator> {
    surfaces: &'a SurfaceStates<A>,
}

impl<'a, A: Allocator> Surfaced for Only<'a, A> {
    type Heap = A;

    ghost use Rattle.std.specs.Prelude.{◌==◌, if◌then◌else◌};
    ghost use Rattle.wl_surface.specs.Slots.{no_slots};

    ghost slots = { λ only client. if client == 1 then only.surfaces.now else no_slots };

    fn surfaces(&self, client: u32) -> Option<&SurfaceStates<A>> {
        if client == 1 {
            Some(self.surfaces)
        } else {
            None
        }
    }
}

// A window of 8 by 8 points.
fn window(client: u32, surface: usize, x: i32, y: i32) -> Stacked {
    Stacked {
        client,
        toplevel: 0,
        window: TreeWindow {
            surface,
            root: 0,
            x,
            y,
            w: 8,
            h: 8,
            transform: Transform::Normal,
            scale: 1,
        },
    }
}

// The surface 0 takes input within 4 by 4 points, and the surface 1 everywhere.
fn are_made<A: Allocator + Copy>(surfaces: &mut Surfaces<A>, alloc: A) -> bool {
    let mut region = Region::new(alloc);
    let corner = Rect {
        x: 0,
        y: 0,
        w: 4,
        h: 4,
    };
    create(surfaces) == Ok(0)
        && create(surfaces) == Ok(1)
        && region.add(corner).is_ok()
        && set_input(surfaces, Some(&region)) == Ok(())
        && commit(surfaces, 0) == Ok(())
}

fn surface_hit<A: Allocator>(
    windows: &[Stacked],
    surfaces: &SurfaceStates<A>,
    x: i32,
    y: i32,
) -> Option<usize> {
    let found = hit(windows, &Only { surfaces }, x, y)?;
    Some(found.window.surface)
}

// The surface 0 stands over the surface 1, and over both a window of a client that isn't there.
fn overlap<A: Allocator>(surfaces: &SurfaceStates<A>) -> bool {
    let windows = [window(1, 1, 0, 0), window(1, 0, 2, 2), window(2, 0, 2, 2)];
    surface_hit(&windows, surfaces, 1, 1) == Some(1)
        && surface_hit(&windows, surfaces, 3, 3) == Some(0)
        && surface_hit(&windows, surfaces, 7, 7) == Some(1)
        && surface_hit(&windows, surfaces, 9, 9).is_none()
        && surface_hit(&windows, surfaces, -1, 0).is_none()
        && is_among(&windows, 1, 0)
        && !is_among(&windows, 1, 2)
}

#[test]
fn the_topmost_window_that_takes_the_input_is_hit(rt: HostRuntime) {
    let mut surfaces = Surfaces::new(rt.alloc());
    assert!(rt; are_made(&mut surfaces, rt.alloc()) && overlap(surfaces.states()));
    assert!(rt;
        takes_input(
            &window(1, 0, i32::MIN, 0),
            Some(surfaces.states()),
            i32::MIN,
            3
        )
    );
    assert!(rt;
        !takes_input(
            &window(1, 0, i32::MIN, 0),
            Some(surfaces.states()),
            i32::MAX,
            3
        )
    );
}

// The same by the windows of the output: the surface 0 stands over the surface 1.
fn kept_hit<A: Allocator + Copy>(surfaces: &SurfaceStates<A>, alloc: A) -> Option<(bool, bool)> {
    let mut all = StackedWindows::new(alloc);
    let windows = [window(1, 1, 0, 0).window, window(1, 0, 2, 2).window];
    if all.has_toplevel(1, 0) || all.push(1, 0, &windows).is_err() {
        return None;
    }
    let only = Only { surfaces };
    let upper = Surface {
        client: 1,
        surface: 0,
    };
    let found = all.hit(&only, 3, 3) == Some(upper);
    Some((found, all.hit(&only, 10, 10).is_some()))
}

#[test]
fn the_surface_of_the_topmost_window_is_hit(rt: HostRuntime) {
    let mut surfaces = Surfaces::new(rt.alloc());
    assert!(rt; are_made(&mut surfaces, rt.alloc()));
    assert_eq!(rt;
        kept_hit(surfaces.states(), rt.alloc()),
        Some((true, false))
    );
}
