use crate::calls::{attach, create};
use std::alloc::Allocator;
use wl_surface::{Applied, SurfaceError, SurfaceNo, Surfaces};

const PARENT: usize = 0;

const CHILD: usize = 1;

/// Whether the surface is told of as changed as a whole, if it is told of at all.
fn is_whole<A: Allocator>(
    told: &Result<Applied<A>, SurfaceError>,
    surface: SurfaceNo,
) -> Option<bool> {
    let Ok(told) = told else {
        return None;
    };
    for change in &told.changes {
        if change.surface == surface {
            return Some(change.whole);
        }
    }
    None
}

// A commit of the parent tells this of the parent and of the child.
fn tells<A: Allocator + Copy>(
    surfaces: &mut Surfaces<A>,
    parent: Option<bool>,
    child: Option<bool>,
) -> bool {
    let told = surfaces.commit(PARENT);
    is_whole(&told, PARENT) == parent && is_whole(&told, CHILD) == child
}

fn are_made<A: Allocator + Copy>(surfaces: &mut Surfaces<A>) -> bool {
    create(surfaces) == Ok(PARENT)
        && create(surfaces) == Ok(CHILD)
        && surfaces.subsurface(CHILD, PARENT) == Ok(())
}

fn shows<A: Allocator + Copy>(surfaces: &mut Surfaces<A>, surface: SurfaceNo, x: i32) {
    attach(surfaces, surface, 7, x, 0);
}

// The child is mapped once both have a buffer and its parent has added it.
fn maps<A: Allocator + Copy>(surfaces: &mut Surfaces<A>) -> bool {
    shows(surfaces, CHILD, 0);
    if is_whole(&surfaces.commit(CHILD), CHILD).is_some() {
        return false;
    }
    shows(surfaces, PARENT, 0);
    tells(surfaces, Some(true), Some(true)) && tells(surfaces, Some(false), Some(false))
}

// A position that the child's offset takes back changes nothing but the place of both.
fn moves<A: Allocator + Copy>(surfaces: &mut Surfaces<A>) -> bool {
    if surfaces.set_position(CHILD, 3, 0) != Ok(()) || !tells(surfaces, Some(false), Some(true)) {
        return false;
    }
    shows(surfaces, CHILD, -3);
    surfaces.commit(CHILD).is_ok()
        && surfaces.set_position(CHILD, 6, 0) == Ok(())
        && tells(surfaces, Some(false), Some(false))
}

// The order is that of both.
fn lowers<A: Allocator + Copy>(surfaces: &mut Surfaces<A>) -> bool {
    surfaces.place_below(CHILD, PARENT) == Ok(()) && tells(surfaces, Some(true), Some(true))
}

// A child whose link ends is a root at its offset, alone in its tree.
fn parts<A: Allocator + Copy>(surfaces: &mut Surfaces<A>) -> bool {
    let told = surfaces.remove_subsurface(CHILD);
    is_whole(&told, CHILD) == Some(true) && is_whole(&told, PARENT).is_none()
}

// A surface that goes changes as a whole.
fn ends<A: Allocator + Copy>(surfaces: &mut Surfaces<A>) -> bool {
    is_whole(&surfaces.destroy(CHILD), CHILD) == Some(true)
        && tells(surfaces, Some(false), None)
        && surfaces.set_scale(PARENT, 1) == Ok(())
        && surfaces.set_transform(PARENT, 2) == Ok(())
        && tells(surfaces, Some(true), None)
}

#[test]
fn a_surface_is_told_of_as_a_whole_where_it_changes_beside_its_damage(rt: HostRuntime) {
    let mut surfaces = Surfaces::new(rt.alloc());
    assert!(rt; are_made(&mut surfaces) && maps(&mut surfaces) && moves(&mut surfaces));
    assert!(rt; lowers(&mut surfaces) && parts(&mut surfaces) && ends(&mut surfaces));
}
