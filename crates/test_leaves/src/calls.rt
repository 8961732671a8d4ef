//! Calls of `Surfaces`, each made in one place.

use std::alloc::Allocator;
use wl_geom::{Rect, Region};
use wl_store::layout;
use wl_surface::{Attached, BufferNo, SurfaceError, SurfaceNo, Surfaces};

pub(crate) fn create<A: Allocator + Copy>(
    surfaces: &mut Surfaces<A>,
) -> Result<SurfaceNo, SurfaceError> {
    surfaces.create()
}

/// Attaches a buffer of 5 by 8 pixels at an offset.
pub(crate) fn attach<A: Allocator + Copy>(
    surfaces: &mut Surfaces<A>,
    surface: SurfaceNo,
    number: BufferNo,
    x: i32,
    y: i32,
) {
    if let Ok(layout) = layout(160, 0, 5, 8, 20, 1) {
        let buffer = Attached {
            number,
            object: 90,
            store: 1,
            layout,
        };
        surfaces.attach(surface, Some(buffer), x, y);
    }
}

/// Damages the surface 0.
pub(crate) fn damage<A: Allocator + Copy>(
    surfaces: &mut Surfaces<A>,
    rect: Rect,
) -> Result<(), SurfaceError> {
    surfaces.damage(0, rect)
}

/// Commits, whatever that tells.
pub(crate) fn commit<A: Allocator + Copy>(
    surfaces: &mut Surfaces<A>,
    surface: SurfaceNo,
) -> Result<(), SurfaceError> {
    match surfaces.commit(surface) {
        Ok(_) => Ok(()),
        Err(error) => Err(error),
    }
}

/// Destroys a surface.
pub(crate) fn destroy<A: Allocator + Copy>(
    surfaces: &mut Surfaces<A>,
    surface: SurfaceNo,
) -> Result<(), SurfaceError> {
    match surfaces.destroy(surface) {
        Ok(_) => Ok(()),
        Err(error) => Err(error),
    }
}

/// Sets the opaque region of the surface 0.
pub(crate) fn set_opaque<A: Allocator + Copy>(
    surfaces: &mut Surfaces<A>,
    region: Option<&Region<A>>,
) -> Result<(), SurfaceError> {
    surfaces.set_opaque(0, region)
}

/// Sets the input region of the surface 0.
pub(crate) fn set_input<A: Allocator + Copy>(
    surfaces: &mut Surfaces<A>,
    region: Option<&Region<A>>,
) -> Result<(), SurfaceError> {
    surfaces.set_input(0, region)
}
