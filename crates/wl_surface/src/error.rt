//! Why a request on a surface is refused.

use std::alloc::{AllocError, AllocFailed};
use thiserror::Error;
use wl_geom::RegionError;

/// Why a surface isn't made or isn't changed.
#[derive(Clone, Copy, Debug, PartialEq, Eq, Error)]
pub enum SurfaceError {
    /// The surface has another role.
    #[error("the surface has another role")]
    Role = 1,
    /// The parent is the surface, or descends from it.
    #[error("the parent descends from the surface")]
    BadParent = 2,
    /// The other surface is neither the parent nor a sibling.
    #[error("no parent and no sibling")]
    NotSibling = 3,
    /// More than 16 levels would stand below a root.
    #[error("too many levels of subsurfaces")]
    TooDeep = 4,
    /// There are 256 surfaces.
    #[error("too many surfaces")]
    TooMany = 5,
    /// The transform is none of 0 to 7.
    #[error("no such transform")]
    Transform = 6,
    /// Memory ran out.
    #[error("out of memory")]
    Memory = 7,
    /// The scale is below 1.
    #[error("no such scale")]
    Scale = 8,
    /// The sides of the buffer are no multiples of the scale.
    #[error("the size of the buffer is no multiple of the scale")]
    Size = 9,
}

impl From<AllocError> for SurfaceError {
    ghost use Rattle.std.specs.Prelude.{◌≡◌};
    ghost use Rattle.wl_surface.specs.declared.error.SurfaceError.TheVariants.{Memory};

    ghost from_gives = { λ _ e. e ≡ Memory };

    fn from(_error: AllocError) -> Self {
        SurfaceError::Memory
    }
}

impl<T: Drop> From<AllocFailed<T>> for SurfaceError {
    ghost use Rattle.std.specs.Prelude.{◌≡◌};
    ghost use Rattle.wl_surface.specs.declared.error.SurfaceError.TheVariants.{Memory};

    ghost from_gives = { λ _ e. e ≡ Memory };

    fn from(_error: AllocFailed<T>) -> Self {
        SurfaceError::Memory
    }
}
