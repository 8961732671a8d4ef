//! Why a child isn't placed.

use std::alloc::AllocError;
use thiserror::Error;

/// Why a child isn't placed above or below a surface.
#[derive(Clone, Copy, Debug, PartialEq, Eq, Error)]
pub enum PlaceError {
    /// wl_subsurface: bad_surface.
    #[error("no parent and no sibling")]
    BadSurface,
    /// There is no memory for it.
    #[error("out of memory")]
    Memory,
}

impl From<AllocError> for PlaceError {
    ghost use Rattle.std.specs.Prelude.{◌≡◌};
    ghost use Rattle.wl_links.specs.declared.error.PlaceError.TheVariants.{Memory};

    ghost from_gives = { λ _ e. e ≡ Memory };

    fn from(_error: AllocError) -> Self {
        PlaceError::Memory
    }
}
