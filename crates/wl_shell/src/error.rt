//! Why a request of the shell is refused.

use std::alloc::AllocFailed;
use thiserror::Error;

/// Why a request of the shell is refused: the errors of the interfaces of xdg-shell.xml, and two
/// for what the compositor lacks.
#[derive(Clone, Copy, Debug, PartialEq, Eq, Error)]
pub enum ShellError {
    /// xdg_wm_base: role.
    #[error("the surface has another role")]
    Role,
    /// xdg_wm_base: defunct_surfaces.
    #[error("the xdg_wm_base has xdg_surfaces yet")]
    DefunctSurfaces,
    /// xdg_wm_base: not_the_topmost_popup.
    #[error("the popup isn't the topmost one")]
    NotTheTopmostPopup,
    /// xdg_wm_base: invalid_popup_parent.
    #[error("the parent of the popup isn't a valid one")]
    InvalidPopupParent,
    /// xdg_wm_base: invalid_surface_state.
    #[error("the surface has a buffer")]
    InvalidSurfaceState,
    /// xdg_wm_base: invalid_positioner.
    #[error("the positioner isn't complete")]
    InvalidPositioner,
    /// xdg_surface: not_constructed.
    #[error("the xdg_surface has no role object")]
    NotConstructed,
    /// xdg_surface: already_constructed.
    #[error("the xdg_surface has a role object")]
    AlreadyConstructed,
    /// xdg_surface: unconfigured_buffer.
    #[error("a buffer came before a configure was acknowledged")]
    UnconfiguredBuffer,
    /// xdg_surface: invalid_serial.
    #[error("no configure of this serial waits")]
    InvalidSerial,
    /// xdg_surface: invalid_size.
    #[error("a side of the window geometry isn't positive")]
    InvalidSize,
    /// xdg_surface: defunct_role_object.
    #[error("the role object of the xdg_surface isn't destroyed")]
    DefunctRoleObject,
    /// xdg_popup: invalid_grab.
    #[error("the popup can't have a grab any more")]
    InvalidGrab,
    /// xdg_positioner: invalid_input.
    #[error("what is set of the positioner isn't valid")]
    InvalidInput,
    /// 64 configures of the xdg_surface wait to be acknowledged.
    #[error("too many configures wait for an acknowledgement")]
    TooMany,
    /// There is no memory for it.
    #[error("out of memory")]
    Memory,
}

impl<T: Drop> From<AllocFailed<T>> for ShellError {
    ghost use Rattle.std.specs.Prelude.{◌≡◌};
    ghost use Rattle.wl_shell.specs.declared.error.ShellError.TheVariants.{Memory};

    ghost from_gives = { λ _ e. e ≡ Memory };

    fn from(_error: AllocFailed<T>) -> ShellError {
        ShellError::Memory
    }
}
