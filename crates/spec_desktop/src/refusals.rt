//! The errors that a message may be refused with.

ghost use Rattle.std.specs.Prelude.{◌≡◌};
ghost use Rattle.spec_desktop.specs.Told.{code_number, code_name};

/// The code of an error (the enums error of wayland.xml and of xdg-shell.xml).
#[derive(Clone, Copy, Debug, PartialEq, Eq)]
pub enum ErrorCode {
    /// wl_display: invalid_object.
    InvalidObject,
    /// wl_display: invalid_method.
    InvalidMethod,
    /// wl_display: no_memory.
    NoMemory,
    /// wl_display: implementation.
    Implementation,
    /// wl_seat: missing_capability.
    MissingCapability,
    /// wl_shm and wl_shm_pool: invalid_format.
    InvalidFormat,
    /// wl_shm and wl_shm_pool: invalid_stride.
    InvalidStride,
    /// wl_shm and wl_shm_pool: invalid_fd.
    InvalidFd,
    /// wl_surface: invalid_scale.
    InvalidScale,
    /// wl_surface: invalid_transform.
    InvalidTransform,
    /// wl_surface: invalid_size.
    InvalidBufferSize,
    /// wl_surface: defunct_role_object.
    SurfaceHasRoleObject,
    /// wl_subcompositor and wl_subsurface: bad_surface.
    BadSurface,
    /// wl_subcompositor and wl_subsurface: bad_parent.
    BadParent,
    /// xdg_wm_base: role.
    Role,
    /// xdg_wm_base: defunct_surfaces.
    DefunctSurfaces,
    /// xdg_wm_base: not_the_topmost_popup.
    NotTheTopmostPopup,
    /// xdg_wm_base: invalid_popup_parent.
    InvalidPopupParent,
    /// xdg_wm_base: invalid_surface_state.
    InvalidSurfaceState,
    /// xdg_wm_base: invalid_positioner.
    InvalidPositioner,
    /// xdg_surface: not_constructed.
    NotConstructed,
    /// xdg_surface: already_constructed.
    AlreadyConstructed,
    /// xdg_surface: unconfigured_buffer.
    UnconfiguredBuffer,
    /// xdg_surface: invalid_serial.
    InvalidSerial,
    /// xdg_surface: invalid_size.
    InvalidSize,
    /// xdg_surface: defunct_role_object.
    DefunctRoleObject,
    /// xdg_positioner: invalid_input.
    InvalidInput,
    /// xdg_popup: invalid_grab.
    InvalidGrab,
}

impl ErrorCode {
    /// Its number among the errors of its interface.
    pub fn number(self) -> u32
        ensures { result ≡ code_number self }
    {
        match self {
            ErrorCode::InvalidObject
            | ErrorCode::MissingCapability
            | ErrorCode::InvalidFormat
            | ErrorCode::InvalidScale
            | ErrorCode::BadSurface
            | ErrorCode::Role
            | ErrorCode::InvalidInput
            | ErrorCode::InvalidGrab => 0,
            ErrorCode::InvalidMethod
            | ErrorCode::InvalidStride
            | ErrorCode::InvalidTransform
            | ErrorCode::BadParent
            | ErrorCode::DefunctSurfaces
            | ErrorCode::NotConstructed => 1,
            ErrorCode::NoMemory
            | ErrorCode::InvalidFd
            | ErrorCode::InvalidBufferSize
            | ErrorCode::NotTheTopmostPopup
            | ErrorCode::AlreadyConstructed => 2,
            ErrorCode::Implementation
            | ErrorCode::InvalidPopupParent
            | ErrorCode::UnconfiguredBuffer => 3,
            ErrorCode::SurfaceHasRoleObject
            | ErrorCode::InvalidSurfaceState
            | ErrorCode::InvalidSerial => 4,
            ErrorCode::InvalidPositioner | ErrorCode::InvalidSize => 5,
            ErrorCode::DefunctRoleObject => 6,
        }
    }

    /// Its name, which is the text that is sent with it.
    pub fn name(self) -> &'static [u8]
        ensures { result.now ≡ code_name self }
    {
        match self {
            ErrorCode::InvalidObject => b"invalid_object",
            ErrorCode::InvalidMethod => b"invalid_method",
            ErrorCode::NoMemory => b"no_memory",
            ErrorCode::Implementation => b"implementation",
            ErrorCode::MissingCapability => b"missing_capability",
            ErrorCode::InvalidFormat => b"invalid_format",
            ErrorCode::InvalidStride => b"invalid_stride",
            ErrorCode::InvalidFd => b"invalid_fd",
            ErrorCode::InvalidScale => b"invalid_scale",
            ErrorCode::InvalidTransform => b"invalid_transform",
            ErrorCode::SurfaceHasRoleObject | ErrorCode::DefunctRoleObject =>
                b"defunct_role_object",
            ErrorCode::BadSurface => b"bad_surface",
            ErrorCode::BadParent => b"bad_parent",
            ErrorCode::Role => b"role",
            ErrorCode::DefunctSurfaces => b"defunct_surfaces",
            ErrorCode::NotTheTopmostPopup => b"not_the_topmost_popup",
            ErrorCode::InvalidPopupParent => b"invalid_popup_parent",
            ErrorCode::InvalidSurfaceState => b"invalid_surface_state",
            ErrorCode::InvalidPositioner => b"invalid_positioner",
            ErrorCode::NotConstructed => b"not_constructed",
            ErrorCode::AlreadyConstructed => b"already_constructed",
            ErrorCode::UnconfiguredBuffer => b"unconfigured_buffer",
            ErrorCode::InvalidSerial => b"invalid_serial",
            ErrorCode::InvalidBufferSize | ErrorCode::InvalidSize => b"invalid_size",
            ErrorCode::InvalidInput => b"invalid_input",
            ErrorCode::InvalidGrab => b"invalid_grab",
        }
    }
}

/// An error and the id of the object that it is sent with.
#[derive(Clone, Copy, Debug, PartialEq, Eq)]
pub struct Refusal {
    pub object: u32,
    pub code: ErrorCode,
}

impl Refusal {
    ghost use Rattle.spec_desktop.specs.Told.{display_error};

    /// An error of an object.
    pub fn of(object: u32, code: ErrorCode) -> Refusal
        ensures { result ≡ record { object = object; code = code } }
    {
        Refusal { object, code }
    }

    /// An error of wl_display, which is object 1.
    pub fn of_display(code: ErrorCode) -> Refusal
        ensures { result ≡ display_error code }
    {
        Refusal::of(1, code)
    }
}
