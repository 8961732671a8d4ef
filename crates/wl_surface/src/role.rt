//! What a surface is for.

/// The role of a surface, which it has for life. It may be given the same one again (wayland.xml,
/// wl_surface).
#[derive(Clone, Copy, Debug, PartialEq, Eq)]
pub enum Role {
    Toplevel,
    Popup,
    Subsurface,
    Cursor,
}
