//! What a commit leads to, and the configures that are sent.

/// Where a popup is placed, relative to the corner of its parent's window geometry, in pixels.
#[derive(Clone, Copy, Debug, PartialEq, Eq)]
pub struct Placed {
    pub x: i32,
    pub y: i32,
    pub w: i32,
    pub h: i32,
}

/// A configure that waits to be acknowledged (xdg-shell.xml, xdg_surface.configure).
#[derive(Clone, Copy, Debug, Default, PartialEq, Eq)]
pub struct Configure {
    pub serial: u32,
    /// Where it places its popup, if it does so. That counts from the next commit after it is
    /// acknowledged (xdg-shell.xml, xdg_popup.reposition).
    pub placement: Option<Placed>,
}

/// What a commit leads to (wayland.xml, wl_surface.commit; xdg-shell.xml, xdg_surface).
#[derive(Clone, Copy, Debug, PartialEq, Eq)]
pub enum ShellAct {
    /// The client is to get the role object's configure and that of the xdg_surface. A popup's says
    /// where it is placed.
    Configure(Option<Placed>),
    /// The surface is mapped.
    Map,
    /// The surface is unmapped.
    Unmap,
    /// A popup that was placed anew moves there, since its client acknowledged that (xdg-shell.xml,
    /// xdg_popup.reposition). A commit that maps a popup puts such a place in force too.
    Place(Placed),
    /// Only the commit itself.
    Nothing,
}
