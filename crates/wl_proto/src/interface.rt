//! The interfaces that are served.

/// An interface that is served.
#[derive(Clone, Copy, Debug, PartialEq, Eq)]
pub enum Interface {
    WlDisplay,
    WlRegistry,
    WlCallback,
    WlCompositor,
    WlRegion,
    WlSurface,
    WlShm,
    WlShmPool,
    WlBuffer,
    WlSubcompositor,
    WlSubsurface,
    WlOutput,
    WlSeat,
    WlPointer,
    XdgWmBase,
    XdgPositioner,
    XdgSurface,
    XdgToplevel,
    XdgPopup,
}
