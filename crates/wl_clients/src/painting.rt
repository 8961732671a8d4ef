//! The lent windows are painted as the desktop's.

ghost use Rattle.wl_clients.specs.Painting.{LendsOpaqueAsSaid, PaintsTheDesktop};

/// The lent windows, painted from nothing, give each point the colour that the desktop gives it.
pub fn paints_the_desktop()
    ensures { PaintsTheDesktop }
{}

/// If a window of the desktop is opaque where it says so, so is the lent one (wayland.xml,
/// wl_surface.set_opaque_region).
pub fn lends_opaque_as_said()
    ensures { LendsOpaqueAsSaid }
{}
