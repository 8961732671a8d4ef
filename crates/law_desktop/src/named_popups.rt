//! Popups don't depend on names. Under other names of a client's surfaces its popups are the same,
//! in the same order, and stand in the same places (xdg-shell.xml, xdg_popup). Each law is a
//! function that promises it.

ghost use Rattle.law_desktop.specs.NamedPopups.{CornersNamed, PopupsNamed, RisingNamed, RootsNamed, StackedNamed, StandingNamed};

/// Under other names a client has the same popups, in the same order (xdg-shell.xml, xdg_popup).
pub fn popups_named()
    ensures { PopupsNamed }
{}

/// Under other names their numbers still rise (xdg-shell.xml, xdg_popup).
pub fn rising_named()
    ensures { RisingNamed }
{}

/// Under other names they are stacked on the surfaces of the same parents, in the same places
/// (xdg-shell.xml, xdg_popup).
pub fn stacked_named()
    ensures { StackedNamed }
{}

/// Under other names a client's toplevels stand in the same places (xdg-shell.xml, xdg_toplevel).
pub fn standing_named()
    ensures { StandingNamed }
{}

/// Under other names the window geometry of a popup's parent stands in the same place
/// (xdg-shell.xml, xdg_positioner).
pub fn corners_named()
    ensures { CornersNamed }
{}

/// Under other names a toplevel and its popups are the same roots of windows, in the same places
/// (xdg-shell.xml, xdg_popup).
pub fn roots_named()
    ensures { RootsNamed }
{}
