//! The laws of the roots of the trees that are stacked with a toplevel (xdg-shell.xml, xdg_popup).
//! Each law is a function that promises it.

ghost use Rattle.law_desktop.specs.ToplevelRoots.{RootsStay};

/// A toplevel keeps its roots if their surfaces keep their corners, and the popups mapped on one of
/// them are the same.
pub fn roots_stay()
    ensures { RootsStay }
{}
