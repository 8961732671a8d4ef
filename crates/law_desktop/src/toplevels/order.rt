//! The laws of clients that are in order, and of what they demand. Each law is a function that
//! promises it.

ghost use Rattle.law_desktop.specs.OrderLaws.{InOrderHasTrees, JudgedIsMeant};

/// On a desktop in order, where exactly the mapped toplevels stand, toplevels, popups and
/// subsurfaces make trees.
pub fn in_order_has_trees()
    ensures { InOrderHasTrees }
{}

/// What an accepted message demands is as the protocol has it: what goes, or gets a role object,
/// may (xdg-shell.xml, xdg_surface, xdg_toplevel and xdg_popup).
pub fn judged_is_meant()
    ensures { JudgedIsMeant }
{}
