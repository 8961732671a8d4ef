//! How the values kept of a client, under the numbers of its surfaces, stand for what the client
//! owns, by ids. It owns its surfaces with the links between them, its xdg_surfaces, its
//! wl_subsurfaces, and the buffers of these.

ghost use Rattle.law_desktop.specs.OwnedPopups.{PopupsAnew, PopupsAreDismissed, PopupsCome, PopupsCommit, PopupsGo, PopupsGrab, RolesAreKnown, ToplevelsGo};
ghost use Rattle.law_desktop.specs.RoleNames.{RolesAreNamed};
ghost use Rattle.law_desktop.specs.Twins.{KeptByNumbers};

/// What is kept for a client by ids is kept for it by the numbers of its surfaces (wayland.xml,
/// wl_surface; xdg-shell.xml, xdg_surface).
pub fn kept_by_numbers()
    ensures { KeptByNumbers }
{}

/// A client in order has a popup for each xdg_popup, and no popup in the place of a toplevel
/// (xdg-shell.xml, xdg_toplevel and xdg_popup).
pub fn roles_are_known()
    ensures { RolesAreKnown }
{}

/// Toplevels and popups name the numbers of their surfaces as they come and go (xdg-shell.xml,
/// xdg_surface).
pub fn roles_are_named()
    ensures { RolesAreNamed }
{}

/// A popup that is asked for is made or refused as the shell answers, and the values kept stand for
/// it (xdg-shell.xml, xdg_surface.get_popup).
pub fn popups_come()
    ensures { PopupsCome }
{}

/// A popup goes, or its end is refused, as the shell answers (xdg-shell.xml, xdg_popup.destroy).
pub fn popups_go()
    ensures { PopupsGo }
{}

/// Popups that are dismissed one by one come to what is demanded at once, and are told in that
/// order that they are done (xdg-shell.xml, xdg_popup.popup_done).
pub fn popups_are_dismissed()
    ensures { PopupsAreDismissed }
{}

/// When a toplevel goes, the popups on it are dismissed and have no parent then (xdg-shell.xml,
/// xdg_toplevel.destroy).
pub fn toplevels_go()
    ensures { ToplevelsGo }
{}

/// A commit of a toplevel's or a popup's surface leads to what the shell answers, and a popup is
/// placed and configured accordingly (wayland.xml, wl_surface.commit; xdg-shell.xml,
/// xdg_popup.configure).
pub fn popups_commit()
    ensures { PopupsCommit }
{}

/// A grab is taken, or its popup is to be dismissed, as the shell answers (xdg-shell.xml,
/// xdg_popup.grab).
pub fn popups_grab()
    ensures { PopupsGrab }
{}

/// A popup that is placed anew has a copy of the positioner, and waits to be placed where the shell
/// answers. It is told so with the token of the request. If the shell refuses, so is the request
/// (xdg-shell.xml, xdg_popup.reposition).
pub fn popups_are_placed_anew()
    ensures { PopupsAnew }
{}
