//! The laws of which windows each demand of a client changes: those stacked with one toplevel, or
//! none (wayland.xml, wl_surface, wl_subcompositor and wl_subsurface; xdg-shell.xml, xdg_surface,
//! xdg_toplevel and xdg_popup). Each law is a function that promises it.

ghost use Rattle.law_desktop.specs.DemandLaws.{CommitsChangeOneToplevel, GrabsChangeNoWindow, ModesChangeOneToplevel, RequestsChangeNoWindow};
ghost use Rattle.law_desktop.specs.DemandLaws.{StatesChangeNoWindow, SubsurfaceEndsChangeOneToplevel, SurfaceEndsChangeOneToplevel};
ghost use Rattle.law_desktop.specs.DemandLaws.{DemandsChangeOneToplevel, PopupEndsChangeOneToplevel, RolesChangeNoWindow};
ghost use Rattle.law_desktop.specs.DemandLaws.{ToplevelEndsChangeOneToplevel};

/// A commit changes the windows stacked with the toplevel of its tree, or none.
pub fn commits_change_one_toplevel()
    ensures { CommitsChangeOneToplevel }
{}

/// The end of a surface changes the windows stacked with the toplevel of the tree that it was in,
/// or none.
pub fn surface_ends_change_one_toplevel()
    ensures { SurfaceEndsChangeOneToplevel }
{}

/// The end of a subsurface changes the windows stacked with the toplevel of the tree that it was
/// in, or none.
pub fn subsurface_ends_change_one_toplevel()
    ensures { SubsurfaceEndsChangeOneToplevel }
{}

/// A mode of a subsurface changes the windows stacked with the toplevel of the tree that it is in,
/// or none.
pub fn modes_change_one_toplevel()
    ensures { ModesChangeOneToplevel }
{}

/// Requests on surfaces change no window until a commit. New surfaces, frame callbacks, new
/// subsurfaces and pointers, cursors and moves change none either.
pub fn requests_change_no_window()
    ensures { RequestsChangeNoWindow }
{}

/// A client's own interfaces, objects that stand for nothing, and configures change no window.
pub fn states_change_no_window()
    ensures { StatesChangeNoWindow }
{}

/// An xdg_surface that comes or goes changes no window. A toplevel or popup that comes, and isn't
/// mapped yet, changes none either.
pub fn roles_change_no_window()
    ensures { RolesChangeNoWindow }
{}

/// A grab changes no window, whether it is taken or refused: the popups that it dismisses weren't
/// stacked.
pub fn grabs_change_no_window()
    ensures { GrabsChangeNoWindow }
{}

/// The end of a toplevel changes the windows stacked with it, and no others, whatever popups it
/// dismisses.
pub fn toplevel_ends_change_one_toplevel()
    ensures { ToplevelEndsChangeOneToplevel }
{}

/// The end of a popup changes the windows stacked with the toplevel that it was stacked with, or
/// none.
pub fn popup_ends_change_one_toplevel()
    ensures { PopupEndsChangeOneToplevel }
{}

/// Whatever a client demands changes the windows stacked with one toplevel, or none.
pub fn demands_change_one_toplevel()
    ensures { DemandsChangeOneToplevel }
{}
