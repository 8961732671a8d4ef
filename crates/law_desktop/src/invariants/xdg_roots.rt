//! The laws of which surfaces are subsurfaces, whatever happens (wayland.xml, wl_subcompositor and
//! wl_subsurface; xdg-shell.xml, xdg_wm_base.get_xdg_surface). Each law is a function that promises
//! it.

ghost use Rattle.law_desktop.specs.Roots.{LinksAreApart, LinksHaveSubsurfaces};
ghost use Rattle.law_desktop.specs.Roots.{SurfacesAreTied, XdgSurfacesAreRoots};

/// A surface that has an xdg_surface is no subsurface.
pub fn xdg_surfaces_are_roots()
    ensures { XdgSurfacesAreRoots }
{}

/// Each living link is that of a live wl_subsurface, which names the link's child.
pub fn links_have_subsurfaces()
    ensures { LinksHaveSubsurfaces }
{}

/// No two links of a client have the same number, and no two living ones the same child.
pub fn links_are_apart()
    ensures { LinksAreApart }
{}

/// Each living link is named by what was asked of its parent, which is there, and by nothing asked
/// of another surface.
pub fn surfaces_are_tied()
    ensures { SurfacesAreTied }
{}
