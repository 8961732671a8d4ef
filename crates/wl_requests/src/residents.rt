//! One client, with its surfaces and what it made of them.

ghost use Rattle.std.specs.Prelude.{◌≡◌, None};

use std::alloc::Allocator;
use wl_client::Client;
use wl_geom::Rect;
use wl_links::Subsurfaces;
use wl_scene::Owned;
use wl_surface::{Applied, SurfaceNo};

/// What a request does to the stack of mapped toplevels, by the number of its toplevel's surface.
#[derive(Clone, Copy, Debug, PartialEq, Eq)]
pub enum Stacking {
    /// It leaves the stack as it was.
    Stays,
    /// The toplevel is mapped: it comes to the top.
    ToTop(SurfaceNo),
    /// The toplevel is unmapped, or goes.
    Out(SurfaceNo),
}

/// By what a popup is placed, when its surface is committed and when it is placed anew
/// (xdg-shell.xml, xdg_positioner and xdg_popup.reposition). All is in pixels of the output: the
/// bounds, which are the output's, and where its parent's window geometry stands.
#[derive(Clone, Copy, Debug, PartialEq, Eq)]
pub struct Placing {
    pub bounds: Rect,
    pub parent_at: (i32, i32),
}

/// By what a grab is allowed (xdg-shell.xml, xdg_popup.grab): the serials of the latest press and
/// release that the client was told of, and whether another client holds a grab.
#[derive(Clone, Copy, Debug, PartialEq, Eq)]
pub struct Grabbing {
    pub press: Option<u32>,
    pub release: Option<u32>,
    pub held_elsewhere: bool,
}

/// What a request is served by. It says whether there is room for the windows or the wl_pointer
/// that it leads to, and by what a popup is placed and a grab allowed.
#[derive(Clone, Copy)]
pub(crate) struct Given {
    pub(crate) has_room: bool,
    pub(crate) placing: Placing,
    pub(crate) grabbing: Grabbing,
}

/// What a request did to the stack of toplevels, and what it applied, if it may change what
/// surfaces show (wayland.xml, wl_surface.commit and destroy, wl_subsurface.set_desync and destroy;
/// xdg-shell.xml, xdg_popup.destroy).
#[derive(Drop)]
pub struct Outcome<A: Allocator> {
    pub stacking: Stacking,
    pub applied: Option<Applied<A>>,
}

impl<A: Allocator> Outcome<A> {
    /// The outcome of a request that did this to the stack of toplevels, and applied nothing.
    pub(crate) fn of(stacking: Stacking) -> Self
        ensures { result ≡ record { stacking = stacking; applied = None } }
    {
        Outcome {
            stacking,
            applied: None,
        }
    }
}

/// A client, and its surfaces, wl_subsurfaces and xdg_surfaces. The table of its objects has the
/// number of the surface for each wl_surface, xdg_surface, xdg_toplevel and xdg_popup.
#[derive(Drop)]
pub struct Resident<A: Allocator> {
    /// Its stream, its objects and its stores.
    pub client: Client<A>,
    /// Its surfaces and xdg_surfaces.
    pub owned: Owned<A>,
    /// Which wl_subsurface was made of which surface.
    pub subsurfaces: Subsurfaces<A>,
}
