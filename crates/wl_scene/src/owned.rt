//! What a client owns of the scene.

use std::alloc::Allocator;
use wl_shell::Shell;
use wl_surface::Surfaces;

/// What a client owns of the scene: its surfaces with the links between them (wayland.xml,
/// wl_surface and wl_subsurface), and its xdg_surfaces (xdg-shell.xml, xdg_surface).
#[derive(Drop)]
pub struct Owned<A: Allocator> {
    pub surfaces: Surfaces<A>,
    pub shell: Shell<A>,
}
