//! The roots of a toplevel's windows, with room for as many as there can be.

ghost use Rattle.std.specs.Prelude.{ℕ, ◌≡◌, ◌≤◌, length, map};
ghost use Rattle.wl_scene.specs.Roots.{HasRole, IsHeld, standing_at, told_root};
ghost use Rattle.wl_shell.specs.InOrder.{AreRising};
ghost use Rattle.spec_desktop.specs.Popups.{stacked_popups};
ghost use Rattle.spec_desktop.specs.Stacking.{Owned as Owns, root_of};
ghost use Rattle.spec_desktop.specs.Windows.{roots_of};
ghost use Rattle.wl_shell.specs.Popups.{popups_of};

use std::alloc::{AllocError, Allocator};
use std::marker::Model;
use wl_scene::{Owned, RootPlace, add_roots};
use wl_surface::{MAX_SURFACES, SurfaceNo};

/// One toplevel, and as many popups as a client may have surfaces.
const MOST_ROOTS: usize = MAX_SURFACES + 1;

/// The roots of the windows of one toplevel, each with its place. There is room for as many as a
/// client can have.
#[derive(Drop)]
pub(crate) struct Roots<A: Allocator> {
    places: Vec<RootPlace, A>,
}

impl<A: Allocator> Model for Roots<A> {
    ghost use Rattle.std.specs.Prelude.{List, ◌≤◌, vec_capacity};
    ghost use Rattle.wl_scene.specs.declared.roots.RootPlace.{RootPlace};

    ghost Value = { List RootPlace };

    ghost view = { λ roots. roots.places.items };

    ghost invariant = { λ roots. 257 ≤ vec_capacity roots.places };
}

impl<A: Allocator + Copy> Roots<A> {
    /// None yet. An `Err` means that memory ran out.
    pub(crate) fn new(alloc: A) -> Result<Self, AllocError> {
        let mut places = Vec::new(alloc);
        places.try_reserve(MOST_ROOTS)?;
        Ok(Roots { places })
    }

    /// The roots, each with its place.
    pub(crate) fn places(&self) -> &[RootPlace]
        ensures { result.now ≡ self.now }
    {
        &self.places
    }

    /// Finds the roots of a toplevel that stands there, in pixels of the output: its own, and those
    /// of its popups that are shown.
    pub(crate) fn find(&mut self, owned: &Owned<A>, toplevel: SurfaceNo, x: i32, y: i32)
        ensures { (o : Owns) (client : ℕ) → IsHeld owned.now.surfaces.states owned.now.surfaces.family owned.now.shell o
            → AreRising (popups_of o.shell) → HasRole owned.now.shell toplevel → length o.shell ≤ 256
            → self.new ≡ map told_root (roots_of o.surfaces (root_of (λ _. o) (standing_at client toplevel x y)) (stacked_popups o)) }
    {
        self.places.clear();
        let _added = add_roots(owned, toplevel, x, y, &mut self.places);
    }
}
