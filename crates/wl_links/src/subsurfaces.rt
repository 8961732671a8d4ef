//! The wl_subsurfaces of a client, by the numbers of their surfaces.

ghost use Rattle.std.specs.Prelude.{ℕ, ◌≡◌, ◌≢◌, ◌-◌, [], None, Some, slice_index_or, IfNone, IfSome, OnErr, OnOk};
ghost use Rattle.wl_links.specs.Subsurfaces.{IsSetAt};

use std::alloc::{AllocError, Allocator};
use std::marker::Model;

/// For each surface of a client, by its number, the id of the wl_subsurface that was made of it,
/// while both are there. Contracts see it as the list of these: the first is that of the surface
/// with the number 0.
#[derive(Drop)]
pub struct Subsurfaces<A: Allocator> {
    ids: Vec<Option<u32>, A>,
}

impl<A: Allocator> Model for Subsurfaces<A> {
    ghost use Rattle.std.specs.Prelude.{ℕ, List, Option};

    ghost Value = { List (Option ℕ) };

    ghost view = { λ s. s.ids.items };
}

impl<A: Allocator> Subsurfaces<A> {
    /// No surface has one.
    pub fn new(alloc: A) -> Self
        ensures { result ≡ [] }
    {
        Subsurfaces {
            ids: Vec::new(alloc),
        }
    }

    /// The id of the wl_subsurface that was made of a surface, if there is one.
    pub fn get(&self, surface: usize) -> Option<u32>
        ensures { result ≡ slice_index_or self.now surface None }
    {
        match self.ids.get(surface) {
            Some(id) => *id,
            None => None,
        }
    }

    /// The surface of the wl_subsurface with this id, if it is there.
    pub fn surface_of(&self, id: u32) -> Option<usize>
        ensures some { IfSome result (λ surface. slice_index_or self.now surface None ≡ Some id) }
        ensures none { IfNone result ((surface : ℕ) → slice_index_or self.now surface None ≢ Some id) }
    {
        for surface in 0..self.ids.len() {
            if self.ids[surface] == Some(id) {
                return Some(surface);
            }
        }
        None
    }

    /// Notes that a wl_subsurface was made of a surface. Without memory nothing changes.
    pub fn set(&mut self, surface: usize, id: u32) -> Result<(), AllocError>
        ensures ok { OnOk result (IsSetAt surface (Some id) self.old self.new) }
        ensures err { OnErr result (self.new ≡ self.old) }
    {
        let Some(places) = surface.checked_add(1) else {
            return Err(AllocError);
        };
        if places > self.ids.len() {
            self.ids.resize(places, None)?;
        }
        self.ids[surface] = Some(id);
        Ok(())
    }

    /// Forgets the wl_subsurface of a surface, since one of the two is gone.
    pub fn clear(&mut self, surface: usize)
        ensures { IsSetAt surface None self.old self.new }
    {
        if surface < self.ids.len() {
            self.ids[surface] = None;
        }
    }
}
