//! What clients do with subsurfaces, by chance.

use crate::desktop::{Role, SURFACES, Stage, Surface, World, client_of, number_of, slot_of};
use crate::requests::Request;

impl World {
    /// A surface becomes a subsurface of another one of its client that doesn't hang below it, and
    /// shows something with the next commit of that.
    pub(crate) fn join(&mut self, number: usize, surface: Surface, buffer: usize) {
        let slot = slot_of(number);
        if surface.has_object {
            self.ask(Request::DestroySubsurface(slot));
        } else if let Some(parent) = self.choose_parent(number) {
            self.ask(Request::MakeSubsurface(slot, parent));
            self.ask_position(slot);
            let joined = Surface {
                role: Role::Subsurface,
                parent: Some(number_of(client_of(number), parent)),
                ..surface
            };
            self.update_subsurface(number, joined, buffer);
        }
    }

    /// A toplevel that is mapped or a subsurface, or any other surface.
    fn choose_parent(&mut self, number: usize) -> Option<usize> {
        let start = self.below(SURFACES);
        let mut found = None;
        for k in 0..SURFACES {
            let slot = start.saturating_add(k) % SURFACES;
            let parent = number_of(client_of(number), slot);
            let surface = self.surface(parent);
            if surface.stage == Stage::Absent || self.is_below(parent, number) {
                continue;
            }
            if surface.stage == Stage::Mapped || surface.parent.is_some() {
                return Some(slot);
            }
            found = Some(slot);
        }
        found
    }

    fn ask_position(&mut self, slot: usize) {
        let x = self.coordinate(-10, 30);
        let y = self.coordinate(-8, 24);
        self.ask(Request::SetPosition(slot, x, y));
    }

    /// By how much a subsurface moves with its next buffer, now and then.
    pub(crate) fn choose_step(&mut self) -> (i32, i32) {
        if self.one_in(4) {
            (self.coordinate(-3, 7), self.coordinate(-3, 7))
        } else {
            (0, 0)
        }
    }

    /// Something is asked of a surface that is for a subsurface, or of its wl_subsurface.
    pub(crate) fn ask_subsurface(&mut self, number: usize, surface: Surface, buffer: usize) {
        let slot = slot_of(number);
        match self.below(16) {
            0 if self.one_in(2) => self.ask(Request::DestroySurface(slot)),
            1 => self.ask_none(slot),
            2 | 3 => self.ask_parent_to_commit(surface),
            4..=8 if surface.has_object => self.ask_link(number, surface),
            9 if surface.has_object => self.ask(Request::DestroySubsurface(slot)),
            9 | 10 if !surface.has_object => self.join(number, surface, buffer),
            _ => self.update_subsurface(number, surface, buffer),
        }
    }

    /// A commit of it, and mostly one of its parent.
    fn update_subsurface(&mut self, number: usize, surface: Surface, buffer: usize) {
        self.update(number, surface, buffer);
        if self.one_in(2) {
            self.ask_parent_to_commit(surface);
        }
    }

    /// The parent commits, unless it may not: an xdg_surface without a role object whose surface
    /// has a buffer.
    fn ask_parent_to_commit(&mut self, surface: Surface) {
        if let Some(parent) = surface.parent
            && self.surface(parent).stage != Stage::Roleless
        {
            self.ask(Request::Commit(slot_of(parent)));
        }
    }

    /// A wl_subsurface, whose link may have ended, is set to another mode, or placed.
    fn ask_link(&mut self, number: usize, surface: Surface) {
        let slot = slot_of(number);
        match self.below(8) {
            0 | 1 => self.ask(Request::SetSync(slot)),
            2 | 3 => self.ask(Request::SetDesync(slot)),
            4 => self.ask_position(slot),
            _ => {
                let beside = self.choose_sibling(number, surface);
                let request = if self.one_in(2) {
                    Request::PlaceAbove(slot, beside)
                } else {
                    Request::PlaceBelow(slot, beside)
                };
                self.ask(request);
            }
        }
        if self.one_in(2) {
            self.ask_parent_to_commit(surface);
        }
    }

    /// Another subsurface of the parent, or the parent. Where the link ended, itself.
    fn choose_sibling(&mut self, number: usize, surface: Surface) -> usize {
        let other = self.below(SURFACES);
        let sibling = number_of(client_of(number), other);
        match surface.parent {
            Some(parent) if sibling != number && self.surface(sibling).parent == Some(parent) => {
                other
            }
            Some(parent) => slot_of(parent),
            None => slot_of(number),
        }
    }
}
