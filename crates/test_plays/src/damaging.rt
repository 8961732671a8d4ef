//! What clients say of what they change, by chance in coordinates of the surface or of the buffer.

use crate::desktop::{Client, Content, Role, Surface, World, client_of, slot_of};
use crate::drawing::{buffer_pixel, sides_of};
use crate::requests::{Area, Request};
use crate::tally::Deed;

/// More than this many damages of a surface are one of all of it.
const MANY: u32 = 1024;

impl World {
    /// Says what changed: all, or each row's part. What has another size, scale, corner or
    /// transform needs no damage; a client that lies tells of none.
    pub(crate) fn ask_damage(
        &mut self,
        number: usize,
        surface: Surface,
        new: Content,
        by: (i32, i32),
    ) {
        let client = client_of(number);
        let (w, h) = sides_of(new);
        let shown = surface.committed.content();
        let old = shown.filter(|old| by == (0, 0) && stays(*old, new));
        if self.client(client).lies {
            return;
        }
        // what is held may be shown at last with the sides that are shown now, and a popup's offset
        // may undo its window geometry's
        let is_new = old.is_none() && surface.role != Role::Toplevel;
        let old = old.unwrap_or(new);
        if is_new || self.one_in(4) {
            let corner = (w.saturating_sub(1), h.saturating_sub(1));
            self.ask_damage_of(number, new, (0, 0), corner);
            return;
        }
        if self.one_in(100) {
            self.ask_much_damage(number, new);
            return;
        }
        for j in 0..h {
            if let Some((first, last)) = self.difference(client, old, new, j) {
                self.ask_damage_of(number, new, (first, j), (last, j));
            }
        }
    }

    /// One more damage of the first point than are read one by one.
    fn ask_much_damage(&mut self, number: usize, new: Content) {
        for _ in 0..MANY + 1 {
            self.ask_damage_of(number, new, (0, 0), (0, 0));
        }
    }

    /// Damages the points of a surface from one to another. In coordinates of the buffer this takes
    /// a pixel of each of them.
    fn ask_damage_of(&mut self, number: usize, content: Content, from: (i32, i32), to: (i32, i32)) {
        let slot = slot_of(number);
        let Client { compositor, .. } = self.client(client_of(number));
        if self.one_in(2) && self.may_ask(compositor, 4) {
            let (u, v) = buffer_pixel(content, from);
            let (past_u, past_v) = buffer_pixel(content, to);
            let (x, w) = self.choose_span(content.scale, u, past_u);
            let (y, h) = self.choose_span(content.scale, v, past_v);
            self.ask(Request::DamageBuffer(slot, Area { x, y, w, h }));
        } else {
            let (x, w) = span(from.0, to.0);
            let (y, h) = span(from.1, to.1);
            self.ask(Request::Damage(slot, Area { x, y, w, h }));
        }
    }

    /// Pixels from one of a point to one of another, whose first are these.
    fn choose_span(&mut self, scale: i32, one: i32, other: i32) -> (i32, i32) {
        let many = usize::try_from(scale).unwrap_or(1);
        let first = self.coordinate(one, many);
        let last = self.coordinate(other, many);
        span(first, last)
    }

    /// Counts the damages of a commit.
    pub(crate) fn count_damages(&mut self, damages: [u32; 2]) {
        let [of_surface, of_buffer] = damages;
        if of_surface > 0 && of_buffer > 0 {
            self.count(Deed::BothDamages);
        }
        if of_surface.saturating_add(of_buffer) > MANY {
            self.count(Deed::MuchDamage);
        }
    }

    /// A surface is damaged, in coordinates of its own or of its buffer.
    pub(crate) fn damage(&mut self, surface: usize, is_of_buffer: bool) {
        let now = self.surface(surface);
        let [of_surface, of_buffer] = now.damages;
        let damages = if is_of_buffer {
            [of_surface, of_buffer.saturating_add(1)]
        } else {
            [of_surface.saturating_add(1), of_buffer]
        };
        self.set_surface(surface, Surface { damages, ..now });
    }
}

/// Where numbers from one to another begin, and how many they are.
fn span(one: i32, other: i32) -> (i32, i32) {
    let (first, last) = if one <= other {
        (one, other)
    } else {
        (other, one)
    };
    (first, last.saturating_sub(first).saturating_add(1))
}

/// Whether a window keeps its size, its scale and its transform.
fn stays(old: Content, new: Content) -> bool {
    old.transform == new.transform && old.scale == new.scale && sides_of(old) == sides_of(new)
}
