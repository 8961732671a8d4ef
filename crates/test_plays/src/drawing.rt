//! What surfaces show at their points, and how clients draw it.

use crate::desktop::{Content, Planned, Role, Stage, Surface, World};
use crate::requests::{BUFFERS, STORE, Shape, shape_of};

/// Blue, green, red and alpha.
pub(crate) type Color = [u8; 4];

/// The sides of a surface with a content: those of the buffer, divided by the scale, which odd
/// transforms swap.
pub(crate) fn sides_of(content: Content) -> (i32, i32) {
    let shape = shape_of(content.buffer);
    let width = shape.width.checked_div(content.scale).unwrap_or(0);
    let height = shape.height.checked_div(content.scale).unwrap_or(0);
    if content.transform % 2 == 1 {
        (height, width)
    } else {
        (width, height)
    }
}

/// Whether a scale divides both sides of a buffer.
pub(crate) fn is_divided(buffer: usize, scale: i32) -> bool {
    let shape = shape_of(buffer);
    shape.width.checked_rem(scale) == Some(0) && shape.height.checked_rem(scale) == Some(0)
}

/// The first pixel of the buffer that belongs to a point of the surface, which shows it.
pub(crate) fn buffer_pixel(content: Content, point: (i32, i32)) -> (i32, i32) {
    let (u, v) = buffer_point(content.transform, sides_of(content), point);
    (u.wrapping_mul(content.scale), v.wrapping_mul(content.scale))
}

/// The point of a buffer without scale that a surface of `w` by `h` shows at (i, j).
fn buffer_point(transform: u32, (w, h): (i32, i32), (i, j): (i32, i32)) -> (i32, i32) {
    let right = w.wrapping_sub(1).wrapping_sub(i);
    let up = h.wrapping_sub(1).wrapping_sub(j);
    match transform {
        0 => (i, j),
        1 => (j, right),
        2 => (right, up),
        3 => (up, i),
        4 => (right, j),
        5 => (j, i),
        6 => (i, up),
        _ => (up, right),
    }
}

/// Where a pixel of a buffer begins in the stores of all clients.
fn place_of(client: usize, shape: Shape, (u, v): (i32, i32)) -> usize {
    let at = shape
        .offset
        .wrapping_add(shape.stride.wrapping_mul(v))
        .wrapping_add(u.wrapping_mul(4));
    let first = client.saturating_mul(STORE);
    first.saturating_add(usize::try_from(at).unwrap_or(usize::MAX))
}

/// How many pixels a buffer takes in its store, with those between its rows.
fn pixels_of(shape: Shape) -> usize {
    usize::try_from(shape.stride.wrapping_mul(shape.height)).unwrap_or(0) / 4
}

impl World {
    /// The pixel of a client's content at a point of the surface. None outside it.
    pub(crate) fn pixel(&self, client: usize, content: Content, i: i32, j: i32) -> Option<Color> {
        let (w, h) = sides_of(content);
        if i < 0 || j < 0 || w <= i || h <= j {
            return None;
        }
        let shape = shape_of(content.buffer);
        let at = place_of(client, shape, buffer_pixel(content, (i, j)));
        let alpha = if shape.format == 1 {
            255
        } else {
            self.byte(at.saturating_add(3))
        };
        Some([
            self.byte(at),
            self.byte(at.saturating_add(1)),
            self.byte(at.saturating_add(2)),
            alpha,
        ])
    }

    /// The first and the last point of a row at which two contents of the same sides differ.
    pub(crate) fn difference(
        &self,
        client: usize,
        old: Content,
        new: Content,
        j: i32,
    ) -> Option<(i32, i32)> {
        let (w, _) = sides_of(new);
        let mut found = None;
        for i in 0..w {
            if self.pixel(client, old, i, j) != self.pixel(client, new, i, j) {
                found = match found {
                    None => Some((i, i)),
                    Some((first, _)) => Some((first, i)),
                };
            }
        }
        found
    }

    /// The alpha of a content at a point, or 255 outside it.
    fn alpha(&self, client: usize, content: Content, i: i32, j: i32) -> u8 {
        match self.pixel(client, content, i, j) {
            Some(color) => color[3],
            None => 255,
        }
    }

    /// Whether a content is opaque at all points of a row from a column to before another.
    fn is_row_opaque(&self, client: usize, content: Content, j: i32, from: i32, past: i32) -> bool {
        for i in from..past {
            if self.alpha(client, content, i, j) != 255 {
                return false;
            }
        }
        true
    }

    /// Whether it is so in the rows from one to before another.
    pub(crate) fn is_opaque(
        &self,
        client: usize,
        content: Content,
        (x, past_x): (i32, i32),
        (y, past_y): (i32, i32),
    ) -> bool {
        for j in y..past_y {
            if !self.is_row_opaque(client, content, j, x, past_x) {
                return false;
            }
        }
        true
    }

    fn random_byte(&mut self) -> u8 {
        u8::try_from(self.below(256)).unwrap_or(0)
    }

    /// Opaque, half, clear or any.
    fn random_color(&mut self) -> Color {
        let (b, g, r) = (self.random_byte(), self.random_byte(), self.random_byte());
        match self.below(6) {
            0 => [b / 2, g / 2, r / 2, 128],
            1 => [0, 0, 0, 0],
            2 => [b, g, r, self.random_byte()],
            _ => [b, g, r, 255],
        }
    }

    /// Puts a colour into so many pixels of a client's store, from `at` on.
    fn fill(&mut self, client: usize, at: usize, count: usize, color: Color) {
        let from = self.writes.len();
        for _ in 0..count {
            if self.writes.extend_from_slice(&color).is_err() {
                self.failed = true;
            }
        }
        let to = self.writes.len();
        let first = client.saturating_mul(STORE).saturating_add(at);
        for k in from..to {
            let byte = self.writes.get(k).copied().unwrap_or(0);
            self.set_byte(first.saturating_add(k.saturating_sub(from)), byte);
        }
        let at = u32::try_from(at).unwrap_or(0);
        self.plan(Planned::Store(client, at, from, to));
    }

    /// A client draws into a buffer: all of it, or some pixels one after another.
    pub(crate) fn draw(&mut self, client: usize, buffer: usize) {
        if self.one_in(3) {
            self.draw_all(client, buffer);
        } else {
            self.draw_some(client, buffer);
        }
    }

    pub(crate) fn draw_all(&mut self, client: usize, buffer: usize) {
        let shape = shape_of(buffer);
        let color = self.random_color();
        let offset = usize::try_from(shape.offset).unwrap_or(0);
        self.fill(client, offset, pixels_of(shape), color);
    }

    fn draw_some(&mut self, client: usize, buffer: usize) {
        let shape = shape_of(buffer);
        let color = self.random_color();
        let first = self.below(pixels_of(shape));
        let left = pixels_of(shape).saturating_sub(first).min(70);
        let count = self.below(left).saturating_add(1).min(left);
        let offset = usize::try_from(shape.offset).unwrap_or(0);
        let at = offset.saturating_add(first.saturating_mul(4));
        self.fill(client, at, count, color);
    }

    /// A buffer for a surface: the one that it shows, or one that is drawn anew. A client that
    /// keeps its promises draws only into buffers that aren't shown.
    pub(crate) fn choose_buffer(&mut self, client: usize, surface: Surface) -> usize {
        let is_kept = surface.stage == Stage::Mapped || surface.role == Role::Subsurface;
        if let Some(shown) = surface.committed.buffer
            && is_kept
            && self.one_in(5)
        {
            return shown.number;
        }
        let lies = self.client(client).lies;
        let start = self.below(BUFFERS);
        for k in 0..BUFFERS {
            let buffer = start.saturating_add(k) % BUFFERS;
            if lies || !self.is_shown(client, buffer) {
                for _ in 0..self.below(4) {
                    self.draw(client, buffer);
                }
                return buffer;
            }
        }
        surface.committed.buffer.map_or(0, |shown| shown.number)
    }
}
