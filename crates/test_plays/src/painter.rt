//! The slow painter: each point by itself, from the background up through all windows.

use crate::desktop::{Planned, Role, Surface, World, client_of};
use crate::drawing::Color;
use crate::links::Shown;
use crate::tally::Deed;

pub(crate) const WIDTH: i32 = 48;

pub(crate) const HEIGHT: i32 = 40;

/// Blue, green, red and 255.
pub(crate) const BACKGROUND: Color = [30, 20, 10, 255];

/// A point of a frame.
#[derive(Clone, Copy)]
struct Point {
    color: Color,
    /// How many windows cover it.
    windows: u32,
    /// Whether one of a client that lies does.
    covered: bool,
}

/// v/255, rounded.
fn div255(v: u32) -> u32 {
    v.saturating_mul(2).saturating_add(255) / 510
}

fn blend_channel(source: u8, alpha: u8, under: u8) -> u8 {
    let left = u32::from(255u8.saturating_sub(alpha));
    let rest = div255(u32::from(under).saturating_mul(left));
    u8::try_from(u32::from(source).saturating_add(rest)).unwrap_or(255)
}

fn blend(source: Color, under: Color) -> Color {
    let [b, g, r, alpha] = source;
    let [under_b, under_g, under_r, _] = under;
    [
        blend_channel(b, alpha, under_b),
        blend_channel(g, alpha, under_g),
        blend_channel(r, alpha, under_r),
        255,
    ]
}

impl World {
    /// The pixel of a window at a point of the output.
    fn window_pixel(&self, window: Shown, x: i32, y: i32) -> Option<Color> {
        let content = self.surface(window.surface).current.content()?;
        let i = x.wrapping_sub(window.x);
        let j = y.wrapping_sub(window.y);
        self.pixel(client_of(window.surface), content, i, j)
    }

    /// The colour of a point of the output.
    fn point(&self, windows: &[Shown], x: i32, y: i32) -> Point {
        let mut point = Point {
            color: BACKGROUND,
            windows: 0,
            covered: false,
        };
        for window in windows {
            if let Some(color) = self.window_pixel(*window, x, y) {
                point.color = blend(color, point.color);
                point.windows = point.windows.saturating_add(1);
                point.covered = point.covered || self.client(client_of(window.surface)).lies;
            }
        }
        point
    }

    fn keep_point(&mut self, point: Point) {
        if self.images.extend_from_slice(&point.color).is_err()
            || self.covered.push(point.covered).is_err()
        {
            self.failed = true;
        }
        if point.windows > 1 {
            self.count(Deed::Overlap);
        }
    }

    fn keep_image(&mut self, windows: &[Shown]) {
        for y in 0..HEIGHT {
            for x in 0..WIDTH {
                self.keep_point(self.point(windows, x, y));
            }
        }
        for window in windows {
            self.count_window(*window);
        }
    }

    /// Counts a window with a scale, or of a subsurface or a popup.
    fn count_window(&mut self, window: Shown) {
        let Surface {
            role,
            popup,
            current,
            ..
        } = self.surface(window.surface);
        if current.scale > 1 && current.buffer.is_some() {
            self.count(Deed::Scaled);
        }
        if role == Role::Subsurface {
            self.count(Deed::Inner);
        } else if let Some(popup) = popup {
            self.count(Deed::Menu);
            if self.surface(popup.parent).corner != (0, 0) {
                self.count(Deed::MenuByGeometry);
            }
        }
    }

    /// A tick: keeps the frame that is to be seen, after which frame callbacks are answered.
    pub(crate) fn tick(&mut self) {
        self.ticks = self.ticks.saturating_add(1);
        match self.windows() {
            Some(windows) => self.keep_image(&windows),
            None => self.failed = true,
        }
        self.call_back();
        self.conclude_frame();
        self.plan(Planned::Tick(self.ticks));
    }
}
