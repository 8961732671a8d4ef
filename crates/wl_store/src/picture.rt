ghost use Rattle.std.specs.Prelude.{◌≡◌, ◌+◌, ◌-◌, ◌*◌, ◌/◌, ◌%◌, ◌≤◌, ◌<◌, ◌==◌, ◌&&◌, ℕ, is_some, slice_range, length, IfSome};
ghost use Rattle.wl_store.specs.Layout.{FitsIn, buffer_color, place_of};
ghost use Rattle.wl_store.specs.Picture.{ArePoints, color_at, lent, point_shown, surface_height, surface_width, transparent};
ghost use Rattle.wl_store.specs.Transform.{keeps_rows};

use crate::color::{Argb, Format};
use crate::place::Layout;
use crate::reading::{copy_falling, copy_rising};
use crate::scale::Scale;
use crate::transform::{Course, Transform};
use std::marker::Model;

/// The content of a surface, lent from a store. It has the bytes as they are now and the place of
/// the buffer in them. It also says how the surface shows the buffer, turned and scaled.
#[derive(Drop)]
pub struct Picture<'a> {
    bytes: &'a [u8],
    layout: Layout,
    transform: Transform,
    scale: Scale,
}

impl<'a> Model for Picture<'a> {
    ghost use Rattle.std.specs.Prelude.{◌≤◌, length};
    ghost use Rattle.wl_store.specs.Layout.{FitsIn};
    ghost use Rattle.wl_store.specs.Picture.{Shown};

    ghost Value = { Shown };

    ghost view = { λ p. record { bytes = p.bytes.now; layout = p.layout; transform = p.transform; scale = p.scale.number } };

    ghost invariant = { λ p. FitsIn (length p.bytes.now) p.layout × (1 ≤ p.scale.number) };
}

/// Where a pixel of the buffer begins in the bytes.
fn place_in(layout: &Layout, x: u32, y: u32) -> usize
    requires row { y < layout.now.h }
    ensures { result ≡ place_of layout.now (x, y) }
{
    layout.offset as usize + y as usize * layout.stride as usize + 4 * x as usize
}

/// The colour of a pixel of the buffer.
fn buffer_pixel(bytes: &[u8], layout: &Layout, x: u32, y: u32) -> Argb
    requires fits { FitsIn (length bytes.now) layout.now }
    requires column { x < layout.now.w }
    requires row { y < layout.now.h }
    ensures { result ≡ buffer_color bytes.now layout.now (x, y) }
{
    let at = place_in(layout, x, y);
    Argb {
        a: match layout.format {
            Format::Argb8888 => bytes[at + 3],
            Format::Xrgb8888 => 255,
        },
        r: bytes[at + 2],
        g: bytes[at + 1],
        b: bytes[at],
    }
}

impl<'a> Picture<'a> {
    /// `None` if the layout passes the end of the bytes.
    pub(crate) fn new(
        bytes: &'a [u8],
        layout: &Layout,
        transform: Transform,
        scale: Scale,
    ) -> Option<Self>
        ensures there { result ≡ lent bytes.now layout.now transform scale.number }
        ensures shown { IfSome result (λ p. p ≡ record { bytes = bytes.now; layout = layout.now; transform = transform; scale = scale.number }) }
    {
        let end = u64::from(layout.offset) + u64::from(layout.stride) * u64::from(layout.h);
        if end > bytes.len() as u64 {
            return None;
        }
        Some(Picture {
            bytes,
            layout: *layout,
            transform,
            scale,
        })
    }

    /// A picture of one transparent pixel: what lies below it stays as it is.
    pub fn transparent() -> Self
        ensures { result ≡ transparent }
    {
        Picture {
            bytes: &[0, 0, 0, 0],
            layout: Layout {
                offset: 0,
                w: 1,
                h: 1,
                stride: 4,
                format: Format::Argb8888,
            },
            transform: Transform::Normal,
            scale: Scale::ONE,
        }
    }

    /// The width and the height of the surface.
    fn sides(&self) -> (u32, u32)
        ensures { result ≡ (surface_width self.now, surface_height self.now) }
    {
        let width = self.scale.side(self.layout.w);
        let height = self.scale.side(self.layout.h);
        if self.transform.is_turned() {
            (height, width)
        } else {
            (width, height)
        }
    }

    /// The width of the surface, in its own pixels. It is the buffer's width, or its height if the
    /// transform turns it by a quarter, divided by the scale and rounded down (wayland.xml,
    /// wl_surface.set_buffer_transform, set_buffer_scale).
    pub fn width(&self) -> u32
        ensures { result ≡ surface_width self.now }
    {
        self.sides().0
    }

    /// The height of the surface, in its own pixels. It is the buffer's height, or its width if the
    /// transform turns it by a quarter, divided by the scale and rounded down.
    pub fn height(&self) -> u32
        ensures { result ≡ surface_height self.now }
    {
        self.sides().1
    }

    /// Lends row `j` of the buffer, counted from 0: its pixels from the left, four bytes each.
    pub fn row(&self, j: u32) -> &'a [u8]
        requires { j < self.now.layout.h }
        ensures lent { let start = self.now.layout.offset + j * self.now.layout.stride in
            result.now ≡ slice_range self.now.bytes start (start + 4 * self.now.layout.w) }
        ensures len { length result.now ≡ 4 * self.now.layout.w }
        ensures within { self.now.layout.offset + j * self.now.layout.stride + 4 * self.now.layout.w ≤ length self.now.bytes }
    {
        let start = self.layout.offset as usize + j as usize * self.layout.stride as usize;
        &self.bytes[start..start + 4 * self.layout.w as usize]
    }

    /// Lends the bytes of `count` points of the surface, from (i, j) to the right, four bytes each.
    /// It also answers their format.
    ///
    /// `None` if the rows of the surface aren't rows of the buffer. They are at scale 1, with a
    /// transform that is normal or turns the buffer upside down.
    pub fn points(&self, i: u32, j: u32, count: u32) -> Option<(&'a [u8], Format)>
        requires columns { i + count ≤ surface_width self.now }
        requires row { j < surface_height self.now }
        ensures there { is_some result ≡ (self.now.scale == 1 && keeps_rows self.now.transform) }
        ensures points { IfSome result (λ points. ArePoints self.now i j count points.0.now points.1) }
    {
        if self.scale.number != 1 {
            return None;
        }
        let row = match self.transform {
            Transform::Normal => self.row(j),
            Transform::Flipped180 => self.row(self.layout.h - 1 - j),
            _ => return None,
        };
        let first = 4 * i as usize;
        Some((&row[first..first + 4 * count as usize], self.layout.format))
    }

    /// The point of the buffer that the point (i, j) of the surface shows.
    fn point(&self, i: u32, j: u32) -> (u32, u32)
        requires column { i < surface_width self.now }
        requires row { j < surface_height self.now }
        ensures point { result ≡ point_shown self.now i j }
        ensures column { result.0 < self.now.layout.w }
        ensures row { result.1 < self.now.layout.h }
    {
        let (width, height) = self.sides();
        let (x, y) = self.transform.buffer_point(width, height, i, j);
        (x * self.scale.number, y * self.scale.number)
    }

    /// The colour at the point (i, j) of the surface, in its own pixels from its upper left corner.
    pub fn pixel(&self, i: u32, j: u32) -> Argb
        requires column { i < surface_width self.now }
        requires row { j < surface_height self.now }
        ensures { result ≡ color_at self.now i j }
    {
        let (x, y) = self.point(i, j);
        buffer_pixel(self.bytes, &self.layout, x, y)
    }

    /// Fills `run` with the points of the surface from (i, j) to the right, four bytes each. The
    /// answer is their format.
    pub fn read(&self, i: u32, j: u32, run: &mut [u8]) -> Format
        requires whole { length run.old % 4 ≡ 0 }
        requires columns { i + length run.old / 4 ≤ surface_width self.now }
        requires row { j < surface_height self.now }
        ensures { ArePoints self.now i j (length run.old / 4) run.new result }
    {
        if !run.is_empty() {
            self.fill(i, j, run);
        }
        self.layout.format
    }

    /// Fills a run of at least one pixel.
    fn fill(&self, i: u32, j: u32, run: &mut [u8])
        requires some { 0 < length run.old }
        requires whole { length run.old % 4 ≡ 0 }
        requires columns { i + length run.old / 4 ≤ surface_width self.now }
        requires row { j < surface_height self.now }
        ensures { ArePoints self.now i j (length run.old / 4) run.new self.now.layout.format }
    {
        let (x, y) = self.point(i, j);
        let first = place_in(&self.layout, x, y);
        let pixel = 4 * self.scale.number as usize;
        let row = self.scale.number as usize * self.layout.stride as usize;
        match self.transform.course() {
            Course::Right => copy_rising(run, self.bytes, first, pixel),
            Course::Left => copy_falling(run, self.bytes, first, pixel),
            Course::Down => copy_rising(run, self.bytes, first, row),
            Course::Up => copy_falling(run, self.bytes, first, row),
        }
    }
}
