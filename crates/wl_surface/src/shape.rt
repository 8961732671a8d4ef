//! How a surface shows its buffer.

ghost use Rattle.std.specs.Prelude.{◌≡◌, ◌==◌, ◌%◌, ◌<◌, ◌^◌};
ghost use Rattle.std.specs.Option.{option_map};
ghost use Rattle.wl_surface.specs.Kept.{buffer_of, turned_height, turned_width};

use crate::content::Attached;
use wl_store::{Scale, Transform};

/// How a surface shows its buffer: its transform, its scale, and its size in its own points. Each
/// point shows a block of `scale` by `scale` points of the buffer.
#[derive(Clone, Copy)]
pub(crate) struct Shape {
    pub(crate) transform: Transform,
    pub(crate) scale: Scale,
    pub(crate) w: u32,
    pub(crate) h: u32,
    pub(crate) ghost width_fits: { w < 2 ^ 31 },
    pub(crate) ghost height_fits: { h < 2 ^ 31 },
}

/// The shape of a surface with this buffer (wayland.xml, wl_surface.set_buffer_scale,
/// set_buffer_transform). Its sides are the buffer's divided by the scale, and exchanged if the
/// transform turns it. Without a buffer it has no points.
pub(crate) fn shape_of(buffer: &Option<Attached>, transform: Transform, scale: Scale) -> Shape
    ensures transform { result.transform ≡ transform }
    ensures scale { result.scale ≡ scale }
    ensures width { result.w ≡ turned_width (option_map buffer_of buffer.now) transform scale.number }
    ensures height { result.h ≡ turned_height (option_map buffer_of buffer.now) transform scale.number }
{
    let (w, h) = match buffer {
        None => (0, 0),
        Some(attached) if transform.is_turned() => (
            attached.layout.h / scale.number,
            attached.layout.w / scale.number,
        ),
        Some(attached) => (
            attached.layout.w / scale.number,
            attached.layout.h / scale.number,
        ),
    };
    Shape {
        transform,
        scale,
        w,
        h,
    }
}

/// Whether the side of a buffer, in points, is a multiple of the scale.
pub(crate) fn is_multiple(side: u32, scale: Scale) -> bool
    ensures { result ≡ (side % scale.number == 0) }
{
    side % scale.number == 0
}
