//! The images of frames.

ghost use Rattle.std.specs.Prelude.{◌≡◌, OnOk};
ghost use Rattle.std.specs.Io.KnownBytes.{Appends};
ghost use Rattle.wl_paint.specs.Image.{image_of};
ghost use Rattle.wl_recording.specs.Images.{images_in};

use std::alloc::Allocator;
use std::io;
use std::io::Write;
use wl_paint::{Framebuffer, write_ppm};

/// Appends the image of a frame, if images are wanted.
pub fn write_image<A: Allocator, P: Write>(
    frame: &Framebuffer<A>,
    ppm: &mut Option<P>,
) -> io::Result<()>
    ensures { OnOk result (Appends (images_in P.contents ppm.old) (images_in P.contents ppm.new)
        (image_of frame.now.width frame.now.height frame.now.pixels)) }
{
    match ppm {
        Some(ppm) => write_ppm(frame, ppm),
        None => Ok(()),
    }
}
