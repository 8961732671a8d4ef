ghost use Rattle.std.specs.Prelude.{◌≡◌, ◌+◌, ◌*◌, ◌/◌, ◌≤◌, length, take, OnOk};
ghost use Rattle.std.specs.Io.KnownBytes.{Appends};
ghost use Rattle.wl_paint.specs.Image.{colors, image_of};

use crate::framebuffer::Framebuffer;
use std::alloc::Allocator;
use std::io;
use std::io::Write;
use std::simd::prelude::*;

/// How many pixels are written together.
const PIECE: usize = 16_384;

/// Writes the framebuffer as a binary PPM image (netpbm, ppm: `P6`) with 255 as the greatest value
/// of a channel, some rows at a time. It takes no memory.
///
/// The error is the writer's. Some of the image may have been written then.
pub fn write_ppm<A: Allocator, W: Write>(frame: &Framebuffer<A>, writer: &mut W) -> io::Result<()>
    ensures { OnOk result (Appends (W.contents writer.old) (W.contents writer.new)
        (image_of frame.now.width frame.now.height frame.now.pixels)) }
{
    let width = frame.width();
    let height = frame.height();
    write!(writer, "P6\n{width} {height}\n255\n")?;
    write_colors(frame.pixels(), writer)
}

/// Writes red, green and blue of each pixel, piece by piece.
fn write_colors<W: Write>(pixels: &[u8], writer: &mut W) -> io::Result<()>
    ensures { OnOk result (Appends (W.contents writer.old) (W.contents writer.new) (colors (length pixels.now / 4) pixels.now)) }
{
    let count = pixels.len() / 4;
    let mut done = 0;
    while done < count {
        let end = (done + PIECE).min(count);
        write_piece(&pixels[4 * done..4 * end], writer)?;
        done = end;
    }
    Ok(())
}

/// Writes red, green and blue of each pixel of a piece.
fn write_piece<W: Write>(pixels: &[u8], writer: &mut W) -> io::Result<()>
    requires { length pixels.now ≤ 4 * PIECE }
    ensures { OnOk result (Appends (W.contents writer.old) (W.contents writer.new) (colors (length pixels.now / 4) pixels.now)) }
{
    let mut packed = [0; 3 * PIECE + 4];
    pack(pixels, &mut packed);
    writer.write_all(&packed[..3 * (pixels.len() / 4)])
}

/// Puts red, green and blue of each pixel to the front of `packed`. Up to four bytes behind them
/// are written too.
fn pack(pixels: &[u8], packed: &mut [u8])
    requires { 3 * (length pixels.now / 4) + 4 ≤ length packed.old }
    ensures { take (3 * (length pixels.now / 4)) packed.new ≡ colors (length pixels.now / 4) pixels.now }
{
    let fours = pixels.len() / 16;
    for i in 0..fours {
        pack_four(pixels, packed, 4 * i);
    }
    pack_rest(pixels, packed, 4 * fours);
}

/// Puts red, green and blue of the four pixels from pixel `first` on behind those of the pixels
/// before. Four bytes behind them are written too.
fn pack_four(pixels: &[u8], packed: &mut [u8], first: usize)
    requires there { 4 * (first + 4) ≤ length pixels.now }
    requires room { 3 * first + 16 ≤ length packed.old }
    requires before { take (3 * first) packed.old ≡ colors first pixels.now }
    ensures { take (3 * (first + 4)) packed.new ≡ colors (first + 4) pixels.now }
{
    let four = u8x16::from_slice(&pixels[4 * first..]);
    let colors = four.swizzle([2, 1, 0, 6, 5, 4, 10, 9, 8, 14, 13, 12, 3, 7, 11, 15]);
    colors.copy_to_slice(&mut packed[3 * first..]);
}

/// Puts red, green and blue of each pixel from pixel `first` on behind those of the pixels before.
fn pack_rest(pixels: &[u8], packed: &mut [u8], first: usize)
    requires room { 3 * (length pixels.now / 4) ≤ length packed.old }
    requires there { first ≤ length pixels.now / 4 }
    requires before { take (3 * first) packed.old ≡ colors first pixels.now }
    ensures { take (3 * (length pixels.now / 4)) packed.new ≡ colors (length pixels.now / 4) pixels.now }
{
    for i in first..pixels.len() / 4 {
        packed[3 * i] = pixels[4 * i + 2];
        packed[3 * i + 1] = pixels[4 * i + 1];
        packed[3 * i + 2] = pixels[4 * i];
    }
}
