//! The frames that `bench/paint` measures: a window over the whole output is painted again and
//! again, called from C.
#![tactic(auto)]

ghost use Rattle.std.specs.Prelude.{◌≡◌, ◌≤◌};

mod one;

use crate::one::One;
use std::alloc::{Allocator, Global};
use wl_blend::Rgb;
use wl_geom::Region;
use wl_paint::{Damage, Framebuffer};
use wl_store::{Layout, Scale, StoreNo, Stores, Transform, layout};

const WIDTH: u32 = 1920;

const HEIGHT: u32 = 1080;

const BLACK: Rgb = Rgb { r: 0, g: 0, b: 0 };

/// Paints `rounds` frames of 1920 by 1080 from nothing, each with one window. Its buffer has as
/// many points at this scale, in the format of this number, and each of its bytes is `byte`.
///
/// The answer is how many were painted. It is 0 if memory is refused, or no surface can have these
/// numbers.
#[unsafe(no_mangle)]
pub extern "C" fn bench_paint(
    alloc: Global,
    byte: u8,
    format: u32,
    transform: u32,
    scale: u32,
    rounds: u32,
) -> u32
    ensures { result ≤ rounds }
{
    if transform >= 8 || scale == 0 || scale > 4 {
        return 0;
    }
    let mut stores = Stores::new(alloc);
    let turned = Transform::from_number(transform);
    let Some((store, layout)) = filled(&mut stores, byte, format, turned, scale) else {
        return 0;
    };
    let opaque = Region::new(alloc);
    let window = One {
        stores: &stores,
        store,
        layout,
        transform: turned,
        scale: Scale { number: scale },
        opaque: &opaque,
    };
    frames(alloc, &window, rounds)
}

/// A store with a buffer that fills the output, where the surface shows it turned and scaled so.
fn filled(
    stores: &mut Stores<Global>,
    byte: u8,
    format: u32,
    transform: Transform,
    scale: u32,
) -> Option<(StoreNo, Layout)>
    requires { scale ≤ 4 }
{
    let (w, h) = if transform.is_turned() {
        (HEIGHT * scale, WIDTH * scale)
    } else {
        (WIDTH * scale, HEIGHT * scale)
    };
    let size = (4 * w).checked_mul(h)?;
    let layout = layout(size, 0, w as i32, h as i32, 4 * w as i32, format).ok()?;
    let store = stores.create(i32::try_from(size).ok()?).ok()?;
    let row = [byte; 256];
    for piece in 0..size / row.len() as u32 {
        stores.write(store, piece * row.len() as u32, &row).ok()?;
    }
    Some((store, layout))
}

/// Paints the whole output so many times.
fn frames(alloc: Global, window: &One<'_, Global>, rounds: u32) -> u32
    ensures { result ≤ rounds }
{
    let Ok(mut frame) = Framebuffer::new(alloc, WIDTH, HEIGHT, BLACK) else {
        return 0;
    };
    let Ok(mut damage) = Damage::new(alloc, WIDTH, HEIGHT) else {
        return 0;
    };
    damage.add(damage.bounds());
    paint_again(&mut frame, &damage, window, rounds);
    rounds
}

/// Paints what is damaged so many times.
fn paint_again<A: Allocator>(
    frame: &mut Framebuffer<A>,
    damage: &Damage<A>,
    window: &One<'_, A>,
    rounds: u32,
)
    requires wide { damage.now.width ≡ frame.old.width }
    requires high { damage.now.height ≡ frame.old.height }
{
    for _ in 0..rounds {
        frame.paint(damage, window);
    }
}
