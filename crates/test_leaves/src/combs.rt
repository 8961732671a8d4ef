//! A row of which each second column is damaged, below windows that let through what lies below
//! them.
ghost use Rattle.std.specs.Prelude.{◌≡◌};

use crate::two::Two;
use std::alloc::Global;
use wl_blend::Rgb;
use wl_geom::{Rect, Region};
use wl_paint::{Damage, Framebuffer};
use wl_store::{Layout, Stores, layout};

const WHITE: Rgb = Rgb {
    r: 255,
    g: 255,
    b: 255,
};

const HALF_RED: &[u8] = &[0, 0, 128, 128];

// What a column shows: half red lies twice over the columns from 1 to 1,029, and once over 0 and
// 1,030. Columns of even number aren't damaged.
fn wanted(column: usize) -> [u8; 4] {
    if column % 2 == 0 || column > 1030 {
        [255, 255, 255, 255]
    } else {
        [63, 63, 255, 255]
    }
}

fn is_combed(pixels: &[u8]) -> bool {
    if pixels.len() != 4128 {
        return false;
    }
    for k in 0..1032_usize {
        let pixel = &pixels[4 * k..4 * k + 4];
        let wanted = wanted(k);
        if pixel != &wanted[..] {
            return false;
        }
    }
    true
}

// Each second column is damaged.
fn comb(damage: &mut Damage<Global>)
    ensures width { damage.new.width ≡ damage.old.width }
    ensures height { damage.new.height ≡ damage.old.height }
{
    for k in 0..516_u16 {
        damage.add(Rect {
            x: i32::from(2 * k + 1),
            y: 0,
            w: 1,
            h: 1,
        });
    }
}

fn paints_comb(frame: &mut Framebuffer<Global>, alloc: Global, windows: &Two<Global>) -> bool
    requires wide { frame.old.width ≡ 1032 }
    requires high { frame.old.height ≡ 1 }
{
    match Damage::new(alloc, 1032, 1) {
        Ok(mut damage) => {
            comb(&mut damage);
            frame.paint(&damage, windows);
            damage.count() == 516 && is_combed(frame.pixels())
        }
        Err(_) => false,
    }
}

fn is_comb_painted(alloc: Global, windows: &Two<Global>) -> bool {
    match Framebuffer::new(alloc, 1032, 1, WHITE) {
        Ok(mut frame) => paints_comb(&mut frame, alloc, windows),
        Err(_) => false,
    }
}

fn shows_comb(alloc: Global, stores: &Stores<Global>, layout: Layout) -> bool {
    let opaque = Region::new(alloc);
    let windows = Two {
        stores,
        store: 1,
        lower: layout,
        upper: layout,
        opaque: &opaque,
    };
    is_comb_painted(alloc, &windows)
}

fn is_half_red(stores: &mut Stores<Global>) -> bool {
    for k in 0..1030_u32 {
        if stores.write(1, 4 * k, HALF_RED) != Ok(()) {
            return false;
        }
    }
    true
}

fn lends_comb(alloc: Global, stores: &mut Stores<Global>) -> bool {
    match layout(4120, 0, 1030, 1, 4120, 0) {
        Ok(layout) => {
            stores.create(4120) == Ok(1) && is_half_red(stores) && shows_comb(alloc, stores, layout)
        }
        Err(_) => false,
    }
}

#[test]
fn odd_columns(rt: HostRuntime) {
    let mut stores = Stores::new(rt.alloc());
    assert!(rt; lends_comb(rt.alloc(), &mut stores));
}
