ghost use Rattle.std.specs.Prelude.{◌≡◌};

use crate::two::Two;
use std::alloc::Global;
use wl_blend::Rgb;
use wl_geom::{Rect, Region};
use wl_paint::{Damage, Framebuffer};
use wl_store::{Layout, Stores, layout};

const WHITE: Rgb = Rgb {
    r: 255,
    g: 255,
    b: 255,
};

/// Two green pixels whose fourth byte means nothing, and two of half red.
const BYTES: &[u8] = &[0, 255, 0, 7, 0, 255, 0, 7, 0, 0, 128, 128, 0, 0, 128, 128];

fn row(x: i32, w: i32) -> Rect {
    Rect { x, y: 0, w, h: 1 }
}

// Whether the image is this once what is damaged was painted.
fn paints(
    frame: &mut Framebuffer<Global>,
    damage: &Damage<Global>,
    windows: &Two<Global>,
    wanted: &[u8],
) -> bool
    requires wide { damage.now.width ≡ frame.old.width }
    requires high { damage.now.height ≡ frame.old.height }
    ensures width { frame.new.width ≡ frame.old.width }
    ensures height { frame.new.height ≡ frame.old.height }
{
    frame.paint(damage, windows);
    frame.pixels() == wanted
}

fn paints_in_turn(
    frame: &mut Framebuffer<Global>,
    damage: &mut Damage<Global>,
    windows: &Two<Global>,
) -> bool
    requires wide { damage.old.width ≡ frame.old.width }
    requires high { damage.old.height ≡ frame.old.height }
{
    let none = paints(frame, damage, windows, &[255; 12]);
    damage.add(row(-4, 6));
    let part: &[u8] = &[0, 255, 0, 255, 0, 127, 128, 255, 255, 255, 255, 255];
    let some = paints(frame, damage, windows, part);
    damage.add(row(2, 1));
    let whole: &[u8] = &[0, 255, 0, 255, 0, 127, 128, 255, 127, 127, 255, 255];
    none && some && paints(frame, damage, windows, whole)
}

fn paints_three(frame: &mut Framebuffer<Global>, alloc: Global, windows: &Two<Global>) -> bool
    requires wide { frame.old.width ≡ 3 }
    requires high { frame.old.height ≡ 1 }
{
    match Damage::new(alloc, 3, 1) {
        Ok(mut damage) => paints_in_turn(frame, &mut damage, windows),
        Err(_) => false,
    }
}

fn is_painted(alloc: Global, windows: &Two<Global>) -> bool {
    match Framebuffer::new(alloc, 3, 1, WHITE) {
        Ok(mut frame) => paints_three(&mut frame, alloc, windows),
        Err(_) => false,
    }
}

fn shows_two(alloc: Global, stores: &Stores<Global>, lower: Layout, upper: Layout) -> bool {
    let opaque = Region::new(alloc);
    let windows = Two {
        stores,
        store: 1,
        lower,
        upper,
        opaque: &opaque,
    };
    is_painted(alloc, &windows)
}

fn lends_two(alloc: Global, stores: &mut Stores<Global>) -> bool {
    if stores.create(16) != Ok(1) || stores.write(1, 0, BYTES) != Ok(()) {
        return false;
    }
    match (layout(16, 0, 2, 1, 8, 1), layout(16, 8, 2, 1, 8, 0)) {
        (Ok(lower), Ok(upper)) => shows_two(alloc, stores, lower, upper),
        _ => false,
    }
}

// Green lies at columns 0 and 1, half red over it at columns 1 and 2. What isn't damaged stays.
#[test]
fn two_windows(rt: HostRuntime) {
    let mut stores = Stores::new(rt.alloc());
    assert!(rt; lends_two(rt.alloc(), &mut stores));
}

// Whether 1,031 pixels are black, and the last of 1,032 is white.
fn is_long_row(pixels: &[u8]) -> bool {
    if pixels.len() != 4128 {
        return false;
    }
    for k in 0..1032_usize {
        let value = if k < 1031 { 0 } else { 255 };
        if pixels[4 * k] != value || pixels[4 * k + 3] != 255 {
            return false;
        }
    }
    true
}

fn paints_long_row(frame: &mut Framebuffer<Global>, alloc: Global, windows: &Two<Global>) -> bool
    requires wide { frame.old.width ≡ 1032 }
    requires high { frame.old.height ≡ 1 }
{
    match Damage::new(alloc, 1032, 1) {
        Ok(mut damage) => {
            damage.add(row(0, 1032));
            frame.paint(&damage, windows);
            is_long_row(frame.pixels())
        }
        Err(_) => false,
    }
}

fn is_long_row_painted(alloc: Global, windows: &Two<Global>) -> bool {
    match Framebuffer::new(alloc, 1032, 1, WHITE) {
        Ok(mut frame) => paints_long_row(&mut frame, alloc, windows),
        Err(_) => false,
    }
}

fn shows_long_row(alloc: Global, stores: &Stores<Global>, layout: Layout) -> bool {
    let opaque = Region::new(alloc);
    let windows = Two {
        stores,
        store: 1,
        lower: layout,
        upper: layout,
        opaque: &opaque,
    };
    is_long_row_painted(alloc, &windows)
}

fn lends_long_row(alloc: Global, stores: &mut Stores<Global>) -> bool {
    match layout(4120, 0, 1030, 1, 4120, 1) {
        Ok(layout) => stores.create(4120) == Ok(1) && shows_long_row(alloc, stores, layout),
        Err(_) => false,
    }
}

// A row of black in more pixels than are painted at a time, from its second column on twice.
#[test]
fn a_long_row(rt: HostRuntime) {
    let mut stores = Stores::new(rt.alloc());
    assert!(rt; lends_long_row(rt.alloc(), &mut stores));
}

/// Eight green pixels; and four blue ones and four of half red.
const PARTS: &[u8] = &[
    0, 255, 0, 7, 0, 255, 0, 7, 0, 255, 0, 7, 0, 255, 0, 7, 0, 255, 0, 7, 0, 255, 0, 7, 0, 255, 0,
    7, 0, 255, 0, 7, 255, 0, 0, 255, 255, 0, 0, 255, 255, 0, 0, 255, 255, 0, 0, 255, 0, 0, 128,
    128, 0, 0, 128, 128, 0, 0, 128, 128, 0, 0, 128, 128,
];

/// The blue ones from the second column on, with nothing else painted.
const BLUE_PAINTED: &[u8] = &[
    255, 255, 255, 255, 255, 0, 0, 255, 255, 0, 0, 255, 255, 0, 0, 255, 255, 0, 0, 255, 255, 255,
    255, 255, 255, 255, 255, 255, 255, 255, 255, 255, 255, 255, 255, 255,
];

/// Green before them, and half red over green, and over white in the last column.
const ALL_PAINTED: &[u8] = &[
    0, 255, 0, 255, 255, 0, 0, 255, 255, 0, 0, 255, 255, 0, 0, 255, 255, 0, 0, 255, 0, 127, 128,
    255, 0, 127, 128, 255, 0, 127, 128, 255, 127, 127, 255, 255,
];

/// What is said to be opaque: rows of points that are added, by their first columns and widths, and
/// one that is taken out.
type Part<'a> = (&'a [(i32, i32)], (i32, i32));

/// None of it, all that is blue or a part of that, in one rectangle or in two, within the window or
/// beyond it.
const OPAQUE_PARTS: &[Part] = &[
    (&[], (0, 0)),
    (&[(0, 4)], (0, 0)),
    (&[(0, 2), (2, 2)], (0, 0)),
    (&[(0, 8)], (4, 4)),
    (&[(1, 2)], (0, 0)),
    (&[(-3, 7)], (0, 0)),
    (&[(-3, 20)], (4, 16)),
];

fn paints_parts(
    frame: &mut Framebuffer<Global>,
    damage: &mut Damage<Global>,
    windows: &Two<Global>,
) -> bool
    requires wide { damage.old.width ≡ frame.old.width }
    requires high { damage.old.height ≡ frame.old.height }
{
    damage.add(row(1, 4));
    let is_blue = paints(frame, damage, windows, BLUE_PAINTED);
    damage.add(row(0, 9));
    is_blue && paints(frame, damage, windows, ALL_PAINTED)
}

fn paints_nine(frame: &mut Framebuffer<Global>, alloc: Global, windows: &Two<Global>) -> bool
    requires wide { frame.old.width ≡ 9 }
    requires high { frame.old.height ≡ 1 }
{
    match Damage::new(alloc, 9, 1) {
        Ok(mut damage) => paints_parts(frame, &mut damage, windows),
        Err(_) => false,
    }
}

fn are_parts_painted(alloc: Global, windows: &Two<Global>) -> bool {
    match Framebuffer::new(alloc, 9, 1, WHITE) {
        Ok(mut frame) => paints_nine(&mut frame, alloc, windows),
        Err(_) => false,
    }
}

// Whether the region is this. It was empty.
fn adds(region: &mut Region<Global>, part: &Part) -> bool {
    let (rows, (x, w)) = *part;
    for &(x, w) in rows {
        if region.add(row(x, w)).is_err() {
            return false;
        }
    }
    region.subtract(row(x, w)).is_ok()
}

// The first part with which something else is painted.
fn first_painted_otherwise(
    alloc: Global,
    stores: &Stores<Global>,
    lower: Layout,
    upper: Layout,
) -> Option<usize> {
    for (place, part) in OPAQUE_PARTS.iter().enumerate() {
        let mut opaque = Region::new(alloc);
        let is_added = adds(&mut opaque, part);
        let windows = Two {
            stores,
            store: 1,
            lower,
            upper,
            opaque: &opaque,
        };
        if !is_added || !are_parts_painted(alloc, &windows) {
            return Some(place);
        }
    }
    None
}

fn lends_parts(alloc: Global, stores: &mut Stores<Global>) -> bool {
    if stores.create(64) != Ok(1) || stores.write(1, 0, PARTS) != Ok(()) {
        return false;
    }
    match (layout(64, 0, 8, 1, 32, 1), layout(64, 32, 8, 1, 32, 0)) {
        (Ok(lower), Ok(upper)) => first_painted_otherwise(alloc, stores, lower, upper).is_none(),
        _ => false,
    }
}

// A window that is opaque in part, as its opaque region says, is painted as it is.
#[test]
fn a_window_opaque_in_part(rt: HostRuntime) {
    let mut stores = Stores::new(rt.alloc());
    assert!(rt; lends_parts(rt.alloc(), &mut stores));
}
