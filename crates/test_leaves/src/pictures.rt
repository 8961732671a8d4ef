//! Pictures of buffers that are turned and scaled: which point of the buffer each point of the
//! surface shows. They were worked by hand from the table of transforms (wayland.xml,
//! wl_output.transform and wl_surface.set_buffer_scale).

use std::alloc::Allocator;
use wl_store::{Argb, Layout, Picture, Stores, layout};

/// A row of a surface: for each of its points the column and the row of the buffer's pixel that it
/// shows.
type Row<'a> = &'a [(u8, u8)];

// The pixel in column x and row y of the buffer, which tells where it lies.
fn pixel_of(x: u8, y: u8) -> [u8; 4] {
    [x, y, 7, 255]
}

// Fills a buffer of 7 by `rows` pixels that begins at the byte 4 and has 32 bytes a row.
fn fill<A: Allocator + Copy>(stores: &mut Stores<A>, rows: u8) -> bool {
    for y in 0..rows {
        for x in 0..7_u8 {
            let at = 4 + 32 * u32::from(y) + 4 * u32::from(x);
            if stores.write(1, at, &pixel_of(x, y)).is_err() {
                return false;
            }
        }
    }
    true
}

// Whether the points of row `j` are these, one by one and read at once.
fn has_row(picture: &Picture<'_>, j: u32, row: Row<'_>) -> bool {
    let mut run = [0; 16];
    if row.len() > 4 || row.len() != picture.width() as usize || j >= picture.height() {
        return false;
    }
    picture.read(0, j, &mut run[..4 * row.len()]);
    for k in 0..row.len() {
        let (x, y) = row[k];
        let wanted = Argb {
            a: 255,
            r: 7,
            g: y,
            b: x,
        };
        if &run[4 * k..4 * k + 4] != &pixel_of(x, y)[..] || picture.pixel(k as u32, j) != wanted {
            return false;
        }
    }
    true
}

// Whether the surface has these rows.
fn has_rows(picture: &Picture<'_>, rows: &[Row<'_>]) -> bool {
    if rows.len() != picture.height() as usize {
        return false;
    }
    for j in 0..picture.height() {
        if !has_row(picture, j, rows[j as usize]) {
            return false;
        }
    }
    true
}

/// The buffer of the store 1, and a scale.
#[derive(Drop)]
struct Case<'a, A: Allocator> {
    stores: &'a Stores<A>,
    layout: Layout,
    scale: u32,
}

impl<A: Allocator> Case<'_, A> {
    // Whether the surface has these rows where it is turned so.
    fn shows(&self, transform: u32, rows: &[Row<'_>]) -> bool {
        if transform >= 8 || self.scale == 0 {
            return false;
        }
        match self.stores.picture(1, &self.layout, transform, self.scale) {
            Some(picture) => has_rows(&picture, rows),
            None => false,
        }
    }
}

// A buffer of 7 by 4 pixels at the scale 2: the surface is 3 by 2, or 2 by 3.
fn is_halved<A: Allocator>(case: &Case<'_, A>) -> bool {
    case.shows(0, &[&[(0, 0), (2, 0), (4, 0)], &[(0, 2), (2, 2), (4, 2)]])
        && case.shows(
            1,
            &[&[(0, 2), (0, 0)], &[(2, 2), (2, 0)], &[(4, 2), (4, 0)]],
        )
        && case.shows(2, &[&[(4, 2), (2, 2), (0, 2)], &[(4, 0), (2, 0), (0, 0)]])
        && case.shows(
            3,
            &[&[(4, 0), (4, 2)], &[(2, 0), (2, 2)], &[(0, 0), (0, 2)]],
        )
}

fn is_halved_and_flipped<A: Allocator>(case: &Case<'_, A>) -> bool {
    case.shows(4, &[&[(4, 0), (2, 0), (0, 0)], &[(4, 2), (2, 2), (0, 2)]])
        && case.shows(
            5,
            &[&[(0, 0), (0, 2)], &[(2, 0), (2, 2)], &[(4, 0), (4, 2)]],
        )
        && case.shows(6, &[&[(0, 2), (2, 2), (4, 2)], &[(0, 0), (2, 0), (4, 0)]])
        && case.shows(
            7,
            &[&[(4, 2), (4, 0)], &[(2, 2), (2, 0)], &[(0, 2), (0, 0)]],
        )
}

fn shows_halves<A: Allocator>(stores: &Stores<A>) -> bool {
    let Ok(layout) = layout(132, 4, 7, 4, 32, 0) else {
        return false;
    };
    let case = Case {
        stores,
        layout,
        scale: 2,
    };
    is_halved(&case) && is_halved_and_flipped(&case)
}

#[test]
fn a_buffer_of_7_by_4_at_the_scale_2(rt: HostRuntime) {
    let mut stores = Stores::new(rt.alloc());
    assert!(rt; stores.create(132) == Ok(1) && fill(&mut stores, 4));
    assert!(rt; shows_halves(&stores));
}

// A buffer of 7 by 6 pixels at the scale 3: the surface is 2 by 2.
fn is_a_third<A: Allocator>(case: &Case<'_, A>) -> bool {
    case.shows(0, &[&[(0, 0), (3, 0)], &[(0, 3), (3, 3)]])
        && case.shows(1, &[&[(0, 3), (0, 0)], &[(3, 3), (3, 0)]])
        && case.shows(2, &[&[(3, 3), (0, 3)], &[(3, 0), (0, 0)]])
        && case.shows(3, &[&[(3, 0), (3, 3)], &[(0, 0), (0, 3)]])
}

fn is_a_third_and_flipped<A: Allocator>(case: &Case<'_, A>) -> bool {
    case.shows(4, &[&[(3, 0), (0, 0)], &[(3, 3), (0, 3)]])
        && case.shows(5, &[&[(0, 0), (0, 3)], &[(3, 0), (3, 3)]])
        && case.shows(6, &[&[(0, 3), (3, 3)], &[(0, 0), (3, 0)]])
        && case.shows(7, &[&[(3, 3), (3, 0)], &[(0, 3), (0, 0)]])
}

fn shows_thirds<A: Allocator>(stores: &Stores<A>) -> bool {
    let Ok(layout) = layout(196, 4, 7, 6, 32, 0) else {
        return false;
    };
    let case = Case {
        stores,
        layout,
        scale: 3,
    };
    is_a_third(&case) && is_a_third_and_flipped(&case)
}

#[test]
fn a_buffer_of_7_by_6_at_the_scale_3(rt: HostRuntime) {
    let mut stores = Stores::new(rt.alloc());
    assert!(rt; stores.create(196) == Ok(1) && fill(&mut stores, 6));
    assert!(rt; shows_thirds(&stores));
}

// A buffer that is smaller than its scale shows nothing.
fn shows_nothing<A: Allocator>(stores: &Stores<A>) -> bool {
    let Ok(layout) = layout(132, 4, 7, 4, 32, 0) else {
        return false;
    };
    match stores.picture(1, &layout, 0, 8) {
        Some(picture) => picture.width() == 0 && picture.height() == 0,
        None => false,
    }
}

#[test]
fn a_buffer_smaller_than_its_scale(rt: HostRuntime) {
    let mut stores = Stores::new(rt.alloc());
    assert!(rt; stores.create(132) == Ok(1));
    assert!(rt; shows_nothing(&stores));
}
