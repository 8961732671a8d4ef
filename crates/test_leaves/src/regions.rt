use std::alloc::{Allocator, Global};
use test_support::Refusing;
use wl_geom::{Rect, Region, RegionError};
use wl_paint::FrameError;

const FOUR_BY_FOUR: Rect = Rect {
    x: 0,
    y: 0,
    w: 4,
    h: 4,
};

const HOLE: Rect = Rect {
    x: 1,
    y: 1,
    w: 2,
    h: 2,
};

const FAR: Rect = Rect {
    x: 2_147_483_646,
    y: -2_147_483_648,
    w: 2_147_483_647,
    h: 1,
};

// What is done to a region or asked of it, with what is wanted of it.
#[derive(Clone, Copy)]
enum Row<'a> {
    // A rectangle is added, of this corner and size.
    Adds(i32, i32, i32, i32),
    Subtracts(i32, i32, i32, i32),
    // 512 changes are made.
    Makes512,
    // One more change is refused.
    MakesNoMore,
    Changes(u32),
    HasPoint(i32, i32, bool),
    CoversRun(i32, i32, u32, bool),
    HasRects(&'a [Rect]),
    // How many rectangles it has.
    HasSoMany(usize),
    // A copy is the same, and has the hole.
    IsCopied,
}

fn rect(x: i32, y: i32, w: i32, h: i32) -> Rect {
    Rect { x, y, w, h }
}

fn add<A: Allocator + Copy>(region: &mut Region<A>, rect: Rect) -> Result<(), RegionError> {
    region.add(rect)
}

fn subtract<A: Allocator + Copy>(region: &mut Region<A>, rect: Rect) -> Result<(), RegionError> {
    region.subtract(rect)
}

// Does what a row says, and tells whether it is as wanted.
fn is_met<A: Allocator + Copy>(region: &mut Region<A>, row: &Row) -> bool {
    match *row {
        Row::Adds(x, y, w, h) => add(region, rect(x, y, w, h)) == Ok(()),
        Row::Subtracts(x, y, w, h) => subtract(region, rect(x, y, w, h)) == Ok(()),
        Row::Makes512 => makes_512(region),
        Row::MakesNoMore => makes_no_more(region),
        Row::IsCopied => is_copied(region),
        _ => is_seen(region, row),
    }
}

fn has_rects<A: Allocator + Copy>(region: &Region<A>, wanted: &[Rect]) -> bool {
    match region.rects() {
        Ok(rects) => &rects[..] == wanted,
        Err(_) => false,
    }
}

fn has_so_many<A: Allocator + Copy>(region: &Region<A>, wanted: usize) -> bool {
    match region.rects() {
        Ok(rects) => rects.len() == wanted,
        Err(_) => false,
    }
}

// Whether it is as a row says that does nothing.
fn is_seen<A: Allocator + Copy>(region: &Region<A>, row: &Row) -> bool {
    match *row {
        Row::Changes(wanted) => region.changes() == wanted,
        Row::HasPoint(x, y, wanted) => region.contains(x, y) == wanted,
        Row::CoversRun(x, y, w, wanted) => region.covers_run(x, y, w) == wanted,
        Row::HasRects(wanted) => has_rects(region, wanted),
        Row::HasSoMany(wanted) => has_so_many(region, wanted),
        _ => false,
    }
}

fn are_seen<A: Allocator + Copy>(region: &Region<A>, rows: &[Row]) -> bool {
    for row in rows {
        if !is_seen(region, row) {
            return false;
        }
    }
    true
}

// Whether both count as many changes and hold the same of some points. It takes no memory.
fn same<A: Allocator, B: Allocator>(a: &Region<A>, b: &Region<B>) -> bool {
    for x in -1..6_i32 {
        for y in -1..6_i32 {
            if a.contains(x, y) != b.contains(x, y) {
                return false;
            }
        }
    }
    a.changes() == b.changes() && a.contains(FAR.x, FAR.y) == b.contains(FAR.x, FAR.y)
}

// Four by four points with a hole of two by two.
const WITH_A_HOLE: &[Row] = &[
    Row::Changes(2),
    Row::HasPoint(0, 0, true),
    Row::HasPoint(3, 3, true),
    Row::HasPoint(1, 1, false),
    Row::HasPoint(2, 2, false),
    Row::HasPoint(4, 0, false),
    Row::HasPoint(-1, 0, false),
];

fn is_copied<A: Allocator + Copy>(region: &Region<A>) -> bool {
    match region.copy() {
        Ok(copy) => same(region, &copy) && are_seen(&copy, WITH_A_HOLE),
        Err(_) => false,
    }
}

// Makes 512 changes, adds and subtracts by turns.
fn makes_512<A: Allocator + Copy>(region: &mut Region<A>) -> bool {
    for made in 0..512_u32 {
        let done = if made % 2 == 0 {
            add(region, FOUR_BY_FOUR)
        } else {
            subtract(region, HOLE)
        };
        if done != Ok(()) || region.changes() != made + 1 {
            return false;
        }
    }
    true
}

// Whether one more change is refused, and leaves the region as it was.
fn makes_no_more<A: Allocator + Copy>(region: &mut Region<A>) -> bool {
    match region.copy() {
        Ok(before) => {
            add(region, HOLE) == Err(RegionError::TooMany)
                && subtract(region, FOUR_BY_FOUR) == Err(RegionError::TooMany)
                && same(region, &before)
        }
        Err(_) => false,
    }
}

const A_HOLE: &[Row] = &[
    Row::HasPoint(0, 0, false),
    Row::Adds(0, 0, 4, 4),
    Row::Subtracts(1, 1, 2, 2),
];

// What passes the last coordinate is dropped, and no run that passes it is covered.
const THE_LAST_COLUMN: &[Row] = &[
    Row::Adds(2_147_483_646, -2_147_483_648, 2_147_483_647, 1),
    Row::HasPoint(2_147_483_647, -2_147_483_648, true),
    Row::HasPoint(-2_147_483_648, -2_147_483_648, false),
    Row::HasRects(&[Rect { w: 2, ..FAR }]),
    Row::CoversRun(2_147_483_646, -2_147_483_648, 2, true),
    Row::CoversRun(2_147_483_646, -2_147_483_648, 3, false),
    Row::CoversRun(2_147_483_647, -2_147_483_648, 4_294_967_295, false),
    Row::CoversRun(2_147_483_647, 0, 0, true),
];

// Five rectangles that are 10 wide, with a row between each two. Changes that don't meet them leave
// them whole.
const FIVE: &[Row] = &[
    Row::Adds(0, 0, 10, 1),
    Row::Adds(0, 2, 10, 1),
    Row::Adds(0, 4, 10, 1),
    Row::Adds(0, 6, 10, 1),
    Row::Adds(0, 8, 10, 1),
    Row::HasSoMany(5),
    Row::Subtracts(20, 0, 5, 50),
    Row::HasSoMany(5),
    Row::Subtracts(0, 0, 3, 50),
    Row::HasSoMany(5),
    Row::Adds(-1, 0, 0, 50),
    Row::HasSoMany(5),
    Row::Changes(8),
];

// Two rectangles side by side, and a point of the first that is taken away.
const TWO: &[Row] = &[
    Row::CoversRun(0, 0, 0, true),
    Row::CoversRun(0, 0, 1, false),
    Row::Adds(0, 0, 4, 4),
    Row::Adds(4, 0, 4, 4),
    Row::CoversRun(0, 0, 8, true),
    Row::CoversRun(0, 0, 9, false),
    Row::CoversRun(-1, 0, 8, false),
    Row::Subtracts(3, 1, 1, 1),
    Row::CoversRun(0, 1, 8, false),
    Row::CoversRun(0, 0, 8, true),
    Row::CoversRun(0, 1, 3, true),
    Row::CoversRun(4, 1, 4, true),
];

const CASES: &[(&str, &[&[Row]])] = &[
    (
        "a hole and its copy",
        &[A_HOLE, WITH_A_HOLE, &[Row::IsCopied]],
    ),
    ("the last column", &[THE_LAST_COLUMN]),
    ("rectangles that aren't met stay whole", &[FIVE]),
    (
        "the 513th change is one too many",
        &[&[Row::Makes512, Row::MakesNoMore]],
    ),
    ("runs over two rectangles", &[TWO]),
];

// The part and its row that are the first not to be met.
fn missed(region: &mut Region<Global>, parts: &[&[Row]]) -> Option<(usize, usize)> {
    for (part, rows) in parts.iter().enumerate() {
        for (place, row) in rows.iter().enumerate() {
            if !is_met(region, row) {
                return Some((part, place));
            }
        }
    }
    None
}

fn missed_by(alloc: Global, parts: &[&[Row]]) -> Option<(usize, usize)> {
    let mut region = Region::new(alloc);
    missed(&mut region, parts)
}

// The first row that isn't met, with its case and its part.
fn missed_case(alloc: Global, cases: &[(&str, &[&[Row]])]) -> Option<(usize, (usize, usize))> {
    for (place, &(_, parts)) in cases.iter().enumerate() {
        if let Some(row) = missed_by(alloc, parts) {
            return Some((place, row));
        }
    }
    None
}

#[test]
fn regions_are_as_worked(rt: HostRuntime) {
    assert!(rt; FOUR_BY_FOUR.contains(3, 0) && !FOUR_BY_FOUR.contains(4, 0));
    assert_eq!(rt; missed_case(rt.alloc(), CASES), None);
}

// How many changes are made where each allocation is refused in turn: so many that the room for
// them grows while some are left to make.
const MOST: u32 = 8;

// How many of the changes and a copy are done where so many allocations are served. None where one
// is refused though no allocation was, or for anything but that memory ran out, or where the region
// isn't left as it was.
fn done_before_a_refusal<B: Allocator + Copy>(alloc: B, served: u64) -> Option<u32> {
    let heap = Refusing::new(alloc, served);
    let mut region = Region::new(&heap);
    let mut known = Region::new(alloc);
    changes_and_copies(&mut region, &mut known, &heap)
}

fn changes_and_copies<A: Allocator + Copy, B: Allocator + Copy>(
    region: &mut Region<A>,
    known: &mut Region<B>,
    heap: &Refusing<B>,
) -> Option<u32> {
    let done = change(region, MOST)?;
    if change(known, done)? != done || !same(region, known) || heap.refused() != (done < MOST) {
        return None;
    }
    if done < MOST {
        return Some(done);
    }
    copies(region, known, heap)
}

// One more than the changes where the region is copied, and as many where the memory for it is
// refused.
fn copies<A: Allocator + Copy, B: Allocator>(
    region: &Region<A>,
    known: &Region<B>,
    heap: &Refusing<B>,
) -> Option<u32> {
    let (is_right, done) = match region.copy() {
        Ok(copy) => (same(&copy, known) && !heap.refused(), MOST + 1),
        Err(error) => (
            error == RegionError::Memory && same(region, known) && heap.refused(),
            MOST,
        ),
    };
    if is_right { Some(done) } else { None }
}

// Does the first so many of four adds and four subtracts, up to the first that is refused: how many
// were done.
fn change<A: Allocator + Copy>(region: &mut Region<A>, most: u32) -> Option<u32> {
    for done in 0..most {
        let changed = match done {
            0 => add(region, FOUR_BY_FOUR),
            1..=3 => add(region, FAR),
            _ => subtract(region, HOLE),
        };
        match changed {
            Ok(()) => {}
            Err(RegionError::Memory) => return Some(done),
            Err(RegionError::TooMany) => return None,
        }
    }
    Some(most)
}

// Each allocation is refused in turn, and the refused call leaves the region as it was.
#[test]
fn each_refusal_leaves_a_region_as_it_was(rt: HostRuntime) {
    let mut adds = false;
    let mut subtracts = false;
    let mut copies = false;
    for served in 0..1000_u64 {
        match done_before_a_refusal(rt.alloc(), served) {
            Some(0..=3) => adds = true,
            Some(4..=7) => subtracts = true,
            Some(MOST) => copies = true,
            Some(_) => break,
            None => assert!(rt; false, "{served}"),
        }
    }
    assert!(rt; adds && subtracts && copies);
}

#[test]
fn errors_have_numbers(rt: HostRuntime) {
    assert!(rt; RegionError::TooMany as u8 == 1 && RegionError::Memory as u8 == 2);
    assert!(rt; FrameError::BadSize as u8 == 1 && FrameError::Memory as u8 == 2);
}

// Whether a row of so many points covers a run of as many. It covers none that is a point longer,
// or begins a point before. Without the point in the middle it covers the runs on both sides, and
// not the whole.
fn covers_its_width(region: &mut Region<Global>, w: i32) -> bool {
    let wide = w.unsigned_abs();
    let middle = w / 2;
    add(region, rect(0, 7, w, 1)) == Ok(())
        && region.covers_run(0, 7, wide)
        && !region.covers_run(0, 7, wide.saturating_add(1))
        && !region.covers_run(-1, 7, wide.max(1))
        && !region.covers_run(0, 6, wide.max(1))
        && !region.covers_run(0, 8, wide.max(1))
        && subtract(region, rect(middle, 7, 1, 1)) == Ok(())
        && region.covers_run(0, 7, wide) == (w == 0)
        && region.covers_run(0, 7, middle.unsigned_abs())
        && !region.covers_run(0, 7, middle.unsigned_abs().saturating_add(1))
}

#[test]
fn runs_of_each_width(rt: HostRuntime) {
    for w in [0, 1, 63, 64, 65, 4096] {
        let mut region = Region::new(rt.alloc());
        assert!(rt; covers_its_width(&mut region, w), "{w}");
    }
}
