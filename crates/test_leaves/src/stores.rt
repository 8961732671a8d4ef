use std::alloc::{Allocator, Global};
use test_support::Refusing;
use wl_store::{Argb, Format, Layout, LayoutError, StoreError, Stores, layout};

/// What is done to stores or asked of them, with what is wanted of it.
#[derive(Clone, Copy)]
enum Row<'a> {
    /// A store of so many bytes is made.
    Creates(i32, Result<u32, StoreError>),
    /// 64 stores are made.
    Creates64,
    /// Bytes are written into a store from a place on.
    Writes(u32, u32, &'a [u8], Result<(), StoreError>),
    Resizes(u32, i32, Result<(), StoreError>),
    /// One more use of a store.
    Uses(u32, bool),
    LetsGo(u32, bool),
    HasSize(u32, Option<u32>),
    /// The bytes of the store 1.
    Holds(&'a [u8]),
}

fn create<A: Allocator + Copy>(stores: &mut Stores<A>, size: i32) -> Result<u32, StoreError> {
    stores.create(size)
}

fn write<A: Allocator + Copy>(
    stores: &mut Stores<A>,
    store: u32,
    at: u32,
    bytes: &[u8],
) -> Result<(), StoreError> {
    stores.write(store, at, bytes)
}

fn resize<A: Allocator + Copy>(
    stores: &mut Stores<A>,
    store: u32,
    size: i32,
) -> Result<(), StoreError> {
    stores.resize(store, size)
}

// Does what a row says, and tells whether it is as wanted.
fn is_met<A: Allocator + Copy>(stores: &mut Stores<A>, row: &Row) -> bool {
    match *row {
        Row::Creates(size, wanted) => create(stores, size) == wanted,
        Row::Creates64 => creates_64(stores),
        Row::Writes(store, at, bytes, wanted) => write(stores, store, at, bytes) == wanted,
        Row::Resizes(store, size, wanted) => resize(stores, store, size) == wanted,
        Row::Uses(store, wanted) => stores.hold(store) == wanted,
        Row::LetsGo(store, wanted) => stores.let_go(store) == wanted,
        Row::HasSize(store, wanted) => stores.size(store) == wanted,
        Row::Holds(wanted) => holds(stores, wanted),
    }
}

// The first row that isn't met.
fn missed<A: Allocator + Copy>(stores: &mut Stores<A>, rows: &[Row]) -> Option<usize> {
    for (place, row) in rows.iter().enumerate() {
        if !is_met(stores, row) {
            return Some(place);
        }
    }
    None
}

fn missed_by<A: Allocator + Copy>(alloc: A, rows: &[Row]) -> Option<usize> {
    let mut stores = Stores::new(alloc);
    missed(&mut stores, rows)
}

// A store of 16 bytes, what is written into it and past it, and how it grows.
const FROM_ITS_MAKING_ON: &[Row] = &[
    Row::Creates(268_435_457, Err(StoreError::TooLarge)),
    Row::Creates(0, Err(StoreError::BadSize)),
    Row::Creates(-1, Err(StoreError::BadSize)),
    Row::Creates(16, Ok(1)),
    Row::Writes(1, 12, &[1, 2, 3, 4], Ok(())),
    Row::Writes(1, 13, &[1, 2, 3, 4], Err(StoreError::OutOfRange)),
    Row::Writes(1, 16, &[], Ok(())),
    Row::Writes(1, 17, &[], Err(StoreError::OutOfRange)),
    Row::Writes(2, 0, &[], Err(StoreError::NoStore)),
    Row::Resizes(1, 8, Err(StoreError::Shrinks)),
    Row::Resizes(1, -8, Err(StoreError::Shrinks)),
    Row::Resizes(2, 8, Err(StoreError::NoStore)),
    Row::Resizes(1, 268_435_457, Err(StoreError::TooLarge)),
    Row::Resizes(1, 32, Ok(())),
    Row::Resizes(1, 32, Ok(())),
    Row::HasSize(1, Some(32)),
    Row::Holds(&[
        0, 0, 0, 0, 0, 0, 0, 0, 0, 0, 0, 0, 1, 2, 3, 4, 0, 0, 0, 0, 0, 0, 0, 0, 0, 0, 0, 0, 0, 0,
        0, 0,
    ]),
];

// The pool's own use and two of buffers; the number isn't used again.
const LAST_USE: &[Row] = &[
    Row::Creates(4, Ok(1)),
    Row::Uses(1, true),
    Row::Uses(1, true),
    Row::LetsGo(1, true),
    Row::LetsGo(1, true),
    Row::HasSize(1, Some(4)),
    Row::LetsGo(1, true),
    Row::HasSize(1, None),
    Row::LetsGo(1, false),
    Row::Uses(1, false),
    Row::Creates(4, Ok(2)),
];

// Too many comes before too large.
const STORE_65: &[Row] = &[
    Row::Creates64,
    Row::Creates(268_435_456, Err(StoreError::TooMany)),
    Row::Creates(0, Err(StoreError::TooMany)),
    Row::LetsGo(40, true),
    Row::Creates(268_435_456, Err(StoreError::TooLarge)),
    Row::Creates(1, Ok(65)),
];

const CASES: &[(&str, &[Row])] = &[
    ("a store from its making on", FROM_ITS_MAKING_ON),
    ("a store goes with its last use", LAST_USE),
    ("the limit on all stores", STORE_65),
];

// The case and its row that are the first not to be met.
fn missed_case(alloc: Global, cases: &[(&str, &[Row])]) -> Option<(usize, usize)> {
    for (place, &(_, rows)) in cases.iter().enumerate() {
        if let Some(row) = missed_by(alloc, rows) {
            return Some((place, row));
        }
    }
    None
}

#[test]
fn stores_are_as_worked(rt: HostRuntime) {
    assert_eq!(rt; missed_case(rt.alloc(), CASES), None);
}

// A size that the limit allows meets the refusal of its memory, and one byte more the limit.
const LIMIT: &[Row] = &[
    Row::Creates(268_435_456, Err(StoreError::Memory)),
    Row::Creates(268_435_457, Err(StoreError::TooLarge)),
];

// The first store takes room for its bytes, zeros to lend, and a place in the list.
const LIMIT_BESIDE_A_STORE: &[Row] = &[
    Row::Creates(16, Ok(1)),
    Row::Creates(268_435_440, Err(StoreError::Memory)),
    Row::Creates(268_435_441, Err(StoreError::TooLarge)),
    Row::Resizes(1, 268_435_456, Err(StoreError::Memory)),
    Row::Resizes(1, 268_435_457, Err(StoreError::TooLarge)),
    Row::HasSize(1, Some(16)),
];

// The first row that isn't met where so many allocations are served.
fn missed_where_served(alloc: Global, served: u64, rows: &[Row]) -> Option<usize> {
    let heap = Refusing::new(alloc, served);
    missed_by(&heap, rows)
}

#[test]
fn the_limit_on_all_bytes(rt: HostRuntime) {
    assert_eq!(rt; missed_where_served(rt.alloc(), 0, LIMIT), None);
    assert_eq!(rt;
        missed_where_served(rt.alloc(), 3, LIMIT_BESIDE_A_STORE),
        None
    );
}

fn holds<A: Allocator>(stores: &Stores<A>, wanted: &[u8]) -> bool {
    match stores.bytes(1) {
        Some(held) => held == wanted,
        None => false,
    }
}

fn creates_64<A: Allocator + Copy>(stores: &mut Stores<A>) -> bool {
    for number in 1..65_u32 {
        if create(stores, 1) != Ok(number) {
            return false;
        }
    }
    true
}

// Whether a store of 6400 bytes has room for 40 by 40 pixels.
fn has_room_for_40_by_40() -> bool {
    match layout(6400, 0, 40, 40, 160, 1) {
        Ok(made) => {
            made.offset == 0
                && made.w == 40
                && made.h == 40
                && made.stride == 160
                && made.format == Format::Xrgb8888
        }
        Err(_) => false,
    }
}

// What a layout is asked for with, and why it is refused.
const LAYOUTS: &[(u32, i32, i32, i32, i32, u32, LayoutError)] = &[
    (6399, 0, 40, 40, 160, 1, LayoutError::Stride),
    (6400, -1, 40, 40, 160, 1, LayoutError::Stride),
    (6400, 0, 0, 40, 160, 1, LayoutError::Stride),
    (6400, 0, 40, 0, 160, 1, LayoutError::Stride),
    (6400, 0, 40, 40, 159, 0, LayoutError::Stride),
    (
        4_294_967_295,
        2_147_483_647,
        1,
        2_147_483_647,
        4,
        0,
        LayoutError::Stride,
    ),
    (6399, 0, 40, 40, 160, 2, LayoutError::Format),
];

fn refuses_layouts() -> bool {
    for &(size, offset, w, h, stride, format, wanted) in LAYOUTS {
        match layout(size, offset, w, h, stride, format) {
            Err(error) if error == wanted => {}
            _ => return false,
        }
    }
    true
}

#[test]
fn layouts(rt: HostRuntime) {
    assert!(rt; has_room_for_40_by_40() && refuses_layouts());
}

const OPAQUE: Argb = Argb {
    a: 255,
    r: 3,
    g: 2,
    b: 1,
};

// Whether the picture of store 1 has this pixel at (i, j).
fn shows<A: Allocator>(
    stores: &Stores<A>,
    layout: &Layout,
    transform: u32,
    i: u32,
    j: u32,
    pixel: Argb,
) -> bool {
    if transform >= 8 {
        return false;
    }
    match stores.picture(1, layout, transform, 1) {
        Some(picture) => {
            i < picture.width() && j < picture.height() && picture.pixel(i, j) == pixel
        }
        None => false,
    }
}

// Whether the first pixel of the buffer is shown where each transform's number puts it.
fn is_turned<A: Allocator>(stores: &Stores<A>, xrgb: &Layout) -> bool {
    shows(stores, xrgb, 0, 0, 0, OPAQUE)
        && shows(stores, xrgb, 1, 1, 0, OPAQUE)
        && shows(stores, xrgb, 2, 1, 1, OPAQUE)
        && shows(stores, xrgb, 3, 0, 1, OPAQUE)
        && shows(stores, xrgb, 4, 1, 0, OPAQUE)
        && shows(stores, xrgb, 5, 0, 0, OPAQUE)
        && shows(stores, xrgb, 6, 0, 1, OPAQUE)
        && shows(stores, xrgb, 7, 1, 1, OPAQUE)
}

fn is_opaque_or_not<A: Allocator>(stores: &Stores<A>) -> bool {
    match (layout(64, 0, 2, 2, 8, 1), layout(64, 0, 2, 2, 8, 0)) {
        (Ok(xrgb), Ok(argb)) => {
            is_turned(stores, &xrgb) && shows(stores, &argb, 1, 1, 0, Argb { a: 4, ..OPAQUE })
        }
        _ => false,
    }
}

#[test]
fn a_picture_of_a_store_of_64_bytes(rt: HostRuntime) {
    let mut stores = Stores::new(rt.alloc());
    assert!(rt; create(&mut stores, 64) == Ok(1));
    assert!(rt; write(&mut stores, 1, 0, &[1, 2, 3, 4]) == Ok(()) && is_opaque_or_not(&stores));
}

// Whether the second row of 3 pixels is this one.
fn is_second_row<A: Allocator>(stores: &Stores<A>, layout: &Layout, wanted: &[u8]) -> bool {
    match stores.picture(1, layout, 0, 1) {
        Some(picture) => 1 < layout.h && picture.row(1) == wanted,
        None => false,
    }
}

// A picture shows the bytes of the moment, and lends the rows of the buffer.
fn lends<A: Allocator + Copy>(stores: &mut Stores<A>, wide: &Layout) -> bool {
    is_second_row(stores, wide, &[0; 12])
        && write(
            stores,
            1,
            19,
            &[1, 2, 3, 4, 5, 6, 7, 8, 9, 10, 11, 12, 13, 14],
        ) == Ok(())
        && is_second_row(stores, wide, &[2, 3, 4, 5, 6, 7, 8, 9, 10, 11, 12, 13])
}

fn is_3_by_2_turned<A: Allocator>(stores: &Stores<A>, wide: &Layout) -> bool {
    match stores.picture(1, wide, 3, 1) {
        Some(picture) => {
            picture.width() == 2 && picture.height() == 3 && stores.picture(2, wide, 3, 1).is_none()
        }
        None => false,
    }
}

fn lends_3_by_2<A: Allocator + Copy>(stores: &mut Stores<A>) -> bool {
    match layout(64, 4, 3, 2, 16, 0) {
        Ok(wide) => lends(stores, &wide) && is_3_by_2_turned(stores, &wide),
        Err(_) => false,
    }
}

// Whether a layout of 68 bytes doesn't fit into store 1.
fn is_too_long<A: Allocator>(stores: &Stores<A>) -> bool {
    match layout(68, 4, 3, 4, 16, 0) {
        Ok(long) => stores.picture(1, &long, 0, 1).is_none(),
        Err(_) => false,
    }
}

#[test]
fn a_picture_lends(rt: HostRuntime) {
    let mut stores = Stores::new(rt.alloc());
    assert!(rt; create(&mut stores, 64) == Ok(1));
    assert!(rt; lends_3_by_2(&mut stores) && is_too_long(&stores));
}

// Two creates, a write and a resize, up to the first that is refused as out of memory: how many
// stores there are then, and 3 where none was refused. None where another error came or the stores
// aren't what the calls that were done made of them.
fn done_before_a_refusal<A: Allocator + Copy>(stores: &mut Stores<A>) -> Option<u32> {
    match create(stores, 16) {
        Ok(1) => {}
        Err(StoreError::Memory) if stores.size(1).is_none() => return Some(0),
        _ => return None,
    }
    match create(stores, 8) {
        Ok(2) => {}
        Err(StoreError::Memory) if stores.size(2).is_none() => return Some(1),
        _ => return None,
    }
    if write(stores, 1, 15, &[7]) != Ok(()) {
        return None;
    }
    match resize(stores, 1, 64) {
        Ok(()) if stores.size(1) == Some(64) => Some(3),
        Err(StoreError::Memory) if stores.size(1) == Some(16) => Some(2),
        _ => None,
    }
}

// Whether the two stores are as they were made and written.
fn has_both<A: Allocator>(stores: &Stores<A>) -> bool {
    match stores.bytes(1) {
        Some(held) => held.get(15).copied() == Some(7) && stores.size(2) == Some(8),
        None => false,
    }
}

// How many stores there are. None where these aren't as they were.
fn leaves<A: Allocator + Copy, B: Allocator>(
    stores: &mut Stores<A>,
    heap: &Refusing<B>,
) -> Option<u32> {
    let done = done_before_a_refusal(stores)?;
    if heap.refused() == (done < 3) && (done < 2 || has_both(stores)) {
        Some(done)
    } else {
        None
    }
}

fn done_where_served<B: Allocator + Copy>(alloc: B, served: u64) -> Option<u32> {
    let heap = Refusing::new(alloc, served);
    let mut stores = Stores::new(&heap);
    leaves(&mut stores, &heap)
}

// Each allocation is refused in turn, and the refused call leaves the stores as they were.
#[test]
fn each_refusal_leaves_the_stores_as_they_were(rt: HostRuntime) {
    let mut creates = false;
    let mut resizes = false;
    for served in 0..1000_u64 {
        match done_where_served(rt.alloc(), served) {
            Some(0 | 1) => creates = true,
            Some(2) => resizes = true,
            Some(_) => break,
            None => assert!(rt; false, "{served}"),
        }
    }
    assert!(rt; creates && resizes);
}
