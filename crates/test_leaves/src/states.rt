use crate::calls::{attach, commit, create, damage, destroy, set_input, set_opaque};
use crate::state_cases::{CASES, NO_SURFACE};
use std::alloc::{Allocator, Global};
use test_support::Refusing;
use wl_geom::{Rect, Region};
use wl_store::Transform;
use wl_surface::{
    Attached, BufferNo, MAX_SURFACES, Offset, Role, SurfaceError, SurfaceNo, SurfaceStates,
    Surfaces,
};

const FOUR_BY_FOUR: Rect = Rect {
    x: 0,
    y: 0,
    w: 4,
    h: 4,
};

fn attaches<A: Allocator + Copy>(
    surfaces: &mut Surfaces<A>,
    surface: SurfaceNo,
    number: BufferNo,
    x: i32,
    y: i32,
) -> bool {
    attach(surfaces, surface, number, x, y);
    true
}

fn detaches<A: Allocator + Copy>(surfaces: &mut Surfaces<A>, x: i32, y: i32) -> bool {
    surfaces.attach(0, None, x, y);
    true
}

// Whether buffer 7 is used so, is busy so, and the surface has content so.
fn reads<A: Allocator>(
    surfaces: &SurfaceStates<A>,
    surface: SurfaceNo,
    is_used: bool,
    is_busy: bool,
    has_content: bool,
) -> bool {
    surfaces.is_used(7) == is_used
        && surfaces.is_busy(7) == is_busy
        && surfaces.has_content(surface) == has_content
}

fn number(buffer: Option<Attached>) -> Option<BufferNo> {
    Some(buffer?.number)
}

fn pending<A: Allocator>(surfaces: &SurfaceStates<A>, surface: SurfaceNo) -> Option<BufferNo> {
    number(surfaces.pending_buffer(surface))
}

// The buffer that is shown, and the surface's size.
fn shown<A: Allocator>(
    surfaces: &SurfaceStates<A>,
    surface: SurfaceNo,
) -> Option<(BufferNo, u32, u32)> {
    let current = surfaces.current(surface)?;
    Some((current.buffer?.number, current.w, current.h))
}

fn is_at<A: Allocator>(surfaces: &SurfaceStates<A>, surface: SurfaceNo, x: i32, y: i32) -> bool {
    match surfaces.current(surface) {
        Some(current) => current.offset == Offset { x, y },
        None => false,
    }
}

fn is_opaque<A: Allocator>(surfaces: &SurfaceStates<A>, x: i32, y: i32) -> bool {
    match surfaces.current(0) {
        Some(current) => current.opaque.contains(x, y),
        None => false,
    }
}

fn takes_input<A: Allocator>(surfaces: &SurfaceStates<A>, x: i32, y: i32) -> bool {
    match surfaces.current(0) {
        Some(current) => match current.input {
            Some(region) => region.contains(x, y),
            None => true,
        },
        None => false,
    }
}

fn has_no_size<A: Allocator>(surfaces: &SurfaceStates<A>) -> bool {
    match surfaces.current(0) {
        Some(current) => current.buffer.is_none() && current.w == 0 && current.h == 0,
        None => false,
    }
}

// Whether the buffers that are pending, held and applied have these numbers.
fn had<A: Allocator>(
    surfaces: &SurfaceStates<A>,
    surface: SurfaceNo,
    first: Option<BufferNo>,
    second: Option<BufferNo>,
    third: Option<BufferNo>,
) -> bool {
    let [pending, held, applied] = surfaces.buffers(surface);
    number(pending) == first && number(held) == second && number(applied) == third
}

// Attaches at this offset, commits, and says whether the surface is at that place then.
fn moves<A: Allocator + Copy>(surfaces: &mut Surfaces<A>, by: (i32, i32), x: i32, y: i32) -> bool {
    attach(surfaces, 0, 7, by.0, by.1);
    commit(surfaces, 0) == Ok(()) && is_at(surfaces.states(), 0, x, y)
}

fn has_form<A: Allocator>(
    surfaces: &SurfaceStates<A>,
    transform: Transform,
    w: u32,
    h: u32,
) -> bool {
    match surfaces.current(0) {
        Some(current) => current.transform == transform && current.w == w && current.h == h,
        None => false,
    }
}

fn sets_both<A: Allocator + Copy>(surfaces: &mut Surfaces<A>, region: Option<&Region<A>>) -> bool {
    set_opaque(surfaces, region) == Ok(()) && set_input(surfaces, region) == Ok(())
}

// Before a commit nothing is opaque, and input is taken everywhere.
fn is_unset<A: Allocator>(surfaces: &SurfaceStates<A>) -> bool {
    !is_opaque(surfaces, 0, 0) && !is_opaque(surfaces, 3, 3) && takes_input(surfaces, 9, 9)
}

fn is_four_by_four<A: Allocator>(surfaces: &SurfaceStates<A>) -> bool {
    is_opaque(surfaces, 3, 3)
        && !is_opaque(surfaces, 4, 3)
        && takes_input(surfaces, 0, 0)
        && !takes_input(surfaces, 9, 9)
}

fn has_counted(surfaces: &mut Surfaces<Global>, region: &mut Region<Global>) -> bool {
    create(surfaces) == Ok(0)
        && region.add(FOUR_BY_FOUR) == Ok(())
        && is_unset(surfaces.states())
        && sets_both(surfaces, Some(region))
        && region.subtract(FOUR_BY_FOUR) == Ok(())
        && is_unset(surfaces.states())
        && commit(surfaces, 0) == Ok(())
        && is_four_by_four(surfaces.states())
        && commit(surfaces, 0) == Ok(())
        && is_four_by_four(surfaces.states())
}

fn creates_256<A: Allocator + Copy>(surfaces: &mut Surfaces<A>) -> bool {
    for number in 0..256_usize {
        if create(surfaces) != Ok(number) {
            return false;
        }
    }
    true
}

/// What is done to surfaces or asked of them, with what is wanted of it.
#[derive(Clone, Copy)]
pub(crate) enum Row {
    /// A surface is made, with this answer.
    Creates(Result<SurfaceNo, SurfaceError>),
    /// 256 surfaces are made.
    Creates256,
    /// A buffer is attached at an offset.
    Attaches(SurfaceNo, BufferNo, i32, i32),
    /// No buffer is attached to the surface 0, at an offset.
    Detaches(i32, i32),
    Commits(SurfaceNo),
    /// A commit of the surface 0 is refused as out of memory.
    CannotCommit,
    Destroys(SurfaceNo),
    /// The surface 0 is damaged.
    Damages,
    /// The surface 0 gets another transform, by its number, with this answer.
    Turns(i32, Result<(), SurfaceError>),
    /// A surface is given a role, with this answer.
    TakesRole(SurfaceNo, Role, Result<(), SurfaceError>),
    /// The surface 0 gets no opaque region.
    UnsetsOpaque,
    /// The surface 0 gets no input region.
    UnsetsInput,
    /// The buffer 7 is attached to the surface 0 at this offset, and a commit moves it to this
    /// place.
    Moves((i32, i32), i32, i32),
    /// Whether the buffer 7 is used and busy, and a surface has content.
    Reads(SurfaceNo, bool, bool, bool),
    IsUsed(BufferNo, bool),
    IsBusy(BufferNo, bool),
    IsPending(SurfaceNo, Option<BufferNo>),
    Shows(SurfaceNo, Option<(BufferNo, u32, u32)>),
    /// The surface 0 shows nothing.
    HasNoSize,
    /// The buffers of a surface that are pending, held and applied.
    Had(SurfaceNo, Option<BufferNo>, Option<BufferNo>, Option<BufferNo>),
    /// The place of the surface 0.
    IsAt(i32, i32),
    /// The transform and the size of the surface 0.
    HasForm(Transform, u32, u32),
    HasRole(SurfaceNo, Option<Role>),
    IsThere(SurfaceNo, bool),
    /// Whether a point of the surface 0 is opaque.
    IsOpaque(i32, i32, bool),
    /// Whether a point of the surface 0 takes input.
    TakesInput(i32, i32, bool),
}

// Does what a row says, and tells whether it is as wanted.
fn is_met<A: Allocator + Copy>(surfaces: &mut Surfaces<A>, row: &Row) -> bool {
    match *row {
        Row::Creates(wanted) => create(surfaces) == wanted,
        Row::Creates256 => creates_256(surfaces),
        Row::Attaches(surface, buffer, x, y) => attaches(surfaces, surface, buffer, x, y),
        Row::Detaches(x, y) => detaches(surfaces, x, y),
        Row::Commits(surface) => commit(surfaces, surface) == Ok(()),
        Row::CannotCommit => commit(surfaces, 0) == Err(SurfaceError::Memory),
        Row::Destroys(surface) => destroy(surfaces, surface) == Ok(()),
        Row::Damages => damage(surfaces, FOUR_BY_FOUR) == Ok(()),
        Row::Turns(number, wanted) => surfaces.set_transform(0, number) == wanted,
        Row::TakesRole(surface, role, wanted) => surfaces.give_role(surface, role) == wanted,
        Row::Moves(by, x, y) => moves(surfaces, by, x, y),
        _ => is_seen(surfaces.states(), row),
    }
}

// Whether it is as a row says that does nothing.
fn is_seen<A: Allocator>(surfaces: &SurfaceStates<A>, row: &Row) -> bool {
    match *row {
        Row::Reads(surface, used, busy, content) => reads(surfaces, surface, used, busy, content),
        Row::IsUsed(buffer, wanted) => surfaces.is_used(buffer) == wanted,
        Row::IsBusy(buffer, wanted) => surfaces.is_busy(buffer) == wanted,
        Row::IsPending(surface, wanted) => pending(surfaces, surface) == wanted,
        Row::Shows(surface, wanted) => shown(surfaces, surface) == wanted,
        Row::HasNoSize => has_no_size(surfaces),
        Row::Had(surface, first, second, third) => had(surfaces, surface, first, second, third),
        Row::IsAt(x, y) => is_at(surfaces, 0, x, y),
        Row::HasForm(transform, w, h) => has_form(surfaces, transform, w, h),
        Row::HasRole(surface, wanted) => surfaces.role(surface) == wanted,
        Row::IsThere(surface, wanted) => surfaces.current(surface).is_some() == wanted,
        Row::IsOpaque(x, y, wanted) => is_opaque(surfaces, x, y) == wanted,
        Row::TakesInput(x, y, wanted) => takes_input(surfaces, x, y) == wanted,
        _ => false,
    }
}

fn are_met<A: Allocator + Copy>(surfaces: &mut Surfaces<A>, rows: &[Row]) -> bool {
    for row in rows {
        if !is_met(surfaces, row) {
            return false;
        }
    }
    true
}

// Does what a row says of no region, or of anything else.
fn is_met_or_unset(surfaces: &mut Surfaces<Global>, row: &Row) -> bool {
    match *row {
        Row::UnsetsOpaque => set_opaque(surfaces, None) == Ok(()),
        Row::UnsetsInput => set_input(surfaces, None) == Ok(()),
        _ => is_met(surfaces, row),
    }
}

fn missed_row(surfaces: &mut Surfaces<Global>, rows: &[Row]) -> Option<usize> {
    for (place, row) in rows.iter().enumerate() {
        if !is_met_or_unset(surfaces, row) {
            return Some(place);
        }
    }
    None
}

// The part and its row that are the first not to be met.
fn missed(surfaces: &mut Surfaces<Global>, parts: &[&[Row]]) -> Option<(usize, usize)> {
    for (part, rows) in parts.iter().enumerate() {
        if let Some(place) = missed_row(surfaces, rows) {
            return Some((part, place));
        }
    }
    None
}

fn missed_by(alloc: Global, parts: &[&[Row]]) -> Option<(usize, usize)> {
    let mut surfaces = Surfaces::new(alloc);
    missed(&mut surfaces, parts)
}

// The first row that isn't met, with its case and its part.
fn missed_case(alloc: Global, cases: &[(&str, &[&[Row]])]) -> Option<(usize, (usize, usize))> {
    for (place, &(_, parts)) in cases.iter().enumerate() {
        if let Some(row) = missed_by(alloc, parts) {
            return Some((place, row));
        }
    }
    None
}

#[test]
fn surfaces_are_as_worked(rt: HostRuntime) {
    assert!(rt; MAX_SURFACES == 256);
    assert_eq!(rt; missed_case(rt.alloc(), CASES), None);
}

// Opaque without a region is nothing from the commit on, and input stays. Input without a region is
// everything from the commit on.
const UNSETS: &[Row] = &[
    Row::UnsetsOpaque,
    Row::IsOpaque(3, 3, true),
    Row::IsOpaque(4, 3, false),
    Row::TakesInput(0, 0, true),
    Row::TakesInput(9, 9, false),
    Row::Commits(0),
    Row::IsOpaque(3, 3, false),
    Row::TakesInput(9, 9, false),
    Row::UnsetsInput,
    Row::TakesInput(9, 9, false),
    Row::Commits(0),
    Row::IsOpaque(0, 0, false),
    Row::IsOpaque(3, 3, false),
    Row::TakesInput(9, 9, true),
    Row::TakesInput(-1, -1, true),
];

// What a region becomes once it was set isn't seen, and a region counts from the commit on.
#[test]
fn regions_count_from_the_commit_on(rt: HostRuntime) {
    let mut surfaces = Surfaces::new(rt.alloc());
    let mut region = Region::new(rt.alloc());
    assert!(rt; has_counted(&mut surfaces, &mut region));
    assert_eq!(rt; missed_row(&mut surfaces, UNSETS), None);
}

// The buffer is attached and nothing is applied.
const NOT_COMMITTED: &[Row] = &[
    Row::Reads(0, true, false, true),
    Row::IsPending(0, Some(7)),
    Row::Shows(0, None),
    Row::IsAt(0, 0),
];

// Nor is it after one more commit that is refused too.
const REFUSED_AGAIN: &[Row] = &[
    Row::CannotCommit,
    Row::Reads(0, true, false, true),
    Row::IsPending(0, Some(7)),
    Row::Shows(0, None),
    Row::IsAt(0, 0),
];

const COMMITTED: &[Row] = &[
    Row::Reads(0, true, true, true),
    Row::IsPending(0, Some(7)),
    Row::Shows(0, Some((7, 5, 8))),
    Row::IsAt(1, 2),
];

// Makes surfaces up to the first that is refused as out of memory: how many were made. None where
// another error comes.
fn made<A: Allocator + Copy>(surfaces: &mut Surfaces<A>) -> Option<SurfaceNo> {
    for number in 0..256_usize {
        match create(surfaces) {
            Ok(made) if made == number => {}
            Err(SurfaceError::Memory) => return Some(number),
            _ => return None,
        }
    }
    None
}

// Whether the next is refused once more, and those that were made, and no other, are there.
fn has_only<A: Allocator + Copy>(surfaces: &mut Surfaces<A>, made: SurfaceNo) -> bool {
    for number in 0..made {
        if surfaces.current(number).is_none() {
            return false;
        }
    }
    create(surfaces) == Err(SurfaceError::Memory) && surfaces.current(made).is_none()
}

// Whether surfaces are made up to a refusal, and those stay.
fn keeps_what_was_made<A: Allocator + Copy, B: Allocator>(
    surfaces: &mut Surfaces<A>,
    heap: &Refusing<B>,
) -> bool {
    match made(surfaces) {
        Some(made) => heap.refused() && has_only(surfaces, made),
        None => false,
    }
}

fn makes_up_to_a_refusal<B: Allocator + Copy>(alloc: B, served: u64) -> bool {
    let heap = Refusing::new(alloc, served);
    let mut surfaces = Surfaces::new(&heap);
    keeps_what_was_made(&mut surfaces, &heap)
}

#[test]
fn a_surface_without_memory_is_not_made(rt: HostRuntime) {
    for served in 0..4_u64 {
        assert!(rt; makes_up_to_a_refusal(rt.alloc(), served), "{served}");
    }
}

// Makes a surface, attaches buffer 7 at (1, 2), damages and commits, up to the first call that is
// refused as out of memory. The answer is how many were done of the three that take memory. It is
// None if a call answers what it can't.
fn done_before_a_refusal<A: Allocator + Copy>(surfaces: &mut Surfaces<A>) -> Option<u32> {
    match create(surfaces) {
        Ok(0) => {}
        Err(SurfaceError::Memory) => return Some(0),
        _ => return None,
    }
    attach(surfaces, 0, 7, 1, 2);
    match damage(surfaces, FOUR_BY_FOUR) {
        Ok(()) => {}
        Err(SurfaceError::Memory) => return Some(1),
        Err(_) => return None,
    }
    match commit(surfaces, 0) {
        Ok(()) => Some(3),
        Err(SurfaceError::Memory) => Some(2),
        Err(_) => None,
    }
}

// How many of the three were done. None where the surfaces aren't what these made of them.
fn leaves<A: Allocator + Copy, B: Allocator>(
    surfaces: &mut Surfaces<A>,
    heap: &Refusing<B>,
) -> Option<u32> {
    let done = done_before_a_refusal(surfaces)?;
    let is_left = match done {
        0 => heap.refused() && are_met(surfaces, NO_SURFACE),
        1 => heap.refused() && are_met(surfaces, NOT_COMMITTED),
        2 => heap.refused() && are_met(surfaces, REFUSED_AGAIN),
        _ => !heap.refused() && are_met(surfaces, COMMITTED),
    };
    if is_left { Some(done) } else { None }
}

fn done_where_served<B: Allocator + Copy>(alloc: B, served: u64) -> Option<u32> {
    let heap = Refusing::new(alloc, served);
    let mut surfaces = Surfaces::new(&heap);
    leaves(&mut surfaces, &heap)
}

// A commit that is refused applies nothing.
#[test]
fn damage_and_commit_without_memory(rt: HostRuntime) {
    let mut damages = false;
    let mut commits = false;
    for served in 0..1000_u64 {
        match done_where_served(rt.alloc(), served) {
            Some(0) => {}
            Some(1) => damages = true,
            Some(2) => commits = true,
            Some(_) => break,
            None => assert!(rt; false, "{served}"),
        }
    }
    assert!(rt; damages && commits);
}

fn damages<A: Allocator + Copy>(surfaces: &mut Surfaces<A>, times: u32) -> bool {
    for _ in 0..times {
        if damage(surfaces, FOUR_BY_FOUR) != Ok(()) {
            return false;
        }
    }
    true
}

fn takes_no_more_memory<A: Allocator + Copy, B: Allocator>(
    surfaces: &mut Surfaces<A>,
    heap: &Refusing<B>,
) -> bool {
    if create(surfaces) != Ok(0) || !damages(surfaces, 1025) {
        return false;
    }
    let served = heap.served();
    damages(surfaces, 9000) && heap.served() == served && commit(surfaces, 0) == Ok(())
}

// More than 1,025 rectangles aren't kept: they take no memory, neither pending nor held.
#[test]
fn damage_without_end(rt: HostRuntime) {
    let heap = Refusing::new(rt.alloc(), 1000);
    let mut surfaces = Surfaces::new(&heap);
    assert!(rt; takes_no_more_memory(&mut surfaces, &heap));
}

// Sets both regions, up to the first that is refused as out of memory: how many were set. None
// where a call answers what it can't.
fn set_both<A: Allocator + Copy>(surfaces: &mut Surfaces<A>, region: &Region<A>) -> Option<u32> {
    match set_opaque(surfaces, Some(region)) {
        Ok(()) => {}
        Err(SurfaceError::Memory) => return Some(0),
        Err(_) => return None,
    }
    match set_input(surfaces, Some(region)) {
        Ok(()) => Some(2),
        Err(SurfaceError::Memory) => Some(1),
        Err(_) => None,
    }
}

// How many regions were set, and 3 where a commit was done after both. None where an allocation was
// refused to both, or none to one.
fn sets_and_commits<A: Allocator + Copy, B: Allocator>(
    surfaces: &mut Surfaces<A>,
    region: &Region<A>,
    heap: &Refusing<B>,
) -> Option<u32> {
    let set = set_both(surfaces, region)?;
    if heap.refused() != (set < 2) {
        return None;
    }
    if set == 2 && commit(surfaces, 0) == Ok(()) {
        Some(3)
    } else {
        Some(set)
    }
}

// 2 where there is no memory for a surface and a region.
fn sets_a_region<A: Allocator + Copy, B: Allocator>(
    surfaces: &mut Surfaces<A>,
    region: &mut Region<A>,
    heap: &Refusing<B>,
) -> Option<u32> {
    if create(surfaces).is_err() || region.add(FOUR_BY_FOUR).is_err() {
        return Some(2);
    }
    let set = sets_and_commits(surfaces, region, heap)?;
    if set < 3 || is_four_by_four(surfaces.states()) {
        Some(set)
    } else {
        None
    }
}

// No region can be set in any case: it takes no memory.
fn set_where_served(alloc: Global, served: u64) -> Option<u32> {
    let heap = Refusing::new(alloc, served);
    let mut surfaces = Surfaces::new(&heap);
    let mut region = Region::new(&heap);
    let set = sets_a_region(&mut surfaces, &mut region, &heap);
    let is_unset = sets_both(&mut surfaces, None);
    if is_unset { set } else { None }
}

// Each allocation is refused in turn, until both regions are set and committed.
#[test]
fn regions_without_memory(rt: HostRuntime) {
    let mut opaques = false;
    let mut inputs = false;
    for served in 0..1000_u64 {
        match set_where_served(rt.alloc(), served) {
            Some(0) => opaques = true,
            Some(1) => inputs = true,
            Some(2) => {}
            Some(_) => break,
            None => assert!(rt; false, "{served}"),
        }
    }
    assert!(rt; opaques && inputs);
}
