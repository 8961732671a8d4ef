//! Ids that rise, and the wl_subsurfaces of surfaces, with each allocation refused in turn, alone:
//! nothing changes then, and the same call succeeds after it.

ghost use Rattle.std.specs.List.Sorted.{IsStrictlyIncreasing};

use std::alloc::{Allocator, Global};
use test_support::Refusing;
use wl_links::Subsurfaces;
use wl_table::put_rising;

/// More allocations than any of these takes.
const MANY: u64 = 100;

/// Puts an id among others, and again where that is refused memory. False where something else is
/// left.
fn puts<A: Allocator>(ids: &mut Vec<u32, A>, id: u32, refused: &mut u32) -> bool
    requires { IsStrictlyIncreasing ids.old.items }
    ensures { IsStrictlyIncreasing ids.new.items }
{
    let before = ids.len();
    match put_rising(ids, id) {
        Ok(()) => true,
        Err(_) => {
            *refused = refused.saturating_add(1);
            ids.len() == before && put_rising(ids, id).is_ok()
        }
    }
}

/// The ids rise, and each is there once.
fn puts_all<A: Allocator>(ids: &mut Vec<u32, A>, refused: &mut u32) -> bool
    requires { IsStrictlyIncreasing ids.old.items }
{
    puts(ids, 9, refused)
        && puts(ids, 4, refused)
        && puts(ids, 7, refused)
        && puts(ids, 4, refused)
        && puts(ids, 12, refused)
        && puts(ids, 1, refused)
        && ids.as_slice() == [1, 4, 7, 9, 12].as_slice()
}

/// Whether an allocation was refused, and the call that it was for. None where something is
/// otherwise.
fn puts_with(alloc: Global, served: u64) -> Option<bool> {
    let heap = Refusing::once(alloc, served);
    let mut refused = 0u32;
    let mut ids = Vec::new(&heap);
    if puts_all(&mut ids, &mut refused) && refused == u32::from(heap.refused()) {
        Some(heap.refused())
    } else {
        None
    }
}

/// Makes a wl_subsurface of a surface, and again where that is refused memory. False where
/// something else is left.
fn sets<A: Allocator>(
    subsurfaces: &mut Subsurfaces<A>,
    surface: usize,
    id: u32,
    refused: &mut u32,
) -> bool {
    let before = subsurfaces.get(surface);
    match subsurfaces.set(surface, id) {
        Ok(()) => true,
        Err(_) => {
            *refused = refused.saturating_add(1);
            subsurfaces.get(surface) == before && subsurfaces.set(surface, id).is_ok()
        }
    }
}

/// Each is that of its surface, and the one whose place was taken is gone.
fn sets_all<A: Allocator>(subsurfaces: &mut Subsurfaces<A>, refused: &mut u32) -> bool {
    sets(subsurfaces, 3, 40, refused)
        && sets(subsurfaces, 0, 41, refused)
        && sets(subsurfaces, 90, 42, refused)
        && sets(subsurfaces, 3, 43, refused)
        && subsurfaces.surface_of(41) == Some(0)
        && subsurfaces.surface_of(43) == Some(3)
        && subsurfaces.surface_of(42) == Some(90)
        && subsurfaces.surface_of(40).is_none()
        && subsurfaces.get(1).is_none()
}

fn sets_with(alloc: Global, served: u64) -> Option<bool> {
    let heap = Refusing::once(alloc, served);
    let mut refused = 0u32;
    let mut subsurfaces = Subsurfaces::new(&heap);
    if sets_all(&mut subsurfaces, &mut refused) && refused == u32::from(heap.refused()) {
        Some(heap.refused())
    } else {
        None
    }
}

/// How many allocations were refused, one in each of as many lists. None where something was
/// otherwise.
fn refused_puts(alloc: Global) -> Option<u64> {
    for served in 0..MANY {
        if !puts_with(alloc, served)? {
            return Some(served);
        }
    }
    None
}

fn refused_sets(alloc: Global) -> Option<u64> {
    for served in 0..MANY {
        if !sets_with(alloc, served)? {
            return Some(served);
        }
    }
    None
}

#[test]
fn an_id_that_finds_no_memory_is_not_put(rt: HostRuntime) {
    match refused_puts(rt.alloc()) {
        Some(refused) => assert!(rt; refused > 0, "{refused}"),
        None => assert!(rt; false, "otherwise than wanted"),
    }
}

#[test]
fn a_subsurface_that_finds_no_memory_is_not_set(rt: HostRuntime) {
    match refused_sets(rt.alloc()) {
        Some(refused) => assert!(rt; refused > 1, "{refused}"),
        None => assert!(rt; false, "otherwise than wanted"),
    }
}
