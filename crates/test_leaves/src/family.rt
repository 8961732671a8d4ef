use std::alloc::Allocator;
use test_support::Refusing;
use wl_links::{Family, Link, MAX_DEPTH, Member, PlaceError, Placed, Side, SurfaceNo};

// Adds so many surfaces, from 0 on.
fn added<A: Allocator + Copy>(family: &mut Family<A>, count: usize) -> bool {
    for surface in 0..count {
        if family.add(surface).is_err() {
            return false;
        }
    }
    true
}

// Whether a surface is there: its tree has it then.
fn has<A: Allocator + Copy>(family: &Family<A>, surface: SurfaceNo) -> bool {
    !family.tree(surface).is_empty()
}

// wl_subcompositor.get_subsurface: whether it is let, and there is memory.
fn joins<A: Allocator + Copy>(family: &mut Family<A>, child: SurfaceNo, parent: SurfaceNo) -> bool {
    if !has(family, child) || !has(family, parent) {
        return false;
    }
    if family.is_too_deep(child, parent) || family.is_under(child, parent) {
        return false;
    }
    if family.link(child).is_some() {
        return false;
    }
    family.join(child, parent).is_ok()
}

// Whether each of the first so many surfaces comes below the one before it.
fn chained<A: Allocator + Copy>(family: &mut Family<A>, count: usize) -> bool {
    for surface in 1..count {
        if !joins(family, surface, surface - 1) {
            return false;
        }
    }
    true
}

// Whether the tree of a surface has exactly these, from the root down.
fn tree_is<A: Allocator + Copy>(
    family: &Family<A>,
    surface: SurfaceNo,
    expected: &[SurfaceNo],
) -> bool {
    let tree = family.tree(surface);
    tree.len() == expected.len()
        && tree
            .iter()
            .zip(expected)
            .all(|(place, surface)| place.surface == *surface)
}

fn stack_is<A: Allocator + Copy>(
    family: &Family<A>,
    surface: SurfaceNo,
    expected: &[Placed],
) -> bool {
    family.stack(surface) == expected
}

fn is_below<A: Allocator + Copy>(
    family: &Family<A>,
    child: SurfaceNo,
    parent: SurfaceNo,
    is_synchronised: bool,
) -> bool {
    let link = Link {
        parent,
        is_synchronised,
    };
    family.link(child) == Some(link)
}

const ITSELF: Placed = Placed {
    member: Member::Itself,
    x: 0,
    y: 0,
};

fn child_at(child: SurfaceNo, x: i32, y: i32) -> Placed {
    Placed {
        member: Member::Child(child),
        x,
        y,
    }
}

// wl_subcompositor.get_subsurface: a chain down to the greatest depth, and nothing deeper, neither
// the surface nor one that stands below it.
#[test]
fn a_chain_of_children_has_a_greatest_depth(rt: HostRuntime) {
    let mut family = Family::new(rt.alloc());
    assert!(rt; added(&mut family, MAX_DEPTH + 3) && chained(&mut family, MAX_DEPTH + 1));
    assert!(rt; family.is_too_deep(17, 16) && !joins(&mut family, 17, 16));
    assert!(rt; !family.is_too_deep(17, 15) && joins(&mut family, 18, 17));
    assert!(rt; family.is_too_deep(17, 15) && !family.is_too_deep(17, 14));
    assert!(rt; joins(&mut family, 17, 14) && is_below(&family, 17, 14, true));
    assert!(rt; family.is_under(0, 18) && !family.is_under(15, 18) && !joins(&mut family, 0, 18));
}

// A child of a synchronised child behaves synchronised after its own set_desync, and no root does.
#[test]
fn a_mode_holds_for_all_below(rt: HostRuntime) {
    let mut family = Family::new(rt.alloc());
    assert!(rt; added(&mut family, 3) && chained(&mut family, 3));
    assert!(rt; !family.behaves_synchronised(0) && family.behaves_synchronised(1));
    family.set_synchronised(2, false);
    assert!(rt; is_below(&family, 2, 1, false) && family.behaves_synchronised(2));
    family.set_synchronised(1, false);
    assert!(rt; !family.behaves_synchronised(1) && !family.behaves_synchronised(2));
    family.set_synchronised(1, true);
    family.set_synchronised(0, true);
    assert!(rt; family.behaves_synchronised(2) && !family.behaves_synchronised(0));
    family.leave(1);
    assert!(rt; !family.behaves_synchronised(1) && !family.behaves_synchronised(2));
}

// wl_subsurface.destroy and wl_surface.destroy: what stood below stays below, and the parent's
// stack is without the child at once.
#[test]
fn a_link_ends_in_the_middle(rt: HostRuntime) {
    let mut family = Family::new(rt.alloc());
    assert!(rt; added(&mut family, 5) && chained(&mut family, 4) && joins(&mut family, 4, 1));
    family.hold(1);
    assert!(rt; stack_is(&family, 1, &[]));
    family.apply(1);
    assert!(rt; stack_is(&family, 1, &[ITSELF, child_at(2, 0, 0), child_at(4, 0, 0)]));
    family.leave(2);
    assert!(rt; tree_is(&family, 0, &[0, 1, 4]) && tree_is(&family, 2, &[2, 3]));
    assert!(rt; family.link(2).is_none() && is_below(&family, 3, 2, true));
    assert!(rt; stack_is(&family, 1, &[ITSELF, child_at(4, 0, 0)]));
    family.remove(1);
    assert!(rt; !has(&family, 1) && family.link(1).is_none() && family.link(4).is_none());
    assert!(rt;
        tree_is(&family, 0, &[0]) && tree_is(&family, 4, &[4]) && stack_is(&family, 1, &[])
    );
}

// wl_subcompositor.get_subsurface and wl_subsurface.destroy: a chain has one root, also the
// longest, and two once a link in it has ended.
#[test]
fn a_chain_has_one_root(rt: HostRuntime) {
    let mut family = Family::new(rt.alloc());
    assert!(rt; added(&mut family, MAX_DEPTH + 1) && chained(&mut family, 3));
    assert!(rt; family.root(0) == 0 && family.root(1) == 0 && family.root(2) == 0);
    assert!(rt; family.root(3) == 3 && family.root(MAX_DEPTH + 1) == MAX_DEPTH + 1);
    assert!(rt; joins(&mut family, 3, 2) && family.root(3) == 0);
    family.leave(1);
    assert!(rt; family.root(0) == 0 && family.root(1) == 1 && family.root(2) == 1);
    let mut deep = Family::new(rt.alloc());
    assert!(rt; added(&mut deep, MAX_DEPTH + 1) && chained(&mut deep, MAX_DEPTH + 1));
    assert!(rt; deep.root(MAX_DEPTH) == 0);
}

// wl_subsurface.place_above and place_below: beside the parent and its other children, whose parent
// needn't have committed.
#[test]
fn a_child_is_placed_beside_its_siblings(rt: HostRuntime) {
    let mut family = Family::new(rt.alloc());
    assert!(rt; added(&mut family, 5));
    assert!(rt; joins(&mut family, 1, 0) && joins(&mut family, 2, 0) && joins(&mut family, 3, 1));
    assert!(rt; family.place(2, 1, Side::Below).is_ok() && family.place(1, 0, Side::Above).is_ok());
    assert!(rt; family.place(2, 0, Side::Below).is_ok() && family.set_position(1, 3, -4).is_ok());
    assert!(rt; family.place(1, 3, Side::Above) == Err(PlaceError::BadSurface));
    assert!(rt; family.place(1, 1, Side::Below) == Err(PlaceError::BadSurface));
    assert!(rt; family.place(1, 4, Side::Below) == Err(PlaceError::BadSurface));
    assert!(rt; family.place(4, 0, Side::Above).is_ok() && family.set_position(4, 1, 1).is_ok());
    family.apply(0);
    assert!(rt; stack_is(&family, 0, &[ITSELF]) || stack_is(&family, 0, &[]));
    family.hold(0);
    family.apply(0);
    assert!(rt; stack_is(&family, 0, &[child_at(2, 0, 0), ITSELF, child_at(1, 3, -4)]));
}

// Without memory no child joins, and nothing else changes.
#[test]
fn a_child_needs_memory(rt: HostRuntime) {
    let mut refused = 0_u32;
    for served in 0..8_u64 {
        let refusing = Refusing::new(rt.alloc(), served);
        let mut family = Family::new(&refusing);
        if added(&mut family, 2) && !joins(&mut family, 1, 0) {
            refused = refused.saturating_add(1);
            assert!(rt; family.link(1).is_none() && tree_is(&family, 0, &[0]));
        }
    }
    assert!(rt; refused > 2);
}
