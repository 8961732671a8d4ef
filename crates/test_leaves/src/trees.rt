use std::alloc::Allocator;
use test_support::Refusing;
use wl_links::{MAX_DEPTH, SurfaceNo, Trees};

// Adds so many surfaces, from 0 on.
fn added<A: Allocator>(trees: &mut Trees<A>, count: usize) -> bool {
    for surface in 0..count {
        if trees.add(surface).is_err() {
            return false;
        }
    }
    true
}

// Whether each of these links, a surface and its parent, is made.
fn links<A: Allocator>(trees: &mut Trees<A>, pairs: &[(SurfaceNo, SurfaceNo)]) -> bool {
    for pair in pairs {
        if !trees.link(pair.0, pair.1) {
            return false;
        }
    }
    true
}

// Whether the tree of a surface has exactly these, in any order, and each stands at the level told.
fn tree_is<A: Allocator>(
    trees: &Trees<A>,
    surface: SurfaceNo,
    expected: &[(SurfaceNo, usize)],
) -> bool {
    let tree = trees.tree(surface);
    for pair in expected {
        if !tree.iter().any(|place| place.surface == pair.0)
            || trees.depth(pair.0) != Some(pair.1)
        {
            return false;
        }
    }
    tree.len() == expected.len()
}

// Links each of the first so many surfaces below the one before it.
fn chained<A: Allocator>(trees: &mut Trees<A>, count: usize) -> bool {
    for surface in 1..count {
        if !trees.link(surface, surface - 1) {
            return false;
        }
    }
    true
}

// wl_subcompositor.get_subsurface: a chain down to the greatest depth, and nothing deeper, neither
// the surface nor one that stands below it.
#[test]
fn a_chain_has_a_greatest_depth(rt: HostRuntime) {
    let mut trees = Trees::new(rt.alloc());
    assert!(rt; added(&mut trees, MAX_DEPTH + 3) && chained(&mut trees, MAX_DEPTH + 1));
    assert!(rt; trees.depth(MAX_DEPTH) == Some(MAX_DEPTH));
    assert!(rt; !trees.link(MAX_DEPTH + 1, MAX_DEPTH));
    assert!(rt; trees.depth(MAX_DEPTH + 1) == Some(0));
    assert!(rt; trees.link(MAX_DEPTH + 2, MAX_DEPTH + 1));
    assert!(rt; !trees.link(MAX_DEPTH + 1, MAX_DEPTH - 1));
    assert!(rt; trees.depth(MAX_DEPTH + 1) == Some(0));
    assert!(rt; trees.link(MAX_DEPTH + 1, MAX_DEPTH - 2));
    assert!(rt; trees.depth(MAX_DEPTH + 2) == Some(MAX_DEPTH));
}

// A surface comes below none of its own tree, and has one parent.
#[test]
fn no_surface_stands_below_itself(rt: HostRuntime) {
    let mut trees = Trees::new(rt.alloc());
    assert!(rt; added(&mut trees, 4) && links(&mut trees, &[(1, 0), (2, 1)]));
    assert!(rt; !trees.link(0, 2) && !trees.link(0, 0) && !trees.link(1, 3));
    assert!(rt; !trees.link(3, 4) && !trees.link(4, 3));
    assert!(rt; tree_is(&trees, 0, &[(0, 0), (1, 1), (2, 2)]) && tree_is(&trees, 3, &[(3, 0)]));
    assert!(rt; trees.tree(4).is_empty() && trees.depth(4) == None);
}

// wl_subsurface.destroy: what stood below the surface stays below it, and nothing else moves.
#[test]
fn a_cut_surface_keeps_its_tree(rt: HostRuntime) {
    let mut trees = Trees::new(rt.alloc());
    assert!(rt; added(&mut trees, 5) && links(&mut trees, &[(1, 0), (3, 0), (2, 1), (4, 2)]));
    assert!(rt; tree_is(&trees, 1, &[(1, 1), (2, 2), (4, 3)]));
    trees.cut(1);
    assert!(rt;
        tree_is(&trees, 0, &[(0, 0), (3, 1)]) && tree_is(&trees, 1, &[(1, 0), (2, 1), (4, 2)])
    );
    trees.cut(5);
    assert!(rt; trees.link(0, 4) && tree_is(&trees, 1, &[(1, 0), (2, 1), (4, 2), (0, 3), (3, 4)]));
}

// wl_surface.destroy: those whose parent it was are roots, each with its tree.
#[test]
fn a_surface_that_goes_leaves_its_children(rt: HostRuntime) {
    let mut trees = Trees::new(rt.alloc());
    assert!(rt;
        added(&mut trees, 6) && links(&mut trees, &[(1, 0), (2, 1), (3, 1), (4, 3), (5, 0)])
    );
    trees.remove(1);
    assert!(rt; trees.tree(1).is_empty() && tree_is(&trees, 0, &[(0, 0), (5, 1)]));
    assert!(rt; tree_is(&trees, 2, &[(2, 0)]) && tree_is(&trees, 3, &[(3, 0), (4, 1)]));
    assert!(rt; added(&mut trees, 2) && trees.depth(1) == Some(0));
}

// Without memory no surface comes, and those that are there stay.
#[test]
fn a_surface_needs_memory(rt: HostRuntime) {
    let mut refused = false;
    for served in 0..4_u64 {
        let refusing = Refusing::new(rt.alloc(), served);
        let mut trees = Trees::new(&refusing);
        if !added(&mut trees, 64) {
            refused = true;
            assert!(rt; served == 0 || trees.depth(0) == Some(0));
            assert!(rt; trees.depth(63) == None);
        }
    }
    assert!(rt; refused);
}
