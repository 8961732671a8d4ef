use std::alloc::{Allocator, Global};
use wl_geom::Rect;
use wl_paint::Damage;
use wl_scene::{TreeWindow, mark_tree, mark_trees};
use wl_store::Transform;
use wl_surface::{Change, SurfaceNo};

fn window(surface: SurfaceNo, at: (i32, i32), side: u32) -> TreeWindow {
    TreeWindow {
        surface,
        root: 0,
        x: at.0,
        y: at.1,
        w: side,
        h: side,
        transform: Transform::Normal,
        scale: 1,
    }
}

// A root of 8 by 8 at the corner of the output, and a child of 4 by 4 that stands there.
fn tree(at: (i32, i32)) -> [TreeWindow; 2] {
    [window(0, (0, 0), 8), window(1, at, 4)]
}

fn square(at: i32, side: i32) -> Rect {
    Rect {
        x: at,
        y: at,
        w: side,
        h: side,
    }
}

// How many points of an output of 64 by 64 are marked, where the tree was this and is that, and a
// surface was damaged there.
fn marked(
    alloc: Global,
    was: &[TreeWindow],
    is: &[TreeWindow],
    surface: SurfaceNo,
    rect: Rect,
) -> Option<u32> {
    let Ok(mut damage) = Damage::new(alloc, 64, 64) else {
        return None;
    };
    let mut rects = Vec::new(alloc);
    let mut changes = Vec::new(alloc);
    if rects.push(rect).is_err() {
        return None;
    }
    let change = Change {
        surface,
        whole: false,
        rects,
    };
    if changes.push(change).is_err() {
        return None;
    }
    mark_tree(&mut damage, was, is, &changes);
    Some(damage.count())
}

// wl_surface.damage, wl_subsurface.set_position: where the windows stay, the damage alone is
// marked, cut to its surface; where one moves, all of the tree, as it was and as it is.
#[test]
fn a_tree_is_marked(rt: HostRuntime) {
    let alloc = rt.alloc();
    let one = square(0, 1);
    assert_eq!(rt;
        marked(alloc, &tree((6, 6)), &tree((6, 6)), 1, one),
        Some(1)
    );
    assert_eq!(rt;
        marked(alloc, &tree((6, 6)), &tree((6, 6)), 1, square(-1, 3)),
        Some(4)
    );
    assert_eq!(rt;
        marked(alloc, &tree((6, 6)), &tree((6, 6)), 9, one),
        Some(0)
    );
    assert_eq!(rt;
        marked(alloc, &tree((6, 6)), &tree((7, 6)), 1, one),
        Some(80)
    );
    assert_eq!(rt;
        marked(alloc, &tree((6, 6)), &[window(0, (0, 0), 8)], 1, one),
        Some(76)
    );
    assert_eq!(rt;
        marked(alloc, &tree((-2, 62)), &tree((62, -2)), 1, one),
        Some(72)
    );
    assert_eq!(rt; marked(alloc, &[], &[], 1, one), Some(0));
}

// A toplevel of 8 by 8 at the corner of the output, and a popup of 4 by 4 that stands there.
fn with_popup(at: (i32, i32)) -> [TreeWindow; 2] {
    let mut popup = window(1, at, 4);
    popup.root = 1;
    [window(0, (0, 0), 8), popup]
}

// How many points of an output of 64 by 64 are marked, where these were the windows of several
// trees and those are.
fn marked_trees(alloc: Global, was: &[TreeWindow], is: &[TreeWindow]) -> Option<u32> {
    let Ok(mut damage) = Damage::new(alloc, 64, 64) else {
        return None;
    };
    let changes: Vec<Change<Global>, Global> = Vec::new(alloc);
    mark_trees(&mut damage, was, is, &changes);
    Some(damage.count())
}

// xdg_popup: a popup that moves, comes or goes is marked by itself, and not the toplevel.
#[test]
fn a_popup_is_marked_by_itself(rt: HostRuntime) {
    let alloc = rt.alloc();
    let toplevel = [window(0, (0, 0), 8)];
    assert_eq!(rt;
        marked_trees(alloc, &with_popup((3, 3)), &with_popup((3, 3))),
        Some(0)
    );
    assert_eq!(rt;
        marked_trees(alloc, &with_popup((3, 3)), &with_popup((4, 3))),
        Some(20)
    );
    assert_eq!(rt;
        marked_trees(alloc, &toplevel, &with_popup((4, 3))),
        Some(16)
    );
    assert_eq!(rt;
        marked_trees(alloc, &with_popup((4, 3)), &toplevel),
        Some(16)
    );
}
