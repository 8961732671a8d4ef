use std::alloc::Allocator;
use test_support::Refusing;
use wl_scene::{TreeWindow, add_windows};
use wl_store::{Transform, layout};
use wl_surface::{Attached, BufferNo, SurfaceNo, Surfaces};

// Attaches a buffer of 4 by 4 pixels, so many pixels to the right, and commits.
fn shows<A: Allocator + Copy>(
    surfaces: &mut Surfaces<A>,
    surface: SurfaceNo,
    number: BufferNo,
    right: i32,
) -> bool {
    if let Ok(layout) = layout(64, 0, 4, 4, 16, 1) {
        let buffer = Attached {
            number,
            object: 90,
            store: 1,
            layout,
        };
        surfaces.attach(surface, Some(buffer), right, 0);
    }
    surfaces.commit(surface).is_ok()
}

fn made<A: Allocator + Copy>(surfaces: &mut Surfaces<A>, count: usize) -> bool {
    for number in 0..count {
        if surfaces.create() != Ok(number) {
            return false;
        }
    }
    true
}

// A root, a child of it at (4, 5) with one of its own at (-1, 0), and another child below the root.
pub(crate) fn has_family<A: Allocator + Copy>(surfaces: &mut Surfaces<A>) -> bool {
    made(surfaces, 4)
        && surfaces.subsurface(1, 0) == Ok(())
        && surfaces.subsurface(2, 1) == Ok(())
        && surfaces.subsurface(3, 0) == Ok(())
        && surfaces.set_position(1, 4, 5) == Ok(())
        && surfaces.set_position(2, -1, 0) == Ok(())
        && surfaces.place_below(3, 0) == Ok(())
        && shows(surfaces, 2, 12, 0)
        && shows(surfaces, 1, 11, 0)
        && shows(surfaces, 3, 13, 7)
        && shows(surfaces, 0, 10, 2)
}

pub(crate) fn window(surface: SurfaceNo, x: i32, y: i32) -> TreeWindow {
    TreeWindow {
        surface,
        root: 0,
        x,
        y,
        w: 4,
        h: 4,
        transform: Transform::Normal,
        scale: 1,
    }
}

// Whether the tree of the surface 0, at (10, 20), has just these windows.
fn has<A: Allocator + Copy>(surfaces: &Surfaces<A>, alloc: A, wanted: &[TreeWindow]) -> bool {
    let mut windows = Vec::new(alloc);
    add_windows(surfaces, 0, 10, 20, &mut windows).is_ok() && windows.as_slice() == wanted
}

// wl_subsurface: each surface stands at its parent's corner, moved by its position and its own
// offset, from bottom to top. A surface without a buffer isn't shown, nor are its children.
#[test]
fn a_tree_is_seen_in_its_order(rt: HostRuntime) {
    let mut surfaces = Surfaces::new(rt.alloc());
    assert!(rt; has_family(&mut surfaces));
    let all = [
        window(3, 19, 20),
        window(0, 12, 20),
        window(1, 16, 25),
        window(2, 15, 25),
    ];
    assert!(rt; has(&surfaces, rt.alloc(), &all));
    surfaces.attach(1, None, 0, 0);
    assert!(rt; surfaces.commit(1).is_ok() && has(&surfaces, rt.alloc(), &all));
    assert!(rt; surfaces.commit(0).is_ok());
    assert!(rt;
        has(
            &surfaces,
            rt.alloc(),
            &[window(3, 19, 20), window(0, 12, 20)]
        )
    );
    assert!(rt; surfaces.remove_subsurface(3).is_ok());
    assert!(rt; has(&surfaces, rt.alloc(), &[window(0, 12, 20)]));
    surfaces.attach(0, None, 0, 0);
    assert!(rt; surfaces.commit(0).is_ok() && has(&surfaces, rt.alloc(), &[]));
}

// Attaches a buffer of 5 by 8 pixels to the surface 0, so many pixels to the right, turns it by 90
// degrees and commits.
fn shows_turned<A: Allocator + Copy>(surfaces: &mut Surfaces<A>, right: i32) -> bool {
    if let Ok(layout) = layout(160, 0, 5, 8, 20, 1) {
        let buffer = Attached {
            number: 10,
            object: 90,
            store: 1,
            layout,
        };
        surfaces.attach(0, Some(buffer), right, 0);
    }
    surfaces.set_transform(0, 1) == Ok(()) && surfaces.commit(0).is_ok()
}

// wl_surface.attach and set_buffer_transform: a window is as large as its turned buffer, and stands
// no farther than 16,777,216.
#[test]
fn a_window_is_turned_and_moved(rt: HostRuntime) {
    let mut surfaces = Surfaces::new(rt.alloc());
    assert!(rt; made(&mut surfaces, 1) && shows_turned(&mut surfaces, 16_777_216));
    let window = TreeWindow {
        surface: 0,
        root: 0,
        x: 16_777_216,
        y: 20,
        w: 8,
        h: 5,
        transform: Transform::Rotated90,
        scale: 1,
    };
    assert!(rt; has(&surfaces, rt.alloc(), &[window]));
}

// Without memory no window is added, and with it all are.
#[test]
fn windows_need_memory(rt: HostRuntime) {
    let mut refused = 0_u32;
    for served in 0..80_u64 {
        let heap = Refusing::new(rt.alloc(), served);
        let mut surfaces = Surfaces::new(&heap);
        if has_family(&mut surfaces) {
            let mut windows = Vec::new(&heap);
            let is_added = add_windows(&surfaces, 0, 10, 20, &mut windows).is_ok();
            assert!(rt; windows.len() == if is_added { 4 } else { 0 }, "{served}");
            if !is_added {
                refused = refused.saturating_add(1);
            }
        }
    }
    assert!(rt; refused > 0);
}
