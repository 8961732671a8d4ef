use crate::windows::{has_family, window as placed};
use std::alloc::Allocator;
use test_support::Refusing;
use wl_scene::{RootPlace, StackedWindows, Surface, TreeWindow, Window, add_trees, add_windows};
use wl_store::Transform;
use wl_surface::{SurfaceNo, Surfaces};

fn window(surface: SurfaceNo) -> TreeWindow {
    TreeWindow {
        surface,
        root: surface,
        x: 4,
        y: 5,
        w: 6,
        h: 7,
        transform: Transform::Normal,
        scale: 1,
    }
}

// Whether these are the windows from bottom to top, each by its client, its toplevel and its
// surface.
fn has<A: Allocator>(all: &StackedWindows<A>, wanted: &[(u32, SurfaceNo, SurfaceNo)]) -> bool {
    let windows = all.windows();
    if windows.len() != wanted.len() {
        return false;
    }
    for (stacked, (client, toplevel, surface)) in windows.iter().zip(wanted) {
        if stacked.client != *client
            || stacked.toplevel != *toplevel
            || stacked.window != window(*surface)
        {
            return false;
        }
    }
    true
}

// The windows of a toplevel of the client 1 below those of one of the client 2, and another of the
// client 1 on top.
fn three_toplevels<A: Allocator>(all: &mut StackedWindows<A>) -> bool {
    for (client, toplevel, surfaces) in [
        (1, 3, [window(3), window(4)]),
        (2, 3, [window(5), window(3)]),
    ] {
        if all.has_toplevel(client, toplevel) || all.push(client, toplevel, &surfaces).is_err() {
            return false;
        }
    }
    !all.has_toplevel(1, 7) && all.push(1, 7, &[window(7)]).is_ok()
}

// Whether these are the windows from bottom to top, each by its client and its surface, where
// `window` has them.
fn reads<A: Allocator>(all: &StackedWindows<A>, wanted: &[(u32, SurfaceNo)]) -> bool {
    let count = all.len();
    for (k, (client, surface)) in wanted.iter().enumerate() {
        let read = Window {
            surface: Surface {
                client: *client,
                surface: *surface,
            },
            x: 4,
            y: 5,
            w: 6,
            h: 7,
        };
        if k >= count || all.window(k) != read {
            return false;
        }
    }
    count == wanted.len()
}

#[test]
fn windows_are_read_one_by_one(rt: HostRuntime) {
    let mut all = StackedWindows::new(rt.alloc());
    assert!(rt; reads(&all, &[]));
    assert!(rt; three_toplevels(&mut all));
    assert!(rt; reads(&all, &[(1, 3), (1, 4), (2, 5), (2, 3), (1, 7)]));
}

// xdg_surface: the windows stacked with a toplevel stand together, and others take their place
// where they stood.
#[test]
fn a_toplevel_keeps_its_place(rt: HostRuntime) {
    let mut all = StackedWindows::new(rt.alloc());
    assert!(rt; three_toplevels(&mut all));
    assert!(rt;
        has(
            &all,
            &[(1, 3, 3), (1, 3, 4), (2, 3, 5), (2, 3, 3), (1, 7, 7)]
        )
    );
    assert!(rt; all.run(2, 3).len() == 2 && all.run(1, 7).len() == 1 && all.run(2, 7).is_empty());
    assert!(rt;
        all.replace(2, 3, &[window(8), window(5), window(3)])
            .is_ok()
    );
    assert!(rt;
        has(
            &all,
            &[
                (1, 3, 3),
                (1, 3, 4),
                (2, 3, 8),
                (2, 3, 5),
                (2, 3, 3),
                (1, 7, 7)
            ]
        )
    );
    assert!(rt; all.replace(1, 3, &[window(3)]).is_ok() && all.replace(2, 7, &[window(9)]).is_ok());
    assert!(rt;
        has(
            &all,
            &[(1, 3, 3), (2, 3, 8), (2, 3, 5), (2, 3, 3), (1, 7, 7)]
        )
    );
    all.remove(1, 3);
    assert!(rt; has(&all, &[(2, 3, 8), (2, 3, 5), (2, 3, 3), (1, 7, 7)]));
    all.remove_client(2);
    assert!(rt; has(&all, &[(1, 7, 7)]));
}

// What a press raises comes to the top with all its windows, and the others keep their order.
#[test]
fn a_toplevel_comes_to_the_top(rt: HostRuntime) {
    let mut all = StackedWindows::new(rt.alloc());
    assert!(rt; three_toplevels(&mut all));
    all.raise(1, 3);
    assert!(rt;
        has(
            &all,
            &[(2, 3, 5), (2, 3, 3), (1, 7, 7), (1, 3, 3), (1, 3, 4)]
        )
    );
    all.raise(1, 3);
    all.raise(2, 7);
    assert!(rt;
        has(
            &all,
            &[(2, 3, 5), (2, 3, 3), (1, 7, 7), (1, 3, 3), (1, 3, 4)]
        )
    );
    all.raise(1, 7);
    assert!(rt;
        has(
            &all,
            &[(2, 3, 5), (2, 3, 3), (1, 3, 3), (1, 3, 4), (1, 7, 7)]
        )
    );
}

// Whether just these windows are stacked with the toplevel of the surface 0 of the client 1.
fn has_run_of<A: Allocator>(all: &StackedWindows<A>, wanted: &[TreeWindow]) -> bool {
    let run = all.run(1, 0);
    if run.len() != wanted.len() {
        return false;
    }
    for (stacked, window) in run.iter().zip(wanted) {
        if stacked.window != *window {
            return false;
        }
    }
    true
}

// xdg_toplevel.move: the windows of a toplevel come to another place of the output, and stay where
// they are in the stack.
#[test]
fn a_toplevel_comes_to_another_place(rt: HostRuntime) {
    let mut surfaces = Surfaces::new(rt.alloc());
    let mut all = StackedWindows::new(rt.alloc());
    let mut windows = Vec::new(rt.alloc());
    assert!(rt;
        has_family(&mut surfaces) && add_windows(&surfaces, 0, 10, 20, &mut windows).is_ok()
    );
    assert!(rt; !all.has_toplevel(1, 0) && all.push(1, 0, &windows).is_ok());
    assert!(rt; !all.has_toplevel(1, 7) && all.push(1, 7, &[window(7)]).is_ok());
    let root = RootPlace {
        surface: 0,
        x: -30,
        y: 5,
    };
    all.move_run(1, 0, &surfaces, &[root]);
    assert!(rt;
        has_run_of(
            &all,
            &[
                placed(3, -21, 5),
                placed(0, -28, 5),
                placed(1, -24, 10),
                placed(2, -25, 10)
            ]
        )
    );
    assert!(rt; all.windows().len() == 5 && all.run(1, 7).len() == 1);
    all.remove(1, 0);
    assert!(rt; has(&all, &[(1, 7, 7)]));
}

// A window of a popup's tree, whose root is the popup's surface.
fn of_popup(surface: SurfaceNo, root: SurfaceNo) -> TreeWindow {
    TreeWindow {
        root,
        ..window(surface)
    }
}

// xdg_popup: the windows of a popup's tree are stacked with its toplevel, which is found by its
// root.
#[test]
fn popups_are_stacked_with_their_toplevel(rt: HostRuntime) {
    let mut all = StackedWindows::new(rt.alloc());
    assert!(rt; three_toplevels(&mut all));
    assert!(rt;
        all.replace(
            1,
            3,
            &[window(3), window(4), of_popup(12, 11), of_popup(11, 11)]
        )
        .is_ok()
    );
    assert!(rt; all.toplevel_with(1, 11) == Some(3) && all.toplevel_with(1, 3) == Some(3));
    assert!(rt;
        all.toplevel_with(2, 11).is_none()
            && all.toplevel_with(1, 12).is_none()
            && all.toplevel_with(1, 7) == Some(7)
    );
    all.raise(1, 3);
    assert!(rt; all.run(1, 3).len() == 4 && all.toplevel_with(1, 11) == Some(3));
    all.remove(1, 3);
    assert!(rt; all.toplevel_with(1, 11).is_none() && all.windows().len() == 3);
}

// The trees of several roots come to other places one after another.
#[test]
fn a_toplevel_takes_its_popups_along(rt: HostRuntime) {
    let mut surfaces = Surfaces::new(rt.alloc());
    let mut all = StackedWindows::new(rt.alloc());
    let mut windows = Vec::new(rt.alloc());
    assert!(rt; has_family(&mut surfaces));
    let roots = [
        RootPlace {
            surface: 1,
            x: 10,
            y: 20,
        },
        RootPlace {
            surface: 3,
            x: 30,
            y: 40,
        },
    ];
    assert!(rt; add_trees(&surfaces, &roots, &mut windows).is_ok() && windows.len() == 3);
    assert!(rt; !all.has_toplevel(1, 1) && all.push(1, 1, &windows).is_ok());
    let moved = [
        RootPlace {
            surface: 1,
            x: 11,
            y: 22,
        },
        RootPlace {
            surface: 3,
            x: 31,
            y: 42,
        },
    ];
    all.move_run(1, 1, &surfaces, &moved);
    for (stacked, window) in all.run(1, 1).iter().zip(&windows) {
        assert!(rt;
            stacked.window.surface == window.surface
                && stacked.window.x == window.x.saturating_add(1)
                && stacked.window.y == window.y.saturating_add(2)
        );
    }
}

// Without memory for other windows of a toplevel nothing changes.
#[test]
fn other_windows_need_memory(rt: HostRuntime) {
    let mut refused = 0_u32;
    let others = [window(9); 20];
    for served in 0..20_u64 {
        let heap = Refusing::new(rt.alloc(), served);
        let mut all = StackedWindows::new(&heap);
        if three_toplevels(&mut all) {
            let is_replaced = all.replace(2, 3, &others).is_ok();
            assert!(rt;
                is_replaced
                    || has(
                        &all,
                        &[(1, 3, 3), (1, 3, 4), (2, 3, 5), (2, 3, 3), (1, 7, 7)]
                    )
            );
            if !is_replaced {
                refused = refused.saturating_add(1);
            }
        }
    }
    assert!(rt; refused > 0);
}

// Where there is room for the windows of a toplevel, they take no memory.
#[test]
fn windows_come_into_room(rt: HostRuntime) {
    let heap = Refusing::new(rt.alloc(), 2);
    let mut all = StackedWindows::new(&heap);
    assert!(rt; all.reserve(3).is_ok() && all.reserve(100).is_err());
    assert!(rt;
        !all.has_toplevel(1, 3) && all.push(1, 3, &[window(3), window(4), window(5)]).is_ok()
    );
    assert!(rt; has(&all, &[(1, 3, 3), (1, 3, 4), (1, 3, 5)]));
}
