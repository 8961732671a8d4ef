use std::alloc::Allocator;
use wl_geom::Rect;
use wl_scene::{Owned, RootPlace, Scene, Surface, Toplevel, add_roots, parent_corner};
use wl_shell::{NewPopup, Positioner, Shell, ShellError};
use wl_store::layout;
use wl_surface::{Attached, SurfaceNo, Surfaces};

const WHOLE: Rect = Rect {
    x: 0,
    y: 0,
    w: 640,
    h: 480,
};

const ANCHOR: Rect = Rect {
    x: 0,
    y: 0,
    w: 1,
    h: 1,
};

const OF_TOPLEVEL: Rect = Rect {
    x: 2,
    y: 3,
    w: 4,
    h: 4,
};

const OF_POPUP: Rect = Rect {
    x: 1,
    y: 1,
    w: 2,
    h: 2,
};

const TOPLEVEL: Surface = Surface {
    client: 1,
    surface: 0,
};

/// A popup, with the id of its xdg_surface and how many pixels to the right its buffer is attached.
struct Row {
    surface: SurfaceNo,
    id: u32,
    parent: SurfaceNo,
    number: u64,
    geometry: Option<Rect>,
    right: i32,
    is_mapped: bool,
}

// A popup on a toplevel, with two of its own, the second of which is older; and one that isn't
// mapped, with one that is.
const POPUPS: [Row; 5] = [
    Row {
        surface: 1,
        id: 11,
        parent: 0,
        number: 5,
        geometry: Some(OF_POPUP),
        right: 3,
        is_mapped: true,
    },
    Row {
        surface: 2,
        id: 12,
        parent: 1,
        number: 7,
        geometry: None,
        right: 0,
        is_mapped: true,
    },
    Row {
        surface: 3,
        id: 13,
        parent: 0,
        number: 9,
        geometry: None,
        right: 0,
        is_mapped: false,
    },
    Row {
        surface: 4,
        id: 14,
        parent: 3,
        number: 10,
        geometry: None,
        right: 0,
        is_mapped: true,
    },
    Row {
        surface: 5,
        id: 15,
        parent: 1,
        number: 6,
        geometry: None,
        right: 0,
        is_mapped: true,
    },
];

// Places popups of 4 by 4 at (8, 8).
fn positioner() -> Result<Positioner, ShellError> {
    let mut positioner = Positioner::new();
    positioner.set_size(4, 4)?;
    positioner.set_anchor_rect(ANCHOR)?;
    positioner.set_anchor(5)?;
    positioner.set_gravity(8)?;
    positioner.set_offset(8, 8);
    Ok(positioner)
}

// Attaches a buffer of 4 by 4 pixels, so many pixels to the right, and commits.
fn shows<A: Allocator + Copy>(surfaces: &mut Surfaces<A>, surface: SurfaceNo, right: i32) -> bool {
    if let Ok(layout) = layout(64, 0, 4, 4, 16, 1) {
        let buffer = Attached {
            number: surface as u64,
            object: 90,
            store: 1,
            layout,
        };
        surfaces.attach(surface, Some(buffer), right, 0);
    }
    surfaces.commit(surface).is_ok()
}

// The window geometry is set, and the first configure acknowledged.
fn is_ready<A: Allocator>(
    shell: &mut Shell<A>,
    surface: SurfaceNo,
    geometry: Option<Rect>,
) -> bool {
    if let Some(rect) = geometry {
        if shell.geometry(surface, rect).is_err() {
            return false;
        }
    }
    shell.on_commit(surface, false, WHOLE, (0, 0), 1).is_ok() && shell.ack(surface, 1).is_ok()
}

fn is_mapped<A: Allocator>(shell: &mut Shell<A>, surface: SurfaceNo) -> bool {
    shell.on_commit(surface, true, WHOLE, (0, 0), 2).is_ok()
}

fn has_popup<A: Allocator + Copy>(shell: &mut Shell<A>, row: &Row) -> bool {
    let popup = NewPopup {
        id: 90,
        parent: Some(row.parent),
        number: row.number,
    };
    let Ok(positioner) = positioner() else {
        return false;
    };
    shell
        .get_xdg_surface(row.surface, row.id, 2, false, false)
        .is_ok()
        && shell
            .get_popup(row.surface, &popup, &positioner, false)
            .is_ok()
        && is_ready(shell, row.surface, row.geometry)
}

fn has_row<A: Allocator + Copy>(owned: &mut Owned<A>, row: &Row) -> bool {
    if !has_popup(&mut owned.shell, row) {
        return false;
    }
    if !row.is_mapped {
        return true;
    }
    shows(&mut owned.surfaces, row.surface, row.right) && is_mapped(&mut owned.shell, row.surface)
}

fn has_toplevel<A: Allocator + Copy>(owned: &mut Owned<A>) -> bool {
    owned.shell.get_xdg_surface(0, 10, 2, false, false).is_ok()
        && owned.shell.get_toplevel(0, 80, false).is_ok()
        && is_ready(&mut owned.shell, 0, Some(OF_TOPLEVEL))
        && shows(&mut owned.surfaces, 0, 2)
        && is_mapped(&mut owned.shell, 0)
}

fn has_all<A: Allocator + Copy>(owned: &mut Owned<A>) -> bool {
    for number in 0..6_usize {
        if owned.surfaces.create() != Ok(number) {
            return false;
        }
    }
    if !has_toplevel(owned) {
        return false;
    }
    for row in &POPUPS {
        if !has_row(owned, row) {
            return false;
        }
    }
    true
}

fn owned<A: Allocator + Copy>(alloc: A) -> Owned<A> {
    Owned {
        surfaces: Surfaces::new(alloc),
        shell: Shell::new(alloc),
    }
}

// Whether the toplevel, with its place at (32, 32), has just these roots.
fn has_roots<A: Allocator + Copy>(owned: &Owned<A>, alloc: A, wanted: &[RootPlace]) -> bool {
    let mut roots = Vec::new(alloc);
    add_roots(owned, 0, 32, 32, &mut roots).is_ok() && roots.as_slice() == wanted
}

fn root(surface: SurfaceNo, x: i32, y: i32) -> RootPlace {
    RootPlace { surface, x, y }
}

// xdg_popup: a popup stands where it was placed, from the corner of its parent's window geometry,
// less the start of its own. Popups come in order of creation. Those on one that isn't mapped don't
// come.
#[test]
fn popups_stand_on_their_parents(rt: HostRuntime) {
    let mut owned = owned(rt.alloc());
    assert!(rt; has_all(&mut owned));
    let wanted = [
        root(0, 32, 32),
        root(1, 43, 42),
        root(5, 55, 51),
        root(2, 55, 51),
    ];
    assert!(rt; has_roots(&owned, rt.alloc(), &wanted));
}

fn maps<A: Allocator>(scene: &mut Scene<A>, spare: &mut Vec<Toplevel, A>) -> bool {
    scene.map(TOPLEVEL, spare).is_ok()
}

// Whether parents stand where they should, with the toplevel unmapped at first and then at (32,
// 32).
fn has_corners<A: Allocator + Copy>(owned: &Owned<A>, alloc: A) -> bool {
    let mut scene = Scene::new(alloc);
    let mut spare = Vec::new(alloc);
    if parent_corner(&scene, 1, owned, Some(10)) != (4, 3) || !maps(&mut scene, &mut spare) {
        return false;
    }
    scene.move_to(TOPLEVEL, 32, 32);
    parent_corner(&scene, 1, owned, None) == (0, 0)
        && parent_corner(&scene, 1, owned, Some(10)) == (36, 35)
        && parent_corner(&scene, 1, owned, Some(11)) == (47, 43)
        && parent_corner(&scene, 1, owned, Some(13)) == (44, 43)
        && parent_corner(&scene, 1, owned, Some(16)) == (0, 0)
}

// The window geometry of a popup's parent stands somewhere even while the parent isn't mapped.
#[test]
fn parents_stand_mapped_or_not(rt: HostRuntime) {
    let mut owned = owned(rt.alloc());
    assert!(rt; has_all(&mut owned));
    assert!(rt; has_corners(&owned, rt.alloc()));
}
