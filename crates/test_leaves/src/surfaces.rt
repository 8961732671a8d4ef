use std::alloc::Allocator;
use test_support::Refusing;
use wl_geom::Rect;
use wl_links::{Member, Placed};
use wl_store::layout;
use wl_surface::{Applied, Attached, BufferNo, Role, SurfaceError, SurfaceNo, Surfaces};

const ROOT: SurfaceNo = 0;

const CHILD: SurfaceNo = 1;

const ITSELF: Placed = Placed {
    member: Member::Itself,
    x: 0,
    y: 0,
};

fn child_at(child: SurfaceNo, x: i32, y: i32) -> Placed {
    Placed {
        member: Member::Child(child),
        x,
        y,
    }
}

fn stack_is<A: Allocator + Copy>(
    surfaces: &Surfaces<A>,
    surface: SurfaceNo,
    wanted: &[Placed],
) -> bool {
    surfaces.stack(surface) == wanted
}

// Makes so many surfaces.
fn made<A: Allocator + Copy>(surfaces: &mut Surfaces<A>, count: usize) -> bool {
    for number in 0..count {
        if surfaces.create() != Ok(number) {
            return false;
        }
    }
    true
}

// Attaches a buffer of 4 by 4 pixels.
fn attach<A: Allocator + Copy>(surfaces: &mut Surfaces<A>, surface: SurfaceNo, number: BufferNo) {
    if let Ok(layout) = layout(64, 0, 4, 4, 16, 1) {
        let buffer = Attached {
            number,
            object: 90,
            store: 1,
            layout,
        };
        surfaces.attach(surface, Some(buffer), 0, 0);
    }
}

fn damage_at<A: Allocator>(surfaces: &mut Surfaces<A>, surface: SurfaceNo, at: i32) -> bool {
    let point = Rect {
        x: at,
        y: at,
        w: 1,
        h: 1,
    };
    surfaces.damage(surface, point) == Ok(())
}

fn shown<A: Allocator>(surfaces: &Surfaces<A>, surface: SurfaceNo) -> Option<BufferNo> {
    let current = surfaces.current(surface)?;
    Some(current.buffer?.number)
}

// Whether an answer tells just this: of each of these surfaces, in this order, so many rectangles,
// and that these buffers are freed.
fn tells<A: Allocator>(
    answer: Result<Applied<A>, SurfaceError>,
    wanted: &[(SurfaceNo, usize)],
    freed: &[BufferNo],
) -> bool {
    match answer {
        Ok(applied) => {
            applied.changes.len() == wanted.len()
                && applied.changes.iter().zip(wanted).all(|(change, row)| change.surface == row.0
                    && change.rects.len() == row.1)
                && applied.freed.as_slice() == freed
        }
        Err(_) => false,
    }
}

// Whether an answer tells that just these buffers were shown, in this order, each as it was
// attached.
fn tells_shown<A: Allocator>(
    answer: Result<Applied<A>, SurfaceError>,
    wanted: &[BufferNo],
) -> bool {
    match answer {
        Ok(told) => {
            told.shown.len() == wanted.len()
                && told.shown.iter().zip(wanted).all(|(buffer, number)| buffer.number == *number
                    && buffer.object == 90)
        }
        Err(_) => false,
    }
}

// Attaches another buffer, damages a point and commits: whether that tells just this.
fn commits<A: Allocator + Copy>(
    surfaces: &mut Surfaces<A>,
    surface: SurfaceNo,
    buffer: BufferNo,
    wanted: &[(SurfaceNo, usize)],
    freed: &[BufferNo],
) -> bool {
    attach(surfaces, surface, buffer);
    damage_at(surfaces, surface, 0) && tells(surfaces.commit(surface), wanted, freed)
}

// A window with a child at (4, 4), which shows the buffer 18 once the window is committed.
fn has_child<A: Allocator + Copy>(surfaces: &mut Surfaces<A>) -> bool {
    made(surfaces, 2)
        && commits(surfaces, ROOT, 10, &[(ROOT, 1)], &[])
        && surfaces.subsurface(CHILD, ROOT) == Ok(())
        && surfaces.set_position(CHILD, 4, 4) == Ok(())
        && commits(surfaces, CHILD, 18, &[], &[])
        && shown(surfaces, CHILD).is_none()
        && tells(surfaces.commit(ROOT), &[(ROOT, 0), (CHILD, 1)], &[])
}

// Whether surfaces without children tell what their commits and their ends change, and free a
// buffer once none of them shows it.
fn tells_what_changes<A: Allocator + Copy>(surfaces: &mut Surfaces<A>) -> bool {
    let is_shown = made(surfaces, 2) && commits(surfaces, 0, 7, &[(0, 1)], &[]);
    attach(surfaces, 0, 8);
    is_shown
        && tells(surfaces.commit(0), &[(0, 0)], &[7])
        && commits(surfaces, 1, 8, &[(1, 1)], &[])
        && tells(surfaces.destroy(0), &[(0, 0)], &[])
        && tells(surfaces.destroy(1), &[(1, 0)], &[8])
        && tells(surfaces.destroy(1), &[], &[])
}

// wl_surface.commit and wl_surface.destroy, wl_buffer.release
#[test]
fn changes_are_told(rt: HostRuntime) {
    let mut surfaces = Surfaces::new(rt.alloc());
    assert!(rt; tells_what_changes(&mut surfaces));
}

// Whether commits of a synchronised child are held, the later in the place of the earlier with the
// damage of both, and applied by a commit of its parent. A buffer is released where no surface
// holds or shows it any more.
fn holds_commits<A: Allocator + Copy>(surfaces: &mut Surfaces<A>) -> bool {
    has_child(surfaces)
        && shown(surfaces, CHILD) == Some(18)
        && stack_is(surfaces, ROOT, &[ITSELF, child_at(CHILD, 4, 4)])
        && commits(surfaces, CHILD, 19, &[], &[])
        && commits(surfaces, CHILD, 20, &[], &[19])
        && shown(surfaces, CHILD) == Some(18)
        && surfaces.is_busy(20)
        && tells(surfaces.commit(ROOT), &[(ROOT, 0), (CHILD, 2)], &[18])
        && shown(surfaces, CHILD) == Some(20)
}

// wl_subsurface
#[test]
fn a_synchronised_child_is_held(rt: HostRuntime) {
    let mut surfaces = Surfaces::new(rt.alloc());
    assert!(rt; holds_commits(&mut surfaces));
}

// Whether what was held is applied at once, and so are later commits.
fn releases<A: Allocator + Copy>(surfaces: &mut Surfaces<A>) -> bool {
    let is_released = has_child(surfaces)
        && commits(surfaces, CHILD, 19, &[], &[])
        && tells(surfaces.set_desync(CHILD), &[(CHILD, 1)], &[18])
        && tells(surfaces.set_desync(CHILD), &[], &[])
        && commits(surfaces, CHILD, 20, &[(CHILD, 1)], &[19]);
    surfaces.set_sync(CHILD);
    is_released
        && commits(surfaces, CHILD, 21, &[], &[])
        && tells(surfaces.set_desync(ROOT), &[], &[])
        && shown(surfaces, CHILD) == Some(20)
}

// wl_subsurface.set_desync
#[test]
fn a_child_is_released(rt: HostRuntime) {
    let mut surfaces = Surfaces::new(rt.alloc());
    assert!(rt; releases(&mut surfaces));
}

// Whether a link that ends lets what was held of the child be applied.
fn ends_with_its_link<A: Allocator + Copy>(surfaces: &mut Surfaces<A>) -> bool {
    let is_ended = has_child(surfaces)
        && commits(surfaces, CHILD, 19, &[], &[])
        && tells(surfaces.remove_subsurface(CHILD), &[(CHILD, 1)], &[18])
        && stack_is(surfaces, ROOT, &[ITSELF])
        && surfaces.link(CHILD).is_none()
        && tells(surfaces.remove_subsurface(CHILD), &[], &[]);
    surfaces.attach(CHILD, None, 0, 0);
    is_ended && tells(surfaces.commit(CHILD), &[(CHILD, 0)], &[19])
}

// Whether a parent that goes does so too.
fn ends_with_its_parent<A: Allocator + Copy>(surfaces: &mut Surfaces<A>) -> bool {
    surfaces.subsurface(CHILD, ROOT) == Ok(())
        && commits(surfaces, CHILD, 20, &[], &[])
        && tells(surfaces.destroy(ROOT), &[(ROOT, 0), (CHILD, 1)], &[10])
        && surfaces.link(CHILD).is_none()
        && shown(surfaces, CHILD) == Some(20)
}

// wl_subsurface.destroy and wl_surface.destroy
#[test]
fn a_link_ends(rt: HostRuntime) {
    let mut surfaces = Surfaces::new(rt.alloc());
    assert!(rt; ends_with_its_link(&mut surfaces) && ends_with_its_parent(&mut surfaces));
}

// Attaches another buffer and commits: whether that tells that just these were shown.
fn commit_tells_shown<A: Allocator + Copy>(
    surfaces: &mut Surfaces<A>,
    surface: SurfaceNo,
    buffer: BufferNo,
    wanted: &[BufferNo],
) -> bool {
    attach(surfaces, surface, buffer);
    tells_shown(surfaces.commit(surface), wanted)
}

// Whether what surfaces had applied and held before is told of those that a call applies, holds or
// ends, and of no others.
fn tells_what_was_shown<A: Allocator + Copy>(surfaces: &mut Surfaces<A>) -> bool {
    has_child(surfaces)
        && commit_tells_shown(surfaces, CHILD, 19, &[18, 18])
        && commit_tells_shown(surfaces, CHILD, 20, &[18, 19])
        && commit_tells_shown(surfaces, ROOT, 11, &[10, 10, 18, 20])
        && tells_shown(surfaces.set_desync(CHILD), &[20, 20])
        && tells_shown(surfaces.set_desync(CHILD), &[])
        && tells_shown(surfaces.remove_subsurface(CHILD), &[20, 20])
        && tells_shown(surfaces.remove_subsurface(CHILD), &[])
        && tells_shown(surfaces.destroy(ROOT), &[11, 11])
        && tells_shown(surfaces.destroy(ROOT), &[])
}

// wl_buffer.release
#[test]
fn what_was_shown_is_told(rt: HostRuntime) {
    let mut surfaces = Surfaces::new(rt.alloc());
    assert!(rt; tells_what_was_shown(&mut surfaces));
}

// Whether the order of a surface and its children counts once the parent is committed.
fn places_children<A: Allocator + Copy>(surfaces: &mut Surfaces<A>) -> bool {
    made(surfaces, 4)
        && surfaces.subsurface(1, 0) == Ok(())
        && surfaces.subsurface(2, 0) == Ok(())
        && surfaces.place_below(2, 0) == Ok(())
        && surfaces.place_above(1, 2) == Ok(())
        && surfaces.place_above(1, 1) == Err(SurfaceError::NotSibling)
        && surfaces.place_below(1, 3) == Err(SurfaceError::NotSibling)
        && surfaces.place_above(3, 0) == Ok(())
        && stack_is(surfaces, 0, &[])
        && tells(surfaces.commit(0), &[(0, 0), (1, 0), (2, 0)], &[])
        && stack_is(surfaces, 0, &[child_at(2, 0, 0), child_at(1, 0, 0), ITSELF])
}

#[test]
fn children_are_placed(rt: HostRuntime) {
    let mut surfaces = Surfaces::new(rt.alloc());
    assert!(rt; places_children(&mut surfaces));
}

// Whether each of the surfaces 1 to 16 becomes the child of the one before it.
fn chains_16<A: Allocator + Copy>(surfaces: &mut Surfaces<A>) -> bool {
    for child in 1..17_usize {
        if surfaces.subsurface(child, child - 1) != Ok(()) {
            return false;
        }
    }
    true
}

// A child and its parent, and what the link is answered with.
type Asked = (SurfaceNo, SurfaceNo, Result<(), SurfaceError>);

const ASKED: [Asked; 7] = [
    (17, 16, Err(SurfaceError::TooDeep)),
    (19, 16, Err(SurfaceError::TooDeep)),
    (19, 0, Err(SurfaceError::Role)),
    (1, 18, Err(SurfaceError::Role)),
    (18, 18, Err(SurfaceError::BadParent)),
    (0, 18, Err(SurfaceError::TooDeep)),
    (18, 15, Ok(())),
];

// The first that isn't answered so.
fn answered_otherwise<A: Allocator + Copy>(
    surfaces: &mut Surfaces<A>,
    asked: &[Asked],
) -> Option<usize> {
    for (place, &(child, parent, wanted)) in asked.iter().enumerate() {
        if surfaces.subsurface(child, parent) != wanted {
            return Some(place);
        }
    }
    None
}

// Whether links are refused in this order.
fn refuses_links<A: Allocator + Copy>(surfaces: &mut Surfaces<A>) -> bool {
    made(surfaces, 20)
        && surfaces.give_role(19, Role::Toplevel) == Ok(())
        && chains_16(surfaces)
        && answered_otherwise(surfaces, &ASKED).is_none()
        && tells(surfaces.remove_subsurface(16), &[(16, 0)], &[])
        && surfaces.subsurface(0, 17) == Err(SurfaceError::TooDeep)
        && surfaces.role(18) == Some(Role::Subsurface)
}

// wl_subcompositor.get_subsurface
#[test]
fn links_are_refused(rt: HostRuntime) {
    let mut surfaces = Surfaces::new(rt.alloc());
    assert!(rt; refuses_links(&mut surfaces));
}

// What a commit of the window and of its child tells, the window's first: None where there was no
// memory for it.
fn committed<A: Allocator + Copy>(surfaces: &mut Surfaces<A>, surface: SurfaceNo) -> Option<usize> {
    match surfaces.commit(surface) {
        Ok(told) => Some(told.changes.len()),
        Err(_) => None,
    }
}

// Without memory a commit of a window applies nothing of it, nor of its child.
fn applies_all_or_nothing<A: Allocator + Copy>(surfaces: &mut Surfaces<A>) -> Option<bool> {
    if !has_child(surfaces) {
        return None;
    }
    attach(surfaces, ROOT, 11);
    attach(surfaces, CHILD, 19);
    committed(surfaces, CHILD)?;
    let seen = match committed(surfaces, ROOT) {
        Some(told) => told == 2
            && shown(surfaces, ROOT) == Some(11)
            && shown(surfaces, CHILD) == Some(19),
        None => shown(surfaces, ROOT) == Some(10) && shown(surfaces, CHILD) == Some(18),
    };
    Some(seen)
}

#[test]
fn a_commit_needs_memory(rt: HostRuntime) {
    let mut seen = 0_u32;
    for served in 0..60_u64 {
        let refusing = Refusing::new(rt.alloc(), served);
        let mut surfaces = Surfaces::new(&refusing);
        if let Some(is_whole) = applies_all_or_nothing(&mut surfaces) {
            assert!(rt; is_whole, "{served}");
            if refusing.refused() {
                seen = seen.saturating_add(1);
            }
        }
    }
    assert!(rt; seen > 2);
}

// Without memory a surface isn't destroyed, and shows what it showed.
#[test]
fn an_end_needs_memory(rt: HostRuntime) {
    let mut refused = 0_u32;
    for served in 0..40_u64 {
        let refusing = Refusing::new(rt.alloc(), served);
        let mut surfaces = Surfaces::new(&refusing);
        if made(&mut surfaces, 1) && commits(&mut surfaces, ROOT, 7, &[(ROOT, 1)], &[]) {
            let is_gone = surfaces.destroy(ROOT).is_ok();
            assert!(rt; is_gone == shown(&surfaces, ROOT).is_none(), "{served}");
            if !is_gone {
                refused = refused.saturating_add(1);
            }
        }
    }
    assert!(rt; refused > 0);
}
