use crate::calls::{attach, create};
use std::alloc::{Allocator, Global};
use wl_geom::Rect;
use wl_surface::{Applied, BufferNo, Change, Offset, SurfaceError, Surfaces};

const CORNER: Rect = Rect {
    x: 0,
    y: 0,
    w: 1,
    h: 1,
};

/// The parent, and its child, which behaves synchronised.
const PARENT: usize = 0;

const CHILD: usize = 1;

// Attaches a buffer one pixel farther to the right, damages a corner, and asks for a frame.
fn asks<A: Allocator + Copy>(surfaces: &mut Surfaces<A>, number: BufferNo, callback: u32) -> bool {
    attach(surfaces, CHILD, number, 1, 0);
    surfaces.damage(CHILD, CORNER) == Ok(()) && surfaces.frame(CHILD, callback) == Ok(())
}

// How many rectangles of the child are damaged, if it is told of at all.
fn damaged<A: Allocator>(changes: &[Change<A>]) -> Option<usize> {
    for change in changes {
        if change.surface == CHILD {
            return Some(change.rects.len());
        }
    }
    None
}

fn is_silent<A: Allocator>(told: &Applied<A>) -> bool {
    told.changes.is_empty() && told.callbacks.is_empty()
}

// A commit that is held tells no change.
fn holds<A: Allocator + Copy>(surfaces: &mut Surfaces<A>) -> bool {
    match surfaces.commit(CHILD) {
        Ok(told) => is_silent(&told),
        Err(_) => false,
    }
}

fn is_linked<A: Allocator + Copy>(surfaces: &mut Surfaces<A>) -> bool {
    create(surfaces) == Ok(PARENT)
        && create(surfaces) == Ok(CHILD)
        && surfaces.subsurface(CHILD, PARENT) == Ok(())
}

// Two commits are held, and a third isn't made.
fn holds_two<A: Allocator + Copy>(surfaces: &mut Surfaces<A>) -> bool {
    is_linked(surfaces)
        && asks(surfaces, 7, 30)
        && holds(surfaces)
        && asks(surfaces, 8, 31)
        && holds(surfaces)
        && asks(surfaces, 9, 32)
}

// The number of the buffer that the child shows, and how far it has moved.
fn shown<A: Allocator>(surfaces: &Surfaces<A>) -> Option<(BufferNo, Offset)> {
    let current = surfaces.current(CHILD)?;
    Some((current.buffer?.number, current.offset))
}

fn next_frame<A: Allocator + Copy>(surfaces: &mut Surfaces<A>) -> Option<u32> {
    surfaces.next_frame()
}

// Only the last buffer that is held is busy, and nothing is shown.
fn has_applied_none<A: Allocator + Copy>(surfaces: &mut Surfaces<A>) -> bool {
    shown(surfaces).is_none()
        && !surfaces.is_busy(7)
        && surfaces.is_busy(8)
        && !surfaces.is_busy(9)
        && next_frame(surfaces).is_none()
}

// Whether a commit of the parent tells of the child, and how many rectangles of it are damaged.
fn tells<A: Allocator + Copy>(surfaces: &mut Surfaces<A>, rects: usize) -> bool {
    match surfaces.commit(PARENT) {
        Ok(told) => damaged(&told.changes) == Some(rects),
        Err(_) => false,
    }
}

// Both commits are applied at once, with both frames.
fn applies_both<A: Allocator + Copy>(surfaces: &mut Surfaces<A>) -> bool {
    tells(surfaces, 2)
        && shown(surfaces) == Some((8, Offset { x: 2, y: 0 }))
        && next_frame(surfaces) == Some(30)
        && next_frame(surfaces) == Some(31)
        && next_frame(surfaces).is_none()
}

fn first<A: Allocator>(told: Result<Applied<A>, SurfaceError>) -> Option<u32> {
    match told {
        Ok(told) => told.callbacks.first().copied(),
        Err(_) => None,
    }
}

// Nothing is held any more, and the frame that wasn't committed goes with the surface.
fn has_applied_all(surfaces: &mut Surfaces<Global>) -> bool {
    tells(surfaces, 0)
        && first(surfaces.destroy(CHILD)) == Some(32)
        && surfaces.current(CHILD).is_none()
}

// A link that isn't there ends, and is desynchronised, without a word.
fn tells_nothing(surfaces: &mut Surfaces<Global>) -> bool {
    match surfaces.set_desync(PARENT) {
        Ok(told) if is_silent(&told) && told.shown.is_empty() => {}
        _ => return false,
    }
    match surfaces.remove_subsurface(PARENT) {
        Ok(told) => is_silent(&told) && told.shown.is_empty(),
        Err(_) => false,
    }
}

#[test]
fn held_commits_count_once_applied(rt: HostRuntime) {
    let mut surfaces = Surfaces::new(rt.alloc());
    assert!(rt; holds_two(&mut surfaces) && has_applied_none(&mut surfaces));
    assert!(rt; applies_both(&mut surfaces) && has_applied_all(&mut surfaces));
    assert!(rt; tells_nothing(&mut surfaces));
}
