use std::alloc::{Allocator, Global};
use test_support::Refusing;
use wl_links::{Children, Member, Placed, Side};

// Three children, by their numbers.
const FIRST: Member = Member::Child(1);

const SECOND: Member = Member::Child(2);

const THIRD: Member = Member::Child(3);

// Whether these stand in the stack, in this order from below, each at the place told.
fn stack_is(places: &[Placed], expected: &[(Member, i32, i32)]) -> bool {
    places.len() == expected.len()
        && places.iter().zip(expected).all(|(place, (member, x, y))| {
            place.member == *member && place.x == *x && place.y == *y
        })
}

// Whether these stand in the stack, in this order from below.
fn order_is(places: &[Placed], expected: &[Member]) -> bool {
    places.len() == expected.len()
        && places
            .iter()
            .zip(expected)
            .all(|(place, member)| place.member == *member)
}

// Whether the surface has no children.
fn is_alone(places: &[Placed]) -> bool {
    places.iter().all(|place| place.member == Member::Itself)
}

// Adds so many children, from 1 on.
fn added<A: Allocator + Copy>(children: &mut Children<A>, count: usize) -> bool {
    for child in 1..=count {
        if children.add(child).is_err() {
            return false;
        }
    }
    true
}

// Whether two new children are topmost, at (0, 0), and count once the surface is applied.
fn new_are_topmost<A: Allocator + Copy>(children: &mut Children<A>) -> bool {
    let are_pending = is_alone(children.pending())
        && is_alone(children.applied())
        && added(children, 2)
        && stack_is(
            children.pending(),
            &[(Member::Itself, 0, 0), (FIRST, 0, 0), (SECOND, 0, 0)],
        );
    children.hold();
    let wait = is_alone(children.applied());
    children.apply();
    are_pending && wait && order_is(children.applied(), &[Member::Itself, FIRST, SECOND])
}

// wl_subcompositor.get_subsurface
#[test]
fn a_new_child_is_topmost(rt: HostRuntime) {
    let mut children = Children::new(rt.alloc());
    assert!(rt; new_are_topmost(&mut children));
}

// Whether a place that is committed counts once the surface is applied, and none that was asked
// later.
fn applies_what_was_committed<A: Allocator + Copy>(children: &mut Children<A>) -> bool {
    let is_added = added(children, 1);
    children.hold();
    children.apply();
    let is_placed = children.place(1, Member::Itself, Side::Below).is_ok()
        && children.set_position(1, 4, -1).is_ok();
    children.hold();
    let waits = stack_is(children.applied(), &[(Member::Itself, 0, 0), (FIRST, 0, 0)])
        && children.set_position(1, 9, 9).is_ok();
    children.apply();
    is_added
        && is_placed
        && waits
        && stack_is(
            children.applied(),
            &[(FIRST, 4, -1), (Member::Itself, 0, 0)],
        )
        && stack_is(children.pending(), &[(FIRST, 9, 9), (Member::Itself, 0, 0)])
}

// wl_surface.commit
#[test]
fn a_commit_applies_nothing(rt: HostRuntime) {
    let mut children = Children::new(rt.alloc());
    assert!(rt; applies_what_was_committed(&mut children));
}

// A place that is asked for, and the order of all that is wanted then.
type Place = (usize, Side, Member, [Member; 4]);

// Beside a sibling, beside the surface, and where nothing changes or there is no such child; worked
// by hand.
const PLACES: [Place; 8] = [
    (
        1,
        Side::Above,
        THIRD,
        [Member::Itself, SECOND, THIRD, FIRST],
    ),
    (
        3,
        Side::Below,
        Member::Itself,
        [THIRD, Member::Itself, SECOND, FIRST],
    ),
    (
        1,
        Side::Below,
        SECOND,
        [THIRD, Member::Itself, FIRST, SECOND],
    ),
    (
        2,
        Side::Above,
        THIRD,
        [THIRD, SECOND, Member::Itself, FIRST],
    ),
    (
        2,
        Side::Above,
        SECOND,
        [THIRD, SECOND, Member::Itself, FIRST],
    ),
    (
        2,
        Side::Below,
        Member::Child(4),
        [THIRD, SECOND, Member::Itself, FIRST],
    ),
    (
        4,
        Side::Above,
        Member::Itself,
        [THIRD, SECOND, Member::Itself, FIRST],
    ),
    (
        4,
        Side::Below,
        Member::Itself,
        [THIRD, SECOND, Member::Itself, FIRST],
    ),
];

fn is_placed<A: Allocator + Copy>(children: &mut Children<A>, place: Place) -> bool {
    let (child, side, beside, wanted) = place;
    children.place(child, beside, side).is_ok() && order_is(children.pending(), &wanted)
}

// The first of these that isn't as wanted.
fn misplaced<A: Allocator + Copy>(children: &mut Children<A>, places: &[Place]) -> Option<usize> {
    for (at, place) in places.iter().enumerate() {
        if !is_placed(children, *place) {
            return Some(at);
        }
    }
    None
}

// Whether a child that isn't there is nowhere.
fn none_is_moved<A: Allocator + Copy>(children: &mut Children<A>) -> bool {
    children.set_position(4, 1, 1).is_ok()
        && order_is(children.pending(), &[THIRD, SECOND, Member::Itself, FIRST])
}

// wl_subsurface.place_above and place_below
#[test]
fn siblings_stand_in_order(rt: HostRuntime) {
    let mut children = Children::new(rt.alloc());
    assert!(rt;
        added(&mut children, 3)
            && misplaced(&mut children, &PLACES).is_none()
            && none_is_moved(&mut children)
    );
}

// Whether a child that goes is at once in none of the three.
fn goes_at_once<A: Allocator + Copy>(children: &mut Children<A>) -> bool {
    let is_added = added(children, 2);
    children.hold();
    children.apply();
    let is_below = children.place(1, Member::Itself, Side::Below).is_ok();
    children.hold();
    let is_moved = children.set_position(2, 5, 6).is_ok();
    children.remove(1);
    let is_gone = stack_is(
        children.applied(),
        &[(Member::Itself, 0, 0), (SECOND, 0, 0)],
    ) && stack_is(
        children.pending(),
        &[(Member::Itself, 0, 0), (SECOND, 5, 6)],
    );
    children.apply();
    is_added
        && is_below
        && is_moved
        && is_gone
        && stack_is(
            children.applied(),
            &[(Member::Itself, 0, 0), (SECOND, 0, 0)],
        )
        && order_is(children.pending(), &[Member::Itself, SECOND])
}

// wl_subsurface.destroy
#[test]
fn a_child_that_goes_is_nowhere(rt: HostRuntime) {
    let mut children = Children::new(rt.alloc());
    assert!(rt; goes_at_once(&mut children));
}

// Whether all that is asked of a surface without children leaves it alone.
fn stays_alone<A: Allocator + Copy>(children: &mut Children<A>) -> bool {
    let is_answered = children.set_position(1, 1, 1).is_ok()
        && children.place(1, Member::Itself, Side::Above).is_ok();
    children.hold();
    children.apply();
    children.remove(1);
    is_answered && is_alone(children.applied())
}

// A surface without children takes no memory.
#[test]
fn no_child_needs_no_memory(rt: HostRuntime) {
    let nothing = Refusing::new(rt.alloc(), 0);
    let mut alone = Children::new(&nothing);
    assert!(rt; stays_alone(&mut alone));
    assert!(rt; !nothing.refused());
}

// How often a child is refused memory, 0 or 1, as it is added and then placed below the surface.
// None where it isn't answered so, or a refusal doesn't leave the children as they were.
fn refusals<A: Allocator + Copy>(children: &mut Children<A>) -> Option<usize> {
    if !added(children, 1) {
        return if is_alone(children.pending()) {
            Some(1)
        } else {
            None
        };
    }
    children.hold();
    children.apply();
    let (refused, wanted) = match children.place(1, Member::Itself, Side::Below) {
        Ok(()) => (0, [FIRST, Member::Itself]),
        Err(_) => (1, [Member::Itself, FIRST]),
    };
    if order_is(children.pending(), &wanted)
        && order_is(children.applied(), &[Member::Itself, FIRST])
    {
        Some(refused)
    } else {
        None
    }
}

fn refusals_where_served(alloc: Global, served: u64) -> Option<usize> {
    let refusing = Refusing::new(alloc, served);
    let mut children = Children::new(&refusing);
    refusals(&mut children)
}

// How often it is refused with 0 to 7 allocations served.
fn all_refusals(alloc: Global) -> Option<usize> {
    let mut all = 0_usize;
    for served in 0..8_u64 {
        all = all.saturating_add(refusals_where_served(alloc, served)?);
    }
    Some(all)
}

// Each allocation refused in turn leaves the children as they were.
#[test]
fn a_child_needs_memory(rt: HostRuntime) {
    match all_refusals(rt.alloc()) {
        Some(refused) => assert!(rt; refused >= 2),
        None => assert!(rt; false),
    }
}
