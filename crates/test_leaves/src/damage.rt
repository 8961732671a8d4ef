ghost use Rattle.std.specs.Prelude.{◌≡◌, ◌<◌, ◌≤◌};

use std::alloc::{AllocError, Allocator, Global};
use test_support::Refusing;
use wl_geom::Rect;
use wl_paint::Damage;

fn rect(x: i32, y: i32, w: i32, h: i32) -> Rect {
    Rect { x, y, w, h }
}

// Whether so many points are damaged once the rectangle is.
fn counts<A: Allocator>(damage: &mut Damage<A>, rect: Rect, wanted: u32) -> bool
    ensures { damage.new.height ≡ damage.old.height }
{
    damage.add(rect);
    damage.count() == wanted
}

// Whether all that is damaged are 10 points of row 0 from column 60 on.
fn has_a_run<A: Allocator>(damage: &Damage<A>) -> bool
    requires { 1 < damage.now.height }
{
    damage.next_run(0, 0) == Some((60, 10))
        && damage.next_run(0, 65) == Some((65, 5))
        && damage.next_run(0, 70).is_none()
        && damage.next_run(1, 0).is_none()
        && damage.count() == 10
}

fn has_its_points<A: Allocator>(damage: &Damage<A>) -> bool
    requires { 1 < damage.now.height }
{
    damage.has(60, 0)
        && damage.has(69, 0)
        && !damage.has(59, 0)
        && !damage.has(70, 0)
        && !damage.has(130, 0)
        && !damage.has(4_294_967_295, 1)
}

fn is_marked_and_cleared<A: Allocator>(damage: &mut Damage<A>) -> bool
    requires { 1 < damage.old.height }
{
    let was_empty = damage.count() == 0;
    damage.add(rect(60, 0, 10, 1));
    let is_marked = was_empty
        && has_a_run(damage)
        && counts(damage, rect(0, 1, 2_147_483_647, 1), 140)
        && counts(damage, rect(60, 0, 10, 1), 140)
        && has_its_points(damage);
    damage.clear();
    is_marked && damage.count() == 0 && !damage.has(60, 0)
}

#[test]
fn runs_and_counts(rt: HostRuntime) {
    let is_right = match Damage::new(rt.alloc(), 130, 2) {
        Ok(mut damage) => is_marked_and_cleared(&mut damage),
        Err(_) => false,
    };
    assert!(rt; is_right);
}

// The same block again, parts of it, and what reaches over it on each side.
fn is_marked_again<A: Allocator>(damage: &mut Damage<A>) -> bool {
    counts(damage, rect(40, 1, 60, 3), 180)
        && counts(damage, rect(40, 1, 60, 3), 180)
        && counts(damage, rect(50, 2, 1, 1), 180)
        && counts(damage, rect(30, 1, 20, 1), 190)
        && counts(damage, rect(90, 1, 20, 1), 200)
        && counts(damage, rect(0, 1, 5, 1), 205)
        && counts(damage, rect(0, 1, 130, 1), 250)
        && counts(damage, rect(0, 0, 130, 5), 650)
        && counts(damage, rect(-5, -5, 500, 500), 650)
}

// What is cleared is marked anew.
#[test]
fn blocks_again(rt: HostRuntime) {
    let is_right = match Damage::new(rt.alloc(), 130, 5) {
        Ok(mut damage) => {
            let first = is_marked_again(&mut damage);
            damage.clear();
            first && damage.count() == 0 && is_marked_again(&mut damage)
        }
        Err(_) => false,
    };
    assert!(rt; is_right);
}

fn has_its_last_column<A: Allocator>(damage: &Damage<A>, width: u32) -> bool
    requires some { 1 ≤ width }
    requires high { 0 < damage.now.height }
{
    damage.next_run(0, 0) == Some((width - 1, 1))
        && damage.count() == 1
        && damage.has(width - 1, 0)
        && !damage.has(width, 0)
}

fn has_its_row<A: Allocator>(damage: &Damage<A>, width: u32) -> bool
    requires some { 1 ≤ width }
    requires high { 0 < damage.now.height }
{
    damage.next_run(0, 0) == Some((0, width))
        && damage.next_run(0, width - 1) == Some((width - 1, 1))
        && damage.next_run(0, width).is_none()
        && damage.count() == width
}

fn is_as_wide<A: Allocator>(damage: &mut Damage<A>, width: u32) -> bool
    requires some { 1 ≤ width }
    requires wide { width ≤ 4096 }
    requires high { 0 < damage.old.height }
{
    damage.add(rect(width as i32 - 1, 0, 1, 1));
    let had_its_last = has_its_last_column(damage, width);
    damage.add(rect(-1, -1, 4098, 2));
    let had_its_row = has_its_row(damage, width);
    damage.clear();
    had_its_last && had_its_row && damage.next_run(0, 0).is_none()
}

/// The last column of a row, and then the whole of it.
fn has_width(alloc: Global, width: u32) -> bool
    requires some { 1 ≤ width }
    requires wide { width ≤ 4096 }
{
    match Damage::new(alloc, width, 1) {
        Ok(mut damage) => is_as_wide(&mut damage, width),
        Err(_) => false,
    }
}

#[test]
fn widths_about_a_word(rt: HostRuntime) {
    assert!(rt; has_width(rt.alloc(), 1));
    assert!(rt; has_width(rt.alloc(), 63));
    assert!(rt; has_width(rt.alloc(), 64));
    assert!(rt; has_width(rt.alloc(), 65));
    assert!(rt; has_width(rt.alloc(), 4096));
}

fn is_marked_within<A: Allocator>(damage: &mut Damage<A>) -> bool {
    counts(
        damage,
        rect(-2_147_483_648, 0, 2_147_483_647, 2_147_483_647),
        0,
    ) && counts(
        damage,
        rect(2_147_483_647, 2_147_483_647, 2_147_483_647, 2_147_483_647),
        0,
    ) && counts(damage, rect(5, 5, -3, 3), 0)
        && counts(damage, rect(5, 5, 0, 3), 0)
        && counts(damage, rect(40, 0, 1, 1), 0)
        && counts(damage, rect(0, 0, 2_147_483_647, 1), 40)
        && counts(damage, rect(-5, -5, 10, 10), 60)
}

// What lies outside the output marks nothing, however far its edges are.
#[test]
fn edges_far_away(rt: HostRuntime) {
    let is_right = match Damage::new(rt.alloc(), 40, 40) {
        Ok(mut damage) => is_marked_within(&mut damage),
        Err(_) => false,
    };
    assert!(rt; is_right);
}

// Whether a damage is made, and then marks a point. None where it doesn't, or an allocation was
// refused to it or none to what wasn't made.
fn is_made<A: Allocator, B: Allocator>(
    made: Result<Damage<A>, AllocError>,
    heap: &Refusing<B>,
) -> Option<bool> {
    let (is_right, is_made) = match made {
        Ok(mut damage) => (
            counts(&mut damage, rect(1, 1, 1, 1), 1) && !heap.refused(),
            true,
        ),
        Err(AllocError) => (heap.refused(), false),
    };
    if is_right { Some(is_made) } else { None }
}

fn is_made_with<B: Allocator + Copy>(alloc: B, served: u64) -> Option<bool> {
    let heap = Refusing::new(alloc, served);
    is_made(Damage::new(&heap, 3, 2), &heap)
}

#[test]
fn each_refusal(rt: HostRuntime) {
    let mut refusals = 0_u32;
    for served in 0..100_u64 {
        match is_made_with(rt.alloc(), served) {
            Some(true) => break,
            Some(false) => refusals = refusals.saturating_add(1),
            None => assert!(rt; false, "{served}"),
        }
    }
    assert!(rt; refusals == 3);
}
