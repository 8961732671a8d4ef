use std::alloc::Allocator;
use test_support::Refusing;
use wl_scene::{Scene, Surface, Toplevel};

const FIRST: Surface = Surface {
    client: 1,
    surface: 6,
};

const SECOND: Surface = Surface {
    client: 2,
    surface: 6,
};

const THIRD: Surface = Surface {
    client: 1,
    surface: 9,
};

fn stands<A: Allocator>(scene: &Scene<A>, k: usize, surface: Surface, x: i32, y: i32) -> bool {
    match scene.toplevels().get(k) {
        Some(toplevel) => toplevel.surface == surface && toplevel.x == x && toplevel.y == y,
        None => false,
    }
}

fn maps<A: Allocator>(
    scene: &mut Scene<A>,
    spare: &mut Vec<Toplevel, A>,
    surface: Surface,
) -> bool {
    scene.map(surface, spare).is_ok()
}

fn maps_nine<A: Allocator>(scene: &mut Scene<A>, spare: &mut Vec<Toplevel, A>) -> bool {
    for surface in 0..9_usize {
        if !maps(scene, spare, Surface { client: 1, surface }) {
            return false;
        }
    }
    scene.toplevels().len() == 9
}

// Whether each of the nine stands in its place of the cascade.
fn cascades<A: Allocator>(scene: &Scene<A>) -> bool {
    for surface in 0..9_usize {
        let at = 32 * (surface % 8) as i32;
        if !stands(scene, surface, Surface { client: 1, surface }, at, at) {
            return false;
        }
    }
    true
}

#[test]
fn each_mapping_takes_the_next_place(rt: HostRuntime) {
    let mut scene = Scene::new(rt.alloc());
    let mut spare = Vec::new(rt.alloc());
    assert!(rt; maps_nine(&mut scene, &mut spare) && cascades(&scene));
}

fn maps_three<A: Allocator>(scene: &mut Scene<A>, spare: &mut Vec<Toplevel, A>) -> bool {
    maps(scene, spare, FIRST) && maps(scene, spare, SECOND) && maps(scene, spare, THIRD)
}

fn raises_the_first<A: Allocator>(scene: &mut Scene<A>) -> bool {
    scene.raise(FIRST);
    stands(scene, 0, SECOND, 32, 32)
        && stands(scene, 1, THIRD, 64, 64)
        && stands(scene, 2, FIRST, 0, 0)
}

fn moves_the_third<A: Allocator>(scene: &mut Scene<A>) -> bool {
    scene.move_to(THIRD, -5, 7);
    stands(scene, 1, THIRD, -5, 7) && stands(scene, 2, FIRST, 0, 0)
}

fn unmaps_the_second<A: Allocator>(scene: &mut Scene<A>, spare: &mut Vec<Toplevel, A>) -> bool {
    scene.unmap(SECOND);
    scene.unmap(SECOND);
    scene.toplevels().len() == 2
        && stands(scene, 0, THIRD, -5, 7)
        && maps(scene, spare, SECOND)
        && stands(scene, 2, SECOND, 96, 96)
}

#[test]
fn a_toplevel_is_raised_moved_and_unmapped(rt: HostRuntime) {
    let mut scene = Scene::new(rt.alloc());
    let mut spare = Vec::new(rt.alloc());
    assert!(rt; maps_three(&mut scene, &mut spare) && raises_the_first(&mut scene));
    assert!(rt; moves_the_third(&mut scene) && unmaps_the_second(&mut scene, &mut spare));
}

// Maps surfaces up to the first that is refused: how many were mapped.
fn mapped<A: Allocator>(scene: &mut Scene<A>, spare: &mut Vec<Toplevel, A>) -> usize {
    for surface in 0..1000_usize {
        if !maps(scene, spare, Surface { client: 1, surface }) {
            return surface;
        }
    }
    1000
}

// Whether nothing more is mapped, and as many as before stay.
fn maps_no_more<A: Allocator>(
    scene: &mut Scene<A>,
    spare: &mut Vec<Toplevel, A>,
    mapped: usize,
) -> bool {
    !maps(scene, spare, SECOND) && scene.toplevels().len() == mapped
}

#[test]
fn a_mapping_without_memory_changes_nothing(rt: HostRuntime) {
    let heap = Refusing::new(rt.alloc(), 1);
    let mut scene = Scene::new(&heap);
    let mut spare = Vec::new(&heap);
    let served = mapped(&mut scene, &mut spare);
    assert!(rt; 0 < served && served < 1000 && maps_no_more(&mut scene, &mut spare, served));
    let nothing = Refusing::new(rt.alloc(), 0);
    let mut empty = Scene::new(&nothing);
    let mut no_room = Vec::new(&nothing);
    assert!(rt; maps_no_more(&mut empty, &mut no_room, 0));
}

// Whether a spare place with room for three toplevels takes one, and another such place the next
// two.
fn maps_into_room<A: Allocator + Copy>(scene: &mut Scene<A>, alloc: A) -> bool {
    let mut spare = Vec::new(alloc);
    let mut other = Vec::new(alloc);
    spare.try_reserve(3).is_ok()
        && other.try_reserve(3).is_ok()
        && Scene::new(alloc).map(FIRST, &mut Vec::new(alloc)).is_err()
        && maps(scene, &mut spare, FIRST)
        && maps(scene, &mut other, SECOND)
        && maps(scene, &mut other, THIRD)
}

// A spare place with room for one more than stand takes them all, although no memory is left.
#[test]
fn a_mapping_into_room_needs_no_memory(rt: HostRuntime) {
    let heap = Refusing::new(rt.alloc(), 2);
    let mut scene = Scene::new(&heap);
    assert!(rt; maps_into_room(&mut scene, &heap) && scene.toplevels().len() == 3);
    assert!(rt;
        stands(&scene, 0, FIRST, 0, 0)
            && stands(&scene, 1, SECOND, 32, 32)
            && stands(&scene, 2, THIRD, 64, 64)
    );
}
