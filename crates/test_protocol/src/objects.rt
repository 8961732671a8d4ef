//! The objects of a client, by their ids.

use std::alloc::Allocator;
use wl_proto::Interface;
use wl_table::*;

fn entry(interface: Interface, target: usize) -> Entry {
    Entry {
        interface,
        version: 1,
        target,
    }
}

// A surface whose target is its id.
pub(crate) fn surface(id: u32) -> Entry {
    entry(Interface::WlSurface, id as usize)
}

pub(crate) fn inserts<A: Allocator + Copy>(objects: &mut Objects<A>, id: u32) -> bool {
    objects.insert(id, surface(id)) == Ok(())
}

fn refuses<A: Allocator + Copy>(objects: &mut Objects<A>, id: u32, error: TableError) -> bool {
    objects.insert(id, entry(Interface::WlShm, 0)) == Err(error)
}

pub(crate) fn has<A: Allocator>(objects: &Objects<A>, id: u32, target: usize) -> bool {
    objects.get(id) == Some(entry(Interface::WlSurface, target))
}

// Whether the object is there, and its id is refused to another.
fn keeps<A: Allocator + Copy>(objects: &mut Objects<A>, id: u32) -> bool {
    has(objects, id, id as usize) && refuses(objects, id, TableError::InUse)
}

// Whether the object goes, and only once.
fn removes<A: Allocator>(objects: &mut Objects<A>, id: u32) -> bool {
    objects.remove(id) == Some(entry(Interface::WlSurface, id as usize))
        && objects.remove(id).is_none()
}

fn inserts_within_its_ids<A: Allocator + Copy>(objects: &mut Objects<A>) -> bool {
    objects.insert(1, entry(Interface::WlDisplay, 0)) == Ok(())
        && objects.insert(2, entry(Interface::WlRegistry, 7)) == Ok(())
        && refuses(objects, 2, TableError::InUse)
        && refuses(objects, 0, TableError::BadId)
        && refuses(objects, 0xff000000, TableError::BadId)
        && objects.insert(0xfeffffff, entry(Interface::WlShm, 0)) == Ok(())
        && objects.next_after(2) == Some(0xfeffffff)
        && objects.next_after(0xfeffffff).is_none()
}

fn sets_and_removes<A: Allocator>(objects: &mut Objects<A>) -> bool {
    objects.set(2, 9)
        && !objects.set(3, 9)
        && objects.get(2) == Some(entry(Interface::WlRegistry, 9))
        && objects.remove(2) == Some(entry(Interface::WlRegistry, 9))
        && objects.get(2).is_none()
        && objects.len() == 2
}

#[test]
fn holds_objects_by_their_ids(rt: HostRuntime) {
    let mut objects = Objects::new(rt.alloc());
    assert!(rt; objects.len() == 0);
    assert!(rt; inserts_within_its_ids(&mut objects) && sets_and_removes(&mut objects));
}

pub(crate) const IN_ANY_ORDER: &[u32] = &[9000, 5, 1, 8193, 8192, 4];

fn inserts_in_any_order<A: Allocator + Copy>(objects: &mut Objects<A>) -> bool {
    for &id in IN_ANY_ORDER {
        if !inserts(objects, id) {
            return false;
        }
    }
    for &id in IN_ANY_ORDER {
        if !keeps(objects, id) {
            return false;
        }
    }
    objects.len() == 6
}

fn tells_them_in_rising_order<A: Allocator>(objects: &Objects<A>) -> bool {
    objects.next_after(0) == Some(1)
        && objects.next_after(1) == Some(4)
        && objects.next_after(5) == Some(8192)
        && objects.next_after(8192) == Some(8193)
        && objects.next_after(8193) == Some(9000)
}

fn removes_and_sets<A: Allocator>(objects: &mut Objects<A>) -> bool {
    removes(objects, 8193)
        && removes(objects, 8192)
        && objects.next_after(5) == Some(9000)
        && objects.set(9000, 7)
        && objects.set(4, 8)
        && !objects.set(8193, 9)
        && has(objects, 9000, 7)
        && has(objects, 4, 8)
        && objects.get(3).is_none()
        && objects.len() == 4
}

#[test]
fn holds_ids_that_come_in_any_order(rt: HostRuntime) {
    let mut objects = Objects::new(rt.alloc());
    assert!(rt; inserts_in_any_order(&mut objects));
    assert!(rt; tells_them_in_rising_order(&objects));
    assert!(rt; removes_and_sets(&mut objects));
}

fn inserts_8192<A: Allocator + Copy>(objects: &mut Objects<A>) -> bool {
    for id in 1..8193_u32 {
        if !inserts(objects, id) {
            return false;
        }
    }
    objects.len() == 8192
}

#[test]
fn holds_8192_objects(rt: HostRuntime) {
    let mut objects = Objects::new(rt.alloc());
    assert!(rt; inserts_8192(&mut objects));
    assert!(rt; refuses(&mut objects, 9000, TableError::TooMany) && objects.len() == 8192);
}

// Two surfaces with one target, and a third one.
fn inserts_three<A: Allocator + Copy>(objects: &mut Objects<A>) -> bool {
    objects.insert(9000, entry(Interface::WlSurface, 4)) == Ok(())
        && objects.insert(8193, entry(Interface::WlSurface, 4)) == Ok(())
        && objects.insert(2, entry(Interface::WlSurface, 0)) == Ok(())
}

fn finds_the_least<A: Allocator + Copy>(objects: &mut Objects<A>) -> bool {
    objects.find(Interface::WlSurface, 4) == Some(8193)
        && objects.find(Interface::WlSurface, 0) == Some(2)
        && objects.find(Interface::WlRegion, 4).is_none()
        && objects.insert(8192, entry(Interface::WlSurface, 4)) == Ok(())
        && objects.find(Interface::WlSurface, 4) == Some(8192)
        && objects.insert(1, entry(Interface::WlRegion, 4)) == Ok(())
        && objects.find(Interface::WlRegion, 4) == Some(1)
        && objects.find(Interface::WlSurface, 4) == Some(8192)
        && objects.find(Interface::WlSurface, 5).is_none()
}

#[test]
fn finds_objects_by_their_targets(rt: HostRuntime) {
    let mut objects = Objects::new(rt.alloc());
    assert!(rt; inserts_three(&mut objects) && finds_the_least(&mut objects));
}
