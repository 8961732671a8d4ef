//! What is applied of a tree of surfaces, surface by surface.

ghost use Rattle.std.specs.Prelude.{ℕ, [], ◌≡◌, ◌≤◌, ◌+◌, ◌++◌, ◌==◌, ◌&&◌, not, cond, Bool, List, length, map, count_by, vec_capacity, vec_len, IfOk, OnOk};
ghost use Rattle.wl_links.specs.Family.{HangTogether, links_in, parents_of, stacks_in};
ghost use Rattle.wl_surface.specs.Tree.{AreAmong, AreOnce, AreToldAfter, applied_among, is_among, listed, numbers_of, shown_by, stacks_among};
ghost use Rattle.wl_surface.specs.Kept.{buffer_of};
ghost use Rattle.wl_surface.specs.Slots.{IsAny, Numbered, StandForAll, shows_at};
ghost use Rattle.wl_surface.specs.Waiting.{AreWaiting, Callback};
ghost use Rattle.wl_links.specs.Trees.{is_under};

use crate::applied::Change;
use crate::content::{Attached, BufferNo};
use crate::states::{SurfaceNo, SurfaceStates};
use std::alloc::{AllocError, Allocator};
use wl_links::Family;

/// The numbers of the surface and of all that descend from it.
pub(crate) fn below<A: Allocator + Copy>(
    family: &Family<A>,
    surface: SurfaceNo,
    alloc: A,
) -> Result<Vec<SurfaceNo, A>, AllocError>
    ensures those { IfOk result (λ below. (number : ℕ) → is_among below.items number ≡ is_under 16 (parents_of (links_in family.now)) surface number) }
    ensures once { IfOk result (λ below. AreOnce below.items) }
    ensures hang { HangTogether family.now }
{
    let tree = family.tree(surface);
    let mut below = Vec::new(alloc);
    if tree.is_empty() {
        below.push(surface)?;
        return Ok(below);
    }
    for place in tree {
        below.push(place.surface)?;
    }
    Ok(below)
}

/// Appends the buffer, if there is one.
fn add_buffer<A: Allocator>(
    buffers: &mut Vec<Attached, A>,
    buffer: Option<Attached>,
) -> Result<(), AllocError>
    ensures { OnOk result (buffers.new.items ≡ buffers.old.items ++ listed buffer) }
{
    match buffer {
        Some(attached) => buffers.push(attached)?,
        None => (),
    }
    Ok(())
}

/// The applied and held buffers of these surfaces, as they were attached.
pub(crate) fn shown_of<A: Allocator + Copy>(
    surfaces: &SurfaceStates<A>,
    numbers: &[SurfaceNo],
    alloc: A,
) -> Result<Vec<Attached, A>, AllocError>
    ensures { IfOk result (λ shown. (all : Numbered) → StandForAll surfaces.now all → map buffer_of shown.items ≡ shown_by numbers.now all) }
{
    let mut shown = Vec::new(alloc);
    for number in numbers {
        let [_, held, applied] = surfaces.buffers(*number);
        add_buffer(&mut shown, applied)?;
        add_buffer(&mut shown, held)?;
    }
    Ok(shown)
}

/// Whether the number is among these.
fn has_number(numbers: &[BufferNo], number: BufferNo) -> bool
    ensures { result ≡ is_among numbers.now number }
{
    numbers.iter().any(|other| *other == number)
}

/// Adds each of these buffers that isn't busy, once. There is room for them.
pub(crate) fn add_freed<A: Allocator>(
    surfaces: &SurfaceStates<A>,
    shown: &[Attached],
    freed: &mut Vec<BufferNo, A>,
)
    requires none { freed.old.items ≡ [] }
    requires room { length shown.now ≤ vec_capacity freed.old }
    ensures counted { (all : Numbered) → StandForAll surfaces.now all → (buffer : ℕ) (is : Bool) → IsAny (shows_at buffer) all is
        → count_by (λ n. n == buffer) freed.new.items ≡ cond (is_among (numbers_of (map buffer_of shown.now)) buffer && not is) 1 0 }
    ensures among { AreAmong freed.new.items (map buffer_of shown.now) }
{
    for buffer in shown {
        let number = buffer.number;
        if !surfaces.is_busy(number) && !has_number(freed, number) {
            freed.push_reserved(number);
        }
    }
}

/// Applies these surfaces in turn, and adds what each changes. There is room for that.
pub(crate) fn apply_each<A: Allocator + Copy>(
    surfaces: &mut SurfaceStates<A>,
    family: &mut Family<A>,
    numbers: &[SurfaceNo],
    changes: &mut Vec<Change<A>, A>,
)
    requires room { vec_len changes.old + length numbers.now ≤ vec_capacity changes.old }
    ensures stand { (all : Numbered) → StandForAll surfaces.old all → StandForAll surfaces.new (applied_among numbers.now all) }
    ensures waits { (all : Numbered) (cs : List Callback) → AreWaiting surfaces.old.frames all cs → AreWaiting surfaces.new.frames (applied_among numbers.now all) cs }
    ensures told { (all : Numbered) → StandForAll surfaces.old all → AreOnce numbers.now → AreToldAfter changes.old.items numbers.now all changes.new.items }
    ensures links { links_in family.new ≡ links_in family.old }
    ensures places { family.new.places ≡ family.old.places }
    ensures stacks { stacks_in family.new ≡ stacks_among numbers.now (stacks_in family.old) }
{
    for number in numbers {
        if let Some(change) = surfaces.apply(*number) {
            changes.push_reserved(change);
        }
        family.apply(*number);
    }
}
