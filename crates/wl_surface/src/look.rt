//! What is seen of a surface beside its pixels, and the order of the windows of a tree.

ghost use Rattle.std.specs.Prelude.{◌≡◌, ◌++◌, ◌+ℤ◌, Option, Some, None, IfOk, OnOk, find, flat_map, is_some};
ghost use Rattle.wl_links.specs.Family.{links_in, stacks_in};
ghost use Rattle.wl_links.specs.Stacks.{is_of};
ghost use Rattle.wl_surface.specs.Linked.{Stand};
ghost use Rattle.wl_surface.specs.Seen.{windows_at};
ghost use Rattle.wl_surface.specs.Surfaces.{Surfaces as Asked};
ghost use Rattle.wl_surface.specs.TreeLaws.{links_of};
ghost use Rattle.wl_surface.specs.Whole.{is_mapped, is_same_look, has_same_fields, look_of, order_of, place_by, position_of, windows};

use crate::states::SurfaceNo;
use crate::surfaces::Surfaces;
use std::alloc::{AllocError, Allocator};
use wl_links::{Link, MAX_DEPTH, Member, Placed};
use wl_store::Transform;

/// How many levels a tree has, that of its root among them.
pub(crate) const LEVELS: u8 = MAX_DEPTH as u8 + 1;

/// A surface's size in its own pixels, how its buffer is turned and scaled, and whether it is
/// mapped. `x` and `y` are its position from its parent plus its offset, in pixels.
#[derive(Clone, Copy, Debug, PartialEq, Eq)]
pub(crate) struct Look {
    pub(crate) w: u32,
    pub(crate) h: u32,
    pub(crate) transform: Transform,
    pub(crate) scale: u32,
    pub(crate) is_mapped: bool,
    pub(crate) x: i64,
    pub(crate) y: i64,
}

/// Whether two looks are the same.
fn has_same_fields(was: &Look, is: &Look) -> bool
    ensures { result ≡ has_same_fields was.now is.now }
{
    was == is
}

/// Whether both looks are the same, or both surfaces are gone.
pub(crate) fn is_same_look(was: &Option<Look>, is: &Option<Look>) -> bool
    ensures { result ≡ is_same_look was.now is.now }
{
    match (was, is) {
        (None, None) => true,
        (Some(was), Some(is)) => has_same_fields(was, is),
        _ => false,
    }
}

/// Whether this is the place of a child.
fn is_place_of(place: &Placed, child: SurfaceNo) -> bool
    ensures { result ≡ is_of (Member.Child child) place.now }
{
    match place.member {
        Member::Itself => false,
        Member::Child(other) => child == other,
    }
}

/// The place of a child.
fn find_child(places: &[Placed], child: SurfaceNo) -> Option<Placed>
    ensures { result ≡ find (is_of (Member.Child child)) places.now }
{
    places
        .iter()
        .copied()
        .find(|place| is_place_of(place, child))
}

/// How far right of its parent a place is: 0 without one.
fn x_of(place: Option<Placed>) -> i32
    ensures { result ≡ (position_of place).0 }
{
    match place {
        None => 0,
        Some(place) => place.x,
    }
}

/// How far below its parent a place is: 0 without one.
fn y_of(place: Option<Placed>) -> i32
    ensures { result ≡ (position_of place).1 }
{
    match place {
        None => 0,
        Some(place) => place.y,
    }
}

/// The sum of a position and an offset.
fn sum_of(position: i32, offset: i32) -> i64
    ensures { result ≡ position +ℤ offset }
{
    i64::from(position) + i64::from(offset)
}

/// Whether a surface is mapped. It looks at this many levels at most.
#[cycle(mapped)]
fn is_mapped<A: Allocator + Copy>(surfaces: &Surfaces<A>, levels: u8, surface: SurfaceNo) -> bool
    ensures { (all : Asked) → Stand surfaces.now.states surfaces.now.family all → result ≡ is_mapped levels all surface }
{
    if levels == 0 {
        return false;
    }
    if !surfaces.is_shown(surface) {
        return false;
    }
    let Some(link) = surfaces.link(surface) else {
        return true;
    };
    if !surfaces.has_added(link.parent, surface) {
        return false;
    }
    is_mapped(surfaces, levels - 1, link.parent)
}

/// Adds the windows of what stands at one place in the stack of a surface: itself, or those of a
/// child. It goes down this many levels at most.
#[cycle(windows)]
fn add_placed<A: Allocator + Copy>(
    surfaces: &Surfaces<A>,
    levels: u8,
    surface: SurfaceNo,
    placed: &Placed,
    order: &mut Vec<SurfaceNo, A>,
) -> Result<(), AllocError>
    ensures { OnOk result ((all : Asked) → Stand surfaces.now.states surfaces.now.family all
        → order.new.items ≡ order.old.items ++ windows_at levels all surface placed.now) }
{
    match placed.member {
        Member::Itself => order.push(surface)?,
        Member::Child(child) => add_windows(surfaces, levels, child, order)?,
    }
    Ok(())
}

/// Adds the windows of what stands in the stack of a surface, from below.
#[cycle(windows)]
fn add_stack<A: Allocator + Copy>(
    surfaces: &Surfaces<A>,
    levels: u8,
    surface: SurfaceNo,
    stack: &[Placed],
    order: &mut Vec<SurfaceNo, A>,
) -> Result<(), AllocError>
    ensures { OnOk result ((all : Asked) → Stand surfaces.now.states surfaces.now.family all
        → order.new.items ≡ order.old.items ++ flat_map (windows_at levels all surface) stack.now) }
{
    for placed in stack {
        add_placed(surfaces, levels, surface, placed, order)?;
    }
    Ok(())
}

/// Adds the windows of a tree from below, down to this many levels.
#[cycle(windows)]
fn add_windows<A: Allocator + Copy>(
    surfaces: &Surfaces<A>,
    levels: u8,
    surface: SurfaceNo,
    order: &mut Vec<SurfaceNo, A>,
) -> Result<(), AllocError>
    ensures { OnOk result ((all : Asked) → Stand surfaces.now.states surfaces.now.family all
        → order.new.items ≡ order.old.items ++ windows levels all surface) }
{
    if levels == 0 {
        return Ok(());
    }
    if !surfaces.is_shown(surface) {
        return Ok(());
    }
    let stack = surfaces.stack(surface);
    if stack.is_empty() {
        order.push(surface)?;
        return Ok(());
    }
    add_stack(surfaces, levels - 1, surface, stack, order)
}

impl<A: Allocator + Copy> Surfaces<A> {
    /// The place of a child in the stack of a surface.
    fn place_in(&self, parent: SurfaceNo, child: SurfaceNo) -> Option<Placed>
        ensures { result ≡ find (is_of (Member.Child child)) (stacks_in self.now.family parent).applied }
    {
        find_child(self.stack(parent), child)
    }

    /// Whether a child stands in the stack of a surface.
    fn has_added(&self, parent: SurfaceNo, child: SurfaceNo) -> bool
        ensures { result ≡ is_some (find (is_of (Member.Child child)) (stacks_in self.now.family parent).applied) }
    {
        self.place_in(parent, child).is_some()
    }

    /// The place that its parent gives a surface with this link.
    fn place_by(&self, surface: SurfaceNo, link: Option<Link>) -> Option<Placed>
        ensures { (all : Asked) → Stand self.now.states self.now.family all → result ≡ place_by all surface link }
    {
        match link {
            None => None,
            Some(link) => self.place_in(link.parent, surface),
        }
    }

    /// Whether a surface with this link and this place in the stack of its parent is mapped.
    fn is_mapped_at(&self, surface: SurfaceNo, link: Option<Link>, place: Option<Placed>) -> bool
        ensures { (all : Asked) → Stand self.now.states self.now.family all → link ≡ links_in self.now.family surface → place ≡ place_by all surface link
            → result ≡ is_mapped 17 all surface }
    {
        if !self.is_shown(surface) {
            return false;
        }
        let Some(link) = link else {
            return true;
        };
        let Some(_) = place else {
            return false;
        };
        is_mapped(self, MAX_DEPTH as u8, link.parent)
    }

    /// The look of a surface, if it is there.
    pub(crate) fn look(&self, surface: SurfaceNo) -> Option<Look>
        ensures { (all : Asked) → Stand self.now.states self.now.family all → result ≡ look_of all surface }
    {
        let current = self.current(surface)?;
        let link = self.link(surface);
        let place = self.place_by(surface, link);
        let x = sum_of(x_of(place), current.offset.x);
        let y = sum_of(y_of(place), current.offset.y);
        let is_mapped = self.is_mapped_at(surface, link, place);
        Some(Look {
            w: current.w,
            h: current.h,
            transform: current.transform,
            scale: current.scale.number,
            is_mapped,
            x,
            y,
        })
    }

    /// The mapped windows of the tree that a surface is in, from below.
    pub(crate) fn order(
        &self,
        surface: SurfaceNo,
        alloc: A,
    ) -> Result<Vec<SurfaceNo, A>, AllocError>
        ensures { IfOk result (λ order. (all : Asked) → Stand self.now.states self.now.family all → order.items ≡ order_of all surface) }
    {
        let mut order = Vec::new(alloc);
        add_windows(self, LEVELS, self.root(surface), &mut order)?;
        Ok(order)
    }
}
