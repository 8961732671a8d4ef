//! One stack of a surface and its children.

ghost use Rattle.std.specs.Prelude.{◌≡◌, ◌<◌, OnOk, OnErr, IfOk, vec_len, vec_capacity};
ghost use Rattle.wl_links.specs.Stacks.{added, alone, beside, has_member, moved, placed, whole, without};

use crate::placed::{Member, Placed, Side, index_of, is_place_of, move_child, place_of};
use crate::trees::SurfaceNo;
use std::alloc::{AllocError, Allocator};
use std::marker::Model;

/// The stack of a surface and its children from below, with their places. Contracts see it as that
/// whole list. Without children it may be empty, and then takes no memory.
#[derive(Drop)]
pub(crate) struct Stack<A: Allocator> {
    places: Vec<Placed, A>,
}

impl<A: Allocator> Model for Stack<A> {
    ghost use Rattle.std.specs.Prelude.{List, ◌≡◌, true};
    ghost use Rattle.wl_links.specs.declared.placed.Member.TheVariants.{Itself};
    ghost use Rattle.wl_links.specs.declared.placed.Placed.{Placed};
    ghost use Rattle.wl_links.specs.Stacks.{has_member, whole};

    ghost Value = { List Placed };

    ghost view = { λ stack. whole stack.places.items };

    ghost invariant = { λ stack. has_member Itself (whole stack.places.items) ≡ true };
}

/// Takes the place of a member out.
fn take_out<A: Allocator>(places: &mut Vec<Placed, A>, member: Member)
    ensures items { places.new.items ≡ without member places.old.items }
    ensures capacity { vec_capacity places.new ≡ vec_capacity places.old }
{
    places.retain(|place| !is_place_of(place, member));
}

/// Puts a place right above or right below that of a member. Nothing changes if the member has
/// none.
fn put_beside<A: Allocator>(places: &mut Vec<Placed, A>, place: Placed, at: Member, side: Side)
    requires { vec_len places.old < vec_capacity places.old }
    ensures { places.new.items ≡ beside side place at places.old.items }
{
    let Some(index) = index_of(places, at) else {
        return;
    };
    let index = match side {
        Side::Above => index + 1,
        Side::Below => index,
    };
    let _ = places.insert(index, place);
}

/// Whether a member other than this child has a place.
fn has_other(places: &[Placed], child: SurfaceNo, member: Member) -> bool
    ensures { result ≡ has_member member (without (Member.Child child) places.now) }
{
    places
        .iter()
        .filter(|place| !is_place_of(place, Member::Child(child)))
        .any(|place| is_place_of(place, member))
}

/// Puts a child right above or right below a member. Nothing changes if one of them has no place,
/// or both are the same.
fn place_beside<A: Allocator>(places: &mut Vec<Placed, A>, child: SurfaceNo, at: Member, side: Side)
    ensures { places.new.items ≡ placed (beside side) child at places.old.items }
{
    let Some(place) = place_of(places, Member::Child(child)) else {
        return;
    };
    if !has_other(places, child, at) {
        return;
    }
    take_out(places, Member::Child(child));
    put_beside(places, place, at, side);
}

impl<A: Allocator> Stack<A> {
    /// A surface without children.
    pub(crate) fn new(alloc: A) -> Self
        ensures { result ≡ alone }
    {
        Stack {
            places: Vec::new(alloc),
        }
    }

    /// A copy of the stack.
    pub(crate) fn copied(&self) -> Result<Self, AllocError>
    where
        A: Copy,
        ensures { IfOk result (λ stack. stack ≡ self.now) }
    {
        let alloc = *self.places.allocator();
        let places = Vec::from_slice(alloc, &self.places)?;
        Ok(Stack { places })
    }

    /// The stack from below; it may be empty if the surface has no children.
    pub(crate) fn places(&self) -> &[Placed]
        ensures { whole result.now ≡ self.now }
    {
        &self.places
    }

    /// Puts a new child topmost, at (0, 0). Without memory nothing changes.
    pub(crate) fn add(&mut self, child: SurfaceNo) -> Result<(), AllocError>
        ensures ok { OnOk result (self.new ≡ added child self.old) }
        ensures err { OnErr result (self.new ≡ self.old) }
    {
        if self.places.is_empty() {
            self.places.push(Placed::at_corner(Member::Itself))?;
        }
        self.places.push(Placed::at_corner(Member::Child(child)))?;
        Ok(())
    }

    /// Moves a child.
    pub(crate) fn set_position(&mut self, child: SurfaceNo, x: i32, y: i32)
        ensures { self.new ≡ moved child x y self.old }
    {
        move_child(&mut self.places, child, x, y);
    }

    /// Puts a child right above or right below a member.
    pub(crate) fn place(&mut self, child: SurfaceNo, at: Member, side: Side)
        ensures { self.new ≡ placed (beside side) child at self.old }
    {
        place_beside(&mut self.places, child, at, side);
    }

    /// Takes a child out.
    pub(crate) fn remove(&mut self, child: SurfaceNo)
        ensures { self.new ≡ without (Member.Child child) self.old }
    {
        take_out(&mut self.places, Member::Child(child));
    }
}
