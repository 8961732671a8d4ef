//! The stack of a surface and its children: pending, held and applied.

ghost use Rattle.std.specs.Prelude.{◌≡◌, OnOk, OnErr, IfOk, option_map};
ghost use Rattle.wl_links.specs.Stacks.{added, alone, beside, moved, placed, removed, whole, without};

use crate::placed::{Member, Placed, Side};
use crate::stack::Stack;
use crate::trees::SurfaceNo;
use std::alloc::{AllocError, Allocator};
use std::marker::Model;

/// The stack of a surface and its children from below, and where the children are: pending, held
/// and applied (wayland.xml, wl_subsurface). Contracts see it as these three lists.
///
/// A surface without children takes no memory. A list that wasn't changed since takes none of its
/// own.
#[derive(Drop)]
pub struct Children<A: Allocator> {
    // as held, if it isn't there
    pending: Option<Stack<A>>,
    // as applied, if it isn't there
    held: Option<Stack<A>>,
    applied: Stack<A>,
}

impl<A: Allocator> Model for Children<A> {
    ghost use Rattle.wl_links.specs.Stacks.{Stacks, stacks_of};

    ghost Value = { Stacks };

    ghost view = { λ children. stacks_of children.pending children.held children.applied };
}

/// Takes a child out of a stack, if it is there.
fn remove_from<A: Allocator>(stack: &mut Option<Stack<A>>, child: SurfaceNo)
    ensures { stack.new ≡ option_map (without (Member.Child child)) stack.old }
{
    if let Some(stack) = stack {
        stack.remove(child);
    }
}

impl<A: Allocator> Children<A> {
    /// A surface without children.
    pub fn new(alloc: A) -> Self
        ensures { result ≡ record { pending = alone; held = alone; applied = alone } }
    {
        Children {
            pending: None,
            held: None,
            applied: Stack::new(alloc),
        }
    }

    /// The held stack.
    fn held_stack(&self) -> &Stack<A>
        ensures { result.now ≡ self.now.held }
    {
        match &self.held {
            Some(stack) => stack,
            None => &self.applied,
        }
    }

    /// The pending stack.
    fn pending_stack(&self) -> &Stack<A>
        ensures { result.now ≡ self.now.pending }
    {
        match &self.pending {
            Some(stack) => stack,
            None => self.held_stack(),
        }
    }

    /// Takes the pending stack out, to be changed and put back; until then it is as the held one.
    /// Without memory nothing changes.
    fn take_pending(&mut self) -> Result<Stack<A>, AllocError>
    where
        A: Copy,
        ensures stack { IfOk result (λ stack. stack ≡ self.old.pending) }
        ensures ok { OnOk result (self.new ≡ record self.old { pending = self.old.held }) }
        ensures err { OnErr result (self.new ≡ self.old) }
    {
        match self.pending.take() {
            Some(stack) => Ok(stack),
            None => self.held_stack().copied(),
        }
    }

    /// wl_subcompositor.get_subsurface: pending, the child is topmost, at (0, 0). Without memory
    /// nothing changes.
    pub fn add(&mut self, child: SurfaceNo) -> Result<(), AllocError>
    where
        A: Copy,
        ensures ok { OnOk result (self.new ≡ record self.old { pending = added child self.old.pending }) }
        ensures err { OnErr result (self.new ≡ self.old) }
    {
        let mut stack = self.take_pending()?;
        let added = stack.add(child);
        self.pending = Some(stack);
        added
    }

    /// wl_subsurface.set_position: pending, sets the place of the child's upper left corner, in
    /// pixels right and down from the surface's. Nothing changes if it is no child, or without
    /// memory.
    pub fn set_position(&mut self, child: SurfaceNo, x: i32, y: i32) -> Result<(), AllocError>
    where
        A: Copy,
        ensures ok { OnOk result (self.new ≡ record self.old { pending = moved child x y self.old.pending }) }
        ensures err { OnErr result (self.new ≡ self.old) }
    {
        let mut stack = self.take_pending()?;
        stack.set_position(child, x, y);
        self.pending = Some(stack);
        Ok(())
    }

    /// wl_subsurface.place_above and place_below: pending, puts the child right above or right
    /// below a sibling or the surface itself. It keeps its position. Nothing changes if one of the
    /// two isn't there, if both are the same, or without memory.
    pub fn place(&mut self, child: SurfaceNo, at: Member, side: Side) -> Result<(), AllocError>
    where
        A: Copy,
        ensures ok { OnOk result (self.new ≡ record self.old { pending = placed (beside side) child at self.old.pending }) }
        ensures err { OnErr result (self.new ≡ self.old) }
    {
        let mut stack = self.take_pending()?;
        stack.place(child, at, side);
        self.pending = Some(stack);
        Ok(())
    }

    /// wl_surface.commit: the pending stack becomes the held one.
    pub fn hold(&mut self)
        ensures { self.new ≡ record self.old { held = self.old.pending } }
    {
        if let Some(stack) = self.pending.take() {
            self.held = Some(stack);
        }
    }

    /// The surface's state is applied: the held stack becomes the applied one.
    pub fn apply(&mut self)
        ensures { self.new ≡ record self.old { applied = self.old.held } }
    {
        if let Some(stack) = self.held.take() {
            self.applied = stack;
        }
    }

    /// wl_subsurface.destroy: takes the child out of all three at once.
    pub fn remove(&mut self, child: SurfaceNo)
        ensures { self.new ≡ removed child self.old }
    {
        remove_from(&mut self.pending, child);
        remove_from(&mut self.held, child);
        self.applied.remove(child);
    }

    /// The applied stack, from below. It is empty for a surface without children.
    pub fn applied(&self) -> &[Placed]
        ensures { whole result.now ≡ self.now.applied }
    {
        self.applied.places()
    }

    /// The pending stack, from below. It is empty for a surface without children.
    pub fn pending(&self) -> &[Placed]
        ensures { whole result.now ≡ self.now.pending }
    {
        self.pending_stack().places()
    }
}
