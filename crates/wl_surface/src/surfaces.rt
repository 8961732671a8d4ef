//! The surfaces of a client with the links between them.

ghost use Rattle.std.specs.Prelude.{ℕ, [], ◌≡◌, ◌≢◌, true, false, is_some, IfErr, OnErr, OnOk, Option, Some, None, Err};
ghost use Rattle.wl_links.specs.Family.{is_bad_sibling, links_in, member_of, stacks_in};
ghost use Rattle.wl_surface.specs.Linked.{IsLink, IsRefused, Stand, is_other_role, is_taken, link_refusal, surface_error};
ghost use Rattle.wl_surface.specs.Request.{Member, PlaceAbove, PlaceBelow, SetPosition};
ghost use Rattle.wl_surface.specs.Surface.{asking};
ghost use Rattle.wl_surface.specs.Surfaces.{Link, Surfaces as Asked, link_at, no_surfaces, surface_at, with_change};
ghost use Rattle.wl_surface.specs.Trees.{linked, synchronised_in};
ghost use Rattle.wl_surface.specs.Hanging.{kids_of};
ghost use Rattle.wl_surface.specs.Stacks.{IsKept, place_request};

use crate::error::SurfaceError;
use crate::role::Role;
use crate::states::{SurfaceNo, SurfaceStates};
use std::alloc::Allocator;
use std::marker::Model;
use wl_links::{Family, PlaceError, Side};

/// The surfaces of a client: what is kept of each by itself, and of the links between them.
#[derive(Drop)]
pub struct Surfaces<A: Allocator> {
    pub(crate) states: SurfaceStates<A>,
    pub(crate) family: Family<A>,
    pub(crate) alloc: A,
}

impl<A: Allocator> Model for Surfaces<A> {
    ghost use Rattle.wl_surface.specs.Linked.{SurfacesView};

    ghost Value = { SurfacesView };

    ghost view = { λ surfaces. record { states = surfaces.states; family = surfaces.family } };
}

/// Why a child isn't placed, as an error of surfaces.
fn place_error(error: PlaceError) -> SurfaceError
    ensures { result ≡ surface_error error }
{
    match error {
        PlaceError::BadSurface => SurfaceError::NotSibling,
        PlaceError::Memory => SurfaceError::Memory,
    }
}

/// Whether a role isn't that of a subsurface.
fn is_other_role(role: Option<Role>) -> bool
    ensures { result ≡ is_other_role role }
{
    match role {
        None | Some(Role::Subsurface) => false,
        Some(Role::Toplevel | Role::Popup | Role::Cursor) => true,
    }
}

impl<A: Allocator + Copy> Surfaces<A> {
    /// No surfaces, and no links.
    pub fn new(alloc: A) -> Self
        ensures stand { Stand result.states result.family no_surfaces }
        ensures frames { result.states.frames ≡ [] }
    {
        Surfaces {
            states: SurfaceStates::new(alloc),
            family: Family::new(alloc),
            alloc,
        }
    }

    /// wl_subcompositor.get_subsurface: links a child to its parent. The child is a subsurface from
    /// now on, and synchronised at first. Once the parent is committed and applied, it is topmost,
    /// at (0, 0).
    ///
    /// # Errors
    ///
    /// The first of these:
    /// - `TooDeep`, if more than 16 levels would stand below a root;
    /// - `Role`, if the child has another role, or a link that lives;
    /// - `BadParent`, if the parent is the child or descends from it;
    /// - `Memory`.
    ///
    /// The first three change nothing. Without memory the surfaces, links and stacks are the same.
    /// A place for either surface may stay in the family.
    pub fn subsurface(&mut self, child: SurfaceNo, parent: SurfaceNo) -> Result<(), SurfaceError>
        ensures ok { OnOk result ((all : Asked) (number : ℕ) → Stand self.old.states self.old.family all → link_at number all ≡ None
            → is_some (surface_at child all) ≡ true → is_some (surface_at parent all) ≡ true
            → Stand self.new.states self.new.family (linked number child parent all)) }
        ensures refused { (all : Asked) → Stand self.old.states self.old.family all → IsRefused (link_refusal all child parent) result }
        ensures err { OnErr result ((all : Asked) → Stand self.old.states self.old.family all
            → is_some (surface_at child all) ≡ true → is_some (surface_at parent all) ≡ true → Stand self.new.states self.new.family all) }
        ensures unchanged { (all : Asked) → Stand self.old.states self.old.family all → IfErr result (λ e. e ≢ SurfaceError.Memory → self.new ≡ self.old) }
        ensures kept { (all : Asked) → Stand self.old.states self.old.family all → OnErr result ((self.new.states ≡ self.old.states)
            × (links_in self.new.family ≡ links_in self.old.family) × (stacks_in self.new.family ≡ stacks_in self.old.family)) }
        ensures frames { self.new.states.frames ≡ self.old.states.frames }
    {
        if self.is_too_deep(child, parent) {
            return Err(SurfaceError::TooDeep);
        }
        if self.is_taken(child) {
            return Err(SurfaceError::Role);
        }
        if self.is_under(child, parent) {
            return Err(SurfaceError::BadParent);
        }
        self.family.join(child, parent)?;
        self.states.give_role(child, Role::Subsurface)
    }

    /// Whether a surface has a role other than that of a subsurface, or a living link.
    fn is_taken(&self, child: SurfaceNo) -> bool
        ensures taken { (all : Asked) → Stand self.now.states self.now.family all → result ≡ is_taken all child }
        ensures free { result ≡ false → links_in self.now.family child ≡ None }
    {
        is_other_role(self.role(child)) || self.link(child).is_some()
    }

    /// wl_subsurface.set_position: sets the place of the child's upper left corner, in pixels right
    /// and down from the parent's. It counts once the parent is committed and applied. Without a
    /// link nothing changes.
    ///
    /// # Errors
    ///
    /// `Memory`. Nothing changes then.
    pub fn set_position(&mut self, child: SurfaceNo, x: i32, y: i32) -> Result<(), SurfaceError>
        ensures ok { OnOk result ((all : Asked) (number : ℕ) (link : Link) → IsLink all number child link → Stand self.old.states self.old.family all
            → Stand self.new.states self.new.family (with_change link.parent (asking (SetPosition number x y)) all)) }
        ensures none { links_in self.old.family child ≡ None → OnOk result (self.new ≡ self.old) }
        ensures surfaces { self.new.states ≡ self.old.states }
        ensures err { OnErr result (self.new ≡ self.old) }
        ensures cause { IfErr result (λ e. e ≡ SurfaceError.Memory) }
    {
        if self.link(child).is_none() {
            return Ok(());
        }
        self.family.set_position(child, x, y)?;
        Ok(())
    }

    /// wl_subsurface.place_above and place_below: puts the child right above or right below a
    /// sibling or the parent. It counts once the parent is committed and applied. Without a link
    /// nothing changes.
    ///
    /// # Errors
    ///
    /// `NotSibling` if the other surface is neither the parent nor a sibling, else `Memory`.
    /// Nothing changes then.
    pub fn place(
        &mut self,
        child: SurfaceNo,
        sibling: SurfaceNo,
        side: Side,
    ) -> Result<(), SurfaceError>
        ensures ok { OnOk result ((all : Asked) (number : ℕ) (link : Link) (at : Member) → IsLink all number child link
            → IsKept (kids_of all) at (member_of link.parent sibling) → Stand self.old.states self.old.family all
            → Stand self.new.states self.new.family (with_change link.parent (asking (place_request side number at)) all)) }
        ensures none { links_in self.old.family child ≡ None → OnOk result (self.new ≡ self.old) }
        ensures bad { is_bad_sibling child sibling (links_in self.old.family) ≡ true → result ≡ Err SurfaceError.NotSibling }
        ensures cause { is_bad_sibling child sibling (links_in self.old.family) ≡ false → IfErr result (λ e. e ≡ SurfaceError.Memory) }
        ensures surfaces { self.new.states ≡ self.old.states }
        ensures err { OnErr result (self.new ≡ self.old) }
    {
        if self.link(child).is_none() {
            return Ok(());
        }
        match self.family.place(child, sibling, side) {
            Ok(()) => Ok(()),
            Err(error) => Err(place_error(error)),
        }
    }

    /// wl_subsurface.place_above: [`Surfaces::place`] right above the sibling, with its errors.
    pub fn place_above(&mut self, child: SurfaceNo, sibling: SurfaceNo) -> Result<(), SurfaceError>
        ensures ok { OnOk result ((all : Asked) (number : ℕ) (link : Link) (at : Member) → IsLink all number child link
            → IsKept (kids_of all) at (member_of link.parent sibling) → Stand self.old.states self.old.family all
            → Stand self.new.states self.new.family (with_change link.parent (asking (PlaceAbove number at)) all)) }
        ensures none { links_in self.old.family child ≡ None → OnOk result (self.new ≡ self.old) }
        ensures bad { is_bad_sibling child sibling (links_in self.old.family) ≡ true → result ≡ Err SurfaceError.NotSibling }
        ensures cause { is_bad_sibling child sibling (links_in self.old.family) ≡ false → IfErr result (λ e. e ≡ SurfaceError.Memory) }
        ensures surfaces { self.new.states ≡ self.old.states }
        ensures err { OnErr result (self.new ≡ self.old) }
    {
        self.place(child, sibling, Side::Above)
    }

    /// wl_subsurface.place_below: [`Surfaces::place`] right below the sibling, with its errors.
    pub fn place_below(&mut self, child: SurfaceNo, sibling: SurfaceNo) -> Result<(), SurfaceError>
        ensures ok { OnOk result ((all : Asked) (number : ℕ) (link : Link) (at : Member) → IsLink all number child link
            → IsKept (kids_of all) at (member_of link.parent sibling) → Stand self.old.states self.old.family all
            → Stand self.new.states self.new.family (with_change link.parent (asking (PlaceBelow number at)) all)) }
        ensures none { links_in self.old.family child ≡ None → OnOk result (self.new ≡ self.old) }
        ensures bad { is_bad_sibling child sibling (links_in self.old.family) ≡ true → result ≡ Err SurfaceError.NotSibling }
        ensures cause { is_bad_sibling child sibling (links_in self.old.family) ≡ false → IfErr result (λ e. e ≡ SurfaceError.Memory) }
        ensures surfaces { self.new.states ≡ self.old.states }
        ensures err { OnErr result (self.new ≡ self.old) }
    {
        self.place(child, sibling, Side::Below)
    }

    /// wl_subsurface.set_sync: the child's commits are held until its parent is applied. Without a
    /// link nothing changes.
    pub fn set_sync(&mut self, child: SurfaceNo)
        ensures stand { (all : Asked) (number : ℕ) (link : Link) → IsLink all number child link → Stand self.old.states self.old.family all
            → Stand self.new.states self.new.family (synchronised_in number all) }
        ensures none { links_in self.old.family child ≡ None → self.new ≡ self.old }
        ensures surfaces { self.new.states ≡ self.old.states }
    {
        if self.link(child).is_none() {
            return;
        }
        self.family.set_synchronised(child, true);
    }
}
