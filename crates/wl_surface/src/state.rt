//! One surface: its pending, held and applied state.

ghost use Rattle.std.specs.Prelude.{ℕ, ◌≡◌, ◌↔◌, ◌≢◌, ◌||◌, is_some, MatchBool, false, ◌++◌, ◌∷◌, [], Some, None, List, OnOk, OnErr, take};
ghost use Rattle.std.specs.Option.{option_map, option_or};
ghost use Rattle.wl_store.specs.Transform.{transform_of};
ghost use Rattle.wl_surface.specs.Kept.{IsCurrent, IsFarther, StandsFor, buffer_of, counting_in, counting_of, has_new_input, kept_has, kept_shows, latest};
ghost use Rattle.wl_geom.specs.Region.{Change as RegionChange, Stands as Covers};
ghost use Rattle.wl_surface.specs.Request.{Attach, Commit, Damage, DamageBuffer, SetBufferScale, SetBufferTransform, SetInputRegion, SetOpaqueRegion};
ghost use Rattle.wl_surface.specs.State.{SaysDamage, between, committed, held, is_whole, pending};
ghost use Rattle.wl_surface.specs.Surface.{Surface as Asked, applying, asking, names, new_surface};

use crate::content::{Attached, BufferNo, Offset};
use crate::held_damage::{HeldDamage, MAX_KEPT};
use crate::role::Role;
use crate::shape::{is_multiple, shape_of};
use std::alloc::{AllocError, Allocator};
use std::marker::Model;
use wl_geom::{Rect, Region};
use wl_store::{Scale, Transform};

/// A surface's state in three records: pending, held and applied. A region that wasn't set since is
/// that of the record below. So a commit moves regions, and takes no memory for them. Contracts see
/// the values that it keeps.
#[derive(Drop)]
pub struct SurfaceState<A: Allocator> {
    pending_buffer: Option<Attached>,
    held_buffer: Option<Attached>,
    current_buffer: Option<Attached>,
    pending_transform: Transform,
    held_transform: Transform,
    current_transform: Transform,
    pending_scale: Scale,
    held_scale: Scale,
    current_scale: Scale,
    pending_opaque: Option<Region<A>>,
    held_opaque: Option<Region<A>>,
    current_opaque: Region<A>,
    pending_input: Option<Option<Region<A>>>,
    held_input: Option<Option<Region<A>>>,
    current_input: Option<Region<A>>,
    pending_offset: Option<Offset>,
    held_offset: Offset,
    current_offset: Offset,
    pending_damage: Vec<Rect, A>,
    pending_buffer_damage: Vec<Rect, A>,
    held_damage: HeldDamage<A>,
    role: Option<Role>,
}

impl<A: Allocator> Model for SurfaceState<A> {
    ghost use Rattle.wl_store.specs.Transform.{transform_of};
    ghost use Rattle.wl_surface.specs.Kept.{IsCurrent, Kept};

    ghost Value = { Kept };

    ghost view = { λ s. record {
      pending_buffer = s.pending_buffer;
      held_buffer = s.held_buffer;
      current_buffer = s.current_buffer;
      pending_transform = s.pending_transform;
      held_transform = s.held_transform;
      current_transform = s.current_transform;
      pending_scale = s.pending_scale;
      held_scale = s.held_scale;
      current_scale = s.current_scale;
      pending_opaque = s.pending_opaque;
      held_opaque = s.held_opaque;
      current_opaque = s.current_opaque;
      pending_input = s.pending_input;
      held_input = s.held_input;
      current_input = s.current_input;
      pending_offset = s.pending_offset;
      held_offset = s.held_offset;
      current_offset = s.current_offset;
      pending_damage = s.pending_damage.items;
      held_damage = s.held_damage.rects.items;
      pending_buffer_damage = s.pending_buffer_damage.items;
      held_buffer_damage = s.held_damage.buffer_rects.items;
      role = s.role;
    } };
}

/// The applied state of a surface: its buffer as it was attached, how far it has moved, and its
/// size in its own pixels. The size is that of the buffer divided by the scale, and exchanged if
/// the transform turns it. Without a buffer it is 0.
///
/// `opaque` has the points that are opaque. `input` has those that take input: all of them without
/// a region.
#[derive(Drop)]
pub struct Current<'a, A: Allocator> {
    pub buffer: Option<Attached>,
    pub w: u32,
    pub h: u32,
    pub transform: Transform,
    pub scale: Scale,
    pub offset: Offset,
    pub opaque: &'a Region<A>,
    pub input: Option<&'a Region<A>>,
}

/// Whether this is the buffer of this number.
fn is_buffer(number: BufferNo, buffer: &Option<Attached>) -> bool
    ensures { result ≡ names number (option_map buffer_of buffer.now) }
{
    match buffer {
        Some(attached) => attached.number == number,
        None => false,
    }
}

impl<A: Allocator + Copy> SurfaceState<A> {
    /// A surface of which nothing was asked.
    pub fn new(alloc: A) -> Self
        ensures { (id : ℕ) → StandsFor result (new_surface id) }
    {
        SurfaceState {
            pending_buffer: None,
            held_buffer: None,
            current_buffer: None,
            pending_transform: Transform::Normal,
            held_transform: Transform::Normal,
            current_transform: Transform::Normal,
            pending_scale: Scale::ONE,
            held_scale: Scale::ONE,
            current_scale: Scale::ONE,
            pending_opaque: None,
            held_opaque: None,
            current_opaque: Region::new(alloc),
            pending_input: None,
            held_input: None,
            current_input: None,
            pending_offset: None,
            held_offset: Offset { x: 0, y: 0 },
            current_offset: Offset { x: 0, y: 0 },
            pending_damage: Vec::new(alloc),
            pending_buffer_damage: Vec::new(alloc),
            held_damage: HeldDamage::new(alloc),
            role: None,
        }
    }
}

impl<A: Allocator> SurfaceState<A> {
    /// wl_surface.attach of a buffer, or of none.
    pub fn attach(&mut self, buffer: Option<Attached>, x: i32, y: i32)
        ensures { (s : Asked) → StandsFor self.old s → StandsFor self.new (asking (Attach (option_map buffer_of buffer) x y) s) }
    {
        self.pending_buffer = buffer;
        self.pending_offset = Some(Offset { x, y });
    }

    /// wl_surface.set_buffer_transform.
    pub fn set_transform(&mut self, transform: Transform)
        ensures { (number : ℕ) → transform ≡ transform_of number → (s : Asked) → StandsFor self.old s → StandsFor self.new (asking (SetBufferTransform number) s) }
    {
        self.pending_transform = transform;
    }

    /// wl_surface.set_buffer_scale.
    pub fn set_scale(&mut self, scale: Scale)
        ensures { (s : Asked) → StandsFor self.old s → StandsFor self.new (asking (SetBufferScale scale.number) s) }
    {
        self.pending_scale = scale;
    }

    /// wl_surface.damage of a rectangle of the surface's points. It keeps 1,025 rectangles of each
    /// kind, since more than 1,024 of both damage the whole surface. Without memory nothing
    /// changes.
    pub fn damage(&mut self, rect: Rect) -> Result<(), AllocError>
        ensures ok { OnOk result ((s : Asked) → StandsFor self.old s → StandsFor self.new (asking (Damage rect) s)) }
        ensures err { OnErr result (self.new ≡ self.old) }
    {
        if self.pending_damage.len() < MAX_KEPT {
            self.pending_damage.push(rect)?;
        }
        Ok(())
    }

    /// wl_surface.damage_buffer of a rectangle of the buffer's points. It keeps as many as of the
    /// surface's. Without memory nothing changes.
    pub fn damage_buffer(&mut self, rect: Rect) -> Result<(), AllocError>
        ensures ok { OnOk result ((s : Asked) → StandsFor self.old s → StandsFor self.new (asking (DamageBuffer rect) s)) }
        ensures err { OnErr result (self.new ≡ self.old) }
    {
        if self.pending_buffer_damage.len() < MAX_KEPT {
            self.pending_buffer_damage.push(rect)?;
        }
        Ok(())
    }

    /// wl_surface.set_opaque_region of a copy of the region.
    pub fn set_opaque(&mut self, region: Region<A>)
        ensures { (changes : List RegionChange) → Covers region changes → (s : Asked) → StandsFor self.old s → StandsFor self.new (asking (SetOpaqueRegion (Some changes)) s) }
    {
        self.pending_opaque = Some(region);
    }

    /// wl_surface.set_opaque_region of none: no point is said to be opaque.
    pub fn clear_opaque(&mut self)
    where
        A: Copy,
        ensures { (s : Asked) → StandsFor self.old s → StandsFor self.new (asking (SetOpaqueRegion None) s) }
    {
        let alloc = *self.pending_damage.allocator();
        self.pending_opaque = Some(Region::new(alloc));
    }

    /// wl_surface.set_input_region of a copy of the region.
    pub fn set_input(&mut self, region: Region<A>)
        ensures { (changes : List RegionChange) → Covers region changes → (s : Asked) → StandsFor self.old s → StandsFor self.new (asking (SetInputRegion (Some changes)) s) }
    {
        self.pending_input = Some(Some(region));
    }

    /// wl_surface.set_input_region of none: each point takes input.
    pub fn clear_input(&mut self)
        ensures { (s : Asked) → StandsFor self.old s → StandsFor self.new (asking (SetInputRegion None) s) }
    {
        self.pending_input = Some(None);
    }

    /// Makes the pending damage held. Without memory nothing changes.
    fn hold_damage(&mut self) -> Result<(), AllocError>
        ensures ok { OnOk result (self.new ≡ record self.old { held_damage = take 1025 (self.old.held_damage ++ self.old.pending_damage); pending_damage = []; held_buffer_damage = take 1025 (self.old.held_buffer_damage ++ self.old.pending_buffer_damage); pending_buffer_damage = [] }) }
        ensures err { OnErr result (self.new ≡ self.old) }
    {
        self.held_damage
            .add(&mut self.pending_damage, &mut self.pending_buffer_damage)
    }

    /// Makes the pending regions held.
    fn hold_regions(&mut self)
        ensures { self.new ≡ record self.old { held_opaque = option_or self.old.pending_opaque self.old.held_opaque; pending_opaque = None; held_input = option_or self.old.pending_input self.old.held_input; pending_input = None } }
    {
        self.held_opaque = self.pending_opaque.take().or(self.held_opaque.take());
        self.held_input = self.pending_input.take().or(self.held_input.take());
    }

    /// Makes the pending buffer, transform, scale and offset held.
    fn hold_content(&mut self)
        ensures content { self.new ≡ record self.old { held_buffer = self.old.pending_buffer; held_transform = self.old.pending_transform; held_scale = self.old.pending_scale; pending_offset = None; held_offset = self.new.held_offset } }
        ensures offset { IsFarther self.old.held_offset self.old.pending_offset self.new.held_offset }
    {
        self.held_buffer = self.pending_buffer;
        self.held_transform = self.pending_transform;
        self.held_scale = self.pending_scale;
        self.held_offset = self.held_offset.farther(self.pending_offset.take());
    }

    /// wl_surface.commit: the pending state becomes held. Without memory nothing changes.
    pub fn hold(&mut self) -> Result<(), AllocError>
        ensures ok { OnOk result ((s : Asked) → StandsFor self.old s → StandsFor self.new (asking Commit s)) }
        ensures err { OnErr result (self.new ≡ self.old) }
    {
        self.hold_damage()?;
        self.hold_regions();
        self.hold_content();
        Ok(())
    }

    /// Applies the held opaque region, if it was set.
    fn apply_opaque(&mut self)
        ensures { self.new ≡ record self.old { current_opaque = latest self.old.held_opaque self.old.current_opaque; held_opaque = None } }
    {
        if let Some(opaque) = self.held_opaque.take() {
            self.current_opaque = opaque;
        }
    }

    /// Applies the held input region, if it was set.
    fn apply_input(&mut self)
        ensures { self.new ≡ record self.old { current_input = latest self.old.held_input self.old.current_input; held_input = None } }
    {
        if let Some(input) = self.held_input.take() {
            self.current_input = input;
        }
    }

    /// Applies the held state. The answer is the held damage, as rectangles of the surface at its
    /// new size. More than 1,024 damage all of it. It takes no memory.
    pub fn apply(&mut self, alloc: A) -> Vec<Rect, A>
        ensures stands { (s : Asked) → StandsFor self.old s → StandsFor self.new (applying s) }
        ensures damage { (s : Asked) → StandsFor self.old s
            → SaysDamage result.items (held s.history) (between s.history.cut (committed s.history.requests) s.history.requests) }
    {
        let shape = shape_of(&self.held_buffer, self.held_transform, self.held_scale);
        let damage = self.held_damage.take(shape, alloc);
        self.current_buffer = self.held_buffer;
        self.current_transform = self.held_transform;
        self.current_scale = self.held_scale;
        self.current_offset = self.held_offset;
        self.apply_opaque();
        self.apply_input();
        damage
    }

    /// Gives the role, for life, unless the surface has another one. Nothing changes then. The
    /// answer is whether it has this role now.
    pub fn give_role(&mut self, role: Role) -> bool
        ensures given { MatchBool result (self.new ≡ record self.old { role = Some role }) (self.new ≡ self.old) }
        ensures refused { (result ≡ false) ↔ ((other : Role) × (self.old.role ≡ Some other) × (other ≢ role)) }
    {
        match self.role() {
            Some(other) if other != role => false,
            _ => {
                self.role = Some(role);
                true
            }
        }
    }

    /// Whether the buffer is held or applied.
    pub fn shows(&self, buffer: BufferNo) -> bool
        ensures { result ≡ kept_shows buffer self.now }
    {
        is_buffer(buffer, &self.current_buffer) || is_buffer(buffer, &self.held_buffer)
    }

    /// Whether the buffer is pending, held or applied.
    pub fn has(&self, buffer: BufferNo) -> bool
        ensures { result ≡ kept_has buffer self.now }
    {
        is_buffer(buffer, &self.pending_buffer) || self.shows(buffer)
    }

    /// Whether an input region was set that isn't applied yet.
    pub fn has_new_input(&self) -> bool
        ensures { result ≡ has_new_input self.now }
    {
        self.pending_input.is_some() || self.held_input.is_some()
    }

    /// The applied state.
    pub fn current(&self) -> Current<'_, A>
        ensures stands { (s : Asked) → StandsFor self.now s → IsCurrent result s.history }
        ensures kept { counting_in result ≡ counting_of self.now }
    {
        let shape = shape_of(
            &self.current_buffer,
            self.current_transform,
            self.current_scale,
        );
        Current {
            buffer: self.current_buffer,
            w: shape.w,
            h: shape.h,
            transform: self.current_transform,
            scale: self.current_scale,
            offset: self.current_offset,
            opaque: &self.current_opaque,
            input: self.current_input.as_ref(),
        }
    }

    /// The pending buffer.
    pub fn pending_buffer(&self) -> Option<Attached>
        ensures { result ≡ self.now.pending_buffer }
    {
        self.pending_buffer
    }

    /// Whether the sides of the pending buffer are multiples of the pending scale. It is true
    /// without a buffer.
    pub fn is_whole(&self) -> bool
        ensures { (s : Asked) → StandsFor self.now s → result ≡ is_whole (pending s.history).buffer (pending s.history).scale }
    {
        match &self.pending_buffer {
            Some(attached) => is_multiple(attached.layout.w, self.pending_scale)
                && is_multiple(attached.layout.h, self.pending_scale),
            None => true,
        }
    }

    /// The buffers that are pending, held and applied.
    pub fn buffers(&self) -> [Option<Attached>; 3]
        ensures { result ≡ self.now.pending_buffer ∷ self.now.held_buffer ∷ self.now.current_buffer ∷ [] }
    {
        [self.pending_buffer, self.held_buffer, self.current_buffer]
    }

    /// Whether a buffer is pending, held or applied.
    pub fn has_content(&self) -> bool
        ensures { result ≡ (is_some self.now.pending_buffer || (is_some self.now.held_buffer || is_some self.now.current_buffer)) }
    {
        self.pending_buffer.is_some() || self.held_buffer.is_some() || self.current_buffer.is_some()
    }

    /// The role, if it has one.
    pub fn role(&self) -> Option<Role>
        ensures { result ≡ self.now.role }
    {
        self.role
    }
}
