//! The surfaces of a client.

ghost use Rattle.std.specs.Prelude.{ℕ, [], ◌≡◌, ◌≢◌, ◌+◌, ◌<◌, ◌↔◌, List, map, Option, Some, None, IfOk, OnOk, OnErr, IfErr, IfNone, IfSome, IsErr, IsOk, MatchBool, OnSome, if◌then◌else◌, is_some, ◌++◌, ◌∷◌, nat_le, length, unsigned_abs, option_copied, true, false, filter, not};
ghost use Rattle.std.specs.List.{list_any};
ghost use Rattle.std.specs.Option.{option_map};
ghost use Rattle.slab.specs.Slab.{entries};
ghost use Rattle.wl_geom.specs.Region.{Change as RegionChange, Stands as Covers};
ghost use Rattle.wl_surface.specs.Applied.{AreApplied};
ghost use Rattle.wl_surface.specs.Kept.{buffer_of, counting_in, counting_of, has_new_input, kept_has, kept_shows};
ghost use Rattle.wl_surface.specs.Slots.{Changes, HasInputApplied, IsAny, any_kept, changed_at, IsCopied, IsCurrentAt, kept_at, one_if_kept, Numbered, StandForAll, content_at, count, had_at, has_at, is_scale, is_transform, is_whole_at, nobody, pending_at, role_at, shows_at, with_at};
ghost use Rattle.wl_surface.specs.Request.{Attach, Commit, Damage, DamageBuffer, Frame, SetBufferScale, SetBufferTransform, SetInputRegion, SetOpaqueRegion};
ghost use Rattle.wl_surface.specs.Surface.{applying, asking, new_surface, with_role};
ghost use Rattle.wl_surface.specs.Waiting.{AreUndue, AreWaiting, Callback, IsNewNumber, IsNextDue, applied_by, frames_at, held_by, is_in, callbacks_of as those_of, next_of, without_next, without_those_of};

use crate::applied::{Change, apply_change};
use crate::content::{Attached, BufferNo};
use crate::error::SurfaceError;
use crate::frames::{Waiting, apply_all, callbacks_of, hold_all, next_place};
use crate::role::Role;
use crate::state::{Current, SurfaceState};
use slab::Slab;
use std::alloc::Allocator;
use std::marker::Model;
use wl_geom::{Rect, Region};
use wl_store::{Scale, Transform};

/// A surface's number among its client's.
pub type SurfaceNo = usize;

/// How many surfaces a client may have.
pub const MAX_SURFACES: usize = 256;

/// The surfaces of a client by their numbers, and the frame requests that wait, in their order.
/// Contracts see what is kept of each.
#[derive(Drop)]
pub struct SurfaceStates<A: Allocator> {
    slots: Slab<SurfaceState<A>, A>,
    frames: Vec<Waiting, A>,
    alloc: A,
}

impl<A: Allocator> Model for SurfaceStates<A> {
    ghost use Rattle.wl_surface.specs.Slots.{Slots};

    ghost Value = { Slots };

    ghost view = { λ surfaces. record { places = surfaces.slots.slots; frames = surfaces.frames.items } };
}

/// Whether one of the surfaces has the buffer held or applied.
fn any_shows<A: Allocator>(slots: &Slab<SurfaceState<A>, A>, buffer: BufferNo) -> bool
    ensures { result ≡ list_any (λ e. kept_shows buffer e.1) (entries slots.now) }
{
    for (_, kept) in slots.iter() {
        if kept.shows(buffer) {
            return true;
        }
    }
    false
}

/// Whether one of the surfaces has the buffer pending, held or applied.
fn any_has<A: Allocator>(slots: &Slab<SurfaceState<A>, A>, buffer: BufferNo) -> bool
    ensures { result ≡ list_any (λ e. kept_has buffer e.1) (entries slots.now) }
{
    for (_, kept) in slots.iter() {
        if kept.has(buffer) {
            return true;
        }
    }
    false
}

/// Whether an input region of one of the surfaces was set that isn't applied yet.
fn any_has_new_input<A: Allocator>(slots: &Slab<SurfaceState<A>, A>) -> bool
    ensures { result ≡ list_any (λ e. has_new_input e.1) (entries slots.now) }
{
    for (_, kept) in slots.iter() {
        if kept.has_new_input() {
            return true;
        }
    }
    false
}

/// Copies a region that is set.
fn copy_of<A: Allocator + Copy>(region: &Region<A>) -> Result<Region<A>, SurfaceError>
    ensures ok { IfOk result (λ copy. copy ≡ region.now) }
    ensures err { IfErr result (λ e. e ≡ SurfaceError.Memory) }
{
    match region.copy() {
        Ok(copy) => Ok(copy),
        Err(_) => Err(SurfaceError::Memory),
    }
}

impl<A: Allocator + Copy> SurfaceStates<A> {
    /// No surfaces.
    pub(crate) fn new(alloc: A) -> Self
        ensures stand { StandForAll result nobody }
        ensures count { count result ≡ 0 }
        ensures frames { result.frames ≡ [] }
    {
        SurfaceStates {
            slots: Slab::new(alloc),
            frames: Vec::new(alloc),
            alloc,
        }
    }

    /// How many surfaces there are.
    pub fn len(&self) -> usize
        ensures { result ≡ count self.now }
    {
        self.slots.len()
    }

    /// wl_compositor.create_surface: makes a surface of which nothing was asked. No other has its
    /// number. A client may have 256 surfaces. An error changes nothing.
    pub(crate) fn create(&mut self) -> Result<SurfaceNo, SurfaceError>
        ensures ok { IfOk result (λ number. (all : Numbered) (id : ℕ) → StandForAll self.old all
            → (all number ≡ None) × StandForAll self.new (with_at number (Some (new_surface id)) all)) }
        ensures count { OnOk result (count self.new ≡ count self.old + 1) }
        ensures room { OnOk result (count self.old < 256) }
        ensures err { OnErr result (self.new ≡ self.old) }
        ensures cause { IfErr result (λ e. MatchBool (nat_le 256 (count self.old)) (e ≡ SurfaceError.TooMany) (e ≡ SurfaceError.Memory)) }
        ensures frames { self.new.frames ≡ self.old.frames }
    {
        if MAX_SURFACES <= self.slots.len() {
            return Err(SurfaceError::TooMany);
        }
        let alloc = self.alloc;
        let number = self.slots.insert(SurfaceState::new(alloc))?;
        Ok(number)
    }

    /// wl_surface.set_opaque_region of a copy of the region, in surface pixels. Without a region no
    /// point is said to be opaque. Without memory nothing changes.
    pub(crate) fn set_opaque(
        &mut self,
        surface: SurfaceNo,
        region: Option<&Region<A>>,
    ) -> Result<(), SurfaceError>
        ensures ok { OnOk result ((changes : Option (List RegionChange)) → IsCopied (option_copied region.entry) changes → Changes self.old self.new surface (asking (SetOpaqueRegion changes))) }
        ensures frames { self.new.frames ≡ self.old.frames }
        ensures err { OnErr result (self.new ≡ self.old) }
        ensures cause { IfErr result (λ e. e ≡ SurfaceError.Memory) }
    {
        match region {
            Some(region) => self.set_opaque_to(surface, copy_of(region)?),
            None => self.clear_opaque(surface),
        }
        Ok(())
    }

    /// wl_surface.set_input_region of a copy of the region, in surface pixels. Without a region
    /// each point takes input. Without memory nothing changes.
    pub(crate) fn set_input(
        &mut self,
        surface: SurfaceNo,
        region: Option<&Region<A>>,
    ) -> Result<(), SurfaceError>
        ensures ok { OnOk result ((changes : Option (List RegionChange)) → IsCopied (option_copied region.entry) changes → Changes self.old self.new surface (asking (SetInputRegion changes))) }
        ensures frames { self.new.frames ≡ self.old.frames }
        ensures err { OnErr result (self.new ≡ self.old) }
        ensures cause { IfErr result (λ e. e ≡ SurfaceError.Memory) }
    {
        match region {
            Some(region) => self.set_input_to(surface, copy_of(region)?),
            None => self.clear_input(surface),
        }
        Ok(())
    }

    /// Applies the surface and its frame requests: what was held is applied. The answer is what
    /// that changes. `None` if there is no surface of this number.
    pub(crate) fn apply(&mut self, surface: SurfaceNo) -> Option<Change<A>>
        ensures stand { Changes self.old self.new surface applying }
        ensures frames { self.new.frames ≡ map (applied_by surface) self.old.frames }
        ensures waits { (all : Numbered) (cs : List Callback) → AreWaiting self.old.frames all cs
            → AreWaiting self.new.frames (changed_at surface applying all) cs }
        ensures change { (all : Numbered) → StandForAll self.old all → AreApplied surface (all surface) result }
    {
        apply_all(&mut self.frames, surface);
        let alloc = self.alloc;
        match self.slots.get_mut(surface) {
            Some(kept) => Some(apply_change(kept, surface, alloc)),
            None => None,
        }
    }

    /// wl_surface.destroy: the surface goes with its frame requests. The answer is their callbacks.
    /// Nothing changes if there is no surface of this number, nor without memory.
    pub(crate) fn destroy(&mut self, surface: SurfaceNo) -> Result<Vec<u32, A>, SurfaceError>
        ensures ok { OnOk result ((all : Numbered) → StandForAll self.old all → StandForAll self.new (with_at surface None all)) }
        ensures count { OnOk result (count self.new + one_if_kept (kept_at self.old surface) ≡ count self.old) }
        ensures callbacks { IfOk result (λ callbacks. callbacks.items ≡ those_of surface self.old.frames) }
        ensures frames { OnOk result (self.new.frames ≡ without_those_of surface self.old.frames) }
        ensures ids { IfOk result (λ callbacks. (all : Numbered) (cs : List Callback) → AreWaiting self.old.frames all cs
            → callbacks.items ≡ map (λ (c : Callback). c.id) (filter (is_in (frames_at (all surface))) cs)) }
        ensures waits { OnOk result ((all : Numbered) (cs : List Callback) → AreWaiting self.old.frames all cs
            → AreWaiting self.new.frames (with_at surface None all) (filter (λ c. not (is_in (frames_at (all surface)) c)) cs)) }
        ensures err { OnErr result (self.new ≡ self.old) }
        ensures cause { IfErr result (λ e. e ≡ SurfaceError.Memory) }
    {
        let callbacks = callbacks_of(&self.frames, surface, self.alloc)?;
        self.remove(surface);
        Ok(callbacks)
    }

    fn clear_opaque(&mut self, surface: SurfaceNo)
        ensures changes { Changes self.old self.new surface (asking (SetOpaqueRegion None)) }
        ensures frames { self.new.frames ≡ self.old.frames }
    {
        if let Some(kept) = self.slots.get_mut(surface) {
            kept.clear_opaque();
        }
    }
}

impl<A: Allocator> SurfaceStates<A> {
    /// wl_surface.frame: a callback waits until a commit applies it and a frame is shown. Without
    /// memory nothing changes.
    pub(crate) fn frame(&mut self, surface: SurfaceNo, callback: u32) -> Result<(), SurfaceError>
        ensures ok { OnOk result ((n : ℕ) → Changes self.old self.new surface (asking (Frame n))) }
        ensures frames { OnOk result (self.new.frames ≡ (if is_some (kept_at self.old surface) then self.old.frames ++ record { surface = surface; callback = callback; is_held = false; is_applied = false } ∷ [] else self.old.frames)) }
        ensures waits { OnOk result ((all : Numbered) (cs : List Callback) → StandForAll self.old all → AreWaiting self.old.frames all cs → is_some (all surface) ≡ true → (n : ℕ) → IsNewNumber n all cs
            → AreWaiting self.new.frames (changed_at surface (asking (Frame n)) all) (cs ++ record { number = n; id = callback } ∷ [])) }
        ensures err { OnErr result (self.new ≡ self.old) }
        ensures cause { IfErr result (λ e. e ≡ SurfaceError.Memory) }
    {
        if self.slots.get(surface).is_none() {
            return Ok(());
        }
        self.frames.push(Waiting {
            surface,
            callback,
            is_held: false,
            is_applied: false,
        })?;
        Ok(())
    }

    /// wl_surface.commit: the pending state becomes the held one, and so do the surface's frame
    /// requests. They are applied when the surface is. Without memory nothing changes.
    pub(crate) fn hold(&mut self, surface: SurfaceNo) -> Result<(), SurfaceError>
        ensures ok { OnOk result (Changes self.old self.new surface (asking Commit)) }
        ensures frames { OnOk result (self.new.frames ≡ map (held_by surface) self.old.frames) }
        ensures waits { OnOk result ((all : Numbered) (cs : List Callback) → StandForAll self.old all → AreWaiting self.old.frames all cs
            → AreWaiting self.new.frames (changed_at surface (asking Commit) all) cs) }
        ensures err { OnErr result (self.new ≡ self.old) }
        ensures cause { IfErr result (λ e. e ≡ SurfaceError.Memory) }
    {
        if let Some(kept) = self.slots.get_mut(surface) {
            kept.hold()?;
        }
        hold_all(&mut self.frames, surface);
        Ok(())
    }

    /// Takes out the callback that is answered at the next shown frame: of those applied, the first
    /// that was requested (wayland.xml, wl_surface.frame). `None` if none is applied.
    pub(crate) fn next_frame(&mut self) -> Option<u32>
        ensures next { result ≡ next_of self.old.frames }
        ensures frames { self.new.frames ≡ without_next self.old.frames }
        ensures places { self.new.places ≡ self.old.places }
        ensures less { OnSome result (length self.new.frames < length self.old.frames) }
        ensures due { IfSome result (λ id. (all : Numbered) (cs : List Callback) → AreWaiting self.old.frames all cs → IsNextDue id all cs self.new.frames) }
        ensures none { IfNone result ((self.new ≡ self.old) × ((all : Numbered) (cs : List Callback) → AreWaiting self.old.frames all cs → AreUndue all cs)) }
    {
        let Some(place) = next_place(&self.frames) else {
            return None;
        };
        Some(self.frames.remove(place).callback)
    }

    /// wl_surface.attach of a buffer, or of none. The surface moves by `x` and `y`, in its own
    /// pixels to the right and down. It is pending until the next commit.
    pub(crate) fn attach(&mut self, surface: SurfaceNo, buffer: Option<Attached>, x: i32, y: i32)
        ensures changes { Changes self.old self.new surface (asking (Attach (option_map buffer_of buffer) x y)) }
        ensures frames { self.new.frames ≡ self.old.frames }
    {
        if let Some(kept) = self.slots.get_mut(surface) {
            kept.attach(buffer, x, y);
        }
    }

    /// wl_surface.damage of a rectangle in surface pixels. Without memory nothing changes.
    pub(crate) fn damage(&mut self, surface: SurfaceNo, rect: Rect) -> Result<(), SurfaceError>
        ensures ok { OnOk result (Changes self.old self.new surface (asking (Damage rect))) }
        ensures frames { self.new.frames ≡ self.old.frames }
        ensures err { OnErr result (self.new ≡ self.old) }
        ensures cause { IfErr result (λ e. e ≡ SurfaceError.Memory) }
    {
        if let Some(kept) = self.slots.get_mut(surface) {
            kept.damage(rect)?;
        }
        Ok(())
    }

    /// wl_surface.damage_buffer of a rectangle in pixels of the buffer. Without memory nothing
    /// changes.
    pub(crate) fn damage_buffer(
        &mut self,
        surface: SurfaceNo,
        rect: Rect,
    ) -> Result<(), SurfaceError>
        ensures ok { OnOk result (Changes self.old self.new surface (asking (DamageBuffer rect))) }
        ensures frames { self.new.frames ≡ self.old.frames }
        ensures err { OnErr result (self.new ≡ self.old) }
        ensures cause { IfErr result (λ e. e ≡ SurfaceError.Memory) }
    {
        if let Some(kept) = self.slots.get_mut(surface) {
            kept.damage_buffer(rect)?;
        }
        Ok(())
    }

    fn set_opaque_to(&mut self, surface: SurfaceNo, region: Region<A>)
        ensures changes { (changes : List RegionChange) → Covers region changes → Changes self.old self.new surface (asking (SetOpaqueRegion (Some changes))) }
        ensures frames { self.new.frames ≡ self.old.frames }
    {
        if let Some(kept) = self.slots.get_mut(surface) {
            kept.set_opaque(region);
        }
    }

    fn set_input_to(&mut self, surface: SurfaceNo, region: Region<A>)
        ensures changes { (changes : List RegionChange) → Covers region changes → Changes self.old self.new surface (asking (SetInputRegion (Some changes))) }
        ensures frames { self.new.frames ≡ self.old.frames }
    {
        if let Some(kept) = self.slots.get_mut(surface) {
            kept.set_input(region);
        }
    }

    fn clear_input(&mut self, surface: SurfaceNo)
        ensures changes { Changes self.old self.new surface (asking (SetInputRegion None)) }
        ensures frames { self.new.frames ≡ self.old.frames }
    {
        if let Some(kept) = self.slots.get_mut(surface) {
            kept.clear_input();
        }
    }

    fn turn(&mut self, surface: SurfaceNo, number: u32)
        requires { number < 8 }
        ensures changes { Changes self.old self.new surface (asking (SetBufferTransform number)) }
        ensures frames { self.new.frames ≡ self.old.frames }
    {
        if let Some(kept) = self.slots.get_mut(surface) {
            kept.set_transform(Transform::from_number(number));
        }
    }

    /// wl_surface.set_buffer_transform, by the number in wl_output.transform. `Transform` refuses
    /// any other than 0 to 7, and nothing changes.
    pub(crate) fn set_transform(
        &mut self,
        surface: SurfaceNo,
        transform: i32,
    ) -> Result<(), SurfaceError>
        ensures ok { OnOk result (Changes self.old self.new surface (asking (SetBufferTransform (unsigned_abs transform)))) }
        ensures frames { self.new.frames ≡ self.old.frames }
        ensures valid { IsOk result ↔ (is_transform transform ≡ true) }
        ensures err { OnErr result (self.new ≡ self.old) }
        ensures cause { IfErr result (λ e. e ≡ SurfaceError.Transform) }
    {
        if !(0..=7).contains(&transform) {
            return Err(SurfaceError::Transform);
        }
        self.turn(surface, transform.unsigned_abs());
        Ok(())
    }

    fn show_scaled(&mut self, surface: SurfaceNo, scale: Scale)
        ensures changes { Changes self.old self.new surface (asking (SetBufferScale scale.number)) }
        ensures frames { self.new.frames ≡ self.old.frames }
    {
        if let Some(kept) = self.slots.get_mut(surface) {
            kept.set_scale(scale);
        }
    }

    /// wl_surface.set_buffer_scale: `scale` pixels of the buffer, in each direction, make one of
    /// the surface. `Scale` refuses a number below 1, and nothing changes.
    pub(crate) fn set_scale(&mut self, surface: SurfaceNo, scale: i32) -> Result<(), SurfaceError>
        ensures ok { OnOk result (Changes self.old self.new surface (asking (SetBufferScale (unsigned_abs scale)))) }
        ensures frames { self.new.frames ≡ self.old.frames }
        ensures valid { IsOk result ↔ (is_scale scale ≡ true) }
        ensures err { OnErr result (self.new ≡ self.old) }
        ensures cause { IfErr result (λ e. e ≡ SurfaceError.Scale) }
    {
        if scale < 1 {
            return Err(SurfaceError::Scale);
        }
        let number = scale.unsigned_abs();
        self.show_scaled(surface, Scale { number });
        Ok(())
    }

    /// Gives a surface its role, for life. `Role` refuses it exactly if it has another one, and
    /// nothing changes.
    pub(crate) fn give_role(&mut self, surface: SurfaceNo, role: Role) -> Result<(), SurfaceError>
        ensures ok { OnOk result (Changes self.old self.new surface (with_role role)) }
        ensures frames { self.new.frames ≡ self.old.frames }
        ensures err { OnErr result (self.new ≡ self.old) }
        ensures refused { (all : Numbered) → StandForAll self.old all → (IsErr result) ↔ ((other : Role) × (role_at (all surface) ≡ Some other) × (other ≢ role)) }
        ensures cause { IfErr result (λ e. e ≡ SurfaceError.Role) }
    {
        if let Some(kept) = self.slots.get_mut(surface) {
            if !kept.give_role(role) {
                return Err(SurfaceError::Role);
            }
        }
        Ok(())
    }

    /// Whether a surface has the buffer held or applied. It is busy then, and its client may not
    /// write to it (wayland.xml, wl_buffer.release).
    pub fn is_busy(&self, buffer: BufferNo) -> bool
        ensures { (all : Numbered) → StandForAll self.now all → IsAny (shows_at buffer) all result }
    {
        any_shows(&self.slots, buffer)
    }

    /// Whether a surface has the buffer pending, held or applied.
    pub fn is_used(&self, buffer: BufferNo) -> bool
        ensures { (all : Numbered) → StandForAll self.now all → IsAny (has_at buffer) all result }
    {
        any_has(&self.slots, buffer)
    }

    /// Whether an input region of one of the surfaces was set that isn't applied yet (wayland.xml,
    /// wl_surface.set_input_region). If not, no commit changes one that is applied.
    pub fn has_new_input(&self) -> bool
        ensures kept { result ≡ any_kept has_new_input self.now }
        ensures applied { result ≡ false → (all : Numbered) → StandForAll self.now all → (number : ℕ) → HasInputApplied (all number) }
    {
        any_has_new_input(&self.slots)
    }

    /// The buffer that the next commit would show, if it has one.
    pub fn pending_buffer(&self, surface: SurfaceNo) -> Option<Attached>
        ensures { (all : Numbered) → StandForAll self.now all → option_map buffer_of result ≡ pending_at (all surface) }
    {
        match self.slots.get(surface) {
            Some(kept) => kept.pending_buffer(),
            None => None,
        }
    }

    /// Whether the sides of the pending buffer are multiples of the pending scale (wayland.xml,
    /// wl_surface.error, invalid_size). It is true without a buffer, and without a surface.
    pub fn is_whole(&self, surface: SurfaceNo) -> bool
        ensures { (all : Numbered) → StandForAll self.now all → result ≡ is_whole_at (all surface) }
    {
        match self.slots.get(surface) {
            Some(kept) => kept.is_whole(),
            None => true,
        }
    }

    /// The buffers that a surface has pending, held and applied.
    pub fn buffers(&self, surface: SurfaceNo) -> [Option<Attached>; 3]
        ensures { (all : Numbered) → StandForAll self.now all → map (option_map buffer_of) result ≡ had_at (all surface) }
    {
        match self.slots.get(surface) {
            Some(kept) => kept.buffers(),
            None => [None, None, None],
        }
    }

    /// Whether a surface has a buffer pending, held or applied.
    pub fn has_content(&self, surface: SurfaceNo) -> bool
        ensures { (all : Numbered) → StandForAll self.now all → result ≡ content_at (all surface) }
    {
        match self.slots.get(surface) {
            Some(kept) => kept.has_content(),
            None => false,
        }
    }

    fn remove(&mut self, surface: SurfaceNo)
        ensures stand { (all : Numbered) → StandForAll self.old all → StandForAll self.new (with_at surface None all) }
        ensures count { count self.new + one_if_kept (kept_at self.old surface) ≡ count self.old }
        ensures frames { self.new.frames ≡ without_those_of surface self.old.frames }
    {
        self.slots.try_remove(surface);
        self.frames.retain(|waiting| waiting.surface != surface);
    }

    /// The applied state of a surface. `None` if there is no surface of this number.
    pub fn current(&self, surface: SurfaceNo) -> Option<Current<'_, A>>
        ensures stands { (all : Numbered) → StandForAll self.now all → IsCurrentAt result (all surface) }
        ensures kept { option_map counting_in result ≡ option_map counting_of (kept_at self.now surface) }
    {
        match self.slots.get(surface) {
            Some(kept) => Some(kept.current()),
            None => None,
        }
    }

    /// The role of a surface, if it has one.
    pub fn role(&self, surface: SurfaceNo) -> Option<Role>
        ensures { (all : Numbered) → StandForAll self.now all → result ≡ role_at (all surface) }
    {
        match self.slots.get(surface) {
            Some(kept) => kept.role(),
            None => None,
        }
    }
}
