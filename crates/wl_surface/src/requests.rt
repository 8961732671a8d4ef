//! What a client asks of one surface by itself, and what is read of one (wayland.xml, wl_surface).

ghost use Rattle.std.specs.Prelude.{ℕ, [], ◌≡◌, ◌≢◌, ◌+◌, ◌<◌, ◌↔◌, List, map, Option, Some, None, IfOk, OnOk, OnErr, IfErr, IfNone, IfSome, IsErr, IsOk, MatchBool, OnSome, if◌then◌else◌, is_some, ◌++◌, ◌∷◌, nat_le, length, unsigned_abs, option_copied, true, false};
ghost use Rattle.std.specs.Option.{option_map};
ghost use Rattle.wl_geom.specs.Region.{Change as RegionChange};
ghost use Rattle.wl_links.specs.Family.{HangTogether, IsTooDeep, behaves_synchronised, links_in, parents_of, root_by, stacks_in};
ghost use Rattle.wl_links.specs.Stacks.{whole};
ghost use Rattle.wl_links.specs.Trees.{is_under};
ghost use Rattle.wl_surface.specs.Kept.{buffer_of, counting_in, counting_of};
ghost use Rattle.wl_surface.specs.Linked.{Stand};
ghost use Rattle.wl_surface.specs.Request.{Attach, Damage, DamageBuffer, Frame, SetBufferScale, SetBufferTransform, SetInputRegion, SetOpaqueRegion};
ghost use Rattle.wl_surface.specs.Slots.{Changes, IsAny, IsCopied, IsCurrentAt, Numbered, StandForAll, changed_at, content_at, count, had_at, has_at, is_scale, is_transform, is_whole_at, kept_at, pending_at, role_at, shows_at, with_at};
ghost use Rattle.wl_surface.specs.Surface.{asking, new_surface, with_role};
ghost use Rattle.wl_surface.specs.Surfaces.{Surfaces as Asked, surface_at, with_change, with_new};
ghost use Rattle.wl_surface.specs.Waiting.{AreUndue, AreWaiting, Callback, IsNewNumber, IsNextDue, next_of, without_next};

use crate::content::{Attached, BufferNo};
use crate::error::SurfaceError;
use crate::role::Role;
use crate::state::Current;
use crate::states::{SurfaceNo, SurfaceStates};
use crate::surfaces::Surfaces;
use std::alloc::Allocator;
use wl_geom::{Rect, Region};
use wl_links::{Link, Placed};

impl<A: Allocator + Copy> Surfaces<A> {
    /// wl_compositor.create_surface: makes a surface of which nothing was asked, without links. No
    /// other has its number.
    ///
    /// # Errors
    ///
    /// `TooMany` if there are 256 surfaces, else `Memory`. Nothing changes then.
    pub fn create(&mut self) -> Result<SurfaceNo, SurfaceError>
        ensures ok { IfOk result (λ number. (all : Numbered) (id : ℕ) → StandForAll self.old.states all
            → (all number ≡ None) × StandForAll self.new.states (with_at number (Some (new_surface id)) all)) }
        ensures stand { IfOk result (λ number. (all : Asked) → Stand self.old.states self.old.family all
            → (surface_at number all ≡ None) × Stand self.new.states self.new.family (with_new number all)) }
        ensures count { OnOk result (count self.new.states ≡ count self.old.states + 1) }
        ensures room { OnOk result (count self.old.states < 256) }
        ensures family { self.new.family ≡ self.old.family }
        ensures frames { self.new.states.frames ≡ self.old.states.frames }
        ensures err { OnErr result (self.new ≡ self.old) }
        ensures cause { IfErr result (λ e. MatchBool (nat_le 256 (count self.old.states)) (e ≡ SurfaceError.TooMany) (e ≡ SurfaceError.Memory)) }
    {
        self.states.create()
    }

    /// How many surfaces there are.
    pub fn len(&self) -> usize
        ensures { result ≡ count self.now.states }
    {
        self.states.len()
    }

    /// wl_surface.set_opaque_region of a copy of the region, in surface pixels. Without a region no
    /// point is said to be opaque. It is pending until the next commit.
    ///
    /// # Errors
    ///
    /// `Memory`. Nothing changes then.
    pub fn set_opaque(
        &mut self,
        surface: SurfaceNo,
        region: Option<&Region<A>>,
    ) -> Result<(), SurfaceError>
        ensures ok { OnOk result ((changes : Option (List RegionChange)) → IsCopied (option_copied region.entry) changes
            → Changes self.old.states self.new.states surface (asking (SetOpaqueRegion changes))) }
        ensures stand { OnOk result ((changes : Option (List RegionChange)) → IsCopied (option_copied region.entry) changes
            → (all : Asked) → Stand self.old.states self.old.family all → Stand self.new.states self.new.family (with_change surface (asking (SetOpaqueRegion changes)) all)) }
        ensures family { self.new.family ≡ self.old.family }
        ensures frames { self.new.states.frames ≡ self.old.states.frames }
        ensures err { OnErr result (self.new ≡ self.old) }
        ensures cause { IfErr result (λ e. e ≡ SurfaceError.Memory) }
    {
        self.states.set_opaque(surface, region)
    }

    /// wl_surface.set_input_region of a copy of the region, in surface pixels. Without a region
    /// each point takes input. It is pending until the next commit.
    ///
    /// # Errors
    ///
    /// `Memory`. Nothing changes then.
    pub fn set_input(
        &mut self,
        surface: SurfaceNo,
        region: Option<&Region<A>>,
    ) -> Result<(), SurfaceError>
        ensures ok { OnOk result ((changes : Option (List RegionChange)) → IsCopied (option_copied region.entry) changes
            → Changes self.old.states self.new.states surface (asking (SetInputRegion changes))) }
        ensures stand { OnOk result ((changes : Option (List RegionChange)) → IsCopied (option_copied region.entry) changes
            → (all : Asked) → Stand self.old.states self.old.family all → Stand self.new.states self.new.family (with_change surface (asking (SetInputRegion changes)) all)) }
        ensures family { self.new.family ≡ self.old.family }
        ensures frames { self.new.states.frames ≡ self.old.states.frames }
        ensures err { OnErr result (self.new ≡ self.old) }
        ensures cause { IfErr result (λ e. e ≡ SurfaceError.Memory) }
    {
        self.states.set_input(surface, region)
    }
}

impl<A: Allocator> Surfaces<A> {
    /// wl_surface.attach of a buffer, or of none. The surface moves by `x` and `y`, in its own
    /// pixels to the right and down. It is pending until the next commit.
    pub fn attach(&mut self, surface: SurfaceNo, buffer: Option<Attached>, x: i32, y: i32)
        ensures changes { Changes self.old.states self.new.states surface (asking (Attach (option_map buffer_of buffer) x y)) }
        ensures stand { (all : Asked) → Stand self.old.states self.old.family all
            → Stand self.new.states self.new.family (with_change surface (asking (Attach (option_map buffer_of buffer) x y)) all) }
        ensures family { self.new.family ≡ self.old.family }
        ensures frames { self.new.states.frames ≡ self.old.states.frames }
    {
        self.states.attach(surface, buffer, x, y);
    }

    /// wl_surface.damage of a rectangle in surface pixels. It is pending until the next commit.
    ///
    /// # Errors
    ///
    /// `Memory`. Nothing changes then.
    pub fn damage(&mut self, surface: SurfaceNo, rect: Rect) -> Result<(), SurfaceError>
        ensures ok { OnOk result (Changes self.old.states self.new.states surface (asking (Damage rect))) }
        ensures stand { OnOk result ((all : Asked) → Stand self.old.states self.old.family all
            → Stand self.new.states self.new.family (with_change surface (asking (Damage rect)) all)) }
        ensures family { self.new.family ≡ self.old.family }
        ensures frames { self.new.states.frames ≡ self.old.states.frames }
        ensures err { OnErr result (self.new ≡ self.old) }
        ensures cause { IfErr result (λ e. e ≡ SurfaceError.Memory) }
    {
        self.states.damage(surface, rect)
    }

    /// wl_surface.damage_buffer of a rectangle in pixels of the buffer. It is pending until the
    /// next commit.
    ///
    /// # Errors
    ///
    /// `Memory`. Nothing changes then.
    pub fn damage_buffer(&mut self, surface: SurfaceNo, rect: Rect) -> Result<(), SurfaceError>
        ensures ok { OnOk result (Changes self.old.states self.new.states surface (asking (DamageBuffer rect))) }
        ensures stand { OnOk result ((all : Asked) → Stand self.old.states self.old.family all
            → Stand self.new.states self.new.family (with_change surface (asking (DamageBuffer rect)) all)) }
        ensures family { self.new.family ≡ self.old.family }
        ensures frames { self.new.states.frames ≡ self.old.states.frames }
        ensures err { OnErr result (self.new ≡ self.old) }
        ensures cause { IfErr result (λ e. e ≡ SurfaceError.Memory) }
    {
        self.states.damage_buffer(surface, rect)
    }

    /// wl_surface.frame: a callback waits until a commit applies it and a frame is shown.
    ///
    /// # Errors
    ///
    /// `Memory`. Nothing changes then.
    pub fn frame(&mut self, surface: SurfaceNo, callback: u32) -> Result<(), SurfaceError>
        ensures ok { OnOk result ((n : ℕ) → Changes self.old.states self.new.states surface (asking (Frame n))) }
        ensures stand { OnOk result ((n : ℕ) (all : Asked) → Stand self.old.states self.old.family all
            → Stand self.new.states self.new.family (with_change surface (asking (Frame n)) all)) }
        ensures frames { OnOk result (self.new.states.frames ≡ (if is_some (kept_at self.old.states surface)
            then self.old.states.frames ++ record { surface = surface; callback = callback; is_held = false; is_applied = false } ∷ [] else self.old.states.frames)) }
        ensures waits { OnOk result ((all : Numbered) (cs : List Callback) → StandForAll self.old.states all → AreWaiting self.old.states.frames all cs
            → is_some (all surface) ≡ true → (n : ℕ) → IsNewNumber n all cs
            → AreWaiting self.new.states.frames (changed_at surface (asking (Frame n)) all) (cs ++ record { number = n; id = callback } ∷ [])) }
        ensures family { self.new.family ≡ self.old.family }
        ensures err { OnErr result (self.new ≡ self.old) }
        ensures cause { IfErr result (λ e. e ≡ SurfaceError.Memory) }
    {
        self.states.frame(surface, callback)
    }

    /// wl_surface.set_buffer_transform, by the number in wl_output.transform. It is pending until
    /// the next commit.
    ///
    /// # Errors
    ///
    /// `Transform` if the number is none of 0 to 7. Nothing changes then.
    pub fn set_transform(&mut self, surface: SurfaceNo, transform: i32) -> Result<(), SurfaceError>
        ensures ok { OnOk result (Changes self.old.states self.new.states surface (asking (SetBufferTransform (unsigned_abs transform)))) }
        ensures stand { OnOk result ((all : Asked) → Stand self.old.states self.old.family all
            → Stand self.new.states self.new.family (with_change surface (asking (SetBufferTransform (unsigned_abs transform))) all)) }
        ensures family { self.new.family ≡ self.old.family }
        ensures frames { self.new.states.frames ≡ self.old.states.frames }
        ensures valid { IsOk result ↔ (is_transform transform ≡ true) }
        ensures err { OnErr result (self.new ≡ self.old) }
        ensures cause { IfErr result (λ e. e ≡ SurfaceError.Transform) }
    {
        self.states.set_transform(surface, transform)
    }

    /// wl_surface.set_buffer_scale: `scale` pixels of the buffer, in each direction, make one of
    /// the surface. It is pending until the next commit.
    ///
    /// # Errors
    ///
    /// `Scale` if the number is below 1. Nothing changes then.
    pub fn set_scale(&mut self, surface: SurfaceNo, scale: i32) -> Result<(), SurfaceError>
        ensures ok { OnOk result (Changes self.old.states self.new.states surface (asking (SetBufferScale (unsigned_abs scale)))) }
        ensures stand { OnOk result ((all : Asked) → Stand self.old.states self.old.family all
            → Stand self.new.states self.new.family (with_change surface (asking (SetBufferScale (unsigned_abs scale))) all)) }
        ensures family { self.new.family ≡ self.old.family }
        ensures frames { self.new.states.frames ≡ self.old.states.frames }
        ensures valid { IsOk result ↔ (is_scale scale ≡ true) }
        ensures err { OnErr result (self.new ≡ self.old) }
        ensures cause { IfErr result (λ e. e ≡ SurfaceError.Scale) }
    {
        self.states.set_scale(surface, scale)
    }

    /// Gives a surface its role, for life (wayland.xml, wl_surface).
    ///
    /// # Errors
    ///
    /// `Role` exactly if it has another one. Nothing changes then.
    pub fn give_role(&mut self, surface: SurfaceNo, role: Role) -> Result<(), SurfaceError>
        ensures ok { OnOk result (Changes self.old.states self.new.states surface (with_role role)) }
        ensures stand { OnOk result ((all : Asked) → Stand self.old.states self.old.family all
            → Stand self.new.states self.new.family (with_change surface (with_role role) all)) }
        ensures family { self.new.family ≡ self.old.family }
        ensures frames { self.new.states.frames ≡ self.old.states.frames }
        ensures err { OnErr result (self.new ≡ self.old) }
        ensures refused { (all : Numbered) → StandForAll self.old.states all
            → (IsErr result) ↔ ((other : Role) × (role_at (all surface) ≡ Some other) × (other ≢ role)) }
        ensures cause { IfErr result (λ e. e ≡ SurfaceError.Role) }
    {
        self.states.give_role(surface, role)
    }

    /// Takes out the callback that is answered at the next shown frame: of those applied, the first
    /// that was requested (wayland.xml, wl_surface.frame). `None` if none is applied.
    pub fn next_frame(&mut self) -> Option<u32>
        ensures next { result ≡ next_of self.old.states.frames }
        ensures frames { self.new.states.frames ≡ without_next self.old.states.frames }
        ensures places { self.new.states.places ≡ self.old.states.places }
        ensures family { self.new.family ≡ self.old.family }
        ensures less { OnSome result (length self.new.states.frames < length self.old.states.frames) }
        ensures due { IfSome result (λ id. (all : Numbered) (cs : List Callback) → AreWaiting self.old.states.frames all cs → IsNextDue id all cs self.new.states.frames) }
        ensures none { IfNone result ((self.new ≡ self.old) × ((all : Numbered) (cs : List Callback) → AreWaiting self.old.states.frames all cs → AreUndue all cs)) }
    {
        self.states.next_frame()
    }

    /// The applied state of a surface. `None` if there is no surface of this number.
    pub fn current(&self, surface: SurfaceNo) -> Option<Current<'_, A>>
        ensures stands { (all : Numbered) → StandForAll self.now.states all → IsCurrentAt result (all surface) }
        ensures kept { option_map counting_in result ≡ option_map counting_of (kept_at self.now.states surface) }
    {
        self.states.current(surface)
    }

    /// The buffer that the next commit would show, if it has one.
    pub fn pending_buffer(&self, surface: SurfaceNo) -> Option<Attached>
        ensures { (all : Numbered) → StandForAll self.now.states all → option_map buffer_of result ≡ pending_at (all surface) }
    {
        self.states.pending_buffer(surface)
    }

    /// Whether the sides of the pending buffer are multiples of the pending scale (wayland.xml,
    /// wl_surface.error, invalid_size). It is true without a buffer, and without a surface.
    pub fn is_whole(&self, surface: SurfaceNo) -> bool
        ensures { (all : Numbered) → StandForAll self.now.states all → result ≡ is_whole_at (all surface) }
    {
        self.states.is_whole(surface)
    }

    /// The buffers that a surface has pending, held and applied.
    pub fn buffers(&self, surface: SurfaceNo) -> [Option<Attached>; 3]
        ensures { (all : Numbered) → StandForAll self.now.states all → map (option_map buffer_of) result ≡ had_at (all surface) }
    {
        self.states.buffers(surface)
    }

    /// Whether a surface has a buffer pending, held or applied.
    pub fn has_content(&self, surface: SurfaceNo) -> bool
        ensures { (all : Numbered) → StandForAll self.now.states all → result ≡ content_at (all surface) }
    {
        self.states.has_content(surface)
    }

    /// Whether a surface has the buffer held or applied. It is busy then, and its client may not
    /// write to it (wayland.xml, wl_buffer.release).
    pub fn is_busy(&self, buffer: BufferNo) -> bool
        ensures { (all : Numbered) → StandForAll self.now.states all → IsAny (shows_at buffer) all result }
    {
        self.states.is_busy(buffer)
    }

    /// Whether a surface has the buffer pending, held or applied.
    pub fn is_used(&self, buffer: BufferNo) -> bool
        ensures { (all : Numbered) → StandForAll self.now.states all → IsAny (has_at buffer) all result }
    {
        self.states.is_used(buffer)
    }

    /// The role of a surface, if it has one.
    pub fn role(&self, surface: SurfaceNo) -> Option<Role>
        ensures { (all : Numbered) → StandForAll self.now.states all → result ≡ role_at (all surface) }
    {
        self.states.role(surface)
    }

    /// What is kept of each surface by itself, to read.
    pub fn states(&self) -> &SurfaceStates<A>
        ensures { result.now ≡ self.now.states }
    {
        &self.states
    }

    /// The living link of a child. `None` if it has none.
    pub fn link(&self, child: SurfaceNo) -> Option<Link>
        ensures { result ≡ links_in self.now.family child }
    {
        self.family.link(child)
    }

    /// Whether more than 16 levels would stand below a root, were the child below the parent with
    /// its tree (wayland.xml, wl_subcompositor.get_subsurface).
    pub fn is_too_deep(&self, child: SurfaceNo, parent: SurfaceNo) -> bool
        ensures deep { IsTooDeep child parent (links_in self.now.family) result }
        ensures stand { HangTogether self.now.family }
    {
        self.family.is_too_deep(child, parent)
    }

    /// Whether a surface is `top` or descends from it.
    pub(crate) fn is_under(&self, top: SurfaceNo, surface: SurfaceNo) -> bool
        ensures { result ≡ is_under 16 (parents_of (links_in self.now.family)) top surface }
    {
        self.family.is_under(top, surface)
    }

    /// Whether a surface behaves synchronised: it is a subsurface, and it or one above it is
    /// synchronised (wayland.xml, wl_subsurface).
    pub(crate) fn behaves_synchronised(&self, surface: SurfaceNo) -> bool
        ensures { result ≡ behaves_synchronised 17 (links_in self.now.family) surface }
    {
        self.family.behaves_synchronised(surface)
    }

    /// The root of a surface's tree: one goes from child to parent until there is no link.
    pub fn root(&self, surface: SurfaceNo) -> SurfaceNo
        ensures root { result ≡ root_by 16 (parents_of (links_in self.now.family)) surface }
        ensures none { links_in self.now.family result ≡ None }
    {
        self.family.root(surface)
    }

    /// The applied stack of a surface and its children, from the lowest up. It is empty for a
    /// surface without children, and whole for any other. Besides the surface it has only children
    /// whose links live.
    pub fn stack(&self, surface: SurfaceNo) -> &[Placed]
        ensures stack { whole result.now ≡ (stacks_in self.now.family surface).applied }
        ensures stand { HangTogether self.now.family }
    {
        self.family.stack(surface)
    }
}
