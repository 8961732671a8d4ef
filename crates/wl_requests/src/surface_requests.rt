//! The requests of wl_surface, a rectangular area that may be displayed on outputs (wayland.xml,
//! wl_surface). They set its pending state, and a commit applies that.

ghost use Rattle.std.specs.Prelude.{◌≡◌, ◌==◌, ◌+◌, ℕ, ℤ, if◌then◌else◌, Ok, Option, None, Some, is_some, true, unsigned_abs};
ghost use Rattle.std.specs.List.{list_any};
ghost use Rattle.std.specs.Option.{option_map};
ghost use Rattle.wl_client.specs.Agreement.{IsPeer};
ghost use Rattle.wl_surface.specs.Kept.{buffer_of};
ghost use Rattle.wl_surface.specs.Slots.{is_scale, is_transform};
ghost use Rattle.wl_surface.specs.Request.{Attach, Damage as DamageAsked, DamageBuffer as BufferDamaged, SetBufferScale, SetBufferTransform, SetInputRegion, SetOpaqueRegion};
ghost use Rattle.wl_proto.specs.Messages.{wl_surface_request};
ghost use Rattle.wl_proto.specs.declared.wl_surface.WlSurfaceRequest.TheVariants.{Commit};
ghost use Rattle.wl_geom.specs.declared.rect.Rect.{Rect as ScreenRect};
ghost use Rattle.wl_shell.specs.Kept.{Kept as KeptXdg, changing, commit_answer, kept_after, kept_of};
ghost use Rattle.spec_desktop.specs.Ask.{AskSurface};
ghost use Rattle.spec_desktop.specs.Changing.{changed_for, output_rect};
ghost use Rattle.spec_desktop.specs.Demand.{AskFrame, CommitTree, EndSurface};
ghost use Rattle.spec_desktop.specs.Desktop.{Desktop, Resident as Plain, unpointed};
ghost use Rattle.law_desktop.specs.Ordered.{OwnsOrdered};
ghost use Rattle.law_desktop.specs.Owning.{IsOwned, Names, by_number, effect_by};
ghost use Rattle.law_desktop.specs.OwnedPopups.{IsAtParent};
ghost use Rattle.law_desktop.specs.RoleNames.{names_of};
ghost use Rattle.law_desktop.specs.Subsurfaces.{AreOfSurfaces};
ghost use Rattle.spec_desktop.specs.Framing.{AreFramed};
ghost use Rattle.wl_requests.specs.Freed.{is_freed_in};
ghost use Rattle.wl_requests.specs.Holding.{HoldsAs, HoldsBy, HoldsPlaced};
ghost use Rattle.wl_requests.specs.Messages.{IsTouchOf, asks_itself};
ghost use Rattle.wl_requests.specs.Touching.{IsTouched, Touch, Commits, Destroys};
ghost use Rattle.wl_requests.specs.Residents.{AnswersDemand, AnswersDemandAs, AnswersPlaced, AnswersPlacedAs, Does, IsFree, IsResident, IsSurface, Leaves, MeetsAs, MeetsTold, NewIsFree, stacking_by, Stacks};
ghost use Rattle.spec_desktop.specs.Demanding.{commit_demand, demand_of, demands, effect_of_commit, surface_destroyed};
ghost use Rattle.spec_desktop.specs.WlSurface.{buffer_named, region_named, scale_set, transform_set, will_show};

use crate::messages::Kind;
use crate::residents::{Given, Outcome, Resident, Stacking};
use std::alloc::Allocator;
use wl_client::{ErrorCode, Refusal};
use wl_geom::Rect;
use wl_proto::{Interface, WlSurfaceRequest};
use wl_shell::ShellAct;
use wl_surface::{Applied, Attached, BufferNo, SurfaceNo};
use wl_table::Entry;

/// Whether this is one of the eight transforms (wayland.xml, wl_output.transform).
fn is_valid(transform: i32) -> bool
    ensures { result ≡ is_transform transform }
{
    (0..=7).contains(&transform)
}

/// Whether this is a scale: how many pixels of a buffer make one of its surface (wayland.xml,
/// wl_surface.set_buffer_scale).
fn is_positive(scale: i32) -> bool
    ensures { result ≡ is_scale scale }
{
    scale >= 1
}

/// Whether a buffer is one of these that are freed.
fn is_freed(buffer: Option<Attached>, freed: &[BufferNo]) -> bool
    ensures { result ≡ is_freed_in freed.now (option_map buffer_of buffer) }
{
    match buffer {
        Some(attached) => has_number(freed, attached.number),
        None => false,
    }
}

/// Whether a number is among these.
fn has_number(numbers: &[BufferNo], number: BufferNo) -> bool
    ensures { result ≡ list_any (λ n. n == number) numbers.now }
{
    numbers.iter().any(|other| *other == number)
}

/// What a commit does to the stack that led to this for the surface's xdg_surface. Only a toplevel
/// is stacked.
fn stacking_of(act: ShellAct, surface: SurfaceNo, is_toplevel: bool) -> Stacking
    ensures { result ≡ (if is_toplevel then stacking_by act surface else Stacking.Stays) }
{
    if !is_toplevel {
        return Stacking::Stays;
    }
    match act {
        ShellAct::Map => Stacking::ToTop(surface),
        ShellAct::Unmap => Stacking::Out(surface),
        ShellAct::Configure(_) | ShellAct::Place(_) | ShellAct::Nothing => Stacking::Stays,
    }
}

impl<A: Allocator + Copy> Resident<A> {
    /// The buffer of the wl_buffer with this id, or none for null.
    fn attached(&self, id: u32) -> Option<Attached>
        ensures { (r : Plain) → IsPeer self.now.client r.peer → option_map buffer_of result ≡ buffer_named r id }
    {
        let buffer = self.client.buffer(id)?;
        Some(Attached {
            number: buffer.number(),
            object: id,
            store: buffer.store(),
            layout: buffer.layout(),
        })
    }

    /// wl_surface.destroy of a surface that has no xdg_surface. Its frame callbacks go with it, and
    /// their ids are given back after its own. Its links end, and its wl_subsurface becomes inert.
    /// `None` without memory.
    fn destroy_surface(
        &mut self,
        object: u32,
        surface: SurfaceNo,
        has_room: bool,
    ) -> Option<Applied<A>>
        ensures does { IsSurface self.old object surface → kept_of self.old.owned.shell surface ≡ None → MeetsTold (λ r. EndSurface object) result self.old self.new }
        ensures touched { IsTouched (Destroys surface) self.old.owned.surfaces self.new.owned.surfaces result }
        ensures rest { Leaves self.old self.new }
        ensures room { is_some result ≡ true → has_room ≡ true }
        ensures holds { IsSurface self.old object surface → kept_of self.old.owned.shell surface ≡ None → (c : ℕ) (r : Plain) (d : Desktop) → IsResident self.old r
            → OwnsOrdered r → is_some result ≡ true → HoldsBy self.old self.new (changed_for c (EndSurface object) r (unpointed d)).owned }
    {
        let [pending, _, _] = self.owned.surfaces.buffers(surface);
        let Ok(told) = self.owned.surfaces.destroy(surface) else {
            self.client.lack_memory();
            return None;
        };
        self.subsurfaces.clear(surface);
        let Some(released) = self.let_go_of_told(&told, has_room) else {
            return None;
        };
        self.let_go_if_over(pending, is_freed(pending, &told.freed));
        self.client.remove_with(object, &told.callbacks, None);
        self.tell_releases(&released);
        Some(told)
    }

    /// wl_surface.attach of the buffer with this id, or of none for null, at this offset in pixels.
    pub(crate) fn attach(&mut self, surface: SurfaceNo, buffer: u32, x: i32, y: i32)
        ensures does { (object : ℕ) → IsSurface self.old object surface → Does (λ r. AskSurface object (Attach (buffer_named r buffer) x y)) self.old self.new }
        ensures rest { Leaves self.old self.new }
    {
        let had = self.owned.surfaces.buffers(surface);
        let attached = self.attached(buffer);
        self.owned.surfaces.attach(surface, attached, x, y);
        self.let_go_of(had);
    }

    /// wl_surface.damage of a rectangle in surface pixels.
    pub(crate) fn damage(&mut self, surface: SurfaceNo, rect: Rect)
        ensures does { (object : ℕ) → IsSurface self.old object surface → Does (λ r. AskSurface object (DamageAsked rect)) self.old self.new }
        ensures rest { Leaves self.old self.new }
    {
        match self.owned.surfaces.damage(surface, rect) {
            Ok(()) => {}
            Err(_) => self.client.lack_memory(),
        }
    }

    /// wl_surface.damage_buffer of a rectangle in pixels of the buffer.
    fn damage_buffer(&mut self, surface: SurfaceNo, rect: Rect)
        ensures does { (object : ℕ) → IsSurface self.old object surface → Does (λ r. AskSurface object (BufferDamaged rect)) self.old self.new }
        ensures rest { Leaves self.old self.new }
    {
        match self.owned.surfaces.damage_buffer(surface, rect) {
            Ok(()) => {}
            Err(_) => self.client.lack_memory(),
        }
    }

    /// wl_surface.set_opaque_region of a copy of the region with this id, or of none for null.
    pub(crate) fn set_opaque_region(&mut self, surface: SurfaceNo, region: u32)
        ensures does { (object : ℕ) → IsSurface self.old object surface → Does (λ r. AskSurface object (SetOpaqueRegion (region_named r region))) self.old self.new }
        ensures rest { Leaves self.old self.new }
    {
        let region = self.client.region(region);
        match self.owned.surfaces.set_opaque(surface, region) {
            Ok(()) => {}
            Err(_) => self.client.lack_memory(),
        }
    }

    /// wl_surface.set_input_region of a copy of the region with this id, or of none for null.
    pub(crate) fn set_input_region(&mut self, surface: SurfaceNo, region: u32)
        ensures does { (object : ℕ) → IsSurface self.old object surface → Does (λ r. AskSurface object (SetInputRegion (region_named r region))) self.old self.new }
        ensures rest { Leaves self.old self.new }
    {
        let region = self.client.region(region);
        match self.owned.surfaces.set_input(surface, region) {
            Ok(()) => {}
            Err(_) => self.client.lack_memory(),
        }
    }

    /// wl_surface.commit: the pending state becomes the held one, and the shell says what that
    /// leads to. `given` says by what a popup is placed.
    ///
    /// If the shell refuses nothing, a buffer whose sides are no multiples of the scale is refused,
    /// and nothing is applied (wayland.xml, wl_surface.error, invalid_size).
    fn commit(&mut self, object: u32, surface: SurfaceNo, given: Given) -> Outcome<A>
        ensures answers { IsSurface self.old object surface
            → AnswersPlacedAs (is_some result.applied) given.placing (Kind.Surface Commit) object (λ r. commit_demand r object) self.old self.new }
        ensures stacks { IsSurface self.old object surface
            → Stacks (λ r. commit_demand r object) self.old result.stacking }
        ensures touched { IsTouched (Commits surface) self.old.owned.surfaces self.new.owned.surfaces result.applied }
        ensures rest { Leaves self.old self.new }
        ensures room { is_some result.applied ≡ true → given.has_room ≡ true }
        ensures holds { IsSurface self.old object surface
            → HoldsPlaced (is_some result.applied) given.placing (Kind.Surface Commit) object (λ r. commit_demand r object) self.old self.new }
    {
        let has_buffer = self.owned.surfaces.pending_buffer(surface).is_some();
        let is_toplevel = self.has_toplevel(surface);
        let serial = self.client.serial();
        match self.owned.shell.on_commit(
            surface,
            has_buffer,
            given.placing.bounds,
            given.placing.parent_at,
            serial,
        ) {
            Ok(act) => {
                if !self.owned.surfaces.is_whole(surface) {
                    let refusal = Refusal::of(object, ErrorCode::InvalidBufferSize);
                    self.client.refuse(refusal);
                    return Outcome::of(Stacking::Stays);
                }
                self.client.count();
                let applied = self.apply(surface, act, serial, given.has_room);
                Outcome {
                    stacking: stacking_of(act, surface, is_toplevel),
                    applied,
                }
            }
            Err(error) => {
                let xdg_surface = self.xdg_surface_of(surface);
                self.refuse_xdg_surface(xdg_surface, surface, error);
                Outcome::of(Stacking::Stays)
            }
        }
    }

    /// Commits a surface if the sides of its buffer are multiples of the scale, and tells what that
    /// led to for the shell. The answer is what was applied; `None` without memory for it.
    fn apply(
        &mut self,
        surface: SurfaceNo,
        act: ShellAct,
        serial: u32,
        has_room: bool,
    ) -> Option<Applied<A>>
        ensures applies { (c : ℕ) (r : Plain) (d : Desktop) (names : Names) (object : ℕ) (kept : ℕ → Option KeptXdg) (bounds : ScreenRect) (at : ℤ × ℤ) → OwnsOrdered r
            → effect_of_commit r object ≡ effect_by act → r.peer.status ≡ None → IsPeer self.old.client r.peer → IsOwned names self.old.owned.surfaces.states self.old.owned.surfaces.family kept r.owned
            → AreFramed self.old.owned.surfaces.states.frames (by_number names.surfaces r.owned.surfaces) (r.peer.requests + 1) r.callbacks
            → AreOfSurfaces self.old.subsurfaces names.surfaces r.subsurfaces
            → names_of self.old.client.objects ≡ names → names.surfaces object ≡ Some surface → bounds ≡ output_rect d.output → IsAtParent at c object r d
            → commit_answer (will_show r object) bounds at (kept surface) ≡ Ok act → serial ≡ r.peer.serial
            → kept_of self.old.owned.shell ≡ changing surface (kept_after r.peer.serial act) kept
            → MeetsAs (is_some result) c (CommitTree object) r d self.old self.new }
        ensures touched { IsTouched (Commits surface) self.old.owned.surfaces self.new.owned.surfaces result }
        ensures rest { Leaves self.old self.new }
        ensures room { is_some result ≡ true → has_room ≡ true }
        ensures holds { (c : ℕ) (r : Plain) (d : Desktop) (names : Names) (object : ℕ) (kept : ℕ → Option KeptXdg) (bounds : ScreenRect) (at : ℤ × ℤ) → OwnsOrdered r
            → IsOwned names self.old.owned.surfaces.states self.old.owned.surfaces.family kept r.owned → names_of self.old.client.objects ≡ names
            → names.surfaces object ≡ Some surface → bounds ≡ output_rect d.output → IsAtParent at c object r d
            → commit_answer (will_show r object) bounds at (kept surface) ≡ Ok act
            → kept_of self.old.owned.shell ≡ changing surface (kept_after r.peer.serial act) kept
            → is_some result ≡ true → HoldsBy self.old self.new (changed_for c (CommitTree object) r (unpointed d)).owned }
    {
        let Ok(told) = self.owned.surfaces.commit(surface) else {
            self.client.lack_memory();
            return None;
        };
        let Some(released) = self.let_go_of_told(&told, has_room) else {
            return None;
        };
        self.tell_act(surface, act, serial);
        self.tell_releases(&released);
        Some(told)
    }

    /// wl_surface.set_buffer_transform to one of the eight.
    pub(crate) fn set_buffer_transform(&mut self, surface: SurfaceNo, transform: i32)
        ensures does { (object : ℕ) → is_transform transform ≡ true → IsSurface self.old object surface
            → Does (λ r. AskSurface object (SetBufferTransform (unsigned_abs transform))) self.old self.new }
        ensures rest { Leaves self.old self.new }
    {
        match self.owned.surfaces.set_transform(surface, transform) {
            Ok(()) => {}
            Err(_) => self.client.lack_memory(),
        }
    }

    /// wl_surface.set_buffer_scale to one of 1 or more.
    fn set_buffer_scale(&mut self, surface: SurfaceNo, scale: i32)
        ensures does { (object : ℕ) → is_scale scale ≡ true → IsSurface self.old object surface
            → Does (λ r. AskSurface object (SetBufferScale (unsigned_abs scale))) self.old self.new }
        ensures rest { Leaves self.old self.new }
    {
        match self.owned.surfaces.set_scale(surface, scale) {
            Ok(()) => {}
            Err(_) => self.client.lack_memory(),
        }
    }

    /// Whether a surface has an xdg_surface.
    fn has_xdg_surface(&self, surface: SurfaceNo) -> bool
        ensures { result ≡ is_some (kept_of self.now.owned.shell surface) }
    {
        match self.owned.shell.get(surface) {
            Some(_) => true,
            None => false,
        }
    }

    /// wl_surface.destroy. It is refused while the surface has an xdg_surface.
    fn destroy(&mut self, object: u32, surface: SurfaceNo, has_room: bool) -> Outcome<A>
        ensures answers { IsSurface self.old object surface
            → AnswersDemandAs (is_some result.applied) (λ r. surface_destroyed r object) self.old self.new }
        ensures touched { IsTouched (Destroys surface) self.old.owned.surfaces self.new.owned.surfaces result.applied }
        ensures stays { result.stacking ≡ Stacking.Stays }
        ensures rest { Leaves self.old self.new }
        ensures room { is_some result.applied ≡ true → has_room ≡ true }
        ensures holds { IsSurface self.old object surface
            → HoldsAs (is_some result.applied) (λ r. surface_destroyed r object) self.old self.new }
    {
        if self.has_xdg_surface(surface) {
            let refusal = Refusal::of(object, ErrorCode::SurfaceHasRoleObject);
            self.client.refuse(refusal);
            return Outcome::of(Stacking::Stays);
        }
        self.client.count();
        Outcome {
            stacking: Stacking::Stays,
            applied: self.destroy_surface(object, surface, has_room),
        }
    }

    /// wl_surface.set_buffer_transform, of one of the eight.
    fn transform(&mut self, object: u32, surface: SurfaceNo, transform: i32)
        ensures answers { IsSurface self.old object surface → AnswersDemand (λ r. demands (transform_set object transform)) self.old self.new }
        ensures rest { Leaves self.old self.new }
    {
        if !is_valid(transform) {
            let refusal = Refusal::of(object, ErrorCode::InvalidTransform);
            self.client.refuse(refusal);
            return;
        }
        self.client.count();
        self.set_buffer_transform(surface, transform);
    }

    /// wl_surface.set_buffer_scale, of 1 or more.
    fn scale(&mut self, object: u32, surface: SurfaceNo, scale: i32)
        ensures answers { IsSurface self.old object surface → AnswersDemand (λ r. demands (scale_set object scale)) self.old self.new }
        ensures rest { Leaves self.old self.new }
    {
        if !is_positive(scale) {
            let refusal = Refusal::of(object, ErrorCode::InvalidScale);
            self.client.refuse(refusal);
            return;
        }
        self.client.count();
        self.set_buffer_scale(surface, scale);
    }

    /// wl_surface.frame: the callback with this id waits until a commit applies the request and a
    /// frame is shown.
    fn frame(&mut self, version: u32, surface: SurfaceNo, callback: u32)
        ensures answers { (object : ℕ) → IsSurface self.old object surface → IsFree self.old callback
            → AnswersDemand (λ r. Ok (AskFrame callback version object)) self.old self.new }
        ensures rest { Leaves self.old self.new }
    {
        self.client.count();
        match self.owned.surfaces.frame(surface, callback) {
            Ok(()) => {
                let entry = Entry {
                    interface: Interface::WlCallback,
                    version,
                    target: 0,
                };
                self.client.add(callback, entry, &[]);
            }
            Err(_) => self.client.lack_memory(),
        }
    }

    /// A request that asks something of a surface by itself, neither a commit nor its end. Its new
    /// id is free, if it has one.
    fn ask_surface(
        &mut self,
        object: u32,
        version: u32,
        surface: SurfaceNo,
        request: &WlSurfaceRequest,
    )
        requires { asks_itself request.now ≡ true }
        ensures answers { IsSurface self.old object surface → NewIsFree self.old (wl_surface_request request.now)
            → AnswersDemand (λ r. demand_of r object version (wl_surface_request request.now)) self.old self.new }
        ensures rest { Leaves self.old self.new }
    {
        match *request {
            WlSurfaceRequest::Attach { buffer, x, y } => {
                self.client.count();
                self.attach(surface, buffer, x, y);
            }
            WlSurfaceRequest::Damage {
                x,
                y,
                width: w,
                height: h,
            } => {
                self.client.count();
                self.damage(surface, Rect { x, y, w, h });
            }
            WlSurfaceRequest::Frame { callback } => self.frame(version, surface, callback),
            WlSurfaceRequest::SetOpaqueRegion { region } => {
                self.client.count();
                self.set_opaque_region(surface, region);
            }
            WlSurfaceRequest::SetInputRegion { region } => {
                self.client.count();
                self.set_input_region(surface, region);
            }
            WlSurfaceRequest::SetBufferTransform { transform } => {
                self.transform(object, surface, transform);
            }
            WlSurfaceRequest::SetBufferScale { scale } => self.scale(object, surface, scale),
            WlSurfaceRequest::DamageBuffer {
                x,
                y,
                width: w,
                height: h,
            } => {
                self.client.count();
                self.damage_buffer(surface, Rect { x, y, w, h });
            }
            WlSurfaceRequest::Commit | WlSurfaceRequest::Destroy => unreachable!(),
        }
    }

    /// A request of a surface, whose new id is free, if it has one.
    pub(crate) fn wl_surface(
        &mut self,
        object: u32,
        version: u32,
        surface: SurfaceNo,
        request: &WlSurfaceRequest,
        given: Given,
    ) -> Outcome<A>
        ensures answers { IsSurface self.old object surface → NewIsFree self.old (wl_surface_request request.now)
            → AnswersPlaced given.placing (Kind.Surface request.now) object (λ r. demand_of r object version (wl_surface_request request.now)) self.old self.new }
        ensures stacks { IsSurface self.old object surface
            → Stacks (λ r. demand_of r object version (wl_surface_request request.now)) self.old result.stacking }
        ensures decides { (touch : Touch) → IsTouchOf (Kind.Surface request.now) object surface self.old touch → IsSurface self.old object surface
            → AnswersPlacedAs (is_some result.applied) given.placing (Kind.Surface request.now) object (λ r. demand_of r object version (wl_surface_request request.now)) self.old self.new }
        ensures touched { (touch : Touch) → IsTouchOf (Kind.Surface request.now) object surface self.old touch
            → IsTouched touch self.old.owned.surfaces self.new.owned.surfaces result.applied }
        ensures nothing { ((touch : Touch) → IsTouchOf (Kind.Surface request.now) object surface self.old touch → ⊥) → result.applied ≡ None }
        ensures rest { Leaves self.old self.new }
        ensures room { is_some result.applied ≡ true → given.has_room ≡ true }
        ensures holds { (touch : Touch) → IsTouchOf (Kind.Surface request.now) object surface self.old touch → IsSurface self.old object surface
            → HoldsPlaced (is_some result.applied) given.placing (Kind.Surface request.now) object (λ r. demand_of r object version (wl_surface_request request.now)) self.old self.new }
    {
        match *request {
            WlSurfaceRequest::Commit => self.commit(object, surface, given),
            WlSurfaceRequest::Destroy => self.destroy(object, surface, given.has_room),
            _ => {
                self.ask_surface(object, version, surface, request);
                Outcome::of(Stacking::Stays)
            }
        }
    }
}
