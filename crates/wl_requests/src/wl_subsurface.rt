//! The requests of wl_subsurface, an interface to a surface that was made a subsurface
//! (wayland.xml, wl_subsurface). They place it in its parent, and say when its commits are applied.
//!
//! A wl_subsurface whose link has ended, or whose surface is gone, is inert. It does nothing but
//! go.

ghost use Rattle.std.specs.Prelude.{ℕ, List, ◌≡◌, ◌==◌, filter, is_some, not, true, None, Some};
ghost use Rattle.law_desktop.specs.Subsurfaces.{AreOfSurfaces};
ghost use Rattle.spec_desktop.specs.Objects.{ById};
ghost use Rattle.spec_desktop.specs.Desktop.{Subsurface};
ghost use Rattle.wl_client.specs.Agreement.{IsPeer};
ghost use Rattle.spec_desktop.specs.Peer.{Errs, LacksMemory, Peer, counted};
ghost use Rattle.wl_proto.specs.Messages.{wl_subsurface_request};
ghost use Rattle.wl_proto.specs.declared.wl_subsurface.WlSubsurfaceRequest.TheVariants.{Destroy, SetDesync, SetPosition, SetSync};
ghost use Rattle.spec_desktop.specs.Demanding.{demand_of};
ghost use Rattle.wl_requests.specs.Messages.{IsTouchOf};
ghost use Rattle.wl_requests.specs.Holding.{HoldsAs};
ghost use Rattle.wl_requests.specs.Linking.{IsChildOf, IsOnlyChild, place_asked};
ghost use Rattle.wl_requests.specs.Residents.{AnswersDemand, AnswersDemandAs, IsSubsurface, IsSurface, Leaves, ObjectsFit};
ghost use Rattle.wl_requests.specs.Touching.{IsTouched, Parts, Releases, Touch};
ghost use Rattle.spec_desktop.specs.WlSubsurface.{subsurface_demand};

use crate::messages::Kind;
use crate::residents::{Outcome, Resident, Stacking};
use std::alloc::Allocator;
use wl_client::{ErrorCode, Refusal};
use wl_proto::WlSubsurfaceRequest;
use wl_surface::{Applied, Side, SurfaceError, SurfaceNo};

impl<A: Allocator + Copy> Resident<A> {
    /// The child of a wl_subsurface, while its link lives.
    pub fn child_of(&self, object: u32) -> Option<SurfaceNo>
        ensures { IsChildOf self.now object result }
    {
        let child = self.subsurfaces.surface_of(object)?;
        match self.owned.surfaces.link(child) {
            Some(_) => Some(child),
            None => None,
        }
    }

    /// wl_subsurface.set_position of the child, in pixels relative to its parent's corner. It
    /// counts once the parent is committed and applied.
    fn set_position(&mut self, object: u32, x: i32, y: i32)
        ensures answers { IsSubsurface self.old object → AnswersDemand (λ r. subsurface_demand r object (SetPosition x y)) self.old self.new }
        ensures rest { Leaves self.old self.new }
    {
        self.client.count();
        let Some(child) = self.child_of(object) else {
            return;
        };
        match self.owned.surfaces.set_position(child, x, y) {
            Ok(()) => {}
            Err(_) => self.client.lack_memory(),
        }
    }

    /// Refuses to place a child: the sibling is neither its parent nor another child of that, or
    /// memory runs out.
    fn refuse_place(&mut self, object: u32, error: SurfaceError)
        ensures ended { is_some self.new.client.ended ≡ true }
        ensures errs { error ≡ SurfaceError.NotSibling → (p : Peer) → IsPeer self.old.client p
            → (q : Peer) × Errs (record { object = object; code = ErrorCode.BadSurface }) p q × IsPeer self.new.client q }
        ensures lacks { (error ≡ SurfaceError.NotSibling → ⊥) → (p : Peer) → IsPeer self.old.client p
            → (q : Peer) × LacksMemory (counted p) q × IsPeer self.new.client q }
        ensures rest { Leaves self.old self.new }
    {
        if error == SurfaceError::NotSibling {
            self.client
                .refuse(Refusal::of(object, ErrorCode::BadSurface));
        } else {
            self.client.count();
            self.client.lack_memory();
        }
    }

    /// wl_subsurface.place_above and place_below: the child stands right above or right below a
    /// sibling or its parent. It counts once the parent is committed and applied.
    fn place(&mut self, object: u32, sibling: SurfaceNo, side: Side)
        ensures answers { (id : ℕ) → IsSubsurface self.old object → IsSurface self.old id sibling
            → AnswersDemand (λ r. subsurface_demand r object (place_asked side id)) self.old self.new }
        ensures rest { Leaves self.old self.new }
    {
        let Some(child) = self.child_of(object) else {
            self.client.count();
            return;
        };
        match self.owned.surfaces.place(child, sibling, side) {
            Ok(()) => self.client.count(),
            Err(error) => self.refuse_place(object, error),
        }
    }

    /// wl_subsurface.set_sync: the child's commits are held until its parent is applied.
    fn set_sync(&mut self, object: u32)
        ensures answers { IsSubsurface self.old object → AnswersDemand (λ r. subsurface_demand r object SetSync) self.old self.new }
        ensures rest { Leaves self.old self.new }
    {
        self.client.count();
        if let Some(child) = self.child_of(object) {
            self.owned.surfaces.set_sync(child);
        }
    }

    /// wl_subsurface.set_desync: the child's commits are applied at once, unless a surface above it
    /// is synchronised. If that changes how the child behaves, its held state is applied too.
    fn set_desync(&mut self, object: u32, has_room: bool) -> Option<Applied<A>>
        ensures answers { IsSubsurface self.old object → AnswersDemand (λ r. subsurface_demand r object SetDesync) self.old self.new }
        ensures decides { (child : ℕ) → IsOnlyChild self.old object child → IsSubsurface self.old object
            → AnswersDemandAs (is_some result) (λ r. subsurface_demand r object SetDesync) self.old self.new }
        ensures touched { (child : ℕ) → IsOnlyChild self.old object child
            → IsTouched (Releases child) self.old.owned.surfaces self.new.owned.surfaces result }
        ensures nothing { ((child : ℕ) → IsOnlyChild self.old object child → ⊥) → (numbers : ById ℕ) (subsurfaces : List Subsurface) → AreOfSurfaces self.old.subsurfaces numbers subsurfaces → result ≡ None }
        ensures rest { Leaves self.old self.new }
        ensures room { is_some result ≡ true → has_room ≡ true }
        ensures holds { (child : ℕ) → IsOnlyChild self.old object child → IsSubsurface self.old object
            → HoldsAs (is_some result) (λ r. subsurface_demand r object SetDesync) self.old self.new }
    {
        self.client.count();
        let child = self.child_of(object)?;
        let Ok(told) = self.owned.surfaces.set_desync(child) else {
            self.client.lack_memory();
            return None;
        };
        let Some(released) = self.let_go_of_told(&told, has_room) else {
            return None;
        };
        self.tell_releases(&released);
        Some(told)
    }

    /// Removes a wl_subsurface whose link has ended. Its surface, if that is there, may have
    /// another.
    fn forget(&mut self, object: u32)
        ensures subsurfaces { (numbers : ById ℕ) (subsurfaces : List Subsurface) → AreOfSurfaces self.old.subsurfaces numbers subsurfaces
            → ((a b number : ℕ) → numbers a ≡ Some number → numbers b ≡ Some number → a ≡ b)
            → AreOfSurfaces self.new.subsurfaces numbers (filter (λ s. not (s.id == object)) subsurfaces) }
        ensures client { self.new.client ≡ self.old.client }
        ensures owned { self.new.owned ≡ self.old.owned }
    {
        if let Some(surface) = self.subsurfaces.surface_of(object) {
            self.subsurfaces.clear(surface);
        }
    }

    /// wl_subsurface.destroy: the child's link to its parent ends, and its id is given back.
    fn destroy_subsurface(&mut self, object: u32, has_room: bool) -> Option<Applied<A>>
        ensures answers { IsSubsurface self.old object → AnswersDemand (λ r. subsurface_demand r object Destroy) self.old self.new }
        ensures decides { (child : ℕ) → IsOnlyChild self.old object child → IsSubsurface self.old object
            → AnswersDemandAs (is_some result) (λ r. subsurface_demand r object Destroy) self.old self.new }
        ensures touched { (child : ℕ) → IsOnlyChild self.old object child
            → IsTouched (Parts child) self.old.owned.surfaces self.new.owned.surfaces result }
        ensures nothing { ((child : ℕ) → IsOnlyChild self.old object child → ⊥) → (numbers : ById ℕ) (subsurfaces : List Subsurface) → AreOfSurfaces self.old.subsurfaces numbers subsurfaces → result ≡ None }
        ensures rest { Leaves self.old self.new }
        ensures room { is_some result ≡ true → has_room ≡ true }
        ensures holds { (child : ℕ) → IsOnlyChild self.old object child → IsSubsurface self.old object
            → HoldsAs (is_some result) (λ r. subsurface_demand r object Destroy) self.old self.new }
    {
        self.client.count();
        let Some(child) = self.child_of(object) else {
            self.forget(object);
            self.client.remove(object);
            return None;
        };
        let Ok(told) = self.owned.surfaces.remove_subsurface(child) else {
            self.client.lack_memory();
            return None;
        };
        self.subsurfaces.clear(child);
        let Some(released) = self.let_go_of_told(&told, has_room) else {
            return None;
        };
        self.client.remove(object);
        self.tell_releases(&released);
        Some(told)
    }

    /// A request of a wl_subsurface whose siblings are there.
    pub(crate) fn wl_subsurface(
        &mut self,
        object: u32,
        request: &WlSubsurfaceRequest,
        has_room: bool,
    ) -> Outcome<A>
        ensures answers { (version : ℕ) → IsSubsurface self.old object → ObjectsFit self.old (wl_subsurface_request request.now)
            → AnswersDemand (λ r. demand_of r object version (wl_subsurface_request request.now)) self.old self.new }
        ensures decides { (version target : ℕ) (touch : Touch) → IsTouchOf (Kind.Subsurface request.now) object target self.old touch → IsSubsurface self.old object
            → AnswersDemandAs (is_some result.applied) (λ r. demand_of r object version (wl_subsurface_request request.now)) self.old self.new }
        ensures touched { (target : ℕ) (touch : Touch) → IsTouchOf (Kind.Subsurface request.now) object target self.old touch
            → IsTouched touch self.old.owned.surfaces self.new.owned.surfaces result.applied }
        ensures nothing { (target : ℕ) → ((touch : Touch) → IsTouchOf (Kind.Subsurface request.now) object target self.old touch → ⊥) → (numbers : ById ℕ) (subsurfaces : List Subsurface) → AreOfSurfaces self.old.subsurfaces numbers subsurfaces → result.applied ≡ None }
        ensures stays { result.stacking ≡ Stacking.Stays }
        ensures rest { Leaves self.old self.new }
        ensures room { is_some result.applied ≡ true → has_room ≡ true }
        ensures holds { (version target : ℕ) (touch : Touch) → IsTouchOf (Kind.Subsurface request.now) object target self.old touch → IsSubsurface self.old object
            → HoldsAs (is_some result.applied) (λ r. demand_of r object version (wl_subsurface_request request.now)) self.old self.new }
    {
        let mut applied = None;
        match *request {
            WlSubsurfaceRequest::Destroy => applied = self.destroy_subsurface(object, has_room),
            WlSubsurfaceRequest::SetPosition { x, y } => self.set_position(object, x, y),
            WlSubsurfaceRequest::PlaceAbove { sibling } => {
                if let Some(sibling) = self.surface_of(sibling) {
                    self.place(object, sibling, Side::Above);
                }
            }
            WlSubsurfaceRequest::PlaceBelow { sibling } => {
                if let Some(sibling) = self.surface_of(sibling) {
                    self.place(object, sibling, Side::Below);
                }
            }
            WlSubsurfaceRequest::SetSync => self.set_sync(object),
            WlSubsurfaceRequest::SetDesync => applied = self.set_desync(object, has_room),
        }
        Outcome {
            stacking: Stacking::Stays,
            applied,
        }
    }
}
