//! The messages of one client, one after another.

ghost use Rattle.std.specs.Prelude.{ℕ, List, ◌≡◌, ◌<◌, IfNone, IfSome, None, Some, is_some, false, length, true};
ghost use Rattle.wl_table.specs.Objects.{entry_of};
ghost use Rattle.law_desktop.specs.Subsurfaces.{AreOfSurfaces};
ghost use Rattle.spec_desktop.specs.Objects.{ById};
ghost use Rattle.spec_desktop.specs.Desktop.{Subsurface};
ghost use Rattle.wl_proto.specs.Messages.{Message, request_message};
ghost use Rattle.spec_desktop.specs.Peer.{IsIdleAt};
ghost use Rattle.wl_client.specs.Serving.{is_own};
ghost use Rattle.wl_requests.specs.Holding.{HoldsMessage, HoldsPlaced};
ghost use Rattle.wl_requests.specs.Messages.{IsAsked, IsKind, IsTouchOf, IsTouchOfAsked};
ghost use Rattle.wl_requests.specs.PointerAsks.{pointer_asked_by, pointer_in};
ghost use Rattle.wl_requests.specs.Touching.{IsTouched, Touch};
ghost use Rattle.wl_requests.specs.Residents.{AnswersGiven, AnswersPlacedAs, Leaves, NewIsFree, ObjectsFit, Stacks, TakesMessage, TakesMessageAs};
ghost use Rattle.spec_desktop.specs.Demanding.{demand_of};

use crate::pointer_asked::PointerAsked;
use crate::residents::{Given, Grabbing, Outcome, Placing, Resident, Stacking};
use crate::xdg_toplevel::{ToplevelAsked, asked_of};
use std::alloc::Allocator;
use wl_client::{Action, First, Refusal};
use wl_proto::{
    Request, WlCompositorRequest, WlPointerRequest, WlSeatRequest, WlSubcompositorRequest,
    WlSubsurfaceRequest, WlSurfaceRequest, XdgPopupRequest, XdgSurfaceRequest, XdgWmBaseRequest,
};

/// A request that a client alone can't answer, by its interface.
#[derive(Clone, Copy)]
pub enum Kind {
    Compositor(WlCompositorRequest),
    Subcompositor(WlSubcompositorRequest),
    Subsurface(WlSubsurfaceRequest),
    Surface(WlSurfaceRequest),
    Seat(WlSeatRequest),
    Pointer(WlPointerRequest),
    Base(XdgWmBaseRequest),
    XdgSurface(XdgSurfaceRequest),
    Toplevel(ToplevelAsked),
    Popup(XdgPopupRequest),
}

/// What the first message of a client's bytes asks.
#[derive(Drop)]
pub enum Asked {
    /// No whole message is there.
    More,
    /// It is refused before its own errors are looked at.
    Refused(Refusal),
    /// It has this size in bytes, and is of one of the client's own interfaces. It asks this, or
    /// has this error of its own.
    Own {
        size: usize,
        judged: Result<Action, Refusal>,
    },
    /// It is to this object, which has this version and target, and has this size in bytes.
    Request {
        object: u32,
        version: u32,
        size: usize,
        target: usize,
        kind: Kind,
    },
}

/// A request that isn't one of the client's own, by its interface.
fn kind_of(request: &Request) -> Kind
    requires { is_own (request_message request.now).interface ≡ false }
    ensures { IsKind result (request_message request.now) }
{
    match request {
        Request::WlCompositor(request) => Kind::Compositor(*request),
        Request::WlSubcompositor(request) => Kind::Subcompositor(*request),
        Request::WlSubsurface(request) => Kind::Subsurface(*request),
        Request::WlSurface(request) => Kind::Surface(*request),
        Request::WlSeat(request) => Kind::Seat(*request),
        Request::WlPointer(request) => Kind::Pointer(*request),
        Request::XdgWmBase(request) => Kind::Base(*request),
        Request::XdgSurface(request) => Kind::XdgSurface(*request),
        Request::XdgToplevel(request) => Kind::Toplevel(asked_of(request)),
        Request::XdgPopup(request) => Kind::Popup(*request),
        Request::WlDisplay(_)
        | Request::WlRegistry(_)
        | Request::WlRegion(_)
        | Request::WlShm(_)
        | Request::WlShmPool(_)
        | Request::WlBuffer(_)
        | Request::XdgPositioner(_) => unreachable!(),
    }
}

impl<A: Allocator + Copy> Resident<A> {
    /// What the first message of the client's bytes asks. It isn't taken.
    pub fn asked(&self) -> Asked
        ensures { IsAsked self.now.client result }
    {
        match self.client.first() {
            First::More => Asked::More,
            First::Refused(refusal) => Asked::Refused(refusal),
            First::Request {
                object,
                version,
                size,
                target,
                request,
            } => match self.client.own_action(object, version, &request) {
                Some(judged) => Asked::Own { size, judged },
                None => Asked::Request {
                    object,
                    version,
                    size,
                    target,
                    kind: kind_of(&request),
                },
            },
        }
    }

    /// Answers a request to an object, which has this version and target. Without room for windows
    /// nothing is applied, and without room for a new wl_pointer its client ends. `given` says by
    /// what a popup is placed, at first and anew, and whether a grab is allowed.
    fn answer(
        &mut self,
        object: u32,
        version: u32,
        target: usize,
        kind: Kind,
        given: Given,
    ) -> Outcome<A>
        ensures answers { (m : Message) → IsKind kind m → entry_of self.old.client.objects object ≡ Some (record { interface = m.interface; version = version; target = target })
            → NewIsFree self.old m → ObjectsFit self.old m → AnswersGiven given.placing given.grabbing kind object (λ r. demand_of r object version m) self.old self.new }
        ensures stacks { (m : Message) → IsKind kind m → entry_of self.old.client.objects object ≡ Some (record { interface = m.interface; version = version; target = target })
            → Stacks (λ r. demand_of r object version m) self.old result.stacking }
        ensures decides { (touch : Touch) → IsTouchOf kind object target self.old touch
            → (m : Message) → IsKind kind m → entry_of self.old.client.objects object ≡ Some (record { interface = m.interface; version = version; target = target })
            → AnswersPlacedAs (is_some result.applied) given.placing kind object (λ r. demand_of r object version m) self.old self.new }
        ensures touched { (touch : Touch) → IsTouchOf kind object target self.old touch
            → IsTouched touch self.old.owned.surfaces self.new.owned.surfaces result.applied }
        ensures nothing { ((touch : Touch) → IsTouchOf kind object target self.old touch → ⊥) → (numbers : ById ℕ) (subsurfaces : List Subsurface) → AreOfSurfaces self.old.subsurfaces numbers subsurfaces → result.applied ≡ None }
        ensures rest { Leaves self.old self.new }
        ensures room { is_some result.applied ≡ true → given.has_room ≡ true }
        ensures holds { (touch : Touch) → IsTouchOf kind object target self.old touch
            → (m : Message) → IsKind kind m → entry_of self.old.client.objects object ≡ Some (record { interface = m.interface; version = version; target = target })
            → HoldsPlaced (is_some result.applied) given.placing kind object (λ r. demand_of r object version m) self.old self.new }
        ensures seat { (id : ℕ) → pointer_asked_by target kind ≡ PointerAsked.NewPointer id → given.has_room ≡ false → is_some self.new.client.ended ≡ true }
    {
        match kind {
            Kind::Surface(request) => { self.wl_surface(object, version, target, &request, given) }
            Kind::Toplevel(asked) => Outcome::of(self.xdg_toplevel(object, target, asked)),
            Kind::Compositor(request) => {
                self.wl_compositor(version, &request);
                Outcome::of(Stacking::Stays)
            }
            Kind::Subcompositor(request) => {
                self.wl_subcompositor(object, version, &request);
                Outcome::of(Stacking::Stays)
            }
            Kind::Subsurface(request) => self.wl_subsurface(object, &request, given.has_room),
            Kind::Seat(request) => {
                self.wl_seat(object, version, &request, given.has_room);
                Outcome::of(Stacking::Stays)
            }
            Kind::Pointer(request) => {
                self.wl_pointer(object, &request);
                Outcome::of(Stacking::Stays)
            }
            Kind::Base(request) => {
                self.xdg_wm_base(object, version, &request);
                Outcome::of(Stacking::Stays)
            }
            Kind::XdgSurface(request) => {
                self.xdg_surface(object, version, target, &request);
                Outcome::of(Stacking::Stays)
            }
            Kind::Popup(request) => { self.xdg_popup(object, target, &request, given) }
        }
    }

    /// Takes the first whole message of a living client, which asks this, and answers what it did.
    /// `None` if there is no whole message; then nothing changes.
    ///
    /// `has_room` says whether there is room for the windows that it leads to, or for a new
    /// wl_pointer. Without it the client ends as out of memory, and nothing is applied: on a
    /// request that may change what several surfaces show, and on wl_seat.get_pointer.
    ///
    /// `placing` places a popup whose surface is committed for the first time, or that is placed
    /// anew. `grabbing` says by what a grab is allowed.
    pub fn serve(
        &mut self,
        asked: Asked,
        has_room: bool,
        placing: Placing,
        grabbing: Grabbing,
    ) -> Option<Outcome<A>>
        requires { IsAsked self.old.client asked }
        ensures lives { IfSome result (λ s. self.old.client.ended ≡ None) }
        ensures takes { IfSome result (λ s. TakesMessage asked placing grabbing self.old self.new s.stacking) }
        ensures decides { IfSome result (λ s. (touch : Touch) → IsTouchOfAsked asked self.old touch → TakesMessageAs (is_some s.applied) asked placing grabbing self.old self.new) }
        ensures touched { IfSome result (λ s. (touch : Touch) → IsTouchOfAsked asked self.old touch
            → IsTouched touch self.old.owned.surfaces self.new.owned.surfaces s.applied) }
        ensures nothing { IfSome result (λ s. ((touch : Touch) → IsTouchOfAsked asked self.old touch → ⊥) → (numbers : ById ℕ) (subsurfaces : List Subsurface) → AreOfSurfaces self.old.subsurfaces numbers subsurfaces → s.applied ≡ None) }
        ensures idle { IfNone result ((self.new ≡ self.old) × IsIdleAt self.old.client.ended self.old.client.rest) }
        ensures less { IfSome result (λ s. length self.new.client.rest < length self.old.client.rest) }
        ensures room { IfSome result (λ s. is_some s.applied ≡ true → has_room ≡ true) }
        ensures holds { IfSome result (λ s. (touch : Touch) → IsTouchOfAsked asked self.old touch → is_some s.applied ≡ true → HoldsMessage asked placing grabbing self.old self.new) }
        ensures seat { IfSome result (λ s. (id : ℕ) → pointer_in asked ≡ PointerAsked.NewPointer id → has_room ≡ false → is_some self.new.client.ended ≡ true) }
    {
        if self.client.has_ended() {
            return None;
        }
        match asked {
            Asked::More => None,
            Asked::Refused(refusal) => {
                self.client.refuse(refusal);
                Some(Outcome::of(Stacking::Stays))
            }
            Asked::Own { size, judged } => {
                let _served = self
                    .client
                    .serve_own(size, judged, self.owned.surfaces.states());
                Some(Outcome::of(Stacking::Stays))
            }
            Asked::Request {
                object,
                version,
                size,
                target,
                kind,
            } => {
                self.client.take_first(size);
                let given = Given {
                    has_room,
                    placing,
                    grabbing,
                };
                Some(self.answer(object, version, target, kind, given))
            }
        }
    }
}
