//! The requests of wl_subcompositor, the global for compositing subsurfaces (wayland.xml,
//! wl_subcompositor). They make a surface a subsurface of another.

ghost use Rattle.std.specs.Prelude.{ℕ, ◌≡◌, Ok, OnOk};
ghost use Rattle.wl_proto.specs.Messages.{wl_subcompositor_request};
ghost use Rattle.wl_proto.specs.declared.wl_subcompositor.WlSubcompositorRequest.TheVariants.{GetSubsurface};
ghost use Rattle.spec_desktop.specs.Ask.{EndObject};
ghost use Rattle.spec_desktop.specs.Demand.{Asks};
ghost use Rattle.spec_desktop.specs.Demanding.{demand_of};
ghost use Rattle.wl_requests.specs.Linking.{IsLinkMade, LinksAsJudged, link_refused};
ghost use Rattle.wl_requests.specs.Residents.{AnswersDemand, IsFree, IsSubcompositor, IsSurface, Leaves, NewIsFree, ObjectsFit};

use crate::residents::Resident;
use std::alloc::Allocator;
use wl_client::{ErrorCode, Refusal};
use wl_proto::{Interface, WlSubcompositorRequest};
use wl_surface::{SurfaceError, SurfaceNo};
use wl_table::Entry;

/// Why a surface isn't made a subsurface, as an error of the wl_subcompositor that was asked.
/// `None` if there was no memory.
fn refusal_of(object: u32, error: SurfaceError) -> Option<Refusal>
    ensures { result ≡ link_refused object error }
{
    match error {
        SurfaceError::TooDeep => Some(Refusal::of_display(ErrorCode::Implementation)),
        SurfaceError::Role => Some(Refusal::of(object, ErrorCode::BadSurface)),
        SurfaceError::BadParent => Some(Refusal::of(object, ErrorCode::BadParent)),
        _ => None,
    }
}

impl<A: Allocator + Copy> Resident<A> {
    /// wl_subcompositor.destroy: its id is given back.
    fn destroy_subcompositor(&mut self, object: u32)
        ensures answers { IsSubcompositor self.old object → AnswersDemand (λ r. Ok (Asks (EndObject object))) self.old self.new }
        ensures rest { Leaves self.old self.new }
    {
        self.client.count();
        self.end_object(object);
    }

    /// Links the child to the parent by a new wl_subsurface with this id.
    fn link(&mut self, id: u32, child: SurfaceNo, parent: SurfaceNo) -> Result<(), SurfaceError>
        ensures judged { LinksAsJudged self.old child parent result }
        ensures made { OnOk result (IsLinkMade id self.old self.new child parent) }
        ensures client { self.new.client ≡ self.old.client }
        ensures shell { self.new.owned.shell ≡ self.old.owned.shell }
        ensures frames { self.new.owned.surfaces.states.frames ≡ self.old.owned.surfaces.states.frames }
    {
        if self.owned.surfaces.is_too_deep(child, parent) {
            return Err(SurfaceError::TooDeep);
        }
        if self.subsurfaces.get(child).is_some() || self.owned.shell.get(child).is_some() {
            return Err(SurfaceError::Role);
        }
        self.owned.surfaces.subsurface(child, parent)?;
        self.subsurfaces.set(child, id)?;
        Ok(())
    }

    /// wl_subcompositor.get_subsurface: makes a wl_subsurface, under a free id, of a surface below
    /// a parent. No tree gets more than 16 levels below its root. A surface has one wl_subsurface,
    /// and no xdg_surface beside it.
    fn get_subsurface(
        &mut self,
        object: u32,
        version: u32,
        id: u32,
        child: SurfaceNo,
        parent: SurfaceNo,
    )
        ensures answers { (surface above : ℕ) → IsFree self.old id → IsSurface self.old surface child → IsSurface self.old above parent
            → AnswersDemand (λ r. demand_of r object version (wl_subcompositor_request (GetSubsurface id surface above))) self.old self.new }
        ensures rest { Leaves self.old self.new }
    {
        match self.link(id, child, parent) {
            Ok(()) => {
                let entry = Entry {
                    interface: Interface::WlSubsurface,
                    version,
                    target: child,
                };
                self.client.count();
                self.client.add(id, entry, &[]);
            }
            Err(error) => match refusal_of(object, error) {
                Some(refusal) => self.client.refuse(refusal),
                None => {
                    self.client.count();
                    self.client.lack_memory();
                }
            },
        }
    }

    /// A request of a wl_subcompositor whose new id is free and whose wl_surfaces are there.
    pub(crate) fn wl_subcompositor(
        &mut self,
        object: u32,
        version: u32,
        request: &WlSubcompositorRequest,
    )
        ensures answers { IsSubcompositor self.old object → NewIsFree self.old (wl_subcompositor_request request.now) → ObjectsFit self.old (wl_subcompositor_request request.now)
            → AnswersDemand (λ r. demand_of r object version (wl_subcompositor_request request.now)) self.old self.new }
        ensures rest { Leaves self.old self.new }
    {
        match *request {
            WlSubcompositorRequest::Destroy => self.destroy_subcompositor(object),
            WlSubcompositorRequest::GetSubsurface {
                id,
                surface,
                parent,
            } => {
                if let (Some(child), Some(parent)) = (
                    self.surface_of(surface),
                    self.surface_of(parent),
                ) {
                    self.get_subsurface(object, version, id, child, parent);
                }
            }
        }
    }
}
