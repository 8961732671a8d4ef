//! The requests of wl_compositor, which combines the contents of surfaces into one output
//! (wayland.xml, wl_compositor). They make surfaces and regions.

ghost use Rattle.std.specs.Prelude.{ℕ, ◌≡◌, ◌↔◌, IsTrue, Ok};
ghost use Rattle.wl_proto.specs.Messages.{wl_compositor_request};
ghost use Rattle.spec_desktop.specs.declared.actions.Action.TheVariants.{CreateRegion};
ghost use Rattle.spec_desktop.specs.Ask.{Own};
ghost use Rattle.spec_desktop.specs.Demand.{Asks};
ghost use Rattle.spec_desktop.specs.Demanding.{demand_of, demands};
ghost use Rattle.wl_requests.specs.Residents.{AnswersDemand, IsFree, Leaves, NewIsFree};
ghost use Rattle.spec_desktop.specs.WlSurface.{surface_created};

use crate::residents::Resident;
use std::alloc::Allocator;
use wl_proto::{Interface, WlCompositorRequest};
use wl_surface::SurfaceError;
use wl_table::Entry;

/// Whether the client has as many surfaces as it may have.
fn is_too_many(error: SurfaceError) -> bool
    ensures { IsTrue result ↔ (error ≡ SurfaceError.TooMany) }
{
    error == SurfaceError::TooMany
}

impl<A: Allocator + Copy> Resident<A> {
    /// wl_compositor.create_surface: makes a surface under a free id. A client may have 256
    /// surfaces.
    fn create_surface(&mut self, version: u32, id: u32)
        ensures answers { IsFree self.old id → AnswersDemand (λ r. demands (surface_created r id version)) self.old self.new }
        ensures rest { Leaves self.old self.new }
    {
        match self.owned.surfaces.create() {
            Ok(surface) => {
                let entry = Entry {
                    interface: Interface::WlSurface,
                    version,
                    target: surface,
                };
                self.client.count();
                self.client.add(id, entry, &[]);
            }
            Err(error) => {
                if is_too_many(error) {
                    self.refuse_past_limit();
                } else {
                    self.client.count();
                    self.client.lack_memory();
                }
            }
        }
    }

    /// wl_compositor.create_region: makes an empty region under a free id.
    fn create_region(&mut self, version: u32, id: u32)
        ensures answers { IsFree self.old id → AnswersDemand (λ r. Ok (Asks (Own (CreateRegion id version)))) self.old self.new }
        ensures rest { Leaves self.old self.new }
    {
        self.client.count();
        self.client.create_region(id, version);
    }

    /// A request of a wl_compositor whose new id is free.
    pub(crate) fn wl_compositor(&mut self, version: u32, request: &WlCompositorRequest)
        ensures answers { (object : ℕ) → NewIsFree self.old (wl_compositor_request request.now)
            → AnswersDemand (λ r. demand_of r object version (wl_compositor_request request.now)) self.old self.new }
        ensures rest { Leaves self.old self.new }
    {
        match *request {
            WlCompositorRequest::CreateSurface { id } => self.create_surface(version, id),
            WlCompositorRequest::CreateRegion { id } => self.create_region(version, id),
        }
    }
}
