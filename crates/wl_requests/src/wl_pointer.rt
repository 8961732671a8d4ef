//! The request of wl_pointer, input devices such as mice that control the pointer of a seat
//! (wayland.xml, wl_pointer). It sets the surface that has the pointer's image.

ghost use Rattle.std.specs.Prelude.{ℕ};
ghost use Rattle.wl_proto.specs.Messages.{wl_pointer_request};
ghost use Rattle.wl_requests.specs.Residents.{AnswersDemand, IsSurface, Leaves, ObjectsFit};
ghost use Rattle.spec_desktop.specs.Demanding.{demand_of};
ghost use Rattle.spec_desktop.specs.WlPointer.{cursor_set};

use crate::residents::Resident;
use std::alloc::Allocator;
use wl_client::{ErrorCode, Refusal};
use wl_proto::WlPointerRequest;
use wl_surface::{Role, SurfaceNo};

impl<A: Allocator + Copy> Resident<A> {
    /// wl_pointer.set_cursor: the surface gets the role of a cursor. It is refused if it has
    /// another role or an xdg_surface. No cursor is painted.
    fn set_cursor(&mut self, object: u32, surface: SurfaceNo)
        ensures answers { (id : ℕ) → IsSurface self.old id surface → AnswersDemand (λ r. cursor_set r object id) self.old self.new }
        ensures rest { Leaves self.old self.new }
    {
        if self.owned.shell.get(surface).is_some() {
            self.client.refuse(Refusal::of(object, ErrorCode::Role));
            return;
        }
        match self.owned.surfaces.give_role(surface, Role::Cursor) {
            Ok(()) => self.client.count(),
            Err(_) => self.client.refuse(Refusal::of(object, ErrorCode::Role)),
        }
    }

    /// A request of a wl_pointer whose wl_surface is there, if it names one. Without one it takes
    /// the cursor away, which has no effect.
    pub(crate) fn wl_pointer(&mut self, object: u32, request: &WlPointerRequest)
        ensures answers { (version : ℕ) → ObjectsFit self.old (wl_pointer_request request.now)
            → AnswersDemand (λ r. demand_of r object version (wl_pointer_request request.now)) self.old self.new }
        ensures rest { Leaves self.old self.new }
    {
        let WlPointerRequest::SetCursor { surface, .. } = *request;
        if surface == 0 {
            self.ignore();
        } else if let Some(number) = self.surface_of(surface) {
            self.set_cursor(object, number);
        }
    }
}
