//! What a request of one of the client's own interfaces asks, or why it is refused.

ghost use Rattle.std.specs.Prelude.{◌≡◌, false, true, IfNone, IfSome};
ghost use Rattle.wl_proto.specs.Messages.{request_message};
ghost use Rattle.spec_desktop.specs.Judgement.{action_of};
ghost use Rattle.spec_desktop.specs.Requests.{request_of};
ghost use Rattle.wl_client.specs.Agreement.{known_in};
ghost use Rattle.wl_client.specs.Serving.{is_own};

use crate::clients::Client;
use crate::{wl_buffer, wl_display, wl_region, wl_registry, wl_shm, wl_shm_pool, xdg_positioner};
use spec_desktop::{Action, Refusal};
use std::alloc::Allocator;
use wl_proto::Request;

impl<A: Allocator + Copy> Client<A> {
    /// What the request asks of the object, or its own error. `None` if it is of another interface.
    pub fn own_action(
        &self,
        object: u32,
        version: u32,
        request: &Request,
    ) -> Option<Result<Action, Refusal>>
        ensures own { IfSome result (λ judged. is_own (request_message request.now).interface ≡ true) }
        ensures judged { IfSome result (λ judged. judged ≡ action_of (known_in self.now) object version (request_of (request_message request.now))) }
        ensures other { IfNone result (is_own (request_message request.now).interface ≡ false) }
    {
        match request {
            Request::WlDisplay(request) => Some(Ok(wl_display::action(request))),
            Request::WlRegistry(request) => Some(wl_registry::action(request)),
            Request::WlRegion(request) => Some(wl_region::action(&self.regions, object, request)),
            Request::WlShm(request) => {
                Some(wl_shm::action(&self.stores, object, version, request))
            }
            Request::WlShmPool(request) => Some(wl_shm_pool::action(
                &self.pools,
                &self.stores,
                object,
                version,
                request,
            )),
            Request::WlBuffer(_) => Some(wl_buffer::action(&self.buffers, object)),
            Request::XdgPositioner(request) => Some(xdg_positioner::action(object, request)),
            _ => None,
        }
    }
}
