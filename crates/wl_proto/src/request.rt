//! A request of any interface.

ghost use Rattle.wl_proto.specs.Spelling.{Gives, decoded};
ghost use Rattle.wl_proto.specs.Messages.{request_message};

use crate::wl_buffer::{self, WlBufferRequest};
use crate::wl_compositor::{self, WlCompositorRequest};
use crate::wl_display::{self, WlDisplayRequest};
use crate::wl_pointer::{self, WlPointerRequest};
use crate::wl_region::{self, WlRegionRequest};
use crate::wl_registry::{self, WlRegistryRequest};
use crate::wl_seat::{self, WlSeatRequest};
use crate::wl_shm::{self, WlShmRequest};
use crate::wl_shm_pool::{self, WlShmPoolRequest};
use crate::wl_subcompositor::{self, WlSubcompositorRequest};
use crate::wl_subsurface::{self, WlSubsurfaceRequest};
use crate::wl_surface::{self, WlSurfaceRequest};
use crate::xdg_popup::{self, XdgPopupRequest};
use crate::xdg_positioner::{self, XdgPositionerRequest};
use crate::xdg_surface::{self, XdgSurfaceRequest};
use crate::xdg_toplevel::{self, XdgToplevelRequest};
use crate::xdg_wm_base::{self, XdgWmBaseRequest};
use crate::{Interface, NewId, ObjectArg, ProtoError};

/// A request, by the interface of the object that it is sent to.
#[derive(Clone, Copy)]
pub enum Request<'a> {
    WlDisplay(WlDisplayRequest),
    WlRegistry(WlRegistryRequest<'a>),
    WlCompositor(WlCompositorRequest),
    WlRegion(WlRegionRequest),
    WlSurface(WlSurfaceRequest),
    WlShm(WlShmRequest),
    WlShmPool(WlShmPoolRequest),
    WlBuffer(WlBufferRequest),
    WlSubcompositor(WlSubcompositorRequest),
    WlSubsurface(WlSubsurfaceRequest),
    WlSeat(WlSeatRequest),
    WlPointer(WlPointerRequest),
    XdgWmBase(XdgWmBaseRequest),
    XdgPositioner(XdgPositionerRequest),
    XdgSurface(XdgSurfaceRequest),
    XdgToplevel(XdgToplevelRequest<'a>),
    XdgPopup(XdgPopupRequest),
}

pub(crate) fn read<'a>(
    interface: Interface,
    version: u32,
    opcode: u16,
    body: &'a [u8],
) -> Result<Request<'a>, ProtoError>
    ensures { Gives request_message result (decoded interface version opcode body.now) }
{
    match interface {
        Interface::WlDisplay => Ok(Request::WlDisplay(wl_display::decode(version, opcode, body)?)),
        Interface::WlRegistry => Ok(Request::WlRegistry(wl_registry::decode(
            version, opcode, body,
        )?)),
        Interface::WlCompositor => Ok(Request::WlCompositor(wl_compositor::decode(
            version, opcode, body,
        )?)),
        Interface::WlRegion => Ok(Request::WlRegion(wl_region::decode(version, opcode, body)?)),
        Interface::WlSurface => Ok(Request::WlSurface(wl_surface::decode(version, opcode, body)?)),
        Interface::WlShm => Ok(Request::WlShm(wl_shm::decode(version, opcode, body)?)),
        Interface::WlShmPool => Ok(Request::WlShmPool(wl_shm_pool::decode(version, opcode, body)?)),
        Interface::WlBuffer => Ok(Request::WlBuffer(wl_buffer::decode(version, opcode, body)?)),
        Interface::WlSubcompositor => Ok(Request::WlSubcompositor(wl_subcompositor::decode(
            version, opcode, body,
        )?)),
        Interface::WlSubsurface => Ok(Request::WlSubsurface(wl_subsurface::decode(
            version, opcode, body,
        )?)),
        Interface::WlSeat => Ok(Request::WlSeat(wl_seat::decode(version, opcode, body)?)),
        Interface::WlPointer => Ok(Request::WlPointer(wl_pointer::decode(version, opcode, body)?)),
        Interface::XdgWmBase => Ok(Request::XdgWmBase(xdg_wm_base::decode(version, opcode, body)?)),
        Interface::XdgPositioner => Ok(Request::XdgPositioner(xdg_positioner::decode(
            version, opcode, body,
        )?)),
        Interface::XdgSurface => Ok(Request::XdgSurface(xdg_surface::decode(
            version, opcode, body,
        )?)),
        Interface::XdgToplevel => Ok(Request::XdgToplevel(xdg_toplevel::decode(
            version, opcode, body,
        )?)),
        Interface::XdgPopup => Ok(Request::XdgPopup(xdg_popup::decode(version, opcode, body)?)),
        Interface::WlCallback | Interface::WlOutput => Err(ProtoError::NoMethod),
    }
}

impl<'a> Request<'a> {
    ghost use Rattle.std.specs.Prelude.{◌≡◌, flat_map, option_to_list};
    ghost use Rattle.wl_proto.specs.Objects.{objects_in, new_id_in};

    /// The arguments that name objects, in their order, with what the table asks of each.
    pub fn objects(&self) -> [Option<ObjectArg>; 2]
        ensures { flat_map option_to_list result ≡ objects_in (request_message self.now) }
    {
        match self {
            Request::WlSurface(request) => wl_surface::objects(request),
            Request::WlSubcompositor(request) => wl_subcompositor::objects(request),
            Request::WlSubsurface(request) => wl_subsurface::objects(request),
            Request::WlPointer(request) => wl_pointer::objects(request),
            Request::XdgWmBase(request) => xdg_wm_base::objects(request),
            Request::XdgSurface(request) => xdg_surface::objects(request),
            Request::XdgToplevel(request) => xdg_toplevel::objects(request),
            Request::XdgPopup(request) => xdg_popup::objects(request),
            _ => [None, None],
        }
    }

    /// The argument that names an object to be made.
    pub fn new_id(&self) -> Option<NewId>
        ensures { result ≡ new_id_in (request_message self.now) }
    {
        match self {
            Request::WlDisplay(request) => wl_display::new_id(request),
            Request::WlRegistry(request) => wl_registry::new_id(request),
            Request::WlCompositor(request) => wl_compositor::new_id(request),
            Request::WlSurface(request) => wl_surface::new_id(request),
            Request::WlShm(request) => wl_shm::new_id(request),
            Request::WlShmPool(request) => wl_shm_pool::new_id(request),
            Request::WlSubcompositor(request) => wl_subcompositor::new_id(request),
            Request::WlSeat(request) => wl_seat::new_id(request),
            Request::XdgWmBase(request) => xdg_wm_base::new_id(request),
            Request::XdgSurface(request) => xdg_surface::new_id(request),
            _ => None,
        }
    }
}
