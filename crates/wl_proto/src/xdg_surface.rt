//! The messages of xdg_surface: what toplevels and popups have in common.

ghost use Rattle.std.specs.Prelude.{◌≡◌, flat_map, option_to_list};
ghost use Rattle.wl_proto.specs.Spelling.{Gives, decoded, Puts, HasSize};
ghost use Rattle.wl_proto.specs.Objects.{objects_in, new_id_in};
ghost use Rattle.wl_proto.specs.Messages.{xdg_surface_request, xdg_surface_event};
ghost use Rattle.wl_proto.specs.declared.interface.Interface.TheVariants.{XdgSurface};

use crate::body::{four_ints, nothing, three_words, word};
use crate::{Interface, NewId, ObjectArg, ProtoError};
use std::alloc::Allocator;
use wl_wire::{Arg, PutError, message_size, put};

/// A request of xdg_surface.
#[derive(Clone, Copy)]
pub enum XdgSurfaceRequest {
    Destroy,
    GetToplevel {
        id: u32,
    },
    GetPopup {
        id: u32,
        parent: u32,
        positioner: u32,
    },
    SetWindowGeometry {
        x: i32,
        y: i32,
        width: i32,
        height: i32,
    },
    AckConfigure {
        serial: u32,
    },
}

pub(crate) fn decode(
    _version: u32,
    opcode: u16,
    body: &[u8],
) -> Result<XdgSurfaceRequest, ProtoError>
    ensures { Gives xdg_surface_request result (decoded XdgSurface _version opcode body.now) }
{
    match opcode {
        0 => {
            nothing(body)?;
            Ok(XdgSurfaceRequest::Destroy)
        }
        1 => {
            let id = word(body)?;
            Ok(XdgSurfaceRequest::GetToplevel { id })
        }
        2 => {
            let (id, parent, positioner) = three_words(body)?;
            Ok(XdgSurfaceRequest::GetPopup {
                id,
                parent,
                positioner,
            })
        }
        3 => {
            let (x, y, width, height) = four_ints(body)?;
            Ok(XdgSurfaceRequest::SetWindowGeometry {
                x,
                y,
                width,
                height,
            })
        }
        4 => {
            let serial = word(body)?;
            Ok(XdgSurfaceRequest::AckConfigure { serial })
        }
        _ => Err(ProtoError::NoMethod),
    }
}

// The object arguments, in their order.
pub(crate) fn objects(request: &XdgSurfaceRequest) -> [Option<ObjectArg>; 2]
    ensures { flat_map option_to_list result ≡ objects_in (xdg_surface_request request.now) }
{
    match *request {
        XdgSurfaceRequest::GetPopup {
            parent,
            positioner,
            ..
        } => [
            Some(ObjectArg::nullable(parent, Interface::XdgSurface)),
            Some(ObjectArg::new(positioner, Interface::XdgPositioner)),
        ],
        _ => [None, None],
    }
}

// The object that is to be made.
pub(crate) fn new_id(request: &XdgSurfaceRequest) -> Option<NewId>
    ensures { result ≡ new_id_in (xdg_surface_request request.now) }
{
    match *request {
        XdgSurfaceRequest::GetToplevel { id } => Some(NewId {
            id,
            interface: Some(Interface::XdgToplevel),
        }),
        XdgSurfaceRequest::GetPopup { id, .. } => Some(NewId {
            id,
            interface: Some(Interface::XdgPopup),
        }),
        _ => None,
    }
}

/// An event of xdg_surface.
#[derive(Clone, Copy)]
pub enum XdgSurfaceEvent {
    Configure { serial: u32 },
}

pub(crate) fn encode<A: Allocator>(
    object: u32,
    event: &XdgSurfaceEvent,
    out: &mut Vec<u8, A>,
) -> Result<(), PutError>
    ensures { Puts object (xdg_surface_event event.now) result out.old.items out.new.items }
{
    match *event {
        XdgSurfaceEvent::Configure { serial } => put(out, object, 0, &[Arg::Uint(serial)]),
    }
}

pub(crate) fn size(event: &XdgSurfaceEvent) -> Option<u16>
    ensures { HasSize (xdg_surface_event event.now) result }
{
    match *event {
        XdgSurfaceEvent::Configure { serial } => message_size(&[Arg::Uint(serial)]),
    }
}
