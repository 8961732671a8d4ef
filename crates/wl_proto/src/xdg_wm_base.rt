//! The messages of xdg_wm_base, which makes xdg_surfaces and positioners and pings clients.

ghost use Rattle.std.specs.Prelude.{◌≡◌, flat_map, option_to_list};
ghost use Rattle.wl_proto.specs.Spelling.{Gives, decoded};
ghost use Rattle.wl_proto.specs.Objects.{objects_in, new_id_in};
ghost use Rattle.wl_proto.specs.Messages.{xdg_wm_base_request};
ghost use Rattle.wl_proto.specs.declared.interface.Interface.TheVariants.{XdgWmBase};

use crate::body::{nothing, two_words, word};
use crate::{Interface, NewId, ObjectArg, ProtoError};

/// A request of xdg_wm_base.
#[derive(Clone, Copy)]
pub enum XdgWmBaseRequest {
    Destroy,
    CreatePositioner { id: u32 },
    GetXdgSurface { id: u32, surface: u32 },
    Pong { serial: u32 },
}

pub(crate) fn decode(
    _version: u32,
    opcode: u16,
    body: &[u8],
) -> Result<XdgWmBaseRequest, ProtoError>
    ensures { Gives xdg_wm_base_request result (decoded XdgWmBase _version opcode body.now) }
{
    match opcode {
        0 => {
            nothing(body)?;
            Ok(XdgWmBaseRequest::Destroy)
        }
        1 => {
            let id = word(body)?;
            Ok(XdgWmBaseRequest::CreatePositioner { id })
        }
        2 => {
            let (id, surface) = two_words(body)?;
            Ok(XdgWmBaseRequest::GetXdgSurface { id, surface })
        }
        3 => {
            let serial = word(body)?;
            Ok(XdgWmBaseRequest::Pong { serial })
        }
        _ => Err(ProtoError::NoMethod),
    }
}

// The object arguments, in their order.
pub(crate) fn objects(request: &XdgWmBaseRequest) -> [Option<ObjectArg>; 2]
    ensures { flat_map option_to_list result ≡ objects_in (xdg_wm_base_request request.now) }
{
    match *request {
        XdgWmBaseRequest::GetXdgSurface { surface, .. } => [
            Some(ObjectArg::new(surface, Interface::WlSurface)),
            None,
        ],
        _ => [None, None],
    }
}

// The object that is to be made.
pub(crate) fn new_id(request: &XdgWmBaseRequest) -> Option<NewId>
    ensures { result ≡ new_id_in (xdg_wm_base_request request.now) }
{
    match *request {
        XdgWmBaseRequest::CreatePositioner { id } => Some(NewId {
            id,
            interface: Some(Interface::XdgPositioner),
        }),
        XdgWmBaseRequest::GetXdgSurface { id, .. } => Some(NewId {
            id,
            interface: Some(Interface::XdgSurface),
        }),
        _ => None,
    }
}
