//! The messages of wl_subcompositor, which makes a surface a subsurface of another.

ghost use Rattle.std.specs.Prelude.{◌≡◌, flat_map, option_to_list};
ghost use Rattle.wl_proto.specs.Spelling.{Gives, decoded};
ghost use Rattle.wl_proto.specs.Objects.{objects_in, new_id_in};
ghost use Rattle.wl_proto.specs.Messages.{wl_subcompositor_request};
ghost use Rattle.wl_proto.specs.declared.interface.Interface.TheVariants.{WlSubcompositor};

use crate::body::{nothing, three_words};
use crate::{Interface, NewId, ObjectArg, ProtoError};

/// A request of wl_subcompositor.
#[derive(Clone, Copy)]
pub enum WlSubcompositorRequest {
    Destroy,
    GetSubsurface { id: u32, surface: u32, parent: u32 },
}

pub(crate) fn decode(
    _version: u32,
    opcode: u16,
    body: &[u8],
) -> Result<WlSubcompositorRequest, ProtoError>
    ensures { Gives wl_subcompositor_request result (decoded WlSubcompositor _version opcode body.now) }
{
    match opcode {
        0 => {
            nothing(body)?;
            Ok(WlSubcompositorRequest::Destroy)
        }
        1 => {
            let (id, surface, parent) = three_words(body)?;
            Ok(WlSubcompositorRequest::GetSubsurface {
                id,
                surface,
                parent,
            })
        }
        _ => Err(ProtoError::NoMethod),
    }
}

// The object arguments, in their order.
pub(crate) fn objects(request: &WlSubcompositorRequest) -> [Option<ObjectArg>; 2]
    ensures { flat_map option_to_list result ≡ objects_in (wl_subcompositor_request request.now) }
{
    match *request {
        WlSubcompositorRequest::GetSubsurface {
            surface,
            parent,
            ..
        } => [
            Some(ObjectArg::new(surface, Interface::WlSurface)),
            Some(ObjectArg::new(parent, Interface::WlSurface)),
        ],
        _ => [None, None],
    }
}

// The object that is to be made.
pub(crate) fn new_id(request: &WlSubcompositorRequest) -> Option<NewId>
    ensures { result ≡ new_id_in (wl_subcompositor_request request.now) }
{
    match *request {
        WlSubcompositorRequest::GetSubsurface { id, .. } => Some(NewId {
            id,
            interface: Some(Interface::WlSubsurface),
        }),
        _ => None,
    }
}
