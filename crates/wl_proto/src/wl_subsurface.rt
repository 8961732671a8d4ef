//! The messages of wl_subsurface, which places a surface in its parent and sets its mode.

ghost use Rattle.std.specs.Prelude.{◌≡◌, flat_map, option_to_list};
ghost use Rattle.wl_proto.specs.Spelling.{Gives, decoded};
ghost use Rattle.wl_proto.specs.Objects.{objects_in};
ghost use Rattle.wl_proto.specs.Messages.{wl_subsurface_request};
ghost use Rattle.wl_proto.specs.declared.interface.Interface.TheVariants.{WlSubsurface};

use crate::body::{nothing, two_ints, word};
use crate::{Interface, ObjectArg, ProtoError};

/// A request of wl_subsurface.
#[derive(Clone, Copy)]
pub enum WlSubsurfaceRequest {
    Destroy,
    SetPosition { x: i32, y: i32 },
    PlaceAbove { sibling: u32 },
    PlaceBelow { sibling: u32 },
    SetSync,
    SetDesync,
}

pub(crate) fn decode(
    _version: u32,
    opcode: u16,
    body: &[u8],
) -> Result<WlSubsurfaceRequest, ProtoError>
    ensures { Gives wl_subsurface_request result (decoded WlSubsurface _version opcode body.now) }
{
    match opcode {
        0 => {
            nothing(body)?;
            Ok(WlSubsurfaceRequest::Destroy)
        }
        1 => {
            let (x, y) = two_ints(body)?;
            Ok(WlSubsurfaceRequest::SetPosition { x, y })
        }
        2 => {
            let sibling = word(body)?;
            Ok(WlSubsurfaceRequest::PlaceAbove { sibling })
        }
        3 => {
            let sibling = word(body)?;
            Ok(WlSubsurfaceRequest::PlaceBelow { sibling })
        }
        4 => {
            nothing(body)?;
            Ok(WlSubsurfaceRequest::SetSync)
        }
        5 => {
            nothing(body)?;
            Ok(WlSubsurfaceRequest::SetDesync)
        }
        _ => Err(ProtoError::NoMethod),
    }
}

// The object arguments, in their order.
pub(crate) fn objects(request: &WlSubsurfaceRequest) -> [Option<ObjectArg>; 2]
    ensures { flat_map option_to_list result ≡ objects_in (wl_subsurface_request request.now) }
{
    match *request {
        WlSubsurfaceRequest::PlaceAbove { sibling } => [
            Some(ObjectArg::new(sibling, Interface::WlSurface)),
            None,
        ],
        WlSubsurfaceRequest::PlaceBelow { sibling } => [
            Some(ObjectArg::new(sibling, Interface::WlSurface)),
            None,
        ],
        _ => [None, None],
    }
}
