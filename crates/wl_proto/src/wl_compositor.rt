//! The messages of wl_compositor, which makes surfaces and regions.

ghost use Rattle.std.specs.Prelude.{◌≡◌};
ghost use Rattle.wl_proto.specs.Spelling.{Gives, decoded};
ghost use Rattle.wl_proto.specs.Objects.{new_id_in};
ghost use Rattle.wl_proto.specs.Messages.{wl_compositor_request};
ghost use Rattle.wl_proto.specs.declared.interface.Interface.TheVariants.{WlCompositor};

use crate::body::word;
use crate::{Interface, NewId, ProtoError};

/// A request of wl_compositor.
#[derive(Clone, Copy)]
pub enum WlCompositorRequest {
    CreateSurface { id: u32 },
    CreateRegion { id: u32 },
}

pub(crate) fn decode(
    _version: u32,
    opcode: u16,
    body: &[u8],
) -> Result<WlCompositorRequest, ProtoError>
    ensures { Gives wl_compositor_request result (decoded WlCompositor _version opcode body.now) }
{
    match opcode {
        0 => {
            let id = word(body)?;
            Ok(WlCompositorRequest::CreateSurface { id })
        }
        1 => {
            let id = word(body)?;
            Ok(WlCompositorRequest::CreateRegion { id })
        }
        _ => Err(ProtoError::NoMethod),
    }
}

// The object that is to be made.
pub(crate) fn new_id(request: &WlCompositorRequest) -> Option<NewId>
    ensures { result ≡ new_id_in (wl_compositor_request request.now) }
{
    match *request {
        WlCompositorRequest::CreateSurface { id } => Some(NewId {
            id,
            interface: Some(Interface::WlSurface),
        }),
        WlCompositorRequest::CreateRegion { id } => Some(NewId {
            id,
            interface: Some(Interface::WlRegion),
        }),
    }
}
