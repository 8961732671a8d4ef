//! The messages of wl_surface: a rectangle of pixels, whose pending state a commit applies.

ghost use Rattle.std.specs.Prelude.{◌≡◌, flat_map, option_to_list};
ghost use Rattle.wl_proto.specs.Spelling.{Gives, decoded};
ghost use Rattle.wl_proto.specs.Objects.{objects_in, new_id_in};
ghost use Rattle.wl_proto.specs.Messages.{wl_surface_request};
ghost use Rattle.wl_proto.specs.declared.interface.Interface.TheVariants.{WlSurface};

use crate::body::{four_ints, int, nothing, word, word_two_ints};
use crate::{Interface, NewId, ObjectArg, ProtoError};

/// A request of wl_surface.
#[derive(Clone, Copy)]
pub enum WlSurfaceRequest {
    Destroy,
    Attach {
        buffer: u32,
        x: i32,
        y: i32,
    },
    Damage {
        x: i32,
        y: i32,
        width: i32,
        height: i32,
    },
    Frame {
        callback: u32,
    },
    SetOpaqueRegion {
        region: u32,
    },
    SetInputRegion {
        region: u32,
    },
    Commit,
    SetBufferTransform {
        transform: i32,
    },
    SetBufferScale {
        scale: i32,
    },
    DamageBuffer {
        x: i32,
        y: i32,
        width: i32,
        height: i32,
    },
}

pub(crate) fn decode(version: u32, opcode: u16, body: &[u8]) -> Result<WlSurfaceRequest, ProtoError>
    ensures { Gives wl_surface_request result (decoded WlSurface version opcode body.now) }
{
    match opcode {
        0 => {
            nothing(body)?;
            Ok(WlSurfaceRequest::Destroy)
        }
        1 => {
            let (buffer, x, y) = word_two_ints(body)?;
            Ok(WlSurfaceRequest::Attach { buffer, x, y })
        }
        2 => {
            let (x, y, width, height) = four_ints(body)?;
            Ok(WlSurfaceRequest::Damage {
                x,
                y,
                width,
                height,
            })
        }
        3 => {
            let callback = word(body)?;
            Ok(WlSurfaceRequest::Frame { callback })
        }
        4 => {
            let region = word(body)?;
            Ok(WlSurfaceRequest::SetOpaqueRegion { region })
        }
        5 => {
            let region = word(body)?;
            Ok(WlSurfaceRequest::SetInputRegion { region })
        }
        6 => {
            nothing(body)?;
            Ok(WlSurfaceRequest::Commit)
        }
        7 if version >= 2 => {
            let transform = int(body)?;
            Ok(WlSurfaceRequest::SetBufferTransform { transform })
        }
        8 if version >= 3 => {
            let scale = int(body)?;
            Ok(WlSurfaceRequest::SetBufferScale { scale })
        }
        9 if version >= 4 => {
            let (x, y, width, height) = four_ints(body)?;
            Ok(WlSurfaceRequest::DamageBuffer {
                x,
                y,
                width,
                height,
            })
        }
        _ => Err(ProtoError::NoMethod),
    }
}

// The object arguments, in their order.
pub(crate) fn objects(request: &WlSurfaceRequest) -> [Option<ObjectArg>; 2]
    ensures { flat_map option_to_list result ≡ objects_in (wl_surface_request request.now) }
{
    match *request {
        WlSurfaceRequest::Attach { buffer, .. } => [
            Some(ObjectArg::nullable(buffer, Interface::WlBuffer)),
            None,
        ],
        WlSurfaceRequest::SetOpaqueRegion { region } => [
            Some(ObjectArg::nullable(region, Interface::WlRegion)),
            None,
        ],
        WlSurfaceRequest::SetInputRegion { region } => [
            Some(ObjectArg::nullable(region, Interface::WlRegion)),
            None,
        ],
        _ => [None, None],
    }
}

// The object that is to be made.
pub(crate) fn new_id(request: &WlSurfaceRequest) -> Option<NewId>
    ensures { result ≡ new_id_in (wl_surface_request request.now) }
{
    match *request {
        WlSurfaceRequest::Frame { callback } => Some(NewId {
            id: callback,
            interface: Some(Interface::WlCallback),
        }),
        _ => None,
    }
}
