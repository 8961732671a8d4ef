//! The messages of wl_shm_pool: shared memory, in which a client makes buffers.

ghost use Rattle.std.specs.Prelude.{◌≡◌};
ghost use Rattle.wl_proto.specs.Spelling.{Gives, decoded};
ghost use Rattle.wl_proto.specs.Objects.{new_id_in};
ghost use Rattle.wl_proto.specs.Messages.{wl_shm_pool_request};
ghost use Rattle.wl_proto.specs.declared.interface.Interface.TheVariants.{WlShmPool};

use crate::body::{int, nothing, word_four_ints_word};
use crate::{Interface, NewId, ProtoError};

/// A request of wl_shm_pool.
#[derive(Clone, Copy)]
pub enum WlShmPoolRequest {
    CreateBuffer {
        id: u32,
        offset: i32,
        width: i32,
        height: i32,
        stride: i32,
        format: u32,
    },
    Destroy,
    Resize {
        size: i32,
    },
}

pub(crate) fn decode(
    _version: u32,
    opcode: u16,
    body: &[u8],
) -> Result<WlShmPoolRequest, ProtoError>
    ensures { Gives wl_shm_pool_request result (decoded WlShmPool _version opcode body.now) }
{
    match opcode {
        0 => {
            let (id, offset, width, height, stride, format) = word_four_ints_word(body)?;
            Ok(WlShmPoolRequest::CreateBuffer {
                id,
                offset,
                width,
                height,
                stride,
                format,
            })
        }
        1 => {
            nothing(body)?;
            Ok(WlShmPoolRequest::Destroy)
        }
        2 => {
            let size = int(body)?;
            Ok(WlShmPoolRequest::Resize { size })
        }
        _ => Err(ProtoError::NoMethod),
    }
}

// The object that is to be made.
pub(crate) fn new_id(request: &WlShmPoolRequest) -> Option<NewId>
    ensures { result ≡ new_id_in (wl_shm_pool_request request.now) }
{
    match *request {
        WlShmPoolRequest::CreateBuffer { id, .. } => Some(NewId {
            id,
            interface: Some(Interface::WlBuffer),
        }),
        _ => None,
    }
}
