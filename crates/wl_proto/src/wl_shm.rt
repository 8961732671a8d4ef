//! The messages of wl_shm, which announces pixel formats and makes pools of shared memory.

ghost use Rattle.std.specs.Prelude.{◌≡◌};
ghost use Rattle.wl_proto.specs.Spelling.{Gives, decoded, Puts, HasSize};
ghost use Rattle.wl_proto.specs.Objects.{new_id_in};
ghost use Rattle.wl_proto.specs.Messages.{wl_shm_request, wl_shm_event};
ghost use Rattle.wl_proto.specs.declared.interface.Interface.TheVariants.{WlShm};

use crate::body::word_int;
use crate::{Interface, NewId, ProtoError};
use std::alloc::Allocator;
use wl_wire::{Arg, PutError, message_size, put};

/// A request of wl_shm.
#[derive(Clone, Copy)]
pub enum WlShmRequest {
    CreatePool { id: u32, size: i32 },
}

pub(crate) fn decode(_version: u32, opcode: u16, body: &[u8]) -> Result<WlShmRequest, ProtoError>
    ensures { Gives wl_shm_request result (decoded WlShm _version opcode body.now) }
{
    match opcode {
        0 => {
            let (id, size) = word_int(body)?;
            Ok(WlShmRequest::CreatePool { id, size })
        }
        _ => Err(ProtoError::NoMethod),
    }
}

// The object that is to be made.
pub(crate) fn new_id(request: &WlShmRequest) -> Option<NewId>
    ensures { result ≡ new_id_in (wl_shm_request request.now) }
{
    match *request {
        WlShmRequest::CreatePool { id, .. } => Some(NewId {
            id,
            interface: Some(Interface::WlShmPool),
        }),
    }
}

/// An event of wl_shm.
#[derive(Clone, Copy)]
pub enum WlShmEvent {
    Format { format: u32 },
}

pub(crate) fn encode<A: Allocator>(
    object: u32,
    event: &WlShmEvent,
    out: &mut Vec<u8, A>,
) -> Result<(), PutError>
    ensures { Puts object (wl_shm_event event.now) result out.old.items out.new.items }
{
    match *event {
        WlShmEvent::Format { format } => put(out, object, 0, &[Arg::Uint(format)]),
    }
}

pub(crate) fn size(event: &WlShmEvent) -> Option<u16>
    ensures { HasSize (wl_shm_event event.now) result }
{
    match *event {
        WlShmEvent::Format { format } => message_size(&[Arg::Uint(format)]),
    }
}
