//! The messages of wl_buffer: pixels that a client attaches to a surface.

ghost use Rattle.wl_proto.specs.Spelling.{Gives, decoded, Puts, HasSize};
ghost use Rattle.wl_proto.specs.Messages.{wl_buffer_request, wl_buffer_event};
ghost use Rattle.wl_proto.specs.declared.interface.Interface.TheVariants.{WlBuffer};

use crate::ProtoError;
use crate::body::nothing;
use std::alloc::Allocator;
use wl_wire::{PutError, message_size, put};

/// A request of wl_buffer.
#[derive(Clone, Copy)]
pub enum WlBufferRequest {
    Destroy,
}

pub(crate) fn decode(_version: u32, opcode: u16, body: &[u8]) -> Result<WlBufferRequest, ProtoError>
    ensures { Gives wl_buffer_request result (decoded WlBuffer _version opcode body.now) }
{
    match opcode {
        0 => {
            nothing(body)?;
            Ok(WlBufferRequest::Destroy)
        }
        _ => Err(ProtoError::NoMethod),
    }
}

/// An event of wl_buffer.
#[derive(Clone, Copy)]
pub enum WlBufferEvent {
    Release,
}

pub(crate) fn encode<A: Allocator>(
    object: u32,
    event: &WlBufferEvent,
    out: &mut Vec<u8, A>,
) -> Result<(), PutError>
    ensures { Puts object (wl_buffer_event event.now) result out.old.items out.new.items }
{
    match *event {
        WlBufferEvent::Release => put(out, object, 0, &[]),
    }
}

pub(crate) fn size(event: &WlBufferEvent) -> Option<u16>
    ensures { HasSize (wl_buffer_event event.now) result }
{
    match *event {
        WlBufferEvent::Release => message_size(&[]),
    }
}
