//! The messages of wl_display, the object with which each connection begins.

ghost use Rattle.std.specs.Prelude.{◌≡◌};
ghost use Rattle.wl_proto.specs.Spelling.{Gives, decoded, Puts, HasSize};
ghost use Rattle.wl_proto.specs.Objects.{new_id_in};
ghost use Rattle.wl_proto.specs.Messages.{wl_display_request, wl_display_event};
ghost use Rattle.wl_proto.specs.declared.interface.Interface.TheVariants.{WlDisplay};

use crate::body::word;
use crate::{Interface, NewId, ProtoError};
use std::alloc::Allocator;
use wl_wire::{Arg, PutError, message_size, put};

/// A request of wl_display.
#[derive(Clone, Copy)]
pub enum WlDisplayRequest {
    Sync { callback: u32 },
    GetRegistry { registry: u32 },
}

pub(crate) fn decode(
    _version: u32,
    opcode: u16,
    body: &[u8],
) -> Result<WlDisplayRequest, ProtoError>
    ensures { Gives wl_display_request result (decoded WlDisplay _version opcode body.now) }
{
    match opcode {
        0 => {
            let callback = word(body)?;
            Ok(WlDisplayRequest::Sync { callback })
        }
        1 => {
            let registry = word(body)?;
            Ok(WlDisplayRequest::GetRegistry { registry })
        }
        _ => Err(ProtoError::NoMethod),
    }
}

// The object that is to be made.
pub(crate) fn new_id(request: &WlDisplayRequest) -> Option<NewId>
    ensures { result ≡ new_id_in (wl_display_request request.now) }
{
    match *request {
        WlDisplayRequest::Sync { callback } => Some(NewId {
            id: callback,
            interface: Some(Interface::WlCallback),
        }),
        WlDisplayRequest::GetRegistry { registry } => Some(NewId {
            id: registry,
            interface: Some(Interface::WlRegistry),
        }),
    }
}

/// An event of wl_display.
#[derive(Clone, Copy)]
pub enum WlDisplayEvent<'a> {
    Error {
        object_id: u32,
        code: u32,
        message: &'a [u8],
    },
    DeleteId {
        id: u32,
    },
}

pub(crate) fn encode<A: Allocator>(
    object: u32,
    event: &WlDisplayEvent,
    out: &mut Vec<u8, A>,
) -> Result<(), PutError>
    ensures { Puts object (wl_display_event event.now) result out.old.items out.new.items }
{
    match *event {
        WlDisplayEvent::Error {
            object_id,
            code,
            message,
        } => put(
            out,
            object,
            0,
            &[Arg::Object(object_id), Arg::Uint(code), Arg::Str(message)],
        ),
        WlDisplayEvent::DeleteId { id } => put(out, object, 1, &[Arg::Uint(id)]),
    }
}

pub(crate) fn size(event: &WlDisplayEvent) -> Option<u16>
    ensures { HasSize (wl_display_event event.now) result }
{
    match *event {
        WlDisplayEvent::Error {
            object_id,
            code,
            message,
        } => message_size(&[Arg::Object(object_id), Arg::Uint(code), Arg::Str(message)]),
        WlDisplayEvent::DeleteId { id } => message_size(&[Arg::Uint(id)]),
    }
}
