//! The messages of wl_seat: a group of input devices, which makes their objects.

ghost use Rattle.std.specs.Prelude.{◌≡◌};
ghost use Rattle.wl_proto.specs.Spelling.{Gives, decoded, Puts, HasSize};
ghost use Rattle.wl_proto.specs.Objects.{new_id_in};
ghost use Rattle.wl_proto.specs.Messages.{wl_seat_request, wl_seat_event};
ghost use Rattle.wl_proto.specs.declared.interface.Interface.TheVariants.{WlSeat};

use crate::body::word;
use crate::{Interface, NewId, ProtoError};
use std::alloc::Allocator;
use wl_wire::{Arg, PutError, message_size, put};

/// A request of wl_seat.
#[derive(Clone, Copy)]
pub enum WlSeatRequest {
    GetPointer { id: u32 },
    GetKeyboard { id: u32 },
    GetTouch { id: u32 },
}

pub(crate) fn decode(_version: u32, opcode: u16, body: &[u8]) -> Result<WlSeatRequest, ProtoError>
    ensures { Gives wl_seat_request result (decoded WlSeat _version opcode body.now) }
{
    match opcode {
        0 => {
            let id = word(body)?;
            Ok(WlSeatRequest::GetPointer { id })
        }
        1 => {
            let id = word(body)?;
            Ok(WlSeatRequest::GetKeyboard { id })
        }
        2 => {
            let id = word(body)?;
            Ok(WlSeatRequest::GetTouch { id })
        }
        _ => Err(ProtoError::NoMethod),
    }
}

// The object that is to be made.
pub(crate) fn new_id(request: &WlSeatRequest) -> Option<NewId>
    ensures { result ≡ new_id_in (wl_seat_request request.now) }
{
    match *request {
        WlSeatRequest::GetPointer { id } => Some(NewId {
            id,
            interface: Some(Interface::WlPointer),
        }),
        WlSeatRequest::GetKeyboard { id } => Some(NewId {
            id,
            interface: None,
        }),
        WlSeatRequest::GetTouch { id } => Some(NewId {
            id,
            interface: None,
        }),
    }
}

/// An event of wl_seat.
#[derive(Clone, Copy)]
pub enum WlSeatEvent {
    Capabilities { capabilities: u32 },
}

pub(crate) fn encode<A: Allocator>(
    object: u32,
    event: &WlSeatEvent,
    out: &mut Vec<u8, A>,
) -> Result<(), PutError>
    ensures { Puts object (wl_seat_event event.now) result out.old.items out.new.items }
{
    match *event {
        WlSeatEvent::Capabilities { capabilities } => put(
            out,
            object,
            0,
            &[Arg::Uint(capabilities)],
        ),
    }
}

pub(crate) fn size(event: &WlSeatEvent) -> Option<u16>
    ensures { HasSize (wl_seat_event event.now) result }
{
    match *event {
        WlSeatEvent::Capabilities { capabilities } => message_size(&[Arg::Uint(capabilities)]),
    }
}
