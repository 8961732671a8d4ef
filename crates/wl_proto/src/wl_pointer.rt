//! The messages of wl_pointer, which tells a client of the pointer over its surfaces.

ghost use Rattle.std.specs.Prelude.{◌≡◌, flat_map, option_to_list};
ghost use Rattle.wl_proto.specs.Spelling.{Gives, decoded, Puts, HasSize};
ghost use Rattle.wl_proto.specs.Objects.{objects_in};
ghost use Rattle.wl_proto.specs.Messages.{wl_pointer_request, wl_pointer_event};
ghost use Rattle.wl_proto.specs.declared.interface.Interface.TheVariants.{WlPointer};

use crate::body::two_words_two_ints;
use crate::{Interface, ObjectArg, ProtoError};
use std::alloc::Allocator;
use wl_wire::{Arg, Fixed, PutError, message_size, put};

/// A request of wl_pointer.
#[derive(Clone, Copy)]
pub enum WlPointerRequest {
    SetCursor {
        serial: u32,
        surface: u32,
        hotspot_x: i32,
        hotspot_y: i32,
    },
}

pub(crate) fn decode(
    _version: u32,
    opcode: u16,
    body: &[u8],
) -> Result<WlPointerRequest, ProtoError>
    ensures { Gives wl_pointer_request result (decoded WlPointer _version opcode body.now) }
{
    match opcode {
        0 => {
            let (serial, surface, hotspot_x, hotspot_y) = two_words_two_ints(body)?;
            Ok(WlPointerRequest::SetCursor {
                serial,
                surface,
                hotspot_x,
                hotspot_y,
            })
        }
        _ => Err(ProtoError::NoMethod),
    }
}

// The object arguments, in their order.
pub(crate) fn objects(request: &WlPointerRequest) -> [Option<ObjectArg>; 2]
    ensures { flat_map option_to_list result ≡ objects_in (wl_pointer_request request.now) }
{
    match *request {
        WlPointerRequest::SetCursor { surface, .. } => [
            Some(ObjectArg::nullable(surface, Interface::WlSurface)),
            None,
        ],
    }
}

/// An event of wl_pointer.
#[derive(Clone, Copy)]
pub enum WlPointerEvent {
    Enter {
        serial: u32,
        surface: u32,
        surface_x: Fixed,
        surface_y: Fixed,
    },
    Leave {
        serial: u32,
        surface: u32,
    },
    Motion {
        time: u32,
        surface_x: Fixed,
        surface_y: Fixed,
    },
    Button {
        serial: u32,
        time: u32,
        button: u32,
        state: u32,
    },
}

pub(crate) fn encode<A: Allocator>(
    object: u32,
    event: &WlPointerEvent,
    out: &mut Vec<u8, A>,
) -> Result<(), PutError>
    ensures { Puts object (wl_pointer_event event.now) result out.old.items out.new.items }
{
    match *event {
        WlPointerEvent::Enter {
            serial,
            surface,
            surface_x,
            surface_y,
        } => put(
            out,
            object,
            0,
            &[
                Arg::Uint(serial),
                Arg::Object(surface),
                Arg::Fixed(surface_x),
                Arg::Fixed(surface_y),
            ],
        ),
        WlPointerEvent::Leave { serial, surface } => put(
            out,
            object,
            1,
            &[Arg::Uint(serial), Arg::Object(surface)],
        ),
        WlPointerEvent::Motion {
            time,
            surface_x,
            surface_y,
        } => put(
            out,
            object,
            2,
            &[
                Arg::Uint(time),
                Arg::Fixed(surface_x),
                Arg::Fixed(surface_y),
            ],
        ),
        WlPointerEvent::Button {
            serial,
            time,
            button,
            state,
        } => put(
            out,
            object,
            3,
            &[
                Arg::Uint(serial),
                Arg::Uint(time),
                Arg::Uint(button),
                Arg::Uint(state),
            ],
        ),
    }
}

pub(crate) fn size(event: &WlPointerEvent) -> Option<u16>
    ensures { HasSize (wl_pointer_event event.now) result }
{
    match *event {
        WlPointerEvent::Enter {
            serial,
            surface,
            surface_x,
            surface_y,
        } => message_size(&[
            Arg::Uint(serial),
            Arg::Object(surface),
            Arg::Fixed(surface_x),
            Arg::Fixed(surface_y),
        ]),
        WlPointerEvent::Leave { serial, surface } => message_size(&[
            Arg::Uint(serial),
            Arg::Object(surface),
        ]),
        WlPointerEvent::Motion {
            time,
            surface_x,
            surface_y,
        } => message_size(&[
            Arg::Uint(time),
            Arg::Fixed(surface_x),
            Arg::Fixed(surface_y),
        ]),
        WlPointerEvent::Button {
            serial,
            time,
            button,
            state,
        } => message_size(&[
            Arg::Uint(serial),
            Arg::Uint(time),
            Arg::Uint(button),
            Arg::Uint(state),
        ]),
    }
}
