//! The messages of xdg_popup: a short-lived surface beside its parent, as a menu.

ghost use Rattle.std.specs.Prelude.{◌≡◌, flat_map, option_to_list};
ghost use Rattle.wl_proto.specs.Spelling.{Gives, decoded, Puts, HasSize};
ghost use Rattle.wl_proto.specs.Objects.{objects_in};
ghost use Rattle.wl_proto.specs.Messages.{xdg_popup_request, xdg_popup_event};
ghost use Rattle.wl_proto.specs.declared.interface.Interface.TheVariants.{XdgPopup};

use crate::body::{nothing, two_words};
use crate::{Interface, ObjectArg, ProtoError};
use std::alloc::Allocator;
use wl_wire::{Arg, PutError, message_size, put};

/// A request of xdg_popup.
#[derive(Clone, Copy)]
pub enum XdgPopupRequest {
    Destroy,
    Grab { seat: u32, serial: u32 },
    Reposition { positioner: u32, token: u32 },
}

pub(crate) fn decode(version: u32, opcode: u16, body: &[u8]) -> Result<XdgPopupRequest, ProtoError>
    ensures { Gives xdg_popup_request result (decoded XdgPopup version opcode body.now) }
{
    match opcode {
        0 => {
            nothing(body)?;
            Ok(XdgPopupRequest::Destroy)
        }
        1 => {
            let (seat, serial) = two_words(body)?;
            Ok(XdgPopupRequest::Grab { seat, serial })
        }
        2 if version >= 3 => {
            let (positioner, token) = two_words(body)?;
            Ok(XdgPopupRequest::Reposition { positioner, token })
        }
        _ => Err(ProtoError::NoMethod),
    }
}

// The object arguments, in their order.
pub(crate) fn objects(request: &XdgPopupRequest) -> [Option<ObjectArg>; 2]
    ensures { flat_map option_to_list result ≡ objects_in (xdg_popup_request request.now) }
{
    match *request {
        XdgPopupRequest::Grab { seat, .. } => [Some(ObjectArg::new(seat, Interface::WlSeat)), None],
        XdgPopupRequest::Reposition { positioner, .. } => [
            Some(ObjectArg::new(positioner, Interface::XdgPositioner)),
            None,
        ],
        _ => [None, None],
    }
}

/// An event of xdg_popup.
#[derive(Clone, Copy)]
pub enum XdgPopupEvent {
    Configure {
        x: i32,
        y: i32,
        width: i32,
        height: i32,
    },
    PopupDone,
    Repositioned {
        token: u32,
    },
}

pub(crate) fn encode<A: Allocator>(
    object: u32,
    event: &XdgPopupEvent,
    out: &mut Vec<u8, A>,
) -> Result<(), PutError>
    ensures { Puts object (xdg_popup_event event.now) result out.old.items out.new.items }
{
    match *event {
        XdgPopupEvent::Configure {
            x,
            y,
            width,
            height,
        } => put(
            out,
            object,
            0,
            &[Arg::Int(x), Arg::Int(y), Arg::Int(width), Arg::Int(height)],
        ),
        XdgPopupEvent::PopupDone => put(out, object, 1, &[]),
        XdgPopupEvent::Repositioned { token } => put(out, object, 2, &[Arg::Uint(token)]),
    }
}

pub(crate) fn size(event: &XdgPopupEvent) -> Option<u16>
    ensures { HasSize (xdg_popup_event event.now) result }
{
    match *event {
        XdgPopupEvent::Configure {
            x,
            y,
            width,
            height,
        } => message_size(&[Arg::Int(x), Arg::Int(y), Arg::Int(width), Arg::Int(height)]),
        XdgPopupEvent::PopupDone => message_size(&[]),
        XdgPopupEvent::Repositioned { token } => message_size(&[Arg::Uint(token)]),
    }
}
