//! The messages of xdg_toplevel: a window of the desktop, which the user can move and close.

ghost use Rattle.std.specs.Prelude.{◌≡◌, [], ◌∷◌, flat_map, option_to_list};
ghost use Rattle.wl_wire.specs.Wire.{Number, Block};
ghost use Rattle.wl_proto.specs.Spelling.{Gives, decoded, Puts, HasSize};
ghost use Rattle.wl_proto.specs.Objects.{objects_in};
ghost use Rattle.wl_proto.specs.Messages.{xdg_toplevel_request, says};
ghost use Rattle.wl_proto.specs.declared.interface.Interface.TheVariants.{XdgToplevel};

use crate::body::{nothing, text, three_words, two_ints, two_words, two_words_two_ints, word};
use crate::{Interface, ObjectArg, ProtoError};
use std::alloc::Allocator;
use wl_wire::{Arg, PutError, message_size, put};

/// A request of xdg_toplevel.
#[derive(Clone, Copy)]
pub enum XdgToplevelRequest<'a> {
    Destroy,
    SetParent {
        parent: u32,
    },
    SetTitle {
        title: &'a [u8],
    },
    SetAppId {
        app_id: &'a [u8],
    },
    ShowWindowMenu {
        seat: u32,
        serial: u32,
        x: i32,
        y: i32,
    },
    Move {
        seat: u32,
        serial: u32,
    },
    Resize {
        seat: u32,
        serial: u32,
        edges: u32,
    },
    SetMaxSize {
        width: i32,
        height: i32,
    },
    SetMinSize {
        width: i32,
        height: i32,
    },
    SetMaximized,
    UnsetMaximized,
    SetFullscreen {
        output: u32,
    },
    UnsetFullscreen,
    SetMinimized,
}

pub(crate) fn decode<'a>(
    _version: u32,
    opcode: u16,
    body: &'a [u8],
) -> Result<XdgToplevelRequest<'a>, ProtoError>
    ensures { Gives xdg_toplevel_request result (decoded XdgToplevel _version opcode body.now) }
{
    match opcode {
        0 => {
            nothing(body)?;
            Ok(XdgToplevelRequest::Destroy)
        }
        1 => {
            let parent = word(body)?;
            Ok(XdgToplevelRequest::SetParent { parent })
        }
        2 => {
            let title = text(body)?;
            Ok(XdgToplevelRequest::SetTitle { title })
        }
        3 => {
            let app_id = text(body)?;
            Ok(XdgToplevelRequest::SetAppId { app_id })
        }
        4 => {
            let (seat, serial, x, y) = two_words_two_ints(body)?;
            Ok(XdgToplevelRequest::ShowWindowMenu { seat, serial, x, y })
        }
        5 => {
            let (seat, serial) = two_words(body)?;
            Ok(XdgToplevelRequest::Move { seat, serial })
        }
        6 => {
            let (seat, serial, edges) = three_words(body)?;
            Ok(XdgToplevelRequest::Resize {
                seat,
                serial,
                edges,
            })
        }
        7 => {
            let (width, height) = two_ints(body)?;
            Ok(XdgToplevelRequest::SetMaxSize { width, height })
        }
        8 => {
            let (width, height) = two_ints(body)?;
            Ok(XdgToplevelRequest::SetMinSize { width, height })
        }
        9 => {
            nothing(body)?;
            Ok(XdgToplevelRequest::SetMaximized)
        }
        10 => {
            nothing(body)?;
            Ok(XdgToplevelRequest::UnsetMaximized)
        }
        11 => {
            let output = word(body)?;
            Ok(XdgToplevelRequest::SetFullscreen { output })
        }
        12 => {
            nothing(body)?;
            Ok(XdgToplevelRequest::UnsetFullscreen)
        }
        13 => {
            nothing(body)?;
            Ok(XdgToplevelRequest::SetMinimized)
        }
        _ => Err(ProtoError::NoMethod),
    }
}

// The object arguments, in their order.
pub(crate) fn objects(request: &XdgToplevelRequest) -> [Option<ObjectArg>; 2]
    ensures { flat_map option_to_list result ≡ objects_in (xdg_toplevel_request request.now) }
{
    match *request {
        XdgToplevelRequest::SetParent { parent } => [
            Some(ObjectArg::nullable(parent, Interface::XdgToplevel)),
            None,
        ],
        XdgToplevelRequest::ShowWindowMenu { seat, .. } => [
            Some(ObjectArg::new(seat, Interface::WlSeat)),
            None,
        ],
        XdgToplevelRequest::Move { seat, .. } => [
            Some(ObjectArg::new(seat, Interface::WlSeat)),
            None,
        ],
        XdgToplevelRequest::Resize { seat, .. } => [
            Some(ObjectArg::new(seat, Interface::WlSeat)),
            None,
        ],
        XdgToplevelRequest::SetFullscreen { output } => [
            Some(ObjectArg::nullable(output, Interface::WlOutput)),
            None,
        ],
        _ => [None, None],
    }
}

/// An event of xdg_toplevel.
#[derive(Clone, Copy)]
pub enum XdgToplevelEvent<'a> {
    Configure {
        width: i32,
        height: i32,
        /// The states, each as a uint of four bytes, little endian.
        states: &'a [u8],
    },
}

pub(crate) fn encode_configure<A: Allocator>(
    object: u32,
    width: i32,
    height: i32,
    states: &[u8],
    out: &mut Vec<u8, A>,
) -> Result<(), PutError>
    ensures { Puts object (says XdgToplevel 0 (Number width ∷ Number height ∷ Block states.now ∷ [])) result out.old.items out.new.items }
{
    put(
        out,
        object,
        0,
        &[Arg::Int(width), Arg::Int(height), Arg::Array(states)],
    )
}

pub(crate) fn configure_size(width: i32, height: i32, states: &[u8]) -> Option<u16>
    ensures { HasSize (says XdgToplevel 0 (Number width ∷ Number height ∷ Block states.now ∷ [])) result }
{
    message_size(&[Arg::Int(width), Arg::Int(height), Arg::Array(states)])
}
