//! The messages of the protocol (wayland.xml, xdg-shell.xml): which interfaces, requests and events
//! there are, and which bytes spell them. Begin with [`decode`] and [`encode`]; the table of
//! messages is specs/Table.antt. What a request does is left to wl_client and wl_requests.
//!
//! The version of an object says which of its requests the table spells. Numbers that no enum of
//! the protocol has are let through. An object argument is an id, 0 for the null object; a new id
//! is an id too.
#![tactic(auto)]

ghost use Rattle.std.specs.Prelude.{◌≡◌, ◌↔◌, List, length, None, IfOk, IfSome, IsOkAnd, OnOk, IsErrOf};
ghost use Rattle.wl_wire.specs.Wire.{Field, message_bytes};
ghost use Rattle.wl_proto.specs.Table.{request_at};
ghost use Rattle.wl_proto.specs.Messages.{request_message, event_message, says};
ghost use Rattle.wl_proto.specs.Spelling.{SpellsRequest, SpellsEvent, Gives, HasSize, Puts, decoded};
ghost use Rattle.wl_proto.specs.Laws.{RequestsAreFound, EventsAreFound, NoRequestBeginsAnother, NoEventBeginsAnother};

mod argument;
mod body;
mod error;
mod event;
mod interface;
mod request;
mod wl_buffer;
mod wl_callback;
mod wl_compositor;
mod wl_display;
mod wl_output;
mod wl_pointer;
mod wl_region;
mod wl_registry;
mod wl_seat;
mod wl_shm;
mod wl_shm_pool;
mod wl_subcompositor;
mod wl_subsurface;
mod wl_surface;
mod xdg_popup;
mod xdg_positioner;
mod xdg_surface;
mod xdg_toplevel;
mod xdg_wm_base;

pub use argument::{NewId, ObjectArg};
pub use error::ProtoError;
pub use event::{Event, EventBody};
pub use interface::Interface;
pub use request::Request;
use std::alloc::Allocator;
pub use wl_buffer::{WlBufferEvent, WlBufferRequest};
pub use wl_callback::WlCallbackEvent;
pub use wl_compositor::WlCompositorRequest;
pub use wl_display::{WlDisplayEvent, WlDisplayRequest};
pub use wl_output::WlOutputEvent;
pub use wl_pointer::{WlPointerEvent, WlPointerRequest};
pub use wl_region::WlRegionRequest;
pub use wl_registry::{WlRegistryEvent, WlRegistryRequest};
pub use wl_seat::{WlSeatEvent, WlSeatRequest};
pub use wl_shm::{WlShmEvent, WlShmRequest};
pub use wl_shm_pool::WlShmPoolRequest;
pub use wl_subcompositor::WlSubcompositorRequest;
pub use wl_subsurface::WlSubsurfaceRequest;
pub use wl_surface::WlSurfaceRequest;
use wl_wire::PutError;
pub use xdg_popup::{XdgPopupEvent, XdgPopupRequest};
pub use xdg_positioner::XdgPositionerRequest;
pub use xdg_surface::{XdgSurfaceEvent, XdgSurfaceRequest};
pub use xdg_toplevel::{XdgToplevelEvent, XdgToplevelRequest};
pub use xdg_wm_base::XdgWmBaseRequest;

/// Decodes a request, from the interface and version of the object that it is sent to, the opcode,
/// and the bytes of its arguments. Its strings are borrowed from these.
///
/// # Errors
///
/// `NoMethod` if the interface has no such request at that version, else `BadArgs` if the bytes
/// don't spell its arguments.
pub fn decode<'a>(
    interface: Interface,
    version: u32,
    opcode: u16,
    body: &'a [u8],
) -> Result<Request<'a>, ProtoError>
    ensures interface { IfOk result (λ request. (request_message request).interface ≡ interface) }
    ensures opcode { IfOk result (λ request. (request_message request).opcode ≡ opcode) }

    // What is decoded is spelled so, and what is spelled so is decoded.
    ensures spelled { IfOk result (λ request. SpellsRequest interface version opcode (request_message request).fields body.now) }
    ensures each { (fields : List Field) → SpellsRequest interface version opcode fields body.now → IsOkAnd result (λ request. request_message request ≡ says interface opcode fields) }
    ensures no_method { IsErrOf result ProtoError.NoMethod ↔ (request_at interface version opcode ≡ None) }
    ensures exact { Gives request_message result (decoded interface version opcode body.now) }
{
    request::read(interface, version, opcode, body)
}

/// Writes an event at the end.
///
/// # Errors
///
/// `TooLong` if it would have more than 65,532 bytes, `Memory` if there is no room for it. Either
/// leaves the bytes as they were.
pub fn encode<A: Allocator>(event: &Event, out: &mut Vec<u8, A>) -> Result<(), PutError>
    ensures exact { Puts event.now.object (event_message event.now.body) result out.old.items out.new.items }

    // What is appended is a spelling of the event, as the table has it.
    ensures spelled { OnOk result (SpellsEvent event.now.object (event_message event.now.body) (message_bytes event.now.object (event_message event.now.body).opcode (event_message event.now.body).fields)) }
{
    let object = event.object;
    event::write(object, &event.body, out)
}

/// The size in bytes of an event's message, the header included: how many bytes `encode` would
/// append.
///
/// `None` if there would be more than 65,532, which `encode` refuses as `TooLong`.
pub fn encoded_size(event: &Event) -> Option<u16>
    ensures exact { HasSize (event_message event.now.body) result }

    // It is the length of what `encode` appends.
    ensures appended { IfSome result (λ size. size ≡ length (message_bytes event.now.object (event_message event.now.body).opcode (event_message event.now.body).fields)) }
{
    event::size(&event.body)
}

/// Whatever follows a request, its header is found, and its body says what was spelled.
pub fn requests_are_found()
    ensures { RequestsAreFound }
{}

/// Whatever follows an event, its header is found.
pub fn events_are_found()
    ensures { EventsAreFound }
{}

/// No spelling of a request is a proper prefix of a spelling of a request.
pub fn no_request_begins_another()
    ensures { NoRequestBeginsAnother }
{}

/// No spelling of an event is a proper prefix of a spelling of an event.
pub fn no_event_begins_another()
    ensures { NoEventBeginsAnother }
{}
