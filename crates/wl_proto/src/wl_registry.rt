//! The messages of wl_registry, which announces the globals and binds objects to them.

ghost use Rattle.std.specs.Prelude.{◌≡◌};
ghost use Rattle.wl_proto.specs.Spelling.{Gives, decoded, Puts, HasSize};
ghost use Rattle.wl_proto.specs.Objects.{new_id_in};
ghost use Rattle.wl_proto.specs.Messages.{wl_registry_request, wl_registry_event};
ghost use Rattle.wl_proto.specs.declared.interface.Interface.TheVariants.{WlRegistry};

use crate::body::word_text_two_words;
use crate::{NewId, ProtoError};
use std::alloc::Allocator;
use wl_wire::{Arg, PutError, message_size, put};

/// A request of wl_registry.
#[derive(Clone, Copy)]
pub enum WlRegistryRequest<'a> {
    Bind {
        name: u32,
        interface: &'a [u8],
        version: u32,
        id: u32,
    },
}

pub(crate) fn decode<'a>(
    _version: u32,
    opcode: u16,
    body: &'a [u8],
) -> Result<WlRegistryRequest<'a>, ProtoError>
    ensures { Gives wl_registry_request result (decoded WlRegistry _version opcode body.now) }
{
    match opcode {
        0 => {
            let (name, interface, version, id) = word_text_two_words(body)?;
            Ok(WlRegistryRequest::Bind {
                name,
                interface,
                version,
                id,
            })
        }
        _ => Err(ProtoError::NoMethod),
    }
}

// The object that is to be made.
pub(crate) fn new_id(request: &WlRegistryRequest) -> Option<NewId>
    ensures { result ≡ new_id_in (wl_registry_request request.now) }
{
    match *request {
        WlRegistryRequest::Bind { id, .. } => Some(NewId {
            id,
            interface: None,
        }),
    }
}

/// An event of wl_registry.
#[derive(Clone, Copy)]
pub enum WlRegistryEvent<'a> {
    Global {
        name: u32,
        interface: &'a [u8],
        version: u32,
    },
}

pub(crate) fn encode<A: Allocator>(
    object: u32,
    event: &WlRegistryEvent,
    out: &mut Vec<u8, A>,
) -> Result<(), PutError>
    ensures { Puts object (wl_registry_event event.now) result out.old.items out.new.items }
{
    match *event {
        WlRegistryEvent::Global {
            name,
            interface,
            version,
        } => put(
            out,
            object,
            0,
            &[Arg::Uint(name), Arg::Str(interface), Arg::Uint(version)],
        ),
    }
}

pub(crate) fn size(event: &WlRegistryEvent) -> Option<u16>
    ensures { HasSize (wl_registry_event event.now) result }
{
    match *event {
        WlRegistryEvent::Global {
            name,
            interface,
            version,
        } => message_size(&[Arg::Uint(name), Arg::Str(interface), Arg::Uint(version)]),
    }
}
