//! The messages of wl_callback: a notice, given once, that something is done.

ghost use Rattle.wl_proto.specs.Spelling.{Puts, HasSize};
ghost use Rattle.wl_proto.specs.Messages.{wl_callback_event};

use std::alloc::Allocator;
use wl_wire::{Arg, PutError, message_size, put};

/// An event of wl_callback.
#[derive(Clone, Copy)]
pub enum WlCallbackEvent {
    Done { callback_data: u32 },
}

pub(crate) fn encode<A: Allocator>(
    object: u32,
    event: &WlCallbackEvent,
    out: &mut Vec<u8, A>,
) -> Result<(), PutError>
    ensures { Puts object (wl_callback_event event.now) result out.old.items out.new.items }
{
    match *event {
        WlCallbackEvent::Done { callback_data } => put(out, object, 0, &[Arg::Uint(callback_data)]),
    }
}

pub(crate) fn size(event: &WlCallbackEvent) -> Option<u16>
    ensures { HasSize (wl_callback_event event.now) result }
{
    match *event {
        WlCallbackEvent::Done { callback_data } => message_size(&[Arg::Uint(callback_data)]),
    }
}
