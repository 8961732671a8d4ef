//! The messages of wl_output, which describes the output that surfaces are shown on.

ghost use Rattle.wl_proto.specs.Spelling.{Puts, HasSize};
ghost use Rattle.wl_proto.specs.Messages.{wl_output_event};

use std::alloc::Allocator;
use wl_wire::{Arg, PutError, message_size, put};

/// An event of wl_output.
#[derive(Clone, Copy)]
pub enum WlOutputEvent<'a> {
    Geometry {
        x: i32,
        y: i32,
        physical_width: i32,
        physical_height: i32,
        subpixel: i32,
        make: &'a [u8],
        model: &'a [u8],
        transform: i32,
    },
    Mode {
        flags: u32,
        width: i32,
        height: i32,
        refresh: i32,
    },
}

pub(crate) fn encode<A: Allocator>(
    object: u32,
    event: &WlOutputEvent,
    out: &mut Vec<u8, A>,
) -> Result<(), PutError>
    ensures { Puts object (wl_output_event event.now) result out.old.items out.new.items }
{
    match *event {
        WlOutputEvent::Geometry {
            x,
            y,
            physical_width,
            physical_height,
            subpixel,
            make,
            model,
            transform,
        } => put(
            out,
            object,
            0,
            &[
                Arg::Int(x),
                Arg::Int(y),
                Arg::Int(physical_width),
                Arg::Int(physical_height),
                Arg::Int(subpixel),
                Arg::Str(make),
                Arg::Str(model),
                Arg::Int(transform),
            ],
        ),
        WlOutputEvent::Mode {
            flags,
            width,
            height,
            refresh,
        } => put(
            out,
            object,
            1,
            &[
                Arg::Uint(flags),
                Arg::Int(width),
                Arg::Int(height),
                Arg::Int(refresh),
            ],
        ),
    }
}

pub(crate) fn size(event: &WlOutputEvent) -> Option<u16>
    ensures { HasSize (wl_output_event event.now) result }
{
    match *event {
        WlOutputEvent::Geometry {
            x,
            y,
            physical_width,
            physical_height,
            subpixel,
            make,
            model,
            transform,
        } => message_size(&[
            Arg::Int(x),
            Arg::Int(y),
            Arg::Int(physical_width),
            Arg::Int(physical_height),
            Arg::Int(subpixel),
            Arg::Str(make),
            Arg::Str(model),
            Arg::Int(transform),
        ]),
        WlOutputEvent::Mode {
            flags,
            width,
            height,
            refresh,
        } => message_size(&[
            Arg::Uint(flags),
            Arg::Int(width),
            Arg::Int(height),
            Arg::Int(refresh),
        ]),
    }
}
