//! An event of any interface.

ghost use Rattle.wl_proto.specs.Spelling.{Puts, HasSize};
ghost use Rattle.wl_proto.specs.Messages.{event_message};

use crate::wl_buffer::{self, WlBufferEvent};
use crate::wl_callback::{self, WlCallbackEvent};
use crate::wl_display::{self, WlDisplayEvent};
use crate::wl_output::{self, WlOutputEvent};
use crate::wl_pointer::{self, WlPointerEvent};
use crate::wl_registry::{self, WlRegistryEvent};
use crate::wl_seat::{self, WlSeatEvent};
use crate::wl_shm::{self, WlShmEvent};
use crate::xdg_popup::{self, XdgPopupEvent};
use crate::xdg_surface::{self, XdgSurfaceEvent};
use crate::xdg_toplevel::{self, XdgToplevelEvent};
use std::alloc::Allocator;
use wl_wire::PutError;

/// What an event says, by the interface of the object that sends it.
#[derive(Clone, Copy)]
pub enum EventBody<'a> {
    WlDisplay(WlDisplayEvent<'a>),
    WlRegistry(WlRegistryEvent<'a>),
    WlCallback(WlCallbackEvent),
    WlShm(WlShmEvent),
    WlBuffer(WlBufferEvent),
    WlOutput(WlOutputEvent<'a>),
    WlSeat(WlSeatEvent),
    WlPointer(WlPointerEvent),
    XdgSurface(XdgSurfaceEvent),
    XdgToplevel(XdgToplevelEvent<'a>),
    XdgPopup(XdgPopupEvent),
}

/// An event that an object sends.
#[derive(Clone, Copy)]
pub struct Event<'a> {
    /// The id of the object.
    pub object: u32,
    pub body: EventBody<'a>,
}

pub(crate) fn write<A: Allocator>(
    object: u32,
    body: &EventBody,
    out: &mut Vec<u8, A>,
) -> Result<(), PutError>
    ensures { Puts object (event_message body.now) result out.old.items out.new.items }
{
    match body {
        EventBody::WlDisplay(event) => wl_display::encode(object, event, out),
        EventBody::WlRegistry(event) => wl_registry::encode(object, event, out),
        EventBody::WlCallback(event) => wl_callback::encode(object, event, out),
        EventBody::WlShm(event) => wl_shm::encode(object, event, out),
        EventBody::WlBuffer(event) => wl_buffer::encode(object, event, out),
        EventBody::WlOutput(event) => wl_output::encode(object, event, out),
        EventBody::WlSeat(event) => wl_seat::encode(object, event, out),
        EventBody::WlPointer(event) => wl_pointer::encode(object, event, out),
        EventBody::XdgSurface(event) => xdg_surface::encode(object, event, out),
        EventBody::XdgToplevel(
            XdgToplevelEvent::Configure {
                width,
                height,
                states,
            },
        ) => { xdg_toplevel::encode_configure(object, *width, *height, states, out) }
        EventBody::XdgPopup(event) => xdg_popup::encode(object, event, out),
    }
}

pub(crate) fn size(body: &EventBody) -> Option<u16>
    ensures { HasSize (event_message body.now) result }
{
    match body {
        EventBody::WlDisplay(event) => wl_display::size(event),
        EventBody::WlRegistry(event) => wl_registry::size(event),
        EventBody::WlCallback(event) => wl_callback::size(event),
        EventBody::WlShm(event) => wl_shm::size(event),
        EventBody::WlBuffer(event) => wl_buffer::size(event),
        EventBody::WlOutput(event) => wl_output::size(event),
        EventBody::WlSeat(event) => wl_seat::size(event),
        EventBody::WlPointer(event) => wl_pointer::size(event),
        EventBody::XdgSurface(event) => xdg_surface::size(event),
        EventBody::XdgToplevel(
            XdgToplevelEvent::Configure {
                width,
                height,
                states,
            },
        ) => { xdg_toplevel::configure_size(*width, *height, states) }
        EventBody::XdgPopup(event) => xdg_popup::size(event),
    }
}
