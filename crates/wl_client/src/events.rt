//! The events that clients are told.

ghost use Rattle.std.specs.Prelude.{◌≡◌, map, [], ◌∷◌};
ghost use Rattle.spec_desktop.specs.Told.{callback_done, id_deleted, error_told, format_told, geometry_told, mode_told, bind_told, said, Output as Shown};
ghost use Rattle.wl_client.specs.Agreement.{output_of};
ghost use Rattle.wl_client.specs.Said.{said_of};
ghost use Rattle.wl_proto.specs.Messages.{says};
ghost use Rattle.wl_wire.specs.Wire.{Word};
ghost use Rattle.wl_proto.specs.declared.interface.Interface.TheVariants.{WlBuffer, WlCallback, WlShm, WlSeat, WlOutput};

use crate::outputs::Output;
use spec_desktop::Refusal;
use wl_proto::{
    Event, EventBody, WlBufferEvent, WlCallbackEvent, WlDisplayEvent, WlOutputEvent, WlSeatEvent,
    WlShmEvent,
};

/// wl_display.error.
pub fn error_event(refusal: Refusal) -> Event<'static>
    ensures { said_of result ≡ error_told refusal }
{
    Event {
        object: 1,
        body: EventBody::WlDisplay(WlDisplayEvent::Error {
            object_id: refusal.object,
            code: refusal.code.number(),
            message: refusal.code.name(),
        }),
    }
}

/// wl_callback.done of a sync's callback.
pub fn callback_event(callback: u32) -> Event<'static>
    ensures { said_of result ≡ callback_done callback }
{
    Event {
        object: callback,
        body: EventBody::WlCallback(WlCallbackEvent::Done { callback_data: 0 }),
    }
}

/// wl_callback.done of a frame's callback, with the time in milliseconds (wayland.xml,
/// wl_surface.frame and wl_callback.done).
pub fn frame_event(callback: u32, time: u32) -> Event<'static>
    ensures { said_of result ≡ said callback (says WlCallback 0 (Word time ∷ [])) }
{
    Event {
        object: callback,
        body: EventBody::WlCallback(WlCallbackEvent::Done {
            callback_data: time,
        }),
    }
}

/// wl_display.delete_id: this id may be used again.
pub fn deletion_event(id: u32) -> Event<'static>
    ensures { said_of result ≡ id_deleted id }
{
    Event {
        object: 1,
        body: EventBody::WlDisplay(WlDisplayEvent::DeleteId { id }),
    }
}

/// wl_buffer.release: the compositor reads the buffer no more (wayland.xml, wl_buffer.release).
pub fn release_event(buffer: u32) -> Event<'static>
    ensures { said_of result ≡ said buffer (says WlBuffer 0 []) }
{
    Event {
        object: buffer,
        body: EventBody::WlBuffer(WlBufferEvent::Release),
    }
}

fn format_event(shm: u32, format: u32) -> Event<'static>
    ensures { said_of result ≡ format_told shm format }
{
    Event {
        object: shm,
        body: EventBody::WlShm(WlShmEvent::Format { format }),
    }
}

/// The formats of a wl_shm: argb8888 and xrgb8888.
pub fn formats_told(shm: u32) -> [Event<'static>; 2]
    ensures { (output : Shown) → map said_of result ≡ bind_told output shm WlShm }
{
    [format_event(shm, 0), format_event(shm, 1)]
}

/// The capabilities of a wl_seat: it has a pointer.
pub fn capabilities_told(seat: u32) -> [Event<'static>; 1]
    ensures { (output : Shown) → map said_of result ≡ bind_told output seat WlSeat }
{
    [Event {
        object: seat,
        body: EventBody::WlSeat(WlSeatEvent::Capabilities { capabilities: 1 }),
    }]
}

/// The geometry and the one mode of a wl_output.
pub fn output_told(id: u32, output: Output) -> [Event<'static>; 2]
    ensures { map said_of result ≡ bind_told (output_of output) id WlOutput }
{
    [geometry_event(id), mode_event(id, output)]
}

fn geometry_event(id: u32) -> Event<'static>
    ensures { said_of result ≡ geometry_told id }
{
    Event {
        object: id,
        body: EventBody::WlOutput(WlOutputEvent::Geometry {
            x: 0,
            y: 0,
            physical_width: 0,
            physical_height: 0,
            subpixel: 0,
            make: b"wlframe",
            model: b"framebuffer",
            transform: 0,
        }),
    }
}

fn mode_event(id: u32, output: Output) -> Event<'static>
    ensures { said_of result ≡ mode_told id (output_of output) }
{
    Event {
        object: id,
        body: EventBody::WlOutput(WlOutputEvent::Mode {
            flags: 3,
            width: output.width as i32,
            height: output.height as i32,
            refresh: 0,
        }),
    }
}
