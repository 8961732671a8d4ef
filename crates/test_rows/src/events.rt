//! What clients are told, in the protocol's words (wayland.xml and xdg-shell.xml). An event is
//! named as there; configure has its interface before it where that
//! isn't xdg_surface. Its fields are the object that tells it, then its arguments, in their order.

use crate::asks::{Interface, name_of};
use crate::words::{Words, four, four_ints, none, one, put_words, three, two};
use std::alloc::Global;
use wl_wire::{Arg, put};

/// An event. wl_display is the object 1, and places of the pointer are in 256ths of a pixel.
#[derive(Clone, Copy)]
pub enum Event {
    /// wl_display.error of wl_display itself: no_memory.
    NoMemory,
    /// wl_display.delete_id: id.
    DeleteId(u32),
    /// wl_registry.global: registry, name, interface, version.
    Global(u32, u32, Interface, u32),
    /// wl_callback.done: callback, data.
    Done(u32, u32),
    /// wl_shm.format: shm, format.
    Format(u32, u32),
    /// wl_buffer.release: buffer.
    Release(u32),
    /// wl_output.geometry of the one output that there is, all zeros: output.
    Geometry(u32),
    /// wl_output.mode: output, flags, width, height, refresh.
    Mode(u32, u32, i32, i32, i32),
    /// wl_seat.capabilities: seat, capabilities.
    Capabilities(u32, u32),
    /// wl_pointer.enter: pointer, serial, surface, x, y.
    Enter(u32, u32, u32, i32, i32),
    /// wl_pointer.leave: pointer, serial, surface.
    Leave(u32, u32, u32),
    /// wl_pointer.motion: pointer, time, x, y.
    Motion(u32, u32, i32, i32),
    /// wl_pointer.button: pointer, serial, time, button, state.
    Button(u32, u32, u32, u32, u32),
    /// xdg_surface.configure: xdg_surface, serial.
    Configure(u32, u32),
    /// xdg_toplevel.configure with the one state activated: toplevel, width, height.
    ToplevelConfigure(u32, i32, i32),
    /// xdg_popup.configure: popup, x, y, width, height.
    PopupConfigure(u32, i32, i32, i32, i32),
    /// xdg_popup.popup_done: popup.
    PopupDone(u32),
    /// xdg_popup.repositioned: popup, token.
    Repositioned(u32, u32),
}

/// The words of an event. None of those with a text or an array.
fn words_of(event: Event) -> Option<Words> {
    let words = match event {
        Event::DeleteId(id) => one(1, 1, id),
        Event::Done(callback, data) => one(callback, 0, data),
        Event::Format(shm, format) => one(shm, 0, format),
        Event::Release(buffer) => none(buffer, 0),
        Event::Mode(output, flags, width, height, refresh) => four(
            output,
            1,
            [
                flags,
                width.cast_unsigned(),
                height.cast_unsigned(),
                refresh.cast_unsigned(),
            ],
        ),
        Event::Capabilities(seat, capabilities) => one(seat, 0, capabilities),
        Event::Enter(pointer, serial, surface, x, y) => four(
            pointer,
            0,
            [serial, surface, x.cast_unsigned(), y.cast_unsigned()],
        ),
        Event::Leave(pointer, serial, surface) => two(pointer, 1, [serial, surface]),
        Event::Motion(pointer, time, x, y) => three(
            pointer,
            2,
            [time, x.cast_unsigned(), y.cast_unsigned()],
        ),
        Event::Button(pointer, serial, time, button, state) => four(
            pointer,
            3,
            [serial, time, button, state],
        ),
        Event::Configure(xdg_surface, serial) => one(xdg_surface, 0, serial),
        Event::PopupConfigure(popup, x, y, width, height) => four_ints(
            popup,
            0,
            [x, y, width, height],
        ),
        Event::PopupDone(popup) => none(popup, 1),
        Event::Repositioned(popup, token) => one(popup, 2, token),
        _ => return None,
    };
    Some(words)
}

/// Writes wl_display.error.
fn put_error(bytes: &mut Vec<u8, Global>, object: u32, code: u32, text: &[u8]) -> bool {
    let args = [Arg::Object(object), Arg::Uint(code), Arg::Str(text)];
    put(bytes, 1, 0, &args).is_ok()
}

fn put_global(
    bytes: &mut Vec<u8, Global>,
    registry: u32,
    name: u32,
    interface: Interface,
    version: u32,
) -> bool {
    let args = [
        Arg::Uint(name),
        Arg::Str(name_of(interface)),
        Arg::Uint(version),
    ];
    put(bytes, registry, 0, &args).is_ok()
}

fn put_geometry(bytes: &mut Vec<u8, Global>, output: u32) -> bool {
    let args = [
        Arg::Int(0),
        Arg::Int(0),
        Arg::Int(0),
        Arg::Int(0),
        Arg::Int(0),
        Arg::Str(b"wlframe"),
        Arg::Str(b"framebuffer"),
        Arg::Int(0),
    ];
    put(bytes, output, 0, &args).is_ok()
}

fn put_configure(bytes: &mut Vec<u8, Global>, toplevel: u32, width: i32, height: i32) -> bool {
    let args = [Arg::Int(width), Arg::Int(height), Arg::Array(&[4, 0, 0, 0])];
    put(bytes, toplevel, 0, &args).is_ok()
}

fn put_numbers(bytes: &mut Vec<u8, Global>, event: Event) -> bool {
    match words_of(event) {
        Some(words) => put_words(bytes, &words),
        None => false,
    }
}

/// Writes an event at the end of bytes. False where there is no memory for it.
pub fn put_event(bytes: &mut Vec<u8, Global>, event: Event) -> bool {
    match event {
        Event::NoMemory => put_error(bytes, 1, 2, b"no_memory"),
        Event::Global(registry, name, interface, version) => {
            put_global(bytes, registry, name, interface, version)
        }
        Event::Geometry(output) => put_geometry(bytes, output),
        Event::ToplevelConfigure(toplevel, width, height) => {
            put_configure(bytes, toplevel, width, height)
        }
        _ => put_numbers(bytes, event),
    }
}

/// The bytes of events. None where there is no memory for them.
pub fn told_bytes(alloc: Global, events: &[Event]) -> Option<Vec<u8, Global>> {
    let mut bytes = Vec::new(alloc);
    for event in events {
        if !put_event(&mut bytes, *event) {
            return None;
        }
    }
    Some(bytes)
}

/// The bytes of one wl_display.error, of this object, code and text. None where there is no memory
/// for them.
pub(crate) fn error_bytes(
    alloc: Global,
    object: u32,
    code: u32,
    text: &[u8],
) -> Option<Vec<u8, Global>> {
    let mut bytes = Vec::new(alloc);
    if put_error(&mut bytes, object, code, text) {
        Some(bytes)
    } else {
        None
    }
}
