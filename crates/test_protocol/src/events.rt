//! One message of each event, spelled by hand, and the longest events.

use crate::messages::bytes_of;
use std::alloc::Global;
use wl_proto::*;
use wl_wire::{Fixed, PutError};

// An object, an event of it, and the words of the message.
type Written<'a> = (u32, EventBody<'a>, &'a [u32]);

const CORE_EVENTS: &[Written] = &[
    (
        1,
        EventBody::WlDisplay(WlDisplayEvent::Error {
            object_id: 7,
            code: 3,
            message: b"bad",
        }),
        &[1, 0x00180000, 7, 3, 4, 0x00646162],
    ),
    (
        1,
        EventBody::WlDisplay(WlDisplayEvent::DeleteId { id: 14 }),
        &[1, 0x000c0001, 14],
    ),
    (
        2,
        EventBody::WlRegistry(WlRegistryEvent::Global {
            name: 1,
            interface: b"wl_compositor",
            version: 2,
        }),
        &[
            2, 0x00240000, 1, 14, 0x635f6c77, 0x6f706d6f, 0x6f746973, 0x00000072, 2,
        ],
    ),
    (
        21,
        EventBody::WlCallback(WlCallbackEvent::Done { callback_data: 9 }),
        &[21, 0x000c0000, 9],
    ),
    (
        4,
        EventBody::WlShm(WlShmEvent::Format { format: 1 }),
        &[4, 0x000c0000, 1],
    ),
    (
        10,
        EventBody::WlBuffer(WlBufferEvent::Release),
        &[10, 0x00080000],
    ),
];

const OUTPUT_EVENTS: &[Written] = &[
    (
        11,
        EventBody::WlOutput(WlOutputEvent::Geometry {
            x: 0,
            y: 1,
            physical_width: 2,
            physical_height: 3,
            subpixel: 4,
            make: b"ab",
            model: b"cde",
            transform: -1,
        }),
        &[
            11,
            0x00300000,
            0,
            1,
            2,
            3,
            4,
            3,
            0x00006261,
            4,
            0x00656463,
            u32::MAX,
        ],
    ),
    (
        11,
        EventBody::WlOutput(WlOutputEvent::Mode {
            flags: 3,
            width: 640,
            height: 480,
            refresh: 0,
        }),
        &[11, 0x00180001, 3, 640, 480, 0],
    ),
    (
        12,
        EventBody::WlSeat(WlSeatEvent::Capabilities { capabilities: 1 }),
        &[12, 0x000c0000, 1],
    ),
];

const POINTER_EVENTS: &[Written] = &[
    (
        13,
        EventBody::WlPointer(WlPointerEvent::Enter {
            serial: 2,
            surface: 6,
            surface_x: Fixed(3328),
            surface_y: Fixed(-256),
        }),
        &[13, 0x00180000, 2, 6, 3328, 0xffffff00],
    ),
    (
        13,
        EventBody::WlPointer(WlPointerEvent::Leave {
            serial: 5,
            surface: 6,
        }),
        &[13, 0x00100001, 5, 6],
    ),
    (
        13,
        EventBody::WlPointer(WlPointerEvent::Motion {
            time: 12,
            surface_x: Fixed(3328),
            surface_y: Fixed(-256),
        }),
        &[13, 0x00140002, 12, 3328, 0xffffff00],
    ),
    (
        13,
        EventBody::WlPointer(WlPointerEvent::Button {
            serial: 3,
            time: 11,
            button: 272,
            state: 1,
        }),
        &[13, 0x00180003, 3, 11, 272, 1],
    ),
];

const SHELL_EVENTS: &[Written] = &[
    (
        7,
        EventBody::XdgSurface(XdgSurfaceEvent::Configure { serial: 1 }),
        &[7, 0x000c0000, 1],
    ),
    (
        8,
        EventBody::XdgToplevel(XdgToplevelEvent::Configure {
            width: 5,
            height: 6,
            states: &[4, 0, 0, 0],
        }),
        &[8, 0x00180000, 5, 6, 4, 4],
    ),
    (
        17,
        EventBody::XdgPopup(XdgPopupEvent::Configure {
            x: -24,
            y: 40,
            width: 8,
            height: 9,
        }),
        &[17, 0x00180000, 0xffffffe8, 40, 8, 9],
    ),
    (
        17,
        EventBody::XdgPopup(XdgPopupEvent::PopupDone),
        &[17, 0x00080001],
    ),
    (
        17,
        EventBody::XdgPopup(XdgPopupEvent::Repositioned { token: 77 }),
        &[17, 0x000c0002, 77],
    ),
];

const WRITTEN: &[&[Written]] = &[CORE_EVENTS, OUTPUT_EVENTS, POINTER_EVENTS, SHELL_EVENTS];

fn is_size(event: &Event, wanted: usize) -> bool {
    match encoded_size(event) {
        Some(size) => size as usize == wanted,
        None => false,
    }
}

// The event is written as these bytes, and its size is told to be theirs.
fn is_written_as(alloc: Global, event: &Event, bytes: &[u8]) -> bool {
    let mut out = Vec::new(alloc);
    encode(event, &mut out) == Ok(()) && out.as_slice() == bytes && is_size(event, bytes.len())
}

fn is_written(alloc: Global, event: &Event, words: &[u32]) -> bool {
    match bytes_of(alloc, words) {
        Some(bytes) => is_written_as(alloc, event, &bytes),
        None => false,
    }
}

#[test]
fn events_are_written(rt: HostRuntime) {
    for rows in WRITTEN {
        for &(object, body, words) in *rows {
            let event = Event { object, body };
            assert!(rt;
                is_written(rt.alloc(), &event, words),
                "an event of {object}"
            );
        }
    }
}

// The event has as many bytes as a message may have.
fn is_longest(alloc: Global, event: &Event) -> bool {
    let mut out = Vec::new(alloc);
    encode(event, &mut out) == Ok(()) && out.len() == 65_532 && is_size(event, 65_532)
}

// The event has more bytes than a message may have, so nothing is written.
fn is_too_long(alloc: Global, event: &Event) -> bool {
    let mut out = Vec::new(alloc);
    encode(event, &mut out) == Err(PutError::TooLong)
        && out.is_empty()
        && encoded_size(event).is_none()
}

// An event that has a string or an array of any length.
#[derive(Clone, Copy)]
enum Long {
    // An error with this text.
    Error,
    // A global whose interface has this name.
    Global,
    // A configure event of a toplevel in these states.
    Configure,
    // The geometry of an output of this model, of a maker of this name.
    Geometry(&'static [u8]),
}

fn body_of(long: Long, bytes: &[u8]) -> EventBody<'_> {
    match long {
        Long::Error => EventBody::WlDisplay(WlDisplayEvent::Error {
            object_id: 7,
            code: 3,
            message: bytes,
        }),
        Long::Global => EventBody::WlRegistry(WlRegistryEvent::Global {
            name: 1,
            interface: bytes,
            version: 2,
        }),
        Long::Configure => EventBody::XdgToplevel(XdgToplevelEvent::Configure {
            width: 5,
            height: 6,
            states: bytes,
        }),
        Long::Geometry(make) => EventBody::WlOutput(WlOutputEvent::Geometry {
            x: 0,
            y: 1,
            physical_width: 2,
            physical_height: 3,
            subpixel: 4,
            make,
            model: bytes,
            transform: -1,
        }),
    }
}

// A message has at most 65,532 bytes. Of them the header takes 8, a number or an object 4, the
// length of a string or an array 4, and a string ends in a NUL. Each event, the byte that it has so
// many times, and whether it is the longest or too long.
const LONG: &[(Long, u8, usize, bool)] = &[
    (Long::Error, b'a', 65_511, true),
    (Long::Error, b'a', 65_512, false),
    (Long::Global, b'a', 65_511, true),
    (Long::Global, b'a', 65_512, false),
    (Long::Configure, 0, 65_512, true),
    (Long::Configure, 0, 65_513, false),
    (Long::Geometry(b""), b'a', 65_487, true),
    (Long::Geometry(b""), b'a', 65_488, false),
    (Long::Geometry(b"make"), b'a', 65_487, false),
];

fn is_as_long(alloc: Global, long: Long, bytes: &[u8], is_allowed: bool) -> bool {
    let event = Event {
        object: 1,
        body: body_of(long, bytes),
    };
    if is_allowed {
        is_longest(alloc, &event)
    } else {
        is_too_long(alloc, &event)
    }
}

fn has_length(alloc: Global, long: Long, byte: u8, count: usize, is_allowed: bool) -> bool {
    match vec![in alloc; byte; count] {
        Ok(bytes) => is_as_long(alloc, long, &bytes, is_allowed),
        Err(_) => false,
    }
}

#[test]
fn longest_events(rt: HostRuntime) {
    for &(long, byte, count, is_allowed) in LONG {
        assert!(rt;
            has_length(rt.alloc(), long, byte, count, is_allowed),
            "{count}"
        );
    }
}
