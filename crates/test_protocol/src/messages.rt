//! One message of each request, spelled by hand.

use crate::requests::is_same;
use std::alloc::Global;
use wl_proto::*;

// An interface, an opcode and the words of a body, and the request that they are at version 2, or
// why they are none.
type Read<'a> = (Interface, u16, &'a [u32], Result<Request<'a>, ProtoError>);

// The bytes of words. None where there is no memory for them.
pub(crate) fn bytes_of(alloc: Global, words: &[u32]) -> Option<Vec<u8, Global>> {
    let mut bytes = Vec::new(alloc);
    for word in words {
        let _ = bytes.extend_from_slice(&word.to_le_bytes());
    }
    if bytes.len() / 4 == words.len() {
        Some(bytes)
    } else {
        None
    }
}

fn says(
    interface: Interface,
    version: u32,
    opcode: u16,
    body: &[u8],
    wanted: &Result<Request, ProtoError>,
) -> bool {
    match (decode(interface, version, opcode, body), wanted) {
        (Ok(request), Ok(wanted)) => is_same(&request, wanted),
        (Err(fault), Err(wanted)) => fault == *wanted,
        _ => false,
    }
}

fn is_read(alloc: Global, version: u32, read: &Read) -> bool {
    let (interface, opcode, words, wanted) = read;
    match bytes_of(alloc, words) {
        Some(body) => says(*interface, version, *opcode, &body, wanted),
        None => false,
    }
}

const DISPLAY_AND_REGISTRY: &[Read] = &[
    (
        Interface::WlDisplay,
        0,
        &[3],
        Ok(Request::WlDisplay(WlDisplayRequest::Sync { callback: 3 })),
    ),
    (
        Interface::WlDisplay,
        1,
        &[2],
        Ok(Request::WlDisplay(WlDisplayRequest::GetRegistry { registry: 2 })),
    ),
    // "wl_shm" has six bytes and a NUL.
    (
        Interface::WlRegistry,
        0,
        &[3, 7, 0x735f6c77, 0x00006d68, 1, 4],
        Ok(Request::WlRegistry(WlRegistryRequest::Bind {
            name: 3,
            interface: &[119, 108, 95, 115, 104, 109],
            version: 1,
            id: 4,
        })),
    ),
    (
        Interface::WlRegistry,
        0,
        &[3, 0, 1, 4],
        Err(ProtoError::BadArgs),
    ),
    (Interface::WlDisplay, 0, &[3, 0], Err(ProtoError::BadArgs)),
    (Interface::WlDisplay, 2, &[3], Err(ProtoError::NoMethod)),
    (Interface::WlCallback, 0, &[], Err(ProtoError::NoMethod)),
    (Interface::WlOutput, 0, &[], Err(ProtoError::NoMethod)),
];

const COMPOSITOR_AND_REGIONS: &[Read] = &[
    (
        Interface::WlCompositor,
        0,
        &[6],
        Ok(Request::WlCompositor(WlCompositorRequest::CreateSurface { id: 6 })),
    ),
    (
        Interface::WlCompositor,
        1,
        &[14],
        Ok(Request::WlCompositor(WlCompositorRequest::CreateRegion { id: 14 })),
    ),
    (
        Interface::WlRegion,
        0,
        &[],
        Ok(Request::WlRegion(WlRegionRequest::Destroy)),
    ),
    (
        Interface::WlRegion,
        1,
        &[1, 2, 3, 4],
        Ok(Request::WlRegion(WlRegionRequest::Add {
            x: 1,
            y: 2,
            width: 3,
            height: 4,
        })),
    ),
    (
        Interface::WlRegion,
        2,
        &[u32::MAX, 2, 3, 4],
        Ok(Request::WlRegion(WlRegionRequest::Subtract {
            x: -1,
            y: 2,
            width: 3,
            height: 4,
        })),
    ),
];

const SURFACES: &[Read] = &[
    (
        Interface::WlSurface,
        0,
        &[],
        Ok(Request::WlSurface(WlSurfaceRequest::Destroy)),
    ),
    (
        Interface::WlSurface,
        1,
        &[10, 3, u32::MAX],
        Ok(Request::WlSurface(WlSurfaceRequest::Attach {
            buffer: 10,
            x: 3,
            y: -1,
        })),
    ),
    (
        Interface::WlSurface,
        2,
        &[0, 0, 40, 41],
        Ok(Request::WlSurface(WlSurfaceRequest::Damage {
            x: 0,
            y: 0,
            width: 40,
            height: 41,
        })),
    ),
    (
        Interface::WlSurface,
        3,
        &[14],
        Ok(Request::WlSurface(WlSurfaceRequest::Frame { callback: 14 })),
    ),
    (
        Interface::WlSurface,
        4,
        &[0],
        Ok(Request::WlSurface(WlSurfaceRequest::SetOpaqueRegion { region: 0 })),
    ),
    (
        Interface::WlSurface,
        5,
        &[15],
        Ok(Request::WlSurface(WlSurfaceRequest::SetInputRegion { region: 15 })),
    ),
    (
        Interface::WlSurface,
        6,
        &[],
        Ok(Request::WlSurface(WlSurfaceRequest::Commit)),
    ),
    (
        Interface::WlSurface,
        7,
        &[9],
        Ok(Request::WlSurface(WlSurfaceRequest::SetBufferTransform { transform: 9 })),
    ),
];

const BUFFERS: &[Read] = &[
    (
        Interface::WlShm,
        0,
        &[9, 12800],
        Ok(Request::WlShm(WlShmRequest::CreatePool { id: 9, size: 12800 })),
    ),
    (
        Interface::WlShmPool,
        0,
        &[10, 6400, 40, 41, 160, 7],
        Ok(Request::WlShmPool(WlShmPoolRequest::CreateBuffer {
            id: 10,
            offset: 6400,
            width: 40,
            height: 41,
            stride: 160,
            format: 7,
        })),
    ),
    (
        Interface::WlShmPool,
        1,
        &[],
        Ok(Request::WlShmPool(WlShmPoolRequest::Destroy)),
    ),
    (
        Interface::WlShmPool,
        2,
        &[u32::MAX],
        Ok(Request::WlShmPool(WlShmPoolRequest::Resize { size: -1 })),
    ),
    (
        Interface::WlBuffer,
        0,
        &[],
        Ok(Request::WlBuffer(WlBufferRequest::Destroy)),
    ),
];

const SUBSURFACES: &[Read] = &[
    (
        Interface::WlSubcompositor,
        0,
        &[],
        Ok(Request::WlSubcompositor(WlSubcompositorRequest::Destroy)),
    ),
    (
        Interface::WlSubcompositor,
        1,
        &[16, 14, 6],
        Ok(Request::WlSubcompositor(WlSubcompositorRequest::GetSubsurface {
            id: 16,
            surface: 14,
            parent: 6,
        })),
    ),
    (
        Interface::WlSubsurface,
        0,
        &[],
        Ok(Request::WlSubsurface(WlSubsurfaceRequest::Destroy)),
    ),
    (
        Interface::WlSubsurface,
        1,
        &[4, 5],
        Ok(Request::WlSubsurface(WlSubsurfaceRequest::SetPosition { x: 4, y: 5 })),
    ),
    (
        Interface::WlSubsurface,
        2,
        &[6],
        Ok(Request::WlSubsurface(WlSubsurfaceRequest::PlaceAbove { sibling: 6 })),
    ),
    (
        Interface::WlSubsurface,
        3,
        &[6],
        Ok(Request::WlSubsurface(WlSubsurfaceRequest::PlaceBelow { sibling: 6 })),
    ),
    (
        Interface::WlSubsurface,
        4,
        &[],
        Ok(Request::WlSubsurface(WlSubsurfaceRequest::SetSync)),
    ),
    (
        Interface::WlSubsurface,
        5,
        &[],
        Ok(Request::WlSubsurface(WlSubsurfaceRequest::SetDesync)),
    ),
];

const SEATS: &[Read] = &[
    (
        Interface::WlSeat,
        0,
        &[13],
        Ok(Request::WlSeat(WlSeatRequest::GetPointer { id: 13 })),
    ),
    (
        Interface::WlSeat,
        1,
        &[13],
        Ok(Request::WlSeat(WlSeatRequest::GetKeyboard { id: 13 })),
    ),
    (
        Interface::WlSeat,
        2,
        &[13],
        Ok(Request::WlSeat(WlSeatRequest::GetTouch { id: 13 })),
    ),
    (
        Interface::WlPointer,
        0,
        &[2, 0, 3, 4],
        Ok(Request::WlPointer(WlPointerRequest::SetCursor {
            serial: 2,
            surface: 0,
            hotspot_x: 3,
            hotspot_y: 4,
        })),
    ),
];

const SHELL: &[Read] = &[
    (
        Interface::XdgWmBase,
        0,
        &[],
        Ok(Request::XdgWmBase(XdgWmBaseRequest::Destroy)),
    ),
    (
        Interface::XdgWmBase,
        1,
        &[16],
        Ok(Request::XdgWmBase(XdgWmBaseRequest::CreatePositioner { id: 16 })),
    ),
    (
        Interface::XdgWmBase,
        2,
        &[7, 6],
        Ok(Request::XdgWmBase(XdgWmBaseRequest::GetXdgSurface { id: 7, surface: 6 })),
    ),
    (
        Interface::XdgWmBase,
        3,
        &[5],
        Ok(Request::XdgWmBase(XdgWmBaseRequest::Pong { serial: 5 })),
    ),
    (
        Interface::XdgSurface,
        0,
        &[],
        Ok(Request::XdgSurface(XdgSurfaceRequest::Destroy)),
    ),
    (
        Interface::XdgSurface,
        1,
        &[8],
        Ok(Request::XdgSurface(XdgSurfaceRequest::GetToplevel { id: 8 })),
    ),
    (
        Interface::XdgSurface,
        2,
        &[17, 7, 16],
        Ok(Request::XdgSurface(XdgSurfaceRequest::GetPopup {
            id: 17,
            parent: 7,
            positioner: 16,
        })),
    ),
    (
        Interface::XdgSurface,
        3,
        &[4, 5, 32, 33],
        Ok(Request::XdgSurface(XdgSurfaceRequest::SetWindowGeometry {
            x: 4,
            y: 5,
            width: 32,
            height: 33,
        })),
    ),
    (
        Interface::XdgSurface,
        4,
        &[1],
        Ok(Request::XdgSurface(XdgSurfaceRequest::AckConfigure { serial: 1 })),
    ),
];

const POSITIONERS_AND_POPUPS: &[Read] = &[
    (
        Interface::XdgPositioner,
        0,
        &[],
        Ok(Request::XdgPositioner(XdgPositionerRequest::Destroy)),
    ),
    (
        Interface::XdgPositioner,
        1,
        &[8, 9],
        Ok(Request::XdgPositioner(XdgPositionerRequest::SetSize {
            width: 8,
            height: 9,
        })),
    ),
    (
        Interface::XdgPositioner,
        2,
        &[0, 1, 2, 3],
        Ok(Request::XdgPositioner(XdgPositionerRequest::SetAnchorRect {
            x: 0,
            y: 1,
            width: 2,
            height: 3,
        })),
    ),
    (
        Interface::XdgPositioner,
        3,
        &[9],
        Ok(Request::XdgPositioner(XdgPositionerRequest::SetAnchor { anchor: 9 })),
    ),
    (
        Interface::XdgPositioner,
        4,
        &[8],
        Ok(Request::XdgPositioner(XdgPositionerRequest::SetGravity { gravity: 8 })),
    ),
    (
        Interface::XdgPositioner,
        5,
        &[63],
        Ok(Request::XdgPositioner(XdgPositionerRequest::SetConstraintAdjustment {
            constraint_adjustment: 63,
        })),
    ),
    (
        Interface::XdgPositioner,
        6,
        &[1, 2],
        Ok(Request::XdgPositioner(XdgPositionerRequest::SetOffset { x: 1, y: 2 })),
    ),
    (
        Interface::XdgPopup,
        0,
        &[],
        Ok(Request::XdgPopup(XdgPopupRequest::Destroy)),
    ),
    (
        Interface::XdgPopup,
        1,
        &[12, 3],
        Ok(Request::XdgPopup(XdgPopupRequest::Grab {
            seat: 12,
            serial: 3,
        })),
    ),
];

const TOPLEVELS: &[Read] = &[
    (
        Interface::XdgToplevel,
        0,
        &[],
        Ok(Request::XdgToplevel(XdgToplevelRequest::Destroy)),
    ),
    (
        Interface::XdgToplevel,
        1,
        &[0],
        Ok(Request::XdgToplevel(XdgToplevelRequest::SetParent { parent: 0 })),
    ),
    // "hi" and "a" with their NULs; what fills up the word is free.
    (
        Interface::XdgToplevel,
        2,
        &[3, 0xff006968],
        Ok(Request::XdgToplevel(XdgToplevelRequest::SetTitle { title: &[104, 105] })),
    ),
    (
        Interface::XdgToplevel,
        3,
        &[2, 0x00000061],
        Ok(Request::XdgToplevel(XdgToplevelRequest::SetAppId { app_id: &[97] })),
    ),
    (
        Interface::XdgToplevel,
        4,
        &[12, 3, 4, 5],
        Ok(Request::XdgToplevel(XdgToplevelRequest::ShowWindowMenu {
            seat: 12,
            serial: 3,
            x: 4,
            y: 5,
        })),
    ),
    (
        Interface::XdgToplevel,
        5,
        &[12, 3],
        Ok(Request::XdgToplevel(XdgToplevelRequest::Move {
            seat: 12,
            serial: 3,
        })),
    ),
    (
        Interface::XdgToplevel,
        6,
        &[12, 3, 99],
        Ok(Request::XdgToplevel(XdgToplevelRequest::Resize {
            seat: 12,
            serial: 3,
            edges: 99,
        })),
    ),
    (
        Interface::XdgToplevel,
        7,
        &[1, 2],
        Ok(Request::XdgToplevel(XdgToplevelRequest::SetMaxSize {
            width: 1,
            height: 2,
        })),
    ),
    (
        Interface::XdgToplevel,
        8,
        &[1, 2],
        Ok(Request::XdgToplevel(XdgToplevelRequest::SetMinSize {
            width: 1,
            height: 2,
        })),
    ),
];

const STATES_OF_TOPLEVELS: &[Read] = &[
    (
        Interface::XdgToplevel,
        9,
        &[],
        Ok(Request::XdgToplevel(XdgToplevelRequest::SetMaximized)),
    ),
    (
        Interface::XdgToplevel,
        10,
        &[],
        Ok(Request::XdgToplevel(XdgToplevelRequest::UnsetMaximized)),
    ),
    (
        Interface::XdgToplevel,
        11,
        &[0],
        Ok(Request::XdgToplevel(XdgToplevelRequest::SetFullscreen { output: 0 })),
    ),
    (
        Interface::XdgToplevel,
        12,
        &[],
        Ok(Request::XdgToplevel(XdgToplevelRequest::UnsetFullscreen)),
    ),
    (
        Interface::XdgToplevel,
        13,
        &[],
        Ok(Request::XdgToplevel(XdgToplevelRequest::SetMinimized)),
    ),
    (Interface::XdgToplevel, 14, &[], Err(ProtoError::NoMethod)),
];

const READS: &[&[Read]] = &[
    DISPLAY_AND_REGISTRY,
    COMPOSITOR_AND_REGIONS,
    SURFACES,
    BUFFERS,
    SUBSURFACES,
    SEATS,
    SHELL,
    POSITIONERS_AND_POPUPS,
    TOPLEVELS,
    STATES_OF_TOPLEVELS,
];

#[test]
fn requests_are_read(rt: HostRuntime) {
    for rows in READS {
        for read in *rows {
            assert!(rt;
                is_read(rt.alloc(), 2, read),
                "request {} of {:?}",
                read.1,
                read.0
            );
        }
    }
}

const LATER_OF_SURFACES: &[(u32, Read)] = &[
    (
        2,
        (
            Interface::WlSurface,
            7,
            &[1],
            Ok(Request::WlSurface(WlSurfaceRequest::SetBufferTransform { transform: 1 })),
        ),
    ),
    (
        3,
        (
            Interface::WlSurface,
            8,
            &[0xffff_fffe],
            Ok(Request::WlSurface(WlSurfaceRequest::SetBufferScale { scale: -2 })),
        ),
    ),
    (
        4,
        (
            Interface::WlSurface,
            9,
            &[2, 0xffff_ffff, 40, 41],
            Ok(Request::WlSurface(WlSurfaceRequest::DamageBuffer {
                x: 2,
                y: -1,
                width: 40,
                height: 41,
            })),
        ),
    ),
];

const LATER_OF_POPUPS: &[(u32, Read)] = &[
    (
        3,
        (
            Interface::XdgPositioner,
            7,
            &[],
            Ok(Request::XdgPositioner(XdgPositionerRequest::SetReactive)),
        ),
    ),
    (
        3,
        (
            Interface::XdgPositioner,
            8,
            &[40, 0xffff_ffff],
            Ok(Request::XdgPositioner(XdgPositionerRequest::SetParentSize {
                parent_width: 40,
                parent_height: -1,
            })),
        ),
    ),
    (
        3,
        (
            Interface::XdgPositioner,
            9,
            &[5],
            Ok(Request::XdgPositioner(XdgPositionerRequest::SetParentConfigure { serial: 5 })),
        ),
    ),
    (
        3,
        (
            Interface::XdgPopup,
            2,
            &[16, 77],
            Ok(Request::XdgPopup(XdgPopupRequest::Reposition {
                positioner: 16,
                token: 77,
            })),
        ),
    ),
];

// Requests that came with a later version than the first: the version, and how they are read from
// it on.
const LATER: &[&[(u32, Read)]] = &[LATER_OF_SURFACES, LATER_OF_POPUPS];

const VERSIONS: &[u32] = &[1, 2, 3, 4];

// At an earlier version there is no such request.
fn is_as_its_version_has_it(alloc: Global, version: u32, since: u32, read: &Read) -> bool {
    let (interface, opcode, words, wanted) = *read;
    if version < since {
        is_read(
            alloc,
            version,
            &(interface, opcode, words, Err(ProtoError::NoMethod)),
        )
    } else {
        is_read(alloc, version, &(interface, opcode, words, wanted))
    }
}

#[test]
fn requests_of_later_versions(rt: HostRuntime) {
    for rows in LATER {
        for (since, read) in *rows {
            for &version in VERSIONS {
                assert!(rt;
                    is_as_its_version_has_it(rt.alloc(), version, *since, read),
                    "request {} of {:?} at version {version}",
                    read.1,
                    read.0
                );
            }
        }
    }
}
