//! Whether two requests are the same, field by field.

use wl_proto::*;

pub(crate) fn is_same(found: &Request, wanted: &Request) -> bool {
    match (*found, *wanted) {
        (Request::WlDisplay(found), Request::WlDisplay(wanted)) => wl_display(found, wanted),
        (Request::WlRegistry(found), Request::WlRegistry(wanted)) => wl_registry(found, wanted),
        (Request::WlCompositor(found), Request::WlCompositor(wanted)) => wl_compositor(
            found, wanted,
        ),
        (Request::WlRegion(found), Request::WlRegion(wanted)) => wl_region(found, wanted),
        (Request::WlSurface(found), Request::WlSurface(wanted)) => wl_surface(found, wanted),
        (Request::WlShm(found), Request::WlShm(wanted)) => wl_shm(found, wanted),
        (Request::WlShmPool(found), Request::WlShmPool(wanted)) => wl_shm_pool(found, wanted),
        (Request::WlBuffer(found), Request::WlBuffer(wanted)) => wl_buffer(found, wanted),
        (Request::WlSubcompositor(found), Request::WlSubcompositor(wanted)) => wl_subcompositor(
            found, wanted,
        ),
        (Request::WlSubsurface(found), Request::WlSubsurface(wanted)) => wl_subsurface(
            found, wanted,
        ),
        (Request::WlSeat(found), Request::WlSeat(wanted)) => wl_seat(found, wanted),
        (Request::WlPointer(found), Request::WlPointer(wanted)) => wl_pointer(found, wanted),
        (Request::XdgWmBase(found), Request::XdgWmBase(wanted)) => xdg_wm_base(found, wanted),
        (Request::XdgPositioner(found), Request::XdgPositioner(wanted)) => xdg_positioner(
            found, wanted,
        ),
        (Request::XdgSurface(found), Request::XdgSurface(wanted)) => xdg_surface(found, wanted),
        (Request::XdgToplevel(found), Request::XdgToplevel(wanted)) => xdg_toplevel(found, wanted),
        (Request::XdgPopup(found), Request::XdgPopup(wanted)) => xdg_popup(found, wanted),
        _ => false,
    }
}

fn wl_display(found: WlDisplayRequest, wanted: WlDisplayRequest) -> bool {
    match (found, wanted) {
        (
            WlDisplayRequest::Sync { callback },
            WlDisplayRequest::Sync {
                callback: wanted_callback,
            },
        ) => callback == wanted_callback,
        (
            WlDisplayRequest::GetRegistry { registry },
            WlDisplayRequest::GetRegistry {
                registry: wanted_registry,
            },
        ) => registry == wanted_registry,
        _ => false,
    }
}

fn wl_registry(found: WlRegistryRequest, wanted: WlRegistryRequest) -> bool {
    match (found, wanted) {
        (
            WlRegistryRequest::Bind {
                name,
                interface,
                version,
                id,
            },
            WlRegistryRequest::Bind {
                name: wanted_name,
                interface: wanted_interface,
                version: wanted_version,
                id: wanted_id,
            },
        ) => name == wanted_name
            && interface == wanted_interface
            && version == wanted_version
            && id == wanted_id,
    }
}

fn wl_compositor(found: WlCompositorRequest, wanted: WlCompositorRequest) -> bool {
    match (found, wanted) {
        (
            WlCompositorRequest::CreateSurface { id },
            WlCompositorRequest::CreateSurface { id: wanted_id },
        ) => id == wanted_id,
        (
            WlCompositorRequest::CreateRegion { id },
            WlCompositorRequest::CreateRegion { id: wanted_id },
        ) => id == wanted_id,
        _ => false,
    }
}

fn wl_region(found: WlRegionRequest, wanted: WlRegionRequest) -> bool {
    match (found, wanted) {
        (WlRegionRequest::Destroy, WlRegionRequest::Destroy) => true,
        (
            WlRegionRequest::Add {
                x,
                y,
                width,
                height,
            },
            WlRegionRequest::Add {
                x: wanted_x,
                y: wanted_y,
                width: wanted_width,
                height: wanted_height,
            },
        ) => x == wanted_x && y == wanted_y && width == wanted_width && height == wanted_height,
        (
            WlRegionRequest::Subtract {
                x,
                y,
                width,
                height,
            },
            WlRegionRequest::Subtract {
                x: wanted_x,
                y: wanted_y,
                width: wanted_width,
                height: wanted_height,
            },
        ) => x == wanted_x && y == wanted_y && width == wanted_width && height == wanted_height,
        _ => false,
    }
}

fn wl_surface(found: WlSurfaceRequest, wanted: WlSurfaceRequest) -> bool {
    match (found, wanted) {
        (WlSurfaceRequest::Destroy, WlSurfaceRequest::Destroy) => true,
        (
            WlSurfaceRequest::Attach { buffer, x, y },
            WlSurfaceRequest::Attach {
                buffer: wanted_buffer,
                x: wanted_x,
                y: wanted_y,
            },
        ) => buffer == wanted_buffer && x == wanted_x && y == wanted_y,
        (
            WlSurfaceRequest::Damage {
                x,
                y,
                width,
                height,
            },
            WlSurfaceRequest::Damage {
                x: wanted_x,
                y: wanted_y,
                width: wanted_width,
                height: wanted_height,
            },
        ) => x == wanted_x && y == wanted_y && width == wanted_width && height == wanted_height,
        (
            WlSurfaceRequest::Frame { callback },
            WlSurfaceRequest::Frame {
                callback: wanted_callback,
            },
        ) => callback == wanted_callback,
        (
            WlSurfaceRequest::SetOpaqueRegion { region },
            WlSurfaceRequest::SetOpaqueRegion {
                region: wanted_region,
            },
        ) => region == wanted_region,
        (
            WlSurfaceRequest::SetInputRegion { region },
            WlSurfaceRequest::SetInputRegion {
                region: wanted_region,
            },
        ) => region == wanted_region,
        (WlSurfaceRequest::Commit, WlSurfaceRequest::Commit) => true,
        (
            WlSurfaceRequest::SetBufferTransform { transform },
            WlSurfaceRequest::SetBufferTransform {
                transform: wanted_transform,
            },
        ) => transform == wanted_transform,
        (
            WlSurfaceRequest::SetBufferScale { scale },
            WlSurfaceRequest::SetBufferScale {
                scale: wanted_scale,
            },
        ) => scale == wanted_scale,
        (
            WlSurfaceRequest::DamageBuffer {
                x,
                y,
                width,
                height,
            },
            WlSurfaceRequest::DamageBuffer {
                x: wanted_x,
                y: wanted_y,
                width: wanted_width,
                height: wanted_height,
            },
        ) => x == wanted_x && y == wanted_y && width == wanted_width && height == wanted_height,
        _ => false,
    }
}

fn wl_shm(found: WlShmRequest, wanted: WlShmRequest) -> bool {
    match (found, wanted) {
        (
            WlShmRequest::CreatePool { id, size },
            WlShmRequest::CreatePool {
                id: wanted_id,
                size: wanted_size,
            },
        ) => id == wanted_id && size == wanted_size,
    }
}

fn wl_shm_pool(found: WlShmPoolRequest, wanted: WlShmPoolRequest) -> bool {
    match (found, wanted) {
        (
            WlShmPoolRequest::CreateBuffer {
                id,
                offset,
                width,
                height,
                stride,
                format,
            },
            WlShmPoolRequest::CreateBuffer {
                id: wanted_id,
                offset: wanted_offset,
                width: wanted_width,
                height: wanted_height,
                stride: wanted_stride,
                format: wanted_format,
            },
        ) => id == wanted_id
            && offset == wanted_offset
            && width == wanted_width
            && height == wanted_height
            && stride == wanted_stride
            && format == wanted_format,
        (WlShmPoolRequest::Destroy, WlShmPoolRequest::Destroy) => true,
        (WlShmPoolRequest::Resize { size }, WlShmPoolRequest::Resize { size: wanted_size }) => size
            == wanted_size,
        _ => false,
    }
}

fn wl_buffer(found: WlBufferRequest, wanted: WlBufferRequest) -> bool {
    match (found, wanted) {
        (WlBufferRequest::Destroy, WlBufferRequest::Destroy) => true,
    }
}

fn wl_subcompositor(found: WlSubcompositorRequest, wanted: WlSubcompositorRequest) -> bool {
    match (found, wanted) {
        (WlSubcompositorRequest::Destroy, WlSubcompositorRequest::Destroy) => true,
        (
            WlSubcompositorRequest::GetSubsurface {
                id,
                surface,
                parent,
            },
            WlSubcompositorRequest::GetSubsurface {
                id: wanted_id,
                surface: wanted_surface,
                parent: wanted_parent,
            },
        ) => id == wanted_id && surface == wanted_surface && parent == wanted_parent,
        _ => false,
    }
}

fn wl_subsurface(found: WlSubsurfaceRequest, wanted: WlSubsurfaceRequest) -> bool {
    match (found, wanted) {
        (WlSubsurfaceRequest::Destroy, WlSubsurfaceRequest::Destroy) => true,
        (
            WlSubsurfaceRequest::SetPosition { x, y },
            WlSubsurfaceRequest::SetPosition {
                x: wanted_x,
                y: wanted_y,
            },
        ) => x == wanted_x && y == wanted_y,
        (
            WlSubsurfaceRequest::PlaceAbove { sibling },
            WlSubsurfaceRequest::PlaceAbove {
                sibling: wanted_sibling,
            },
        ) => sibling == wanted_sibling,
        (
            WlSubsurfaceRequest::PlaceBelow { sibling },
            WlSubsurfaceRequest::PlaceBelow {
                sibling: wanted_sibling,
            },
        ) => sibling == wanted_sibling,
        (WlSubsurfaceRequest::SetSync, WlSubsurfaceRequest::SetSync) => true,
        (WlSubsurfaceRequest::SetDesync, WlSubsurfaceRequest::SetDesync) => true,
        _ => false,
    }
}

fn wl_seat(found: WlSeatRequest, wanted: WlSeatRequest) -> bool {
    match (found, wanted) {
        (WlSeatRequest::GetPointer { id }, WlSeatRequest::GetPointer { id: wanted_id }) => id
            == wanted_id,
        (WlSeatRequest::GetKeyboard { id }, WlSeatRequest::GetKeyboard { id: wanted_id }) => id
            == wanted_id,
        (WlSeatRequest::GetTouch { id }, WlSeatRequest::GetTouch { id: wanted_id }) => id
            == wanted_id,
        _ => false,
    }
}

fn wl_pointer(found: WlPointerRequest, wanted: WlPointerRequest) -> bool {
    match (found, wanted) {
        (
            WlPointerRequest::SetCursor {
                serial,
                surface,
                hotspot_x,
                hotspot_y,
            },
            WlPointerRequest::SetCursor {
                serial: wanted_serial,
                surface: wanted_surface,
                hotspot_x: wanted_hotspot_x,
                hotspot_y: wanted_hotspot_y,
            },
        ) => serial == wanted_serial
            && surface == wanted_surface
            && hotspot_x == wanted_hotspot_x
            && hotspot_y == wanted_hotspot_y,
    }
}

fn xdg_wm_base(found: XdgWmBaseRequest, wanted: XdgWmBaseRequest) -> bool {
    match (found, wanted) {
        (XdgWmBaseRequest::Destroy, XdgWmBaseRequest::Destroy) => true,
        (
            XdgWmBaseRequest::CreatePositioner { id },
            XdgWmBaseRequest::CreatePositioner { id: wanted_id },
        ) => id == wanted_id,
        (
            XdgWmBaseRequest::GetXdgSurface { id, surface },
            XdgWmBaseRequest::GetXdgSurface {
                id: wanted_id,
                surface: wanted_surface,
            },
        ) => id == wanted_id && surface == wanted_surface,
        (
            XdgWmBaseRequest::Pong { serial },
            XdgWmBaseRequest::Pong {
                serial: wanted_serial,
            },
        ) => serial == wanted_serial,
        _ => false,
    }
}

fn xdg_positioner(found: XdgPositionerRequest, wanted: XdgPositionerRequest) -> bool {
    match (found, wanted) {
        (XdgPositionerRequest::Destroy, XdgPositionerRequest::Destroy) => true,
        (
            XdgPositionerRequest::SetSize { width, height },
            XdgPositionerRequest::SetSize {
                width: wanted_width,
                height: wanted_height,
            },
        ) => width == wanted_width && height == wanted_height,
        (
            XdgPositionerRequest::SetAnchorRect {
                x,
                y,
                width,
                height,
            },
            XdgPositionerRequest::SetAnchorRect {
                x: wanted_x,
                y: wanted_y,
                width: wanted_width,
                height: wanted_height,
            },
        ) => x == wanted_x && y == wanted_y && width == wanted_width && height == wanted_height,
        (
            XdgPositionerRequest::SetAnchor { anchor },
            XdgPositionerRequest::SetAnchor {
                anchor: wanted_anchor,
            },
        ) => anchor == wanted_anchor,
        (
            XdgPositionerRequest::SetGravity { gravity },
            XdgPositionerRequest::SetGravity {
                gravity: wanted_gravity,
            },
        ) => gravity == wanted_gravity,
        (
            XdgPositionerRequest::SetConstraintAdjustment {
                constraint_adjustment,
            },
            XdgPositionerRequest::SetConstraintAdjustment {
                constraint_adjustment: wanted_constraint_adjustment,
            },
        ) => constraint_adjustment == wanted_constraint_adjustment,
        (
            XdgPositionerRequest::SetOffset { x, y },
            XdgPositionerRequest::SetOffset {
                x: wanted_x,
                y: wanted_y,
            },
        ) => x == wanted_x && y == wanted_y,
        (XdgPositionerRequest::SetReactive, XdgPositionerRequest::SetReactive) => true,
        (
            XdgPositionerRequest::SetParentSize {
                parent_width,
                parent_height,
            },
            XdgPositionerRequest::SetParentSize {
                parent_width: wanted_parent_width,
                parent_height: wanted_parent_height,
            },
        ) => parent_width == wanted_parent_width && parent_height == wanted_parent_height,
        (
            XdgPositionerRequest::SetParentConfigure { serial },
            XdgPositionerRequest::SetParentConfigure {
                serial: wanted_serial,
            },
        ) => serial == wanted_serial,
        _ => false,
    }
}

fn xdg_surface(found: XdgSurfaceRequest, wanted: XdgSurfaceRequest) -> bool {
    match (found, wanted) {
        (XdgSurfaceRequest::Destroy, XdgSurfaceRequest::Destroy) => true,
        (XdgSurfaceRequest::GetToplevel { id }, XdgSurfaceRequest::GetToplevel { id: wanted_id }) =>
            id == wanted_id,
        (
            XdgSurfaceRequest::GetPopup {
                id,
                parent,
                positioner,
            },
            XdgSurfaceRequest::GetPopup {
                id: wanted_id,
                parent: wanted_parent,
                positioner: wanted_positioner,
            },
        ) => id == wanted_id && parent == wanted_parent && positioner == wanted_positioner,
        (
            XdgSurfaceRequest::SetWindowGeometry {
                x,
                y,
                width,
                height,
            },
            XdgSurfaceRequest::SetWindowGeometry {
                x: wanted_x,
                y: wanted_y,
                width: wanted_width,
                height: wanted_height,
            },
        ) => x == wanted_x && y == wanted_y && width == wanted_width && height == wanted_height,
        (
            XdgSurfaceRequest::AckConfigure { serial },
            XdgSurfaceRequest::AckConfigure {
                serial: wanted_serial,
            },
        ) => serial == wanted_serial,
        _ => false,
    }
}

fn xdg_toplevel(found: XdgToplevelRequest, wanted: XdgToplevelRequest) -> bool {
    match (found, wanted) {
        (XdgToplevelRequest::Destroy, XdgToplevelRequest::Destroy) => true,
        (
            XdgToplevelRequest::SetParent { parent },
            XdgToplevelRequest::SetParent {
                parent: wanted_parent,
            },
        ) => parent == wanted_parent,
        (
            XdgToplevelRequest::SetTitle { title },
            XdgToplevelRequest::SetTitle {
                title: wanted_title,
            },
        ) => title == wanted_title,
        (
            XdgToplevelRequest::SetAppId { app_id },
            XdgToplevelRequest::SetAppId {
                app_id: wanted_app_id,
            },
        ) => app_id == wanted_app_id,
        (
            XdgToplevelRequest::ShowWindowMenu { seat, serial, x, y },
            XdgToplevelRequest::ShowWindowMenu {
                seat: wanted_seat,
                serial: wanted_serial,
                x: wanted_x,
                y: wanted_y,
            },
        ) => seat == wanted_seat && serial == wanted_serial && x == wanted_x && y == wanted_y,
        (
            XdgToplevelRequest::Move { seat, serial },
            XdgToplevelRequest::Move {
                seat: wanted_seat,
                serial: wanted_serial,
            },
        ) => seat == wanted_seat && serial == wanted_serial,
        (
            XdgToplevelRequest::Resize {
                seat,
                serial,
                edges,
            },
            XdgToplevelRequest::Resize {
                seat: wanted_seat,
                serial: wanted_serial,
                edges: wanted_edges,
            },
        ) => seat == wanted_seat && serial == wanted_serial && edges == wanted_edges,
        (
            XdgToplevelRequest::SetMaxSize { width, height },
            XdgToplevelRequest::SetMaxSize {
                width: wanted_width,
                height: wanted_height,
            },
        ) => width == wanted_width && height == wanted_height,
        (
            XdgToplevelRequest::SetMinSize { width, height },
            XdgToplevelRequest::SetMinSize {
                width: wanted_width,
                height: wanted_height,
            },
        ) => width == wanted_width && height == wanted_height,
        (XdgToplevelRequest::SetMaximized, XdgToplevelRequest::SetMaximized) => true,
        (XdgToplevelRequest::UnsetMaximized, XdgToplevelRequest::UnsetMaximized) => true,
        (
            XdgToplevelRequest::SetFullscreen { output },
            XdgToplevelRequest::SetFullscreen {
                output: wanted_output,
            },
        ) => output == wanted_output,
        (XdgToplevelRequest::UnsetFullscreen, XdgToplevelRequest::UnsetFullscreen) => true,
        (XdgToplevelRequest::SetMinimized, XdgToplevelRequest::SetMinimized) => true,
        _ => false,
    }
}

fn xdg_popup(found: XdgPopupRequest, wanted: XdgPopupRequest) -> bool {
    match (found, wanted) {
        (XdgPopupRequest::Destroy, XdgPopupRequest::Destroy) => true,
        (
            XdgPopupRequest::Grab { seat, serial },
            XdgPopupRequest::Grab {
                seat: wanted_seat,
                serial: wanted_serial,
            },
        ) => seat == wanted_seat && serial == wanted_serial,
        (
            XdgPopupRequest::Reposition { positioner, token },
            XdgPopupRequest::Reposition {
                positioner: wanted_positioner,
                token: wanted_token,
            },
        ) => positioner == wanted_positioner && token == wanted_token,
        _ => false,
    }
}
