//! What clients ask, in the protocol's words (wayland.xml and xdg-shell.xml). A request is named as
//! there; where several interfaces have one of its name, and for
//! regions, the interface stands before it. Its fields are the object that is asked, then its
//! arguments, in their order.

use crate::words::{
    Words, four, four_ints, none, one, one_int, put_words, six, three, two, two_ints,
};
use std::alloc::Global;
use wl_wire::{Arg, put};

/// The name of an interface, as it is bound.
#[derive(Clone, Copy)]
pub enum Interface {
    Compositor,
    Subcompositor,
    Shm,
    Output,
    Seat,
    WmBase,
    /// That of the seat without its last letter.
    SeatCutShort,
    /// That of the seat and a NUL.
    SeatAndNul,
}

pub(crate) fn name_of(interface: Interface) -> &'static [u8] {
    match interface {
        Interface::Compositor => b"wl_compositor",
        Interface::Subcompositor => b"wl_subcompositor",
        Interface::Shm => b"wl_shm",
        Interface::Output => b"wl_output",
        Interface::Seat => b"wl_seat",
        Interface::WmBase => b"xdg_wm_base",
        Interface::SeatCutShort => b"wl_sea",
        Interface::SeatAndNul => b"wl_seat\0",
    }
}

/// A request. Objects and new ids are numbers, 0 is the null object. wl_display is the object 1.
#[derive(Clone, Copy)]
pub enum Ask {
    /// wl_display.sync: callback.
    Sync(u32),
    /// wl_display.get_registry: registry.
    GetRegistry(u32),
    /// wl_registry.bind: registry, name, interface, version, id.
    Bind(u32, u32, Interface, u32, u32),
    /// wl_compositor.create_surface: compositor, id.
    CreateSurface(u32, u32),
    /// wl_compositor.create_region: compositor, id.
    CreateRegion(u32, u32),
    /// wl_region.destroy: region.
    RegionDestroy(u32),
    /// wl_region.add: region, x, y, width, height.
    RegionAdd(u32, i32, i32, i32, i32),
    /// wl_region.subtract: region, x, y, width, height.
    RegionSubtract(u32, i32, i32, i32, i32),
    /// wl_surface.destroy: surface.
    SurfaceDestroy(u32),
    /// wl_surface.attach at (0, 0): surface, buffer.
    Attach(u32, u32),
    /// wl_surface.attach: surface, buffer, x, y.
    AttachAt(u32, u32, i32, i32),
    /// wl_surface.damage: surface, x, y, width, height.
    Damage(u32, i32, i32, i32, i32),
    /// wl_surface.frame: surface, callback.
    Frame(u32, u32),
    /// wl_surface.set_opaque_region: surface, region.
    SetOpaqueRegion(u32, u32),
    /// wl_surface.set_input_region: surface, region.
    SetInputRegion(u32, u32),
    /// wl_surface.commit: surface.
    Commit(u32),
    /// wl_surface.set_buffer_transform: surface, transform.
    SetBufferTransform(u32, i32),
    /// wl_surface.set_buffer_scale: surface, scale.
    SetBufferScale(u32, i32),
    /// wl_surface.damage_buffer: surface, x, y, width, height.
    DamageBuffer(u32, i32, i32, i32, i32),
    /// wl_shm.create_pool: shm, id, size.
    CreatePool(u32, u32, i32),
    /// wl_shm_pool.create_buffer: pool, id, offset, width, height, stride, format.
    CreateBuffer(u32, u32, i32, i32, i32, i32, u32),
    /// wl_shm_pool.destroy: pool.
    PoolDestroy(u32),
    /// wl_shm_pool.resize: pool, size.
    PoolResize(u32, i32),
    /// wl_buffer.destroy: buffer.
    BufferDestroy(u32),
    /// wl_subcompositor.destroy: subcompositor.
    SubcompositorDestroy(u32),
    /// wl_subcompositor.get_subsurface: subcompositor, id, surface, parent.
    GetSubsurface(u32, u32, u32, u32),
    /// wl_subsurface.destroy: subsurface.
    SubsurfaceDestroy(u32),
    /// wl_subsurface.set_position: subsurface, x, y.
    SetPosition(u32, i32, i32),
    /// wl_subsurface.place_above: subsurface, sibling.
    PlaceAbove(u32, u32),
    /// wl_subsurface.place_below: subsurface, sibling.
    PlaceBelow(u32, u32),
    /// wl_subsurface.set_sync: subsurface.
    SetSync(u32),
    /// wl_subsurface.set_desync: subsurface.
    SetDesync(u32),
    /// wl_seat.get_pointer: seat, id.
    GetPointer(u32, u32),
    /// wl_seat.get_keyboard: seat, id.
    GetKeyboard(u32, u32),
    /// wl_seat.get_touch: seat, id.
    GetTouch(u32, u32),
    /// wl_pointer.set_cursor: pointer, serial, surface, x, y.
    SetCursor(u32, u32, u32, i32, i32),
    /// xdg_wm_base.destroy: base.
    WmBaseDestroy(u32),
    /// xdg_wm_base.create_positioner: base, id.
    CreatePositioner(u32, u32),
    /// xdg_wm_base.get_xdg_surface: base, id, surface.
    GetXdgSurface(u32, u32, u32),
    /// xdg_wm_base.pong: base, serial.
    Pong(u32, u32),
    /// xdg_positioner.destroy: positioner.
    PositionerDestroy(u32),
    /// xdg_positioner.set_size: positioner, width, height.
    SetSize(u32, i32, i32),
    /// xdg_positioner.set_anchor_rect: positioner, x, y, width, height.
    SetAnchorRect(u32, i32, i32, i32, i32),
    /// xdg_positioner.set_anchor: positioner, anchor.
    SetAnchor(u32, u32),
    /// xdg_positioner.set_gravity: positioner, gravity.
    SetGravity(u32, u32),
    /// xdg_positioner.set_constraint_adjustment: positioner, adjustment.
    SetConstraintAdjustment(u32, u32),
    /// xdg_positioner.set_offset: positioner, x, y.
    SetOffset(u32, i32, i32),
    /// xdg_positioner.set_reactive: positioner.
    SetReactive(u32),
    /// xdg_positioner.set_parent_size: positioner, width, height.
    SetParentSize(u32, i32, i32),
    /// xdg_positioner.set_parent_configure: positioner, serial.
    SetParentConfigure(u32, u32),
    /// xdg_surface.destroy: xdg_surface.
    XdgSurfaceDestroy(u32),
    /// xdg_surface.get_toplevel: xdg_surface, id.
    GetToplevel(u32, u32),
    /// xdg_surface.get_popup: xdg_surface, id, parent, positioner.
    GetPopup(u32, u32, u32, u32),
    /// xdg_surface.set_window_geometry: xdg_surface, x, y, width, height.
    SetWindowGeometry(u32, i32, i32, i32, i32),
    /// xdg_surface.ack_configure: xdg_surface, serial.
    AckConfigure(u32, u32),
    /// xdg_toplevel.destroy: toplevel.
    ToplevelDestroy(u32),
    /// xdg_toplevel.set_parent: toplevel, parent.
    SetParent(u32, u32),
    /// xdg_toplevel.set_title of the text title: toplevel.
    SetTitle(u32),
    /// xdg_toplevel.set_app_id of the text app.id: toplevel.
    SetAppId(u32),
    /// xdg_toplevel.show_window_menu: toplevel, seat, serial, x, y.
    ShowWindowMenu(u32, u32, u32, i32, i32),
    /// xdg_toplevel.move: toplevel, seat, serial.
    Move(u32, u32, u32),
    /// xdg_toplevel.resize: toplevel, seat, serial, edges.
    ToplevelResize(u32, u32, u32, u32),
    /// xdg_toplevel.set_max_size: toplevel, width, height.
    SetMaxSize(u32, i32, i32),
    /// xdg_toplevel.set_min_size: toplevel, width, height.
    SetMinSize(u32, i32, i32),
    /// xdg_toplevel.set_maximized: toplevel.
    SetMaximized(u32),
    /// xdg_toplevel.unset_maximized: toplevel.
    UnsetMaximized(u32),
    /// xdg_toplevel.set_fullscreen: toplevel, output.
    SetFullscreen(u32, u32),
    /// xdg_toplevel.unset_fullscreen: toplevel.
    UnsetFullscreen(u32),
    /// xdg_toplevel.set_minimized: toplevel.
    SetMinimized(u32),
    /// xdg_popup.destroy: popup.
    PopupDestroy(u32),
    /// xdg_popup.grab: popup, seat, serial.
    Grab(u32, u32, u32),
    /// xdg_popup.reposition: popup, positioner, token.
    Reposition(u32, u32, u32),
    /// What the protocol doesn't have: the object, the opcode, and how many of these words follow.
    Other(u32, u16, usize, [u32; 4]),
}

/// The words of a request of wl_display, or of what makes surfaces and buffers. Of any other what
/// `surface_words` has.
fn core_words(ask: Ask) -> Option<Words> {
    let words = match ask {
        Ask::Sync(callback) => one(1, 0, callback),
        Ask::GetRegistry(registry) => one(1, 1, registry),
        Ask::CreateSurface(compositor, id) => one(compositor, 0, id),
        Ask::CreateRegion(compositor, id) => one(compositor, 1, id),
        Ask::RegionDestroy(region) => none(region, 0),
        Ask::RegionAdd(region, x, y, width, height) => four_ints(region, 1, [x, y, width, height]),
        Ask::RegionSubtract(region, x, y, width, height) => four_ints(
            region,
            2,
            [x, y, width, height],
        ),
        Ask::CreatePool(shm, id, size) => two(shm, 0, [id, size.cast_unsigned()]),
        Ask::CreateBuffer(pool, id, offset, width, height, stride, format) => six(
            pool,
            0,
            [
                id,
                offset.cast_unsigned(),
                width.cast_unsigned(),
                height.cast_unsigned(),
                stride.cast_unsigned(),
                format,
            ],
        ),
        Ask::PoolDestroy(pool) => none(pool, 1),
        Ask::PoolResize(pool, size) => one_int(pool, 2, size),
        Ask::BufferDestroy(buffer) => none(buffer, 0),
        Ask::Other(object, opcode, count, it) => Words::new(
            object,
            opcode,
            count,
            [it[0], it[1], it[2], it[3], 0, 0],
        ),
        _ => return surface_words(ask),
    };
    Some(words)
}

/// The words of a request of a surface or a subsurface. Of any other what `shell_words` has.
fn surface_words(ask: Ask) -> Option<Words> {
    let words = match ask {
        Ask::SurfaceDestroy(surface) => none(surface, 0),
        Ask::Attach(surface, buffer) => three(surface, 1, [buffer, 0, 0]),
        Ask::AttachAt(surface, buffer, x, y) => three(
            surface,
            1,
            [buffer, x.cast_unsigned(), y.cast_unsigned()],
        ),
        Ask::Damage(surface, x, y, width, height) => four_ints(surface, 2, [x, y, width, height]),
        Ask::Frame(surface, callback) => one(surface, 3, callback),
        Ask::SetOpaqueRegion(surface, region) => one(surface, 4, region),
        Ask::SetInputRegion(surface, region) => one(surface, 5, region),
        Ask::Commit(surface) => none(surface, 6),
        Ask::SetBufferTransform(surface, transform) => one_int(surface, 7, transform),
        Ask::SetBufferScale(surface, scale) => one_int(surface, 8, scale),
        Ask::DamageBuffer(surface, x, y, width, height) => four_ints(
            surface,
            9,
            [x, y, width, height],
        ),
        Ask::SubcompositorDestroy(subcompositor) => none(subcompositor, 0),
        Ask::GetSubsurface(subcompositor, id, surface, parent) => three(
            subcompositor,
            1,
            [id, surface, parent],
        ),
        Ask::SubsurfaceDestroy(subsurface) => none(subsurface, 0),
        Ask::SetPosition(subsurface, x, y) => two_ints(subsurface, 1, [x, y]),
        Ask::PlaceAbove(subsurface, sibling) => one(subsurface, 2, sibling),
        Ask::PlaceBelow(subsurface, sibling) => one(subsurface, 3, sibling),
        Ask::SetSync(subsurface) => none(subsurface, 4),
        Ask::SetDesync(subsurface) => none(subsurface, 5),
        _ => return shell_words(ask),
    };
    Some(words)
}

/// The words of a request of the seat, its pointer, an xdg_surface or a positioner. Of any other
/// what `window_words` has.
fn shell_words(ask: Ask) -> Option<Words> {
    let words = match ask {
        Ask::GetPointer(seat, id) => one(seat, 0, id),
        Ask::GetKeyboard(seat, id) => one(seat, 1, id),
        Ask::GetTouch(seat, id) => one(seat, 2, id),
        Ask::SetCursor(pointer, serial, surface, x, y) => four(
            pointer,
            0,
            [serial, surface, x.cast_unsigned(), y.cast_unsigned()],
        ),
        Ask::WmBaseDestroy(base) => none(base, 0),
        Ask::CreatePositioner(base, id) => one(base, 1, id),
        Ask::GetXdgSurface(base, id, surface) => two(base, 2, [id, surface]),
        Ask::Pong(base, serial) => one(base, 3, serial),
        Ask::PositionerDestroy(positioner) => none(positioner, 0),
        Ask::SetSize(positioner, width, height) => two_ints(positioner, 1, [width, height]),
        Ask::SetAnchorRect(positioner, x, y, width, height) => four_ints(
            positioner,
            2,
            [x, y, width, height],
        ),
        Ask::SetAnchor(positioner, anchor) => one(positioner, 3, anchor),
        Ask::SetGravity(positioner, gravity) => one(positioner, 4, gravity),
        Ask::SetConstraintAdjustment(positioner, adjustment) => one(positioner, 5, adjustment),
        Ask::SetOffset(positioner, x, y) => two_ints(positioner, 6, [x, y]),
        Ask::SetReactive(positioner) => none(positioner, 7),
        Ask::SetParentSize(positioner, width, height) => two_ints(positioner, 8, [width, height]),
        Ask::SetParentConfigure(positioner, serial) => one(positioner, 9, serial),
        Ask::XdgSurfaceDestroy(xdg_surface) => none(xdg_surface, 0),
        Ask::GetToplevel(xdg_surface, id) => one(xdg_surface, 1, id),
        Ask::GetPopup(xdg_surface, id, parent, positioner) => three(
            xdg_surface,
            2,
            [id, parent, positioner],
        ),
        Ask::SetWindowGeometry(xdg_surface, x, y, width, height) => four_ints(
            xdg_surface,
            3,
            [x, y, width, height],
        ),
        Ask::AckConfigure(xdg_surface, serial) => one(xdg_surface, 4, serial),
        _ => return window_words(ask),
    };
    Some(words)
}

/// The words of a request of a toplevel or a popup. None of any other, and of one with a text.
fn window_words(ask: Ask) -> Option<Words> {
    let words = match ask {
        Ask::ToplevelDestroy(toplevel) => none(toplevel, 0),
        Ask::SetParent(toplevel, parent) => one(toplevel, 1, parent),
        Ask::ShowWindowMenu(toplevel, seat, serial, x, y) => four(
            toplevel,
            4,
            [seat, serial, x.cast_unsigned(), y.cast_unsigned()],
        ),
        Ask::Move(toplevel, seat, serial) => two(toplevel, 5, [seat, serial]),
        Ask::ToplevelResize(toplevel, seat, serial, edges) => three(
            toplevel,
            6,
            [seat, serial, edges],
        ),
        Ask::SetMaxSize(toplevel, width, height) => two_ints(toplevel, 7, [width, height]),
        Ask::SetMinSize(toplevel, width, height) => two_ints(toplevel, 8, [width, height]),
        Ask::SetMaximized(toplevel) => none(toplevel, 9),
        Ask::UnsetMaximized(toplevel) => none(toplevel, 10),
        Ask::SetFullscreen(toplevel, output) => one(toplevel, 11, output),
        Ask::UnsetFullscreen(toplevel) => none(toplevel, 12),
        Ask::SetMinimized(toplevel) => none(toplevel, 13),
        Ask::PopupDestroy(popup) => none(popup, 0),
        Ask::Grab(popup, seat, serial) => two(popup, 1, [seat, serial]),
        Ask::Reposition(popup, positioner, token) => two(popup, 2, [positioner, token]),
        _ => return None,
    };
    Some(words)
}

fn put_bind(
    bytes: &mut Vec<u8, Global>,
    registry: u32,
    name: u32,
    interface: Interface,
    version: u32,
    id: u32,
) -> bool {
    let args = [
        Arg::Uint(name),
        Arg::Str(name_of(interface)),
        Arg::Uint(version),
        Arg::NewId(id),
    ];
    put(bytes, registry, 0, &args).is_ok()
}

fn put_text(bytes: &mut Vec<u8, Global>, object: u32, opcode: u16, text: &[u8]) -> bool {
    put(bytes, object, opcode, &[Arg::Str(text)]).is_ok()
}

fn put_numbers(bytes: &mut Vec<u8, Global>, ask: Ask) -> bool {
    match core_words(ask) {
        Some(words) => put_words(bytes, &words),
        None => false,
    }
}

/// Writes a request at the end of bytes. False where there is no memory for it.
pub fn put_ask(bytes: &mut Vec<u8, Global>, ask: Ask) -> bool {
    match ask {
        Ask::Bind(registry, name, interface, version, id) => {
            put_bind(bytes, registry, name, interface, version, id)
        }
        Ask::SetTitle(toplevel) => put_text(bytes, toplevel, 2, b"title"),
        Ask::SetAppId(toplevel) => put_text(bytes, toplevel, 3, b"app.id"),
        _ => put_numbers(bytes, ask),
    }
}

/// The bytes of requests. None where there is no memory for them.
pub fn bytes_of(alloc: Global, asks: &[Ask]) -> Option<Vec<u8, Global>> {
    let mut bytes = Vec::new(alloc);
    for ask in asks {
        if !put_ask(&mut bytes, *ask) {
            return None;
        }
    }
    Some(bytes)
}
