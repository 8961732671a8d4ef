//! What clients ask for, as values and as bytes.

use std::alloc::Global;
use wl_wire::{Arg, put};

/// A buffer of a client's pool: where its pixels are in the pool's store, its sides and its format.
#[derive(Clone, Copy)]
pub(crate) struct Shape {
    pub offset: i32,
    pub width: i32,
    pub height: i32,
    pub stride: i32,
    /// 0 is argb8888, 1 is xrgb8888.
    pub format: u32,
}

/// The buffers of each client.
const SHAPES: &[Shape] = &[
    Shape {
        offset: 0,
        width: 20,
        height: 14,
        stride: 80,
        format: 0,
    },
    Shape {
        offset: 1120,
        width: 20,
        height: 14,
        stride: 88,
        format: 1,
    },
    Shape {
        offset: 2352,
        width: 20,
        height: 14,
        stride: 80,
        format: 0,
    },
    Shape {
        offset: 3472,
        width: 9,
        height: 15,
        stride: 36,
        format: 1,
    },
    Shape {
        offset: 4012,
        width: 24,
        height: 12,
        stride: 100,
        format: 0,
    },
];

const NO_SHAPE: Shape = Shape {
    offset: 0,
    width: 0,
    height: 0,
    stride: 0,
    format: 0,
};

/// How many buffers each client has.
pub(crate) const BUFFERS: usize = 5;

/// How many bytes the pool of each client has.
pub(crate) const STORE: usize = 5212;

/// The buffer of a number.
pub(crate) fn shape_of(buffer: usize) -> Shape {
    SHAPES.get(buffer).copied().unwrap_or(NO_SHAPE)
}

/// A part of a surface, in its coordinates.
#[derive(Clone, Copy)]
pub(crate) struct Area {
    pub x: i32,
    pub y: i32,
    pub w: i32,
    pub h: i32,
}

/// What is attached: a buffer or none, and by how much the surface moves.
#[derive(Clone, Copy)]
pub(crate) struct Attach {
    pub buffer: Option<usize>,
    pub x: i32,
    pub y: i32,
}

/// Where a positioner places a popup: its offset from the first point of the parent's window
/// geometry, and whether it slides into the output.
#[derive(Clone, Copy)]
pub(crate) struct Spot {
    pub x: i32,
    pub y: i32,
    pub slides: bool,
}

/// A request of a client. Its surfaces are 0 to 3, each with an xdg_surface and a toplevel or popup
/// of its own, or with a wl_subsurface.
#[derive(Clone, Copy)]
pub(crate) enum Request {
    /// One of those that each client begins with, and the binds of wl_compositor and xdg_wm_base at
    /// these versions.
    Start(usize),
    BindCompositor(u32),
    BindShell(u32),
    /// Another registry, or a wl_pointer: the how-manieth.
    GetRegistry(usize),
    GetPointer(usize),
    MakeBuffer(usize),
    DestroyBuffer(usize),
    MakeSurface(usize),
    MakeXdgSurface(usize),
    MakeToplevel(usize),
    Acknowledge(usize, u32),
    Attach(usize, Attach),
    Damage(usize, Area),
    /// In coordinates of the buffer.
    DamageBuffer(usize, Area),
    Turn(usize, u32),
    Scale(usize, i32),
    MakeRegion,
    AddToRegion(Area),
    DestroyRegion,
    /// The region, or none.
    SetOpaque(usize, bool),
    /// The region, of which this is known, or none.
    SetInput(usize, Option<Area>),
    /// A frame callback of the surface, with this new id.
    Frame(usize, u32),
    Commit(usize),
    DestroyToplevel(usize),
    DestroyXdgSurface(usize),
    DestroySurface(usize),
    /// The one surface becomes a subsurface of the other.
    MakeSubsurface(usize, usize),
    SetPosition(usize, i32, i32),
    /// A surface's wl_subsurface is placed above another surface, or below it.
    PlaceAbove(usize, usize),
    PlaceBelow(usize, usize),
    SetSync(usize),
    SetDesync(usize),
    DestroySubsurface(usize),
    /// One of the positioner by which the next popup is placed, or one is placed anew.
    Positioner(Rule),
    /// The one surface has a popup on the other's toplevel or popup, which the positioner places
    /// here.
    MakePopup(usize, usize, Spot),
    /// The popup grabs by this serial.
    Grab(usize, u32),
    /// The popup is to be placed here by the positioner, with this token. None where the positioner
    /// is incomplete.
    Reposition(usize, u32, Option<Spot>),
    DestroyPopup(usize),
    SetGeometry(usize, Area),
    /// The toplevel is moved with the pointer, by this serial of a press.
    Move(usize, u32),
    /// A message to an object that isn't there.
    Mistake,
}

/// A request of a positioner. It places a popup to the right of its offset from the first point of
/// the parent's window geometry, and down from it.
#[derive(Clone, Copy)]
pub(crate) enum Rule {
    Make,
    Size,
    Rectangle,
    Anchor,
    Gravity,
    Offset(i32, i32),
    Slide,
    /// Three without effect.
    Reactive,
    ParentSize(i32, i32),
    ParentConfigure(u32),
    Destroy,
}

/// A message: the object that it is to, its opcode, and how many of the words it has.
#[derive(Clone, Copy)]
struct Words {
    object: u32,
    opcode: u16,
    count: usize,
    words: [u32; 6],
}

/// The registry 2, the wl_shm 4, the wl_subcompositor 6, the wl_seat 7 and the pool 9. Beside them
/// there are the wl_compositor 3 and the xdg_wm_base 5.
const START: &[(u32, u16, &[Arg])] = &[
    (1, 1, &[Arg::NewId(2)]),
    (
        2,
        0,
        &[
            Arg::Uint(3),
            Arg::Str(b"wl_shm"),
            Arg::Uint(1),
            Arg::NewId(4),
        ],
    ),
    (
        2,
        0,
        &[
            Arg::Uint(2),
            Arg::Str(b"wl_subcompositor"),
            Arg::Uint(1),
            Arg::NewId(6),
        ],
    ),
    (4, 0, &[Arg::NewId(9), Arg::Int(5212)]),
    (
        2,
        0,
        &[
            Arg::Uint(5),
            Arg::Str(b"wl_seat"),
            Arg::Uint(1),
            Arg::NewId(7),
        ],
    ),
];

/// How many requests each client begins with.
pub(crate) const STARTS: usize = 5;

const REGION: u32 = 60;

const POSITIONER: u32 = 61;

/// How wide and high each popup is to be.
pub(crate) const POPUP: i32 = 8;

fn id(first: u32, number: usize) -> u32 {
    first.saturating_add(u32::try_from(number).unwrap_or(0))
}

pub(crate) fn surface_id(slot: usize) -> u32 {
    id(20, slot)
}

pub(crate) fn xdg_surface_id(slot: usize) -> u32 {
    id(30, slot)
}

pub(crate) fn toplevel_id(slot: usize) -> u32 {
    id(40, slot)
}

fn subsurface_id(slot: usize) -> u32 {
    id(70, slot)
}

pub(crate) fn popup_id(slot: usize) -> u32 {
    id(80, slot)
}

fn buffer_id(buffer: usize) -> u32 {
    id(50, buffer)
}

fn make_words(object: u32, opcode: u16, count: usize, words: [u32; 6]) -> Words {
    Words {
        object,
        opcode,
        count,
        words,
    }
}

fn bare(object: u32, opcode: u16) -> Words {
    make_words(object, opcode, 0, [0; 6])
}

fn single(object: u32, opcode: u16, word: u32) -> Words {
    make_words(object, opcode, 1, [word, 0, 0, 0, 0, 0])
}

fn pair(object: u32, opcode: u16, first: u32, second: u32) -> Words {
    make_words(object, opcode, 2, [first, second, 0, 0, 0, 0])
}

fn with_area(object: u32, opcode: u16, area: Area) -> Words {
    let Area { x, y, w, h } = area;
    let sides = [
        x.cast_unsigned(),
        y.cast_unsigned(),
        w.cast_unsigned(),
        h.cast_unsigned(),
        0,
        0,
    ];
    make_words(object, opcode, 4, sides)
}

fn make_buffer(buffer: usize) -> Words {
    let shape = shape_of(buffer);
    let all = [
        buffer_id(buffer),
        shape.offset.cast_unsigned(),
        shape.width.cast_unsigned(),
        shape.height.cast_unsigned(),
        shape.stride.cast_unsigned(),
        shape.format,
    ];
    make_words(9, 0, 6, all)
}

fn make_attach(slot: usize, attach: Attach) -> Words {
    let buffer = attach.buffer.map_or(0, |buffer| buffer_id(buffer));
    let all = [
        buffer,
        attach.x.cast_unsigned(),
        attach.y.cast_unsigned(),
        0,
        0,
        0,
    ];
    make_words(surface_id(slot), 1, 3, all)
}

/// The message of a request that isn't one of the first.
fn words_of(request: Request) -> Words {
    match request {
        Request::GetRegistry(number) => single(1, 1, id(1000, number)),
        Request::GetPointer(number) => single(7, 0, id(10, number)),
        Request::MakeBuffer(buffer) => make_buffer(buffer),
        Request::DestroyBuffer(buffer) => bare(buffer_id(buffer), 0),
        Request::MakeSurface(slot) => single(3, 0, surface_id(slot)),
        Request::MakeXdgSurface(slot) => pair(5, 2, xdg_surface_id(slot), surface_id(slot)),
        Request::MakeToplevel(slot) => single(xdg_surface_id(slot), 1, toplevel_id(slot)),
        Request::Acknowledge(slot, serial) => single(xdg_surface_id(slot), 4, serial),
        Request::Attach(slot, buffer) => make_attach(slot, buffer),
        Request::Damage(slot, area) => with_area(surface_id(slot), 2, area),
        Request::DamageBuffer(slot, area) => with_area(surface_id(slot), 9, area),
        Request::Turn(slot, transform) => single(surface_id(slot), 7, transform),
        Request::Scale(slot, scale) => single(surface_id(slot), 8, scale.cast_unsigned()),
        Request::MakeRegion => single(3, 1, REGION),
        Request::AddToRegion(area) => with_area(REGION, 1, area),
        Request::DestroyRegion => bare(REGION, 0),
        Request::SetOpaque(slot, true) => single(surface_id(slot), 4, REGION),
        Request::SetOpaque(slot, false) => single(surface_id(slot), 4, 0),
        Request::SetInput(slot, Some(_)) => single(surface_id(slot), 5, REGION),
        Request::SetInput(slot, None) => single(surface_id(slot), 5, 0),
        Request::Frame(slot, callback) => single(surface_id(slot), 3, callback),
        Request::Commit(slot) => bare(surface_id(slot), 6),
        Request::DestroyToplevel(slot) => bare(toplevel_id(slot), 0),
        Request::Move(slot, serial) => pair(toplevel_id(slot), 5, 7, serial),
        Request::DestroyXdgSurface(slot) => bare(xdg_surface_id(slot), 0),
        Request::DestroySurface(slot) => bare(surface_id(slot), 0),
        Request::MakeSubsurface(..)
        | Request::SetPosition(..)
        | Request::PlaceAbove(..)
        | Request::PlaceBelow(..)
        | Request::SetSync(_)
        | Request::SetDesync(_)
        | Request::DestroySubsurface(_) => words_of_link(request),
        Request::Positioner(rule) => words_of_rule(rule),
        Request::MakePopup(slot, host, _) => make_popup(slot, host),
        Request::Grab(slot, serial) => pair(popup_id(slot), 1, 7, serial),
        Request::Reposition(slot, token, _) => pair(popup_id(slot), 2, POSITIONER, token),
        Request::DestroyPopup(slot) => bare(popup_id(slot), 0),
        Request::SetGeometry(slot, area) => with_area(xdg_surface_id(slot), 3, area),
        Request::Start(_) | Request::BindCompositor(_) | Request::BindShell(_) | Request::Mistake =>
            bare(99, 0),
    }
}

fn make_subsurface(slot: usize, parent: usize) -> Words {
    let all = [
        subsurface_id(slot),
        surface_id(slot),
        surface_id(parent),
        0,
        0,
        0,
    ];
    make_words(6, 1, 3, all)
}

fn make_popup(slot: usize, host: usize) -> Words {
    let all = [popup_id(slot), xdg_surface_id(host), POSITIONER, 0, 0, 0];
    make_words(xdg_surface_id(slot), 2, 3, all)
}

/// The message of a request of the positioner.
fn words_of_rule(rule: Rule) -> Words {
    match rule {
        Rule::Make => single(5, 1, POSITIONER),
        Rule::Size => pair(POSITIONER, 1, POPUP.cast_unsigned(), POPUP.cast_unsigned()),
        Rule::Rectangle => with_area(
            POSITIONER,
            2,
            Area {
                x: 0,
                y: 0,
                w: 1,
                h: 1,
            },
        ),
        Rule::Anchor => single(POSITIONER, 3, 5),
        Rule::Gravity => single(POSITIONER, 4, 8),
        Rule::Offset(x, y) => pair(POSITIONER, 6, x.cast_unsigned(), y.cast_unsigned()),
        Rule::Slide => single(POSITIONER, 5, 3),
        Rule::Reactive => bare(POSITIONER, 7),
        Rule::ParentSize(w, h) => pair(POSITIONER, 8, w.cast_unsigned(), h.cast_unsigned()),
        Rule::ParentConfigure(serial) => single(POSITIONER, 9, serial),
        Rule::Destroy => bare(POSITIONER, 0),
    }
}

/// The message of a request of a wl_subcompositor or a wl_subsurface.
fn words_of_link(request: Request) -> Words {
    match request {
        Request::MakeSubsurface(slot, parent) => make_subsurface(slot, parent),
        Request::SetPosition(slot, x, y) => {
            pair(subsurface_id(slot), 1, x.cast_unsigned(), y.cast_unsigned())
        }
        Request::PlaceAbove(slot, other) => single(subsurface_id(slot), 2, surface_id(other)),
        Request::PlaceBelow(slot, other) => single(subsurface_id(slot), 3, surface_id(other)),
        Request::SetSync(slot) => bare(subsurface_id(slot), 4),
        Request::SetDesync(slot) => bare(subsurface_id(slot), 5),
        Request::DestroySubsurface(slot) => bare(subsurface_id(slot), 0),
        _ => bare(99, 0),
    }
}

fn put_words(out: &mut Vec<u8, Global>, message: &Words) -> bool {
    let [a, b, c, d, e, f] = message.words;
    let all = [
        Arg::Uint(a),
        Arg::Uint(b),
        Arg::Uint(c),
        Arg::Uint(d),
        Arg::Uint(e),
        Arg::Uint(f),
    ];
    let args = all.get(..message.count).unwrap_or(&[]);
    put(out, message.object, message.opcode, args).is_ok()
}

fn put_bind(out: &mut Vec<u8, Global>, name: u32, interface: &[u8], version: u32, id: u32) -> bool {
    let args = [
        Arg::Uint(name),
        Arg::Str(interface),
        Arg::Uint(version),
        Arg::NewId(id),
    ];
    put(out, 2, 0, &args).is_ok()
}

/// Appends the bytes of a request. False where there is no memory for them.
pub(crate) fn put_request(out: &mut Vec<u8, Global>, request: Request) -> bool {
    match request {
        Request::Start(place) => match START.get(place) {
            Some(&(object, opcode, args)) => put(out, object, opcode, args).is_ok(),
            None => true,
        },
        Request::BindCompositor(version) => put_bind(out, 1, b"wl_compositor", version, 3),
        Request::BindShell(version) => put_bind(out, 6, b"xdg_wm_base", version, 5),
        _ => put_words(out, &words_of(request)),
    }
}
