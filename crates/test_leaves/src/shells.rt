use std::alloc::{Allocator, Global};
use test_support::Refusing;
use wl_geom::Rect;
use wl_shell::{Shell, ShellAct, ShellError, Stage};
use wl_surface::SurfaceNo;

const WHOLE: Rect = Rect {
    x: 0,
    y: 0,
    w: 640,
    h: 480,
};

const GEOMETRY: Rect = Rect {
    x: 4,
    y: 5,
    w: 20,
    h: 10,
};

const NO_WIDTH: Rect = Rect {
    x: 4,
    y: 5,
    w: 0,
    h: 10,
};

// Makes an xdg_surface of base 10.
fn get_xdg_surface<A: Allocator + Copy>(
    shell: &mut Shell<A>,
    surface: SurfaceNo,
    id: u32,
    has_role: bool,
    has_buffer: bool,
) -> Result<(), ShellError> {
    shell.get_xdg_surface(surface, id, 10, has_role, has_buffer)
}

fn get_toplevel<A: Allocator + Copy>(
    shell: &mut Shell<A>,
    surface: SurfaceNo,
    id: u32,
    has_other: bool,
) -> Result<(), ShellError> {
    shell.get_toplevel(surface, id, has_other)
}

// Sends a configure to the surface 1.
fn configure<A: Allocator + Copy>(shell: &mut Shell<A>, serial: u32) -> Result<bool, ShellError> {
    shell.configure(1, serial)
}

fn commit<A: Allocator + Copy>(
    shell: &mut Shell<A>,
    surface: SurfaceNo,
    has_buffer: bool,
    serial: u32,
) -> Result<ShellAct, ShellError> {
    shell.on_commit(surface, has_buffer, WHOLE, (0, 0), serial)
}

// Whether what was refused has left the first that was made.
fn has_the_first<A: Allocator>(shell: &Shell<A>) -> bool {
    match shell.get(1) {
        Some(kept) => match kept.toplevel() {
            Some(toplevel) => {
                kept.has_role()
                    && kept.id() == 20
                    && kept.base() == 10
                    && toplevel.id == 21
                    && toplevel.stage == Stage::Fresh
            }
            None => false,
        },
        None => false,
    }
}

fn takes_63_configures<A: Allocator + Copy>(shell: &mut Shell<A>) -> bool {
    for serial in 2..65_u32 {
        if configure(shell, serial) != Ok(true) {
            return false;
        }
    }
    true
}

/// What is done to surface 1 of a shell or asked of it, with what is wanted of it.
#[derive(Clone, Copy)]
enum Row {
    /// It gets an xdg_surface of base 10 with this id. Whether it has a role, and a buffer.
    GetsXdgSurface(u32, bool, bool, Result<(), ShellError>),
    /// It gets a toplevel with this id. Whether it has another role.
    GetsToplevel(u32, bool, Result<(), ShellError>),
    Asks(Rect, Result<(), ShellError>),
    /// A configure with this serial is sent.
    IsConfigured(u32, Result<bool, ShellError>),
    /// Configures with the serials 2 to 64 are sent.
    IsConfigured63,
    Acknowledges(u32, Result<(), ShellError>),
    /// A commit with a buffer or none, at the next serial.
    Commits(bool, u32, Result<ShellAct, ShellError>),
    DestroysToplevel,
    DestroysXdgSurface(Result<(), ShellError>),
    Base(u32, Result<(), ShellError>),
    IsStage(Stage),
    HasGeometry(Option<Rect>),
    IsThere(bool),
    HasTheFirst,
}

// Does what a row says, and tells whether it is as wanted.
fn is_met<A: Allocator + Copy>(shell: &mut Shell<A>, row: &Row) -> bool {
    match *row {
        Row::GetsXdgSurface(id, has_role, has_buffer, wanted) => {
            get_xdg_surface(shell, 1, id, has_role, has_buffer) == wanted
        }
        Row::GetsToplevel(id, has_other, wanted) => {
            get_toplevel(shell, 1, id, has_other) == wanted
        }
        Row::Asks(rect, wanted) => shell.geometry(1, rect) == wanted,
        Row::IsConfigured(serial, wanted) => configure(shell, serial) == wanted,
        Row::IsConfigured63 => takes_63_configures(shell),
        Row::Acknowledges(serial, wanted) => shell.ack(1, serial) == wanted,
        Row::Commits(has_buffer, serial, wanted) => {
            commit(shell, 1, has_buffer, serial) == wanted
        }
        Row::DestroysToplevel => destroys_toplevel(shell),
        Row::DestroysXdgSurface(wanted) => shell.destroy_xdg_surface(1) == wanted,
        _ => is_seen(shell, row),
    }
}

fn destroys_toplevel<A: Allocator + Copy>(shell: &mut Shell<A>) -> bool {
    shell.destroy_toplevel(1);
    true
}

fn is_stage<A: Allocator>(shell: &Shell<A>, wanted: Stage) -> bool {
    match shell.get(1) {
        Some(kept) => kept.stage() == Some(wanted),
        None => false,
    }
}

fn geometry<A: Allocator>(shell: &Shell<A>) -> Option<Rect> {
    shell.get(1)?.window_geometry()
}

// Whether it is as a row says that does nothing.
fn is_seen<A: Allocator>(shell: &Shell<A>, row: &Row) -> bool {
    match *row {
        Row::Base(base, wanted) => shell.check_base(base) == wanted,
        Row::IsStage(wanted) => is_stage(shell, wanted),
        Row::HasGeometry(wanted) => geometry(shell) == wanted,
        Row::IsThere(wanted) => shell.get(1).is_some() == wanted,
        Row::HasTheFirst => has_the_first(shell),
        _ => false,
    }
}

// Toplevel 21 asks for a geometry, is configured by its first commit, mapped, unmapped and
// destroyed.
const FROM_ITS_MAKING_ON: &[Row] = &[
    Row::GetsXdgSurface(20, false, false, Ok(())),
    Row::GetsToplevel(21, false, Ok(())),
    Row::Asks(GEOMETRY, Ok(())),
    Row::IsConfigured(6, Ok(false)),
    Row::Commits(false, 7, Ok(ShellAct::Configure(None))),
    Row::IsStage(Stage::Waiting),
    Row::HasGeometry(Some(GEOMETRY)),
    Row::Commits(true, 8, Err(ShellError::UnconfiguredBuffer)),
    Row::IsConfigured(8, Ok(true)),
    Row::Acknowledges(9, Err(ShellError::InvalidSerial)),
    Row::Acknowledges(8, Ok(())),
    Row::Acknowledges(7, Err(ShellError::InvalidSerial)),
    Row::Commits(true, 9, Ok(ShellAct::Map)),
    Row::IsStage(Stage::Mapped),
    Row::Commits(true, 9, Ok(ShellAct::Nothing)),
    Row::Commits(false, 9, Ok(ShellAct::Unmap)),
    Row::IsStage(Stage::Fresh),
    Row::HasGeometry(None),
    Row::Base(10, Err(ShellError::DefunctSurfaces)),
    Row::DestroysXdgSurface(Err(ShellError::DefunctRoleObject)),
    Row::DestroysToplevel,
    Row::DestroysXdgSurface(Ok(())),
    Row::Base(10, Ok(())),
    Row::IsThere(false),
];

// An xdg_surface, then what is asked of it before it has a role, then its toplevel. What is refused
// leaves the first that was made.
const REFUSED: &[Row] = &[
    Row::GetsXdgSurface(20, true, true, Err(ShellError::Role)),
    Row::GetsXdgSurface(20, false, true, Err(ShellError::InvalidSurfaceState)),
    Row::GetsXdgSurface(20, false, false, Ok(())),
    Row::GetsXdgSurface(22, false, false, Err(ShellError::Role)),
    Row::Asks(GEOMETRY, Err(ShellError::NotConstructed)),
    Row::Acknowledges(1, Err(ShellError::NotConstructed)),
    Row::Commits(false, 1, Ok(ShellAct::Nothing)),
    Row::Commits(true, 1, Err(ShellError::UnconfiguredBuffer)),
    Row::GetsToplevel(21, true, Err(ShellError::Role)),
    Row::GetsToplevel(21, false, Ok(())),
    Row::GetsToplevel(23, true, Err(ShellError::AlreadyConstructed)),
    Row::Asks(NO_WIDTH, Err(ShellError::InvalidSize)),
    Row::Base(11, Ok(())),
    Row::HasTheFirst,
];

const NO_XDG_SURFACE: &[Row] = &[
    Row::GetsToplevel(21, false, Err(ShellError::NotConstructed)),
    Row::Asks(GEOMETRY, Err(ShellError::NotConstructed)),
    Row::Acknowledges(1, Err(ShellError::NotConstructed)),
    Row::Commits(true, 1, Ok(ShellAct::Nothing)),
    Row::IsConfigured(1, Ok(false)),
    Row::DestroysToplevel,
    Row::DestroysXdgSurface(Ok(())),
];

const CONFIGURE_65: &[Row] = &[
    Row::GetsXdgSurface(20, false, false, Ok(())),
    Row::GetsToplevel(21, false, Ok(())),
    Row::Commits(false, 1, Ok(ShellAct::Configure(None))),
    Row::IsConfigured63,
    Row::IsConfigured(65, Err(ShellError::TooMany)),
    Row::Acknowledges(63, Ok(())),
    Row::Acknowledges(62, Err(ShellError::InvalidSerial)),
    Row::Acknowledges(64, Ok(())),
];

const CASES: &[(&str, &[Row])] = &[
    ("a toplevel from its making on", FROM_ITS_MAKING_ON),
    ("what is refused", REFUSED),
    ("no xdg_surface", NO_XDG_SURFACE),
    ("sixty-four configures wait", CONFIGURE_65),
];

// The first row that isn't met.
fn missed<A: Allocator + Copy>(shell: &mut Shell<A>, rows: &[Row]) -> Option<usize> {
    for (place, row) in rows.iter().enumerate() {
        if !is_met(shell, row) {
            return Some(place);
        }
    }
    None
}

fn missed_by(alloc: Global, rows: &[Row]) -> Option<usize> {
    let mut shell = Shell::new(alloc);
    missed(&mut shell, rows)
}

// The case and its row that are the first not to be met.
fn missed_case(alloc: Global, cases: &[(&str, &[Row])]) -> Option<(usize, usize)> {
    for (place, &(_, rows)) in cases.iter().enumerate() {
        if let Some(row) = missed_by(alloc, rows) {
            return Some((place, row));
        }
    }
    None
}

#[test]
fn shells_are_as_worked(rt: HostRuntime) {
    assert_eq!(rt; missed_case(rt.alloc(), CASES), None);
}

// Makes xdg_surfaces up to the first that is refused as out of memory: how many were made. None
// where another error comes.
fn made<A: Allocator + Copy>(shell: &mut Shell<A>) -> Option<usize> {
    for surface in 0..1000_usize {
        match get_xdg_surface(shell, surface, surface as u32, false, false) {
            Ok(()) => {}
            Err(ShellError::Memory) => return Some(surface),
            Err(_) => return None,
        }
    }
    None
}

// Whether the next is refused once more, and those that were made, and no other, are there.
fn has_only<A: Allocator + Copy>(shell: &mut Shell<A>, made: usize) -> bool {
    for surface in 0..made {
        if shell.get(surface).is_none() {
            return false;
        }
    }
    get_xdg_surface(shell, made, 9, false, false) == Err(ShellError::Memory)
        && shell.get(made).is_none()
}

// Whether surface 0 is still served where no memory is left.
fn is_served<A: Allocator + Copy>(shell: &mut Shell<A>) -> bool {
    get_toplevel(shell, 0, 9, false) == Ok(())
        && commit(shell, 0, false, 1) == Ok(ShellAct::Configure(None))
}

// Whether xdg_surfaces are made up to a refusal, and those stay.
fn keeps_what_was_made<A: Allocator + Copy>(shell: &mut Shell<A>) -> bool {
    match made(shell) {
        Some(made) => has_only(shell, made) && (made == 0 || is_served(shell)),
        None => false,
    }
}

fn makes_up_to_a_refusal<B: Allocator + Copy>(alloc: B, served: u64) -> bool {
    let heap = Refusing::new(alloc, served);
    let mut shell = Shell::new(&heap);
    keeps_what_was_made(&mut shell)
}

#[test]
fn without_memory_nothing_changes(rt: HostRuntime) {
    for served in 0..20_u64 {
        assert!(rt; makes_up_to_a_refusal(rt.alloc(), served), "{served}");
    }
}
