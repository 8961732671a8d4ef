use std::alloc::{Allocator, Global};
use test_support::Refusing;
use wl_geom::Rect;
use wl_shell::{NewPopup, Placed, Positioner, Shell, ShellAct, ShellError};

const OUTPUT: Rect = Rect {
    x: 0,
    y: 0,
    w: 64,
    h: 64,
};

const ANCHOR: Rect = Rect {
    x: 0,
    y: 0,
    w: 40,
    h: 40,
};

// Where the popup is placed at its parent's lower right corner, and by offsets of -8 and of -16.
const CORNER: Placed = Placed {
    x: 40,
    y: 40,
    w: 8,
    h: 8,
};

const NEAR: Placed = Placed {
    x: 32,
    y: 32,
    w: 8,
    h: 8,
};

const NEARER: Placed = Placed {
    x: 24,
    y: 24,
    w: 8,
    h: 8,
};

type Answer = Result<Option<Placed>, ShellError>;

/// What is done to the popup of surface 2 or asked of it, with what is wanted of it.
#[derive(Clone, Copy)]
enum Row {
    /// It is placed anew by this offset. The serial of its configure.
    Repositions(i32, u32, Answer),
    /// The same by a positioner that isn't complete.
    RepositionsIncomplete(u32, Answer),
    /// It is placed anew with the serials 3 to 66.
    Repositions64,
    /// A surface without a popup is asked to be placed anew, by a positioner that isn't complete.
    RepositionsNone(usize),
    /// A commit with a buffer or none, at the next serial.
    Commits(bool, u32, Result<ShellAct, ShellError>),
    Acknowledges(u32, Result<(), ShellError>),
    Dismisses,
    /// Where it stands, and where the next commit puts it.
    Stands(Option<Placed>, Option<Placed>),
}

// Places a popup of 8 by 8 below and to the right of its parent, moved by this offset.
fn moved_by(offset: i32) -> Result<Positioner, ShellError> {
    let mut positioner = Positioner::new();
    positioner.set_size(8, 8)?;
    positioner.set_anchor_rect(ANCHOR)?;
    positioner.set_anchor(8)?;
    positioner.set_gravity(8)?;
    positioner.set_offset(offset, offset);
    Ok(positioner)
}

fn reposition<A: Allocator>(shell: &mut Shell<A>, offset: i32, serial: u32) -> Answer {
    let positioner = moved_by(offset)?;
    shell.reposition(2, &positioner, OUTPUT, (0, 0), serial)
}

fn reposition_incomplete<A: Allocator>(
    shell: &mut Shell<A>,
    surface: usize,
    serial: u32,
) -> Answer {
    shell.reposition(surface, &Positioner::new(), OUTPUT, (0, 0), serial)
}

fn takes_64<A: Allocator>(shell: &mut Shell<A>) -> bool {
    for serial in 3..67_u32 {
        if reposition(shell, -8, serial) != Ok(Some(NEAR)) {
            return false;
        }
    }
    true
}

fn stands<A: Allocator>(shell: &Shell<A>, at: Option<Placed>, next: Option<Placed>) -> bool {
    let Some(xdg_surface) = shell.get(2) else {
        return false;
    };
    match xdg_surface.popup() {
        Some(popup) => popup.placement() == at && popup.waiting() == next,
        None => false,
    }
}

// Does what a row says, and tells whether it is as wanted.
fn is_met<A: Allocator>(shell: &mut Shell<A>, row: &Row) -> bool {
    match *row {
        Row::Repositions(offset, serial, wanted) => reposition(shell, offset, serial) == wanted,
        Row::RepositionsIncomplete(serial, wanted) => {
            reposition_incomplete(shell, 2, serial) == wanted
        }
        Row::Repositions64 => takes_64(shell),
        Row::RepositionsNone(surface) => reposition_incomplete(shell, surface, 9) == Ok(None),
        Row::Commits(has_buffer, serial, wanted) => {
            shell.on_commit(2, has_buffer, OUTPUT, (0, 0), serial) == wanted
        }
        Row::Acknowledges(serial, wanted) => shell.ack(2, serial) == wanted,
        Row::Dismisses => shell.dismiss(2) == Some(2),
        Row::Stands(at, next) => stands(shell, at, next),
    }
}

// It is configured with the serial 2, and mapped.
const MAPPED: &[Row] = &[
    Row::Commits(false, 2, Ok(ShellAct::Configure(Some(CORNER)))),
    Row::Acknowledges(2, Ok(())),
    Row::Commits(true, 3, Ok(ShellAct::Map)),
];

const NEW: &[Row] = &[];

// It stands where it stood until the commit after the acknowledgement.
const ONCE: &[Row] = &[
    Row::Repositions(-8, 3, Ok(Some(NEAR))),
    Row::Stands(Some(CORNER), None),
    Row::Commits(true, 4, Ok(ShellAct::Nothing)),
    Row::Acknowledges(3, Ok(())),
    Row::Stands(Some(CORNER), Some(NEAR)),
    Row::Commits(true, 4, Ok(ShellAct::Place(NEAR))),
    Row::Stands(Some(NEAR), None),
    Row::Commits(true, 4, Ok(ShellAct::Nothing)),
];

const TWICE: &[Row] = &[
    Row::Repositions(-8, 3, Ok(Some(NEAR))),
    Row::Repositions(-16, 4, Ok(Some(NEARER))),
    Row::Acknowledges(4, Ok(())),
    Row::Acknowledges(3, Err(ShellError::InvalidSerial)),
    Row::Commits(true, 5, Ok(ShellAct::Place(NEARER))),
    Row::Stands(Some(NEARER), None),
];

// Both are acknowledged, one after the other, before the commit.
const ONE_BY_ONE: &[Row] = &[
    Row::Repositions(-8, 3, Ok(Some(NEAR))),
    Row::Repositions(-16, 4, Ok(Some(NEARER))),
    Row::Acknowledges(3, Ok(())),
    Row::Stands(Some(CORNER), Some(NEAR)),
    Row::Acknowledges(4, Ok(())),
    Row::Commits(true, 5, Ok(ShellAct::Place(NEARER))),
];

// The first is acknowledged and committed before the second is acknowledged.
const ONE_AT_A_TIME: &[Row] = &[
    Row::Repositions(-8, 3, Ok(Some(NEAR))),
    Row::Repositions(-16, 4, Ok(Some(NEARER))),
    Row::Acknowledges(3, Ok(())),
    Row::Commits(true, 5, Ok(ShellAct::Place(NEAR))),
    Row::Acknowledges(4, Ok(())),
    Row::Stands(Some(NEAR), Some(NEARER)),
    Row::Commits(true, 5, Ok(ShellAct::Place(NEARER))),
];

// What was acknowledged and what wasn't is forgotten; the commit that configures it again places it
// by the last copy, at once.
const UNMAPPED: &[Row] = &[
    Row::Repositions(-8, 3, Ok(Some(NEAR))),
    Row::Acknowledges(3, Ok(())),
    Row::Repositions(-16, 4, Ok(Some(NEARER))),
    Row::Commits(false, 5, Ok(ShellAct::Unmap)),
    Row::Stands(Some(CORNER), None),
    Row::Acknowledges(4, Err(ShellError::InvalidSerial)),
    Row::Commits(false, 5, Ok(ShellAct::Configure(Some(NEARER)))),
    Row::Stands(Some(NEARER), None),
];

const FRESH: &[Row] = &[
    Row::Repositions(-8, 2, Ok(None)),
    Row::Stands(None, None),
    Row::RepositionsIncomplete(2, Err(ShellError::InvalidPositioner)),
    Row::Commits(false, 2, Ok(ShellAct::Configure(Some(NEAR)))),
    Row::Stands(Some(NEAR), None),
    Row::Acknowledges(2, Ok(())),
    Row::Commits(true, 3, Ok(ShellAct::Map)),
    Row::Stands(Some(NEAR), None),
];

// Before its first configure is acknowledged, and then before it is mapped: a commit without a
// buffer puts it there, and the one that maps it.
const UNMAPPED_YET: &[Row] = &[
    Row::Commits(false, 2, Ok(ShellAct::Configure(Some(CORNER)))),
    Row::Repositions(-8, 3, Ok(Some(NEAR))),
    Row::Commits(false, 4, Ok(ShellAct::Nothing)),
    Row::Acknowledges(3, Ok(())),
    Row::Commits(false, 4, Ok(ShellAct::Place(NEAR))),
    Row::Repositions(-16, 4, Ok(Some(NEARER))),
    Row::Acknowledges(4, Ok(())),
    Row::Stands(Some(NEAR), Some(NEARER)),
    Row::Commits(true, 5, Ok(ShellAct::Map)),
    Row::Stands(Some(NEARER), None),
];

const DISMISSED: &[Row] = &[
    Row::Repositions(-8, 3, Ok(Some(NEAR))),
    Row::Acknowledges(3, Ok(())),
    Row::Dismisses,
    Row::Stands(Some(CORNER), None),
    Row::Commits(true, 4, Ok(ShellAct::Nothing)),
    Row::Commits(false, 4, Ok(ShellAct::Nothing)),
    Row::Stands(Some(CORNER), None),
    Row::Repositions(-16, 4, Ok(None)),
    Row::Acknowledges(4, Err(ShellError::InvalidSerial)),
    Row::RepositionsIncomplete(4, Err(ShellError::InvalidPositioner)),
];

const INCOMPLETE: &[Row] = &[
    Row::RepositionsIncomplete(3, Err(ShellError::InvalidPositioner)),
    Row::Acknowledges(3, Err(ShellError::InvalidSerial)),
    Row::RepositionsNone(1),
    Row::RepositionsNone(9),
];

// The 65th is refused, before its positioner is looked at; not one of a dismissed popup.
const TOO_MANY: &[Row] = &[
    Row::Repositions64,
    Row::Repositions(-8, 67, Err(ShellError::TooMany)),
    Row::RepositionsIncomplete(67, Err(ShellError::TooMany)),
    Row::Dismisses,
    Row::Repositions(-8, 67, Ok(None)),
    Row::Acknowledges(67, Err(ShellError::InvalidSerial)),
    Row::Acknowledges(66, Ok(())),
];

const CASES: &[(&str, &[Row], &[Row])] = &[
    ("once", MAPPED, ONCE),
    ("twice", MAPPED, TWICE),
    ("one by one", MAPPED, ONE_BY_ONE),
    ("one at a time", MAPPED, ONE_AT_A_TIME),
    ("unmapped", MAPPED, UNMAPPED),
    ("fresh", NEW, FRESH),
    ("unmapped yet", NEW, UNMAPPED_YET),
    ("dismissed", MAPPED, DISMISSED),
    ("incomplete", MAPPED, INCOMPLETE),
    ("too many", MAPPED, TOO_MANY),
];

// Surface 1 has a toplevel, and surface 2 a popup of it.
fn prepare<A: Allocator + Copy>(shell: &mut Shell<A>) -> Result<(), ShellError> {
    shell.get_xdg_surface(1, 20, 10, false, false)?;
    shell.get_xdg_surface(2, 30, 10, false, false)?;
    shell.get_toplevel(1, 21, false)?;
    let positioner = moved_by(0)?;
    let popup = NewPopup {
        id: 31,
        parent: Some(1),
        number: 5,
    };
    shell.get_popup(2, &popup, &positioner, false)
}

// The first row that isn't met.
fn missed<A: Allocator>(shell: &mut Shell<A>, rows: &[Row]) -> Option<usize> {
    for (place, row) in rows.iter().enumerate() {
        if !is_met(shell, row) {
            return Some(place);
        }
    }
    None
}

fn missed_by(alloc: Global, before: &[Row], rows: &[Row]) -> Option<usize> {
    let mut shell = Shell::new(alloc);
    if prepare(&mut shell).is_err() {
        return Some(0);
    }
    missed(&mut shell, before).or_else(|| missed(&mut shell, rows))
}

// The case and its row that are the first not to be met.
fn missed_case(alloc: Global, cases: &[(&str, &[Row], &[Row])]) -> Option<(usize, usize)> {
    for (place, &(_, before, rows)) in cases.iter().enumerate() {
        if let Some(row) = missed_by(alloc, before, rows) {
            return Some((place, row));
        }
    }
    None
}

#[test]
fn popups_are_placed_anew_as_worked(rt: HostRuntime) {
    assert_eq!(rt; missed_case(rt.alloc(), CASES), None);
}

// Whether it is served as ever, or isn't even made, where so many allocations are served.
fn takes_no_memory<B: Allocator + Copy>(alloc: B, served: u64) -> bool {
    let heap = Refusing::new(alloc, served);
    let mut shell = Shell::new(&heap);
    match prepare(&mut shell) {
        Ok(()) => missed(&mut shell, MAPPED).is_none() && missed(&mut shell, TOO_MANY).is_none(),
        Err(error) => error == ShellError::Memory,
    }
}

#[test]
fn it_takes_no_memory(rt: HostRuntime) {
    for served in 0..8_u64 {
        assert!(rt; takes_no_memory(rt.alloc(), served), "{served}");
    }
}
