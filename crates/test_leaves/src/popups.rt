use std::alloc::{Allocator, Global};
use wl_geom::Rect;
use wl_shell::{NewPopup, Placed, Positioner, Shell, ShellAct, ShellError};
use wl_surface::SurfaceNo;

const WHOLE: Rect = Rect {
    x: 0,
    y: 0,
    w: 640,
    h: 480,
};

const ANCHOR: Rect = Rect {
    x: 0,
    y: 0,
    w: 1,
    h: 1,
};

// Where the popups of these tests are placed.
const PLACED: Option<Placed> = Some(Placed {
    x: 8,
    y: 8,
    w: 4,
    h: 4,
});

/// What is done to a surface of a shell or asked of it, with what is wanted of it.
#[derive(Clone, Copy)]
enum Row {
    /// It gets a popup of this parent with this number, by a positioner that is complete or isn't.
    /// Whether it has another role.
    GetsPopup(SurfaceNo, Option<SurfaceNo>, u64, bool, bool, Result<(), ShellError>),
    /// A commit with a buffer or none, at the next serial.
    Commits(SurfaceNo, bool, u32, Result<ShellAct, ShellError>),
    Acknowledges(SurfaceNo, u32, Result<(), ShellError>),
    /// Whether a grab is allowed by its serial and the other clients.
    Grabs(SurfaceNo, bool, Result<bool, ShellError>),
    Dismisses(SurfaceNo, Option<SurfaceNo>),
    DismissesGrabbing(Option<SurfaceNo>),
    Orphans(SurfaceNo),
    EndsToplevel(SurfaceNo),
    Destroys(SurfaceNo, Result<(), ShellError>),
    HasChild(SurfaceNo, bool),
    HasGrab(bool),
    IsAfter(u64, Option<SurfaceNo>),
    /// It was dismissed, it has a grab, and where it is placed.
    IsPopup(SurfaceNo, bool, bool, Option<Placed>),
}

// Places a popup of 4 by 4 at (8, 8).
fn complete() -> Result<Positioner, ShellError> {
    let mut positioner = Positioner::new();
    positioner.set_size(4, 4)?;
    positioner.set_anchor_rect(ANCHOR)?;
    positioner.set_anchor(5)?;
    positioner.set_gravity(8)?;
    positioner.set_offset(8, 8);
    Ok(positioner)
}

fn get_popup<A: Allocator>(
    shell: &mut Shell<A>,
    surface: SurfaceNo,
    popup: &NewPopup,
    is_complete: bool,
    has_other: bool,
) -> Result<(), ShellError> {
    if !is_complete {
        return shell.get_popup(surface, popup, &Positioner::new(), has_other);
    }
    let positioner = complete()?;
    shell.get_popup(surface, popup, &positioner, has_other)
}

fn is_popup<A: Allocator>(
    shell: &Shell<A>,
    surface: SurfaceNo,
    is_dismissed: bool,
    has_grab: bool,
    placed: Option<Placed>,
) -> bool {
    let Some(xdg_surface) = shell.get(surface) else {
        return false;
    };
    let Some(popup) = xdg_surface.popup() else {
        return false;
    };
    popup.is_dismissed() == is_dismissed
        && popup.has_grab() == has_grab
        && popup.placement() == placed
}

// Does what a row says, and tells whether it is as wanted.
fn is_met<A: Allocator>(shell: &mut Shell<A>, row: &Row) -> bool {
    match *row {
        Row::GetsPopup(surface, parent, number, is_complete, has_other, wanted) => {
            let popup = NewPopup {
                id: 90,
                parent,
                number,
            };
            get_popup(shell, surface, &popup, is_complete, has_other) == wanted
        }
        Row::Commits(surface, has_buffer, serial, wanted) => {
            shell.on_commit(surface, has_buffer, WHOLE, (0, 0), serial) == wanted
        }
        Row::Acknowledges(surface, serial, wanted) => shell.ack(surface, serial) == wanted,
        Row::Grabs(surface, is_allowed, wanted) => shell.grab(surface, is_allowed) == wanted,
        Row::Dismisses(surface, wanted) => shell.dismiss(surface) == wanted,
        Row::DismissesGrabbing(wanted) => shell.dismiss_grabbing() == wanted,
        Row::Orphans(surface) => {
            shell.orphan(surface);
            true
        }
        Row::EndsToplevel(surface) => {
            shell.destroy_toplevel(surface);
            true
        }
        Row::Destroys(surface, wanted) => shell.destroy_popup(surface) == wanted,
        _ => is_seen(shell, row),
    }
}

// Whether it is as a row says that does nothing.
fn is_seen<A: Allocator>(shell: &Shell<A>, row: &Row) -> bool {
    match *row {
        Row::HasChild(surface, wanted) => shell.has_child(surface) == wanted,
        Row::HasGrab(wanted) => shell.has_grab() == wanted,
        Row::IsAfter(number, wanted) => shell.popup_after(number) == wanted,
        Row::IsPopup(surface, is_dismissed, has_grab, placed) => {
            is_popup(shell, surface, is_dismissed, has_grab, placed)
        }
        _ => false,
    }
}

// A popup of the toplevel is placed, grabs, is mapped, unmapped, placed again and destroyed.
const FROM_ITS_MAKING_ON: &[Row] = &[
    Row::GetsPopup(2, Some(1), 5, true, false, Ok(())),
    Row::IsPopup(2, false, false, None),
    Row::Commits(2, true, 7, Err(ShellError::UnconfiguredBuffer)),
    Row::Commits(2, false, 7, Ok(ShellAct::Configure(PLACED))),
    Row::Grabs(2, true, Ok(true)),
    Row::IsPopup(2, false, true, PLACED),
    Row::Acknowledges(2, 7, Ok(())),
    Row::Commits(2, true, 8, Ok(ShellAct::Map)),
    Row::Grabs(2, true, Err(ShellError::InvalidGrab)),
    Row::Commits(2, true, 8, Ok(ShellAct::Nothing)),
    Row::Commits(2, false, 8, Ok(ShellAct::Unmap)),
    Row::IsPopup(2, false, false, PLACED),
    Row::Commits(2, false, 8, Ok(ShellAct::Configure(PLACED))),
    Row::Destroys(2, Ok(())),
    Row::GetsPopup(2, Some(1), 6, true, false, Ok(())),
    Row::IsPopup(2, false, false, None),
];

const REFUSED: &[Row] = &[
    Row::GetsPopup(9, Some(1), 5, true, false, Err(ShellError::NotConstructed)),
    Row::GetsPopup(2, None, 5, false, true, Err(ShellError::Role)),
    Row::GetsPopup(
        2,
        None,
        5,
        false,
        false,
        Err(ShellError::InvalidPopupParent),
    ),
    Row::GetsPopup(
        2,
        Some(2),
        5,
        true,
        false,
        Err(ShellError::InvalidPopupParent),
    ),
    Row::GetsPopup(
        2,
        Some(3),
        5,
        true,
        false,
        Err(ShellError::InvalidPopupParent),
    ),
    Row::GetsPopup(
        2,
        Some(1),
        5,
        false,
        false,
        Err(ShellError::InvalidPositioner),
    ),
    Row::GetsPopup(2, Some(1), 5, true, false, Ok(())),
    Row::GetsPopup(2, None, 5, false, true, Err(ShellError::AlreadyConstructed)),
    Row::IsPopup(2, false, false, None),
];

// 2 and 4 are popups of the toplevel, 3 is one of 2.
const DISMISSED: &[Row] = &[
    Row::GetsPopup(2, Some(1), 5, true, false, Ok(())),
    Row::GetsPopup(3, Some(2), 6, true, false, Ok(())),
    Row::GetsPopup(4, Some(1), 7, true, false, Ok(())),
    Row::IsAfter(0, Some(2)),
    Row::IsAfter(5, Some(3)),
    Row::IsAfter(7, None),
    Row::HasChild(1, true),
    Row::HasChild(2, true),
    Row::HasChild(3, false),
    Row::Destroys(2, Err(ShellError::NotTheTopmostPopup)),
    Row::Dismisses(2, Some(3)),
    Row::Dismisses(2, Some(2)),
    Row::Dismisses(2, None),
    Row::IsPopup(3, true, false, None),
    Row::IsPopup(4, false, false, None),
    Row::Commits(3, true, 9, Ok(ShellAct::Nothing)),
    Row::Commits(3, false, 9, Ok(ShellAct::Nothing)),
    Row::Dismisses(1, Some(4)),
    Row::Dismisses(1, None),
    Row::Destroys(3, Ok(())),
    Row::Destroys(2, Ok(())),
];

const GRABS: &[Row] = &[
    Row::GetsPopup(2, Some(1), 5, true, false, Ok(())),
    Row::GetsPopup(3, Some(2), 6, true, false, Ok(())),
    // its parent has none
    Row::Grabs(3, true, Ok(false)),
    Row::Grabs(2, false, Ok(false)),
    Row::Grabs(2, true, Ok(true)),
    Row::Grabs(3, true, Ok(true)),
    Row::IsPopup(3, false, true, None),
    Row::Dismisses(3, Some(3)),
    Row::IsPopup(3, true, false, None),
    // of one that is dismissed nothing is done
    Row::Grabs(3, true, Ok(true)),
    Row::IsPopup(3, true, false, None),
    Row::Grabs(1, true, Ok(true)),
];

// The toplevel goes: all are dismissed, and 2 and 4 lose their parent, and 3 doesn't.
const TOPLEVEL_GONE: &[Row] = &[
    Row::GetsPopup(2, Some(1), 5, true, false, Ok(())),
    Row::GetsPopup(3, Some(2), 6, true, false, Ok(())),
    Row::GetsPopup(4, Some(1), 7, true, false, Ok(())),
    Row::Grabs(2, true, Ok(true)),
    Row::Dismisses(1, Some(4)),
    Row::Dismisses(1, Some(3)),
    Row::Dismisses(1, Some(2)),
    Row::Dismisses(1, None),
    Row::IsPopup(2, true, false, None),
    Row::Orphans(9),
    Row::HasChild(1, true),
    Row::Orphans(1),
    Row::HasChild(1, false),
    Row::HasChild(2, true),
    Row::EndsToplevel(1),
    Row::Destroys(2, Err(ShellError::NotTheTopmostPopup)),
    Row::Destroys(3, Ok(())),
    Row::Destroys(2, Ok(())),
    Row::Destroys(4, Ok(())),
];

// 4 is the oldest and the surfaces 2 and 3 are on it, one on the other: it goes by their creation,
// not by the surfaces. What was dismissed before isn't answered again.
const DISMISSED_BY_AGE: &[Row] = &[
    Row::GetsPopup(4, Some(1), 5, true, false, Ok(())),
    Row::GetsPopup(2, Some(4), 6, true, false, Ok(())),
    Row::GetsPopup(3, Some(2), 7, true, false, Ok(())),
    Row::Dismisses(3, Some(3)),
    Row::Dismisses(4, Some(2)),
    Row::Dismisses(4, Some(4)),
    Row::Dismisses(4, None),
    Row::Dismisses(1, None),
];

// 2 has a grab and 3 is on it: these are dismissed, the newest first, and 4 isn't.
const GRABBING_DISMISSED: &[Row] = &[
    Row::GetsPopup(2, Some(1), 5, true, false, Ok(())),
    Row::GetsPopup(3, Some(2), 6, true, false, Ok(())),
    Row::GetsPopup(4, Some(1), 7, true, false, Ok(())),
    Row::HasGrab(false),
    Row::DismissesGrabbing(None),
    Row::Grabs(2, true, Ok(true)),
    Row::HasGrab(true),
    Row::DismissesGrabbing(Some(3)),
    Row::HasGrab(true),
    Row::DismissesGrabbing(Some(2)),
    Row::HasGrab(false),
    Row::DismissesGrabbing(None),
    Row::IsPopup(3, true, false, None),
    Row::IsPopup(2, true, false, None),
    Row::IsPopup(4, false, false, None),
];

// 3 keeps its grab where 2, which it is on, loses its own: it is dismissed alone.
const GRAB_LOST: &[Row] = &[
    Row::GetsPopup(2, Some(1), 5, true, false, Ok(())),
    Row::GetsPopup(3, Some(2), 6, true, false, Ok(())),
    Row::Grabs(2, true, Ok(true)),
    Row::Grabs(3, true, Ok(true)),
    Row::Commits(2, false, 7, Ok(ShellAct::Configure(PLACED))),
    Row::Acknowledges(2, 7, Ok(())),
    Row::Commits(2, true, 8, Ok(ShellAct::Map)),
    Row::Commits(2, false, 8, Ok(ShellAct::Unmap)),
    Row::IsPopup(2, false, false, PLACED),
    Row::HasGrab(true),
    Row::DismissesGrabbing(Some(3)),
    Row::DismissesGrabbing(None),
    Row::HasGrab(false),
];

const CASES: &[(&str, &[Row])] = &[
    ("a popup from its making on", FROM_ITS_MAKING_ON),
    ("what is refused", REFUSED),
    ("the newest are dismissed first", DISMISSED),
    ("grabs", GRABS),
    ("those with a grab are dismissed", GRABBING_DISMISSED),
    ("a grab that is lost", GRAB_LOST),
    ("the end of a toplevel", TOPLEVEL_GONE),
    ("dismissed by age", DISMISSED_BY_AGE),
];

// The surfaces 1 to 4 have xdg_surfaces, and 1 has a toplevel.
fn prepare<A: Allocator + Copy>(shell: &mut Shell<A>) -> Result<(), ShellError> {
    shell.get_xdg_surface(1, 20, 10, false, false)?;
    shell.get_xdg_surface(2, 30, 10, false, false)?;
    shell.get_xdg_surface(3, 40, 10, false, false)?;
    shell.get_xdg_surface(4, 50, 10, false, false)?;
    shell.get_toplevel(1, 21, false)
}

// The first row that isn't met.
fn missed_by(alloc: Global, rows: &[Row]) -> Option<usize> {
    let mut shell = Shell::new(alloc);
    if prepare(&mut shell).is_err() {
        return Some(0);
    }
    for (place, row) in rows.iter().enumerate() {
        if !is_met(&mut shell, row) {
            return Some(place);
        }
    }
    None
}

// The case and its row that are the first not to be met.
fn missed_case(alloc: Global, cases: &[(&str, &[Row])]) -> Option<(usize, usize)> {
    for (place, &(_, rows)) in cases.iter().enumerate() {
        if let Some(row) = missed_by(alloc, rows) {
            return Some((place, row));
        }
    }
    None
}

#[test]
fn popups_are_as_worked(rt: HostRuntime) {
    assert_eq!(rt; missed_case(rt.alloc(), CASES), None);
}
