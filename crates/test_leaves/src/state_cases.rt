//! What surfaces do and are, as tables of rows.

use crate::states::Row;
use wl_store::Transform;
use wl_surface::{Role, SurfaceError};

// The buffer 7 is shown only from the commit after its attach on, and gone only from the commit
// after that of none on.
const FROM_ITS_ATTACH_ON: &[Row] = &[
    Row::Creates(Ok(0)),
    Row::Reads(0, false, false, false),
    Row::Attaches(0, 7, 0, 0),
    Row::Reads(0, true, false, true),
    Row::IsPending(0, Some(7)),
    Row::HasNoSize,
    Row::Commits(0),
    Row::Reads(0, true, true, true),
    Row::Shows(0, Some((7, 5, 8))),
    Row::Detaches(0, 0),
    Row::Reads(0, true, true, true),
    Row::IsPending(0, None),
    Row::Shows(0, Some((7, 5, 8))),
    Row::Commits(0),
    Row::Reads(0, false, false, false),
    Row::HasNoSize,
];

// A commit without an attach shows the buffer still, and one that is attached frees the one before,
// which another surface then shows.
const ONE_AFTER_ANOTHER: &[Row] = &[
    Row::Creates(Ok(0)),
    Row::Creates(Ok(1)),
    Row::Attaches(0, 7, 0, 0),
    Row::Commits(0),
    Row::Commits(0),
    Row::Shows(0, Some((7, 5, 8))),
    Row::Attaches(0, 8, 0, 0),
    Row::Had(0, Some(8), Some(7), Some(7)),
    Row::Had(1, None, None, None),
    Row::IsUsed(8, true),
    Row::IsBusy(8, false),
    Row::Reads(0, true, true, true),
    Row::Commits(0),
    Row::IsUsed(8, true),
    Row::IsBusy(8, true),
    Row::Reads(0, false, false, true),
    Row::Attaches(1, 7, 0, 0),
    Row::Reads(1, true, false, true),
    Row::Commits(1),
    Row::Reads(1, true, true, true),
    Row::Shows(0, Some((8, 5, 8))),
    Row::IsUsed(90, false),
    Row::IsBusy(0, false),
];

// Of two attaches the last one counts, and not before the commit.
const OFFSETS: &[Row] = &[
    Row::Creates(Ok(0)),
    Row::Moves((3, -4), 3, -4),
    Row::Moves((5, 6), 8, 2),
    Row::Commits(0),
    Row::IsAt(8, 2),
    Row::Detaches(100, 100),
    Row::IsAt(8, 2),
    Row::Moves((1, 1), 9, 3),
];

const BOUNDS: &[Row] = &[
    Row::Creates(Ok(0)),
    Row::Moves((16_777_215, -16_777_215), 16_777_215, -16_777_215),
    Row::Moves((1, -1), 16_777_216, -16_777_216),
    Row::Moves((1, -1), 16_777_216, -16_777_216),
    Row::Moves((-1, 1), 16_777_215, -16_777_215),
    Row::Moves((i32::MAX, i32::MIN), 16_777_216, -16_777_216),
    Row::Moves((i32::MIN, i32::MAX), -16_777_216, 16_777_216),
    Row::Moves((16_777_216, -16_777_216), 0, 0),
];

// What is asked isn't seen before the commit, and another number is refused.
const TRANSFORMS: &[Row] = &[
    Row::Creates(Ok(0)),
    Row::Attaches(0, 7, 0, 0),
    Row::Commits(0),
    Row::Turns(1, Ok(())),
    Row::HasForm(Transform::Normal, 5, 8),
    Row::Turns(8, Err(SurfaceError::Transform)),
    Row::Turns(-1, Err(SurfaceError::Transform)),
    Row::Turns(2_147_483_647, Err(SurfaceError::Transform)),
    Row::Commits(0),
    Row::HasForm(Transform::Rotated90, 8, 5),
    Row::Turns(1, Ok(())),
    Row::Commits(0),
    Row::HasForm(Transform::Rotated90, 8, 5),
    Row::Turns(2, Ok(())),
    Row::Commits(0),
    Row::HasForm(Transform::Rotated180, 5, 8),
    Row::Turns(3, Ok(())),
    Row::Commits(0),
    Row::HasForm(Transform::Rotated270, 8, 5),
    Row::Turns(4, Ok(())),
    Row::Commits(0),
    Row::HasForm(Transform::Flipped, 5, 8),
    Row::Turns(5, Ok(())),
    Row::Commits(0),
    Row::HasForm(Transform::Flipped90, 8, 5),
    Row::Turns(6, Ok(())),
    Row::Commits(0),
    Row::HasForm(Transform::Flipped180, 5, 8),
    Row::Turns(7, Ok(())),
    Row::Commits(0),
    Row::HasForm(Transform::Flipped270, 8, 5),
    Row::Turns(0, Ok(())),
    Row::Commits(0),
    Row::HasForm(Transform::Normal, 5, 8),
];

// A surface that had no role takes each of the four that is its first, and no other after.
const ROLES: &[Row] = &[
    Row::Creates(Ok(0)),
    Row::HasRole(0, None),
    Row::TakesRole(0, Role::Toplevel, Ok(())),
    Row::TakesRole(0, Role::Toplevel, Ok(())),
    Row::HasRole(0, Some(Role::Toplevel)),
    Row::TakesRole(0, Role::Popup, Err(SurfaceError::Role)),
    Row::HasRole(0, Some(Role::Toplevel)),
    Row::TakesRole(0, Role::Subsurface, Err(SurfaceError::Role)),
    Row::HasRole(0, Some(Role::Toplevel)),
    Row::TakesRole(0, Role::Cursor, Err(SurfaceError::Role)),
    Row::HasRole(0, Some(Role::Toplevel)),
    Row::Creates(Ok(1)),
    Row::HasRole(1, None),
    Row::TakesRole(1, Role::Popup, Ok(())),
    Row::TakesRole(1, Role::Toplevel, Err(SurfaceError::Role)),
    Row::HasRole(1, Some(Role::Popup)),
    Row::TakesRole(1, Role::Popup, Ok(())),
    Row::HasRole(1, Some(Role::Popup)),
    Row::TakesRole(1, Role::Subsurface, Err(SurfaceError::Role)),
    Row::HasRole(1, Some(Role::Popup)),
    Row::TakesRole(1, Role::Cursor, Err(SurfaceError::Role)),
    Row::HasRole(1, Some(Role::Popup)),
    Row::Creates(Ok(2)),
    Row::HasRole(2, None),
    Row::TakesRole(2, Role::Subsurface, Ok(())),
    Row::TakesRole(2, Role::Toplevel, Err(SurfaceError::Role)),
    Row::HasRole(2, Some(Role::Subsurface)),
    Row::TakesRole(2, Role::Popup, Err(SurfaceError::Role)),
    Row::HasRole(2, Some(Role::Subsurface)),
    Row::TakesRole(2, Role::Subsurface, Ok(())),
    Row::HasRole(2, Some(Role::Subsurface)),
    Row::TakesRole(2, Role::Cursor, Err(SurfaceError::Role)),
    Row::HasRole(2, Some(Role::Subsurface)),
    Row::Creates(Ok(3)),
    Row::HasRole(3, None),
    Row::TakesRole(3, Role::Cursor, Ok(())),
    Row::TakesRole(3, Role::Toplevel, Err(SurfaceError::Role)),
    Row::HasRole(3, Some(Role::Cursor)),
    Row::TakesRole(3, Role::Popup, Err(SurfaceError::Role)),
    Row::HasRole(3, Some(Role::Cursor)),
    Row::TakesRole(3, Role::Subsurface, Err(SurfaceError::Role)),
    Row::HasRole(3, Some(Role::Cursor)),
    Row::TakesRole(3, Role::Cursor, Ok(())),
    Row::HasRole(3, Some(Role::Cursor)),
];

// The surface 40 is destroyed with all that it had, and its number is the next.
const SURFACE_257: &[Row] = &[
    Row::Creates256,
    Row::Creates(Err(SurfaceError::TooMany)),
    Row::IsThere(255, true),
    Row::IsThere(256, false),
    Row::Attaches(40, 7, 0, 0),
    Row::TakesRole(40, Role::Cursor, Ok(())),
    Row::Reads(40, true, false, true),
    Row::Destroys(40),
    Row::Destroys(40),
    Row::IsThere(40, false),
    Row::Creates(Ok(40)),
    Row::Reads(40, false, false, false),
    Row::HasRole(40, None),
    Row::Creates(Err(SurfaceError::TooMany)),
];

pub(crate) const NO_SURFACE: &[Row] = &[
    Row::Reads(0, false, false, false),
    Row::IsPending(0, None),
    Row::HasRole(0, None),
    Row::IsThere(0, false),
];

// What is asked of no surface is accepted, and there is none then either.
const ASKED_OF_NONE: &[Row] = &[
    Row::Attaches(0, 7, 1, 1),
    Row::Damages,
    Row::UnsetsOpaque,
    Row::UnsetsInput,
    Row::Turns(1, Ok(())),
    Row::Turns(8, Err(SurfaceError::Transform)),
    Row::Commits(0),
    Row::TakesRole(0, Role::Popup, Ok(())),
    Row::Destroys(0),
];

pub(crate) const CASES: &[(&str, &[&[Row]])] = &[
    ("a buffer from its attach on", &[FROM_ITS_ATTACH_ON]),
    ("one buffer after another", &[ONE_AFTER_ANOTHER]),
    ("offsets add up", &[OFFSETS]),
    ("offsets are held within their bounds", &[BOUNDS]),
    ("transforms turn the size", &[TRANSFORMS]),
    ("a role is for life", &[ROLES]),
    ("the 257th surface is one too many", &[SURFACE_257]),
    ("no surface", &[ASKED_OF_NONE, NO_SURFACE]),
];
