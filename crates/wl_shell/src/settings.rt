//! What one request sets of an xdg_positioner.

ghost use Rattle.std.specs.Prelude.{◌≡◌};
ghost use Rattle.wl_shell.specs.Settings.{is_allowed};

use wl_geom::Rect;

/// The greatest number of an anchor and of gravity: bottom_right.
const LAST_EDGE: u32 = 8;

/// What one request sets of an xdg_positioner (xdg-shell.xml, xdg_positioner). Lengths and places
/// are in pixels. Places are relative to the corner of the parent's window geometry.
#[derive(Clone, Copy)]
pub enum Setting {
    /// set_size: how wide and how high the popup's window geometry is to be.
    Size(i32, i32),
    /// set_anchor_rect: at which rectangle of its parent the popup is anchored.
    AnchorRect(Rect),
    /// set_anchor: at which edges or corner of the rectangle, by its number.
    Anchor(u32),
    /// set_gravity: to which side of the anchor the popup lies, by its number.
    Gravity(u32),
    /// set_constraint_adjustment: how the popup may be adjusted if it passes the bounds, by bits.
    Adjustment(u32),
    /// set_offset: how far to the right and down the popup is moved.
    Offset(i32, i32),
    /// set_reactive: the popup may be placed anew when its surroundings change.
    Reactive,
    /// set_parent_size: how wide and how high the parent's window geometry will be.
    ParentSize(i32, i32),
    /// set_parent_configure: the serial of the configure that the parent answers then.
    ParentConfigure(u32),
}

impl Setting {
    /// Whether it may be set: both sides of a size are positive, no side of an anchor rectangle is
    /// negative, and an anchor or gravity is at most 8. Others are refused with invalid_input.
    pub fn is_allowed(&self) -> bool
        ensures { result ≡ is_allowed self.now }
    {
        match *self {
            Setting::Size(w, h) => w > 0 && h > 0,
            Setting::AnchorRect(rect) => rect.w >= 0 && rect.h >= 0,
            Setting::Anchor(number) | Setting::Gravity(number) => number <= LAST_EDGE,
            Setting::Adjustment(_)
            | Setting::Offset(..)
            | Setting::Reactive
            | Setting::ParentSize(..)
            | Setting::ParentConfigure(_) => true,
        }
    }
}
