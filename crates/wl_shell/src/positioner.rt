//! What an xdg_positioner holds.

ghost use Rattle.std.specs.Prelude.{◌≡◌, ◌<◌, ℤ, IsTrue, OnErr, OnOk, Some, nat_le};
ghost use Rattle.wl_shell.specs.Placing.{axis_of, set_answer};
ghost use Rattle.wl_shell.specs.Positioner.{axis_x, axis_y, first_positioner, has_bit, is_anchor_rect, is_complete, is_size, place, placed_with, rect_set};
ghost use Rattle.wl_shell.specs.Settings.{is_allowed, with_setting};

use crate::placing::{Allowed, Axis, Bounds, Edge};
use crate::{Placed, Setting, ShellError};
use std::marker::Model;
use wl_geom::Rect;
use wl_surface::held;

/// How a popup that passes the bounds may be adjusted (xdg-shell.xml,
/// xdg_positioner.constraint_adjustment).
const SLIDE_X: u32 = 1;

const SLIDE_Y: u32 = 2;

const FLIP_X: u32 = 4;

const FLIP_Y: u32 = 8;

const RESIZE_X: u32 = 16;

const RESIZE_Y: u32 = 32;

/// Where a popup is to be placed beside its parent (xdg-shell.xml, xdg_positioner): how large it
/// is, at which rectangle it is anchored, and how it lies there. All is in pixels. Places are
/// relative to the corner of the parent's window geometry.
#[derive(Clone, Copy)]
pub struct Positioner {
    size: Option<(i32, i32)>,
    anchor_rect: Option<Rect>,
    anchor: u32,
    gravity: u32,
    adjustment: u32,
    offset: (i32, i32),
}

impl Model for Positioner {
    ghost use Rattle.wl_shell.specs.Positioner.{Positioner};

    ghost Value = { Positioner };

    ghost view = { λ p. record { size = p.size; anchor_rect = p.anchor_rect; anchor = p.anchor; gravity = p.gravity; adjustment = p.adjustment; offset = p.offset } };

    ghost inverse = { λ p. record { size = p.size; anchor_rect = p.anchor_rect; anchor = p.anchor; gravity = p.gravity; adjustment = p.adjustment; offset = p.offset } };
}

/// Whether an adjustment, a power of two, is among those of a number.
fn allows(number: u32, adjustment: u32) -> bool
    requires { 0 < adjustment }
    ensures { result ≡ has_bit adjustment number }
{
    (number / adjustment) % 2 == 1
}

/// An anchor rectangle as it is set: one of 0 by 0 counts as none.
fn rect_set(rect: Rect) -> Option<Rect>
    ensures { result ≡ rect_set rect }
{
    if rect.w <= 0 && rect.h <= 0 {
        None
    } else {
        Some(rect)
    }
}

impl Positioner {
    /// One without any setting: no size, no anchor rectangle, anchor and gravity none, no
    /// adjustment and no offset.
    pub fn new() -> Positioner
        ensures { result ≡ first_positioner }
    {
        Positioner {
            size: None,
            anchor_rect: None,
            anchor: 0,
            gravity: 0,
            adjustment: 0,
            offset: (0, 0),
        }
    }

    /// Sets this.
    ///
    /// # Errors
    ///
    /// `InvalidInput` exactly if it isn't allowed; then nothing changes.
    pub fn set(&mut self, setting: &Setting) -> Result<(), ShellError>
        ensures answer { result ≡ set_answer (is_allowed setting.now) }
        ensures ok { OnOk result (self.new ≡ with_setting setting.now self.old) }
        ensures err { OnErr result (self.new ≡ self.old) }
    {
        if !setting.is_allowed() {
            return Err(ShellError::InvalidInput);
        }
        self.apply(setting);
        Ok(())
    }

    /// Puts this in place of what was set before, whether or not it is allowed.
    fn apply(&mut self, setting: &Setting)
        ensures { self.new ≡ with_setting setting.now self.old }
    {
        match *setting {
            Setting::Size(w, h) => self.size = Some((w, h)),
            Setting::AnchorRect(rect) => self.anchor_rect = rect_set(rect),
            Setting::Anchor(anchor) => self.anchor = anchor,
            Setting::Gravity(gravity) => self.gravity = gravity,
            Setting::Adjustment(adjustment) => self.adjustment = adjustment,
            Setting::Offset(x, y) => self.offset = (x, y),
            Setting::Reactive | Setting::ParentSize(..) | Setting::ParentConfigure(_) => {}
        }
    }

    /// xdg_positioner.set_size: how wide and how high the popup's window geometry is to be, in
    /// pixels.
    ///
    /// # Errors
    ///
    /// `InvalidInput` exactly if a side isn't positive; then nothing changes.
    pub fn set_size(&mut self, w: i32, h: i32) -> Result<(), ShellError>
        ensures answer { result ≡ set_answer (is_size w h) }
        ensures ok { OnOk result (self.new ≡ record self.old { size = Some (w, h) }) }
        ensures err { OnErr result (self.new ≡ self.old) }
    {
        self.set(&Setting::Size(w, h))
    }

    /// xdg_positioner.set_anchor_rect: at which rectangle of its parent the popup is anchored. One
    /// of 0 by 0 counts as none.
    ///
    /// # Errors
    ///
    /// `InvalidInput` exactly if a side is negative; then nothing changes.
    pub fn set_anchor_rect(&mut self, rect: Rect) -> Result<(), ShellError>
        ensures answer { result ≡ set_answer (is_anchor_rect rect) }
        ensures ok { OnOk result (self.new ≡ record self.old { anchor_rect = rect_set rect }) }
        ensures err { OnErr result (self.new ≡ self.old) }
    {
        self.set(&Setting::AnchorRect(rect))
    }

    /// xdg_positioner.set_anchor: at which edges or corner of the rectangle the popup is anchored.
    ///
    /// # Errors
    ///
    /// `InvalidInput` exactly if the number is above 8; then nothing changes.
    pub fn set_anchor(&mut self, anchor: u32) -> Result<(), ShellError>
        ensures answer { result ≡ set_answer (nat_le anchor 8) }
        ensures ok { OnOk result (self.new ≡ record self.old { anchor = anchor }) }
        ensures err { OnErr result (self.new ≡ self.old) }
    {
        self.set(&Setting::Anchor(anchor))
    }

    /// xdg_positioner.set_gravity: to which side of the anchor the popup lies.
    ///
    /// # Errors
    ///
    /// `InvalidInput` exactly if the number is above 8; then nothing changes.
    pub fn set_gravity(&mut self, gravity: u32) -> Result<(), ShellError>
        ensures answer { result ≡ set_answer (nat_le gravity 8) }
        ensures ok { OnOk result (self.new ≡ record self.old { gravity = gravity }) }
        ensures err { OnErr result (self.new ≡ self.old) }
    {
        self.set(&Setting::Gravity(gravity))
    }

    /// xdg_positioner.set_constraint_adjustment: how the popup may be adjusted if it passes the
    /// bounds. Bits without a meaning do nothing.
    pub fn set_adjustment(&mut self, adjustment: u32)
        ensures { self.new ≡ record self.old { adjustment = adjustment } }
    {
        self.apply(&Setting::Adjustment(adjustment));
    }

    /// xdg_positioner.set_offset: how many pixels to the right and down the popup is moved.
    pub fn set_offset(&mut self, x: i32, y: i32)
        ensures { self.new ≡ record self.old { offset = (x, y) } }
    {
        self.apply(&Setting::Offset(x, y));
    }

    /// xdg_positioner.set_reactive: the popup may be placed anew when its surroundings change.
    /// Popups here are placed only when asked, so nothing changes.
    pub fn set_reactive(&mut self)
        ensures { self.new ≡ self.old }
    {
        self.apply(&Setting::Reactive);
    }

    /// xdg_positioner.set_parent_size: how wide and how high the parent's window geometry will be.
    /// Popups here are placed by where it stands now, so nothing changes, whatever the numbers.
    pub fn set_parent_size(&mut self, w: i32, h: i32)
        ensures { self.new ≡ self.old }
    {
        self.apply(&Setting::ParentSize(w, h));
    }

    /// xdg_positioner.set_parent_configure: the serial of the configure that the parent answers
    /// then. Nothing changes, whatever the number.
    pub fn set_parent_configure(&mut self, serial: u32)
        ensures { self.new ≡ self.old }
    {
        self.apply(&Setting::ParentConfigure(serial));
    }

    /// Whether a size and an anchor rectangle were set.
    pub fn is_complete(&self) -> bool
        ensures { result ≡ is_complete self.now }
    {
        self.size.is_some() && self.anchor_rect.is_some()
    }

    /// Where it places a popup, relative to the corner of its parent's window geometry. That corner
    /// stands at `parent_at` in the output. The popup should lie within the bounds, in pixels of
    /// the output (xdg-shell.xml, xdg_positioner.set_constraint_adjustment). A corner is held
    /// within -16,777,216 to 16,777,216.
    pub fn place(&self, bounds: Rect, parent_at: (i32, i32)) -> Placed
        requires { IsTrue (is_complete self.now) }
        ensures { Some result ≡ place self.now bounds parent_at }
    {
        let (Some(size), Some(rect)) = (self.size, self.anchor_rect) else {
            unreachable!()
        };
        self.place_sized(size, &rect, &bounds, parent_at)
    }

    /// Where a popup of this size is placed at this anchor rectangle.
    fn place_sized(
        &self,
        size: (i32, i32),
        rect: &Rect,
        bounds: &Rect,
        parent_at: (i32, i32),
    ) -> Placed
        ensures { result ≡ placed_with self.now size rect.now bounds.now parent_at }
    {
        let across = Bounds {
            start: bounds.x,
            length: bounds.w,
            corner: parent_at.0,
        };
        let down = Bounds {
            start: bounds.y,
            length: bounds.h,
            corner: parent_at.1,
        };
        let (x, w) = across.place(&self.axis_across(size.0, rect), self.allowed_across());
        let (y, h) = down.place(&self.axis_down(size.1, rect), self.allowed_down());
        Placed {
            x: held(x),
            y: held(y),
            w,
            h,
        }
    }

    /// How a popup of this width is to lie on the horizontal axis.
    fn axis_across(&self, width: i32, rect: &Rect) -> Axis
        ensures { (height : ℤ) → axis_of result ≡ axis_x self.now (width, height) rect.now }
    {
        Axis {
            start: rect.x,
            length: rect.w,
            size: width,
            offset: self.offset.0,
            anchor: Edge::across(self.anchor),
            gravity: Edge::across(self.gravity),
        }
    }

    /// How a popup of this height is to lie on the vertical axis.
    fn axis_down(&self, height: i32, rect: &Rect) -> Axis
        ensures { (width : ℤ) → axis_of result ≡ axis_y self.now (width, height) rect.now }
    {
        Axis {
            start: rect.y,
            length: rect.h,
            size: height,
            offset: self.offset.1,
            anchor: Edge::down(self.anchor),
            gravity: Edge::down(self.gravity),
        }
    }

    /// Which adjustments are allowed on the horizontal axis.
    fn allowed_across(&self) -> Allowed
        ensures flip { result.flip ≡ has_bit 4 self.now.adjustment }
        ensures slide { result.slide ≡ has_bit 1 self.now.adjustment }
        ensures resize { result.resize ≡ has_bit 16 self.now.adjustment }
    {
        Allowed {
            flip: allows(self.adjustment, FLIP_X),
            slide: allows(self.adjustment, SLIDE_X),
            resize: allows(self.adjustment, RESIZE_X),
        }
    }

    /// Which adjustments are allowed on the vertical axis.
    fn allowed_down(&self) -> Allowed
        ensures flip { result.flip ≡ has_bit 8 self.now.adjustment }
        ensures slide { result.slide ≡ has_bit 2 self.now.adjustment }
        ensures resize { result.resize ≡ has_bit 32 self.now.adjustment }
    {
        Allowed {
            flip: allows(self.adjustment, FLIP_Y),
            slide: allows(self.adjustment, SLIDE_Y),
            resize: allows(self.adjustment, RESIZE_Y),
        }
    }
}
