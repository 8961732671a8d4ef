//! What is kept of a popup.

ghost use Rattle.std.specs.Prelude.{◌≡◌};
ghost use Rattle.wl_shell.specs.Kept.{popup_by};
ghost use Rattle.wl_shell.specs.Popups.{first_popup, waiting_of};
ghost use Rattle.wl_shell.specs.Positioner.{place};
ghost use Rattle.wl_shell.specs.Shell.{latest_placement};

use crate::{Configure, Placed, Positioner};
use std::marker::Model;
use wl_geom::Rect;

/// What happens to a popup.
#[derive(Clone, Copy)]
pub(crate) enum PopupChange {
    /// It is placed at this place, or nowhere.
    Place(Option<Placed>),
    /// The place that waited comes into force.
    Arrive(Placed),
    /// It gets a copy of this positioner.
    Copy(Positioner),
    /// It has a grab.
    Grab,
    /// It is unmapped: it has no grab, and no place waits.
    Unmap,
    /// It is dismissed, and loses its grab.
    Dismiss,
    /// The toplevel of the xdg_surface with this id goes. If that is its parent, it has none any
    /// more.
    Orphan(u32),
}

/// A popup (xdg-shell.xml, xdg_popup). Contracts see it as the definition's.
#[derive(Drop)]
pub struct Popup {
    parent: Option<u32>,
    positioner: Positioner,
    placement: Option<Placed>,
    waiting: Option<Placed>,
    is_dismissed: bool,
    has_grab: bool,
    number: u64,
}

impl Model for Popup {
    ghost use Rattle.wl_shell.specs.Shell.{Popup};

    ghost Value = { Popup };

    ghost view = { λ p. record { parent = p.parent; positioner = p.positioner; placement = p.placement; waiting = p.waiting; is_dismissed = p.is_dismissed; has_grab = p.has_grab; number = p.number } };
}

impl Popup {
    /// A new popup, which is placed nowhere yet. `parent` is the id of its parent's xdg_surface,
    /// `number` its number in order of creation. The positioner is copied.
    pub(crate) fn new(parent: u32, positioner: &Positioner, number: u64) -> Popup
        ensures { result ≡ first_popup parent positioner.now number }
    {
        Popup {
            parent: Some(parent),
            positioner: *positioner,
            placement: None,
            waiting: None,
            is_dismissed: false,
            has_grab: false,
            number,
        }
    }

    /// The id of its parent's xdg_surface. `None` if the parent was a toplevel that is gone.
    pub fn parent(&self) -> Option<u32>
        ensures { result ≡ self.now.parent }
    {
        self.parent
    }

    /// Where it stands, in pixels from the corner of its parent's window geometry.
    pub fn placement(&self) -> Option<Placed>
        ensures { result ≡ self.now.placement }
    {
        self.placement
    }

    /// Where the next commit puts it, unless that unmaps it: the place of the latest configure
    /// acknowledged since (xdg-shell.xml, xdg_popup.reposition). `None` for a dismissed popup.
    pub fn waiting(&self) -> Option<Placed>
        ensures { result ≡ waiting_of self.now }
    {
        if self.is_dismissed {
            return None;
        }
        self.waiting
    }

    /// Whether it was dismissed (xdg-shell.xml, xdg_popup.popup_done).
    pub fn is_dismissed(&self) -> bool
        ensures { result ≡ self.now.is_dismissed }
    {
        self.is_dismissed
    }

    /// Whether it has a grab (xdg-shell.xml, xdg_popup.grab).
    pub fn has_grab(&self) -> bool
        ensures { result ≡ self.now.has_grab }
    {
        self.has_grab
    }

    /// Its number among the popups of its client, in order of creation.
    pub fn number(&self) -> u64
        ensures { result ≡ self.now.number }
    {
        self.number
    }

    /// Where it is placed now. The bounds are in pixels of the output, as is `parent_at`, where its
    /// parent's window geometry stands. `None` if its positioner isn't complete.
    pub(crate) fn place(&self, bounds: Rect, parent_at: (i32, i32)) -> Option<Placed>
        ensures { result ≡ place self.now.positioner bounds parent_at }
    {
        if !self.positioner.is_complete() {
            return None;
        }
        Some(self.positioner.place(bounds, parent_at))
    }

    /// Notes that these configures were acknowledged, the earliest first. The latest place that one
    /// of them gives it waits for the next commit.
    pub(crate) fn acknowledge(&mut self, configures: &[Configure])
        ensures { self.new ≡ record self.old { waiting = latest_placement self.old.waiting configures.now } }
    {
        self.waiting = configures.iter().fold(
            self.waiting,
            |latest, configure| configure.placement.or(latest),
        );
    }

    /// Makes this change to it.
    pub(crate) fn change(&mut self, change: &PopupChange)
        ensures { self.new ≡ popup_by change.now self.old }
    {
        match *change {
            PopupChange::Place(placement) => self.placement = placement,
            PopupChange::Arrive(placed) => {
                self.placement = Some(placed);
                self.waiting = None;
            }
            PopupChange::Copy(positioner) => self.positioner = positioner,
            PopupChange::Grab => self.has_grab = true,
            PopupChange::Unmap => {
                self.has_grab = false;
                self.waiting = None;
            }
            PopupChange::Dismiss => {
                self.is_dismissed = true;
                self.has_grab = false;
            }
            PopupChange::Orphan(xdg_surface) => {
                if self.parent == Some(xdg_surface) {
                    self.parent = None;
                }
            }
        }
    }
}
