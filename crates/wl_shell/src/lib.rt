//! The xdg_surfaces of a client (xdg-shell.xml), with their toplevels and popups; positioners, and
//! where they place popups. Begin with [`Shell`], then [`XdgSurface`], [`Popup`] and
//! [`Positioner`]. Whose window is over which is left to wl_scene, and what a client is told to
//! wl_requests.
//!
//! An xdg_surface is found by the number of its surface.
#![tactic(auto)]

ghost use Rattle.wl_shell.specs.Laws.{AcknowledgementForgets, ChangesStand, MovesAgree};
ghost use Rattle.wl_shell.specs.Descent.{DescentsFound};
ghost use Rattle.wl_shell.specs.Dismissing.{DismissalsEnd};
ghost use Rattle.wl_shell.specs.Found.{ShellsFind};
ghost use Rattle.wl_shell.specs.InOrder.{PopupsFollow};
ghost use Rattle.wl_shell.specs.ShellLaws.{ShellsStand};

mod acts;
mod error;
mod placing;
mod popup;
mod popups;
mod positioner;
mod role_object;
mod settings;
mod shell;
mod stage;
mod xdg_surface;

pub use acts::{Configure, Placed, ShellAct};
pub use error::ShellError;
pub use popup::Popup;
pub use positioner::Positioner;
pub use settings::Setting;
pub use shell::{NewPopup, PopupNo, Shell};
pub use stage::Stage;
pub use xdg_surface::{Toplevel, XdgSurface};

/// An acknowledgement leaves fewer configures waiting.
pub fn acknowledgement_forgets()
    ensures { AcknowledgementForgets }
{}

/// A popup that is flipped, slid and resized, in this order, ends at the place that the definition
/// gives it (xdg-shell.xml, xdg_positioner.set_constraint_adjustment).
pub fn moves_agree()
    ensures { MovesAgree }
{}

/// The values kept of an xdg_surface stand for what the definition says of it, and still do after
/// each call.
pub fn changes_stand()
    ensures { ChangesStand }
{}

/// The values kept of all xdg_surfaces of a client stand for them, and still do after each change
/// of one.
pub fn shells_stand()
    ensures { ShellsStand }
{}

/// A search among the values kept finds what the definition finds: whether an xdg_surface may be
/// the parent of a popup, has a popup on it, or lets one grab.
pub fn shells_find()
    ensures { ShellsFind }
{}

/// The popups that go when a popup or toplevel is dismissed are those that the definition names.
/// Each popup is younger than its parent, and a client has at most 256.
pub fn descents_found()
    ensures { DescentsFound }
{}

/// Popups that are dismissed one by one, until all that go are gone, come to what the definition
/// makes of them at once.
pub fn dismissals_end()
    ensures { DismissalsEnd }
{}

/// A search for a popup finds the next in order of creation: the first, the next, and the one
/// before. It also finds the newest that still goes when a popup or toplevel is dismissed.
pub fn popups_follow()
    ensures { PopupsFollow }
{}
