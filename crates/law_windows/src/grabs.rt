//! The laws of popups that a press dismisses, since it hits no surface of the client that holds a
//! grab (xdg-shell.xml, xdg_popup.grab and xdg_popup.popup_done). They say what becomes of the
//! windows, which are stacked with several of its toplevels, and what is marked. Each law is a
//! function that promises it.

mod marks;
mod presses;
mod windows;

pub use marks::dismissal_marks;
pub use presses::{press_marks_at_least, press_marks_at_most, presses_dismiss};
pub use windows::{dismissed_stays_shown, dismissed_stays_whole, dismissed_windows_go};
