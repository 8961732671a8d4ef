//! The laws of the windows when popups of a client are dismissed (xdg-shell.xml,
//! xdg_popup.popup_done). Each law is a function that promises it.

ghost use Rattle.law_windows.specs.Grabs.Windows.{DismissedStaysShown, DismissedStaysWhole, DismissedWindowsGo};

/// The windows of the trees of dismissed popups go, and all others stay as they are, where they
/// are.
pub fn dismissed_windows_go()
    ensures { DismissedWindowsGo }
{}

/// Exactly the mapped toplevels still stand.
pub fn dismissed_stays_shown()
    ensures { DismissedStaysShown }
{}

/// Toplevels, popups and subsurfaces still make trees.
pub fn dismissed_stays_whole()
    ensures { DismissedStaysWhole }
{}
