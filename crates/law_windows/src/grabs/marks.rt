//! The laws of what is marked when popups of a client are dismissed (xdg-shell.xml,
//! xdg_popup.popup_done). Each law is a function that promises it.

ghost use Rattle.law_windows.specs.Grabs.Marks.{DismissalMarks};

/// In the output, the points of the windows that go have to be marked, and no others.
pub fn dismissal_marks()
    ensures { DismissalMarks }
{}
