//! The laws of what a press dismisses, and of what is marked then (xdg-shell.xml, xdg_popup.grab;
//! wayland.xml, wl_pointer.button). Each law is a function that promises it.

ghost use Rattle.law_windows.specs.Grabs.Presses.{PressMarksAtLeast, PressMarksAtMost, PressesDismiss};

/// A press that hits no surface of the client that holds a grab dismisses its popups with a grab,
/// and their descendants.
pub fn presses_dismiss()
    ensures { PressesDismiss }
{}

/// A press that first raises a toplevel has to mark what has to be marked for raising it, or for
/// dismissing the popups.
pub fn press_marks_at_least()
    ensures { PressMarksAtLeast }
{}

/// It may mark the windows of the toplevel that it raised, and what has to be marked for dismissing
/// the popups.
pub fn press_marks_at_most()
    ensures { PressMarksAtMost }
{}
