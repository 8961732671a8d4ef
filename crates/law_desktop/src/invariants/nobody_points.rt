//! Desktops where nobody points, with popups or without: no client was told of a button, and none
//! holds a grab. Each law is a function that does nothing and promises it.

ghost use Rattle.law_desktop.specs.NobodyPointsLaws.{EmptyIsUnpointed, EndsKeepUnpointed, FramesKeepUnpointed, GrabsAreRefused};
ghost use Rattle.law_desktop.specs.NobodyPointsLaws.{GrabsDismiss, MessagesKeepUnpointed, PiecesKeepUnpointed, UnpointedStays};

/// On a desktop without clients nobody points.
pub fn empty_is_unpointed()
    ensures { EmptyIsUnpointed }
{}

/// If nobody points, nobody does after whatever leaves the pointer alone.
pub fn unpointed_stays()
    ensures { UnpointedStays }
{}

/// If nobody points, nobody does after one message of a client.
pub fn messages_keep_unpointed()
    ensures { MessagesKeepUnpointed }
{}

/// If nobody points, nobody does when a client's stream is kept, before its messages are taken.
pub fn pieces_keep_unpointed()
    ensures { PiecesKeepUnpointed }
{}

/// If nobody points, nobody does after the end of a client.
pub fn ends_keep_unpointed()
    ensures { EndsKeepUnpointed }
{}

/// If nobody points, nobody does after a frame that a client is told of.
pub fn frames_keep_unpointed()
    ensures { FramesKeepUnpointed }
{}

/// While nobody points, no popup may have a grab.
pub fn grabs_are_refused()
    ensures { GrabsAreRefused }
{}

/// Then a popup that asks for a grab is dismissed, with its descendants (xdg-shell.xml,
/// xdg_popup.grab).
pub fn grabs_dismiss()
    ensures { GrabsDismiss }
{}
