//! Which toplevels stand while nobody points, with subsurfaces and with popups: exactly those that
//! are mapped. A surface that is mapped shows a buffer, be it a toplevel's or a popup's. Each step
//! keeps this, and each single message, whatever is left out. Each law is a function that does
//! nothing and promises it.

ghost use Rattle.law_desktop.specs.ShownLaws.{EmptyIsShown, EndsKeepShown, FramesKeepShown, MessagesKeepShown};
ghost use Rattle.law_desktop.specs.ShownLaws.{PiecesKeepShown, ShownStays};

/// On a desktop without clients no toplevel stands, and none is mapped.
pub fn empty_is_shown()
    ensures { EmptyIsShown }
{}

/// If exactly the mapped toplevels stand, they still do after whatever leaves the pointer alone.
pub fn shown_stays()
    ensures { ShownStays }
{}

/// They still do after one message of a client.
pub fn messages_keep_shown()
    ensures { MessagesKeepShown }
{}

/// They still do when a client's stream is kept, before its messages are taken.
pub fn pieces_keep_shown()
    ensures { PiecesKeepShown }
{}

/// They still do after the end of a client.
pub fn ends_keep_shown()
    ensures { EndsKeepShown }
{}

/// They still do after a frame that a client is told of.
pub fn frames_keep_shown()
    ensures { FramesKeepShown }
{}
