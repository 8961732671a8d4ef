//! The ways by which a message of a client leads on while the pointer is put aside. It leads at
//! once to the last desktop, or by one on which a struck client still lives. The laws also say what
//! is marked when a client ends. Each law is a function that promises it.

ghost use Rattle.law_desktop.specs.WaysLaws.{EndIsGone, EndedIsGone, GoneMarksLeast, GoneMarksMost, GoneWindows, LeftIsGone, MessagesAreServed};
ghost use Rattle.law_desktop.specs.WaysLaws.{MessagesLeadSo, StruckMarks, TwiceMarks, UntoldIsGone};

/// A message of a living client, with its answer, leads to its desktop by one of the ways.
pub fn messages_lead_so()
    ensures { MessagesLeadSo }
{}

/// The message is served in this way.
pub fn messages_are_served()
    ensures { MessagesAreServed }
{}

/// A client that ended by its own message is gone: the others own what they did, and their
/// toplevels stand as they did.
pub fn ended_is_gone()
    ensures { EndedIsGone }
{}

/// The same holds of a client that ends by itself.
pub fn end_is_gone()
    ensures { EndIsGone }
{}

/// The same holds of a client that ends when it is told of a frame.
pub fn untold_is_gone()
    ensures { UntoldIsGone }
{}

/// The same holds of a client that leaves.
pub fn left_is_gone()
    ensures { LeftIsGone }
{}

/// The windows of a client that is gone are gone, and those of the others stay.
pub fn gone_windows()
    ensures { GoneWindows }
{}

/// All that is marked at least when a client ends lies in a window that it had.
pub fn gone_marks_least()
    ensures { GoneMarksLeast }
{}

/// Each point of the output in a window that it had is among what is marked at most.
pub fn gone_marks_most()
    ensures { GoneMarksMost }
{}

/// The way that leads at once to its last desktop marks what that step marks.
pub fn twice_marks()
    ensures { TwiceMarks }
{}

/// A way by a struck client marks what the message's own change marks, and the windows that its
/// client had then.
pub fn struck_marks()
    ensures { StruckMarks }
{}
