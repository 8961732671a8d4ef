//! The law of which windows a message of a client changes. It is a function that promises it.

ghost use Rattle.law_desktop.specs.Messages.{MessagesChangeOneToplevel};

/// While nobody points, a message of a client that lives on changes the windows stacked with one
/// toplevel, or none, whatever is left out.
pub fn messages_change_one_toplevel()
    ensures { MessagesChangeOneToplevel }
{}
