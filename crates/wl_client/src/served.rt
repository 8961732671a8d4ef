//! What became of a client's first message.

use spec_desktop::{Action, Refusal};

/// What became of a client's first message.
#[derive(Clone, Copy, Debug, PartialEq, Eq)]
pub enum Served {
    /// It was taken and answered.
    Done,
    /// There is no whole message, or the client ended before. Nothing changed.
    More,
    /// It is to an object of an interface that isn't served here. Nothing changed.
    Other,
    /// It was taken, and the client ended. It was told of this error; out of memory that is
    /// wl_display's no_memory.
    Refused { object: u32, code: u32 },
}

/// What is to be done with a client's first message.
#[derive(Drop)]
pub(crate) enum Next {
    /// There is no whole message.
    More,
    /// It is to an object of an interface that isn't served here.
    Other,
    /// It is refused, whatever its own errors are.
    Refused(Refusal),
    /// It has this size, and asks this or has this error.
    Own(usize, Result<Action, Refusal>),
}
