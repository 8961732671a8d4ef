//! What stands at the front of a stream.

/// What stands at the front of a stream.
#[derive(Clone, Copy, Debug, PartialEq, Eq)]
pub enum Split {
    /// A whole message: the object that it is sent to, the opcode, and the size in bytes with the
    /// header.
    Message { object: u32, opcode: u16, size: u16 },
    /// Less than a header, or less than the message that the header begins.
    More,
    /// A header whose size is below 8, above 65,532 or no multiple of 4.
    Bad,
}
