//! Arguments to be written.

/// A signed number of 24 bits before and 8 bits behind the point, times 256.
#[derive(Clone, Copy, Debug, PartialEq, Eq)]
pub struct Fixed(pub i32);

/// An argument of a message.
#[derive(Clone, Copy, Debug)]
pub enum Arg<'a> {
    Uint(u32),
    Int(i32),
    Fixed(Fixed),
    /// A text without its final NUL.
    Str(&'a [u8]),
    Array(&'a [u8]),
    /// The id of an object; 0 is the null object.
    Object(u32),
    /// The id of an object that the message makes.
    NewId(u32),
}
