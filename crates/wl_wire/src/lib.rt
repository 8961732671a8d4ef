//! Messages on the wire (Wayland protocol, "Wire Format"): headers, arguments, and the bytes that
//! spell them. Begin with [`split`], which finds a message, then [`Args`], which reads one, and
//! [`put`], which writes one. Which messages there are is left to wl_proto.
//!
//! A message is an object id, a word, and the arguments. The upper half of the word is the size in
//! bytes, the header included; its lower half is the opcode. All numbers are little endian. Each
//! argument takes whole words of four bytes. What fills up its last word is free when it is read
//! and zero when it is written.
#![tactic(auto)]

ghost use Rattle.std.specs.Prelude.{◌≡◌};
ghost use Rattle.wl_wire.specs.Wire.{split_of};
ghost use Rattle.wl_wire.specs.Laws.{IsFoundAgain, HasNoProperPrefix, IsReadAsSpelled, IsSpelledAsWritten};

mod argument;
mod error;
mod header;
mod reading;
mod writing;

pub use argument::{Arg, Fixed};
pub use error::{ArgError, PutError};
pub use header::Split;
pub use reading::Args;
use reading::word_at;
pub use writing::{message_size, put};

/// Looks for the first message of a stream. `bytes` are what was received of it so far.
///
/// A size that isn't allowed is told as soon as the header is there.
pub fn split(bytes: &[u8]) -> Split
    ensures { result ≡ split_of bytes.now }
{
    if bytes.len() < 8 {
        return Split::More;
    }
    let object = word_at(bytes, 0);
    let word = word_at(bytes, 4);
    let size = (word / 65536) as u16;
    let opcode = (word % 65536) as u16;
    if size < 8 || size > 65532 || size % 4 != 0 {
        Split::Bad
    } else if bytes.len() < size as usize {
        Split::More
    } else {
        Split::Message {
            object,
            opcode,
            size,
        }
    }
}

/// Whatever follows a message, `split` finds the message.
pub fn is_found_again()
    ensures { IsFoundAgain }
{}

/// No spelling of a message is a proper prefix of a spelling of a message.
pub fn has_no_proper_prefix()
    ensures { HasNoProperPrefix }
{}

/// The arguments that are read from a whole body are those that its bytes spell, and no others.
pub fn is_read_as_spelled()
    ensures { IsReadAsSpelled }
{}

/// What `put` writes is a spelling, with zeros where padding is free.
pub fn is_spelled_as_written()
    ensures { IsSpelledAsWritten }
{}
