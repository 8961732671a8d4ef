//! The arguments of a message, read in turn.

ghost use Rattle.std.specs.Prelude.{◌≡◌, ◌+◌, ◌≤◌, ◌↔◌, [], length, take, drop, IfOk, IfErr, IsOk};
ghost use Rattle.std.specs.Int.{w32, to_le_bytes, from_le_bytes};
ghost use Rattle.wl_wire.specs.Wire.{Reads, Takes, AWord, ANumber, AText, ABlock, Word, Number, Text, Block};

use crate::{ArgError, Fixed};
use std::marker::Model;

pub(crate) fn word_at(bytes: &[u8], at: usize) -> u32
    requires { at + 4 ≤ length bytes.now }
    ensures value { result ≡ from_le_bytes w32 (take 4 (drop at bytes.now)) }
    ensures spelled { to_le_bytes w32 result ≡ take 4 (drop at bytes.now) }
{
    u32::from_le_bytes([bytes[at], bytes[at + 1], bytes[at + 2], bytes[at + 3]])
}

/// Reads the arguments of a message in turn. Contracts see it as the list of the bytes that are
/// left.
///
/// An error leaves it as it was.
#[derive(Drop)]
pub struct Args<'a> {
    rest: &'a [u8],
}

impl<'a> Model for Args<'a> {
    ghost use Rattle.std.specs.Prelude.{List, ℕ};

    ghost Value = { List ℕ };

    ghost view = { λ a. a.rest.now };
}

impl<'a> Args<'a> {
    /// Begins to read the arguments that these bytes spell.
    pub fn new(body: &'a [u8]) -> Self
        ensures { result ≡ body.now }
    {
        Args { rest: body }
    }

    /// Reads a uint, the id of an object or a new id.
    pub fn uint(&mut self) -> Result<u32, ArgError>
        ensures exact { Reads AWord (λ n. Word n) result self.old self.new }
        ensures spelled { IfOk result (λ n. Takes self.old (Word n) self.new) }
    {
        if self.rest.len() < 4 {
            return Err(ArgError::Short);
        }
        let n = word_at(self.rest, 0);
        self.rest = &self.rest[4..];
        Ok(n)
    }

    /// Reads an int.
    pub fn int(&mut self) -> Result<i32, ArgError>
        ensures exact { Reads ANumber (λ n. Number n) result self.old self.new }
        ensures spelled { IfOk result (λ n. Takes self.old (Number n) self.new) }
    {
        let word = self.uint()?;
        Ok(word.cast_signed())
    }

    /// Reads a fixed.
    pub fn fixed(&mut self) -> Result<Fixed, ArgError>
        ensures exact { Reads ANumber (λ f. Number f.0) result self.old self.new }
        ensures spelled { IfOk result (λ f. Takes self.old (Number f.0) self.new) }
    {
        let number = self.int()?;
        Ok(Fixed(number))
    }

    /// Reads a string. The result lacks the final NUL; other NULs may be in it.
    pub fn string(&mut self) -> Result<&'a [u8], ArgError>
        ensures exact { Reads AText (λ text. Text text.now) result self.old self.new }
        ensures spelled { IfOk result (λ text. Takes self.old (Text text.now) self.new) }
    {
        if self.rest.len() < 4 {
            return Err(ArgError::Short);
        }
        let count = word_at(self.rest, 0) as usize;
        if count == 0 {
            return Err(ArgError::Null);
        }
        let whole = 4 + count + (4 - count % 4) % 4;
        if self.rest.len() < whole {
            return Err(ArgError::Short);
        }
        if self.rest[3 + count] != 0 {
            return Err(ArgError::NoNul);
        }
        let text = &self.rest[4..3 + count];
        self.rest = &self.rest[whole..];
        Ok(text)
    }

    /// Reads an array.
    pub fn array(&mut self) -> Result<&'a [u8], ArgError>
        ensures exact { Reads ABlock (λ block. Block block.now) result self.old self.new }
        ensures spelled { IfOk result (λ block. Takes self.old (Block block.now) self.new) }
    {
        if self.rest.len() < 4 {
            return Err(ArgError::Short);
        }
        let count = word_at(self.rest, 0) as usize;
        let whole = 4 + count + (4 - count % 4) % 4;
        if self.rest.len() < whole {
            return Err(ArgError::Short);
        }
        let block = &self.rest[4..4 + count];
        self.rest = &self.rest[whole..];
        Ok(block)
    }

    /// Ends the reading, and refuses bytes that are left over.
    pub fn finish(self) -> Result<(), ArgError>
        ensures ok { IsOk result ↔ (self.entry ≡ []) }
        ensures err { IfErr result (λ e. e ≡ ArgError.Extra) }
    {
        if self.rest.is_empty() {
            Ok(())
        } else {
            Err(ArgError::Extra)
        }
    }
}
