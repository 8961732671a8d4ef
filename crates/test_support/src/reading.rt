//! What the reader that fails gives, by `read` and as a buffer.

ghost use Rattle.std.specs.Prelude.{◌≡◌, ◌+◌, ◌↔◌, [], None, Some, IfOk, IsErr, length, min};
ghost use Rattle.std.specs.Borrow.{sem};
ghost use Rattle.std.specs.Io.{ReadsAtMost, StartsWith};
ghost use Rattle.std.specs.Io.BufRead.{FillKeeps, Rests};
ghost use Rattle.std.specs.Io.KnownBytes.{ReadConsumes};
ghost use Rattle.test_support.specs.contracts.reader.FaultyReader.{the_row};
ghost use mir.Syntax.{named};

use crate::reader::FaultyReader;
use std::io;
use std::io::{BufRead, ErrorKind, Read};

impl Read for FaultyReader<'_> {
    ghost remaining = { λ reader. Some reader.rest.now };

    fn read(&mut self, buf: &mut [u8]) -> io::Result<usize>
        ensures bound { ReadsAtMost result buf.new }
        ensures bytes { ReadConsumes (Some self.old.rest.now) (Some self.new.rest.now) result buf.new }
        ensures fails { IsErr result ↔ (self.old.calls ≡ self.old.fails_at) }
        ensures count { IfOk result (λ n. n ≡ min (min (length buf.new) (length self.old.rest.now)) self.old.largest) }
        ensures calls { self.new.calls ≡ min (self.old.calls + 1) u64.MAX }
    {
        let call = self.calls;
        self.calls = call.saturating_add(1);
        if call == self.fails_at {
            return Err(io::Error::from(ErrorKind::Other));
        }
        let count = buf.len().min(self.rest.len()).min(self.largest);
        let (front, rest) = self.rest.split_at(count);
        buf[..count].copy_from_slice(front);
        self.rest = rest;
        Ok(count)
    }
}

impl BufRead for FaultyReader<'_> {
    fn fill_buf(&mut self) -> io::Result<&[u8]>
        ensures front { IfOk result (λ s. StartsWith self.old.rest.now s.now) }
        ensures end { IfOk result (λ s. length s.now ≡ 0 → self.old.rest.now ≡ []) }
        ensures* after_borrow { sem 𝓛 (Rests (the_row (record { mir = named 1; lft = [] })) self.entry (λ new. FillKeeps (Some self.old.rest.now) (Some new.rest.now) None result)) }
        ensures fails { IsErr result ↔ (self.old.calls ≡ self.old.fails_at) }
        ensures count { IfOk result (λ s. length s.now ≡ min (length self.old.rest.now) self.old.largest) }
    {
        let call = self.calls;
        self.calls = call.saturating_add(1);
        if call == self.fails_at {
            return Err(io::Error::from(ErrorKind::Other));
        }
        let count = self.rest.len().min(self.largest);
        Ok(&self.rest[..count])
    }

    fn consume(&mut self, amount: usize) {
        let count = amount.min(self.rest.len());
        self.rest = &self.rest[count..];
    }
}
