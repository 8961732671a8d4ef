//! A writer that fails or goes in small pieces at a chosen call.

ghost use Rattle.std.specs.Prelude.{◌≡◌, ◌≢◌, ◌+◌, ◌<◌, ◌≤◌, ◌⊎◌, ◌↔◌, [], Some, IsTrue, IsOk, IsErr, IfErr, IfOk, length, min};
ghost use Rattle.std.specs.Vec.{vec_len, vec_capacity};
ghost use Rattle.std.specs.IoError.{error_kind};
ghost use Rattle.std.specs.Io.{WritesAtMost};
ghost use Rattle.std.specs.Io.KnownBytes.{WriteAppends, Keeps};

use std::alloc::Allocator;
use std::io;
use std::io::{ErrorKind, Write};

/// A writer into memory, which can go in small pieces and fail once.
#[derive(Drop)]
pub struct FaultyWriter<A: Allocator> {
    /// The bytes that were taken.
    pub written: Vec<u8, A>,
    /// The most bytes that one call takes.
    pub largest: usize,
    /// The calls of `write` and `flush` so far.
    pub calls: u64,
    /// The call that fails, the first one being 0. It takes nothing, and the next goes on.
    pub fails_at: u64,
}

impl<A: Allocator> FaultyWriter<A> {
    /// Takes all that it is given, and doesn't fail.
    pub fn new(alloc: A) -> FaultyWriter<A>
        ensures written { result.written.items ≡ [] }
        ensures largest { result.largest ≡ usize.MAX }
        ensures calls { result.calls ≡ 0 }
        ensures fails_at { result.fails_at ≡ u64.MAX }
    {
        FaultyWriter {
            written: Vec::new(alloc),
            largest: usize::MAX,
            calls: 0,
            fails_at: u64::MAX,
        }
    }

    /// Takes one byte a call from here on.
    pub fn byte_by_byte(mut self) -> FaultyWriter<A>
        ensures { result ≡ record self { largest = 1 } }
    {
        self.largest = 1;
        self
    }

    /// Fails at this call, the first one being 0.
    pub fn failing_at(mut self, call: u64) -> FaultyWriter<A>
        ensures { result ≡ record self { fails_at = call } }
    {
        self.fails_at = call;
        self
    }

    /// Whether the call that fails was made.
    pub fn has_failed(&self) -> bool
        ensures { IsTrue result ↔ (self.now.fails_at < self.now.calls) }
    {
        self.calls > self.fails_at
    }
}

impl<A: Allocator> Write for FaultyWriter<A> {
    ghost contents = { λ writer. Some writer.written.items };

    fn write(&mut self, buf: &[u8]) -> io::Result<usize>
        ensures bound { WritesAtMost result buf.now }
        ensures bytes { WriteAppends (Some self.old.written.items) (Some self.new.written.items) result buf.now }
        ensures fails { self.old.calls ≡ self.old.fails_at → IsErr result }
        ensures cause { IfErr result (λ e. (self.old.calls ≡ self.old.fails_at) ⊎ (error_kind e ≡ ErrorKind.OutOfMemory)) }
        ensures count { IfOk result (λ n. n ≡ min (length buf.now) self.old.largest) }
        ensures room { self.old.calls ≢ self.old.fails_at → vec_len self.old.written + min (length buf.now) self.old.largest ≤ vec_capacity self.old.written → IsOk result }
        ensures calls { self.new.calls ≡ min (self.old.calls + 1) u64.MAX }
    {
        let call = self.calls;
        self.calls = call.saturating_add(1);
        if call == self.fails_at {
            return Err(io::Error::from(ErrorKind::Other));
        }
        let count = buf.len().min(self.largest);
        match self.written.extend_from_slice(&buf[..count]) {
            Ok(()) => Ok(count),
            Err(_) => Err(io::Error::from(ErrorKind::OutOfMemory)),
        }
    }

    fn flush(&mut self) -> io::Result<()>
        ensures bytes { Keeps (Some self.old.written.items) (Some self.new.written.items) }
        ensures fails { IsErr result ↔ (self.old.calls ≡ self.old.fails_at) }
        ensures calls { self.new.calls ≡ min (self.old.calls + 1) u64.MAX }
    {
        let call = self.calls;
        self.calls = call.saturating_add(1);
        if call == self.fails_at {
            return Err(io::Error::from(ErrorKind::Other));
        }
        Ok(())
    }
}
