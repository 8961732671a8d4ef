ghost use Rattle.std.specs.Prelude.{◌≡◌, ◌≤◌, [], length, max, replicate, OnOk, OnErr};

use std::alloc::{AllocError, Allocator};
use std::marker::Model;
use std::mem;

/// The zeros that blank stores lend: one run, from whose front each lends as many as it needs.
#[derive(Drop)]
pub(crate) struct Zeros<A: Allocator> {
    bytes: Vec<u8, A>,
}

impl<A: Allocator> Model for Zeros<A> {
    ghost use Rattle.std.specs.Prelude.{◌≡◌, ℕ, length, replicate};

    ghost Value = { ℕ };

    ghost view = { λ zeros. length zeros.bytes.items };

    ghost invariant = { λ zeros. zeros.bytes.items ≡ replicate (length zeros.bytes.items) 0 };
}

impl<A: Allocator> Zeros<A> {
    /// No zeros. It keeps the allocator.
    pub(crate) fn none(alloc: A) -> Self
        ensures { result ≡ 0 }
    {
        Zeros {
            bytes: Vec::new(alloc),
        }
    }

    /// How many zeros there are.
    pub(crate) fn count(&self) -> usize
        ensures { result ≡ self.now }
    {
        self.bytes.len()
    }

    /// Lends the first `count` zeros.
    pub(crate) fn first(&self, count: u32) -> &[u8]
        requires { count ≤ self.now }
        ensures { result.now ≡ replicate count 0 }
    {
        &self.bytes[..count as usize]
    }

    /// Adds zeros up to this count, if there are fewer. An error leaves them as they were.
    pub(crate) fn grow_to(&mut self, count: u32) -> Result<(), AllocError>
        ensures ok { OnOk result (self.new ≡ max self.old count) }
        ensures err { OnErr result (self.new ≡ self.old) }
    {
        let count = count as usize;
        if count <= self.bytes.len() {
            return Ok(());
        }
        self.bytes.resize(count, 0)
    }

    /// Puts the zeros into an empty Vec, and takes its room.
    pub(crate) fn exchange(&mut self, room: &mut Vec<u8, A>)
        requires { room.old.items ≡ [] }
        ensures given { room.new.items ≡ replicate self.old 0 }
        ensures none { self.new ≡ 0 }
    {
        mem::swap(&mut self.bytes, room);
    }

    /// Frees the zeros, and the room for them.
    pub(crate) fn release(&mut self)
        ensures { self.new ≡ 0 }
    {
        self.bytes.clear();
        self.bytes.shrink_to(0);
    }
}
