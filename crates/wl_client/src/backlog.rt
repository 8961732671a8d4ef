//! Bytes that wait: they come in at the end and are taken at the front.

ghost use Rattle.std.specs.Prelude.{◌≡◌, ◌≤◌, [], ◌++◌, length, drop, OnOk, OnErr};
ghost use Rattle.wl_proto.specs.Messages.{event_message};
ghost use Rattle.wl_proto.specs.Spelling.{Puts};

use std::alloc::{AllocError, Allocator};
use std::marker::Model;
use wl_proto::{Event, encode};
use wl_wire::PutError;

/// Bytes that wait to be read or sent, first in, first out. Contracts see it as the bytes that
/// wait.
///
/// Taking only steps over bytes. Their room is used again once it is at least as large as what
/// still waits. So taking costs its own size over any number of calls.
#[derive(Drop)]
pub struct Backlog<A: Allocator> {
    bytes: Vec<u8, A>,
    taken: usize,
}

impl<A: Allocator> Model for Backlog<A> {
    ghost use Rattle.std.specs.Prelude.{List, ℕ, drop, length, ◌≤◌};

    ghost Value = { List ℕ };

    ghost view = { λ b. drop b.taken b.bytes.items };

    ghost invariant = { λ b. b.taken ≤ length b.bytes.items };
}

impl<A: Allocator> Backlog<A> {
    /// Nothing waits yet. It takes no memory.
    pub fn new(alloc: A) -> Self
        ensures { result ≡ [] }
    {
        Backlog {
            bytes: Vec::new(alloc),
            taken: 0,
        }
    }

    /// The bytes that wait.
    pub fn as_slice(&self) -> &[u8]
        ensures { result.now ≡ self.now }
    {
        &self.bytes[self.taken..]
    }

    /// Adds bytes at the end. An `Err` changes nothing.
    pub fn append(&mut self, more: &[u8]) -> Result<(), AllocError>
        ensures ok { OnOk result (self.new ≡ self.old ++ more.now) }
        ensures err { OnErr result (self.new ≡ self.old) }
    {
        self.make_room();
        self.bytes.extend_from_slice(more)
    }

    /// Adds an event's message at the end. An `Err` changes nothing; it is `TooLong` if the message
    /// would pass 65,532 bytes.
    pub fn encode(&mut self, event: &Event) -> Result<(), PutError>
        ensures { Puts event.now.object (event_message event.now.body) result self.old self.new }
    {
        self.make_room();
        encode(event, &mut self.bytes)
    }

    /// Takes `count` bytes at the front.
    pub fn take_front(&mut self, count: usize)
        requires { count ≤ length self.old }
        ensures { self.new ≡ drop count self.old }
    {
        self.taken += count;
    }

    /// Drops what waits.
    pub fn clear(&mut self)
        ensures { self.new ≡ [] }
    {
        self.bytes.clear();
        self.taken = 0;
    }

    /// Moves what waits to the front, if that is no more than what was taken since the last time.
    fn make_room(&mut self)
        ensures { self.new ≡ self.old }
    {
        let waiting = self.bytes.len() - self.taken;
        if waiting <= self.taken {
            self.bytes.copy_within(self.taken.., 0);
            self.bytes.truncate(waiting);
            self.taken = 0;
        }
    }
}
