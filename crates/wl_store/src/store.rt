ghost use Rattle.std.specs.Prelude.{◌≡◌, ◌+◌, ◌-◌, ◌≤◌, ◌++◌, length, take, drop, replicate, false, true, IfOk, OnOk, OnErr};
ghost use Rattle.wl_store.specs.Kept.{filled, zeros_lent};

use crate::zeros::Zeros;
use std::alloc::{AllocError, Allocator};
use std::marker::Model;

/// One store: its number, its bytes, and how many uses it has.
///
/// It is blank until something is written to it. A blank store has room for its bytes and holds
/// none yet. It lends the zeros that all blank stores share. So it takes no longer to make or to
/// enlarge a large one than a small one.
#[derive(Drop)]
pub(crate) struct Store<A: Allocator> {
    number: u32,
    size: u32,
    // Empty while the store is blank. It has room for all of them then.
    bytes: Vec<u8, A>,
    uses: u32,
}

impl<A: Allocator> Model for Store<A> {
    ghost use Rattle.std.specs.Prelude.{◌-◌, ◌++◌, length, nat_lt, replicate};
    ghost use Rattle.std.specs.Vec.{vec_capacity};
    ghost use Rattle.wl_store.specs.Kept.{HoldsBytes, Kept};

    ghost Value = { Kept };

    ghost view = { λ store. record { held = record { number = store.number; bytes = store.bytes.items ++ replicate (store.size - length store.bytes.items) 0; uses = store.uses }; blank = nat_lt (length store.bytes.items) store.size } };

    ghost invariant = { λ store. HoldsBytes store.size (vec_capacity store.bytes) store.bytes.items };
}

impl<A: Allocator> Store<A> {
    /// A blank store of this size, with one use.
    pub(crate) fn blank(alloc: A, number: u32, size: u32) -> Result<Self, AllocError>
        ensures { IfOk result (λ s. s.held ≡ record { number = number; bytes = replicate size 0; uses = 1 }) }
    {
        Ok(Store {
            number,
            size,
            bytes: Vec::with_capacity(alloc, size as usize)?,
            uses: 1,
        })
    }

    pub(crate) fn number(&self) -> u32
        ensures { result ≡ self.now.held.number }
    {
        self.number
    }

    pub(crate) fn uses(&self) -> u32
        ensures { result ≡ self.now.held.uses }
    {
        self.uses
    }

    pub(crate) fn size(&self) -> u32
        ensures value { result ≡ length self.now.held.bytes }
    {
        self.size
    }

    pub(crate) fn is_blank(&self) -> bool
        ensures { result ≡ self.now.blank }
    {
        self.bytes.len() < self.size as usize
    }

    /// The bytes as they are now. A blank store lends as many of these zeros.
    pub(crate) fn bytes<'a>(&'a self, zeros: &'a Zeros<A>) -> &'a [u8]
        requires { zeros_lent self.now ≤ zeros.now }
        ensures { result.now ≡ self.now.held.bytes }
    {
        if self.is_blank() {
            zeros.first(self.size)
        } else {
            &self.bytes
        }
    }

    /// Gives a blank store bytes of its own, for which it has room. If another store lends the
    /// zeros, they stay. Else they become its bytes if they are as many, and are freed if they
    /// aren't.
    pub(crate) fn fill(&mut self, zeros: &mut Zeros<A>, are_shared: bool)
        requires { self.old.blank ≡ true }
        ensures filled { self.new ≡ filled self.old }
        ensures zeros { are_shared ≡ true → zeros.new ≡ zeros.old }
    {
        let size = self.size as usize;
        if !are_shared && zeros.count() == size {
            zeros.exchange(&mut self.bytes);
        } else {
            // There is room for them.
            let _filled = self.bytes.resize(size, 0);
        }
        if !are_shared {
            zeros.release();
        }
    }

    /// Writes bytes from `at` on. The store isn't blank.
    pub(crate) fn write(&mut self, at: u32, bytes: &[u8])
        requires within { at + length bytes.now ≤ length self.old.held.bytes }
        requires filled { self.old.blank ≡ false }
        ensures { self.new ≡ record self.old { held = record self.old.held { bytes = take at self.old.held.bytes ++ bytes.now ++ drop (at + length bytes.now) self.old.held.bytes } } }
    {
        let start = at as usize;
        self.bytes[start..start + bytes.len()].copy_from_slice(bytes);
    }

    pub(crate) fn set_uses(&mut self, uses: u32)
        ensures { self.new ≡ record self.old { held = record self.old.held { uses = uses } } }
    {
        self.uses = uses;
    }
}

impl<A: Allocator + Copy> Store<A> {
    /// Puts zeros at the end, up to this size. A blank store gets room for so many bytes, and
    /// copies none. An error leaves it as it was.
    pub(crate) fn grow(&mut self, size: u32) -> Result<(), AllocError>
        requires { length self.old.held.bytes ≤ size }
        ensures ok { OnOk result (self.new.held ≡ record self.old.held { bytes = self.old.held.bytes ++ replicate (size - length self.old.held.bytes) 0 }) }
        ensures blank { OnOk result (self.old.blank ≡ false → self.new.blank ≡ false) }
        ensures err { OnErr result (self.new ≡ self.old) }
    {
        let count = size as usize;
        if !self.is_blank() {
            self.bytes.resize(count, 0)?;
        } else if self.bytes.capacity() < count {
            self.bytes = Vec::with_capacity(*self.bytes.allocator(), count)?;
        }
        self.size = size;
        Ok(())
    }
}
