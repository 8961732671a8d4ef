//! A hub in memory with one client, which can go in small pieces, block once and fail once.

ghost use Rattle.std.specs.Prelude.{◌≡◌, ◌++◌, None, IfSome, IfNone};
ghost use Rattle.wl_server.specs.Faults.{Rose};

use std::alloc::Allocator;
use wl_server::{Hub, HubFault};

/// A client's end. Where it is open, it may send more later.
#[derive(Drop)]
pub(crate) struct Client<'a, A: Allocator> {
    pub(crate) sends: &'a [u8],
    pub(crate) is_open: bool,
    pub(crate) taken: Vec<u8, A>,
}

impl<'a, A: Allocator> Client<'a, A> {
    pub(crate) fn new(alloc: A, sends: &'a [u8], is_open: bool) -> Client<'a, A> {
        Client {
            sends,
            is_open,
            taken: Vec::new(alloc),
        }
    }
}

/// The number of a call that isn't made.
pub(crate) const NEVER: u64 = u64::MAX;

/// A hub for one client, whose reads and writes move at most `largest` bytes a call. Calls of
/// either kind are counted from 0.
#[derive(Drop)]
pub(crate) struct MemoryHub<'a, A: Allocator> {
    pub(crate) waiting: Option<Client<'a, A>>,
    pub(crate) largest: usize,
    pub(crate) blocks_at: u64,
    pub(crate) fails_at: u64,
    calls: u64,
    faults: u64,
}

impl<'a, A: Allocator> MemoryHub<'a, A> {
    pub(crate) fn new(
        waiting: Client<'a, A>,
        largest: usize,
        blocks_at: u64,
        fails_at: u64,
    ) -> MemoryHub<'a, A> {
        MemoryHub {
            waiting: Some(waiting),
            largest,
            blocks_at,
            fails_at,
            calls: 0,
            faults: 0,
        }
    }

    fn fault(&mut self) -> HubFault
        ensures { Rose self.old.faults self.new.faults }
    {
        self.faults = self.faults.saturating_add(1);
        HubFault
    }

    fn next_call(&mut self) -> u64
        ensures { self.new ≡ record self.old { calls = self.new.calls } }
    {
        let call = self.calls;
        self.calls = call.saturating_add(1);
        call
    }
}

impl<'a, A: Allocator> Hub for MemoryHub<'a, A> {
    type Conn = Client<'a, A>;

    ghost fault_count = { λ hub. hub.faults };

    ghost accepts = { λ old conn new. (conn ≡ old.waiting) × (new.waiting ≡ None) };

    ghost reads = { λ _ old got _ new. IfSome got (λ bytes. old.sends.now ≡ bytes ++ new.sends.now) × IfNone got (new ≡ old) };

    ghost writes = { λ _ old got _ new. IfSome got (λ bytes. new.taken.items ≡ old.taken.items ++ bytes) × IfNone got (new ≡ old) };

    ghost closes = { λ old _ new. new ≡ old };

    fn accept(&mut self) -> Result<Option<Client<'a, A>>, HubFault> {
        Ok(self.waiting.take())
    }

    fn read(
        &mut self,
        conn: &mut Client<'a, A>,
        buf: &mut [u8],
    ) -> Result<Option<usize>, HubFault> {
        let call = self.next_call();
        if call == self.fails_at {
            return Err(self.fault());
        }
        if call == self.blocks_at || (conn.is_open && conn.sends.is_empty()) {
            return Ok(None);
        }
        let count = buf.len().min(conn.sends.len()).min(self.largest);
        let (front, rest) = conn.sends.split_at(count);
        buf[..count].copy_from_slice(front);
        conn.sends = rest;
        Ok(Some(count))
    }

    fn write(&mut self, conn: &mut Client<'a, A>, bytes: &[u8]) -> Result<Option<usize>, HubFault> {
        let call = self.next_call();
        if call == self.fails_at {
            return Err(self.fault());
        }
        if call == self.blocks_at {
            return Ok(None);
        }
        let count = bytes.len().min(self.largest);
        match conn.taken.extend_from_slice(&bytes[..count]) {
            Ok(()) => Ok(Some(count)),
            Err(_) => Err(self.fault()),
        }
    }

    fn close(&mut self, conn: Client<'a, A>) {
        drop(conn);
    }

    fn faults(&self) -> u64 {
        self.faults
    }
}

/// A hub whose clients keep what they take.
pub(crate) trait Kept: Hub {
    /// Whether a client took just these bytes.
    fn has_taken(client: &Self::Conn, bytes: &[u8]) -> bool;
}

impl<'a, A: Allocator> Kept for MemoryHub<'a, A> {
    fn has_taken(client: &Client<'a, A>, bytes: &[u8]) -> bool {
        client.taken.as_slice() == bytes
    }
}
