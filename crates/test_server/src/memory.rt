//! A hub in memory with many clients, and side files of which there is one.

ghost use Rattle.std.specs.Prelude.{◌≤◌, ⊤, IfSome, length};
ghost use Rattle.wl_server.specs.Faults.{Rose};

use std::alloc::Global;
use wl_recording::{SideFault, SideFiles};
use wl_server::{Hub, HubFault};

/// A client's end. Where it is open, it may send more later.
#[derive(Drop)]
pub struct Client<'a> {
    pub sends: &'a [u8],
    pub is_open: bool,
    /// Whether its reads fail.
    pub is_broken: bool,
    /// How many bytes it takes before a write fails.
    pub room: usize,
    pub taken: Vec<u8>,
    pub is_closed: bool,
}

impl<'a> Client<'a> {
    /// A client that sends these bytes, stays, and takes everything.
    pub fn new(alloc: Global, sends: &'a [u8]) -> Client<'a> {
        Client {
            sends,
            is_open: true,
            is_broken: false,
            room: usize::MAX,
            taken: Vec::new(alloc),
            is_closed: false,
        }
    }
}

/// The number of a client, from 0.
#[derive(Clone, Copy, Debug, PartialEq, Eq)]
pub struct Place(usize);

/// A hub whose clients connect in turn, and whose writes move at most `largest` bytes a call.
#[derive(Drop)]
pub struct MemoryHub<'a> {
    pub clients: Vec<Client<'a>>,
    pub largest: usize,
    accepted: usize,
    faults: u64,
}

impl<'a> MemoryHub<'a> {
    pub fn new(clients: Vec<Client<'a>>, largest: usize) -> MemoryHub<'a> {
        MemoryHub {
            clients,
            largest,
            accepted: 0,
            faults: 0,
        }
    }

    fn fault(&mut self) -> HubFault
        ensures { Rose self.old.faults self.new.faults }
    {
        self.faults = self.faults.saturating_add(1);
        HubFault
    }
}

/// What one read of a client gives. None where it fails.
fn read_from(client: &mut Client, buf: &mut [u8]) -> Option<Option<usize>>
    ensures { IfSome result (λ got. IfSome got (λ n. n ≤ length buf.new)) }
{
    if client.is_broken {
        return None;
    }
    if client.is_open && client.sends.is_empty() {
        return Some(None);
    }
    let count = buf.len().min(client.sends.len());
    let (front, rest) = client.sends.split_at(count);
    buf[..count].copy_from_slice(front);
    client.sends = rest;
    Some(Some(count))
}

/// How many bytes one write to a client takes. None where it fails.
fn write_to(client: &mut Client, bytes: &[u8], largest: usize) -> Option<usize>
    ensures { IfSome result (λ n. n ≤ length bytes.now) }
{
    if client.room == 0 {
        return None;
    }
    let count = bytes.len().min(largest).min(client.room);
    client.taken.extend_from_slice(&bytes[..count]).ok()?;
    client.room -= count;
    Some(count)
}

impl<'a> Hub for MemoryHub<'a> {
    type Conn = Place;

    ghost fault_count = { λ hub. hub.faults };

    ghost accepts = { λ _ _ _. ⊤ };

    ghost reads = { λ _ _ _ _ _. ⊤ };

    ghost writes = { λ _ _ _ _ _. ⊤ };

    ghost closes = { λ _ _ _. ⊤ };

    fn accept(&mut self) -> Result<Option<Place>, HubFault> {
        let place = self.accepted;
        if place >= self.clients.len() {
            return Ok(None);
        }
        self.accepted = place + 1;
        Ok(Some(Place(place)))
    }

    fn read(&mut self, conn: &mut Place, buf: &mut [u8]) -> Result<Option<usize>, HubFault> {
        let Some(client) = self.clients.get_mut(conn.0) else {
            return Ok(None);
        };
        match read_from(client, buf) {
            Some(got) => Ok(got),
            None => Err(self.fault()),
        }
    }

    fn write(&mut self, conn: &mut Place, bytes: &[u8]) -> Result<Option<usize>, HubFault> {
        let largest = self.largest;
        let Some(client) = self.clients.get_mut(conn.0) else {
            return Ok(None);
        };
        match write_to(client, bytes, largest) {
            Some(count) => Ok(Some(count)),
            None => Err(self.fault()),
        }
    }

    fn close(&mut self, conn: Place) {
        if let Some(client) = self.clients.get_mut(conn.0) {
            client.is_closed = true;
        }
    }

    fn faults(&self) -> u64 {
        self.faults
    }
}

/// Side files of which there is none but one, which is empty. It counts how often that one was
/// opened.
#[derive(Drop)]
pub struct OneFile<'a> {
    pub name: &'a str,
    pub opened: u64,
}

impl SideFiles for OneFile<'_> {
    ghost fault_count = { λ _. 0 };

    ghost gives = { λ _ _ _. ⊤ };

    ghost opens = { λ _ _ _ _ _. ⊤ };

    fn open(&mut self, name: &str, _from: u32) -> Result<bool, SideFault> {
        let is_there = name == self.name;
        if is_there {
            self.opened = self.opened.saturating_add(1);
        }
        Ok(is_there)
    }

    fn read(&mut self, _buf: &mut [u8]) -> Result<usize, SideFault> {
        Ok(0)
    }

    fn faults(&self) -> u64 {
        0
    }
}
