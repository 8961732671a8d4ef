//! A hub whose one connection reads pieces of random lengths.

ghost use Rattle.std.specs.Prelude.{⊤};

use crate::chance::Chance;
use std::alloc::Global;
use wl_server::{Hub, HubFault};

/// A hub of one connection that sends nothing. A write takes a piece of at most so many bytes, and
/// the next one would block.
#[derive(Drop)]
pub(crate) struct DripHub {
    chance: Chance,
    most: usize,
    is_there: bool,
    is_full: bool,
    /// Which lengths its pieces had: a bit for each remainder by 64.
    pub(crate) lengths: u64,
    pub(crate) taken: Vec<u8>,
}

impl DripHub {
    pub(crate) fn new(alloc: Global, seed: u64, most: usize) -> DripHub {
        DripHub {
            chance: Chance::new(seed),
            most,
            is_there: false,
            is_full: false,
            lengths: 0,
            taken: Vec::new(alloc),
        }
    }
}

impl Hub for DripHub {
    type Conn = u8;

    ghost fault_count = { λ _. 0 };

    ghost accepts = { λ _ _ _. ⊤ };

    ghost reads = { λ _ _ _ _ _. ⊤ };

    ghost writes = { λ _ _ _ _ _. ⊤ };

    ghost closes = { λ _ _ _. ⊤ };

    fn accept(&mut self) -> Result<Option<u8>, HubFault> {
        if self.is_there {
            return Ok(None);
        }
        self.is_there = true;
        Ok(Some(0))
    }

    fn read(&mut self, _conn: &mut u8, _buf: &mut [u8]) -> Result<Option<usize>, HubFault> {
        Ok(None)
    }

    fn write(&mut self, _conn: &mut u8, bytes: &[u8]) -> Result<Option<usize>, HubFault> {
        self.is_full = !self.is_full;
        let piece = self.chance.below(self.most).saturating_add(1);
        let count = bytes.len().min(piece);
        if !self.is_full || self.taken.extend_from_slice(&bytes[..count]).is_err() {
            return Ok(None);
        }
        self.lengths |= 1_u64 << (count % 64);
        Ok(Some(count))
    }

    fn close(&mut self, _conn: u8) {}

    fn faults(&self) -> u64 {
        0
    }
}
