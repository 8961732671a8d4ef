//! A client that draws, moves and commits at random.

ghost use Rattle.std.specs.Prelude.{⊤};

use crate::chance::Chance;
use std::alloc::Global;
use wl_recording::{SideFault, SideFiles};

/// The globals wl_compositor, wl_shm and xdg_wm_base are bound as 3, 4 and 5. A toplevel of the
/// surface 6 gets its first commit, and acknowledges the configure of serial 1. A pool of 384 bytes
/// has two buffers of 8 by 6 pixels, 10 and 11.
const START: &[u8] = b"\x01\0\0\0\x01\0\x0c\0\x02\0\0\0\
\x02\0\0\0\0\0\x28\0\x01\0\0\0\x0e\0\0\0wl_compositor\0\0\0\x02\0\0\0\x03\0\0\0\
\x02\0\0\0\0\0\x20\0\x03\0\0\0\x07\0\0\0wl_shm\0\0\x01\0\0\0\x04\0\0\0\
\x02\0\0\0\0\0\x24\0\x06\0\0\0\x0c\0\0\0xdg_wm_base\0\x01\0\0\0\x05\0\0\0\
\x03\0\0\0\0\0\x0c\0\x06\0\0\0\
\x05\0\0\0\x02\0\x10\0\x07\0\0\0\x06\0\0\0\
\x07\0\0\0\x01\0\x0c\0\x08\0\0\0\
\x06\0\0\0\x06\0\x08\0\
\x07\0\0\0\x04\0\x0c\0\x01\0\0\0\
\x04\0\0\0\0\0\x10\0\x09\0\0\0\x80\x01\0\0\
\x09\0\0\0\0\0\x20\0\x0a\0\0\0\0\0\0\0\x08\0\0\0\x06\0\0\0\x20\0\0\0\x01\0\0\0\
\x09\0\0\0\0\0\x20\0\x0b\0\0\0\xc0\0\0\0\x08\0\0\0\x06\0\0\0\x20\0\0\0\x01\0\0\0";

/// Adds words to a stream. None where there is no memory.
fn put(stream: &mut Vec<u8>, words: &[u32]) -> Option<()> {
    for word in words {
        stream.extend_from_slice(&word.to_le_bytes()).ok()?;
    }
    Some(())
}

/// Adds a commit of a buffer, which is drawn anew in a part. The surface moves by (x, y).
fn put_commit(stream: &mut Vec<u8>, chance: &mut Chance, x: u32, y: u32) -> Option<()> {
    let buffer = chance.word_below(2).saturating_add(10);
    let (left, top) = (chance.word_below(8), chance.word_below(6));
    let (w, h) = (chance.word_below(8), chance.word_below(6));
    put(stream, &[6, 0x0014_0001, buffer, x, y])?;
    put(stream, &[6, 0x0018_0002, left, top, w, h])?;
    put(stream, &[6, 0x0008_0006])
}

/// What a client sends: a window of 8 by 6 points, and so many commits of it. A quarter of these
/// move it, by less than 8 points to the right and down and back. None where there is no memory.
pub(crate) fn stream(alloc: Global, chance: &mut Chance, commits: u32) -> Option<Vec<u8>> {
    let mut stream = Vec::new(alloc);
    stream.extend_from_slice(START).ok()?;
    let (mut x, mut y) = (0_u32, 0_u32);
    for _ in 0..commits {
        let (mut to_x, mut to_y) = (x, y);
        if chance.below(4) == 0 {
            to_x = chance.word_below(8);
            to_y = chance.word_below(8);
        }
        put_commit(
            &mut stream,
            chance,
            to_x.wrapping_sub(x),
            to_y.wrapping_sub(y),
        )?;
        x = to_x;
        y = to_y;
    }
    Some(stream)
}

/// The side file of the first client's pool. Each read gives new bytes.
#[derive(Drop)]
pub(crate) struct Noise {
    pub(crate) chance: Chance,
}

impl SideFiles for Noise {
    ghost fault_count = { λ _. 0 };

    ghost gives = { λ _ _ _. ⊤ };

    ghost opens = { λ _ _ _ _ _. ⊤ };

    fn open(&mut self, name: &str, _from: u32) -> Result<bool, SideFault> {
        Ok(name == "1.1")
    }

    fn read(&mut self, buf: &mut [u8]) -> Result<usize, SideFault> {
        for byte in buf.iter_mut() {
            *byte = self.chance.byte();
        }
        Ok(buf.len())
    }

    fn faults(&self) -> u64 {
        0
    }
}
