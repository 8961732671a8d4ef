//! The loops that `bench/store_write` measures: writes into a store, and stores that come and go,
//! called from C.
#![tactic(auto)]

ghost use Rattle.std.specs.Prelude.{◌≤◌};

use std::alloc::Global;
use wl_store::Stores;

/// Makes a store of `size` bytes, and writes the piece into it `rounds` times. Each write goes
/// behind the one before, or to the start if it would pass the end. The answer is how many were
/// accepted.
#[unsafe(no_mangle)]
pub extern "C" fn bench_store_write(alloc: Global, size: i32, piece: &[u8], rounds: u32) -> u32
    ensures { result ≤ rounds }
{
    let mut stores = Stores::new(alloc);
    let Ok(store) = stores.create(size) else {
        return 0;
    };
    let mut at = 0;
    let mut accepted = 0;
    for _ in 0..rounds {
        if stores.write(store, at, piece).is_ok() {
            accepted += 1;
        }
        at = next_place(at, piece.len(), size);
    }
    accepted
}

/// Makes a store of `size` bytes and lets it go again, `rounds` times. How many were made.
#[unsafe(no_mangle)]
pub extern "C" fn bench_store_create(alloc: Global, size: i32, rounds: u32) -> u32
    ensures { result ≤ rounds }
{
    let mut stores = Stores::new(alloc);
    let mut made = 0;
    for _ in 0..rounds {
        if let Ok(store) = stores.create(size) {
            stores.let_go(store);
            made += 1;
        }
    }
    made
}

/// The place after `len` bytes at `at`, or the start where as many more don't fit.
fn next_place(at: u32, len: usize, size: i32) -> u32 {
    let next = u64::from(at).saturating_add(len as u64);
    let end = next.saturating_add(len as u64);
    match u32::try_from(next) {
        Ok(next) if i64::try_from(end).is_ok_and(|end| end <= i64::from(size)) => next,
        _ => 0,
    }
}
