ghost use Rattle.std.specs.Prelude.{◌≡◌, ◌<◌, ◌≤◌, ◌⊎◌, true, false};

use std::alloc::{AllocError, Allocator};
use std::cell::Cell;

/// An allocator that serves a number of allocations by another one, and refuses every one after
/// them, or only the next.
///
/// `&Refusing<B>` is an allocator too, and is copied, so that one heap can be handed to many
/// collections: `let heap = Refusing::new(rt.alloc(), 3); let list = Vec::new(&heap);`.
/// A collection that grows asks for a new block, so a growth is an allocation as well.
#[derive(Drop)]
pub struct Refusing<B: Allocator> {
    inner: B,
    /// How many allocations are served.
    pub limit: u64,
    /// Whether one is refused then, and those after it are served again.
    pub once: bool,
    // How many were asked so far.
    asked: Cell<u64>,
}

impl<B: Allocator> Refusing<B> {
    /// Serves the first `served` allocations by `inner`.
    pub fn new(inner: B, served: u64) -> Refusing<B>
        ensures limit { result.limit ≡ served }
        ensures once { result.once ≡ false }
    {
        Refusing {
            inner,
            limit: served,
            once: false,
            asked: Cell::new(0),
        }
    }

    /// Serves all allocations by `inner` but the one after the first `served`.
    pub fn once(inner: B, served: u64) -> Refusing<B>
        ensures limit { result.limit ≡ served }
        ensures once { result.once ≡ true }
    {
        Refusing {
            inner,
            limit: served,
            once: true,
            asked: Cell::new(0),
        }
    }

    /// Whether an allocation was refused.
    pub fn refused(&self) -> bool
        ensures { result ≡ true → self.now.limit < u64.MAX }
    {
        self.asked.get() > self.limit
    }

    /// How many allocations were passed on before one was refused.
    pub fn served(&self) -> u64
        ensures { result ≤ self.now.limit }
    {
        self.asked.get().min(self.limit)
    }

    // Counts one more allocation, and says whether it is to be served.
    fn serves_next(&self) -> bool
        ensures { result ≡ true → (0 < self.now.limit) ⊎ (self.now.once ≡ true) }
    {
        let before = self.asked.get();
        self.asked.set(before.saturating_add(1));
        before < self.limit || (self.once && self.limit < before)
    }
}

unsafe impl<B: Allocator> Allocator for Refusing<B> {
    ghost dealloc_token = { λ heap ty ptr. B.dealloc_token heap.inner ty ptr };

    fn allocate(&self, size: usize, align: usize) -> Result<*mut u8, AllocError> {
        if self.serves_next() {
            self.inner.allocate(size, align)
        } else {
            Err(AllocError)
        }
    }

    unsafe fn deallocate(&self, ptr: *mut u8, size: usize, align: usize) {
        self.inner.deallocate(ptr, size, align);
    }
}
