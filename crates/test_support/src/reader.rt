//! A reader that fails or goes in small pieces at a chosen call.

ghost use Rattle.std.specs.Prelude.{◌≡◌, ◌<◌, ◌↔◌, IsTrue};

/// A reader over bytes in memory, which can go in small pieces and fail once.
#[derive(Drop)]
pub struct FaultyReader<'a> {
    /// The bytes that are still to be read.
    pub rest: &'a [u8],
    /// The most bytes that one call gives.
    pub largest: usize,
    /// The calls of `read` and `fill_buf` so far.
    pub calls: u64,
    /// The call that fails, the first one being 0. It takes nothing, and the next goes on.
    pub fails_at: u64,
    ghost gives_some: { 0 < largest },
}

impl<'a> FaultyReader<'a> {
    /// Gives all that fits, and doesn't fail.
    pub fn new(bytes: &'a [u8]) -> FaultyReader<'a>
        ensures rest { result.rest ≡ bytes.entry }
        ensures largest { result.largest ≡ usize.MAX }
        ensures calls { result.calls ≡ 0 }
        ensures fails_at { result.fails_at ≡ u64.MAX }
    {
        FaultyReader {
            rest: bytes,
            largest: usize::MAX,
            calls: 0,
            fails_at: u64::MAX,
        }
    }

    /// Gives one byte a call from here on.
    pub fn byte_by_byte(mut self) -> FaultyReader<'a>
        ensures rest { result.rest ≡ self.entry.rest }
        ensures largest { result.largest ≡ 1 }
        ensures calls { result.calls ≡ self.entry.calls }
        ensures fails_at { result.fails_at ≡ self.entry.fails_at }
    {
        self.largest = 1;
        self
    }

    /// Fails at this call, the first one being 0.
    pub fn failing_at(mut self, call: u64) -> FaultyReader<'a>
        ensures rest { result.rest ≡ self.entry.rest }
        ensures largest { result.largest ≡ self.entry.largest }
        ensures calls { result.calls ≡ self.entry.calls }
        ensures fails_at { result.fails_at ≡ call }
    {
        self.fails_at = call;
        self
    }

    /// Whether the call that fails was made.
    pub fn has_failed(&self) -> bool
        ensures { IsTrue result ↔ (self.now.fails_at < self.now.calls) }
    {
        self.calls > self.fails_at
    }
}
