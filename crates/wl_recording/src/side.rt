//! Files beside a recording. Its lines may put their bytes into stores.

ghost use Rattle.std.specs.Prelude.{◌≡◌, ◌≤◌, ℕ, Bool, List, length, take as first, IfOk};
ghost use Rattle.wl_recording.specs.Side.{CountsFault};

use thiserror::Error;

/// A call on the side files failed.
#[derive(Clone, Copy, Debug, PartialEq, Eq, Error)]
#[error("a side file failed")]
pub struct SideFault;

/// Files by name, of which one is open at a time.
pub trait SideFiles {
    /// How many calls failed, up to the greatest number.
    ghost fault_count: { Self → ℕ };

    /// Which bytes a read may give, from one state to the next.
    ghost gives: { Self → List ℕ → Self → Type 0 };

    /// Which answers an `open` of a name, from a byte on, may give from one state to the next.
    ghost opens: { Self → List ℕ → ℕ → Bool → Self → Type 0 };

    /// Opens a file, to read from this byte on, counted from 0. The answer is false if there is no
    /// such file. The only error is a failed call.
    fn open(&mut self, name: &str, from: u32) -> Result<bool, SideFault>
        ensures answers { IfOk result (λ there. opens self.old name.now from there self.new) }
        ensures faults { CountsFault (fault_count self.old) (fault_count self.new) result };

    /// Reads the next bytes of the open file, and answers how many. It answers 0 only at the end.
    /// The only error is a failed call.
    fn read(&mut self, buf: &mut [u8]) -> Result<usize, SideFault>
        ensures within { IfOk result (λ n. n ≤ length buf.new) }
        ensures bytes { IfOk result (λ n. gives self.old (first n buf.new) self.new) }
        ensures faults { CountsFault (fault_count self.old) (fault_count self.new) result };

    /// How many calls failed.
    fn faults(&self) -> u64
        ensures { result ≡ fault_count self.now };
}
