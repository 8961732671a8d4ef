//! The trait of what accepts, reads, writes and closes connections.

ghost use Rattle.std.specs.Prelude.{◌≡◌, ◌≤◌, ℕ, List, Option, Some, length, take, IfOk, IfSome, IfNone};
ghost use Rattle.wl_server.specs.Faults.{CountsFault};

use thiserror::Error;

/// A call of the hub failed.
#[derive(Clone, Copy, Debug, PartialEq, Eq, Error)]
#[error("a connection failed")]
pub struct HubFault;

/// Connections that don't block, and a count of the faults of its calls. A call answers a fault
/// only if it counted one, or if the count is at its greatest value. After a fault of a read or a
/// write, nothing is said of the connection except that it can be closed.
pub trait Hub {
    /// A connection that was accepted and isn't closed yet. No clause says what dropping one does.
    type Conn: Drop;

    /// How many calls failed, up to the greatest number.
    ghost fault_count: { Self → ℕ };

    /// Which connection an `accept` may give, or that none waits, from one state of the hub to the
    /// next.
    ghost accepts: { Self → Option Self.Conn → Self → Type 0 };

    /// Which bytes a read may give, or that it would wait, from one state of the hub and the
    /// connection to the next. With room for a byte, no bytes mean the end of what is sent.
    ghost reads: { Self → Self.Conn → Option (List ℕ) → Self → Self.Conn → Type 0 };

    /// Which bytes a write may take, or that it would wait, from one state of the hub and the
    /// connection to the next.
    ghost writes: { Self → Self.Conn → Option (List ℕ) → Self → Self.Conn → Type 0 };

    /// What closing a connection does to the hub.
    ghost closes: { Self → Self.Conn → Self → Type 0 };

    /// Accepts the next connection. `None` if none waits.
    fn accept(&mut self) -> Result<Option<Self::Conn>, HubFault>
        ensures answers { IfOk result (λ conn. accepts self.old conn self.new) }
        ensures faults { CountsFault (fault_count self.old) (fault_count self.new) result };

    /// Reads the next bytes, and answers how many: 0 only at the end, or without room for any.
    /// `None` if it would block.
    fn read(&mut self, conn: &mut Self::Conn, buf: &mut [u8]) -> Result<Option<usize>, HubFault>
        ensures within { IfOk result (λ got. IfSome got (λ n. n ≤ length buf.new)) }
        ensures bytes { IfOk result (λ got. IfSome got (λ n. reads self.old conn.old (Some (take n buf.new)) self.new conn.new)) }
        ensures blocks { IfOk result (λ got. IfNone got (reads self.old conn.old None self.new conn.new)) }
        ensures faults { CountsFault (fault_count self.old) (fault_count self.new) result };

    /// Writes the first of these bytes, and answers how many. `None` if it would block.
    fn write(&mut self, conn: &mut Self::Conn, bytes: &[u8]) -> Result<Option<usize>, HubFault>
        ensures within { IfOk result (λ got. IfSome got (λ n. n ≤ length bytes.now)) }
        ensures bytes { IfOk result (λ got. IfSome got (λ n. writes self.old conn.old (Some (take n bytes.now)) self.new conn.new)) }
        ensures blocks { IfOk result (λ got. IfNone got (writes self.old conn.old None self.new conn.new)) }
        ensures faults { CountsFault (fault_count self.old) (fault_count self.new) result };

    /// Closes a connection. It can't fail.
    fn close(&mut self, conn: Self::Conn)
        ensures closed { closes self.old conn self.new }
        ensures faults { fault_count self.new ≡ fault_count self.old };

    /// How many calls failed.
    fn faults(&self) -> u64
        ensures { result ≡ fault_count self.now };
}
