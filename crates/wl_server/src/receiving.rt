//! What one read of a connection came to.

ghost use Rattle.std.specs.Prelude.{◌≡◌, ◌≢◌, ◌<◌, length};
ghost use Rattle.wl_server.specs.Moves.{Receives};

use crate::hub::{Hub, HubFault};

/// What one read of a connection came to.
#[derive(Clone, Copy, Debug, PartialEq, Eq)]
pub enum Received {
    /// This many bytes came, at least one.
    Bytes(usize),
    /// Nothing came, and the read would block.
    Later,
    /// The client sends no more, or the read failed.
    Gone,
}

/// Reads once into the front of `buf`, which has room for at least a byte.
pub fn receive<H: Hub>(hub: &mut H, conn: &mut H::Conn, buf: &mut [u8]) -> Received
    requires { 0 < length buf.old }
    ensures came { Receives H.reads H.fault_count hub.old conn.old buf.new result hub.new conn.new }
    ensures calm { result ≢ Received.Gone → H.fault_count hub.new ≡ H.fault_count hub.old }
{
    match hub.read(conn, buf) {
        Ok(None) => Received::Later,
        Ok(Some(0)) => Received::Gone,
        Ok(Some(n)) => Received::Bytes(n),
        Err(HubFault) => Received::Gone,
    }
}
