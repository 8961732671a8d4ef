//! Writing bytes to a connection until it would block.

ghost use Rattle.std.specs.Prelude.{◌≡◌, ◌≤◌, false, true, length};
ghost use Rattle.wl_server.specs.Faults.{Rose};
ghost use Rattle.wl_server.specs.Moves.{Delivers};

use crate::hub::{Hub, HubFault};

/// How far some bytes were written.
#[derive(Clone, Copy, Debug, PartialEq, Eq)]
pub struct Delivered {
    /// How many of the bytes the connection took.
    pub bytes: usize,
    /// Whether a write failed, so the client takes no more.
    pub is_gone: bool,
}

/// Writes these bytes until all are written, or a write would block, takes no byte or fails. After
/// a failed write the client is gone; what was written before still counts.
pub fn deliver<H: Hub>(hub: &mut H, conn: &mut H::Conn, bytes: &[u8]) -> Delivered
    ensures within { result.bytes ≤ length bytes.now }
    ensures written { Delivers H.writes H.fault_count hub.old conn.old bytes.now result.bytes result.is_gone hub.new conn.new }
    ensures fault { result.is_gone ≡ true → Rose (H.fault_count hub.old) (H.fault_count hub.new) }
    ensures calm { result.is_gone ≡ false → H.fault_count hub.new ≡ H.fault_count hub.old }
{
    let mut sent = 0;
    while sent < bytes.len() {
        match hub.write(conn, &bytes[sent..]) {
            Ok(None) | Ok(Some(0)) => {
                return Delivered {
                    bytes: sent,
                    is_gone: false,
                };
            }
            Ok(Some(n)) => sent += n,
            Err(HubFault) => {
                return Delivered {
                    bytes: sent,
                    is_gone: true,
                };
            }
        }
    }
    Delivered {
        bytes: sent,
        is_gone: false,
    }
}
