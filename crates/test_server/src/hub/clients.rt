//! What a hub does for its client, over any hub.

ghost use Rattle.std.specs.Prelude.{◌<◌, length};

use wl_server::{Delivered, Hub, Received, deliver, receive};

/// The client that waits. None where none does, or the hub failed.
pub(crate) fn accepted<H: Hub>(hub: &mut H) -> Option<H::Conn> {
    match hub.accept() {
        Ok(client) => client,
        Err(_) => None,
    }
}

/// Whether no client waits, and the hub didn't fail.
pub(crate) fn none_waits<H: Hub>(hub: &mut H) -> bool {
    matches!(hub.accept(), Ok(None))
}

/// Whether so many of these bytes are taken, and whether the client is gone then.
pub(crate) fn delivers<H: Hub>(
    hub: &mut H,
    client: &mut H::Conn,
    text: &[u8],
    bytes: usize,
    is_gone: bool,
) -> bool {
    deliver(hub, client, text) == Delivered { bytes, is_gone }
}

/// Whether this is what one read comes to.
pub(crate) fn receives<H: Hub>(
    hub: &mut H,
    client: &mut H::Conn,
    buf: &mut [u8],
    wanted: Received,
) -> bool
    requires { 0 < length buf.old }
{
    receive(hub, client, buf) == wanted
}
