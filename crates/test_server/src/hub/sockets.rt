//! The hub over a real socket, whose both ends are of one process.

use crate::hub::clients::{accepted, delivers, none_waits, receives};
use mio::net::UnixStream;
use std::io::{ErrorKind, Read, Write};
use std::{env, fs, process};
use wl_server::{Hub, HubFault, Received, SocketHub, deliver};

/// A path for a socket of this process, in the folder of the system for files that don't last.
fn socket_path(rt: &HostRuntime, name: &str) -> Option<String> {
    let folder = env::temp_dir(rt).ok()?;
    let folder = folder.as_path();
    let process = process::id(rt.process());
    format!(in rt.alloc(); "{}/{name}-{process}", folder.to_string_lossy()).ok()
}

/// Reads once at the client's end.
fn read(near: &mut UnixStream, buf: &mut [u8]) -> Result<usize, ErrorKind> {
    match near.read(buf) {
        Ok(count) => Ok(count),
        Err(error) => Err(error.kind()),
    }
}

/// Whether the client writes all of these bytes.
fn sends(near: &mut UnixStream, text: &[u8]) -> bool {
    near.write_all(text).is_ok()
}

/// Whether what the client sends comes, and the hub would wait before and after.
fn hears(hub: &mut SocketHub, near: &mut UnixStream, far: &mut UnixStream) -> bool {
    let mut buf = [0u8; 4096];
    receives(hub, far, &mut buf, Received::Later)
        && sends(near, b"hello")
        && receives(hub, far, &mut buf, Received::Bytes(5))
        && buf.starts_with(b"hello")
        && receives(hub, far, &mut buf, Received::Later)
}

/// Whether the client takes what the hub sends.
fn answers(hub: &mut SocketHub, near: &mut UnixStream, far: &mut UnixStream) -> bool {
    let mut buf = [0u8; 4096];
    delivers(hub, far, b"back", 4, false)
        && read(near, &mut buf) == Ok(4)
        && buf.starts_with(b"back")
        && hub.faults() == 0
}

/// Whether no other client waits, and this one and the hub hear each other. It ends then.
fn talks(hub: &mut SocketHub, mut near: UnixStream, far: &mut UnixStream) -> bool {
    none_waits(hub) && hears(hub, &mut near, far) && answers(hub, &mut near, far)
}

/// Whether a client that has ended is gone to reads and writes, and only the writes are faults.
fn is_gone(hub: &mut SocketHub, far: &mut UnixStream) -> bool {
    let mut buf = [0u8; 4096];
    receives(hub, far, &mut buf, Received::Gone)
        && hub.faults() == 0
        && delivers(hub, far, b"lost", 0, true)
        && hub.faults() == 1
        && hub.write(far, b"lost") == Err(HubFault)
        && hub.faults() == 2
}

/// Whether the hub accepts this client, and serves it to its end.
fn serves(hub: &mut SocketHub, near: UnixStream) -> bool {
    match accepted(hub) {
        Some(mut far) => {
            let is_served = talks(hub, near, &mut far) && is_gone(hub, &mut far);
            hub.close(far);
            is_served
        }
        None => false,
    }
}

/// A client of the hub at this path.
fn client(rt: &HostRuntime, path: &str) -> Option<UnixStream> {
    UnixStream::connect(rt, path).ok()
}

/// A hub at this path.
fn listening(rt: &HostRuntime, path: &str) -> Option<SocketHub> {
    SocketHub::bind(rt, path).ok()
}

/// Removes the file of a hub at this path.
fn removes(rt: &HostRuntime, path: &str) -> bool {
    fs::remove_file(rt, path).is_ok()
}

/// Whether no second hub can be at this path, whose file is removed then.
fn is_taken(rt: &HostRuntime, path: &str) -> bool {
    listening(rt, path).is_none() && removes(rt, path)
}

/// Whether the hub at this path waits for a client, and serves the first.
fn serves_at(rt: &HostRuntime, path: &str, hub: &mut SocketHub) -> bool {
    if !none_waits(hub) {
        return false;
    }
    match client(rt, path) {
        Some(near) => is_taken(rt, path) && serves(hub, near),
        None => false,
    }
}

/// Whether a hub at a path of this process serves a client.
fn is_served(rt: &HostRuntime) -> bool {
    let Some(path) = socket_path(rt, "wl-hub") else {
        return false;
    };
    match listening(rt, path.as_str()) {
        Some(mut hub) => serves_at(rt, path.as_str(), &mut hub),
        None => false,
    }
}

#[test]
fn a_client_connects_sends_takes_and_ends(rt: HostRuntime) {
    assert!(rt; is_served(&rt));
}

/// Writes until fewer bytes are taken than there are: how many were in all. None where the client
/// is gone, or a thousand times all are taken.
fn filled(hub: &mut SocketHub, far: &mut UnixStream) -> Option<u64> {
    let bytes = [7u8; 65536];
    let mut sent = 0u64;
    for _ in 0..1000 {
        let delivered = deliver(hub, far, &bytes);
        if delivered.is_gone {
            return None;
        }
        sent = sent.saturating_add(delivered.bytes as u64);
        if delivered.bytes < bytes.len() {
            return Some(sent);
        }
    }
    None
}

/// Reads until it would block: how many bytes came in all. None where a read fails.
fn emptied(near: &mut UnixStream) -> Option<u64> {
    let mut buf = [0u8; 4096];
    let mut taken = 0u64;
    for _ in 0..u64::MAX {
        match read(near, &mut buf) {
            Ok(count) => taken = taken.saturating_add(count as u64),
            Err(ErrorKind::WouldBlock) => return Some(taken),
            Err(_) => return None,
        }
    }
    None
}

/// Whether a full socket is no fault, the client takes all that was sent, and then there is room
/// for more.
fn fills(hub: &mut SocketHub, near: &mut UnixStream, far: &mut UnixStream) -> bool {
    let sent = filled(hub, far);
    sent.is_some()
        && hub.faults() == 0
        && emptied(near) == sent
        && delivers(hub, far, b"more", 4, false)
}

/// Whether the hub accepts this client, fills its socket, and closes it after one more write.
fn fills_the_accepted(hub: &mut SocketHub, near: &mut UnixStream) -> bool {
    match accepted(hub) {
        Some(mut far) => {
            let is_filled = fills(hub, near, &mut far);
            hub.close(far);
            is_filled
        }
        None => false,
    }
}

/// Whether four bytes are left to the client, and then its end.
fn has_the_rest(near: &mut UnixStream) -> bool {
    let mut buf = [0u8; 4096];
    read(near, &mut buf) == Ok(4) && read(near, &mut buf) == Ok(0)
}

/// Whether a client of the hub at this path, whose file is removed then, is sent more than its
/// socket holds.
fn fills_at(rt: &HostRuntime, path: &str, hub: &mut SocketHub) -> bool {
    match client(rt, path) {
        Some(mut near) => {
            removes(rt, path) && fills_the_accepted(hub, &mut near) && has_the_rest(&mut near)
        }
        None => false,
    }
}

/// Whether a hub at a path of this process fills the socket of a client.
fn is_filled(rt: &HostRuntime) -> bool {
    let Some(path) = socket_path(rt, "wl-hub-full") else {
        return false;
    };
    match listening(rt, path.as_str()) {
        Some(mut hub) => fills_at(rt, path.as_str(), &mut hub),
        None => false,
    }
}

/// More than a socket holds: the writing stops where it would block, and goes on once the client
/// has read.
#[test]
fn a_full_socket_is_waited_for(rt: HostRuntime) {
    assert!(rt; is_filled(&rt));
}
