//! Turns over a real socket, whose both ends are of one process.

use crate::memory::OneFile;
use crate::serving::{ANSWER, SYNC};
use crate::turns::{Served, served, takes};
use mio::net::UnixStream;
use std::alloc::Global;
use std::io::{Read, Write};
use std::{env, fs, process};
use wl_server::{Connections, SocketHub};

/// A path for a socket of this process, in the folder of the system for files that don't last.
fn socket_path(rt: &HostRuntime) -> Option<String> {
    let folder = env::temp_dir(rt).ok()?;
    let folder = folder.as_path();
    let process = process::id(rt.process());
    format!(in rt.alloc(); "{}/wl-server-{process}", folder.to_string_lossy()).ok()
}

/// Whether what comes in one read is the answer of a sync.
fn is_answered(near: &mut UnixStream) -> bool {
    let mut buf = [0u8; 64];
    match near.read(&mut buf) {
        Ok(count) => count == ANSWER.len() && buf.starts_with(ANSWER),
        Err(_) => false,
    }
}

/// Whether the sync of a client is answered within 50 turns.
fn answers_within_50(
    service: &mut Served<SocketHub, OneFile>,
    near: &mut UnixStream,
    report: &mut Vec<u8>,
) -> bool {
    let mut connections = Connections::new();
    for time in 1..51_u32 {
        if !takes(service, &mut connections, time, time, report) {
            return false;
        }
        if is_answered(near) {
            return true;
        }
    }
    false
}

/// Whether the sync of a client is answered by a new session.
fn answers(alloc: Global, hub: SocketHub, near: &mut UnixStream) -> bool {
    let side = OneFile {
        name: "1.1",
        opened: 0,
    };
    let mut report = Vec::new(alloc);
    match served(alloc, hub, side) {
        Some(mut service) => answers_within_50(&mut service, near, &mut report),
        None => false,
    }
}

/// Whether two clients connect and stay, and the second is answered.
fn answers_the_second(rt: &HostRuntime) -> Option<bool> {
    let path = socket_path(rt)?;
    let hub = SocketHub::bind(rt, path.as_str()).ok()?;
    let first = UnixStream::connect(rt, path.as_str()).ok();
    let second = UnixStream::connect(rt, path.as_str()).ok();
    fs::remove_file(rt, path.as_str()).ok()?;
    let _first = first?;
    let mut second = second?;
    second.write_all(SYNC).ok()?;
    Some(answers(rt.alloc(), hub, &mut second))
}

#[test]
fn the_second_client_is_answered(rt: HostRuntime) {
    assert_eq!(rt; answers_the_second(&rt), Some(true));
}
