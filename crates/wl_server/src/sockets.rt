//! The hub over a Unix socket.

ghost use Rattle.std.specs.Prelude.{◌≡◌, ◌≤◌, length, IfOk, IfSome};
ghost use Rattle.wl_server.specs.Faults.{count_after};
ghost use Rattle.wl_server.specs.Sockets.{MayAccept, MayClose, MayMove};

use crate::hub::{Hub, HubFault};
use crate::outcome::{read_from, settle, write_to};
use mio::net::{UnixListener, UnixStream};
use std::fs::Files;
use std::io;
use std::marker::Model;
use std::net::Net;
use std::path::AsPath;

/// The hub over a Unix socket, whose listener and connections don't block. Contracts see how many
/// calls failed.
///
/// Two things are the system's word, and no clause. A read of no bytes is the end of what a client
/// sends. No call waits, except that a client can make a read wait: it sends along a descriptor
/// whose closing waits.
#[derive(Drop)]
pub struct SocketHub {
    listener: UnixListener,
    faults: u64,
}

impl Model for SocketHub {
    ghost use Rattle.std.specs.Prelude.{ℕ};

    ghost Value = { ℕ };

    ghost view = { λ hub. hub.faults };
}

impl SocketHub {
    /// Listens at a path, and makes the socket's file there. The file stays when the hub is
    /// dropped.
    ///
    /// # Errors
    ///
    /// What the system says: the path is in use, or too long for a socket; its folder is missing,
    /// or can't be written.
    pub fn bind<R: Files + Net, P: AsPath>(rt: &R, path: P) -> io::Result<SocketHub>
        ensures { IfOk result (λ hub. hub ≡ 0) }
    {
        Ok(SocketHub {
            listener: UnixListener::bind(rt, path)?,
            faults: 0,
        })
    }
}

/// What a socket gives and takes isn't known, nor who connects. So clauses tell only that a
/// connection stays the one that it is, and how faults are counted. A call that the system
/// interrupted is answered as one that would block, since it may be made again. All else that the
/// system refuses is a fault. Dropping a connection closes it, as `close` does.
impl Hub for SocketHub {
    type Conn = UnixStream;

    ghost fault_count = { λ hub. hub };

    ghost accepts = { MayAccept };

    ghost reads = { MayMove };

    ghost writes = { MayMove };

    ghost closes = { MayClose };

    fn accept(&mut self) -> Result<Option<UnixStream>, HubFault>
        ensures counted { self.new ≡ count_after self.old result }
    {
        match settle(&mut self.faults, self.listener.accept()) {
            Ok(Some((stream, _address))) => Ok(Some(stream)),
            Ok(None) => Ok(None),
            Err(HubFault) => Err(HubFault),
        }
    }

    fn read(&mut self, conn: &mut UnixStream, buf: &mut [u8]) -> Result<Option<usize>, HubFault>
        ensures within { IfOk result (λ got. IfSome got (λ n. n ≤ length buf.new)) }
        ensures kept { conn.new ≡ conn.old }
        ensures counted { self.new ≡ count_after self.old result }
    {
        let mut stream: &UnixStream = conn;
        read_from(&mut self.faults, &mut stream, buf)
    }

    fn write(&mut self, conn: &mut UnixStream, bytes: &[u8]) -> Result<Option<usize>, HubFault>
        ensures within { IfOk result (λ got. IfSome got (λ n. n ≤ length bytes.now)) }
        ensures kept { conn.new ≡ conn.old }
        ensures counted { self.new ≡ count_after self.old result }
    {
        let mut stream: &UnixStream = conn;
        write_to(&mut self.faults, &mut stream, bytes)
    }

    fn close(&mut self, conn: UnixStream) {
        drop(conn);
    }

    fn faults(&self) -> u64 {
        self.faults
    }
}
