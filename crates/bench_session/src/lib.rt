//! The loop that `bench/registry` measures: clients of one session, called from C.
#![tactic(auto)]

use std::alloc::Global;
use wl_session::{Config, Rgb, Session};

/// How many bytes come at once, as from a socket.
const PIECE: usize = 4_096;

const CONFIG: Config = Config {
    width: 1,
    height: 1,
    background: Rgb { r: 0, g: 0, b: 0 },
};

/// As many clients as are asked for send the bytes, one client after the other, and take what they
/// are answered. Whether there was memory for a session.
#[unsafe(no_mangle)]
pub extern "C" fn bench_session_serve(alloc: Global, bytes: &[u8], clients: u32) -> bool {
    let Ok(mut session) = Session::new(alloc, CONFIG) else {
        return false;
    };
    for _ in 0..clients {
        serve(&mut session, bytes);
    }
    true
}

/// One client connects, sends the bytes, takes the answers and goes.
fn serve(session: &mut Session<Global>, bytes: &[u8]) {
    let _ = session.connect();
    for piece in bytes.chunks(PIECE) {
        session.feed(1, piece);
        let answered = session.out(1).map_or(0, |out| out.len());
        session.sent(1, answered);
    }
    session.gone(1);
    session.close(1);
}
