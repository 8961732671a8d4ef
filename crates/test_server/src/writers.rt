//! What is written of a turn, and turns whose writers fail.

use crate::memory::{Client, MemoryHub, OneFile};
use std::alloc::Global;
use std::io::{self, Write};
use wl_server::{Connections, Recorded, Service, TurnError, turn};
use wl_session::{Config, Rgb, Session};

/// A window of 2 by 1 black points. It takes get_registry, binds of wl_compositor, wl_shm and
/// xdg_wm_base, a surface and its toplevel, its first commit, and the ack of its configure. Then
/// come a pool of 8 bytes with a buffer of them, and the commit that shows it.
const WINDOW: &[u8] = b"\x01\0\0\0\x01\0\x0c\0\x02\0\0\0\
\x02\0\0\0\0\0(\0\x01\0\0\0\x0e\0\0\0wl_compositor\0\0\0\x01\0\0\0\x03\0\0\0\
\x02\0\0\0\0\0 \0\x03\0\0\0\x07\0\0\0wl_shm\0\0\x01\0\0\0\x04\0\0\0\
\x02\0\0\0\0\0$\0\x06\0\0\0\x0c\0\0\0xdg_wm_base\0\x01\0\0\0\x05\0\0\0\
\x03\0\0\0\0\0\x0c\0\x06\0\0\0\
\x05\0\0\0\x02\0\x10\0\x07\0\0\0\x06\0\0\0\
\x07\0\0\0\x01\0\x0c\0\x08\0\0\0\
\x06\0\0\0\x06\0\x08\0\
\x07\0\0\0\x04\0\x0c\0\x01\0\0\0\
\x04\0\0\0\0\0\x10\0\x09\0\0\0\x08\0\0\0\
\x09\0\0\0\0\0 \0\x0a\0\0\0\0\0\0\0\x02\0\0\0\x01\0\0\0\x08\0\0\0\x01\0\0\0\
\x06\0\0\0\x01\0\x14\0\x0a\0\0\0\0\0\0\0\0\0\0\0\
\x06\0\0\0\x06\0\x08\0";

/// An output of 2 by 1 points, whose colour without windows is (1, 2, 3).
const OUTPUT: Config = Config {
    width: 2,
    height: 1,
    background: Rgb { r: 1, g: 2, b: 3 },
};

/// The image of that output where the window covers it.
const IMAGE: &[u8] = b"P6\n2 1\n255\n\0\0\0\0\0\0";

/// What is told of the client, and of the frame that shows its window.
const TOLD: &[u8] = b"client 1\nframe 1 2\n";

/// Takes so many bytes, and then fails.
#[derive(Drop)]
pub(crate) struct Failing {
    pub(crate) room: usize,
}

impl Write for Failing {
    fn write(&mut self, buf: &[u8]) -> io::Result<usize> {
        if self.room == 0 {
            return Err(io::ErrorKind::BrokenPipe.into());
        }
        let count = buf.len().min(self.room);
        self.room -= count;
        Ok(count)
    }

    fn flush(&mut self) -> io::Result<()> {
        Ok(())
    }
}

/// What the turns of a session with these writers are answered, where a client makes the window. It
/// ends with the first that isn't `Ok`. None where there is no memory.
fn takes<W: Write, P: Write>(
    alloc: Global,
    report: &mut W,
    ppm: &mut Option<P>,
    turns: u32,
) -> Option<Result<(), TurnError>> {
    let session = Session::new(alloc, OUTPUT).ok()?;
    let mut clients = Vec::new(alloc);
    clients.push(Client::new(alloc, WINDOW)).ok()?;
    let hub = MemoryHub::new(clients, 4096);
    let side = OneFile {
        name: "2.1",
        opened: 0,
    };
    let recorded: Recorded<Global, Vec<u8>> = Recorded::without(session);
    let mut service = Service::new(recorded, hub, side, Vec::new(alloc));
    let mut connections = Connections::new();
    for time in 1..turns.saturating_add(1) {
        let answer = turn(&mut service, &mut connections, time, report, ppm);
        if answer.is_err() {
            return Some(answer);
        }
    }
    Some(Ok(()))
}

/// Whether the frame of the first turn alone is told of, and its image is there.
fn shows_one_image(alloc: Global) -> bool {
    let mut report = Vec::new(alloc);
    let mut ppm = Some(Vec::new(alloc));
    takes(alloc, &mut report, &mut ppm, 3) == Some(Ok(()))
        && report.as_slice() == TOLD
        && ppm.is_some_and(|image| image.as_slice() == IMAGE)
}

#[test]
fn a_frame_is_told_of_with_its_image(rt: HostRuntime) {
    assert!(rt; shows_one_image(rt.alloc()));
}

/// What turns are answered whose report takes so many bytes.
fn report_of(alloc: Global, room: usize) -> Option<Result<(), TurnError>> {
    takes(alloc, &mut Failing { room }, &mut None::<Vec<u8>>, 3)
}

/// What turns are answered whose images take so many bytes.
fn images_of(alloc: Global, room: usize) -> Option<Result<(), TurnError>> {
    let mut report = Vec::new(alloc);
    takes(alloc, &mut report, &mut Some(Failing { room }), 3)
}

#[test]
fn a_writer_that_fails_is_answered(rt: HostRuntime) {
    for room in 0..TOLD.len() {
        assert_eq!(rt;
            report_of(rt.alloc(), room),
            Some(Err(TurnError::Write)),
            "{room}"
        );
    }
    assert_eq!(rt; report_of(rt.alloc(), TOLD.len()), Some(Ok(())));
    for room in 0..IMAGE.len() {
        assert_eq!(rt;
            images_of(rt.alloc(), room),
            Some(Err(TurnError::Write)),
            "{room}"
        );
    }
    assert_eq!(rt; images_of(rt.alloc(), IMAGE.len()), Some(Ok(())));
}
