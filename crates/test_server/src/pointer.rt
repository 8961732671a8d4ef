//! Lines of a pointer file.

use wl_recording::{PointerLine, pointer_line};

const LINES: &[(&[u8], PointerLine)] = &[
    (
        b"motion 5 -3 07",
        PointerLine::Motion {
            time: 5,
            x: -3,
            y: 7,
        },
    ),
    (
        b"  motion 0 2147483647   -2147483648 ",
        PointerLine::Motion {
            time: 0,
            x: 2147483647,
            y: -2147483648,
        },
    ),
    (
        b"button 4294967295 272 01",
        PointerLine::Button {
            time: 4294967295,
            code: 272,
            pressed: true,
        },
    ),
    (
        b"button 1 2 0",
        PointerLine::Button {
            time: 1,
            code: 2,
            pressed: false,
        },
    ),
    (
        b"motion 1 -0 0",
        PointerLine::Motion {
            time: 1,
            x: 0,
            y: 0,
        },
    ),
    (b"", PointerLine::Skip),
    (b"   ", PointerLine::Skip),
    (b"# motion", PointerLine::Skip),
    (b" # motion", PointerLine::Bad),
    (b"motion 1 2", PointerLine::Bad),
    (b"motion 1 2 3 4", PointerLine::Bad),
    (b"motion 1 - 3", PointerLine::Bad),
    (b"motion 1 +2 3", PointerLine::Bad),
    (b"motion 1 2147483648 0", PointerLine::Bad),
    (b"motion -1 0 0", PointerLine::Bad),
    (b"button 1 2 2", PointerLine::Bad),
    (b"button\t1 2 1", PointerLine::Bad),
    (b"tick 1", PointerLine::Bad),
];

#[test]
fn judges_lines(rt: HostRuntime) {
    for &(text, wanted) in LINES {
        assert_eq!(rt; pointer_line(text), wanted);
    }
}
