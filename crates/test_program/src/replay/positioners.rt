//! The requests of xdg_positioner, and what they are refused with (xdg-shell.xml, xdg_positioner).

use crate::replay::support::played;
use std::alloc::Global;

/// get_registry(2), a bind of xdg_wm_base as 3, and create_positioner(4).
const POSITIONER: &[u8] = b"connect
bytes 1 01000000 01000c00 02000000
bytes 1 02000000 00002400 06000000 0c000000 7864675f776d5f6261736500 01000000 03000000
bytes 1 03000000 01000c00 04000000
";

/// Lines after those, and their report.
const REQUESTS: &[(&str, &str)] = &[
    // set_size: both sides are positive.
    ("bytes 1 04000000 01001000 01000000 01000000\n", ""),
    ("bytes 1 04000000 01001000 ffffff7f 32000000\n", ""),
    (
        "bytes 1 04000000 01001000 00000000 32000000\n",
        "to 1 010000000000240004000000000000000e000000696e76616c69645f696e707574000000\nend 1 protocol 4 0\n",
    ),
    (
        "bytes 1 04000000 01001000 32000000 00000000\n",
        "to 1 010000000000240004000000000000000e000000696e76616c69645f696e707574000000\nend 1 protocol 4 0\n",
    ),
    (
        "bytes 1 04000000 01001000 ffffffff 32000000\n",
        "to 1 010000000000240004000000000000000e000000696e76616c69645f696e707574000000\nend 1 protocol 4 0\n",
    ),
    // set_anchor_rect: no side is negative.
    (
        "bytes 1 04000000 02001800 03000000 fcffffff 00000000 00000000\n",
        "",
    ),
    (
        "bytes 1 04000000 02001800 03000000 04000000 00000000 05000000\n",
        "",
    ),
    (
        "bytes 1 04000000 02001800 03000000 04000000 ffffffff 05000000\n",
        "to 1 010000000000240004000000000000000e000000696e76616c69645f696e707574000000\nend 1 protocol 4 0\n",
    ),
    (
        "bytes 1 04000000 02001800 03000000 04000000 05000000 ffffffff\n",
        "to 1 010000000000240004000000000000000e000000696e76616c69645f696e707574000000\nend 1 protocol 4 0\n",
    ),
    // set_anchor and set_gravity: at most 8.
    ("bytes 1 04000000 03000c00 08000000\n", ""),
    (
        "bytes 1 04000000 03000c00 09000000\n",
        "to 1 010000000000240004000000000000000e000000696e76616c69645f696e707574000000\nend 1 protocol 4 0\n",
    ),
    ("bytes 1 04000000 04000c00 08000000\n", ""),
    (
        "bytes 1 04000000 04000c00 09000000\n",
        "to 1 010000000000240004000000000000000e000000696e76616c69645f696e707574000000\nend 1 protocol 4 0\n",
    ),
    // set_constraint_adjustment and set_offset take any numbers.
    ("bytes 1 04000000 05000c00 ffffffff\n", ""),
    ("bytes 1 04000000 06001000 00000080 ffffff7f\n", ""),
    // destroy gives the id back. Then nothing has it, and it may be given to another.
    (
        "bytes 1 04000000 00000800\n",
        "to 1 0100000001000c0004000000\n",
    ),
    (
        "bytes 1 04000000 00000800\nbytes 1 04000000 01001000 08000000 08000000\n",
        "to 1 0100000001000c0004000000\nto 1 010000000000240001000000000000000f000000696e76616c69645f6f626a6563740000\nend 1 protocol 1 0\n",
    ),
    (
        "bytes 1 04000000 00000800\nbytes 1 03000000 01000c00 04000000\nbytes 1 04000000 01001000 00000000 08000000\n",
        "to 1 0100000001000c0004000000\nto 1 010000000000240004000000000000000e000000696e76616c69645f696e707574000000\nend 1 protocol 4 0\n",
    ),
    // The arguments and the version's opcodes come before a request's own errors, and an id that is
    // in use is refused.
    (
        "bytes 1 04000000 01001400 00000000 00000000 00000000\n",
        "to 1 010000000000240001000000010000000f000000696e76616c69645f6d6574686f640000\nend 1 protocol 1 1\n",
    ),
    (
        "bytes 1 04000000 03000800\n",
        "to 1 010000000000240001000000010000000f000000696e76616c69645f6d6574686f640000\nend 1 protocol 1 1\n",
    ),
    (
        "bytes 1 04000000 07000c00 00000000\n",
        "to 1 010000000000240001000000010000000f000000696e76616c69645f6d6574686f640000\nend 1 protocol 1 1\n",
    ),
    (
        "bytes 1 03000000 01000c00 04000000\n",
        "to 1 010000000000240001000000000000000f000000696e76616c69645f6f626a6563740000\nend 1 protocol 1 0\n",
    ),
    (
        "bytes 1 03000000 01000c00 03000000\n",
        "to 1 010000000000240001000000000000000f000000696e76616c69645f6f626a6563740000\nend 1 protocol 1 0\n",
    ),
];

/// The lines of the positioner, and these. None where there is no memory for them.
fn after_positioner(alloc: Global, lines: &str) -> Option<Vec<u8>> {
    let mut recording = Vec::new(alloc);
    recording.extend_from_slice(POSITIONER).ok()?;
    recording.extend_from_slice(lines.as_bytes()).ok()?;
    Some(recording)
}

/// Whether these lines are played after those of the positioner, and this is reported of them.
fn is_told(alloc: Global, lines: &str, report: &str) -> Option<bool> {
    let (_, before) = played(alloc, POSITIONER);
    let recording = after_positioner(alloc, lines)?;
    let (ended, written) = played(alloc, recording.as_slice());
    let own = written.as_slice().strip_prefix(before.as_slice())?;
    Some(ended.is_ok() && own == report.as_bytes())
}

/// The place of the first lines that aren't played, or have another report.
fn first_missed(alloc: Global, requests: &[(&str, &str)]) -> Option<usize> {
    for (place, &(lines, report)) in requests.iter().enumerate() {
        if is_told(alloc, lines, report) != Some(true) {
            return Some(place);
        }
    }
    None
}

#[test]
fn positioners_are_set_and_refused(rt: HostRuntime) {
    assert_eq!(rt; first_missed(rt.alloc(), REQUESTS), None);
}
