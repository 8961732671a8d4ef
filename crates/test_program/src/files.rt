//! Images, and files beside a recording.

use crate::support::{file_name, folder, joined, path_in, plays, told};
use std::alloc::Global;
use std::fs;
use test_support::Refusing;
use wl_program::{Folder, Status};
use wl_replay::{SideFault, SideFiles};

/// How the program ends that shows one frame, with the image that it wrote. None where it gave
/// another report.
fn image(rt: &HostRuntime) -> Option<(Status, Vec<u8>)> {
    let path = path_in(rt, folder(rt)?.as_str(), file_name(rt, "ppm")?.as_str())?;
    let text = joined(
        rt.alloc(),
        "wlframe replay --size 2x1 --ppm ",
        path.as_str(),
    )?;
    let status = plays(rt, text.as_str(), b"tick 0\n", "", b"frame 0 0\n")?;
    let image = fs::read(rt, path.as_str()).ok()?;
    fs::remove_file(rt, path.as_str()).ok()?;
    Some((status, image))
}

#[test]
fn writes_images(rt: HostRuntime) {
    let Some((status, image)) = image(&rt) else {
        panic!(rt; "no image, or another report")
    };
    assert_eq!(rt; status, Status::Done);
    assert!(rt; image.as_slice() == b"P6\n2 1\n255\n\0\0\0\0\0\0".as_slice());
}

/// Reads a file of six bytes in a folder, and no other.
fn reads(side: &mut Folder<HostRuntime>, name: &str, inside: &str) -> bool {
    let mut buf = [0u8; 8];
    side.read(&mut buf) == Ok(0)
        && side.open(name, 0) == Ok(true)
        && side.read(&mut buf) == Ok(6)
        && buf == *b"pixels\0\0"
        && side.read(&mut buf) == Ok(0)
        && side.faults() == 0
        && side.open(inside, 0) == Err(SideFault)
        && side.read(&mut buf) == Ok(0)
}

/// Reads a file of six bytes from a byte of it on, and from its end and beyond.
fn reads_from(side: &mut Folder<HostRuntime>, name: &str) -> bool {
    let mut buf = [0u8; 8];
    side.open(name, 2) == Ok(true)
        && side.read(&mut buf) == Ok(4)
        && buf == *b"xels\0\0\0\0"
        && side.open(name, 6) == Ok(true)
        && side.read(&mut buf) == Ok(0)
        && side.open(name, u32::MAX) == Ok(true)
        && side.read(&mut buf) == Ok(0)
}

/// Whether a file is read while it is there. None where a file can't be made.
fn has_read(rt: &HostRuntime) -> Option<bool> {
    let folder = folder(rt)?;
    let name = file_name(rt, "side")?;
    let path = path_in(rt, folder.as_str(), name.as_str())?;
    let inside = joined(rt.alloc(), name.as_str(), "/inside")?;
    fs::write(rt, path.as_str(), b"pixels").ok()?;
    let mut side = Folder::new(rt, folder.as_str());
    let read = reads(&mut side, name.as_str(), inside.as_str())
        && reads_from(&mut side, name.as_str());
    fs::remove_file(rt, path.as_str()).ok()?;
    Some(read && side.open(name.as_str(), 0) == Ok(false) && side.faults() == 1)
}

#[test]
fn reads_side_files(rt: HostRuntime) {
    assert_eq!(rt; has_read(&rt), Some(true));
}

/// The recording of a client that has a pool of 16 bytes.
const POOL: &str = "connect
bytes 1 01000000 01000c00 02000000
bytes 1 02000000 00002000 03000000 07000000 776c5f73686d0000 01000000 04000000
bytes 1 04000000 00001000 09000000 10000000
";

const FAILED: &str = "wlframe: side file failed at line 5\n";

/// What the program reports of the pool alone.
fn pool_report(rt: &HostRuntime, text: &str) -> Option<Vec<u8>> {
    let mut input = POOL.as_bytes();
    let mut report = Vec::new(rt.alloc());
    told(rt, rt.alloc(), text, &mut input, &mut report)?;
    Some(report)
}

/// How the program ends that plays the pool and a line more. None where it said something else of a
/// fault, or reported more than of the pool alone.
fn plays_line(rt: &HostRuntime, folder: &str, line: &str, fault: &str) -> Option<Status> {
    let text = joined(rt.alloc(), "wlframe replay --size 2x1 --dir ", folder)?;
    let report = pool_report(rt, text.as_str())?;
    let recording = joined(rt.alloc(), POOL, line)?;
    plays(
        rt,
        text.as_str(),
        recording.as_bytes(),
        fault,
        report.as_slice(),
    )
}

/// How the program ends that plays the line of a file, and how once the file is gone.
fn plays_file(rt: &HostRuntime) -> Option<[Option<Status>; 2]> {
    let folder = folder(rt)?;
    let name = file_name(rt, "store")?;
    let path = path_in(rt, folder.as_str(), name.as_str())?;
    let line = format!(in rt.alloc(); "file 1 1 10 {name}\n").ok()?;
    fs::write(rt, path.as_str(), b"pixels").ok()?;
    let there = plays_line(rt, folder.as_str(), line.as_str(), "");
    fs::remove_file(rt, path.as_str()).ok()?;
    let gone = plays_line(rt, folder.as_str(), line.as_str(), FAILED);
    Some([there, gone])
}

/// The folder is a file, and one that can't be read is a folder.
const UNREADABLE: &[(&str, &str)] = &[("/dev/null", "file 1 1 0 a\n"), ("/", "file 1 1 0 dev\n")];

#[test]
fn tells_of_side_files(rt: HostRuntime) {
    let played = plays_file(&rt);
    assert_eq!(rt; played, Some([Some(Status::Done), Some(Status::Failed)]));
    for &(folder, line) in UNREADABLE {
        let status = plays_line(&rt, folder, line, FAILED);
        assert_eq!(rt; status, Some(Status::Failed), "{folder}");
    }
}

/// Whether opening a file in a folder is a fault, and one of memory or not.
fn faults(rt: &HostRuntime, heap: &Refusing<Global>, name: &str, lacks_memory: bool) -> bool {
    let files = (rt, heap);
    let mut side = Folder::new(&files, "/");
    side.open(name, 0) == Err(SideFault)
        && side.faults() == 1
        && side.lacks_memory() == lacks_memory
}

#[test]
fn tells_want_of_memory_from_a_bad_file(rt: HostRuntime) {
    assert!(rt; faults(&rt, &Refusing::new(rt.alloc(), 0), "dev", true));
    assert!(rt;
        faults(
            &rt,
            &Refusing::new(rt.alloc(), 1000),
            "dev/null/inside",
            false
        )
    );
}
