//! Clients are served.

use crate::support::{file_name, folder, path_in, plays};
use std::fs;
use wl_program::Status;

/// A path of this process, with this ending.
fn path(rt: &HostRuntime, ending: &str) -> Option<String> {
    path_in(rt, folder(rt)?.as_str(), file_name(rt, ending)?.as_str())
}

/// How the program ends that takes three turns without clients, with these options more. None where
/// it told something.
fn serves(rt: &HostRuntime, ending: &str, options: &str) -> Option<Status> {
    let socket = path(rt, ending)?;
    let text = format!(in rt.alloc();
        "wlframe serve --turns 3 --size 2x1 --socket {socket}{options}"
    ).ok()?;
    let status = plays(rt, text.as_str(), b"", "", b"");
    fs::remove_file(rt, socket.as_str()).ok()?;
    status
}

/// How the program ends whose socket is in a folder that isn't there, with these options more. None
/// where it said something else of the fault, or reported something.
fn fails(rt: &HostRuntime, options: &str, fault: &str) -> Option<Status> {
    let socket = "/no/such/folder/socket";
    let text = format!(in rt.alloc(); "wlframe serve --turns 1 --socket {socket}{options}").ok()?;
    plays(rt, text.as_str(), b"", fault, b"")
}

#[test]
fn serves_without_clients(rt: HostRuntime) {
    assert_eq!(rt; serves(&rt, "bare", ""), Some(Status::Done));
    assert_eq!(rt; serves(&rt, "paced", " --rate 1000"), Some(Status::Done));
}

#[test]
fn binds_no_empty_path(rt: HostRuntime) {
    let text = "wlframe serve --turns 1 --socket=";
    let status = plays(&rt, text, b"", "wlframe: bind failed\n", b"");
    assert_eq!(rt; status, Some(Status::Failed));
}

/// Options, what is said of the fault, and how the program ends.
const FAULTS: &[(&str, &str, Status)] = &[
    ("", "wlframe: bind failed\n", Status::Failed),
    (
        " --pointer /no/such/file",
        "wlframe: read failed\n",
        Status::Failed,
    ),
    (
        " --pointer /no/such/file --ppm /no/such/folder/a.ppm",
        "wlframe: write failed\n",
        Status::Failed,
    ),
    (
        " --size 0x1 --ppm /no/such/folder/a.ppm",
        "wlframe: bad size\n",
        Status::Usage,
    ),
];

/// The place of the first options with which the program ends otherwise.
fn first_missed_fault(rt: &HostRuntime, faults: &[(&str, &str, Status)]) -> Option<usize> {
    for (place, &(options, fault, wanted)) in faults.iter().enumerate() {
        if fails(rt, options, fault) != Some(wanted) {
            return Some(place);
        }
    }
    None
}

#[test]
fn tells_faults_of_serving(rt: HostRuntime) {
    assert_eq!(rt; first_missed_fault(&rt, FAULTS), None);
}

/// How the program ends that has a bad line in the pointer's file, and how once the line is mended.
fn serves_pointer(rt: &HostRuntime) -> Option<[Option<Status>; 2]> {
    let file = path(rt, "pointer")?;
    let option = format!(in rt.alloc(); " --pointer {file}").ok()?;
    fs::write(rt, file.as_str(), b"motion 1 2 3\n\nbutton 1 272 2\n").ok()?;
    let bad = fails(rt, option.as_str(), "wlframe: bad line 3\n");
    fs::write(rt, file.as_str(), b"motion 1 2 3\n\nbutton 1 272 1\n").ok()?;
    let mended = serves(rt, "pointed", option.as_str());
    fs::remove_file(rt, file.as_str()).ok()?;
    Some([bad, mended])
}

#[test]
fn reads_the_pointer_before_the_socket_is_made(rt: HostRuntime) {
    let served = serves_pointer(&rt);
    assert_eq!(rt; served, Some([Some(Status::BadLine), Some(Status::Done)]));
}
