use crate::support::{ends, plays, printed, told};
use test_support::{FaultyReader, FaultyWriter, Refusing};
use wl_program::Status;
use wl_replay::ReplayError;
use wl_server::TurnError;
use wl_session::ConnectError;

const SYNC: &[u8] = b"connect\nbytes 1 01000000 00000c00 02000000\ntick 0\n";

const REPORT: &[u8] =
    b"client 1\nto 1 0200000000000c00000000000100000001000c0002000000\nframe 0 0\n";

const REPLAY: &str = "wlframe replay --size 2x1";

#[test]
fn plays_a_recording(rt: HostRuntime) {
    assert_eq!(rt; plays(&rt, REPLAY, SYNC, "", REPORT), Some(Status::Done));
}

/// How the program ends that reads nothing.
fn status_of(rt: &HostRuntime, text: &str) -> Option<Status> {
    let mut input: &[u8] = b"";
    let mut output = Vec::new(rt.alloc());
    let (status, _) = told(rt, rt.alloc(), text, &mut input, &mut output)?;
    Some(status)
}

const USES: &[(&str, Status)] = &[
    ("wlframe replay", Status::Done),
    ("wlframe replay --size 000064x4096 --dir here", Status::Done),
    ("wlframe --help", Status::Done),
    ("wlframe replay --help", Status::Done),
    ("wlframe", Status::Usage),
    ("wlframe replay extra", Status::Usage),
    ("wlframe serve --help", Status::Done),
    ("wlframe serve --turns 1", Status::Usage),
    ("wlframe serve --socket here", Status::Usage),
    ("wlframe serve --socket here --turns 0", Status::Usage),
    ("wlframe serve --rate 60", Status::Usage),
    ("wlframe serve --rate", Status::Usage),
];

/// Rates that are none, before a size that is none.
const BAD_RATES: &[&str] = &[
    "wlframe serve --socket here --rate 0 --size 0x0",
    "wlframe serve --socket here --rate 1001 --size 0x0",
    "wlframe serve --socket here --rate x --turns 1 --size 0x0",
    "wlframe serve --socket here --rate +4 --turns 1 --size 0x0",
    "wlframe serve --socket here --rate=-4 --turns 1 --size 0x0",
    "wlframe serve --socket here --rate= --size 0x0",
];

const BAD_SIZES: &[&str] = &[
    "wlframe replay --size 64 --ppm /no/such/folder/a.ppm",
    "wlframe replay --size 0x64 --ppm /no/such/folder/a.ppm",
    "wlframe replay --size 64x0 --ppm /no/such/folder/a.ppm",
    "wlframe replay --size +4x64 --ppm /no/such/folder/a.ppm",
    "wlframe replay --size 64x4097 --ppm /no/such/folder/a.ppm",
    "wlframe replay --size 64x64x64 --ppm /no/such/folder/a.ppm",
    "wlframe replay --size 64X64 --ppm /no/such/folder/a.ppm",
    "wlframe replay --size x --ppm /no/such/folder/a.ppm",
];

/// The place of the first words that end the program otherwise.
fn first_missed_use(rt: &HostRuntime, uses: &[(&str, Status)]) -> Option<usize> {
    for (place, &(text, wanted)) in uses.iter().enumerate() {
        if status_of(rt, text) != Some(wanted) {
            return Some(place);
        }
    }
    None
}

#[test]
fn tells_usage(rt: HostRuntime) {
    assert_eq!(rt; first_missed_use(&rt, USES), None);
}

/// The place of the first words that end the program otherwise than as a fault of usage of which
/// this is said.
fn first_taken(rt: &HostRuntime, uses: &[&str], fault: &str) -> Option<usize> {
    for (place, &text) in uses.iter().enumerate() {
        if plays(rt, text, b"", fault, b"") != Some(Status::Usage) {
            return Some(place);
        }
    }
    None
}

#[test]
fn tells_bad_sizes(rt: HostRuntime) {
    assert_eq!(rt; first_taken(&rt, BAD_SIZES, "wlframe: bad size\n"), None);
}

#[test]
fn tells_bad_rates(rt: HostRuntime) {
    let fault = "wlframe: bad rate: it is a number from 1 to 1000\n";
    assert_eq!(rt; first_taken(&rt, BAD_RATES, fault), None);
}

/// How the program ends that is run with these words, and whether it printed just this and said
/// what contains the other.
fn prints(rt: &HostRuntime, text: &str, wanted: &str, said: &str) -> Option<Status> {
    let mut input: &[u8] = b"";
    let mut output = Vec::new(rt.alloc());
    let (status, out, err) = printed(rt, rt.alloc(), text, &mut input, &mut output)?;
    if out.as_str() == wanted && err.as_str().contains(said) && output.is_empty() {
        Some(status)
    } else {
        None
    }
}

#[test]
fn prints_its_version(rt: HostRuntime) {
    let version = prints(&rt, "wlframe --version", "wlframe 0.1.0\n", "");
    assert_eq!(rt; version, Some(Status::Done));
}

/// Words of usage, and what is said of them.
const SAID: &[(&str, &str)] = &[
    (
        "wlframe replay a.rec",
        "error: unexpected argument 'a.rec' found\n\nUsage: wlframe replay [OPTIONS]\n",
    ),
    ("wlframe serve --socket here", "--turns <N>"),
    ("wlframe serve --rate 60", "--socket <PATH>"),
];

/// The place of the first words of which that isn't said.
fn first_unsaid(rt: &HostRuntime, uses: &[(&str, &str)]) -> Option<usize> {
    for (place, &(text, said)) in uses.iter().enumerate() {
        if prints(rt, text, "", said) != Some(Status::Usage) {
            return Some(place);
        }
    }
    None
}

#[test]
fn says_what_is_wrong(rt: HostRuntime) {
    assert_eq!(rt; first_unsaid(&rt, SAID), None);
}

/// How the program ends that reads a bad line.
fn ends_badly(rt: &HostRuntime) -> Option<Status> {
    plays(
        rt,
        "wlframe replay",
        b"tock 1",
        "wlframe: bad line 1\n",
        b"",
    )
}

#[test]
fn tells_bad_lines(rt: HostRuntime) {
    assert_eq!(rt; ends_badly(&rt), Some(Status::BadLine));
}

/// How the program ends whose images have no folder.
fn ends_without_images(rt: &HostRuntime) -> Option<Status> {
    let text = "wlframe replay --ppm /no/such/folder/a.ppm";
    plays(rt, text, SYNC, "wlframe: write failed\n", b"")
}

#[test]
fn tells_images_that_cannot_be_made(rt: HostRuntime) {
    assert_eq!(rt; ends_without_images(&rt), Some(Status::Failed));
}

/// How the program ends whose input fails after its first line.
fn ends_unread(rt: &HostRuntime) -> Option<Status> {
    let mut input = FaultyReader::new(SYNC).byte_by_byte().failing_at(12);
    let mut output = Vec::new(rt.alloc());
    let fault = "wlframe: read failed\n";
    let status = ends(
        rt,
        rt.alloc(),
        "wlframe replay",
        &mut input,
        &mut output,
        fault,
    )?;
    if output.as_slice() == b"client 1\n".as_slice() {
        Some(status)
    } else {
        None
    }
}

/// How the program ends whose report fails to be written.
fn ends_unwritten(rt: &HostRuntime) -> Option<Status> {
    let mut input = SYNC;
    let mut output = FaultyWriter::new(rt.alloc()).failing_at(1);
    let fault = "wlframe: write failed\n";
    ends(
        rt,
        rt.alloc(),
        "wlframe replay",
        &mut input,
        &mut output,
        fault,
    )
}

#[test]
fn tells_faults_of_its_input(rt: HostRuntime) {
    assert_eq!(rt; ends_unread(&rt), Some(Status::Failed));
}

#[test]
fn tells_faults_of_its_output(rt: HostRuntime) {
    assert_eq!(rt; ends_unwritten(&rt), Some(Status::Failed));
}

/// What became of a run with some allocations served.
#[derive(Drop)]
enum Ran {
    /// None was refused, and the report is whole.
    Whole,
    /// One was refused, and the program said so.
    Memory,
    /// One was refused, and the program ended well without it.
    Done,
    Wrong,
}

fn judged(refused: bool, status: Status, fault: &str, report: &[u8]) -> Ran {
    match status {
        Status::Done if !refused && report == REPORT => Ran::Whole,
        Status::Done if refused && fault == "" => Ran::Done,
        Status::Memory if refused && fault == "wlframe: out of memory\n" => Ran::Memory,
        _ => Ran::Wrong,
    }
}

fn ran_with(rt: &HostRuntime, served: u64) -> Ran {
    let heap = Refusing::new(rt.alloc(), served);
    let mut input = SYNC;
    let mut output = Vec::new(rt.alloc());
    match told(rt, &heap, REPLAY, &mut input, &mut output) {
        Some((status, fault)) => judged(heap.refused(), status, fault.as_str(), output.as_slice()),
        None => Ran::Wrong,
    }
}

#[test]
fn tells_want_of_memory(rt: HostRuntime) {
    for served in 0..1000_u64 {
        match ran_with(&rt, served) {
            Ran::Whole => return,
            Ran::Memory | Ran::Done => {}
            Ran::Wrong => panic!(rt; "a run with {served} allocations served"),
        }
    }
    assert!(rt; false, "memory was refused in each run");
}

/// Each error of a replay. Lines have no say in its number.
const REPLAY_ERRORS: [ReplayError; 5] = [
    ReplayError::Read,
    ReplayError::Write,
    ReplayError::BadLine(9),
    ReplayError::Side(9),
    ReplayError::Memory,
];

#[test]
fn errors_have_their_numbers(rt: HostRuntime) {
    assert!(rt; ConnectError::Full as u8 == 1 && ConnectError::Memory as u8 == 2);
    assert!(rt; TurnError::Write as u8 == 1);
    assert!(rt; REPLAY_ERRORS.map(ReplayError::number) == [1, 2, 3, 4, 5]);
}
