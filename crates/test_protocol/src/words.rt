//! Messages as bytes: what is put is found and read again.

use std::alloc::{Allocator, Global};
use wl_wire::*;

fn puts_two<A: Allocator>(out: &mut Vec<u8, A>) -> bool {
    put(out, 1, 1, &[Arg::Uint(2)]) == Ok(())
        && out.as_slice() == [1, 0, 0, 0, 1, 0, 12, 0, 2, 0, 0, 0].as_slice()
}

#[test]
fn puts_a_message(rt: HostRuntime) {
    let mut out = Vec::new(rt.alloc());
    assert!(rt; puts_two(&mut out));
}

// Whether a text is refused that makes a message too long by a byte, and then put without its first
// byte.
fn puts_longest<A: Allocator>(out: &mut Vec<u8, A>, longer: &[u8]) -> bool {
    match longer.get(1..) {
        Some(longest) => {
            longest.len() == 65_519
                && put(out, 1, 1, &[Arg::Str(longer)]) == Err(PutError::TooLong)
                && out.is_empty()
                && put(out, 1, 1, &[Arg::Str(longest)]) == Ok(())
                && out.len() == 65_532
        }
        None => false,
    }
}

fn puts_at_most(alloc: Global) -> bool {
    let mut out = Vec::new(alloc);
    match vec![in alloc; b'a'; 65_520] {
        Ok(longer) => puts_longest(&mut out, &longer),
        Err(_) => false,
    }
}

#[test]
fn puts_at_most_65532_bytes(rt: HostRuntime) {
    assert!(rt; puts_at_most(rt.alloc()));
}

pub(crate) const ARGS: &[Arg] = &[
    Arg::Int(-2),
    Arg::Fixed(Fixed(-256)),
    Arg::Str(b"wl"),
    Arg::Array(&[4, 0, 0, 0, 9]),
    Arg::NewId(7),
    Arg::Object(0),
];

const WHOLE: Split = Split::Message {
    object: 3,
    opcode: 2,
    size: 44,
};

fn is_bytes(read: Result<&[u8], ArgError>, wanted: &[u8]) -> bool {
    match read {
        Ok(bytes) => bytes == wanted,
        Err(_) => false,
    }
}

fn reads_args(body: &mut Args) -> bool {
    body.int() == Ok(-2)
        && body.fixed() == Ok(Fixed(-256))
        && is_bytes(body.string(), b"wl")
        && is_bytes(body.array(), &[4, 0, 0, 0, 9])
        && body.uint() == Ok(7)
        && body.uint() == Ok(0)
}

fn reads_all(bytes: &[u8]) -> bool {
    let mut body = Args::new(bytes);
    let is_read = reads_args(&mut body);
    body.finish() == Ok(()) && is_read
}

fn reads_message(out: &[u8]) -> bool {
    match out.get(8..) {
        Some(body) => split(out) == WHOLE && out.len() == 44 && reads_all(body),
        None => false,
    }
}

fn puts_and_reads<A: Allocator>(out: &mut Vec<u8, A>) -> bool {
    put(out, 3, 2, ARGS) == Ok(()) && reads_message(out)
}

#[test]
fn reads_what_it_put(rt: HostRuntime) {
    let mut out = Vec::new(rt.alloc());
    assert!(rt; puts_and_reads(&mut out));
}
