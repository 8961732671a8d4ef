//! Messages of numbers alone, word by word.

use std::alloc::Global;
use wl_wire::{Arg, put};

/// A message: its object, its opcode, and how many of these words its arguments are.
#[derive(Clone, Copy)]
pub(crate) struct Words {
    object: u32,
    opcode: u16,
    count: usize,
    words: [u32; 6],
}

impl Words {
    pub(crate) fn new(object: u32, opcode: u16, count: usize, words: [u32; 6]) -> Words {
        Words {
            object,
            opcode,
            count,
            words,
        }
    }
}

pub(crate) fn none(object: u32, opcode: u16) -> Words {
    Words::new(object, opcode, 0, [0; 6])
}

pub(crate) fn one(object: u32, opcode: u16, a: u32) -> Words {
    Words::new(object, opcode, 1, [a, 0, 0, 0, 0, 0])
}

pub(crate) fn one_int(object: u32, opcode: u16, a: i32) -> Words {
    one(object, opcode, a.cast_unsigned())
}

pub(crate) fn two(object: u32, opcode: u16, words: [u32; 2]) -> Words {
    Words::new(object, opcode, 2, [words[0], words[1], 0, 0, 0, 0])
}

pub(crate) fn two_ints(object: u32, opcode: u16, ints: [i32; 2]) -> Words {
    two(
        object,
        opcode,
        [ints[0].cast_unsigned(), ints[1].cast_unsigned()],
    )
}

pub(crate) fn three(object: u32, opcode: u16, words: [u32; 3]) -> Words {
    Words::new(object, opcode, 3, [words[0], words[1], words[2], 0, 0, 0])
}

pub(crate) fn four(object: u32, opcode: u16, words: [u32; 4]) -> Words {
    Words::new(
        object,
        opcode,
        4,
        [words[0], words[1], words[2], words[3], 0, 0],
    )
}

pub(crate) fn four_ints(object: u32, opcode: u16, ints: [i32; 4]) -> Words {
    let words = [
        ints[0].cast_unsigned(),
        ints[1].cast_unsigned(),
        ints[2].cast_unsigned(),
        ints[3].cast_unsigned(),
    ];
    four(object, opcode, words)
}

pub(crate) fn six(object: u32, opcode: u16, words: [u32; 6]) -> Words {
    Words::new(object, opcode, 6, words)
}

/// Writes a message at the end of bytes. False where there is no memory for it.
pub(crate) fn put_words(bytes: &mut Vec<u8, Global>, message: &Words) -> bool {
    let words = message.words;
    let args = [
        Arg::Uint(words[0]),
        Arg::Uint(words[1]),
        Arg::Uint(words[2]),
        Arg::Uint(words[3]),
        Arg::Uint(words[4]),
        Arg::Uint(words[5]),
    ];
    let args = args.get(..message.count).unwrap_or(&[]);
    put(bytes, message.object, message.opcode, args).is_ok()
}
