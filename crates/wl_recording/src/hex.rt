//! Bytes as hex digits.

ghost use Rattle.std.specs.Prelude.{◌≡◌, OnOk, Some, None, true, false, ◌<◌, IfSome, Ok};
ghost use Rattle.wl_recording.specs.Line.{byte_of, bytes_in, hex_value};

use std::alloc::{AllocError, Allocator};

/// The value of a hex digit, in upper or lower case.
fn digit(b: u8) -> Option<u8>
    ensures value { result ≡ hex_value b }
    ensures small { IfSome result (λ value. value < 16) }
{
    match b {
        b'0'..=b'9' => Some(b - b'0'),
        b'a'..=b'f' => Some(b - b'a' + 10),
        b'A'..=b'F' => Some(b - b'A' + 10),
        _ => None,
    }
}

/// The byte that two hex digits spell, the high one first.
fn byte(high: u8, low: u8) -> Option<u8>
    ensures { result ≡ byte_of high low }
{
    let high = digit(high)?;
    let low = digit(low)?;
    Some(16 * high + low)
}

/// Puts the bytes that a text spells into `bytes`. Two hex digits spell a byte, and spaces may
/// stand between bytes. The answer is false if the text spells none.
pub(crate) fn decode<A: Allocator>(text: &[u8], bytes: &mut Vec<u8, A>) -> Result<bool, AllocError>
    ensures spelt { result ≡ Ok true → bytes_in text.now ≡ Some bytes.new.items }
    ensures bad { result ≡ Ok false → bytes_in text.now ≡ None }
{
    bytes.clear();
    let mut at = 0;
    while at < text.len() {
        if text[at] == b' ' {
            at += 1;
        } else {
            if at + 1 == text.len() {
                return Ok(false);
            }
            let Some(byte) = byte(text[at], text[at + 1]) else {
                return Ok(false);
            };
            bytes.push(byte)?;
            at += 2;
        }
    }
    Ok(true)
}
