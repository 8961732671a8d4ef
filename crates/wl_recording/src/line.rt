//! The lines of a recording.

ghost use Rattle.std.specs.Prelude.{◌≡◌, ℕ, List, IfOk, Ok, Some, None, true, false};
ghost use Rattle.std.specs.Option.{option_map};
ghost use Rattle.wl_recording.specs.Line.{asked_button, asked_button_by, asked_by, asked_file, asked_motion, asked_motion_by, asked_piece, asked_store, asked_with, hex_in, is_comment, meaning, only_number};

use crate::hex::decode;
use crate::name::last_name;
use crate::numbers::{number, pressed_of, signed};
use crate::place::{Place, next_place};
use crate::word::{is_blank, next_word};
use std::alloc::{AllocError, Allocator};

/// What a line asks.
#[derive(Clone, Copy, Debug, PartialEq, Eq)]
pub enum Line<'a> {
    Connect,
    /// A client sends a piece of its stream. The bytes come beside.
    Bytes { client: u32 },
    /// Bytes are put into a store. They come beside.
    Store { place: Place },
    /// The bytes of a side file are put into a store.
    File { place: Place, name: &'a str },
    Gone { client: u32 },
    /// The pointer moves to this point of the output. `time` is in milliseconds. `x` and `y` are in
    /// pixels from the top left corner.
    Motion { time: u32, x: i32, y: i32 },
    /// A button is pressed or released. `time` is in milliseconds, and `code` is the kernel's
    /// number of the button.
    Button { time: u32, code: u32, pressed: bool },
    Tick { time: u32 },
    /// A comment, or no words.
    Nothing,
}

/// Parses a line without its line feed, and puts the bytes that it spells into `piece`. `None` if
/// it isn't a line of a recording.
///
/// # Errors
///
/// `AllocError` if there is no memory for these bytes.
pub fn parse<'a, A: Allocator>(
    text: &'a [u8],
    piece: &mut Vec<u8, A>,
) -> Result<Option<Line<'a>>, AllocError>
    ensures { IfOk result (λ line. option_map (meaning piece.new.items) line ≡ asked_by text.now) }
{
    if is_comment(text) {
        return Ok(Some(Line::Nothing));
    }
    let (word, rest) = next_word(text);
    parse_words(word, rest, piece)
}

/// Whether a line is a comment: it begins with `#`.
pub fn is_comment(text: &[u8]) -> bool
    ensures { result ≡ is_comment text.now }
{
    !text.is_empty() && text[0] == b'#'
}

/// Parses a line by its first word and the rest.
fn parse_words<'a, A: Allocator>(
    word: &[u8],
    rest: &'a [u8],
    piece: &mut Vec<u8, A>,
) -> Result<Option<Line<'a>>, AllocError>
    ensures { IfOk result (λ line. option_map (meaning piece.new.items) line ≡ asked_with word.now rest.now) }
{
    if word.is_empty() {
        Ok(Some(Line::Nothing))
    } else if word == b"connect".as_slice() {
        Ok(if is_blank(rest) {
            Some(Line::Connect)
        } else {
            None
        })
    } else if word == b"bytes".as_slice() {
        parse_piece(rest, piece)
    } else if word == b"store".as_slice() {
        parse_store(rest, piece)
    } else if word == b"file".as_slice() {
        Ok(parse_file(rest))
    } else if word == b"gone".as_slice() {
        Ok(last_number(rest).map(|client| Line::Gone { client }))
    } else if word == b"motion".as_slice() {
        Ok(parse_motion(rest))
    } else if word == b"button".as_slice() {
        Ok(parse_button(rest))
    } else if word == b"tick".as_slice() {
        Ok(last_number(rest).map(|time| Line::Tick { time }))
    } else {
        Ok(None)
    }
}

fn parse_piece<'a, A: Allocator>(
    rest: &'a [u8],
    piece: &mut Vec<u8, A>,
) -> Result<Option<Line<'a>>, AllocError>
    ensures { IfOk result (λ line. option_map (meaning piece.new.items) line ≡ asked_piece rest.now) }
{
    let (word, digits) = next_word(rest);
    let Some(client) = number(word) else {
        return Ok(None);
    };
    if !read_hex(digits, piece)? {
        return Ok(None);
    }
    Ok(Some(Line::Bytes { client }))
}

fn parse_store<'a, A: Allocator>(
    rest: &'a [u8],
    piece: &mut Vec<u8, A>,
) -> Result<Option<Line<'a>>, AllocError>
    ensures { IfOk result (λ line. option_map (meaning piece.new.items) line ≡ asked_store rest.now) }
{
    let Some((place, digits)) = next_place(rest) else {
        return Ok(None);
    };
    if !read_hex(digits, piece)? {
        return Ok(None);
    }
    Ok(Some(Line::Store { place }))
}

fn parse_file(rest: &[u8]) -> Option<Line<'_>>
    ensures { (piece : List ℕ) → option_map (meaning piece) result ≡ asked_file rest.now }
{
    let (place, rest) = next_place(rest)?;
    let name = last_name(rest)?;
    Some(Line::File { place, name })
}

/// The motion, if a text is exactly its three words.
fn parse_motion(rest: &[u8]) -> Option<Line<'static>>
    ensures { (piece : List ℕ) → option_map (meaning piece) result ≡ asked_motion rest.now }
{
    let (time, rest) = next_word(rest);
    let (x, rest) = next_word(rest);
    let (y, rest) = next_word(rest);
    if is_blank(rest) {
        motion_by(time, x, y)
    } else {
        None
    }
}

fn motion_by(time: &[u8], x: &[u8], y: &[u8]) -> Option<Line<'static>>
    ensures { (piece : List ℕ) → option_map (meaning piece) result ≡ asked_motion_by time.now x.now y.now }
{
    let time = number(time)?;
    let x = signed(x)?;
    let y = signed(y)?;
    Some(Line::Motion { time, x, y })
}

/// The press or release, if a text is exactly its three words.
fn parse_button(rest: &[u8]) -> Option<Line<'static>>
    ensures { (piece : List ℕ) → option_map (meaning piece) result ≡ asked_button rest.now }
{
    let (time, rest) = next_word(rest);
    let (code, rest) = next_word(rest);
    let (pressed, rest) = next_word(rest);
    if is_blank(rest) {
        button_by(time, code, pressed)
    } else {
        None
    }
}

fn button_by(time: &[u8], code: &[u8], pressed: &[u8]) -> Option<Line<'static>>
    ensures { (piece : List ℕ) → option_map (meaning piece) result ≡ asked_button_by time.now code.now pressed.now }
{
    let time = number(time)?;
    let code = number(code)?;
    let pressed = pressed_of(pressed)?;
    Some(Line::Button {
        time,
        code,
        pressed,
    })
}

/// Puts the bytes that a text spells into `piece`. The answer is false if it spells none.
fn read_hex<A: Allocator>(digits: &[u8], piece: &mut Vec<u8, A>) -> Result<bool, AllocError>
    ensures spelt { result ≡ Ok true → hex_in digits.now ≡ Some piece.new.items }
    ensures bad { result ≡ Ok false → hex_in digits.now ≡ None }
{
    Ok(decode(digits, piece)? && !piece.is_empty())
}

/// The number, if it is the only word of a text.
fn last_number(text: &[u8]) -> Option<u32>
    ensures { result ≡ only_number text.now }
{
    let (word, rest) = next_word(text);
    if is_blank(rest) { number(word) } else { None }
}
