//! The lines of a pointer file.

ghost use Rattle.std.specs.Prelude.{◌≡◌};
ghost use Rattle.wl_recording.specs.Pointer.{button_by, button_in, motion_by, motion_in, pointer_by};

use crate::line::is_comment;
use crate::numbers::{number, pressed_of, signed};
use crate::word::{is_blank, next_word};

/// What a line of a pointer file asks.
#[derive(Clone, Copy, Debug, PartialEq, Eq)]
pub enum PointerLine {
    /// The pointer moves to this point of the output. `time` is in milliseconds. `x` and `y` are in
    /// pixels from the top left corner.
    Motion { time: u32, x: i32, y: i32 },
    /// A button is pressed or released. `time` is in milliseconds, and `code` is the kernel's
    /// number of the button.
    Button { time: u32, code: u32, pressed: bool },
    /// A comment, or no words.
    Skip,
    /// Not a line of a pointer file.
    Bad,
}

/// What a line asks, without its line feed: `motion T X Y`, `button T CODE 0` or `button T CODE 1`,
/// with spaces between the words.
pub fn pointer_line(text: &[u8]) -> PointerLine
    ensures { result ≡ pointer_by text.now }
{
    if is_comment(text) {
        return PointerLine::Skip;
    }
    let (word, rest) = next_word(text);
    if word.is_empty() {
        PointerLine::Skip
    } else if word == b"motion".as_slice() {
        motion_in(rest).unwrap_or(PointerLine::Bad)
    } else if word == b"button".as_slice() {
        button_in(rest).unwrap_or(PointerLine::Bad)
    } else {
        PointerLine::Bad
    }
}

/// The motion, if a text is exactly its three words.
fn motion_in(text: &[u8]) -> Option<PointerLine>
    ensures { result ≡ motion_in text.now }
{
    let (time, text) = next_word(text);
    let (x, text) = next_word(text);
    let (y, text) = next_word(text);
    if is_blank(text) {
        motion_by(time, x, y)
    } else {
        None
    }
}

fn motion_by(time: &[u8], x: &[u8], y: &[u8]) -> Option<PointerLine>
    ensures { result ≡ motion_by time.now x.now y.now }
{
    let time = number(time)?;
    let x = signed(x)?;
    let y = signed(y)?;
    Some(PointerLine::Motion { time, x, y })
}

/// The press or release, if a text is exactly its three words.
fn button_in(text: &[u8]) -> Option<PointerLine>
    ensures { result ≡ button_in text.now }
{
    let (time, text) = next_word(text);
    let (code, text) = next_word(text);
    let (pressed, text) = next_word(text);
    if is_blank(text) {
        button_by(time, code, pressed)
    } else {
        None
    }
}

fn button_by(time: &[u8], code: &[u8], pressed: &[u8]) -> Option<PointerLine>
    ensures { result ≡ button_by time.now code.now pressed.now }
{
    let time = number(time)?;
    let code = number(code)?;
    let pressed = pressed_of(pressed)?;
    Some(PointerLine::Button {
        time,
        code,
        pressed,
    })
}
