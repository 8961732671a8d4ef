//! What a viewer's lines ask.

ghost use Rattle.std.specs.Prelude.{◌≡◌};
ghost use Rattle.wl_viewer.specs.Asked.{asked_by, button_by, button_in, motion_by, motion_in, sync_in, windows_in};

use wl_recording::{is_blank, is_comment, next_word, number, pressed_of, signed};

/// What a line of a viewer asks.
#[derive(Clone, Copy, Debug, PartialEq, Eq)]
pub enum Asked {
    /// The pointer moves to this point of the output, in pixels from the top left corner.
    Motion { x: i32, y: i32 },
    /// A button is pressed or released. `code` is the kernel's number of the button.
    Button { code: u32, pressed: bool },
    /// The viewer is to be told this number once it has seen what was asked before.
    Sync { number: u32 },
    /// The viewer is to be told which windows are shown.
    Windows,
    /// A comment, or no words.
    Nothing,
    /// Not a line of a viewer.
    Bad,
}

/// What a line without its line feed asks: `motion X Y`, `button CODE 0` or `button CODE 1`, `sync
/// N`, or `windows`, in words with spaces between.
pub fn asked_of(text: &[u8]) -> Asked
    ensures { result ≡ asked_by text.now }
{
    if is_comment(text) {
        return Asked::Nothing;
    }
    let (word, rest) = next_word(text);
    if word.is_empty() {
        Asked::Nothing
    } else if word == b"motion".as_slice() {
        motion_in(rest).unwrap_or(Asked::Bad)
    } else if word == b"button".as_slice() {
        button_in(rest).unwrap_or(Asked::Bad)
    } else if word == b"sync".as_slice() {
        sync_in(rest).unwrap_or(Asked::Bad)
    } else if word == b"windows".as_slice() {
        windows_in(rest)
    } else {
        Asked::Bad
    }
}

/// The motion, if a text has exactly its two words.
fn motion_in(text: &[u8]) -> Option<Asked>
    ensures { result ≡ motion_in text.now }
{
    let (x, text) = next_word(text);
    let (y, text) = next_word(text);
    if is_blank(text) {
        motion_by(x, y)
    } else {
        None
    }
}

fn motion_by(x: &[u8], y: &[u8]) -> Option<Asked>
    ensures { result ≡ motion_by x.now y.now }
{
    let x = signed(x)?;
    let y = signed(y)?;
    Some(Asked::Motion { x, y })
}

/// The button, if a text has exactly its two words.
fn button_in(text: &[u8]) -> Option<Asked>
    ensures { result ≡ button_in text.now }
{
    let (code, text) = next_word(text);
    let (pressed, text) = next_word(text);
    if is_blank(text) {
        button_by(code, pressed)
    } else {
        None
    }
}

fn button_by(code: &[u8], pressed: &[u8]) -> Option<Asked>
    ensures { result ≡ button_by code.now pressed.now }
{
    let code = number(code)?;
    let pressed = pressed_of(pressed)?;
    Some(Asked::Button { code, pressed })
}

/// The number, if it is the only word of a text.
fn sync_in(text: &[u8]) -> Option<Asked>
    ensures { result ≡ sync_in text.now }
{
    let (word, text) = next_word(text);
    if is_blank(text) {
        Some(Asked::Sync {
            number: number(word)?,
        })
    } else {
        None
    }
}

fn windows_in(text: &[u8]) -> Asked
    ensures { result ≡ windows_in text.now }
{
    if is_blank(text) {
        Asked::Windows
    } else {
        Asked::Bad
    }
}
