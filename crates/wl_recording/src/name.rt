//! Names of side files.

ghost use Rattle.std.specs.Prelude.{◌≡◌, option_map};
ghost use Rattle.std.specs.List.{list_all};
ghost use Rattle.wl_recording.specs.Line.{is_name, is_name_byte, name_in};

use crate::word::{is_blank, next_word};
use std::str;

/// How many bytes a name may have.
const NAME_LIMIT: usize = 64;

/// The name, if it is the only word of a text.
pub(crate) fn last_name(text: &[u8]) -> Option<&str>
    ensures { option_map (λ name. name.now) result ≡ name_in text.now }
{
    let (word, rest) = next_word(text);
    if is_blank(rest) && is_name(word) {
        str::from_utf8(word).ok()
    } else {
        None
    }
}

/// Whether a word may name a side file. No name leaves the folder that its file is in.
fn is_name(word: &[u8]) -> bool
    ensures { result ≡ is_name word.now }
{
    if word.is_empty() || word.len() > NAME_LIMIT {
        return false;
    }
    word[0] != b'.' && has_name_bytes(word)
}

fn has_name_bytes(word: &[u8]) -> bool
    ensures { result ≡ list_all is_name_byte word.now }
{
    word.iter().all(|b| is_name_byte(*b))
}

fn is_name_byte(b: u8) -> bool
    ensures { result ≡ is_name_byte b }
{
    b.is_ascii_alphanumeric() || b == b'.' || b == b'_' || b == b'-'
}
