//! Ranges of stores, as the lines of a text name them.

ghost use Rattle.std.specs.Prelude.{◌≡◌, ◌≤◌, IfSome, drop, length, not, option_map, ◌==◌};
ghost use Rattle.std.specs.List.{prefix_len};
ghost use Rattle.wl_recording.specs.Line.{number_of};
ghost use Rattle.wl_recording.specs.Ranges.{first_range, lines_of, range_by, range_in, rises};

use crate::numbers::number;
use crate::word::cut_word;
use wl_store::StoreNo;

/// A range of a client's store: its first byte, from 0, and how many bytes it has at most. It also
/// has the byte of a side file that the first one comes from.
#[derive(Clone, Copy, Debug, PartialEq, Eq)]
pub struct StoreRange {
    pub store: StoreNo,
    pub at: u32,
    pub len: u32,
    pub from: u32,
}

/// The range that the first line of a text names, and what follows that line.
///
/// `None` if one of these holds:
/// - no line of the text ends with a line feed;
/// - the first line isn't `K AT LEN FROM` in decimal numbers;
/// - the range doesn't begin behind the one before.
pub fn next_range(before: Option<StoreRange>, text: &[u8]) -> Option<(StoreRange, &[u8])>
    ensures range { option_map (λ found. found.0) result ≡ first_range before (lines_of text.now) }
    ensures rest { IfSome result (λ found. lines_of found.1.now ≡ drop 1 (lines_of text.now)) }
{
    let end = line_len(text);
    if end == text.len() {
        return None;
    }
    let range = range_in(&text[..end])?;
    if rises(before, range) {
        Some((range, &text[end + 1..]))
    } else {
        None
    }
}

/// How many bytes of a text stand before its first line feed.
fn line_len(text: &[u8]) -> usize
    ensures value { result ≡ prefix_len (λ b. not (b == 10)) text.now }
    ensures within { result ≤ length text.now }
{
    for (i, b) in text.iter().enumerate() {
        if *b == b'\n' {
            return i;
        }
    }
    text.len()
}

/// The range that a line without its line feed names.
fn range_in(line: &[u8]) -> Option<StoreRange>
    ensures { result ≡ range_in line.now }
{
    let (store, line) = cut_word(line);
    let (at, line) = cut_word(line);
    let (len, from) = cut_word(line);
    range_by(store, at, len, from)
}

fn range_by(store: &[u8], at: &[u8], len: &[u8], from: &[u8]) -> Option<StoreRange>
    ensures { result ≡ range_by (number_of store.now) (number_of at.now) (number_of len.now) (number_of from.now) }
{
    let store = number(store)?;
    let at = number(at)?;
    let len = number(len)?;
    let from = number(from)?;
    Some(StoreRange {
        store,
        at,
        len,
        from,
    })
}

/// Whether a range begins behind the one before: in a later store, or later in the same store.
fn rises(before: Option<StoreRange>, range: StoreRange) -> bool
    ensures { result ≡ rises before range }
{
    match before {
        None => true,
        Some(before) => {
            before.store < range.store || before.store == range.store && before.at < range.at
        }
    }
}
