//! Decimal numbers, coordinates, and whether a button is pressed.

ghost use Rattle.std.specs.Prelude.{◌≡◌};
ghost use Rattle.wl_recording.specs.Line.{has_minus, natural_of, negative_of, number_of, pressed_of, signed_of};

/// The number that a word of decimal digits spells, if it fits 32 bits. Leading zeros are free.
pub fn number(word: &[u8]) -> Option<u32>
    ensures { result ≡ number_of word.now }
{
    if word.is_empty() {
        return None;
    }
    let mut value = 0u64;
    for b in word {
        if !b.is_ascii_digit() {
            return None;
        }
        value = 10 * value + u64::from(*b - b'0');
        if value > u64::from(u32::MAX) {
            return None;
        }
    }
    Some(value as u32)
}

/// The coordinate that a word spells: a number, with a `-` before it if it is negative.
pub fn signed(word: &[u8]) -> Option<i32>
    ensures { result ≡ signed_of word.now }
{
    if has_minus(word) {
        negative(number(&word[1..])?)
    } else {
        natural(number(word)?)
    }
}

fn has_minus(word: &[u8]) -> bool
    ensures { result ≡ has_minus word.now }
{
    !word.is_empty() && word[0] == b'-'
}

fn natural(number: u32) -> Option<i32>
    ensures { result ≡ natural_of number }
{
    i32::try_from(number).ok()
}

fn negative(number: u32) -> Option<i32>
    ensures { result ≡ negative_of number }
{
    i32::try_from(-i64::from(number)).ok()
}

/// Whether a word says that a button is pressed (1) or released (0). `None` for any other word.
pub fn pressed_of(word: &[u8]) -> Option<bool>
    ensures { result ≡ pressed_of word.now }
{
    match number(word)? {
        0 => Some(false),
        1 => Some(true),
        _ => None,
    }
}
