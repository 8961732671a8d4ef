//! Words, with spaces between.

ghost use Rattle.std.specs.Prelude.{◌≡◌, ◌==◌, ◌≤◌, length, not};
ghost use Rattle.std.specs.List.{prefix_len};
ghost use Rattle.wl_recording.specs.Line.{after_word, first_word, is_blank};
ghost use Rattle.wl_recording.specs.Ranges.{before_space, behind_space};

/// The first word of a text, and what follows it. The word is empty if there is none.
pub fn next_word(text: &[u8]) -> (&[u8], &[u8])
    ensures word { result.0.now ≡ first_word text.now }
    ensures rest { result.1.now ≡ after_word text.now }
{
    let text = &text[spaces(text)..];
    text.split_at(word_len(text))
}

/// What stands before the first space of a text, and what behind it. Without a space all of it
/// stands before.
pub(crate) fn cut_word(text: &[u8]) -> (&[u8], &[u8])
    ensures word { result.0.now ≡ before_space text.now }
    ensures rest { result.1.now ≡ behind_space text.now }
{
    let (word, rest) = text.split_at(word_len(text));
    if rest.is_empty() {
        (word, rest)
    } else {
        (word, &rest[1..])
    }
}

/// Whether a text has no word.
pub fn is_blank(text: &[u8]) -> bool
    ensures { result ≡ is_blank text.now }
{
    spaces(text) == text.len()
}

/// How many spaces a text begins with.
fn spaces(text: &[u8]) -> usize
    ensures value { result ≡ prefix_len (λ b. b == 32) text.now }
    ensures within { result ≤ length text.now }
{
    for (i, b) in text.iter().enumerate() {
        if *b != b' ' {
            return i;
        }
    }
    text.len()
}

/// How many bytes of a text stand before its first space.
fn word_len(text: &[u8]) -> usize
    ensures value { result ≡ prefix_len (λ b. not (b == 32)) text.now }
    ensures within { result ≤ length text.now }
{
    for (i, b) in text.iter().enumerate() {
        if *b == b' ' {
            return i;
        }
    }
    text.len()
}
