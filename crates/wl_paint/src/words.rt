//! Points that are marked by the bits of words, 64 a word.
ghost use Rattle.std.specs.Prelude.{◌≡◌, ◌≢◌, ◌+◌, ◌-◌, ◌*◌, ◌/◌, ◌^◌, ◌≤◌, ◌<◌, ◌||◌, ℕ, length, cond, not, false, true, slice_index, IfOk};
ghost use Rattle.wl_paint.specs.Damage.{GivesRun, count_below, is_between};
ghost use Rattle.wl_paint.specs.Words.{IsWhole, is_marked, is_set};

use crate::span::Span;
use std::alloc::{AllocError, Allocator};

/// Words for this many points, with no point marked.
pub(crate) fn unmarked<A: Allocator>(alloc: A, points: u32) -> Result<Vec<u64, A>, AllocError>
    requires { points ≤ 4096 }
    ensures sized { IfOk result (λ words. points ≤ 64 * length words.items) }
    ensures tight { IfOk result (λ words. 64 * length words.items < points + 64) }
    ensures empty { IfOk result (λ words. (x : ℕ) → is_marked words.items x ≡ false) }
{
    vec![in alloc; 0; (points as usize + 63) / 64]
}

pub(crate) fn unmark<A: Allocator>(words: &mut Vec<u64, A>)
    ensures len { length words.new.items ≡ length words.old.items }
    ensures empty { (x : ℕ) → is_marked words.new.items x ≡ false }
{
    for word in words.iter_mut() {
        *word = 0;
    }
}

/// Whether the bit of the word is 1.
fn has_bit(word: u64, i: u32) -> bool
    requires { i < 64 }
    ensures { result ≡ is_set word i }
{
    (word >> i) & 1 == 1
}

/// Whether the point is marked. None past the words is.
pub(crate) fn has_mark(words: &[u64], x: u32) -> bool
    ensures { result ≡ is_marked words.now x }
{
    match words.get(x as usize / 64) {
        Some(word) => has_bit(*word, x % 64),
        None => false,
    }
}

/// The word of which the bits from `low` up to `high` are 1.
fn bits_between(low: u32, high: u32) -> u64
    requires order { low < high }
    requires within { high ≤ 64 }
    ensures { result ≡ 2 ^ high - 2 ^ low }
{
    if high == 64 {
        u64::MAX << low
    } else {
        (1 << high) - (1 << low)
    }
}

/// The word with the bits from `low` up to `high` set too.
fn with_bits(word: u64, low: u32, high: u32) -> u64
    requires order { low < high }
    requires within { high ≤ 64 }
    ensures { (i : ℕ) → is_set result i ≡ (is_set word i || is_between low high i) }
{
    word | bits_between(low, high)
}

/// The word with the bits from `low` up to `high` set too, and how many more of its bits are 1.
fn mark_bits(word: u64, low: u32, high: u32) -> (u64, u32)
    requires order { low < high }
    requires within { high ≤ 64 }
    ensures bits { (i : ℕ) → is_set result.0 i ≡ (is_set word i || is_between low high i) }
    ensures counted { result.1 + count_below 64 (is_set word) ≡ count_below 64 (is_set result.0) }
{
    let marked = with_bits(word, low, high);
    (marked, marked.count_ones() - word.count_ones())
}

/// Marks the points from `first` up to `end` that word `k` has, and says how many more are marked.
fn mark_in_word(words: &mut [u64], k: usize, first: u32, end: u32) -> u32
    requires within { k < length words.old }
    requires starts { first < 64 * k + 64 }
    requires ends { 64 * k < end }
    requires order { first < end }
    requires narrow { length words.old ≤ 64 }
    ensures points { (x : ℕ) → x / 64 ≡ k → is_marked words.new x ≡ (is_marked words.old x || is_between first end x) }
    ensures others { (j : ℕ) → j ≢ k → slice_index words.new j ≡ slice_index words.old j }
    ensures counted { result + count_below (64 * length words.old) (is_marked words.old) ≡ count_below (64 * length words.old) (is_marked words.new) }
{
    let base = 64 * k as u32;
    let low = first.max(base) - base;
    let high = end.min(base + 64) - base;
    let (marked, more) = mark_bits(words[k], low, high);
    words[k] = marked;
    more
}

/// Marks the points from `first` up to `end`, and says how many more are marked.
fn mark_span(words: &mut [u64], first: u32, end: u32) -> u32
    requires order { first ≤ end }
    requires within { end ≤ 64 * length words.old }
    requires narrow { length words.old ≤ 64 }
    ensures points { (x : ℕ) → is_marked words.new x ≡ (is_marked words.old x || is_between first end x) }
    ensures counted { result + count_below (64 * length words.old) (is_marked words.old) ≡ count_below (64 * length words.old) (is_marked words.new) }
{
    if first == end {
        return 0;
    }
    let mut more = 0;
    for k in first as usize / 64..(end as usize + 63) / 64 {
        more += mark_in_word(words, k, first, end);
    }
    more
}

/// The part of the points from `first` up to `end` that lies in `whole`, by its start and its end.
fn part_between(whole: Span, first: u32, end: u32) -> (u32, u32)
    requires { first ≤ end }
    ensures from { first ≤ result.0 }
    ensures order { result.0 ≤ result.1 }
    ensures within { result.1 ≤ end }
    ensures starts { result.0 < result.1 → whole.first ≤ result.0 }
    ensures ends { result.0 < result.1 → result.1 ≤ whole.end }
{
    let low = whole.first.max(first).min(end);
    let high = whole.end.max(low).min(end);
    (low, high)
}

/// Marks the points from `first` up to `end`, and says how many more are marked. Those of `whole`
/// are marked already.
pub(crate) fn mark_around(words: &mut [u64], first: u32, end: u32, whole: Span) -> u32
    requires order { first ≤ end }
    requires within { end ≤ 64 * length words.old }
    requires narrow { length words.old ≤ 64 }
    requires whole { IsWhole words.old whole }
    ensures points { (x : ℕ) → is_marked words.new x ≡ (is_marked words.old x || is_between first end x) }
    ensures counted { result + count_below (64 * length words.old) (is_marked words.old) ≡ count_below (64 * length words.old) (is_marked words.new) }
{
    let (low, high) = part_between(whole, first, end);
    let before = mark_span(words, first, low);
    before + mark_span(words, high, end)
}

/// The word, or its complement if bits of 0 are wanted.
fn wanted_bits(word: u64, wanted: bool) -> u64
    ensures { (i : ℕ) → i < 64 → is_set result i ≡ cond wanted (is_set word i) (not (is_set word i)) }
{
    if wanted { word } else { !word }
}

/// The lowest bit from `low` on that is 1, or 64.
fn lowest_bit(word: u64, low: u32) -> u32
    requires { low < 64 }
    ensures before { (i : ℕ) → low ≤ i → i < result → is_set word i ≡ false }
    ensures at { result < 64 → is_set word result ≡ true }
    ensures from { low ≤ result }
    ensures within { result ≤ 64 }
{
    (word & (u64::MAX << low)).trailing_zeros()
}

/// The first place of word `k` at or after `from` whose mark is `wanted`, or the place after the
/// word's last.
fn find_in_word(words: &[u64], k: usize, from: u32, wanted: bool) -> u32
    requires within { k < length words.now }
    requires starts { from < 64 * k + 64 }
    requires narrow { length words.now ≤ 64 }
    ensures before { (x : ℕ) → from ≤ x → 64 * k ≤ x → x < result → is_marked words.now x ≡ not wanted }
    ensures at { result < 64 * k + 64 → is_marked words.now result ≡ wanted }
    ensures from { from ≤ result }
    ensures starts { 64 * k ≤ result }
    ensures ends { result ≤ 64 * k + 64 }
{
    let base = 64 * k as u32;
    let low = from.max(base) - base;
    base + lowest_bit(wanted_bits(words[k], wanted), low)
}

/// The first place at or after `from` whose mark is `wanted`, or the place after the last.
fn find(words: &[u64], from: u32, wanted: bool) -> u32
    requires { length words.now ≤ 64 }
    ensures before { (x : ℕ) → from ≤ x → x < result → is_marked words.now x ≡ not wanted }
    ensures at { result < 64 * length words.now → is_marked words.now result ≡ wanted }
    ensures found { result < 64 * length words.now → from ≤ result }
    ensures from { from ≤ 64 * length words.now → from ≤ result }
    ensures within { result ≤ 64 * length words.now }
{
    for k in from as usize / 64..words.len() {
        let place = find_in_word(words, k, from, wanted);
        if place < 64 * k as u32 + 64 {
            return place;
        }
    }
    64 * words.len() as u32
}

/// The start and the length of the first run of marks at or after `from`, of the first `width`
/// points.
pub(crate) fn run_from(words: &[u64], width: u32, from: u32) -> Option<(u32, u32)>
    requires narrow { length words.now ≤ 64 }
    requires within { width ≤ 64 * length words.now }
    ensures { GivesRun (is_marked words.now) width from result }
{
    let start = find(words, from, true);
    if start >= width {
        return None;
    }
    let end = find(words, start, false).min(width);
    Some((start, end - start))
}
