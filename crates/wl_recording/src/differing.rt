//! Where bytes differ.

ghost use Rattle.std.specs.Prelude.{◌≡◌, ◌≢◌, ◌≤◌, ◌<◌, ◌-◌, ℕ, drop, length, slice_index, take};
ghost use Rattle.wl_recording.specs.Recording.{Differs};

use std::ops::Range;

/// The range of bytes that differ from those held in their place, from the first to the last. It is
/// empty if none does.
pub fn difference(bytes: &[u8], held: &[u8]) -> Range<usize>
    requires { length held.now ≡ length bytes.now }
    ensures { Differs bytes.now held.now result.start result.end }
{
    let first = same_front(bytes, held);
    let last = same_up_to(bytes, held, first);
    first..last
}

/// How many bytes two pieces of one length share at their front.
fn same_front(bytes: &[u8], held: &[u8]) -> usize
    requires { length held.now ≡ length bytes.now }
    ensures within { result ≤ length bytes.now }
    ensures alike { take result bytes.now ≡ take result held.now }
    ensures one { result < length bytes.now → slice_index bytes.now result ≢ slice_index held.now result }
{
    for i in 0..bytes.len() {
        if bytes[i] != held[i] {
            return i;
        }
    }
    bytes.len()
}

/// The place, not before `first`, from which on two pieces of one length are the same.
fn same_up_to(bytes: &[u8], held: &[u8], first: usize) -> usize
    requires long { length held.now ≡ length bytes.now }
    requires order { first ≤ length bytes.now }
    ensures order { first ≤ result }
    ensures within { result ≤ length bytes.now }
    ensures alike { drop result bytes.now ≡ drop result held.now }
    ensures one { first < result → slice_index bytes.now (result - 1) ≢ slice_index held.now (result - 1) }
{
    let mut last = bytes.len();
    while first < last {
        if bytes[last - 1] != held[last - 1] {
            return last;
        }
        last -= 1;
    }
    last
}
