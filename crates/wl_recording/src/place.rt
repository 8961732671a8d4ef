//! Places in stores.

ghost use Rattle.std.specs.Prelude.{◌≡◌, IfSome, option_map};
ghost use Rattle.wl_recording.specs.Line.{after_place, place_in};

use crate::numbers::number;
use crate::word::next_word;
use wl_store::StoreNo;

/// A place in a store: the client of the store, the store's number, and the byte, from 0.
#[derive(Clone, Copy, Debug, PartialEq, Eq)]
pub struct Place {
    pub client: u32,
    pub store: StoreNo,
    pub at: u32,
}

/// The place that the first three words of a text name, and what follows them.
pub(crate) fn next_place(text: &[u8]) -> Option<(Place, &[u8])>
    ensures place { option_map (λ found. found.0) result ≡ place_in text.now }
    ensures rest { IfSome result (λ found. found.1.now ≡ after_place text.now) }
{
    let (client, text) = next_word(text);
    let (store, text) = next_word(text);
    let (at, text) = next_word(text);
    let Some(client) = number(client) else {
        return None;
    };
    let Some(store) = number(store) else {
        return None;
    };
    let Some(at) = number(at) else {
        return None;
    };
    Some((Place { client, store, at }, text))
}
