//! The serials of the latest press and release that one client was told of, among those of all.

ghost use Rattle.std.specs.Prelude.{◌≡◌};
ghost use Rattle.wl_desk.specs.Serials.{changed_of, noted_by};
ghost use Rattle.wl_desk.specs.View.{latest_of, no_latest};

use crate::seating::place_in;
use wl_clients::{ClientNo, Latest};

/// The serials of a client that was told of no button.
pub(crate) fn none() -> Latest
    ensures { result ≡ no_latest }
{
    Latest {
        press: None,
        release: None,
    }
}

/// The serials of the client of this number. There are none if the number has no place.
pub(crate) fn latest_of(latest: &[Latest], client: ClientNo) -> Latest
    ensures { result ≡ latest_of latest.now client }
{
    if client == 0 {
        return none();
    }
    match latest.get(client as usize - 1) {
        Some(latest) => *latest,
        None => none(),
    }
}

/// Forgets which buttons the client of this number was told of.
pub(crate) fn forget(latest: &mut [Latest], client: ClientNo)
    ensures { latest.new ≡ changed_of (λ l. no_latest) client latest.old }
{
    let Some(k) = place_in(client, latest.len()) else {
        return;
    };
    latest[k] = none();
}

/// Notes that the client of this number was told of a press, or of a release, with this serial.
pub(crate) fn note(latest: &mut [Latest], client: ClientNo, serial: u32, pressed: bool)
    ensures { latest.new ≡ changed_of (noted_by pressed serial) client latest.old }
{
    let Some(k) = place_in(client, latest.len()) else {
        return;
    };
    latest[k] = noted(latest[k], serial, pressed);
}

/// The serials with a new one for the latest press, or for the latest release.
fn noted(latest: Latest, serial: u32, pressed: bool) -> Latest
    ensures { result ≡ noted_by pressed serial latest }
{
    if pressed {
        return Latest {
            press: Some(serial),
            release: latest.release,
        };
    }
    Latest {
        press: latest.press,
        release: Some(serial),
    }
}
