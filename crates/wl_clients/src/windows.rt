//! The windows of the output, lent to be painted.

ghost use Rattle.std.specs.Prelude.{◌≡◌, option_copied};
ghost use Rattle.wl_paint.specs.Painting.{window_of};
ghost use Rattle.wl_clients.specs.LentPictures.{window_lent};
ghost use Rattle.wl_clients.specs.Lent.{client_lent, slots_lent};
ghost use Rattle.wl_clients.specs.Residents.{client_views, owned_views, resident_at};

use crate::pictures::lend;
use spec_desktop::ClientNo;
use std::alloc::Allocator;
use wl_geom::Region;
use wl_paint::{Painted, Windows};
use wl_requests::Resident;
use wl_scene::{Stacked, Surfaced};
use wl_surface::SurfaceStates;

/// The windows of the output, the clients with what each owns (client c at index c - 1), and a
/// region without a point.
#[derive(Drop)]
pub(crate) struct Lent<'a, A: Allocator> {
    pub(crate) stacked: &'a [Stacked],
    pub(crate) residents: &'a [Option<Resident<A>>],
    pub(crate) nowhere: &'a Region<A>,
}

/// The client of this number, with what it owns: client c is at index c - 1.
pub(crate) fn resident_of<A: Allocator>(
    residents: &[Option<Resident<A>>],
    client: ClientNo,
) -> Option<&Resident<A>>
    ensures { option_copied result ≡ resident_at residents.now client }
{
    let Some(index) = client.checked_sub(1) else {
        return None;
    };
    match residents.get(index as usize) {
        Some(slot) => slot.as_ref(),
        None => None,
    }
}

/// A window of the output, by its client and what that owns.
fn lend_of<'a, A: Allocator + Copy>(
    stacked: &Stacked,
    residents: &'a [Option<Resident<A>>],
    nowhere: &'a Region<A>,
) -> Painted<'a, A>
    ensures { window_of result
        ≡ window_lent (client_lent (client_views residents.now)) (slots_lent (owned_views residents.now)) nowhere.now stacked.now }
{
    match resident_of(residents, stacked.client) {
        Some(resident) => {
            let surfaces = resident.owned.surfaces.states();
            lend(stacked, Some(&resident.client), Some(surfaces), nowhere)
        }
        None => lend(stacked, None, None, nowhere),
    }
}

/// The clients with what each owns, whose surfaces take input: client c is at index c - 1.
#[derive(Drop)]
pub(crate) struct Owners<'a, A: Allocator> {
    pub(crate) residents: &'a [Option<Resident<A>>],
}

impl<'a, A: Allocator> Surfaced for Owners<'a, A> {
    type Heap = A;

    ghost use Rattle.wl_clients.specs.Lent.{slots_lent};
    ghost use Rattle.wl_clients.specs.Residents.{owned_views};

    ghost slots = { λ owners. slots_lent (owned_views owners.residents.now) };

    fn surfaces(&self, client: u32) -> Option<&SurfaceStates<A>> {
        let Some(resident) = resident_of(self.residents, client) else {
            return None;
        };
        Some(resident.owned.surfaces.states())
    }
}

impl<'a, A: Allocator + Copy> Windows for Lent<'a, A> {
    type Heap = A;

    ghost use Rattle.wl_clients.specs.LentPictures.{windows_lent};
    ghost use Rattle.wl_clients.specs.Lent.{client_lent, slots_lent};
    ghost use Rattle.wl_clients.specs.Residents.{client_views, owned_views};

    ghost windows = { λ lent. windows_lent (client_lent (client_views lent.residents.now)) (slots_lent (owned_views lent.residents.now))
        lent.nowhere.now lent.stacked.now };

    fn len(&self) -> usize {
        self.stacked.len()
    }

    fn window(&self, k: usize) -> Painted<'_, A> {
        lend_of(&self.stacked[k], self.residents, self.nowhere)
    }
}
