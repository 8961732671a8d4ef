//! Dismissing popups (xdg-shell.xml, xdg_popup.popup_done).

ghost use Rattle.std.specs.Prelude.{ℕ, ◌≡◌, ◌∷◌, [], None, Some, is_some, true};
ghost use Rattle.wl_client.specs.Agreement.{IsPeer};
ghost use Rattle.wl_client.specs.Said.{said_of};
ghost use Rattle.wl_client.specs.View.{opened};
ghost use Rattle.wl_proto.specs.declared.interface.Interface.TheVariants.{XdgPopup};
ghost use Rattle.spec_desktop.specs.Peer.{Peer, Queues, QueuesTo};
ghost use Rattle.spec_desktop.specs.Told.{said};
ghost use Rattle.wl_proto.specs.Messages.{says};
ghost use Rattle.wl_shell.specs.Kept.{kept_of};
ghost use Rattle.wl_requests.specs.Dismissing.{DismissesWith, ReleasesGrabs, role_id};
ghost use Rattle.wl_requests.specs.Residents.{Leaves};

use crate::residents::Resident;
use std::alloc::Allocator;
use wl_proto::{Event, EventBody, XdgPopupEvent};
use wl_surface::{MAX_SURFACES, SurfaceNo};

/// More popups than a client can have: each has a surface of its own.
const PAST_POPUPS: usize = MAX_SURFACES + 1;

/// xdg_popup.popup_done.
fn popup_done_event(popup: u32) -> Event<'static>
    ensures { said_of result ≡ said popup (says XdgPopup 1 []) }
{
    Event {
        object: popup,
        body: EventBody::XdgPopup(XdgPopupEvent::PopupDone),
    }
}

impl<A: Allocator + Copy> Resident<A> {
    /// The id of the popup of a surface, or of its other role object, if it has one.
    fn popup_object_of(&self, surface: SurfaceNo) -> Option<u32>
        ensures { result ≡ role_id (kept_of self.now.owned.shell surface) }
    {
        self.owned.shell.get(surface)?.role_id()
    }

    /// Tells that the popup of a surface is done.
    fn tell_done(&mut self, surface: SurfaceNo)
        ensures told { (popup : ℕ) → role_id (kept_of self.old.owned.shell surface) ≡ Some popup → (p : Peer) → IsPeer self.old.client p
            → (q : Peer) × Queues (said popup (says XdgPopup 1 []) ∷ []) p q × IsPeer self.new.client q }
        ensures table { self.new.client.ended ≡ None → self.new.client.objects ≡ self.old.client.objects }
        ensures owned { self.new.owned ≡ self.old.owned }
        ensures subsurfaces { self.new.subsurfaces ≡ self.old.subsurfaces }
        ensures rest { Leaves self.old self.new }
    {
        if let Some(popup) = self.popup_object_of(surface) {
            self.client.queue_all(&[popup_done_event(popup)]);
        }
    }

    /// Dismisses the popup of a surface's xdg_surface, or those on it if it has none, and their
    /// descendants: one after another, the newest first. Each that wasn't dismissed before is told
    /// that it is done, until an event isn't queued.
    pub(crate) fn dismiss_popups(&mut self, surface: SurfaceNo)
        ensures dismisses { DismissesWith surface self.old self.new }
        ensures table { self.new.client.ended ≡ None → self.new.client.objects ≡ self.old.client.objects }
        ensures ended { is_some self.old.client.ended ≡ true → self.new.client ≡ self.old.client }
        ensures surfaces { self.new.owned.surfaces ≡ self.old.owned.surfaces }
        ensures subsurfaces { self.new.subsurfaces ≡ self.old.subsurfaces }
        ensures rest { Leaves self.old self.new }
    {
        for _ in 0..PAST_POPUPS {
            if self.client.has_ended() {
                return;
            }
            self.owned.shell.are_found();
            let Some(gone) = self.owned.shell.dismiss(surface) else {
                return;
            };
            self.tell_done(gone);
        }
    }

    /// Tells a client that the popup of a surface is done, unless the client is to end.
    fn tell_released(&mut self, surface: SurfaceNo)
        ensures told { (popup : ℕ) → role_id (kept_of self.old.owned.shell surface) ≡ Some popup → (p : Peer) → IsPeer self.old.client p
            → (q : Peer) × QueuesTo (said popup (says XdgPopup 1 []) ∷ []) p q self.new.client.refused × IsPeer (opened self.new.client) q }
        ensures refused { is_some self.old.client.refused ≡ true → self.new.client ≡ self.old.client }
        ensures client { self.new.client ≡ record self.old.client { unsent = self.new.client.unsent; refused = self.new.client.refused } }
        ensures owned { self.new.owned ≡ self.old.owned }
        ensures subsurfaces { self.new.subsurfaces ≡ self.old.subsurfaces }
    {
        let Some(popup) = self.popup_object_of(surface) else {
            return;
        };
        let _queued = self.client.queue(&popup_done_event(popup));
    }

    /// Dismisses a client's popups with a grab, and their descendants: one after another, the
    /// newest first (xdg-shell.xml, xdg_popup.grab). Each that wasn't dismissed before is told that
    /// it is done. If an event isn't queued, the client is to end for that, and is told nothing
    /// more (see [`wl_client::Client::queue`]).
    pub fn release_grabs(&mut self)
        ensures releases { ReleasesGrabs self.old self.new }
        ensures client { self.new.client ≡ record self.old.client { unsent = self.new.client.unsent; refused = self.new.client.refused } }
        ensures surfaces { self.new.owned.surfaces ≡ self.old.owned.surfaces }
        ensures subsurfaces { self.new.subsurfaces ≡ self.old.subsurfaces }
    {
        for _ in 0..PAST_POPUPS {
            self.owned.shell.are_found();
            let Some(gone) = self.owned.shell.dismiss_grabbing() else {
                return;
            };
            self.tell_released(gone);
        }
    }
}
