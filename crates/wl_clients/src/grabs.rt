//! Grabs of popups: which client holds one, by what one is allowed, and how they end
//! (xdg-shell.xml, xdg_popup.grab).

ghost use Rattle.std.specs.Prelude.{ℕ, ◌≡◌, ◌<◌, ◌≤◌, IfNone, IfSome, Some, length};
ghost use Rattle.wl_scene.specs.Marking.{IsAsLarge};
ghost use Rattle.spec_desktop.specs.Changing.{grab_holder, is_held_elsewhere};
ghost use Rattle.spec_desktop.specs.Desktop.{Desktop, Resident as Plain};
ghost use Rattle.spec_desktop.specs.Replies.{popups_done};
ghost use Rattle.spec_desktop.specs.Settling.{Midstep, Tells, without_grabs};
ghost use Rattle.wl_requests.specs.Grabbing.{IsGrabbingOf};
ghost use Rattle.wl_clients.specs.Agreement.{numbers_in};
ghost use Rattle.wl_clients.specs.Releasing.{MarksJust};
ghost use Rattle.wl_clients.specs.View.{pile_of};
ghost use Rattle.wl_clients.specs.Agreeing.{Agrees};
ghost use Rattle.wl_clients.specs.Feeding.{rest_in};
ghost use Rattle.wl_clients.specs.Grabbing.{is_grab};
ghost use Rattle.wl_clients.specs.Holders.{IsFirstHolder, IsReleasedBy, MarksReleasedBy, NoneHolds, SaysGrab};
ghost use Rattle.wl_clients.specs.Midway.{IsMid};
ghost use Rattle.wl_clients.specs.Pointing.{IsLatest};

use crate::clients::{Clients, resident_mut};
use crate::screen::Screen;
use spec_desktop::ClientNo;
use std::alloc::Allocator;
use wl_proto::XdgPopupRequest;
use wl_requests::{Asked, Grabbing, Kind, Resident};

/// The serials of the latest press and the latest release of a button that a client was told of
/// (wayland.xml, wl_pointer.button).
#[derive(Clone, Copy, Debug, PartialEq, Eq)]
pub struct Latest {
    pub press: Option<u32>,
    pub release: Option<u32>,
}

/// Whether a client is there and has a popup with a grab.
fn holds_grab<A: Allocator>(slot: &Option<Resident<A>>) -> bool
    ensures { SaysGrab result slot.now }
{
    let Some(resident) = slot else {
        return false;
    };
    resident.owned.shell.are_found();
    resident.owned.shell.has_grab()
}

/// The first of these that has one.
fn holder_in<A: Allocator>(residents: &[Option<Resident<A>>]) -> Option<usize>
    ensures some { IfSome result (λ k. IsFirstHolder k residents.now) }
    ensures within { IfSome result (λ k. k < length residents.now) }
    ensures none { IfNone result (NoneHolds (length residents.now) residents.now) }
{
    for (k, slot) in residents.iter().enumerate() {
        if holds_grab(slot) {
            return Some(k);
        }
    }
    None
}

/// Whether a grab is asked for.
fn is_grab(asked: &Asked) -> bool
    ensures { result ≡ is_grab asked.now }
{
    matches!(
        asked,
        Asked::Request {
            kind: Kind::Popup(XdgPopupRequest::Grab { .. }),
            ..
        }
    )
}

impl<A: Allocator + Copy> Clients<A> {
    /// The client that holds a grab, if one does: one of its popups has it.
    pub fn grab_holder(&self) -> Option<ClientNo>
        ensures { (m : Midstep) → IsMid self.now.desk m → result ≡ grab_holder m.desktop }
    {
        let Some(k) = holder_in(&self.residents) else {
            return None;
        };
        Some(k as u32 + 1)
    }

    /// Whether a client other than this one holds a grab.
    fn is_held_elsewhere(&self, client: ClientNo) -> bool
        ensures { (m : Midstep) → IsMid self.now.desk m → result ≡ is_held_elsewhere client (grab_holder m.desktop) }
    {
        match self.grab_holder() {
            Some(holder) => holder != client,
            None => false,
        }
    }

    /// By what the grab is allowed that this message asks for. `latest` has the serials that this
    /// client was told. Other clients are searched only if a grab is asked for.
    pub(crate) fn grabbing(&self, client: ClientNo, asked: &Asked, latest: Latest) -> Grabbing
        ensures { (d : Desktop) (r : Plain) → Agrees self.now.desk d → IsLatest latest (Some r) → IsGrabbingOf result asked.now client r d }
    {
        let held_elsewhere = is_grab(asked) && self.is_held_elsewhere(client);
        Grabbing {
            press: latest.press,
            release: latest.release,
            held_elsewhere,
        }
    }

    /// Dismisses a client's popups with a grab, and their descendants, unless the client ended, is
    /// to end or isn't there. The client is told of each that it is done, the newest first. If an
    /// event isn't queued, the client is to end for that (see [`Clients::end_refused`]). Only the
    /// windows of these popups go and are marked.
    pub fn release_grabs(&mut self, client: ClientNo)
        ensures releases { (m : Midstep) → IsMid self.old.desk m
            → (n : Midstep) × Tells without_grabs (λ r. popups_done r (without_grabs r)) client m n × IsMid self.new.desk n
            × MarksJust m.desktop n.desktop self.old.damage self.new.damage }
        ensures numbers { numbers_in self.new.desk.clients ≡ numbers_in self.old.desk.clients }
        ensures rests { (c : ℕ) → length (rest_in c self.new.desk) ≤ length (rest_in c self.old.desk) }
        ensures sides { IsAsLarge self.old.damage self.new.damage }
        ensures output { self.new.desk.output ≡ self.old.desk.output }
    {
        let Some(resident) = resident_mut(&mut self.residents, client) else {
            return;
        };
        release_of(&mut self.screen, resident, client);
    }
}

/// Dismisses a client's popups with a grab, if it lives and isn't to end. Their windows go and are
/// marked.
fn release_of<A: Allocator + Copy>(
    screen: &mut Screen<A>,
    resident: &mut Resident<A>,
    client: ClientNo,
)
    ensures releases { IsReleasedBy resident.old.client.ended resident.old.client.refused client resident.old resident.new (pile_of screen.old) (pile_of screen.new) }
    ensures marks { MarksReleasedBy resident.old.client.ended resident.old.client.refused client resident.old (pile_of screen.old) screen.old.damage screen.new.damage }
    ensures sides { IsAsLarge screen.old.damage screen.new.damage }
    ensures client { resident.new.client ≡ record resident.old.client { unsent = resident.new.client.unsent; refused = resident.new.client.refused } }
{
    if resident.client.has_ended() {
        return;
    }
    if resident.client.to_end_for().is_some() {
        return;
    }
    screen.release_grabs(resident, client);
}
