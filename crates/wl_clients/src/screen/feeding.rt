//! Takes what a client sends, one message at a time; its toplevels and their windows follow. A
//! client may end, or go.

ghost use Rattle.std.specs.Prelude.{ℕ, ◌≡◌, ◌<◌, ◌≤◌, ◌||◌, IfSome, List, None, Some, length, is_some, pos, true, false};
ghost use Rattle.wl_scene.specs.Repaint.{same_windows};
ghost use Rattle.wl_surface.specs.Slots.{HasInputApplied, Numbered, StandForAll};
ghost use Rattle.wl_scene.specs.Marking.{IsAsLarge};
ghost use Rattle.wl_clients.specs.Marking.{MarksAtLeast, MarksAtMost, MarksOwn, MarksOwnIf, MarksThrough};
ghost use Rattle.spec_desktop.specs.Objects.{ById};
ghost use Rattle.wl_store.specs.Stores.{write_refusal};
ghost use Rattle.wl_client.specs.Agreement.{IsPeer};
ghost use Rattle.spec_desktop.specs.Peer.{IsIdleAt, Peer, ended, stored_at};
ghost use Rattle.spec_desktop.specs.Desktop.{Desktop, Resident as Plain, become, client_at};
ghost use Rattle.wl_paint.specs.Damage.{has};
ghost use Rattle.wl_requests.specs.Grabbing.{IsGrabbingOf};
ghost use Rattle.wl_requests.specs.Messages.{IsAsked};
ghost use Rattle.wl_requests.specs.PointerAsks.{MessageAsksPointer};
ghost use Rattle.wl_clients.specs.Agreement.{IsSeat};
ghost use Rattle.wl_clients.specs.Screens.{IsFollowed, IsParted, has_own};
ghost use Rattle.wl_clients.specs.Touching.{HitsStay};
ghost use Rattle.wl_clients.specs.Seats.{IsBare, IsChangedSo, IsClearedBy, IsSeated, ended_by, opened_kept};
ghost use Rattle.wl_clients.specs.Finding.{IsPlacedBy};
ghost use Rattle.wl_clients.specs.View.{Pile, owned_view, pile_of};
ghost use Rattle.law_desktop.specs.Ordered.{Ordered};
ghost use Rattle.spec_desktop.specs.Happens.{Serves};
ghost use Rattle.spec_desktop.specs.Through.{ServesThrough};
ghost use Rattle.spec_desktop.specs.Act.{IsLeft, IsSent, IsStored, stored_of};

use crate::screen::laws::message_laws;
use crate::screen::screens::Screen;
use crate::screen::staying::are_same;
use crate::screen::touching::{find_toplevel, popup_to_place, root_of, touched_by};
use spec_desktop::{ClientNo, Done, Stored};
use std::alloc::Allocator;
use wl_client::{Cause, Client, StoreNo};
use wl_links::Subsurfaces;
use wl_requests::{Asked, Grabbing, Outcome, Placing, PointerAsked, Resident};
use wl_scene::{Owned, parent_corner};
use wl_shell::Shell;
use wl_surface::{SurfaceNo, Surfaces};

/// What a taken message asks of the pointer, unless it was refused, and whether it may have changed
/// what points hit, where its client lives on.
#[derive(Clone, Copy, Debug, PartialEq, Eq)]
pub struct Taken {
    pub pointer: PointerAsked,
    pub changes_hits: bool,
}

/// Whether an input region of one of the client's surfaces was set that isn't applied yet.
fn has_new_input<A: Allocator>(resident: &Resident<A>) -> bool
    ensures { result ≡ false → (all : Numbered) → StandForAll resident.now.owned.surfaces.states all → (number : ℕ) → HasInputApplied (all number) }
{
    resident.owned.surfaces.states().has_new_input()
}

/// Nothing is owned.
pub fn bare<A: Allocator + Copy>(alloc: A) -> Owned<A>
    ensures { IsBare result }
{
    Owned {
        surfaces: Surfaces::new(alloc),
        shell: Shell::new(alloc),
    }
}

impl<A: Allocator + Copy> Screen<A> {
    /// If the client ended, clears all that it owned.
    pub(crate) fn clear(&mut self, resident: &mut Resident<A>, client: ClientNo, alloc: A)
        ensures clears { IsClearedBy resident.old.client.ended client resident.old resident.new (pile_of self.old) (pile_of self.new) }
        ensures damage { self.new.damage ≡ self.old.damage }
    {
        if resident.client.has_ended() {
            resident.owned = bare(alloc);
            resident.subsurfaces = Subsurfaces::new(alloc);
            self.scene.unmap_all(client);
            self.stacked.remove_client(client);
        }
    }

    /// Follows a message of a client that lives on. The toplevels, and the windows of this one, if
    /// there is one, become as the message leaves them. What it changes of them is marked.
    fn follow(
        &mut self,
        resident: &Resident<A>,
        client: ClientNo,
        toplevel: Option<SurfaceNo>,
        outcome: &Outcome<A>,
    )
        ensures follows { IsFollowed client toplevel resident.now outcome.now.stacking outcome.now.applied self.old self.new }
        ensures sides { IsAsLarge self.old.damage self.new.damage }
    {
        self.restack(client, outcome.stacking);
        self.add_run(resident, client, toplevel);
        self.mark_turned(client, toplevel, outcome.stacking, &outcome.applied);
        self.restack_windows(client, toplevel, outcome.stacking);
    }

    /// Whether a message of a client that lives on may have changed what points hit. It leaves that
    /// as it was if the toplevel's windows are the same, each in its place and as large, and no new
    /// input region was set before.
    fn may_change_hits(&self, has_new_input: bool, outcome: &Outcome<A>) -> bool
        ensures { result ≡ false → (has_new_input ≡ false) × (is_some outcome.now.applied ≡ true) × (same_windows self.now.spare.was.items self.now.spare.is.items ≡ true) }
    {
        has_new_input || outcome.applied.is_none() || !are_same(&self.spare.was, &self.spare.is)
    }

    /// Follows a message by which the client ended. Its windows are marked, and those that this
    /// toplevel, if there is one, had for a moment. All that it owned is cleared.
    fn part(
        &mut self,
        resident: &mut Resident<A>,
        client: ClientNo,
        toplevel: Option<SurfaceNo>,
        outcome: &Outcome<A>,
        alloc: A,
    )
        ensures parts { IsParted client toplevel resident.old resident.new outcome.now.stacking outcome.now.applied self.old self.new }
        ensures sides { IsAsLarge self.old.damage self.new.damage }
        ensures client { resident.new.client ≡ resident.old.client }
    {
        if outcome.applied.is_some() {
            self.restack(client, outcome.stacking);
            self.add_run(resident, client, toplevel);
        }
        self.mark_client(client);
        self.mark_new();
        self.clear(resident, client, alloc);
    }

    /// Follows a message that touched no tree of surfaces. If the client ended by it, its windows
    /// are marked, and all that it owned is cleared.
    fn part_alone(&mut self, resident: &mut Resident<A>, client: ClientNo, alloc: A)
        ensures clears { IsClearedBy resident.old.client.ended client resident.old resident.new (pile_of self.old) (pile_of self.new) }
        ensures points { is_some resident.old.client.ended ≡ true → (x y : ℕ) → x < self.old.damage.width → y < self.old.damage.height
            → has self.new.damage x y ≡ (has self.old.damage x y || has_own client (pos x) (pos y) self.old.stacked.windows) }
        ensures lives { resident.old.client.ended ≡ None → (resident.new ≡ resident.old) × (self.new ≡ self.old) }
        ensures sides { IsAsLarge self.old.damage self.new.damage }
        ensures client { resident.new.client ≡ resident.old.client }
    {
        if !resident.client.has_ended() {
            return;
        }
        self.mark_client(client);
        self.clear(resident, client, alloc);
    }

    /// By what a popup is placed that this message commits or places anew: the output, and where
    /// the window geometry of its parent stands.
    fn placing(&self, resident: &Resident<A>, client: ClientNo, asked: &Asked) -> Placing
        ensures { IsPlacedBy self.now client resident.now asked.now result }
    {
        let owned = &resident.owned;
        let parent_at = match popup_to_place(&owned.shell, asked) {
            Some(popup) => parent_corner(&self.scene, client, owned, popup.parent()),
            None => (0, 0),
        };
        Placing {
            bounds: self.damage.bounds(),
            parent_at,
        }
    }

    /// Takes the first whole message of a living client, which asks this. `None` if there is none.
    /// The answer is what it asks of the pointer, and whether it may have changed what points hit.
    /// A message that leaves the windows of its client in their places, each as large, and sets no
    /// new input region doesn't.
    ///
    /// What it changes of a toplevel's windows is marked. Of those that stay in their places that
    /// is the damage applied, and of those that moved, came or went all points, before and after.
    /// Where several trees changed, all windows of each are marked. If the client ends, its windows
    /// are marked, and no others.
    ///
    /// A client that asks for a wl_pointer without a seat for it ends too. `grabbing` says by what
    /// a grab is allowed.
    pub fn serve(
        &mut self,
        resident: &mut Resident<A>,
        client: ClientNo,
        asked: Asked,
        has_seat: bool,
        grabbing: Grabbing,
    ) -> Option<Taken>
        requires { IsAsked resident.old.client asked }
        ensures serves { is_some result ≡ true → (others : ℕ → ById ℕ) (base d : Desktop) (r : Plain)
            → self.old.damage.width ≡ d.output.width → self.old.damage.height ≡ d.output.height
            → IsSeated client others base resident.old (pile_of self.old) d r → Ordered d → IsGrabbingOf grabbing asked client r d
            → (e : Desktop) × (q : Plain) × Serves client d e × IsSeated client others base resident.new (pile_of self.new) e q }
        ensures marks { is_some result ≡ true → (others : ℕ → ById ℕ) (base d : Desktop) (r : Plain)
            → self.old.damage.width ≡ d.output.width → self.old.damage.height ≡ d.output.height
            → IsSeated client others base resident.old (pile_of self.old) d r → Ordered d → IsGrabbingOf grabbing asked client r d
            → (e : Desktop) (q : Plain) → Serves client d e → IsSeated client others base resident.new (pile_of self.new) e q
            → MarksAtLeast d e self.old.damage self.new.damage }
        ensures within { is_some result ≡ true → (others : ℕ → ById ℕ) (base d : Desktop) (r : Plain)
            → self.old.damage.width ≡ d.output.width → self.old.damage.height ≡ d.output.height
            → IsSeated client others base resident.old (pile_of self.old) d r → Ordered d → IsGrabbingOf grabbing asked client r d
            → (e : Desktop) (q : Plain) → Serves client d e → IsSeated client others base resident.new (pile_of self.new) e q
            → MarksAtMost client d e self.old.damage self.new.damage }
        ensures through { is_some result ≡ true → (others : ℕ → ById ℕ) (base d : Desktop) (r : Plain)
            → self.old.damage.width ≡ d.output.width → self.old.damage.height ≡ d.output.height
            → IsSeated client others base resident.old (pile_of self.old) d r → Ordered d → IsGrabbingOf grabbing asked client r d
            → (e : Desktop) × (q : Plain) × (path : List Desktop) × ServesThrough client d path e
            × IsSeated client others base resident.new (pile_of self.new) e q × MarksThrough d path self.old.damage self.new.damage }
        ensures asks { IfSome result (λ taken. (resident.old.client.ended ≡ None) × MessageAsksPointer resident.old taken.pointer) }
        ensures seat { IfSome result (λ taken. (id : ℕ) → taken.pointer ≡ PointerAsked.NewPointer id → has_seat ≡ false
            → is_some resident.new.client.ended ≡ true) }
        ensures hits { IfSome result (λ taken. taken.changes_hits ≡ false → (others : ℕ → ById ℕ) (base d : Desktop) (r : Plain)
            → self.old.damage.width ≡ d.output.width → self.old.damage.height ≡ d.output.height
            → IsSeated client others base resident.old (pile_of self.old) d r → Ordered d → IsGrabbingOf grabbing asked client r d
            → (e : Desktop) (q : Plain) → Serves client d e → client_at client e ≡ Some q → IsSeat resident.new.client (owned_view resident.new) q
            → q.peer.status ≡ None → HitsStay d e) }
        ensures idle { is_some result ≡ false → (resident.new ≡ resident.old) × (pile_of self.new ≡ pile_of self.old)
            × (self.new.damage ≡ self.old.damage) × IsIdleAt resident.old.client.ended resident.old.client.rest }
        ensures sides { IsAsLarge self.old.damage self.new.damage }
        ensures less { is_some result ≡ true → length resident.new.client.rest < length resident.old.client.rest }
    {
        message_laws();
        if resident.client.has_ended() {
            return None;
        }
        let alloc = resident.client.allocator();
        let pointer = resident.pointer_asked(&asked);
        let placing = self.placing(resident, client, &asked);
        let Some(surface) = touched_by(resident, &asked) else {
            let Some(_outcome) = resident.serve(asked, has_seat, placing, grabbing) else {
                return None;
            };
            self.part_alone(resident, client, alloc);
            return Some(Taken {
                pointer,
                changes_hits: false,
            });
        };
        let root = root_of(resident, surface);
        let toplevel = find_toplevel(&resident.owned.shell, &self.stacked, client, root);
        let surfaces = resident.owned.surfaces.len();
        let has_room = self.prepare(client, toplevel, surfaces).is_ok();
        let has_new_input = has_new_input(resident);
        let Some(outcome) = resident.serve(asked, has_room, placing, grabbing) else {
            return None;
        };
        if resident.client.has_ended() {
            self.part(resident, client, toplevel, &outcome, alloc);
        } else {
            self.follow(resident, client, toplevel, &outcome);
        }
        let changes_hits = self.may_change_hits(has_new_input, &outcome);
        Some(Taken {
            pointer,
            changes_hits,
        })
    }

    /// Ends the client for this cause, if it lives, also when an event wasn't queued for it. Only
    /// its windows are marked.
    pub fn end(&mut self, resident: &mut Resident<A>, client: ClientNo, cause: Cause, alloc: A)
        ensures ends { (others : ℕ → ById ℕ) (base d : Desktop) (r : Plain) → IsSeated client others base resident.old (pile_of self.old) d r
            → (q : Plain) × IsSeated client others base resident.new (pile_of self.new) (become client r (ended_by r.peer.status cause r.peer) d) q }
        ensures marks { MarksOwn resident.old.client.ended client resident.old (pile_of self.old) self.old.damage self.new.damage }
        ensures refused { resident.old.client.ended ≡ None → (others : ℕ → ById ℕ) (base d : Desktop) (r : Plain)
            → IsSeated client others base (opened_kept resident.old) (pile_of self.old) d r
            → (q : Plain) × IsSeated client others base resident.new (pile_of self.new) (become client r (ended cause r.peer) d) q }
        ensures marks_refused { resident.old.client.ended ≡ None
            → MarksOwnIf true client (opened_kept resident.old) (pile_of self.old) self.old.damage self.new.damage }
        ensures rest { length resident.new.client.rest ≤ length resident.old.client.rest }
    {
        if !resident.client.has_ended() {
            self.mark_client(client);
            resident.client.end(cause);
        }
        self.clear(resident, client, alloc);
    }

    /// The client closed its connection. The answer is true if it was alive; then its windows are
    /// marked, and no others.
    pub fn gone(&mut self, resident: &mut Resident<A>, client: ClientNo, alloc: A) -> bool
        ensures changes { IsChangedSo client IsLeft (Done.Gone result) resident.old resident.new (pile_of self.old) (pile_of self.new) }
        ensures marks { MarksOwn resident.old.client.ended client resident.old (pile_of self.old) self.old.damage self.new.damage }
    {
        if !resident.client.has_ended() {
            self.mark_client(client);
        }
        let lived = resident.client.gone();
        self.clear(resident, client, alloc);
        lived
    }
}

/// Puts bytes into a store of a living client.
pub fn store<A: Allocator + Copy>(
    resident: &mut Resident<A>,
    store: StoreNo,
    at: u32,
    bytes: &[u8],
) -> Stored
    ensures changes { (c : ℕ) (pile : Pile) → IsChangedSo c (IsStored store at bytes.now) (Done.Store result) resident.old resident.new pile pile }
{
    store_of(&mut resident.client, store, at, bytes)
}

/// Drops this many unsent bytes, which were sent. If there are fewer, the answer is false and
/// nothing changes.
pub fn sent<A: Allocator + Copy>(resident: &mut Resident<A>, count: usize) -> bool
    ensures changes { (c : ℕ) (pile : Pile) → IsChangedSo c (IsSent count) (Done.Sent result) resident.old resident.new pile pile }
{
    resident.client.sent(count)
}

/// Puts bytes into a store of a living client.
fn store_of<A: Allocator + Copy>(
    client: &mut Client<A>,
    store: StoreNo,
    at: u32,
    bytes: &[u8],
) -> Stored
    ensures told { (p : Peer) → IsPeer client.old p → IsPeer client.new (stored_at p.status store at bytes.now p) × (result ≡ stored_of p.status (write_refusal store at (length bytes.now) p.stores)) }
    ensures table { client.new.objects ≡ client.old.objects }
{
    if client.has_ended() {
        return Stored::NoClient;
    }
    Stored::of(client.store(store, at, bytes))
}
