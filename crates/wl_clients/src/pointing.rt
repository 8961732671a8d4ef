//! What the pointer asks of the clients: what a point hits, the windows of a surface, and what the
//! clients are told. Clients that can't be told end here.

ghost use Rattle.std.specs.Prelude.{ℕ, ◌≡◌, ◌∷◌, IfNone, IfSome, List, None, Some, ◌≢◌, ◌<◌, ◌≤◌, find, is_some, length, position, true};
ghost use Rattle.std.specs.List.{list_any};
ghost use Rattle.std.specs.Option.{option_map};
ghost use Rattle.wl_proto.specs.declared.interface.Interface.TheVariants.{WlSurface};
ghost use Rattle.law_desktop.specs.Owning.{targets_in};
ghost use Rattle.spec_desktop.specs.Objects.{ById};
ghost use Rattle.spec_desktop.specs.Peer.{ended};
ghost use Rattle.spec_desktop.specs.Told.{Said};
ghost use Rattle.spec_desktop.specs.declared.cause.Cause.{Cause};
ghost use Rattle.spec_desktop.specs.Pointer.{is_stacked};
ghost use Rattle.spec_desktop.specs.Stacking.{is_of};
ghost use Rattle.spec_desktop.specs.Windows.{hit as hit_of};
ghost use Rattle.wl_scene.specs.Kept.{standing_of};
ghost use Rattle.wl_scene.specs.Marking.{IsAsLarge};
ghost use Rattle.spec_desktop.specs.Desktop.{Desktop, Resident as Plain, become, client_at};
ghost use Rattle.spec_desktop.specs.Replies.{focus_window};
ghost use Rattle.spec_desktop.specs.Settling.{Midstep, Strike, Tells, ended_by};
ghost use Rattle.spec_desktop.specs.Stacked.{all_windows};
ghost use Rattle.wl_scene.specs.Hit.{IsStackedOrNone, is_window_of};
ghost use Rattle.wl_clients.specs.Agreement.{numbers_in};
ghost use Rattle.wl_clients.specs.Marking.{MarksAtLeast, MarksMost, MarksOwnIf};
ghost use Rattle.wl_clients.specs.Seats.{IsSeated, opened_kept};
ghost use Rattle.wl_clients.specs.View.{pile_of};
ghost use Rattle.wl_clients.specs.Feeding.{rest_in};
ghost use Rattle.wl_clients.specs.Midway.{IsMid, MidBeginsAndEnds, MidIsNumberedOnce, MidNamesSurfaces, first_struck, is_refused};
ghost use Rattle.wl_clients.specs.Pointing.{IsToldAt, IsToldBy, windows_numbered};

use crate::clients::{Clients, resident_mut};
use crate::screen::Screen;
use crate::windows::{Owners, resident_of};
use spec_desktop::ClientNo;
use std::alloc::Allocator;
use wl_client::{Client, PointerEvent};
use wl_proto::Interface;
use wl_requests::Resident;
use wl_scene::{Stacked, Toplevel, hit};
use wl_surface::SurfaceNo;

/// Whether a window is that of the surface of this number of a client.
fn is_window_of(stacked: &Stacked, client: ClientNo, surface: SurfaceNo) -> bool
    ensures { result ≡ is_window_of client surface stacked.now }
{
    stacked.client == client && stacked.window.surface == surface
}

/// The lowest of these windows that is of the surface of this number of a client.
fn window_in(windows: &[Stacked], client: ClientNo, surface: SurfaceNo) -> Option<Stacked>
    ensures { result ≡ find (is_window_of client surface) windows.now }
{
    windows
        .iter()
        .copied()
        .find(|stacked| is_window_of(stacked, client, surface))
}

fn is_toplevel(toplevel: &Toplevel, client: ClientNo, surface: SurfaceNo) -> bool
    ensures { result ≡ is_of client surface (standing_of toplevel.now) }
{
    toplevel.surface.client == client && toplevel.surface.surface == surface
}

/// Whether the toplevel of this surface is among these.
fn has_toplevel(toplevels: &[Toplevel], client: ClientNo, surface: SurfaceNo) -> bool
    ensures { result ≡ list_any (λ t. is_of client surface (standing_of t)) toplevels.now }
{
    toplevels
        .iter()
        .any(|toplevel| is_toplevel(toplevel, client, surface))
}

/// The first place of a client for which an event wasn't queued.
fn first_in<A: Allocator + Copy>(residents: &[Option<Resident<A>>]) -> Option<usize>
    ensures first { result ≡ position is_refused residents.now }
    ensures within { IfSome result (λ k. k < length residents.now) }
{
    for (k, slot) in residents.iter().enumerate() {
        if is_refused(slot) {
            return Some(k);
        }
    }
    None
}

impl<A: Allocator + Copy> Clients<A> {
    /// The window that a point hits, in pixels of the output: the topmost that takes the input
    /// there (wayland.xml, wl_surface.set_input_region).
    pub fn hit(&self, x: i32, y: i32) -> Option<Stacked>
        ensures { (m : Midstep) → IsMid self.now.desk m → IsStackedOrNone (numbers_in self.now.desk.clients) result (hit_of x y (all_windows m.desktop)) }
    {
        let windows = self.screen.stacked.windows();
        let owners = Owners {
            residents: &self.residents,
        };
        hit(windows, &owners, x, y)
    }

    /// The window of a client's surface, by its number, if it has one on the output.
    pub fn window(&self, client: ClientNo, surface: SurfaceNo) -> Option<Stacked>
        ensures window { (m : Midstep) (id : ℕ) → IsMid self.now.desk m → numbers_in self.now.desk.clients client id ≡ Some surface
            → IsStackedOrNone (numbers_in self.now.desk.clients) result (focus_window (Some (record { client = client; surface = id })) (all_windows m.desktop)) }
        ensures numbered { (m : Midstep) → IsMid self.now.desk m
            → is_some result ≡ is_stacked (record { client = client; surface = surface }) (windows_numbered self.now.desk m.desktop) }
    {
        window_in(self.screen.stacked.windows(), client, surface)
    }

    /// Whether a client's toplevel, given by the number of its surface, is mapped and stands.
    pub fn stands(&self, client: ClientNo, toplevel: SurfaceNo) -> bool
        ensures { (m : Midstep) (top : ℕ) → IsMid self.now.desk m → numbers_in self.now.desk.clients client top ≡ Some toplevel
            → result ≡ list_any (is_of client top) m.desktop.standing }
    {
        has_toplevel(self.screen.scene.toplevels(), client, toplevel)
    }

    /// The number of a client's surface, by the id of its wl_surface, while it is there.
    pub fn surface_number(&self, client: ClientNo, id: u32) -> Option<SurfaceNo>
        ensures { result ≡ numbers_in self.now.desk.clients client id }
    {
        let Some(resident) = resident_of(&self.residents, client) else {
            return None;
        };
        number_named(&resident.client, id)
    }

    /// The id of the wl_surface of a client's surface, by its number, while it is there.
    pub fn surface_id(&self, client: ClientNo, surface: SurfaceNo) -> Option<u32>
        ensures some { IfSome result (λ id. numbers_in self.now.desk.clients client id ≡ Some surface) }
        ensures none { IfNone result ((id : ℕ) → numbers_in self.now.desk.clients client id ≢ Some surface) }
    {
        let Some(resident) = resident_of(&self.residents, client) else {
            return None;
        };
        resident.client.find(Interface::WlSurface, surface)
    }

    /// The serial of a client's next event that has one. It isn't drawn by asking.
    pub fn serial(&self, client: ClientNo) -> Option<u32>
        ensures { (m : Midstep) → IsMid self.now.desk m → result ≡ option_map (λ r. r.peer.serial) (client_at client m.desktop) }
    {
        let Some(resident) = resident_of(&self.residents, client) else {
            return None;
        };
        Some(resident.client.serial())
    }

    /// Tells these wl_pointers of a client an event, in this order, with one serial if it has one.
    /// A client that ended, is to end or isn't there is told nothing. If an event isn't queued, the
    /// client is to end for that, and is told nothing more (see [`Clients::end_refused`]).
    pub fn tell(&mut self, client: ClientNo, pointers: &[u32], event: PointerEvent)
        ensures tells { (change : Plain → Plain) (events : Plain → List Said) (m : Midstep) → IsMid self.old.desk m
            → IsToldAt event pointers.now change events (client_at client m.desktop)
            → (n : Midstep) × Tells change events client m n × IsMid self.new.desk n }
        ensures damage { self.new.damage ≡ self.old.damage }
        ensures output { self.new.desk.output ≡ self.old.desk.output }
        ensures pile { self.new.desk.pile ≡ self.old.desk.pile }
        ensures numbers { numbers_in self.new.desk.clients ≡ numbers_in self.old.desk.clients }
        ensures rests { (c : ℕ) → length (rest_in c self.new.desk) ≤ length (rest_in c self.old.desk) }
    {
        let Some(resident) = resident_mut(&mut self.residents, client) else {
            return;
        };
        tell_to(resident, pointers, event);
    }

    /// The least number of a client that is to end, since an event for it wasn't queued. There are
    /// 32 numbers.
    pub fn first_refused(&self) -> Option<ClientNo>
        ensures first { (m : Midstep) → IsMid self.now.desk m → result ≡ first_struck m.struck }
        ensures count { length self.now.desk.clients ≡ 32 }
    {
        let Some(k) = first_in(&self.residents) else {
            return None;
        };
        Some(k as u32 + 1)
    }

    /// Ends the client that is to end first, for the cause for which an event wasn't queued. It
    /// isn't told. Only its own windows are marked.
    pub fn end_refused(&mut self, client: ClientNo)
        ensures ends { (s : Strike) (ss : List Strike) (d : Desktop) → s.client ≡ client → IsMid self.old.desk (record { desktop = d; struck = s ∷ ss })
            → IsMid self.new.desk (record { desktop = ended_by s d; struck = ss }) }
        ensures marks { (s : Strike) (ss : List Strike) (d : Desktop) → s.client ≡ client → IsMid self.old.desk (record { desktop = d; struck = s ∷ ss })
            → MarksAtLeast d (ended_by s d) self.old.damage self.new.damage }
        ensures most { (s : Strike) (ss : List Strike) (d : Desktop) → s.client ≡ client → IsMid self.old.desk (record { desktop = d; struck = s ∷ ss })
            → MarksMost d (ended_by s d) self.old.damage self.new.damage }
        ensures sides { IsAsLarge self.old.damage self.new.damage }
        ensures output { self.new.desk.output ≡ self.old.desk.output }
        ensures rests { (c : ℕ) → length (rest_in c self.new.desk) ≤ length (rest_in c self.old.desk) }
    {
        let alloc = *self.residents.allocator();
        let Some(resident) = resident_mut(&mut self.residents, client) else {
            return;
        };
        end_for_refusal(&mut self.screen, resident, client, alloc);
    }
}

/// Ends a client for the cause for which an event wasn't queued, if there is one. Only its own
/// windows are marked then.
fn end_for_refusal<A: Allocator + Copy>(
    screen: &mut Screen<A>,
    resident: &mut Resident<A>,
    client: ClientNo,
    alloc: A,
)
    ensures ends { (cause : Cause) → resident.old.client.refused ≡ Some cause → resident.old.client.ended ≡ None
        → (others : ℕ → ById ℕ) (base d : Desktop) (r : Plain) → IsSeated client others base (opened_kept resident.old) (pile_of screen.old) d r
        → (q : Plain) × IsSeated client others base resident.new (pile_of screen.new) (become client r (ended cause r.peer) d) q }
    ensures marks { (cause : Cause) → resident.old.client.refused ≡ Some cause → resident.old.client.ended ≡ None
        → MarksOwnIf true client (opened_kept resident.old) (pile_of screen.old) screen.old.damage screen.new.damage }
    ensures sides { IsAsLarge screen.old.damage screen.new.damage }
    ensures rest { length resident.new.client.rest ≤ length resident.old.client.rest }
{
    let Some(cause) = resident.client.to_end_for() else {
        return;
    };
    screen.end(resident, client, cause, alloc);
}

/// Tells a living client that isn't to end.
fn tell_to<A: Allocator + Copy>(resident: &mut Resident<A>, pointers: &[u32], event: PointerEvent)
    ensures told { IsToldBy event pointers.now resident.old.client.ended resident.old.client.refused resident.old.client resident.new.client }
    ensures table { resident.new.client.objects ≡ resident.old.client.objects }
    ensures rest { resident.new ≡ record resident.old { client = resident.new.client } }
{
    if resident.client.has_ended() {
        return;
    }
    if resident.client.to_end_for().is_some() {
        return;
    }
    let _queued = resident.client.tell_pointers(pointers, event);
}

/// The number of the surface of a client's wl_surface with this id.
fn number_named<A: Allocator + Copy>(client: &Client<A>, id: u32) -> Option<SurfaceNo>
    ensures { result ≡ targets_in WlSurface client.now.objects id }
{
    let entry = client.object(id)?;
    match entry.interface {
        Interface::WlSurface => Some(entry.target),
        _ => None,
    }
}

/// Whether an event for this client wasn't queued.
fn is_refused<A: Allocator + Copy>(slot: &Option<Resident<A>>) -> bool
    ensures { result ≡ is_refused slot.now }
{
    match slot {
        Some(resident) => resident.client.to_end_for().is_some(),
        None => false,
    }
}

/// A step begins and ends with nobody who is to end.
pub fn mid_begins_and_ends()
    ensures { MidBeginsAndEnds }
{}

/// In the middle of a step too, a client's surface has a number while it is there.
pub fn mid_names_surfaces()
    ensures { MidNamesSurfaces }
{}

/// In the middle of a step too, no two surfaces of a client have the same number.
pub fn mid_is_numbered_once()
    ensures { MidIsNumberedOnce }
{}
