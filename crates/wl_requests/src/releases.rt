//! wl_buffer.release: a client may write again to a buffer that no surface shows any more. Buffers
//! that are over also let their stores go.

ghost use Rattle.std.specs.Prelude.{ℕ, ◌≡◌, ◌==◌, ◌&&◌, ◌||◌, ◌++◌, Option, None, find, is_some, map, true, [], IfNone, IfOk, IfSome, OnOk};
ghost use Rattle.std.specs.List.{list_any};
ghost use Rattle.std.specs.List.Sorted.{IsStrictlyIncreasing};
ghost use Rattle.std.specs.Option.{option_map};
ghost use Rattle.wl_client.specs.Agreement.{IsPeer};
ghost use Rattle.wl_proto.specs.declared.interface.Interface.TheVariants.{WlBuffer};
ghost use Rattle.wl_surface.specs.Tree.{AreOnce};
ghost use Rattle.law_desktop.specs.Freed.{freed_of};
ghost use Rattle.law_desktop.specs.Owning.{AreKept};
ghost use Rattle.spec_desktop.specs.Buffers.{Buffer as Made};
ghost use Rattle.spec_desktop.specs.Objects.{ById};
ghost use Rattle.spec_desktop.specs.Peer.{LacksMemory, Peer, Queues};
ghost use Rattle.spec_desktop.specs.Told.{said};
ghost use Rattle.spec_desktop.specs.Desktop.{Resident as Plain};
ghost use Rattle.spec_desktop.specs.Releases.{let_if, same_number};
ghost use Rattle.spec_desktop.specs.Replies.{has_object};
ghost use Rattle.spec_desktop.specs.Step.{buffers_had, is_number, is_over, letting_go};
ghost use Rattle.wl_proto.specs.Messages.{says};
ghost use Rattle.wl_requests.specs.LetGo.{IsLetGo};
ghost use Rattle.wl_shell.specs.Popups.{is_among};
ghost use Rattle.wl_surface.specs.Kept.{buffer_of};
ghost use Rattle.wl_surface.specs.Surface.{Surface, listed};
ghost use Rattle.wl_surface.specs.Slots.{had_at};
ghost use Rattle.wl_requests.specs.Residents.{Leaves};

use crate::residents::Resident;
use std::alloc::{AllocError, Allocator};
use wl_client::release_event;
use wl_surface::{Applied, Attached, BufferNo};
use wl_table::put_rising;

/// Whether these are the same buffer.
fn is_same(one: Option<Attached>, other: Option<Attached>) -> bool
    ensures { result ≡ same_number (option_map buffer_of one) (option_map buffer_of other) }
{
    match (one, other) {
        (Some(one), Some(other)) => one.number == other.number,
        _ => false,
    }
}

/// Whether a buffer is the same as one of two.
fn is_either(buffer: Option<Attached>, one: Option<Attached>, other: Option<Attached>) -> bool
    ensures { result ≡ (same_number (option_map buffer_of buffer) (option_map buffer_of one) || same_number (option_map buffer_of buffer) (option_map buffer_of other)) }
{
    is_same(buffer, one) || is_same(buffer, other)
}

/// The buffer of this number among these, if it is there.
fn find(shown: &[Attached], number: BufferNo) -> Option<Attached>
    ensures { option_map buffer_of result ≡ find (λ b. b.number == number) (map buffer_of shown.now) }
{
    for buffer in shown {
        if buffer.number == number {
            return Some(*buffer);
        }
    }
    None
}

impl<A: Allocator + Copy> Resident<A> {
    /// Whether the wl_buffer of a buffer is still there.
    pub(crate) fn is_named(&self, buffer: Attached) -> bool
        ensures { (p : Peer) → IsPeer self.now.client p → result ≡ is_number buffer.number (option_map (λ (made : Made). made.number) (p.buffers buffer.object)) }
    {
        match self.client.buffer(buffer.object) {
            Some(named) => named.number() == buffer.number,
            None => false,
        }
    }

    /// Whether no surface has a buffer any more, and its wl_buffer is gone.
    fn is_over(&self, buffer: Attached) -> bool
        ensures { (r : Plain) (numbers : ById ℕ) → IsPeer self.now.client r.peer → AreKept numbers self.now.owned.surfaces.states self.now.owned.surfaces.family r.owned.surfaces → result ≡ is_over r (buffer_of buffer) }
    {
        !self.is_named(buffer) && !self.owned.surfaces.is_used(buffer.number)
    }

    /// Lets the store of a buffer go that is over, unless it went before.
    pub(crate) fn let_go_if_over(&mut self, buffer: Option<Attached>, went: bool)
        ensures stores { (r : Plain) (numbers : ById ℕ) → IsPeer self.old.client r.peer → AreKept numbers self.old.owned.surfaces.states self.old.owned.surfaces.family r.owned.surfaces
            → self.new.client.stores ≡ let_if (is_over r) went (option_map buffer_of buffer) self.old.client.stores }
        ensures only { self.new.client ≡ record self.old.client { stores = self.new.client.stores } }
        ensures owned { self.new.owned ≡ self.old.owned }
        ensures subsurfaces { self.new.subsurfaces ≡ self.old.subsurfaces }
    {
        if let Some(attached) = buffer {
            if !went && self.is_over(attached) {
                self.client.let_go(attached.store);
            }
        }
    }

    /// Lets the stores of those of these buffers go that are over, each once.
    fn let_go_of_three(
        &mut self,
        first: Option<Attached>,
        second: Option<Attached>,
        third: Option<Attached>,
    )
        ensures stores { (r : Plain) (numbers : ById ℕ) → IsPeer self.old.client r.peer → AreKept numbers self.old.owned.surfaces.states self.old.owned.surfaces.family r.owned.surfaces
            → IsPeer self.new.client (letting_go (listed (option_map buffer_of first) ++ listed (option_map buffer_of second) ++ listed (option_map buffer_of third)) r).peer }
        ensures only { self.new.client ≡ record self.old.client { stores = self.new.client.stores } }
        ensures owned { self.new.owned ≡ self.old.owned }
        ensures subsurfaces { self.new.subsurfaces ≡ self.old.subsurfaces }
    {
        self.let_go_if_over(first, false);
        self.let_go_if_over(second, is_same(second, first));
        self.let_go_if_over(third, is_either(third, second, first));
    }

    /// Of the buffers that a surface had, lets the stores of those go that are over, each once.
    pub(crate) fn let_go_of(&mut self, had: [Option<Attached>; 3])
        ensures stores { (r : Plain) (numbers : ById ℕ) → IsPeer self.old.client r.peer → AreKept numbers self.old.owned.surfaces.states self.old.owned.surfaces.family r.owned.surfaces
            → (at : Option Surface) → map (option_map buffer_of) had ≡ had_at at → IsPeer self.new.client (letting_go (buffers_had (option_map (λ (s : Surface). s.history) at)) r).peer }
        ensures only { self.new.client ≡ record self.old.client { stores = self.new.client.stores } }
        ensures owned { self.new.owned ≡ self.old.owned }
        ensures subsurfaces { self.new.subsurfaces ≡ self.old.subsurfaces }
    {
        let [pending, held, applied] = had;
        self.let_go_of_three(pending, held, applied);
    }

    /// Lets the stores go of buffers that are over, among the shown ones with these numbers.
    fn let_go_of_freed(&mut self, freed: &[BufferNo], shown: &[Attached])
        ensures stores { (r : Plain) (numbers : ById ℕ) → IsPeer self.old.client r.peer → AreKept numbers self.old.owned.surfaces.states self.old.owned.surfaces.family r.owned.surfaces
            → AreOnce freed.now → IsPeer self.new.client (letting_go (freed_of freed.now (map buffer_of shown.now)) r).peer }
        ensures only { self.new.client ≡ record self.old.client { stores = self.new.client.stores } }
        ensures owned { self.new.owned ≡ self.old.owned }
        ensures subsurfaces { self.new.subsurfaces ≡ self.old.subsurfaces }
    {
        for number in freed {
            self.let_go_if_over(find(shown, *number), false);
        }
    }

    /// Lets the stores go of buffers that the request freed, if these are over. The answer is the
    /// wl_buffers that are released, by their ids in rising order. `None` without room for the
    /// windows that the request leads to, or without memory: then the client ends as out of memory.
    pub(crate) fn let_go_of_told(
        &mut self,
        told: &Applied<A>,
        has_room: bool,
    ) -> Option<Vec<u32, A>>
        ensures lacks { IfNone result ((p : Peer) → IsPeer self.old.client p → (q : Peer) × LacksMemory p q × IsPeer self.new.client q) }
        ensures ended { IfNone result (is_some self.new.client.ended ≡ true) }
        ensures lets_go { IfSome result (λ released. IsLetGo told.now released.items self.old self.new) }
        ensures room { IfSome result (λ released. has_room ≡ true) }
        ensures owned { self.new.owned ≡ self.old.owned }
        ensures subsurfaces { self.new.subsurfaces ≡ self.old.subsurfaces }
        ensures rest { Leaves self.old self.new }
    {
        if !has_room {
            self.client.lack_memory();
            return None;
        }
        let Ok(released) = self.released(&told.freed, &told.shown) else {
            self.client.lack_memory();
            return None;
        };
        self.let_go_of_freed(&told.freed, &told.shown);
        Some(released)
    }

    /// The wl_buffers that are released, by their ids in rising order: of the shown buffers with
    /// these numbers, those whose wl_buffers are there.
    fn released(
        &self,
        freed: &[BufferNo],
        shown: &Vec<Attached, A>,
    ) -> Result<Vec<u32, A>, AllocError>
        ensures rising { IfOk result (λ ids. IsStrictlyIncreasing ids.items) }
        ensures those { IfOk result (λ ids. (r : Plain) → IsPeer self.now.client r.peer → (object : ℕ)
            → is_among object ids.items ≡ list_any (λ b. (b.object == object) && has_object r b) (freed_of freed.now (map buffer_of shown.now.items))) }
    {
        let mut ids = Vec::new(*shown.allocator());
        for number in freed {
            self.put_released(&mut ids, find(shown, *number))?;
        }
        Ok(ids)
    }

    /// Puts the id of a buffer's wl_buffer among others that rise, if it is there.
    fn put_released(
        &self,
        ids: &mut Vec<u32, A>,
        buffer: Option<Attached>,
    ) -> Result<(), AllocError>
        requires { IsStrictlyIncreasing ids.old.items }
        ensures rising { IsStrictlyIncreasing ids.new.items }
        ensures ok { OnOk result ((r : Plain) → IsPeer self.now.client r.peer → (object : ℕ)
            → is_among object ids.new.items ≡ (list_any (λ b. (b.object == object) && has_object r b) (listed (option_map buffer_of buffer)) || is_among object ids.old.items)) }
    {
        match buffer {
            Some(attached) if self.is_named(attached) => put_rising(ids, attached.object),
            _ => Ok(()),
        }
    }

    /// Tells a client that lives of the buffers that are released, in turn, until one isn't queued.
    pub(crate) fn tell_releases(&mut self, released: &[u32])
        ensures table { self.new.client.ended ≡ None → self.new.client.objects ≡ self.old.client.objects }
        ensures queues { (p : Peer) → IsPeer self.old.client p → p.status ≡ None
            → (q : Peer) × Queues (map (λ object. said object (says WlBuffer 0 [])) released.now) p q × IsPeer self.new.client q }
        ensures ended { is_some self.old.client.ended ≡ true → self.new.client ≡ self.old.client }
        ensures owned { self.new.owned ≡ self.old.owned }
        ensures subsurfaces { self.new.subsurfaces ≡ self.old.subsurfaces }
        ensures rest { Leaves self.old self.new }
    {
        for buffer in released {
            if self.client.has_ended() {
                return;
            }
            self.client.queue_all(&[release_event(*buffer)]);
        }
    }
}
