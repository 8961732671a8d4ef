//! One client: what came from it, what is to be sent to it, and what its messages ask.

ghost use Rattle.std.specs.Option.{option_copied, option_map};
ghost use Rattle.std.specs.Prelude.{◌≡◌, ◌++◌, [], length, ◌≤◌, ◌<◌, ◌∷◌, ◌==◌, ◌+◌, if◌then◌else◌, OnOk, OnErr, IfOk, IfErr, IfSome, IsTrue, MatchBool, Some, None, true, false, is_some, is_none, map, min, nat_le, List};
ghost use Rattle.wl_client.specs.Agreement.{most_counted, output_of};
ghost use Rattle.spec_desktop.specs.Told.{Said, id_deleted, released_told, said, said_bytes};
ghost use Rattle.wl_proto.specs.Messages.{says};
ghost use Rattle.wl_wire.specs.Wire.{Word};
ghost use Rattle.wl_proto.specs.declared.interface.Interface.TheVariants.{WlCallback};
ghost use Rattle.spec_desktop.specs.Peer.{IsUnqueuedFor, has_room, object_at_version};
ghost use Rattle.wl_client.specs.Said.{said_of};

use crate::backlog::Backlog;
use crate::events::{deletion_event, error_event, frame_event, release_event};
use crate::outputs::Output;
use spec_desktop::{Action, Cause, ErrorCode, Refusal, ShmBuffer};
use std::alloc::{AllocError, Allocator};
use std::collections::BTreeMap;
use std::marker::Model;
use wl_geom::Region;
use wl_proto::{Event, Interface, encoded_size};
use wl_shell::Positioner;
use wl_store::{Layout, Picture, Scale, StoreError, StoreNo, Stores, Transform};
use wl_table::{Entry, Objects};
use wl_wire::PutError;

/// How many bytes may wait for a client.
const UNSENT_LIMIT: usize = 1_048_576;

/// One client. Contracts see it as the values that it keeps.
#[derive(Drop)]
pub struct Client<A: Allocator> {
    pub(crate) ended: Option<Cause>,
    /// Why an event wasn't queued, until the client ends for it. No event is queued while a cause
    /// stands here.
    pub(crate) refused: Option<Cause>,
    pub(crate) requests: u64,
    pub(crate) rest: Backlog<A>,
    pub(crate) unsent: Backlog<A>,
    pub(crate) objects: Objects<A>,
    pub(crate) regions: BTreeMap<u32, Region<A>, A>,
    pub(crate) pools: BTreeMap<u32, StoreNo, A>,
    pub(crate) buffers: BTreeMap<u32, ShmBuffer, A>,
    pub(crate) positioners: BTreeMap<u32, Positioner, A>,
    pub(crate) stores: Stores<A>,
    pub(crate) serial: u32,
    pub(crate) output: Output,
    pub(crate) alloc: A,
}

impl<A: Allocator> Model for Client<A> {
    ghost use Rattle.wl_client.specs.View.{ClientView};

    ghost Value = { ClientView };

    ghost view = { λ c. record { ended = c.ended; refused = c.refused; requests = c.requests; rest = c.rest; unsent = c.unsent; objects = c.objects; regions = c.regions.entries; pools = c.pools.entries; buffers = c.buffers.entries; positioners = c.positioners.entries; stores = c.stores; serial = c.serial; output = c.output } };
}

impl<A: Allocator + Copy> Client<A> {
    ghost use Rattle.spec_desktop.specs.Peer.{Peer, ended, newcomer, Queues, Errs, LacksMemory, WantsOr, Acts, counted, made, removed, all_removed, left_by, released, sent_by, stored_by};
    ghost use Rattle.spec_desktop.specs.Objects.{entry_at_version, held_at, object_of};
    ghost use Rattle.wl_client.specs.Serving.{ChangesTable, EndsBy, HoldsWithout, may_be_done};
    ghost use Rattle.wl_client.specs.View.{cleared};
    ghost use Rattle.spec_desktop.specs.Stored.{stored};
    ghost use Rattle.wl_table.specs.Objects.{Finds, HoldsAt, entry_of};
    ghost use Rattle.wl_store.specs.Stores.{bytes_of, next_after, picture_turned, store_at, write_refusal};
    ghost use Rattle.wl_client.specs.Agreement.{IsPeer};

    /// A client that has just connected and is shown on this output. Its one object is wl_display.
    pub fn new(alloc: A, output: Output) -> Result<Self, AllocError>
        ensures { IfOk result (λ c. IsPeer c (newcomer (output_of output))) }
    {
        let mut objects = Objects::new(alloc);
        let display = Entry {
            interface: Interface::WlDisplay,
            version: 1,
            target: 0,
        };
        let Ok(()) = objects.insert(1, display) else {
            return Err(AllocError);
        };
        Ok(Client {
            ended: None,
            refused: None,
            requests: 0,
            rest: Backlog::new(alloc),
            unsent: Backlog::new(alloc),
            objects,
            regions: BTreeMap::new(alloc),
            pools: BTreeMap::new(alloc),
            buffers: BTreeMap::new(alloc),
            positioners: BTreeMap::new(alloc),
            stores: Stores::new(alloc),
            serial: 1,
            output,
            alloc,
        })
    }

    /// Queues an event. An `Err` says why it isn't queued: `Slow` if too many bytes would wait, or
    /// `Memory`. From then on every call answers that cause and queues nothing, until the client
    /// ends.
    pub fn queue(&mut self, event: &Event) -> Result<(), Cause>
        ensures ok { OnOk result ((self.old.refused ≡ None) × IsTrue (has_room self.old.unsent (said_of event.now)) × (self.new ≡ record self.old { unsent = self.old.unsent ++ said_bytes (said_of event.now) })) }
        ensures err { IfErr result (λ e. self.new ≡ record self.old { refused = Some e }) }
        ensures cause { IfErr result (λ e. IsUnqueuedFor self.old.refused (has_room self.old.unsent (said_of event.now)) e) }
    {
        if let Some(cause) = self.refused {
            return Err(cause);
        }
        let queued = self.try_queue(event);
        self.refused = queued.err();
        queued
    }

    /// Puts an event behind those that wait, if that is allowed and there is memory for it. An
    /// `Err` changes nothing.
    fn try_queue(&mut self, event: &Event) -> Result<(), Cause>
        ensures ok { OnOk result (IsTrue (has_room self.old.unsent (said_of event.now)) × (self.new ≡ record self.old { unsent = self.old.unsent ++ said_bytes (said_of event.now) })) }
        ensures err { OnErr result (self.new ≡ self.old) }
        ensures cause { IfErr result (λ e. MatchBool (has_room self.old.unsent (said_of event.now)) (e ≡ Cause.Memory) (e ≡ Cause.Slow)) }
    {
        let Some(size) = encoded_size(event) else {
            return Err(Cause::Slow);
        };
        if self.unsent.as_slice().len() + size as usize > UNSENT_LIMIT {
            return Err(Cause::Slow);
        }
        match self.unsent.encode(event) {
            Ok(()) => Ok(()),
            Err(PutError::TooLong) => Err(Cause::Slow),
            Err(PutError::Memory) => Err(Cause::Memory),
        }
    }

    /// Ends the client for this cause. The client isn't told.
    pub fn end(&mut self, cause: Cause)
        ensures cleared { self.new ≡ cleared cause self.old }
        ensures ends { (p : Peer) → IsPeer self.old p → IsPeer self.new (ended cause p) }
    {
        self.ended = Some(cause);
        self.refused = None;
        self.rest.clear();
        self.objects = Objects::new(self.alloc);
        self.regions = BTreeMap::new(self.alloc);
        self.pools = BTreeMap::new(self.alloc);
        self.buffers = BTreeMap::new(self.alloc);
        self.positioners = BTreeMap::new(self.alloc);
        self.stores = Stores::new(self.alloc);
    }

    /// Ends the client with an error, and tells it.
    pub fn refuse(&mut self, refusal: Refusal)
        ensures ended { is_some self.new.ended ≡ true }
        ensures errs { (p : Peer) → IsPeer self.old p → (q : Peer) × Errs refusal p q × IsPeer self.new q }
        ensures cause { EndsBy refusal self.new.ended }
        ensures rest { length self.new.rest ≡ 0 }
    {
        let cause = match self.queue(&error_event(refusal)) {
            Ok(()) => Cause::Protocol {
                object: refusal.object,
                code: refusal.code.number(),
            },
            // If the error isn't queued, the client ends as out of memory or of room.
            Err(cause) => match cause {
                Cause::Memory => Cause::Memory,
                _ => Cause::Slow,
            },
        };
        self.end(cause);
    }

    /// Queues events in turn. If one isn't queued, the client ends.
    pub fn queue_all(&mut self, events: &[Event])
        ensures table { self.new.ended ≡ None → self.new.objects ≡ self.old.objects }
        ensures queues { (p : Peer) → IsPeer self.old p → (q : Peer) × Queues (map said_of events.now) p q × IsPeer self.new q }
        ensures rest { length self.new.rest ≤ length self.old.rest }
    {
        for event in events {
            if let Err(cause) = self.queue(event) {
                self.end(cause);
                return;
            }
        }
    }

    /// Ends the client as out of memory, and tells it if possible.
    pub fn lack_memory(&mut self)
        ensures ended { is_some self.new.ended ≡ true }
        ensures lacks { (p : Peer) → IsPeer self.old p → (q : Peer) × LacksMemory p q × IsPeer self.new q }
        ensures rest { length self.new.rest ≡ 0 }
    {
        let _ = self.queue(&error_event(Refusal::of_display(ErrorCode::NoMemory)));
        self.end(Cause::Memory);
    }

    /// Makes an object, and queues these events of it.
    pub(crate) fn make(&mut self, id: u32, interface: Interface, version: u32, events: &[Event])
        ensures makes { (p : Peer) → IsPeer self.old p → (q : Peer) × WantsOr true (Queues (map said_of events.now) (made id (object_at_version interface version) p) q) p q × IsPeer self.new q }
        ensures table { self.new.ended ≡ None → HoldsAt self.old.objects self.new.objects id (Some (entry_at_version interface version)) }
        ensures rest { length self.new.rest ≤ length self.old.rest }
    {
        let entry = Entry {
            interface,
            version,
            target: 0,
        };
        self.add(id, entry, events);
    }

    /// Enters an object with this entry in the table, and queues these events of it. Out of memory,
    /// the client ends.
    pub fn add(&mut self, id: u32, entry: Entry, events: &[Event])
        ensures makes { (p : Peer) → IsPeer self.old p → (q : Peer) × WantsOr true (Queues (map said_of events.now) (made id (object_of entry) p) q) p q × IsPeer self.new q }
        ensures table { self.new.ended ≡ None → HoldsAt self.old.objects self.new.objects id (Some entry) }
        ensures rest { length self.new.rest ≤ length self.old.rest }
    {
        match self.objects.insert(id, entry) {
            Ok(()) => self.queue_all(events),
            Err(_) => self.lack_memory(),
        }
    }

    /// Removes an object, and gives its id back.
    pub fn remove(&mut self, id: u32)
        ensures table { self.new.ended ≡ None → HoldsAt self.old.objects self.new.objects id None }
        ensures removes { (p : Peer) → IsPeer self.old p → (q : Peer) × Queues (id_deleted id ∷ []) (removed id p) q × IsPeer self.new q }
        ensures rest { length self.new.rest ≤ length self.old.rest }
    {
        let _removed = self.objects.remove(id);
        self.queue_all(&[deletion_event(id)]);
    }
    /// Removes an object and these callbacks, and gives the ids back: first the object's, then
    /// theirs. Then it tells that a buffer is released, if one is (wayland.xml,
    /// wl_display.delete_id, wl_surface.frame and wl_buffer.release).
    pub fn remove_with(&mut self, id: u32, callbacks: &[u32], released: Option<u32>)
        ensures table { self.new.ended ≡ None → HoldsWithout self.old.objects self.new.objects (id ∷ callbacks.now) }
        ensures removes { (p : Peer) → IsPeer self.old p
            → (q : Peer) × Queues (id_deleted id ∷ map id_deleted callbacks.now ++ released_told released) (removed id (all_removed callbacks.now p)) q × IsPeer self.new q }
        ensures rest { length self.new.rest ≤ length self.old.rest }
    {
        self.take_out(callbacks);
        self.take_out_one(id);
        if !self.queue_deletions(&[id]) {
            return;
        }
        if !self.queue_deletions(callbacks) {
            return;
        }
        if let Some(buffer) = released {
            self.queue_all(&[release_event(buffer)]);
        }
    }

    /// Takes objects out of the table, and tells nothing yet.
    fn take_out(&mut self, ids: &[u32])
        ensures removes { (p : Peer) → IsPeer self.old p → IsPeer self.new (all_removed ids.now p) }
        ensures table { HoldsWithout self.old.objects self.new.objects ids.now }
        ensures rest { self.new.rest ≡ self.old.rest }
    {
        for id in ids {
            self.take_out_one(*id);
        }
    }

    /// Takes an object out of the table, and tells nothing yet.
    fn take_out_one(&mut self, id: u32)
        ensures removes { (p : Peer) → IsPeer self.old p → IsPeer self.new (removed id p) }
        ensures table { HoldsAt self.old.objects self.new.objects id None }
        ensures rest { self.new.rest ≡ self.old.rest }
    {
        let _removed = self.objects.remove(id);
    }

    /// Queues wl_display.delete_id of each of these ids in turn (wayland.xml,
    /// wl_display.delete_id). The answer is false if one isn't queued; the client ends then.
    fn queue_deletions(&mut self, ids: &[u32]) -> bool
        ensures table { MatchBool result (self.new.objects ≡ self.old.objects) (is_some self.new.ended ≡ true) }
        ensures queues { (p : Peer) → IsPeer self.old p
            → (mid : Peer) × IsPeer self.new mid × ((more : List Said) (q : Peer) → MatchBool result (Queues more mid q) (q ≡ mid) → Queues (map id_deleted ids.now ++ more) p q) }
        ensures rest { length self.new.rest ≤ length self.old.rest }
    {
        for id in ids {
            if let Err(cause) = self.queue(&deletion_event(*id)) {
                self.end(cause);
                return false;
            }
        }
        true
    }

    /// Tells that a frame's callback is done at this time, in milliseconds. Then it removes the
    /// callback and gives its id back (wayland.xml, wl_surface.frame: "The object returned by this
    /// request will be destroyed by the compositor after the callback is fired").
    pub fn finish(&mut self, callback: u32, time: u32)
        ensures table { self.new.ended ≡ None → HoldsAt self.old.objects self.new.objects callback None }
        ensures tells { (p : Peer) → IsPeer self.old p
            → (q : Peer) × Queues (said callback (says WlCallback 0 (Word time ∷ [])) ∷ id_deleted callback ∷ []) (removed callback p) q × IsPeer self.new q }
        ensures rest { length self.new.rest ≤ length self.old.rest }
    {
        let _removed = self.objects.remove(callback);
        self.queue_all(&[frame_event(callback, time), deletion_event(callback)]);
    }

    /// Counts one more request. The count stays at the greatest number of 64 bits.
    pub fn count(&mut self)
        ensures only { self.new ≡ record self.old { requests = self.new.requests } }
        ensures counted { self.new.requests ≡ min (self.old.requests + 1) most_counted }
        ensures counts { (p : Peer) → IsPeer self.old p → IsPeer self.new (counted p) }
        ensures rest { length self.new.rest ≡ length self.old.rest }
    {
        self.requests = self.requests.saturating_add(1);
    }

    /// Does what an accepted message asks.
    pub(crate) fn act(&mut self, action: Action)
        requires allowed { may_be_done action ≡ true }
        ensures acts { (p : Peer) → IsPeer self.old p → (q : Peer) × Acts action (counted p) q × IsPeer self.new q }
        ensures table { self.new.ended ≡ None → ChangesTable action self.old.objects self.new.objects }
        ensures rest { length self.new.rest ≤ length self.old.rest }
    {
        self.count();
        match action {
            Action::Sync(callback) => self.sync(callback),
            Action::GetRegistry(registry) => self.get_registry(registry),
            Action::Bind(id, interface, version) => self.bind(id, interface, version),
            Action::CreateRegion(id, version) => self.create_region(id, version),
            Action::AddToRegion(id, rect) => self.add_to_region(id, rect),
            Action::SubtractFromRegion(id, rect) => self.subtract_from_region(id, rect),
            Action::DestroyRegion(id) => self.destroy_region(id),
            Action::CreatePool(id, version, size) => self.create_pool(id, version, size),
            Action::CreateBuffer(id, version, place) => self.create_buffer(id, version, place),
            Action::ResizePool(store, size) => self.resize_pool(store, size),
            Action::DestroyPool(id, store) => self.destroy_pool(id, store),
            Action::DestroyBuffer(id, store) => self.destroy_buffer(id, store),
            Action::CreatePositioner(id, version) => self.create_positioner(id, version),
            Action::SetPositioner(id, setting) => self.set_positioner(id, &setting),
            Action::DestroyPositioner(id) => self.destroy_positioner(id),
        }
    }

    /// The object with this id, if there is one.
    pub fn object(&self, id: u32) -> Option<Entry>
        ensures { result ≡ entry_of self.now.objects id }
    {
        self.objects.get(id)
    }

    /// The least id of an object with this interface and target, if there is one.
    pub fn find(&self, interface: Interface, target: usize) -> Option<u32>
        ensures { Finds self.now.objects interface target result }
    {
        self.objects.find(interface, target)
    }

    /// The region of the wl_region with this id, if there is one.
    pub fn region(&self, id: u32) -> Option<&Region<A>>
        ensures { option_copied result ≡ held_at self.now.regions id }
    {
        self.regions.get(&id)
    }

    /// The buffer of the wl_buffer with this id, if there is one.
    pub fn buffer(&self, id: u32) -> Option<&ShmBuffer>
        ensures { option_copied result ≡ held_at self.now.buffers id }
    {
        self.buffers.get(&id)
    }

    /// The values of the xdg_positioner with this id, if there is one.
    pub fn positioner(&self, id: u32) -> Option<&Positioner>
        ensures { option_copied result ≡ held_at self.now.positioners id }
    {
        self.positioners.get(&id)
    }

    /// How many requests the client made, up to the greatest number of 64 bits.
    pub fn requests(&self) -> u64
        ensures { result ≡ self.now.requests }
    {
        self.requests
    }

    /// The serial of the next event that has one. It isn't drawn by asking.
    pub fn serial(&self) -> u32
        ensures { result ≡ self.now.serial }
    {
        self.serial
    }

    /// Draws the serial: the next is one more, and 1 after 4,294,967,295.
    pub fn draw_serial(&mut self)
        ensures { self.new ≡ record self.old { serial = if self.old.serial == 4294967295 then 1 else self.old.serial + 1 } }
    {
        self.serial = self.serial.checked_add(1).unwrap_or(1);
    }

    /// Takes one use from a store. Without uses the store goes.
    pub fn let_go(&mut self, store: StoreNo)
        ensures { self.new ≡ record self.old { stores = released store self.old.stores } }
    {
        let _live = self.stores.let_go(store);
    }

    /// The allocator that it has its memory from.
    pub fn allocator(&self) -> A {
        self.alloc
    }

    /// Why the client ended, if it did.
    pub fn ended(&self) -> Option<Cause>
        ensures { result ≡ self.now.ended }
    {
        self.ended
    }

    pub fn has_ended(&self) -> bool
        ensures { result ≡ is_some self.now.ended }
    {
        self.ended.is_some()
    }

    /// Why the client is to end, if it is: an event wasn't queued for this cause, and the client
    /// hasn't ended since.
    pub fn to_end_for(&self) -> Option<Cause>
        ensures { result ≡ self.now.refused }
    {
        self.refused
    }

    /// The bytes that wait to be sent to the client.
    pub fn unsent(&self) -> &[u8]
        ensures { result.now ≡ self.now.unsent }
    {
        self.unsent.as_slice()
    }

    /// The client closed its connection. The answer is true if it was alive.
    pub fn gone(&mut self) -> bool
        ensures { (p : Peer) → IsPeer self.old p → IsPeer self.new (left_by p.status p) × (result ≡ is_none p.status) }
    {
        if self.ended.is_some() {
            return false;
        }
        self.end(Cause::Gone);
        true
    }

    /// Drops this many unsent bytes, which were sent. If there are fewer, the answer is false and
    /// nothing changes.
    pub fn sent(&mut self, count: usize) -> bool
        ensures sends { (p : Peer) → IsPeer self.old p → IsPeer self.new (sent_by count p) × (result ≡ nat_le count (length p.unsent)) }
        ensures table { self.new.objects ≡ self.old.objects }
    {
        if count > self.unsent.as_slice().len() {
            return false;
        }
        self.unsent.take_front(count);
        true
    }

    /// Puts bytes into a store. `NoStore` if there is none, `OutOfRange` if they pass its end;
    /// nothing changes then.
    pub fn store(&mut self, store: StoreNo, at: u32, bytes: &[u8]) -> Result<(), StoreError>
        ensures answer { result ≡ stored (write_refusal store at (length bytes.now) self.old.stores) }
        ensures table { self.new.objects ≡ self.old.objects }
        ensures stored { (p : Peer) → IsPeer self.old p → IsPeer self.new (stored_by store at bytes.now (write_refusal store at (length bytes.now) p.stores) p) }
    {
        self.stores.write(store, at, bytes)
    }

    /// How many bytes a store has, if it is live.
    pub fn store_size(&self, store: StoreNo) -> Option<u32>
        ensures { result ≡ option_map (λ s. length s.bytes) (store_at store self.now.stores) }
    {
        self.stores.size(store)
    }

    /// The bytes of a store as they are now, if it is live.
    pub fn store_bytes(&self, store: StoreNo) -> Option<&[u8]>
        ensures { option_copied result ≡ bytes_of store self.now.stores }
    {
        self.stores.bytes(store)
    }

    /// The least number of a live store that is above this one, if there is one.
    pub fn next_store(&self, number: StoreNo) -> Option<StoreNo>
        ensures next { result ≡ next_after number self.now.stores }
        ensures rises { IfSome result (λ next. number < next) }
    {
        self.stores.next_after(number)
    }

    /// Lends the bytes of a store as the content of a surface with this transform and scale. `None`
    /// if the store isn't live or the layout passes its end.
    pub fn picture(
        &self,
        store: StoreNo,
        layout: &Layout,
        transform: Transform,
        scale: Scale,
    ) -> Option<Picture<'_>>
        ensures { result ≡ picture_turned store layout.now transform scale.number self.now.stores }
    {
        self.stores.picture_turned(store, layout, transform, scale)
    }
}
