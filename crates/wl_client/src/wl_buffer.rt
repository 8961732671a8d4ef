//! The request of wl_buffer, the content for a surface (wayland.xml, wl_buffer): its destroy.

ghost use Rattle.std.specs.Prelude.{ℕ, Bool, ◌≡◌, ◌≤◌, length};
ghost use Rattle.spec_desktop.specs.Judgement.{buffer_destroyed};
ghost use Rattle.spec_desktop.specs.Objects.{held_at};
ghost use Rattle.wl_client.specs.Serving.{ActsWith, AreUsed};
ghost use Rattle.spec_desktop.specs.Used.{has_used};

use crate::clients::Client;
use spec_desktop::{Action, ErrorCode, Refusal, ShmBuffer};
use std::alloc::Allocator;
use std::collections::BTreeMap;
use wl_store::StoreNo;
use wl_surface::SurfaceStates;

/// What a wl_buffer's one request, destroy, asks.
pub(crate) fn action<A: Allocator>(
    buffers: &BTreeMap<u32, ShmBuffer, A>,
    object: u32,
) -> Result<Action, Refusal>
    ensures { result ≡ buffer_destroyed object (held_at buffers.now.entries object) }
{
    match buffers.get(&object) {
        None => Err(Refusal::of_display(ErrorCode::Implementation)),
        Some(buffer) => Ok(Action::DestroyBuffer(object, buffer.store())),
    }
}

impl<A: Allocator + Copy> Client<A> {
    ghost use Rattle.wl_client.specs.Agreement.{IsPeer};
    ghost use Rattle.wl_table.specs.Objects.{HoldsAt};
    ghost use Rattle.std.specs.Prelude.{Some, None};
    ghost use Rattle.spec_desktop.specs.Peer.{Acts, Peer};
    ghost use Rattle.spec_desktop.specs.declared.actions.Action.TheVariants.{DestroyBuffer};

    /// Removes a buffer, and its use of the store.
    pub(crate) fn destroy_buffer(&mut self, id: u32, store: StoreNo)
        ensures acts { (p : Peer) → IsPeer self.old p → (q : Peer) × Acts (DestroyBuffer id store) p q × IsPeer self.new q }
        ensures table { self.new.ended ≡ None → HoldsAt self.old.objects self.new.objects id None }
        ensures rest { length self.new.rest ≤ length self.old.rest }
    {
        let _buffer = self.buffers.remove(&id);
        let _live = self.stores.let_go(store);
        self.remove(id);
    }

    /// Whether a surface uses the buffer of this wl_buffer.
    fn is_buffer_used(&self, id: u32, surfaces: &SurfaceStates<A>) -> bool
        ensures { (used : ℕ → Bool) → AreUsed surfaces.now used → result ≡ has_used used (held_at self.now.buffers id) }
    {
        match self.buffers.get(&id) {
            None => false,
            Some(buffer) => surfaces.is_used(buffer.number()),
        }
    }

    /// Removes a buffer, and its use of the store unless a surface uses it.
    pub(crate) fn destroy_buffer_with(
        &mut self,
        id: u32,
        store: StoreNo,
        surfaces: &SurfaceStates<A>,
    )
        ensures acts { (used : ℕ → Bool) → AreUsed surfaces.now used → (p : Peer) → IsPeer self.old p
            → (q : Peer) × ActsWith used (DestroyBuffer id store) p q × IsPeer self.new q }
        ensures table { self.new.ended ≡ None → HoldsAt self.old.objects self.new.objects id None }
        ensures rest { length self.new.rest ≤ length self.old.rest }
    {
        if self.is_buffer_used(id, surfaces) {
            let _used = self.buffers.remove(&id);
            self.remove(id);
        } else {
            self.destroy_buffer(id, store);
        }
    }
}
