//! The request of wl_shm, the global for shared memory (wayland.xml, wl_shm). It makes a pool of
//! memory that the client shares with the compositor.

ghost use Rattle.std.specs.Prelude.{◌≡◌, ◌≤◌, length};
ghost use Rattle.spec_desktop.specs.Judgement.{shm_action};

use crate::clients::Client;
use spec_desktop::{Action, ErrorCode, Refusal};
use std::alloc::Allocator;
use wl_proto::{Interface, WlShmRequest};
use wl_store::{StoreError, Stores};

/// What a create_pool to a wl_shm of this version asks, or its refusal: the limits on stores come
/// first, then its size.
pub(crate) fn action<A: Allocator>(
    stores: &Stores<A>,
    object: u32,
    version: u32,
    request: &WlShmRequest,
) -> Result<Action, Refusal>
    ensures { result ≡ shm_action object version stores.now request.now }
{
    match *request {
        WlShmRequest::CreatePool { id, size } => match stores.create_refusal(size) {
            None => Ok(Action::CreatePool(id, version, size)),
            Some(StoreError::BadSize) => Err(Refusal::of(object, ErrorCode::InvalidStride)),
            Some(_) => Err(Refusal::of_display(ErrorCode::Implementation)),
        },
    }
}

impl<A: Allocator + Copy> Client<A> {
    ghost use Rattle.wl_client.specs.Agreement.{IsPeer};
    ghost use Rattle.spec_desktop.specs.Objects.{entry_at_version};
    ghost use Rattle.wl_table.specs.Objects.{HoldsAt};
    ghost use Rattle.wl_proto.specs.declared.interface.Interface.TheVariants.{WlShmPool};
    ghost use Rattle.std.specs.Prelude.{Some, None};
    ghost use Rattle.spec_desktop.specs.Peer.{Acts, Peer};
    ghost use Rattle.spec_desktop.specs.declared.actions.Action.TheVariants.{CreatePool};

    /// Makes a pool with the client's next store.
    pub(crate) fn create_pool(&mut self, id: u32, version: u32, size: i32)
        ensures acts { (p : Peer) → IsPeer self.old p → (q : Peer) × Acts (CreatePool id version size) p q × IsPeer self.new q }
        ensures table { self.new.ended ≡ None → HoldsAt self.old.objects self.new.objects id (Some (entry_at_version WlShmPool version)) }
        ensures rest { length self.new.rest ≤ length self.old.rest }
    {
        let Ok(store) = self.stores.create(size) else {
            self.lack_memory();
            return;
        };
        match self.pools.insert(id, store) {
            Ok(_) => self.make(id, Interface::WlShmPool, version, &[]),
            Err(_) => self.lack_memory(),
        }
    }
}
