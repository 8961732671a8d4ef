//! The requests of wl_shm_pool, a piece of memory that client and compositor share (wayland.xml,
//! wl_shm_pool). They make buffers in it, and let it grow.

ghost use Rattle.std.specs.Prelude.{◌≡◌, ◌≤◌, length};
ghost use Rattle.spec_desktop.specs.Judgement.{buffer_created, layout_refused, pool_action, pool_resized};
ghost use Rattle.spec_desktop.specs.Objects.{held_at};
ghost use Rattle.wl_store.specs.Stores.{resize_refusal};

use crate::clients::Client;
use spec_desktop::{Action, ErrorCode, Place, Refusal, ShmBuffer};
use std::alloc::Allocator;
use std::collections::BTreeMap;
use wl_proto::{Interface, WlShmPoolRequest};
use wl_store::{LayoutError, StoreError, StoreNo, Stores, layout};

/// What a request to a wl_shm_pool of this version asks, or its refusal.
pub(crate) fn action<A: Allocator>(
    pools: &BTreeMap<u32, StoreNo, A>,
    stores: &Stores<A>,
    object: u32,
    version: u32,
    request: &WlShmPoolRequest,
) -> Result<Action, Refusal>
    ensures { result ≡ pool_action object version stores.now (held_at pools.now.entries object) request.now }
{
    let Some(&store) = pools.get(&object) else {
        return Err(Refusal::of_display(ErrorCode::Implementation));
    };
    match *request {
        WlShmPoolRequest::CreateBuffer {
            id,
            offset,
            width,
            height,
            stride,
            format,
        } => {
            let asked = Asked {
                store,
                offset,
                width,
                height,
                stride,
                format,
            };
            create_buffer(stores, object, version, id, &asked)
        }
        WlShmPoolRequest::Destroy => Ok(Action::DestroyPool(object, store)),
        WlShmPoolRequest::Resize { size } => resize(stores, object, store, size),
    }
}

/// A buffer as it is asked for.
#[derive(Clone, Copy)]
struct Asked {
    store: StoreNo,
    offset: i32,
    width: i32,
    height: i32,
    stride: i32,
    format: u32,
}

/// A new buffer, or its refusal: by the limit on a store's uses, then the format, then where the
/// buffer lies.
fn create_buffer<A: Allocator>(
    stores: &Stores<A>,
    object: u32,
    version: u32,
    id: u32,
    asked: &Asked,
) -> Result<Action, Refusal>
    ensures { result ≡ buffer_created object version asked.now.store stores.now id asked.now.offset asked.now.width asked.now.height asked.now.stride asked.now.format }
{
    if !stores.can_hold(asked.store) {
        return Err(Refusal::of_display(ErrorCode::Implementation));
    }
    let size = stores.size(asked.store).unwrap_or(0);
    match layout(
        size,
        asked.offset,
        asked.width,
        asked.height,
        asked.stride,
        asked.format,
    ) {
        Ok(layout) => Ok(Action::CreateBuffer(id, version, Place::new(asked.store, layout))),
        Err(error) => Err(layout_refusal(object, error)),
    }
}

/// Why a buffer doesn't lie in its store.
fn layout_refusal(object: u32, error: LayoutError) -> Refusal
    ensures { result ≡ layout_refused object error }
{
    let code = match error {
        LayoutError::Format => ErrorCode::InvalidFormat,
        LayoutError::Stride => ErrorCode::InvalidStride,
    };
    Refusal::of(object, code)
}

/// A pool's new size, or its refusal: by the limit on the bytes of all stores, then a smaller size.
fn resize<A: Allocator>(
    stores: &Stores<A>,
    object: u32,
    store: StoreNo,
    size: i32,
) -> Result<Action, Refusal>
    ensures { result ≡ pool_resized object store size (resize_refusal store size stores.now) }
{
    match stores.resize_refusal(store, size) {
        None => Ok(Action::ResizePool(store, size)),
        Some(StoreError::Shrinks) => Err(Refusal::of(object, ErrorCode::InvalidFd)),
        Some(_) => Err(Refusal::of_display(ErrorCode::Implementation)),
    }
}

impl<A: Allocator + Copy> Client<A> {
    ghost use Rattle.wl_client.specs.Agreement.{IsPeer};
    ghost use Rattle.spec_desktop.specs.Objects.{entry_at_version};
    ghost use Rattle.wl_table.specs.Objects.{HoldsAt};
    ghost use Rattle.wl_proto.specs.declared.interface.Interface.TheVariants.{WlBuffer};
    ghost use Rattle.std.specs.Prelude.{Some, None};
    ghost use Rattle.spec_desktop.specs.Peer.{Acts, Peer};
    ghost use Rattle.spec_desktop.specs.declared.actions.Action.TheVariants.{CreateBuffer, ResizePool, DestroyPool};

    /// Makes a buffer, which uses its store. Its number is that of its request. A number of more
    /// than 64 bits counts as no memory.
    pub(crate) fn create_buffer(&mut self, id: u32, version: u32, place: Place)
        ensures acts { (p : Peer) → IsPeer self.old p → (q : Peer) × Acts (CreateBuffer id version place) p q × IsPeer self.new q }
        ensures table { self.new.ended ≡ None → HoldsAt self.old.objects self.new.objects id (Some (entry_at_version WlBuffer version)) }
        ensures rest { length self.new.rest ≤ length self.old.rest }
    {
        let number = self.requests;
        if number == u64::MAX {
            self.lack_memory();
            return;
        }
        if !self.stores.hold(place.store()) {
            self.lack_memory();
            return;
        }
        match self.buffers.insert(id, ShmBuffer::new(number, place)) {
            Ok(_) => self.make(id, Interface::WlBuffer, version, &[]),
            Err(_) => self.lack_memory(),
        }
    }

    /// Lets the store of a pool grow.
    pub(crate) fn resize_pool(&mut self, store: StoreNo, size: i32)
        ensures acts { (p : Peer) → IsPeer self.old p → (q : Peer) × Acts (ResizePool store size) p q × IsPeer self.new q }
        ensures table { self.new.ended ≡ None → self.new.objects ≡ self.old.objects }
        ensures rest { length self.new.rest ≤ length self.old.rest }
    {
        match self.stores.resize(store, size) {
            Ok(()) => {}
            Err(_) => self.lack_memory(),
        }
    }

    /// Removes a pool. Its store lives on while buffers use it.
    pub(crate) fn destroy_pool(&mut self, id: u32, store: StoreNo)
        ensures acts { (p : Peer) → IsPeer self.old p → (q : Peer) × Acts (DestroyPool id store) p q × IsPeer self.new q }
        ensures table { self.new.ended ≡ None → HoldsAt self.old.objects self.new.objects id None }
        ensures rest { length self.new.rest ≤ length self.old.rest }
    {
        let _pool = self.pools.remove(&id);
        let _live = self.stores.let_go(store);
        self.remove(id);
    }
}
