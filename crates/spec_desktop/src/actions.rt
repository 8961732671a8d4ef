//! What messages ask.

use crate::buffers::Place;
use wl_geom::Rect;
use wl_proto::Interface;
use wl_shell::Setting;
use wl_store::StoreNo;

/// What an accepted message asks.
#[derive(Drop)]
pub enum Action {
    /// wl_display.sync with this new callback.
    Sync(u32),
    /// wl_display.get_registry with this new registry.
    GetRegistry(u32),
    /// wl_registry.bind of a new object of this interface and version.
    Bind(u32, Interface, u32),
    /// wl_compositor.create_region of a new region of this version.
    CreateRegion(u32, u32),
    /// wl_region.add to this region.
    AddToRegion(u32, Rect),
    /// wl_region.subtract from this region.
    SubtractFromRegion(u32, Rect),
    /// wl_region.destroy.
    DestroyRegion(u32),
    /// wl_shm.create_pool of a new pool of this version and size in bytes.
    CreatePool(u32, u32, i32),
    /// wl_shm_pool.create_buffer of a new buffer of this version, which lies at this place.
    CreateBuffer(u32, u32, Place),
    /// wl_shm_pool.resize of a pool with this store, to this size in bytes.
    ResizePool(StoreNo, i32),
    /// wl_shm_pool.destroy of this pool, which has this store.
    DestroyPool(u32, StoreNo),
    /// wl_buffer.destroy of this buffer, which lies in this store.
    DestroyBuffer(u32, StoreNo),
    /// xdg_wm_base.create_positioner of a new positioner of this version.
    CreatePositioner(u32, u32),
    /// A request of xdg_positioner that sets this.
    SetPositioner(u32, Setting),
    /// xdg_positioner.destroy of this positioner.
    DestroyPositioner(u32),
}
