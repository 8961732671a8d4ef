//! Buffers of wl_shm_pools.

ghost use Rattle.std.specs.Prelude.{◌≡◌};
ghost use Rattle.spec_desktop.specs.Buffers.{buffer_at, numbered};

use std::marker::Model;
use wl_store::{Layout, StoreNo};

/// Where a wl_buffer lies: its store, and where its pixels are in it.
#[derive(Drop)]
pub struct Place {
    store: StoreNo,
    layout: Layout,
}

impl Model for Place {
    ghost use Rattle.spec_desktop.specs.Buffers.{Laid, buffer_at};

    ghost Value = { Laid };

    ghost view = { λ b. buffer_at b.store b.layout };
}

impl Place {
    /// The place with this layout in the store.
    pub fn new(store: StoreNo, layout: Layout) -> Place
        ensures { result ≡ buffer_at store layout }
    {
        Place { store, layout }
    }

    /// The store.
    pub fn store(&self) -> StoreNo
        ensures { result ≡ self.now.store }
    {
        self.store
    }

    /// Where the pixels lie in the store.
    pub fn layout(&self) -> Layout
        ensures { buffer_at self.now.store result ≡ self.now }
    {
        self.layout
    }
}

/// A wl_buffer: its number among its client's buffers, and where it lies.
#[derive(Drop)]
pub struct ShmBuffer {
    number: u64,
    place: Place,
}

impl Model for ShmBuffer {
    ghost use Rattle.spec_desktop.specs.Buffers.{Buffer, numbered};

    ghost Value = { Buffer };

    ghost view = { λ b. numbered b.number b.place };
}

impl ShmBuffer {
    /// The buffer of this number that lies at this place.
    pub fn new(number: u64, place: Place) -> ShmBuffer
        ensures { result ≡ numbered number place }
    {
        ShmBuffer { number, place }
    }

    /// Its number among its client's buffers: that of the request that made it.
    pub fn number(&self) -> u64
        ensures { result ≡ self.now.number }
    {
        self.number
    }

    /// Where its pixels lie in its store.
    pub fn layout(&self) -> Layout
        ensures { buffer_at self.now.laid.store result ≡ self.now.laid }
    {
        self.place.layout()
    }

    /// The store that it lies in.
    pub fn store(&self) -> StoreNo
        ensures { result ≡ self.now.laid.store }
    {
        self.place.store()
    }
}
