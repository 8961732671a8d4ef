ghost use Rattle.std.specs.Prelude.{◌≡◌, ◌+◌, ◌-◌, ◌≤◌, ◌<◌, ◌↔◌, ◌==◌, ◌<ℤ◌, if◌then◌else◌, [], false, is_some, None, IsTrue, IsSome, IfSome, IfNone, IsOk, IfOk, OnOk, OnErr, IfErr, MatchBool, ℕ, length, position, find, pos, slice_index_or, slice_set, unsigned_abs};
ghost use Rattle.std.specs.Option.{option_copied, option_map};
ghost use Rattle.wl_store.specs.Kept.{IsNoneBlankBeside, Kept, Lends, grown, seen};
ghost use Rattle.wl_store.specs.Stores.{IsPlace, new_refusal, size_refusal};
ghost use Rattle.wl_store.specs.Transform.{transform_of};

use crate::picture::Picture;
use crate::place::Layout;
use crate::scale::Scale;
use crate::store::Store;
use crate::transform::Transform;
use crate::zeros::Zeros;
use std::alloc::{AllocError, AllocFailed, Allocator};
use std::marker::Model;
use thiserror::Error;

/// How many stores may be live at once.
pub const MAX_STORES: usize = 64;

/// How many bytes the live stores may have together.
pub const MAX_TOTAL: u32 = 268_435_456;

/// The number of a store. Numbers begin at 1, rise, and aren't used again.
pub type StoreNo = u32;

/// Why a store wasn't made or changed.
#[derive(Clone, Copy, Debug, PartialEq, Eq, Error)]
pub enum StoreError {
    /// The size is below 1.
    #[error("a store's size is at least 1")]
    BadSize = 1,
    /// The size is below the present one.
    #[error("a store doesn't shrink")]
    Shrinks = 2,
    /// No live store has the number.
    #[error("there is no such store")]
    NoStore = 3,
    /// The bytes would pass the end of the store.
    #[error("the bytes don't lie in the store")]
    OutOfRange = 4,
    /// 64 stores are live, or all numbers were used.
    #[error("too many stores")]
    TooMany = 5,
    /// The live stores would have more than 268,435,456 bytes together.
    #[error("the stores would be too large together")]
    TooLarge = 6,
    /// Memory ran out.
    #[error("out of memory")]
    Memory = 7,
}

impl From<AllocError> for StoreError {
    ghost use Rattle.std.specs.Prelude.{◌≡◌};
    ghost use Rattle.wl_store.specs.declared.stores.StoreError.TheVariants.{Memory};

    ghost from_gives = { λ _ e. e ≡ Memory };

    fn from(_error: AllocError) -> Self {
        StoreError::Memory
    }
}

impl<T: Drop> From<AllocFailed<T>> for StoreError {
    ghost use Rattle.std.specs.Prelude.{◌≡◌};
    ghost use Rattle.wl_store.specs.declared.stores.StoreError.TheVariants.{Memory};

    ghost from_gives = { λ _ e. e ≡ Memory };

    fn from(_error: AllocFailed<T>) -> Self {
        StoreError::Memory
    }
}

/// A client's stores (wayland.xml, wl_shm.create_pool). At most 64 are live, of at most 268,435,456
/// bytes together.
///
/// Stores that nothing was written to share one run of zeros. It is as long as the longest of them
/// was, and stays when they go. So a client that makes stores and lets them go costs few writes: no
/// more zeros than the bytes it may have, until it writes to a store.
#[derive(Drop)]
pub struct Stores<A: Allocator> {
    // By rising number.
    held: Vec<Store<A>, A>,
    made: u32,
    total: u32,
    zeros: Zeros<A>,
}

impl<A: Allocator> Model for Stores<A> {
    ghost use Rattle.wl_store.specs.Kept.{IsKept, seen};
    ghost use Rattle.wl_store.specs.Stores.{Stock};

    ghost Value = { Stock };

    ghost view = { λ stores. record { held = seen stores.held.items; made = stores.made } };

    ghost invariant = { λ stores. IsKept stores.held.items stores.made stores.total stores.zeros };
}

/// The place of the first store of this number.
fn position_of<A: Allocator>(held: &[Store<A>], number: StoreNo) -> Option<usize>
    ensures { result ≡ position (λ s. s.number == number) (seen held.now) }
{
    held.iter().position(|store| store.number() == number)
}

/// Where the store of this number is, if it is live.
fn place_of<A: Allocator>(held: &[Store<A>], number: StoreNo) -> Option<usize>
    ensures found { IfSome result (IsPlace (seen held.now) number) }
    ensures absent { IfNone result (find (λ s. s.number == number) (seen held.now) ≡ None) }
{
    position_of(held, number)
}

/// Whether a store besides the one at `place` is blank.
fn is_blank_beside<A: Allocator>(held: &[Store<A>], place: usize) -> bool
    ensures { result ≡ false → IsNoneBlankBeside place held.now }
{
    for k in 0..held.len() {
        if k != place && held[k].is_blank() {
            return true;
        }
    }
    false
}

/// Gives the store at `place` bytes of its own, if it is blank. It takes no memory.
fn fill_at<A: Allocator>(held: &mut [Store<A>], zeros: &mut Zeros<A>, place: usize)
    requires within { place < length held.old }
    requires lends { Lends zeros.old held.old }
    ensures seen { seen held.new ≡ seen held.old }
    ensures filled { (d : Kept) → (slice_index_or held.new place d).blank ≡ false }
    ensures lends { Lends zeros.new held.new }
{
    if held[place].is_blank() {
        let are_shared = is_blank_beside(held, place);
        held[place].fill(zeros, are_shared);
    }
}

/// Puts zeros at the end of the store at `place`, up to this size. An error leaves all stores as
/// they were.
fn grow_at<A: Allocator + Copy>(
    held: &mut [Store<A>],
    zeros: &mut Zeros<A>,
    place: usize,
    size: u32,
) -> Result<(), AllocError>
    requires within { place < length held.old }
    requires grows { (d : Kept) → length (slice_index_or held.old place d).held.bytes ≤ size }
    requires lends { Lends zeros.old held.old }
    ensures ok { OnOk result ((d : Kept) → seen held.new ≡ slice_set (seen held.old) place (grown size (slice_index_or held.old place d).held)) }
    ensures err { OnErr result (seen held.new ≡ seen held.old) }
    ensures lends { Lends zeros.new held.new }
{
    let store = &mut held[place];
    if store.is_blank() {
        zeros.grow_to(size)?;
    }
    store.grow(size)
}

/// Why no store of this size is made beside `total` bytes. `None` if it may be made.
fn new_refusal(total: u32, size: i32) -> Option<StoreError>
    ensures first { result ≡ new_refusal total size }
    ensures room { IfNone result (total + unsigned_abs size ≤ MAX_TOTAL) }
{
    if i64::from(total) + i64::from(size) > i64::from(MAX_TOTAL) {
        return Some(StoreError::TooLarge);
    }
    if size <= 0 {
        return Some(StoreError::BadSize);
    }
    None
}

/// Why a store of `present` bytes, one of `total` in all, doesn't get this size. `None` if it may.
fn size_refusal(total: u32, present: u32, size: i32) -> Option<StoreError>
    ensures first { result ≡ size_refusal total present size }
    ensures grows { IfNone result (present ≤ unsigned_abs size) }
    ensures room { IfNone result (total + unsigned_abs size ≤ MAX_TOTAL + present) }
{
    let size = i64::from(size);
    let present = i64::from(present);
    if i64::from(total) - present + size > i64::from(MAX_TOTAL) {
        return Some(StoreError::TooLarge);
    }
    if size < present {
        return Some(StoreError::Shrinks);
    }
    None
}

impl<A: Allocator> Stores<A> {
    ghost use Rattle.wl_store.specs.Stores.{bytes_of, can_hold, create_refusal, is_full, let_go, next_after, picture_of, picture_turned, resize_refusal, store_at, total_size, used, write_refusal, written};

    fn is_full(&self) -> bool
        ensures { result ≡ is_full self.now }
    {
        self.held.len() == MAX_STORES || self.made == u32::MAX
    }

    /// How many bytes the store has. `None` if it isn't live.
    pub fn size(&self, store: StoreNo) -> Option<u32>
        ensures { result ≡ option_map (λ s. length s.bytes) (store_at store self.now) }
    {
        let found = self.held.iter().find(|held| held.number() == store)?;
        Some(found.size())
    }

    /// The bytes of the store as they are now. `None` if it isn't live.
    pub fn bytes(&self, store: StoreNo) -> Option<&[u8]>
        ensures { option_copied result ≡ bytes_of store self.now }
    {
        let found = self.held.iter().find(|held| held.number() == store)?;
        Some(found.bytes(&self.zeros))
    }

    /// The least number of a live store above this one. `None` if there is none. It takes no
    /// memory.
    pub fn next_after(&self, number: StoreNo) -> Option<StoreNo>
        ensures next { result ≡ next_after number self.now }
        ensures rises { IfSome result (λ next. number < next) }
    {
        let found = self.held.iter().find(|held| held.number() > number)?;
        Some(found.number())
    }

    /// Writes these bytes over those from byte `at` on, counted from 0.
    ///
    /// # Errors
    ///
    /// `NoStore` if the store isn't live. `OutOfRange` if the bytes pass its end. Nothing changes
    /// then.
    pub fn write(&mut self, store: StoreNo, at: u32, bytes: &[u8]) -> Result<(), StoreError>
        ensures refused { IfSome (write_refusal store at (length bytes.now) self.old) (λ error. result ≡ Err error) }
        ensures accepted { IfNone (write_refusal store at (length bytes.now) self.old) (IsOk result) }
        ensures ok { OnOk result (self.new ≡ written store at bytes.now self.old) }
        ensures err { OnErr result (self.new ≡ self.old) }
    {
        let Some(place) = place_of(&self.held, store) else {
            return Err(StoreError::NoStore);
        };
        let size = self.held[place].size();
        if at > size || ((size - at) as usize) < bytes.len() {
            return Err(StoreError::OutOfRange);
        }
        fill_at(&mut self.held, &mut self.zeros, place);
        self.held[place].write(at, bytes);
        Ok(())
    }

    /// Why no store of this size is made, memory aside: `TooMany`, `TooLarge` or `BadSize`, as
    /// [`Stores::create`] answers them. `None` if none of these holds.
    pub fn create_refusal(&self, size: i32) -> Option<StoreError>
        ensures first { result ≡ create_refusal size self.now }
        ensures few { IfNone result (is_full self.now ≡ false) }
        ensures room { IfNone result (total_size self.now + unsigned_abs size ≤ MAX_TOTAL) }
    {
        if self.is_full() {
            return Some(StoreError::TooMany);
        }
        new_refusal(self.total, size)
    }

    /// Why the store doesn't get this size, memory aside: `NoStore`, `TooLarge` or `Shrinks`, as
    /// [`Stores::resize`] answers them. `None` if none of these holds.
    pub fn resize_refusal(&self, store: StoreNo, size: i32) -> Option<StoreError>
        ensures { result ≡ resize_refusal store size self.now }
    {
        let Some(place) = place_of(&self.held, store) else {
            return Some(StoreError::NoStore);
        };
        size_refusal(self.total, self.held[place].size(), size)
    }

    /// Whether one more use can be counted: the store is live and has fewer than 4,294,967,295
    /// uses.
    pub fn can_hold(&self, store: StoreNo) -> bool
        ensures { result ≡ can_hold store self.now }
    {
        let Some(place) = place_of(&self.held, store) else {
            return false;
        };
        self.held[place].uses() < u32::MAX
    }

    /// Counts one more use. The answer is false if the store isn't live or has 4,294,967,295 uses.
    /// Nothing changes then.
    pub fn hold(&mut self, store: StoreNo) -> bool
        ensures allowed { result ≡ can_hold store self.old }
        ensures counted { self.new ≡ (if result then used store self.old else self.old) }
    {
        let Some(place) = place_of(&self.held, store) else {
            return false;
        };
        let uses = self.held[place].uses();
        if uses == u32::MAX {
            return false;
        }
        self.held[place].set_uses(uses + 1);
        true
    }

    /// Counts one use less. A store without uses goes. The answer is false if the store isn't live.
    /// Nothing changes then.
    pub fn let_go(&mut self, store: StoreNo) -> bool
        ensures live { result ≡ is_some (store_at store self.old) }
        ensures counted { self.new ≡ (if result then let_go store self.old else self.old) }
    {
        let Some(place) = place_of(&self.held, store) else {
            return false;
        };
        let uses = self.held[place].uses();
        if uses <= 1 {
            self.total -= self.held[place].size();
            let _gone = self.held.remove(place);
        } else {
            self.held[place].set_uses(uses - 1);
        }
        true
    }

    /// Lends the store's bytes as the content of a surface. `transform` is its number in
    /// wl_output.transform. So many points of the buffer as `scale` says, in each direction, make
    /// one of the surface.
    ///
    /// `None` if the store isn't live, or the layout passes its end.
    pub fn picture(
        &self,
        store: StoreNo,
        layout: &Layout,
        transform: u32,
        scale: u32,
    ) -> Option<Picture<'_>>
        requires turned { transform < 8 }
        requires scaled { 1 ≤ scale }
        ensures there { result ≡ picture_of store layout.now transform scale self.now }
        ensures bytes { IfSome result (λ p. bytes_of store self.now ≡ Some p.bytes) }
        ensures layout { IfSome result (λ p. p.layout ≡ layout.now) }
        ensures transform { IfSome result (λ p. p.transform ≡ transform_of transform) }
        ensures scale { IfSome result (λ p. p.scale ≡ scale) }
    {
        let turned = Transform::from_number(transform);
        self.picture_turned(store, layout, turned, Scale { number: scale })
    }

    /// Does the same as [`Stores::picture`], with a transform and a scale in their own types.
    pub fn picture_turned(
        &self,
        store: StoreNo,
        layout: &Layout,
        transform: Transform,
        scale: Scale,
    ) -> Option<Picture<'_>>
        ensures there { result ≡ picture_turned store layout.now transform scale.number self.now }
        ensures bytes { IfSome result (λ p. bytes_of store self.now ≡ Some p.bytes) }
        ensures layout { IfSome result (λ p. p.layout ≡ layout.now) }
        ensures transform { IfSome result (λ p. p.transform ≡ transform) }
        ensures scale { IfSome result (λ p. p.scale ≡ scale.number) }
    {
        let bytes = self.bytes(store)?;
        Picture::new(bytes, layout, transform, scale)
    }
}

impl<A: Allocator + Copy> Stores<A> {
    ghost use Rattle.wl_store.specs.Stores.{create_refusal, created, is_full, resize_refusal, resized, store_at, total_size};

    /// No stores. It keeps the allocator.
    pub fn new(alloc: A) -> Self
        ensures { result ≡ record { held = []; made = 0 } }
    {
        Stores {
            held: Vec::new(alloc),
            made: 0,
            total: 0,
            zeros: Zeros::none(alloc),
        }
    }

    /// Makes a store of `size` zeros with one use (wayland.xml, wl_shm.create_pool). The size is in
    /// bytes.
    ///
    /// # Errors
    ///
    /// The first of these; nothing changes then:
    /// - `TooMany`, if 64 stores are live or 4,294,967,295 were made;
    /// - `TooLarge`, if all stores would have more than 268,435,456 bytes;
    /// - `BadSize`, if the size isn't positive;
    /// - `Memory`.
    pub fn create(&mut self, size: i32) -> Result<StoreNo, StoreError>
        ensures refused { IfSome (create_refusal size self.old) (λ error. result ≡ Err error) }
        ensures accepted { IfNone (create_refusal size self.old) (IfErr result (λ error. error ≡ StoreError.Memory)) }
        ensures number { IfOk result (λ number. number ≡ self.old.made + 1) }
        ensures fresh { OnOk result (store_at (self.old.made + 1) self.old ≡ None) }
        ensures ok { OnOk result (self.new ≡ created (unsigned_abs size) self.old) }
        ensures err { OnErr result (self.new ≡ self.old) }
    {
        if let Some(error) = self.create_refusal(size) {
            return Err(error);
        }
        self.make(size.unsigned_abs())
    }

    /// Makes a store for which there is room.
    fn make(&mut self, size: u32) -> Result<StoreNo, StoreError>
        requires few { is_full self.old ≡ false }
        requires room { total_size self.old + size ≤ MAX_TOTAL }
        ensures memory { IfErr result (λ error. error ≡ StoreError.Memory) }
        ensures number { IfOk result (λ number. number ≡ self.old.made + 1) }
        ensures fresh { OnOk result (store_at (self.old.made + 1) self.old ≡ None) }
        ensures ok { OnOk result (self.new ≡ created size self.old) }
        ensures err { OnErr result (self.new ≡ self.old) }
    {
        let alloc = *self.held.allocator();
        let made = self.made + 1;
        let store = Store::blank(alloc, made, size)?;
        self.zeros.grow_to(size)?;
        self.held.push(store)?;
        self.made = made;
        self.total += size;
        Ok(made)
    }

    /// Puts zeros at the end of the store, up to `size` bytes (wayland.xml, wl_shm_pool.resize).
    ///
    /// # Errors
    ///
    /// The first of these; nothing changes then:
    /// - `NoStore`, if the store isn't live;
    /// - `TooLarge`, if all stores would have more than 268,435,456 bytes;
    /// - `Shrinks`, if the store has more;
    /// - `Memory`.
    pub fn resize(&mut self, store: StoreNo, size: i32) -> Result<(), StoreError>
        ensures refused { IfSome (resize_refusal store size self.old) (λ error. result ≡ Err error) }
        ensures accepted { IfNone (resize_refusal store size self.old) (IfErr result (λ error. error ≡ StoreError.Memory)) }
        ensures ok { OnOk result (self.new ≡ resized store (unsigned_abs size) self.old) }
        ensures err { OnErr result (self.new ≡ self.old) }
    {
        let Some(place) = place_of(&self.held, store) else {
            return Err(StoreError::NoStore);
        };
        let present = self.held[place].size();
        if let Some(error) = size_refusal(self.total, present, size) {
            return Err(error);
        }
        let size = size.unsigned_abs();
        match grow_at(&mut self.held, &mut self.zeros, place, size) {
            Ok(()) => {
                self.total = self.total - present + size;
                Ok(())
            }
            Err(AllocError) => Err(StoreError::Memory),
        }
    }
}
