//! A map from ids to objects.

ghost use Rattle.std.specs.Prelude.{◌≡◌, ℕ, ◌+◌, ◌-◌, ◌++◌, replicate, ◌<◌, ◌≤◌, ◌⊎◌, [], if◌then◌else◌, length, is_some, IsSome, IfSome, IfNone, None, Some, MatchOption, slice_index_or, OnOk, OnErr, IsOkUnless, Err, IsTrue, ◌↔◌};
ghost use Rattle.std.specs.Option.{option_map};
ghost use Rattle.wl_table.specs.Objects.{Held, entry_of, refusal, with_target, HoldsAt, StandsFor, Finds};

use crate::{Entry, TableError};
use std::alloc::{AllocError, Allocator};
use std::collections::BTreeMap;
use std::marker::Model;
use std::ops::Bound;
use wl_proto::Interface;

/// The greatest id that a client may use.
pub const MAX_ID: u32 = 0xfeff_ffff;

/// How many objects a client may have at once, wl_display among them.
pub const MAX_OBJECTS: usize = 8192;

/// The last id that has a place in a row.
const LAST_PLACED: u32 = MAX_OBJECTS as u32;

/// The objects of a client, by their ids; at most 8,192.
///
/// Contracts see it as the list of the objects, each with its id, in rising order.
///
/// Clients mostly take the least free id. So the ids up to 8,192 have places in a row, which ends
/// at the greatest of them that was ever used. A map keeps the objects under other ids.
#[derive(Drop)]
pub struct Objects<A: Allocator> {
    row: Vec<Option<Entry>, A>,
    others: BTreeMap<u32, Entry, A>,
    count: u32,
}

impl<A: Allocator> Model for Objects<A> {
    ghost use Rattle.std.specs.Prelude.{◌++◌};
    ghost use Rattle.wl_table.specs.Objects.{Held};
    ghost use Rattle.wl_table.specs.Places.{placed, IsTable};

    ghost Value = { Held };

    ghost view = { λ o. placed 1 o.row.items ++ o.others.entries };

    ghost invariant = { λ o. IsTable o.row.items o.others o.count };
}

impl<A: Allocator> Objects<A> {
    /// How many objects there are.
    pub fn len(&self) -> usize
        ensures { result ≡ length self.now }
    {
        self.count as usize
    }

    /// The object under an id.
    pub fn get(&self, id: u32) -> Option<Entry>
        ensures { result ≡ entry_of self.now id }
    {
        match place_of(id, self.row.len()) {
            Some(place) => self.row[place],
            None => self.others.get(&id).copied(),
        }
    }

    /// Sets the target of the object under an id. The answer says whether there is one.
    pub fn set(&mut self, id: u32, target: usize) -> bool
        ensures found { result ≡ is_some (entry_of self.old id) }
        ensures set { HoldsAt self.old self.new id (option_map (with_target target) (entry_of self.old id)) }
        ensures len { length self.new ≡ length self.old }
    {
        if let Some(place) = place_of(id, self.row.len()) {
            let Some(entry) = self.row[place] else {
                return false;
            };
            self.row[place] = Some(Entry { target, ..entry });
            return true;
        }
        let Some(entry) = self.others.get_mut(&id) else {
            return false;
        };
        entry.target = target;
        true
    }

    /// Takes the object under an id out, and returns it.
    pub fn remove(&mut self, id: u32) -> Option<Entry>
        ensures found { result ≡ entry_of self.old id }
        ensures removed { HoldsAt self.old self.new id None }
        ensures len { length self.new + (if is_some result then 1 else 0) ≡ length self.old }
    {
        let Some(entry) = self.get(id) else {
            return None;
        };
        match place_of(id, self.row.len()) {
            Some(place) => self.row[place] = None,
            None => {
                self.others.remove(&id);
            }
        }
        self.count -= 1;
        Some(entry)
    }

    /// The least id above an id that has an object.
    pub fn next_after(&self, id: u32) -> Option<u32>
        ensures { MatchOption result ((other : ℕ) → id < other → entry_of self.now other ≡ None) (λ next. (id < next) × IsSome (entry_of self.now next) × ((other : ℕ) → id < other → other < next → entry_of self.now other ≡ None)) }
    {
        if let Some(place) = first_held(&self.row, id as usize) {
            return Some(place as u32 + 1);
        }
        let Some((next, _)) = self
            .others
            .range((Bound::Excluded(id), Bound::Unbounded))
            .next()
        else {
            return None;
        };
        Some(*next)
    }

    /// The least id of the objects with this interface and target, if there is one.
    pub fn find(&self, interface: Interface, target: usize) -> Option<u32>
        ensures { Finds self.now interface target result }
    {
        for (place, entry) in self.row.iter().enumerate() {
            if stands_for(*entry, interface, target) {
                return Some(place as u32 + 1);
            }
        }
        for (id, entry) in &self.others {
            if stands_for(Some(*entry), interface, target) {
                return Some(*id);
            }
        }
        None
    }
}

impl<A: Allocator + Copy> Objects<A> {
    /// No objects.
    pub fn new(alloc: A) -> Self
        ensures { result ≡ [] }
    {
        Objects {
            row: Vec::new(alloc),
            others: BTreeMap::new(alloc),
            count: 0,
        }
    }

    /// Enters an object under an id.
    ///
    /// # Errors
    ///
    /// The first of these:
    /// - `BadId`, if no client's object can have the id;
    /// - `InUse`, if another object has it;
    /// - `TooMany`, if there are 8,192;
    /// - `Memory`, if there is no memory for it.
    ///
    /// Each leaves the objects as they were.
    pub fn insert(&mut self, id: u32, entry: Entry) -> Result<(), TableError>
        ensures ok { OnOk result (HoldsAt self.old self.new id (Some entry)) }
        ensures len { OnOk result (length self.new ≡ length self.old + 1) }
        ensures refused { MatchOption (refusal self.old id) (IsOkUnless result TableError.Memory) (λ e. result ≡ Err e) }
        ensures err { OnErr result (self.new ≡ self.old) }
    {
        if id == 0 || id > MAX_ID {
            return Err(TableError::BadId);
        }
        if self.get(id).is_some() {
            return Err(TableError::InUse);
        }
        if self.len() >= MAX_OBJECTS {
            return Err(TableError::TooMany);
        }
        self.put(id, entry)
    }

    /// Enters an object under a free id, if there is room for it.
    fn put(&mut self, id: u32, entry: Entry) -> Result<(), TableError>
        requires id { 0 < id }
        requires free { entry_of self.old id ≡ None }
        requires room { length self.old < 8192 }
        ensures ok { OnOk result (HoldsAt self.old self.new id (Some entry)) }
        ensures len { OnOk result (length self.new ≡ length self.old + 1) }
        ensures cause { IsOkUnless result TableError.Memory }
        ensures err { OnErr result (self.new ≡ self.old) }
    {
        if id > LAST_PLACED {
            self.others.insert(id, entry)?;
        } else {
            extend(&mut self.row, id as usize)?;
            self.row[id as usize - 1] = Some(entry);
        }
        self.count += 1;
        Ok(())
    }
}

/// Gives a row at least this many places; the new ones are empty.
fn extend<A: Allocator>(row: &mut Vec<Option<Entry>, A>, places: usize) -> Result<(), AllocError>
    ensures ok { OnOk result (row.new.items ≡ row.old.items ++ replicate (places - length row.old.items) None) }
    ensures err { OnErr result (row.new.items ≡ row.old.items) }
{
    if places <= row.len() {
        return Ok(());
    }
    row.resize(places, None)
}

/// The place of an id in a row of this many places, if it has one.
fn place_of(id: u32, places: usize) -> Option<usize>
    ensures some { IfSome result (λ place. (id ≡ place + 1) × (place < places)) }
    ensures none { IfNone result ((id ≡ 0) ⊎ (places < id)) }
{
    if id == 0 || id as usize > places {
        return None;
    }
    Some(id as usize - 1)
}

/// The first place of a row, from this one on, that has an object.
fn first_held(row: &[Option<Entry>], from: usize) -> Option<usize>
    ensures some { IfSome result (λ place. (from ≤ place) × (place < length row.now) × IsSome (slice_index_or row.now place None) × ((other : ℕ) → from ≤ other → other < place → slice_index_or row.now other None ≡ None)) }
    ensures none { IfNone result ((other : ℕ) → from ≤ other → slice_index_or row.now other None ≡ None) }
{
    for place in from..row.len() {
        if row[place].is_some() {
            return Some(place);
        }
    }
    None
}

/// Whether there is an object, with this interface and target.
fn stands_for(entry: Option<Entry>, interface: Interface, target: usize) -> bool
    ensures { IsTrue result ↔ StandsFor entry interface target }
{
    match entry {
        Some(entry) => entry.interface == interface && entry.target == target,
        None => false,
    }
}
