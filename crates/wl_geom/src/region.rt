ghost use Rattle.std.specs.Prelude.{◌≡◌, ◌↔◌, ◌++◌, ◌∷◌, [], List, IsTrue, IfOk, OnOk, OnErr, IfErr};
ghost use Rattle.wl_geom.specs.Edits.{change_of};

use crate::edits::{Edit, is_held, is_run_held};
use crate::parts::rects_of;
use crate::rect::Rect;
use std::alloc::{AllocError, Allocator};
use std::marker::Model;
use thiserror::Error;

/// How many changes a region takes.
pub const MAX_CHANGES: u32 = 512;

/// The number after the last coordinate.
const PAST_LAST: i64 = 1 << 31;

/// Why a region wasn't changed or copied.
#[derive(Clone, Copy, Debug, PartialEq, Eq, Error)]
pub enum RegionError {
    #[error("the region was changed 512 times already")]
    TooMany = 1,
    #[error("out of memory")]
    Memory = 2,
}

impl From<AllocError> for RegionError {
    ghost use Rattle.std.specs.Prelude.{◌≡◌};
    ghost use Rattle.wl_geom.specs.declared.region.RegionError.TheVariants.{Memory};

    ghost from_gives = { λ _ e. e ≡ Memory };

    fn from(_error: AllocError) -> Self {
        RegionError::Memory
    }
}

/// A set of points with 32-bit coordinates, made by adds and subtracts of rectangles.
///
/// It keeps the list of its changes, 20 bytes each. The last one whose rectangle contains a point
/// decides whether the region holds it.
#[derive(Drop)]
pub struct Region<A: Allocator> {
    edits: Vec<Edit, A>,
}

impl<A: Allocator> Model for Region<A> {
    ghost use Rattle.std.specs.Prelude.{◌≤◌, length, map};
    ghost use Rattle.wl_geom.specs.Edits.{change_of};
    ghost use Rattle.wl_geom.specs.Region.{Area};

    ghost Value = { Area };

    ghost view = { λ region. record { made = map change_of region.edits.items; changes = length region.edits.items } };

    ghost invariant = { λ region. length region.edits.items ≤ 512 };
}

impl<A: Allocator> Region<A> {
    ghost use Rattle.wl_geom.specs.Region.{Change, HoldsRun, Stands, holds};

    /// How many adds and subtracts were made.
    pub fn changes(&self) -> u32
        ensures { result ≡ self.now.changes }
    {
        self.edits.len() as u32
    }

    fn is_full(&self) -> bool
        ensures { IsTrue result ↔ (self.now.changes ≡ MAX_CHANGES) }
    {
        MAX_CHANGES as usize <= self.edits.len()
    }

    /// Whether the region holds the point (x, y).
    pub fn contains(&self, x: i32, y: i32) -> bool
        ensures { (changes : List Change) → Stands self.now changes → result ≡ holds x y changes }
    {
        is_held(&self.edits, x, y)
    }

    /// Whether the region holds each of the `w` points from (x, y) to (x + w - 1, y). With no
    /// points the answer is yes. A point past the last coordinate isn't held. It takes no memory.
    pub fn covers_run(&self, x: i32, y: i32, w: u32) -> bool
        ensures held { (changes : List Change) → Stands self.now changes → (IsTrue result ↔ HoldsRun x y w changes) }
        ensures made { IsTrue result ↔ HoldsRun x y w self.now.made }
    {
        if i64::from(x) + i64::from(w) > PAST_LAST {
            return false;
        }
        is_run_held(&self.edits, x, y, w)
    }
}

impl<A: Allocator + Copy> Region<A> {
    ghost use Rattle.wl_geom.specs.Region.{AreDisjoint, Change, Covers, Stands};
    ghost use Rattle.wl_geom.specs.Region.Change.{Add, Subtract};

    /// The empty region, without changes. It keeps the allocator.
    pub fn new(alloc: A) -> Self
        ensures { Stands result [] }
    {
        Region {
            edits: Vec::new(alloc),
        }
    }

    /// A region with the same points that counts as many changes.
    ///
    /// The only error is `Memory`.
    pub fn copy(&self) -> Result<Self, RegionError>
        ensures ok { IfOk result (λ copy. copy ≡ self.now) }
        ensures err { IfErr result (λ error. error ≡ RegionError.Memory) }
    {
        Ok(Region {
            edits: self.edits.clone()?,
        })
    }

    /// Disjoint rectangles, in no promised order, that hold the region's points and no others. Each
    /// call makes them anew, in time that grows with the square of their number: for tests and
    /// tools.
    ///
    /// The only error is `Memory`.
    pub fn rects(&self) -> Result<Vec<Rect, A>, RegionError>
        ensures cover { IfOk result (λ rects. (changes : List Change) → Stands self.now changes → Covers rects.items changes) }
        ensures disjoint { IfOk result (λ rects. AreDisjoint rects.items) }
        ensures err { IfErr result (λ error. error ≡ RegionError.Memory) }
    {
        Ok(rects_of(*self.edits.allocator(), &self.edits)?)
    }

    /// Adds the points of the rectangle.
    ///
    /// `TooMany` after 512 changes, else `Memory`; the region is then as it was.
    pub fn add(&mut self, rect: Rect) -> Result<(), RegionError>
        ensures ok { OnOk result ((changes : List Change) → Stands self.old changes → Stands self.new (changes ++ Add rect ∷ [])) }
        ensures too_many { (result ≡ Err RegionError.TooMany) ↔ (self.old.changes ≡ MAX_CHANGES) }
        ensures err { OnErr result (self.new ≡ self.old) }
    {
        self.make(Edit { rect, adds: true })
    }

    /// Takes the points of the rectangle away.
    ///
    /// `TooMany` after 512 changes, else `Memory`; the region is then as it was.
    pub fn subtract(&mut self, rect: Rect) -> Result<(), RegionError>
        ensures ok { OnOk result ((changes : List Change) → Stands self.old changes → Stands self.new (changes ++ Subtract rect ∷ [])) }
        ensures too_many { (result ≡ Err RegionError.TooMany) ↔ (self.old.changes ≡ MAX_CHANGES) }
        ensures err { OnErr result (self.new ≡ self.old) }
    {
        self.make(Edit { rect, adds: false })
    }

    /// Makes one more change.
    fn make(&mut self, edit: Edit) -> Result<(), RegionError>
        ensures ok { OnOk result ((changes : List Change) → Stands self.old changes → Stands self.new (changes ++ change_of edit ∷ [])) }
        ensures too_many { (result ≡ Err RegionError.TooMany) ↔ (self.old.changes ≡ MAX_CHANGES) }
        ensures err { OnErr result (self.new ≡ self.old) }
    {
        if self.is_full() {
            return Err(RegionError::TooMany);
        }
        match self.edits.push(edit) {
            Ok(()) => Ok(()),
            Err(_) => Err(RegionError::Memory),
        }
    }
}
