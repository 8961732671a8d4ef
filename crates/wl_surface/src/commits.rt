//! Commits, modes and ends of links, and the trees that they apply.

ghost use Rattle.std.specs.Prelude.{ℕ, [], ◌≡◌, ◌==◌, ◌&&◌, not, cond, Bool, List, None, Err, count_by, filter, map, IfErr, IfOk, MatchBool, OnErr, OnOk};
ghost use Rattle.wl_links.specs.Family.{HangTogether, links_in, parents_of, stacks_in};
ghost use Rattle.wl_surface.specs.Linked.{IsLink, Stand, numbered};
ghost use Rattle.wl_surface.specs.Room.{HasRoom};
ghost use Rattle.wl_surface.specs.Seen.{AreOf, AreSeen, AreToldMarked};
ghost use Rattle.wl_surface.specs.Whole.{AreWhole};
ghost use Rattle.wl_surface.specs.Tree.{AreAmong, AreOnce, AreShown, IsCommitTold, IsDesyncTold, IsEndTold, IsTold, applied_among, is_among, is_committed, is_released, numbers_of, shown_by, stacks_among};
ghost use Rattle.wl_surface.specs.Told.{TellsNothing};
ghost use Rattle.wl_surface.specs.Kept.{buffer_of};
ghost use Rattle.wl_surface.specs.Request.{Commit};
ghost use Rattle.wl_surface.specs.Surface.{asking};
ghost use Rattle.wl_surface.specs.Applied.{AreFreed, AreGone, is_shown_at};
ghost use Rattle.wl_surface.specs.Slots.{IsAny, Numbered, StandForAll, is_whole_at, shows_at};
ghost use Rattle.wl_surface.specs.Surfaces.{Link, Surfaces as Asked, surface_at, with_change};
ghost use Rattle.wl_surface.specs.Trees.{applied_tree, committed_in, descends_from, destroyed_in, desynchronised_in, ended_in, ending, levels, with_link};
ghost use Rattle.wl_surface.specs.Waiting.{AreWaiting, Callback, frames_at, is_in};
ghost use Rattle.wl_links.specs.Trees.{is_under};

use crate::applied::{Applied, Change};
use crate::content::{Attached, BufferNo};
use crate::error::SurfaceError;
use crate::seen::Seen;
use crate::states::SurfaceNo;
use crate::surfaces::Surfaces;
use crate::tree::{add_freed, apply_each, below, shown_of};
use std::alloc::{AllocError, Allocator};

/// What a call finds before it applies a tree, while nothing has changed yet. These are the tree's
/// surfaces, what is seen of them, the buffers that they show, and room for what is told.
#[derive(Drop)]
pub(crate) struct Room<A: Allocator> {
    pub(crate) below: Vec<SurfaceNo, A>,
    pub(crate) seen: Seen<A>,
    pub(crate) shown: Vec<Attached, A>,
    pub(crate) changes: Vec<Change<A>, A>,
    pub(crate) freed: Vec<BufferNo, A>,
}

impl<A: Allocator + Copy> Surfaces<A> {
    /// wl_surface.commit: the pending state becomes the held one. Unless the surface behaves
    /// synchronised, it is applied with its descendants (wayland.xml, wl_subsurface). The answer is
    /// what that changes, and which buffers were shown before.
    ///
    /// # Errors
    ///
    /// `Size` if the sides of the pending buffer are no multiples of the pending scale. Else
    /// `Memory`. Nothing changes then.
    pub fn commit(&mut self, surface: SurfaceNo) -> Result<Applied<A>, SurfaceError>
        ensures ok { OnOk result ((all : Asked) → Stand self.old.states self.old.family all → Stand self.new.states self.new.family (committed_in surface all)) }
        ensures waits { OnOk result ((all : Asked) (cs : List Callback) → Stand self.old.states self.old.family all → AreWaiting self.old.states.frames (numbered all) cs
            → AreWaiting self.new.states.frames (numbered (committed_in surface all)) cs) }
        ensures changes { IfOk result (λ told. (all : Asked) → Stand self.old.states self.old.family all → IsCommitTold surface all told.changes.items) }
        ensures whole { IfOk result (λ told. (all : Asked) → Stand self.old.states self.old.family all → AreWhole all (committed_in surface all) told.changes.items) }
        ensures freed { IfOk result (λ told. (all : Asked) → Stand self.old.states self.old.family all
            → AreFreed told.freed.items (numbered all) (numbered (committed_in surface all))) }
        ensures shown { IfOk result (λ told. (all : Asked) → Stand self.old.states self.old.family all
            → AreShown (is_committed surface all) all (map buffer_of told.shown.items)) }
        ensures among { IfOk result (λ told. AreAmong told.freed.items (map buffer_of told.shown.items)) }
        ensures callbacks { IfOk result (λ told. told.callbacks.items ≡ []) }
        ensures err { OnErr result (self.new ≡ self.old) }
        ensures cause { (all : Asked) → Stand self.old.states self.old.family all → MatchBool (is_whole_at (surface_at surface all)) (IfErr result (λ e. e ≡ SurfaceError.Memory)) (result ≡ Err SurfaceError.Size) }
    {
        if !self.is_whole(surface) {
            return Err(SurfaceError::Size);
        }
        if self.behaves_synchronised(surface) {
            return self.hold(surface);
        }
        self.commit_now(surface)
    }

    /// Commits a surface that behaves synchronised: its state is held.
    fn hold(&mut self, surface: SurfaceNo) -> Result<Applied<A>, SurfaceError>
        ensures ok { OnOk result ((all : Asked) → Stand self.old.states self.old.family all → Stand self.new.states self.new.family (with_change surface (asking Commit) all)) }
        ensures waits { OnOk result ((all : Asked) (cs : List Callback) → Stand self.old.states self.old.family all → AreWaiting self.old.states.frames (numbered all) cs
            → AreWaiting self.new.states.frames (numbered (with_change surface (asking Commit) all)) cs) }
        ensures changes { IfOk result (λ told. told.changes.items ≡ []) }
        ensures freed { IfOk result (λ told. (all : Asked) → Stand self.old.states self.old.family all
            → AreFreed told.freed.items (numbered all) (numbered (with_change surface (asking Commit) all))) }
        ensures shown { IfOk result (λ told. (all : Asked) → Stand self.old.states self.old.family all → AreShown (λ n. n == surface) all (map buffer_of told.shown.items)) }
        ensures among { IfOk result (λ told. AreAmong told.freed.items (map buffer_of told.shown.items)) }
        ensures callbacks { IfOk result (λ told. told.callbacks.items ≡ []) }
        ensures err { OnErr result (self.new ≡ self.old) }
        ensures cause { IfErr result (λ e. e ≡ SurfaceError.Memory) }
    {
        let alloc = self.alloc;
        let shown = shown_of(&self.states, &[surface], alloc)?;
        let mut freed = Vec::with_capacity(alloc, shown.len())?;
        self.states.hold(surface)?;
        self.family.hold(surface);
        add_freed(&self.states, &shown, &mut freed);
        Ok(Applied {
            changes: Vec::new(alloc),
            freed,
            callbacks: Vec::new(alloc),
            shown,
        })
    }

    /// Commits a surface that doesn't: its state is applied, and its tree's.
    fn commit_now(&mut self, surface: SurfaceNo) -> Result<Applied<A>, SurfaceError>
        ensures ok { OnOk result ((all : Asked) → Stand self.old.states self.old.family all
            → Stand self.new.states self.new.family (applied_tree levels surface (with_change surface (asking Commit) all))) }
        ensures waits { OnOk result ((all : Asked) (cs : List Callback) → Stand self.old.states self.old.family all → AreWaiting self.old.states.frames (numbered all) cs
            → AreWaiting self.new.states.frames (numbered (applied_tree levels surface (with_change surface (asking Commit) all))) cs) }
        ensures changes { IfOk result (λ told. (all : Asked) → Stand self.old.states self.old.family all
            → IsTold surface (with_change surface (asking Commit) all) told.changes.items) }
        ensures whole { IfOk result (λ told. (all : Asked) → Stand self.old.states self.old.family all → AreWhole all (applied_tree levels surface (with_change surface (asking Commit) all)) told.changes.items) }
        ensures freed { IfOk result (λ told. (all : Asked) → Stand self.old.states self.old.family all
            → AreFreed told.freed.items (numbered all) (numbered (applied_tree levels surface (with_change surface (asking Commit) all)))) }
        ensures shown { IfOk result (λ told. (all : Asked) → Stand self.old.states self.old.family all
            → AreShown (descends_from 16 all surface) all (map buffer_of told.shown.items)) }
        ensures among { IfOk result (λ told. AreAmong told.freed.items (map buffer_of told.shown.items)) }
        ensures callbacks { IfOk result (λ told. told.callbacks.items ≡ []) }
        ensures err { OnErr result (self.new ≡ self.old) }
        ensures cause { IfErr result (λ e. e ≡ SurfaceError.Memory) }
    {
        let room = self.room(surface, Vec::new(self.alloc))?;
        self.states.hold(surface)?;
        self.family.hold(surface);
        Ok(self.apply_tree(room))
    }

    /// wl_subsurface.set_desync: the child's commits are applied at once, unless a surface above it
    /// is synchronised. If the child behaved synchronised and doesn't any more, its held state is
    /// applied. Without a link nothing changes and nothing is told.
    ///
    /// # Errors
    ///
    /// `Memory`. Nothing changes then.
    pub fn set_desync(&mut self, child: SurfaceNo) -> Result<Applied<A>, SurfaceError>
        ensures ok { OnOk result ((all : Asked) (number : ℕ) (link : Link) → IsLink all number child link → Stand self.old.states self.old.family all
            → Stand self.new.states self.new.family (desynchronised_in number all)) }
        ensures waits { OnOk result ((all : Asked) (number : ℕ) (link : Link) (cs : List Callback) → IsLink all number child link → Stand self.old.states self.old.family all
            → AreWaiting self.old.states.frames (numbered all) cs → AreWaiting self.new.states.frames (numbered (desynchronised_in number all)) cs) }
        ensures changes { IfOk result (λ told. (all : Asked) (number : ℕ) (link : Link) → IsLink all number child link → Stand self.old.states self.old.family all
            → IsDesyncTold number child all told.changes.items) }
        ensures whole { IfOk result (λ told. (all : Asked) (number : ℕ) (link : Link) → IsLink all number child link → Stand self.old.states self.old.family all → AreWhole all (desynchronised_in number all) told.changes.items) }
        ensures freed { IfOk result (λ told. (all : Asked) (number : ℕ) (link : Link) → IsLink all number child link → Stand self.old.states self.old.family all
            → AreFreed told.freed.items (numbered all) (numbered (desynchronised_in number all))) }
        ensures shown { IfOk result (λ told. (all : Asked) (number : ℕ) (link : Link) → IsLink all number child link → Stand self.old.states self.old.family all
            → AreShown (is_released number child all) all (map buffer_of told.shown.items)) }
        ensures among { IfOk result (λ told. AreAmong told.freed.items (map buffer_of told.shown.items)) }
        ensures callbacks { IfOk result (λ told. told.callbacks.items ≡ []) }
        ensures none { links_in self.old.family child ≡ None → OnOk result (self.new ≡ self.old) }
        ensures silent { links_in self.old.family child ≡ None → IfOk result TellsNothing }
        ensures err { OnErr result (self.new ≡ self.old) }
        ensures cause { IfErr result (λ e. e ≡ SurfaceError.Memory) }
    {
        if self.link(child).is_none() {
            return Ok(self.nothing());
        }
        let was_synchronised = self.behaves_synchronised(child);
        let room = self.room(child, Vec::new(self.alloc))?;
        self.family.set_synchronised(child, false);
        let is_synchronised = self.family.behaves_synchronised(child);
        if was_synchronised && !is_synchronised {
            return Ok(self.apply_tree(room));
        }
        Ok(self.nothing())
    }

    /// wl_subsurface.destroy: the link of the child ends, and the child is applied with its
    /// descendants. Without a link nothing changes and nothing is told.
    ///
    /// # Errors
    ///
    /// `Memory`. Nothing changes then.
    pub fn remove_subsurface(&mut self, child: SurfaceNo) -> Result<Applied<A>, SurfaceError>
        ensures ok { OnOk result ((all : Asked) (number : ℕ) (link : Link) → IsLink all number child link → Stand self.old.states self.old.family all
            → Stand self.new.states self.new.family (ended_in all link)) }
        ensures waits { OnOk result ((all : Asked) (number : ℕ) (link : Link) (cs : List Callback) → IsLink all number child link → Stand self.old.states self.old.family all
            → AreWaiting self.old.states.frames (numbered all) cs → AreWaiting self.new.states.frames (numbered (ended_in all link)) cs) }
        ensures changes { IfOk result (λ told. (all : Asked) (number : ℕ) (link : Link) → IsLink all number child link → Stand self.old.states self.old.family all
            → IsTold child (with_link number ending all) told.changes.items) }
        ensures whole { IfOk result (λ told. (all : Asked) (number : ℕ) (link : Link) → IsLink all number child link → Stand self.old.states self.old.family all → AreWhole all (ended_in all link) told.changes.items) }
        ensures freed { IfOk result (λ told. (all : Asked) (number : ℕ) (link : Link) → IsLink all number child link → Stand self.old.states self.old.family all
            → AreFreed told.freed.items (numbered all) (numbered (ended_in all link))) }
        ensures shown { IfOk result (λ told. (all : Asked) (number : ℕ) (link : Link) → IsLink all number child link → Stand self.old.states self.old.family all
            → AreShown (descends_from 16 all child) all (map buffer_of told.shown.items)) }
        ensures among { IfOk result (λ told. AreAmong told.freed.items (map buffer_of told.shown.items)) }
        ensures callbacks { IfOk result (λ told. told.callbacks.items ≡ []) }
        ensures none { links_in self.old.family child ≡ None → OnOk result (self.new ≡ self.old) }
        ensures silent { links_in self.old.family child ≡ None → IfOk result TellsNothing }
        ensures err { OnErr result (self.new ≡ self.old) }
        ensures cause { IfErr result (λ e. e ≡ SurfaceError.Memory) }
    {
        if self.link(child).is_none() {
            return Ok(self.nothing());
        }
        let room = self.room(child, Vec::new(self.alloc))?;
        self.family.leave(child);
        Ok(self.apply_tree(room))
    }

    /// wl_surface.destroy: the surface goes with its frame requests. Its links end, to its parent
    /// and to its children. Its descendants are applied.
    ///
    /// # Errors
    ///
    /// `Memory`. Nothing changes then.
    pub fn destroy(&mut self, surface: SurfaceNo) -> Result<Applied<A>, SurfaceError>
        ensures ok { OnOk result ((all : Asked) → Stand self.old.states self.old.family all → Stand self.new.states self.new.family (destroyed_in surface all)) }
        ensures waits { OnOk result ((all : Asked) (cs : List Callback) → Stand self.old.states self.old.family all → AreWaiting self.old.states.frames (numbered all) cs
            → AreWaiting self.new.states.frames (numbered (destroyed_in surface all)) (filter (λ c. not (is_in (frames_at (surface_at surface all)) c)) cs)) }
        ensures changes { IfOk result (λ told. (all : Asked) → Stand self.old.states self.old.family all → IsEndTold surface all told.changes.items) }
        ensures whole { IfOk result (λ told. (all : Asked) → Stand self.old.states self.old.family all → AreWhole all (destroyed_in surface all) told.changes.items) }
        ensures freed { IfOk result (λ told. (all : Asked) → Stand self.old.states self.old.family all
            → AreFreed told.freed.items (numbered all) (numbered (destroyed_in surface all))) }
        ensures shown { IfOk result (λ told. (all : Asked) → Stand self.old.states self.old.family all
            → AreShown (descends_from 16 all surface) all (map buffer_of told.shown.items)) }
        ensures among { IfOk result (λ told. AreAmong told.freed.items (map buffer_of told.shown.items)) }
        ensures callbacks { IfOk result (λ told. (all : Asked) (cs : List Callback) → AreWaiting self.old.states.frames (numbered all) cs
            → told.callbacks.items ≡ map (λ (c : Callback). c.id) (filter (is_in (frames_at (surface_at surface all))) cs)) }
        ensures err { OnErr result (self.new ≡ self.old) }
        ensures cause { IfErr result (λ e. e ≡ SurfaceError.Memory) }
    {
        let own = self.own_end(surface)?;
        let room = self.room(surface, own)?;
        let callbacks = self.states.destroy(surface)?;
        self.family.remove(surface);
        let applied = self.apply_tree(room);
        Ok(Applied {
            changes: applied.changes,
            freed: applied.freed,
            callbacks,
            shown: applied.shown,
        })
    }

    /// An answer that tells nothing.
    fn nothing(&self) -> Applied<A>
        ensures changes { result.changes.items ≡ [] }
        ensures freed { result.freed.items ≡ [] }
        ensures callbacks { result.callbacks.items ≡ [] }
        ensures shown { result.shown.items ≡ [] }
    {
        Applied {
            changes: Vec::new(self.alloc),
            freed: Vec::new(self.alloc),
            callbacks: Vec::new(self.alloc),
            shown: Vec::new(self.alloc),
        }
    }

    /// Whether a surface shows a buffer.
    pub(crate) fn is_shown(&self, surface: SurfaceNo) -> bool
        ensures { (all : Numbered) → StandForAll self.now.states all → result ≡ is_shown_at (all surface) }
    {
        match self.current(surface) {
            Some(current) => current.buffer.is_some(),
            None => false,
        }
    }

    /// What a surface that goes changes: it shows no buffer any more.
    fn own_end(&self, surface: SurfaceNo) -> Result<Vec<Change<A>, A>, AllocError>
        ensures { IfOk result (λ changes. (all : Numbered) → StandForAll self.now.states all → AreGone surface (all surface) changes.items) }
    {
        let mut changes = Vec::new(self.alloc);
        if self.is_shown(surface) {
            changes.push(Change {
                surface,
                whole: false,
                rects: Vec::new(self.alloc),
            })?;
        }
        Ok(changes)
    }

    /// Makes room to tell of the surface and its descendants, behind what was told before.
    fn room(&self, surface: SurfaceNo, told: Vec<Change<A>, A>) -> Result<Room<A>, AllocError>
        ensures those { IfOk result (λ room. (number : ℕ) → is_among room.below.items number ≡ is_under 16 (parents_of (links_in self.now.family)) surface number) }
        ensures once { IfOk result (λ room. AreOnce room.below.items) }
        ensures shown { IfOk result (λ room. (all : Numbered) → StandForAll self.now.states all → map buffer_of room.shown.items ≡ shown_by room.below.items all) }
        ensures told { IfOk result (λ room. room.changes.items ≡ told.items) }
        ensures room { IfOk result HasRoom }
        ensures seen { IfOk result (λ room. (all : Asked) → Stand self.now.states self.now.family all → AreSeen all room.below.items room.seen.looks.items room.seen.order.items) }
        ensures hang { HangTogether self.now.family }
    {
        let below = below(&self.family, surface, self.alloc)?;
        let seen = self.see(surface, &below)?;
        let shown = shown_of(&self.states, &below, self.alloc)?;
        let mut changes = told;
        changes.reserve(below.len())?;
        let freed = Vec::with_capacity(self.alloc, shown.len())?;
        Ok(Room {
            below,
            seen,
            shown,
            changes,
            freed,
        })
    }

    /// Applies these surfaces, and tells what that changes.
    fn apply_tree(&mut self, room: Room<A>) -> Applied<A>
        requires room { HasRoom room }
        ensures stand { (all : Numbered) → StandForAll self.old.states all → StandForAll self.new.states (applied_among room.below.items all) }
        ensures waits { (all : Numbered) (cs : List Callback) → AreWaiting self.old.states.frames all cs
            → AreWaiting self.new.states.frames (applied_among room.below.items all) cs }
        ensures told { (all : Numbered) → StandForAll self.old.states all → AreOnce room.below.items → AreToldMarked room.changes.items room.below.items all result.changes.items }
        ensures whole { (old new : Asked) (all : Numbered) → StandForAll self.old.states all → AreOnce room.below.items → AreOf room.below.items room.changes.items
            → AreSeen old room.below.items room.seen.looks.items room.seen.order.items → Stand self.new.states self.new.family new → AreWhole old new result.changes.items }
        ensures freed { (all : Numbered) → StandForAll self.new.states all → (buffer : ℕ) (is : Bool) → IsAny (shows_at buffer) all is
            → count_by (λ n. n == buffer) result.freed.items ≡ cond (is_among (numbers_of (map buffer_of room.shown.items)) buffer && not is) 1 0 }
        ensures shown { result.shown.items ≡ room.shown.items }
        ensures among { AreAmong result.freed.items (map buffer_of result.shown.items) }
        ensures callbacks { result.callbacks.items ≡ [] }
        ensures links { links_in self.new.family ≡ links_in self.old.family }
        ensures places { self.new.family.places ≡ self.old.family.places }
        ensures stacks { stacks_in self.new.family ≡ stacks_among room.below.items (stacks_in self.old.family) }
    {
        let mut changes = room.changes;
        let mut freed = room.freed;
        apply_each(
            &mut self.states,
            &mut self.family,
            &room.below,
            &mut changes,
        );
        add_freed(&self.states, &room.shown, &mut freed);
        self.mark_all(&room.seen, &mut changes);
        Applied {
            changes,
            freed,
            callbacks: Vec::new(self.alloc),
            shown: room.shown,
        }
    }
}
