//! What is seen of surfaces before a call changes them, and which of them it changes as a whole.

ghost use Rattle.std.specs.Prelude.{◌≡◌, ◌==◌, true, IfOk, List, Option, Some, find, fold, flat_map, map};
ghost use Rattle.wl_links.specs.Family.{links_in, parents_of, root_by};
ghost use Rattle.wl_surface.specs.Linked.{Stand};
ghost use Rattle.wl_surface.specs.Seen.{AreOf, AreSeen, IsCompared, looked_at, met, seen_of, unmarked, windows_at};
ghost use Rattle.wl_surface.specs.Surfaces.{Surfaces as Asked};
ghost use Rattle.wl_surface.specs.Tree.{is_among};
ghost use Rattle.wl_surface.specs.Whole.{AreWhole, is_same_look, is_same_order, is_whole, look_of, order_of, windows};
ghost use Rattle.std.specs.Prelude.{ℕ};

use crate::applied::Change;
use crate::look::{LEVELS, Look, is_same_look};
use crate::states::SurfaceNo;
use crate::surfaces::Surfaces;
use std::alloc::{AllocError, Allocator};
use wl_links::{Member, Placed};

/// The look of a surface, `None` if it wasn't there.
#[derive(Clone, Copy, Debug)]
pub(crate) struct Looked {
    pub(crate) surface: SurfaceNo,
    pub(crate) look: Option<Look>,
}

/// The looks of the surfaces that a call may change, and the windows of their tree from below.
#[derive(Drop)]
pub(crate) struct Seen<A: Allocator> {
    pub(crate) looks: Vec<Looked, A>,
    pub(crate) order: Vec<SurfaceNo, A>,
}

/// Whether the tree of this root has the windows in the order that was seen.
#[derive(Clone, Copy, Debug)]
pub(crate) struct Compared {
    pub(crate) root: SurfaceNo,
    pub(crate) is_same: bool,
}

/// What was seen of a surface.
fn looked_of(looks: &[Looked], surface: SurfaceNo) -> Option<Looked>
    ensures { result ≡ find (λ (l : Looked). l.surface == surface) looks.now }
{
    looks
        .iter()
        .copied()
        .find(|looked| looked.surface == surface)
}

/// The look that was seen of a surface.
fn seen_of(looks: &[Looked], surface: SurfaceNo) -> Option<Look>
    ensures { result ≡ seen_of looks.now surface }
{
    match looked_of(looks, surface) {
        None => None,
        Some(looked) => looked.look,
    }
}

/// The look that was seen of a surface, which is looked for at this index first.
fn seen_at(looks: &[Looked], index: usize, surface: SurfaceNo) -> Option<Look>
    ensures { (all : Asked) (surfaces : List ℕ) → looks.now ≡ map (looked_at all) surfaces → is_among surfaces surface ≡ true → result ≡ look_of all surface }
{
    if index < looks.len() && looks[index].surface == surface {
        return looks[index].look;
    }
    seen_of(looks, surface)
}

/// Goes on in an order of which this many were met. `None` means that another surface is next.
fn meet(order: &[SurfaceNo], count: Option<usize>, surface: SurfaceNo) -> Option<usize>
    ensures { result ≡ met order.now count surface }
{
    let count = count?;
    if count < order.len() && order[count] == surface {
        Some(count + 1)
    } else {
        None
    }
}

/// Meets the windows of what stands at one place in the stack of a surface.
#[cycle(meet)]
fn meet_placed<A: Allocator + Copy>(
    surfaces: &Surfaces<A>,
    levels: u8,
    surface: SurfaceNo,
    placed: &Placed,
    order: &[SurfaceNo],
    count: Option<usize>,
) -> Option<usize>
    ensures { (all : Asked) → Stand surfaces.now.states surfaces.now.family all
        → result ≡ fold (met order.now) count (windows_at levels all surface placed.now) }
{
    match placed.member {
        Member::Itself => meet(order, count, surface),
        Member::Child(child) => meet_windows(surfaces, levels, child, order, count),
    }
}

/// Meets the windows of what stands in the stack of a surface, from below.
#[cycle(meet)]
fn meet_stack<A: Allocator + Copy>(
    surfaces: &Surfaces<A>,
    levels: u8,
    surface: SurfaceNo,
    stack: &[Placed],
    order: &[SurfaceNo],
    count: Option<usize>,
) -> Option<usize>
    ensures { (all : Asked) → Stand surfaces.now.states surfaces.now.family all
        → result ≡ fold (met order.now) count (flat_map (windows_at levels all surface) stack.now) }
{
    let mut met = count;
    for placed in stack {
        met = meet_placed(surfaces, levels, surface, placed, order, met);
    }
    met
}

/// Meets the windows of a tree from below, down to this many levels.
#[cycle(meet)]
fn meet_windows<A: Allocator + Copy>(
    surfaces: &Surfaces<A>,
    levels: u8,
    surface: SurfaceNo,
    order: &[SurfaceNo],
    count: Option<usize>,
) -> Option<usize>
    ensures { (all : Asked) → Stand surfaces.now.states surfaces.now.family all
        → result ≡ fold (met order.now) count (windows levels all surface) }
{
    if levels == 0 {
        return count;
    }
    if !surfaces.is_shown(surface) {
        return count;
    }
    let stack = surfaces.stack(surface);
    if stack.is_empty() {
        return meet(order, count, surface);
    }
    meet_stack(surfaces, levels - 1, surface, stack, order, count)
}

impl<A: Allocator + Copy> Surfaces<A> {
    /// Whether the tree of a root has its windows in this order.
    fn has_order(&self, root: SurfaceNo, order: &[SurfaceNo]) -> bool
        ensures { (all : Asked) → Stand self.now.states self.now.family all → result ≡ is_same_order order.now (windows 17 all root) }
    {
        match meet_windows(self, LEVELS, root, order, Some(0)) {
            None => false,
            Some(count) => count == order.len(),
        }
    }

    /// Compares the tree of a root with this order.
    fn compare_tree(&self, root: SurfaceNo, order: &[SurfaceNo]) -> Compared
        ensures root { result.root ≡ root }
        ensures same { (all : Asked) → Stand self.now.states self.now.family all → IsCompared order.now all (Some result) }
    {
        let is_same = self.has_order(root, order);
        Compared { root, is_same }
    }

    /// Compares the tree that a surface is in with this order, unless it was the last one.
    fn compare(&self, last: Option<Compared>, surface: SurfaceNo, order: &[SurfaceNo]) -> Compared
        ensures root { result.root ≡ root_by 16 (parents_of (links_in self.now.family)) surface }
        ensures same { (all : Asked) → Stand self.now.states self.now.family all → IsCompared order.now all last → IsCompared order.now all (Some result) }
    {
        let root = self.root(surface);
        let Some(last) = last else {
            return self.compare_tree(root, order);
        };
        if last.root == root {
            return last;
        }
        self.compare_tree(root, order)
    }

    /// The looks of these surfaces.
    fn looks(&self, surfaces: &[SurfaceNo]) -> Result<Vec<Looked, A>, AllocError>
        ensures { IfOk result (λ looks. (all : Asked) → Stand self.now.states self.now.family all → looks.items ≡ map (looked_at all) surfaces.now) }
    {
        let mut looks = Vec::new(self.alloc);
        for surface in surfaces {
            let look = self.look(*surface);
            looks.push(Looked {
                surface: *surface,
                look,
            })?;
        }
        Ok(looks)
    }

    /// What is seen of a surface and of those that descend from it.
    pub(crate) fn see(&self, surface: SurfaceNo, below: &[SurfaceNo]) -> Result<Seen<A>, AllocError>
        ensures looks { IfOk result (λ seen. (all : Asked) → Stand self.now.states self.now.family all → seen.looks.items ≡ map (looked_at all) below.now) }
        ensures order { IfOk result (λ seen. (all : Asked) → Stand self.now.states self.now.family all → seen.order.items ≡ order_of all surface) }
    {
        let looks = self.looks(below)?;
        let order = self.order(surface, self.alloc)?;
        Ok(Seen { looks, order })
    }

    /// Whether a surface has the look that was seen of it, which is looked for at this index first.
    fn has_same_look(&self, looks: &[Looked], index: usize, surface: SurfaceNo) -> bool
        ensures { (old new : Asked) (surfaces : List ℕ) → looks.now ≡ map (looked_at old) surfaces → Stand self.now.states self.now.family new
            → is_among surfaces surface ≡ true → result ≡ is_same_look (look_of old surface) (look_of new surface) }
    {
        let was = seen_at(looks, index, surface);
        let is = self.look(surface);
        is_same_look(&was, &is)
    }

    /// Whether a surface has changed as a whole since it was seen: its tree has another order, or
    /// it has another look.
    fn is_whole_since(
        &self,
        looks: &[Looked],
        index: usize,
        is_ordered: bool,
        surface: SurfaceNo,
    ) -> bool
        ensures { (old new : Asked) (surfaces order : List ℕ) → AreSeen old surfaces looks.now order → Stand self.now.states self.now.family new
            → is_among surfaces surface ≡ true → is_ordered ≡ is_same_order order (order_of new surface) → result ≡ is_whole old new surface }
    {
        if !is_ordered {
            return true;
        }
        !self.has_same_look(looks, index, surface)
    }

    /// Says of each change whether its surface has changed as a whole since it was seen.
    fn mark(&self, looks: &[Looked], order: &[SurfaceNo], changes: &mut [Change<A>])
        ensures kept { map unmarked changes.new ≡ map unmarked changes.old }
        ensures whole { (old new : Asked) (surfaces : List ℕ) → AreSeen old surfaces looks.now order.now → Stand self.now.states self.now.family new
            → AreOf surfaces changes.old → AreWhole old new changes.new }
    {
        let mut last = None;
        let mut index = 0_usize;
        for change in changes.iter_mut() {
            let compared = self.compare(last, change.surface, order);
            let whole = self.is_whole_since(looks, index, compared.is_same, change.surface);
            change.whole = whole;
            last = Some(compared);
            index = index.wrapping_add(1);
        }
    }

    /// The same of all that is told.
    pub(crate) fn mark_all(&self, seen: &Seen<A>, changes: &mut Vec<Change<A>, A>)
        ensures kept { map unmarked changes.new.items ≡ map unmarked changes.old.items }
        ensures whole { (old new : Asked) (surfaces : List ℕ) → AreSeen old surfaces seen.now.looks.items seen.now.order.items → Stand self.now.states self.now.family new
            → AreOf surfaces changes.old.items → AreWhole old new changes.new.items }
    {
        self.mark(&seen.looks, &seen.order, changes);
    }
}
