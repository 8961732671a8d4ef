//! What of the output is marked to be painted again.

ghost use Rattle.std.specs.Prelude.{ℕ, ◌≡◌, ◌<◌, ◌||◌, Some, map, pos};
ghost use Rattle.std.specs.List.{list_any};
ghost use Rattle.wl_scene.specs.Marking.{AddsPoints, IsAsLarge};
ghost use Rattle.wl_paint.specs.Damage.{has};
ghost use Rattle.wl_scene.specs.Repaint.{AreTogether, window_has};
ghost use Rattle.wl_clients.specs.Gone.{is_tree_at, tree_has};
ghost use Rattle.wl_clients.specs.Screens.{AreToldIf, changes_in, has_own, is_own_at, run_kept, turned_if};
ghost use Rattle.wl_clients.specs.Staying.{marks_moved};

use crate::screen::screens::Screen;
use crate::screen::staying::mark_moved;
use spec_desktop::ClientNo;
use std::alloc::Allocator;
use wl_paint::Damage;
use wl_requests::Stacking;
use wl_scene::{Stacked, mark_windows};
use wl_surface::{Applied, Change, SurfaceNo};

/// What was applied to surfaces, if something was.
fn changes_of<A: Allocator>(applied: &Option<Applied<A>>) -> &[Change<A>]
    ensures { result.now ≡ changes_in applied.now }
{
    match applied {
        Some(applied) => &applied.changes,
        None => &[],
    }
}

/// Marks all points of a window, if it is this client's.
fn mark_one<A: Allocator>(damage: &mut Damage<A>, stacked: &Stacked, client: ClientNo)
    ensures points { (x y : ℕ) → x < damage.old.width → y < damage.old.height
        → has damage.new x y ≡ (has damage.old x y || is_own_at client (pos x) (pos y) stacked.now) }
    ensures sides { IsAsLarge damage.old damage.new }
{
    if stacked.client == client {
        mark_windows(damage, &[stacked.window]);
    }
}

/// Marks all points of those of these windows that are this client's.
fn mark_own<A: Allocator>(damage: &mut Damage<A>, windows: &[Stacked], client: ClientNo)
    ensures points { (x y : ℕ) → x < damage.old.width → y < damage.old.height
        → has damage.new x y ≡ (has damage.old x y || has_own client (pos x) (pos y) windows.now) }
    ensures sides { IsAsLarge damage.old damage.new }
{
    for stacked in windows {
        mark_one(damage, stacked, client);
    }
}

/// Marks all points of a window, if it is of the tree of this root of the client.
fn mark_rooted<A: Allocator>(
    damage: &mut Damage<A>,
    stacked: &Stacked,
    client: ClientNo,
    root: SurfaceNo,
)
    ensures points { (x y : ℕ) → x < damage.old.width → y < damage.old.height
        → has damage.new x y ≡ (has damage.old x y || is_tree_at client root (pos x) (pos y) stacked.now) }
    ensures sides { IsAsLarge damage.old damage.new }
{
    if stacked.client == client && stacked.window.root == root {
        mark_windows(damage, &[stacked.window]);
    }
}

/// Marks all points of those of these windows that are of the tree of this root of the client.
fn mark_all_rooted<A: Allocator>(
    damage: &mut Damage<A>,
    windows: &[Stacked],
    client: ClientNo,
    root: SurfaceNo,
)
    ensures points { (x y : ℕ) → x < damage.old.width → y < damage.old.height
        → has damage.new x y ≡ (has damage.old x y || tree_has client root (pos x) (pos y) windows.now) }
    ensures sides { IsAsLarge damage.old damage.new }
{
    for stacked in windows {
        mark_rooted(damage, stacked, client, root);
    }
}

/// Marks all points of these windows.
fn mark_kept<A: Allocator>(damage: &mut Damage<A>, windows: &[Stacked])
    ensures points { (x y : ℕ) → x < damage.old.width → y < damage.old.height
        → has damage.new x y ≡ (has damage.old x y || list_any (window_has (pos x) (pos y)) (map (λ s. s.window) windows.now)) }
    ensures sides { IsAsLarge damage.old damage.new }
{
    for stacked in windows {
        mark_windows(damage, &[stacked.window]);
    }
}

impl<A: Allocator + Copy> Screen<A> {
    /// Marks all points of the windows of a client.
    pub(crate) fn mark_client(&mut self, client: ClientNo)
        ensures points { (x y : ℕ) → x < self.old.damage.width → y < self.old.damage.height
            → has self.new.damage x y ≡ (has self.old.damage x y || has_own client (pos x) (pos y) self.old.stacked.windows) }
        ensures sides { IsAsLarge self.old.damage self.new.damage }
        ensures scene { self.new.scene ≡ self.old.scene }
        ensures stacked { self.new.stacked ≡ self.old.stacked }
        ensures spare { self.new.spare ≡ self.old.spare }
    {
        mark_own(&mut self.damage, self.stacked.windows(), client);
    }

    /// Marks all points of the windows of the tree of this root of a client.
    pub(crate) fn mark_tree(&mut self, client: ClientNo, root: SurfaceNo)
        ensures points { (x y : ℕ) → x < self.old.damage.width → y < self.old.damage.height
            → has self.new.damage x y ≡ (has self.old.damage x y || tree_has client root (pos x) (pos y) self.old.stacked.windows) }
        ensures sides { IsAsLarge self.old.damage self.new.damage }
        ensures scene { self.new.scene ≡ self.old.scene }
        ensures stacked { self.new.stacked ≡ self.old.stacked }
    {
        mark_all_rooted(&mut self.damage, self.stacked.windows(), client, root);
    }

    /// Marks all points of the windows that the toplevel has after a message.
    pub(crate) fn mark_new(&mut self)
        ensures points { (x y : ℕ) → x < self.old.damage.width → y < self.old.damage.height
            → has self.new.damage x y ≡ (has self.old.damage x y || list_any (window_has (pos x) (pos y)) self.old.spare.is.items) }
        ensures sides { IsAsLarge self.old.damage self.new.damage }
        ensures scene { self.new.scene ≡ self.old.scene }
        ensures stacked { self.new.stacked ≡ self.old.stacked }
    {
        mark_windows(&mut self.damage, &self.spare.is);
    }

    /// Marks what a message changed of a toplevel's windows (wayland.xml, wl_surface.damage and
    /// wl_subsurface; xdg-shell.xml, xdg_popup). It goes by the windows before and after, and by
    /// what the message applied to surfaces. Where windows of one tree moved, those are marked, and
    /// what is damaged of the others; else it goes tree by tree.
    fn mark_changed(&mut self, applied: &Option<Applied<A>>)
        ensures points { AreTogether self.old.spare.was.items → AreTogether self.old.spare.is.items
            → AddsPoints (marks_moved self.old.spare.was.items self.old.spare.is.items (changes_in applied.now)) self.old.damage self.new.damage }
        ensures sides { IsAsLarge self.old.damage self.new.damage }
        ensures scene { self.new.scene ≡ self.old.scene }
        ensures stacked { self.new.stacked ≡ self.old.stacked }
        ensures spare { self.new.spare ≡ self.old.spare }
    {
        let changes = changes_of(applied);
        mark_moved(&mut self.damage, &self.spare.was, &self.spare.is, changes);
    }

    /// Marks all points of the windows that are kept of this toplevel.
    pub(crate) fn mark_gone(&mut self, client: ClientNo, toplevel: SurfaceNo)
        ensures points { (x y : ℕ) → x < self.old.damage.width → y < self.old.damage.height
            → has self.new.damage x y ≡ (has self.old.damage x y || list_any (window_has (pos x) (pos y)) (run_kept client (Some toplevel) self.old.stacked.windows)) }
        ensures sides { IsAsLarge self.old.damage self.new.damage }
        ensures scene { self.new.scene ≡ self.old.scene }
        ensures stacked { self.new.stacked ≡ self.old.stacked }
        ensures spare { self.new.spare ≡ self.old.spare }
    {
        mark_kept(&mut self.damage, self.stacked.run(client, toplevel));
    }

    /// Marks what a message changes of this toplevel's windows, if there is one. If the toplevel
    /// goes, that is all of those kept of it.
    pub(crate) fn mark_turned(
        &mut self,
        client: ClientNo,
        toplevel: Option<SurfaceNo>,
        stacking: Stacking,
        applied: &Option<Applied<A>>,
    )
        ensures points { AreToldIf toplevel stacking self.old.spare.was.items self.old.spare.is.items
            → AddsPoints (turned_if toplevel stacking (run_kept client toplevel self.old.stacked.windows) self.old.spare.was.items self.old.spare.is.items (changes_in applied.now))
            self.old.damage self.new.damage }
        ensures sides { IsAsLarge self.old.damage self.new.damage }
        ensures scene { self.new.scene ≡ self.old.scene }
        ensures stacked { self.new.stacked ≡ self.old.stacked }
        ensures spare { self.new.spare ≡ self.old.spare }
    {
        let Some(toplevel) = toplevel else {
            return;
        };
        match stacking {
            Stacking::Out(_) => self.mark_gone(client, toplevel),
            Stacking::Stays | Stacking::ToTop(_) => self.mark_changed(applied),
        }
    }
}
