//! Moves a toplevel with its windows and those of its popups.

ghost use Rattle.std.specs.Prelude.{◌≡◌, ◌≤◌, ◌+ℤ◌, length};
ghost use Rattle.wl_scene.specs.Marking.{IsAsLarge};
ghost use Rattle.wl_scene.specs.Roots.{HasRole, IsHeld};
ghost use Rattle.wl_shell.specs.InOrder.{AreRising};
ghost use Rattle.wl_surface.specs.State.{within_bounds};
ghost use Rattle.wl_scene.specs.Stacked.{replaced, run_of};
ghost use Rattle.spec_desktop.specs.Stacking.{Owned as Owns, moved_to};
ghost use Rattle.spec_desktop.specs.Windows.{Owner};
ghost use Rattle.wl_shell.specs.Popups.{popups_of};
ghost use Rattle.wl_clients.specs.Moving.{IsMoved, MarksMoved, MarksMovedMost};
ghost use Rattle.wl_clients.specs.Runs.{MarksRuns, run_told, trees_at};
ghost use Rattle.wl_clients.specs.Seats.{opened_kept};

use crate::screen::run::Run;
use crate::screen::screens::{Screen, toplevel_of};
use law_windows::runs::moves_are_marked;
use spec_desktop::ClientNo;
use std::alloc::{AllocError, Allocator};
use wl_paint::Damage;
use wl_requests::Resident;
use wl_scene::{Owned, Surface, TreeWindow, mark_trees};
use wl_surface::{Change, SurfaceNo, held};

/// The windows of a toplevel before it is moved and after.
#[derive(Drop)]
pub(crate) struct Moving<A: Allocator> {
    was: Run<A>,
    is: Run<A>,
}

impl<A: Allocator + Copy> Moving<A> {
    /// None yet. An `Err` means that memory ran out.
    pub(crate) fn new(alloc: A) -> Result<Self, AllocError> {
        Ok(Moving {
            was: Run::new(alloc)?,
            is: Run::new(alloc)?,
        })
    }
}

/// Farther than any two coordinates are from each other.
const FAR: i64 = 1 << 40;

/// Where a surface is placed on the output, in pixels.
#[derive(Clone, Copy, Debug)]
struct Spot {
    x: i32,
    y: i32,
}

/// A coordinate in pixels, moved by this much and held within the bounds.
fn moved(from: i32, by: i64) -> i32
    ensures { result ≡ within_bounds (from +ℤ by) }
{
    if by < -FAR || by > FAR {
        return held(by);
    }
    held(i64::from(from) + by)
}

/// Marks, tree by tree, what a move changed of a toplevel's windows, by those before and after. A
/// move applies no damage.
fn mark_moved<'a, A: Allocator>(damage: &'a mut Damage<A>, was: &[TreeWindow], is: &[TreeWindow])
    ensures points { MarksRuns A was.now is.now damage.old damage.new }
    ensures sides { IsAsLarge damage.old damage.new }
{
    let changes: &'a [Change<A>] = &[];
    mark_trees(damage, was, is, changes);
}

impl<A: Allocator + Copy> Screen<A> {
    /// Puts a toplevel at this place with its popups, and their windows with them. They are no more
    /// than a client can have. Trees that change are marked, with the windows that they had and
    /// have.
    fn put_run(&mut self, owned: &Owned<A>, client: ClientNo, toplevel: SurfaceNo, to: Spot)
        ensures standing { self.new.scene.standing ≡ moved_to client toplevel (record { x = to.x; y = to.y }) self.old.scene.standing }
        ensures next { self.new.scene.next ≡ self.old.scene.next }
        ensures windows { (o : Owns) (owner : Owner) → IsHeld owned.now.surfaces.states owned.now.surfaces.family owned.now.shell o
            → AreRising (popups_of o.shell) → HasRole owned.now.shell toplevel → length o.shell ≤ 256
            → length (trees_at o owner client toplevel to.x to.y) ≡ length (run_of client toplevel self.old.stacked.windows)
            → self.new.stacked.windows ≡ replaced client toplevel (trees_at o owner client toplevel to.x to.y) self.old.stacked.windows }
        ensures points { length (run_of client toplevel self.old.stacked.windows) ≤ 256 → length (run_of client toplevel self.new.stacked.windows) ≤ 256
            → MarksRuns A (run_told client toplevel self.old.stacked.windows) (run_told client toplevel self.new.stacked.windows) self.old.damage self.new.damage }
        ensures sides { IsAsLarge self.old.damage self.new.damage }
    {
        self.spare
            .moving
            .was
            .keep(self.stacked.run(client, toplevel));
        let surface = Surface {
            client,
            surface: toplevel,
        };
        self.scene.move_to(surface, to.x, to.y);
        self.spare.roots.find(owned, toplevel, to.x, to.y);
        let roots = self.spare.roots.places();
        self.stacked
            .move_run(client, toplevel, &owned.surfaces, roots);
        self.spare
            .moving
            .is
            .keep(self.stacked.run(client, toplevel));
        let Moving { was, is } = &self.spare.moving;
        mark_moved(&mut self.damage, was.windows(), is.windows());
    }

    /// Moves this toplevel of a client, given by the number of its surface, this many pixels to the
    /// right and down, with its popups. Its place is held within the bounds. Trees that change are
    /// marked, as they were and as they are. A popup whose place stays, since it is held within the
    /// bounds, isn't.
    pub fn move_tree(
        &mut self,
        resident: &Resident<A>,
        client: ClientNo,
        toplevel: SurfaceNo,
        x: i64,
        y: i64,
    )
        ensures moves { IsMoved client toplevel x y (opened_kept resident.now) self.old self.new }
        ensures marks { MarksMoved client toplevel x y (opened_kept resident.now) self.old self.new }
        ensures most { MarksMovedMost client toplevel x y (opened_kept resident.now) self.old self.new }
        ensures sides { IsAsLarge self.old.damage self.new.damage }
    {
        // This law says what a move has to mark, and what it may.
        moves_are_marked::<A>();
        let surface = Surface {
            client,
            surface: toplevel,
        };
        let Some(found) = toplevel_of(&self.scene, surface) else {
            return;
        };
        let to = Spot {
            x: moved(found.x, x),
            y: moved(found.y, y),
        };
        self.put_run(&resident.owned, client, toplevel, to);
    }
}
