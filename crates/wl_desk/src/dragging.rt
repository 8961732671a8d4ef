//! Motions: the pointer moves to a point, and a toplevel that it drags goes along.

ghost use Rattle.std.specs.Prelude.{◌≡◌, None, Some, map};
ghost use Rattle.wl_scene.specs.Focus.{action_of, target_of};
ghost use Rattle.wl_scene.specs.Marking.{IsAsLarge};
ghost use Rattle.spec_desktop.specs.Act.{Motion};
ghost use Rattle.spec_desktop.specs.Happenings.{Single};
ghost use Rattle.spec_desktop.specs.Happens.{within};
ghost use Rattle.spec_desktop.specs.Pointing.{moved_standing};
ghost use Rattle.spec_desktop.specs.Settling.{Midstep, with_standing};
ghost use Rattle.wl_desk.specs.Midway.{IsTelling};
ghost use Rattle.wl_clients.specs.Raising.{MarksChange};
ghost use Rattle.wl_desk.specs.Restacking.{HasNumber, dragged, first_dragged, first_moved, moved_of};
ghost use Rattle.wl_desk.specs.Ways.{LeadsOnceEnded};

use crate::desks::Desk;
use std::alloc::Allocator;
use wl_clients::Done;
use wl_scene::{Action, Actions, Point, Target};

impl<A: Allocator + Copy> Desk<A> {
    /// The pointer moves to a point of the output in pixels, held within it, at a time in
    /// milliseconds. A toplevel that it drags goes along, and its windows are marked.
    ///
    /// Then the focus is settled once. If it stays, its surface is told of the motion, unless a
    /// toplevel is dragged. If it moves, the old surface is left and the new one entered
    /// (wayland.xml, wl_pointer.motion, leave and enter). A client that can't be told is to end
    /// (see [`Desk::struck`]).
    pub fn motion(&mut self, time: u32, x: i32, y: i32)
        ensures leads { LeadsOnceEnded (Single (Motion time x y) Done.Motion) self.old self.new }
        ensures sides { IsAsLarge self.old.damage self.new.damage }
        ensures output { self.new.desk.kept.output ≡ self.old.desk.kept.output }
    {
        let output = self.clients.output();
        let place = Point {
            x: within(output.width, x),
            y: within(output.height, y),
        };
        let moves = self.pointer.motion(place);
        self.drag(&moves);
        let (hit, is_stacked) = self.seen();
        let actions = self.pointer.went(time, hit, is_stacked);
        self.apply_all(&actions);
    }

    /// Moves the toplevel that the pointer drags, if it drags one. Only that is marked.
    fn drag(&mut self, moves: &Actions)
        ensures moves { (m : Midstep) → IsTelling self.old.desk m → HasNumber self.old.desk (first_moved (map action_of moves.now.items))
            → IsTelling self.new.desk (with_standing (first_dragged (map action_of moves.now.items) m.desktop.standing) m) }
        ensures marks { (m : Midstep) → IsTelling self.old.desk m → HasNumber self.old.desk (first_moved (map action_of moves.now.items))
            → MarksChange None m.desktop (with_standing (first_dragged (map action_of moves.now.items) m.desktop.standing) m).desktop self.old.damage
            self.new.damage }
        ensures pointer { self.new.desk.pointer ≡ self.old.desk.pointer }
        ensures sides { IsAsLarge self.old.damage self.new.damage }
        ensures output { self.new.desk.kept.output ≡ self.old.desk.kept.output }
    {
        let Some(action) = moves.as_slice().first() else {
            return;
        };
        self.drag_by(*action);
    }

    /// Does so if this is the action.
    fn drag_by(&mut self, action: Action)
        ensures moves { (m : Midstep) → IsTelling self.old.desk m → HasNumber self.old.desk (moved_of (action_of action))
            → IsTelling self.new.desk (with_standing (dragged (action_of action) m.desktop.standing) m) }
        ensures marks { (m : Midstep) → IsTelling self.old.desk m → HasNumber self.old.desk (moved_of (action_of action))
            → MarksChange None m.desktop (with_standing (dragged (action_of action) m.desktop.standing) m).desktop self.old.damage self.new.damage }
        ensures pointer { self.new.desk.pointer ≡ self.old.desk.pointer }
        ensures sides { IsAsLarge self.old.damage self.new.damage }
        ensures output { self.new.desk.kept.output ≡ self.old.desk.kept.output }
    {
        let Action::MoveWindow(toplevel, x, y) = action else {
            return;
        };
        self.move_by(toplevel, x, y);
    }

    /// Moves a toplevel by a difference, in pixels. Only that is marked.
    fn move_by(&mut self, toplevel: Target, x: i64, y: i64)
        ensures moves { (m : Midstep) → IsTelling self.old.desk m → HasNumber self.old.desk (Some (target_of toplevel))
            → IsTelling self.new.desk (with_standing (moved_standing (target_of toplevel) x y m.desktop.standing) m) }
        ensures marks { (m : Midstep) → IsTelling self.old.desk m → HasNumber self.old.desk (Some (target_of toplevel))
            → MarksChange None m.desktop (with_standing (moved_standing (target_of toplevel) x y m.desktop.standing) m).desktop self.old.damage
            self.new.damage }
        ensures pointer { self.new.desk.pointer ≡ self.old.desk.pointer }
        ensures sides { IsAsLarge self.old.damage self.new.damage }
        ensures output { self.new.desk.kept.output ≡ self.old.desk.kept.output }
    {
        let Some(number) = self
            .clients
            .surface_number(toplevel.client, toplevel.surface)
        else {
            return;
        };
        self.clients.move_toplevel(toplevel.client, number, x, y);
    }
}

/// A coordinate held within a side of the output.
fn within(side: u32, at: i32) -> i32
    ensures { result ≡ within side at }
{
    let last = side.saturating_sub(1);
    last.min(at.max(0) as u32) as i32
}
