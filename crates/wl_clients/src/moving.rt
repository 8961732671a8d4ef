//! A client's toplevel comes to the top, or moves with the pointer.

ghost use Rattle.std.specs.Prelude.{ℕ, ◌≡◌, if◌then◌else◌, None, Some};
ghost use Rattle.spec_desktop.specs.Stacking.{raised};
ghost use Rattle.wl_scene.specs.Marking.{IsAsLarge};
ghost use Rattle.spec_desktop.specs.Pointing.{moved_standing};
ghost use Rattle.spec_desktop.specs.Settling.{Midstep, with_standing};
ghost use Rattle.spec_desktop.specs.Through.{is_topmost};
ghost use Rattle.wl_clients.specs.Agreement.{numbers_in};
ghost use Rattle.wl_clients.specs.Marking.{MarksAtLeast, MarksMost, MarksMostBy};
ghost use Rattle.wl_clients.specs.Moving.{with_moved};
ghost use Rattle.wl_clients.specs.Raising.{with_raised};
ghost use Rattle.wl_clients.specs.Midway.{IsMid};

use crate::clients::Clients;
use crate::windows::resident_of;
use spec_desktop::ClientNo;
use std::alloc::Allocator;
use wl_surface::SurfaceNo;

impl<A: Allocator + Copy> Clients<A> {
    /// A press raises a client's toplevel, given by the number of its surface. It comes to the top
    /// with its windows, those of its popups too. If it wasn't topmost, these are marked; else
    /// nothing is.
    pub fn raise(&mut self, client: ClientNo, toplevel: SurfaceNo)
        ensures raises { (m : Midstep) (top : ℕ) → IsMid self.old.desk m → numbers_in self.old.desk.clients client top ≡ Some toplevel
            → IsMid self.new.desk (with_standing (raised client top m.desktop.standing) m) }
        ensures marks { (m : Midstep) (top : ℕ) → IsMid self.old.desk m → numbers_in self.old.desk.clients client top ≡ Some toplevel
            → MarksAtLeast m.desktop (with_raised client top m.desktop) self.old.damage self.new.damage }
        ensures most { (m : Midstep) (top : ℕ) → IsMid self.old.desk m → numbers_in self.old.desk.clients client top ≡ Some toplevel
            → MarksMostBy (if is_topmost client top m.desktop.standing then None else Some (client, top)) m.desktop (with_raised client top m.desktop)
            self.old.damage self.new.damage }
        ensures clients { self.new.desk.clients ≡ self.old.desk.clients }
        ensures output { self.new.desk.output ≡ self.old.desk.output }
        ensures sides { IsAsLarge self.old.damage self.new.damage }
    {
        self.screen.raise_tree(client, toplevel);
    }

    /// Moves a client's toplevel, given by the number of its surface, by this difference in the
    /// output's pixels. Its windows move too, those of its popups as well. The place is held within
    /// 16,777,216 either way. Windows that move are marked, as they were and as they are.
    pub fn move_toplevel(&mut self, client: ClientNo, toplevel: SurfaceNo, x: i64, y: i64)
        ensures moves { (m : Midstep) (top : ℕ) → IsMid self.old.desk m → numbers_in self.old.desk.clients client top ≡ Some toplevel
            → IsMid self.new.desk (with_standing (moved_standing (record { client = client; surface = top }) x y m.desktop.standing) m) }
        ensures marks { (m : Midstep) (top : ℕ) → IsMid self.old.desk m → numbers_in self.old.desk.clients client top ≡ Some toplevel
            → MarksAtLeast m.desktop (with_moved client top x y m.desktop) self.old.damage self.new.damage }
        ensures most { (m : Midstep) (top : ℕ) → IsMid self.old.desk m → numbers_in self.old.desk.clients client top ≡ Some toplevel
            → MarksMost m.desktop (with_moved client top x y m.desktop) self.old.damage self.new.damage }
        ensures clients { self.new.desk.clients ≡ self.old.desk.clients }
        ensures output { self.new.desk.output ≡ self.old.desk.output }
        ensures sides { IsAsLarge self.old.damage self.new.damage }
    {
        let Some(resident) = resident_of(&self.residents, client) else {
            return;
        };
        self.screen.move_tree(resident, client, toplevel, x, y);
    }
}
