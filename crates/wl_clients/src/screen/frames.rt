//! Answering the frame callbacks of a client.

ghost use Rattle.std.specs.Prelude.{ℕ, ◌≡◌, None, Some, is_some, true};
ghost use Rattle.spec_desktop.specs.Objects.{ById};
ghost use Rattle.spec_desktop.specs.Desktop.{Desktop, Resident as Plain};
ghost use Rattle.spec_desktop.specs.Framing.{FramesToldAt};
ghost use Rattle.law_desktop.specs.Ordered.{Ordered};
ghost use Rattle.wl_scene.specs.Marking.{IsAsLarge};
ghost use Rattle.wl_clients.specs.Marking.{MarksOwnIf};
ghost use Rattle.wl_clients.specs.Seats.{IsSeated};
ghost use Rattle.wl_clients.specs.View.{pile_of};

use crate::screen::screens::Screen;
use spec_desktop::ClientNo;
use std::alloc::Allocator;
use wl_requests::Resident;

impl<A: Allocator + Copy> Screen<A> {
    /// A frame was shown at this time, in milliseconds: tells a living client that its due
    /// callbacks are done. If it ends by that, its windows are marked, and no others, and all that
    /// it owned is cleared.
    pub fn tell_frames(&mut self, resident: &mut Resident<A>, client: ClientNo, time: u32, alloc: A)
        ensures tells { (others : ℕ → ById ℕ) (base d : Desktop) (r : Plain) → IsSeated client others base resident.old (pile_of self.old) d r → Ordered d
            → (e : Desktop) × (s : Plain) × FramesToldAt time client (Some r) d e × IsSeated client others base resident.new (pile_of self.new) e s }
        ensures marks { resident.old.client.ended ≡ None
            → MarksOwnIf (is_some resident.new.client.ended) client resident.old (pile_of self.old) self.old.damage self.new.damage }
        ensures idle { is_some resident.old.client.ended ≡ true → (resident.new ≡ resident.old) × (pile_of self.new ≡ pile_of self.old) × (self.new.damage ≡ self.old.damage) }
        ensures sides { IsAsLarge self.old.damage self.new.damage }
    {
        if resident.client.has_ended() {
            return;
        }
        resident.answer_frames(time);
        if resident.client.has_ended() {
            self.mark_client(client);
        }
        self.clear(resident, client, alloc);
    }
}
