//! Answering the frame callbacks of a client.

ghost use Rattle.std.specs.Prelude.{◌≡◌, None};
ghost use Rattle.spec_desktop.specs.Peer.{Peer, Queues};
ghost use Rattle.spec_desktop.specs.Happens.{frames_told};
ghost use Rattle.law_desktop.specs.RoleNames.{names_of};
ghost use Rattle.law_desktop.specs.Ordered.{OwnsOrdered};
ghost use Rattle.spec_desktop.specs.Desktop.{Resident as Plain};
ghost use Rattle.spec_desktop.specs.Framing.{done_due};
ghost use Rattle.wl_requests.specs.Residents.{IsLeft, IsResident};

use crate::residents::Resident;
use std::alloc::Allocator;

impl<A: Allocator + Copy> Resident<A> {
    /// Answers each callback whose request a commit applied, in the order of the requests. It is
    /// done at this time, in milliseconds, and its id is given back (wayland.xml,
    /// wl_surface.frame). If an event isn't queued, the client ends, and no more is answered.
    pub fn answer_frames(&mut self, time: u32)
        ensures tells { self.old.client.ended ≡ None → (r : Plain) → IsResident self.old r → OwnsOrdered r
            → (q : Peer) × Queues (frames_told time r) (done_due r).peer q × IsLeft self.old self.new (done_due r) q
            × (self.new.client.ended ≡ None → names_of self.new.client.objects ≡ names_of self.old.client.objects) }
        ensures places { self.new.owned.surfaces.states.places ≡ self.old.owned.surfaces.states.places }
    {
        while let Some(callback) = self.owned.surfaces.next_frame() {
            self.client.finish(callback, time);
            if self.client.has_ended() {
                return;
            }
        }
    }
}
