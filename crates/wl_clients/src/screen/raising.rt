//! Raises a toplevel with its windows.

ghost use Rattle.std.specs.Prelude.{ℕ, ◌≡◌, ◌<◌, ◌||◌, Some, pos};
ghost use Rattle.std.specs.List.{list_any};
ghost use Rattle.wl_scene.specs.Marking.{IsAsLarge};
ghost use Rattle.wl_paint.specs.Damage.{has};
ghost use Rattle.wl_scene.specs.Repaint.{window_has};
ghost use Rattle.wl_scene.specs.Kept.{standing_of};
ghost use Rattle.spec_desktop.specs.Stacking.{is_of, raised};
ghost use Rattle.wl_scene.specs.Stacked.{raised as raised_windows};
ghost use Rattle.spec_desktop.specs.Through.{is_topmost};
ghost use Rattle.wl_clients.specs.Raising.{IsRaised, MarksRaised, MarksRaisedMost};
ghost use Rattle.wl_clients.specs.Screens.{run_kept};

use crate::screen::screens::Screen;
use spec_desktop::ClientNo;
use std::alloc::Allocator;
use wl_scene::{Scene, Surface, Toplevel};
use wl_surface::SurfaceNo;

/// Whether a toplevel is that of this surface.
fn is_of_surface(toplevel: &Toplevel, surface: Surface) -> bool
    ensures { result ≡ is_of surface.client surface.surface (standing_of toplevel.now) }
{
    toplevel.surface == surface
}

/// Whether no toplevel stands above that of this surface.
fn is_topmost<A: Allocator>(scene: &Scene<A>, surface: Surface) -> bool
    ensures { result ≡ is_topmost surface.client surface.surface scene.now.standing }
{
    let toplevels = scene.toplevels();
    let count = toplevels.len();
    if count == 0 {
        return false;
    }
    is_of_surface(&toplevels[count - 1], surface)
}

impl<A: Allocator + Copy> Screen<A> {
    /// Brings the toplevel to the top with its windows and those of its popups, and marks these.
    fn bring_up(&mut self, client: ClientNo, toplevel: SurfaceNo)
        ensures standing { self.new.scene.standing ≡ raised client toplevel self.old.scene.standing }
        ensures next { self.new.scene.next ≡ self.old.scene.next }
        ensures windows { self.new.stacked.windows ≡ raised_windows client toplevel self.old.stacked.windows }
        ensures points { (x y : ℕ) → x < self.old.damage.width → y < self.old.damage.height
            → has self.new.damage x y ≡ (has self.old.damage x y
            || list_any (window_has (pos x) (pos y)) (run_kept client (Some toplevel) self.old.stacked.windows)) }
        ensures sides { IsAsLarge self.old.damage self.new.damage }
    {
        self.mark_gone(client, toplevel);
        self.scene.raise(Surface {
            client,
            surface: toplevel,
        });
        self.stacked.raise(client, toplevel);
    }

    /// A press raises this toplevel of a client, given by the number of its surface. It comes to
    /// the top with its windows and those of its popups. If it wasn't topmost, these are marked;
    /// else nothing is.
    pub fn raise_tree(&mut self, client: ClientNo, toplevel: SurfaceNo)
        ensures raises { IsRaised client toplevel self.old self.new }
        ensures marks { MarksRaised client toplevel self.old self.new }
        ensures most { MarksRaisedMost client toplevel self.old self.new }
        ensures sides { IsAsLarge self.old.damage self.new.damage }
    {
        let surface = Surface {
            client,
            surface: toplevel,
        };
        if !is_topmost(&self.scene, surface) {
            self.bring_up(client, toplevel);
        }
    }
}
