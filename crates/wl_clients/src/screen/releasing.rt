//! Dismisses the popups of a client with a grab, and takes their windows out.

ghost use Rattle.std.specs.Prelude.{ℕ, ◌≡◌, ◌<◌, ◌||◌, filter, find, pos};
ghost use Rattle.std.specs.Option.{option_copied, option_map};
ghost use Rattle.wl_scene.specs.Marking.{IsAsLarge};
ghost use Rattle.wl_paint.specs.Damage.{has};
ghost use Rattle.wl_scene.specs.Stacked.{without_tree};
ghost use Rattle.wl_clients.specs.Gone.{gone_has, is_gone, is_left, tree_has};
ghost use Rattle.wl_clients.specs.Releasing.{IsReleased, MarksReleased};
ghost use Rattle.wl_clients.specs.View.{pile_of};

use crate::screen::laws::release_laws;
use crate::screen::screens::Screen;
use spec_desktop::ClientNo;
use std::alloc::Allocator;
use wl_requests::Resident;
use wl_scene::Stacked;
use wl_shell::Shell;
use wl_surface::SurfaceNo;

/// Whether a window is in the tree of a popup of this client that was dismissed.
fn is_dismissed<A: Allocator>(stacked: &Stacked, client: ClientNo, shell: &Shell<A>) -> bool
    ensures { result ≡ is_gone client shell.now stacked.now }
{
    if stacked.client != client {
        return false;
    }
    let Some(xdg_surface) = shell.get(stacked.window.root) else {
        return false;
    };
    match xdg_surface.popup() {
        Some(popup) => popup.is_dismissed(),
        None => false,
    }
}

/// The lowest of these windows that is in the tree of such a popup.
fn first_dismissed<'a, A: Allocator>(
    windows: &'a [Stacked],
    client: ClientNo,
    shell: &Shell<A>,
) -> Option<&'a Stacked>
    ensures { option_copied result ≡ find (is_gone client shell.now) windows.now }
{
    windows
        .iter()
        .find(|stacked| is_dismissed(stacked, client, shell))
}

/// The root of that window's tree.
fn dismissed_root<A: Allocator>(
    windows: &[Stacked],
    client: ClientNo,
    shell: &Shell<A>,
) -> Option<SurfaceNo>
    ensures { result ≡ option_map (λ s. s.window.root) (find (is_gone client shell.now) windows.now) }
{
    match first_dismissed(windows, client, shell) {
        Some(stacked) => Some(stacked.window.root),
        None => None,
    }
}

impl<A: Allocator + Copy> Screen<A> {
    /// Marks all points of the windows of a tree, and takes them out.
    fn remove_tree(&mut self, client: ClientNo, root: SurfaceNo)
        ensures windows { self.new.stacked.windows ≡ without_tree client root self.old.stacked.windows }
        ensures points { (x y : ℕ) → x < self.old.damage.width → y < self.old.damage.height
            → has self.new.damage x y ≡ (has self.old.damage x y || tree_has client root (pos x) (pos y) self.old.stacked.windows) }
        ensures sides { IsAsLarge self.old.damage self.new.damage }
        ensures scene { self.new.scene ≡ self.old.scene }
    {
        self.mark_tree(client, root);
        self.stacked.remove_tree(client, root);
    }

    /// Marks the windows of a client that are in the trees of dismissed popups, and takes them out.
    fn remove_dismissed(&mut self, client: ClientNo, shell: &Shell<A>)
        ensures windows { self.new.stacked.windows ≡ filter (is_left client shell.now) self.old.stacked.windows }
        ensures points { (x y : ℕ) → x < self.old.damage.width → y < self.old.damage.height
            → has self.new.damage x y ≡ (has self.old.damage x y || gone_has client shell.now (pos x) (pos y) self.old.stacked.windows) }
        ensures sides { IsAsLarge self.old.damage self.new.damage }
        ensures scene { self.new.scene ≡ self.old.scene }
    {
        while let Some(root) = dismissed_root(self.stacked.windows(), client, shell) {
            self.remove_tree(client, root);
        }
    }

    /// Dismisses a client's popups with a grab, and their descendants, the newest first
    /// (xdg-shell.xml, xdg_popup.grab and xdg_popup.popup_done). The client is told of each that it
    /// is done. If an event isn't queued, it is to end for that, and is told nothing more. Only the
    /// windows of these popups go and are marked.
    pub fn release_grabs(&mut self, resident: &mut Resident<A>, client: ClientNo)
        ensures releases { IsReleased client resident.old resident.new (pile_of self.old) (pile_of self.new) }
        ensures marks { MarksReleased client resident.old (pile_of self.old) self.old.damage self.new.damage }
        ensures sides { IsAsLarge self.old.damage self.new.damage }
        ensures client { resident.new.client ≡ record resident.old.client { unsent = resident.new.client.unsent; refused = resident.new.client.refused } }
    {
        release_laws();
        resident.release_grabs();
        self.remove_dismissed(client, &resident.owned.shell);
    }
}
