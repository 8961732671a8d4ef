//! Which tree of surfaces a message may change, and which toplevel that is stacked with.

ghost use Rattle.std.specs.Option.{option_and_then};
ghost use Rattle.std.specs.Prelude.{ℕ, ◌≡◌, None, Option, Some, option_copied};
ghost use Rattle.wl_links.specs.Family.{links_in};
ghost use Rattle.wl_clients.specs.Finding.{found_by, parent_by, popup_in_shell, popup_to_place};
ghost use Rattle.wl_clients.specs.Screens.{IsTouchedBy, IsTouchedIn, root_in};
ghost use Rattle.wl_scene.specs.Roots.{parent_surface};
ghost use Rattle.wl_shell.specs.Agreement.{IsShell};
ghost use Rattle.wl_scene.specs.Stacked.{toplevel_with};
ghost use Rattle.spec_desktop.specs.Stacking.{Owned as Owns};
ghost use Rattle.wl_surface.specs.State.{History};
ghost use Rattle.wl_shell.specs.Kept.{kept_of};

use spec_desktop::ClientNo;
use std::alloc::Allocator;
use wl_proto::{WlSubsurfaceRequest, WlSurfaceRequest, XdgPopupRequest};
use wl_requests::{Asked, Kind, Resident, ToplevelAsked};
use wl_scene::StackedWindows;
use wl_shell::{Popup, Shell};
use wl_surface::SurfaceNo;

/// The surface in whose tree a request may change windows.
fn touched_in<A: Allocator + Copy>(
    resident: &Resident<A>,
    object: u32,
    target: usize,
    kind: &Kind,
) -> Option<SurfaceNo>
    ensures { IsTouchedIn resident.now object target kind.now result }
{
    match kind {
        Kind::Surface(WlSurfaceRequest::Commit | WlSurfaceRequest::Destroy) => Some(target),
        Kind::Toplevel(ToplevelAsked::Destruction) => Some(target),
        Kind::Popup(XdgPopupRequest::Destroy) => Some(target),
        Kind::Subsurface(WlSubsurfaceRequest::Destroy | WlSubsurfaceRequest::SetDesync) => {
            resident.child_of(object)
        }
        _ => None,
    }
}

/// The surface, by its number, in whose tree a message that asks this may change windows, if it may
/// (wayland.xml, wl_surface and wl_subsurface; xdg-shell.xml, xdg_toplevel.destroy and
/// xdg_popup.destroy):
/// - one that is committed or goes;
/// - the child of a wl_subsurface that goes or is desynchronised while its link lives;
/// - that of a toplevel or a popup that goes.
pub fn touched_by<A: Allocator + Copy>(resident: &Resident<A>, asked: &Asked) -> Option<SurfaceNo>
    ensures { IsTouchedBy resident.now asked.now result }
{
    match asked {
        Asked::Request {
            object,
            target,
            kind,
            ..
        } => touched_in(resident, *object, *target, kind),
        _ => None,
    }
}

/// The root of the tree of a surface (wayland.xml, wl_subsurface).
pub(crate) fn root_of<A: Allocator + Copy>(resident: &Resident<A>, surface: SurfaceNo) -> SurfaceNo
    ensures root { root_in resident.now (Some surface) ≡ Some result }
    ensures none { links_in resident.now.owned.surfaces.family result ≡ None }
{
    resident.owned.surfaces.root(surface)
}

/// The popup of a surface, if it has one.
pub(crate) fn popup_of<A: Allocator>(shell: &Shell<A>, surface: SurfaceNo) -> Option<&Popup>
    ensures { option_copied result ≡ popup_in_shell shell.now surface }
{
    shell.get(surface)?.popup()
}

/// The surface of the parent of a popup, if it has one.
fn parent_of<A: Allocator>(shell: &Shell<A>, popup: &Popup) -> Option<SurfaceNo>
    ensures { (o : Owns) (histories : ℕ → Option History) → IsShell (kept_of shell.now) histories o.shell
        → result ≡ parent_surface o popup.now }
{
    let Some(parent) = popup.parent() else {
        return None;
    };
    shell.surface_at(parent)
}

/// The toplevel that the tree of a popup's parent is stacked with, if that is shown.
fn toplevel_by_parent<A: Allocator>(
    shell: &Shell<A>,
    stacked: &StackedWindows<A>,
    client: ClientNo,
    popup: &Popup,
) -> Option<SurfaceNo>
    ensures { (o : Owns) (histories : ℕ → Option History) → IsShell (kept_of shell.now) histories o.shell
        → result ≡ option_and_then (λ surface. toplevel_with client surface stacked.now.windows) (parent_surface o popup.now) }
{
    let Some(parent) = parent_of(shell, popup) else {
        return None;
    };
    stacked.toplevel_with(client, parent)
}

/// The toplevel that the tree of a root is stacked with, or would be if it were mapped
/// (xdg-shell.xml, xdg_popup). It is found by the tree's windows, else by those of its popup's
/// parent. A root that is no popup is the toplevel itself. `None` if a popup's parent isn't shown.
pub(crate) fn find_toplevel<A: Allocator>(
    shell: &Shell<A>,
    stacked: &StackedWindows<A>,
    client: ClientNo,
    root: SurfaceNo,
) -> Option<SurfaceNo>
    ensures { (o : Owns) (histories : ℕ → Option History) → IsShell (kept_of shell.now) histories o.shell
        → result ≡ found_by client root (parent_by o (popup_in_shell shell.now root)) stacked.now.windows }
{
    if let Some(toplevel) = stacked.toplevel_with(client, root) {
        return Some(toplevel);
    }
    match popup_of(shell, root) {
        None => Some(root),
        Some(popup) => toplevel_by_parent(shell, stacked, client, popup),
    }
}

/// The popup that a message may place: that of a surface to be committed, if it has one, or one to
/// be placed anew (xdg-shell.xml, xdg_popup.reposition).
pub(crate) fn popup_to_place<'a, A: Allocator>(
    shell: &'a Shell<A>,
    asked: &Asked,
) -> Option<&'a Popup>
    ensures { option_copied result ≡ popup_to_place shell.now asked.now }
{
    match asked {
        Asked::Request {
            target,
            kind: Kind::Surface(WlSurfaceRequest::Commit)
            | Kind::Popup(XdgPopupRequest::Reposition { .. }),
            ..
        } => popup_of(shell, *target),
        _ => None,
    }
}
