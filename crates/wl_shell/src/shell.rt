//! The xdg_surfaces of a client.

ghost use Rattle.std.specs.Prelude.{◌≡◌, ◌≢◌, ◌&&◌, [], ℕ, All, MatchOption, None, Some, OnOk, OnErr, IfErr, IfOk, IfNone, IfSome, IsOkUnless, IsSomeAnd, Err, is_some, nat_lt, true};
ghost use Rattle.std.specs.List.{list_any};
ghost use Rattle.std.specs.Option.{option_and_then, option_copied};
ghost use Rattle.wl_shell.specs.Kept.{acknowledgement_answer, changing, commit_answer, configure_answer, destruction_answer, first_kept, geometry_answer, grab_answer, is_of_base, kept_acknowledging, kept_after, kept_asking, kept_changed, kept_configured, kept_grabbing, kept_of, kept_popup, kept_repositioning, kept_toplevel, kept_without_role, making_refused, popup_answer, reposition_answer, toplevel_answer, with_kept};
ghost use Rattle.wl_shell.specs.Popups.{dismiss};
ghost use Rattle.wl_shell.specs.Found.{AreFound};
ghost use Rattle.wl_shell.specs.ShellLaws.{orphaned};
ghost use Rattle.wl_shell.specs.PopupsKept.{IsNewest, IsOldest, IsSurfaceAt, dismissible_grabbing, dismissible_under, has_child, has_popup, is_grabbing, parent_allows, parent_id, parent_of, popup_destruction};

use crate::acts::{Placed, ShellAct};
use crate::error::ShellError;
use crate::popups::{self, Wanted};
use crate::positioner::Positioner;
use crate::xdg_surface::XdgSurface;
use std::alloc::Allocator;
use std::collections::BTreeMap;
use std::marker::Model;
use wl_geom::Rect;
use wl_surface::SurfaceNo;

/// A popup's number: that of its surface, since a surface has at most one popup.
pub type PopupNo = SurfaceNo;

/// A popup that is asked for.
#[derive(Clone, Copy, Debug, PartialEq, Eq)]
pub struct NewPopup {
    /// The id of its xdg_popup.
    pub id: u32,
    /// The surface of its parent, if it has one.
    pub parent: Option<SurfaceNo>,
    /// Its number among the popups of its client, in order of creation.
    pub number: u64,
}

/// The xdg_surfaces of a client, by the numbers of their surfaces (xdg-shell.xml). Contracts see
/// what it keeps of each.
#[derive(Drop)]
pub struct Shell<A: Allocator> {
    surfaces: BTreeMap<SurfaceNo, XdgSurface, A>,
}

impl<A: Allocator> Model for Shell<A> {
    ghost use Rattle.wl_shell.specs.Kept.{Book};

    ghost Value = { Book };

    ghost view = { λ shell. shell.surfaces.entries };
}

impl<A: Allocator> Shell<A> {
    /// No xdg_surfaces. It takes no memory.
    pub fn new(alloc: A) -> Self
        ensures { result ≡ [] }
    {
        Shell {
            surfaces: BTreeMap::new(alloc),
        }
    }

    /// The xdg_surface of a surface, if it has one.
    pub fn get(&self, surface: SurfaceNo) -> Option<&XdgSurface>
        ensures { option_copied result ≡ kept_of self.now surface }
    {
        self.surfaces.get(&surface)
    }

    /// xdg_surface.get_toplevel: the surface's xdg_surface gets a new toplevel as its role object,
    /// and forgets what was asked of it before.
    ///
    /// # Errors
    ///
    /// The first of these; each changes nothing:
    /// - `NotConstructed`, if the surface has no xdg_surface;
    /// - `AlreadyConstructed`, if that has a role object;
    /// - `Role`, if the surface has another role.
    pub fn get_toplevel(
        &mut self,
        surface: SurfaceNo,
        id: u32,
        has_other_role: bool,
    ) -> Result<(), ShellError>
        ensures answer { result ≡ toplevel_answer has_other_role (kept_of self.old surface) }
        ensures ok { OnOk result (kept_of self.new ≡ changing surface (kept_toplevel id) (kept_of self.old)) }
        ensures err { OnErr result (self.new ≡ self.old) }
    {
        let Some(xdg_surface) = self.surfaces.get_mut(&surface) else {
            return Err(ShellError::NotConstructed);
        };
        xdg_surface.get_toplevel(id, has_other_role)
    }

    /// The id of the xdg_surface of a popup's parent, if that has a role object.
    fn parent_id(&self, parent: Option<SurfaceNo>) -> Option<u32>
        ensures { result ≡ parent_id (kept_of self.now) parent }
    {
        let xdg_surface = self.get(parent?)?;
        if xdg_surface.has_role() {
            Some(xdg_surface.id())
        } else {
            None
        }
    }

    /// xdg_surface.get_popup: the surface's xdg_surface gets a new popup as its role object, and
    /// forgets what was asked of it before. The positioner is copied.
    ///
    /// # Errors
    ///
    /// The first of these; each changes nothing:
    /// - `NotConstructed`, if the surface has no xdg_surface;
    /// - `AlreadyConstructed`, if that has a role object;
    /// - `Role`, if the surface has another role;
    /// - `InvalidPopupParent`, if there is no parent, or its surface has no role object;
    /// - `InvalidPositioner`, if the positioner isn't complete.
    pub fn get_popup(
        &mut self,
        surface: SurfaceNo,
        popup: &NewPopup,
        positioner: &Positioner,
        has_other_role: bool,
    ) -> Result<(), ShellError>
        ensures answer { result ≡ popup_answer has_other_role (is_some (parent_id (kept_of self.old) popup.now.parent)) positioner.now (kept_of self.old surface) }
        ensures ok { OnOk result (IfSome (parent_id (kept_of self.old) popup.now.parent)
            (λ xdg. kept_of self.new ≡ changing surface (kept_popup popup.now.id xdg positioner.now popup.now.number) (kept_of self.old))) }
        ensures err { OnErr result (self.new ≡ self.old) }
    {
        let parent = self.parent_id(popup.parent);
        let Some(xdg_surface) = self.surfaces.get_mut(&surface) else {
            return Err(ShellError::NotConstructed);
        };
        xdg_surface.get_popup(popup.id, parent, positioner, popup.number, has_other_role)
    }

    /// xdg_surface.set_window_geometry: this is the window geometry from the next commit on, in
    /// pixels from the corner of the surface.
    ///
    /// # Errors
    ///
    /// The first of these; each changes nothing. `NotConstructed` if the surface has no
    /// xdg_surface, or that has no role object; `InvalidSize` if a side isn't positive.
    pub fn geometry(&mut self, surface: SurfaceNo, rect: Rect) -> Result<(), ShellError>
        ensures answer { result ≡ geometry_answer rect (kept_of self.old surface) }
        ensures ok { OnOk result (kept_of self.new ≡ changing surface (kept_asking rect) (kept_of self.old)) }
        ensures err { OnErr result (self.new ≡ self.old) }
    {
        let Some(xdg_surface) = self.surfaces.get_mut(&surface) else {
            return Err(ShellError::NotConstructed);
        };
        xdg_surface.ask_geometry(rect)
    }

    /// xdg_surface.ack_configure: the last configure of this serial, and those before it, don't
    /// wait any more. The latest of them that places a popup anew makes its place wait for the next
    /// commit.
    ///
    /// # Errors
    ///
    /// The first of these; each changes nothing. `NotConstructed` if the surface has no
    /// xdg_surface, or that has no role object; `InvalidSerial` if no configure of this serial
    /// waits.
    pub fn ack(&mut self, surface: SurfaceNo, serial: u32) -> Result<(), ShellError>
        ensures answer { result ≡ acknowledgement_answer serial (kept_of self.old surface) }
        ensures ok { OnOk result (kept_of self.new ≡ changing surface (kept_acknowledging serial) (kept_of self.old)) }
        ensures err { OnErr result (self.new ≡ self.old) }
    {
        let Some(xdg_surface) = self.surfaces.get_mut(&surface) else {
            return Err(ShellError::NotConstructed);
        };
        xdg_surface.acknowledge(serial)
    }

    /// wl_surface.commit (wayland.xml; xdg-shell.xml, xdg_surface), after which the surface has a
    /// buffer or not. The window geometry that was asked counts from now on. A configure to be sent
    /// has this serial, and waits to be acknowledged. It takes no memory.
    ///
    /// `Configure` also places a popup, within the bounds. They are in pixels of the output, as is
    /// `parent_at`, where the parent's window geometry stands. A toplevel needs neither.
    ///
    /// A popup placed anew moves at the first commit after its client acknowledged that, unless the
    /// commit unmaps it. `Place` says so, or `Map` if the commit maps it.
    ///
    /// Nothing else changes of a dismissed popup. If the surface has no xdg_surface, nothing
    /// changes and the answer is `Nothing`.
    ///
    /// # Errors
    ///
    /// Each changes nothing. `UnconfiguredBuffer` if the surface has a buffer and no configure was
    /// acknowledged; `TooMany` if a configure would be sent and 64 of them wait.
    pub fn on_commit(
        &mut self,
        surface: SurfaceNo,
        has_buffer: bool,
        bounds: Rect,
        parent_at: (i32, i32),
        serial: u32,
    ) -> Result<ShellAct, ShellError>
        ensures answer { result ≡ commit_answer has_buffer bounds parent_at (kept_of self.old surface) }
        ensures ok { IfOk result (λ act. kept_of self.new ≡ changing surface (kept_after serial act) (kept_of self.old)) }
        ensures err { OnErr result (self.new ≡ self.old) }
    {
        let Some(xdg_surface) = self.surfaces.get_mut(&surface) else {
            return Ok(ShellAct::Nothing);
        };
        xdg_surface.commit(has_buffer, bounds, parent_at, serial)
    }

    /// A request for another state of the toplevel, as xdg_toplevel.set_maximized. The answer is
    /// true if a configure is to be sent: it has this serial, and waits to be acknowledged. Else
    /// nothing changes, since the surface has no toplevel, or none was configured before.
    ///
    /// # Errors
    ///
    /// `TooMany` if a configure would be sent and 64 of them wait; nothing changes.
    pub fn configure(&mut self, surface: SurfaceNo, serial: u32) -> Result<bool, ShellError>
        ensures answer { result ≡ configure_answer (kept_of self.old surface) }
        ensures ok { IfOk result (λ is_sent. kept_of self.new ≡ changing surface (kept_configured is_sent serial) (kept_of self.old)) }
        ensures err { OnErr result (self.new ≡ self.old) }
    {
        let Some(xdg_surface) = self.surfaces.get_mut(&surface) else {
            return Ok(false);
        };
        xdg_surface.configure(serial)
    }

    /// Whether the parent of the surface's popup is a toplevel, or a popup with a grab.
    fn parent_allows(&self, surface: SurfaceNo) -> bool
        ensures { result ≡ parent_allows self.now (kept_of self.now surface) }
    {
        match self.parent_of(surface) {
            Some(parent) => popups::parent_allows(&self.surfaces, parent),
            None => false,
        }
    }

    /// Whether its popup may have a grab: the parent allows it too.
    fn may_grab(&self, surface: SurfaceNo, is_allowed: bool) -> bool
        ensures { result ≡ (parent_allows self.now (kept_of self.now surface) && is_allowed) }
    {
        self.parent_allows(surface) && is_allowed
    }

    /// The id of the parent of the popup of the surface, if it has one.
    fn parent_of(&self, surface: SurfaceNo) -> Option<u32>
        ensures { result ≡ option_and_then parent_of (kept_of self.now surface) }
    {
        popups::parent(self.get(surface)?)
    }

    /// xdg_popup.grab: the popup gets a grab if its parent is a toplevel or a popup with a grab,
    /// and `is_allowed`. That says whether the serial and the other clients allow it.
    ///
    /// The answer is false, and nothing changes, if the popup is to be dismissed. It is true if the
    /// popup has the grab, or if nothing is to be done, since it was dismissed or isn't there.
    ///
    /// # Errors
    ///
    /// `InvalidGrab` if the popup is mapped; nothing changes.
    pub fn grab(&mut self, popup: PopupNo, is_allowed: bool) -> Result<bool, ShellError>
        ensures answer { result ≡ grab_answer (parent_allows self.old (kept_of self.old popup) && is_allowed) (kept_of self.old popup) }
        ensures ok { IfOk result (λ is_taken. kept_of self.new ≡ changing popup (kept_grabbing is_taken) (kept_of self.old)) }
        ensures err { OnErr result (self.new ≡ self.old) }
    {
        let is_allowed = self.may_grab(popup, is_allowed);
        let Some(xdg_surface) = self.surfaces.get_mut(&popup) else {
            return Ok(true);
        };
        xdg_surface.grab(is_allowed)
    }

    /// xdg_popup.reposition: the popup gets a copy of this positioner in place of the one before.
    /// One that was configured and isn't dismissed is placed anew, within the bounds. They are in
    /// pixels of the output, as is `parent_at`, where the parent's window geometry stands. It takes
    /// no memory.
    ///
    /// The answer is the new place, to be sent with a configure of this serial, which waits to be
    /// acknowledged. The popup stays where it is until a commit after that. The answer is `None` if
    /// nothing is to be sent: then no serial is drawn. Without such a popup nothing changes.
    ///
    /// # Errors
    ///
    /// The first of these; each changes nothing. `TooMany` if a configure would be sent and 64 of
    /// them wait; `InvalidPositioner` if the positioner isn't complete.
    pub fn reposition(
        &mut self,
        popup: PopupNo,
        positioner: &Positioner,
        bounds: Rect,
        parent_at: (i32, i32),
        serial: u32,
    ) -> Result<Option<Placed>, ShellError>
        ensures answer { result ≡ reposition_answer positioner.now bounds parent_at (kept_of self.old popup) }
        ensures ok { IfOk result (λ placed. kept_of self.new ≡ changing popup (kept_repositioning placed serial positioner.now) (kept_of self.old)) }
        ensures err { OnErr result (self.new ≡ self.old) }
    {
        let Some(xdg_surface) = self.surfaces.get_mut(&popup) else {
            return Ok(None);
        };
        xdg_surface.reposition(positioner, bounds, parent_at, serial)
    }

    /// The surface of the xdg_surface of this id, if there is one.
    pub fn surface_at(&self, id: u32) -> Option<SurfaceNo>
        ensures { IsSurfaceAt id (kept_of self.now) result }
    {
        popups::find_surface(&self.surfaces, id)
    }

    /// The oldest popup, dismissed or not, if there is one.
    pub fn first_popup(&self) -> Option<PopupNo>
        ensures { IsOldest (has_popup (λ popup. true)) (kept_of self.now) result }
    {
        popups::find_popup(&self.surfaces, Wanted::First)
    }

    /// The oldest popup, dismissed or not, with a greater number in order of creation, if there is
    /// one.
    pub fn popup_after(&self, number: u64) -> Option<PopupNo>
        ensures { IsOldest (has_popup (λ popup. nat_lt number popup.number)) (kept_of self.now) result }
    {
        popups::find_popup(&self.surfaces, Wanted::After(number))
    }

    /// The surface of the newest popup that isn't dismissed: the one of the surface's xdg_surface,
    /// or one that descends from that.
    fn newest_under(&self, surface: SurfaceNo) -> Option<SurfaceNo>
        ensures { IsNewest (dismissible_under self.now (kept_of self.now surface)) (kept_of self.now) result }
    {
        let id = self.get(surface)?.id();
        popups::find_popup(&self.surfaces, Wanted::Under(id))
    }

    /// Dismisses the popup of the surface's xdg_surface, if it has one, and all popups that descend
    /// from that xdg_surface. The newest goes first, one by each call (xdg-shell.xml,
    /// xdg_popup.popup_done). The answer is the one that was dismissed, or `None` if none was left;
    /// then nothing changes. A dismissed popup has no grab.
    pub fn dismiss(&mut self, surface: SurfaceNo) -> Option<PopupNo>
        ensures newest { IsNewest (dismissible_under self.old (kept_of self.old surface)) (kept_of self.old) result }
        ensures some { IfSome result (λ gone. kept_of self.new ≡ changing gone (kept_changed dismiss) (kept_of self.old)) }
        ensures none { IfNone result (self.new ≡ self.old) }
    {
        let newest = self.newest_under(surface)?;
        self.dismiss_one(newest);
        Some(newest)
    }

    /// The surface of the newest popup that isn't dismissed, among those with a grab and their
    /// descendants.
    fn newest_grabbing(&self) -> Option<SurfaceNo>
        ensures { IsNewest (dismissible_grabbing self.now) (kept_of self.now) result }
    {
        popups::find_popup(&self.surfaces, Wanted::Grabbing)
    }

    /// Dismisses the popups with a grab and their descendants: the newest first, one by each call
    /// (xdg-shell.xml, xdg_popup.grab and xdg_popup.popup_done). The answer is the one that was
    /// dismissed, or `None` if none was left; then nothing changes. A dismissed popup has no grab.
    pub fn dismiss_grabbing(&mut self) -> Option<PopupNo>
        ensures newest { IsNewest (dismissible_grabbing self.old) (kept_of self.old) result }
        ensures some { IfSome result (λ gone. kept_of self.new ≡ changing gone (kept_changed dismiss) (kept_of self.old)) }
        ensures none { IfNone result (self.new ≡ self.old) }
    {
        let newest = self.newest_grabbing()?;
        self.dismiss_one(newest);
        Some(newest)
    }

    /// Whether a popup has a grab (xdg-shell.xml, xdg_popup.grab).
    pub fn has_grab(&self) -> bool
        ensures { result ≡ list_any (λ e. is_grabbing e.1) self.now }
    {
        popups::has_grab(&self.surfaces)
    }

    /// Dismisses the popup of the surface, and no other.
    fn dismiss_one(&mut self, surface: SurfaceNo)
        ensures { kept_of self.new ≡ changing surface (kept_changed dismiss) (kept_of self.old) }
    {
        let Some(xdg_surface) = self.surfaces.get_mut(&surface) else {
            return;
        };
        xdg_surface.dismiss();
    }

    /// Whether a living popup has the surface's xdg_surface as its parent.
    pub fn has_child(&self, surface: SurfaceNo) -> bool
        ensures { result ≡ has_child self.now (kept_of self.now surface) }
    {
        match self.get(surface) {
            Some(xdg_surface) => popups::has_child(&self.surfaces, xdg_surface.id()),
            None => false,
        }
    }

    /// xdg_popup.destroy: the surface's xdg_surface has no role object any more, and none of its
    /// configures waits.
    ///
    /// # Errors
    ///
    /// `NotTheTopmostPopup` if a living popup has it as its parent; nothing changes.
    pub fn destroy_popup(&mut self, popup: PopupNo) -> Result<(), ShellError>
        ensures answer { result ≡ popup_destruction (has_child self.old (kept_of self.old popup)) }
        ensures ok { OnOk result (kept_of self.new ≡ changing popup kept_without_role (kept_of self.old)) }
        ensures err { OnErr result (self.new ≡ self.old) }
    {
        if self.has_child(popup) {
            return Err(ShellError::NotTheTopmostPopup);
        }
        self.destroy_toplevel(popup);
        Ok(())
    }

    /// The toplevel of the surface goes: its popups, dismissed or not, have no parent any more.
    pub fn orphan(&mut self, surface: SurfaceNo)
        ensures { kept_of self.new ≡ orphaned (kept_of self.old surface) (kept_of self.old) }
    {
        let Some(xdg_surface) = self.get(surface) else {
            return;
        };
        let id = xdg_surface.id();
        popups::orphan(&mut self.surfaces, id);
    }

    /// Each xdg_surface is found by the number of its surface. It does nothing.
    pub fn are_found(&self)
        ensures { AreFound self.now }
    {
        popups::are_found(&self.surfaces);
    }

    /// xdg_toplevel.destroy: the surface's xdg_surface has no role object any more, and none of its
    /// configures waits.
    pub fn destroy_toplevel(&mut self, surface: SurfaceNo)
        ensures { kept_of self.new ≡ changing surface kept_without_role (kept_of self.old) }
    {
        let Some(xdg_surface) = self.surfaces.get_mut(&surface) else {
            return;
        };
        xdg_surface.destroy_role();
    }

    /// xdg_surface.destroy: the surface has no xdg_surface any more.
    ///
    /// # Errors
    ///
    /// `DefunctRoleObject` if that has a role object; nothing changes.
    pub fn destroy_xdg_surface(&mut self, surface: SurfaceNo) -> Result<(), ShellError>
        ensures answer { result ≡ destruction_answer (kept_of self.old surface) }
        ensures ok { OnOk result (kept_of self.new ≡ with_kept surface None (kept_of self.old)) }
        ensures err { OnErr result (self.new ≡ self.old) }
    {
        if self.get(surface).is_some_and(XdgSurface::has_role) {
            return Err(ShellError::DefunctRoleObject);
        }
        self.surfaces.remove(&surface);
        Ok(())
    }

    /// Whether an xdg_wm_base may be destroyed (xdg-shell.xml, xdg_wm_base.destroy).
    ///
    /// # Errors
    ///
    /// `DefunctSurfaces` if there is an xdg_surface that it made.
    pub fn check_base(&self, base: u32) -> Result<(), ShellError>
        ensures err { IfErr result (λ e. (e ≡ ShellError.DefunctSurfaces) × ((surface : ℕ) × IsSomeAnd (kept_of self.now surface) (λ k. k.base ≡ base))) }
        ensures ok { OnOk result ((surface : ℕ) → IfSome (kept_of self.now surface) (λ k. k.base ≢ base)) }
    {
        if has_base(&self.surfaces, base) {
            return Err(ShellError::DefunctSurfaces);
        }
        Ok(())
    }
}

/// Whether there is an xdg_surface that this xdg_wm_base made.
fn has_base<A: Allocator>(surfaces: &BTreeMap<SurfaceNo, XdgSurface, A>, base: u32) -> bool
    ensures is { result ≡ list_any (is_of_base base) surfaces.now.entries }
    ensures found { All (λ e. kept_of surfaces.now.entries e.0 ≡ Some e.1) surfaces.now.entries }
{
    surfaces
        .iter()
        .any(|(_, xdg_surface)| xdg_surface.base() == base)
}

impl<A: Allocator + Copy> Shell<A> {
    /// xdg_wm_base.get_xdg_surface: the surface gets a new xdg_surface, without a role object.
    ///
    /// # Errors
    ///
    /// The first of these; each changes nothing:
    /// - `Role`, if the surface has a role that isn't the shell's, or has an xdg_surface;
    /// - `InvalidSurfaceState`, if it has a buffer;
    /// - `Memory`, if there is no memory for it.
    pub fn get_xdg_surface(
        &mut self,
        surface: SurfaceNo,
        id: u32,
        base: u32,
        has_other_role: bool,
        has_content: bool,
    ) -> Result<(), ShellError>
        ensures refused { MatchOption (making_refused has_other_role has_content (kept_of self.old surface)) (IsOkUnless result ShellError.Memory) (λ e. result ≡ Err e) }
        ensures ok { OnOk result (kept_of self.new ≡ with_kept surface (Some (first_kept id base)) (kept_of self.old)) }
        ensures err { OnErr result (self.new ≡ self.old) }
    {
        if has_other_role || self.surfaces.contains_key(&surface) {
            return Err(ShellError::Role);
        }
        if has_content {
            return Err(ShellError::InvalidSurfaceState);
        }
        self.surfaces.insert(surface, XdgSurface::new(id, base))?;
        Ok(())
    }
}
