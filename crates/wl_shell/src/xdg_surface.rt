//! One xdg_surface: what toplevels and popups have in common, as configures and window geometry.

ghost use Rattle.std.specs.Prelude.{◌≡◌, ◌≢◌, ◌<◌, ◌↔◌, ℕ, false, Option, Some, OnOk, OnErr, IfOk, IfSome, IfNone, IsTrue, drop, is_some, length, map, slice_index_or};
ghost use Rattle.std.specs.Option.{option_copied, option_map};
ghost use Rattle.wl_shell.specs.Shell.{Mapped, Waiting, is_full};
ghost use Rattle.wl_shell.specs.Kept.{acknowledgement_answer, arrival, commit_answer, configure_answer, destruction_answer, first_kept, geometry_answer, grab_answer, is_configured_in, kept_acknowledging, kept_after, kept_arriving, kept_asking, kept_changed, kept_configured, kept_configuring, kept_configuring_with, kept_forgetting, kept_grabbing, kept_in_stage, kept_popup, kept_repositioning, kept_toplevel, kept_unmapping, kept_without_role, placement_in, popup_answer, popup_by, reposition_answer, reposition_by, stage_in, toplevel_answer, toplevel_in};
ghost use Rattle.wl_shell.specs.Popups.{dismiss, in_force, is_dismissed_in, orphan, popup_in, waiting_in};
ghost use Rattle.wl_shell.specs.Positioner.{Placed, place};
ghost use Rattle.wl_shell.specs.Waits.{room_answer, serial_at};

use crate::popup::{Popup, PopupChange};
use crate::role_object::RoleObject;
use crate::{Configure, Placed, Positioner, ShellAct, ShellError, Stage};
use arrayvec::ArrayVec;
use std::marker::Model;
use wl_geom::Rect;

/// How many configures may wait for an acknowledgement.
const MOST_WAITING: usize = 64;

/// The toplevel that is the role object of an xdg_surface.
#[derive(Clone, Copy, Debug, PartialEq, Eq)]
pub struct Toplevel {
    /// The id of its xdg_toplevel.
    pub id: u32,
    pub stage: Stage,
}

/// An xdg_surface (xdg-shell.xml, xdg_surface). Contracts see it as the values that it keeps.
#[derive(Drop)]
pub struct XdgSurface {
    id: u32,
    base: u32,
    role: Option<RoleObject>,
    configures: ArrayVec<Configure, MOST_WAITING>,
    pending: Option<Rect>,
    applied: Option<Rect>,
}

impl Model for XdgSurface {
    ghost use Rattle.wl_shell.specs.Kept.{Kept};

    ghost Value = { Kept };

    ghost view = { λ x. record { id = x.id; base = x.base; role = x.role; configures = x.configures.items; pending = x.pending; applied = x.applied } };
}

/// The place of the last configure of this serial.
fn last_place_of(configures: &[Configure], serial: u32) -> Option<usize>
    ensures some { IfSome result (λ place. (place < length configures.now) × (serial_at configures.now place ≡ serial) × ((k : ℕ) → place < k → k < length configures.now → serial_at configures.now k ≢ serial)) }
    ensures none { IfNone result ((k : ℕ) → k < length configures.now → serial_at configures.now k ≢ serial) }
{
    configures
        .iter()
        .rposition(|configure| configure.serial == serial)
}

/// Forgets this many configures, the first ones.
fn forget_first(configures: &mut ArrayVec<Configure, MOST_WAITING>, count: usize)
    ensures { configures.new.items ≡ drop count configures.old.items }
{
    let count = count.min(configures.len());
    configures.drain(..count);
}

impl XdgSurface {
    /// A new one without a role object.
    pub(crate) fn new(id: u32, base: u32) -> Self
        ensures { result ≡ first_kept id base }
    {
        XdgSurface {
            id,
            base,
            role: None,
            configures: ArrayVec::new(),
            pending: None,
            applied: None,
        }
    }

    /// Its own id.
    pub fn id(&self) -> u32
        ensures { result ≡ self.now.id }
    {
        self.id
    }

    /// The id of the xdg_wm_base that made it.
    pub fn base(&self) -> u32
        ensures { result ≡ self.now.base }
    {
        self.base
    }

    /// The id of its role object, if it has one.
    pub fn role_id(&self) -> Option<u32>
        ensures { result ≡ option_map (λ object. object.id) self.now.role }
    {
        let role = self.role.as_ref()?;
        Some(role.id())
    }

    /// Its toplevel, if that is its role object.
    pub fn toplevel(&self) -> Option<Toplevel>
        ensures { result ≡ toplevel_in self.now.role }
    {
        self.role.as_ref()?.as_toplevel()
    }

    /// Its popup, if that is its role object.
    pub fn popup(&self) -> Option<&Popup>
        ensures { option_copied result ≡ popup_in self.now.role }
    {
        self.role.as_ref()?.popup()
    }

    /// How far its role object is, if it has one.
    pub fn stage(&self) -> Option<Stage>
        ensures { result ≡ stage_in self.now }
    {
        let role = self.role.as_ref()?;
        Some(role.stage())
    }

    /// Whether it has a role object.
    pub fn has_role(&self) -> bool
        ensures { result ≡ is_some self.now.role }
    {
        self.role.is_some()
    }

    /// Whether its surface is mapped.
    pub fn is_mapped(&self) -> bool
        ensures { IsTrue result ↔ (stage_in self.now ≡ Some Stage.Mapped) }
    {
        self.stage() == Some(Stage::Mapped)
    }

    /// The window geometry that counts, in pixels from the corner of the surface (xdg-shell.xml,
    /// xdg_surface.set_window_geometry). `None` if none was set since its role object was made, or
    /// since its surface was last unmapped.
    pub fn window_geometry(&self) -> Option<Rect>
        ensures { result ≡ self.now.applied }
    {
        self.applied
    }

    /// Forgets what was asked, and the configures.
    fn forget(&mut self)
        ensures { self.new ≡ kept_forgetting self.old }
    {
        self.configures.clear();
        self.pending = None;
        self.applied = None;
    }

    /// Whether it may get a role object.
    ///
    /// # Errors
    ///
    /// The first of these. `AlreadyConstructed` if it has a role object, `Role` if its surface has
    /// another role.
    fn check_new(&self, has_other_role: bool) -> Result<(), ShellError>
        ensures { result ≡ toplevel_answer has_other_role (Some self.now) }
    {
        if self.has_role() {
            return Err(ShellError::AlreadyConstructed);
        }
        if has_other_role {
            return Err(ShellError::Role);
        }
        Ok(())
    }

    /// xdg_surface.get_toplevel: its role object is a new toplevel. What was asked before is
    /// forgotten.
    ///
    /// # Errors
    ///
    /// The first of these; each changes nothing. `AlreadyConstructed` if it has a role object,
    /// `Role` if its surface has another role.
    pub(crate) fn get_toplevel(&mut self, id: u32, has_other_role: bool) -> Result<(), ShellError>
        ensures answer { result ≡ toplevel_answer has_other_role (Some self.old) }
        ensures ok { OnOk result (self.new ≡ kept_toplevel id self.old) }
        ensures err { OnErr result (self.new ≡ self.old) }
    {
        self.check_new(has_other_role)?;
        self.role = Some(RoleObject::toplevel(id));
        self.forget();
        Ok(())
    }

    /// xdg_surface.get_popup: its role object is a new popup, of this number in order of creation.
    /// The positioner is copied. `parent` is the id of the parent's xdg_surface, if that has a role
    /// object. What was asked before is forgotten.
    ///
    /// # Errors
    ///
    /// The first of these; each changes nothing:
    /// - `AlreadyConstructed`, if it has a role object;
    /// - `Role`, if its surface has another role;
    /// - `InvalidPopupParent`, if there is no such parent;
    /// - `InvalidPositioner`, if the positioner isn't complete.
    pub(crate) fn get_popup(
        &mut self,
        id: u32,
        parent: Option<u32>,
        positioner: &Positioner,
        number: u64,
        has_other_role: bool,
    ) -> Result<(), ShellError>
        ensures answer { result ≡ popup_answer has_other_role (is_some parent) positioner.now (Some self.old) }
        ensures ok { OnOk result (IfSome parent (λ xdg. self.new ≡ kept_popup id xdg positioner.now number self.old)) }
        ensures err { OnErr result (self.new ≡ self.old) }
    {
        self.check_new(has_other_role)?;
        let Some(parent) = parent else {
            return Err(ShellError::InvalidPopupParent);
        };
        if !positioner.is_complete() {
            return Err(ShellError::InvalidPositioner);
        }
        self.role = Some(RoleObject::popup_of(id, parent, positioner, number));
        self.forget();
        Ok(())
    }

    /// xdg_surface.set_window_geometry: this is the window geometry from the next commit on, in
    /// pixels from the corner of the surface.
    ///
    /// # Errors
    ///
    /// The first of these; each changes nothing. `NotConstructed` if it has no role object,
    /// `InvalidSize` if a side isn't positive.
    pub(crate) fn ask_geometry(&mut self, rect: Rect) -> Result<(), ShellError>
        ensures answer { result ≡ geometry_answer rect (Some self.old) }
        ensures ok { OnOk result (self.new ≡ kept_asking rect self.old) }
        ensures err { OnErr result (self.new ≡ self.old) }
    {
        if !self.has_role() {
            return Err(ShellError::NotConstructed);
        }
        if rect.w <= 0 || rect.h <= 0 {
            return Err(ShellError::InvalidSize);
        }
        self.pending = Some(rect);
        Ok(())
    }

    /// xdg_surface.ack_configure: the last configure of this serial, and those before it, don't
    /// wait any more. The latest of them that places a popup anew makes its place wait for the next
    /// commit.
    ///
    /// # Errors
    ///
    /// The first of these; each changes nothing. `NotConstructed` if it has no role object,
    /// `InvalidSerial` if no configure of this serial waits.
    pub(crate) fn acknowledge(&mut self, serial: u32) -> Result<(), ShellError>
        ensures answer { result ≡ acknowledgement_answer serial (Some self.old) }
        ensures ok { OnOk result (self.new ≡ kept_acknowledging serial self.old) }
        ensures err { OnErr result (self.new ≡ self.old) }
    {
        let Some(role) = &mut self.role else {
            return Err(ShellError::NotConstructed);
        };
        let Some(place) = last_place_of(&self.configures, serial) else {
            return Err(ShellError::InvalidSerial);
        };
        role.acknowledge(&self.configures[..=place]);
        forget_first(&mut self.configures, place + 1);
        Ok(())
    }

    /// Whether one more configure may wait.
    ///
    /// # Errors
    ///
    /// `TooMany` if 64 of them wait.
    fn check_room(&self) -> Result<(), ShellError>
        ensures { result ≡ room_answer (is_full self.now.configures) }
    {
        if self.configures.len() >= MOST_WAITING {
            return Err(ShellError::TooMany);
        }
        Ok(())
    }

    /// Whether its role object is a popup that was dismissed.
    fn is_dismissed(&self) -> bool
        ensures { result ≡ is_dismissed_in self.now.role }
    {
        match self.popup() {
            Some(popup) => popup.is_dismissed(),
            None => false,
        }
    }

    /// Where the next commit puts its popup, unless that unmaps it.
    fn waiting(&self) -> Option<Placed>
        ensures { result ≡ waiting_in self.now.role }
    {
        self.popup()?.waiting()
    }

    /// Where its popup is placed now. A toplevel is placed nowhere.
    fn placement(&self, bounds: Rect, parent_at: (i32, i32)) -> Option<Placed>
        ensures { result ≡ placement_in bounds parent_at self.now.role }
    {
        let popup = self.popup()?;
        popup.place(bounds, parent_at)
    }

    /// What a commit leads to that changes no stage: a place that waits comes into force.
    fn arrival(&self) -> ShellAct
        ensures { result ≡ arrival (waiting_in self.now.role) }
    {
        match self.waiting() {
            Some(placed) => ShellAct::Place(placed),
            None => ShellAct::Nothing,
        }
    }

    /// What a commit leads to. The table isn't used for a dismissed popup.
    fn answer(
        &self,
        has_buffer: bool,
        bounds: Rect,
        parent_at: (i32, i32),
    ) -> Result<ShellAct, ShellError>
        ensures { result ≡ commit_answer has_buffer bounds parent_at (Some self.now) }
    {
        if self.is_dismissed() {
            return Ok(ShellAct::Nothing);
        }
        match (self.stage(), has_buffer) {
            (None | Some(Stage::Fresh | Stage::Waiting), true) => Err(
                ShellError::UnconfiguredBuffer,
            ),
            (Some(Stage::Fresh), false) => {
                self.check_room()?;
                Ok(ShellAct::Configure(self.placement(bounds, parent_at)))
            }
            (Some(Stage::Ready), true) => Ok(ShellAct::Map),
            (Some(Stage::Mapped), false) => Ok(ShellAct::Unmap),
            (None | Some(Stage::Waiting | Stage::Ready), false) | (Some(Stage::Mapped), true) => Ok(
                self.arrival(),
            ),
        }
    }

    /// Makes one more configure wait.
    fn push(&mut self, serial: u32, placement: Option<Placed>)
        requires { is_full self.old.configures ≡ false }
        ensures { self.new ≡ kept_configuring_with serial placement self.old }
    {
        self.configures.push(Configure { serial, placement });
    }

    /// Puts the role object into this stage, if there is one.
    fn set_stage(&mut self, stage: Stage)
        ensures { self.new ≡ kept_in_stage stage self.old }
    {
        if let Some(role) = &mut self.role {
            role.set_stage(stage);
        }
    }

    /// Makes this change to its popup, if it has one.
    fn change(&mut self, change: &PopupChange)
        ensures { self.new ≡ kept_changed (popup_by change.now) self.old }
    {
        if let Some(role) = &mut self.role {
            role.change(change);
        }
    }

    /// Its surface is unmapped. A popup then holds no grab, stays where it is, and forgets where it
    /// was to be placed.
    fn unmap(&mut self)
        ensures { self.new ≡ kept_unmapping self.old }
    {
        self.forget();
        self.set_stage(Stage::Fresh);
        self.change(&PopupChange::Unmap);
    }

    /// Places a popup at this place, and makes a configure of this serial wait.
    fn configure_placed(&mut self, placed: Option<Placed>, serial: u32)
        requires { is_full self.old.configures ≡ false }
        ensures { self.new ≡ kept_configuring serial (kept_changed (in_force placed) (kept_in_stage Waiting self.old)) }
    {
        self.set_stage(Stage::Waiting);
        self.change(&PopupChange::Place(placed));
        self.push(serial, None);
    }

    /// A place that waits comes into force.
    fn arrive(&mut self)
        ensures { self.new ≡ kept_arriving (waiting_in self.old.role) self.old }
    {
        if let Some(placed) = self.waiting() {
            self.change(&PopupChange::Arrive(placed));
        }
    }

    /// Its surface is mapped.
    fn map(&mut self)
        ensures { self.new ≡ kept_in_stage Mapped (kept_arriving (waiting_in self.old.role) self.old) }
    {
        self.arrive();
        self.set_stage(Stage::Mapped);
    }

    /// Does what a commit leads to.
    fn act(&mut self, act: ShellAct, serial: u32)
        requires { (placed : Option Placed) → act ≡ ShellAct.Configure placed → is_full self.old.configures ≡ false }
        ensures { self.new ≡ kept_after serial act self.old }
    {
        self.applied = self.pending;
        match act {
            ShellAct::Configure(placed) => self.configure_placed(placed, serial),
            ShellAct::Map => self.map(),
            ShellAct::Unmap => self.unmap(),
            ShellAct::Place(placed) => self.change(&PopupChange::Arrive(placed)),
            ShellAct::Nothing => {}
        }
    }

    /// wl_surface.commit, after which the surface has a buffer or not. The window geometry that was
    /// asked counts from now on. A configure to be sent has this serial, and waits to be
    /// acknowledged.
    ///
    /// `Configure` also places a popup, within the bounds. They are in pixels of the output, as is
    /// `parent_at`, where the parent's window geometry stands. A popup placed anew moves at the
    /// first commit after its client acknowledged that, unless the commit unmaps it. Nothing else
    /// changes of a dismissed popup.
    ///
    /// # Errors
    ///
    /// Each changes nothing. `UnconfiguredBuffer` if the surface has a buffer and no configure was
    /// acknowledged; `TooMany` if a configure would be sent and 64 of them wait.
    pub(crate) fn commit(
        &mut self,
        has_buffer: bool,
        bounds: Rect,
        parent_at: (i32, i32),
        serial: u32,
    ) -> Result<ShellAct, ShellError>
        ensures answer { result ≡ commit_answer has_buffer bounds parent_at (Some self.old) }
        ensures ok { IfOk result (λ act. self.new ≡ kept_after serial act self.old) }
        ensures err { OnErr result (self.new ≡ self.old) }
    {
        let act = self.answer(has_buffer, bounds, parent_at)?;
        self.act(act, serial);
        Ok(act)
    }

    /// xdg_toplevel.set_maximized and the like: asks for another state. If a configure was sent
    /// before, one of this serial answers it; else nothing does. The answer says which.
    ///
    /// # Errors
    ///
    /// `TooMany` if a configure would be sent and 64 of them wait; nothing changes.
    pub(crate) fn configure(&mut self, serial: u32) -> Result<bool, ShellError>
        ensures answer { result ≡ configure_answer (Some self.old) }
        ensures ok { IfOk result (λ is_sent. self.new ≡ kept_configured is_sent serial self.old) }
        ensures err { OnErr result (self.new ≡ self.old) }
    {
        if !self.stage().is_some_and(Stage::answers_states) {
            return Ok(false);
        }
        self.check_room()?;
        self.push(serial, None);
        Ok(true)
    }

    /// Whether its role object is a popup that was configured before and isn't dismissed.
    fn is_popup_configured(&self) -> bool
        ensures { result ≡ is_configured_in self.now.role }
    {
        self.popup().is_some_and(|popup| !popup.is_dismissed())
            && self.stage().is_some_and(Stage::answers_states)
    }

    /// Where this positioner places its popup anew, if it is to be configured anew.
    fn placed_anew(
        &self,
        positioner: &Positioner,
        bounds: Rect,
        parent_at: (i32, i32),
    ) -> Result<Option<Placed>, ShellError>
        ensures { result ≡ reposition_by (is_configured_in self.now.role) positioner.now (place positioner.now bounds parent_at) self.now.configures }
    {
        let is_configured = self.is_popup_configured();
        if is_configured {
            self.check_room()?;
        }
        if !positioner.is_complete() {
            return Err(ShellError::InvalidPositioner);
        }
        Ok(is_configured.then(|| positioner.place(bounds, parent_at)))
    }

    /// xdg_popup.reposition: its popup gets a copy of the positioner. One that was configured
    /// before and isn't dismissed is placed anew, within the bounds. They are in pixels of the
    /// output, as is `parent_at`, where the parent's window geometry stands. It takes no memory.
    ///
    /// The answer is the new place, to be sent with a configure of this serial, which waits to be
    /// acknowledged. The popup stays where it is until a commit after that. Without a popup nothing
    /// changes.
    ///
    /// # Errors
    ///
    /// The first of these; each changes nothing. `TooMany` if a configure would be sent and 64 of
    /// them wait; `InvalidPositioner` if the positioner isn't complete.
    pub(crate) fn reposition(
        &mut self,
        positioner: &Positioner,
        bounds: Rect,
        parent_at: (i32, i32),
        serial: u32,
    ) -> Result<Option<Placed>, ShellError>
        ensures answer { result ≡ reposition_answer positioner.now bounds parent_at (Some self.old) }
        ensures ok { IfOk result (λ placed. self.new ≡ kept_repositioning placed serial positioner.now self.old) }
        ensures err { OnErr result (self.new ≡ self.old) }
    {
        if self.popup().is_none() {
            return Ok(None);
        }
        let placed = self.placed_anew(positioner, bounds, parent_at)?;
        self.change(&PopupChange::Copy(*positioner));
        if placed.is_some() {
            self.push(serial, placed);
        }
        Ok(placed)
    }

    /// xdg_popup.grab: its popup gets a grab if it is allowed. The answer is false, and nothing
    /// changes, if the popup is to be dismissed. It is true if the popup has the grab, or if
    /// nothing is to be done, since it was dismissed or isn't there.
    ///
    /// # Errors
    ///
    /// `InvalidGrab` if the popup is mapped; nothing changes.
    pub(crate) fn grab(&mut self, is_allowed: bool) -> Result<bool, ShellError>
        ensures answer { result ≡ grab_answer is_allowed (Some self.old) }
        ensures ok { IfOk result (λ is_taken. self.new ≡ kept_grabbing is_taken self.old) }
        ensures err { OnErr result (self.new ≡ self.old) }
    {
        if self.popup().is_none() || self.is_dismissed() {
            return Ok(true);
        }
        if self.is_mapped() {
            return Err(ShellError::InvalidGrab);
        }
        if is_allowed {
            self.change(&PopupChange::Grab);
        }
        Ok(is_allowed)
    }

    /// Dismisses its popup, if it has one. That has no grab any more.
    pub(crate) fn dismiss(&mut self)
        ensures { self.new ≡ kept_changed dismiss self.old }
    {
        self.change(&PopupChange::Dismiss);
    }

    /// The toplevel of the xdg_surface with this id goes. If that is the parent of its popup, the
    /// popup has no parent any more.
    pub(crate) fn orphan(&mut self, xdg_surface: u32)
        ensures { self.new ≡ kept_changed (orphan xdg_surface) self.old }
    {
        self.change(&PopupChange::Orphan(xdg_surface));
    }

    /// xdg_toplevel.destroy or xdg_popup.destroy: its role object goes, and what was asked is
    /// forgotten.
    pub(crate) fn destroy_role(&mut self)
        ensures { self.new ≡ kept_without_role self.old }
    {
        self.role = None;
        self.forget();
    }
}
