//! The role object of an xdg_surface: a toplevel or a popup.

ghost use Rattle.std.specs.Prelude.{◌≡◌, Some};
ghost use Rattle.std.specs.Option.{option_copied};
ghost use Rattle.wl_shell.specs.Kept.{kind_toplevel, popup_by, toplevel_object};
ghost use Rattle.wl_shell.specs.Popups.{kind_popup, popup_object, with_popup_role};
ghost use Rattle.wl_shell.specs.Shell.{at_stage, role_acknowledged};

use crate::popup::{Popup, PopupChange};
use crate::{Configure, Positioner, Stage, Toplevel};
use std::marker::Model;

/// What a role object is.
#[derive(Drop)]
pub(crate) enum Kind {
    Toplevel,
    Popup(Popup),
}

/// The role object of an xdg_surface. Contracts see it as the definition's.
#[derive(Drop)]
pub(crate) struct RoleObject {
    id: u32,
    kind: Kind,
    stage: Stage,
}

impl Model for RoleObject {
    ghost use Rattle.wl_shell.specs.Kept.{kind_of};
    ghost use Rattle.wl_shell.specs.Shell.{RoleObject};

    ghost Value = { RoleObject };

    ghost view = { λ o. record { id = o.id; kind = kind_of o.kind; stage = o.stage } };
}

impl RoleObject {
    /// A new toplevel.
    pub(crate) fn toplevel(id: u32) -> RoleObject
        ensures { result ≡ toplevel_object id }
    {
        RoleObject {
            id,
            kind: Kind::Toplevel,
            stage: Stage::Fresh,
        }
    }

    /// A new popup.
    pub(crate) fn popup_of(id: u32, parent: u32, positioner: &Positioner, number: u64) -> RoleObject
        ensures { result ≡ popup_object id parent positioner.now number }
    {
        RoleObject {
            id,
            kind: Kind::Popup(Popup::new(parent, positioner, number)),
            stage: Stage::Fresh,
        }
    }

    pub(crate) fn id(&self) -> u32
        ensures { result ≡ self.now.id }
    {
        self.id
    }

    pub(crate) fn stage(&self) -> Stage
        ensures { result ≡ self.now.stage }
    {
        self.stage
    }

    /// Its popup, if it is one.
    pub(crate) fn popup(&self) -> Option<&Popup>
        ensures { option_copied result ≡ kind_popup self.now.kind }
    {
        match &self.kind {
            Kind::Toplevel => None,
            Kind::Popup(popup) => Some(popup),
        }
    }

    /// Its toplevel, if it is one.
    pub(crate) fn as_toplevel(&self) -> Option<Toplevel>
        ensures { result ≡ kind_toplevel self.now self.now.kind }
    {
        match self.kind {
            Kind::Toplevel => Some(Toplevel {
                id: self.id,
                stage: self.stage,
            }),
            Kind::Popup(_) => None,
        }
    }

    /// Notes that these configures were acknowledged, the earliest first.
    pub(crate) fn acknowledge(&mut self, configures: &[Configure])
        ensures { self.new ≡ role_acknowledged configures.now self.old }
    {
        self.stage = self.stage.acknowledged();
        if let Kind::Popup(popup) = &mut self.kind {
            popup.acknowledge(configures);
        }
    }

    /// Puts it into this stage.
    pub(crate) fn set_stage(&mut self, stage: Stage)
        ensures { self.new ≡ at_stage stage self.old }
    {
        self.stage = stage;
    }

    /// Makes this change to it, if it is a popup.
    pub(crate) fn change(&mut self, change: &PopupChange)
        ensures { self.new ≡ with_popup_role (popup_by change.now) self.old }
    {
        match &mut self.kind {
            Kind::Toplevel => {}
            Kind::Popup(popup) => popup.change(change),
        }
    }
}
