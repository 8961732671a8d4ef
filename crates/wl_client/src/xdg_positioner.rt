//! The requests of xdg_positioner, the rules by which a popup is placed beside its parent
//! (xdg-shell.xml, xdg_positioner).

ghost use Rattle.std.specs.Prelude.{◌≡◌, ◌≤◌, true, length};
ghost use Rattle.spec_desktop.specs.Judgement.{positioner_action, set_if_allowed};
ghost use Rattle.wl_shell.specs.Settings.{is_allowed};

use crate::clients::Client;
use spec_desktop::{Action, ErrorCode, Refusal};
use std::alloc::Allocator;
use wl_geom::Rect;
use wl_proto::{Interface, XdgPositionerRequest};
use wl_shell::{Positioner, Setting};

/// What a request of an xdg_positioner asks, or its refusal.
pub(crate) fn action(object: u32, request: &XdgPositionerRequest) -> Result<Action, Refusal>
    ensures { result ≡ positioner_action object request.now }
{
    match *request {
        XdgPositionerRequest::Destroy => Ok(Action::DestroyPositioner(object)),
        XdgPositionerRequest::SetSize {
            width: w,
            height: h,
        } => set(object, Setting::Size(w, h)),
        XdgPositionerRequest::SetAnchorRect {
            x,
            y,
            width: w,
            height: h,
        } => set(object, Setting::AnchorRect(Rect { x, y, w, h })),
        XdgPositionerRequest::SetAnchor { anchor } => set(object, Setting::Anchor(anchor)),
        XdgPositionerRequest::SetGravity { gravity } => set(object, Setting::Gravity(gravity)),
        XdgPositionerRequest::SetConstraintAdjustment {
            constraint_adjustment,
        } => set(object, Setting::Adjustment(constraint_adjustment)),
        XdgPositionerRequest::SetOffset { x, y } => set(object, Setting::Offset(x, y)),
        XdgPositionerRequest::SetReactive => set(object, Setting::Reactive),
        XdgPositionerRequest::SetParentSize {
            parent_width,
            parent_height,
        } => set(object, Setting::ParentSize(parent_width, parent_height)),
        XdgPositionerRequest::SetParentConfigure { serial } => {
            set(object, Setting::ParentConfigure(serial))
        }
    }
}

/// A setting, unless it isn't allowed.
fn set(object: u32, setting: Setting) -> Result<Action, Refusal>
    ensures { result ≡ set_if_allowed object setting }
{
    if !setting.is_allowed() {
        return Err(Refusal::of(object, ErrorCode::InvalidInput));
    }
    Ok(Action::SetPositioner(object, setting))
}

impl<A: Allocator + Copy> Client<A> {
    ghost use Rattle.wl_client.specs.Agreement.{IsPeer};
    ghost use Rattle.spec_desktop.specs.Objects.{entry_at_version};
    ghost use Rattle.wl_proto.specs.declared.interface.Interface.TheVariants.{XdgPositioner};
    ghost use Rattle.wl_table.specs.Objects.{HoldsAt};
    ghost use Rattle.std.specs.Prelude.{Some, None};
    ghost use Rattle.spec_desktop.specs.Peer.{Acts, Peer};
    ghost use Rattle.spec_desktop.specs.declared.actions.Action.TheVariants.{CreatePositioner, SetPositioner, DestroyPositioner};

    /// Makes a positioner, for which nothing is set.
    pub fn create_positioner(&mut self, id: u32, version: u32)
        ensures acts { (p : Peer) → IsPeer self.old p → (q : Peer) × Acts (CreatePositioner id version) p q × IsPeer self.new q }
        ensures table { self.new.ended ≡ None → HoldsAt self.old.objects self.new.objects id (Some (entry_at_version XdgPositioner version)) }
        ensures rest { length self.new.rest ≤ length self.old.rest }
    {
        match self.positioners.insert(id, Positioner::new()) {
            Ok(_) => self.make(id, Interface::XdgPositioner, version, &[]),
            Err(_) => self.lack_memory(),
        }
    }

    /// Sets this, which is allowed, of a positioner.
    pub(crate) fn set_positioner(&mut self, id: u32, setting: &Setting)
        requires allowed { is_allowed setting.now ≡ true }
        ensures acts { (p : Peer) → IsPeer self.old p → (q : Peer) × Acts (SetPositioner id setting.now) p q × IsPeer self.new q }
        ensures table { self.new.ended ≡ None → self.new.objects ≡ self.old.objects }
        ensures rest { length self.new.rest ≤ length self.old.rest }
    {
        let Some(positioner) = self.positioners.get_mut(&id) else {
            return;
        };
        // It is allowed, so it is set.
        let _answer = positioner.set(setting);
    }

    /// Removes a positioner.
    pub(crate) fn destroy_positioner(&mut self, id: u32)
        ensures acts { (p : Peer) → IsPeer self.old p → (q : Peer) × Acts (DestroyPositioner id) p q × IsPeer self.new q }
        ensures table { self.new.ended ≡ None → HoldsAt self.old.objects self.new.objects id None }
        ensures rest { length self.new.rest ≤ length self.old.rest }
    {
        let _positioner = self.positioners.remove(&id);
        self.remove(id);
    }
}
