//! The requests of wl_region, an area such as the opaque or the input region of a surface
//! (wayland.xml, wl_region). They add and subtract rectangles.

ghost use Rattle.std.specs.Prelude.{◌≡◌, ◌≤◌, length};
ghost use Rattle.std.specs.Option.{option_map};
ghost use Rattle.spec_desktop.specs.Judgement.{changed_unless_full, region_action};
ghost use Rattle.spec_desktop.specs.Objects.{held_at};

use crate::clients::Client;
use spec_desktop::{Action, ErrorCode, Refusal};
use std::alloc::Allocator;
use std::collections::BTreeMap;
use wl_geom::{MAX_CHANGES, Rect, Region};
use wl_proto::{Interface, WlRegionRequest};

/// What a request of a wl_region asks, or its refusal if the region has all its changes.
pub(crate) fn action<A: Allocator>(
    regions: &BTreeMap<u32, Region<A>, A>,
    object: u32,
    request: &WlRegionRequest,
) -> Result<Action, Refusal>
    ensures { result ≡ region_action object (option_map (λ area. area.changes) (held_at regions.now.entries object)) request.now }
{
    let Some(region) = regions.get(&object) else {
        return Err(Refusal::of_display(ErrorCode::Implementation));
    };
    match *request {
        WlRegionRequest::Destroy => Ok(Action::DestroyRegion(object)),
        WlRegionRequest::Add {
            x,
            y,
            width: w,
            height: h,
        } => change(region, Action::AddToRegion(object, Rect { x, y, w, h })),
        WlRegionRequest::Subtract {
            x,
            y,
            width: w,
            height: h,
        } => change(
            region,
            Action::SubtractFromRegion(object, Rect { x, y, w, h }),
        ),
    }
}

/// A change, unless the region has all its changes.
fn change<A: Allocator>(region: &Region<A>, change: Action) -> Result<Action, Refusal>
    ensures { result ≡ changed_unless_full region.now.changes change }
{
    if region.changes() >= MAX_CHANGES {
        return Err(Refusal::of_display(ErrorCode::Implementation));
    }
    Ok(change)
}

impl<A: Allocator + Copy> Client<A> {
    ghost use Rattle.wl_client.specs.Agreement.{IsPeer};
    ghost use Rattle.spec_desktop.specs.Objects.{entry_at_version};
    ghost use Rattle.wl_proto.specs.declared.interface.Interface.TheVariants.{WlRegion};
    ghost use Rattle.wl_table.specs.Objects.{HoldsAt};
    ghost use Rattle.std.specs.Prelude.{Some, None};
    ghost use Rattle.spec_desktop.specs.Peer.{Acts, Peer};
    ghost use Rattle.spec_desktop.specs.declared.actions.Action.TheVariants.{CreateRegion, AddToRegion, SubtractFromRegion, DestroyRegion};

    /// Makes an empty region.
    pub fn create_region(&mut self, id: u32, version: u32)
        ensures acts { (p : Peer) → IsPeer self.old p → (q : Peer) × Acts (CreateRegion id version) p q × IsPeer self.new q }
        ensures table { self.new.ended ≡ None → HoldsAt self.old.objects self.new.objects id (Some (entry_at_version WlRegion version)) }
        ensures rest { length self.new.rest ≤ length self.old.rest }
    {
        match self.regions.insert(id, Region::new(self.alloc)) {
            Ok(_) => self.make(id, Interface::WlRegion, version, &[]),
            Err(_) => self.lack_memory(),
        }
    }

    /// Adds the rectangle to a region.
    pub(crate) fn add_to_region(&mut self, id: u32, rect: Rect)
        ensures acts { (p : Peer) → IsPeer self.old p → (q : Peer) × Acts (AddToRegion id rect) p q × IsPeer self.new q }
        ensures table { self.new.ended ≡ None → self.new.objects ≡ self.old.objects }
        ensures rest { length self.new.rest ≤ length self.old.rest }
    {
        let Some(region) = self.regions.get_mut(&id) else {
            return;
        };
        match region.add(rect) {
            Ok(()) => {}
            Err(_) => self.lack_memory(),
        }
    }

    /// Takes the rectangle from a region.
    pub(crate) fn subtract_from_region(&mut self, id: u32, rect: Rect)
        ensures acts { (p : Peer) → IsPeer self.old p → (q : Peer) × Acts (SubtractFromRegion id rect) p q × IsPeer self.new q }
        ensures table { self.new.ended ≡ None → self.new.objects ≡ self.old.objects }
        ensures rest { length self.new.rest ≤ length self.old.rest }
    {
        let Some(region) = self.regions.get_mut(&id) else {
            return;
        };
        match region.subtract(rect) {
            Ok(()) => {}
            Err(_) => self.lack_memory(),
        }
    }

    /// Removes a region.
    pub(crate) fn destroy_region(&mut self, id: u32)
        ensures acts { (p : Peer) → IsPeer self.old p → (q : Peer) × Acts (DestroyRegion id) p q × IsPeer self.new q }
        ensures table { self.new.ended ≡ None → HoldsAt self.old.objects self.new.objects id None }
        ensures rest { length self.new.rest ≤ length self.old.rest }
    {
        let _region = self.regions.remove(&id);
        self.remove(id);
    }
}
