//! The requests of wl_display, the core object with which each connection begins (wayland.xml,
//! wl_display): sync, a round trip, and get_registry.

ghost use Rattle.std.specs.Prelude.{◌≡◌, ◌≤◌, length};
ghost use Rattle.spec_desktop.specs.Judgement.{display_action};

use crate::clients::Client;
use crate::events::{callback_event, deletion_event};
use crate::globals::globals_told;
use spec_desktop::Action;
use std::alloc::Allocator;
use wl_proto::{Interface, WlDisplayRequest};

/// What a request of wl_display asks.
pub(crate) fn action(request: &WlDisplayRequest) -> Action
    ensures { result ≡ display_action request.now }
{
    match *request {
        WlDisplayRequest::Sync { callback } => Action::Sync(callback),
        WlDisplayRequest::GetRegistry { registry } => Action::GetRegistry(registry),
    }
}

impl<A: Allocator + Copy> Client<A> {
    ghost use Rattle.wl_client.specs.Agreement.{IsPeer};
    ghost use Rattle.spec_desktop.specs.Objects.{entry_at_version};
    ghost use Rattle.wl_table.specs.Objects.{HoldsAt};
    ghost use Rattle.wl_proto.specs.declared.interface.Interface.TheVariants.{WlRegistry};
    ghost use Rattle.std.specs.Prelude.{Some, None};
    ghost use Rattle.spec_desktop.specs.Peer.{Acts, Peer};
    ghost use Rattle.spec_desktop.specs.declared.actions.Action.TheVariants.{Sync, GetRegistry};

    /// A sync: its callback is done at once, and its id given back.
    pub(crate) fn sync(&mut self, callback: u32)
        ensures acts { (p : Peer) → IsPeer self.old p → (q : Peer) × Acts (Sync callback) p q × IsPeer self.new q }
        ensures table { self.new.ended ≡ None → self.new.objects ≡ self.old.objects }
        ensures rest { length self.new.rest ≤ length self.old.rest }
    {
        self.queue_all(&[callback_event(callback), deletion_event(callback)]);
    }

    /// Makes a registry, which tells the globals.
    pub(crate) fn get_registry(&mut self, registry: u32)
        ensures acts { (p : Peer) → IsPeer self.old p → (q : Peer) × Acts (GetRegistry registry) p q × IsPeer self.new q }
        ensures table { self.new.ended ≡ None → HoldsAt self.old.objects self.new.objects registry (Some (entry_at_version WlRegistry 1)) }
        ensures rest { length self.new.rest ≤ length self.old.rest }
    {
        self.make(registry, Interface::WlRegistry, 1, &globals_told(registry));
    }
}
