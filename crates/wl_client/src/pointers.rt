//! What clients are told of the pointer.

ghost use Rattle.std.specs.Prelude.{◌≡◌, MatchResult, Some};
ghost use Rattle.spec_desktop.specs.Peer.{Peer, QueuesTo};
ghost use Rattle.spec_desktop.specs.Told.{said};
ghost use Rattle.wl_client.specs.Said.{said_of};
ghost use Rattle.wl_client.specs.Pointers.{has_serial, pointer_message, pointers_told, serial_after, TellsPointers};

use crate::clients::Client;
use spec_desktop::Cause;
use std::alloc::Allocator;
use wl_proto::{Event, EventBody, WlPointerEvent};
use wl_wire::Fixed;

/// What the wl_pointers of a client are told, without the serial (wayland.xml, wl_pointer, version
/// 1). A surface is named by its id. A point is relative to the corner of the surface, in 24.8
/// fixed numbers: 256 a pixel.
#[derive(Clone, Copy, Debug, PartialEq, Eq)]
pub enum PointerEvent {
    /// The pointer enters a surface, at this point.
    Enter {
        surface: u32,
        x: i32,
        y: i32,
    },
    /// It leaves a surface.
    Leave {
        surface: u32,
    },
    /// It moves to this point of the surface that it is at. The time is in milliseconds.
    Motion {
        time: u32,
        x: i32,
        y: i32,
    },
    /// A button, named by its code, is pressed or released. The time is in milliseconds.
    Button {
        time: u32,
        button: u32,
        pressed: bool,
    },
}

impl PointerEvent {
    fn has_serial(self) -> bool
        ensures { result ≡ has_serial self }
    {
        match self {
            PointerEvent::Motion { .. } => false,
            PointerEvent::Enter { .. } | PointerEvent::Leave { .. } | PointerEvent::Button { .. } =>
                true,
        }
    }

    /// The event of a wl_pointer, with this serial if it has one.
    fn of(self, pointer: u32, serial: u32) -> Event<'static>
        ensures { said_of result ≡ said pointer (pointer_message self serial) }
    {
        let event = match self {
            PointerEvent::Enter { surface, x, y } => WlPointerEvent::Enter {
                serial,
                surface,
                surface_x: Fixed(x),
                surface_y: Fixed(y),
            },
            PointerEvent::Leave { surface } => WlPointerEvent::Leave { serial, surface },
            PointerEvent::Motion { time, x, y } => WlPointerEvent::Motion {
                time,
                surface_x: Fixed(x),
                surface_y: Fixed(y),
            },
            PointerEvent::Button {
                time,
                button,
                pressed,
            } => WlPointerEvent::Button {
                serial,
                time,
                button,
                state: u32::from(pressed),
            },
        };
        Event {
            object: pointer,
            body: EventBody::WlPointer(event),
        }
    }
}

impl<A: Allocator + Copy> Client<A> {
    ghost use Rattle.wl_client.specs.Agreement.{IsPeer};
    ghost use Rattle.wl_client.specs.View.{opened};

    /// Queues an event for each of these wl_pointers, in this order. All are told one serial, which
    /// is drawn for them. None is drawn without wl_pointers, or if the event has no serial.
    ///
    /// It stops at the first event that isn't queued. The client is to end for that cause, and is
    /// told nothing more until then (see `queue`).
    ///
    /// # Errors
    ///
    /// Why an event wasn't queued: `Slow` if too many bytes would wait, or `Memory`.
    pub fn tell_pointers(&mut self, pointers: &[u32], event: PointerEvent) -> Result<(), Cause>
        ensures tells { (p : Peer) → IsPeer self.old p → (q : Peer) × TellsPointers event pointers.now p q self.new.refused × IsPeer (opened self.new) q }
        ensures only { self.new ≡ record self.old { unsent = self.new.unsent; refused = self.new.refused; serial = self.new.serial } }
        ensures drawn { self.new.serial ≡ serial_after event pointers.now self.old.serial }
        ensures answer { MatchResult result (λ _. self.new.refused ≡ self.old.refused) (λ cause. self.new.refused ≡ Some cause) }
    {
        let serial = self.serial();
        self.draw_for(pointers, event);
        self.queue_for_each(pointers, event, serial)
    }

    /// Draws the serial of an event for these wl_pointers, if it has one and there are any.
    fn draw_for(&mut self, pointers: &[u32], event: PointerEvent)
        ensures { self.new ≡ record self.old { serial = serial_after event pointers.now self.old.serial } }
    {
        if event.has_serial() && !pointers.is_empty() {
            self.draw_serial();
        }
    }

    /// Queues an event of each of these wl_pointers, in this order, until one isn't queued.
    fn queue_for_each(
        &mut self,
        pointers: &[u32],
        event: PointerEvent,
        serial: u32,
    ) -> Result<(), Cause>
        ensures tells { (p : Peer) → IsPeer self.old p → (q : Peer) × QueuesTo (pointers_told event serial pointers.now) p q self.new.refused × IsPeer (opened self.new) q }
        ensures only { self.new ≡ record self.old { unsent = self.new.unsent; refused = self.new.refused } }
        ensures answer { MatchResult result (λ _. self.new.refused ≡ self.old.refused) (λ cause. self.new.refused ≡ Some cause) }
    {
        for pointer in pointers {
            self.queue(&event.of(*pointer, serial))?;
        }
        Ok(())
    }
}
