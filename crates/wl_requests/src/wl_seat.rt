//! The requests of wl_seat, a group of keyboards, pointers and touch devices (wayland.xml,
//! wl_seat). They make the objects of these. Here a seat has a pointer alone.

ghost use Rattle.std.specs.Prelude.{ℕ, ◌≡◌, Ok, false, is_some, true};
ghost use Rattle.wl_proto.specs.Messages.{wl_seat_request};
ghost use Rattle.wl_requests.specs.Residents.{AnswersDemand, IsFree, Leaves, NewIsFree};
ghost use Rattle.spec_desktop.specs.Demand.{GetPointer};
ghost use Rattle.spec_desktop.specs.Demanding.{demand_of};

use crate::residents::Resident;
use std::alloc::Allocator;
use wl_client::{ErrorCode, Refusal};
use wl_proto::{Interface, WlSeatRequest};
use wl_table::Entry;

impl<A: Allocator + Copy> Resident<A> {
    /// wl_seat.get_pointer: makes a wl_pointer under a free id. It is told nothing here. Without
    /// room for it, the client ends as out of memory.
    fn get_pointer(&mut self, version: u32, id: u32, has_room: bool)
        ensures answers { IsFree self.old id → AnswersDemand (λ r. Ok (GetPointer id version)) self.old self.new }
        ensures rest { Leaves self.old self.new }
        ensures room { has_room ≡ false → is_some self.new.client.ended ≡ true }
    {
        self.client.count();
        if !has_room {
            self.client.lack_memory();
            return;
        }
        let entry = Entry {
            interface: Interface::WlPointer,
            version,
            target: 0,
        };
        self.client.add(id, entry, &[]);
    }

    /// A request of a wl_seat whose new id is free. It has a pointer, and no keyboard and no touch.
    pub(crate) fn wl_seat(
        &mut self,
        object: u32,
        version: u32,
        request: &WlSeatRequest,
        has_room: bool,
    )
        ensures answers { NewIsFree self.old (wl_seat_request request.now)
            → AnswersDemand (λ r. demand_of r object version (wl_seat_request request.now)) self.old self.new }
        ensures rest { Leaves self.old self.new }
        ensures room { (id : ℕ) → request.now ≡ WlSeatRequest.GetPointer id → has_room ≡ false → is_some self.new.client.ended ≡ true }
    {
        match *request {
            WlSeatRequest::GetPointer { id } => self.get_pointer(version, id, has_room),
            WlSeatRequest::GetKeyboard { .. } | WlSeatRequest::GetTouch { .. } => self
                .client
                .refuse(Refusal::of(object, ErrorCode::MissingCapability)),
        }
    }
}
