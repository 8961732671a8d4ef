//! What a request of a client does, by the rules of the protocol, and how many bytes the client is
//! told.

use crate::desktop::{
    ABSENT, Client, Life, Role, SURFACES, Stage, State, Surface, World, number_of,
};
use crate::requests::{Request, Rule};
use crate::tally::Deed;
use crate::telling::{DELETED, INVALID_METHOD, INVALID_OBJECT, RELEASED};

impl World {
    /// A request of a client is taken, unless the client ended. It is told of each wl_buffer that
    /// is there and isn't busy any more.
    pub(crate) fn take(&mut self, client: usize, request: Request) {
        if self.client(client).life != Life::Alive {
            return;
        }
        if is_too_new(self.client(client), request) {
            self.count(Deed::TooNew);
            self.refuse(client, INVALID_METHOD);
        } else if let Request::DestroyBuffer(buffer) = request {
            self.remove_buffer(client, buffer);
        } else {
            let busy = self.busy(client);
            self.serve(client, request);
            if self.client(client).life == Life::Alive {
                self.release(client, busy);
            }
        }
        let goes_on = self.client(client).life == Life::Alive && !self.is_struck(client);
        if changes_windows(request) || !goes_on {
            self.conclude_request(client);
        }
    }

    fn serve(&mut self, client: usize, request: Request) {
        match request {
            Request::Start(place) => self.tell_start(client, place),
            Request::GetRegistry(_) => self.tell_registry(client),
            Request::GetPointer(_) => self.get_pointer(client),
            Request::MakeSurface(slot) => self.make_surface(number_of(client, slot)),
            Request::MakeXdgSurface(slot) => self.reach(number_of(client, slot), Stage::Roleless),
            Request::MakeToplevel(slot) => self.make_toplevel(number_of(client, slot)),
            Request::Acknowledge(slot, serial) => {
                self.acknowledge(number_of(client, slot), serial);
            }
            Request::Attach(slot, attach) => self.attach(client, number_of(client, slot), attach),
            Request::SetInput(slot, input) => self.set_input(number_of(client, slot), input),
            Request::Turn(slot, transform) => self.turn(number_of(client, slot), transform),
            Request::Scale(slot, scale) => self.set_scale(client, number_of(client, slot), scale),
            Request::Damage(slot, _) => self.damage(number_of(client, slot), false),
            Request::DamageBuffer(slot, _) => self.damage(number_of(client, slot), true),
            Request::Frame(slot, _) => self.ask_callback(number_of(client, slot)),
            Request::Commit(slot) => self.commit(client, number_of(client, slot)),
            Request::DestroyRegion => self.tell(client, DELETED),
            Request::Mistake => self.refuse(client, INVALID_OBJECT),
            _ => self.serve_roles(client, request),
        }
    }

    fn serve_roles(&mut self, client: usize, request: Request) {
        match request {
            Request::DestroyToplevel(slot) => {
                self.tell(client, DELETED);
                self.destroy_toplevel(number_of(client, slot));
            }
            Request::DestroyXdgSurface(slot) => {
                self.tell(client, DELETED);
                self.reach(number_of(client, slot), Stage::Bare);
            }
            Request::DestroySurface(slot) => self.destroy_surface(client, number_of(client, slot)),
            Request::MakeSubsurface(slot, parent) => {
                self.link(number_of(client, slot), number_of(client, parent));
            }
            Request::SetPosition(slot, x, y) => self.set_position(number_of(client, slot), x, y),
            Request::PlaceAbove(slot, other) => {
                self.place(number_of(client, slot), number_of(client, other), true);
            }
            Request::PlaceBelow(slot, other) => {
                self.place(number_of(client, slot), number_of(client, other), false);
            }
            Request::SetSync(slot) => self.set_mode(number_of(client, slot), false),
            Request::SetDesync(slot) => self.set_mode(number_of(client, slot), true),
            Request::Move(slot, serial) => self.begin_moving(number_of(client, slot), serial),
            Request::DestroySubsurface(slot) => {
                self.destroy_subsurface(client, number_of(client, slot));
            }
            _ => self.serve_popups(client, request),
        }
    }

    fn serve_popups(&mut self, client: usize, request: Request) {
        match request {
            Request::Positioner(Rule::Destroy) => self.tell(client, DELETED),
            Request::Positioner(Rule::Reactive | Rule::ParentSize(..) | Rule::ParentConfigure(_)) =>
                {
                    self.count(Deed::WithoutEffect);
                }
            Request::Reposition(slot, token, spot) => {
                self.reposition(client, number_of(client, slot), token, spot);
            }
            Request::MakePopup(slot, host, spot) => {
                self.make_popup(number_of(client, slot), number_of(client, host), spot);
            }
            Request::Grab(slot, serial) => self.grab(client, number_of(client, slot), serial),
            Request::DestroyPopup(slot) => {
                self.tell(client, DELETED);
                self.destroy_popup(number_of(client, slot));
            }
            Request::SetGeometry(slot, area) => {
                self.set_corner(number_of(client, slot), (area.x, area.y));
            }
            _ => {}
        }
    }

    fn set_corner(&mut self, surface: usize, corner: (i32, i32)) {
        let asked = Surface {
            corner_asked: Some(corner),
            ..self.surface(surface)
        };
        self.set_surface(surface, asked);
    }

    /// Which buffers of a client are shown, or will be by a commit that is held, of those whose
    /// wl_buffers are there.
    fn busy(&self, client: usize) -> [bool; 5] {
        let mut busy = [false; 5];
        for slot in 0..SURFACES {
            let surface = self.surface(number_of(client, slot));
            self.note(client, surface.current, &mut busy);
            self.note(client, surface.committed, &mut busy);
        }
        busy
    }

    fn note(&self, client: usize, state: State, busy: &mut [bool; 5]) {
        if let Some(buffer) = state.buffer
            && buffer.made == self.made(client, buffer.number)
            && let Some(place) = busy.get_mut(buffer.number)
        {
            *place = true;
        }
    }

    /// Which wl_buffer has a number now.
    pub(crate) fn made(&self, client: usize, buffer: usize) -> u32 {
        let now = self.client(client);
        now.made.get(buffer).copied().unwrap_or(0)
    }

    /// A client is told of those that were busy and aren't any more.
    fn release(&mut self, client: usize, was: [bool; 5]) {
        let busy = self.busy(client);
        for (before, after) in was.iter().zip(&busy) {
            if *before && !*after {
                self.tell(client, RELEASED);
                self.count(Deed::Release);
            }
        }
    }

    /// A wl_buffer goes. It isn't released any more, and stays shown.
    fn remove_buffer(&mut self, client: usize, buffer: usize) {
        self.tell(client, DELETED);
        let mut now = self.client(client);
        if let Some(place) = now.made.get_mut(buffer) {
            *place = place.wrapping_add(1);
        }
        self.set_client(client, now);
    }

    fn make_surface(&mut self, surface: usize) {
        self.births = self.births.wrapping_add(1);
        let made = Surface {
            birth: self.births,
            stage: Stage::Bare,
            has_object: self.surface(surface).has_object,
            ..ABSENT
        };
        self.set_surface(surface, made);
    }

    fn make_toplevel(&mut self, surface: usize) {
        let object = self.new_object();
        let made = Surface {
            object,
            role: Role::Toplevel,
            stage: Stage::Fresh,
            ..self.surface(surface)
        };
        self.set_surface(surface, made);
    }

    /// The id of a surface is given back, and then those of its frame callbacks.
    fn destroy_surface(&mut self, client: usize, surface: usize) {
        let Surface {
            asked,
            held,
            due,
            ..
        } = self.surface(surface);
        let callbacks = asked.saturating_add(held).saturating_add(due);
        for _ in 0..callbacks.saturating_add(1) {
            self.tell(client, DELETED);
        }
        self.remove_surface(surface);
    }

    fn destroy_subsurface(&mut self, client: usize, surface: usize) {
        self.tell(client, DELETED);
        self.unlink(surface);
        let without = Surface {
            has_object: false,
            ..self.surface(surface)
        };
        self.set_surface(surface, without);
    }

    fn ask_callback(&mut self, surface: usize) {
        let now = self.surface(surface);
        let asked = now.asked.saturating_add(1);
        self.set_surface(surface, Surface { asked, ..now });
    }
}

/// Whether a request may change which windows there are, or where.
fn changes_windows(request: Request) -> bool {
    matches!(
        request,
        Request::Commit(_)
            | Request::SetDesync(_)
            | Request::DestroyToplevel(_)
            | Request::DestroyPopup(_)
            | Request::DestroySurface(_)
            | Request::DestroySubsurface(_)
    )
}

/// Whether a request is only there since a version that a client's object doesn't have.
fn is_too_new(client: Client, request: Request) -> bool {
    match request {
        Request::Turn(..) => client.compositor < 2,
        Request::Scale(..) => client.compositor < 3,
        Request::DamageBuffer(..) => client.compositor < 4,
        Request::Reposition(..)
        | Request::Positioner(Rule::Reactive | Rule::ParentSize(..) | Rule::ParentConfigure(_)) => {
            client.shell < 3
        }
        _ => false,
    }
}
