//! What clients do, by chance.

use crate::desktop::{
    CLIENTS, Client, Content, Life, Planned, Role, SURFACES, Stage, Surface, World, client_of,
    number_of, slot_of,
};
use crate::drawing::is_divided;
use crate::requests::{Area, Attach, BUFFERS, Request, STARTS};
use crate::tally::Deed;
use crate::telling::{BEGUN, LIMIT, REGISTRY};

impl World {
    /// A tick, or something that a client does.
    pub(crate) fn turn_once(&mut self) {
        if self.one_in(8) {
            self.tick();
        } else if self.one_in(4) {
            self.use_pointer();
        } else {
            let client = self.below(CLIENTS);
            if self.reads(client) && self.one_in(12) {
                self.send_waiting(client);
            } else {
                self.act(client);
            }
        }
    }

    /// Whether a client is there and isn't deaf, or ended.
    fn reads(&self, client: usize) -> bool {
        let now = self.client(client);
        match now.life {
            Life::Free => false,
            Life::Alive => !now.deaf,
            Life::Gone | Life::Refused(_) | Life::Slow => true,
        }
    }

    fn act(&mut self, client: usize) {
        let now = self.client(client);
        match now.life {
            Life::Free => self.connect(),
            Life::Gone | Life::Refused(_) | Life::Slow => self.act_ended(client, now),
            Life::Alive if self.one_in(120) => self.leave(client),
            Life::Alive if now.from < now.to => self.send_some(client, now),
            Life::Alive if now.started => self.act_started(client),
            Life::Alive => self.start(client, now),
        }
    }

    /// What is left of its stream comes after its end, or its number is given back.
    fn act_ended(&mut self, client: usize, now: Client) {
        if now.from < now.to && self.one_in(2) {
            self.send(client, now.to);
        } else {
            self.close(client);
        }
    }

    pub(crate) fn leave(&mut self, client: usize) {
        self.end(client, Life::Gone);
        self.conclude();
        self.plan(Planned::Gone(client));
    }

    /// The next piece of a client's stream.
    fn send_some(&mut self, client: usize, now: Client) {
        let left = now.to.saturating_sub(now.from);
        let count = if self.one_in(2) {
            left
        } else {
            self.below(left).saturating_add(1).min(left)
        };
        if count < left {
            self.count(Deed::Cut);
        }
        self.send(client, now.from.saturating_add(count));
    }

    /// Gets the globals, a pool and its buffers.
    fn start(&mut self, client: usize, now: Client) {
        let started = Client {
            started: true,
            ..now
        };
        self.set_client(client, started);
        self.begin(client);
        for place in 0..STARTS {
            self.ask(Request::Start(place));
        }
        self.ask(Request::BindCompositor(now.compositor));
        self.ask(Request::BindShell(now.shell));
        for buffer in 0..BUFFERS {
            self.ask(Request::MakeBuffer(buffer));
        }
        if !self.one_in(4) {
            self.ask_pointer(client);
        }
        if now.deaf {
            self.ask_much();
        }
        self.finish(client);
    }

    /// Gets a wl_pointer.
    fn ask_pointer(&mut self, client: usize) {
        let now = self.client(client);
        let pointers_asked = now.pointers_asked.saturating_add(1);
        self.ask(Request::GetPointer(now.pointers_asked));
        self.set_client(
            client,
            Client {
                pointers_asked,
                ..now
            },
        );
    }

    /// Asks for registries until not much more may wait for the client.
    fn ask_much(&mut self) {
        let fit = LIMIT.saturating_sub(BEGUN) / REGISTRY;
        for number in self.below(8)..fit {
            self.ask(Request::GetRegistry(number));
        }
    }

    /// A client whose requests were all sent asks for something more.
    fn act_started(&mut self, client: usize) {
        let slot = self.choose_slot(client);
        let surface = self.surface(number_of(client, slot));
        if self.spoils(client, surface) {
            return;
        }
        let buffer = self.choose_buffer(client, surface);
        self.begin(client);
        if self.one_in(80) {
            self.ask(Request::Mistake);
        }
        if self.client(client).pointers_asked < 2 && self.one_in(20) {
            self.ask_pointer(client);
        }
        self.ask_by_stage(number_of(client, slot), surface, buffer);
        self.finish(client);
    }

    /// A client that lies may draw into what it shows, and say nothing of it.
    fn spoils(&mut self, client: usize, surface: Surface) -> bool {
        match surface.current.buffer {
            Some(buffer) if self.client(client).lies && self.one_in(2) => {
                self.draw(client, buffer.number);
                true
            }
            _ => false,
        }
    }

    fn ask_by_stage(&mut self, number: usize, surface: Surface, buffer: usize) {
        let slot = slot_of(number);
        if self.is_dismissed(number) {
            self.ask_dismissed(number, surface, buffer);
            return;
        }
        match surface.stage {
            Stage::Absent if self.one_in(2) => self.make(slot),
            Stage::Absent => self.ask(Request::MakeSurface(slot)),
            Stage::Bare => self.ask_bare(number, surface, buffer),
            Stage::Roleless if surface.role == Role::Popup => self.open_again(number),
            Stage::Roleless => self.make_again(slot),
            Stage::Fresh => {
                self.ask_grab_at_times(number, surface);
                if surface.role == Role::Popup {
                    self.ask_reposition_at_times(number);
                }
                self.ask(Request::Commit(slot));
            }
            Stage::Waiting | Stage::Ready if surface.role == Role::Popup => {
                self.ask_unmapped_popup(number, surface, buffer);
            }
            Stage::Waiting => {
                self.ask(Request::Acknowledge(slot, surface.serial));
                self.update(number, surface, buffer);
            }
            Stage::Ready => self.update(number, surface, buffer),
            Stage::Mapped if surface.role == Role::Popup => {
                self.ask_mapped_popup(number, surface, buffer);
            }
            Stage::Mapped => self.ask_mapped(number, surface, buffer),
        }
    }

    /// A surface without an xdg_surface goes, or becomes a toplevel, a popup or a subsurface, or is
    /// one.
    fn ask_bare(&mut self, number: usize, surface: Surface, buffer: usize) {
        let slot = slot_of(number);
        match surface.role {
            Role::Toplevel | Role::Popup => self.ask(Request::DestroySurface(slot)),
            Role::Subsurface => self.ask_subsurface(number, surface, buffer),
            Role::None if self.one_in(8) => self.ask(Request::DestroySurface(slot)),
            Role::None if self.one_in(4) => {
                self.ask(Request::MakeXdgSurface(slot));
                self.ask(Request::MakeToplevel(slot));
                self.ask(Request::Commit(slot));
            }
            Role::None if self.one_in(2) && self.open(number) => {}
            Role::None => self.join(number, surface, buffer),
        }
    }

    /// A surface with a toplevel that waits for its configure.
    fn make(&mut self, slot: usize) {
        self.ask(Request::MakeSurface(slot));
        self.ask(Request::MakeXdgSurface(slot));
        self.ask(Request::MakeToplevel(slot));
        self.ask(Request::Commit(slot));
    }

    /// A surface whose toplevel went gets another, or goes too.
    fn make_again(&mut self, slot: usize) {
        if self.one_in(2) {
            self.ask(Request::MakeToplevel(slot));
            self.ask_none(slot);
        } else {
            self.ask(Request::DestroyXdgSurface(slot));
            self.ask(Request::DestroySurface(slot));
        }
    }

    /// A commit of no buffer.
    pub(crate) fn ask_none(&mut self, slot: usize) {
        let none = Attach {
            buffer: None,
            x: self.coordinate(-2, 5),
            y: self.coordinate(-2, 5),
        };
        self.ask(Request::Attach(slot, none));
        self.ask(Request::Commit(slot));
    }

    fn ask_mapped(&mut self, number: usize, surface: Surface, buffer: usize) {
        let slot = slot_of(number);
        match self.below(16) {
            0 => self.ask_none(slot),
            1 => self.ask(Request::DestroyToplevel(slot)),
            2 => {
                self.ask(Request::DestroyToplevel(slot));
                self.ask(Request::DestroyXdgSurface(slot));
                self.ask(Request::DestroySurface(slot));
            }
            3 => {
                // another wl_buffer has the id; the one that is shown stays
                self.ask(Request::DestroyBuffer(buffer));
                self.ask(Request::MakeBuffer(buffer));
            }
            _ => self.update(number, surface, buffer),
        }
    }

    /// Attaches a buffer, says what changed, and commits.
    pub(crate) fn update(&mut self, number: usize, surface: Surface, buffer: usize) {
        let slot = slot_of(number);
        let transform = self.choose_transform(number, surface);
        let scale = self.choose_scale(number, surface, buffer);
        let (x, y) = self.choose_move(number, surface);
        if self.one_in(4) {
            // only what is attached last counts
            let other = Some(self.below(BUFFERS));
            self.ask(Request::Attach(
                slot,
                Attach {
                    buffer: other,
                    x: 3,
                    y,
                },
            ));
        }
        let attach = Attach {
            buffer: Some(buffer),
            x,
            y,
        };
        self.ask(Request::Attach(slot, attach));
        if transform != surface.committed.transform {
            self.ask(Request::Turn(slot, transform));
        }
        if scale != surface.committed.scale {
            self.ask(Request::Scale(slot, scale));
        }
        if surface.object != 0 && self.one_in(5) {
            self.ask_geometry(slot);
        }
        if self.one_in(6) {
            self.ask_input(slot);
        }
        let new = Content {
            buffer,
            transform,
            scale,
        };
        self.ask_opaque(number, new);
        self.ask_damage(number, surface, new, (x, y));
        self.ask_frame(number);
        self.ask(Request::Commit(slot));
    }

    /// Asks to be told of the next frame, each time by a new id.
    fn ask_frame(&mut self, number: usize) {
        let now = self.client(client_of(number));
        let callback = now.callback.saturating_add(1);
        self.set_client(client_of(number), Client { callback, ..now });
        self.ask(Request::Frame(slot_of(number), callback));
    }

    /// Whether a client asks for what there is since a version: one whose objects are older does it
    /// at times.
    pub(crate) fn may_ask(&mut self, version: u32, since: u32) -> bool {
        since <= version || self.one_in(15)
    }

    fn choose_transform(&mut self, number: usize, surface: Surface) -> u32 {
        let Client { compositor, .. } = self.client(client_of(number));
        if self.one_in(5) && self.may_ask(compositor, 2) {
            u32::try_from(self.below(8)).unwrap_or(0)
        } else {
            surface.committed.transform
        }
    }

    /// A scale that divides the sides of the buffer; one that doesn't, or isn't above 0, now and
    /// then.
    fn choose_scale(&mut self, number: usize, surface: Surface, buffer: usize) -> i32 {
        let Client { compositor, .. } = self.client(client_of(number));
        let scale = if self.one_in(4) && self.may_ask(compositor, 3) {
            self.coordinate(1, 3)
        } else {
            surface.committed.scale
        };
        if is_divided(buffer, scale) {
            return scale;
        }
        match self.below(20) {
            0 => scale,
            1 => self.coordinate(-2, 3),
            _ => 1,
        }
    }

    /// By how much a surface moves: a new one is brought to the output, and a mapped one now and
    /// then.
    fn choose_move(&mut self, number: usize, surface: Surface) -> (i32, i32) {
        if surface.role != Role::Toplevel {
            return self.choose_step();
        }
        if surface.stage == Stage::Mapped && !self.one_in(4) {
            return (0, 0);
        }
        let (place_x, place_y) = self.place_of(number);
        let x = self.coordinate(-8, 50);
        let y = self.coordinate(-8, 42);
        (
            x.wrapping_sub(place_x).wrapping_sub(surface.committed.x),
            y.wrapping_sub(place_y).wrapping_sub(surface.committed.y),
        )
    }

    /// Says a part of the surface opaque that is so, or none. A client that lies says it of all.
    fn ask_opaque(&mut self, number: usize, content: Content) {
        let slot = slot_of(number);
        let (x, y) = (self.coordinate(-3, 14), self.coordinate(-3, 14));
        let (w, h) = (self.coordinate(1, 24), self.coordinate(1, 20));
        let client = client_of(number);
        let columns = (x, x.saturating_add(w));
        let rows = (y, y.saturating_add(h));
        if self.client(client).lies || self.is_opaque(client, content, columns, rows) {
            self.ask(Request::MakeRegion);
            self.ask(Request::AddToRegion(Area { x, y, w, h }));
            self.ask(Request::SetOpaque(slot, true));
            self.ask(Request::DestroyRegion);
        } else {
            self.ask(Request::SetOpaque(slot, false));
        }
    }

    /// A part of the surface takes input, or all does.
    fn ask_input(&mut self, slot: usize) {
        if self.one_in(3) {
            self.ask(Request::SetInput(slot, None));
            return;
        }
        let (x, y) = (self.coordinate(-3, 10), self.coordinate(-3, 10));
        let (w, h) = (self.coordinate(4, 20), self.coordinate(3, 14));
        let area = Area { x, y, w, h };
        self.ask(Request::MakeRegion);
        self.ask(Request::AddToRegion(area));
        self.ask(Request::SetInput(slot, Some(area)));
        self.ask(Request::DestroyRegion);
    }
}
