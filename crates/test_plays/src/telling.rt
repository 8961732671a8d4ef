//! What clients are told, event by event, and who ends since too much would wait for it.

use crate::desktop::{CLIENTS, Client, Life, SURFACES, Surface, World, number_of};
use crate::requests::surface_id;
use crate::tally::Deed;

/// How many bytes may wait for a client.
pub(crate) const LIMIT: usize = 1048576;

/// An error of a client: the object that it is of, its code, and how many bytes the client is told.
#[derive(Clone, Copy, Debug, PartialEq, Eq)]
pub(crate) struct Mistake {
    pub object: u32,
    pub code: u32,
    pub size: usize,
}

/// wl_display.error with the texts invalid_object, invalid_method and invalid_positioner.
pub(crate) const INVALID_OBJECT: Mistake = Mistake {
    object: 1,
    code: 0,
    size: 36,
};

pub(crate) const INVALID_METHOD: Mistake = Mistake {
    object: 1,
    code: 1,
    size: 36,
};

pub(crate) const INVALID_POSITIONER: Mistake = Mistake {
    object: 5,
    code: 5,
    size: 40,
};

/// With the texts invalid_scale and invalid_size.
pub(crate) fn invalid_scale(slot: usize) -> Mistake {
    Mistake {
        object: surface_id(slot),
        code: 0,
        size: 36,
    }
}

pub(crate) fn invalid_size(slot: usize) -> Mistake {
    Mistake {
        object: surface_id(slot),
        code: 2,
        size: 36,
    }
}

/// An event of at most four words after its header: the object that it is of, its opcode, and how
/// many of the words it has.
#[derive(Clone, Copy)]
pub(crate) struct Event {
    pub object: u32,
    pub opcode: u32,
    pub count: usize,
    pub words: [u32; 4],
}

/// An event that a client is told in a step: where it begins in what waits for the client
/// afterwards.
#[derive(Clone, Copy)]
pub(crate) struct Note {
    pub step: usize,
    pub client: usize,
    pub at: usize,
    pub event: Event,
}

/// How many bytes an event has.
pub(crate) fn size_of(event: Event) -> usize {
    event.count.saturating_mul(4).saturating_add(8)
}

/// How many bytes one event has. An id is free again, a frame callback is done, a buffer is
/// released, or a popup is dismissed.
pub(crate) const DELETED: usize = 12;

pub(crate) const CALLED_BACK: usize = 12;

pub(crate) const RELEASED: usize = 8;

pub(crate) const DISMISSED: usize = 8;

/// That its surface is entered or left, that the pointer moved over it, and that a button was
/// pressed or released.
pub(crate) const ENTERED: usize = 24;

pub(crate) const LEFT: usize = 16;

pub(crate) const MOVED: usize = 20;

pub(crate) const PRESSED: usize = 24;

/// By each of the globals of a registry, by the two formats of a wl_shm, and by what a wl_seat has.
const GLOBALS: [usize; 6] = [36, 40, 28, 32, 28, 32];

const FORMATS: [usize; 2] = [12, 12];

const CAPABILITIES: [usize; 1] = [12];

/// How many bytes a registry tells, and all that a client is told by what it begins with.
pub(crate) const REGISTRY: usize = 196;

pub(crate) const BEGUN: usize = 232;

impl World {
    /// A client that lives is told an event of so many bytes. Where it has no room for that, it is
    /// to end, and is told nothing more.
    pub(crate) fn tell(&mut self, client: usize, size: usize) {
        let told = self.client(client);
        if told.life != Life::Alive || told.struck {
            return;
        }
        let unsent = told.unsent.saturating_add(size);
        let struck = LIMIT < unsent;
        let unsent = if struck { told.unsent } else { unsent };
        let new = Client {
            unsent,
            struck,
            ..told
        };
        self.set_client(client, new);
    }

    fn tell_all(&mut self, client: usize, sizes: &[usize]) {
        for size in sizes {
            self.tell(client, *size);
        }
    }

    /// Each wl_pointer of a client is told an event of so many bytes.
    pub(crate) fn tell_pointers(&mut self, client: usize, size: usize) {
        for _ in 0..self.client(client).pointers {
            self.tell(client, size);
        }
    }

    /// So it is with one new serial for all. None where it has no wl_pointer.
    pub(crate) fn tell_serial(&mut self, client: usize, size: usize) -> Option<u32> {
        if self.client(client).pointers == 0 {
            return None;
        }
        self.tell_pointers(client, size);
        Some(self.draw_serial(client))
    }

    /// The next serial of a client.
    pub(crate) fn draw_serial(&mut self, client: usize) -> u32 {
        let now = self.client(client);
        let serial = now.serial.wrapping_add(1);
        self.set_client(client, Client { serial, ..now });
        serial
    }

    /// A client is told an event of which it is known what it says.
    pub(crate) fn tell_event(&mut self, client: usize, event: Event) {
        let at = self.client(client).unsent;
        self.tell(client, size_of(event));
        let step = self.steps.len();
        let note = Note {
            step,
            client,
            at,
            event,
        };
        if at < self.client(client).unsent && self.notes.push(note).is_err() {
            self.failed = true;
        }
    }

    /// What is answered to one of the requests that each client begins with.
    pub(crate) fn tell_start(&mut self, client: usize, place: usize) {
        match place {
            0 => self.tell_registry(client),
            1 => self.tell_all(client, &FORMATS),
            4 => self.tell_all(client, &CAPABILITIES),
            _ => {}
        }
    }

    pub(crate) fn tell_registry(&mut self, client: usize) {
        self.tell_all(client, &GLOBALS);
    }

    /// After a frame each client that lives is told of the callbacks that were applied.
    pub(crate) fn call_back(&mut self) {
        for client in 0..CLIENTS {
            for slot in 0..SURFACES {
                self.call_back_of(client, number_of(client, slot));
            }
        }
    }

    fn call_back_of(&mut self, client: usize, number: usize) {
        let surface = self.surface(number);
        for _ in 0..surface.due {
            self.tell(client, CALLED_BACK);
            self.tell(client, DELETED);
        }
        self.set_surface(number, Surface { due: 0, ..surface });
    }

    /// A client is told of the error of its message, and ends by that, or since it has no room for
    /// it.
    pub(crate) fn refuse(&mut self, client: usize, mistake: Mistake) {
        self.tell(client, mistake.size);
        if self.client(client).struck {
            self.count(Deed::SlowByItself);
            self.end(client, Life::Slow);
        } else {
            self.end(client, Life::Refused(mistake));
        }
    }

    /// Whether a client lives and is to end.
    pub(crate) fn is_struck(&self, client: usize) -> bool {
        let now = self.client(client);
        now.struck && now.life == Life::Alive
    }

    fn first_struck(&self) -> Option<usize> {
        (0..CLIENTS).find(|client| self.is_struck(*client))
    }

    /// Clients that are to end do, the least number first, and after each the focus is settled.
    pub(crate) fn end_struck(&mut self) {
        for _ in 0..CLIENTS {
            let Some(client) = self.first_struck() else {
                return;
            };
            self.count(Deed::SlowByOthers);
            self.end(client, Life::Slow);
            self.settle();
        }
    }

    /// A frame was shown: clients that couldn't be told of it end, and then the focus is settled.
    pub(crate) fn conclude_frame(&mut self) {
        for client in 0..CLIENTS {
            if self.is_struck(client) {
                self.count(Deed::SlowByOthers);
                self.end(client, Life::Slow);
            }
        }
        self.conclude();
    }

    /// A request of a client was done, which ends where it couldn't be told of that.
    pub(crate) fn conclude_request(&mut self, client: usize) {
        if self.is_struck(client) {
            self.count(Deed::SlowByItself);
            self.end(client, Life::Slow);
        }
        self.conclude();
    }

    /// The focus is settled, and those end that couldn't be told of it.
    pub(crate) fn conclude(&mut self) {
        self.settle();
        self.end_struck();
    }
}
