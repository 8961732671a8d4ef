//! A model of what clients asked for, by the rules of the protocol, and the steps that ask for it.

use crate::drawing::is_divided;
use crate::links::Move;
use crate::placing::Configure;
use crate::pointing::{AWAY, Pointer};
use crate::popups::Popup;
use crate::requests::{Area, Attach, Request, STORE, put_request};
use crate::tally::{Deed, NOTHING, Tally};
use crate::telling::{Mistake, Note, invalid_scale, invalid_size};
use std::alloc::Global;

/// How far an xdg_surface and its toplevel are.
#[derive(Clone, Copy, PartialEq, Eq)]
pub(crate) enum Stage {
    /// There is no surface.
    Absent,
    /// There is a surface alone.
    Bare,
    /// There is an xdg_surface without a toplevel.
    Roleless,
    Fresh,
    Waiting,
    Ready,
    Mapped,
}

/// What a surface shows: a buffer, how it is turned, and how many pixels of it make a point, to the
/// right and down.
#[derive(Clone, Copy)]
pub(crate) struct Content {
    pub buffer: usize,
    pub transform: u32,
    pub scale: i32,
}

/// What a surface is for, for good.
#[derive(Clone, Copy, PartialEq, Eq)]
pub(crate) enum Role {
    None,
    Toplevel,
    Popup,
    Subsurface,
}

/// A buffer of a client: its number, and the how-manieth wl_buffer it is that has it.
#[derive(Clone, Copy, PartialEq, Eq)]
pub(crate) struct Buffer {
    pub number: usize,
    pub made: u32,
}

/// What a commit gives a surface: its buffer, how far attaches moved it, how it is turned, and its
/// scale. `input` is the part that takes input, or all if there is none. `moves` says how many
/// moves of subsurfaces count whose parent it is.
#[derive(Clone, Copy)]
pub(crate) struct State {
    pub buffer: Option<Buffer>,
    pub x: i32,
    pub y: i32,
    pub transform: u32,
    pub scale: i32,
    pub input: Option<Area>,
    pub moves: usize,
}

impl State {
    pub(crate) fn content(self) -> Option<Content> {
        let Buffer { number, .. } = self.buffer?;
        Some(Content {
            buffer: number,
            transform: self.transform,
            scale: self.scale,
        })
    }
}

/// What was attached, and by how much the surface moves.
#[derive(Clone, Copy)]
pub(crate) struct Attached {
    pub buffer: Option<Buffer>,
    pub x: i32,
    pub y: i32,
}

#[derive(Clone, Copy)]
pub(crate) struct Surface {
    /// A number that no other surface has.
    pub birth: u32,
    pub stage: Stage,
    pub role: Role,
    /// The serial of its latest configure, and the one up to which they were acknowledged or
    /// forgotten.
    pub serial: u32,
    pub acknowledged: u32,
    /// What was attached since the last commit.
    pub attached: Option<Attached>,
    /// The transform that the next commit applies, the scale, and the part that takes input then.
    pub turned: u32,
    pub scaled: i32,
    pub input: Option<Area>,
    /// How often something was damaged since the last commit, in coordinates of the surface and of
    /// the buffer.
    pub damages: [u32; 2],
    /// What was committed last, and what is shown.
    pub committed: State,
    pub current: State,
    /// The number of its toplevel or popup, in the order in which all were made. 0 where it has
    /// none.
    pub object: u32,
    pub popup: Option<Popup>,
    /// The corner of its window geometry, and the one that counts with the next commit.
    pub corner: (i32, i32),
    pub corner_asked: Option<(i32, i32)>,
    /// How many frame callbacks wait for a commit, to be applied, and for a frame.
    pub asked: usize,
    pub held: usize,
    pub due: usize,
    /// There is a wl_subsurface that was made of a surface of this number.
    pub has_object: bool,
    /// The surface that it is a subsurface of, a number of that link that no other has, and whether
    /// its commits aren't held.
    pub parent: Option<usize>,
    pub link: u32,
    pub desynchronised: bool,
}

const BLANK: State = State {
    buffer: None,
    x: 0,
    y: 0,
    transform: 0,
    scale: 1,
    input: None,
    moves: 0,
};

pub(crate) const ABSENT: Surface = Surface {
    birth: 0,
    stage: Stage::Absent,
    role: Role::None,
    serial: 0,
    acknowledged: 0,
    attached: None,
    turned: 0,
    scaled: 1,
    input: None,
    damages: [0; 2],
    committed: BLANK,
    current: BLANK,
    object: 0,
    popup: None,
    corner: (0, 0),
    corner_asked: None,
    asked: 0,
    held: 0,
    due: 0,
    has_object: false,
    parent: None,
    link: 0,
    desynchronised: false,
};

#[derive(Clone, Copy, Debug, PartialEq, Eq)]
pub(crate) enum Life {
    /// No client has the number.
    Free,
    Alive,
    Gone,
    /// It ended by a mistake.
    Refused(Mistake),
    /// It ended since too much would have waited for it.
    Slow,
}

#[derive(Clone, Copy)]
pub(crate) struct Client {
    pub life: Life,
    /// It has its globals, its pool and its buffers.
    pub started: bool,
    /// It doesn't keep its promises.
    pub lies: bool,
    /// It asks for much and reads nothing.
    pub deaf: bool,
    /// The versions of its wl_compositor and its xdg_wm_base.
    pub compositor: u32,
    pub shell: u32,
    /// An event for it would have been too much, so that it is to end.
    pub struck: bool,
    /// The last serial that it was told.
    pub serial: u32,
    /// Those of the last press and the last release that it was told of.
    pub pressed: Option<u32>,
    pub released: Option<u32>,
    /// The id of its last frame callback.
    pub callback: u32,
    /// How many wl_pointers it has, and how many it asked for.
    pub pointers: usize,
    pub pointers_asked: usize,
    /// How many wl_buffers went that had each number.
    pub made: [u32; 5],
    /// How many bytes wait for it.
    pub unsent: usize,
    /// Where what wasn't sent yet of its stream begins and ends.
    pub from: usize,
    pub to: usize,
    /// The first request that wasn't wholly sent yet, and the one past its last.
    pub next: usize,
    pub past: usize,
}

const NOBODY: Client = Client {
    life: Life::Free,
    started: false,
    lies: false,
    deaf: false,
    compositor: 0,
    shell: 0,
    struck: false,
    serial: 0,
    pressed: None,
    released: None,
    callback: 99,
    pointers: 0,
    pointers_asked: 0,
    made: [0; 5],
    unsent: 0,
    from: 0,
    to: 0,
    next: 0,
    past: 0,
};

/// How many clients there are at most.
pub(crate) const CLIENTS: usize = 3;

/// How many surfaces each client has at most.
pub(crate) const SURFACES: usize = 4;

/// A request in the stream of its client, which is sent once `end` bytes of all streams are.
#[derive(Clone, Copy)]
pub(crate) struct Asked {
    pub request: Request,
    pub end: usize,
}

/// A step of the session. A client is said by its number from 0.
#[derive(Clone, Copy, Debug)]
pub(crate) enum Planned {
    Connect(usize),
    /// A part of the bytes of all streams, and how its client is afterwards.
    Feed(usize, usize, usize, Life),
    /// A part of the bytes that are written, and where in the store it is put.
    Store(usize, u32, usize, usize),
    Gone(usize),
    Close(usize),
    Tick(u32),
    /// So many bytes of what waits for a client are sent, and whether there are so many.
    Sent(usize, usize, bool),
    /// The pointer goes to a point; one of its buttons is pressed, or released.
    Motion(i32, i32),
    Button(usize, bool),
}

/// A window: its surface, by its number among those of all clients, and where its toplevel stands.
#[derive(Clone, Copy)]
pub(crate) struct Window {
    pub surface: usize,
    pub x: i32,
    pub y: i32,
}

/// All clients, what they asked for, the steps by which they did, and the frames that they are to
/// see.
#[derive(Drop)]
pub(crate) struct World {
    pub random: u64,
    /// Whether there was no memory.
    pub failed: bool,
    /// The first client lies.
    pub liar: bool,
    pub clients: [Client; 3],
    pub surfaces: [Surface; 12],
    /// How many surfaces were made, and how many toplevels and popups.
    pub births: u32,
    pub objects: u32,
    /// The stores of all clients.
    pub memory: Vec<u8, Global>,
    /// The toplevels' windows from bottom to top.
    pub stack: Vec<Window, Global>,
    pub pointer: Pointer,
    /// What was asked of subsurfaces as part of the state of their parents, in its order.
    pub moves: Vec<Move, Global>,
    /// The configures of toplevels and popups, in their order.
    pub configures: Vec<Configure, Global>,
    pub steps: Vec<Planned, Global>,
    /// How many bytes wait for each client after each step, and some of the events that do.
    pub unsent: Vec<[usize; 3], Global>,
    pub notes: Vec<Note, Global>,
    pub streams: Vec<u8, Global>,
    pub asked: Vec<Asked, Global>,
    pub writes: Vec<u8, Global>,
    /// The images of all ticks: blue, green, red and 255 for each point.
    pub images: Vec<u8, Global>,
    /// For each of their points, whether a window of the client that lies covers it.
    pub covered: Vec<bool, Global>,
    pub ticks: u32,
    /// How often a toplevel was mapped, and a surface became a subsurface.
    pub mappings: u32,
    pub links: u32,
    pub tally: Tally,
}

/// A world without clients. None where there is no memory.
pub(crate) fn new_world(alloc: Global, seed: u64, liar: bool) -> Option<World> {
    let memory = match Vec::from_elem(alloc, 0u8, CLIENTS * STORE) {
        Ok(memory) => memory,
        Err(_) => return None,
    };
    Some(World {
        random: seed,
        failed: false,
        liar,
        clients: [NOBODY; 3],
        surfaces: [ABSENT; 12],
        births: 0,
        objects: 0,
        memory,
        stack: Vec::new(alloc),
        pointer: AWAY,
        moves: Vec::new(alloc),
        configures: Vec::new(alloc),
        steps: Vec::new(alloc),
        unsent: Vec::new(alloc),
        notes: Vec::new(alloc),
        streams: Vec::new(alloc),
        asked: Vec::new(alloc),
        writes: Vec::new(alloc),
        images: Vec::new(alloc),
        covered: Vec::new(alloc),
        ticks: 0,
        mappings: 0,
        links: 0,
        tally: NOTHING,
    })
}

/// The surface of a client, by its number among those of all clients.
pub(crate) fn number_of(client: usize, slot: usize) -> usize {
    client.saturating_mul(SURFACES).saturating_add(slot)
}

pub(crate) fn client_of(surface: usize) -> usize {
    surface / SURFACES
}

pub(crate) fn slot_of(surface: usize) -> usize {
    surface % SURFACES
}

impl World {
    pub(crate) fn client(&self, client: usize) -> Client {
        self.clients.get(client).copied().unwrap_or(NOBODY)
    }

    pub(crate) fn set_client(&mut self, client: usize, new: Client) {
        if let Some(place) = self.clients.get_mut(client) {
            *place = new;
        }
    }

    pub(crate) fn surface(&self, surface: usize) -> Surface {
        self.surfaces.get(surface).copied().unwrap_or(ABSENT)
    }

    pub(crate) fn set_surface(&mut self, surface: usize, new: Surface) {
        if let Some(place) = self.surfaces.get_mut(surface) {
            *place = new;
        }
    }

    /// Takes a step, of which the clients have been told.
    pub(crate) fn plan(&mut self, step: Planned) {
        let unsent = [
            self.client(0).unsent,
            self.client(1).unsent,
            self.client(2).unsent,
        ];
        if self.steps.push(step).is_err() || self.unsent.push(unsent).is_err() {
            self.failed = true;
        }
    }

    /// A number below another, or 0.
    pub(crate) fn below(&mut self, bound: usize) -> usize {
        self.random = self
            .random
            .wrapping_mul(6364136223846793005)
            .wrapping_add(1442695040888963407);
        let drawn = usize::try_from(self.random >> 33).unwrap_or(0);
        drawn.checked_rem(bound).unwrap_or(0)
    }

    /// The newest version mostly.
    fn choose_version(&mut self, newest: usize) -> u32 {
        let older = if self.one_in(6) {
            self.below(newest)
        } else {
            0
        };
        u32::try_from(newest.saturating_sub(older)).unwrap_or(1)
    }

    /// True once in so many times.
    pub(crate) fn one_in(&mut self, many: usize) -> bool {
        self.below(many) == 0
    }

    /// A number of a range of so many.
    pub(crate) fn coordinate(&mut self, least: i32, many: usize) -> i32 {
        let drawn = i32::try_from(self.below(many)).unwrap_or(0);
        least.saturating_add(drawn)
    }

    /// Where a window's toplevel stands, or where the next one will.
    pub(crate) fn place_of(&self, surface: usize) -> (i32, i32) {
        for window in &self.stack {
            if window.surface == surface {
                return (window.x, window.y);
            }
        }
        let place = place(self.mappings);
        (place, place)
    }

    /// Whether a surface shows the buffer of its client, or will.
    pub(crate) fn is_shown(&self, client: usize, buffer: usize) -> bool {
        for slot in 0..SURFACES {
            let surface = self.surface(number_of(client, slot));
            if has(surface.current, buffer) || has(surface.committed, buffer) {
                return true;
            }
        }
        false
    }

    /// Whether a client has a window.
    pub(crate) fn is_mapped(&self, client: usize) -> bool {
        for slot in 0..SURFACES {
            if self.surface(number_of(client, slot)).stage == Stage::Mapped {
                return true;
            }
        }
        false
    }

    /// A client asks for something; it isn't sent yet.
    pub(crate) fn ask(&mut self, request: Request) {
        if !put_request(&mut self.streams, request) {
            self.failed = true;
        }
        let end = self.streams.len();
        if self.asked.push(Asked { request, end }).is_err() {
            self.failed = true;
        }
    }

    /// What is asked from here on is of this client, all of whose requests were sent.
    pub(crate) fn begin(&mut self, client: usize) {
        let begun = Client {
            from: self.streams.len(),
            next: self.asked.len(),
            ..self.client(client)
        };
        self.set_client(client, begun);
    }

    pub(crate) fn finish(&mut self, client: usize) {
        let finished = Client {
            to: self.streams.len(),
            past: self.asked.len(),
            ..self.client(client)
        };
        self.set_client(client, finished);
    }

    /// Sends a client's stream up to a place.
    pub(crate) fn send(&mut self, client: usize, to: usize) {
        let sent = self.client(client);
        self.set_client(client, Client { from: to, ..sent });
        let mut next = sent.next;
        for k in sent.next..sent.past {
            match self.asked.get(k).copied() {
                Some(asked) if asked.end <= to => {
                    self.take(client, asked.request);
                    next = k.saturating_add(1);
                }
                _ => break,
            }
        }
        let taken = self.client(client);
        self.set_client(client, Client { next, ..taken });
        self.plan(Planned::Feed(client, sent.from, to, taken.life));
    }

    /// Some of what waits for a client is sent, or more than that, which isn't.
    pub(crate) fn send_waiting(&mut self, client: usize) {
        let now = self.client(client);
        let count = self.below(now.unsent.saturating_add(9));
        let is_there = count <= now.unsent;
        if is_there {
            let unsent = now.unsent.saturating_sub(count);
            self.set_client(client, Client { unsent, ..now });
            self.count(Deed::Sent);
        }
        self.plan(Planned::Sent(client, count, is_there));
    }

    pub(crate) fn reach(&mut self, surface: usize, stage: Stage) {
        let reached = Surface {
            stage,
            ..self.surface(surface)
        };
        self.set_surface(surface, reached);
    }

    pub(crate) fn attach(&mut self, client: usize, surface: usize, attach: Attach) {
        let buffer = match attach.buffer {
            Some(number) => Some(Buffer {
                number,
                made: self.made(client, number),
            }),
            None => None,
        };
        let Attach { x, y, .. } = attach;
        let attached = Surface {
            attached: Some(Attached { buffer, x, y }),
            ..self.surface(surface)
        };
        self.set_surface(surface, attached);
    }

    pub(crate) fn turn(&mut self, surface: usize, transform: u32) {
        let turned = Surface {
            turned: transform,
            ..self.surface(surface)
        };
        self.set_surface(surface, turned);
    }

    pub(crate) fn set_scale(&mut self, client: usize, surface: usize, scale: i32) {
        if scale < 1 {
            self.count(Deed::BadScale);
            self.refuse(client, invalid_scale(slot_of(surface)));
            return;
        }
        self.count(Deed::Scale);
        let scaled = Surface {
            scaled: scale,
            ..self.surface(surface)
        };
        self.set_surface(surface, scaled);
    }

    pub(crate) fn set_input(&mut self, surface: usize, input: Option<Area>) {
        let set = Surface {
            input,
            ..self.surface(surface)
        };
        self.set_surface(surface, set);
        if input.is_some() {
            self.count(Deed::Input);
        }
    }

    /// Commits what is pending, which is applied unless it is held, and maps or unmaps the toplevel
    /// or popup. A buffer that its points don't divide is a mistake.
    pub(crate) fn commit(&mut self, client: usize, surface: usize) {
        let committed = committed(self.surface(surface), self.moves.len());
        if !is_whole(committed.committed) {
            self.count(Deed::BadSize);
            self.refuse(client, invalid_size(slot_of(surface)));
            return;
        }
        self.count_damages(self.surface(surface).damages);
        self.set_surface(surface, committed);
        if self.is_synchronised(surface) {
            self.count(Deed::Hold);
        } else {
            self.apply(surface);
        }
        if !self.is_dismissed(surface) {
            self.commit_role(client, surface, committed);
        }
    }

    /// What the commit of a surface with a toplevel or popup maps, unmaps, configures or places.
    fn commit_role(&mut self, client: usize, surface: usize, committed: Surface) {
        let has_buffer = committed.committed.buffer.is_some();
        if committed.stage == Stage::Mapped && !has_buffer {
            self.forget_places(surface);
        } else {
            self.put_in_force(surface);
        }
        match (committed.stage, committed.committed.buffer) {
            (Stage::Fresh, None) => self.configure(client, surface),
            (Stage::Ready, Some(_)) if committed.role == Role::Popup => self.map_popup(surface),
            (Stage::Ready, Some(_)) => self.map(surface),
            (Stage::Mapped, None) => self.unmap(surface, Stage::Fresh),
            _ => {}
        }
    }

    /// A toplevel is mapped on top, and takes the next of the eight places.
    fn map(&mut self, surface: usize) {
        self.reach(surface, Stage::Mapped);
        let place = place(self.mappings);
        let window = Window {
            surface,
            x: place,
            y: place,
        };
        if self.stack.push(window).is_err() {
            self.failed = true;
        }
        self.mappings = self.mappings.saturating_add(1);
        self.count(Deed::Map);
        if client_of(surface) == 0 {
            self.count(Deed::MapOfFirst);
        }
    }

    fn map_popup(&mut self, surface: usize) {
        self.reach(surface, Stage::Mapped);
        self.count(Deed::PopupMap);
    }

    /// The window of a toplevel or popup goes, if there is one, with its window geometry.
    pub(crate) fn unmap(&mut self, surface: usize, stage: Stage) {
        let was = self.surface(surface);
        if was.stage == Stage::Mapped && was.role == Role::Popup {
            self.count(Deed::PopupUnmap);
        } else if was.stage == Stage::Mapped {
            self.count(Deed::Unmap);
        }
        self.stack.retain(|window| window.surface != surface);
        self.stop_moving(surface);
        self.stop_grabbing(surface);
        let unmapped = Surface {
            stage,
            corner: (0, 0),
            ..self.surface(surface)
        };
        self.set_surface(surface, unmapped);
    }

    /// A client ends: its windows go, and its surfaces.
    pub(crate) fn end(&mut self, client: usize, life: Life) {
        let ended = Client {
            life,
            ..self.client(client)
        };
        self.set_client(client, ended);
        for slot in 0..SURFACES {
            self.set_surface(number_of(client, slot), ABSENT);
        }
        self.stack
            .retain(|window| window.surface / SURFACES != client);
        self.forget(client);
        self.count(Deed::End);
    }

    /// The number of a client that ended is free again.
    pub(crate) fn close(&mut self, client: usize) {
        self.set_client(client, NOBODY);
        self.plan(Planned::Close(client));
    }

    /// A client connects with the lowest free number.
    pub(crate) fn connect(&mut self) {
        for client in 0..CLIENTS {
            if self.client(client).life == Life::Free {
                self.admit(client);
                return;
            }
        }
    }

    /// A client has a number, and stores of its own, which are zero.
    fn admit(&mut self, client: usize) {
        self.plan(Planned::Connect(client));
        let admitted = Client {
            life: Life::Alive,
            lies: self.liar && client == 0,
            deaf: self.one_in(3),
            compositor: self.choose_version(4),
            shell: self.choose_version(3),
            ..NOBODY
        };
        self.set_client(client, admitted);
        self.count(Deed::Connect);
        let first = client.saturating_mul(STORE);
        for k in 0..STORE {
            self.set_byte(first.saturating_add(k), 0);
        }
    }

    pub(crate) fn byte(&self, at: usize) -> u8 {
        self.memory.get(at).copied().unwrap_or(0)
    }

    pub(crate) fn set_byte(&mut self, at: usize, byte: u8) {
        if let Some(place) = self.memory.get_mut(at) {
            *place = byte;
        }
    }
}

/// The k-th mapping of a session stands as far to the right as down.
fn place(mappings: u32) -> i32 {
    i32::try_from(mappings % 8).unwrap_or(0).saturating_mul(32)
}

/// Whether a state has a buffer.
fn has(state: State, buffer: usize) -> bool {
    match state.buffer {
        Some(shown) => shown.number == buffer,
        None => false,
    }
}

/// Whether the buffer of a state, if it has one, is so many points wide and high.
fn is_whole(state: State) -> bool {
    match state.content() {
        Some(content) => is_divided(content.buffer, content.scale),
        None => true,
    }
}

/// A surface after a commit. What was attached last counts, and of its subsurfaces all that was
/// asked so far.
fn committed(surface: Surface, moves: usize) -> Surface {
    let old = surface.committed;
    let (buffer, x, y) = match surface.attached {
        Some(attached) => (attached.buffer, attached.x, attached.y),
        None => (old.buffer, 0, 0),
    };
    let committed = State {
        buffer,
        x: old.x.saturating_add(x),
        y: old.y.saturating_add(y),
        transform: surface.turned,
        scale: surface.scaled,
        input: surface.input,
        moves,
    };
    Surface {
        attached: None,
        damages: [0; 2],
        corner: surface.corner_asked.unwrap_or(surface.corner),
        corner_asked: None,
        committed,
        held: surface.held.saturating_add(surface.asked),
        asked: 0,
        ..surface
    }
}
