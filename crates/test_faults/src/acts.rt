//! Sessions of clients with windows, as lists of acts: what clients do, what they are told, and
//! what is shown. The same list is taken by the calls of a
//! session, as steps of a run, and as the stream of one of its clients.

use std::alloc::Global;
use test_rows::asks::{Ask, bytes_of, put_ask};
use test_rows::events::{Event, put_event};
use wl_session::{Config, Rgb, Step};

pub(crate) const OUTPUT: Config = Config {
    width: 64,
    height: 64,
    background: Rgb {
        r: 30,
        g: 20,
        b: 10,
    },
};

/// Blue, green and red.
pub(crate) type Color = [u8; 3];

pub(crate) const BACKGROUND: Color = [10, 20, 30];

/// Points of one colour of a client's window: the first column and row in its toplevel, whose
/// corner may be to the right and below, and the sides.
#[derive(Clone, Copy)]
pub(crate) struct Layer {
    pub client: u32,
    pub x: isize,
    pub y: isize,
    pub w: usize,
    pub h: usize,
    pub color: Color,
}

/// What is done, and what is wanted of it while its client lives.
#[derive(Clone, Copy)]
pub(crate) enum Act<'a> {
    /// A client connects with this number.
    Connects(u32),
    /// A client asks things, one after another.
    Sends(u32, &'a [Ask]),
    /// A client asks things, by the last of which its toplevel is mapped.
    Maps(u32, &'a [Ask]),
    /// A client asks things, one after another, while the other client lives.
    SendsBeside(u32, &'a [Ask]),
    /// Bytes are put into a store of a client, from a place on.
    Stores(u32, u32, u32, &'a [u8]),
    /// So many bytes of a client's store from a place on get this value.
    Fills(u32, u32, u32, usize, u8),
    /// What waits for a client begins with these events, and they are taken.
    Told(u32, &'a [Event]),
    /// All that waits for a client is the first of these lists of events or, where the other client
    /// has ended, any of them. It is taken.
    ToldAny(u32, &'a [Event], &'a [Event], &'a [Event]),
    /// Nothing waits for a client.
    Silent(u32),
    /// Nothing waits for a client while the other one lives.
    SilentBeside(u32),
    /// A client goes.
    Goes(u32),
    /// The pointer goes to a point.
    Points(i32, i32),
    /// The left button is pressed, or released.
    Presses(bool),
    /// A tick, and what is shown from bottom to top. The windows of clients that ended are left
    /// out.
    Shows(&'a [Layer]),
    /// The same where both clients live, and what is shown where one doesn't.
    ShowsEither(&'a [Layer], &'a [Layer]),
}

/// A part of the bytes of a plan.
#[derive(Clone, Copy)]
pub(crate) struct Part {
    pub from: usize,
    pub past: usize,
}

/// A step, whose bytes are a part of those of its plan.
#[derive(Clone, Copy)]
pub(crate) enum Planned<'a> {
    Connect(u32),
    /// A request of a client, and whether its toplevel is mapped by it.
    Feed(u32, Part, bool),
    /// A request of a client, while the other one lives.
    FeedBeside(u32, Part),
    Store(u32, u32, u32, Part),
    /// What a client was told is sent.
    Sent(u32, Part),
    SentAny(u32, Part, Part, Part),
    Silent(u32),
    SilentBeside(u32),
    Gone(u32),
    Motion(i32, i32),
    Button(bool),
    Tick(&'a [Layer]),
    TickEither(&'a [Layer], &'a [Layer]),
}

#[derive(Drop)]
pub(crate) struct Plan<'a> {
    pub steps: Vec<Planned<'a>, Global>,
    pub bytes: Vec<u8, Global>,
    /// Whether there was no memory.
    failed: bool,
}

impl<'a> Plan<'a> {
    pub(crate) fn part(&self, part: Part) -> &[u8] {
        self.bytes.get(part.from..part.past).unwrap_or(&[])
    }

    fn add(&mut self, step: Planned<'a>) {
        if self.steps.push(step).is_err() {
            self.failed = true;
        }
    }

    fn part_from(&self, from: usize) -> Part {
        Part {
            from,
            past: self.bytes.len(),
        }
    }

    fn put(&mut self, ask: Ask) {
        if !put_ask(&mut self.bytes, ask) {
            self.failed = true;
        }
    }

    fn add_asks(&mut self, client: u32, asks: &[Ask], maps: bool) {
        for (place, ask) in asks.iter().enumerate() {
            let from = self.bytes.len();
            self.put(*ask);
            let is_last = place.saturating_add(1) == asks.len();
            self.add(Planned::Feed(client, self.part_from(from), maps && is_last));
        }
    }

    fn add_asks_beside(&mut self, client: u32, asks: &[Ask]) {
        for ask in asks {
            let from = self.bytes.len();
            self.put(*ask);
            self.add(Planned::FeedBeside(client, self.part_from(from)));
        }
    }

    fn add_bytes(&mut self, bytes: &[u8]) -> Part {
        let from = self.bytes.len();
        if self.bytes.extend_from_slice(bytes).is_err() {
            self.failed = true;
        }
        self.part_from(from)
    }

    fn add_copies(&mut self, count: usize, byte: u8) -> Part {
        let from = self.bytes.len();
        for _ in 0..count {
            if self.bytes.push(byte).is_err() {
                self.failed = true;
            }
        }
        self.part_from(from)
    }

    fn add_part(&mut self, events: &[Event]) -> Part {
        let from = self.bytes.len();
        for event in events {
            if !put_event(&mut self.bytes, *event) {
                self.failed = true;
            }
        }
        self.part_from(from)
    }

    fn add_told(&mut self, client: u32, events: &[Event]) {
        let part = self.add_part(events);
        self.add(Planned::Sent(client, part));
    }

    fn add_told_any(&mut self, client: u32, first: &[Event], second: &[Event], third: &[Event]) {
        let first = self.add_part(first);
        let second = self.add_part(second);
        let third = self.add_part(third);
        self.add(Planned::SentAny(client, first, second, third));
    }

    fn add_act(&mut self, act: Act<'a>) {
        match act {
            Act::Connects(client) => self.add(Planned::Connect(client)),
            Act::Sends(client, asks) => self.add_asks(client, asks, false),
            Act::Maps(client, asks) => self.add_asks(client, asks, true),
            Act::SendsBeside(client, asks) => self.add_asks_beside(client, asks),
            Act::Stores(client, store, at, bytes) => {
                let part = self.add_bytes(bytes);
                self.add(Planned::Store(client, store, at, part));
            }
            Act::Fills(client, store, at, count, byte) => {
                let part = self.add_copies(count, byte);
                self.add(Planned::Store(client, store, at, part));
            }
            Act::Told(client, events) => self.add_told(client, events),
            Act::ToldAny(client, first, second, third) => {
                self.add_told_any(client, first, second, third)
            }
            Act::Silent(client) => self.add(Planned::Silent(client)),
            Act::SilentBeside(client) => self.add(Planned::SilentBeside(client)),
            Act::Goes(client) => self.add(Planned::Gone(client)),
            Act::Points(x, y) => self.add(Planned::Motion(x, y)),
            Act::Presses(pressed) => self.add(Planned::Button(pressed)),
            Act::Shows(layers) => self.add(Planned::Tick(layers)),
            Act::ShowsEither(both, one) => self.add(Planned::TickEither(both, one)),
        }
    }

    fn add_acts(&mut self, acts: &'a [Act<'a>]) {
        for act in acts {
            self.add_act(*act);
        }
    }
}

fn begun<'a>(alloc: Global) -> Plan<'a> {
    Plan {
        steps: Vec::new(alloc),
        bytes: Vec::new(alloc),
        failed: false,
    }
}

/// The steps of some acts. None where there is no memory for them.
pub(crate) fn plan_of<'a>(alloc: Global, acts: &'a [Act<'a>]) -> Option<Plan<'a>> {
    let mut plan = begun(alloc);
    plan.add_acts(acts);
    if plan.failed { None } else { Some(plan) }
}

/// The steps of acts that come part by part.
pub(crate) fn plan_of_parts<'a>(alloc: Global, parts: &[&'a [Act<'a>]]) -> Option<Plan<'a>> {
    let mut plan = begun(alloc);
    for acts in parts {
        plan.add_acts(acts);
    }
    if plan.failed { None } else { Some(plan) }
}

/// As many bytes as a part has are sent to a client.
fn sent_step<'a>(client: u32, part: Part) -> Step<'a> {
    Step::Sent {
        client,
        count: part.past.saturating_sub(part.from),
    }
}

/// A plan's step of a session. To look whether nothing waits is one that does nothing.
pub(crate) fn step_of<'a>(plan: &'a Plan, planned: Planned) -> Step<'a> {
    match planned {
        Planned::Connect(_) => Step::Connect,
        Planned::Feed(client, part, _) | Planned::FeedBeside(client, part) => Step::Feed {
            client,
            piece: plan.part(part),
        },
        Planned::Store(client, store, at, part) => Step::Store {
            client,
            store,
            at,
            bytes: plan.part(part),
        },
        Planned::Sent(client, part) => sent_step(client, part),
        Planned::SentAny(client, first, _, _) => sent_step(client, first),
        Planned::Silent(client) | Planned::SilentBeside(client) => Step::Sent { client, count: 0 },
        Planned::Gone(client) => Step::Gone { client },
        Planned::Motion(x, y) => Step::Motion { time: 1, x, y },
        Planned::Button(pressed) => Step::Button {
            time: 2,
            button: 272,
            pressed,
        },
        Planned::Tick(_) | Planned::TickEither(..) => Step::Tick { time: 0 },
    }
}

/// All steps of a plan. None where there is no memory for them.
pub(crate) fn steps_of<'a>(alloc: Global, plan: &'a Plan) -> Option<Vec<Step<'a>, Global>> {
    let mut steps = Vec::new(alloc);
    for planned in &plan.steps {
        if steps.push(step_of(plan, *planned)).is_err() {
            return None;
        }
    }
    Some(steps)
}

/// What a client sends by an act.
fn sent_by<'a>(act: Act<'a>, client: u32) -> &'a [Ask] {
    match act {
        Act::Sends(sender, asks) | Act::Maps(sender, asks) | Act::SendsBeside(sender, asks)
            if sender == client => { asks }
        _ => &[],
    }
}

/// Adds to a stream what a client sends. None where there is no memory for it.
fn add_stream(
    alloc: Global,
    stream: &mut Vec<u8, Global>,
    acts: &[Act],
    client: u32,
) -> Option<()> {
    for act in acts {
        let bytes = bytes_of(alloc, sent_by(*act, client))?;
        if stream.extend_from_slice(&bytes).is_err() {
            return None;
        }
    }
    Some(())
}

/// All that a client sends, part by part. None where there is no memory for it.
pub(crate) fn stream_of(alloc: Global, parts: &[&[Act]], client: u32) -> Option<Vec<u8, Global>> {
    let mut stream = Vec::new(alloc);
    for acts in parts {
        add_stream(alloc, &mut stream, acts, client)?;
    }
    Some(stream)
}

/// Where the toplevels of the clients 1 and 2 stand, as far to the right as down. None of one that
/// isn't shown.
pub(crate) type Places = [Option<usize>; 2];

/// Where a client's toplevel stands.
pub(crate) fn place_of(places: Places, client: u32) -> Option<usize> {
    match client {
        1 => places[0],
        2 => places[1],
        _ => None,
    }
}

/// Whether a span at this distance from a place has a point.
fn spans(place: usize, first: isize, length: usize, point: usize) -> bool {
    let Some(first) = place.checked_add_signed(first) else {
        return false;
    };
    first <= point && point < first.saturating_add(length)
}

fn has(layer: &Layer, place: usize, x: usize, y: usize) -> bool {
    spans(place, layer.x, layer.w, x) && spans(place, layer.y, layer.h, y)
}

/// The colour of a point: that of the topmost layer that has it, for all are opaque.
fn color_at(layers: &[Layer], places: Places, x: usize, y: usize) -> Color {
    let mut color = BACKGROUND;
    for layer in layers {
        if let Some(place) = place_of(places, layer.client)
            && has(layer, place, x, y)
        {
            color = layer.color;
        }
    }
    color
}

/// Whether an image is that of these layers, each point painted by itself.
pub(crate) fn is_painted(pixels: &[u8], layers: &[Layer], places: Places) -> bool {
    for y in 0..64_usize {
        for x in 0..64_usize {
            let at = y.saturating_mul(64).saturating_add(x).saturating_mul(4);
            let [blue, green, red] = color_at(layers, places, x, y);
            let wanted = [blue, green, red, 255];
            if !pixels.get(at..).unwrap_or(&[]).starts_with(&wanted) {
                return false;
            }
        }
    }
    pixels.len() == 16_384
}
