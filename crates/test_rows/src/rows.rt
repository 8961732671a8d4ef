//! Sessions as tables: rows of what is done in a session, or of how it is, each with what is wanted
//! of it.

use crate::asks::{Ask, Interface, bytes_of};
use crate::events::{Event, error_bytes, told_bytes};
use std::alloc::Global;
use wl_session::{Cause, Config, Done, Fed, Rgb, Session, ShownWindow, Step, Stored};

pub const CONFIG: Config = Config {
    width: 64,
    height: 64,
    background: Rgb { r: 0, g: 0, b: 0 },
};

/// A pixel of a frame: its column, its row, and its colour as red, green and blue.
#[derive(Clone, Copy)]
pub struct Pixel(pub usize, pub usize, pub u8, pub u8, pub u8);

/// From which column and row to before which.
#[derive(Clone, Copy)]
pub struct Span {
    pub from: usize,
    pub past: usize,
}

/// Something that is done in a session, or how the session is, with what is wanted of it.
#[derive(Clone, Copy)]
pub enum Row<'a> {
    /// A step, made by its own call, and its answer.
    Calls(Step<'a>, Done),
    /// A step, made by `step`, and its answer.
    Steps(Step<'a>, Done),
    /// The client 1 asks something and lives on.
    Sends(Ask),
    /// A client asks something and lives on.
    From(u32, Ask),
    /// The client 1 binds by its registry 2: a global's name, interface and version, and the new
    /// id. How the client is afterwards.
    Binds(u32, Interface, u32, u32, Fed),
    /// The client 1 asks something and lives on. What waits for it then are these events, and they
    /// are taken.
    Accepts(Ask, &'a [Event]),
    /// The client 1 asks something and lives on, and nothing waits for it then.
    Untold(Ask),
    /// The client 1 asks something, and ends by an error of this object and code.
    Errs(Ask, u32, u32),
    /// A piece of the client 1 comes byte by byte. Nothing waits for it before each byte, and it
    /// lives on.
    Drips(&'a [u8]),
    /// The client 1 sends so many syncs with the new callback 2.
    Syncs(u32),
    /// Clients connect with the numbers from the one to before the other.
    Connects(u32, u32),
    /// The client 1 gets registries with these ids, and takes what waits.
    GetsRegistries(u32, u32),
    /// The client 1 binds compositors with these ids by its registry 2.
    BindsCompositors(u32, u32),
    /// The client 1 makes regions with these ids by its wl_compositor 3, and lives on.
    MakesRegions(u32, u32),
    /// The client 1 makes pools of one byte with these ids by its wl_shm 4, and lives on.
    MakesPools(u32, u32),
    /// The client 1 makes surfaces with these ids by its wl_compositor 3, and lives on.
    MakesSurfaces(u32, u32),
    /// The client 1 makes each surface with these ids a subsurface of the one before it by its
    /// wl_subcompositor 9, and lives on. The new ids are 100 more.
    Nests(u32, u32),
    /// The client 1 asks two things by turns, each so many times, and lives on.
    Changes(u32, Ask, Ask),
    /// All that waits for the client 1 is taken.
    Takes,
    /// All that waits for a client is taken.
    TakesOf(u32),
    /// So many pixels of a client's store from a byte on get this value: blue, green, red and
    /// alpha.
    Fills(u32, u32, u32, u32, [u8; 4]),
    /// A pixel of the store 1 of a client at a byte gets this value, of which nothing is told. At
    /// the tick after it nothing is damaged, and all is as at
    /// the one before but in the columns and rows of this span.
    Spoils(u32, u32, [u8; 4], Span),
    /// A tick: how many points of its frame are damaged at least and at most, and some of its
    /// pixels.
    Shows(u32, u32, &'a [Pixel]),
    /// A tick: how many points of its frame are damaged at least and at most.
    Paints(u32, u32),
    /// The windows of the output, from bottom to top.
    Stacked(&'a [ShownWindow]),
    /// A tick at a time, and how many points of its frame are damaged.
    Ticks(u32, u32),
    /// The client 1 asks for its toplevel 8 to be maximized as often as there are serials from the
    /// one to before the other. Each time it is told a configure of the toplevel and one of the
    /// xdg_surface 7, with the next of these serials, which are taken.
    Maximizes(u32, u32),
    /// How a client is.
    Is(u32, Fed),
    /// Nothing waits for a client.
    Silent(u32),
    /// The bytes that wait for a client. None where no client has the number.
    Waits(u32, Option<&'a [u8]>),
    /// The first bytes that wait for the client 1.
    Starts(&'a [u8]),
    /// The events that wait for the client 1.
    Told(&'a [Event]),
    /// The events that wait for a client, which are taken.
    ToldOf(u32, &'a [Event]),
    /// The one wl_display.error, of this object, code and text, that waits for the client 1.
    ErrorTold(u32, u32, &'a [u8]),
    /// How many bytes wait for the client 1.
    Waiting(usize),
    /// How many bytes a client's store has, by their numbers.
    Store(u32, u32, Option<u32>),
}

/// What wasn't as wanted.
#[derive(Clone, Copy, Debug, PartialEq, Eq)]
pub enum Fault {
    NoSession,
    /// A row, by its part and its place there.
    Row(usize, usize),
}

/// A client connects as the first.
pub const CLIENT: &[Row] = &[Row::Calls(Step::Connect, Done::Connect(Ok(1)))];

/// A client with the registry 2, whose globals were sent.
pub const REGISTRY: &[Row] = &[
    Row::Calls(Step::Connect, Done::Connect(Ok(1))),
    Row::Sends(Ask::GetRegistry(2)),
    Row::Takes,
];

/// How a client is after wl_display.error of wl_display with invalid_object.
pub const INVALID_OBJECT: Fed = Fed::Ended(Cause::Protocol { object: 1, code: 0 });

fn protocol(object: u32, code: u32) -> Fed {
    Fed::Ended(Cause::Protocol { object, code })
}

/// How a client is after what it asks. None where there is no memory for the bytes.
fn sent_by(alloc: Global, session: &mut Session<Global>, client: u32, ask: Ask) -> Option<Fed> {
    let bytes = bytes_of(alloc, &[ask])?;
    Some(session.feed(client, &bytes))
}

/// How the client 1 is after what it asks.
fn sent(alloc: Global, session: &mut Session<Global>, ask: Ask) -> Option<Fed> {
    sent_by(alloc, session, 1, ask)
}

fn lives(alloc: Global, session: &mut Session<Global>, ask: Ask) -> bool {
    sent(alloc, session, ask) == Some(Fed::Alive)
}

fn waiting(session: &Session<Global>) -> usize {
    session.out(1).map_or(0, |out| out.len())
}

fn take_all(session: &mut Session<Global>) -> bool {
    let count = waiting(session);
    session.sent(1, count)
}

/// Whether the client 1 lives on after what it asks, and is told this.
fn accepts(alloc: Global, session: &mut Session<Global>, ask: Ask, told: &[Event]) -> bool {
    lives(alloc, session, ask) && is_told(alloc, session, told) && take_all(session)
}

fn take_all_of(session: &mut Session<Global>, client: u32) -> bool {
    let count = session.out(client).map_or(0, |out| out.len());
    session.sent(client, count)
}

/// A client's store from a byte on.
#[derive(Clone, Copy)]
struct Place {
    client: u32,
    store: u32,
    at: u32,
}

fn fill(session: &mut Session<Global>, place: &Place, count: u32, pixel: &[u8]) -> bool {
    for k in 0..count {
        let at = place.at.saturating_add(4u32.saturating_mul(k));
        if session.store(place.client, place.store, at, pixel) != Stored::Done {
            return false;
        }
    }
    true
}

/// Whether a pixel of an image that is so wide is as wanted.
pub fn is_pixel(bytes: &[u8], width: usize, pixel: &Pixel) -> bool {
    let &Pixel(x, y, red, green, blue) = pixel;
    let at = y.saturating_mul(width).saturating_add(x).saturating_mul(4);
    match bytes.get(at..) {
        Some(from) => from.starts_with(&[blue, green, red, 255]),
        None => false,
    }
}

fn shows(session: &mut Session<Global>, least: u32, most: u32, pixels: &[Pixel]) -> bool {
    let frame = session.tick(0);
    let count = frame.damage.count();
    let bytes = frame.pixels.pixels();
    least <= count && count <= most && pixels.iter().all(|pixel| is_pixel(bytes, 64, pixel))
}

/// Whether these are the windows of the output, from bottom to top.
pub fn are_windows(session: &Session<Global>, wanted: &[ShownWindow]) -> bool {
    let count = session.window_count();
    for (k, window) in wanted.iter().enumerate() {
        if k >= count || session.window(k) != *window {
            return false;
        }
    }
    count == wanted.len()
}

impl Span {
    fn has(self, place: usize) -> bool {
        self.from <= place && place < self.past
    }
}

/// Whether two images that are 64 pixels wide are the same but in the columns and rows of a span.
fn are_same_but(span: Span, one: &[u8], other: &[u8]) -> bool {
    for (at, (byte, wanted)) in one.iter().zip(other).enumerate() {
        let point = at / 4;
        if byte != wanted && !(span.has(point % 64) && span.has(point / 64)) {
            return false;
        }
    }
    one.len() == other.len()
}

/// All pixels of a tick. None where there is no memory for them.
fn image(alloc: Global, session: &mut Session<Global>) -> Option<Vec<u8, Global>> {
    session.tick(0).pixels.pixels().to_vec(alloc).ok()
}

fn shows_same_but(session: &mut Session<Global>, span: Span, before: &[u8]) -> bool {
    let frame = session.tick(0);
    frame.damage.count() == 0 && are_same_but(span, frame.pixels.pixels(), before)
}

fn spoil(
    alloc: Global,
    session: &mut Session<Global>,
    place: &Place,
    pixel: &[u8],
    span: Span,
) -> bool {
    match image(alloc, session) {
        Some(before) => { fill(session, place, 1, pixel) && shows_same_but(session, span, &before) }
        None => false,
    }
}

pub fn has_out(session: &Session<Global>, client: u32, bytes: &[u8]) -> bool {
    match session.out(client) {
        Some(out) => out == bytes,
        None => false,
    }
}

fn is_told_of(alloc: Global, session: &Session<Global>, client: u32, events: &[Event]) -> bool {
    match told_bytes(alloc, events) {
        Some(bytes) => has_out(session, client, &bytes),
        None => false,
    }
}

fn is_told(alloc: Global, session: &Session<Global>, events: &[Event]) -> bool {
    is_told_of(alloc, session, 1, events)
}

fn is_error_told(
    alloc: Global,
    session: &Session<Global>,
    object: u32,
    code: u32,
    text: &[u8],
) -> bool {
    match error_bytes(alloc, object, code, text) {
        Some(bytes) => has_out(session, 1, &bytes),
        None => false,
    }
}

/// Makes a step by its own call.
fn called(session: &mut Session<Global>, step: &Step) -> Done {
    match *step {
        Step::Connect => Done::Connect(session.connect()),
        Step::Feed { client, piece } => Done::Feed(session.feed(client, piece)),
        Step::Store {
            client,
            store,
            at,
            bytes,
        } => Done::Store(session.store(client, store, at, bytes)),
        Step::Gone { client } => Done::Gone(session.gone(client)),
        Step::Tick { time } => {
            let _ = session.tick(time);
            Done::Tick
        }
        Step::Sent { client, count } => Done::Sent(session.sent(client, count)),
        Step::Close { client } => Done::Close(session.close(client)),
        Step::Motion { time, x, y } => {
            session.motion(time, x, y);
            Done::Motion
        }
        Step::Button {
            time,
            button,
            pressed,
        } => {
            session.button(time, button, pressed);
            Done::Button
        }
    }
}

fn drip(session: &mut Session<Global>, piece: &[u8]) -> bool {
    for byte in piece {
        if !has_out(session, 1, &[]) || session.feed(1, &[*byte]) != Fed::Alive {
            return false;
        }
    }
    true
}

/// wl_display.sync with the new callback 2.
pub const SYNC: &[u8] = &[1, 0, 0, 0, 0, 0, 12, 0, 2, 0, 0, 0];

fn sync(session: &mut Session<Global>, count: u32) -> bool {
    for _ in 0..count {
        session.feed(1, SYNC);
    }
    true
}

fn connect(session: &mut Session<Global>, first: u32, past: u32) -> bool {
    for number in first..past {
        if session.connect() != Ok(number) {
            return false;
        }
    }
    true
}

fn get_registries(alloc: Global, session: &mut Session<Global>, first: u32, past: u32) -> bool {
    for id in first..past {
        sent(alloc, session, Ask::GetRegistry(id));
        take_all(session);
    }
    true
}

fn bind_compositors(alloc: Global, session: &mut Session<Global>, first: u32, past: u32) -> bool {
    for id in first..past {
        sent(
            alloc,
            session,
            Ask::Bind(2, 1, Interface::Compositor, 2, id),
        );
    }
    true
}

fn make_pools(alloc: Global, session: &mut Session<Global>, first: u32, past: u32) -> bool {
    for id in first..past {
        if !lives(alloc, session, Ask::CreatePool(4, id, 1)) {
            return false;
        }
    }
    true
}

fn make_regions(alloc: Global, session: &mut Session<Global>, first: u32, past: u32) -> bool {
    for id in first..past {
        if !lives(alloc, session, Ask::CreateRegion(3, id)) {
            return false;
        }
    }
    true
}

fn make_surfaces(alloc: Global, session: &mut Session<Global>, first: u32, past: u32) -> bool {
    for id in first..past {
        if !lives(alloc, session, Ask::CreateSurface(3, id)) {
            return false;
        }
    }
    true
}

fn nest(alloc: Global, session: &mut Session<Global>, first: u32, past: u32) -> bool {
    for id in first..past {
        let ask = Ask::GetSubsurface(9, id.saturating_add(100), id, id.saturating_sub(1));
        if !lives(alloc, session, ask) {
            return false;
        }
    }
    true
}

fn feed_by_turns(session: &mut Session<Global>, count: u32, one: &[u8], other: &[u8]) -> bool {
    for _ in 0..count {
        if session.feed(1, one) != Fed::Alive || session.feed(1, other) != Fed::Alive {
            return false;
        }
    }
    true
}

fn change(alloc: Global, session: &mut Session<Global>, count: u32, asks: [Ask; 2]) -> bool {
    match (bytes_of(alloc, &[asks[0]]), bytes_of(alloc, &[asks[1]])) {
        (Some(one), Some(other)) => feed_by_turns(session, count, &one, &other),
        _ => false,
    }
}

/// xdg_toplevel.configure of the toplevel 8: of no size, and activated.
const CONFIGURED: Event = Event::ToplevelConfigure(8, 0, 0);

fn maximize(alloc: Global, session: &mut Session<Global>, first: u32, past: u32) -> bool {
    for serial in first..past {
        let told = [CONFIGURED, Event::Configure(7, serial)];
        if !accepts(alloc, session, Ask::SetMaximized(8), &told) {
            return false;
        }
    }
    true
}

fn ticks(session: &mut Session<Global>, time: u32, count: u32) -> bool {
    let frame = session.tick(time);
    frame.time == time && frame.damage.count() == count
}

/// Does what a row says, and tells whether it is as wanted.
fn is_met(alloc: Global, session: &mut Session<Global>, row: &Row) -> bool {
    match *row {
        Row::Calls(step, wanted) => called(session, &step) == wanted,
        Row::Steps(step, wanted) => session.step(&step) == wanted,
        Row::Sends(ask) => lives(alloc, session, ask),
        Row::From(client, ask) => sent_by(alloc, session, client, ask) == Some(Fed::Alive),
        Row::Binds(name, interface, version, id, fed) => {
            let ask = Ask::Bind(2, name, interface, version, id);
            sent(alloc, session, ask) == Some(fed)
        }
        Row::Accepts(ask, told) => accepts(alloc, session, ask, told),
        Row::Untold(ask) => lives(alloc, session, ask) && has_out(session, 1, &[]),
        Row::Errs(ask, object, code) => sent(alloc, session, ask) == Some(protocol(object, code)),
        Row::Drips(piece) => drip(session, piece),
        Row::Syncs(count) => sync(session, count),
        Row::Connects(first, past) => connect(session, first, past),
        Row::GetsRegistries(first, past) => get_registries(alloc, session, first, past),
        Row::BindsCompositors(first, past) => bind_compositors(alloc, session, first, past),
        Row::MakesRegions(first, past) => make_regions(alloc, session, first, past),
        Row::MakesPools(first, past) => make_pools(alloc, session, first, past),
        Row::MakesSurfaces(first, past) => make_surfaces(alloc, session, first, past),
        Row::Nests(first, past) => nest(alloc, session, first, past),
        Row::Changes(count, one, other) => change(alloc, session, count, [one, other]),
        Row::Takes => take_all(session),
        Row::TakesOf(client) => take_all_of(session, client),
        Row::Fills(client, store, at, count, pixel) => {
            let [b, g, r, a] = pixel;
            fill(session, &Place { client, store, at }, count, &[b, g, r, a])
        }
        Row::Spoils(client, at, pixel, span) => {
            let [b, g, r, a] = pixel;
            let place = Place {
                client,
                store: 1,
                at,
            };
            spoil(alloc, session, &place, &[b, g, r, a], span)
        }
        Row::Shows(least, most, pixels) => shows(session, least, most, pixels),
        Row::Paints(least, most) => shows(session, least, most, &[]),
        Row::Stacked(windows) => are_windows(session, windows),
        Row::Ticks(time, count) => ticks(session, time, count),
        Row::Maximizes(first, past) => maximize(alloc, session, first, past),
        Row::Is(client, wanted) => session.status(client) == wanted,
        Row::Silent(client) => has_out(session, client, &[]),
        Row::Waits(client, Some(bytes)) => has_out(session, client, bytes),
        Row::Waits(client, None) => session.out(client).is_none(),
        Row::Starts(bytes) => session.out(1).unwrap_or(&[]).starts_with(bytes),
        Row::Told(events) => is_told(alloc, session, events),
        Row::ToldOf(client, events) => {
            is_told_of(alloc, session, client, events) && take_all_of(session, client)
        }
        Row::ErrorTold(object, code, text) => is_error_told(alloc, session, object, code, text),
        Row::Waiting(count) => waiting(session) == count,
        Row::Store(client, store, wanted) => session.store_size(client, store) == wanted,
    }
}

/// The place of the first row that isn't as wanted.
fn first_missed(alloc: Global, session: &mut Session<Global>, rows: &[Row]) -> Option<usize> {
    for (place, row) in rows.iter().enumerate() {
        if !is_met(alloc, session, row) {
            return Some(place);
        }
    }
    None
}

/// Plays the parts of a case in a session.
pub fn play_in(
    alloc: Global,
    session: &mut Session<Global>,
    parts: &[&[Row]],
) -> Result<(), Fault> {
    for (part, rows) in parts.iter().enumerate() {
        if let Some(place) = first_missed(alloc, session, rows) {
            return Err(Fault::Row(part, place));
        }
    }
    Ok(())
}

/// A case: its name, and the parts of rows that are played in turn in a session of its own.
pub type Case<'a> = (&'a str, &'a [&'a [Row<'a>]]);

/// Plays the parts of a case after those that it shares with others, on an output of this size.
fn play_after_on(
    alloc: Global,
    config: &Config,
    first: &[&[Row]],
    parts: &[&[Row]],
) -> Result<(), Fault> {
    match Session::new(alloc, *config) {
        Ok(mut session) => play_both(alloc, &mut session, first, parts),
        Err(_) => Err(Fault::NoSession),
    }
}

/// Plays the parts of a case after those that it shares with others.
pub fn play_after(alloc: Global, first: &[&[Row]], parts: &[&[Row]]) -> Result<(), Fault> {
    play_after_on(alloc, &CONFIG, first, parts)
}

fn play_both(
    alloc: Global,
    session: &mut Session<Global>,
    first: &[&[Row]],
    parts: &[&[Row]],
) -> Result<(), Fault> {
    play_in(alloc, session, first)?;
    play_in(alloc, session, parts)
}

/// Plays the parts of a case.
pub fn play(alloc: Global, parts: &[&[Row]]) -> Result<(), Fault> {
    match Session::new(alloc, CONFIG) {
        Ok(mut session) => play_in(alloc, &mut session, parts),
        Err(_) => Err(Fault::NoSession),
    }
}

fn play_row_in(
    alloc: Global,
    session: &mut Session<Global>,
    parts: &[&[Row]],
    row: &Row,
) -> Result<(), Fault> {
    play_in(alloc, session, parts)?;
    if is_met(alloc, session, row) {
        Ok(())
    } else {
        Err(Fault::Row(parts.len(), 0))
    }
}

/// Plays the parts of a case, and then a row.
fn play_row(alloc: Global, parts: &[&[Row]], row: &Row) -> Result<(), Fault> {
    match Session::new(alloc, CONFIG) {
        Ok(mut session) => play_row_in(alloc, &mut session, parts, row),
        Err(_) => Err(Fault::NoSession),
    }
}

/// The first of the rows that isn't as wanted, each in a session of its own after these parts, and
/// what wasn't.
pub fn first_missed_row(alloc: Global, parts: &[&[Row]], rows: &[Row]) -> Option<(usize, Fault)> {
    for (place, row) in rows.iter().enumerate() {
        if let Err(fault) = play_row(alloc, parts, row) {
            return Some((place, fault));
        }
    }
    None
}

/// The first case that isn't as wanted, and what wasn't. Each is played in a session of its own,
/// after the parts that they share. The output has the size of `config`, and is 64 pixels wide.
pub fn first_missed_case_on(
    alloc: Global,
    config: &Config,
    first: &[&[Row]],
    cases: &[Case],
) -> Option<(usize, Fault)> {
    for (place, &(_, parts)) in cases.iter().enumerate() {
        if let Err(fault) = play_after_on(alloc, config, first, parts) {
            return Some((place, fault));
        }
    }
    None
}

/// The first of the cases that isn't as wanted, each in a session of its own after the parts that
/// they share, and what wasn't.
pub fn first_missed_case(
    alloc: Global,
    first: &[&[Row]],
    cases: &[Case],
) -> Option<(usize, Fault)> {
    first_missed_case_on(alloc, &CONFIG, first, cases)
}
