//! The desk: all clients, by number, with the windows that they show, and the pointer.

ghost use Rattle.std.specs.Prelude.{◌≡◌, ◌≢◌, ◌↔◌, ◌&&◌, ℕ, ◌<◌, IfOk, IfSome, IfNone, IsErrOf, OnOk, OnErr, None, [], false, true, length, pos, ◌+◌, ◌≤◌, ◌⊎◌, vec_len};
ghost use Rattle.std.specs.Option.{option_copied};
ghost use Rattle.wl_paint.specs.Damage.{has};
ghost use Rattle.wl_paint.specs.Frame.{color_at, is_side};
ghost use Rattle.wl_scene.specs.Marking.{IsAsLarge};
ghost use Rattle.wl_scene.specs.Focus.{target_or_none};
ghost use Rattle.wl_clients.specs.Painting.{IsOpaqueAsSaid};
ghost use Rattle.spec_desktop.specs.Act.{Connect, Store, Leave, Tick, Send, Close, peer_at, unsent_of, status_of, store_size_of};
ghost use Rattle.spec_desktop.specs.Desktop.{Desktop, client_at, empty, status_in, unpointed};
ghost use Rattle.spec_desktop.specs.Happenings.{Message, Single, Starve};
ghost use Rattle.spec_desktop.specs.Scratch.{scratch};
ghost use Rattle.law_desktop.specs.Pointed.Happenings.{pointer_left};
ghost use Rattle.law_desktop.specs.Pointed.Pointed.{asked};
ghost use Rattle.wl_clients.specs.Agreeing.{Agrees as KeptAgrees};
ghost use Rattle.wl_clients.specs.Feeding.{IsIdleIn, kept_at, rest_in, served_of};
ghost use Rattle.wl_clients.specs.Leading.{Led};
ghost use Rattle.wl_clients.specs.NextStore.{next_store_of};
ghost use Rattle.wl_clients.specs.Pointing.{IsLatest};
ghost use Rattle.wl_clients.specs.StoreBytes.{store_bytes_of};
ghost use Rattle.wl_clients.specs.Touching.{ChangesNoHit};
ghost use Rattle.wl_desk.specs.Agreeing.{Agrees, LeadsBy, MarksNothing};
ghost use Rattle.wl_desk.specs.Beginning.{IsToMove};
ghost use Rattle.wl_desk.specs.Following.{IsFollowed, Took, left_of};
ghost use Rattle.wl_desk.specs.View.{DeskView, MarkedDesk, latest_of, no_latest, seat_of};
ghost use Rattle.wl_desk.specs.Ways.{LeadsOnceSettled, LeadsQuietlyOnceSettled, SettlesFrom};

use crate::latest::{forget, latest_of, none};
use crate::moves::to_move;
use crate::seating::{keep_asked, make_room};
use spec_desktop::Done;
use std::alloc::{AllocError, Allocator};
use std::marker::Model;
use wl_client::{Cause, Config, Output, Served, StoreNo};
use wl_clients::{
    ClientNo, Clients, ConnectError, Fed, Latest, MAX_CLIENTS, PointerAsked, Stored, Taken,
};
use wl_paint::{Damage, FrameError, Framebuffer, is_side};
use wl_scene::{Focus, Target};

/// All clients with the windows that they show, the wl_pointers of each, the serials of its latest
/// press and release, and the pointer. Contracts see these values:
/// - what is kept of the clients;
/// - the wl_pointers and the serials of each client, by number from 1;
/// - the pointer;
/// - which points of the output are to be painted again;
/// - whether the pointer's focus is known to be settled.
#[derive(Drop)]
pub struct Desk<A: Allocator> {
    pub(crate) clients: Clients<A>,
    pub(crate) seats: Vec<Vec<u32, A>, A>,
    pub(crate) latest: Vec<Latest, A>,
    pub(crate) pointer: Focus,
    /// Settling the focus would do nothing. So a message that changes nothing of what points hit
    /// costs no look at the windows.
    pub(crate) is_settled: bool,
}

impl<A: Allocator> Model for Desk<A> {
    ghost use Rattle.std.specs.Prelude.{◌≡◌, length, map};
    ghost use Rattle.wl_desk.specs.View.{MarkedDesk};

    ghost Value = { MarkedDesk };

    ghost view = { λ d. record {
      desk = record { kept = d.clients.desk; seats = map (λ s. s.items) d.seats.items; latest = d.latest.items; pointer = d.pointer };
      damage = d.clients.damage;
      settled = d.is_settled;
    } };

    ghost invariant = { λ d. (length d.seats.items ≡ 32) × (length d.latest.items ≡ 32) };
}

impl<A: Allocator + Copy> Desk<A> {
    /// A desk without clients, with an output of these sides. Nothing is to be painted, and the
    /// pointer has no place. `BadSize` if a side isn't 1 to 4,096 pixels.
    pub fn new(alloc: A, config: Config) -> Result<Self, FrameError>
        ensures desk { IfOk result (λ v. Agrees v.desk (empty (record { width = config.width; height = config.height }))) }
        ensures output { IfOk result (λ v. (v.desk.kept.output.width ≡ config.width) × (v.desk.kept.output.height ≡ config.height)) }
        ensures damage { IfOk result (λ v. (x y : ℕ) → has v.damage x y ≡ false) }
        ensures sides { IfOk result (λ v. (v.damage.width ≡ config.width) × (v.damage.height ≡ config.height)) }
        ensures bad { IsErrOf result FrameError.BadSize ↔ ((is_side config.width && is_side config.height) ≡ false) }
    {
        if !is_side(config.width) || !is_side(config.height) {
            return Err(FrameError::BadSize);
        }
        let output = Output {
            width: config.width,
            height: config.height,
        };
        let clients = Clients::new(alloc, output)?;
        let Ok(seats) = seats_of(alloc) else {
            return Err(FrameError::Memory);
        };
        let Ok(latest) = no_serials(alloc) else {
            return Err(FrameError::Memory);
        };
        Ok(Desk {
            clients,
            seats,
            latest,
            pointer: Focus::new(),
            is_settled: false,
        })
    }

    /// A client connects. It gets the lowest free number.
    pub fn connect(&mut self) -> Result<ClientNo, ConnectError>
        ensures leads { LeadsBy (Single Connect (Done.Connect result)) self.old self.new }
        ensures unchanged { OnErr result (self.new ≡ self.old) }
        ensures sides { IsAsLarge self.old.damage self.new.damage }
        ensures nothing { MarksNothing self.old self.new }
        ensures output { self.new.desk.kept.output ≡ self.old.desk.kept.output }
    {
        let client = self.clients.connect()?;
        self.clear_seat(client);
        self.clear_serials(client);
        Ok(client)
    }

    /// Forgets the wl_pointers of a client.
    fn clear_seat(&mut self, client: ClientNo)
        ensures cleared { seat_of self.new.desk.seats client ≡ [] }
        ensures others { (c : ℕ) → c ≢ client → seat_of self.new.desk.seats c ≡ seat_of self.old.desk.seats c }
        ensures kept { self.new.desk.kept ≡ self.old.desk.kept }
        ensures latest { self.new.desk.latest ≡ self.old.desk.latest }
        ensures pointer { self.new.desk.pointer ≡ self.old.desk.pointer }
        ensures damage { self.new.damage ≡ self.old.damage }
    {
        let Some(k) = self.place_of(client) else {
            return;
        };
        self.seats[k].clear();
    }

    /// Forgets which buttons a client was told of.
    fn clear_serials(&mut self, client: ClientNo)
        ensures none { latest_of self.new.desk.latest client ≡ no_latest }
        ensures others { (c : ℕ) → c ≢ client → latest_of self.new.desk.latest c ≡ latest_of self.old.desk.latest c }
        ensures kept { self.new.desk.kept ≡ self.old.desk.kept }
        ensures seats { self.new.desk.seats ≡ self.old.desk.seats }
        ensures pointer { self.new.desk.pointer ≡ self.old.desk.pointer }
        ensures damage { self.new.damage ≡ self.old.damage }
    {
        forget(&mut self.latest, client);
    }

    /// Keeps a piece of a client's stream behind what came before. No message is taken. Nothing is
    /// kept for a client that ended. An `Err` changes nothing, and is for a living client.
    pub fn keep(&mut self, client: ClientNo, piece: &[u8]) -> Result<(), AllocError>
        ensures ok { OnOk result ((d : Desktop) → Agrees self.old.desk d → Agrees self.new.desk (kept_at client piece.now d)) }
        ensures err { OnErr result ((d : Desktop) → Agrees self.old.desk d → Agrees self.new.desk d × (status_of (peer_at client d) ≡ Fed.Alive)) }
        ensures damage { self.new.damage ≡ self.old.damage }
        ensures output { self.new.desk.kept.output ≡ self.old.desk.kept.output }
    {
        self.clients.keep(client, piece)
    }

    /// Takes the first whole message of a living client. `More` if there is none; then nothing
    /// changes. What the message changes is marked; if the client ends by it, its windows are.
    ///
    /// If its client can't be told of it, that is to end (see [`Desk::struck`]). Then the pointer's
    /// focus is to be settled.
    pub fn serve(&mut self, client: ClientNo) -> Served
        ensures leads { result ≢ Served.More → LeadsOnceSettled (Message client) self.old self.new }
        ensures told { result ≢ Served.More → (d : Desktop) → Agrees self.new.desk d → result ≡ served_of (status_of (peer_at client d)) }
        ensures more { result ≡ Served.More → (d : Desktop) → Agrees self.old.desk d → Agrees self.new.desk d × IsIdleIn client d }
        ensures rests { result ≡ Served.More → self.new.damage ≡ self.old.damage }
        ensures sides { IsAsLarge self.old.damage self.new.damage }
        ensures less { result ≢ Served.More → length (rest_in client self.new.desk.kept) < length (rest_in client self.old.desk.kept) }
        ensures output { self.new.desk.kept.output ≡ self.old.desk.kept.output }
    {
        let movable = self.movable(client);
        let Some(taken) = self.take(client) else {
            return Served::More;
        };
        let fed = self.clients.status(client);
        self.follow(client, taken.pointer, to_move(movable, taken.pointer));
        self.is_settled = is_still(fed, taken.changes_hits);
        served_of(self.clients.status(client))
    }

    /// Takes the first whole message of a living client, and keeps a wl_pointer that it asks for.
    /// `None` if there is none. The pointer stays as it is.
    fn take(&mut self, client: ClientNo) -> Option<Taken>
        ensures took { IfSome result (λ taken. (d : Desktop) → Agrees self.old.desk d → Took client taken.pointer self.old self.new d) }
        ensures hits { IfSome result (λ taken. taken.changes_hits ≡ false → (d : Desktop) → Agrees self.old.desk d → ChangesNoHit client self.new.desk.kept (unpointed d)) }
        ensures more { IfNone result ((d : Desktop) → Agrees self.old.desk d → Agrees self.new.desk d × IsIdleIn client d) }
        ensures rests { IfNone result (self.new.damage ≡ self.old.damage) }
        ensures sides { IsAsLarge self.old.damage self.new.damage }
        ensures less { IfSome result (λ taken. length (rest_in client self.new.desk.kept) < length (rest_in client self.old.desk.kept)) }
        ensures output { self.new.desk.kept.output ≡ self.old.desk.kept.output }
    {
        let latest = self.serials(client);
        let has_room = make_room(&mut self.seats, client);
        let Some(taken) = self.clients.take(client, has_room, latest) else {
            return None;
        };
        keep_asked(&mut self.seats, client, taken.pointer, has_room);
        Some(taken)
    }

    /// The serials of the latest press and release that a living client was told of. Any other
    /// client has none.
    fn serials(&self, client: ClientNo) -> Latest
        ensures { (d : Desktop) → Agrees self.now.desk d → IsLatest result (client_at client d) }
    {
        let Fed::Alive = self.clients.status(client) else {
            return none();
        };
        latest_of(&self.latest, client)
    }

    /// Follows a message. If its client ended, the pointer leaves that. A new wl_pointer is told of
    /// the focus, if its client has it (wayland.xml, wl_pointer.enter). If it begins to move a
    /// toplevel, motions move that from now on. A toplevel that doesn't stand any more isn't moved
    /// any more.
    fn follow(&mut self, client: ClientNo, request: PointerAsked, toplevel: Option<Target>)
        ensures follows { (old : MarkedDesk) (d : Desktop) → (took : Took client request old self.old d)
            → IsToMove (asked client d) client d (target_or_none toplevel) → IsFollowed client took.desktop old self.new d }
        ensures sides { IsAsLarge self.old.damage self.new.damage }
        ensures rests { (c : ℕ) → length (rest_in c self.new.desk.kept) ≤ length (rest_in c self.old.desk.kept) }
        ensures output { self.new.desk.kept.output ≡ self.old.desk.kept.output }
    {
        if let Fed::Ended(_) = self.clients.status(client) {
            self.pointer.forget(client);
            self.let_go();
            return;
        }
        let PointerAsked::NewPointer(id) = request else {
            self.begin_move(toplevel);
            self.let_go();
            return;
        };
        self.tell_new(client, id);
    }

    /// Tells a new wl_pointer of a living client of the focus, if its client has it.
    fn tell_new(&mut self, client: ClientNo, id: u32)
        ensures tells { (old : MarkedDesk) (d : Desktop) → (took : Took client (PointerAsked.NewPointer id) old self.old d)
            → status_in client took.desktop ≡ None → IsFollowed client took.desktop old self.new d }
        ensures sides { IsAsLarge self.old.damage self.new.damage }
        ensures rests { (c : ℕ) → length (rest_in c self.new.desk.kept) ≤ length (rest_in c self.old.desk.kept) }
        ensures output { self.new.desk.kept.output ≡ self.old.desk.kept.output }
    {
        let Some(focus) = self.pointer.focus() else {
            return;
        };
        if focus.client != client {
            return;
        }
        self.enter_alone(focus, id);
    }

    /// Memory runs out for a living client, and it ends. Its windows are marked. The pointer's
    /// focus is to be settled then.
    pub fn starve(&mut self, client: ClientNo)
        ensures leads { (new : MarkedDesk) → SettlesFrom self.new new → (d : Desktop) → Agrees self.old.desk d
            → status_of (peer_at client d) ≡ Fed.Alive → Led (Agrees new.desk) (Starve client) self.old.damage new.damage d }
        ensures sides { IsAsLarge self.old.damage self.new.damage }
        ensures output { self.new.desk.kept.output ≡ self.old.desk.kept.output }
    {
        self.clients.starve(client);
        self.pointer.forget(client);
        self.is_settled = false;
    }

    /// A frame was shown at this time, in milliseconds. Tells the clients, in rising number, that
    /// their due frame callbacks are done (wayland.xml, wl_surface.frame). If an event isn't
    /// queued, its client ends, and its windows are marked. If none ends, nothing more is to be
    /// painted. The pointer's focus is to be settled then.
    pub fn frames(&mut self, time: u32)
        ensures leads { LeadsQuietlyOnceSettled (Single (Tick time) Done.Tick) self.old self.new }
        ensures sides { IsAsLarge self.old.damage self.new.damage }
        ensures output { self.new.desk.kept.output ≡ self.old.desk.kept.output }
    {
        self.clients.frames(time);
        self.forget_ended();
        self.is_settled = false;
    }

    /// The pointer leaves all clients that ended.
    fn forget_ended(&mut self)
        ensures left { (old : DeskView) (d e : Desktop) → Agrees old d → self.old.desk.pointer ≡ d.pointer → KeptAgrees self.old.desk.kept e
            → self.new.desk.pointer ≡ pointer_left d e }
        ensures kept { self.new.desk.kept ≡ self.old.desk.kept }
        ensures seats { self.new.desk.seats ≡ self.old.desk.seats }
        ensures latest { self.new.desk.latest ≡ self.old.desk.latest }
        ensures damage { self.new.damage ≡ self.old.damage }
    {
        let focus = self.pointer.focus();
        self.forget_of(focus);
        let moved = self.pointer.moved();
        self.forget_of(moved);
    }

    /// The pointer leaves the client of this surface, if that ended.
    fn forget_of(&mut self, surface: Option<Target>)
        ensures left { (e : Desktop) → KeptAgrees self.old.desk.kept e → self.new.desk.pointer ≡ left_of (target_or_none surface) e self.old.desk.pointer }
        ensures kept { self.new.desk.kept ≡ self.old.desk.kept }
        ensures seats { self.new.desk.seats ≡ self.old.desk.seats }
        ensures latest { self.new.desk.latest ≡ self.old.desk.latest }
        ensures damage { self.new.damage ≡ self.old.damage }
    {
        let Some(surface) = surface else {
            return;
        };
        let Fed::Ended(_) = self.clients.status(surface.client) else {
            return;
        };
        self.pointer.forget(surface.client);
    }

    /// Puts bytes into a client's store.
    pub fn store(&mut self, client: ClientNo, store: StoreNo, at: u32, bytes: &[u8]) -> Stored
        ensures leads { LeadsBy (Single (Store client store at bytes.now) (Done.Store result)) self.old self.new }
        ensures sides { IsAsLarge self.old.damage self.new.damage }
        ensures nothing { MarksNothing self.old self.new }
        ensures output { self.new.desk.kept.output ≡ self.old.desk.kept.output }
    {
        self.clients.store(client, store, at, bytes)
    }

    /// How many bytes a client's store has.
    pub fn store_size(&self, client: ClientNo, store: StoreNo) -> Option<u32>
        ensures { (d : Desktop) → Agrees self.now.desk d → result ≡ store_size_of store (peer_at client d) }
    {
        self.clients.store_size(client, store)
    }

    /// The bytes of a client's store as they are now.
    pub fn store_bytes(&self, client: ClientNo, store: StoreNo) -> Option<&[u8]>
        ensures { (d : Desktop) → Agrees self.now.desk d → option_copied result ≡ store_bytes_of store (peer_at client d) }
    {
        self.clients.store_bytes(client, store)
    }

    /// The least number of a client's live store that is above this one.
    pub fn next_store(&self, client: ClientNo, number: StoreNo) -> Option<StoreNo>
        ensures next { (d : Desktop) → Agrees self.now.desk d → result ≡ next_store_of number (peer_at client d) }
        ensures rises { IfSome result (λ next. number < next) }
    {
        self.clients.next_store(client, number)
    }

    /// A client closed its connection. Its windows are marked. The answer is true if it was alive;
    /// the pointer's focus is to be settled then. Else nothing is done.
    pub fn gone(&mut self, client: ClientNo) -> bool
        ensures leads { result ≡ true → (new : MarkedDesk) → SettlesFrom self.new new → LeadsBy (Single (Leave client) (Done.Gone true)) self.old new }
        ensures stays { result ≡ false → LeadsBy (Single (Leave client) (Done.Gone false)) self.old self.new }
        ensures sides { IsAsLarge self.old.damage self.new.damage }
        ensures output { self.new.desk.kept.output ≡ self.old.desk.kept.output }
    {
        if !self.clients.gone(client) {
            return false;
        }
        self.pointer.forget(client);
        self.is_settled = false;
        true
    }

    /// Drops this many of a client's unsent bytes, which were sent. If there are fewer, the answer
    /// is false and nothing changes.
    pub fn sent(&mut self, client: ClientNo, count: usize) -> bool
        ensures leads { LeadsBy (Single (Send client count) (Done.Sent result)) self.old self.new }
        ensures sides { IsAsLarge self.old.damage self.new.damage }
        ensures nothing { MarksNothing self.old self.new }
        ensures output { self.new.desk.kept.output ≡ self.old.desk.kept.output }
    {
        self.clients.sent(client, count)
    }

    /// Frees the number of a client that ended. The answer is true if it had.
    pub fn close(&mut self, client: ClientNo) -> bool
        ensures leads { LeadsBy (Single (Close client) (Done.Close result)) self.old self.new }
        ensures sides { IsAsLarge self.old.damage self.new.damage }
        ensures nothing { MarksNothing self.old self.new }
        ensures output { self.new.desk.kept.output ≡ self.old.desk.kept.output }
    {
        self.clients.close(client)
    }

    /// The unsent bytes of a client.
    pub fn out(&self, client: ClientNo) -> Option<&[u8]>
        ensures { (d : Desktop) → Agrees self.now.desk d → option_copied result ≡ unsent_of (peer_at client d) }
    {
        self.clients.out(client)
    }

    /// How a client fares.
    pub fn status(&self, client: ClientNo) -> Fed
        ensures { (d : Desktop) → Agrees self.now.desk d → result ≡ status_of (peer_at client d) }
    {
        self.clients.status(client)
    }

    /// Which points of the output are to be painted again.
    pub fn damage(&self) -> &Damage<A>
        ensures same { result.now ≡ self.now.damage }
        ensures wide { result.now.width ≡ self.now.desk.kept.output.width }
        ensures high { result.now.height ≡ self.now.desk.kept.output.height }
    {
        self.clients.damage()
    }

    /// Hands over which points of the output are to be painted again, and begins with none.
    /// `painted` has the output's sides.
    pub fn take_damage(&mut self, painted: &mut Damage<A>)
        requires wide { painted.old.width ≡ self.old.desk.kept.output.width }
        requires high { painted.old.height ≡ self.old.desk.kept.output.height }
        ensures taken { painted.new ≡ self.old.damage }
        ensures none { (x y : ℕ) → has self.new.damage x y ≡ false }
        ensures sides { IsAsLarge self.old.damage self.new.damage }
        ensures desk { self.new.desk ≡ self.old.desk }
        ensures width { painted.new.width ≡ self.old.desk.kept.output.width }
        ensures height { painted.new.height ≡ self.old.desk.kept.output.height }
    {
        self.clients.take_damage(painted);
    }

    /// Paints each point that is to be painted again, from nothing: the background, and over it the
    /// windows from bottom to top. The other points stay. It takes no memory.
    ///
    /// The image has the output's sides. A painted point may get any colour if a window isn't
    /// opaque there although its opaque region holds the point (wayland.xml,
    /// wl_surface.set_opaque_region).
    pub fn paint(&self, framebuffer: &mut Framebuffer<A>)
        requires wide { framebuffer.old.width ≡ self.now.desk.kept.output.width }
        requires high { framebuffer.old.height ≡ self.now.desk.kept.output.height }
        ensures painted { (d : Desktop) → Agrees self.now.desk d → (x y : ℕ) → x < framebuffer.old.width → y < framebuffer.old.height → has self.now.damage x y ≡ true
            → IsOpaqueAsSaid d (pos x) (pos y) → color_at framebuffer.new x y ≡ scratch framebuffer.old.background d (pos x) (pos y) }
        ensures kept { (x y : ℕ) → x < framebuffer.old.width → y < framebuffer.old.height → has self.now.damage x y ≡ false
            → color_at framebuffer.new x y ≡ color_at framebuffer.old x y }
        ensures width { framebuffer.new.width ≡ framebuffer.old.width }
        ensures height { framebuffer.new.height ≡ framebuffer.old.height }
        ensures background { framebuffer.new.background ≡ framebuffer.old.background }
    {
        self.clients.paint(framebuffer);
    }

    /// Where the values of the client of this number are, if the number has a place.
    pub(crate) fn place_of(&self, client: ClientNo) -> Option<usize>
        ensures some { IfSome result (λ k. (client ≡ k + 1) × (k < 32)) }
        ensures none { IfNone result ((client ≡ 0) ⊎ (32 < client)) }
    {
        if client == 0 || client as usize > MAX_CLIENTS {
            return None;
        }
        Some(client as usize - 1)
    }
}

/// No wl_pointers, for as many clients as there may be.
fn seats_of<A: Allocator + Copy>(alloc: A) -> Result<Vec<Vec<u32, A>, A>, AllocError>
    ensures { IfOk result (λ seats. vec_len seats ≡ 32) }
{
    let mut seats = Vec::with_capacity(alloc, MAX_CLIENTS)?;
    for _ in 0..MAX_CLIENTS {
        seats.push(Vec::new(alloc))?;
    }
    Ok(seats)
}

/// No serials, for as many clients as there may be.
fn no_serials<A: Allocator + Copy>(alloc: A) -> Result<Vec<Latest, A>, AllocError>
    ensures { IfOk result (λ latest. vec_len latest ≡ 32) }
{
    let mut latest = Vec::with_capacity(alloc, MAX_CLIENTS)?;
    for _ in 0..MAX_CLIENTS {
        latest.push(none())?;
    }
    Ok(latest)
}

/// Whether the focus is settled after a message: its client fares so, and it may have changed what
/// points hit.
fn is_still(fed: Fed, changes_hits: bool) -> bool
    ensures still { result ≡ true → (fed ≡ Fed.Alive) × (changes_hits ≡ false) }
    ensures other { result ≡ false → fed ≡ Fed.Alive → changes_hits ≡ true }
{
    match fed {
        Fed::Alive => !changes_hits,
        Fed::NoClient | Fed::Ended(_) => false,
    }
}

/// How a client's message fared, by how the client fares then. A client that ran out of memory is
/// told so, as an error of wl_display. One that was too slow is told nothing.
fn served_of(fed: Fed) -> Served
    ensures { result ≡ served_of fed }
{
    match fed {
        Fed::Ended(Cause::Protocol { object, code }) => Served::Refused { object, code },
        Fed::Ended(Cause::Memory) => Served::Refused { object: 1, code: 2 },
        Fed::NoClient | Fed::Alive | Fed::Ended(Cause::Slow | Cause::Gone) => Served::Done,
    }
}
