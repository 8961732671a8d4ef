//! All clients, by number, with their toplevels and the windows of these.

ghost use Rattle.std.specs.Prelude.{◌≡◌, ◌↔◌, ◌&&◌, ◌||◌, ℕ, ◌+◌, ◌<◌, ◌≤◌, Option, is_some, length, pos, IfOk, IfSome, IfNone, IsErrOf, OnOk, OnErr, false, true, Result, Ok, Err, None, Some};
ghost use Rattle.std.specs.Option.{option_copied, option_copied_mut};
ghost use Rattle.wl_client.specs.Agreement.{output_of};
ghost use Rattle.wl_paint.specs.Damage.{has};
ghost use Rattle.wl_paint.specs.Frame.{color_at, is_side};
ghost use Rattle.spec_desktop.specs.Desktop.{Desktop, client_at, empty, status_in};
ghost use Rattle.spec_desktop.specs.Act.{Connect, Store, Leave, Tick, Send, Close, lowest, peer_at, unsent_of, status_of, store_size_of};
ghost use Rattle.wl_clients.specs.NextStore.{next_store_of};
ghost use Rattle.wl_clients.specs.StoreBytes.{store_bytes_of};
ghost use Rattle.wl_clients.specs.Agreeing.{Agrees, MarksNothing, MarksStep, TakesStep};
ghost use Rattle.wl_clients.specs.Marking.{MarksAtLeast, MarksMost};
ghost use Rattle.wl_clients.specs.Feeding.{Ends, IsIdleIn, kept_at, kept_while, rest_in};
ghost use Rattle.wl_scene.specs.Marking.{IsAsLarge};
ghost use Rattle.wl_clients.specs.Framing.{MarksIfEnds, WasTold};
ghost use Rattle.wl_clients.specs.Leading.{LeadsBy, LeadsQuietly, Led};
ghost use Rattle.wl_clients.specs.Pointing.{AsksOfPointer, IsLatest};
ghost use Rattle.wl_clients.specs.Touching.{ChangesNoHit};
ghost use Rattle.std.specs.Borrow.{sem};
ghost use Rattle.wl_clients.specs.Residents.{lends_resident, resident_at};
ghost use Rattle.law_desktop.specs.Pointed.Pointed.{asked};
ghost use Rattle.wl_clients.specs.Agreement.{numbers_in};
ghost use Rattle.wl_clients.specs.Painting.{IsOpaqueAsSaid};
ghost use Rattle.spec_desktop.specs.Scratch.{scratch};
ghost use Rattle.spec_desktop.specs.Happenings.{Message, Single, Starve};
ghost use Rattle.spec_desktop.specs.Happens.{Happens};
ghost use Rattle.law_desktop.specs.Touching.{has_window_at};

use crate::grabs::Latest;
use crate::screen::{Screen, Taken, bare};
use crate::windows::{Lent, resident_of};
use spec_desktop::{ClientNo, ConnectError, Done, Fed, Stored};
use std::alloc::{AllocError, Allocator};
use std::marker::Model;
use wl_client::{Cause, Client, Output, StoreNo};
use wl_geom::Region;
use wl_links::Subsurfaces;
use wl_paint::{Damage, FrameError, Framebuffer, is_side};
use wl_requests::{PointerAsked, Resident};

/// How many clients there may be at once.
pub const MAX_CLIENTS: usize = 32;

/// All clients with what each owns, the mapped toplevels with their windows, and which points of
/// the output are to be painted again.
///
/// Contracts see the output, what is kept of each client and of what it owns, by number from 1, the
/// pile of toplevels and windows, and that damage.
#[derive(Drop)]
pub struct Clients<A: Allocator> {
    output: Output,
    pub(crate) residents: Vec<Option<Resident<A>>, A>,
    pub(crate) screen: Screen<A>,
}

impl<A: Allocator> Model for Clients<A> {
    ghost use Rattle.std.specs.Prelude.{◌≡◌, length};
    ghost use Rattle.wl_clients.specs.View.{MarkedDesk, pile_of};
    ghost use Rattle.wl_clients.specs.Residents.{client_views, owned_views};

    ghost Value = { MarkedDesk };

    ghost view = { λ d. record {
      desk = record { output = d.output; clients = client_views d.residents.items; owned = owned_views d.residents.items; pile = pile_of d.screen };
      damage = d.screen.damage;
    } };

    ghost invariant = { λ d. (length d.residents.items ≡ 32) × ((d.screen.damage.width ≡ d.output.width) × (d.screen.damage.height ≡ d.output.height)) };
}

impl<A: Allocator + Copy> Clients<A> {
    /// No client, with this output: its sides are 1 to 4,096 pixels. Nothing is to be painted.
    pub fn new(alloc: A, output: Output) -> Result<Self, FrameError>
        ensures desk { IfOk result (λ v. Agrees v.desk (empty (output_of output))) }
        ensures output { IfOk result (λ v. v.desk.output ≡ output) }
        ensures damage { IfOk result (λ v. (x y : ℕ) → has v.damage x y ≡ false) }
        ensures sides { IfOk result (λ v. (v.damage.width ≡ output.width) × (v.damage.height ≡ output.height)) }
        ensures bad { IsErrOf result FrameError.BadSize ↔ ((is_side output.width && is_side output.height) ≡ false) }
    {
        if !is_side(output.width) || !is_side(output.height) {
            return Err(FrameError::BadSize);
        }
        match Self::of_side(alloc, output) {
            Ok(desk) => Ok(desk),
            Err(AllocError) => Err(FrameError::Memory),
        }
    }

    /// The same, for sides that are checked.
    fn of_side(alloc: A, output: Output) -> Result<Self, AllocError>
        requires wide { output.width ≤ 4096 }
        requires high { output.height ≤ 4096 }
        ensures desk { IfOk result (λ v. Agrees v.desk (empty (output_of output))) }
        ensures output { IfOk result (λ v. v.desk.output ≡ output) }
        ensures damage { IfOk result (λ v. (x y : ℕ) → has v.damage x y ≡ false) }
        ensures sides { IfOk result (λ v. (v.damage.width ≡ output.width) × (v.damage.height ≡ output.height)) }
    {
        let damage = Damage::new(alloc, output.width, output.height)?;
        let screen = Screen::new(alloc, damage)?;
        let mut residents = Vec::with_capacity(alloc, MAX_CLIENTS)?;
        for _ in 0..MAX_CLIENTS {
            residents.push(None)?;
        }
        Ok(Clients {
            output,
            residents,
            screen,
        })
    }

    /// A client connects. It gets the lowest free number.
    pub fn connect(&mut self) -> Result<ClientNo, ConnectError>
        ensures step { TakesStep Connect (Done.Connect result) self.old.desk self.new.desk }
        ensures marks { MarksStep Connect (Done.Connect result) self.old self.new }
        ensures leads { LeadsBy (Single Connect (Done.Connect result)) self.old self.new }
        ensures unchanged { OnErr result (self.new ≡ self.old) }
        ensures sides { IsAsLarge self.old.damage self.new.damage }
        ensures nothing { MarksNothing self.old self.new }
        ensures output { self.new.desk.output ≡ self.old.desk.output }
    {
        let Some(k) = free_place(&self.residents) else {
            return Err(ConnectError::Full);
        };
        let alloc = *self.residents.allocator();
        let Ok(client) = Client::new(alloc, self.output) else {
            return Err(ConnectError::Memory);
        };
        self.residents[k] = Some(Resident {
            client,
            owned: bare(alloc),
            subsurfaces: Subsurfaces::new(alloc),
        });
        Ok(k as u32 + 1)
    }

    /// Keeps a piece of a client's stream behind what came before. No message is taken. Nothing is
    /// kept for a client that ended. An `Err` changes nothing, and is for a living client.
    pub fn keep(&mut self, client: ClientNo, piece: &[u8]) -> Result<(), AllocError>
        ensures ok { OnOk result ((d : Desktop) → Agrees self.old.desk d → Agrees self.new.desk (kept_at client piece.now d)) }
        ensures err { OnErr result ((d : Desktop) → Agrees self.old.desk d → Agrees self.new.desk d × (status_of (peer_at client d) ≡ Fed.Alive)) }
        ensures damage { self.new.damage ≡ self.old.damage }
        ensures output { self.new.desk.output ≡ self.old.desk.output }
    {
        let Some(resident) = resident_mut(&mut self.residents, client) else {
            return Ok(());
        };
        keep_in(resident, piece)
    }

    /// Takes the first whole message of a living client. `None` if there is none; then nothing
    /// changes. What the message changes is marked; if the client ends by it, its windows are. If
    /// the answer doesn't say that it changes hits, and the client lives on, each point hits what
    /// it hit. The usual commit changes none: the windows are as large as before, stand where they
    /// stood, and take input where they did.
    ///
    /// Without a seat for a new wl_pointer, a client that asks for one ends as out of memory.
    /// `latest` has the serials that the client was told, by which a grab is allowed.
    pub fn take(&mut self, client: ClientNo, has_seat: bool, latest: Latest) -> Option<Taken>
        ensures leads { IfSome result (λ taken. (d : Desktop) → Agrees self.old.desk d → IsLatest latest (client_at client d)
            → Led (Agrees self.new.desk) (Message client) self.old.damage self.new.damage d) }
        ensures asks { IfSome result (λ taken. (d : Desktop) → Agrees self.old.desk d
            → AsksOfPointer (numbers_in self.old.desk.clients client) (asked client d) taken.pointer) }
        ensures seat { IfSome result (λ taken. (id : ℕ) → taken.pointer ≡ PointerAsked.NewPointer id → has_seat ≡ false
            → (e : Desktop) → Agrees self.new.desk e → is_some (status_in client e) ≡ true) }
        ensures hits { IfSome result (λ taken. taken.changes_hits ≡ false → (d : Desktop) → Agrees self.old.desk d → IsLatest latest (client_at client d)
            → ChangesNoHit client self.new.desk d) }
        ensures more { IfNone result ((d : Desktop) → Agrees self.old.desk d → Agrees self.new.desk d × IsIdleIn client d) }
        ensures rests { IfNone result (self.new.damage ≡ self.old.damage) }
        ensures sides { IsAsLarge self.old.damage self.new.damage }
        ensures less { IfSome result (λ taken. length (rest_in client self.new.desk) < length (rest_in client self.old.desk)) }
        ensures output { self.new.desk.output ≡ self.old.desk.output }
    {
        let Some(resident) = resident_of(&self.residents, client) else {
            return None;
        };
        let asked = resident.asked();
        let grabbing = self.grabbing(client, &asked, latest);
        let Some(resident) = resident_mut(&mut self.residents, client) else {
            return None;
        };
        self.screen
            .serve(resident, client, asked, has_seat, grabbing)
    }

    /// Memory runs out for a living client, and it ends. Only its own windows are marked.
    pub fn starve(&mut self, client: ClientNo)
        ensures leads { (d : Desktop) → Agrees self.old.desk d → status_of (peer_at client d) ≡ Fed.Alive
            → Led (Agrees self.new.desk) (Starve client) self.old.damage self.new.damage d }
        ensures sides { IsAsLarge self.old.damage self.new.damage }
        ensures output { self.new.desk.output ≡ self.old.desk.output }
    {
        self.end(client, Cause::Memory);
    }

    /// Ends a client for this cause, if it lives. It isn't told. Only its own windows are marked.
    fn end(&mut self, client: ClientNo, cause: Cause)
        ensures ends { (d : Desktop) → Agrees self.old.desk d → (e : Desktop) × Ends client cause d e × Agrees self.new.desk e }
        ensures marks { (d e : Desktop) → Agrees self.old.desk d → Ends client cause d e → MarksAtLeast d e self.old.damage self.new.damage }
        ensures within { (d : Desktop) → Agrees self.old.desk d → (x y : ℕ) → x < self.old.damage.width → y < self.old.damage.height
            → has self.new.damage x y ≡ true → (has self.old.damage x y || has_window_at client (pos x) (pos y) d) ≡ true }
        ensures most { (d e : Desktop) → Agrees self.old.desk d → Ends client cause d e → Agrees self.new.desk e → MarksMost d e self.old.damage self.new.damage }
        ensures sides { IsAsLarge self.old.damage self.new.damage }
        ensures output { self.new.desk.output ≡ self.old.desk.output }
    {
        let alloc = *self.residents.allocator();
        let Some(resident) = resident_mut(&mut self.residents, client) else {
            return;
        };
        self.screen.end(resident, client, cause, alloc);
    }

    /// A frame was shown at this time, in milliseconds. Tells the clients, in rising number, that
    /// their due frame callbacks are done (wayland.xml, wl_surface.frame). If an event isn't
    /// queued, its client ends, and its windows are marked. If none ends, nothing more is to be
    /// painted.
    pub fn frames(&mut self, time: u32)
        ensures shows { (d : Desktop) → Agrees self.old.desk d → (e : Desktop) × Happens (Tick time) Done.Tick d e × Agrees self.new.desk e
            × MarksAtLeast d e self.old.damage self.new.damage × MarksMost d e self.old.damage self.new.damage
            × MarksIfEnds d e self.old.damage self.new.damage }
        ensures leads { LeadsQuietly (Single (Tick time) Done.Tick) self.old self.new }
        ensures sides { IsAsLarge self.old.damage self.new.damage }
        ensures output { self.new.desk.output ≡ self.old.desk.output }
    {
        for before in 0..MAX_CLIENTS {
            self.tell_frames(before as u32 + 1, time);
        }
    }

    /// Tells a client of a frame.
    fn tell_frames(&mut self, client: ClientNo, time: u32)
        ensures tells { (d : Desktop) → Agrees self.old.desk d → (e : Desktop) × WasTold time client self.old self.new d e }
        ensures sides { IsAsLarge self.old.damage self.new.damage }
        ensures output { self.new.desk.output ≡ self.old.desk.output }
    {
        let alloc = *self.residents.allocator();
        let Some(resident) = resident_mut(&mut self.residents, client) else {
            return;
        };
        self.screen.tell_frames(resident, client, time, alloc);
    }

    /// Puts bytes into a client's store.
    pub fn store(&mut self, client: ClientNo, store: StoreNo, at: u32, bytes: &[u8]) -> Stored
        ensures step { TakesStep (Store client store at bytes.now) (Done.Store result) self.old.desk self.new.desk }
        ensures marks { MarksStep (Store client store at bytes.now) (Done.Store result) self.old self.new }
        ensures leads { LeadsBy (Single (Store client store at bytes.now) (Done.Store result)) self.old self.new }
        ensures sides { IsAsLarge self.old.damage self.new.damage }
        ensures nothing { MarksNothing self.old self.new }
        ensures output { self.new.desk.output ≡ self.old.desk.output }
    {
        let Some(resident) = resident_mut(&mut self.residents, client) else {
            return Stored::NoClient;
        };
        crate::screen::store(resident, store, at, bytes)
    }

    /// How many bytes a client's store has.
    pub fn store_size(&self, client: ClientNo, store: StoreNo) -> Option<u32>
        ensures { (d : Desktop) → Agrees self.now.desk d → result ≡ store_size_of store (peer_at client d) }
    {
        let Some(resident) = resident_of(&self.residents, client) else {
            return None;
        };
        resident.client.store_size(store)
    }

    /// The bytes of a client's store as they are now.
    pub fn store_bytes(&self, client: ClientNo, store: StoreNo) -> Option<&[u8]>
        ensures { (d : Desktop) → Agrees self.now.desk d → option_copied result ≡ store_bytes_of store (peer_at client d) }
    {
        let Some(resident) = resident_of(&self.residents, client) else {
            return None;
        };
        resident.client.store_bytes(store)
    }

    /// The least number of a client's live store that is above this one.
    pub fn next_store(&self, client: ClientNo, number: StoreNo) -> Option<StoreNo>
        ensures next { (d : Desktop) → Agrees self.now.desk d → result ≡ next_store_of number (peer_at client d) }
        ensures rises { IfSome result (λ next. number < next) }
    {
        let Some(resident) = resident_of(&self.residents, client) else {
            return None;
        };
        resident.client.next_store(number)
    }

    /// A client closed its connection. The answer is true if it was alive. Only its own windows are
    /// marked.
    pub fn gone(&mut self, client: ClientNo) -> bool
        ensures step { TakesStep (Leave client) (Done.Gone result) self.old.desk self.new.desk }
        ensures marks { MarksStep (Leave client) (Done.Gone result) self.old self.new }
        ensures leads { LeadsBy (Single (Leave client) (Done.Gone result)) self.old self.new }
        ensures within { (d : Desktop) → Agrees self.old.desk d → (x y : ℕ) → x < self.old.damage.width → y < self.old.damage.height
            → has self.new.damage x y ≡ true → (has self.old.damage x y || has_window_at client (pos x) (pos y) d) ≡ true }
        ensures most { (d e : Desktop) → Agrees self.old.desk d → Happens (Leave client) (Done.Gone result) d e → Agrees self.new.desk e
            → MarksMost d e self.old.damage self.new.damage }
        ensures sides { IsAsLarge self.old.damage self.new.damage }
        ensures output { self.new.desk.output ≡ self.old.desk.output }
    {
        let alloc = *self.residents.allocator();
        let Some(resident) = resident_mut(&mut self.residents, client) else {
            return false;
        };
        self.screen.gone(resident, client, alloc)
    }

    /// Drops this many of a client's unsent bytes, which were sent. If there are fewer, the answer
    /// is false and nothing changes.
    pub fn sent(&mut self, client: ClientNo, count: usize) -> bool
        ensures step { TakesStep (Send client count) (Done.Sent result) self.old.desk self.new.desk }
        ensures marks { MarksStep (Send client count) (Done.Sent result) self.old self.new }
        ensures leads { LeadsBy (Single (Send client count) (Done.Sent result)) self.old self.new }
        ensures sides { IsAsLarge self.old.damage self.new.damage }
        ensures nothing { MarksNothing self.old self.new }
        ensures output { self.new.desk.output ≡ self.old.desk.output }
    {
        let Some(resident) = resident_mut(&mut self.residents, client) else {
            return false;
        };
        crate::screen::sent(resident, count)
    }

    /// Frees the number of a client that ended. The answer is true if it had.
    pub fn close(&mut self, client: ClientNo) -> bool
        ensures step { TakesStep (Close client) (Done.Close result) self.old.desk self.new.desk }
        ensures marks { MarksStep (Close client) (Done.Close result) self.old self.new }
        ensures leads { LeadsBy (Single (Close client) (Done.Close result)) self.old self.new }
        ensures sides { IsAsLarge self.old.damage self.new.damage }
        ensures nothing { MarksNothing self.old self.new }
        ensures output { self.new.desk.output ≡ self.old.desk.output }
    {
        let Some(k) = place_of(&self.residents, client) else {
            return false;
        };
        let Some(resident) = &self.residents[k] else {
            return false;
        };
        if !resident.client.has_ended() {
            return false;
        }
        self.residents[k] = None;
        self.screen.scene.unmap_all(client);
        self.screen.stacked.remove_client(client);
        true
    }

    /// The output.
    pub fn output(&self) -> Output
        ensures { result ≡ self.now.desk.output }
    {
        self.output
    }

    /// The unsent bytes of a client.
    pub fn out(&self, client: ClientNo) -> Option<&[u8]>
        ensures { (d : Desktop) → Agrees self.now.desk d → option_copied result ≡ unsent_of (peer_at client d) }
    {
        let Some(resident) = resident_of(&self.residents, client) else {
            return None;
        };
        Some(resident.client.unsent())
    }

    /// How a client fares.
    pub fn status(&self, client: ClientNo) -> Fed
        ensures { (d : Desktop) → Agrees self.now.desk d → result ≡ status_of (peer_at client d) }
    {
        let Some(resident) = resident_of(&self.residents, client) else {
            return Fed::NoClient;
        };
        Fed::of(resident.client.ended())
    }

    /// Which points of the output are to be painted again.
    pub fn damage(&self) -> &Damage<A>
        ensures same { result.now ≡ self.now.damage }
        ensures wide { result.now.width ≡ self.now.desk.output.width }
        ensures high { result.now.height ≡ self.now.desk.output.height }
    {
        &self.screen.damage
    }

    /// Hands over which points of the output are to be painted again, and begins with none.
    /// `painted` has the output's sides.
    pub fn take_damage(&mut self, painted: &mut Damage<A>)
        requires wide { painted.old.width ≡ self.old.desk.output.width }
        requires high { painted.old.height ≡ self.old.desk.output.height }
        ensures taken { painted.new ≡ self.old.damage }
        ensures none { (x y : ℕ) → has self.new.damage x y ≡ false }
        ensures sides { IsAsLarge self.old.damage self.new.damage }
        ensures desk { self.new.desk ≡ self.old.desk }
        ensures width { painted.new.width ≡ self.old.desk.output.width }
        ensures height { painted.new.height ≡ self.old.desk.output.height }
    {
        painted.clear();
        std::mem::swap(painted, &mut self.screen.damage);
    }

    /// Paints each point that is to be painted again, from nothing: the background, and over it the
    /// windows from bottom to top. The other points stay. It takes no memory.
    ///
    /// The image has the output's sides. A painted point may get any colour if a window isn't
    /// opaque there although its opaque region holds the point (wayland.xml,
    /// wl_surface.set_opaque_region).
    pub fn paint(&self, framebuffer: &mut Framebuffer<A>)
        requires wide { framebuffer.old.width ≡ self.now.desk.output.width }
        requires high { framebuffer.old.height ≡ self.now.desk.output.height }
        ensures painted { (d : Desktop) → Agrees self.now.desk d → (x y : ℕ) → x < framebuffer.old.width → y < framebuffer.old.height → has self.now.damage x y ≡ true
            → IsOpaqueAsSaid d (pos x) (pos y) → color_at framebuffer.new x y ≡ scratch framebuffer.old.background d (pos x) (pos y) }
        ensures kept { (x y : ℕ) → x < framebuffer.old.width → y < framebuffer.old.height → has self.now.damage x y ≡ false
            → color_at framebuffer.new x y ≡ color_at framebuffer.old x y }
        ensures width { framebuffer.new.width ≡ framebuffer.old.width }
        ensures height { framebuffer.new.height ≡ framebuffer.old.height }
        ensures background { framebuffer.new.background ≡ framebuffer.old.background }
    {
        let nowhere = Region::new(*self.residents.allocator());
        let lent = Lent {
            stacked: self.screen.stacked.windows(),
            residents: &self.residents,
            nowhere: &nowhere,
        };
        framebuffer.paint(&self.screen.damage, &lent);
    }
}

/// Keeps a piece for a living client.
fn keep_in<A: Allocator + Copy>(resident: &mut Resident<A>, piece: &[u8]) -> Result<(), AllocError>
    ensures ok { OnOk result (resident.new ≡ record resident.old { client = kept_while piece.now resident.old.client.ended resident.old.client }) }
    ensures err { OnErr result ((resident.new ≡ resident.old) × (resident.old.client.ended ≡ None)) }
{
    if resident.client.has_ended() {
        return Ok(());
    }
    resident.client.keep(piece)
}

/// The client of this number, with what it owns, lent to be changed: client c is at index c - 1.
pub(crate) fn resident_mut<A: Allocator>(
    residents: &mut Vec<Option<Resident<A>>, A>,
    client: ClientNo,
) -> Option<&mut Resident<A>>
    ensures* lends { sem 𝓛 (lends_resident A.row A.Allocator residents.entry client result) }
    ensures value { option_copied_mut result ≡ resident_at residents.old.items client }
{
    let Some(index) = client.checked_sub(1) else {
        return None;
    };
    let Some(slot) = residents.get_mut(index as usize) else {
        return None;
    };
    slot.as_mut()
}

/// Where the client of this number stands, if the number has a place.
fn place_of<A: Allocator>(residents: &[Option<Resident<A>>], client: ClientNo) -> Option<usize>
    ensures some { IfSome result (λ k. (client ≡ k + 1) × (k < length residents.now)) }
    ensures none { IfNone result (resident_at residents.now client ≡ None) }
{
    if client == 0 || client as usize > residents.len() {
        return None;
    }
    Some(client as usize - 1)
}

/// The lowest place that is free.
fn free_place<A: Allocator>(residents: &[Option<Resident<A>>]) -> Option<usize>
    ensures lowest { result ≡ lowest residents.now }
    ensures within { IfSome result (λ k. k < length residents.now) }
{
    for (k, slot) in residents.iter().enumerate() {
        if slot.is_none() {
            return Some(k);
        }
    }
    None
}
