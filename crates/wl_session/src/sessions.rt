//! The session: all clients and the frames that are shown of them.

ghost use Rattle.std.specs.Prelude.{◌≡◌, ℕ, ◌*◌, ◌<◌, ◌≤◌, ◌+◌, ◌&&◌, ◌||◌, ◌==◌, ◌++◌, ◌↔◌, length, vec_len, map, take, true, false, IfOk, IfErr, IfSome, OnOk, OnErr, IsErrOf};
ghost use Rattle.std.specs.Borrow.{sem};
ghost use Rattle.std.specs.Io.BufRead.{Rests};
ghost use Rattle.std.specs.Option.{option_copied};
ghost use Rattle.std.specs.Vec.{vec_capacity};
ghost use Rattle.wl_paint.specs.Damage.{has};
ghost use Rattle.spec_desktop.specs.Desktop.{Desktop, empty};
ghost use Rattle.wl_paint.specs.Frame.{color_at, filled, is_side};
ghost use Rattle.spec_desktop.specs.Act.{Connect, Feed, Store, Leave, Tick, Send, Close, Motion, Button, peer_at, unsent_of, status_of, store_size_of};
ghost use Rattle.wl_desk.specs.NextStore.{next_store_of};
ghost use Rattle.wl_desk.specs.StoreBytes.{store_bytes_of};
ghost use Rattle.wl_desk.specs.Feeding.{IsIdleIn};
ghost use Rattle.wl_session.specs.Run.{AreRuns};
ghost use Rattle.wl_session.specs.Step.{act_of};
ghost use Rattle.wl_desk.specs.Agreeing.{Agrees, TakesStep};
ghost use Rattle.wl_session.specs.Course.{Took};

use crate::settling::{end_all, end_each, settle_all};
use crate::shots::{Frame, Run, Shot};
use crate::steps::{RunError, Step};
use std::alloc::{AllocError, Allocator};
use std::marker::Model;
use wl_client::{Config, Served, StoreNo};
use wl_desk::{ClientNo, ConnectError, Desk, Done, Fed, Stored};
use wl_paint::{Damage, FrameError, Framebuffer};

/// All clients and the last frame. Contracts see these values:
/// - the output, with what is kept of each client, by number from 1;
/// - what is to be painted again since the last frame;
/// - that frame, and what was painted for it.
#[derive(Drop)]
pub struct Session<A: Allocator> {
    pub(crate) desk: Desk<A>,
    framebuffer: Framebuffer<A>,
    painted: Damage<A>,
    alloc: A,
}

impl<A: Allocator> Model for Session<A> {
    ghost use Rattle.std.specs.Prelude.{◌≡◌};
    ghost use Rattle.wl_session.specs.View.{SessionView};

    ghost Value = { SessionView };

    ghost view = { λ s. record { desk = s.desk.desk; damage = s.desk.damage; frame = s.framebuffer; painted = s.painted } };

    ghost invariant = { λ s. (s.framebuffer.width ≡ s.desk.desk.kept.output.width) × (s.framebuffer.height ≡ s.desk.desk.kept.output.height)
        × (s.painted.width ≡ s.desk.desk.kept.output.width) × (s.painted.height ≡ s.desk.desk.kept.output.height) };
}

impl<A: Allocator + Copy> Session<A> {
    ghost use Rattle.wl_session.specs.contracts.sessions.Session.{the_row};
    ghost use Rattle.wl_session.specs.Course.{IsSeen, LeadsTo, TakesCourse, TakesSteps, moment};
    ghost use Rattle.wl_session.specs.Liars.{IsRightBut, nobody};
    ghost use Rattle.wl_session.specs.Run.{Film, IsAsLarge, IsNextFrame, MayStopAt, film_of, taken_by, takes_memory};
    ghost use Rattle.std.specs.Prelude.{List, [], ◌∷◌, IsTrue};

    /// A session without clients, whose frame is the background.
    pub fn new(alloc: A, config: Config) -> Result<Self, FrameError>
        ensures desk { IfOk result (λ s. Agrees s.desk (empty (record { width = config.width; height = config.height }))) }
        ensures width { IfOk result (λ s. s.frame.width ≡ config.width) }
        ensures height { IfOk result (λ s. s.frame.height ≡ config.height) }
        ensures background { IfOk result (λ s. s.frame.background ≡ config.background) }
        ensures pixels { IfOk result (λ s. s.frame.pixels ≡ filled (config.width * config.height) config.background) }
        ensures colors { IfOk result (λ s. (x y : ℕ) → x < config.width → y < config.height → color_at s.frame x y ≡ config.background) }
        ensures damage { IfOk result (λ s. (x y : ℕ) → has s.damage x y ≡ false) }
        ensures right { IfOk result (λ s. IsRightBut nobody (moment (empty (record { width = config.width; height = config.height })) s)) }
        ensures bad { IsErrOf result FrameError.BadSize ↔ ((is_side config.width && is_side config.height) ≡ false) }
    {
        let framebuffer = Framebuffer::new(alloc, config.width, config.height, config.background)?;
        let Ok(painted) = Damage::new(alloc, config.width, config.height) else {
            return Err(FrameError::Memory);
        };
        let desk = Desk::new(alloc, config)?;
        Ok(Session {
            desk,
            framebuffer,
            painted,
            alloc,
        })
    }

    /// A client connects. It gets the lowest free number.
    pub fn connect(&mut self) -> Result<ClientNo, ConnectError>
        ensures step { TakesStep Connect (Done.Connect result) self.old.desk self.new.desk }
        ensures course { TakesCourse Connect (Done.Connect result) self.old self.new }
        ensures unchanged { OnErr result (self.new ≡ self.old) }
        ensures frame { self.new.frame ≡ self.old.frame }
    {
        self.desk.connect()
    }

    /// A piece of a client's stream comes. A stream may be cut anywhere: each whole message is
    /// taken once its last byte is there. After an end the rest of the piece is dropped, and a
    /// piece for an ended client does nothing.
    pub fn feed(&mut self, client: ClientNo, piece: &[u8]) -> Fed
        ensures step { TakesStep (Feed client piece.now) (Done.Feed result) self.old.desk self.new.desk }
        ensures course { TakesCourse (Feed client piece.now) (Done.Feed result) self.old self.new }
        ensures frame { self.new.frame ≡ self.old.frame }
    {
        match self.desk.keep(client, piece) {
            Ok(()) => self.serve_all(client),
            Err(AllocError) => {
                self.desk.starve(client);
                settle_all(&mut self.desk);
            }
        }
        self.status(client)
    }

    /// Takes each whole message that came from a client, until one ends it.
    fn serve_all(&mut self, client: ClientNo)
        ensures serves { (d : Desktop) → Agrees self.old.desk d → (served : Took client self.old self.new d) × IsIdleIn client served.desktop }
        ensures frame { self.new.frame ≡ self.old.frame }
    {
        while self.desk.serve(client) != Served::More {
            end_each(&mut self.desk);
            settle_all(&mut self.desk);
        }
    }

    /// Puts bytes into a client's store, from `at` on: its k-th pool has the store k. Errors come
    /// in this order, and change nothing: `NoClient`, also for an ended client, `NoStore`, and
    /// `OutOfRange` if the bytes pass the store's end.
    pub fn store(&mut self, client: ClientNo, store: StoreNo, at: u32, bytes: &[u8]) -> Stored
        ensures step { TakesStep (Store client store at bytes.now) (Done.Store result) self.old.desk self.new.desk }
        ensures course { TakesCourse (Store client store at bytes.now) (Done.Store result) self.old self.new }
        ensures frame { self.new.frame ≡ self.old.frame }
    {
        self.desk.store(client, store, at, bytes)
    }

    /// How many bytes a client's store has. `None` if the client or the store isn't live.
    pub fn store_size(&self, client: ClientNo, store: StoreNo) -> Option<u32>
        ensures { (d : Desktop) → Agrees self.now.desk d → result ≡ store_size_of store (peer_at client d) }
    {
        self.desk.store_size(client, store)
    }

    /// The bytes of a client's store as they are now. `None` if the client or the store isn't live.
    pub fn store_bytes(&self, client: ClientNo, store: StoreNo) -> Option<&[u8]>
        ensures { (d : Desktop) → Agrees self.now.desk d → option_copied result ≡ store_bytes_of store (peer_at client d) }
    {
        self.desk.store_bytes(client, store)
    }

    /// The least number of a client's live store that is above this one. From 0 on it gives each
    /// live store after the one before. `None` if there is none, or the client isn't live. It takes
    /// no memory.
    pub fn next_store(&self, client: ClientNo, number: StoreNo) -> Option<StoreNo>
        ensures next { (d : Desktop) → Agrees self.now.desk d → result ≡ next_store_of number (peer_at client d) }
        ensures rises { IfSome result (λ next. number < next) }
    {
        self.desk.next_store(client, number)
    }

    /// A client closed its connection. The answer is true if it was alive.
    pub fn gone(&mut self, client: ClientNo) -> bool
        ensures step { TakesStep (Leave client) (Done.Gone result) self.old.desk self.new.desk }
        ensures course { TakesCourse (Leave client) (Done.Gone result) self.old self.new }
        ensures frame { self.new.frame ≡ self.old.frame }
    {
        if !self.desk.gone(client) {
            return false;
        }
        settle_all(&mut self.desk);
        true
    }

    /// Drops this many of a client's unsent bytes, which were sent. If there are fewer, the answer
    /// is false and nothing changes.
    pub fn sent(&mut self, client: ClientNo, count: usize) -> bool
        ensures step { TakesStep (Send client count) (Done.Sent result) self.old.desk self.new.desk }
        ensures course { TakesCourse (Send client count) (Done.Sent result) self.old self.new }
        ensures frame { self.new.frame ≡ self.old.frame }
    {
        self.desk.sent(client, count)
    }

    /// Gives back the number of a client that ended, with its unsent bytes. The answer is true if
    /// it had ended.
    pub fn close(&mut self, client: ClientNo) -> bool
        ensures step { TakesStep (Close client) (Done.Close result) self.old.desk self.new.desk }
        ensures course { TakesCourse (Close client) (Done.Close result) self.old self.new }
        ensures frame { self.new.frame ≡ self.old.frame }
    {
        self.desk.close(client)
    }

    /// The bytes that wait to be sent to a client, an ended one too. `None` if no client has the
    /// number.
    pub fn out(&self, client: ClientNo) -> Option<&[u8]>
        ensures { (d : Desktop) → Agrees self.now.desk d → option_copied result ≡ unsent_of (peer_at client d) }
    {
        self.desk.out(client)
    }

    /// How a client fares.
    pub fn status(&self, client: ClientNo) -> Fed
        ensures { (d : Desktop) → Agrees self.now.desk d → result ≡ status_of (peer_at client d) }
    {
        self.desk.status(client)
    }

    /// Shows a frame at this time, in milliseconds. What was damaged since the last one is painted
    /// from nothing, and is the frame's damage. Every other pixel is as in the frame before. A
    /// damaged pixel may get any colour if a window isn't opaque there although its opaque region
    /// holds the point.
    ///
    /// Then the clients are told that their due frame callbacks are done (wayland.xml,
    /// wl_surface.frame). If that isn't queued, the client ends. It is still in this frame.
    pub fn tick(&mut self, time: u32) -> Frame<'_, A>
        ensures* after { sem 𝓛 (Rests (the_row A.row A.Allocator) self.entry (λ v. TakesStep (Tick time) Done.Tick self.old.desk v.desk × (v.frame ≡ result.pixels.now) × TakesCourse (Tick time) Done.Tick self.old v)) }
        ensures frame { (d : Desktop) → Agrees self.old.desk d → IsNextFrame d self.old.frame result.pixels.now (has result.damage.now) }
        ensures large { IsAsLarge self.old.frame result.pixels.now }
        ensures damage { result.damage.now ≡ self.old.damage }
        ensures time { result.time ≡ time }
    {
        self.desk.paint(&mut self.framebuffer);
        self.desk.take_damage(&mut self.painted);
        self.desk.frames(time);
        end_each(&mut self.desk);
        settle_all(&mut self.desk);
        self.frame(time)
    }

    /// The last frame.
    fn frame(&self, time: u32) -> Frame<'_, A>
        ensures pixels { result.pixels.now ≡ self.now.frame }
        ensures damage { result.damage.now ≡ self.now.painted }
        ensures time { result.time ≡ time }
    {
        Frame {
            pixels: &self.framebuffer,
            damage: &self.painted,
            time,
        }
    }

    /// The pointer moves to a point of the output in pixels, held within it, at a time in
    /// milliseconds. If the focus stays, its surface is told of the motion. If it moves, the old
    /// surface is left and the new one entered (wayland.xml, wl_pointer.motion, leave and enter). A
    /// client that can't be told ends.
    pub fn motion(&mut self, time: u32, x: i32, y: i32)
        ensures step { TakesStep (Motion time x y) Done.Motion self.old.desk self.new.desk }
        ensures course { TakesCourse (Motion time x y) Done.Motion self.old self.new }
        ensures frame { self.new.frame ≡ self.old.frame }
    {
        self.desk.motion(time, x, y);
        end_all(&mut self.desk);
    }

    /// A button of the pointer, by the kernel's number of it, is pressed or released at a time in
    /// milliseconds. The surface that has the focus is told (wayland.xml, wl_pointer.button). A
    /// press over a toplevel puts that, and all that is stacked with it, on top of the others.
    ///
    /// Until the last button that is down is released, the focus stays, and a toplevel that
    /// xdg_toplevel.move drags moves with the pointer. A press does nothing if 16 buttons are down,
    /// or this one is. A release of one that isn't down does nothing. A client that can't be told
    /// ends.
    pub fn button(&mut self, time: u32, button: u32, pressed: bool)
        ensures step { TakesStep (Button time button pressed) Done.Button self.old.desk self.new.desk }
        ensures course { TakesCourse (Button time button pressed) Done.Button self.old self.new }
        ensures frame { self.new.frame ≡ self.old.frame }
    {
        self.desk.button(time, button, pressed);
        end_all(&mut self.desk);
    }

    /// Any one step. A tick's frame isn't given back.
    pub fn step(&mut self, step: &Step) -> Done
        ensures step { TakesStep (act_of step.now) result self.old.desk self.new.desk }
        ensures course { TakesCourse (act_of step.now) result self.old self.new }
    {
        match *step {
            Step::Connect => Done::Connect(self.connect()),
            Step::Feed { client, piece } => Done::Feed(self.feed(client, piece)),
            Step::Store {
                client,
                store,
                at,
                bytes,
            } => Done::Store(self.store(client, store, at, bytes)),
            Step::Gone { client } => Done::Gone(self.gone(client)),
            Step::Tick { time } => {
                let _ = self.tick(time);
                Done::Tick
            }
            Step::Sent { client, count } => Done::Sent(self.sent(client, count)),
            Step::Close { client } => Done::Close(self.close(client)),
            Step::Motion { time, x, y } => {
                self.motion(time, x, y);
                Done::Motion
            }
            Step::Button {
                time,
                button,
                pressed,
            } => {
                self.button(time, button, pressed);
                Done::Button
            }
        }
    }

    /// Takes steps in order, with a copy of each tick's frame. A copy has its memory before its
    /// tick is taken.
    ///
    /// An `Err` says how many steps were taken. The next found no memory, and nothing of it was
    /// taken. The shots of the steps that were taken are lost, but what these left is as right as
    /// after any others (`err`).
    ///
    /// A viewer that held the frame before copies only the runs of each shot. At each tick it holds
    /// every window, painted from nothing in stacking order. That leaves out the points under a
    /// window of a client that broke a promise since it connected (`seen`). It holds the last frame
    /// at the end, and what comes next is seen from there.
    ///
    /// A client promises to damage what it changes, to leave a shown buffer as it is, and to call
    /// only opaque pixels opaque (wayland.xml, wl_surface.damage, wl_buffer.release,
    /// wl_surface.set_opaque_region).
    pub fn run(&mut self, steps: &[Step]) -> Result<Vec<Shot<A>, A>, RunError>
        ensures ok { IfOk result (λ shots. TakesSteps (map act_of steps.now) (map film_of shots.items) self.old self.new) }
        ensures err { IfErr result (λ e. (films : List Film) × IsSeen (map act_of (take (taken_by e) steps.now)) films self.old self.new) }
        ensures stopped { IfErr result (λ e. MayStopAt steps.now (taken_by e)) }
        ensures seen { IfOk result (λ shots. IsSeen (map act_of steps.now) (map film_of shots.items) self.old self.new) }
    {
        let mut shots = Vec::new(self.alloc);
        for (n, step) in steps.iter().enumerate() {
            if !self.take_step(step, &mut shots) {
                return Err(RunError::Memory(n));
            }
        }
        Ok(shots)
    }

    /// Takes one step of a run. The answer is false if it found no memory; then nothing of it was
    /// taken.
    fn take_step(&mut self, step: &Step, shots: &mut Vec<Shot<A>, A>) -> bool
        ensures taken { result ≡ true → (films : List Film) × (map film_of shots.new.items ≡ map film_of shots.old.items ++ films) × LeadsTo (act_of step.now) films self.old self.new }
        ensures refused { result ≡ false → (self.new ≡ self.old) × IsTrue (takes_memory (act_of step.now)) }
        ensures shots { result ≡ false → map film_of shots.new.items ≡ map film_of shots.old.items }
    {
        match *step {
            Step::Connect => match self.connect() {
                Err(ConnectError::Memory) => false,
                Ok(_) | Err(ConnectError::Full) => true,
            },
            Step::Tick { time } => self.take_tick(time, shots),
            Step::Feed { .. }
            | Step::Store { .. }
            | Step::Gone { .. }
            | Step::Sent { .. }
            | Step::Close { .. }
            | Step::Motion { .. }
            | Step::Button { .. } => {
                self.step(step);
                true
            }
        }
    }

    /// Takes a tick of a run. The answer is false if its shot found no memory; then nothing of it
    /// was taken.
    fn take_tick(&mut self, time: u32, shots: &mut Vec<Shot<A>, A>) -> bool
        ensures taken { result ≡ true → (films : List Film) × (map film_of shots.new.items ≡ map film_of shots.old.items ++ films) × LeadsTo (Tick time) films self.old self.new }
        ensures refused { result ≡ false → self.new ≡ self.old }
        ensures shots { result ≡ false → map film_of shots.new.items ≡ map film_of shots.old.items }
    {
        match self.shoot(time, shots) {
            Ok(()) => true,
            Err(AllocError) => false,
        }
    }

    /// Takes a tick and copies its frame. An `Err` changes nothing.
    fn shoot(&mut self, time: u32, shots: &mut Vec<Shot<A>, A>) -> Result<(), AllocError>
        ensures ok { OnOk result ((film : Film) × (map film_of shots.new.items ≡ map film_of shots.old.items ++ film ∷ [])
            × LeadsTo (Tick time) (film ∷ []) self.old self.new) }
        ensures err { OnErr result ((self.new ≡ self.old) × (shots.new.items ≡ shots.old.items)) }
    {
        let alloc = self.alloc;
        shots.reserve(1)?;
        let mut pixels = Vec::with_capacity(alloc, self.framebuffer.pixels().len())?;
        let runs = runs_of(alloc, self.desk.damage(), self.framebuffer.height())?;
        let frame = self.tick(time);
        append_reserved(&mut pixels, frame.pixels.pixels());
        shots.push_reserved(Shot { time, runs, pixels });
        Ok(())
    }
}

/// The runs of damaged points of an output of this height, row by row from the top.
pub fn runs_of<A: Allocator>(
    alloc: A,
    damage: &Damage<A>,
    height: u32,
) -> Result<Vec<Run, A>, AllocError>
    requires high { damage.now.height ≡ height }
    requires narrow { damage.now.width ≤ 4096 }
    ensures { IfOk result (λ runs. AreRuns damage.now.width height (has damage.now) runs.items) }
{
    let mut runs = Vec::new(alloc);
    for y in 0..height {
        append_runs(&mut runs, damage, y)?;
    }
    Ok(runs)
}

/// Appends the runs of one row.
fn append_runs<A: Allocator>(
    runs: &mut Vec<Run, A>,
    damage: &Damage<A>,
    y: u32,
) -> Result<(), AllocError>
    requires row { y < damage.now.height }
    requires narrow { damage.now.width ≤ 4096 }
    ensures { OnOk result (AreRuns damage.now.width y (has damage.now) runs.old.items → AreRuns damage.now.width (y + 1) (has damage.now) runs.new.items) }
{
    let mut from = 0;
    while let Some((x, w)) = damage.next_run(y, from) {
        runs.push(Run { x, y, w })?;
        from = x + w;
    }
    Ok(())
}

/// Appends bytes. There is room for them.
fn append_reserved<A: Allocator>(bytes: &mut Vec<u8, A>, more: &[u8])
    requires { vec_len bytes.old + length more.now ≤ vec_capacity bytes.old }
    ensures { bytes.new.items ≡ bytes.old.items ++ more.now }
{
    let Ok(()) = bytes.extend_from_slice(more) else {
        unreachable!()
    };
}
