//! What the pointer does at the desk: what it hits, what clients are told of it, and how its focus
//! is settled.

ghost use Rattle.std.specs.Prelude.{ℕ, ◌≡◌, ◌≢◌, ◌≤◌, ◌∷◌, [], List, Some, None, true, false, filter, length, map};
ghost use Rattle.wl_client.specs.Pointers.{has_any};
ghost use Rattle.spec_desktop.specs.Told.{Said};
ghost use Rattle.spec_desktop.specs.Pointer.{hit_by, is_stacked};
ghost use Rattle.spec_desktop.specs.Windows.{Window};
ghost use Rattle.wl_scene.specs.Focus.{IsSeen, action_of, target_of, target_or_none};
ghost use Rattle.wl_scene.specs.Marking.{IsAsLarge};
ghost use Rattle.spec_desktop.specs.Changing.{drawing};
ghost use Rattle.spec_desktop.specs.Desktop.{Resident, client_at};
ghost use Rattle.spec_desktop.specs.Pointing.{button_told, entered_surface, has_pointers, left_surface, motion_told};
ghost use Rattle.spec_desktop.specs.Replies.{entered_at, focus_window};
ghost use Rattle.spec_desktop.specs.Settling.{AppliesAll, Midstep, Settles, Strike, Tells, ended_by, leave_drawn, noted_if, number_of, told_drawn};
ghost use Rattle.spec_desktop.specs.Stacked.{all_windows};
ghost use Rattle.wl_scene.specs.Hit.{IsStackedOrNone};
ghost use Rattle.wl_clients.specs.Agreement.{numbers_in};
ghost use Rattle.wl_clients.specs.Marking.{MarksThrough};
ghost use Rattle.wl_clients.specs.Feeding.{rest_in};
ghost use Rattle.wl_clients.specs.Midway.{first_struck};
ghost use Rattle.wl_desk.specs.Doing.{IsTellable, is_told};
ghost use Rattle.wl_desk.specs.Midway.{IsAmid, IsMidway, IsOfFocus, IsTelling, IsToldOf};
ghost use Rattle.wl_desk.specs.Points.{point_told};
ghost use Rattle.wl_desk.specs.Serials.{AreNoted, KeepsSerials, noted_by};
ghost use Rattle.wl_desk.specs.View.{latest_of, seat_of};
ghost use Rattle.wl_clients.specs.declared.grabs.Latest.{Latest};
ghost use Rattle.law_desktop.proofs.Lists.Each.{Each};

use crate::desks::Desk;
use crate::latest::note;
use crate::seats::seat_of;
use std::alloc::Allocator;
use wl_clients::{ClientNo, PointerEvent};
use wl_scene::{Action, Actions, Stacked, Target, fixed};

impl<A: Allocator + Copy> Desk<A> {
    /// The surface that the pointer hits, if it has a place.
    pub(crate) fn hit(&self) -> Option<Target>
        ensures { (m : Midstep) → IsTelling self.now.desk m → target_or_none result ≡ hit_by m.desktop.pointer.place (all_windows m.desktop) }
    {
        let place = self.pointer.place()?;
        let window = self.clients.hit(place.x, place.y)?;
        if let Some(focus) = self.pointer.focus() {
            if self.is_of(&window, focus) {
                return Some(focus);
            }
        }
        let surface = self
            .clients
            .surface_id(window.client, window.window.surface)?;
        Some(Target {
            client: window.client,
            surface,
        })
    }

    /// By what the focus is settled: what the pointer hits, if no button is down, and whether the
    /// focused surface has a window, if one is.
    pub(crate) fn seen(&self) -> (Option<Target>, bool)
        ensures { (m : Midstep) → IsMidway self.now.desk m
            → IsSeen (target_or_none result.0) result.1 m.desktop.pointer (all_windows m.desktop) }
    {
        if self.pointer.is_free() {
            return (self.hit(), false);
        }
        let Some(focus) = self.pointer.focus() else {
            return (None, false);
        };
        (None, self.window_of(focus).is_some())
    }

    /// Whether a window is that of this surface.
    fn is_of(&self, window: &Stacked, target: Target) -> bool
        ensures { result ≡ true → (window.now.client ≡ target.client)
            × (numbers_in self.now.desk.kept.clients target.client target.surface ≡ Some window.now.window.surface) }
    {
        window.client == target.client
            && self.clients.surface_number(target.client, target.surface)
                == Some(window.window.surface)
    }

    /// The window of this surface, if it has one.
    pub(crate) fn window_of(&self, target: Target) -> Option<Stacked>
        ensures { (m : Midstep) → IsTelling self.now.desk m
            → IsStackedOrNone (numbers_in self.now.desk.kept.clients) result (focus_window (Some (target_of target)) (all_windows m.desktop)) }
    {
        let number = self.clients.surface_number(target.client, target.surface)?;
        self.clients.window(target.client, number)
    }

    /// Where the pointer is relative to the upper left corner of the surface with this window, in
    /// 256ths of a pixel.
    fn point_in(&self, target: Target) -> Option<(i32, i32)>
        ensures { (m : Midstep) → IsTelling self.now.desk m
            → result ≡ point_told m.desktop.pointer.place (focus_window (Some (target_of target)) (all_windows m.desktop)) }
    {
        let place = self.pointer.place()?;
        let window = self.window_of(target)?.window;
        Some((fixed(place.x, window.x), fixed(place.y, window.y)))
    }

    /// Tells a surface that it is entered (wayland.xml, wl_pointer.enter).
    fn enter(&mut self, target: Target)
        ensures tells { (ws : List Window) (m : Midstep) → IsTelling self.old.desk m → ws ≡ all_windows m.desktop
            → is_stacked (target_of target) ws ≡ true → m.desktop.pointer.place ≢ None
            → (n : Midstep) × Tells told_drawn (entered_surface m.desktop.pointer.place (focus_window (Some (target_of target)) ws)) target.client m n
            × IsTelling self.new.desk n }
        ensures pointer { self.new.desk.pointer ≡ self.old.desk.pointer }
        ensures seats { self.new.desk.seats ≡ self.old.desk.seats }
        ensures latest { self.new.desk.latest ≡ self.old.desk.latest }
        ensures damage { self.new.damage ≡ self.old.damage }
        ensures rests { (c : ℕ) → length (rest_in c self.new.desk.kept) ≤ length (rest_in c self.old.desk.kept) }
        ensures output { self.new.desk.kept.output ≡ self.old.desk.kept.output }
    {
        let Some((x, y)) = self.point_in(target) else {
            return;
        };
        let surface = target.surface;
        self.tell(target.client, PointerEvent::Enter { surface, x, y });
    }

    /// Tells only a new wl_pointer that the surface is entered.
    pub(crate) fn enter_alone(&mut self, target: Target, pointer: u32)
        ensures tells { (m : Midstep) → IsTelling self.old.desk m → is_stacked (target_of target) (all_windows m.desktop) ≡ true
            → m.desktop.pointer.place ≢ None
            → (n : Midstep) × Tells (drawing true) (λ r. entered_at pointer r.peer.serial m.desktop.pointer.place
            (focus_window (Some (target_of target)) (all_windows m.desktop))) target.client m n × IsTelling self.new.desk n }
        ensures pointer { self.new.desk.pointer ≡ self.old.desk.pointer }
        ensures seats { self.new.desk.seats ≡ self.old.desk.seats }
        ensures latest { self.new.desk.latest ≡ self.old.desk.latest }
        ensures damage { self.new.damage ≡ self.old.damage }
        ensures rests { (c : ℕ) → length (rest_in c self.new.desk.kept) ≤ length (rest_in c self.old.desk.kept) }
        ensures output { self.new.desk.kept.output ≡ self.old.desk.kept.output }
    {
        let Some((x, y)) = self.point_in(target) else {
            return;
        };
        let surface = target.surface;
        let event = PointerEvent::Enter { surface, x, y };
        self.clients.tell(target.client, &[pointer], event);
    }

    /// Tells a surface that is there that it is left (wayland.xml, wl_pointer.leave).
    fn leave(&mut self, target: Target)
        ensures tells { (m : Midstep) → IsTelling self.old.desk m
            → (n : Midstep) × Tells (leave_drawn target.surface) (left_surface target.surface) target.client m n × IsTelling self.new.desk n }
        ensures pointer { self.new.desk.pointer ≡ self.old.desk.pointer }
        ensures seats { self.new.desk.seats ≡ self.old.desk.seats }
        ensures latest { self.new.desk.latest ≡ self.old.desk.latest }
        ensures damage { self.new.damage ≡ self.old.damage }
        ensures rests { (c : ℕ) → length (rest_in c self.new.desk.kept) ≤ length (rest_in c self.old.desk.kept) }
        ensures output { self.new.desk.kept.output ≡ self.old.desk.kept.output }
    {
        let surface = target.surface;
        if self
            .clients
            .surface_number(target.client, surface)
            .is_some()
        {
            self.tell(target.client, PointerEvent::Leave { surface });
        }
    }

    /// Tells a surface of a motion at this time, in milliseconds (wayland.xml, wl_pointer.motion).
    fn move_over(&mut self, target: Target, time: u32)
        ensures tells { (ws : List Window) (m : Midstep) → IsTelling self.old.desk m → ws ≡ all_windows m.desktop
            → is_stacked (target_of target) ws ≡ true → m.desktop.pointer.place ≢ None
            → (n : Midstep) × Tells (λ r. r) (motion_told time m.desktop.pointer.place (focus_window (Some (target_of target)) ws)) target.client m n
            × IsTelling self.new.desk n }
        ensures pointer { self.new.desk.pointer ≡ self.old.desk.pointer }
        ensures seats { self.new.desk.seats ≡ self.old.desk.seats }
        ensures latest { self.new.desk.latest ≡ self.old.desk.latest }
        ensures damage { self.new.damage ≡ self.old.damage }
        ensures rests { (c : ℕ) → length (rest_in c self.new.desk.kept) ≤ length (rest_in c self.old.desk.kept) }
        ensures output { self.new.desk.kept.output ≡ self.old.desk.kept.output }
    {
        let Some((x, y)) = self.point_in(target) else {
            return;
        };
        self.tell(target.client, PointerEvent::Motion { time, x, y });
    }

    /// Tells a surface that a button is pressed or released at this time, in milliseconds
    /// (wayland.xml, wl_pointer.button).
    fn press_over(&mut self, target: Target, time: u32, button: u32, pressed: bool)
        ensures tells { (m : Midstep) → IsTelling self.old.desk m
            → (n : Midstep) × Tells (λ r. noted_if (has_pointers r) pressed r) (button_told time button (number_of pressed)) target.client m n
            × IsTelling self.new.desk n }
        ensures pointer { self.new.desk.pointer ≡ self.old.desk.pointer }
        ensures seats { self.new.desk.seats ≡ self.old.desk.seats }
        ensures damage { self.new.damage ≡ self.old.damage }
        ensures rests { (c : ℕ) → length (rest_in c self.new.desk.kept) ≤ length (rest_in c self.old.desk.kept) }
        ensures output { self.new.desk.kept.output ≡ self.old.desk.kept.output }
    {
        let event = PointerEvent::Button {
            time,
            button,
            pressed,
        };
        let serial = self.clients.serial(target.client);
        self.tell(target.client, event);
        self.note(target.client, serial, pressed);
    }

    /// Keeps the serial with which a client was told of a press or of a release as that of its
    /// latest, if it has wl_pointers.
    fn note(&mut self, client: ClientNo, serial: Option<u32>, pressed: bool)
        ensures noted { has_any (seat_of self.old.desk.seats client) ≡ true → (n : ℕ) → serial ≡ Some n
            → latest_of self.new.desk.latest client ≡ noted_by pressed n (latest_of self.old.desk.latest client) }
        ensures same { has_any (seat_of self.old.desk.seats client) ≡ false → self.new.desk.latest ≡ self.old.desk.latest }
        ensures others { (c : ℕ) → c ≢ client → latest_of self.new.desk.latest c ≡ latest_of self.old.desk.latest c }
        ensures kept { self.new.desk.kept ≡ self.old.desk.kept }
        ensures seats { self.new.desk.seats ≡ self.old.desk.seats }
        ensures pointer { self.new.desk.pointer ≡ self.old.desk.pointer }
        ensures damage { self.new.damage ≡ self.old.damage }
    {
        if seat_of(&self.seats, client).is_empty() {
            return;
        }
        let Some(serial) = serial else {
            return;
        };
        note(&mut self.latest, client, serial, pressed);
    }

    /// Tells the wl_pointers of a client an event. If the change leaves the serials of its latest
    /// press and release, the serials kept agree with them; else they agree with what comes of it.
    fn tell(&mut self, client: ClientNo, event: PointerEvent)
        ensures tells { (change : Resident → Resident) (events : Resident → List Said) (m : Midstep) → IsTelling self.old.desk m
            → IsToldOf event change events (client_at client m.desktop) → KeepsSerials change
            → (n : Midstep) × Tells change events client m n × IsTelling self.new.desk n }
        ensures notes { (latest : List Latest) (change : Resident → Resident) (events : Resident → List Said) (m : Midstep) → IsTelling self.old.desk m
            → IsToldOf event change events (client_at client m.desktop)
            → AreNoted self.old.desk.latest latest client change (client_at client m.desktop)
            → (n : Midstep) × Tells change events client m n × IsTelling (record self.new.desk { latest = latest }) n }
        ensures pointer { self.new.desk.pointer ≡ self.old.desk.pointer }
        ensures seats { self.new.desk.seats ≡ self.old.desk.seats }
        ensures latest { self.new.desk.latest ≡ self.old.desk.latest }
        ensures damage { self.new.damage ≡ self.old.damage }
        ensures rests { (c : ℕ) → length (rest_in c self.new.desk.kept) ≤ length (rest_in c self.old.desk.kept) }
        ensures output { self.new.desk.kept.output ≡ self.old.desk.kept.output }
    {
        self.clients
            .tell(client, seat_of(&self.seats, client), event);
    }

    /// Tells clients of one action of the pointer: surfaces are left, entered, and told of a motion
    /// or of a button. Other places raise and move toplevels and dismiss popups.
    fn apply(&mut self, action: Action)
        ensures tells { (ws : List Window) (m : Midstep) → IsTelling self.old.desk m → ws ≡ all_windows m.desktop
            → IsTellable m.desktop.pointer.place ws (action_of action)
            → (n : Midstep) × AppliesAll ws (filter is_told (action_of action ∷ [])) m n × IsTelling self.new.desk n }
        ensures pointer { self.new.desk.pointer ≡ self.old.desk.pointer }
        ensures seats { self.new.desk.seats ≡ self.old.desk.seats }
        ensures damage { self.new.damage ≡ self.old.damage }
        ensures rests { (c : ℕ) → length (rest_in c self.new.desk.kept) ≤ length (rest_in c self.old.desk.kept) }
        ensures output { self.new.desk.kept.output ≡ self.old.desk.kept.output }
    {
        match action {
            Action::Leave(target) => self.leave(target),
            Action::Enter(target) => self.enter(target),
            Action::Motion(time, target) => self.move_over(target, time),
            Action::Button(time, button, pressed, target) => {
                self.press_over(target, time, button, pressed)
            }
            Action::Raise(_) | Action::MoveWindow(..) | Action::Dismiss(_) => {}
        }
    }

    /// Tells clients of these actions, one after another.
    fn apply_each(&mut self, actions: &[Action])
        ensures tells { (m : Midstep) → IsTelling self.old.desk m
            → Each (IsTellable m.desktop.pointer.place (all_windows m.desktop)) (map action_of actions.now)
            → (n : Midstep) × AppliesAll (all_windows m.desktop) (filter is_told (map action_of actions.now)) m n × IsTelling self.new.desk n }
        ensures pointer { self.new.desk.pointer ≡ self.old.desk.pointer }
        ensures seats { self.new.desk.seats ≡ self.old.desk.seats }
        ensures damage { self.new.damage ≡ self.old.damage }
        ensures rests { (c : ℕ) → length (rest_in c self.new.desk.kept) ≤ length (rest_in c self.old.desk.kept) }
        ensures output { self.new.desk.kept.output ≡ self.old.desk.kept.output }
    {
        for action in actions {
            self.apply(*action);
        }
    }

    /// Tells clients of all that the pointer does, one after another. When only the focus is
    /// settled, that is all that it does.
    pub(crate) fn apply_all(&mut self, actions: &Actions)
        ensures told { (m : Midstep) → IsTelling self.old.desk m
            → Each (IsTellable m.desktop.pointer.place (all_windows m.desktop)) (map action_of actions.now.items)
            → (n : Midstep) × AppliesAll (all_windows m.desktop) (filter is_told (map action_of actions.now.items)) m n
            × IsTelling self.new.desk n }
        ensures tells { (m : Midstep) → IsTelling self.old.desk m → m.desktop.pointer.place ≢ None
            → Each (IsOfFocus (all_windows m.desktop)) (map action_of actions.now.items)
            → (n : Midstep) × AppliesAll (all_windows m.desktop) (map action_of actions.now.items) m n × IsTelling self.new.desk n }
        ensures pointer { self.new.desk.pointer ≡ self.old.desk.pointer }
        ensures seats { self.new.desk.seats ≡ self.old.desk.seats }
        ensures damage { self.new.damage ≡ self.old.damage }
        ensures rests { (c : ℕ) → length (rest_in c self.new.desk.kept) ≤ length (rest_in c self.old.desk.kept) }
        ensures output { self.new.desk.kept.output ≡ self.old.desk.kept.output }
    {
        self.apply_each(actions.as_slice());
    }

    /// Settles the focus once: if it moves, the old surface is left, and the one that the pointer
    /// hits is entered. Nothing is marked. If a client can't be told, it is to end (see
    /// [`Desk::struck`]), and the focus is to be settled again.
    ///
    /// Nothing is done if the focus is known to be settled.
    pub fn settle(&mut self)
        ensures settles { (m : Midstep) → IsAmid self.old m → (n : Midstep) × Settles m n × IsMidway self.new.desk n }
        ensures damage { self.new.damage ≡ self.old.damage }
        ensures rests { (c : ℕ) → length (rest_in c self.new.desk.kept) ≤ length (rest_in c self.old.desk.kept) }
        ensures output { self.new.desk.kept.output ≡ self.old.desk.kept.output }
    {
        if self.is_settled {
            return;
        }
        self.settle_now();
    }

    /// Settles the focus once, whatever is known of it.
    pub(crate) fn settle_now(&mut self)
        ensures settles { (m : Midstep) → IsMidway self.old.desk m → (n : Midstep) × Settles m n × IsMidway self.new.desk n }
        ensures damage { self.new.damage ≡ self.old.damage }
        ensures rests { (c : ℕ) → length (rest_in c self.new.desk.kept) ≤ length (rest_in c self.old.desk.kept) }
        ensures output { self.new.desk.kept.output ≡ self.old.desk.kept.output }
    {
        let (hit, is_stacked) = self.seen();
        let actions = self.pointer.settle(hit, is_stacked);
        self.apply_all(&actions);
    }

    /// The least number of a client that is to end, since an event for it wasn't queued. There are
    /// 32 numbers.
    pub fn struck(&self) -> Option<ClientNo>
        ensures first { (m : Midstep) → IsTelling self.now.desk m → result ≡ first_struck m.struck }
        ensures count { length self.now.desk.kept.clients ≡ 32 }
    {
        self.clients.first_refused()
    }

    /// Ends the client that is to end first, for the cause for which an event wasn't queued, and
    /// the pointer leaves it. It isn't told. Only its windows are marked. The focus is to be
    /// settled then.
    pub fn end_struck(&mut self, client: ClientNo)
        ensures ends { (s : Strike) (ss : List Strike) (m : Midstep) → s.client ≡ client → m.struck ≡ s ∷ ss → IsMidway self.old.desk m
            → IsAmid self.new (record { desktop = ended_by s m.desktop; struck = ss }) }
        ensures marks { (s : Strike) (ss : List Strike) (m : Midstep) → s.client ≡ client → m.struck ≡ s ∷ ss → IsMidway self.old.desk m
            → MarksThrough m.desktop (ended_by s m.desktop ∷ []) self.old.damage self.new.damage }
        ensures sides { IsAsLarge self.old.damage self.new.damage }
        ensures rests { (c : ℕ) → length (rest_in c self.new.desk.kept) ≤ length (rest_in c self.old.desk.kept) }
        ensures output { self.new.desk.kept.output ≡ self.old.desk.kept.output }
    {
        self.clients.end_refused(client);
        self.pointer.forget(client);
        self.is_settled = false;
    }
}
