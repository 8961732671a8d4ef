//! Buttons: a press raises a toplevel and begins a hold, and clients are told of presses and
//! releases.

ghost use Rattle.std.specs.Prelude.{◌≡◌, false, true};
ghost use Rattle.spec_desktop.specs.Pointer.{hit_now};
ghost use Rattle.wl_scene.specs.Focus.{target_or_none, toplevel_of};
ghost use Rattle.wl_scene.specs.Marking.{IsAsLarge};
ghost use Rattle.spec_desktop.specs.Act.{Button};
ghost use Rattle.spec_desktop.specs.Desktop.{Desktop};
ghost use Rattle.spec_desktop.specs.Happenings.{Single};
ghost use Rattle.spec_desktop.specs.Happens.{hold_from, press_serial};
ghost use Rattle.spec_desktop.specs.Settling.{Midstep, with_standing};
ghost use Rattle.spec_desktop.specs.Stacked.{all_windows};
ghost use Rattle.wl_desk.specs.Agreeing.{Agrees};
ghost use Rattle.wl_desk.specs.Midway.{IsTelling};
ghost use Rattle.wl_clients.specs.Releasing.{MarksJust};
ghost use Rattle.wl_desk.specs.Releasing.{Releases, released_by};
ghost use Rattle.wl_clients.specs.Raising.{MarksChange, moved_up, raised_to};
ghost use Rattle.wl_desk.specs.Restacking.{HasNumber};
ghost use Rattle.wl_desk.specs.Ways.{LeadsOnceEnded};

use crate::desks::Desk;
use crate::seats::seat_of;
use std::alloc::Allocator;
use wl_clients::{ClientNo, Done};
use wl_scene::Target;

/// The client whose popups with a grab a press dismisses, if any. `holder` holds a grab, if one
/// does, and the press hits this toplevel.
fn released_by(holder: Option<ClientNo>, toplevel: Option<Target>) -> Option<ClientNo>
    ensures { result ≡ released_by holder (target_or_none toplevel) }
{
    let holder = holder?;
    match toplevel {
        Some(toplevel) if toplevel.client == holder => None,
        _ => Some(holder),
    }
}

impl<A: Allocator + Copy> Desk<A> {
    /// A button, named by its code, is pressed or released at a time in milliseconds. The surface
    /// that has the focus is told of it (wayland.xml, wl_pointer.button). Nothing is done for a
    /// press of a button that is down, for one past 16, and for a release of one that isn't down.
    ///
    /// A press raises the toplevel that it hits. It dismisses the popups with a grab of a client,
    /// if it hits no surface of that client (xdg-shell.xml, xdg_popup.grab). The windows of a
    /// raised toplevel and of dismissed popups are marked.
    ///
    /// The focus is settled once. A client that can't be told is to end (see [`Desk::struck`]).
    pub fn button(&mut self, time: u32, button: u32, pressed: bool)
        ensures leads { LeadsOnceEnded (Single (Button time button pressed) Done.Button) self.old self.new }
        ensures sides { IsAsLarge self.old.damage self.new.damage }
        ensures output { self.new.desk.kept.output ≡ self.old.desk.kept.output }
    {
        if pressed {
            self.press(time, button);
        } else {
            self.release(time, button);
        }
    }

    /// A button is pressed.
    fn press(&mut self, time: u32, button: u32)
        ensures leads { LeadsOnceEnded (Single (Button time button true) Done.Button) self.old self.new }
        ensures sides { IsAsLarge self.old.damage self.new.damage }
        ensures output { self.new.desk.kept.output ≡ self.old.desk.kept.output }
    {
        if !self.pointer.is_press(button) {
            return;
        }
        let toplevel = self.toplevel_hit();
        let serial = self.hold_serial();
        let holder = self.clients.grab_holder();
        let actions = self.pointer.press(time, button, toplevel, holder);
        self.pointer.begin_hold(serial);
        self.raise(toplevel);
        self.release_grabs(released_by(holder, toplevel));
        self.apply_all(&actions);
        self.settle_now();
    }

    /// A button is released.
    fn release(&mut self, time: u32, button: u32)
        ensures leads { LeadsOnceEnded (Single (Button time button false) Done.Button) self.old self.new }
        ensures sides { IsAsLarge self.old.damage self.new.damage }
        ensures output { self.new.desk.kept.output ≡ self.old.desk.kept.output }
    {
        if !self.pointer.is_down(button) {
            return;
        }
        let actions = self.pointer.release(time, button);
        self.apply_all(&actions);
        self.settle_now();
    }

    /// The toplevel under the pointer: the one that the window is stacked with which it hits, if it
    /// hits one.
    fn toplevel_hit(&self) -> Option<Target>
        ensures hit { (m : Midstep) → IsTelling self.now.desk m
            → toplevel_of (hit_now m.desktop.pointer.place (all_windows m.desktop)) ≡ target_or_none result }
        ensures number { HasNumber self.now.desk (target_or_none result) }
    {
        let place = self.pointer.place()?;
        let window = self.clients.hit(place.x, place.y)?;
        let client = window.client;
        let surface = self.clients.surface_id(client, window.toplevel)?;
        Some(Target { client, surface })
    }

    /// The serial of the press that begins the hold of a press that comes now: its own, if it is
    /// the first.
    fn hold_serial(&self) -> Option<u32>
        ensures { (d : Desktop) → Agrees self.now.desk d → result ≡ hold_from d.pointer.buttons d.pointer d }
    {
        if !self.pointer.is_free() {
            return self.pointer.hold();
        }
        self.press_serial()
    }

    /// The serial with which a press that begins a hold now is told, if its client has wl_pointers.
    fn press_serial(&self) -> Option<u32>
        ensures { (d : Desktop) → Agrees self.now.desk d → result ≡ press_serial d.pointer.focus d }
    {
        let focus = self.pointer.focus()?;
        if seat_of(&self.seats, focus.client).is_empty() {
            return None;
        }
        self.clients.serial(focus.client)
    }

    /// Dismisses the popups with a grab of this client, if one is given, and tells it so. Only
    /// their windows are marked.
    fn release_grabs(&mut self, holder: Option<ClientNo>)
        ensures releases { (m : Midstep) → IsTelling self.old.desk m
            → (n : Midstep) × Releases holder m n × IsTelling self.new.desk n × MarksJust m.desktop n.desktop self.old.damage self.new.damage }
        ensures pointer { self.new.desk.pointer ≡ self.old.desk.pointer }
        ensures sides { IsAsLarge self.old.damage self.new.damage }
        ensures output { self.new.desk.kept.output ≡ self.old.desk.kept.output }
    {
        if let Some(client) = holder {
            self.clients.release_grabs(client);
        }
    }

    /// Raises a toplevel, if one is given. Only that is marked.
    fn raise(&mut self, toplevel: Option<Target>)
        ensures raises { (m : Midstep) → IsTelling self.old.desk m → HasNumber self.old.desk (target_or_none toplevel)
            → IsTelling self.new.desk (with_standing (raised_to (target_or_none toplevel) m.desktop.standing) m) }
        ensures marks { (m : Midstep) → IsTelling self.old.desk m → HasNumber self.old.desk (target_or_none toplevel)
            → MarksChange (moved_up (target_or_none toplevel) m.desktop.standing) m.desktop
            (with_standing (raised_to (target_or_none toplevel) m.desktop.standing) m).desktop self.old.damage self.new.damage }
        ensures pointer { self.new.desk.pointer ≡ self.old.desk.pointer }
        ensures sides { IsAsLarge self.old.damage self.new.damage }
        ensures output { self.new.desk.kept.output ≡ self.old.desk.kept.output }
    {
        let Some(toplevel) = toplevel else {
            return;
        };
        let Some(number) = self
            .clients
            .surface_number(toplevel.client, toplevel.surface)
        else {
            return;
        };
        self.clients.raise(toplevel.client, number);
    }
}
