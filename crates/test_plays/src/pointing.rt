//! The pointer, by the rules of the protocol: which surface has its focus, what a press raises,
//! what is moved with it, and what clients are told. See wayland.xml, wl_pointer, and
//! xdg-shell.xml, xdg_toplevel.move.

use crate::desktop::{Client, Planned, SURFACES, Stage, Window, World, client_of, slot_of};
use crate::drawing::sides_of;
use crate::links::Shown;
use crate::painter::{HEIGHT, WIDTH};
use crate::requests::{Area, Request};
use crate::tally::Deed;
use crate::telling::{ENTERED, LEFT, MOVED, PRESSED};

/// The pointer. Surfaces are said by their numbers among those of all clients.
#[derive(Clone, Copy)]
pub(crate) struct Pointer {
    pub place: Option<(i32, i32)>,
    /// Which of its buttons are down.
    pub buttons: [bool; 2],
    /// The serial of the press that began to hold, where a client was told of it.
    pub hold: Option<u32>,
    pub focus: Option<usize>,
    /// The toplevel that goes along with it.
    pub moved: Option<usize>,
}

/// It isn't anywhere.
pub(crate) const AWAY: Pointer = Pointer {
    place: None,
    buttons: [false; 2],
    hold: None,
    focus: None,
    moved: None,
};

impl World {
    /// The pointer moves, or a button of it is pressed or released, or a client asks that its
    /// toplevel is moved.
    pub(crate) fn use_pointer(&mut self) {
        let button = self.below(2);
        match self.below(8) {
            0 | 1 if self.pointer.hold.is_some() => self.use_press(),
            0..=2 => self.press(button),
            3 | 4 => self.release_button(usize::from(!self.is_down(0))),
            _ => {
                let x = self.coordinate(-3, 54);
                let y = self.coordinate(-3, 46);
                self.go_to(x, y);
            }
        }
    }

    /// The client over whose toplevel a button was pressed asks that it is moved, or opens a popup,
    /// or what it asked before is sent.
    fn use_press(&mut self) {
        if let (Some(focus), Some(serial)) = (self.pointer.focus, self.pointer.hold) {
            let client = client_of(focus);
            let now = self.client(client);
            if now.from < now.to {
                self.send(client, now.to);
            } else if self.one_in(2) {
                self.open_menu(self.root_of(focus), serial);
            } else {
                self.ask_move(client, self.toplevel_of(self.root_of(focus)), serial);
            }
        }
    }

    fn ask_move(&mut self, client: usize, toplevel: usize, serial: u32) {
        self.begin(client);
        self.ask(Request::Move(slot_of(toplevel), serial));
        self.finish(client);
        self.send(client, self.client(client).to);
    }

    /// The pointer goes to the point of the output that is nearest to this. What it moves goes
    /// along.
    fn go_to(&mut self, x: i32, y: i32) {
        let to = (x.max(0).min(WIDTH - 1), y.max(0).min(HEIGHT - 1));
        let was = self.pointer;
        self.move_along(to);
        self.pointer.place = Some(to);
        self.settle();
        if let Some(focus) = was.focus
            && was.moved.is_none()
            && self.pointer.focus == was.focus
        {
            self.tell_pointers(client_of(focus), MOVED);
            self.count(Deed::Motion);
        }
        self.end_struck();
        self.plan(Planned::Motion(x, y));
    }

    fn move_along(&mut self, (x, y): (i32, i32)) {
        if let (Some((old_x, old_y)), Some(moved)) = (self.pointer.place, self.pointer.moved) {
            let (right, down) = (x.wrapping_sub(old_x), y.wrapping_sub(old_y));
            shift(&mut self.stack, moved, right, down);
            self.count(Deed::Drag);
        }
    }

    /// A button that is up is pressed: the toplevel under the pointer comes to the top, popups are
    /// dismissed, and the focus is told of it.
    fn press(&mut self, button: usize) {
        if !self.is_down(button) {
            if self.pointer.buttons == [false; 2] {
                self.pointer.hold = self.next_serial();
            }
            self.set_button(button, true);
            let hit = self.hit_now();
            if let Some(surface) = hit {
                self.raise(self.toplevel_of(self.root_of(surface)));
            }
            self.dismiss_outside(hit);
            self.tell_button(true);
        }
        self.plan(Planned::Button(button, true));
    }

    /// Once the last button is up, nothing is held and nothing moved.
    fn release_button(&mut self, button: usize) {
        if self.is_down(button) {
            self.set_button(button, false);
            if self.pointer.buttons == [false; 2] {
                self.pointer.hold = None;
                self.pointer.moved = None;
            }
            self.tell_button(false);
        }
        self.plan(Planned::Button(button, false));
    }

    fn is_down(&self, button: usize) -> bool {
        let buttons = self.pointer.buttons;
        buttons.get(button).copied().unwrap_or(false)
    }

    fn set_button(&mut self, button: usize, down: bool) {
        if let Some(place) = self.pointer.buttons.get_mut(button) {
            *place = down;
        }
    }

    /// The serial that the client of the focus is told next, if it is told one.
    fn next_serial(&self) -> Option<u32> {
        let now = self.client(client_of(self.pointer.focus?));
        if now.pointers == 0 {
            None
        } else {
            Some(now.serial.wrapping_add(1))
        }
    }

    /// The client of the focus is told of a button, and by which serial.
    fn tell_button(&mut self, pressed: bool) {
        if let Some(focus) = self.pointer.focus {
            let client = client_of(focus);
            if let Some(serial) = self.tell_serial(client, PRESSED) {
                self.note_button(client, serial, pressed);
            }
        }
        self.conclude();
    }

    fn note_button(&mut self, client: usize, serial: u32, pressed: bool) {
        let told = self.client(client);
        let noted = if pressed {
            Client {
                pressed: Some(serial),
                ..told
            }
        } else {
            Client {
                released: Some(serial),
                ..told
            }
        };
        self.set_client(client, noted);
        self.count(Deed::Button);
    }

    /// A client gets a wl_pointer. If it has the focus, that is told of it at once.
    pub(crate) fn get_pointer(&mut self, client: usize) {
        let now = self.client(client);
        let pointers = now.pointers.saturating_add(1);
        self.set_client(client, Client { pointers, ..now });
        if self.pointer.focus.map(client_of) == Some(client) {
            self.tell(client, ENTERED);
            self.draw_serial(client);
            self.count(Deed::LatePointer);
        }
    }

    /// The toplevel or popup below which a surface hangs, or itself.
    fn root_of(&self, surface: usize) -> usize {
        let mut at = surface;
        for _ in 0..SURFACES {
            match self.surface(at).parent {
                Some(parent) => at = parent,
                None => return at,
            }
        }
        at
    }

    /// What is under the pointer.
    fn hit_now(&self) -> Option<usize> {
        match self.windows() {
            Some(windows) => self.hit(&windows),
            None => None,
        }
    }

    fn raise(&mut self, root: usize) {
        let (x, y) = self.place_of(root);
        let is_on_top = match self.stack.last() {
            Some(top) => top.surface == root,
            None => true,
        };
        if !is_on_top {
            self.count(Deed::Raise);
        }
        self.stack.retain(|window| window.surface != root);
        if self
            .stack
            .push(Window {
                surface: root,
                x,
                y,
            })
            .is_err()
        {
            self.failed = true;
        }
    }

    /// Whether the pointer is over a window.
    fn is_over(&self, window: Shown) -> bool {
        let state = self.surface(window.surface).current;
        let (Some(content), Some((x, y))) = (state.content(), self.pointer.place) else {
            return false;
        };
        let (w, h) = sides_of(content);
        let (i, j) = (x.wrapping_sub(window.x), y.wrapping_sub(window.y));
        0 <= i && i < w && 0 <= j && j < h && takes_input(state.input, i, j)
    }

    /// The topmost of these windows that is under the pointer.
    fn hit(&self, windows: &[Shown]) -> Option<usize> {
        let mut hit = None;
        for window in windows {
            if self.is_over(*window) {
                hit = Some(window.surface);
            }
        }
        hit
    }

    /// The focus as long as it has a window.
    fn kept_focus(&self, windows: &[Shown]) -> Option<usize> {
        let focus = self.pointer.focus?;
        for window in windows {
            if window.surface == focus {
                return Some(focus);
            }
        }
        None
    }

    /// What is under the pointer has the focus. While a button is down, what had it keeps it.
    pub(crate) fn settle(&mut self) {
        let Some(windows) = self.windows() else {
            self.failed = true;
            return;
        };
        let focus = if self.pointer.buttons == [false; 2] {
            self.hit(&windows)
        } else {
            self.kept_focus(&windows)
        };
        if focus != self.pointer.focus {
            self.change_focus(focus);
        }
    }

    /// The old surface is left, unless it is gone, and the new one entered.
    fn change_focus(&mut self, focus: Option<usize>) {
        if let Some(old) = self.pointer.focus
            && self.surface(old).stage != Stage::Absent
        {
            self.tell_serial(client_of(old), LEFT);
        }
        if let Some(new) = focus {
            self.tell_serial(client_of(new), ENTERED);
            self.count(Deed::Enter);
        }
        self.pointer.focus = focus;
    }

    /// A toplevel is moved with the pointer while a button is held that was pressed over it or what
    /// hangs below it.
    pub(crate) fn begin_moving(&mut self, toplevel: usize, serial: u32) {
        if let Some(focus) = self.pointer.focus
            && self.pointer.hold == Some(serial)
            && self.root_of(focus) == toplevel
        {
            self.pointer.moved = Some(toplevel);
        }
    }

    /// What is unmapped isn't moved any more.
    pub(crate) fn stop_moving(&mut self, toplevel: usize) {
        if self.pointer.moved == Some(toplevel) {
            self.pointer.moved = None;
        }
    }

    /// A client that ended is told nothing more.
    pub(crate) fn forget(&mut self, client: usize) {
        self.pointer.focus = self
            .pointer
            .focus
            .filter(|focus| client_of(*focus) != client);
        self.pointer.moved = self
            .pointer
            .moved
            .filter(|moved| client_of(*moved) != client);
    }
}

/// Whether this part has a point: all does.
fn takes_input(input: Option<Area>, i: i32, j: i32) -> bool {
    match input {
        Some(Area { x, y, w, h }) => {
            let (right, down) = (i.wrapping_sub(x), j.wrapping_sub(y));
            0 <= right && right < w && 0 <= down && down < h
        }
        None => true,
    }
}

/// The window of a toplevel stands so much further.
fn shift(stack: &mut [Window], toplevel: usize, right: i32, down: i32) {
    for window in stack {
        if window.surface == toplevel {
            window.x = window.x.wrapping_add(right);
            window.y = window.y.wrapping_add(down);
        }
    }
}
