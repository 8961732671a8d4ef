//! What clients do with popups, by chance.

use crate::desktop::{
    Client, Role, SURFACES, Stage, Surface, World, client_of, number_of, slot_of,
};
use crate::requests::{Area, Request, Rule, Spot};

impl World {
    /// A surface without a role gets an xdg_surface, and a popup on one of its client's toplevels
    /// or popups. False where there is none.
    pub(crate) fn open(&mut self, number: usize) -> bool {
        match self.choose_host(number) {
            Some(host) => {
                let serial = self.choose_serial(number);
                self.open_on(number, host, serial);
                true
            }
            None => false,
        }
    }

    /// A popup on this one of its client's toplevels or popups, which grabs by this serial, if
    /// there is one.
    fn open_on(&mut self, number: usize, host: usize, serial: Option<u32>) {
        let slot = slot_of(number);
        self.ask(Request::MakeXdgSurface(slot));
        self.ask_popup(number, host, serial);
        self.ask(Request::Commit(slot));
    }

    /// A client of which all was sent opens a popup on this surface's toplevel or popup, over which
    /// a button was pressed with this serial.
    pub(crate) fn open_menu(&mut self, host: usize, serial: u32) {
        let client = client_of(host);
        if let Some(number) = self.free_surface(client) {
            self.begin(client);
            if self.surface(number).stage == Stage::Absent {
                self.ask(Request::MakeSurface(slot_of(number)));
            }
            self.open_on(number, slot_of(host), Some(serial));
            self.finish(client);
            self.send(client, self.client(client).to);
        }
    }

    /// A surface of a client without any role, or one that it may still make.
    fn free_surface(&self, client: usize) -> Option<usize> {
        for slot in 0..SURFACES {
            let number = number_of(client, slot);
            let surface = self.surface(number);
            let is_new = surface.stage == Stage::Absent || surface.stage == Stage::Bare;
            if is_new && surface.role == Role::None {
                return Some(number);
            }
        }
        None
    }

    /// A surface whose popup went gets another, or goes too.
    pub(crate) fn open_again(&mut self, number: usize) {
        let slot = slot_of(number);
        match self.choose_host(number) {
            Some(host) if self.one_in(2) => {
                let serial = self.choose_serial(number);
                self.ask_popup(number, host, serial);
                self.ask_none(slot);
            }
            _ => {
                self.ask(Request::DestroyXdgSurface(slot));
                self.ask(Request::DestroySurface(slot));
            }
        }
    }

    /// A toplevel or popup that is mapped, or any other.
    fn choose_host(&mut self, number: usize) -> Option<usize> {
        let start = self.below(SURFACES);
        let mut found = None;
        for k in 0..SURFACES {
            let slot = start.saturating_add(k) % SURFACES;
            let host = number_of(client_of(number), slot);
            let surface = self.surface(host);
            if surface.object == 0 || host == number {
                continue;
            }
            if surface.stage == Stage::Mapped && !self.is_dismissed(host) {
                return Some(slot);
            }
            found = Some(slot);
        }
        found
    }

    /// Makes a positioner, by which a popup is placed, and lets it grab by this serial, if there is
    /// one.
    fn ask_popup(&mut self, number: usize, host: usize, serial: Option<u32>) {
        let spot = self.ask_positioner(number);
        self.ask(Request::MakePopup(slot_of(number), host, spot));
        self.ask(Request::Positioner(Rule::Destroy));
        if self.one_in(4) {
            self.ask_reposition_at_times(number);
        }
        if let Some(serial) = serial {
            self.ask(Request::Grab(slot_of(number), serial));
        }
    }

    /// Makes a positioner that places a popup here.
    fn ask_positioner(&mut self, number: usize) -> Spot {
        let (x, y) = (self.coordinate(-8, 30), self.coordinate(-8, 24));
        let slides = self.one_in(2);
        for rule in [
            Rule::Make,
            Rule::Size,
            Rule::Rectangle,
            Rule::Anchor,
            Rule::Gravity,
            Rule::Offset(x, y),
        ] {
            self.ask(Request::Positioner(rule));
        }
        if slides {
            self.ask(Request::Positioner(Rule::Slide));
        }
        let Client { shell, .. } = self.client(client_of(number));
        if self.one_in(3) && self.may_ask(shell, 3) {
            self.ask_without_effect();
        }
        Spot { x, y, slides }
    }

    /// Asks for something of the positioner that has no effect, by any numbers.
    fn ask_without_effect(&mut self) {
        let (w, h) = (self.coordinate(-9, 20), self.coordinate(-9, 20));
        let rule = match self.below(3) {
            0 => Rule::Reactive,
            1 => Rule::ParentSize(w, h),
            _ => Rule::ParentConfigure(w.cast_unsigned()),
        };
        self.ask(Request::Positioner(rule));
    }

    /// Places a popup anew, or asks for that by a positioner without a size or a rectangle, now and
    /// then.
    fn ask_reposition(&mut self, number: usize) {
        let slot = slot_of(number);
        let token = u32::try_from(self.below(1000)).unwrap_or(0);
        if self.one_in(15) {
            self.ask(Request::Positioner(Rule::Make));
            if self.one_in(2) {
                self.ask(Request::Positioner(Rule::Size));
            } else {
                self.ask(Request::Positioner(Rule::Rectangle));
            }
            self.ask(Request::Reposition(slot, token, None));
        } else {
            let spot = self.ask_positioner(number);
            self.ask(Request::Reposition(slot, token, Some(spot)));
        }
        self.ask(Request::Positioner(Rule::Destroy));
    }

    /// A new popup, or one that doesn't wait for more than some acknowledgements, is placed anew
    /// now and then, once or twice. Whether it is.
    pub(crate) fn ask_reposition_at_times(&mut self, number: usize) -> bool {
        let Client { shell, .. } = self.client(client_of(number));
        let (left, _) = self.unacknowledged(number, u32::MAX);
        let asks = left < 8 && self.one_in(2) && self.may_ask(shell, 3);
        if asks {
            self.ask_reposition(number);
        }
        if asks && self.one_in(3) {
            self.ask_reposition(number);
        }
        asks
    }

    /// One of a client's surfaces, more often one with a popup that wasn't dismissed, if there is
    /// one.
    pub(crate) fn choose_slot(&mut self, client: usize) -> usize {
        let start = self.below(SURFACES);
        if self.one_in(2) {
            return start;
        }
        for k in 0..SURFACES {
            let slot = start.saturating_add(k) % SURFACES;
            let number = number_of(client, slot);
            if self.surface(number).popup.is_some() && !self.is_dismissed(number) {
                return slot;
            }
        }
        start
    }

    /// Whether a surface's popup waits to be placed.
    fn waits(&self, number: usize) -> bool {
        match self.surface(number).popup {
            Some(popup) => popup.waiting.is_some() || self.unacknowledged(number, u32::MAX).0 > 0,
            None => false,
        }
    }

    /// Acknowledges a configure that wasn't: mostly the last.
    pub(crate) fn ask_acknowledge(&mut self, number: usize) {
        let serial = self.choose_configure(number);
        if let Some(serial) = serial {
            self.ask(Request::Acknowledge(slot_of(number), serial));
        }
    }

    /// The serial of a configure of a surface's toplevel or popup that wasn't acknowledged, mostly
    /// of the last. None where all were.
    fn choose_configure(&mut self, number: usize) -> Option<u32> {
        let now = self.surface(number);
        let is_first = self.one_in(3);
        let mut found = None;
        for configure in &self.configures {
            let is_left = configure.object == now.object && now.acknowledged < configure.serial;
            if is_left && (found.is_none() || !is_first) {
                found = Some(configure.serial);
            }
        }
        found
    }

    /// What is placed anew is acknowledged, and then it is committed, unmapped, or neither.
    fn ask_to_place(&mut self, number: usize, surface: Surface, buffer: usize) {
        let slot = slot_of(number);
        self.ask_acknowledge(number);
        match self.below(8) {
            0 | 1 => self.ask_none(slot),
            2 => {}
            3 | 4 => self.update(number, surface, buffer),
            _ => self.ask(Request::Commit(slot)),
        }
    }

    /// A new popup grabs now and then, more often where its client was told of a button.
    fn choose_serial(&mut self, number: usize) -> Option<u32> {
        let now = self.client(client_of(number));
        let was_told = now.pressed.is_some() || now.released.is_some();
        if self.one_in(if was_told { 2 } else { 8 }) {
            Some(self.any_serial(number))
        } else {
            None
        }
    }

    /// The serial of the latest press or release that a client was told of, or another one.
    fn any_serial(&mut self, number: usize) -> u32 {
        let now = self.client(client_of(number));
        let other = now.serial.wrapping_add(1);
        match self.below(8) {
            0 => now.serial,
            1 => other,
            2..=4 => now.released.unwrap_or(other),
            _ => now.pressed.unwrap_or(other),
        }
    }

    fn ask_grab(&mut self, number: usize) {
        let serial = self.any_serial(number);
        self.ask(Request::Grab(slot_of(number), serial));
    }

    /// The popup that isn't mapped asks to grab, now and then.
    pub(crate) fn ask_grab_at_times(&mut self, number: usize, surface: Surface) {
        if surface.role == Role::Popup && self.one_in(5) {
            self.ask_grab(number);
        }
    }

    /// A popup that was configured and isn't mapped acknowledges that, and mostly is mapped.
    pub(crate) fn ask_unmapped_popup(&mut self, number: usize, surface: Surface, buffer: usize) {
        self.ask_grab_at_times(number, surface);
        if self.one_in(3) && self.ask_reposition_at_times(number) {
            return;
        }
        self.ask_acknowledge(number);
        if self.one_in(8) {
            self.ask(Request::Commit(slot_of(number)));
        } else {
            self.update(number, surface, buffer);
        }
    }

    /// Something is asked of a mapped popup.
    pub(crate) fn ask_mapped_popup(&mut self, number: usize, surface: Surface, buffer: usize) {
        let waits = self.waits(number);
        match self.below(16) {
            0 => self.ask_none(slot_of(number)),
            1 => self.ask_to_close(number),
            2..=7 if self.ask_reposition_at_times(number) => {}
            2..=12 if waits => self.ask_to_place(number, surface, buffer),
            _ => self.update(number, surface, buffer),
        }
    }

    /// A popup that was dismissed goes mostly; what else is asked of it has no effect.
    pub(crate) fn ask_dismissed(&mut self, number: usize, surface: Surface, buffer: usize) {
        let slot = slot_of(number);
        match self.below(8) {
            0 => self.update(number, surface, buffer),
            1 => self.ask_grab(number),
            2 => self.ask_none(slot),
            3 | 4 if self.ask_reposition_at_times(number) => {}
            _ => self.ask_to_close(number),
        }
    }

    /// A popup goes, unless another one is on it.
    fn ask_to_close(&mut self, number: usize) {
        if !self.has_popups(number) {
            self.ask(Request::DestroyPopup(slot_of(number)));
        }
    }

    /// The corner of a toplevel's or popup's window geometry moves with the next commit.
    pub(crate) fn ask_geometry(&mut self, slot: usize) {
        let (x, y) = (self.coordinate(-4, 10), self.coordinate(-4, 10));
        let (w, h) = (self.coordinate(1, 20), self.coordinate(1, 20));
        self.ask(Request::SetGeometry(slot, Area { x, y, w, h }));
    }
}
