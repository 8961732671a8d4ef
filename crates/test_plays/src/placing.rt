//! Where popups are placed anew, by the rules of the protocol (xdg-shell.xml, xdg_popup.reposition
//! and xdg_surface.ack_configure).

use crate::desktop::{SURFACES, Stage, Surface, World, slot_of};
use crate::painter::{HEIGHT, WIDTH};
use crate::popups::Popup;
use crate::requests::{POPUP, Spot, popup_id, toplevel_id, xdg_surface_id};
use crate::tally::Deed;
use crate::telling::{Event, INVALID_POSITIONER};

/// A configure of a toplevel or popup, by its number, and where the popup is to stand after it was
/// acknowledged, if it was placed anew.
#[derive(Clone, Copy)]
pub(crate) struct Configure {
    pub object: u32,
    pub serial: u32,
    pub place: Option<(i32, i32)>,
}

impl World {
    /// The first commit draws a serial, and places a popup.
    pub(crate) fn configure(&mut self, client: usize, surface: usize) {
        let now = self.surface(surface);
        if let Some(popup) = now.popup {
            let (x, y) = self.place_popup(popup, popup.asked);
            let popup = Some(Popup { x, y, ..popup });
            self.set_surface(surface, Surface { popup, ..now });
        }
        self.reach(surface, Stage::Waiting);
        self.send_configure(client, surface, None);
    }

    /// A toplevel or popup is configured, and its xdg_surface with a new serial.
    fn send_configure(&mut self, client: usize, surface: usize, place: Option<(i32, i32)>) {
        let now = self.surface(surface);
        let slot = slot_of(surface);
        self.tell_event(client, role_configure(slot, now.popup, place));
        let serial = self.client(client).serial.wrapping_add(1);
        self.tell_event(client, single(xdg_surface_id(slot), 0, serial));
        self.draw_serial(client);
        self.set_surface(surface, Surface { serial, ..now });
        let configure = Configure {
            object: now.object,
            serial,
            place,
        };
        if self.configures.push(configure).is_err() {
            self.failed = true;
        }
    }

    /// A popup has another positioner, and is placed by it once the configure is acknowledged that
    /// tells of it. Before the first commit, and where it was dismissed, nothing is told.
    pub(crate) fn reposition(
        &mut self,
        client: usize,
        surface: usize,
        token: u32,
        spot: Option<Spot>,
    ) {
        let now = self.surface(surface);
        let (Some(asked), Some(popup)) = (spot, now.popup) else {
            self.count(Deed::Incomplete);
            self.refuse(client, INVALID_POSITIONER);
            return;
        };
        let copied = Some(Popup { asked, ..popup });
        self.set_surface(
            surface,
            Surface {
                popup: copied,
                ..now
            },
        );
        if popup.dismissed {
            self.count(Deed::RepositionOfDismissed);
        } else if now.stage == Stage::Fresh {
            self.count(Deed::RepositionOfFresh);
        } else {
            self.count(Deed::Reposition);
            self.tell_event(client, single(popup_id(slot_of(surface)), 2, token));
            let place = self.place_popup(popup, asked);
            self.send_configure(client, surface, Some(place));
        }
    }

    /// Where a popup is placed now beside the corner of its parent's window geometry.
    fn place_popup(&mut self, popup: Popup, spot: Spot) -> (i32, i32) {
        if !spot.slides {
            return (spot.x, spot.y);
        }
        let (corner_x, corner_y) = self.geometry_corner(popup.parent);
        let x = slid(spot.x, corner_x, WIDTH);
        let y = slid(spot.y, corner_y, HEIGHT);
        if (x, y) != (spot.x, spot.y) {
            self.count(Deed::Slide);
        }
        (x, y)
    }

    /// The corner of the window geometry of a toplevel or popup on the output. A toplevel that
    /// isn't mapped stands at the first point.
    fn geometry_corner(&self, surface: usize) -> (i32, i32) {
        let mut at = surface;
        let (mut x, mut y) = self.surface(surface).corner;
        for _ in 0..SURFACES {
            let now = self.surface(at);
            x = x.wrapping_add(now.current.x);
            y = y.wrapping_add(now.current.y);
            let (right, down) = match now.popup {
                Some(popup) => (
                    popup.x.wrapping_sub(now.corner.0),
                    popup.y.wrapping_sub(now.corner.1),
                ),
                None => self.stack_place(at),
            };
            x = x.wrapping_add(right);
            y = y.wrapping_add(down);
            let Some(host) = self.host_of(at) else {
                return (x, y);
            };
            x = x.wrapping_add(self.surface(host).corner.0);
            y = y.wrapping_add(self.surface(host).corner.1);
            at = host;
        }
        (x, y)
    }

    fn stack_place(&self, toplevel: usize) -> (i32, i32) {
        for window in &self.stack {
            if window.surface == toplevel {
                return (window.x, window.y);
            }
        }
        (0, 0)
    }

    /// The configures of a surface's toplevel or popup that weren't acknowledged, up to a serial.
    /// The answer is how many of them place a popup anew, and where the last does.
    pub(crate) fn unacknowledged(&self, surface: usize, last: u32) -> (usize, Option<(i32, i32)>) {
        let now = self.surface(surface);
        let (mut count, mut place) = (0usize, None);
        for configure in &self.configures {
            let is_left = now.acknowledged < configure.serial && configure.serial <= last;
            if configure.object == now.object && is_left && configure.place.is_some() {
                count = count.saturating_add(1);
                place = configure.place;
            }
        }
        (count, place)
    }

    /// A serial that waits makes the surface ready to be mapped. The place of the last configure up
    /// to it waits for the next commit.
    pub(crate) fn acknowledge(&mut self, surface: usize, serial: u32) {
        if self.surface(surface).stage == Stage::Waiting {
            self.reach(surface, Stage::Ready);
        }
        let (count, place) = self.unacknowledged(surface, serial);
        if count > 1 {
            self.count(Deed::Together);
        }
        let now = self.surface(surface);
        let popup = now.popup.map(|popup| Popup {
            waiting: place.or(popup.waiting),
            ..popup
        });
        let acknowledged = serial;
        self.set_surface(
            surface,
            Surface {
                popup,
                acknowledged,
                ..now
            },
        );
    }

    /// A commit of a popup puts it where its last acknowledged configure placed it.
    pub(crate) fn put_in_force(&mut self, surface: usize) {
        let now = self.surface(surface);
        if let Some(popup) = now.popup
            && let Some((x, y)) = popup.waiting
        {
            let placed = Popup {
                x,
                y,
                waiting: None,
                ..popup
            };
            let popup = Some(placed);
            self.set_surface(surface, Surface { popup, ..now });
            self.count(if now.stage == Stage::Mapped {
                Deed::InForce
            } else {
                Deed::InForceBefore
            });
        }
    }

    /// What is unmapped isn't placed by what was configured before.
    pub(crate) fn forget_places(&mut self, surface: usize) {
        let now = self.surface(surface);
        let (count, _) = self.unacknowledged(surface, now.serial);
        let waits = now.popup.is_some_and(|popup| popup.waiting.is_some());
        if waits || count > 0 {
            self.count(Deed::Forgotten);
        }
        let popup = now.popup.map(|popup| Popup {
            waiting: None,
            ..popup
        });
        let acknowledged = now.serial;
        self.set_surface(
            surface,
            Surface {
                popup,
                acknowledged,
                ..now
            },
        );
    }
}

fn single(object: u32, opcode: u32, word: u32) -> Event {
    Event {
        object,
        opcode,
        count: 1,
        words: [word, 0, 0, 0],
    }
}

/// xdg_popup.configure, by the place that is in force if there is no other. xdg_toplevel.configure
/// says that it has no sides and is activated: an array of a word.
fn role_configure(slot: usize, popup: Option<Popup>, place: Option<(i32, i32)>) -> Event {
    let (object, words) = match popup {
        Some(popup) => {
            let (x, y) = place.unwrap_or((popup.x, popup.y));
            let side = POPUP.cast_unsigned();
            let words = [x.cast_unsigned(), y.cast_unsigned(), side, side];
            (popup_id(slot), words)
        }
        None => (toplevel_id(slot), [0, 0, 4, 4]),
    };
    Event {
        object,
        opcode: 0,
        count: 4,
        words,
    }
}

/// The place beside a corner that is nearest to this one, and from which a popup lies within the
/// output.
fn slid(place: i32, corner: i32, side: i32) -> i32 {
    let first = 0i32.wrapping_sub(corner);
    let last = side.wrapping_sub(POPUP).wrapping_sub(corner);
    place.max(first).min(last)
}
