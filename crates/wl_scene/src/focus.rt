//! The pointer: where it is, what is pressed, which surface has its focus, and which toplevel it
//! moves.

ghost use Rattle.std.specs.Prelude.{◌≡◌, ◌++◌, ◌∷◌, ◌-ℤ◌, [], true, false, IsTrue, ◌↔◌, List, None, Some, map};
ghost use Rattle.std.specs.Option.{option_map};
ghost use Rattle.spec_desktop.specs.Pointer.{first_pointer, hit_now, is_down, is_press, settled, without_button};
ghost use Rattle.spec_desktop.specs.PointerActions.{GoTo, Press, Release, Settle, Went, actions, focus_or, move_of};
ghost use Rattle.spec_desktop.specs.Windows.{Window};
ghost use Rattle.wl_scene.specs.Focus.{IsSeen, action_of, action_or_none, place_of, target_of, target_or_none, toplevel_of, unless_of, with_buttons};

use crate::actions::{self, Action, Actions, Target};
use arrayvec::ArrayVec;
use std::marker::Model;

/// How many buttons may be down.
const MOST_BUTTONS: usize = 16;

/// A point of the output in pixels.
#[derive(Clone, Copy, Debug, PartialEq, Eq)]
pub struct Point {
    pub x: i32,
    pub y: i32,
}

/// The pointer (wayland.xml, wl_pointer). Contracts see it as these values:
/// - its place in the output, once it has one;
/// - the buttons that are down, at most 16;
/// - the serial of the press that began the present hold, if the press was sent;
/// - the surface that has its focus;
/// - the toplevel that it moves.
///
/// It doesn't know the windows: each call is told what the pointer hits. The caller has to do the
/// actions that a call answers, one after another.
#[derive(Drop)]
pub struct Focus {
    place: Option<Point>,
    buttons: ArrayVec<u32, MOST_BUTTONS>,
    hold: Option<u32>,
    focus: Option<Target>,
    moved: Option<Target>,
}

impl Model for Focus {
    ghost use Rattle.std.specs.Option.{option_map};
    ghost use Rattle.spec_desktop.specs.Pointer.{Pointer};
    ghost use Rattle.wl_scene.specs.Focus.{place_of, target_or_none};

    ghost Value = { Pointer };

    ghost view = { λ f. record {
      place = option_map place_of f.place;
      buttons = f.buttons.items;
      hold = f.hold;
      focus = target_or_none f.focus;
      move = target_or_none f.moved;
    } };
}

/// How far one coordinate is from another.
fn between(from: i32, to: i32) -> i64
    ensures { result ≡ to -ℤ from }
{
    i64::from(to) - i64::from(from)
}

/// The toplevel that is moved goes along, by the difference between the two places.
fn drag(from: Option<Point>, to: Point, moved: Option<Target>) -> Option<Action>
    ensures { action_or_none result ≡ move_of (option_map place_of from) (place_of to) (target_or_none moved) }
{
    let from = from?;
    let x = between(from.x, to.x);
    let y = between(from.y, to.y);
    Some(Action::MoveWindow(moved?, x, y))
}

/// The surface, if it isn't of this client.
fn unless_of(client: u32, surface: Option<Target>) -> Option<Target>
    ensures { target_or_none result ≡ unless_of client (target_or_none surface) }
{
    surface.filter(|surface| surface.client != client)
}

/// Notes that the button isn't down any more.
fn remove(buttons: &mut ArrayVec<u32, MOST_BUTTONS>, button: u32)
    ensures { buttons.new.items ≡ without_button button buttons.old.items }
{
    buttons.retain(|other| *other != button);
}

impl Focus {
    /// A pointer without a place, with no button down and without a focus.
    pub fn new() -> Self
        ensures { result ≡ first_pointer }
    {
        Focus {
            place: None,
            buttons: ArrayVec::new(),
            hold: None,
            focus: None,
            moved: None,
        }
    }

    /// Where the pointer is, once it has a place.
    pub fn place(&self) -> Option<Point>
        ensures { option_map place_of result ≡ self.now.place }
    {
        self.place
    }

    /// The serial of the press that began the present hold, if the press was sent.
    pub fn hold(&self) -> Option<u32>
        ensures { result ≡ self.now.hold }
    {
        self.hold
    }

    /// The surface that has the focus.
    pub fn focus(&self) -> Option<Target>
        ensures { target_or_none result ≡ self.now.focus }
    {
        self.focus
    }

    /// The toplevel that is moved.
    pub fn moved(&self) -> Option<Target>
        ensures { target_or_none result ≡ self.now.move }
    {
        self.moved
    }

    /// Whether no button is down.
    pub fn is_free(&self) -> bool
        ensures { IsTrue result ↔ (self.now.buttons ≡ []) }
    {
        self.buttons.is_empty()
    }

    /// Whether the button is down.
    pub fn is_down(&self, button: u32) -> bool
        ensures { result ≡ is_down button self.now.buttons }
    {
        self.buttons.contains(&button)
    }

    /// Whether a press of the button counts: it isn't down already, and fewer than 16 are.
    pub fn is_press(&self, button: u32) -> bool
        ensures { result ≡ is_press button self.now.buttons }
    {
        !self.is_down(button) && self.buttons.len() < MOST_BUTTONS
    }

    /// The focus after a step, by what is told of the windows.
    fn settled(&self, hit: Option<Target>, is_stacked: bool) -> Option<Target>
        ensures { (ws : List Window) → IsSeen (target_or_none hit) is_stacked self.now ws → target_or_none result ≡ settled self.now ws }
    {
        if self.buttons.is_empty() {
            return hit;
        }
        if is_stacked { self.focus } else { None }
    }

    /// Gives the focus to another surface, or to none: the old one is left and the new one entered.
    /// If it stays, the action `staying` is done, if there is one.
    fn refocus(&mut self, focus: Option<Target>, staying: Option<Action>) -> Actions
        ensures acts { (ws : List Window) → target_or_none focus ≡ settled self.old ws
            → map action_of result.items ≡ focus_or (action_or_none staying) self.old ws }
        ensures keeps { self.new ≡ record self.old { focus = target_or_none focus } }
    {
        let old = self.focus;
        self.focus = focus;
        if actions::is_same(old, focus) {
            return actions::listed(staying, None, None);
        }
        actions::listed(actions::leave(old), actions::enter(focus), None)
    }

    /// The windows may have changed. If the focus moves, the old surface is left and the new one
    /// entered (wayland.xml, wl_pointer.leave and wl_pointer.enter). `hit` is the surface that the
    /// pointer hits; it counts only while no button is down. `is_stacked` says whether the focused
    /// surface is among the windows; it counts only while a button is down.
    pub fn settle(&mut self, hit: Option<Target>, is_stacked: bool) -> Actions
        ensures acts { (ws : List Window) → IsSeen (target_or_none hit) is_stacked self.old ws
            → map action_of result.items ≡ actions Settle self.old ws }
        ensures keeps { (ws : List Window) → IsSeen (target_or_none hit) is_stacked self.old ws
            → self.new ≡ record self.old { focus = settled self.old ws } }
    {
        let focus = self.settled(hit, is_stacked);
        self.refocus(focus, None)
    }

    /// The pointer moves to a point of the output, in pixels. A toplevel that is moved goes along.
    pub fn motion(&mut self, to: Point) -> Actions
        ensures acts { (ws : List Window) → map action_of result.items ≡ actions (GoTo (place_of to)) self.old ws }
        ensures keeps { self.new ≡ record self.old { place = Some (place_of to) } }
    {
        let drag = drag(self.place, to, self.moved);
        self.place = Some(to);
        actions::listed(drag, None, None)
    }

    /// The pointer moved, at a time in milliseconds. If the focus stays, its surface is told of the
    /// motion (wayland.xml, wl_pointer.motion), unless a toplevel is moved. If the focus moves, the
    /// old surface is left and the new one entered. What it is told of the windows is as for
    /// [`Focus::settle`].
    pub fn went(&mut self, time: u32, hit: Option<Target>, is_stacked: bool) -> Actions
        ensures acts { (ws : List Window) → IsSeen (target_or_none hit) is_stacked self.old ws
            → map action_of result.items ≡ actions (Went time) self.old ws }
        ensures keeps { (ws : List Window) → IsSeen (target_or_none hit) is_stacked self.old ws
            → self.new ≡ record self.old { focus = settled self.old ws } }
    {
        let focus = self.settled(hit, is_stacked);
        let staying = actions::motion(time, self.moved, self.focus);
        self.refocus(focus, staying)
    }

    /// A button is pressed, at a time in milliseconds, and a client may hold a grab. Nothing
    /// happens if the button is down already, or 16 are. Else, in this order:
    /// - the toplevel comes to the top that holds what the pointer hits;
    /// - the popups with a grab are dismissed if nothing of their client is hit (xdg-shell.xml,
    ///   xdg_popup.grab);
    /// - the focus is told of the press (wayland.xml, wl_pointer.button).
    pub fn press(
        &mut self,
        time: u32,
        button: u32,
        toplevel: Option<Target>,
        holder: Option<u32>,
    ) -> Actions
        ensures acts { is_press button self.old.buttons ≡ true
            → (ws : List Window) → toplevel_of (hit_now self.old.place ws) ≡ target_or_none toplevel
            → map action_of result.items ≡ actions (Press time button holder) self.new ws }
        ensures keeps { is_press button self.old.buttons ≡ true
            → self.new ≡ record self.old { buttons = self.old.buttons ++ button ∷ [] } }
        ensures ignored { is_press button self.old.buttons ≡ false → (result.items ≡ []) × (self.new ≡ self.old) }
    {
        if !self.is_press(button) {
            return ArrayVec::new();
        }
        self.buttons.push(button);
        actions::listed(
            actions::raise(toplevel),
            actions::dismiss(holder, toplevel),
            actions::button(time, button, true, self.focus),
        )
    }

    /// If no button is down, nothing is held and nothing is moved any more.
    fn end_if_free(&mut self)
        ensures { self.new ≡ with_buttons self.old.buttons self.old }
    {
        if self.buttons.is_empty() {
            self.hold = None;
            self.moved = None;
        }
    }

    /// A button is released, at a time in milliseconds, and the focus is told of it (wayland.xml,
    /// wl_pointer.button). After the last one nothing is held, and nothing is moved. Nothing
    /// happens if the button isn't down.
    pub fn release(&mut self, time: u32, button: u32) -> Actions
        ensures acts { is_down button self.old.buttons ≡ true
            → (ws : List Window) → map action_of result.items ≡ actions (Release time button) self.new ws }
        ensures keeps { is_down button self.old.buttons ≡ true
            → self.new ≡ with_buttons (without_button button self.old.buttons) self.old }
        ensures ignored { is_down button self.old.buttons ≡ false → (result.items ≡ []) × (self.new ≡ self.old) }
    {
        if !self.is_down(button) {
            return ArrayVec::new();
        }
        remove(&mut self.buttons, button);
        self.end_if_free();
        actions::listed(actions::button(time, button, false, self.focus), None, None)
    }

    /// Notes the serial of the press that began the present hold; none, if the press was sent to
    /// nobody.
    pub fn begin_hold(&mut self, serial: Option<u32>)
        ensures { self.new ≡ record self.old { hold = serial } }
    {
        self.hold = serial;
    }

    /// Motions move this toplevel from now on (xdg-shell.xml, xdg_toplevel.move). The caller makes
    /// sure that it may be moved.
    pub fn begin_move(&mut self, toplevel: Target)
        ensures { self.new ≡ record self.old { move = Some (target_of toplevel) } }
    {
        self.moved = Some(toplevel);
    }

    /// Motions move no toplevel any more, since the one that is moved was unmapped.
    pub fn end_move(&mut self)
        ensures { self.new ≡ record self.old { move = None } }
    {
        self.moved = None;
    }

    /// A client is gone: none of its surfaces has the focus, and none of its toplevels is moved.
    pub fn forget(&mut self, client: u32)
        ensures { self.new ≡ record self.old { focus = unless_of client self.old.focus; move = unless_of client self.old.move } }
    {
        self.focus = unless_of(client, self.focus);
        self.moved = unless_of(client, self.moved);
    }
}
