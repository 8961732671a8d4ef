//! The pointer: what it does over one window, over another's, and while a toplevel is moved.

use wl_scene::{Action, Actions, Focus, Point, Target, fixed};

const BELOW: Target = Target {
    client: 1,
    surface: 6,
};

const ABOVE: Target = Target {
    client: 2,
    surface: 4,
};

const LEFT_BUTTON: u32 = 272;

fn does(actions: &Actions, wanted: &[Action]) -> bool {
    actions.as_slice() == wanted
}

// Goes to a point at this time, where this is hit: what is done before the focus is settled, and
// then.
fn goes(focus: &mut Focus, time: u32, x: i32, y: i32, hit: Option<Target>) -> (Actions, Actions) {
    let before = focus.motion(Point { x, y });
    let then = focus.went(time, hit, true);
    (before, then)
}

fn enters(focus: &mut Focus) -> bool {
    let (before, then) = goes(focus, 10, 5, 5, Some(BELOW));
    does(&before, &[]) && does(&then, &[Action::Enter(BELOW)])
}

fn presses(focus: &mut Focus) -> bool {
    let pressed = focus.press(11, LEFT_BUTTON, Some(BELOW), None);
    let again = focus.press(11, LEFT_BUTTON, Some(BELOW), None);
    does(
        &pressed,
        &[
            Action::Raise(BELOW),
            Action::Button(11, LEFT_BUTTON, true, BELOW),
        ],
    ) && does(&again, &[])
}

// While the button is down it leaves the window, and the window keeps the focus.
fn drags_outside(focus: &mut Focus) -> bool {
    let (before, then) = goes(focus, 12, 50, 50, None);
    does(&before, &[]) && does(&then, &[Action::Motion(12, BELOW)])
}

fn releases(focus: &mut Focus) -> bool {
    let released = focus.release(13, LEFT_BUTTON);
    let settled = focus.settle(None, true);
    let again = focus.release(14, LEFT_BUTTON);
    does(&released, &[Action::Button(13, LEFT_BUTTON, false, BELOW)])
        && does(&settled, &[Action::Leave(BELOW)])
        && does(&again, &[])
}

#[test]
fn a_window_is_entered_pressed_and_left(rt: HostRuntime) {
    let mut focus = Focus::new();
    assert!(rt; enters(&mut focus) && presses(&mut focus));
    assert!(rt; drags_outside(&mut focus) && releases(&mut focus));
    assert!(rt; focus.focus().is_none() && focus.is_free());
}

// A window comes to where the pointer is, over the one that has the focus, and goes again.
fn is_covered_and_uncovered(focus: &mut Focus) -> bool {
    let covered = focus.settle(Some(ABOVE), true);
    let still = focus.settle(Some(ABOVE), true);
    let uncovered = focus.settle(Some(BELOW), false);
    does(&covered, &[Action::Leave(BELOW), Action::Enter(ABOVE)])
        && does(&still, &[])
        && does(&uncovered, &[Action::Leave(ABOVE), Action::Enter(BELOW)])
}

// With a button down, a window that goes leaves the focus to nothing.
fn goes_while_pressed(focus: &mut Focus) -> bool {
    let gone = focus.settle(Some(ABOVE), false);
    let nothing = focus.settle(Some(ABOVE), false);
    does(&gone, &[Action::Leave(BELOW)]) && does(&nothing, &[])
}

#[test]
fn the_focus_is_what_is_hit_unless_a_button_is_down(rt: HostRuntime) {
    let mut focus = Focus::new();
    assert!(rt; enters(&mut focus) && is_covered_and_uncovered(&mut focus));
    assert!(rt; presses(&mut focus) && goes_while_pressed(&mut focus));
}

// A toplevel is moved: motions move it and are told nobody.
fn moves(focus: &mut Focus) -> bool {
    focus.begin_hold(Some(3));
    focus.begin_move(BELOW);
    let (before, then) = goes(focus, 12, 6, 5, Some(BELOW));
    does(&before, &[Action::MoveWindow(BELOW, 1, 0)]) && does(&then, &[]) && focus.hold() == Some(3)
}

#[test]
fn a_toplevel_is_moved_until_the_last_release(rt: HostRuntime) {
    let mut focus = Focus::new();
    assert!(rt; enters(&mut focus) && presses(&mut focus) && moves(&mut focus));
    let released = focus.release(13, LEFT_BUTTON);
    assert!(rt; does(&released, &[Action::Button(13, LEFT_BUTTON, false, BELOW)]));
    assert!(rt; focus.moved().is_none() && focus.hold().is_none());
}

#[test]
fn a_press_outside_dismisses(rt: HostRuntime) {
    let mut focus = Focus::new();
    let (before, then) = goes(&mut focus, 4, 50, 5, None);
    assert!(rt; does(&before, &[]) && does(&then, &[]));
    let outside = focus.press(5, LEFT_BUTTON, None, Some(2));
    assert!(rt; does(&outside, &[Action::Dismiss(2)]));
    let elsewhere = focus.press(6, 273, Some(BELOW), Some(2));
    assert!(rt; does(&elsewhere, &[Action::Raise(BELOW), Action::Dismiss(2)]));
    let inside = focus.press(7, 274, Some(ABOVE), Some(2));
    assert!(rt; does(&inside, &[Action::Raise(ABOVE)]));
}

// Presses this many buttons: how many presses counted.
fn counted(focus: &mut Focus, buttons: u32) -> u32 {
    let mut counted: u32 = 0;
    for button in 0..buttons {
        if !focus.press(1, button, Some(BELOW), None).is_empty() {
            counted = counted.saturating_add(1);
        }
    }
    counted
}

#[test]
fn sixteen_buttons_are_down_at_most(rt: HostRuntime) {
    let mut focus = Focus::new();
    assert!(rt; counted(&mut focus, 20) == 16);
    assert!(rt; focus.is_down(15) && !focus.is_down(16));
    let released = focus.release(2, 16);
    assert!(rt; does(&released, &[]));
}

#[test]
fn a_client_is_forgotten(rt: HostRuntime) {
    let mut focus = Focus::new();
    assert!(rt; enters(&mut focus));
    focus.begin_move(BELOW);
    focus.forget(2);
    assert!(rt; focus.focus() == Some(BELOW) && focus.moved() == Some(BELOW));
    focus.forget(1);
    assert!(rt; focus.focus().is_none() && focus.moved().is_none());
    assert!(rt; focus.place() == Some(Point { x: 5, y: 5 }));
}

#[test]
fn coordinates_are_held_before_they_are_multiplied(rt: HostRuntime) {
    assert!(rt; fixed(5, 0) == 1280 && fixed(45, 32) == 3328 && fixed(3, 5) == -512);
    assert!(rt; fixed(i32::MAX, i32::MIN) == 2_147_483_392);
    assert!(rt; fixed(i32::MIN, i32::MAX) == -2_147_483_648);
}
