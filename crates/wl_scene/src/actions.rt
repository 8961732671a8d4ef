//! What the pointer does.

ghost use Rattle.std.specs.Prelude.{◌≡◌, ◌<◌, ◌≤◌, ◌+◌, ◌++◌, Option, map};
ghost use Rattle.arrayvec.specs.ArrayVec.{array_vec_len};
ghost use Rattle.spec_desktop.specs.Pointer.{is_same};
ghost use Rattle.spec_desktop.specs.PointerActions.{button_of, dismiss_of, enter_of, leave_of, motion_of, raise_of};
ghost use Rattle.spec_desktop.specs.Windows.{Window};
ghost use Rattle.wl_scene.specs.Focus.{action_of, action_or_none, target_or_none, toplevel_of};

use arrayvec::ArrayVec;

/// A surface of a client, by the id of its wl_surface.
#[derive(Clone, Copy, Debug, PartialEq, Eq)]
pub struct Target {
    pub client: u32,
    pub surface: u32,
}

/// What the pointer does to surfaces and toplevels. Each is named by its client and the id of its
/// wl_surface.
#[derive(Clone, Copy, Debug, PartialEq, Eq)]
pub enum Action {
    /// The surface is left (wayland.xml, wl_pointer.leave).
    Leave(Target),
    /// The surface is entered (wayland.xml, wl_pointer.enter).
    Enter(Target),
    /// The surface is told of a motion, at a time in milliseconds (wayland.xml, wl_pointer.motion).
    Motion(u32, Target),
    /// The surface is told that a button was pressed (true) or released, at a time in milliseconds
    /// (wayland.xml, wl_pointer.button).
    Button(u32, u32, bool, Target),
    /// The toplevel comes to the top.
    Raise(Target),
    /// The toplevel moves this many pixels to the right and down.
    MoveWindow(Target, i64, i64),
    /// The popups with a grab of this client are dismissed (xdg-shell.xml, xdg_popup.popup_done).
    Dismiss(u32),
}

/// What the pointer does, one after another.
pub type Actions = ArrayVec<Action, 8>;

/// What stands in a free place of [`Actions`]. It is never seen.
impl Default for Action {
    fn default() -> Self {
        Action::Dismiss(0)
    }
}

fn push_some(actions: &mut Actions, action: Option<Action>)
    requires { array_vec_len actions.old < 8 }
    ensures items { map action_of actions.new.items ≡ map action_of actions.old.items ++ action_or_none action }
    ensures len { array_vec_len actions.new ≤ array_vec_len actions.old + 1 }
{
    if let Some(action) = action {
        actions.push(action);
    }
}

/// Those of these that are there, in this order.
pub(crate) fn listed(
    first: Option<Action>,
    second: Option<Action>,
    third: Option<Action>,
) -> Actions
    ensures { map action_of result.items ≡ (action_or_none first ++ action_or_none second) ++ action_or_none third }
{
    let mut actions = ArrayVec::new();
    push_some(&mut actions, first);
    push_some(&mut actions, second);
    push_some(&mut actions, third);
    actions
}

/// Whether both are the same surface, or none.
pub(crate) fn is_same(one: Option<Target>, other: Option<Target>) -> bool
    ensures { result ≡ is_same (target_or_none one) (target_or_none other) }
{
    match (one, other) {
        (None, None) => true,
        (Some(one), Some(other)) => one.client == other.client && one.surface == other.surface,
        _ => false,
    }
}

pub(crate) fn leave(focus: Option<Target>) -> Option<Action>
    ensures { action_or_none result ≡ leave_of (target_or_none focus) }
{
    Some(Action::Leave(focus?))
}

pub(crate) fn enter(focus: Option<Target>) -> Option<Action>
    ensures { action_or_none result ≡ enter_of (target_or_none focus) }
{
    Some(Action::Enter(focus?))
}

pub(crate) fn motion(time: u32, moved: Option<Target>, focus: Option<Target>) -> Option<Action>
    ensures { action_or_none result ≡ motion_of time (target_or_none moved) (target_or_none focus) }
{
    match (moved, focus) {
        (None, Some(focus)) => Some(Action::Motion(time, focus)),
        _ => None,
    }
}

pub(crate) fn button(
    time: u32,
    button: u32,
    is_pressed: bool,
    focus: Option<Target>,
) -> Option<Action>
    ensures { action_or_none result ≡ button_of time button is_pressed (target_or_none focus) }
{
    Some(Action::Button(time, button, is_pressed, focus?))
}

pub(crate) fn raise(toplevel: Option<Target>) -> Option<Action>
    ensures { (w : Option Window) → toplevel_of w ≡ target_or_none toplevel → action_or_none result ≡ raise_of w }
{
    Some(Action::Raise(toplevel?))
}

/// Dismisses the popups with a grab of the client that holds one, unless the press hits a surface
/// of that client.
pub(crate) fn dismiss(holder: Option<u32>, toplevel: Option<Target>) -> Option<Action>
    ensures { (w : Option Window) → toplevel_of w ≡ target_or_none toplevel → action_or_none result ≡ dismiss_of holder w }
{
    let holder = holder?;
    match toplevel {
        Some(toplevel) if toplevel.client == holder => None,
        _ => Some(Action::Dismiss(holder)),
    }
}
