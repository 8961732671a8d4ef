//! How much happened in a play.

use crate::desktop::World;

/// Something of which it is counted how often it happened.
#[derive(Clone, Copy, Debug)]
pub(crate) enum Deed {
    /// A toplevel was mapped, one of the first client among them, and a toplevel or popup unmapped.
    Map,
    MapOfFirst,
    Unmap,
    /// A client connected, and ended.
    Connect,
    End,
    /// It ended since its own request, or something else, would have left too much unread.
    SlowByItself,
    SlowByOthers,
    /// A point of a frame is covered by more than one window.
    Overlap,
    /// A request was cut.
    Cut,
    /// Bytes that waited for a client were sent.
    Sent,
    /// A buffer was released.
    Release,
    /// A surface became a subsurface, such a link ended, and one was desynchronised or
    /// synchronised.
    Link,
    Unlink,
    Desync,
    Sync,
    /// A commit was held, and what was held was applied since a mode changed.
    Hold,
    Unhold,
    /// A subsurface was given a position, was placed above or below another, and has a window in a
    /// frame.
    Position,
    Above,
    Below,
    Inner,
    /// A part of a surface alone took input, and a client got a wl_pointer while it had the focus.
    Input,
    LatePointer,
    /// A surface was entered, told of a motion, and told of a button.
    Enter,
    Motion,
    Button,
    /// A press raised a toplevel above others, and one went along with the pointer.
    Raise,
    Drag,
    /// A popup was made, mapped, unmapped, destroyed, and has a window in a frame, of a parent
    /// whose window geometry begins elsewhere.
    Popup,
    PopupMap,
    PopupUnmap,
    PopupEnd,
    Menu,
    MenuByGeometry,
    /// A grab was taken, and refused; a popup was dismissed, and a press dismissed some.
    Grab,
    Refusal,
    Dismissal,
    Outside,
    /// A surface got a scale, and a window with one above 1 is in a frame.
    Scale,
    Scaled,
    /// What a commit changes was damaged in both kinds of coordinates, and by more than are read
    /// one by one.
    BothDamages,
    MuchDamage,
    /// A scale wasn't above 0, a scale didn't divide a buffer's sides, and a request was newer than
    /// its object.
    BadScale,
    BadSize,
    TooNew,
    /// A popup was placed anew: told so, before its first commit, and dismissed.
    Reposition,
    RepositionOfFresh,
    RepositionOfDismissed,
    /// Several such were acknowledged at once, one was put in force while the popup is mapped, and
    /// before that, and some were forgotten.
    Together,
    InForce,
    InForceBefore,
    Forgotten,
    /// A popup didn't fit into the output where it was placed, and slid into it.
    Slide,
    /// A positioner was incomplete, and was asked for what has no effect.
    Incomplete,
    WithoutEffect,
}

/// How often each of them happened.
pub(crate) type Tally = [u32; 55];

pub(crate) const NOTHING: Tally = [0; 55];

impl World {
    pub(crate) fn count(&mut self, deed: Deed) {
        if let Some(count) = self.tally.get_mut(deed as usize) {
            *count = count.saturating_add(1);
        }
    }

    /// What was counted of it doesn't count.
    pub(crate) fn forget_deed(&mut self, deed: Deed) {
        if let Some(count) = self.tally.get_mut(deed as usize) {
            *count = 0;
        }
    }
}

/// Adds what happened in one play to what happened in others.
pub(crate) fn add(all: &mut Tally, one: &Tally) {
    for (sum, more) in all.iter_mut().zip(one) {
        *sum = sum.saturating_add(*more);
    }
}

/// How often something happened.
pub(crate) fn count_of(tally: &Tally, deed: Deed) -> u32 {
    tally.get(deed as usize).copied().unwrap_or(0)
}

/// The first that didn't happen as often as is said beside it, and how often it did.
pub(crate) fn first_missing(tally: &Tally, least: &[(Deed, u32)]) -> Option<(Deed, u32)> {
    for (deed, times) in least {
        let count = count_of(tally, *deed);
        if count < *times {
            return Some((*deed, count));
        }
    }
    None
}
