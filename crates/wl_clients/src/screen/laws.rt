//! The laws by which a message is served, and popups are dismissed.

ghost use Rattle.wl_clients.specs.Laws.{MessageLaws, ReleaseLaws};

use law_desktop::named_popups::rising_named;
use law_desktop::ordered::{demands_keep_ordered, messages_keep_ordered, ordered_has_order};
use law_desktop::toplevels::marks_by_trees_between;
use law_desktop::ways::{
    ended_is_gone, gone_marks_least, gone_marks_most, gone_windows, messages_lead_so, struck_marks,
    twice_marks,
};
use law_windows::grabs::{dismissal_marks, dismissed_stays_shown, dismissed_windows_go};

/// They hold. Nothing runs for them.
pub(crate) fn message_laws()
    ensures { MessageLaws }
{
    messages_lead_so();
    ended_is_gone();
    gone_windows();
    gone_marks_least();
    gone_marks_most();
    twice_marks();
    struck_marks();
    marks_by_trees_between();
    ordered_has_order();
    demands_keep_ordered();
    messages_keep_ordered();
    rising_named();
}

/// So do the laws by which popups with a grab are dismissed.
pub(crate) fn release_laws()
    ensures { ReleaseLaws }
{
    dismissed_windows_go();
    dismissed_stays_shown();
    dismissal_marks();
    ordered_has_order();
}
