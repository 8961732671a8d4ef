//! Laws of the windows that are kept: they go on standing for those of the desktop.

ghost use Rattle.wl_scene.specs.Moved.{MovedTreesAreAsLong, TreesAreMoved};
ghost use Rattle.wl_scene.specs.StackedLaws.{BothAreStacked, FirstAreStacked, StackedAreTold, StackedClientGone, StackedPushed, StackedRemoved, StackedRenumbered, StackedReplaced, StackedRunGone, StackedRunRaised, RunIsStacked, RunIsThere};

/// Of values that stand for windows one above another, the first stand for the first windows, the
/// others for the others.
pub fn first_are_stacked()
    ensures { FirstAreStacked }
{}

/// Values that stand for these windows and values that stand for those, one above another, stand
/// for both.
pub fn both_are_stacked()
    ensures { BothAreStacked }
{}

/// Values that stand for windows still do so by other numbers that are the same for their
/// toplevels, roots and surfaces.
pub fn stacked_renumbered()
    ensures { StackedRenumbered }
{}

/// A window stacked with a toplevel is kept if the desktop has one.
pub fn run_is_there()
    ensures { RunIsThere }
{}

/// The windows kept of a toplevel stand for those stacked with it.
pub fn run_is_stacked()
    ensures { RunIsStacked }
{}

/// The windows kept of a client tell them by the numbers of their surfaces.
pub fn stacked_are_told()
    ensures { StackedAreTold }
{}

/// The windows kept still stand for the desktop's after others take the place of a toplevel's.
pub fn stacked_replaced()
    ensures { StackedReplaced }
{}

/// They still do after the windows stacked with a toplevel come on top.
pub fn stacked_pushed()
    ensures { StackedPushed }
{}

/// They still do after the windows stacked with a toplevel go.
pub fn stacked_removed()
    ensures { StackedRemoved }
{}

/// After a toplevel's windows go, those kept stand for the windows that were below and above them.
pub fn stacked_run_gone()
    ensures { StackedRunGone }
{}

/// They still do after the windows of a client go.
pub fn stacked_client_gone()
    ensures { StackedClientGone }
{}

/// They still do after the windows stacked with a toplevel come on top of the others.
pub fn stacked_run_raised()
    ensures { StackedRunRaised }
{}

/// A tree has the same windows wherever it is placed, but for where they stand.
pub fn trees_are_moved()
    ensures { TreesAreMoved }
{}

/// A tree has equally many windows wherever it is placed.
pub fn moved_trees_are_as_long()
    ensures { MovedTreesAreAsLong }
{}
