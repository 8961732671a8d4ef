//! The laws of the toplevel that a tree is stacked with, found by the windows that are shown
//! (xdg-shell.xml, xdg_popup). Each law is a function that promises it.

ghost use Rattle.law_windows.specs.Runs.Lookup.{FindsToplevels, FindsToplevelsInOrder};
ghost use Rattle.law_windows.specs.Runs.Numbers.{FindsByNumbers};

/// If a tree has windows, it is stacked with their toplevel. Else it is stacked with that of its
/// popup's parent, by the parent's windows. If its root is no popup, the root is the toplevel
/// itself.
pub fn finds_toplevels()
    ensures { FindsToplevels }
{}

/// The same holds on each desktop in order, where exactly the mapped toplevels stand.
pub fn finds_toplevels_in_order()
    ensures { FindsToplevelsInOrder }
{}

/// A search among the entries kept for the windows, by the numbers of surfaces, finds the number of
/// what a search among the windows finds.
pub fn finds_by_numbers<K>()
    ensures { FindsByNumbers K }
{}
