//! The laws of the windows stacked with a toplevel under other names of their surfaces
//! (wayland.xml, wl_subsurface; xdg-shell.xml, xdg_popup). Each law is a function that promises it.

ghost use Rattle.law_windows.specs.Runs.Names.{PlacedRootsHaveRuns, RootsHeedNoNames, RunsHeedNoNames};

/// Under other names the trees of several roots have the same windows, told by the names of their
/// surfaces and roots.
pub fn roots_heed_no_names()
    ensures { RootsHeedNoNames }
{}

/// Under other names a toplevel has the same windows stacked with it.
pub fn runs_heed_no_names()
    ensures { RunsHeedNoNames }
{}

/// The trees of roots that are placed there, by the names of their surfaces, have the toplevel's
/// windows.
pub fn placed_roots_have_runs()
    ensures { PlacedRootsHaveRuns }
{}
