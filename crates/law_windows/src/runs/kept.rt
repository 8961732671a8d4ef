//! The laws of the windows that are kept of the output, when those stacked with one toplevel change
//! (xdg-shell.xml, xdg_surface and xdg_popup). Each law is a function that promises it.

ghost use Rattle.law_windows.specs.Runs.Kept.{RunComes, RunGoes, RunRises, RunStays, RunWasTold, StackedAreKept};

/// Values that stand for windows are kept for them, so a toplevel is found by them.
pub fn stacked_are_kept()
    ensures { StackedAreKept }
{}

/// The windows kept of a toplevel tell those that it had, and those that it has now are numbered.
pub fn run_was_told()
    ensures { RunWasTold }
{}

/// If it stood before, or doesn't stand, its windows take the place of those that it had.
pub fn run_stays()
    ensures { RunStays }
{}

/// If it is raised, they come on top.
pub fn run_rises()
    ensures { RunRises }
{}

/// If it doesn't stand any more, they go.
pub fn run_goes()
    ensures { RunGoes }
{}

/// If it was mapped, they come on top.
pub fn run_comes()
    ensures { RunComes }
{}
