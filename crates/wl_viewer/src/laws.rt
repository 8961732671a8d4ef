//! Laws of what a viewer holds, each the contract of a function that does nothing.

ghost use Rattle.wl_viewer.specs.Laws.{CopiesHold, LinesAreTaken};

/// Whoever copies an update holds the frame at each point that was untold, and what they held
/// before at each other point.
pub fn copies_hold()
    ensures { CopiesHold }
{}

/// A line of at most 64 bytes, its line feed included, is taken as what it asks, wherever the bytes
/// were cut.
pub fn lines_are_taken()
    ensures { LinesAreTaken }
{}
