//! The windows of a tree of surfaces under other names.

ghost use Rattle.law_windows.specs.RenamedWindows.{ShowsThoseThere, TellsTreesByName, TreesHeedNoNames};

/// Under other names the tree of a surface has the same windows, each under the other name of its
/// surface (wayland.xml, wl_subsurface).
pub fn trees_heed_no_names()
    ensures { TreesHeedNoNames }
{}

/// What is told of the windows of a tree under other names is the same, but for the names, and
/// whoever owns them (wayland.xml, wl_subsurface).
pub fn tells_trees_by_name()
    ensures { TellsTreesByName }
{}

/// Each window of a tree is of a surface that is there (wayland.xml, wl_surface).
pub fn shows_those_there()
    ensures { ShowsThoseThere }
{}
