//! The laws of a client's buffers when several of its surfaces change at once, as when a tree of
//! them is applied (wayland.xml, wl_subsurface). They say whose stores go, and which wl_buffers are
//! released. Each law is a function that promises it.

ghost use Rattle.law_desktop.specs.TreeBuffersLaws.{AfterAllIsAfterThese, LetsGoAlike, ReleasesCommute, ReleasesRise};

/// If two stores lose a use each, it doesn't matter which comes first.
pub fn releases_commute()
    ensures { ReleasesCommute }
{}

/// Two lists of buffers let the same stores go if those that pass a test have the same numbers.
pub fn lets_go_alike()
    ensures { LetsGoAlike }
{}

/// The buffers that surfaces had and that are over let their stores go, whether one looks at all of
/// them or only at some that include these.
pub fn after_all_is_after_these()
    ensures { AfterAllIsAfterThese }
{}

/// The releases are told by wl_buffers in rising order. It is enough to look at some buffers that
/// include each which isn't busy any more.
pub fn releases_rise()
    ensures { ReleasesRise }
{}
