//! Laws of the plain desktop, each the contract of an empty function.

ghost use Rattle.wl_session.specs.Laws.{OthersStay, OutputStays};
ghost use Rattle.wl_session.specs.StoreWrites.{PromisesAreEnough, WriteHidesNothing};
ghost use Rattle.wl_session.specs.Seen.{SeenIsScratch, StaysRight};
ghost use Rattle.wl_session.specs.Unmarked.{UnmarkedStays};

/// While nobody points, whatever happens but a frame leaves each other client as it was, with its
/// popups and the places and order of its toplevels. It holds of each step that leaves the pointer
/// alone. It holds of a motion and a button for each client without wl_pointers, if no client holds
/// a grab.
pub fn others_stay()
    ensures { OthersStay }
{}

/// Whatever happens leaves the output as it was.
pub fn output_stays()
    ensures { OutputStays }
{}

/// A point of the output that a step doesn't mark is painted from nothing as before, if no window
/// of a client that hid a change covers it (wayland.xml, wl_surface.damage). This holds whichever
/// windows are shown.
pub fn unmarked_stays()
    ensures { UnmarkedStays }
{}

/// In whatever may happen, one message at a time, a client that keeps its promises hides no change
/// (wayland.xml, wl_surface.damage and wl_buffer.release).
pub fn promises_are_enough()
    ensures { PromisesAreEnough }
{}

/// A client whose busy buffers keep their colours when a store is written hides no change
/// (wayland.xml, wl_buffer.release).
pub fn write_hides_nothing()
    ensures { WriteHidesNothing }
{}

/// A session that is right except for some clients stays so, except for these and those that break
/// a promise. It is right if each point of the output is one of these:
/// - a point that is to be painted again;
/// - a point that a window of such a client covers;
/// - a point that the last frame has as the desktop painted from nothing.
pub fn stays_right()
    ensures { StaysRight }
{}

/// Whatever happens from a desktop without clients on, one event at a time, a viewer copies only
/// what each frame reported. At each frame it holds every window, subsurfaces and popups too,
/// painted from nothing in stacking order. The exception is where a window covers it of a client
/// that broke its promises.
pub fn seen_is_scratch()
    ensures { SeenIsScratch }
{}
