//! The number of a wl_buffer determines it, whatever happened (wayland.xml, wl_buffer and
//! wl_surface.attach). Two buffers of the same number that a client attached to its surfaces are
//! the same. So is a wl_buffer of that number that it still has. Each law is a function that
//! promises it.

ghost use Rattle.law_desktop.specs.OneBuffer.{ArrivalHasOneBuffer};
ghost use Rattle.law_desktop.specs.OneBuffer.{HappensKeepsOneBuffer, RunHasOneBuffer};

/// A client that has just connected has one buffer of each number, since it attached none.
pub fn arrival_has_one_buffer()
    ensures { ArrivalHasOneBuffer }
{}

/// Whatever happens leaves each client one buffer of each number.
pub fn happens_keeps_one_buffer()
    ensures { HappensKeepsOneBuffer }
{}

/// Whatever happens from a desktop without clients on, each client has one buffer of each number.
pub fn run_has_one_buffer()
    ensures { RunHasOneBuffer }
{}
