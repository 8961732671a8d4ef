//! The objects that a request names.

use crate::Interface;

/// An argument that names an object.
#[derive(Clone, Copy, Debug, PartialEq, Eq)]
pub struct ObjectArg {
    /// The id of the object; 0 for the null object.
    pub id: u32,
    /// The interface that the object has to have.
    pub interface: Interface,
    /// The object may be null.
    pub nullable: bool,
}

impl ObjectArg {
    ghost use Rattle.std.specs.Prelude.{◌≡◌, true, false};

    pub(crate) fn new(id: u32, interface: Interface) -> ObjectArg
        ensures { result ≡ record { id = id; interface = interface; nullable = false } }
    {
        ObjectArg {
            id,
            interface,
            nullable: false,
        }
    }

    pub(crate) fn nullable(id: u32, interface: Interface) -> ObjectArg
        ensures { result ≡ record { id = id; interface = interface; nullable = true } }
    {
        ObjectArg {
            id,
            interface,
            nullable: true,
        }
    }
}

/// An argument that names an object to be made.
#[derive(Clone, Copy, Debug, PartialEq, Eq)]
pub struct NewId {
    pub id: u32,
    /// The interface of the object. `None` if the request names it by a string, as
    /// wl_registry.bind, or if it isn't served, as that of wl_seat.get_keyboard.
    pub interface: Option<Interface>,
}
