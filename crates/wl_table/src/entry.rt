//! The object under an id.

use std::alloc::{AllocError, AllocFailed};
use thiserror::Error;
use wl_proto::Interface;

/// The object under an id.
#[derive(Clone, Copy, Debug, PartialEq, Eq)]
pub struct Entry {
    /// The interface of the object.
    pub interface: Interface,
    /// Its version: the one that it was bound at, or that of the object that made it.
    pub version: u32,
    /// The number of what it stands for, among those of its interface.
    pub target: usize,
}

/// Why an object isn't entered.
#[derive(Clone, Copy, Debug, PartialEq, Eq, Error)]
pub enum TableError {
    /// The id is 0 or above 0xfeffffff.
    #[error("no id of a client's object")]
    BadId = 1,
    /// Another object has the id.
    #[error("the id is in use")]
    InUse = 2,
    /// There are 8,192 objects already.
    #[error("too many objects")]
    TooMany = 3,
    /// There is no memory for it.
    #[error("out of memory")]
    Memory = 4,
}

impl From<AllocError> for TableError {
    ghost use Rattle.std.specs.Prelude.{◌≡◌};
    ghost use Rattle.wl_table.specs.declared.entry.TableError.TheVariants.{Memory};

    ghost from_gives = { λ _ e. e ≡ Memory };

    fn from(_e: AllocError) -> TableError {
        TableError::Memory
    }
}

impl<T: Drop> From<AllocFailed<T>> for TableError {
    ghost use Rattle.std.specs.Prelude.{◌≡◌};
    ghost use Rattle.wl_table.specs.declared.entry.TableError.TheVariants.{Memory};

    ghost from_gives = { λ _ e. e ≡ Memory };

    fn from(_e: AllocFailed<T>) -> TableError {
        TableError::Memory
    }
}
