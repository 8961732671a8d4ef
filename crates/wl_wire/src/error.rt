//! What can be wrong with arguments.

use std::alloc::{AllocError, AllocFailed};
use thiserror::Error;

/// Why an argument can't be read.
#[derive(Clone, Copy, Debug, PartialEq, Eq, Error)]
pub enum ArgError {
    /// The bytes end before the argument does.
    #[error("the arguments are too short")]
    Short = 1,
    /// A string without its final NUL.
    #[error("a string has no final NUL")]
    NoNul = 2,
    /// A null string.
    #[error("a string is null")]
    Null = 3,
    /// Bytes are left over.
    #[error("the arguments are too long")]
    Extra = 4,
}

/// Why a message can't be written.
#[derive(Clone, Copy, Debug, PartialEq, Eq, Error)]
pub enum PutError {
    /// The message would have more than 65,532 bytes.
    #[error("the message is too long")]
    TooLong = 1,
    /// There is no memory for it.
    #[error("out of memory")]
    Memory = 2,
}

impl From<AllocError> for PutError {
    ghost use Rattle.std.specs.Prelude.{◌≡◌};
    ghost use Rattle.wl_wire.specs.declared.error.PutError.TheVariants.{Memory};

    ghost from_gives = { λ _ e. e ≡ Memory };

    fn from(_e: AllocError) -> PutError {
        PutError::Memory
    }
}

impl<T: Drop> From<AllocFailed<T>> for PutError {
    ghost use Rattle.std.specs.Prelude.{◌≡◌};
    ghost use Rattle.wl_wire.specs.declared.error.PutError.TheVariants.{Memory};

    ghost from_gives = { λ _ e. e ≡ Memory };

    fn from(_e: AllocFailed<T>) -> PutError {
        PutError::Memory
    }
}
