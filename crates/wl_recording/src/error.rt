//! What a replay answers.

ghost use Rattle.std.specs.Prelude.{◌≡◌};
ghost use Rattle.wl_recording.specs.declared.error.ReplayError.TheVariants.{Memory};
ghost use Rattle.wl_recording.specs.Numbers.{error_number};

use std::alloc::AllocError;
use thiserror::Error;

/// What a recording held.
#[derive(Clone, Copy, Debug, PartialEq, Eq)]
pub struct Summary {
    /// How many lines it had, comments too.
    pub lines: u32,
    /// How many frames were shown.
    pub frames: u32,
    /// How many clients connected.
    pub clients: u32,
}

/// Why a recording wasn't played to its end. Lines are counted from 1.
#[derive(Clone, Copy, Debug, PartialEq, Eq, Error)]
pub enum ReplayError {
    /// The recording couldn't be read.
    #[error("read failed")]
    Read,
    /// The report or the images couldn't be written.
    #[error("write failed")]
    Write,
    /// This isn't a line of a recording.
    #[error("bad line {0}")]
    BadLine(u32),
    /// The side file that this line asks for isn't there, or failed.
    #[error("side file failed at line {0}")]
    Side(u32),
    /// Memory ran out.
    #[error("out of memory")]
    Memory,
}

impl ReplayError {
    /// Its number, 1 to 5, in the order of the errors.
    pub fn number(self) -> u8
        ensures { result ≡ error_number self }
    {
        match self {
            ReplayError::Read => 1,
            ReplayError::Write => 2,
            ReplayError::BadLine(_) => 3,
            ReplayError::Side(_) => 4,
            ReplayError::Memory => 5,
        }
    }
}

impl From<AllocError> for ReplayError {
    ghost from_gives = { λ _ e. e ≡ Memory };

    fn from(_error: AllocError) -> ReplayError {
        ReplayError::Memory
    }
}
