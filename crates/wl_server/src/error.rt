//! Why a turn isn't reported.

ghost use Rattle.std.specs.Prelude.{◌≡◌};

use std::io;
use thiserror::Error;

/// A turn wasn't reported.
#[derive(Clone, Copy, Debug, PartialEq, Eq, Error)]
pub enum TurnError {
    /// The writer of the report, of the images or of the recording failed.
    #[error("write failed")]
    Write = 1,
}

pub(crate) fn write_failed(_error: io::Error) -> TurnError
    ensures { result ≡ TurnError.Write }
{
    TurnError::Write
}
