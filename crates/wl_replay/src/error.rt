//! Why a step isn't taken.

ghost use Rattle.std.specs.Prelude.{◌≡◌};

use std::io;

/// Why a line's step wasn't taken, or wasn't reported.
#[derive(Clone, Copy, Debug, PartialEq, Eq)]
pub(crate) enum StepError {
    Write,
    /// A side file isn't there or failed.
    Side,
    Memory,
}

pub(crate) fn write_failed(_error: io::Error) -> StepError
    ensures { result ≡ StepError.Write }
{
    StepError::Write
}
