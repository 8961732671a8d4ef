//! How the program ends.

ghost use Rattle.std.specs.Prelude.{◌≡◌};
ghost use Rattle.wl_program.specs.Status.{fault_by, status_of};

use thiserror::Error;
use wl_recording::ReplayError;

/// The exit status of the program.
#[derive(Clone, Copy, Debug, PartialEq, Eq)]
pub enum Status {
    Done = 0,
    Failed = 1,
    Usage = 2,
    BadLine = 3,
    Memory = 4,
}

/// Why the program failed. Lines are counted from 1.
#[derive(Clone, Copy, Debug, PartialEq, Eq, Error)]
pub enum Fault {
    #[error("read failed")]
    Read,
    #[error("write failed")]
    Write,
    #[error("side file failed at line {0}")]
    Side(u32),
    #[error("bind failed")]
    Bind,
    #[error("bad rate: it is a number from 1 to 1000")]
    Rate,
    #[error("bad size")]
    Size,
    #[error("bad line {0}")]
    BadLine(u32),
    #[error("out of memory")]
    Memory,
}

impl Fault {
    /// How the program ends when it failed so.
    pub fn status(self) -> Status
        ensures { result ≡ status_of self }
    {
        match self {
            Fault::Read | Fault::Write | Fault::Side(_) | Fault::Bind => Status::Failed,
            Fault::Rate | Fault::Size => Status::Usage,
            Fault::BadLine(_) => Status::BadLine,
            Fault::Memory => Status::Memory,
        }
    }

    /// Says why on standard error.
    pub fn report(self, rt: &impl Eprint) -> Status
        ensures { result ≡ status_of self }
    {
        let _ = eprintln!(rt; "wlframe: {self}");
        self.status()
    }
}

impl From<ReplayError> for Fault {
    ghost from_gives = { λ error fault. fault ≡ fault_by error };

    fn from(error: ReplayError) -> Fault {
        match error {
            ReplayError::Read => Fault::Read,
            ReplayError::Write => Fault::Write,
            ReplayError::BadLine(number) => Fault::BadLine(number),
            ReplayError::Side(number) => Fault::Side(number),
            ReplayError::Memory => Fault::Memory,
        }
    }
}
