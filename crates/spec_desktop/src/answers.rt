//! What the calls of a desk answer.

use crate::cause::Cause;
use thiserror::Error;
use wl_store::StoreError;

/// A client's number: 1 to 32, the lowest free one first. Any other number is nobody's.
pub type ClientNo = u32;

/// How a client fares.
#[derive(Clone, Copy, Debug, PartialEq, Eq)]
pub enum Fed {
    /// It goes on.
    Alive,
    /// It ended, and why.
    Ended(Cause),
    /// No client has the number.
    NoClient,
}

impl Fed {
    ghost use Rattle.std.specs.Prelude.{◌≡◌};
    ghost use Rattle.spec_desktop.specs.Act.{fed_of};

    /// How a client fares that ended for this cause, if for any.
    pub fn of(ended: Option<Cause>) -> Fed
        ensures { result ≡ fed_of ended }
    {
        match ended {
            None => Fed::Alive,
            Some(cause) => Fed::Ended(cause),
        }
    }
}

/// What became of bytes for a store.
#[derive(Clone, Copy, Debug, PartialEq, Eq)]
pub enum Stored {
    /// They are there.
    Done,
    /// No living client has the number.
    NoClient,
    /// The client has no such store.
    NoStore,
    /// They don't lie in the store.
    OutOfRange,
}

impl Stored {
    ghost use Rattle.std.specs.Prelude.{◌≡◌, ℕ, Option};
    ghost use Rattle.wl_store.specs.declared.stores.StoreError.{StoreError};
    ghost use Rattle.spec_desktop.specs.Stored.{stored};
    ghost use Rattle.spec_desktop.specs.Act.{answer_of};

    /// The answer to a write of a store.
    pub fn of(written: Result<(), StoreError>) -> Stored
        ensures { (refusal : Option StoreError) → written ≡ stored refusal → result ≡ answer_of refusal }
    {
        match written {
            Ok(()) => Stored::Done,
            Err(StoreError::OutOfRange) => Stored::OutOfRange,
            Err(_) => Stored::NoStore,
        }
    }
}

/// What the call of a step answers.
#[derive(Clone, Copy, Debug, PartialEq, Eq)]
pub enum Done {
    Connect(Result<ClientNo, ConnectError>),
    Feed(Fed),
    Store(Stored),
    Gone(bool),
    Tick,
    Sent(bool),
    Close(bool),
    Motion,
    Button,
}

/// Why no client could connect.
#[derive(Clone, Copy, Debug, PartialEq, Eq, Error)]
pub enum ConnectError {
    /// All 32 numbers are taken.
    #[error("all 32 client numbers are taken")]
    Full = 1,
    /// There is no memory for another client.
    #[error("out of memory")]
    Memory = 2,
}
