//! What can be wrong with a request.

use thiserror::Error;
use wl_wire::ArgError;

/// Why a request can't be decoded.
#[derive(Clone, Copy, Debug, PartialEq, Eq, Error)]
pub enum ProtoError {
    /// The interface has no request of this opcode at this version.
    #[error("no such method")]
    NoMethod = 1,
    /// The body doesn't spell the arguments of the request.
    #[error("bad arguments")]
    BadArgs = 2,
}

impl From<ArgError> for ProtoError {
    ghost use Rattle.std.specs.Prelude.{◌≡◌};
    ghost use Rattle.wl_proto.specs.declared.error.ProtoError.TheVariants.{BadArgs};

    ghost from_gives = { λ _ e. e ≡ BadArgs };

    fn from(_e: ArgError) -> ProtoError {
        ProtoError::BadArgs
    }
}
