//! The first message of what came from a client.

use spec_desktop::Refusal;
use wl_proto::Request;

/// How the first message of a client's bytes fares, before its own errors are looked at.
#[derive(Drop)]
pub enum First<'a> {
    /// No whole message is there.
    More,
    /// It is refused, whatever its own errors are.
    Refused(Refusal),
    /// It passed so far.
    Request {
        /// The object that it is sent to.
        object: u32,
        /// The object's version.
        version: u32,
        /// How many bytes the message has, with its header.
        size: usize,
        /// The object's target: the number of what it stands for.
        target: usize,
        request: Request<'a>,
    },
}
