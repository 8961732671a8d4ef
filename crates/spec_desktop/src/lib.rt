//! The plain desktop, in definitions: a compositor in plain values, which all contracts above speak
//! of. Begin with specs/Desktop.antt, then Demand, what a message asks, and Happens. Its laws are
//! left to law_desktop.
//!
//! The definitions say what a client's messages ask, what they are refused with, and what the
//! client is told. They say what stands in stacking order, what a point hits, and what the pointer
//! does. They also say which points a step marks to be painted again, and what the desktop painted
//! from nothing looks like. The code here has only the types of these values, and what steps
//! answer.
#![tactic(auto)]

ghost use Rattle.spec_desktop.specs.HitLaws.{TopmostIsHit};

mod actions;
mod answers;
mod buffers;
mod cause;
mod refusals;

pub use actions::Action;
pub use answers::{ClientNo, ConnectError, Done, Fed, Stored};
pub use buffers::{Place, ShmBuffer};
pub use cause::Cause;
pub use refusals::{ErrorCode, Refusal};

/// The topmost window that takes a point's input is the one that it hits.
pub fn topmost_is_hit()
    ensures { TopmostIsHit }
{}
