//! What the tests of a session share: rows of what is done in one and what is wanted of it, and
//! what many of them begin with. The product doesn't use it.
#![tactic(auto)]

pub mod asks;
pub mod begun;
pub mod events;
pub mod rows;
mod words;
