//! What the tests of the other crates share: an allocator that refuses, and readers and writers
//! over
//! memory that fail or go in small pieces at a chosen call. The product doesn't use it.
#![tactic(auto)]

mod reader;
mod reading;
mod refusing;
mod writer;

pub use reader::FaultyReader;
pub use refusing::Refusing;
pub use writer::FaultyWriter;
