//! Tests of recordings, and of the program: what it says and how it ends.
#![tactic(auto)]

#[cfg(test)]
mod files;
#[cfg(test)]
mod replay;
#[cfg(test)]
mod served;
#[cfg(test)]
mod serving;
#[cfg(test)]
mod support;
#[cfg(test)]
mod tests;
