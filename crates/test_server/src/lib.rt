//! Tests of the server and of its hub, over hubs in memory and over sockets, and of the lines of a
//! pointer file.
#![tactic(auto)]

#[cfg(test)]
mod chance;
#[cfg(test)]
mod drawing;
#[cfg(test)]
mod drips;
#[cfg(test)]
mod hub;
#[cfg(test)]
mod looking;
pub mod memory;
#[cfg(test)]
mod motions;
#[cfg(test)]
mod own;
#[cfg(test)]
mod pointer;
#[cfg(test)]
mod recordings;
#[cfg(test)]
mod serving;
#[cfg(test)]
mod slow;
#[cfg(test)]
mod sockets;
#[cfg(test)]
mod turns;
#[cfg(test)]
mod updates;
#[cfg(test)]
mod writers;
