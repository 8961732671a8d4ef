//! Tests of the crates between bytes and objects: messages, requests and events, the objects of a
//! client, and what its wl_pointers are told; with allocations that are refused.
#![tactic(auto)]

#[cfg(test)]
mod events;
#[cfg(test)]
mod memory;
#[cfg(test)]
mod messages;
#[cfg(test)]
mod objects;
#[cfg(test)]
mod pointers;
#[cfg(test)]
mod requests;
#[cfg(test)]
mod words;
