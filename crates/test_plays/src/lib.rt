//! Tests of the session by chance: random lists of steps of clients, the pointer and the server. A
//! viewer copies only what each frame painted. It has to see what a slow painter paints, by a
//! second reading of what clients asked for.
//!
//! Begin with `plays`, then `desktop`, which is that reading.
#![tactic(auto)]

#[cfg(test)]
mod acting;
#[cfg(test)]
mod damaging;
#[cfg(test)]
mod desktop;
#[cfg(test)]
mod drawing;
#[cfg(test)]
mod joining;
#[cfg(test)]
mod links;
#[cfg(test)]
mod opening;
#[cfg(test)]
mod painter;
#[cfg(test)]
mod placing;
#[cfg(test)]
mod plays;
#[cfg(test)]
mod pointing;
#[cfg(test)]
mod popups;
#[cfg(test)]
mod requests;
#[cfg(test)]
mod serving;
#[cfg(test)]
mod tally;
#[cfg(test)]
mod telling;
#[cfg(test)]
mod viewer;
