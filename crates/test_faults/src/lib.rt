//! Tests of a session where memory is refused and where streams are broken: what was done is told,
//! and nobody else is hurt.
#![tactic(auto)]

#[cfg(test)]
mod acts;
#[cfg(test)]
mod broken;
#[cfg(test)]
mod grabbing;
#[cfg(test)]
mod known;
#[cfg(test)]
mod memory;
#[cfg(test)]
mod menus;
#[cfg(test)]
mod recorded;
#[cfg(test)]
mod refused;
#[cfg(test)]
mod rivals;
#[cfg(test)]
mod runs;
#[cfg(test)]
mod scenes;
#[cfg(test)]
mod settling;
#[cfg(test)]
mod slow;
