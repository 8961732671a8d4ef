//! Tests of the windows of a session: what is shown, at which scale, which buffers are released,
//! and what the pointer tells and does.
#![tactic(auto)]

#[cfg(test)]
mod frames;
#[cfg(test)]
mod hovering;
#[cfg(test)]
mod places;
#[cfg(test)]
mod pressing;
#[cfg(test)]
mod releases;
#[cfg(test)]
mod scales;
#[cfg(test)]
mod stacked;
#[cfg(test)]
mod subsurfaces;
#[cfg(test)]
mod toplevels;
