//! Tests of popups in a session, by tables of what is done in one and what is wanted of it. They
//! are about where popups stand, what is painted again as they come, change and go, and what is
//! told of them. Others are about how they are placed anew, how their requests are refused, and how
//! they grab and are dismissed.
#![tactic(auto)]

#[cfg(test)]
mod grabs;
#[cfg(test)]
mod outside;
#[cfg(test)]
mod parts;
#[cfg(test)]
mod pointing;
#[cfg(test)]
mod popups;
#[cfg(test)]
mod refused;
#[cfg(test)]
mod repositions;
#[cfg(test)]
mod rivals;
#[cfg(test)]
mod stacked;
#[cfg(test)]
mod submenus;
#[cfg(test)]
mod support;
