//! Tests of a session by tables of what is done in one and what is wanted of it (rows): registries,
//! requests that are accepted, pools, regions and recordings.
#![tactic(auto)]

#[cfg(test)]
mod accepted;
#[cfg(test)]
mod callbacks;
#[cfg(test)]
mod pools;
#[cfg(test)]
mod recordings;
#[cfg(test)]
mod regions;
#[cfg(test)]
mod registry;
