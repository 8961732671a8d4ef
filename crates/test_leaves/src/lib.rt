//! Tests of what knows no clients. They are about regions, stores and painting, about surfaces by
//! themselves and in trees, and about xdg_surfaces, toplevels, popups and positioners. They are
//! also about the pointer and what it hits, and about allocations that are refused.
//!
//! Begin with `regions`, whose tables the others are like.
#![tactic(auto)]

#[cfg(test)]
mod blending;
#[cfg(test)]
mod calls;
#[cfg(test)]
mod children;
#[cfg(test)]
mod combs;
#[cfg(test)]
mod damage;
#[cfg(test)]
mod family;
#[cfg(test)]
mod held;
#[cfg(test)]
mod hits;
#[cfg(test)]
mod images;
#[cfg(test)]
mod numbers;
#[cfg(test)]
mod painting;
#[cfg(test)]
mod pictures;
#[cfg(test)]
mod places;
#[cfg(test)]
mod pointer;
#[cfg(test)]
mod popups;
#[cfg(test)]
mod positioners;
#[cfg(test)]
mod regions;
#[cfg(test)]
mod repaint;
#[cfg(test)]
mod repositions;
#[cfg(test)]
mod scenes;
#[cfg(test)]
mod shells;
#[cfg(test)]
mod stacked;
#[cfg(test)]
mod state_cases;
#[cfg(test)]
mod states;
#[cfg(test)]
mod stores;
#[cfg(test)]
mod subsurfaces;
#[cfg(test)]
mod support;
#[cfg(test)]
mod surfaces;
#[cfg(test)]
mod trees;
#[cfg(test)]
mod two;
#[cfg(test)]
mod wholes;
#[cfg(test)]
mod windows;
