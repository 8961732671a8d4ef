//! The laws of the plain desktop, a module for each subject. Each law is a function that does
//! nothing and promises it. Begin with [`desktop`], then [`invariants`] and [`pointed`]. Laws of
//! the windows that are kept of the output are left to law_windows.
//!
//! They say what holds of every desktop that comes about, and what a step leaves, marks and
//! changes. They put the pointer aside, and join the numbers under which a client's surfaces are
//! kept with the ids by which the client names them.
#![tactic(auto)]

pub mod desktop;
pub mod invariants;
pub mod named;
pub mod named_popups;
pub mod ordered;
pub mod owning;
pub mod pointed;
pub mod toplevels;
pub mod ways;
