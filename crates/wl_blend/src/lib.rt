//! Colours laid over colours: one pixel, and runs of pixels side by side. Begin with [`blend`], the
//! formula of one pixel, then [`blend_run`]. Which pixels lie over which is left to wl_paint.
#![tactic(auto)]

mod color;
mod formula;
mod four;
mod lanes;
mod run;

pub use color::Rgb;
pub use formula::blend;
pub use run::{blend_run, is_opaque_run};
