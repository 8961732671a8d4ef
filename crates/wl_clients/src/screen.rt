//! One client at the desk: its messages served, its toplevels and their windows on the stack, and
//! what of the output is marked to be painted again.

mod feeding;
mod frames;
mod laws;
mod marking;
mod moving;
mod raising;
mod releasing;
mod roots;
mod run;
mod screens;
mod staying;
mod touching;

pub use feeding::{Taken, bare, sent, store};
pub use screens::Screen;
pub use touching::touched_by;
