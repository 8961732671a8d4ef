//! The lines of a recording and of a report, the side files and ranges of stores that lines name,
//! and images. Begin with [`Line`] and [`parse`], then [`write_line`]. Playing a recording is left
//! to wl_replay, and serving clients to wl_server.
#![tactic(auto)]

mod differing;
mod error;
mod hex;
mod image;
mod line;
mod lines;
mod name;
mod numbers;
mod place;
mod pointer;
mod range;
mod recorder;
mod recording;
mod report;
mod roster;
mod side;
mod word;
mod writing;

pub use differing::difference;
pub use error::{ReplayError, Summary};
pub use image::write_image;
pub use line::{Line, is_comment, parse};
pub use lines::{LINE_LIMIT, LineError, read_line};
pub use numbers::{number, pressed_of, signed};
pub use place::Place;
pub use pointer::{PointerLine, pointer_line};
pub use range::{StoreRange, next_range};
pub use recorder::{MAX_LINES, Recorder};
pub use recording::Recording;
pub use report::{
    write_client, write_end, write_frame, write_full, write_none, write_nostore, write_outside,
    write_to,
};
pub use roster::Roster;
pub use side::{SideFault, SideFiles};
pub use word::{is_blank, next_word};
pub use writing::{PIECE_LIMIT, write_last_line, write_line, written_is_read};
