//! How often turns begin, as a word of the command line.

ghost use Rattle.std.specs.Prelude.{◌≡◌, ◌≤◌, option_map};
ghost use Rattle.wl_program.specs.Rate.{rate_of};

use wl_recording::number;

/// The greatest rate.
const MAX_RATE: u32 = 1000;

/// How often turns begin at most: 1 to 1,000 times a second.
#[derive(Clone, Copy, Debug, PartialEq, Eq)]
pub struct Rate {
    pub hertz: u32,
    ghost within: { (1 ≤ hertz) × (hertz ≤ 1000) },
}

impl Rate {
    /// A number from 1 to 1,000. Leading zeros are free.
    pub fn parse(text: &str) -> Option<Rate>
        ensures { option_map (λ rate. rate.hertz) result ≡ rate_of text.now }
    {
        let hertz = number(text.as_bytes())?;
        if hertz < 1 || hertz > MAX_RATE {
            return None;
        }
        Some(Rate { hertz })
    }
}
