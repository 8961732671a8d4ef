//! The size of an output, as a word of the command line.

ghost use Rattle.std.specs.Prelude.{◌≡◌, IfSome, option_map, true};
ghost use Rattle.wl_paint.specs.Frame.{is_side};
ghost use Rattle.wl_program.specs.Size.{side_of, size_of};

use wl_paint::MAX_SIDE;
use wl_recording::number;

/// The sides of an output, in pixels: each is 1 to 4,096.
#[derive(Clone, Copy, Debug, PartialEq, Eq)]
pub struct Size {
    pub width: u32,
    pub height: u32,
    ghost wide: { is_side width ≡ true },
    ghost high: { is_side height ≡ true },
}

impl Size {
    /// Two numbers from 1 to 4,096, with the first `x` between. Leading zeros are free.
    pub fn parse(text: &str) -> Option<Size>
        ensures { option_map (λ size. (size.width, size.height)) result ≡ size_of text.now }
    {
        let (width, height) = text.split_once('x')?;
        Some(Size {
            width: side(width.as_bytes())?,
            height: side(height.as_bytes())?,
        })
    }
}

/// A number that a side may be.
fn side(word: &[u8]) -> Option<u32>
    ensures value { result ≡ side_of word.now }
    ensures within { IfSome result (λ side. is_side side ≡ true) }
{
    let side = number(word)?;
    if side < 1 || side > MAX_SIDE {
        return None;
    }
    Some(side)
}
