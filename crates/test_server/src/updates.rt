//! What a viewer reads: updates, whose runs it copies into a picture.

/// What is left of the bytes that a viewer took.
#[derive(Clone, Copy)]
pub(crate) struct Stream<'a> {
    pub(crate) rest: &'a [u8],
}

/// The pixels of row `y` from column `x` on.
#[derive(Clone, Copy)]
pub(crate) struct Run<'a> {
    pub(crate) x: u32,
    pub(crate) y: u32,
    /// Four bytes of each.
    pub(crate) pixels: &'a [u8],
}

impl<'a> Stream<'a> {
    /// So many bytes. None where fewer are left.
    fn take(&mut self, count: usize) -> Option<&'a [u8]> {
        let front = self.rest.get(..count)?;
        self.rest = self.rest.get(count..)?;
        Some(front)
    }

    /// Passes over a text. None where something else is there.
    pub(crate) fn skip(&mut self, text: &[u8]) -> Option<()> {
        self.rest = self.rest.strip_prefix(text)?;
        Some(())
    }

    /// A number of at most ten digits, with this byte behind it.
    fn number(&mut self, end: u8) -> Option<u32> {
        let mut number = 0_u32;
        for _ in 0..11 {
            let (byte, rest) = self.rest.split_first()?;
            self.rest = rest;
            if *byte == end {
                return Some(number);
            }
            let digit = char::from(*byte).to_digit(10)?;
            number = number.saturating_mul(10).saturating_add(digit);
        }
        None
    }

    /// A number of four bytes, the least first.
    fn word(&mut self) -> Option<u32> {
        match self.take(4)? {
            &[a, b, c, d] => Some(u32::from_le_bytes([a, b, c, d])),
            _ => None,
        }
    }

    /// The time of an update, and how many runs it has.
    pub(crate) fn head(&mut self) -> Option<(u32, u32)> {
        self.skip(b"frame ")?;
        let time = self.number(b' ')?;
        let count = self.number(b'\n')?;
        Some((time, count))
    }

    pub(crate) fn run(&mut self) -> Option<Run<'a>> {
        let x = self.word()?;
        let y = self.word()?;
        let w = usize::try_from(self.word()?).ok()?;
        let pixels = self.take(w.saturating_mul(4))?;
        Some(Run { x, y, pixels })
    }
}

/// Copies a run into a picture of this width. None where it lies outside.
pub(crate) fn copy(picture: &mut [u8], width: u32, run: Run) -> Option<()> {
    let point = usize::try_from(run.y.saturating_mul(width).saturating_add(run.x)).ok()?;
    let from = point.saturating_mul(4);
    let part = picture.get_mut(from..from.saturating_add(run.pixels.len()))?;
    if part.len() == run.pixels.len() {
        part.copy_from_slice(run.pixels);
    }
    Some(())
}

/// Whether a picture, of blue, green, red and 255, shows an image, of red, green and blue.
pub(crate) fn shows(picture: &[u8], image: &[u8]) -> bool {
    for (pixel, color) in picture.chunks_exact(4).zip(image.chunks_exact(3)) {
        let is_shown = match (pixel, color) {
            (&[blue, green, red, last], &[r, g, b]) => (red, green, blue, last) == (r, g, b, 255),
            _ => false,
        };
        if !is_shown {
            return false;
        }
    }
    picture.len() / 4 == image.len() / 3
}
