ghost use Rattle.std.specs.Prelude.{◌≡◌, ◌≤◌, min};
ghost use Rattle.wl_blend.specs.Blend.{blended, blended_channel};

use crate::color::Rgb;
use wl_store::Argb;

/// The sum of two channels, at most 255. It has no branch, since a processor could not foretell
/// which sums are above.
fn held(sum: u32) -> u8
    requires { sum ≤ 510 }
    ensures { result ≡ min 255 sum }
{
    let above = sum / 256;
    (sum * (1 - above) + 255 * above) as u8
}

/// One channel after a colour with this alpha is laid over it.
fn blend_channel(under: u8, over: u8, alpha: u8) -> u8
    ensures { result ≡ blended_channel under over alpha }
{
    let shown = u32::from(under) * u32::from(255 - alpha);
    held(u32::from(over) + (2 * shown + 255) / 510)
}

/// The colour `under` with `over` laid over it. The channels of `over` are premultiplied by its
/// alpha. Each is added to the share of `under` that this alpha lets through, rounded to the
/// nearest. A sum above 255 is 255.
pub fn blend(under: Rgb, over: Argb) -> Rgb
    ensures { result ≡ blended under over }
{
    Rgb {
        r: blend_channel(under.r, over.r, over.a),
        g: blend_channel(under.g, over.g, over.a),
        b: blend_channel(under.b, over.b, over.a),
    }
}
