//! Coordinates as clients are told them.

ghost use Rattle.std.specs.Prelude.{◌≡◌, ◌*ℤ◌, ◌-ℤ◌, ◌≤ℤ◌, ℤ, pos, negsuc};
ghost use Rattle.spec_desktop.specs.Pointer.{fixed_from};

/// The greatest whole number of pixels, to either side, that a 24.8 fixed number can say.
const MOST: i64 = 8_388_607;

/// A number of pixels, held to what a 24.8 fixed number can say.
fn held(exact: i64) -> i32
    ensures is { (at corner : ℤ) → exact ≡ at -ℤ corner → result *ℤ pos 256 ≡ fixed_from at corner }
    ensures least { negsuc 8388607 ≤ℤ result }
    ensures most { result ≤ℤ pos 8388607 }
{
    if exact < -MOST - 1 {
        return -8_388_608;
    }
    if exact > MOST {
        return 8_388_607;
    }
    exact as i32
}

/// A coordinate of a point, as a surface is told it whose upper left corner is at `corner`
/// (wayland.xml, wl_pointer.motion). Both are in pixels of the output. The answer is the distance
/// from the corner, in 256ths of a pixel (a 24.8 fixed number). A distance too large for that is
/// held to the nearest whole pixel that fits.
pub fn fixed(place: i32, corner: i32) -> i32
    ensures { result ≡ fixed_from place corner }
{
    held(i64::from(place) - i64::from(corner)) * 256
}
