ghost use Rattle.std.specs.Prelude.{◌≡◌, ◌≤◌, ◌/◌};

/// How many points of a buffer make one point of the surface that shows it, in each direction
/// (wayland.xml, wl_surface.set_buffer_scale).
#[derive(Clone, Copy, Debug, PartialEq, Eq)]
pub struct Scale {
    pub number: u32,
    pub ghost some: { 1 ≤ number },
}

impl Scale {
    /// The scale of a surface for which none was set: each of its points shows one of the buffer.
    pub const ONE: Scale = Scale { number: 1 };

    /// The side of the surface that shows a buffer with this side, in points. It divides only where
    /// the scale isn't 1, since it mostly is.
    pub(crate) fn side(self, side: u32) -> u32
        ensures { result ≡ side / self.number }
    {
        if self.number == 1 {
            return side;
        }
        side / self.number
    }
}
