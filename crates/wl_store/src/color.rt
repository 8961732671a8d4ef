/// A colour of 8 bits a channel, its red, green and blue premultiplied by its alpha.
#[derive(Clone, Copy, Debug, PartialEq, Eq)]
pub struct Argb {
    pub a: u8,
    pub r: u8,
    pub g: u8,
    pub b: u8,
}

/// How the four bytes of a pixel are read (wayland.xml, wl_shm.format): blue, green, red and alpha,
/// from the lowest address.
#[derive(Clone, Copy, Debug, PartialEq, Eq)]
pub enum Format {
    /// Number 0: with the alpha of the fourth byte.
    Argb8888,
    /// Number 1: opaque, whatever the fourth byte is.
    Xrgb8888,
}
