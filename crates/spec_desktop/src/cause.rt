//! Why clients end.

/// Why a client ended.
#[derive(Clone, Copy, Debug, PartialEq, Eq)]
pub enum Cause {
    /// It broke the protocol. It was told so by wl_display.error with this object and code.
    Protocol { object: u32, code: u32 },
    /// There was no memory for it.
    Memory,
    /// It left too many bytes unread.
    Slow,
    /// It closed its connection.
    Gone,
}
