//! Spans of octets.

/// `len` octets from an offset on, in the octets given.
#[repr(C)]
#[derive(Clone, Copy)]
pub struct Span {
    /// Their offset.
    pub at: u32,
    /// Their number.
    pub len: u32,
}
