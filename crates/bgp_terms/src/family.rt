//! A family of routes.

/// A family of routes (RFC 4760, section 8).
#[derive(Clone, Copy, Debug, PartialEq, Eq)]
pub struct Family {
    /// The Address Family Identifier.
    pub afi: u16,
    /// The Subsequent Address Family Identifier.
    pub safi: u8,
}
