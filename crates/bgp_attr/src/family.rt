//! Address families.

/// The families whose routes are read (RFC 4760, sections 3 and 6).
#[derive(Clone, Copy)]
pub(crate) enum Family {
    /// IPv4 unicast.
    Ip4,
    /// IPv6 unicast.
    Ip6,
}
