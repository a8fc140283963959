//! Address family identifiers (RFC 4760, section 3).

/// IPv4.
pub const IPV4: u16 = 1;

/// IPv6.
pub const IPV6: u16 = 2;
