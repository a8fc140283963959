//! Subsequent address family identifiers (RFC 4760, section 6).

/// Routes for unicast forwarding.
pub const UNICAST: u8 = 1;
