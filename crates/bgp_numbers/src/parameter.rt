//! Types of an OPEN's optional parameters (RFC 4271, section 4.2).

/// Capabilities (RFC 5492, section 4).
pub const CAPABILITIES: u8 = 2;
