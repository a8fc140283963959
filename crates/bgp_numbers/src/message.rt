//! Types of messages (RFC 4271, section 4.1).

/// OPEN (RFC 4271, section 4.2).
pub const OPEN: u8 = 1;

/// UPDATE (RFC 4271, section 4.3).
pub const UPDATE: u8 = 2;

/// NOTIFICATION (RFC 4271, section 4.5).
pub const NOTIFICATION: u8 = 3;

/// KEEPALIVE (RFC 4271, section 4.4).
pub const KEEPALIVE: u8 = 4;

/// ROUTE-REFRESH (RFC 2918, section 3).
pub const ROUTE_REFRESH: u8 = 5;
