//! Types of an AS path's segments (RFC 4271, section 4.3; RFC 5065, section 3).

/// AS_SET: numbers in no order.
pub const SET: u8 = 1;

/// AS_SEQUENCE: numbers in the order of the path.
pub const SEQUENCE: u8 = 2;

/// AS_CONFED_SEQUENCE: members of a confederation, in order.
pub const CONFED_SEQUENCE: u8 = 3;

/// AS_CONFED_SET: members of a confederation, in no order.
pub const CONFED_SET: u8 = 4;
