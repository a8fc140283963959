//! The numbers that the standards of BGP-4 assign, by name: each is written once.
#![tactic(auto)]

pub mod afi;
pub mod attribute;
pub mod capability;
pub mod error;
pub mod message;
pub mod parameter;
pub mod safi;
pub mod segment;

/// The version of BGP-4 in an OPEN (RFC 4271, section 4.2).
pub const VERSION: u8 = 4;

/// The AS number in a field of two octets instead of one that needs four (RFC 6793, section 9).
pub const AS_TRANS: u16 = 23456;

#[cfg(test)]
mod tests;
