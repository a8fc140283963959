//! AGGREGATOR and AS4_AGGREGATOR.

use bgp_prefix::AsNumber;

/// The speaker that aggregated the route (RFC 4271, section 5.1.7; RFC 6793, section 3).
#[derive(Clone, Copy, PartialEq, Eq)]
pub struct Aggregator {
    /// Its AS number.
    pub asn: AsNumber,
    /// Its address.
    pub addr: [u8; 4],
    /// The Partial bit.
    pub partial: bool,
}
