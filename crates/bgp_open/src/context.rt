//! What a session negotiated.

/// What both speakers of a session offer, and the Hold Time. Every combination is allowed.
#[derive(Clone, Copy, Debug, PartialEq, Eq)]
pub struct Context {
    /// Both have the same AS number.
    pub internal: bool,
    /// Both offer AS numbers of four octets (RFC 6793, section 4.1).
    pub as4: bool,
    /// Both offer IPv4 unicast, AFI 1 and SAFI 1 (RFC 4760, section 8).
    pub ip4: bool,
    /// Both offer IPv6 unicast, AFI 2 and SAFI 1 (RFC 4760, section 8).
    pub ip6: bool,
    /// Hold Time in seconds: 0 for none (RFC 4271, section 4.2).
    pub hold: u16,
}
