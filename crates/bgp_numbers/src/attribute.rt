//! Types of path attributes (RFC 4271, section 5).

/// ORIGIN: where the route came from (RFC 4271, section 5.1.1).
pub const ORIGIN: u8 = 1;

/// AS_PATH: the ASes that the route passed (RFC 4271, section 5.1.2).
pub const AS_PATH: u8 = 2;

/// NEXT_HOP: the router to forward to (RFC 4271, section 5.1.3).
pub const NEXT_HOP: u8 = 3;

/// MULTI_EXIT_DISC (RFC 4271, section 5.1.4).
pub const MULTI_EXIT_DISC: u8 = 4;

/// LOCAL_PREF (RFC 4271, section 5.1.5).
pub const LOCAL_PREF: u8 = 5;

/// ATOMIC_AGGREGATE (RFC 4271, section 5.1.6).
pub const ATOMIC_AGGREGATE: u8 = 6;

/// AGGREGATOR (RFC 4271, section 5.1.7).
pub const AGGREGATOR: u8 = 7;

/// COMMUNITIES (RFC 1997).
pub const COMMUNITIES: u8 = 8;

/// MP_REACH_NLRI (RFC 4760, section 3).
pub const MP_REACH_NLRI: u8 = 14;

/// MP_UNREACH_NLRI (RFC 4760, section 4).
pub const MP_UNREACH_NLRI: u8 = 15;

/// AS4_PATH (RFC 6793, section 3).
pub const AS4_PATH: u8 = 17;

/// AS4_AGGREGATOR (RFC 6793, section 3).
pub const AS4_AGGREGATOR: u8 = 18;

/// LARGE_COMMUNITY (RFC 8092, section 3).
pub const LARGE_COMMUNITY: u8 = 32;

#[cfg(test)]
mod tests {
    use super::*;
    use std::test::*;

    // The values of the IANA registry BGP Path Attributes, written down again.
    #[test]
    fn types_are_those_of_the_registry(rt: HostRuntime) {
        assert!(rt; ORIGIN == 1);
        assert!(rt; AS_PATH == 2);
        assert!(rt; NEXT_HOP == 3);
        assert!(rt; MULTI_EXIT_DISC == 4);
        assert!(rt; LOCAL_PREF == 5);
        assert!(rt; ATOMIC_AGGREGATE == 6);
        assert!(rt; AGGREGATOR == 7);
        assert!(rt; COMMUNITIES == 8);
        assert!(rt; MP_REACH_NLRI == 14);
        assert!(rt; MP_UNREACH_NLRI == 15);
        assert!(rt; AS4_PATH == 17);
        assert!(rt; AS4_AGGREGATOR == 18);
        assert!(rt; LARGE_COMMUNITY == 32);
    }
}
