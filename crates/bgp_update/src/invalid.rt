//! Why a message isn't written.

/// Why a message isn't written: the first reason in the order of their numbers.
#[derive(Clone, Copy, Debug, PartialEq, Eq)]
pub enum Invalid {
    /// 1: routes without ORIGIN or AS_PATH, or NLRI without NEXT_HOP (RFC 4271, section 5).
    Missing = 1,
    /// 2: NEXT_HOP without NLRI.
    NextHop = 2,
    /// 3: LOCAL_PREF on an external session (RFC 4271, section 5.1.5).
    LocalPref = 3,
    /// 4: an AS number above 65535 in AS_PATH or AGGREGATOR on a session with AS numbers of two octets.
    AsWidth = 4,
    /// 5: AS4_PATH or AS4_AGGREGATOR on a session with AS numbers of four octets (RFC 6793, section 4.1).
    As4 = 5,
    /// 6: routes of an address family that isn't in use (RFC 4760, section 8).
    Family = 6,
    /// 7: a segment of no numbers or more than 255, no communities, or an AS4_PATH without segments.
    Empty = 7,
    /// 8: attributes of unrecognised types that aren't ascending by type, or are of a recognised one.
    Others = 8,
    /// 9: routes of more than one kind in one message (RFC 7606, section 5.1): for what a session sends.
    Mixed = 9,
    /// 10: an OPEN that can't be written.
    BadOpen = 10,
    /// 11: an AS number 0 (RFC 7607, section 2).
    AsZero = 11,
    /// 12: a large community that is there twice (RFC 8092, section 3).
    Twice = 12,
}
