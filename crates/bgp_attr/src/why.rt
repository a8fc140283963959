//! Why an attribute is discarded, or its message treated as a withdrawal.

/// Why an attribute is discarded, or its message treated as a withdrawal (RFC 7606, sections 3 and 7; RFC 7607).
#[derive(Clone, Copy, Debug, PartialEq, Eq)]
pub enum Why {
    /// The Optional or the Transitive bit isn't that of the type.
    Flags,
    /// The length of the value is wrong for its type.
    Length,
    /// The value has no meaning.
    Value,
    /// A segment of a path has an unknown type.
    SegmentType,
    /// A segment of a path has no numbers.
    SegmentCount,
    /// A segment of a path goes past the end of the value.
    SegmentEnd,
    /// An attribute of the type precedes it.
    Repeated,
    /// LOCAL_PREF on an external session.
    External,
    /// AS4_PATH or AS4_AGGREGATOR on a session with AS numbers of four octets.
    FourOctet,
    /// Routes of an address family that isn't in use.
    Family,
    /// NEXT_HOP without NLRI.
    Unneeded,
    /// An AS4_PATH of which nothing is left.
    Emptied,
    /// The attribute goes past the end of the attributes.
    Cut,
    /// No attribute of the type is in the message.
    Missing,
    /// An AS number 0 (RFC 7607).
    AsZero,
}
