//! The kinds of fields.

/// What a field is. The kind of a prefix gives its family and the field or attribute that has it.
#[derive(Clone, Copy, PartialEq, Eq)]
pub enum FieldKind {
    /// The Marker: sixteen octets (RFC 4271, section 4.1).
    Marker,
    /// The Length of the message: two octets.
    MessageLength,
    /// The Type of the message: one octet.
    MessageType,
    /// An OPEN's Version: one octet (RFC 4271, section 4.2).
    Version,
    /// An OPEN's My Autonomous System: two octets.
    MyAs,
    /// An OPEN's Hold Time in seconds: two octets.
    HoldTime,
    /// An OPEN's BGP Identifier: four octets.
    Identifier,
    /// An OPEN's Opt Parm Len: one octet.
    ParametersLength,
    /// The type of an optional parameter: one octet.
    ParameterType,
    /// The length of an optional parameter: one octet.
    ParameterLength,
    /// The code of a capability: one octet (RFC 5492, section 4).
    CapabilityCode,
    /// The length of a capability: one octet.
    CapabilityLength,
    /// The value of a capability that isn't recognised.
    CapabilityValue,
    /// An Address Family Identifier: two octets (RFC 4760, sections 3, 4 and 8; RFC 2918, section 3).
    Afi,
    /// A Subsequent Address Family Identifier: one octet.
    Safi,
    /// A reserved octet, of a capability or of MP_REACH_NLRI.
    Reserved,
    /// An AS number, of a capability, a path or an aggregator: two octets or four (RFC 6793).
    AsNumber,
    /// An UPDATE's Withdrawn Routes Length: two octets (RFC 4271, section 4.3).
    WithdrawnLength,
    /// An UPDATE's Total Path Attribute Length: two octets.
    AttributesLength,
    /// The flags of a path attribute: one octet.
    AttributeFlags,
    /// The type of a path attribute: one octet.
    AttributeType,
    /// The length of a path attribute: one octet, or two where the Extended Length bit is set.
    AttributeLength,
    /// The value of ORIGIN: one octet.
    Origin,
    /// The type of a path's segment: one octet.
    SegmentType,
    /// The number of AS numbers in a path's segment: one octet.
    SegmentCount,
    /// An IPv4 address, of NEXT_HOP or an aggregator: four octets.
    Address,
    /// The value of MULTI_EXIT_DISC: four octets.
    Med,
    /// The value of LOCAL_PREF: four octets.
    LocalPref,
    /// A community: four octets (RFC 1997).
    Community,
    /// A large community: twelve octets (RFC 8092, section 3).
    LargeCommunity,
    /// The length of MP_REACH_NLRI's next hop: one octet (RFC 4760, section 3).
    NextHopLength,
    /// The next hop of MP_REACH_NLRI: 4 octets or 16.
    NextHop,
    /// The link-local next hop of MP_REACH_NLRI: 16 octets (RFC 2545, section 3).
    LinkLocal,
    /// The value of an attribute that isn't recognised.
    AttributeValue,
    /// An IPv4 prefix of Withdrawn Routes, with its length octet: 1 to 5 octets.
    WithdrawnPrefix,
    /// An IPv4 prefix of MP_UNREACH_NLRI: 1 to 5 octets.
    UnreachPrefix4,
    /// An IPv6 prefix of MP_UNREACH_NLRI: 1 to 17 octets.
    UnreachPrefix6,
    /// An IPv4 prefix of MP_REACH_NLRI: 1 to 5 octets.
    ReachPrefix4,
    /// An IPv6 prefix of MP_REACH_NLRI: 1 to 17 octets.
    ReachPrefix6,
    /// An IPv4 prefix of Network Layer Reachability Information: 1 to 5 octets.
    NlriPrefix,
    /// The path identifier before a prefix: four octets (RFC 7911, section 3).
    PathIdentifier,
    /// A NOTIFICATION's error code: one octet (RFC 4271, section 4.5).
    ErrorCode,
    /// A NOTIFICATION's error subcode: one octet.
    ErrorSubcode,
    /// A NOTIFICATION's data.
    Data,
    /// A ROUTE-REFRESH's Message Subtype: one octet (RFC 7313, section 3.2), the reserved octet of RFC 2918, section 3.
    Subtype,
    /// What can't be read as the field expected, up to the end of what encloses it: the capability, parameter, attribute, field or message. Also what
    /// follows the SAFI of a ROUTE-REFRESH.
    Unread,
}
