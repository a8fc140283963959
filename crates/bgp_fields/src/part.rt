//! The part of a message that the next field begins, by what encloses it.

use crate::kind::FieldKind;

/// The next part of a message, outside sections.
#[derive(Clone, Copy)]
pub(crate) enum MessagePart {
    /// The header (RFC 4271, section 4.1).
    Marker,
    Length,
    Kind,
    /// An OPEN's body (RFC 4271, section 4.2).
    Version,
    MyAs,
    HoldTime,
    Identifier,
    ParametersLength,
    /// An UPDATE's body (RFC 4271, section 4.3).
    WithdrawnLength,
    AttributesLength,
    /// A route of NLRI; its prefix after a path identifier (RFC 7911, section 3).
    Nlri,
    NlriPrefix,
    /// A NOTIFICATION's body (RFC 4271, section 4.5).
    ErrorCode,
    ErrorSubcode,
    /// A ROUTE-REFRESH that is accepted: its header, and its body (RFC 2918, section 3; RFC 7313, section 3.2).
    RefreshMarker,
    RefreshLength,
    RefreshType,
    RefreshAfi,
    RefreshSubtype,
    RefreshSafi,
    /// One field of this kind, up to the end.
    All(FieldKind),
}

/// The next part of Withdrawn Routes, Path Attributes or Optional Parameters.
#[derive(Clone, Copy)]
pub(crate) enum SectionPart {
    /// A route of Withdrawn Routes; its prefix after a path identifier.
    Withdrawn,
    WithdrawnPrefix,
    /// An optional parameter (RFC 4271, section 4.2), its length after this type.
    ParameterType,
    ParameterLength(u8),
    /// A path attribute (RFC 4271, section 4.3), its type after these flags, its length after these flags and this type.
    AttributeFlags,
    AttributeType(u8),
    AttributeLength(u8, u8),
    /// One field of this kind, up to the end.
    All(FieldKind),
}

/// The next part of the value of an attribute or of a parameter.
#[derive(Clone, Copy)]
pub(crate) enum ValuePart {
    /// One field of this kind and length in octets, and nothing after it.
    One(FieldKind, u8),
    /// Fields of this kind and length in octets each.
    Row(FieldKind, u8),
    /// Routes of IPv6 if true, else of IPv4, each with a prefix, a field of this kind.
    Prefixes(FieldKind, bool),
    /// The prefix of such a route after a path identifier, and then routes.
    PathPrefix(FieldKind, bool),
    /// The AS number of an aggregator, of four octets or two, and then its address.
    Aggregator(bool),
    /// A segment of a path of AS numbers of four octets, else of two, in which segments of confederations are read or not.
    Segment(bool, bool),
    /// The count of a segment.
    SegmentCount(bool, bool),
    /// This number of AS numbers of a segment, and then segments.
    Numbers(bool, bool, u8),
    /// The family of MP_REACH_NLRI, else of MP_UNREACH_NLRI, its SAFI after this AFI (RFC 4760, sections 3 and 4).
    Afi(bool),
    Safi(bool, u16),
    /// The rest of MP_REACH_NLRI, of IPv6 or else of IPv4, its next hop after this length.
    NextHopLength(bool),
    NextHop(bool, u8),
    LinkLocal,
    Reserved(bool),
    /// A capability (RFC 5492, section 4), its length after this code.
    CapabilityCode,
    CapabilityLength(u8),
    /// The value of a capability: one field of this kind and length in octets.
    Capability(FieldKind, u8),
    /// The value of a capability for multiprotocol extensions (RFC 4760, section 8).
    CapabilityAfi,
    CapabilityReserved,
    CapabilitySafi,
    /// One field of this kind, up to the end.
    All(FieldKind),
}
