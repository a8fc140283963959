//! Codes of capabilities (RFC 5492, section 4).

/// Multiprotocol extensions: an address family (RFC 4760, section 8).
pub const MULTIPROTOCOL: u8 = 1;

/// ROUTE-REFRESH (RFC 2918, section 2).
pub const ROUTE_REFRESH: u8 = 2;

/// Next hops of another family: families with that of their next hop (RFC 8950, section 4).
pub const EXTENDED_NEXT_HOP: u8 = 5;

/// Messages of up to 65535 octets (RFC 8654, section 3).
pub const EXTENDED_MESSAGE: u8 = 6;

/// AS numbers of four octets (RFC 6793, section 3).
pub const FOUR_OCTET_AS: u8 = 65;

/// Path identifiers: families, each with whether the speaker sends or reads them (ADD-PATH; RFC 7911, section 4).
pub const ADD_PATH: u8 = 69;

/// Enhanced ROUTE-REFRESH, which marks where a refresh begins and ends (RFC 7313, section 3.1).
pub const ENHANCED_ROUTE_REFRESH: u8 = 70;
