//! Codes of NOTIFICATIONs, and their subcodes (RFC 4271, section 4.5).

/// Message Header Error (RFC 4271, section 6.1).
pub const MESSAGE_HEADER: u8 = 1;

/// OPEN Message Error (RFC 4271, section 6.2).
pub const OPEN_MESSAGE: u8 = 2;

/// UPDATE Message Error (RFC 4271, section 6.3).
pub const UPDATE_MESSAGE: u8 = 3;

/// Hold Timer Expired (RFC 4271, section 6.5).
pub const HOLD_TIMER_EXPIRED: u8 = 4;

/// Finite State Machine Error (RFC 4271, section 6.6; RFC 6608).
pub const FINITE_STATE_MACHINE: u8 = 5;

/// Cease (RFC 4271, section 6.7).
pub const CEASE: u8 = 6;

/// ROUTE-REFRESH Message Error (RFC 7313, section 5).
pub const ROUTE_REFRESH_MESSAGE: u8 = 7;

/// Unspecific: the subcode of an error for which none is defined.
pub const UNSPECIFIC: u8 = 0;

/// Message Header Error: Connection Not Synchronized.
pub const NOT_SYNCHRONIZED: u8 = 1;

/// Message Header Error: Bad Message Length.
pub const BAD_MESSAGE_LENGTH: u8 = 2;

/// Message Header Error: Bad Message Type.
pub const BAD_MESSAGE_TYPE: u8 = 3;

/// OPEN Message Error: Unsupported Version Number.
pub const UNSUPPORTED_VERSION: u8 = 1;

/// OPEN Message Error: Bad Peer AS.
pub const BAD_PEER_AS: u8 = 2;

/// OPEN Message Error: Bad BGP Identifier.
pub const BAD_IDENTIFIER: u8 = 3;

/// OPEN Message Error: Unsupported Optional Parameter.
pub const UNSUPPORTED_PARAMETER: u8 = 4;

/// OPEN Message Error: Unacceptable Hold Time.
pub const UNACCEPTABLE_HOLD_TIME: u8 = 6;

/// UPDATE Message Error: Malformed Attribute List.
pub const MALFORMED_ATTRIBUTE_LIST: u8 = 1;

/// UPDATE Message Error: Unrecognized Well-known Attribute.
pub const UNRECOGNIZED_WELL_KNOWN: u8 = 2;

/// UPDATE Message Error: Optional Attribute Error.
pub const OPTIONAL_ATTRIBUTE: u8 = 9;

/// UPDATE Message Error: Invalid Network Field.
pub const INVALID_NETWORK_FIELD: u8 = 10;

/// Finite State Machine Error: Unexpected Message in OpenSent State (RFC 6608, section 3).
pub const UNEXPECTED_IN_OPEN_SENT: u8 = 1;

/// Finite State Machine Error: Unexpected Message in OpenConfirm State (RFC 6608, section 3).
pub const UNEXPECTED_IN_OPEN_CONFIRM: u8 = 2;

/// Finite State Machine Error: Unexpected Message in Established State (RFC 6608, section 3).
pub const UNEXPECTED_IN_ESTABLISHED: u8 = 3;

/// Cease: Administrative Shutdown (RFC 4486, section 3).
pub const ADMINISTRATIVE_SHUTDOWN: u8 = 2;

/// Cease: Administrative Reset (RFC 4486, section 3).
pub const ADMINISTRATIVE_RESET: u8 = 4;

/// Cease: Connection Rejected (RFC 4486, section 3).
pub const CONNECTION_REJECTED: u8 = 5;

/// ROUTE-REFRESH Message Error: Invalid Message Length (RFC 7313, section 5).
pub const INVALID_REFRESH_LENGTH: u8 = 1;
