//! Why a cleaned stream ends before a message.

use thiserror::Error;

/// Why nothing is passed on of a message, and of none after it.
#[derive(Clone, Copy, Debug, PartialEq, Eq, Error)]
pub enum CleanFault {
    /// The message is answered by a NOTIFICATION of this code and subcode (RFC 4271, section 6).
    #[error("reset {0}/{1}")]
    Reset(u8, u8),
    /// It is an OPEN, and not the first message of its stream.
    #[error("an OPEN behind the first message")]
    LateOpen,
    /// It is an OPEN that offers families, and neither IPv4 nor IPv6 unicast: without them its speaker would be assumed
    /// to use IPv4 unicast.
    #[error("an OPEN without IPv4 or IPv6 unicast among its families")]
    NoFamily,
}
