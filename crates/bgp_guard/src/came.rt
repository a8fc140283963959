//! The result of received octets.

use bgp_frame::WideKind;

/// The result of the octets that a side sent.
#[derive(Clone, Copy, Debug, PartialEq, Eq)]
pub enum Came {
    /// No message is whole yet, or nothing is read of the side.
    Nothing,
    /// Nothing was passed on of a message of this kind: an UPDATE that has no routes once it is cleaned, or whose
    /// routes stay inside; a ROUTE-REFRESH of a family or subtype that the other side has no use for.
    Dropped {
        /// The kind of the received message.
        kind: WideKind,
    },
    /// A message of this kind was passed on: unchanged, or changed.
    HandedOn {
        /// The kind of the received message.
        kind: WideKind,
        /// Whether what was passed on has the same octets.
        same: bool,
    },
    /// The side was answered by a NOTIFICATION of this code and subcode, and the guard has ended.
    Answered {
        /// The error code (RFC 4271, section 4.5).
        code: u8,
        /// The error subcode.
        subcode: u8,
    },
}
