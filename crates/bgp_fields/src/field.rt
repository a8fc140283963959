//! A field of a message, spans of octets, and faults.

use crate::cause::Cause;
use crate::kind::FieldKind;

/// What a field belongs to: an attribute, an optional parameter or a capability.
#[derive(Clone, Copy, PartialEq, Eq)]
pub struct Group {
    /// Where it begins: an offset in the message, 0 for the first octet of the Marker. Below 4,096.
    pub at: u16,
    /// Its type, or its code: 0 for an attribute that ends before its type.
    pub code: u8,
}

/// A field: the octets of a message that have one meaning together.
#[derive(Clone, Copy, PartialEq, Eq)]
pub struct Field {
    /// Its offset in the message: below 4,096.
    pub at: u16,
    /// Its length: at least one octet.
    pub len: u16,
    /// What it is.
    pub kind: FieldKind,
    /// The attribute, parameter or capability that it belongs to.
    pub group: Option<Group>,
}

/// Adjacent octets of a message: at least one.
#[derive(Clone, Copy, PartialEq, Eq)]
pub struct Span {
    /// The offset of the first one in the message.
    pub at: u16,
    /// The number of octets.
    pub len: u16,
}

/// Why a message causes a NOTIFICATION.
#[derive(Clone, Copy, PartialEq, Eq)]
pub struct Fault {
    /// The octets at fault.
    pub span: Span,
    /// The test that they failed.
    pub cause: Cause,
}
