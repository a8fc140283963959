//! Attributes in octets.

ghost use Rattle.std.specs.Prelude.{◌≡◌};
ghost use Rattle.bgp_attr.specs.Tlv.{tlv_octets};

use crate::flags::Flags;

/// An attribute before it is judged: its flags, its type, its value (RFC 4271, section 4.3).
#[derive(Clone, Copy)]
pub struct Tlv<'a> {
    /// The offset of its flags in the attribute field.
    pub at: usize,
    /// The flags octet.
    pub flags: Flags,
    /// The type.
    pub kind: u8,
    /// All its octets, as they were received.
    pub whole: &'a [u8],
    /// The octets of its value.
    pub value: &'a [u8],
    /// `whole` is the spelling of these flags, this type and this value.
    pub ghost spelled: { whole.now ≡ tlv_octets flags.0 kind value.now },
}

/// What follows the last whole attribute of a field.
#[derive(Clone, Copy, PartialEq, Eq)]
pub enum Tail<'a> {
    /// Nothing: the field ends there.
    End,
    /// Octets that begin an attribute but end before it does.
    Cut(&'a [u8]),
}
