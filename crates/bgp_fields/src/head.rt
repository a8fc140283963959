//! The flags, the type and the length of an attribute, all at once.

ghost use Rattle.std.specs.Prelude.{◌≡◌, IfSome};
ghost use Rattle.bgp_fields.specs.Prelude.{IsHead};

use crate::section_plan::length_in;

/// The head of an attribute, the octets of its value, and those after it.
#[derive(Clone, Copy)]
pub(crate) struct Head<'a> {
    pub(crate) kind: u8,
    /// The width of its length field.
    pub(crate) width: usize,
    pub(crate) value: &'a [u8],
    pub(crate) rest: &'a [u8],
}

/// The attribute that octets begin with, where it is whole.
pub(crate) fn attribute_head(octets: &[u8]) -> Option<Head<'_>>
    ensures { IfSome result (λ h. IsHead octets.now h) }
{
    let (flags, behind) = octets.split_first()?;
    let (kind, behind) = behind.split_first()?;
    let (width, len) = length_in(*flags, behind);
    let (_, behind) = behind.split_at_checked(width)?;
    let (value, rest) = behind.split_at_checked(usize::from(len))?;
    Some(Head {
        kind: *kind,
        width,
        value,
        rest,
    })
}
