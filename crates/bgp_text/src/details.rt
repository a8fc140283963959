//! Attributes and capabilities that aren't recognised, in words: only printed, no verdict depends on them.

ghost use Rattle.std.specs.Prelude.{◌≡◌, ◌++◌, OnOk};
ghost use Rattle.bgp_text.specs.Below.{string_bytes};
ghost use Rattle.bgp_text.specs.Details.{code_of, detail_text};

use crate::attribute_values::put_attribute;
use crate::capability_values::put_capability;
use bgp_fields::{FieldKind, Group};
use std::alloc::AllocError;

/// The type or the code of what a field belongs to.
pub(crate) fn code_of(group: Option<Group>) -> u8
    ensures { result ≡ code_of group }
{
    match group {
        None => 0,
        Some(group) => group.code,
    }
}

/// Adds the value of a field in words, where that depends on more than its kind.
#[tactic(auto, unfolding(crate::specs::Details::detail_text))]
pub(crate) fn put_detail(
    text: &mut String,
    code: u8,
    kind: FieldKind,
    octets: &[u8],
) -> Result<(), AllocError>
    ensures { OnOk result (string_bytes text.new ≡ string_bytes text.old ++ detail_text code kind octets.now) }
{
    match kind {
        FieldKind::AttributeValue => put_attribute(text, code, octets),
        FieldKind::CapabilityValue => put_capability(text, code, octets),
        _ => Ok(()),
    }
}
