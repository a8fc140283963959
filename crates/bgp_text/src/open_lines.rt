//! The details of an OPEN.

ghost use Rattle.std.specs.Prelude.{◌≡◌, ◌++◌, OnOk};
ghost use Rattle.bgp_text.specs.Below.{flat_map, string_bytes};
ghost use Rattle.bgp_text.specs.OpenLines.{number_lines, other_line, capability_line, open_lines};

use crate::info::info_text;
use bgp_open::{Capability, Open};
use bgp_prefix::Address;
use bgp_wire::List;
use std::alloc::{AllocError, Global};

/// Adds the AS number, the hold time and the identifier.
fn put_numbers(text: &mut String, as_field: u16, hold: u16, id: [u8; 4]) -> Result<(), AllocError>
    ensures { OnOk result (string_bytes text.new ≡ string_bytes text.old ++ number_lines as_field hold id) }
{
    let id = Address(id);
    write!(text, "  as {as_field}\n  hold {hold}\n  id {id}\n")
}

/// Adds a capability of any other code.
fn put_other(alloc: Global, text: &mut String, code: u8, value: &[u8]) -> Result<(), AllocError>
    ensures { OnOk result (string_bytes text.new ≡ string_bytes text.old ++ other_line code value.now) }
{
    let value = info_text(alloc, value)?;
    write!(text, "  cap {code} {value}\n")
}

/// Adds a capability.
fn put_capability(
    alloc: Global,
    text: &mut String,
    capability: &Capability,
) -> Result<(), AllocError>
    ensures { OnOk result (string_bytes text.new ≡ string_bytes text.old ++ capability_line capability.now) }
{
    match capability {
        Capability::Multi(family, subsequent) => {
            let family = *family;
            let subsequent = *subsequent;
            write!(text, "  cap multi {family} {subsequent}\n")
        }
        Capability::As4(number) => {
            let number = *number;
            write!(text, "  cap as4 {number}\n")
        }
        Capability::Other(code, value) => put_other(alloc, text, *code, value.as_slice()),
    }
}

/// Adds capabilities.
fn put_capabilities(
    alloc: Global,
    text: &mut String,
    caps: &List<Capability>,
) -> Result<(), AllocError>
    ensures { OnOk result (string_bytes text.new ≡ string_bytes text.old ++ flat_map capability_line caps.now) }
{
    for capability in caps.iter() {
        put_capability(alloc, text, capability)?;
    }
    Ok(())
}

/// Adds the details of an OPEN.
pub(crate) fn put_open(alloc: Global, text: &mut String, message: &Open) -> Result<(), AllocError>
    ensures { OnOk result (string_bytes text.new ≡ string_bytes text.old ++ open_lines message.now) }
{
    put_numbers(text, message.as_field, message.hold, message.id)?;
    put_capabilities(alloc, text, &message.caps)
}
