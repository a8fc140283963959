//! An OPEN as JSON.

ghost use Rattle.std.specs.Prelude.{◌≡◌, ◌++◌, codes, OnOk};
ghost use Rattle.bgp_text.specs.Below.{flat_map, string_bytes, Multi, As4, Other};
ghost use Rattle.bgp_text.specs.Json.{member, behind_comma, joined, listed};
ghost use Rattle.bgp_text.specs.JsonOpen.{code_json, capability_json, open_members, name_end};

use crate::json::{put_decimal, put_name, put_name_member, put_number_member, put_octets_member};
use crate::json_addresses::put_ip4_member;
use bgp_names::capability_name;
use bgp_numbers::capability;
use bgp_open::{Capability, Open};
use std::alloc::AllocError;

/// Adds the beginning of an object: the code of a capability.
#[tactic(auto, unfolding(crate::specs::JsonOpen::code_json))]
fn put_code(text: &mut String, code: u8) -> Result<(), AllocError>
    ensures { OnOk result (string_bytes text.new ≡ string_bytes text.old ++ code_json code) }
{
    text.push_str("{\"code\":")?;
    put_decimal(text, u32::from(code))
}

/// Adds the end of an object: the name of the capability, if it has one.
fn put_name_end(text: &mut String, code: u8) -> Result<(), AllocError>
    ensures { OnOk result (string_bytes text.new ≡ string_bytes text.old ++ name_end code) }
{
    put_name_member(text, "name", capability_name(code))?;
    text.push_str("}")
}

/// Adds a family.
#[tactic(auto, unfolding(crate::specs::JsonOpen::capability_json))]
fn put_multi(text: &mut String, family: u16, subsequent: u8) -> Result<(), AllocError>
    ensures { OnOk result (string_bytes text.new ≡ string_bytes text.old ++ capability_json (Multi family subsequent)) }
{
    put_code(text, capability::MULTIPROTOCOL)?;
    put_number_member(text, "afi", u32::from(family))?;
    put_number_member(text, "safi", u32::from(subsequent))?;
    put_name_end(text, capability::MULTIPROTOCOL)
}

/// Adds an AS number of four octets.
#[tactic(auto, unfolding(crate::specs::JsonOpen::capability_json))]
fn put_as4(text: &mut String, number: u32) -> Result<(), AllocError>
    ensures { OnOk result (string_bytes text.new ≡ string_bytes text.old ++ capability_json (As4 number)) }
{
    put_code(text, capability::FOUR_OCTET_AS)?;
    put_number_member(text, "as", number)?;
    put_name_end(text, capability::FOUR_OCTET_AS)
}

/// Adds a capability of any other code.
#[tactic(auto, unfolding(crate::specs::JsonOpen::capability_json))]
fn put_other(text: &mut String, code: u8, value: &[u8]) -> Result<(), AllocError>
    ensures { OnOk result (string_bytes text.new ≡ string_bytes text.old ++ capability_json (Other code value.now)) }
{
    put_code(text, code)?;
    put_octets_member(text, "value", value)?;
    put_name_end(text, code)
}

/// Adds a capability.
fn put_capability(text: &mut String, capability: &Capability) -> Result<(), AllocError>
    ensures { OnOk result (string_bytes text.new ≡ string_bytes text.old ++ capability_json capability.now) }
{
    match capability {
        Capability::Multi(family, subsequent) => put_multi(text, *family, *subsequent),
        Capability::As4(number) => put_as4(text, *number),
        Capability::Other(code, value) => put_other(text, *code, value.as_slice()),
    }
}

/// Adds a capability after a comma.
fn put_another_capability(text: &mut String, capability: &Capability) -> Result<(), AllocError>
    ensures { OnOk result (string_bytes text.new ≡ string_bytes text.old ++ behind_comma capability_json capability.now) }
{
    text.push_str(",")?;
    put_capability(text, capability)
}

/// Adds capabilities, each after a comma.
fn put_further_capabilities(text: &mut String, caps: &[Capability]) -> Result<(), AllocError>
    ensures { OnOk result (string_bytes text.new ≡ string_bytes text.old ++ flat_map (behind_comma capability_json) caps.now) }
{
    for capability in caps {
        put_another_capability(text, capability)?;
    }
    Ok(())
}

/// Adds capabilities with commas between them.
#[tactic(auto, unfolding(crate::specs::Json::joined))]
fn put_capabilities(text: &mut String, caps: &[Capability]) -> Result<(), AllocError>
    ensures { OnOk result (string_bytes text.new ≡ string_bytes text.old ++ joined capability_json caps.now) }
{
    let Some((first, further)) = caps.split_first() else {
        return Ok(());
    };
    put_capability(text, first)?;
    put_further_capabilities(text, further)
}

/// Adds a list of capabilities.
fn put_capability_list(text: &mut String, caps: &[Capability]) -> Result<(), AllocError>
    ensures { OnOk result (string_bytes text.new ≡ string_bytes text.old ++ listed capability_json caps.now) }
{
    text.push_str("[")?;
    put_capabilities(text, caps)?;
    text.push_str("]")
}

/// Adds the member that is a list of capabilities.
fn put_capabilities_member(text: &mut String, caps: &[Capability]) -> Result<(), AllocError>
    ensures { OnOk result (string_bytes text.new ≡ string_bytes text.old ++ member (codes "capabilities") (listed capability_json) caps.now) }
{
    put_name(text, "capabilities")?;
    put_capability_list(text, caps)
}

/// Adds the members of an OPEN.
pub(crate) fn put_open_members(text: &mut String, message: &Open) -> Result<(), AllocError>
    ensures { OnOk result (string_bytes text.new ≡ string_bytes text.old ++ open_members message.now) }
{
    put_number_member(text, "as", u32::from(message.as_field))?;
    put_number_member(text, "hold", u32::from(message.hold))?;
    put_ip4_member(text, "id", message.id)?;
    put_capabilities_member(text, message.caps.as_slice())
}
