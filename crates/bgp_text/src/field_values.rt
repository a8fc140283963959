//! The value of a field, printed after its name.

ghost use Rattle.std.specs.Prelude.{◌≡◌, ◌+◌, ◌≤◌, ◌++◌, codes, drop, slice_index, take, OnOk};
ghost use Rattle.bgp_text.specs.Below.{flat_map, string_bytes, subcode_name};
ghost use Rattle.bgp_text.specs.JsonAddress.{ip6_text};
ghost use Rattle.bgp_text.specs.Shutdown.{shutdown_text};
ghost use Rattle.bgp_text.specs.FieldValues.{number_in, spaced, numbered, is_number, subtype_name, octet_name, pair_name, number_name, address_text, prefix6_text, prefixes4_text, prefixes6_text, flags_text, named_community, large_value, code_in, subcode_in, said_text, other_text, value_text};

use crate::addresses;
use crate::community_lines::community_name;
use crate::escape::put_escaped;
use crate::short::{Decimal, Short, put_one};
use crate::shutdown::shutdown_text;
use crate::source::Source;
use crate::word::Word;
use bgp_attr::Flags;
use bgp_fields::FieldKind;
use bgp_names::{
    afi_name, attribute_name, capability_name, error_name, message_name, origin_name,
    parameter_name, safi_name, segment_name, subcode_name,
};
use bgp_prefix::{Address, Prefix6, PrefixIter};
use std::alloc::AllocError;
use std::net::Ipv6Addr;

/// The number in one octet, two or four, highest first.
pub(crate) fn number_in(octets: &[u8]) -> u32
    ensures { result ≡ number_in octets.now }
{
    match octets {
        [a] => u32::from(*a),
        [a, b] => u32::from(u16::from_be_bytes([*a, *b])),
        [a, b, c, d] => u32::from_be_bytes([*a, *b, *c, *d]),
        _ => 0,
    }
}

/// The octets from an offset on, or fewer where the input ends before.
pub(crate) fn part(octets: &[u8], at: usize, len: usize) -> &[u8]
    ensures { result.now ≡ take len (drop at octets.now) }
{
    let (_, rest) = octets.split_at(at.min(octets.len()));
    let (part, _) = rest.split_at(len.min(rest.len()));
    part
}

/// Adds a text after a space, if there is one.
pub(crate) fn put_spaced(text: &mut String, name: &str) -> Result<(), AllocError>
    ensures { OnOk result (string_bytes text.new ≡ string_bytes text.old ++ spaced name.now) }
{
    if name.is_empty() {
        return Ok(());
    }
    text.push_str(" ")?;
    text.push_str(name)
}

/// Adds a number, and its name if it has one.
pub(crate) fn put_numbered(text: &mut String, name: &str, number: u32) -> Result<(), AllocError>
    ensures { OnOk result (string_bytes text.new ≡ string_bytes text.old ++ numbered name.now number) }
{
    text.push_str(" ")?;
    put_one(text, Decimal(number))?;
    put_spaced(text, name)
}

/// Whether a field is a number.
fn is_number(kind: FieldKind) -> bool
    ensures { result ≡ is_number kind }
{
    match kind {
        FieldKind::MessageLength
        | FieldKind::MessageType
        | FieldKind::Version
        | FieldKind::MyAs
        | FieldKind::HoldTime
        | FieldKind::ParametersLength
        | FieldKind::ParameterType
        | FieldKind::ParameterLength
        | FieldKind::CapabilityCode
        | FieldKind::CapabilityLength
        | FieldKind::Afi
        | FieldKind::Safi
        | FieldKind::AsNumber
        | FieldKind::WithdrawnLength
        | FieldKind::AttributesLength
        | FieldKind::AttributeType
        | FieldKind::AttributeLength
        | FieldKind::Origin
        | FieldKind::SegmentType
        | FieldKind::SegmentCount
        | FieldKind::Med
        | FieldKind::LocalPref
        | FieldKind::NextHopLength
        | FieldKind::ErrorCode
        | FieldKind::PathIdentifier
        | FieldKind::Subtype => true,
        _ => false,
    }
}

/// The name in the registry for a ROUTE-REFRESH's subtype.
#[tactic(auto, unfolding(crate::specs::FieldValues::subtype_name))]
fn subtype_name(number: u8) -> &'static str
    ensures { result.now ≡ subtype_name number }
{
    match number {
        0 => "Route-Refresh",
        1 => "BoRR",
        2 => "EoRR",
        255 => "Reserved",
        _ => "",
    }
}

/// The name in the registries for a field of one octet.
fn octet_name(kind: FieldKind, number: u8) -> &'static str
    ensures { result.now ≡ octet_name kind number }
{
    match kind {
        FieldKind::MessageType => message_name(number),
        FieldKind::ParameterType => parameter_name(number),
        FieldKind::CapabilityCode => capability_name(number),
        FieldKind::Safi => safi_name(number),
        FieldKind::AttributeType => attribute_name(number),
        FieldKind::Origin => origin_name(number),
        FieldKind::SegmentType => segment_name(number),
        FieldKind::ErrorCode => error_name(number),
        FieldKind::Subtype => subtype_name(number),
        _ => "",
    }
}

/// The name for one of two octets.
fn pair_name(kind: FieldKind, number: u16) -> &'static str
    ensures { result.now ≡ pair_name kind number }
{
    match kind {
        FieldKind::Afi => afi_name(number),
        _ => "",
    }
}

/// The name for the number in a field.
fn number_name(kind: FieldKind, octets: &[u8]) -> &'static str
    ensures { result.now ≡ number_name kind octets.now }
{
    match octets {
        [a] => octet_name(kind, *a),
        [a, b] => pair_name(kind, u16::from_be_bytes([*a, *b])),
        _ => "",
    }
}

/// Adds an IPv6 address (RFC 5952, section 4).
#[tactic(auto, unfolding(crate::specs::JsonAddress::ip6_text))]
fn put_ip6(text: &mut String, address: [u8; 16]) -> Result<(), AllocError>
    ensures { OnOk result (string_bytes text.new ≡ string_bytes text.old ++ (codes " " ++ ip6_text address)) }
{
    let groups = Ipv6Addr::from_octets(address).hex_groups();
    write!(text, " {groups}")
}

/// Adds an address, of four octets or of sixteen.
pub(crate) fn put_address(text: &mut String, octets: &[u8]) -> Result<(), AllocError>
    ensures { OnOk result (string_bytes text.new ≡ string_bytes text.old ++ address_text octets.now) }
{
    if let Some(address) = octets.as_array::<4>() {
        text.push_str(" ")?;
        return put_one(text, Address(*address));
    }
    if let Some(address) = octets.as_array::<16>() {
        return put_ip6(text, *address);
    }
    Ok(())
}

/// Adds a value after a space.
fn put_behind_space<T: Short>(text: &mut String, value: T) -> Result<(), AllocError>
    requires { T.most + 3 ≤ 72 }
    ensures { OnOk result (string_bytes text.new ≡ string_bytes text.old ++ (codes " " ++ T.text value)) }
{
    let mut word = Word::new();
    value.put(&mut word);
    word.character(b' ');
    text.push_str(word.text())
}

/// Adds values, each after a space.
fn put_each<T: Short, S: Source<Item = T>>(text: &mut String, values: S) -> Result<(), AllocError>
    requires { T.most + 3 ≤ 72 }
    ensures { OnOk result (string_bytes text.new ≡ string_bytes text.old ++ flat_map (λ v. codes " " ++ T.text v) (S.left values)) }
{
    let mut left = values;
    'row: while let Some(value) = left.step() {
        put_behind_space(text, value)?;
    }
    Ok(())
}

/// Adds the prefix of a field of IPv4.
fn put_prefixes4(text: &mut String, octets: &[u8]) -> Result<(), AllocError>
    ensures { OnOk result (string_bytes text.new ≡ string_bytes text.old ++ prefixes4_text octets.now) }
{
    put_each(text, PrefixIter::<4>::new(octets))
}

/// Adds an IPv6 prefix.
fn put_prefix6(text: &mut String, prefix: Prefix6) -> Result<(), AllocError>
    ensures { OnOk result (string_bytes text.new ≡ string_bytes text.old ++ prefix6_text prefix) }
{
    put_ip6(text, prefix.addr())?;
    text.push_str("/")?;
    put_one(text, Decimal(prefix.len()))
}

/// Adds the prefix of a field of IPv6.
fn put_prefixes6(text: &mut String, octets: &[u8]) -> Result<(), AllocError>
    ensures { OnOk result (string_bytes text.new ≡ string_bytes text.old ++ prefixes6_text octets.now) }
{
    let mut left = PrefixIter::<16>::new(octets);
    'row: while let Some(prefix) = left.step() {
        put_prefix6(text, prefix)?;
    }
    Ok(())
}

/// The first octet; 0 if there is none.
pub(crate) fn octet_at(octets: &[u8], at: usize) -> u8
    ensures { result ≡ slice_index octets.now at }
{
    match octets.get(at) {
        Some(octet) => *octet,
        None => 0,
    }
}

/// Adds the flags of an attribute by name.
fn put_flags(text: &mut String, flags: Flags) -> Result<(), AllocError>
    ensures { OnOk result (string_bytes text.new ≡ string_bytes text.old ++ flags_text flags.0) }
{
    let optional = if flags.is_optional() {
        " optional"
    } else {
        " well-known"
    };
    let transitive = if flags.is_transitive() {
        " transitive"
    } else {
        " non-transitive"
    };
    text.push_str(optional)?;
    text.push_str(transitive)?;
    text.push_str(if flags.is_partial() { " partial" } else { "" })?;
    text.push_str(if flags.is_extended() { " extended" } else { "" })
}

/// Adds a community, and its name if it is well-known.
fn put_community(text: &mut String, community: u32) -> Result<(), AllocError>
    ensures { OnOk result (string_bytes text.new ≡ string_bytes text.old ++ named_community community) }
{
    put_one(text, community)?;
    put_spaced(text, community_name(community))
}

/// Adds a large community.
fn put_large(text: &mut String, octets: &[u8]) -> Result<(), AllocError>
    ensures { OnOk result (string_bytes text.new ≡ string_bytes text.old ++ large_value octets.now) }
{
    let first = octets.split_at(octets.len().min(4));
    let second = first.1.split_at(first.1.len().min(4));
    put_one(
        text,
        [number_in(first.0), number_in(second.0), number_in(second.1)],
    )
}

/// Adds text from a peer, as a string, unless it is empty.
pub(crate) fn put_said(text: &mut String, said: &str) -> Result<(), AllocError>
    ensures { OnOk result (string_bytes text.new ≡ string_bytes text.old ++ said_text said.now) }
{
    if said.is_empty() {
        return Ok(());
    }
    text.push_str(" ")?;
    put_escaped(text, said)
}

/// Adds the subcode of a NOTIFICATION, and its name.
fn put_subcode(text: &mut String, message: &[u8], number: u32) -> Result<(), AllocError>
    ensures { OnOk result (string_bytes text.new ≡ string_bytes text.old ++ numbered (subcode_name (code_in message.now) (subcode_in message.now)) number) }
{
    let name = subcode_name(octet_at(message, 19), octet_at(message, 20));
    put_numbered(text, name, number)
}

/// Adds the text of a NOTIFICATION that shuts a session down.
fn put_data(text: &mut String, message: &[u8], octets: &[u8]) -> Result<(), AllocError>
    ensures { OnOk result (string_bytes text.new ≡ string_bytes text.old ++ said_text (shutdown_text (code_in message.now) (subcode_in message.now) octets.now)) }
{
    let said = shutdown_text(octet_at(message, 19), octet_at(message, 20), octets);
    put_said(text, said)
}

/// Adds the value of a field that isn't only a number.
fn put_other(
    text: &mut String,
    message: &[u8],
    kind: FieldKind,
    octets: &[u8],
) -> Result<(), AllocError>
    ensures { OnOk result (string_bytes text.new ≡ string_bytes text.old ++ other_text message.now kind octets.now) }
{
    match kind {
        FieldKind::Identifier | FieldKind::Address | FieldKind::NextHop | FieldKind::LinkLocal =>
            put_address(text, octets),
        FieldKind::WithdrawnPrefix
        | FieldKind::UnreachPrefix4
        | FieldKind::ReachPrefix4
        | FieldKind::NlriPrefix => put_prefixes4(text, octets),
        FieldKind::UnreachPrefix6 | FieldKind::ReachPrefix6 => put_prefixes6(text, octets),
        FieldKind::AttributeFlags => put_flags(text, Flags(octet_at(octets, 0))),
        FieldKind::Community => put_community(text, number_in(octets)),
        FieldKind::LargeCommunity => put_large(text, octets),
        FieldKind::ErrorSubcode => put_subcode(text, message, number_in(octets)),
        FieldKind::Data => put_data(text, message, octets),
        _ => Ok(()),
    }
}

/// Adds the value of a field's octets, in a message.
#[tactic(auto, unfolding(crate::specs::FieldValues::value_text))]
pub(crate) fn put_value(
    text: &mut String,
    message: &[u8],
    kind: FieldKind,
    octets: &[u8],
) -> Result<(), AllocError>
    ensures { OnOk result (string_bytes text.new ≡ string_bytes text.old ++ value_text message.now kind octets.now) }
{
    if is_number(kind) {
        return put_numbered(text, number_name(kind, octets), number_in(octets));
    }
    put_other(text, message, kind, octets)
}
