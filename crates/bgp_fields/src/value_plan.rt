//! The next field of the value of an attribute or of a parameter.

ghost use Rattle.std.specs.Prelude.{◌≡◌, if◌then◌else◌};
ghost use Rattle.bgp_fields.specs.Prelude.{is_segment, numbers_behind, behind_number, behind_family, hop_behind, hop_plan, reach_prefixes, capability_value, capability_behind, one, opening, routes_plan, value_plan_in, value_planned};
ghost use Rattle.bgp_fields.specs.declared.kind.FieldKind.TheVariants.{CapabilityCode, CapabilityLength, SegmentType, AsNumber, Address};
ghost use Rattle.bgp_fields.specs.declared.part.ValuePart.TheVariants as value;
ghost use Rattle.bgp_attr.specs.Prelude.{number_width};

use crate::kind::FieldKind;
use crate::octets::{octet, prefix_len, two};
use crate::part::ValuePart;
use crate::plan::ValuePlan;
use crate::reading::{Reading, are_identified};
use bgp_numbers::{afi, capability, safi, segment};
use bgp_open::Context;
use bgp_paths::PathFamilies;

/// A part that can't be read.
const STUCK: ValuePart = ValuePart::All(FieldKind::Unread);

/// A field of `len` octets, and what follows it.
fn one(kind: FieldKind, len: usize, next: ValuePart) -> ValuePlan
    ensures { value_planned result ≡ one kind len next }
{
    ValuePlan {
        kind,
        len,
        begins: None,
        next,
    }
}

/// The width of an AS number.
fn number_width(wide: bool) -> usize
    ensures { result ≡ number_width wide }
{
    if wide { 4 } else { 2 }
}

/// Whether segments of this type are read.
fn is_segment(confederations: bool, code: u8) -> bool
    ensures { result ≡ is_segment confederations code }
{
    match code {
        segment::SET | segment::SEQUENCE => true,
        segment::CONFED_SEQUENCE | segment::CONFED_SET => confederations,
        _ => false,
    }
}

/// What follows the count of a segment, where this number of octets is left.
fn numbers_behind(wide: bool, confederations: bool, count: u8, left: usize) -> ValuePart
    ensures { result ≡ numbers_behind wide confederations count left }
{
    if count > 0 && 1 + usize::from(count) * number_width(wide) <= left {
        ValuePart::Numbers(wide, confederations, count)
    } else {
        STUCK
    }
}

/// What follows an AS number.
fn behind_number(wide: bool, confederations: bool, left: u8) -> ValuePart
    ensures { result ≡ behind_number wide confederations left }
{
    if left > 1 {
        ValuePart::Numbers(wide, confederations, left - 1)
    } else {
        ValuePart::Segment(wide, confederations)
    }
}

/// What follows a family.
fn behind_family(ctx: &Context, reach: bool, family: u16, subsequent: u8) -> ValuePart
    ensures { result ≡ behind_family ctx.now reach family subsequent }
{
    if subsequent != safi::UNICAST {
        return STUCK;
    }
    match family {
        afi::IPV4 if ctx.ip4 && reach => ValuePart::NextHopLength(false),
        afi::IPV4 if ctx.ip4 => ValuePart::Prefixes(FieldKind::UnreachPrefix4, false),
        afi::IPV6 if ctx.ip6 && reach => ValuePart::NextHopLength(true),
        afi::IPV6 if ctx.ip6 => ValuePart::Prefixes(FieldKind::UnreachPrefix6, true),
        _ => STUCK,
    }
}

/// What follows the length of a next hop.
fn hop_behind(ip6: bool, len: u8) -> ValuePart
    ensures { result ≡ hop_behind ip6 len }
{
    match (ip6, len) {
        (true, 16 | 32) | (false, 4) => ValuePart::NextHop(ip6, len),
        _ => STUCK,
    }
}

/// The prefixes of MP_REACH_NLRI.
fn reach_prefixes(ip6: bool) -> ValuePart
    ensures { result ≡ reach_prefixes ip6 }
{
    if ip6 {
        ValuePart::Prefixes(FieldKind::ReachPrefix6, true)
    } else {
        ValuePart::Prefixes(FieldKind::ReachPrefix4, false)
    }
}

/// The value of a capability.
fn capability_value(code: u8, len: u8) -> ValuePart
    ensures { result ≡ capability_value code len }
{
    match code {
        capability::MULTIPROTOCOL if len == 4 => ValuePart::CapabilityAfi,
        capability::FOUR_OCTET_AS if len == 4 => ValuePart::Capability(FieldKind::AsNumber, len),
        capability::MULTIPROTOCOL | capability::FOUR_OCTET_AS => {
            ValuePart::Capability(FieldKind::Unread, len)
        }
        _ => ValuePart::Capability(FieldKind::CapabilityValue, len),
    }
}

/// What follows the length of a capability, where this number of octets is left.
fn capability_behind(code: u8, len: u8, left: usize) -> ValuePart
    ensures { result ≡ capability_behind code len left }
{
    if left < 1 + usize::from(len) {
        STUCK
    } else if len == 0 {
        ValuePart::CapabilityCode
    } else {
        capability_value(code, len)
    }
}

/// A next hop, and what follows it.
fn next_hop(ip6: bool, len: u8) -> ValuePlan
    ensures { value_planned result ≡ hop_plan ip6 len }
{
    if len == 32 {
        one(FieldKind::NextHop, 16, ValuePart::LinkLocal)
    } else {
        one(
            FieldKind::NextHop,
            usize::from(len),
            ValuePart::Reserved(ip6),
        )
    }
}

/// The code of a capability, and what follows it.
fn capability_code(code: u8) -> ValuePlan
    ensures { value_planned result ≡ opening tt CapabilityCode code (value.CapabilityLength code) }
{
    ValuePlan {
        kind: FieldKind::CapabilityCode,
        len: 1,
        begins: Some(code),
        next: ValuePart::CapabilityLength(code),
    }
}

/// The type of a segment, and what follows it.
fn segment_type(wide: bool, confederations: bool, code: u8) -> ValuePlan
    ensures { value_planned result ≡ one SegmentType (if is_segment confederations code then 1 else 0) (value.SegmentCount wide confederations) }
{
    let len = if is_segment(confederations, code) {
        1
    } else {
        0
    };
    one(
        FieldKind::SegmentType,
        len,
        ValuePart::SegmentCount(wide, confederations),
    )
}

/// The AS number of an aggregator, and what follows it.
fn aggregator(wide: bool) -> ValuePlan
    ensures { value_planned result ≡ one AsNumber (number_width wide) (value.One Address 4) }
{
    one(
        FieldKind::AsNumber,
        number_width(wide),
        ValuePart::One(FieldKind::Address, 4),
    )
}

/// An AS number of a segment, and what follows it.
fn number(wide: bool, confederations: bool, left: u8) -> ValuePlan
    ensures { value_planned result ≡ one AsNumber (number_width wide) (behind_number wide confederations left) }
{
    one(
        FieldKind::AsNumber,
        number_width(wide),
        behind_number(wide, confederations, left),
    )
}

/// The length of a capability, and what follows it.
fn capability_length(code: u8, len: u8, left: usize) -> ValuePlan
    ensures { value_planned result ≡ one CapabilityLength 1 (capability_behind code len left) }
{
    one(
        FieldKind::CapabilityLength,
        1,
        capability_behind(code, len, left),
    )
}

/// The next field of routes: a path identifier, where they have some, else a prefix of this length in bits, a field of this kind.
#[inline(always)]
fn routes(paths: Option<PathFamilies>, kind: FieldKind, ip6: bool, bits: u8) -> ValuePlan
    ensures { value_planned result ≡ routes_plan paths kind ip6 bits }
{
    if are_identified(paths, ip6) {
        return one(
            FieldKind::PathIdentifier,
            4,
            ValuePart::PathPrefix(kind, ip6),
        );
    }
    one(kind, prefix_len(ip6, bits), ValuePart::Prefixes(kind, ip6))
}

/// The next field of these octets.
#[inline(always)]
pub(crate) fn value_plan(reading: &Reading, part: ValuePart, octets: &[u8]) -> ValuePlan
    ensures { value_planned result ≡ value_plan_in reading.now part octets.now }
{
    let first = octet(octets, 0);
    match part {
        ValuePart::One(kind, n) => one(kind, usize::from(n), STUCK),
        ValuePart::Row(kind, n) => one(kind, usize::from(n), part),
        ValuePart::Prefixes(kind, ip6) => routes(reading.paths, kind, ip6, first),
        ValuePart::PathPrefix(kind, ip6) => one(
            kind,
            prefix_len(ip6, first),
            ValuePart::Prefixes(kind, ip6),
        ),
        ValuePart::Aggregator(wide) => aggregator(wide),
        ValuePart::Segment(wide, confederations) => segment_type(wide, confederations, first),
        ValuePart::SegmentCount(wide, confederations) => one(
            FieldKind::SegmentCount,
            1,
            numbers_behind(wide, confederations, first, octets.len()),
        ),
        ValuePart::Numbers(wide, confederations, left) => number(wide, confederations, left),
        ValuePart::Afi(reach) => one(FieldKind::Afi, 2, ValuePart::Safi(reach, two(octets))),
        ValuePart::Safi(reach, family) => one(
            FieldKind::Safi,
            1,
            behind_family(&reading.ctx, reach, family, first),
        ),
        ValuePart::NextHopLength(ip6) => one(FieldKind::NextHopLength, 1, hop_behind(ip6, first)),
        ValuePart::NextHop(ip6, n) => next_hop(ip6, n),
        ValuePart::LinkLocal => one(FieldKind::LinkLocal, 16, ValuePart::Reserved(true)),
        ValuePart::Reserved(ip6) => one(FieldKind::Reserved, 1, reach_prefixes(ip6)),
        ValuePart::CapabilityCode => capability_code(first),
        ValuePart::CapabilityLength(code) => capability_length(code, first, octets.len()),
        ValuePart::Capability(kind, n) => one(kind, usize::from(n), ValuePart::CapabilityCode),
        ValuePart::CapabilityAfi => one(FieldKind::Afi, 2, ValuePart::CapabilityReserved),
        ValuePart::CapabilityReserved => one(FieldKind::Reserved, 1, ValuePart::CapabilitySafi),
        ValuePart::CapabilitySafi => one(FieldKind::Safi, 1, ValuePart::CapabilityCode),
        ValuePart::All(kind) => one(kind, octets.len(), STUCK),
    }
}
