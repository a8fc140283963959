//! The next field of Withdrawn Routes, Path Attributes or Optional Parameters.

ghost use Rattle.std.specs.Prelude.{◌≡◌};
ghost use Rattle.bgp_attr.specs.Prelude.{length_width};
ghost use Rattle.bgp_fields.specs.Prelude.{attribute_value, attribute_len, nothing_inside, leaf, opening, behind, parameter_value, section_plan_in, section_planned, withdrawn_plan};
ghost use Rattle.bgp_fields.specs.declared.kind.FieldKind.TheVariants.{AttributeLength, ParameterLength};
ghost use Rattle.bgp_fields.specs.declared.part.SectionPart.TheVariants as section;

use crate::kind::FieldKind;
use crate::octets::{octet, prefix_len, two};
use crate::part::{SectionPart, ValuePart};
use crate::plan::SectionPlan;
use crate::reading::{Reading, are_identified};
use bgp_attr::Flags;
use bgp_numbers::{attribute, parameter};
use bgp_open::Context;
use bgp_paths::PathFamilies;

/// Nothing inside.
const NOTHING: ValuePart = ValuePart::All(FieldKind::Unread);

/// The first part of an attribute's value, by its type.
pub(crate) fn attribute_value(ctx: &Context, kind: u8) -> ValuePart
    ensures { result ≡ attribute_value ctx.now kind }
{
    match kind {
        attribute::ORIGIN => ValuePart::One(FieldKind::Origin, 1),
        attribute::AS_PATH => ValuePart::Segment(ctx.as4, false),
        attribute::NEXT_HOP => ValuePart::One(FieldKind::Address, 4),
        attribute::MULTI_EXIT_DISC => ValuePart::One(FieldKind::Med, 4),
        attribute::LOCAL_PREF => ValuePart::One(FieldKind::LocalPref, 4),
        attribute::ATOMIC_AGGREGATE => NOTHING,
        attribute::AGGREGATOR => ValuePart::Aggregator(ctx.as4),
        attribute::COMMUNITIES => ValuePart::Row(FieldKind::Community, 4),
        attribute::MP_REACH_NLRI => ValuePart::Afi(true),
        attribute::MP_UNREACH_NLRI => ValuePart::Afi(false),
        attribute::AS4_PATH => ValuePart::Segment(true, true),
        attribute::AS4_AGGREGATOR => ValuePart::Aggregator(true),
        attribute::LARGE_COMMUNITY => ValuePart::Row(FieldKind::LargeCommunity, 12),
        _ => ValuePart::All(FieldKind::AttributeValue),
    }
}

/// What is inside a parameter, by its type.
fn parameter_value(code: u8) -> ValuePart
    ensures { result ≡ parameter_value code }
{
    if code == parameter::CAPABILITIES {
        ValuePart::CapabilityCode
    } else {
        NOTHING
    }
}

/// A field of `len` octets, and what follows it.
fn leaf(kind: FieldKind, len: usize, next: SectionPart) -> SectionPlan
    ensures { section_planned result ≡ leaf nothing_inside kind len next }
{
    SectionPlan {
        kind,
        len,
        begins: None,
        inner: NOTHING,
        inner_len: 0,
        next,
    }
}

/// A field of one octet, which begins an attribute or a parameter of this code.
fn opening(kind: FieldKind, code: u8, next: SectionPart) -> SectionPlan
    ensures { section_planned result ≡ opening nothing_inside kind code next }
{
    SectionPlan {
        kind,
        len: 1,
        begins: Some(code),
        inner: NOTHING,
        inner_len: 0,
        next,
    }
}

/// The length of a parameter, and what is inside.
fn parameter_length(code: u8, inner_len: u8) -> SectionPlan
    ensures { section_planned result ≡ behind ParameterLength 1 (parameter_value code) inner_len section.ParameterType }
{
    SectionPlan {
        kind: FieldKind::ParameterLength,
        len: 1,
        begins: None,
        inner: parameter_value(code),
        inner_len: usize::from(inner_len),
        next: SectionPart::ParameterType,
    }
}

/// The width of the length field of an attribute with these flags, and the length that octets begin with.
pub(crate) fn length_in(flags: u8, octets: &[u8]) -> (usize, u16)
    ensures width { result.0 ≡ length_width flags }
    ensures len { result.1 ≡ attribute_len flags octets.now }
{
    if Flags(flags).is_extended() {
        (2, two(octets))
    } else {
        (1, u16::from(octet(octets, 0)))
    }
}

/// The length of an attribute, and its value.
fn attribute_length(ctx: &Context, flags: u8, kind: u8, octets: &[u8]) -> SectionPlan
    ensures { section_planned result
        ≡ behind AttributeLength (length_width flags) (attribute_value ctx.now kind) (attribute_len flags octets.now) section.AttributeFlags }
{
    let (len, inner_len) = length_in(flags, octets);
    SectionPlan {
        kind: FieldKind::AttributeLength,
        len,
        begins: None,
        inner: attribute_value(ctx, kind),
        inner_len: usize::from(inner_len),
        next: SectionPart::AttributeFlags,
    }
}

/// The next field of Withdrawn Routes: a path identifier, where the routes have some, else a prefix of this length in bits.
#[inline(always)]
fn withdrawn(paths: Option<PathFamilies>, bits: u8) -> SectionPlan
    ensures { section_planned result ≡ withdrawn_plan paths bits }
{
    if are_identified(paths, false) {
        return leaf(FieldKind::PathIdentifier, 4, SectionPart::WithdrawnPrefix);
    }
    leaf(
        FieldKind::WithdrawnPrefix,
        prefix_len(false, bits),
        SectionPart::Withdrawn,
    )
}

/// The next field of these octets.
#[inline(always)]
pub(crate) fn section_plan(reading: &Reading, part: SectionPart, octets: &[u8]) -> SectionPlan
    ensures { section_planned result ≡ section_plan_in reading.now part octets.now }
{
    let first = octet(octets, 0);
    match part {
        SectionPart::Withdrawn => withdrawn(reading.paths, first),
        SectionPart::WithdrawnPrefix => leaf(
            FieldKind::WithdrawnPrefix,
            prefix_len(false, first),
            SectionPart::Withdrawn,
        ),
        SectionPart::ParameterType => opening(
            FieldKind::ParameterType,
            first,
            SectionPart::ParameterLength(first),
        ),
        SectionPart::ParameterLength(code) => parameter_length(code, first),
        SectionPart::AttributeFlags => opening(
            FieldKind::AttributeFlags,
            octet(octets, 1),
            SectionPart::AttributeType(first),
        ),
        SectionPart::AttributeType(flags) => leaf(
            FieldKind::AttributeType,
            1,
            SectionPart::AttributeLength(flags, first),
        ),
        SectionPart::AttributeLength(flags, kind) => {
            attribute_length(&reading.ctx, flags, kind, octets)
        }
        SectionPart::All(kind) => leaf(kind, octets.len(), SectionPart::All(FieldKind::Unread)),
    }
}
