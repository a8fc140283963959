//! The kinds of fields by number, and their names.

ghost use Rattle.std.specs.Prelude.{◌≡◌, Some};
ghost use Rattle.bgp_fields.specs.declared.kind.FieldKind.{FieldKind as Kind};
ghost use Rattle.ristulva_c.specs.Prelude.{number_of_kind, kind_of, Names};

use crate::status::RANGE;
use crate::written::write;
use bgp_fields::FieldKind;
use bgp_text::field_name;

/// The number of a kind.
pub(crate) fn number_of_kind(kind: FieldKind) -> u8
    ensures { result ≡ number_of_kind kind }
{
    match kind {
        FieldKind::Marker => 1,
        FieldKind::MessageLength => 2,
        FieldKind::MessageType => 3,
        FieldKind::Version => 4,
        FieldKind::MyAs => 5,
        FieldKind::HoldTime => 6,
        FieldKind::Identifier => 7,
        FieldKind::ParametersLength => 8,
        FieldKind::ParameterType => 9,
        FieldKind::ParameterLength => 10,
        FieldKind::CapabilityCode => 11,
        FieldKind::CapabilityLength => 12,
        FieldKind::CapabilityValue => 13,
        FieldKind::Afi => 14,
        FieldKind::Safi => 15,
        FieldKind::Reserved => 16,
        FieldKind::AsNumber => 17,
        FieldKind::WithdrawnLength => 18,
        FieldKind::AttributesLength => 19,
        FieldKind::AttributeFlags => 20,
        FieldKind::AttributeType => 21,
        FieldKind::AttributeLength => 22,
        FieldKind::Origin => 23,
        FieldKind::SegmentType => 24,
        FieldKind::SegmentCount => 25,
        FieldKind::Address => 26,
        FieldKind::Med => 27,
        FieldKind::LocalPref => 28,
        FieldKind::Community => 29,
        FieldKind::LargeCommunity => 30,
        FieldKind::NextHopLength => 31,
        FieldKind::NextHop => 32,
        FieldKind::LinkLocal => 33,
        FieldKind::AttributeValue => 34,
        FieldKind::WithdrawnPrefix => 35,
        FieldKind::UnreachPrefix4 => 36,
        FieldKind::UnreachPrefix6 => 37,
        FieldKind::ReachPrefix4 => 38,
        FieldKind::ReachPrefix6 => 39,
        FieldKind::NlriPrefix => 40,
        FieldKind::ErrorCode => 41,
        FieldKind::ErrorSubcode => 42,
        FieldKind::Data => 43,
        FieldKind::Unread => 44,
        FieldKind::Subtype => 45,
        FieldKind::PathIdentifier => 46,
    }
}

/// The kind of a number.
#[tactic(auto, unfolding(crate::specs::FieldKinds::kind_of))]
fn kind_of(number: u32) -> Option<FieldKind>
    ensures { result ≡ kind_of number }
{
    match number {
        1 => Some(FieldKind::Marker),
        2 => Some(FieldKind::MessageLength),
        3 => Some(FieldKind::MessageType),
        4 => Some(FieldKind::Version),
        5 => Some(FieldKind::MyAs),
        6 => Some(FieldKind::HoldTime),
        7 => Some(FieldKind::Identifier),
        8 => Some(FieldKind::ParametersLength),
        9 => Some(FieldKind::ParameterType),
        10 => Some(FieldKind::ParameterLength),
        11 => Some(FieldKind::CapabilityCode),
        12 => Some(FieldKind::CapabilityLength),
        13 => Some(FieldKind::CapabilityValue),
        14 => Some(FieldKind::Afi),
        15 => Some(FieldKind::Safi),
        16 => Some(FieldKind::Reserved),
        17 => Some(FieldKind::AsNumber),
        18 => Some(FieldKind::WithdrawnLength),
        19 => Some(FieldKind::AttributesLength),
        20 => Some(FieldKind::AttributeFlags),
        21 => Some(FieldKind::AttributeType),
        22 => Some(FieldKind::AttributeLength),
        23 => Some(FieldKind::Origin),
        24 => Some(FieldKind::SegmentType),
        25 => Some(FieldKind::SegmentCount),
        26 => Some(FieldKind::Address),
        27 => Some(FieldKind::Med),
        28 => Some(FieldKind::LocalPref),
        29 => Some(FieldKind::Community),
        30 => Some(FieldKind::LargeCommunity),
        31 => Some(FieldKind::NextHopLength),
        32 => Some(FieldKind::NextHop),
        33 => Some(FieldKind::LinkLocal),
        34 => Some(FieldKind::AttributeValue),
        35 => Some(FieldKind::WithdrawnPrefix),
        36 => Some(FieldKind::UnreachPrefix4),
        37 => Some(FieldKind::UnreachPrefix6),
        38 => Some(FieldKind::ReachPrefix4),
        39 => Some(FieldKind::ReachPrefix6),
        40 => Some(FieldKind::NlriPrefix),
        41 => Some(FieldKind::ErrorCode),
        42 => Some(FieldKind::ErrorSubcode),
        43 => Some(FieldKind::Data),
        44 => Some(FieldKind::Unread),
        45 => Some(FieldKind::Subtype),
        46 => Some(FieldKind::PathIdentifier),
        _ => None,
    }
}

/// Writes the name of a kind of field, as `bgp explain` prints it.
#[unsafe(no_mangle)]
pub extern "C" fn ristulva_field_name(kind: u32, buffer: &mut [u8], len: &mut usize) -> u32
    ensures name { Names kind (record { status = result; before = buffer.old; behind = buffer.new; len_before = len.old; len_behind = len.new }) }
    // Each kind has a number of its own.
    ensures each { (k : Kind) → kind_of (number_of_kind k) ≡ Some k }
{
    match kind_of(kind) {
        Some(found) => write(field_name(found).as_bytes(), buffer, len),
        None => RANGE,
    }
}
