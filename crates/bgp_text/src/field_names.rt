//! The names of fields.

ghost use Rattle.std.specs.Prelude.{◌≡◌};
ghost use Rattle.bgp_text.specs.FieldNames.{field_name};

use bgp_fields::FieldKind;

/// The name of a field by its kind, as the RFCs have it.
#[tactic(auto, unfolding(crate::specs::FieldNames::field_name))]
pub fn field_name(kind: FieldKind) -> &'static str
    ensures { result.now ≡ field_name kind }
{
    match kind {
        FieldKind::Marker => "Marker",
        FieldKind::MessageLength => "Length",
        FieldKind::MessageType => "Type",
        FieldKind::Version => "Version",
        FieldKind::MyAs => "My Autonomous System",
        FieldKind::HoldTime => "Hold Time",
        FieldKind::Identifier => "BGP Identifier",
        FieldKind::ParametersLength => "Opt Parm Len",
        FieldKind::ParameterType => "Parm. Type",
        FieldKind::ParameterLength => "Parm. Length",
        FieldKind::CapabilityCode => "Capability Code",
        FieldKind::CapabilityLength => "Capability Length",
        FieldKind::CapabilityValue => "Capability Value",
        FieldKind::Afi => "AFI",
        FieldKind::Safi => "SAFI",
        FieldKind::Reserved => "Reserved",
        FieldKind::AsNumber => "AS",
        FieldKind::WithdrawnLength => "Withdrawn Routes Length",
        FieldKind::AttributesLength => "Total Path Attribute Length",
        FieldKind::AttributeFlags => "Attr. Flags",
        FieldKind::AttributeType => "Attr. Type Code",
        FieldKind::AttributeLength => "Attribute Length",
        FieldKind::Origin => "ORIGIN",
        FieldKind::SegmentType => "path segment type",
        FieldKind::SegmentCount => "path segment length",
        FieldKind::Address => "address",
        FieldKind::Med => "MULTI_EXIT_DISC",
        FieldKind::LocalPref => "LOCAL_PREF",
        FieldKind::Community => "community",
        FieldKind::LargeCommunity => "large community",
        FieldKind::NextHopLength => "Length of Next Hop Network Address",
        FieldKind::NextHop => "Network Address of Next Hop",
        FieldKind::LinkLocal => "link-local address of Next Hop",
        FieldKind::AttributeValue => "Attribute Value",
        FieldKind::WithdrawnPrefix => "Withdrawn Routes",
        FieldKind::UnreachPrefix4 => "MP_UNREACH_NLRI",
        FieldKind::UnreachPrefix6 => "MP_UNREACH_NLRI",
        FieldKind::ReachPrefix4 => "MP_REACH_NLRI",
        FieldKind::ReachPrefix6 => "MP_REACH_NLRI",
        FieldKind::NlriPrefix => "Network Layer Reachability Information",
        FieldKind::ErrorCode => "Error Code",
        FieldKind::ErrorSubcode => "Error Subcode",
        FieldKind::Data => "Data",
        FieldKind::PathIdentifier => "Path Identifier",
        FieldKind::Subtype => "Message Subtype",
        FieldKind::Unread => "unread",
    }
}
