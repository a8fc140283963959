//! The next field of a message.

ghost use Rattle.std.specs.Prelude.{◌≡◌};
ghost use Rattle.bgp_frame.specs.Prelude.{kind_of};
ghost use Rattle.bgp_fields.specs.declared.kind.FieldKind.TheVariants.{ParametersLength, Unread};
ghost use Rattle.bgp_fields.specs.Prelude.{afi_len, alone, behind, body_part, message_plan_in, message_planned, nlri_plan};
ghost use Rattle.bgp_fields.specs.declared.part.MessagePart.TheVariants as message;
ghost use Rattle.bgp_fields.specs.declared.part.SectionPart.TheVariants as section;

use crate::kind::FieldKind;
use crate::octets::{octet, prefix_len, two};
use crate::part::{MessagePart, SectionPart};
use crate::plan::MessagePlan;
use crate::reading::are_identified;
use bgp_numbers::message;
use bgp_paths::PathFamilies;

/// A part that can't be read.
const STUCK: MessagePart = MessagePart::All(FieldKind::Unread);

/// The first part of a body, by the type of its message.
fn body_part(code: u8) -> MessagePart
    ensures { result ≡ body_part (kind_of code) }
{
    match code {
        message::OPEN => MessagePart::Version,
        message::UPDATE => MessagePart::WithdrawnLength,
        message::NOTIFICATION => MessagePart::ErrorCode,
        _ => STUCK,
    }
}

/// A field of `len` octets, and what follows it.
fn alone(kind: FieldKind, len: usize, next: MessagePart) -> MessagePlan
    ensures { message_planned result ≡ alone kind len next }
{
    behind(kind, len, SectionPart::All(FieldKind::Unread), 0, next)
}

/// A length field of `len` octets, the section inside, and what follows it.
fn behind(
    kind: FieldKind,
    len: usize,
    inner: SectionPart,
    inner_len: usize,
    next: MessagePart,
) -> MessagePlan
    ensures { message_planned result ≡ behind kind len inner inner_len next }
{
    MessagePlan {
        kind,
        len,
        inner,
        inner_len,
        next,
    }
}

/// The length of an OPEN's parameters, and the parameters.
fn parameters_length(len: u8) -> MessagePlan
    ensures { message_planned result ≡ behind ParametersLength 1 section.ParameterType len (message.All Unread) }
{
    behind(
        FieldKind::ParametersLength,
        1,
        SectionPart::ParameterType,
        usize::from(len),
        STUCK,
    )
}

/// The length of the AFI of a ROUTE-REFRESH with this body: 0 where that has fewer than four octets.
fn afi_len(body: &[u8]) -> usize
    ensures { result ≡ afi_len body.now }
{
    if body.len() < 4 { 0 } else { 2 }
}

/// The next field of NLRI: a path identifier, where its routes have some, else a prefix of this length in bits.
#[inline(always)]
fn nlri(paths: Option<PathFamilies>, bits: u8) -> MessagePlan
    ensures { message_planned result ≡ nlri_plan paths bits }
{
    if are_identified(paths, false) {
        return alone(FieldKind::PathIdentifier, 4, MessagePart::NlriPrefix);
    }
    alone(
        FieldKind::NlriPrefix,
        prefix_len(false, bits),
        MessagePart::Nlri,
    )
}

/// The next field of these octets.
#[inline(always)]
pub(crate) fn message_plan(
    paths: Option<PathFamilies>,
    part: MessagePart,
    octets: &[u8],
) -> MessagePlan
    ensures { message_planned result ≡ message_plan_in paths part octets.now }
{
    let first = octet(octets, 0);
    match part {
        MessagePart::Marker => alone(FieldKind::Marker, 16, MessagePart::Length),
        MessagePart::Length => alone(FieldKind::MessageLength, 2, MessagePart::Kind),
        MessagePart::Kind => alone(FieldKind::MessageType, 1, body_part(first)),
        MessagePart::Version => alone(FieldKind::Version, 1, MessagePart::MyAs),
        MessagePart::MyAs => alone(FieldKind::MyAs, 2, MessagePart::HoldTime),
        MessagePart::HoldTime => alone(FieldKind::HoldTime, 2, MessagePart::Identifier),
        MessagePart::Identifier => alone(FieldKind::Identifier, 4, MessagePart::ParametersLength),
        MessagePart::ParametersLength => parameters_length(first),
        MessagePart::WithdrawnLength => behind(
            FieldKind::WithdrawnLength,
            2,
            SectionPart::Withdrawn,
            usize::from(two(octets)),
            MessagePart::AttributesLength,
        ),
        MessagePart::AttributesLength => behind(
            FieldKind::AttributesLength,
            2,
            SectionPart::AttributeFlags,
            usize::from(two(octets)),
            MessagePart::Nlri,
        ),
        MessagePart::Nlri => nlri(paths, first),
        MessagePart::NlriPrefix => alone(
            FieldKind::NlriPrefix,
            prefix_len(false, first),
            MessagePart::Nlri,
        ),
        MessagePart::ErrorCode => alone(FieldKind::ErrorCode, 1, MessagePart::ErrorSubcode),
        MessagePart::ErrorSubcode => alone(
            FieldKind::ErrorSubcode,
            1,
            MessagePart::All(FieldKind::Data),
        ),
        MessagePart::RefreshMarker => alone(FieldKind::Marker, 16, MessagePart::RefreshLength),
        MessagePart::RefreshLength => alone(FieldKind::MessageLength, 2, MessagePart::RefreshType),
        MessagePart::RefreshType => alone(FieldKind::MessageType, 1, MessagePart::RefreshAfi),
        MessagePart::RefreshAfi => alone(
            FieldKind::Afi,
            afi_len(octets),
            MessagePart::RefreshSubtype,
        ),
        MessagePart::RefreshSubtype => alone(FieldKind::Subtype, 1, MessagePart::RefreshSafi),
        MessagePart::RefreshSafi => alone(FieldKind::Safi, 1, STUCK),
        MessagePart::All(kind) => alone(kind, octets.len(), STUCK),
    }
}
