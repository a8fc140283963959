//! What was expected where a message is at fault, and which of an attribute's fields is at fault.

ghost use Rattle.std.specs.Prelude.{◌≡◌, ◌+◌};
ghost use Rattle.bgp_text.specs.Below.{octets_in};
ghost use Rattle.bgp_text.specs.Reasons.{cause_wanted, flags_wanted, header_wanted, is_as, is_at, is_blamed, is_count, is_family, is_flags, is_in, is_length, is_of, is_segment, is_strange, is_type, is_unread, is_value, is_wrong, length_wanted, note_end, note_place, note_wanted, open_wanted};

use crate::field_values::{number_in, octet_at, part};
use bgp_attr::{Flags, Why};
use bgp_fields::{Cause, Field, FieldKind, Group};
use bgp_update::Note;

/// The flags that an attribute of a type has.
#[tactic(auto, unfolding(crate::specs::Reasons::flags_wanted))]
fn flags_wanted(kind: u8) -> &'static str
    ensures { result.now ≡ flags_wanted kind }
{
    match kind {
        1 => "well-known transitive",
        2 => "well-known transitive",
        3 => "well-known transitive",
        4 => "optional non-transitive",
        5 => "well-known transitive",
        6 => "well-known transitive",
        7 => "optional transitive",
        8 => "optional transitive",
        14 => "optional non-transitive",
        15 => "optional non-transitive",
        17 => "optional transitive",
        18 => "optional transitive",
        32 => "optional transitive",
        _ => "",
    }
}

/// The length of its value.
#[tactic(auto, unfolding(crate::specs::Reasons::length_wanted))]
fn length_wanted(kind: u8) -> &'static str
    ensures { result.now ≡ length_wanted kind }
{
    match kind {
        1 => "1",
        3 => "4",
        4 => "4",
        5 => "4",
        6 => "0",
        7 => "6, or 8 with AS numbers of four octets",
        8 => "a multiple of 4, above 0",
        17 => "a multiple of 2, at least 6",
        18 => "8",
        32 => "a multiple of 12, above 0",
        _ => "",
    }
}

/// What was expected of an attribute of a type that has a note.
#[tactic(auto, unfolding(crate::specs::Reasons::note_wanted))]
pub(crate) fn note_wanted(kind: u8, why: Why) -> &'static str
    ensures { result.now ≡ note_wanted kind why }
{
    match why {
        Why::Flags => flags_wanted(kind),
        Why::Length => length_wanted(kind),
        Why::Value => "0 to 2",
        Why::SegmentType => { if kind == 17 { "1 to 4" } else { "1 or 2" } }
        Why::SegmentCount => "at least 1",
        Why::SegmentEnd => "a type, a length, and as many AS numbers",
        Why::Repeated => "one of each type",
        Why::External => "none from an external peer",
        Why::FourOctet => "none where both sides have AS numbers of four octets",
        Why::Family => "a family that both sides agreed on",
        Why::Unneeded => "none without NLRI",
        Why::Emptied => "a segment that isn't of a confederation",
        Why::Cut => "an end inside the attributes",
        Why::Missing => "one with these routes",
        Why::AsZero => "an AS number above 0",
    }
}

/// What was expected of a header, by the subcode of the NOTIFICATION.
#[tactic(auto, unfolding(crate::specs::Reasons::header_wanted))]
fn header_wanted(subcode: u8) -> &'static str
    ensures { result.now ≡ header_wanted subcode }
{
    match subcode {
        1 => "sixteen octets ff",
        2 => "19 to 4096, and what the type needs",
        3 => "1 to 4, or 5 where the receiver offers ROUTE-REFRESH",
        _ => "",
    }
}

/// What was expected of an OPEN.
#[tactic(auto, unfolding(crate::specs::Reasons::open_wanted))]
fn open_wanted(subcode: u8) -> &'static str
    ensures { result.now ≡ open_wanted subcode }
{
    match subcode {
        0 => "a length that fits",
        1 => "4",
        3 => "an identifier above 0",
        4 => "2",
        6 => "0, or at least 3",
        _ => "",
    }
}

/// What was expected of a message that causes a NOTIFICATION with a subcode.
#[tactic(auto, unfolding(crate::specs::Reasons::cause_wanted))]
pub(crate) fn cause_wanted(cause: Cause, subcode: u8) -> &'static str
    ensures { result.now ≡ cause_wanted cause subcode }
{
    match cause {
        Cause::Header => header_wanted(subcode),
        Cause::Open => open_wanted(subcode),
        Cause::Lengths => "an end inside the message",
        Cause::Prefix => "a length of at most 32, and its octets",
        Cause::WellKnown => "a known type, or the Optional bit",
        Cause::SecondRoutes => "one of each type",
        Cause::CutRoutes => "an end inside the attributes",
        Cause::RouteFlags => "optional non-transitive",
        Cause::RouteLength =>
            "a family, a next hop, and prefixes of at most 32 bits, or 128 of IPv6",
        Cause::NextHop => "4 for IPv4, 16 or 32 for IPv6",
        Cause::RoutePrefix =>
            "a family, a next hop, and prefixes of at most 32 bits, or 128 of IPv6",
        Cause::NothingAnnounced => "routes that can be withdrawn",
    }
}

fn is_flags(kind: FieldKind) -> bool
    ensures { result ≡ is_flags kind }
{
    match kind {
        FieldKind::AttributeFlags => true,
        _ => false,
    }
}

fn is_type(kind: FieldKind) -> bool
    ensures { result ≡ is_type kind }
{
    match kind {
        FieldKind::AttributeType => true,
        _ => false,
    }
}

fn is_length(kind: FieldKind) -> bool
    ensures { result ≡ is_length kind }
{
    match kind {
        FieldKind::AttributeLength => true,
        _ => false,
    }
}

fn is_segment(kind: FieldKind) -> bool
    ensures { result ≡ is_segment kind }
{
    match kind {
        FieldKind::SegmentType => true,
        _ => false,
    }
}

fn is_count(kind: FieldKind) -> bool
    ensures { result ≡ is_count kind }
{
    match kind {
        FieldKind::SegmentCount => true,
        _ => false,
    }
}

fn is_unread(kind: FieldKind) -> bool
    ensures { result ≡ is_unread kind }
{
    match kind {
        FieldKind::Unread => true,
        _ => false,
    }
}

fn is_as(kind: FieldKind) -> bool
    ensures { result ≡ is_as kind }
{
    match kind {
        FieldKind::AsNumber => true,
        _ => false,
    }
}

fn is_family(kind: FieldKind) -> bool
    ensures { result ≡ is_family kind }
{
    match kind {
        FieldKind::Afi => true,
        _ => false,
    }
}

/// Whether a field is of the value.
fn is_value(kind: FieldKind) -> bool
    ensures { result ≡ is_value kind }
{
    match kind {
        FieldKind::AttributeFlags | FieldKind::AttributeType | FieldKind::AttributeLength => false,
        _ => true,
    }
}

/// Whether a segment of this type can't be in an attribute of a type.
fn is_strange(kind: u8, number: u32) -> bool
    ensures { result ≡ is_strange kind number }
{
    let most = if kind == 17 { 4 } else { 2 };
    number == 0 || number > most
}

/// Whether a field of this kind, with these octets, is the one at fault in an attribute of a type.
fn is_blamed(why: Why, kind: u8, octets: &[u8], field: FieldKind) -> bool
    ensures { result ≡ is_blamed why kind octets.now field }
{
    match why {
        Why::Flags => is_flags(field),
        Why::Length => is_length(field),
        Why::Value => is_value(field),
        Why::SegmentType => is_segment(field) && is_strange(kind, number_in(octets)),
        Why::SegmentCount => is_count(field) && number_in(octets) == 0,
        Why::SegmentEnd => is_unread(field),
        Why::Repeated => is_type(field),
        Why::External => is_type(field),
        Why::FourOctet => is_type(field),
        Why::Family => is_family(field),
        Why::Unneeded => is_type(field),
        Why::Emptied => is_type(field),
        Why::Cut => is_length(field),
        Why::Missing => false,
        Why::AsZero => is_as(field) && number_in(octets) == 0,
    }
}

/// Where the attribute of a note begins in the message.
pub(crate) fn note_place(note: &Note) -> u32
    ensures { result ≡ note_place note.now }
{
    u32::from(note.at) + 19
}

/// Where its value ends.
fn note_end(message: &[u8], note: &Note) -> u32
    ensures { result ≡ note_end message.now note.now }
{
    let at = usize::from(note.at) + 19;
    let place = note_place(note);
    if Flags(octet_at(message, at)).is_extended() {
        let high = u32::from(octet_at(message, at + 2));
        place + (4 + (high * 256 + u32::from(octet_at(message, at + 3))))
    } else {
        place + (3 + u32::from(octet_at(message, at + 2)))
    }
}

/// Whether a field is of the attribute that begins at an offset.
pub(crate) fn is_in(place: u32, group: Option<Group>) -> bool
    ensures { result ≡ is_in place group }
{
    match group {
        None => false,
        Some(group) => u32::from(group.at) == place,
    }
}

/// Whether a note has an offset, and a field is of its attribute.
pub(crate) fn is_of(note: &Note, field: &Field) -> bool
    ensures { result ≡ is_of note.now field.now }
{
    note.at > 0 && is_in(note_place(note), field.group)
}

/// Whether a note is reported at a field of its attribute, which has these octets: at the one at fault, else at the last one.
fn is_wrong(message: &[u8], octets: &[u8], note: &Note, field: &Field) -> bool
    requires { octets.now ≡ octets_in message.now field.now }
    ensures { result ≡ is_wrong message.now note.now field.now }
{
    is_blamed(note.why, note.kind, octets, field.kind)
        || note_end(message, note) <= u32::from(field.at) + u32::from(field.len)
}

/// Whether a note is reported at a field: at such a one, or at the first one after its attribute.
pub(crate) fn is_at(message: &[u8], note: &Note, field: &Field) -> bool
    ensures { result ≡ is_at message.now note.now field.now }
{
    if is_of(note, field) {
        let octets = part(message, usize::from(field.at), usize::from(field.len));
        return is_wrong(message, octets, note, field);
    }
    note.at > 0 && note_place(note) < u32::from(field.at)
}
