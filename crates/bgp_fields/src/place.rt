//! The span of each fault.

ghost use Rattle.std.specs.Prelude.{◌≡◌, ◌≤◌, ◌+◌, Err, Some, length, drop, option_map};
ghost use Rattle.bgp_frame.specs.declared.fault.HeadFault.{HeadFault};
ghost use Rattle.bgp_frame.specs.Prelude.{IsFrame, head_of, IsLength, message_in};
ghost use Rattle.bgp_frame.specs.Frame as frame;
ghost use Rattle.bgp_attr.specs.Prelude.{one_tlv};
ghost use Rattle.bgp_update.specs.Prelude.{marks_of, attributes_at, behind_two, parts_of};
ghost use Rattle.bgp_msg.specs.Prelude.{out_of, is_reset};
ghost use Rattle.bgp_fields.specs.Prelude.{span, body_place, reset_place, first_other, header_place, attribute_extent, attribute_place, asking_place, bad_prefix, run_place, IsResetPlace, length_place, parts_place, update_place, note_place, says_missing, sections_value};

use crate::asking::first_asking;
use crate::field::Span;
use crate::open_place::open_span;
use crate::rests::rest_of_run;
use crate::sections::{Sections, split_behind, split_body};
use bgp_attr::{TlvIter, Why};
use bgp_frame::{Frame, HeadFault, Kind, Step, front};
use bgp_msg::{OutcomeView, view_frame};
use bgp_open::Context;
use bgp_update::{Note, UpdateView};

/// A number of octets from an offset on.
pub(crate) fn span(at: usize, len: usize) -> Span
    requires at { at ≤ 65535 }
    requires len { len ≤ 65535 }
    ensures { result ≡ span at len }
{
    Span {
        at: at as u16,
        len: len as u16,
    }
}

/// The offset of the first octet that isn't 255, or the number of octets.
fn first_other(octets: &[u8]) -> usize
    ensures value { result ≡ first_other 0 octets.now }
    ensures within { result ≤ length octets.now }
{
    let mut at = 0;
    let mut rest = octets;
    'marker: while let Some((255, after)) = rest.split_first() {
        rest = after;
        at += 1;
    }
    at
}

/// The octets of a header that cause its fault (RFC 4271, section 6.1): the first octet of the Marker that isn't 255, the Length, or the Type.
/// `octets` begin with the header, whose fault it is.
pub fn header_span(octets: &[u8], fault: HeadFault) -> Span
    requires { length octets.now ≤ 65535 }
    ensures { result ≡ header_place octets.now fault }
{
    match fault {
        HeadFault::Marker => span(first_other(octets), 1),
        HeadFault::Length(_) => span(16, 2),
        HeadFault::Kind(_) => span(18, 1),
    }
}

/// The length of the attribute at the front, or of all octets where it is cut off.
fn attribute_extent(octets: &[u8]) -> usize
    ensures value { result ≡ attribute_extent octets.now (one_tlv octets.now) }
    ensures within { result ≤ length octets.now }
{
    let mut tlvs = TlvIter::new(octets);
    match tlvs.next() {
        Some(tlv) => tlv.whole.len(),
        None => octets.len(),
    }
}

/// What is left of octets from an offset on.
fn from_place(octets: &[u8], at: usize) -> &[u8]
    ensures value { result.now ≡ drop at octets.now }
    ensures within { length result.now ≤ length octets.now }
{
    match octets.get(at..) {
        None => &[],
        Some(rest) => rest,
    }
}

/// The attribute at an offset of the field.
pub(crate) fn attribute_span(sections: &Sections<'_>, at: usize) -> Span
    requires at { at ≤ 4096 }
    requires short { length sections.now.withdrawn.now + (length sections.now.attributes.now + length sections.now.nlri.now) ≤ 4096 }
    ensures { result ≡ attribute_place (sections_value sections.now) at }
{
    let rest = from_place(sections.attributes, at);
    span(
        19 + 4 + sections.withdrawn.len() + at,
        attribute_extent(rest),
    )
}

/// The first attribute that calls for a reset, or else for a withdrawal.
fn asking_span(resets: bool, ctx: &Context, sections: &Sections<'_>) -> Option<Span>
    requires { length sections.now.withdrawn.now + (length sections.now.attributes.now + length sections.now.nlri.now) ≤ 4073 }
    ensures { result ≡ asking_place resets (sections_value sections.now) (marks_of ctx.now (sections_value sections.now)) }
{
    let has_nlri = !sections.nlri.is_empty();
    match first_asking(resets, ctx, has_nlri, sections.attributes) {
        None => None,
        Some(at) => Some(attribute_span(sections, at)),
    }
}

/// The first bad prefix of a field that begins at this offset.
pub(crate) fn run_span(at: usize, octets: &[u8]) -> Option<Span>
    requires at { at ≤ 8192 }
    requires short { length octets.now ≤ 8192 }
    ensures { result ≡ run_place at octets.now }
{
    let rest = rest_of_run(octets);
    let (bits, behind) = rest.split_first()?;
    let held = (usize::from(*bits) + 7) / 8;
    Some(span(
        at + octets.len().saturating_sub(rest.len()),
        1 + held.min(behind.len()),
    ))
}

/// The length field that is too large.
pub(crate) fn length_span(body: &[u8]) -> Span
    requires { length body.now ≤ 4096 }
    ensures { result ≡ length_place (behind_two body.now) }
{
    match split_behind(body) {
        Some((withdrawn, rest)) if rest.len() >= 2 => span(21 + withdrawn.len(), 2),
        _ => span(19, 2),
    }
}

/// The octets of these sections that cause a reset, if any do.
fn parts_span(ctx: &Context, sections: &Sections<'_>) -> Option<Span>
    requires { length sections.now.withdrawn.now + (length sections.now.attributes.now + length sections.now.nlri.now) ≤ 4073 }
    ensures { result ≡ parts_place (sections_value sections.now) (marks_of ctx.now (sections_value sections.now)) }
{
    if let Some(found) = asking_span(true, ctx, sections) {
        return Some(found);
    }
    if let Some(found) = run_span(21, sections.withdrawn) {
        return Some(found);
    }
    let nlri_at = 19 + 4 + sections.withdrawn.len() + sections.attributes.len();
    if let Some(found) = run_span(nlri_at, sections.nlri) {
        return Some(found);
    }
    asking_span(false, ctx, sections)
}

/// The octets of an UPDATE's body that cause a reset, if any do.
fn update_span(ctx: &Context, body: &[u8]) -> Option<Span>
    requires { length body.now ≤ 4077 }
    ensures { result ≡ update_place ctx.now body.now (parts_of body.now) }
{
    match split_body(body) {
        None => Some(length_span(body)),
        Some(sections) => parts_span(ctx, &sections),
    }
}

/// The octets of a whole message that a note on it is about: its attribute, or all up to the end of the path attributes where it is cut off.
/// None for a note that an attribute is missing, or of another message.
pub fn note_span(octets: &[u8], note: &Note) -> Option<Span>
    requires { length octets.now ≤ 4096 }
    ensures { result ≡ note_place (drop 19 octets.now) note.now }
{
    let sections = split_body(from_place(octets, 19))?;
    let field_at = 4 + sections.withdrawn.len();
    let at = usize::from(note.at);
    if note.why == Why::Missing || at < field_at || at >= field_at + sections.attributes.len() {
        return None;
    }
    Some(attribute_span(&sections, at - field_at))
}

/// The octets of a whole message that cause a reset in a context, if any do: an OPEN's field, parameter or capability; an UPDATE's attribute,
/// the first bad prefix of a field, or the length field that is too large; for 3/1 in an UPDATE that announces nothing, the first attribute that calls
/// for a withdrawal. None where its outcome is another.
pub fn message_span(ctx: &Context, frame: Frame<'_>) -> Option<Span>
    requires { IsLength frame.kind (19 + length frame.body.now) }
    ensures { result ≡ reset_place ctx.now (message_in frame.entry) }
{
    let mut place = UpdateView::empty();
    match view_frame(ctx, frame, &mut place) {
        OutcomeView::Reset(_) => body_span(ctx, frame.kind, frame.body),
        _ => None,
    }
}

/// The octets of a body that would cause a reset.
fn body_span(ctx: &Context, kind: Kind, body: &[u8]) -> Option<Span>
    requires { IsLength kind (19 + length body.now) }
    ensures { result ≡ body_place ctx.now kind body.now }
{
    match kind {
        Kind::Open => open_span(body),
        Kind::Update => update_span(ctx, body),
        _ => None,
    }
}

/// The octets that cause a reset in a context, if these begin with a whole message or a header with a fault: as by [`header_span`] and
/// [`message_span`], whatever follows. None where there is no reset, or less than a message.
pub fn reset_span(ctx: &Context, octets: &[u8]) -> Option<Span>
    requires { length octets.now ≤ 4096 }
    ensures front { IsResetPlace ctx.now octets.now result }
    ensures message { (m : frame.Message) → IsFrame m octets.now → result ≡ reset_place ctx.now m }
    ensures header { (f : HeadFault) → 19 ≤ length octets.now → head_of octets.now ≡ Err f → result ≡ Some (header_place octets.now f) }
{
    match front(octets) {
        Step::More => None,
        Step::Fault(fault) => Some(header_span(octets, fault)),
        Step::Frame(frame) => message_span(ctx, frame),
    }
}
