//! The test for which a NOTIFICATION is sent.

ghost use Rattle.std.specs.Prelude.{◌≡◌, ◌≤◌, ◌+◌, length, option_map, true};
ghost use Rattle.bgp_frame.specs.Prelude.{IsLength, message_in};
ghost use Rattle.bgp_attr.specs.Prelude.{deciding_test, tlv_at, tlv_value};
ghost use Rattle.bgp_update.specs.Prelude.{marks_of, parts_of};
ghost use Rattle.bgp_fields.specs.Prelude.{answered_cause, asked_cause, attribute_cause, cause_of_test, first_asking, header_fault, reset_cause, reset_fault, sections_value, update_cause};

use crate::asking::first_asking;
use crate::field::Fault;
use crate::place::{header_span, message_span};
use crate::sections::{Sections, split_body};
use bgp_attr::{MpTest, Tlv, deciding_test, tlv_at};
use bgp_frame::{Frame, HeadFault, Kind};
use bgp_msg::{OutcomeView, view_frame};
use bgp_numbers::error::{INVALID_NETWORK_FIELD, MALFORMED_ATTRIBUTE_LIST};
use bgp_open::Context;
use bgp_update::UpdateView;

/// The test for which a message, or a header, causes a NOTIFICATION.
#[derive(Clone, Copy, Debug, PartialEq, Eq)]
pub enum Cause {
    /// A test of a header (RFC 4271, section 6.1).
    Header,
    /// A test of an OPEN (RFC 4271, section 6.2).
    Open,
    /// Withdrawn Routes Length or Total Path Attribute Length is too large (RFC 4271, section 6.3).
    Lengths,
    /// A prefix of Withdrawn Routes or NLRI is too long, or goes past the end (RFC 4271, section 6.3).
    Prefix,
    /// An attribute that isn't recognised is marked as well-known (RFC 4271, section 6.3).
    WellKnown,
    /// A second MP_REACH_NLRI or MP_UNREACH_NLRI (RFC 7606, section 3, item g).
    SecondRoutes,
    /// An MP_REACH_NLRI or MP_UNREACH_NLRI that is cut off: a rule of our own, since its routes can't be read.
    CutRoutes,
    /// The flags of one: a rule of our own, where RFC 7606, section 3, item c, has treat-as-withdraw.
    RouteFlags,
    /// One that is too short for its family and next hop (RFC 7606, section 5.3).
    RouteLength,
    /// The length of the next hop of an MP_REACH_NLRI (RFC 7606, section 7.11).
    NextHop,
    /// A prefix of one is too long, or goes past the end (RFC 7606, section 5.3).
    RoutePrefix,
    /// An attribute calls for treat-as-withdraw where the message announces nothing (RFC 7606, section 5.2).
    NothingAnnounced,
}

/// For an attribute that isn't a second one.
fn cause_of_test(test: Option<MpTest>) -> Cause
    ensures { result ≡ cause_of_test test }
{
    match test {
        Some(MpTest::Flags) => Cause::RouteFlags,
        Some(MpTest::Length) => Cause::RouteLength,
        Some(MpTest::NextHop) => Cause::NextHop,
        Some(MpTest::Prefixes) => Cause::RoutePrefix,
        Some(MpTest::Family) | None => Cause::WellKnown,
    }
}

/// For an attribute, where it is whole, by the subcode of the NOTIFICATION.
fn attribute_cause(ctx: &Context, subcode: u8, tlv: Option<Tlv<'_>>) -> Cause
    ensures { result ≡ attribute_cause ctx.now subcode (option_map tlv_value tlv.entry) }
{
    match tlv {
        None => Cause::CutRoutes,
        Some(_) if subcode == MALFORMED_ATTRIBUTE_LIST => Cause::SecondRoutes,
        Some(tlv) => cause_of_test(deciding_test(ctx, &tlv)),
    }
}

/// For the body of an UPDATE whose lengths fit, by the subcode of the NOTIFICATION.
fn asked_cause(ctx: &Context, subcode: u8, sections: &Sections<'_>) -> Cause
    requires { length sections.now.withdrawn.now + (length sections.now.attributes.now + length sections.now.nlri.now) ≤ 4073 }
    ensures { result ≡ asked_cause ctx.now subcode (sections_value sections.now) (first_asking true (marks_of ctx.now (sections_value sections.now))) }
{
    let field = sections.attributes;
    match first_asking(true, ctx, !sections.nlri.is_empty(), field) {
        Some(at) => attribute_cause(ctx, subcode, tlv_at(field, at)),
        None if subcode == INVALID_NETWORK_FIELD => Cause::Prefix,
        None => Cause::NothingAnnounced,
    }
}

/// For the body of an UPDATE, by the subcode of the NOTIFICATION.
pub(crate) fn update_cause(ctx: &Context, subcode: u8, body: &[u8]) -> Cause
    requires { length body.now ≤ 4077 }
    ensures { result ≡ update_cause ctx.now subcode (parts_of body.now) }
{
    match split_body(body) {
        None => Cause::Lengths,
        Some(sections) => asked_cause(ctx, subcode, &sections),
    }
}

/// For a message with a NOTIFICATION of this subcode.
fn answered_cause(ctx: &Context, kind: Kind, body: &[u8], subcode: u8) -> Cause
    requires { IsLength kind (19 + length body.now) }
    ensures { result ≡ answered_cause ctx.now kind body.now subcode }
{
    match kind {
        Kind::Update => update_cause(ctx, subcode, body),
        _ => Cause::Open,
    }
}

/// The test for which a whole message causes a reset in a context: none where it doesn't.
pub fn message_cause(ctx: &Context, frame: Frame<'_>) -> Option<Cause>
    requires { IsLength frame.kind (19 + length frame.body.now) }
    ensures { result ≡ reset_cause ctx.now (message_in frame.entry) }
{
    let mut place = UpdateView::empty();
    match view_frame(ctx, frame, &mut place) {
        OutcomeView::Reset(answer) => {
            Some(answered_cause(ctx, frame.kind, frame.body, answer.subcode))
        }
        _ => None,
    }
}

/// Why a whole message causes a reset in a context, where it does: [`message_span`] and [`message_cause`].
pub fn message_fault(ctx: &Context, frame: Frame<'_>) -> Option<Fault>
    requires { IsLength frame.kind (19 + length frame.body.now) }
    ensures { result ≡ reset_fault ctx.now (message_in frame.entry) }
{
    let span = message_span(ctx, frame)?;
    let cause = message_cause(ctx, frame)?;
    Some(Fault { span, cause })
}

/// Why a header causes a reset: [`header_span`].
pub fn header_fault(octets: &[u8], fault: HeadFault) -> Fault
    requires { length octets.now ≤ 65535 }
    ensures { result ≡ header_fault octets.now fault }
{
    Fault {
        span: header_span(octets, fault),
        cause: Cause::Header,
    }
}
