//! An outcome as a line of JSON, while it is borrowed.

ghost use Rattle.std.specs.Prelude.{◌≡◌, ◌++◌, [], OnOk};
ghost use Rattle.bgp_text.specs.Below.{decimal, string_bytes, notification_of_view, open_value, update_value, notes_value, routes_value};
ghost use Rattle.bgp_text.specs.Below.{outcome_value};
ghost use Rattle.bgp_msg.specs.declared.message.Message.TheVariants as message;
ghost use Rattle.bgp_text.specs.JsonOutcome.{judged, notification_members, took_members, withdraw_members, reset_members, outcome_members, outcome_json, names_of, count_member, fault_members, span_members};

use crate::json::{
    put_line_end, put_name_member, put_number_member, put_octets_member, put_said_member,
    put_word_member,
};
use crate::json_notes::put_notes_member;
use crate::json_open::put_open_members;
use crate::json_update::{Json, put_routes_member};
use crate::members::put_members;
use crate::outcome_lines::reset_name;
use crate::short::{Decimal, put_one};
use crate::shutdown::shutdown_text;
use bgp_fields::Span;
use bgp_frame::NotificationView;
use bgp_msg::OutcomeView;
use bgp_names::{error_name, subcode_name};
use bgp_open::OpenView;
use bgp_update::UpdateView;
use std::alloc::{AllocError, Global};

/// Adds a number of 64 bits.
fn put_wide(text: &mut String, number: u64) -> Result<(), AllocError>
    ensures { OnOk result (string_bytes text.new ≡ string_bytes text.old ++ decimal number) }
{
    put_one(text, Decimal(number))
}

/// Adds the beginning of an object: a message's offset, its length, what it is, and the verdict on it.
#[tactic(auto, unfolding(crate::specs::JsonOutcome::judged))]
pub(crate) fn put_judged(
    text: &mut String,
    place: u64,
    len: u16,
    kind: &str,
    verdict: &str,
) -> Result<(), AllocError>
    ensures { OnOk result (string_bytes text.new ≡ string_bytes text.old ++ judged place len kind.now verdict.now) }
{
    text.push_str("{\"place\":")?;
    put_wide(text, place)?;
    put_number_member(text, "length", u32::from(len))?;
    put_word_member(text, "kind", kind)?;
    put_word_member(text, "verdict", verdict)
}

/// Adds the names of a NOTIFICATION's code and subcode, and its text if it shuts a session down.
fn put_names(text: &mut String, said: &NotificationView<'_>) -> Result<(), AllocError>
    ensures { OnOk result (string_bytes text.new ≡ string_bytes text.old ++ names_of (notification_of_view said.now)) }
{
    put_name_member(text, "code_name", error_name(said.code))?;
    put_name_member(text, "subcode_name", subcode_name(said.code, said.subcode))?;
    put_said_member(
        text,
        "text",
        shutdown_text(said.code, said.subcode, said.info),
    )
}

/// Adds the content of a NOTIFICATION.
fn put_notification_members(
    text: &mut String,
    said: &NotificationView<'_>,
) -> Result<(), AllocError>
    ensures { OnOk result (string_bytes text.new ≡ string_bytes text.old ++ notification_members (notification_of_view said.now)) }
{
    put_number_member(text, "code", u32::from(said.code))?;
    put_number_member(text, "subcode", u32::from(said.subcode))?;
    put_octets_member(text, "data", said.info)?;
    put_names(text, said)
}

/// An OPEN.
#[tactic(auto, unfolding(crate::specs::JsonOutcome::took_members))]
fn put_opened(
    alloc: Global,
    text: &mut String,
    place: u64,
    len: u16,
    view: &OpenView<'_>,
) -> Result<(), AllocError>
    ensures { OnOk result (string_bytes text.new ≡ string_bytes text.old ++ took_members place len (message.Open (open_value view.now)) []) }
{
    let open = view.own(alloc)?;
    put_judged(text, place, len, "OPEN", "take")?;
    put_open_members(text, &open)
}

/// An UPDATE that is accepted.
#[tactic(auto, unfolding(crate::specs::JsonOutcome::took_members))]
fn put_taken(
    alloc: Global,
    text: &mut String,
    place: u64,
    len: u16,
    view: &UpdateView<'_>,
) -> Result<(), AllocError>
    ensures { OnOk result (string_bytes text.new ≡ string_bytes text.old ++ took_members place len (message.Update (update_value view.now)) (notes_value view.now)) }
{
    put_judged(text, place, len, "UPDATE", "take")?;
    put_members(&Json, alloc, text, view)?;
    put_notes_member(text, view)
}

/// An UPDATE that is treated as a withdrawal.
fn put_withdrawn(
    alloc: Global,
    text: &mut String,
    place: u64,
    len: u16,
    view: &UpdateView<'_>,
) -> Result<(), AllocError>
    ensures { OnOk result (string_bytes text.new ≡ string_bytes text.old ++ withdraw_members place len (routes_value view.now) (notes_value view.now)) }
{
    put_judged(text, place, len, "UPDATE", "withdraw")?;
    put_routes_member(alloc, text, view)?;
    put_notes_member(text, view)
}

/// A NOTIFICATION.
#[tactic(auto, unfolding(crate::specs::JsonOutcome::took_members))]
fn put_received(
    text: &mut String,
    place: u64,
    len: u16,
    said: &NotificationView<'_>,
) -> Result<(), AllocError>
    ensures { OnOk result (string_bytes text.new ≡ string_bytes text.old ++ took_members place len (message.Notification (notification_of_view said.now)) []) }
{
    put_judged(text, place, len, "NOTIFICATION", "take")?;
    put_notification_members(text, said)
}

/// A KEEPALIVE.
#[tactic(auto, unfolding(crate::specs::JsonOutcome::took_members))]
fn put_keepalive(text: &mut String, place: u64, len: u16) -> Result<(), AllocError>
    ensures { OnOk result (string_bytes text.new ≡ string_bytes text.old ++ took_members place len message.Keepalive []) }
{
    put_judged(text, place, len, "KEEPALIVE", "take")
}

/// Adds the number of octets.
#[tactic(auto, unfolding(crate::specs::JsonOutcome::count_member))]
fn put_count(text: &mut String, span: Span) -> Result<(), AllocError>
    ensures { OnOk result (string_bytes text.new ≡ string_bytes text.old ++ count_member span) }
{
    put_number_member(text, "fault_length", u32::from(span.len))
}

/// Adds octets of a message: the offset of the first, and their number.
fn put_fault(text: &mut String, span: Span) -> Result<(), AllocError>
    ensures { OnOk result (string_bytes text.new ≡ string_bytes text.old ++ fault_members span) }
{
    put_number_member(text, "fault_offset", u32::from(span.at))?;
    put_count(text, span)
}

/// Adds the octets that cause a NOTIFICATION.
fn put_span_members(text: &mut String, span: Option<Span>) -> Result<(), AllocError>
    ensures { OnOk result (string_bytes text.new ≡ string_bytes text.old ++ span_members span) }
{
    match span {
        None => Ok(()),
        Some(octets) => put_fault(text, octets),
    }
}

/// A reset.
fn put_answer(
    text: &mut String,
    place: u64,
    len: u16,
    span: Option<Span>,
    why: &NotificationView<'_>,
) -> Result<(), AllocError>
    ensures { OnOk result (string_bytes text.new ≡ string_bytes text.old ++ reset_members place len span (notification_of_view why.now)) }
{
    put_judged(text, place, len, reset_name(why.code), "reset")?;
    put_notification_members(text, why)?;
    put_span_members(text, span)
}

/// Adds the object of an outcome except its end.
#[tactic(auto, unfolding(crate::specs::JsonOutcome::outcome_members))]
pub(crate) fn put_viewed_members(
    alloc: Global,
    text: &mut String,
    place: u64,
    len: u16,
    span: Option<Span>,
    outcome: &OutcomeView<'_>,
) -> Result<(), AllocError>
    ensures { OnOk result (string_bytes text.new ≡ string_bytes text.old ++ outcome_members place len span (outcome_value outcome.now)) }
{
    match outcome {
        OutcomeView::Update(view) => put_taken(alloc, text, place, len, view),
        OutcomeView::Withdraw(view) => put_withdrawn(alloc, text, place, len, view),
        OutcomeView::Keepalive => put_keepalive(text, place, len),
        OutcomeView::Open(view) => put_opened(alloc, text, place, len, view),
        OutcomeView::Notification(said) => put_received(text, place, len, said),
        OutcomeView::Reset(why) => put_answer(text, place, len, span, why),
    }
}

/// Adds the outcome of a message, or of the header of one, as a JSON object on a line: its offset in the stream, its length (0 for
/// a header's fault), and what [`put_viewed_outcome`](crate::put_viewed_outcome) prints; for a reset also the octets that cause it.
///
/// # Errors
/// `AllocError` where an allocation failed.
#[tactic(auto, unfolding(crate::specs::JsonOutcome::outcome_json))]
pub fn put_viewed_json(
    alloc: Global,
    text: &mut String,
    place: u64,
    len: u16,
    span: Option<Span>,
    outcome: &OutcomeView<'_>,
) -> Result<(), AllocError>
    ensures { OnOk result (string_bytes text.new ≡ string_bytes text.old ++ outcome_json place len span (outcome_value outcome.now)) }
{
    put_viewed_members(alloc, text, place, len, span, outcome)?;
    put_line_end(text)
}
