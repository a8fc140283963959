//! The lines of an outcome, while it is borrowed.

ghost use Rattle.std.specs.Prelude.{true, ◌≡◌, ◌≤◌, ◌++◌, length, OnOk};
ghost use Rattle.bgp_text.specs.Below.{is_ascii, list_all, string_bytes, notification_of_view, open_value, update_value};
ghost use Rattle.bgp_text.specs.Below.{notes_value, routes_value, outcome_value};
ghost use Rattle.bgp_msg.specs.declared.message.Message.TheVariants as message;
ghost use Rattle.bgp_text.specs.Outcome.{head_line, reset_name, message_lines, took_lines, withdraw_lines};
ghost use Rattle.bgp_text.specs.Outcome.{notification_line, reset_line, outcome_lines};

use crate::info::told_text;
use crate::members::put_members;
use crate::note_lines::put_notes;
use crate::open_lines::put_open;
use crate::update_lines::{Lines, put_routes};
use crate::word::Word;
use bgp_frame::NotificationView;
use bgp_msg::OutcomeView;
use bgp_numbers::error;
use bgp_open::OpenView;
use bgp_update::UpdateView;
use std::alloc::{AllocError, Global};

/// A message's offset in the stream, its length, and what it is, in ASCII.
#[inline(always)]
pub(crate) fn put_head(
    text: &mut String,
    place: u64,
    len: u16,
    name: &str,
) -> Result<(), AllocError>
    requires short { length name.now ≤ 20 }
    requires ascii { list_all is_ascii name.now ≡ true }
    ensures { OnOk result (string_bytes text.new ≡ string_bytes text.old ++ head_line place len name.now) }
{
    let mut word = Word::new();
    word.character(b'\n');
    word.label(name);
    word.character(b' ');
    word.marked(b' ', len);
    word.number(place);
    text.push_str(word.text())
}

/// What causes a NOTIFICATION of this code.
pub(crate) fn reset_name(code: u8) -> &'static str
    ensures { result.now ≡ reset_name code }
{
    match code {
        error::MESSAGE_HEADER => "HEADER",
        error::OPEN_MESSAGE => "OPEN",
        error::ROUTE_REFRESH_MESSAGE => "ROUTE-REFRESH",
        _ => "UPDATE",
    }
}

/// An OPEN.
#[tactic(auto, unfolding(crate::specs::Outcome::message_lines))]
fn put_opened(
    alloc: Global,
    text: &mut String,
    place: u64,
    len: u16,
    view: &OpenView<'_>,
) -> Result<(), AllocError>
    ensures { OnOk result (string_bytes text.new ≡ string_bytes text.old ++ message_lines place len (message.Open (open_value view.now))) }
{
    let open = view.own(alloc)?;
    put_head(text, place, len, "OPEN")?;
    put_open(alloc, text, &open)
}

/// An accepted UPDATE, without its notes.
#[tactic(auto, unfolding(crate::specs::Outcome::message_lines))]
fn put_update(
    alloc: Global,
    text: &mut String,
    place: u64,
    len: u16,
    view: &UpdateView<'_>,
) -> Result<(), AllocError>
    ensures { OnOk result (string_bytes text.new ≡ string_bytes text.old ++ message_lines place len (message.Update (update_value view.now))) }
{
    put_head(text, place, len, "UPDATE take")?;
    put_members(&Lines, alloc, text, view)
}

/// An accepted UPDATE.
fn put_taken(
    alloc: Global,
    text: &mut String,
    place: u64,
    len: u16,
    view: &UpdateView<'_>,
) -> Result<(), AllocError>
    ensures { OnOk result (string_bytes text.new ≡ string_bytes text.old ++ took_lines place len (message.Update (update_value view.now)) (notes_value view.now)) }
{
    put_update(alloc, text, place, len, view)?;
    put_notes(text, view)
}

/// An UPDATE that is treated as a withdrawal.
fn put_withdrawn(
    text: &mut String,
    place: u64,
    len: u16,
    view: &UpdateView<'_>,
) -> Result<(), AllocError>
    ensures { OnOk result (string_bytes text.new ≡ string_bytes text.old ++ withdraw_lines place len (routes_value view.now) (notes_value view.now)) }
{
    put_head(text, place, len, "UPDATE withdraw")?;
    put_routes(text, view)?;
    put_notes(text, view)
}

/// A NOTIFICATION.
fn put_received(
    alloc: Global,
    text: &mut String,
    place: u64,
    len: u16,
    said: &NotificationView<'_>,
) -> Result<(), AllocError>
    ensures { OnOk result (string_bytes text.new ≡ string_bytes text.old ++ notification_line place len (notification_of_view said.now)) }
{
    let told = told_text(alloc, said.code, said.subcode, said.info)?;
    write!(text, "{place} {len} NOTIFICATION {told}\n")
}

/// A reset.
fn put_answer(
    alloc: Global,
    text: &mut String,
    place: u64,
    len: u16,
    why: &NotificationView<'_>,
) -> Result<(), AllocError>
    ensures { OnOk result (string_bytes text.new ≡ string_bytes text.old ++ reset_line place len (notification_of_view why.now)) }
{
    let told = told_text(alloc, why.code, why.subcode, why.info)?;
    let name = reset_name(why.code);
    write!(text, "{place} {len} {name} reset {told}\n")
}

/// Adds the lines of the outcome of a message, or of the header of one: its offset in the stream, its length (0 for a header's
/// fault), and its content. The outcome is borrowed, so that no owned one is made.
///
/// # Errors
/// `AllocError` where an allocation failed.
#[tactic(auto, unfolding(crate::specs::Outcome::message_lines, crate::specs::Outcome::outcome_lines))]
pub fn put_viewed_outcome(
    alloc: Global,
    text: &mut String,
    place: u64,
    len: u16,
    outcome: &OutcomeView<'_>,
) -> Result<(), AllocError>
    ensures { OnOk result (string_bytes text.new ≡ string_bytes text.old ++ outcome_lines place len (outcome_value outcome.now)) }
{
    match outcome {
        OutcomeView::Update(view) => put_taken(alloc, text, place, len, view),
        OutcomeView::Withdraw(view) => put_withdrawn(text, place, len, view),
        OutcomeView::Keepalive => put_head(text, place, len, "KEEPALIVE"),
        OutcomeView::Open(view) => put_opened(alloc, text, place, len, view),
        OutcomeView::Notification(said) => put_received(alloc, text, place, len, said),
        OutcomeView::Reset(why) => put_answer(alloc, text, place, len, why),
    }
}
