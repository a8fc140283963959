//! What `explain` prints for a message.

ghost use Rattle.std.specs.Prelude.{◌≡◌, ◌≤◌, ◌++◌, length, OnOk};
ghost use Rattle.bgp_text.specs.Below.{notification_of_view, string_bytes, outcome_value, refresh_value};
ghost use Rattle.bgp_text.specs.Explained.{count_text, explained_fields, explained_lines, explained_refresh, heading_lines, short_reset_line};

use crate::field_lines::{put_faulty_fields, put_noted_fields, put_plain_fields};
use crate::field_values::part;
use crate::info::told_text;
use crate::note_row::NoteRow;
use crate::outcome_lines::{put_viewed_outcome, reset_name};
use crate::refresh_line::put_refresh;
use crate::short::{Decimal, put_one};
use bgp_fields::{Fault, FieldIter};
use bgp_frame::NotificationView;
use bgp_msg::OutcomeView;
use bgp_open::Context;
use bgp_refresh::RefreshView;
use std::alloc::{AllocError, Global};

/// The greatest number of octets printed of a reset's data.
const DATA_MAX: usize = 64;

/// Adds the number of octets, where some are left out.
fn put_count(text: &mut String, info: &[u8]) -> Result<(), AllocError>
    ensures { OnOk result (string_bytes text.new ≡ string_bytes text.old ++ count_text info.now) }
{
    if info.len() <= DATA_MAX {
        return Ok(());
    }
    text.push_str("... of ")?;
    put_one(text, Decimal(info.len() as u64))?;
    text.push_str(" octets")
}

/// Adds the line of a reset, with at most 64 octets of its data.
pub(crate) fn put_reset(
    alloc: Global,
    text: &mut String,
    place: u64,
    len: u16,
    why: &NotificationView<'_>,
) -> Result<(), AllocError>
    ensures { OnOk result (string_bytes text.new ≡ string_bytes text.old ++ short_reset_line place len (notification_of_view why.now)) }
{
    let told = told_text(alloc, why.code, why.subcode, part(why.info, 0, DATA_MAX))?;
    let name = reset_name(why.code);
    write!(text, "{place} {len} {name} reset {told}")?;
    put_count(text, why.info)?;
    text.push_str("\n")
}

/// Adds the lines of an outcome.
#[tactic(auto, unfolding(crate::specs::Explained::heading_lines))]
fn put_heading(
    alloc: Global,
    text: &mut String,
    place: u64,
    len: u16,
    outcome: &OutcomeView<'_>,
) -> Result<(), AllocError>
    ensures { OnOk result (string_bytes text.new ≡ string_bytes text.old ++ heading_lines place len (outcome_value outcome.now)) }
{
    match outcome {
        OutcomeView::Reset(why) => put_reset(alloc, text, place, len, why),
        OutcomeView::Update(_)
        | OutcomeView::Withdraw(_)
        | OutcomeView::Open(_)
        | OutcomeView::Notification(_)
        | OutcomeView::Keepalive => put_viewed_outcome(alloc, text, place, len, outcome),
    }
}

/// Adds the lines of a message's fields.
#[tactic(auto, unfolding(crate::specs::Explained::explained_fields), using(crate::proofs::FieldLines::without_notes))]
fn put_fields(
    text: &mut String,
    ctx: &Context,
    message: &[u8],
    fault: Option<Fault>,
    outcome: &OutcomeView<'_>,
) -> Result<(), AllocError>
    requires { length message.now ≤ 4096 }
    ensures { OnOk result (string_bytes text.new ≡ string_bytes text.old ++ explained_fields ctx.now message.now fault (outcome_value outcome.now)) }
{
    let fields = FieldIter::new(ctx, message);
    match outcome {
        OutcomeView::Update(view) | OutcomeView::Withdraw(view) => {
            put_noted_fields(text, message, NoteRow::plain(view.notes()), fields)
        }
        OutcomeView::Open(_) | OutcomeView::Notification(_) | OutcomeView::Keepalive => {
            put_plain_fields(text, message, fields)
        }
        OutcomeView::Reset(answer) => put_faulty_fields(text, message, fault, answer, fields),
    }
}

/// Prints as [`put_viewed_outcome`](crate::put_viewed_outcome) does the outcome of a message of this length at its offset in the stream (0 for a
/// header's fault), but of a reset's data at most 64 octets and their number. Then a line follows for each field of the message, or of the 19 octets
/// of the header: its offset in the message, its octets, its name and its value. Fields of an attribute that isn't kept are marked, and so are the
/// octets at fault where the message causes a NOTIFICATION. Above the field at fault a line has its offset, the reason, what was expected, and the
/// section of the RFC whose test failed ("own rule" where it is ours).
///
/// # Errors
/// `AllocError` where an allocation failed.
pub fn put_explained(
    alloc: Global,
    text: &mut String,
    ctx: &Context,
    place: u64,
    len: u16,
    octets: &[u8],
    fault: Option<Fault>,
    outcome: &OutcomeView<'_>,
) -> Result<(), AllocError>
    requires { length octets.now ≤ 4096 }
    ensures { OnOk result (string_bytes text.new ≡ string_bytes text.old ++ explained_lines ctx.now place len octets.now fault (outcome_value outcome.now)) }
{
    put_heading(alloc, text, place, len, outcome)?;
    put_fields(text, ctx, octets, fault, outcome)
}

/// Prints as [`put_refresh`](crate::put_refresh) does a ROUTE-REFRESH of this length that is accepted, at its offset in the stream. Then a line follows
/// for each field of its octets, as [`put_explained`] prints it.
///
/// # Errors
/// `AllocError` where an allocation failed.
pub fn put_explained_refresh(
    text: &mut String,
    ctx: &Context,
    place: u64,
    len: u16,
    octets: &[u8],
    refresh: &RefreshView<'_>,
) -> Result<(), AllocError>
    requires { length octets.now ≤ 4096 }
    ensures { OnOk result (string_bytes text.new ≡ string_bytes text.old ++ explained_refresh ctx.now place len octets.now (refresh_value refresh.now)) }
{
    put_refresh(text, place, len, refresh)?;
    put_plain_fields(text, octets, FieldIter::of_refresh(ctx, octets))
}
