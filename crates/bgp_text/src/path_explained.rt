//! What `explain` and `explain --json` print for an UPDATE whose routes have path identifiers.

ghost use Rattle.std.specs.Prelude.{◌≡◌, ◌≤◌, ◌++◌, length, OnOk};
ghost use Rattle.bgp_paths.specs.Prelude.{path_numbers, shifted};
ghost use Rattle.bgp_text.specs.Below.{string_bytes, outcome_value};
ghost use Rattle.bgp_text.specs.PathExplained.{path_explained_fields, path_explained_json, path_explained_lines, path_explained_members, path_heading_lines, path_heading_members};

use crate::explained::put_reset;
use crate::field_lines::{put_faulty_fields, put_noted_fields, put_plain_fields};
use crate::json::put_line_end;
use crate::json_fields::{put_faulty, put_noted, put_plain, span_of};
use crate::json_outcome::put_viewed_members;
use crate::json_paths::put_path_members;
use crate::note_row::NoteRow;
use crate::path_outcome::put_path_outcome;
use bgp_fields::{Fault, FieldIter};
use bgp_msg::OutcomeView;
use bgp_open::Context;
use bgp_paths::{PathFamilies, PathRuns, PathShifts};
use std::alloc::{AllocError, Global};

/// An UPDATE whose routes have path identifiers, as it was received.
#[derive(Clone, Copy)]
pub struct Identified<'a> {
    /// The octets of the message: at most 4096.
    pub octets: &'a [u8],
    /// The families whose routes have path identifiers.
    pub families: PathFamilies,
    /// The path identifiers of its routes.
    pub runs: PathRuns<'a>,
    /// By how much each attribute is further on than without them.
    pub shifts: PathShifts,
    /// Why it is answered by a reset, where it is.
    pub fault: Option<Fault>,
}

/// Adds the lines of an outcome.
#[tactic(auto, unfolding(crate::specs::Explained::heading_lines))]
fn put_heading(
    alloc: Global,
    text: &mut String,
    place: u64,
    len: u16,
    update: &Identified<'_>,
    outcome: &OutcomeView<'_>,
) -> Result<(), AllocError>
    ensures { OnOk result (string_bytes text.new ≡ string_bytes text.old
        ++ path_heading_lines (path_numbers update.now.runs) (shifted update.now.shifts) place len (outcome_value outcome.now)) }
{
    match outcome {
        OutcomeView::Reset(why) => put_reset(alloc, text, place, len, why),
        OutcomeView::Update(_)
        | OutcomeView::Withdraw(_)
        | OutcomeView::Open(_)
        | OutcomeView::Notification(_)
        | OutcomeView::Keepalive => {
            put_path_outcome(
                alloc,
                text,
                place,
                len,
                &update.runs,
                &update.shifts,
                outcome,
            )
        }
    }
}

/// Adds the lines of a message's fields.
#[tactic(auto, unfolding(crate::specs::PathExplained::path_explained_fields), using(crate::proofs::FieldLines::without_notes))]
fn put_fields(
    text: &mut String,
    ctx: &Context,
    update: &Identified<'_>,
    outcome: &OutcomeView<'_>,
) -> Result<(), AllocError>
    requires { length update.now.octets.now ≤ 4096 }
    ensures { OnOk result (string_bytes text.new ≡ string_bytes text.old
        ++ path_explained_fields ctx.now update.now.families update.now.octets.now (shifted update.now.shifts) update.now.fault (outcome_value outcome.now)) }
{
    let message = update.octets;
    let fields = FieldIter::with_paths(ctx, update.families, message);
    match outcome {
        OutcomeView::Update(view) | OutcomeView::Withdraw(view) => {
            let notes = NoteRow::shifted(view.notes(), update.shifts);
            put_noted_fields(text, message, notes, fields)
        }
        OutcomeView::Open(_) | OutcomeView::Notification(_) | OutcomeView::Keepalive => {
            put_plain_fields(text, message, fields)
        }
        OutcomeView::Reset(answer) => {
            put_faulty_fields(text, message, update.fault, answer, fields)
        }
    }
}

/// Prints as [`put_path_outcome`](crate::put_path_outcome) does the outcome of an UPDATE of this length, and its fields as
/// [`put_explained`](crate::put_explained) does: each route has its path identifier as a field before its prefix (RFC 7911, section 3).
///
/// # Errors
/// `AllocError` where an allocation failed.
pub fn put_path_explained(
    alloc: Global,
    text: &mut String,
    ctx: &Context,
    place: u64,
    len: u16,
    update: &Identified<'_>,
    outcome: &OutcomeView<'_>,
) -> Result<(), AllocError>
    requires { length update.now.octets.now ≤ 4096 }
    ensures { OnOk result (string_bytes text.new ≡ string_bytes text.old
        ++ path_explained_lines ctx.now update.now.families (path_numbers update.now.runs) (shifted update.now.shifts) place len update.now.octets.now update.now.fault (outcome_value outcome.now)) }
{
    put_heading(alloc, text, place, len, update, outcome)?;
    put_fields(text, ctx, update, outcome)
}

/// Adds the object of an outcome except its fields and its end.
fn put_object(
    alloc: Global,
    text: &mut String,
    place: u64,
    len: u16,
    update: &Identified<'_>,
    outcome: &OutcomeView<'_>,
) -> Result<(), AllocError>
    ensures { OnOk result (string_bytes text.new ≡ string_bytes text.old
        ++ path_heading_members (path_numbers update.now.runs) (shifted update.now.shifts) place len update.now.fault (outcome_value outcome.now)) }
{
    match outcome {
        OutcomeView::Reset(_) => {
            put_viewed_members(alloc, text, place, len, span_of(update.fault), outcome)
        }
        OutcomeView::Update(_)
        | OutcomeView::Withdraw(_)
        | OutcomeView::Open(_)
        | OutcomeView::Notification(_)
        | OutcomeView::Keepalive => {
            put_path_members(
                alloc,
                text,
                place,
                len,
                &update.runs,
                &update.shifts,
                outcome,
            )
        }
    }
}

/// Adds the fields of a message.
#[tactic(auto, unfolding(crate::specs::PathExplained::path_explained_members), using(crate::proofs::ToldFields::plain_members))]
fn put_members(
    alloc: Global,
    text: &mut String,
    ctx: &Context,
    update: &Identified<'_>,
    outcome: &OutcomeView<'_>,
) -> Result<(), AllocError>
    requires { length update.now.octets.now ≤ 4096 }
    ensures { OnOk result (string_bytes text.new ≡ string_bytes text.old
        ++ path_explained_members ctx.now update.now.families update.now.octets.now (shifted update.now.shifts) update.now.fault (outcome_value outcome.now)) }
{
    let message = update.octets;
    let fields = FieldIter::with_paths(ctx, update.families, message);
    match outcome {
        OutcomeView::Update(view) | OutcomeView::Withdraw(view) => {
            let notes = NoteRow::shifted(view.notes(), update.shifts);
            put_noted(alloc, text, message, notes, fields)
        }
        OutcomeView::Open(_) | OutcomeView::Notification(_) | OutcomeView::Keepalive => {
            put_plain(alloc, text, message, fields)
        }
        OutcomeView::Reset(answer) => {
            put_faulty(alloc, text, message, update.fault, answer, fields)
        }
    }
}

/// Adds the same as a JSON object on a line: as [`put_path_json`](crate::put_path_json), for a reset with the octets that cause it, and with the fields of
/// the message at the end, as [`put_explained_json`](crate::put_explained_json) reports them.
///
/// # Errors
/// `AllocError` where an allocation failed.
pub fn put_path_explained_json(
    alloc: Global,
    text: &mut String,
    ctx: &Context,
    place: u64,
    len: u16,
    update: &Identified<'_>,
    outcome: &OutcomeView<'_>,
) -> Result<(), AllocError>
    requires { length update.now.octets.now ≤ 4096 }
    ensures { OnOk result (string_bytes text.new ≡ string_bytes text.old
        ++ path_explained_json ctx.now update.now.families (path_numbers update.now.runs) (shifted update.now.shifts) place len update.now.octets.now update.now.fault (outcome_value outcome.now)) }
{
    put_object(alloc, text, place, len, update, outcome)?;
    put_members(alloc, text, ctx, update, outcome)?;
    put_line_end(text)
}
