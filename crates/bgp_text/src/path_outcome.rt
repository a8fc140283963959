//! The lines of an outcome, where routes have path identifiers.

ghost use Rattle.std.specs.Prelude.{◌≡◌, ◌++◌, OnOk};
ghost use Rattle.bgp_paths.specs.Prelude.{path_numbers, shifted};
ghost use Rattle.bgp_text.specs.Below.{string_bytes, notes_value, outcome_value, routes_value, update_value};
ghost use Rattle.bgp_text.specs.PlacedNotes.{placed_lines};
ghost use Rattle.bgp_text.specs.PathLines.{path_lines, path_update_lines, path_withdraw_lines};

use crate::members::put_members;
use crate::note_lines::put_placed_notes;
use crate::outcome_lines::{put_head, put_viewed_outcome};
use crate::path_lines::{PathLines, put_path_routes};
use crate::placed_notes::PlacedNotes;
use bgp_msg::OutcomeView;
use bgp_paths::{PathRuns, PathShifts};
use bgp_update::UpdateView;
use std::alloc::{AllocError, Global};

/// Adds the notes on an UPDATE, at the offsets of its body as it was received.
fn put_notes(
    text: &mut String,
    shifts: &PathShifts,
    view: &UpdateView<'_>,
) -> Result<(), AllocError>
    ensures { OnOk result (string_bytes text.new ≡ string_bytes text.old ++ placed_lines (shifted shifts.now) (notes_value view.now)) }
{
    let notes = view.notes();
    put_placed_notes(
        text,
        PlacedNotes {
            notes,
            shifts: *shifts,
        },
    )
}

/// An accepted UPDATE.
fn put_update(
    alloc: Global,
    text: &mut String,
    place: u64,
    len: u16,
    runs: &PathRuns<'_>,
    shifts: &PathShifts,
    view: &UpdateView<'_>,
) -> Result<(), AllocError>
    ensures { OnOk result (string_bytes text.new ≡ string_bytes text.old
        ++ path_update_lines (path_numbers runs.now) (shifted shifts.now) place len (update_value view.now) (notes_value view.now)) }
{
    put_head(text, place, len, "UPDATE take")?;
    put_members(&PathLines { runs: *runs }, alloc, text, view)?;
    put_notes(text, shifts, view)
}

/// An UPDATE that is treated as a withdrawal.
fn put_withdrawn(
    alloc: Global,
    text: &mut String,
    place: u64,
    len: u16,
    runs: &PathRuns<'_>,
    shifts: &PathShifts,
    view: &UpdateView<'_>,
) -> Result<(), AllocError>
    ensures { OnOk result (string_bytes text.new ≡ string_bytes text.old
        ++ path_withdraw_lines (path_numbers runs.now) (shifted shifts.now) place len (routes_value view.now) (notes_value view.now)) }
{
    put_head(text, place, len, "UPDATE withdraw")?;
    put_path_routes(alloc, text, view, runs)?;
    put_notes(text, shifts, view)
}

/// Adds the lines of the outcome of a message without path identifiers, as [`put_viewed_outcome`](crate::put_viewed_outcome) does, with the path
/// identifiers of its routes beside them, and with the offsets of notes in the body as it was received (RFC 7911, section 3).
///
/// # Errors
/// `AllocError` where an allocation failed.
#[tactic(auto, unfolding(crate::specs::Outcome::outcome_lines, crate::specs::Outcome::message_lines))]
pub fn put_path_outcome(
    alloc: Global,
    text: &mut String,
    place: u64,
    len: u16,
    runs: &PathRuns<'_>,
    shifts: &PathShifts,
    outcome: &OutcomeView<'_>,
) -> Result<(), AllocError>
    ensures { OnOk result (string_bytes text.new ≡ string_bytes text.old
        ++ path_lines (path_numbers runs.now) (shifted shifts.now) place len (outcome_value outcome.now)) }
{
    match outcome {
        OutcomeView::Update(view) => put_update(alloc, text, place, len, runs, shifts, view),
        OutcomeView::Withdraw(view) => put_withdrawn(alloc, text, place, len, runs, shifts, view),
        _ => put_viewed_outcome(alloc, text, place, len, outcome),
    }
}
