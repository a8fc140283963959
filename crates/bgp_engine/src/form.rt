//! The forms in which `show` prints.

ghost use Rattle.std.specs.Prelude.{◌≡◌, ◌++◌, OnOk};
ghost use Rattle.bgp_engine.specs.Below.{string_bytes};

use bgp_fields::Span;
use bgp_frame::End;
use bgp_msg::OutcomeView;
use bgp_paths::{PathRuns, PathShifts};
use bgp_refresh::RefreshView;
use bgp_text::{
    put_end, put_end_json, put_path_json, put_path_outcome, put_refresh, put_refresh_json,
    put_viewed_json, put_viewed_outcome,
};
use std::alloc::{AllocError, Global};

/// How the outcome of a message and the end of a stream are printed.
pub(crate) trait Form {
    ghost use Rattle.std.specs.Prelude.{ℕ, List, Option, ◌≡◌, ◌++◌, OnOk};
    ghost use Rattle.bgp_engine.specs.Below.{string_bytes, End, Outcome, Refresh, outcome_value, refresh_value, Span};
    ghost use Rattle.bgp_engine.specs.Identified.{Showing};
    ghost use Rattle.bgp_paths.specs.Prelude.{path_numbers, shifted};

    /// The text of an outcome, by the offset and the length of its message, and the octets for which it is a reset.
    ghost shown: { ℕ → ℕ → Option Span → Outcome → List ℕ };
    /// That of an UPDATE whose routes have path identifiers.
    ghost shown_paths: { Showing };
    /// The text of a ROUTE-REFRESH, by its offset and its length.
    ghost shown_refresh: { ℕ → ℕ → Refresh → List ℕ };
    /// The text of the end.
    ghost shown_end: { End → List ℕ };

    /// Adds the text of an outcome.
    fn put(
        &self,
        alloc: Global,
        text: &mut String,
        place: u64,
        len: u16,
        span: Option<Span>,
        outcome: &OutcomeView<'_>,
    ) -> Result<(), AllocError>
        ensures { OnOk result (string_bytes text.new ≡ string_bytes text.old ++ shown place len span (outcome_value outcome.now)) };

    /// Adds the text of the outcome of an UPDATE without path identifiers, with those of its routes beside them, and at the offsets as received.
    fn put_paths(
        &self,
        alloc: Global,
        text: &mut String,
        place: u64,
        len: u16,
        runs: &PathRuns<'_>,
        shifts: &PathShifts,
        outcome: &OutcomeView<'_>,
    ) -> Result<(), AllocError>
        ensures { OnOk result (string_bytes text.new ≡ string_bytes text.old
            ++ shown_paths (path_numbers runs.now) (shifted shifts.now) place len (outcome_value outcome.now)) };

    /// Adds the text of a ROUTE-REFRESH.
    fn put_refresh(
        &self,
        text: &mut String,
        place: u64,
        len: u16,
        refresh: &RefreshView<'_>,
    ) -> Result<(), AllocError>
        ensures { OnOk result (string_bytes text.new ≡ string_bytes text.old ++ shown_refresh place len (refresh_value refresh.now)) };

    /// Adds the text of the end.
    fn put_end(&self, text: &mut String, end: End) -> Result<(), AllocError>
        ensures { OnOk result (string_bytes text.new ≡ string_bytes text.old ++ shown_end end) };
}

/// Lines of text.
#[derive(Drop)]
pub(crate) struct Lines;

impl Form for Lines {
    ghost use Rattle.bgp_text.specs.End.{end_line};
    ghost use Rattle.bgp_text.specs.PathLines.{path_lines};
    ghost use Rattle.bgp_engine.specs.Below.{refresh_line};
    ghost use Rattle.bgp_engine.specs.Show.{shown_lines};

    ghost shown = { shown_lines };

    ghost shown_paths = { path_lines };

    ghost shown_refresh = { refresh_line };

    ghost shown_end = { end_line };

    fn put(
        &self,
        alloc: Global,
        text: &mut String,
        place: u64,
        len: u16,
        _span: Option<Span>,
        outcome: &OutcomeView<'_>,
    ) -> Result<(), AllocError> {
        put_viewed_outcome(alloc, text, place, len, outcome)
    }

    fn put_paths(
        &self,
        alloc: Global,
        text: &mut String,
        place: u64,
        len: u16,
        runs: &PathRuns<'_>,
        shifts: &PathShifts,
        outcome: &OutcomeView<'_>,
    ) -> Result<(), AllocError> {
        put_path_outcome(alloc, text, place, len, runs, shifts, outcome)
    }

    fn put_refresh(
        &self,
        text: &mut String,
        place: u64,
        len: u16,
        refresh: &RefreshView<'_>,
    ) -> Result<(), AllocError> {
        put_refresh(text, place, len, refresh)
    }

    fn put_end(&self, text: &mut String, end: End) -> Result<(), AllocError> {
        put_end(text, end)
    }
}

/// An object of JSON on a line.
#[derive(Drop)]
pub(crate) struct Json;

impl Form for Json {
    ghost use Rattle.bgp_text.specs.JsonPaths.{path_outcome_json};
    ghost use Rattle.bgp_engine.specs.Below.{end_json, outcome_json, refresh_json};

    ghost shown = { outcome_json };

    ghost shown_paths = { path_outcome_json };

    ghost shown_refresh = { refresh_json };

    ghost shown_end = { end_json };

    fn put(
        &self,
        alloc: Global,
        text: &mut String,
        place: u64,
        len: u16,
        span: Option<Span>,
        outcome: &OutcomeView<'_>,
    ) -> Result<(), AllocError> {
        put_viewed_json(alloc, text, place, len, span, outcome)
    }

    fn put_paths(
        &self,
        alloc: Global,
        text: &mut String,
        place: u64,
        len: u16,
        runs: &PathRuns<'_>,
        shifts: &PathShifts,
        outcome: &OutcomeView<'_>,
    ) -> Result<(), AllocError> {
        put_path_json(alloc, text, place, len, runs, shifts, outcome)
    }

    fn put_refresh(
        &self,
        text: &mut String,
        place: u64,
        len: u16,
        refresh: &RefreshView<'_>,
    ) -> Result<(), AllocError> {
        put_refresh_json(text, place, len, refresh)
    }

    fn put_end(&self, text: &mut String, end: End) -> Result<(), AllocError> {
        put_end_json(text, end)
    }
}
