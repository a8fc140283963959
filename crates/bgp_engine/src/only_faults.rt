//! Which messages are printed.

ghost use Rattle.std.specs.Prelude.{◌≡◌};
ghost use Rattle.bgp_engine.specs.Below.{outcome_value, refresh_value};
ghost use Rattle.bgp_engine.specs.OnlyFaults.{is_fault, where_fault};
ghost use Rattle.bgp_engine.specs.Refreshed.{is_ignored};

use crate::form::Form;
use bgp_fields::Span;
use bgp_frame::End;
use bgp_msg::OutcomeView;
use bgp_paths::{PathRuns, PathShifts};
use bgp_refresh::{RefreshMark, RefreshView};
use std::alloc::{AllocError, Global};

/// Whether an outcome isn't accepted without a note, or is a NOTIFICATION.
pub(crate) fn is_fault(outcome: &OutcomeView<'_>) -> bool
    ensures { result ≡ is_fault (outcome_value outcome.now) }
{
    match outcome {
        OutcomeView::Update(view) => view.notes().next().is_some(),
        OutcomeView::Open(_) | OutcomeView::Keepalive => false,
        OutcomeView::Withdraw(_) | OutcomeView::Notification(_) | OutcomeView::Reset(_) => true,
    }
}

/// Whether a ROUTE-REFRESH has no effect.
pub(crate) fn is_ignored(refresh: &RefreshView<'_>) -> bool
    ensures { result ≡ is_ignored (refresh_value refresh.now) }
{
    match refresh.mark {
        RefreshMark::Request | RefreshMark::Begin | RefreshMark::End => false,
        RefreshMark::Ignored(_) => true,
    }
}

/// Which messages are printed.
pub(crate) trait Choice {
    ghost use Rattle.std.specs.Prelude.{◌≡◌};
    ghost use Rattle.bgp_engine.specs.Below.{outcome_value, refresh_value};
    ghost use Rattle.bgp_engine.specs.OnlyFaults.{Chosen};

    /// Those with these outcomes, and which ROUTE-REFRESH.
    ghost printed: { Chosen };

    /// Whether one with an outcome is printed.
    fn prints(&self, outcome: &OutcomeView<'_>) -> bool
        ensures { result ≡ printed.outcome (outcome_value outcome.now) };

    /// Whether a ROUTE-REFRESH is.
    fn prints_refresh(&self, refresh: &RefreshView<'_>) -> bool
        ensures { result ≡ printed.refresh (refresh_value refresh.now) };
}

/// All of them.
#[derive(Drop)]
pub(crate) struct Every;

impl Choice for Every {
    ghost use Rattle.std.specs.Prelude.{false};
    ghost use Rattle.bgp_engine.specs.OnlyFaults.{chosen};

    ghost printed = { chosen false };

    fn prints(&self, _outcome: &OutcomeView<'_>) -> bool {
        true
    }

    fn prints_refresh(&self, _refresh: &RefreshView<'_>) -> bool {
        true
    }
}

/// Those that aren't accepted without a note, a ROUTE-REFRESH without effect, and NOTIFICATIONs.
#[derive(Drop)]
pub(crate) struct Faulty;

impl Choice for Faulty {
    ghost use Rattle.std.specs.Prelude.{true};
    ghost use Rattle.bgp_engine.specs.OnlyFaults.{chosen};

    ghost printed = { chosen true };

    fn prints(&self, outcome: &OutcomeView<'_>) -> bool {
        is_fault(outcome)
    }

    fn prints_refresh(&self, refresh: &RefreshView<'_>) -> bool {
        is_ignored(refresh)
    }
}

/// A form in which only these are printed.
#[derive(Drop)]
pub(crate) struct OnlyFaults<F> {
    pub(crate) form: F,
}

impl<F: Form> Form for OnlyFaults<F> {
    ghost use Rattle.bgp_engine.specs.Identified.{where_faulty};
    ghost use Rattle.bgp_engine.specs.OnlyFaults.{where_fault};
    ghost use Rattle.bgp_engine.specs.Refreshed.{where_ignored};

    ghost shown = { where_fault F.shown };

    ghost shown_paths = { where_faulty F.shown_paths };

    ghost shown_refresh = { where_ignored F.shown_refresh };

    ghost shown_end = { F.shown_end };

    fn put(
        &self,
        alloc: Global,
        text: &mut String,
        place: u64,
        len: u16,
        span: Option<Span>,
        outcome: &OutcomeView<'_>,
    ) -> Result<(), AllocError> {
        if !is_fault(outcome) {
            return Ok(());
        }
        self.form.put(alloc, text, place, len, span, outcome)
    }

    fn put_paths(
        &self,
        alloc: Global,
        text: &mut String,
        place: u64,
        len: u16,
        runs: &PathRuns<'_>,
        shifts: &PathShifts,
        outcome: &OutcomeView<'_>,
    ) -> Result<(), AllocError> {
        if !is_fault(outcome) {
            return Ok(());
        }
        self.form
            .put_paths(alloc, text, place, len, runs, shifts, outcome)
    }

    fn put_refresh(
        &self,
        text: &mut String,
        place: u64,
        len: u16,
        refresh: &RefreshView<'_>,
    ) -> Result<(), AllocError> {
        if !is_ignored(refresh) {
            return Ok(());
        }
        self.form.put_refresh(text, place, len, refresh)
    }

    fn put_end(&self, text: &mut String, end: End) -> Result<(), AllocError> {
        self.form.put_end(text, end)
    }
}
