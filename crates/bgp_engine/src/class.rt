//! What a message counts as.

ghost use Rattle.std.specs.Prelude.{◌≡◌};
ghost use Rattle.bgp_engine.specs.Below.{outcome_value};
ghost use Rattle.bgp_engine.specs.Prelude.{class_of};

use bgp_msg::OutcomeView;

/// What an outcome is, for the counts and for what follows it.
#[derive(Clone, Copy, PartialEq, Eq)]
pub(crate) enum Class {
    /// It is accepted, or passed on.
    Took,
    /// The routes of an UPDATE are withdrawn.
    Withdrawn,
    /// The stream ends after it.
    Reset,
}

/// What an outcome counts as.
pub(crate) fn class_of(outcome: &OutcomeView<'_>) -> Class
    ensures { result ≡ class_of (outcome_value outcome.now) }
{
    match outcome {
        OutcomeView::Withdraw(_) => Class::Withdrawn,
        OutcomeView::Reset(_) => Class::Reset,
        _ => Class::Took,
    }
}
