//! The outcome of a message by the terms of a session, from borrowed octets.

use bgp_msg::OutcomeView;
use bgp_refresh::{RefreshFault, RefreshView};

/// The outcome of a message by the terms of a session: a few words that point into its octets.
#[derive(Clone, Copy)]
pub enum WideOutcomeView<'a> {
    /// That of a message of RFC 4271, or of a header with a fault.
    Base(OutcomeView<'a>),
    /// A ROUTE-REFRESH is accepted.
    Refresh(RefreshView<'a>),
    /// The session ends, by the NOTIFICATION for the fault of a ROUTE-REFRESH with this body: [`RefreshFault::notification`].
    Refused(RefreshFault, &'a [u8]),
}

impl WideOutcomeView<'_> {
    ghost use Rattle.std.specs.Prelude.{◌≡◌};
    ghost use Rattle.bgp_wide.specs.Outcome.{resets_in};
    ghost use Rattle.bgp_wide.specs.OutcomeView.{wide_value};

    /// Whether the session ends. A NOTIFICATION that was received is accepted, and isn't a reset.
    #[inline(always)]
    pub fn is_reset(&self) -> bool
        ensures { result ≡ resets_in (wide_value self.now) }
    {
        match self {
            WideOutcomeView::Base(outcome) => outcome.is_reset(),
            WideOutcomeView::Refresh(_) => false,
            WideOutcomeView::Refused(_, _) => true,
        }
    }
}
