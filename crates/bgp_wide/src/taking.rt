//! The outcome of a whole message by the terms of a session.

ghost use mathlib.Core.Logic.{inr};
ghost use Rattle.std.specs.Prelude.{◌≡◌, ◌+◌, length};
ghost use Rattle.bgp_frame.specs.Prelude.{IsLengthIn, message_in};
ghost use Rattle.bgp_terms.specs.Prelude.{wide_terms};
ghost use Rattle.bgp_wide.specs.Outcome.{out_in, refreshed, types_in};
ghost use Rattle.bgp_wide.specs.OutcomeView.{wide_value};

use crate::outcome_view::WideOutcomeView;
use bgp_frame::{Frame, WideKind};
use bgp_msg::view_frame;
use bgp_refresh::view_refresh;
use bgp_terms::{Refreshes, WideTerms};
use bgp_update::UpdateView;

/// The outcome of a ROUTE-REFRESH's body, by what the reader accepts.
fn view_of_refresh(refreshes: Refreshes, body: &[u8]) -> WideOutcomeView<'_>
    ensures { wide_value result ≡ inr (refreshed refreshes body.entry.now) }
{
    match view_refresh(refreshes, body) {
        Ok(view) => WideOutcomeView::Refresh(view),
        Err(fault) => WideOutcomeView::Refused(fault, body),
    }
}

/// The outcome of a whole message by these terms, without memory: a ROUTE-REFRESH is read as the reader accepts it, another message as in the context
/// of the terms. The view of an UPDATE is written into `place`, over whatever it held: start with [`UpdateView::empty`], and use it again for the next
/// message.
#[tactic(auto, using(crate::proofs::Bases::allowed))]
#[inline(always)]
pub fn view_frame_in<'b, 'a>(
    terms: &WideTerms,
    frame: Frame<'a, WideKind>,
    place: &'b mut UpdateView<'a>,
) -> WideOutcomeView<'b>
    requires { IsLengthIn (types_in (wide_terms terms.now)) frame.kind (19 + length frame.body.now) }
    ensures { wide_value result ≡ out_in (wide_terms terms.now) (message_in frame.entry) }
{
    let Frame { kind, len, body } = frame;
    match kind {
        WideKind::Base(kind) => {
            WideOutcomeView::Base(view_frame(&terms.context, Frame { kind, len, body }, place))
        }
        WideKind::Refresh => view_of_refresh(terms.refresh, body),
    }
}
