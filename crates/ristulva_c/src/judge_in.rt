//! The outcome of a message, by terms.

ghost use Rattle.std.specs.Prelude.{◌≡◌, ◌+◌, ◌≤◌, length};
ghost use Rattle.bgp_frame.specs.Prelude.{IsLengthIn, notification_of_view};
ghost use Rattle.bgp_wide.specs.Prelude.{refreshed};
ghost use Rattle.ristulva_c.specs.JudgeIn.{IsJudgedBy, IsRefreshTold};
ghost use Rattle.ristulva_c.specs.Prelude.{context_of};
ghost use Rattle.ristulva_c.specs.Terms.{terms_in};
ghost use Rattle.ristulva_c.specs.declared.status.TheConstants.{OK};
ghost use Rattle.ristulva_c.specs.steps.JudgeIn.{FrameAnswers, types_for};

use crate::context::SessionContext;
use crate::judge::{Verdict, tell, tell_fault, tell_frame};
use crate::parts::no_parts;
use crate::status::{INCOMPLETE, OK, RANGE};
use crate::terms::{SessionTerms, terms_in};
use bgp_frame::{Frame, Notification, NotificationView, Step, WideKind};
use bgp_msg::OutcomeView;
use bgp_numbers::message;
use bgp_refresh::view_refresh;
use bgp_terms::Refreshes;
use bgp_wide::front_in;
use bgp_wire::are_octets;

/// A ROUTE-REFRESH is accepted.
pub const REFRESH: u8 = 7;

/// A NOTIFICATION, borrowed.
pub(crate) fn view_of(why: &Notification) -> NotificationView<'_>
    ensures { notification_of_view result ≡ why.now }
{
    NotificationView {
        code: why.code,
        subcode: why.subcode,
        info: &why.info,
    }
}

/// Writes the outcome of a ROUTE-REFRESH.
pub(crate) fn tell_refresh(
    refreshes: Refreshes,
    len: u16,
    body: &[u8],
    info: &mut [u8],
    out: &mut Verdict,
) -> u32
    requires { length body.now ≤ 65516 }
    ensures told { IsRefreshTold len (refreshed refreshes body.now) (record { status = result; before = out.old; behind = out.new; info_before = info.old; info_behind = info.new }) }
    ensures ample { 4075 ≤ length info.old → result ≡ OK }
{
    match view_refresh(refreshes, body) {
        Ok(_) => {
            *out = Verdict {
                verdict: REFRESH,
                kind: message::ROUTE_REFRESH,
                code: 0,
                subcode: 0,
                len: u32::from(len),
                info_len: 0,
                parts: no_parts(),
            };
            OK
        }
        Err(fault) => {
            let why = fault.notification(body);
            let outcome = OutcomeView::Reset(view_of(&why));
            tell(message::ROUTE_REFRESH, len, no_parts(), &outcome, info, out)
        }
    }
}

/// Writes the outcome of a whole message.
#[tactic(auto, using(crate::proofs::JudgedIn::allowed))]
pub(crate) fn tell_any(
    ctx: &SessionContext,
    refreshes: Refreshes,
    frame: Frame<'_, WideKind>,
    info: &mut [u8],
    out: &mut Verdict,
) -> u32
    requires allowed { IsLengthIn (types_for refreshes) frame.kind (19 + length frame.body.now) }
    requires short { length frame.body.now ≤ 4077 }
    ensures { FrameAnswers (context_of ctx.now) refreshes frame.entry.kind frame.entry.len frame.entry.body (record { status = result; before = out.old; behind = out.new; info_before = info.old; info_behind = info.new }) }
{
    let Frame { kind, len, body } = frame;
    match kind {
        WideKind::Base(kind) => tell_frame(ctx, Frame { kind, len, body }, info, out),
        WideKind::Refresh => tell_refresh(refreshes, len, body, info, out),
    }
}

/// Judges the message that octets begin with, by terms. Octets after it are ignored.
#[unsafe(no_mangle)]
pub extern "C" fn ristulva_judge_in(
    terms: &SessionTerms,
    octets: &[u8],
    info: &mut [u8],
    out: &mut Verdict,
) -> u32
    ensures { IsJudgedBy (terms_in terms.now) octets.now (record { status = result; before = out.old; behind = out.new; info_before = info.old; info_behind = info.new }) }
{
    let Some(agreed) = terms_in(terms) else {
        return RANGE;
    };
    are_octets(octets);
    match front_in(&agreed, octets) {
        Step::More => INCOMPLETE,
        Step::Frame(frame) => tell_any(&terms.context, agreed.refresh, frame, info, out),
        Step::Fault(fault) => tell_fault(fault, info, out),
    }
}
