//! The outcome of a whole message.

ghost use Rattle.std.specs.Prelude.{◌≡◌, ◌+◌, ◌≤◌, ◌⊎◌, false, length, IfOk, OnErr};
ghost use Rattle.bgp_frame.specs.Prelude.{IsLength, notification_of_view, message_in};
ghost use Rattle.bgp_open.specs.Prelude.{open_notification, reading_of};
ghost use Rattle.bgp_update.specs.Prelude.{verdict_of};
ghost use Rattle.bgp_msg.specs.Prelude.{of_open_fault, of_reading, of_verdict, notification_in, out_of, is_reset, outcome_value};

use crate::outcome::Outcome;
use crate::outcome_view::OutcomeView;
use bgp_frame::{Frame, Kind, NotificationView};
use bgp_numbers::error;
use bgp_open::{Context, OpenFault, view_open};
use bgp_update::{Found, UpdateView};
use std::alloc::{AllocError, Global};

/// How an OPEN with this fault ends the session.
fn view_of_fault(fault: OpenFault) -> OutcomeView<'static>
    ensures { outcome_value result ≡ of_open_fault (open_notification fault) }
{
    match fault.answer() {
        Some(why) => OutcomeView::Reset(why),
        None => OutcomeView::Reset(NotificationView {
            code: error::OPEN_MESSAGE,
            subcode: error::UNSPECIFIC,
            info: &[],
        }),
    }
}

/// The outcome of an OPEN's body.
fn view_of_open(body: &[u8]) -> OutcomeView<'_>
    requires { 10 ≤ length body.now }
    ensures { outcome_value result ≡ of_reading (reading_of body.entry.now) }
{
    match view_open(body) {
        Ok(view) => OutcomeView::Open(view),
        Err(fault) => view_of_fault(fault),
    }
}

/// The outcome of an UPDATE's body.
#[inline(always)]
fn view_of_update<'b, 'a>(
    ctx: &Context,
    body: &'a [u8],
    place: &'b mut UpdateView<'a>,
) -> OutcomeView<'b>
    requires { length body.now ≤ 4077 }
    ensures { outcome_value result ≡ of_verdict (verdict_of ctx.now body.entry.now) }
{
    match place.judge(ctx, body) {
        Found::Take => OutcomeView::Update(place),
        Found::Withdraw => OutcomeView::Withdraw(place),
        Found::Reset(why) => OutcomeView::Reset(why),
    }
}

/// The content of a NOTIFICATION's body (RFC 4271, section 4.5): the octets after the header, at least 2 in a whole
/// NOTIFICATION.
pub fn notification_in(body: &[u8]) -> NotificationView<'_>
    requires least { 2 ≤ length body.now }
    requires most { length body.now ≤ 4077 }
    ensures { notification_of_view result ≡ notification_in body.entry.now }
{
    NotificationView {
        code: body[0],
        subcode: body[1],
        info: &body[2..],
    }
}

/// The outcome of a whole message in a context, without memory. The view of an UPDATE is written into `place`, over
/// whatever it held: start with [`UpdateView::empty`], and use it again for the next message.
#[inline(always)]
pub fn view_frame<'b, 'a>(
    ctx: &Context,
    frame: Frame<'a>,
    place: &'b mut UpdateView<'a>,
) -> OutcomeView<'b>
    requires { IsLength frame.kind (19 + length frame.body.now) }
    ensures { outcome_value result ≡ out_of ctx.now (message_in frame.entry) }
{
    match frame.kind {
        Kind::Open => view_of_open(frame.body),
        Kind::Update => view_of_update(ctx, frame.body, place),
        Kind::Notification => OutcomeView::Notification(notification_in(frame.body)),
        Kind::Keepalive => OutcomeView::Keepalive,
    }
}

/// The outcome of a whole message in a context, as an owned value.
///
/// # Errors
/// `AllocError` where an allocation failed: only for an OPEN or an UPDATE that doesn't end the session.
#[tactic(auto, using(crate::proofs::Lists::lists_have_kinds, crate::proofs::Lists::lists_go_on))]
pub fn out_frame(alloc: Global, ctx: &Context, frame: Frame<'_>) -> Result<Outcome, AllocError>
    requires { IsLength frame.kind (19 + length frame.body.now) }
    ensures value { IfOk result (λ o. o ≡ out_of ctx.now (message_in frame.entry)) }
    ensures kind { OnErr result ((frame.entry.kind ≡ Kind.Open) ⊎ (frame.entry.kind ≡ Kind.Update)) }
    ensures err { OnErr result (is_reset (out_of ctx.now (message_in frame.entry)) ≡ false) }
{
    let mut place = UpdateView::empty();
    view_frame(ctx, frame, &mut place).own(alloc)
}
