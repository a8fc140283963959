//! The outcome of an UPDATE whose routes have path identifiers.

ghost use Rattle.std.specs.Prelude.{◌≡◌, ◌+◌, ◌≤◌, length};
ghost use Rattle.bgp_frame.specs.Prelude.{IsLength, notification_of_view};
ghost use Rattle.bgp_frame.specs.declared.kind.Kind.{Kind};
ghost use Rattle.bgp_msg.specs.Prelude.{out_of, outcome_value};
ghost use Rattle.bgp_msg.specs.declared.outcome.Outcome.TheVariants as outcome;
ghost use Rattle.bgp_paths.specs.Outcome.{as_received};

use crate::places::data_received;
use bgp_frame::{Frame, Kind, NotificationView};
use bgp_msg::{OutcomeView, view_frame};
use bgp_open::Context;
use bgp_update::UpdateView;

/// A NOTIFICATION for a fault of an UPDATE without path identifiers, with the data as they were received.
fn as_received<'a>(body: &'a [u8], why: NotificationView<'a>) -> NotificationView<'a>
    requires { length body.now ≤ 4077 }
    ensures { outcome.Reset (notification_of_view result) ≡ as_received body.entry.now (outcome.Reset (notification_of_view why.entry)) }
{
    NotificationView {
        code: why.code,
        subcode: why.subcode,
        info: data_received(body, why.info),
    }
}

/// The outcome of the UPDATE with this body, whose routes have path identifiers, by the body without them, as [`PlainBody::fill`](crate::PlainBody::fill)
/// writes it. The data of its NOTIFICATION are as they were received. The view of the UPDATE is written into `place`, over whatever it held.
pub fn view_received<'b, 'a>(
    ctx: &Context,
    body: &'a [u8],
    plain: &'a [u8],
    place: &'b mut UpdateView<'a>,
) -> OutcomeView<'b>
    requires short { length body.now ≤ 4077 }
    requires plain { IsLength Kind.Update (19 + length plain.now) }
    ensures { outcome_value result ≡ as_received body.entry.now (out_of ctx.now (record { kind = Kind.Update; body = plain.entry.now })) }
{
    let frame = Frame {
        kind: Kind::Update,
        len: 19 + plain.len() as u16,
        body: plain,
    };
    match view_frame(ctx, frame, place) {
        OutcomeView::Reset(why) => OutcomeView::Reset(as_received(body, why)),
        outcome => outcome,
    }
}
