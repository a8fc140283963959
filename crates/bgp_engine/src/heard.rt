//! The octets for which a message is answered by a reset, and the reason.

ghost use Rattle.std.specs.Prelude.{◌≡◌, ◌≤◌, ◌+◌, length};
ghost use Rattle.bgp_engine.specs.Below.{IsLength, message_in, out_of, outcome_value, reset_fault, reset_place};
ghost use Rattle.bgp_paths.specs.Prelude.{shifted};
ghost use Rattle.bgp_engine.specs.Explain.{fault_between};

use bgp_fields::{Fault, Span, message_fault, message_span, path_fault};
use bgp_frame::Frame;
use bgp_msg::OutcomeView;
use bgp_open::Context;
use bgp_paths::{PathFamilies, PathShifts};

/// The octets for which a message of this outcome is answered by a reset, where it is: they are looked for only there.
pub(crate) fn span_of(ctx: &Context, frame: Frame<'_>, outcome: &OutcomeView<'_>) -> Option<Span>
    requires length { IsLength frame.kind (19 + length frame.body.now) }
    requires outcome { outcome_value outcome.now ≡ out_of ctx.now (message_in frame) }
    ensures { result ≡ reset_place ctx.now (message_in frame.entry) }
{
    match outcome {
        OutcomeView::Reset(_) => message_span(ctx, frame),
        _ => None,
    }
}

/// Why a message of this outcome is answered by a reset, where it is.
pub(crate) fn fault_of(ctx: &Context, frame: Frame<'_>, outcome: &OutcomeView<'_>) -> Option<Fault>
    requires length { IsLength frame.kind (19 + length frame.body.now) }
    requires outcome { outcome_value outcome.now ≡ out_of ctx.now (message_in frame) }
    ensures { result ≡ reset_fault ctx.now (message_in frame.entry) }
{
    match outcome {
        OutcomeView::Reset(_) => message_fault(ctx, frame),
        _ => None,
    }
}

/// Why an UPDATE of this outcome, whose routes have path identifiers, is answered by a reset, where it is.
pub(crate) fn identified_fault(
    ctx: &Context,
    families: PathFamilies,
    body: &[u8],
    plain: &[u8],
    shifts: &PathShifts,
    outcome: &OutcomeView<'_>,
) -> Option<Fault>
    requires short { length body.now ≤ 4077 }
    requires plain { length plain.now ≤ 4077 }
    ensures { result ≡ fault_between ctx.now families body.now plain.now (shifted shifts.now) (outcome_value outcome.now) }
{
    match outcome {
        OutcomeView::Reset(why) => path_fault(ctx, families, body, plain, shifts, why.subcode),
        _ => None,
    }
}
