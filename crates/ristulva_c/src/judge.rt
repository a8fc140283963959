//! The outcome of a message.

ghost use Rattle.std.specs.Prelude.{◌≡◌, ◌+◌, ◌≤◌, None, length, nat_le, if◌then◌else◌, MatchOption};
ghost use Rattle.bgp_frame.specs.Prelude.{notification_of_view, IsLength, code_of};
ghost use Rattle.bgp_frame.specs.declared.step.Step.TheVariants as step;
ghost use Rattle.bgp_open.specs.declared.context.Context.{Context};
ghost use Rattle.bgp_msg.specs.Prelude.{outcome_value};
ghost use Rattle.ristulva_c.specs.Prelude.{context_of, copied, number_of, said_by, verdict_told, parts_at, parts_told, Answers, IsJudged};
ghost use Rattle.ristulva_c.specs.declared.status.TheConstants.{INCOMPLETE, OK, ROOM};

use crate::context::{SessionContext, context_of};
use crate::copied::copy_into;
use crate::parts::{ToldParts, no_parts, told_parts};
use crate::status::{INCOMPLETE, OK, ROOM};
use bgp_frame::{Frame, HeadFault, Kind, NotificationView, Step, front};
use bgp_msg::{OutcomeView, view_frame};
use bgp_update::UpdateView;
use bgp_wire::are_octets;

/// An OPEN is accepted.
pub const OPEN: u8 = 1;

/// An UPDATE is accepted.
pub const UPDATE: u8 = 2;

/// A NOTIFICATION was received.
pub const NOTIFICATION: u8 = 3;

/// A KEEPALIVE is accepted.
pub const KEEPALIVE: u8 = 4;

/// An UPDATE is treated as a withdrawal of all its routes (RFC 7606, section 2).
pub const WITHDRAW: u8 = 5;

/// The session ends, by a NOTIFICATION to the peer.
pub const RESET: u8 = 6;

/// The outcome of a message.
#[repr(C)]
#[derive(Clone, Copy)]
pub struct Verdict {
    /// `OPEN`, `UPDATE`, `NOTIFICATION`, `KEEPALIVE`, `WITHDRAW` or `RESET`.
    pub verdict: u8,
    /// The type of the message, 1 to 4; 0 where its header has a fault.
    pub kind: u8,
    /// The code of the NOTIFICATION that was received or that ends the session; else 0.
    pub code: u8,
    /// Its subcode.
    pub subcode: u8,
    /// The length of the message; 0 where its header has a fault.
    pub len: u32,
    /// The length of that NOTIFICATION's data.
    pub info_len: u32,
    /// The parts of an UPDATE, where its lengths leave room for each other.
    pub parts: ToldParts,
}

/// The number of an outcome.
pub(crate) fn number_of(outcome: &OutcomeView<'_>) -> u8
    ensures { result ≡ number_of (outcome_value outcome.now) }
{
    match outcome {
        OutcomeView::Open(_) => OPEN,
        OutcomeView::Update(_) => UPDATE,
        OutcomeView::Notification(_) => NOTIFICATION,
        OutcomeView::Keepalive => KEEPALIVE,
        OutcomeView::Withdraw(_) => WITHDRAW,
        OutcomeView::Reset(_) => RESET,
    }
}

/// The number of a message's type.
pub(crate) fn code_of(kind: Kind) -> u8
    ensures { result ≡ code_of kind }
{
    kind as u8
}

/// The NOTIFICATION that was received or that ends the session: zeros where there is none.
fn said_by<'a>(outcome: &OutcomeView<'a>) -> NotificationView<'a>
    ensures { notification_of_view result ≡ said_by (outcome_value outcome.now) }
{
    match outcome {
        OutcomeView::Notification(said) => *said,
        OutcomeView::Reset(why) => *why,
        _ => NotificationView {
            code: 0,
            subcode: 0,
            info: &[],
        },
    }
}

/// Writes an outcome, and copies the data of its NOTIFICATION.
pub(crate) fn tell(
    kind: u8,
    len: u16,
    parts: ToldParts,
    outcome: &OutcomeView<'_>,
    info: &mut [u8],
    out: &mut Verdict,
) -> u32
    ensures status { result ≡ (if nat_le (length (said_by (outcome_value outcome.now)).info.items) (length info.old) then OK else ROOM) }
    ensures info { info.new ≡ copied (said_by (outcome_value outcome.now)).info.items info.old }
    ensures out { out.new ≡ verdict_told kind len parts (outcome_value outcome.now) }
    ensures short { length (said_by (outcome_value outcome.now)).info.items ≤ 4075 }
{
    let said = said_by(outcome);
    *out = Verdict {
        verdict: number_of(outcome),
        kind,
        code: said.code,
        subcode: said.subcode,
        len: u32::from(len),
        info_len: said.info.len() as u32,
        parts,
    };
    if copy_into(said.info, info) { OK } else { ROOM }
}

/// The spans of the parts of a message, where it has some.
fn found_parts(frame: &Frame<'_>) -> Option<ToldParts>
    requires { length frame.now.body.now ≤ 4077 }
    ensures { MatchOption result (parts_at frame.now.kind frame.now.body.now ≡ parts_told None) (λ told. told ≡ parts_at frame.now.kind frame.now.body.now) }
{
    match frame.kind {
        Kind::Update => told_parts(frame.body),
        Kind::Open | Kind::Notification | Kind::Keepalive => None,
    }
}

/// The spans of the parts of a message.
pub(crate) fn parts_at(frame: &Frame<'_>) -> ToldParts
    requires { length frame.now.body.now ≤ 4077 }
    ensures { result ≡ parts_at frame.now.kind frame.now.body.now }
{
    found_parts(frame).unwrap_or(no_parts())
}

/// Writes the outcome of a whole message with these parts.
#[inline(always)]
fn tell_with(
    ctx: &SessionContext,
    frame: Frame<'_>,
    parts: ToldParts,
    info: &mut [u8],
    out: &mut Verdict,
) -> u32
    requires allowed { IsLength frame.kind (19 + length frame.body.now) }
    requires parts { parts ≡ parts_at frame.kind frame.body.now }
    ensures { Answers (context_of ctx.now) (step.Frame frame.entry) (record { status = result; before = out.old; behind = out.new; info_before = info.old; info_behind = info.new }) }
{
    let kind = code_of(frame.kind);
    let len = frame.len;
    let mut view = UpdateView::empty();
    let outcome = view_frame(&context_of(ctx), frame, &mut view);
    tell(kind, len, parts, &outcome, info, out)
}

/// Writes the outcome of a whole message without parts.
#[inline(never)]
fn tell_without(ctx: &SessionContext, frame: Frame<'_>, info: &mut [u8], out: &mut Verdict) -> u32
    requires allowed { IsLength frame.kind (19 + length frame.body.now) }
    requires none { parts_at frame.kind frame.body.now ≡ parts_told None }
    ensures { Answers (context_of ctx.now) (step.Frame frame.entry) (record { status = result; before = out.old; behind = out.new; info_before = info.old; info_behind = info.new }) }
{
    tell_with(ctx, frame, no_parts(), info, out)
}

/// Writes the outcome of a whole message. One without parts is judged elsewhere, so that the lengths of an UPDATE are
/// read once.
pub(crate) fn tell_frame(
    ctx: &SessionContext,
    frame: Frame<'_>,
    info: &mut [u8],
    out: &mut Verdict,
) -> u32
    requires { IsLength frame.kind (19 + length frame.body.now) }
    ensures { Answers (context_of ctx.now) (step.Frame frame.entry) (record { status = result; before = out.old; behind = out.new; info_before = info.old; info_behind = info.new }) }
{
    match found_parts(&frame) {
        None => tell_without(ctx, frame, info, out),
        Some(parts) => tell_with(ctx, frame, parts, info, out),
    }
}

/// Writes the outcome of a header with a fault.
pub(crate) fn tell_fault(fault: HeadFault, info: &mut [u8], out: &mut Verdict) -> u32
    ensures { (ctx : Context) → Answers ctx (step.Fault fault) (record { status = result; before = out.old; behind = out.new; info_before = info.old; info_behind = info.new }) }
{
    let why = fault.answer();
    let outcome = OutcomeView::Reset(why.view());
    tell(0, 0, no_parts(), &outcome, info, out)
}

/// Judges the message that octets begin with, in the context of its session. Octets after it are ignored.
#[unsafe(no_mangle)]
pub extern "C" fn ristulva_judge(
    ctx: &SessionContext,
    octets: &[u8],
    info: &mut [u8],
    out: &mut Verdict,
) -> u32
    ensures { IsJudged (context_of ctx.now) octets.now (record { status = result; before = out.old; behind = out.new; info_before = info.old; info_behind = info.new }) }
{
    are_octets(octets);
    match front(octets) {
        Step::More => INCOMPLETE,
        Step::Frame(frame) => tell_frame(ctx, frame, info, out),
        Step::Fault(fault) => tell_fault(fault, info, out),
    }
}
