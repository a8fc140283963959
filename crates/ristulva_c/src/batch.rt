//! Batches: messages in sequence, as rows in the caller's list.

ghost use Rattle.std.specs.Prelude.{◌≡◌, ◌+◌, ◌<◌, ◌≤◌, length, MatchResult};
ghost use Rattle.bgp_frame.specs.Prelude.{IsLength};
ghost use Rattle.ristulva_c.specs.Batch.{IsBatch, TakesAll};
ghost use Rattle.ristulva_c.specs.Context.{context_of};
ghost use Rattle.ristulva_c.specs.steps.Batch.{Takes, Stops, TakesFrame, StopsAtFrame};

use crate::context::{SessionContext, context_of};
use crate::status::{INCOMPLETE, OK, REFUSED, ROOM};
use bgp_frame::{Frame, Step, front};
use bgp_msg::{OutcomeView, view_frame};
use bgp_open::Context;
use bgp_update::UpdateView;

/// The most rows of a message: after its header an UPDATE has two lengths, and each row has an octet at least.
const ROWS_MAX: usize = 4073;

/// The rows that a batch produces for each message.
pub(crate) trait Batch {
    ghost use Rattle.std.specs.Prelude.{◌≡◌, ◌+◌, ◌≤◌, ℕ, List, Option, length, nat_le};
    ghost use Rattle.bgp_update.specs.Parts.{Parts, parts_of};
    ghost use Rattle.bgp_msg.specs.declared.outcome.Outcome.{Outcome};
    ghost use Rattle.bgp_msg.specs.declared.outcome_view.OutcomeView.{OutcomeView};
    ghost use Rattle.bgp_msg.specs.OutcomeView.{outcome_value};
    ghost use Rattle.ristulva_c.specs.steps.Batch.{Adds, IsViewed};

    /// A row of the list.
    type Row;

    /// Which rows a message gives.
    ghost gives: { ℕ → Option Parts → Outcome → List Self.Row → Type 0 };

    /// Those that are written.
    ghost rows: { ℕ → Option Parts → OutcomeView → List Self.Row };

    /// Whether the rows of a message fit in this room.
    fn fit(body: &[u8], outcome: &OutcomeView<'_>, room: usize) -> bool
        requires { IsViewed body.now (outcome_value outcome.now) }
        ensures fit { (at : ℕ) → result ≡ nat_le (length (rows at (parts_of body.now) outcome.now)) room }
        ensures given { (at : ℕ) → gives at (parts_of body.now) (outcome_value outcome.now) (rows at (parts_of body.now) outcome.now) }
        ensures few { (at : ℕ) → length (rows at (parts_of body.now) outcome.now) ≤ 4073 };

    /// Writes the rows of a message that begins at an offset, from an index of the list on. Answers the index after
    /// them.
    fn put(
        at: u64,
        body: &[u8],
        outcome: &OutcomeView<'_>,
        list: &mut [Self::Row],
        from: usize,
    ) -> usize
        requires viewed { IsViewed body.now (outcome_value outcome.now) }
        requires room { from + length (rows at (parts_of body.now) outcome.now) ≤ length list.old }
        ensures { Adds (rows at (parts_of body.now) outcome.now) from result list.old list.new };
}

/// The result of a message: its length, and the index after its rows; or the status that ends the batch.
type Next = Result<(usize, usize), u32>;

/// Processes a message, where it doesn't end the session and its rows fit.
fn take_frame<'a, B: Batch>(
    ctx: &Context,
    at: usize,
    frame: Frame<'a>,
    view: &mut UpdateView<'a>,
    list: &mut [B::Row],
    from: usize,
) -> Next
    requires allowed { IsLength frame.kind (19 + length frame.body.now) }
    requires from { from ≤ length list.old }
    ensures { MatchResult result (λ x. TakesFrame B.gives ctx.now at frame.entry x.0 from x.1 list.old list.new)
        (λ status. StopsAtFrame B.gives ctx.now at frame.entry status from list.old list.new) }
{
    let body = frame.body;
    let len = frame.len as usize;
    let outcome = view_frame(ctx, frame, view);
    if outcome.is_reset() {
        return Err(REFUSED);
    }
    if !B::fit(body, &outcome, list.len() - from) {
        return Err(OK);
    }
    Ok((len, B::put(at as u64, body, &outcome, list, from)))
}

/// Processes the message at an offset.
fn take<'a, B: Batch>(
    ctx: &Context,
    octets: &'a [u8],
    at: usize,
    view: &mut UpdateView<'a>,
    list: &mut [B::Row],
    from: usize,
) -> Next
    requires at { at < length octets.now }
    requires from { from ≤ length list.old }
    ensures { MatchResult result (λ x. Takes B.gives ctx.now octets.now at x.0 from x.1 list.old list.new)
        (λ status. Stops B.gives ctx.now octets.now at status from list.old list.new) }
{
    let (_, rest) = octets.split_at(at);
    match front(rest) {
        Step::More => Err(INCOMPLETE),
        Step::Frame(frame) => take_frame::<B>(ctx, at, frame, view, list, from),
        Step::Fault(_) => Err(REFUSED),
    }
}

/// Processes messages from the first octet on.
fn walk<B: Batch>(
    ctx: &Context,
    octets: &[u8],
    list: &mut [B::Row],
    written: &mut usize,
    taken: &mut usize,
) -> u32
    ensures { TakesAll B.gives ctx.now octets.now (record { status = result; before = list.old; behind = list.new; written_before = written.old; written_behind = written.new; taken_before = taken.old; taken_behind = taken.new }) }
{
    let mut view = UpdateView::empty();
    *written = 0;
    *taken = 0;
    'messages: while *taken < octets.len() {
        match take::<B>(ctx, octets, *taken, &mut view, list, *written) {
            Ok((len, behind)) => {
                *taken += len;
                *written = behind;
            }
            Err(status) => return status,
        }
    }
    OK
}

/// Processes messages from the first octet on, where the list has room for the rows of any.
pub(crate) fn take_all<B: Batch>(
    ctx: &SessionContext,
    octets: &[u8],
    list: &mut [B::Row],
    written: &mut usize,
    taken: &mut usize,
) -> u32
    ensures { IsBatch B.gives (context_of ctx.now) octets.now (record { status = result; before = list.old; behind = list.new; written_before = written.old; written_behind = written.new; taken_before = taken.old; taken_behind = taken.new }) }
{
    if list.len() < ROWS_MAX {
        return ROOM;
    }
    walk::<B>(&context_of(ctx), octets, list, written, taken)
}
