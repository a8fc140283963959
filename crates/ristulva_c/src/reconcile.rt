//! UPDATEs of a session with 2-octet AS numbers, as 4-octet speakers see them.

ghost use Rattle.std.specs.Prelude.{◌≡◌, ◌≤◌, false, Some, length, option_map, IfOk};
ghost use Rattle.bgp_update.specs.Prelude.{verdict_of, update_value, notes_value, with_as4};
ghost use Rattle.ristulva_c.specs.Prelude.{context_of, taken_of, without_notes, IsCoded, rebuilt_update, reconciled_of, IsReconciled};

use crate::context::{SessionContext, context_of};
use crate::encode::{Coded, tell, with_as4, written_last};
use crate::status::RANGE;
use bgp_open::Context;
use bgp_update::{Found, Update, UpdateView, reconcile};
use std::alloc::{AllocError, Global};

/// An UPDATE with the path and the aggregator that AS4_PATH and AS4_AGGREGATOR give instead of all four attributes.
fn rebuild(alloc: Global, update: Update) -> Result<Update, AllocError>
    ensures { IfOk result (λ it. it ≡ rebuilt_update update) }
{
    let info = reconcile(alloc, &update.attrs)?;
    let mut rebuilt = update;
    rebuilt.attrs.as_path = info.path;
    rebuilt.attrs.aggregator = info.aggregator;
    rebuilt.attrs.as4_path = None;
    rebuilt.attrs.as4_aggregator = None;
    Ok(rebuilt)
}

/// The message of an UPDATE that is accepted, with 4-octet AS numbers, where it can be written.
fn rebuilt(alloc: Global, ctx: &Context, view: &UpdateView<'_>) -> Coded
    ensures { IsCoded result (Some (reconciled_of ctx.now (update_value view.now))) }
{
    let wide = with_as4(true, ctx);
    let Ok(update) = view.own(alloc) else {
        return Coded::Memory;
    };
    match rebuild(alloc, update) {
        Ok(rebuilt) => written_last(alloc, &wide, rebuilt),
        Err(_) => Coded::Memory,
    }
}

/// As `rebuilt`, where it has no note.
fn whole_rebuilt(alloc: Global, ctx: &Context, view: &UpdateView<'_>) -> Coded
    ensures { IsCoded result (option_map (reconciled_of ctx.now) (without_notes (update_value view.now) (notes_value view.now))) }
{
    match view.notes().next() {
        Some(_) => Coded::Refused,
        None => rebuilt(alloc, ctx, view),
    }
}

/// The result of a body of a session with 2-octet AS numbers.
fn reconciled(alloc: Global, ctx: &Context, body: &[u8]) -> Coded
    requires { length body.now ≤ 4077 }
    ensures { IsCoded result (option_map (reconciled_of ctx.now) (taken_of (verdict_of (with_as4 false ctx.now) body.now))) }
{
    let narrow = with_as4(false, ctx);
    let mut view = UpdateView::empty();
    match view.judge(&narrow, body) {
        Found::Take => whole_rebuilt(alloc, ctx, &view),
        Found::Withdraw | Found::Reset(_) => Coded::Refused,
    }
}

/// Writes an UPDATE of a session with 2-octet AS numbers, given as a body in any form, as 4-octet speakers see it
/// (RFC 6793, section 4.2.3), as a whole message.
#[unsafe(no_mangle)]
pub extern "C" fn ristulva_reconcile(
    alloc: Global,
    ctx: &SessionContext,
    body: &[u8],
    buffer: &mut [u8],
    len: &mut usize,
) -> u32
    ensures { IsReconciled (context_of ctx.now) body.now (record { status = result; before = buffer.old; behind = buffer.new; len_before = len.old; len_behind = len.new }) }
{
    if body.len() > 4077 {
        return RANGE;
    }
    tell(reconciled(alloc, &context_of(ctx), body), buffer, len)
}
