//! UPDATEs in their written form.

ghost use Rattle.std.specs.Prelude.{◌≡◌, ◌≤◌, true, false, ℕ, List, Option, None, Some, length, option_map, IfOk};
ghost use Rattle.bgp_update.specs.Prelude.{HasNoAs4, with_as4, invalid_of, narrowed_update, verdict_of, update_value, notes_value};
ghost use Rattle.ristulva_c.specs.Prelude.{context_of, taken_of, without_notes, written_of, encoded_of, narrowed_of, IsCoded, Writes, IsEncoded, IsNarrowed};

use crate::context::{SessionContext, context_of};
use crate::status::{MEMORY, RANGE, REFUSED, UNWRITABLE};
use crate::written::write;
use bgp_msg::encode_update;
use bgp_open::Context;
use bgp_update::{Found, Update, UpdateView, WriteFault, into_narrowed};
use bgp_wire::are_octets;
use std::alloc::{AllocError, Global};

/// The result of a body.
#[derive(Drop)]
pub(crate) enum Coded {
    /// It isn't accepted whole.
    Refused,
    /// It is, and an allocation failed.
    Memory,
    /// It can't be written.
    Unwritable,
    /// Its message in its written form.
    Octets(Vec<u8>),
}

/// The message of an UPDATE in its written form, where it can be written.
fn written(alloc: Global, ctx: &Context, update: &Update) -> Coded
    ensures { IsCoded result (Some (written_of ctx.now update.now)) }
{
    let mut octets = Vec::new(alloc);
    match encode_update(ctx, update, &mut octets) {
        Ok(()) => Coded::Octets(octets),
        Err(WriteFault::Memory) => Coded::Memory,
        Err(WriteFault::NotValid(_why)) => Coded::Unwritable,
        Err(WriteFault::TooLong) => Coded::Unwritable,
    }
}

/// As `written`, and drops the UPDATE: in a call of its own, since each drop of an UPDATE adds to the proofs.
pub(crate) fn written_last(alloc: Global, ctx: &Context, update: Update) -> Coded
    ensures { IsCoded result (Some (written_of ctx.now update)) }
{
    written(alloc, ctx, &update)
}

/// The message of an UPDATE that is accepted: it can be written.
fn rewritten(alloc: Global, ctx: &Context, view: &UpdateView<'_>) -> Coded
    requires { written_of ctx.now (update_value view.now) ≡ encoded_of ctx.now (update_value view.now) }
    ensures { IsCoded result (Some (encoded_of ctx.now (update_value view.now))) }
{
    match view.own(alloc) {
        Ok(update) => written_last(alloc, ctx, update),
        Err(_) => Coded::Memory,
    }
}

/// As `rewritten`, where it has no note.
fn whole(alloc: Global, ctx: &Context, view: &UpdateView<'_>) -> Coded
    requires { written_of ctx.now (update_value view.now) ≡ encoded_of ctx.now (update_value view.now) }
    ensures { IsCoded result (option_map (encoded_of ctx.now) (without_notes (update_value view.now) (notes_value view.now))) }
{
    match view.notes().next() {
        Some(_) => Coded::Refused,
        None => rewritten(alloc, ctx, view),
    }
}

/// The result of a body.
fn encoded(alloc: Global, ctx: &Context, body: &[u8]) -> Coded
    requires { length body.now ≤ 4077 }
    ensures { IsCoded result (option_map (encoded_of ctx.now) (taken_of (verdict_of ctx.now body.now))) }
{
    are_octets(body);
    let mut view = UpdateView::empty();
    match view.judge(ctx, body) {
        Found::Take => whole(alloc, ctx, &view),
        Found::Withdraw | Found::Reset(_) => Coded::Refused,
    }
}

/// Writes the result of a body.
pub(crate) fn tell(coded: Coded, buffer: &mut [u8], len: &mut usize) -> u32
    ensures { (found : Option (Option (List ℕ))) → IsCoded coded found → Writes found (record { status = result; before = buffer.old; behind = buffer.new; len_before = len.old; len_behind = len.new }) }
{
    match coded {
        Coded::Refused => REFUSED,
        Coded::Memory => MEMORY,
        Coded::Unwritable => UNWRITABLE,
        Coded::Octets(octets) => write(&octets, buffer, len),
    }
}

/// Writes an UPDATE, given as a body in any form, in its one written form, as a whole message.
#[unsafe(no_mangle)]
pub extern "C" fn ristulva_encode(
    alloc: Global,
    ctx: &SessionContext,
    body: &[u8],
    buffer: &mut [u8],
    len: &mut usize,
) -> u32
    ensures { IsEncoded (context_of ctx.now) body.now (record { status = result; before = buffer.old; behind = buffer.new; len_before = len.old; len_behind = len.new }) }
{
    if body.len() > 4077 {
        return RANGE;
    }
    tell(encoded(alloc, &context_of(ctx), body), buffer, len)
}

/// The same session, but for the width of its AS numbers.
pub(crate) fn with_as4(as4: bool, ctx: &Context) -> Context
    ensures { result ≡ with_as4 as4 ctx.now }
{
    Context { as4, ..*ctx }
}

/// An UPDATE as sent to a speaker with 2-octet AS numbers.
fn told(alloc: Global, update: Update) -> Result<Update, AllocError>
    requires { HasNoAs4 update.attrs }
    ensures { IfOk result (λ it. it ≡ narrowed_update update) }
{
    let attrs = into_narrowed(alloc, update.attrs)?;
    Ok(Update {
        withdrawn: update.withdrawn,
        attrs,
        nlri: update.nlri,
    })
}

/// The message of an UPDATE that is accepted, as sent to a speaker with 2-octet AS numbers, where it can be written.
fn renarrowed(alloc: Global, ctx: &Context, view: &UpdateView<'_>) -> Coded
    requires plain { HasNoAs4 (update_value view.now).attrs }
    requires wide { ctx.now.as4 ≡ true }
    requires valid { invalid_of ctx.now (update_value view.now) ≡ None }
    ensures { IsCoded result (Some (narrowed_of ctx.now (update_value view.now))) }
{
    let narrow_ctx = with_as4(false, ctx);
    let Ok(update) = view.own(alloc) else {
        return Coded::Memory;
    };
    match told(alloc, update) {
        Ok(told) => written_last(alloc, &narrow_ctx, told),
        Err(_) => Coded::Memory,
    }
}

/// As `renarrowed`, where it has no note.
fn whole_narrowed(alloc: Global, ctx: &Context, view: &UpdateView<'_>) -> Coded
    requires plain { HasNoAs4 (update_value view.now).attrs }
    requires wide { ctx.now.as4 ≡ true }
    requires valid { invalid_of ctx.now (update_value view.now) ≡ None }
    ensures { IsCoded result (option_map (narrowed_of ctx.now) (without_notes (update_value view.now) (notes_value view.now))) }
{
    match view.notes().next() {
        Some(_) => Coded::Refused,
        None => renarrowed(alloc, ctx, view),
    }
}

/// The result of a body of a session with 4-octet AS numbers.
fn narrowed(alloc: Global, ctx: &Context, body: &[u8]) -> Coded
    requires wide { ctx.now.as4 ≡ true }
    requires long { length body.now ≤ 4077 }
    ensures { IsCoded result (option_map (narrowed_of ctx.now) (taken_of (verdict_of ctx.now body.now))) }
{
    are_octets(body);
    let mut view = UpdateView::empty();
    match view.judge(ctx, body) {
        Found::Take => whole_narrowed(alloc, ctx, &view),
        Found::Withdraw | Found::Reset(_) => Coded::Refused,
    }
}

/// Writes an UPDATE of a session with 4-octet AS numbers, given as a body in any form, as sent to a 2-octet speaker
/// (RFC 6793), as a whole message.
#[unsafe(no_mangle)]
pub extern "C" fn ristulva_narrow(
    alloc: Global,
    ctx: &SessionContext,
    body: &[u8],
    buffer: &mut [u8],
    len: &mut usize,
) -> u32
    ensures { IsNarrowed (with_as4 true (context_of ctx.now)) body.now (record { status = result; before = buffer.old; behind = buffer.new; len_before = len.old; len_behind = len.new }) }
{
    if body.len() > 4077 {
        return RANGE;
    }
    let wide = with_as4(true, &context_of(ctx));
    tell(narrowed(alloc, &wide, body), buffer, len)
}
