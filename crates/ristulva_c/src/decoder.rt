//! The messages of a stream whose octets arrive in pieces.

ghost use Rattle.std.specs.Prelude.{◌≡◌, ◌+◌, ◌<◌, ◌≤◌, ◌⊎◌, false, [], ◌++◌, Some, length, take};
ghost use Rattle.bgp_open.specs.declared.context.Context.{Context};
ghost use Rattle.bgp_msg.specs.Prelude.{Decoding, outcome_value};
ghost use Rattle.ristulva_c.specs.Prelude.{context_of, IsHeldTold, GivesHeld, IsWholeTold, Pulls, PullsWithRoom};
ghost use Rattle.ristulva_c.specs.Decoder.{IsFoundTold};
ghost use Rattle.ristulva_c.specs.Decoder.{IsMade, IsFreed};
ghost use Rattle.ristulva_c.specs.declared.status.TheConstants.{OK};

use crate::context::{SessionContext, context_of};
use crate::handle::DecoderHandle;
use crate::judge::{Verdict, code_of, parts_at, tell};
use crate::messages::{MESSAGE_MAX, put};
use crate::parts::no_parts;
use crate::status::{IN_USE, INCOMPLETE, MEMORY, NO_SESSION, OK, ROOM, STATE};
use bgp_frame::{Step, front};
use bgp_msg::{Decoder, Look, Next, OutcomeView};
use bgp_update::UpdateView;
use bgp_wire::are_octets;
use std::alloc::Global;

/// The greatest length of a NOTIFICATION's Data field.
const INFO_MAX: usize = 4075;

/// Makes a decoder at the beginning of a stream, where the handle has none.
#[unsafe(no_mangle)]
pub extern "C" fn ristulva_decoder_new(
    alloc: Global,
    ctx: &SessionContext,
    decoder: &mut DecoderHandle,
) -> u32
    ensures { IsMade (context_of ctx.now) decoder.old.value result decoder.new.value }
{
    if let Some(body) = decoder.take(alloc) {
        decoder.put(body);
        return IN_USE;
    }
    match Box::new(alloc, Decoder::new(context_of(ctx))) {
        Err(_) => MEMORY,
        Ok(body) => {
            decoder.put(body);
            OK
        }
    }
}

/// Frees a decoder.
#[unsafe(no_mangle)]
pub extern "C" fn ristulva_decoder_free(alloc: Global, decoder: &mut DecoderHandle) -> u32
    ensures { IsFreed decoder.old.value result decoder.new.value }
{
    match decoder.take(alloc) {
        None => NO_SESSION,
        Some(_body) => OK,
    }
}

/// Reports the length of the incomplete message that a decoder holds.
#[unsafe(no_mangle)]
pub extern "C" fn ristulva_decoder_held(
    alloc: Global,
    decoder: &mut DecoderHandle,
    held: &mut usize,
) -> u32
    ensures kept { decoder.new.value ≡ decoder.old.value }
    ensures told { IsHeldTold decoder.old.value result held.old held.new }
{
    let Some(body) = decoder.take(alloc) else {
        return NO_SESSION;
    };
    *held = body.held();
    decoder.put(body);
    OK
}

/// The octets that are held once `count` of the piece are fed: nothing is held, or nothing is fed.
fn held_by<'a>(decoder: &'a Decoder, piece: &'a [u8], count: usize) -> &'a [u8]
    requires within { count ≤ length piece.now }
    requires either { (count ≡ 0) ⊎ (decoder.now.held ≡ []) }
    ensures { result.now ≡ decoder.now.held ++ take count piece.now }
{
    if count == 0 {
        return decoder.octets();
    }
    let (octets, _) = piece.split_at(count);
    octets
}

/// Reports octets that are a whole message or a header with a fault, by their outcome, and copies them.
fn tell_whole(
    octets: &[u8],
    outcome: &OutcomeView<'_>,
    message: &mut [u8],
    info: &mut [u8],
    out: &mut Verdict,
)
    requires { 4075 ≤ length info.old }
    ensures { (ctx : Context) → GivesHeld (record { ctx = ctx; held = octets.now; stopped = false }) (outcome_value outcome.now)
        → IsWholeTold ctx octets.now (outcome_value outcome.now) (record { status = OK; before = out.old; behind = out.new; info_before = info.old; info_behind = info.new }) message.old message.new }
{
    are_octets(octets);
    put(octets, message);
    match front(octets) {
        Step::More => {}
        Step::Frame(frame) => {
            let kind = code_of(frame.kind);
            let parts = parts_at(&frame);
            tell(kind, frame.len, parts, outcome, info, out);
        }
        Step::Fault(_) => {
            tell(0, 0, no_parts(), outcome, info, out);
        }
    }
}

/// Reports what a decoder gives of its held octets and a piece: the number of octets of the piece fed to it then, and
/// where it continues. None where the piece is to be fed.
fn tell_found(
    decoder: &Decoder,
    piece: &[u8],
    message: &mut [u8],
    info: &mut [u8],
    out: &mut Verdict,
) -> Option<(usize, Next)>
    requires going { decoder.now.stopped ≡ false }
    requires room { 4075 ≤ length info.old }
    ensures { IsFoundTold decoder.now piece.now result (record { judging = record { status = OK; before = out.old; behind = out.new; info_before = info.old; info_behind = info.new }; message_before = message.old; message_behind = message.new }) }
{
    let mut view = UpdateView::empty();
    match decoder.look(piece, &mut view) {
        Look::Feed => None,
        Look::Message(count, _, outcome, next) => {
            tell_whole(held_by(decoder, piece, count), &outcome, message, info, out);
            Some((count, next))
        }
        Look::Fault(count, fault, next) => {
            let why = fault.answer();
            let outcome = OutcomeView::Reset(why.view());
            tell_whole(held_by(decoder, piece, count), &outcome, message, info, out);
            Some((count, next))
        }
    }
}

/// Feeds a piece, where a look found nothing, and reports what is held then.
fn feed(
    decoder: &mut Decoder,
    piece: &[u8],
    message: &mut [u8],
    info: &mut [u8],
    taken: &mut usize,
    out: &mut Verdict,
) -> u32
    requires going { decoder.old.stopped ≡ false }
    requires room { 4075 ≤ length info.old }
    ensures { Pulls (Some decoder.old) piece.now (record { judging = record { status = result; before = out.old; behind = out.new; info_before = info.old; info_behind = info.new }; old = Some decoder.old; new = Some decoder.new; message_before = message.old; message_behind = message.new; taken_before = taken.old; taken_behind = taken.new }) }
{
    *taken = decoder.feed(piece);
    match tell_found(decoder, &[], message, info, out) {
        None => INCOMPLETE,
        Some((_, next)) => {
            decoder.go(next);
            OK
        }
    }
}

/// Pulls the next message from a piece.
fn pull(
    decoder: &mut Decoder,
    piece: &[u8],
    message: &mut [u8],
    info: &mut [u8],
    taken: &mut usize,
    out: &mut Verdict,
) -> u32
    requires { 4075 ≤ length info.old }
    ensures { Pulls (Some decoder.old) piece.now (record { judging = record { status = result; before = out.old; behind = out.new; info_before = info.old; info_behind = info.new }; old = Some decoder.old; new = Some decoder.new; message_before = message.old; message_behind = message.new; taken_before = taken.old; taken_behind = taken.new }) }
{
    if decoder.stopped() {
        return STATE;
    }
    match tell_found(decoder, piece, message, info, out) {
        None => feed(decoder, piece, message, info, taken, out),
        Some((count, next)) => {
            *taken = count;
            decoder.go(next);
            OK
        }
    }
}

/// Consumes octets of a piece until a message is whole, and reports its outcome and its octets. What is held comes
/// first.
#[unsafe(no_mangle)]
pub extern "C" fn ristulva_decoder_pull(
    alloc: Global,
    decoder: &mut DecoderHandle,
    piece: &[u8],
    message: &mut [u8],
    info: &mut [u8],
    taken: &mut usize,
    out: &mut Verdict,
) -> u32
    ensures { PullsWithRoom decoder.old.value piece.now (record { judging = record { status = result; before = out.old; behind = out.new; info_before = info.old; info_behind = info.new }; old = decoder.old.value; new = decoder.new.value; message_before = message.old; message_behind = message.new; taken_before = taken.old; taken_behind = taken.new }) }
{
    if message.len() < MESSAGE_MAX || info.len() < INFO_MAX {
        return ROOM;
    }
    let Some(mut body) = decoder.take(alloc) else {
        return NO_SESSION;
    };
    let status = pull(&mut body, piece, message, info, taken, out);
    decoder.put(body);
    status
}
