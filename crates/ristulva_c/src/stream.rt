//! The messages of a stream by terms, whose octets arrive in pieces.

ghost use Rattle.std.specs.Prelude.{◌≡◌, ◌<◌, ◌≤◌, ◌⊎◌, false, [], ◌++◌, Some, length, take};
ghost use Rattle.bgp_terms.specs.Prelude.{Agreed, wide_terms};
ghost use Rattle.bgp_frame.specs.Prelude.{message_in};
ghost use Rattle.bgp_wide.specs.Prelude.{out_in, wide_value};
ghost use Rattle.ristulva_c.specs.Decoder.{IsFreed};
ghost use Rattle.ristulva_c.specs.Stream.{GivesHeld, IsFoundTold, IsHeldTold, IsMade, IsWholeTold, Pulls, PullsWithRoom};
ghost use Rattle.ristulva_c.specs.Terms.{terms_in};
ghost use Rattle.ristulva_c.specs.steps.JudgeIn.{FrameAnswers};
ghost use Rattle.ristulva_c.specs.declared.status.TheConstants.{OK};

use crate::handle::StreamHandle;
use crate::judge::{Verdict, code_of, parts_at, tell, tell_fault};
use crate::judge_in::tell_refresh;
use crate::messages::{MESSAGE_MAX, put};
use crate::status::{IN_USE, INCOMPLETE, MEMORY, NO_SESSION, OK, RANGE, ROOM, STATE};
use crate::terms::{SessionTerms, terms_in};
use bgp_frame::{Frame, Step, WideKind};
use bgp_msg::OutcomeView;
use bgp_terms::{Refreshes, WideTerms};
use bgp_update::UpdateView;
use bgp_wide::{WideDecoder, WideLook, WideNext, WideOutcomeView, front_in};
use bgp_wire::are_octets;
use std::alloc::Global;

/// The greatest length of a NOTIFICATION's Data field.
const INFO_MAX: usize = 4075;

/// Makes a stream at its beginning, where the handle has none.
#[unsafe(no_mangle)]
pub extern "C" fn ristulva_stream_new(
    alloc: Global,
    terms: &SessionTerms,
    stream: &mut StreamHandle,
) -> u32
    ensures { IsMade (terms_in terms.now) stream.old.value result stream.new.value }
{
    if let Some(body) = stream.take(alloc) {
        stream.put(body);
        return IN_USE;
    }
    let Some(agreed) = terms_in(terms) else {
        return RANGE;
    };
    match Box::new(alloc, WideDecoder::new(agreed)) {
        Err(_) => MEMORY,
        Ok(body) => {
            stream.put(body);
            OK
        }
    }
}

/// Frees a stream.
#[unsafe(no_mangle)]
pub extern "C" fn ristulva_stream_free(alloc: Global, stream: &mut StreamHandle) -> u32
    ensures { IsFreed stream.old.value result stream.new.value }
{
    match stream.take(alloc) {
        None => NO_SESSION,
        Some(_body) => OK,
    }
}

/// Reports the length of the incomplete message that a stream holds.
#[unsafe(no_mangle)]
pub extern "C" fn ristulva_stream_held(
    alloc: Global,
    stream: &mut StreamHandle,
    held: &mut usize,
) -> u32
    ensures kept { stream.new.value ≡ stream.old.value }
    ensures told { IsHeldTold stream.old.value result held.old held.new }
{
    let Some(body) = stream.take(alloc) else {
        return NO_SESSION;
    };
    *held = body.held();
    stream.put(body);
    OK
}

/// The octets that are held once `count` of the piece are fed: nothing is held, or nothing is fed.
fn held_by<'a>(decoder: &'a WideDecoder, piece: &'a [u8], count: usize) -> &'a [u8]
    requires within { count ≤ length piece.now }
    requires either { (count ≡ 0) ⊎ (decoder.now.held ≡ []) }
    ensures { result.now ≡ decoder.now.held ++ take count piece.now }
{
    if count == 0 {
        return decoder.octets();
    }
    let (octets, _) = piece.split_at(count);
    octets
}

/// Reports a whole message by its outcome.
fn tell_message(
    refreshes: Refreshes,
    frame: Frame<'_, WideKind>,
    outcome: &WideOutcomeView<'_>,
    info: &mut [u8],
    out: &mut Verdict,
)
    requires room { 4075 ≤ length info.old }
    requires short { length frame.body.now ≤ 4077 }
    ensures { (t : Agreed) → t.refresh ≡ refreshes → wide_value outcome.now ≡ out_in t (message_in frame.entry)
        → FrameAnswers t.context t.refresh frame.entry.kind frame.entry.len frame.entry.body (record { status = OK; before = out.old; behind = out.new; info_before = info.old; info_behind = info.new }) }
{
    let Frame { kind, len, body } = frame;
    match kind {
        WideKind::Refresh => {
            tell_refresh(refreshes, len, body, info, out);
        }
        WideKind::Base(kind) => {
            if let WideOutcomeView::Base(outcome) = outcome {
                let parts = parts_at(&Frame { kind, len, body });
                tell(code_of(kind), len, parts, outcome, info, out);
            }
        }
    }
}

/// Reports octets that are a whole message or a header with a fault, by their outcome, and copies them.
fn tell_whole(
    agreed: &WideTerms,
    octets: &[u8],
    outcome: &WideOutcomeView<'_>,
    message: &mut [u8],
    info: &mut [u8],
    out: &mut Verdict,
)
    requires { 4075 ≤ length info.old }
    ensures { GivesHeld (wide_terms agreed.now) octets.now (wide_value outcome.now)
        → IsWholeTold (wide_terms agreed.now) octets.now (wide_value outcome.now) (record { status = OK; before = out.old; behind = out.new; info_before = info.old; info_behind = info.new }) message.old message.new }
{
    are_octets(octets);
    put(octets, message);
    match front_in(agreed, octets) {
        Step::More => {}
        Step::Frame(frame) => tell_message(agreed.refresh, frame, outcome, info, out),
        Step::Fault(fault) => {
            tell_fault(fault, info, out);
        }
    }
}

/// Reports what a stream gives of its held octets and a piece: the number of octets of the piece fed to it then, and where it continues. None where the
/// piece is to be fed.
fn tell_found(
    decoder: &WideDecoder,
    piece: &[u8],
    message: &mut [u8],
    info: &mut [u8],
    out: &mut Verdict,
) -> Option<(usize, WideNext)>
    requires going { decoder.now.stopped ≡ false }
    requires room { 4075 ≤ length info.old }
    ensures { IsFoundTold decoder.now piece.now result (record { judging = record { status = OK; before = out.old; behind = out.new; info_before = info.old; info_behind = info.new }; message_before = message.old; message_behind = message.new }) }
{
    let agreed = decoder.terms();
    let mut view = UpdateView::empty();
    match decoder.look(piece, &mut view) {
        WideLook::Feed => None,
        WideLook::Message(count, _, outcome, next) => {
            let octets = held_by(decoder, piece, count);
            tell_whole(agreed, octets, &outcome, message, info, out);
            Some((count, next))
        }
        WideLook::Fault(count, fault, next) => {
            let why = fault.answer();
            let outcome = WideOutcomeView::Base(OutcomeView::Reset(why.view()));
            let octets = held_by(decoder, piece, count);
            tell_whole(agreed, octets, &outcome, message, info, out);
            Some((count, next))
        }
    }
}

/// Feeds a piece, where a look found nothing, and reports what is held then.
fn feed(
    decoder: &mut WideDecoder,
    piece: &[u8],
    message: &mut [u8],
    info: &mut [u8],
    taken: &mut usize,
    out: &mut Verdict,
) -> u32
    requires going { decoder.old.stopped ≡ false }
    requires room { 4075 ≤ length info.old }
    ensures { Pulls (Some decoder.old) piece.now (record { judging = record { status = result; before = out.old; behind = out.new; info_before = info.old; info_behind = info.new }; old = Some decoder.old; new = Some decoder.new; message_before = message.old; message_behind = message.new; taken_before = taken.old; taken_behind = taken.new }) }
{
    *taken = decoder.feed(piece);
    match tell_found(decoder, &[], message, info, out) {
        None => INCOMPLETE,
        Some((_, next)) => {
            decoder.go(next);
            OK
        }
    }
}

/// Pulls the next message from a piece.
fn pull(
    decoder: &mut WideDecoder,
    piece: &[u8],
    message: &mut [u8],
    info: &mut [u8],
    taken: &mut usize,
    out: &mut Verdict,
) -> u32
    requires { 4075 ≤ length info.old }
    ensures { Pulls (Some decoder.old) piece.now (record { judging = record { status = result; before = out.old; behind = out.new; info_before = info.old; info_behind = info.new }; old = Some decoder.old; new = Some decoder.new; message_before = message.old; message_behind = message.new; taken_before = taken.old; taken_behind = taken.new }) }
{
    if decoder.stopped() {
        return STATE;
    }
    match tell_found(decoder, piece, message, info, out) {
        None => feed(decoder, piece, message, info, taken, out),
        Some((count, next)) => {
            *taken = count;
            decoder.go(next);
            OK
        }
    }
}

/// Consumes octets of a piece until a message is whole, and reports its outcome and its octets. What is held comes first.
#[unsafe(no_mangle)]
pub extern "C" fn ristulva_stream_pull(
    alloc: Global,
    stream: &mut StreamHandle,
    piece: &[u8],
    message: &mut [u8],
    info: &mut [u8],
    taken: &mut usize,
    out: &mut Verdict,
) -> u32
    ensures { PullsWithRoom stream.old.value piece.now (record { judging = record { status = result; before = out.old; behind = out.new; info_before = info.old; info_behind = info.new }; old = stream.old.value; new = stream.new.value; message_before = message.old; message_behind = message.new; taken_before = taken.old; taken_behind = taken.new }) }
{
    if message.len() < MESSAGE_MAX || info.len() < INFO_MAX {
        return ROOM;
    }
    let Some(mut body) = stream.take(alloc) else {
        return NO_SESSION;
    };
    let status = pull(&mut body, piece, message, info, taken, out);
    stream.put(body);
    status
}
