//! What is passed on of a message.

ghost use Rattle.std.specs.Prelude.{◌≡◌, ◌+◌, ℕ, Bool, List, [], Result, length};
ghost use Rattle.bgp_wire.specs.Prelude.{has_octet};
ghost use Rattle.bgp_frame.specs.Prelude.{IsLength, message_in};
ghost use Rattle.bgp_frame.specs.declared.step.Step.TheVariants as step;
ghost use Rattle.bgp_open.specs.declared.context.Context.{Context};
ghost use Rattle.bgp_msg.specs.declared.message.Message.{Message};
ghost use Rattle.bgp_msg.specs.Prelude.{out_of, outcome_value};
ghost use Rattle.bgp_clean.specs.declared.fault.CleanFault.{CleanFault};
ghost use Rattle.bgp_clean.specs.Prelude.{cleaned, no_limits, refuses_in, IsCleaned};
ghost use Rattle.ristulva_c.specs.Prelude.{context_of, is_set, types_in, discarded_in, left_out_in, caps_left_out_in, end_told, handed_told, cleaned_told, handed_octets, Hands, IsHandedOn};

use crate::context::{SessionContext, context_of};
use crate::judge::{RESET, number_of};
use crate::left_out::{caps_left_out, others_left_out};
use crate::notes::list_view;
use crate::status::INCOMPLETE;
use crate::written::write;
use bgp_clean::{CleanFault, Cleaned, Limits, clean};
use bgp_frame::{Frame, HeadFault, Step, front};
use bgp_msg::{OutcomeView, view_frame};
use bgp_open::Context;
use bgp_update::UpdateView;
use bgp_wire::{OctetSet, Page, are_octets};

/// The greatest length of what is passed on of a message: an UPDATE is passed on in at most three parts.
const PARTS: usize = 12288;

/// A message is passed on, or its replacement is.
pub const HANDED_ON: u8 = 0;

/// The cleaned stream ends: the message is answered by a NOTIFICATION.
pub const ENDS_RESET: u8 = 1;

/// It ends: the message is an OPEN, and not the first one.
pub const ENDS_LATE_OPEN: u8 = 2;

/// It ends: the message is an OPEN that offers families, and neither IPv4 nor IPv6 unicast.
pub const ENDS_NO_FAMILY: u8 = 3;

/// The result of cleaning a message.
#[repr(C)]
#[derive(Clone, Copy)]
pub struct ToldCleaned {
    /// `HANDED_ON` to `ENDS_NO_FAMILY`.
    pub ends: u8,
    /// The outcome of the message: `OPEN` to `RESET`.
    pub verdict: u8,
    /// The code of the NOTIFICATION that answers it, at `ENDS_RESET`; else 0.
    pub code: u8,
    /// Its subcode.
    pub subcode: u8,
    /// The length of the received message; 0 where its header has a fault.
    pub len: u32,
    /// The number of attributes of an accepted UPDATE that are discarded (RFC 7606).
    pub discarded: usize,
    /// The number left out by their types.
    pub left_out: usize,
    /// The number of capabilities of an OPEN that are left out.
    pub capabilities: usize,
}

/// The set of these types.
pub(crate) fn set_of(types: &[u8]) -> OctetSet
    ensures { has_octet result ≡ types_in types.now }
{
    let mut set = OctetSet::new();
    'types: for kind in types {
        set.insert(*kind);
    }
    set
}

/// The report where the stream ends before a message of this length and outcome.
fn end_told(len: u16, verdict: u8, why: CleanFault) -> ToldCleaned
    ensures { result ≡ end_told len verdict why }
{
    let (ends, code, subcode) = match why {
        CleanFault::Reset(code, subcode) => (ENDS_RESET, code, subcode),
        CleanFault::LateOpen => (ENDS_LATE_OPEN, 0, 0),
        CleanFault::NoFamily => (ENDS_NO_FAMILY, 0, 0),
    };
    ToldCleaned {
        ends,
        verdict,
        code,
        subcode,
        len: u32::from(len),
        discarded: 0,
        left_out: 0,
        capabilities: 0,
    }
}

/// The number of attributes discarded.
#[tactic(auto, using(crate::proofs::LeftOut::all_told))]
fn discarded(outcome: &OutcomeView<'_>) -> usize
    ensures { result ≡ discarded_in (outcome_value outcome.now) }
{
    match outcome {
        OutcomeView::Update(view) => list_view(view, &mut []),
        _ => 0,
    }
}

/// The number left out by their types.
fn left_out(drops: &OctetSet, outcome: &OutcomeView<'_>) -> usize
    ensures { result ≡ left_out_in (has_octet drops.now) (outcome_value outcome.now) }
{
    match outcome {
        OutcomeView::Update(view) => others_left_out(drops, view),
        _ => 0,
    }
}

/// The number of capabilities left out.
fn capabilities(outcome: &OutcomeView<'_>) -> usize
    ensures { result ≡ caps_left_out_in (outcome_value outcome.now) }
{
    match outcome {
        OutcomeView::Open(view) => caps_left_out(view),
        _ => 0,
    }
}

/// The report of a message of this length that is passed on.
fn handed_told(drops: &OctetSet, len: u16, outcome: &OutcomeView<'_>) -> ToldCleaned
    ensures { result ≡ handed_told len (has_octet drops.now) (outcome_value outcome.now) }
{
    ToldCleaned {
        ends: HANDED_ON,
        verdict: number_of(outcome),
        code: 0,
        subcode: 0,
        len: u32::from(len),
        discarded: discarded(outcome),
        left_out: left_out(drops, outcome),
        capabilities: capabilities(outcome),
    }
}

/// The report of a message, by its result.
fn told(drops: &OctetSet, len: u16, outcome: &OutcomeView<'_>, what: Cleaned) -> ToldCleaned
    ensures { (ctx : Context) (handed : Result (List Message) CleanFault) (old new : List ℕ) → IsCleaned ctx handed old new what
        → result ≡ cleaned_told len (has_octet drops.now) (outcome_value outcome.now) handed }
{
    match what {
        Cleaned::HandedOn => handed_told(drops, len, outcome),
        Cleaned::Ends(why) => end_told(len, number_of(outcome), why),
    }
}

/// Writes what is passed on of a whole message to an empty page, and reports the result.
#[tactic(auto, using(crate::proofs::Cleanings::appended))]
fn clean_frame(
    ctx: &Context,
    drops: &OctetSet,
    first: bool,
    frame: Frame<'_>,
    page: &mut Page<PARTS>,
) -> ToldCleaned
    requires length { IsLength frame.kind (19 + length frame.body.now) }
    requires empty { page.old ≡ [] }
    ensures octets { page.new ≡ handed_octets ctx.now (cleaned ctx.now (has_octet drops.now) (refuses_in ctx.now no_limits) first (message_in frame.entry)) }
    ensures told { result ≡ cleaned_told frame.entry.len (has_octet drops.now) (out_of ctx.now (message_in frame.entry))
        (cleaned ctx.now (has_octet drops.now) (refuses_in ctx.now no_limits) first (message_in frame.entry)) }
{
    let len = frame.len;
    let Ok(what) = clean(ctx, drops, &Limits::none(), first, frame, page) else {
        unreachable!();
    };
    let mut place = UpdateView::empty();
    let outcome = view_frame(ctx, frame, &mut place);
    told(drops, len, &outcome, what)
}

/// Writes what is passed on of a whole message, and reports the result.
fn tell_frame(
    ctx: &Context,
    drops: &OctetSet,
    first: bool,
    frame: Frame<'_>,
    buffer: &mut [u8],
    len: &mut usize,
    out: &mut ToldCleaned,
) -> u32
    requires { IsLength frame.kind (19 + length frame.body.now) }
    ensures { Hands ctx.now (has_octet drops.now) first (step.Frame frame.entry)
        (record {
          writing = record { status = result; before = buffer.old; behind = buffer.new; len_before = len.old; len_behind = len.new };
          before = out.old;
          behind = out.new;
        }) }
{
    let mut page = Page::new();
    *out = clean_frame(ctx, drops, first, frame, &mut page);
    write(page.as_slice(), buffer, len)
}

/// Reports that the stream ends before a header with a fault.
fn tell_fault(fault: HeadFault, buffer: &mut [u8], len: &mut usize, out: &mut ToldCleaned) -> u32
    ensures { (ctx : Context) (drops : ℕ → Bool) (first : Bool) → Hands ctx drops first (step.Fault fault)
        (record {
          writing = record { status = result; before = buffer.old; behind = buffer.new; len_before = len.old; len_behind = len.new };
          before = out.old;
          behind = out.new;
        }) }
{
    let why = fault.answer();
    let said = why.view();
    *out = end_told(0, RESET, CleanFault::Reset(said.code, said.subcode));
    write(&[], buffer, len)
}

/// Writes what is passed on of the message that octets begin with, as one to three whole messages in their one written
/// form, without unrecognised attributes of these types; or reports why the cleaned stream ends before it. Octets after
/// the message are ignored. `first` is whether it is the first one of its stream: 0 for no.
#[unsafe(no_mangle)]
pub extern "C" fn ristulva_clean(
    ctx: &SessionContext,
    types: &[u8],
    first: u8,
    octets: &[u8],
    buffer: &mut [u8],
    len: &mut usize,
    out: &mut ToldCleaned,
) -> u32
    ensures { IsHandedOn (context_of ctx.now) (types_in types.now) (is_set first) octets.now
        (record {
          writing = record { status = result; before = buffer.old; behind = buffer.new; len_before = len.old; len_behind = len.new };
          before = out.old;
          behind = out.new;
        }) }
{
    are_octets(octets);
    let drops = set_of(types);
    match front(octets) {
        Step::More => INCOMPLETE,
        Step::Frame(frame) => tell_frame(
            &context_of(ctx),
            &drops,
            first != 0,
            frame,
            buffer,
            len,
            out,
        ),
        Step::Fault(fault) => tell_fault(fault, buffer, len, out),
    }
}
