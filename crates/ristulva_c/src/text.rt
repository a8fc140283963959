//! The printed form of a message.

ghost use Rattle.std.specs.Prelude.{◌≡◌, ◌+◌, ◌≤◌, ℕ, List, Some, length, IfOk};
ghost use Rattle.std.specs.String.{string_bytes};
ghost use Rattle.bgp_frame.specs.Prelude.{IsLength, message_in};
ghost use Rattle.bgp_msg.specs.Prelude.{out_of, of_fault};
ghost use Rattle.bgp_text.specs.Outcome.{outcome_lines};
ghost use Rattle.ristulva_c.specs.Prelude.{context_of, Prints, IsPrinted};

use crate::context::{SessionContext, context_of};
use crate::status::{INCOMPLETE, MEMORY};
use crate::written::write;
use bgp_frame::{Frame, HeadFault, Step, front};
use bgp_msg::{OutcomeView, view_frame};
use bgp_text::put_viewed_outcome;
use bgp_update::UpdateView;
use std::alloc::{AllocError, Global};

/// The lines of a whole message.
pub(crate) fn frame_lines(
    alloc: Global,
    ctx: &SessionContext,
    place: u64,
    frame: Frame<'_>,
) -> Result<String, AllocError>
    requires { IsLength frame.kind (19 + length frame.body.now) }
    ensures { IfOk result (λ text. string_bytes text ≡ outcome_lines place frame.entry.len (out_of (context_of ctx.now) (message_in frame.entry))) }
{
    let len = frame.len;
    let mut view = UpdateView::empty();
    let outcome = view_frame(&context_of(ctx), frame, &mut view);
    let mut text = String::new(alloc);
    put_viewed_outcome(alloc, &mut text, place, len, &outcome)?;
    Ok(text)
}

/// The line of a header's fault.
pub(crate) fn fault_line(alloc: Global, place: u64, fault: HeadFault) -> Result<String, AllocError>
    ensures { IfOk result (λ text. string_bytes text ≡ outcome_lines place 0 (of_fault fault)) }
{
    let why = fault.answer();
    let outcome = OutcomeView::Reset(why.view());
    let mut text = String::new(alloc);
    put_viewed_outcome(alloc, &mut text, place, 0, &outcome)?;
    Ok(text)
}

/// Writes lines, where they could be allocated.
pub(crate) fn print(lines: Result<String, AllocError>, buffer: &mut [u8], len: &mut usize) -> u32
    ensures { (text : List ℕ) → IfOk lines (λ it. string_bytes it ≡ text) → Prints (Some text) (record { status = result; before = buffer.old; behind = buffer.new; len_before = len.old; len_behind = len.new }) }
{
    match lines {
        Ok(text) => write(text.as_bytes(), buffer, len),
        Err(_) => MEMORY,
    }
}

/// Writes the lines that `bgp show` prints of the message that octets begin with, where it is at this offset of its
/// stream.
#[unsafe(no_mangle)]
pub extern "C" fn ristulva_text(
    alloc: Global,
    ctx: &SessionContext,
    place: u64,
    octets: &[u8],
    buffer: &mut [u8],
    len: &mut usize,
) -> u32
    ensures { IsPrinted (context_of ctx.now) place octets.now (record { status = result; before = buffer.old; behind = buffer.new; len_before = len.old; len_behind = len.new }) }
{
    match front(octets) {
        Step::More => INCOMPLETE,
        Step::Frame(frame) => print(frame_lines(alloc, ctx, place, frame), buffer, len),
        Step::Fault(fault) => print(fault_line(alloc, place, fault), buffer, len),
    }
}
