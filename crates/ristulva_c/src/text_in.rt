//! The printed form of a message, by terms.

ghost use Rattle.std.specs.Prelude.{◌≡◌, ◌+◌, ◌≤◌, length, IfOk};
ghost use Rattle.std.specs.String.{string_bytes};
ghost use Rattle.bgp_frame.specs.Prelude.{IsLengthIn};
ghost use Rattle.bgp_wide.specs.Prelude.{refreshed};
ghost use Rattle.ristulva_c.specs.Prelude.{context_of};
ghost use Rattle.ristulva_c.specs.Terms.{terms_in};
ghost use Rattle.ristulva_c.specs.TextIn.{IsPrintedBy, message_lines, refresh_lines};
ghost use Rattle.ristulva_c.specs.steps.JudgeIn.{types_for};

use crate::context::SessionContext;
use crate::judge_in::view_of;
use crate::status::{INCOMPLETE, RANGE};
use crate::terms::{SessionTerms, terms_in};
use crate::text::{fault_line, frame_lines, print};
use bgp_frame::{Frame, Step, WideKind};
use bgp_msg::OutcomeView;
use bgp_refresh::view_refresh;
use bgp_terms::Refreshes;
use bgp_text::{put_refresh, put_viewed_outcome};
use bgp_wide::front_in;
use std::alloc::{AllocError, Global};

/// The line of a ROUTE-REFRESH.
fn refresh_lines(
    alloc: Global,
    refreshes: Refreshes,
    place: u64,
    len: u16,
    body: &[u8],
) -> Result<String, AllocError>
    requires { length body.now ≤ 65516 }
    ensures { IfOk result (λ text. string_bytes text ≡ refresh_lines place len (refreshed refreshes body.now)) }
{
    let mut text = String::new(alloc);
    match view_refresh(refreshes, body) {
        Ok(view) => put_refresh(&mut text, place, len, &view)?,
        Err(fault) => {
            let why = fault.notification(body);
            let outcome = OutcomeView::Reset(view_of(&why));
            put_viewed_outcome(alloc, &mut text, place, len, &outcome)?;
        }
    }
    Ok(text)
}

/// The lines of a whole message.
#[tactic(auto, using(crate::proofs::JudgedIn::allowed))]
fn message_lines(
    alloc: Global,
    ctx: &SessionContext,
    refreshes: Refreshes,
    place: u64,
    frame: Frame<'_, WideKind>,
) -> Result<String, AllocError>
    requires allowed { IsLengthIn (types_for refreshes) frame.kind (19 + length frame.body.now) }
    requires short { length frame.body.now ≤ 4077 }
    ensures { IfOk result (λ text. string_bytes text ≡ message_lines (context_of ctx.now) refreshes place frame.entry.kind frame.entry.len frame.entry.body.now) }
{
    let Frame { kind, len, body } = frame;
    match kind {
        WideKind::Base(kind) => frame_lines(alloc, ctx, place, Frame { kind, len, body }),
        WideKind::Refresh => refresh_lines(alloc, refreshes, place, len, body),
    }
}

/// Writes the lines of the message that octets begin with, by terms, to the beginning of a buffer. Octets after it are ignored.
#[unsafe(no_mangle)]
pub extern "C" fn ristulva_text_in(
    alloc: Global,
    terms: &SessionTerms,
    place: u64,
    octets: &[u8],
    buffer: &mut [u8],
    len: &mut usize,
) -> u32
    ensures { IsPrintedBy (terms_in terms.now) place octets.now (record { status = result; before = buffer.old; behind = buffer.new; len_before = len.old; len_behind = len.new }) }
{
    let Some(agreed) = terms_in(terms) else {
        return RANGE;
    };
    match front_in(&agreed, octets) {
        Step::More => INCOMPLETE,
        Step::Frame(frame) => {
            let lines = message_lines(alloc, &terms.context, agreed.refresh, place, frame);
            print(lines, buffer, len)
        }
        Step::Fault(fault) => print(fault_line(alloc, place, fault), buffer, len),
    }
}
