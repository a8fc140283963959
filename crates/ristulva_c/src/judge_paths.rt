//! The outcome of a message whose routes have path identifiers (RFC 7911).

ghost use Rattle.std.specs.Prelude.{◌≡◌, ◌+◌, ◌≤◌, length};
ghost use Rattle.bgp_frame.specs.Prelude.{IsLength, IsLengthIn};
ghost use Rattle.bgp_frame.specs.declared.kind.Kind.{Kind};
ghost use Rattle.bgp_numbers.specs.declared.message.TheConstants.{UPDATE};
ghost use Rattle.bgp_update.specs.Prelude.{parts_of};
ghost use Rattle.ristulva_c.specs.Judge.{IsTold, verdict_told};
ghost use Rattle.ristulva_c.specs.JudgePaths.{IsJudgedBy, is_identified};
ghost use Rattle.bgp_paths.specs.Prelude.{outcome_with};
ghost use Rattle.ristulva_c.specs.Parts.{parts_told};
ghost use Rattle.ristulva_c.specs.Paths.{families_in};
ghost use Rattle.ristulva_c.specs.Prelude.{context_of};
ghost use Rattle.ristulva_c.specs.Terms.{plain_terms_in};
ghost use Rattle.ristulva_c.specs.steps.JudgeIn.{types_for};
ghost use Rattle.ristulva_c.specs.steps.JudgePaths.{WithPaths};

use crate::context::{SessionContext, context_of};
use crate::judge::{Verdict, tell, tell_fault};
use crate::judge_in::tell_any;
use crate::parts::parts_in;
use crate::paths::{families_in, is_update};
use crate::status::{INCOMPLETE, RANGE};
use crate::terms::{SessionTerms, plain_terms_in};
use bgp_frame::{Frame, Step, WideKind};
use bgp_numbers::message;
use bgp_paths::{PathFamilies, PlainBody, view_received};
use bgp_terms::WideTerms;
use bgp_update::UpdateView;
use bgp_wide::front_in;
use bgp_wire::are_octets;

/// Writes the outcome of an UPDATE whose routes have path identifiers.
fn tell_identified(
    ctx: &SessionContext,
    families: PathFamilies,
    len: u16,
    body: &[u8],
    info: &mut [u8],
    out: &mut Verdict,
) -> u32
    requires { IsLength Kind.Update (19 + length body.now) }
    ensures { IsTold (verdict_told UPDATE len (parts_told (parts_of body.now)) (outcome_with (context_of ctx.now) families body.now)) (outcome_with (context_of ctx.now) families body.now)
        (record { status = result; before = out.old; behind = out.new; info_before = info.old; info_behind = info.new }) }
{
    let mut plain = PlainBody::new();
    plain.fill(families, body);
    let mut view = UpdateView::empty();
    let outcome = view_received(&context_of(ctx), body, plain.as_slice(), &mut view);
    tell(message::UPDATE, len, parts_in(body), &outcome, info, out)
}

/// Writes the outcome of a whole message by terms, where routes of these families have path identifiers.
fn tell_with_paths(
    ctx: &SessionContext,
    agreed: &WideTerms,
    families: PathFamilies,
    frame: Frame<'_, WideKind>,
    info: &mut [u8],
    out: &mut Verdict,
) -> u32
    requires allowed { IsLengthIn (types_for agreed.now.refresh) frame.kind (19 + length frame.body.now) }
    requires short { length frame.body.now ≤ 4077 }
    ensures { WithPaths (is_identified families frame.entry.kind) (context_of ctx.now) families agreed.now.refresh frame.entry.kind frame.entry.len frame.entry.body (record { status = result; before = out.old; behind = out.new; info_before = info.old; info_behind = info.new }) }
{
    if (families.ip4 || families.ip6) && is_update(frame.kind) {
        tell_identified(ctx, families, frame.len, frame.body, info, out)
    } else {
        tell_any(ctx, agreed.refresh, frame, info, out)
    }
}

/// Judges the message that octets begin with, by terms, by which its routes may have path identifiers. Octets after it are ignored.
#[unsafe(no_mangle)]
pub extern "C" fn ristulva_judge_paths(
    terms: &SessionTerms,
    octets: &[u8],
    info: &mut [u8],
    out: &mut Verdict,
) -> u32
    ensures { IsJudgedBy (plain_terms_in terms.now) (families_in terms.now) octets.now (record { status = result; before = out.old; behind = out.new; info_before = info.old; info_behind = info.new }) }
{
    let Some(agreed) = plain_terms_in(terms) else {
        return RANGE;
    };
    are_octets(octets);
    match front_in(&agreed, octets) {
        Step::More => INCOMPLETE,
        Step::Frame(frame) => {
            tell_with_paths(
                &terms.context,
                &agreed,
                families_in(terms),
                frame,
                info,
                out,
            )
        }
        Step::Fault(fault) => tell_fault(fault, info, out),
    }
}
