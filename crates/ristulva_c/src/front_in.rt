//! What octets begin with, by terms.

ghost use Rattle.std.specs.Prelude.{◌≡◌};
ghost use Rattle.bgp_frame.specs.declared.grammar.WideGrammar.{WideGrammar};
ghost use Rattle.bgp_frame.specs.Prelude.{ShowsFrontIn, WaitsIn, wanted_in, wide_code, wide_types};
ghost use Rattle.bgp_terms.specs.Prelude.{wide_terms};
ghost use Rattle.bgp_wide.specs.Prelude.{types_in};
ghost use Rattle.ristulva_c.specs.FrontIn.{IsFoundBy, step_told_in};
ghost use Rattle.ristulva_c.specs.Terms.{terms_in};

use crate::front::{MESSAGE, MORE, ToldFront, fault_told};
use crate::span::Span;
use crate::status::{OK, RANGE};
use crate::terms::{SessionTerms, terms_in};
use bgp_frame::{Step, WideKind};
use bgp_numbers::message;
use bgp_terms::WideTerms;
use bgp_wide::front_in;

/// The length of the first message, or of its header where that is incomplete.
#[tactic(auto, using(crate::proofs::Wanted::wide_is_length, crate::proofs::Wanted::wide_is_header))]
fn wanted(octets: &[u8]) -> u32
    ensures { (g : WideGrammar) → WaitsIn (wide_types g) octets.now → result ≡ wanted_in (wide_types g) octets.now }
{
    if octets.len() < 19 {
        return 19;
    }
    u32::from(u16::from_be_bytes([octets[16], octets[17]]))
}

/// The number of a message's type.
pub(crate) fn wide_code(kind: WideKind) -> u8
    ensures { result ≡ wide_code kind }
{
    match kind {
        WideKind::Base(kind) => kind as u8,
        WideKind::Refresh => message::ROUTE_REFRESH,
    }
}

/// What octets begin with, in numbers.
fn step_told_in(terms: &WideTerms, octets: &[u8], step: Step<'_, WideKind>) -> ToldFront
    requires { ShowsFrontIn (types_in (wide_terms terms.now)) octets.now step }
    ensures { result ≡ step_told_in (wide_terms terms.now) octets.now step.entry }
{
    match step {
        Step::More => ToldFront {
            what: MORE,
            kind: 0,
            code: 0,
            subcode: 0,
            len: wanted(octets),
            info: Span { at: 0, len: 0 },
        },
        Step::Frame(frame) => ToldFront {
            what: MESSAGE,
            kind: wide_code(frame.kind),
            code: 0,
            subcode: 0,
            len: u32::from(frame.len),
            info: Span { at: 0, len: 0 },
        },
        Step::Fault(fault) => fault_told(fault),
    }
}

/// Classifies what octets begin with, by terms. Octets after a message are ignored.
#[unsafe(no_mangle)]
pub extern "C" fn ristulva_front_in(terms: &SessionTerms, octets: &[u8], out: &mut ToldFront) -> u32
    ensures { IsFoundBy (terms_in terms.now) octets.now result out.old out.new }
{
    let Some(agreed) = terms_in(terms) else {
        return RANGE;
    };
    *out = step_told_in(&agreed, octets, front_in(&agreed, octets));
    OK
}
