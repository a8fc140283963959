//! The capabilities of an OPEN in sequence.

ghost use Rattle.std.specs.Prelude.{◌≡◌, ◌⊎◌, ◌↔◌, None, [], IsTrue, MatchOption};
ghost use Rattle.bgp_open.specs.Prelude.{one_capability};
ghost use Rattle.ristulva_c.specs.Prelude.{between, IsCapabilities, IsGiven, capabilities_left};
ghost use Rattle.ristulva_c.specs.declared.status.TheConstants.{END, OK, RANGE};

use crate::span::Span;
use crate::status::{END, OK, RANGE};
use bgp_open::{first_capability, first_parameter};

/// The remaining capabilities of an OPEN.
#[repr(C)]
#[derive(Clone, Copy)]
pub struct Capabilities {
    /// The offset of the next one, in the parameter that was begun.
    pub at: u32,
    /// The end of that parameter, where the next one begins.
    pub stop: u32,
    /// The end of the parameters.
    pub end: u32,
}

/// A capability of an OPEN (RFC 5492, section 4).
#[repr(C)]
#[derive(Clone, Copy)]
pub struct OpenCapability {
    /// The code.
    pub code: u8,
    /// Its value.
    pub value: Span,
}

/// The capability of the parameter that was begun, where it has one more; the cursor moves after it.
#[tactic(auto, using(crate::proofs::CapabilitySteps::begun_fits))]
fn begun(octets: &[u8], cursor: &mut Capabilities) -> Option<OpenCapability>
    requires { IsCapabilities octets.now cursor.old }
    ensures { MatchOption result ((cursor.new ≡ cursor.old) × (one_capability (between octets.now cursor.old.at cursor.old.stop) ≡ None))
        (λ told. IsGiven octets.now cursor.old cursor.new told) }
{
    let begun = &octets[cursor.at as usize..cursor.stop as usize];
    let (_, rest) = first_capability(begun)?;
    let at = cursor.at + 2;
    cursor.at = cursor.stop - rest.len() as u32;
    Some(OpenCapability {
        code: begun[0],
        value: Span {
            at,
            len: cursor.at - at,
        },
    })
}

/// The next capability; the cursor moves after it. Parameters without one are skipped.
#[tactic(auto, using(crate::proofs::CapabilitySteps::later_fits))]
fn next_capability(octets: &[u8], cursor: &mut Capabilities) -> Option<OpenCapability>
    requires { IsCapabilities octets.now cursor.old }
    ensures { MatchOption result (capabilities_left octets.now cursor.old ≡ []) (λ told. IsGiven octets.now cursor.old cursor.new told) }
{
    'parameter: loop {
        if let Some(told) = begun(octets, cursor) {
            return Some(told);
        }
        let later = &octets[cursor.stop as usize..cursor.end as usize];
        let Some((_, rest)) = first_parameter(later) else {
            return None;
        };
        cursor.at = cursor.stop + 2;
        cursor.stop = cursor.end - rest.len() as u32;
    }
}

/// Whether a cursor lies in the octets.
fn is_cursor(octets: &[u8], cursor: &Capabilities) -> bool
    ensures { IsTrue result ↔ IsCapabilities octets.now cursor.now }
{
    cursor.at <= cursor.stop && cursor.stop <= cursor.end && cursor.end as usize <= octets.len()
}

/// Gives the capability at a cursor, and moves the cursor after it.
#[unsafe(no_mangle)]
pub extern "C" fn ristulva_next_capability(
    octets: &[u8],
    cursor: &mut Capabilities,
    out: &mut OpenCapability,
) -> u32
    ensures ok { result ≡ OK → IsGiven octets.now cursor.old cursor.new out.new }
    ensures over { result ≡ END → capabilities_left octets.now cursor.old ≡ [] }
    ensures range { (result ≡ RANGE) ↔ (IsCapabilities octets.now cursor.old → ⊥) }
    ensures kept { (result ≡ OK) ⊎ ((cursor.new ≡ cursor.old) × (out.new ≡ out.old)) }
    ensures known { (result ≡ OK) ⊎ ((result ≡ END) ⊎ (result ≡ RANGE)) }
{
    if !is_cursor(octets, cursor) {
        return RANGE;
    }
    let mut behind = *cursor;
    match next_capability(octets, &mut behind) {
        None => END,
        Some(told) => {
            *cursor = behind;
            *out = told;
            OK
        }
    }
}
