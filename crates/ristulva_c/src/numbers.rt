//! Numbers in sequence.

ghost use Rattle.std.specs.Prelude.{◌≡◌, ◌==◌, ◌⊎◌, ◌↔◌, [], ◌∷◌};
ghost use Rattle.ristulva_c.specs.Prelude.{IsNumbers, numbers_left};
ghost use Rattle.ristulva_c.specs.declared.status.TheConstants.{END, OK, RANGE};

use crate::status::{END, OK, RANGE};
use bgp_attr::first_number;

/// The remaining numbers of a field.
#[repr(C)]
#[derive(Clone, Copy)]
pub struct Numbers {
    /// The offset of the next one.
    pub at: u32,
    /// The end of the field.
    pub end: u32,
    /// The length of each: 2 or 4.
    pub width: u8,
}

/// Gives the number at a cursor, of four octets where `wide`, else of two, and moves the cursor after it.
#[inline(always)]
#[tactic(auto, using(crate::proofs::NumberSteps::number_fits))]
fn next_of(wide: bool, octets: &[u8], cursor: &mut Numbers, out: &mut u32) -> u32
    requires known { (cursor.old.width ≡ 2) ⊎ (cursor.old.width ≡ 4) }
    requires wide { wide ≡ (cursor.old.width == 4) }
    ensures ok { result ≡ OK → numbers_left octets.now cursor.old ≡ out.new ∷ numbers_left octets.now cursor.new }
    ensures over { result ≡ END → numbers_left octets.now cursor.old ≡ [] }
    ensures range { (result ≡ RANGE) ↔ (IsNumbers octets.now cursor.old → ⊥) }
    ensures kept { (result ≡ OK) ⊎ ((cursor.new ≡ cursor.old) × (out.new ≡ out.old)) }
    ensures field { cursor.new ≡ record cursor.old { at = cursor.new.at } }
    ensures known { (result ≡ OK) ⊎ ((result ≡ END) ⊎ (result ≡ RANGE)) }
{
    let Some(field) = octets.get(cursor.at as usize..cursor.end as usize) else {
        return RANGE;
    };
    let Some((number, rest)) = first_number(wide, field) else {
        return END;
    };
    cursor.at = cursor.end - rest.len() as u32;
    *out = number;
    OK
}

/// Gives the number at a cursor, and moves the cursor after it.
#[unsafe(no_mangle)]
pub extern "C" fn ristulva_next_number(octets: &[u8], cursor: &mut Numbers, out: &mut u32) -> u32
    ensures ok { result ≡ OK → numbers_left octets.now cursor.old ≡ out.new ∷ numbers_left octets.now cursor.new }
    ensures over { result ≡ END → numbers_left octets.now cursor.old ≡ [] }
    ensures range { (result ≡ RANGE) ↔ (IsNumbers octets.now cursor.old → ⊥) }
    ensures kept { (result ≡ OK) ⊎ ((cursor.new ≡ cursor.old) × (out.new ≡ out.old)) }
    ensures field { cursor.new ≡ record cursor.old { at = cursor.new.at } }
    ensures known { (result ≡ OK) ⊎ ((result ≡ END) ⊎ (result ≡ RANGE)) }
{
    match cursor.width {
        2 => next_of(false, octets, cursor, out),
        4 => next_of(true, octets, cursor, out),
        _ => RANGE,
    }
}
