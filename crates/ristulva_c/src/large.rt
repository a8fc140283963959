//! Large communities in sequence.

ghost use Rattle.std.specs.Prelude.{◌≡◌, ◌-◌, ◌⊎◌, ◌↔◌, ◌≤◌, length, [], ◌∷◌, MatchOption};
ghost use Rattle.bgp_attr.specs.Prelude.{triples_of, each_once};
ghost use Rattle.ristulva_c.specs.Prelude.{between, IsLarge, large_left};
ghost use Rattle.ristulva_c.specs.declared.status.TheConstants.{END, OK, RANGE};

use crate::status::{END, OK, RANGE};
use bgp_attr::first_new_triple;

/// The remaining large communities of an attribute.
#[repr(C)]
#[derive(Clone, Copy)]
pub struct LargeCommunities {
    /// The offset of the first one.
    pub first: u32,
    /// The offset of the next one.
    pub at: u32,
    /// The end of the attribute's value.
    pub end: u32,
}

/// A large community (RFC 8092, section 3).
#[repr(C)]
#[derive(Clone, Copy)]
pub struct LargeCommunity {
    /// The Global Administrator and the two parts of Local Data.
    pub numbers: [u32; 3],
}

/// The attribute's value, where the cursor lies in the octets and is after whole triples.
fn value_of<'a>(octets: &'a [u8], cursor: &LargeCommunities) -> Option<&'a [u8]>
    ensures { MatchOption result (IsLarge octets.now cursor.now → ⊥)
        (λ value. IsLarge octets.now cursor.now × (value.now ≡ between octets.now cursor.now.first cursor.now.end)) }
{
    if cursor.at < cursor.first || cursor.at > cursor.end || (cursor.at - cursor.first) % 12 != 0 {
        return None;
    }
    octets.get(cursor.first as usize..cursor.end as usize)
}

/// Gives the large community at a cursor, and moves the cursor after it; repeated ones are skipped.
#[unsafe(no_mangle)]
#[tactic(auto, using(crate::proofs::LargePlaces::left_at_first))]
pub extern "C" fn ristulva_next_large_community(
    octets: &[u8],
    cursor: &mut LargeCommunities,
    out: &mut LargeCommunity,
) -> u32
    ensures ok { result ≡ OK → (large_left octets.now cursor.old ≡ out.new.numbers ∷ large_left octets.now cursor.new) × IsLarge octets.now cursor.new }
    ensures over { result ≡ END → large_left octets.now cursor.old ≡ [] }
    ensures begun { cursor.old.at ≡ cursor.old.first → large_left octets.now cursor.old ≡ each_once (triples_of (between octets.now cursor.old.first cursor.old.end)) }
    ensures range { (result ≡ RANGE) ↔ (IsLarge octets.now cursor.old → ⊥) }
    ensures kept { (result ≡ OK) ⊎ ((cursor.new ≡ cursor.old) × (out.new ≡ out.old)) }
    ensures field { cursor.new ≡ record cursor.old { at = cursor.new.at } }
    ensures known { (result ≡ OK) ⊎ ((result ≡ END) ⊎ (result ≡ RANGE)) }
{
    let Some(value) = value_of(octets, cursor) else {
        return RANGE;
    };
    let Some(found) = first_new_triple(value, (cursor.at - cursor.first) as usize) else {
        return END;
    };
    let numbers = found.0;
    *out = LargeCommunity { numbers };
    cursor.at = cursor.first + found.1 as u32;
    OK
}
