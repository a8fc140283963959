//! Large communities borrowed from the octets read.

ghost use Rattle.std.specs.Prelude.{◌≡◌, ◌≤◌, length, take, [], ◌∷◌, option_map, MatchOption};
ghost use Rattle.std.specs.List.{list_any};
ghost use Rattle.bgp_attr.specs.Prelude.{one_triple, triples_of, same_triple, IsRowUpTo, new_from, GivesNew};

/// The three numbers at the front, and what follows them, split off at once, since each triple is compared with all before it.
#[tactic(auto, using(crate::proofs::Fronts::twelve_taken, crate::proofs::Fronts::twelve_short))]
fn first_triple(octets: &[u8]) -> Option<([u32; 3], &[u8])>
    ensures { option_map (λ x. (x.0, x.1.now)) result ≡ one_triple octets.now }
{
    let (it, rest) = octets.split_at_checked(12)?;
    let first = u32::from_be_bytes([it[0], it[1], it[2], it[3]]);
    let second = u32::from_be_bytes([it[4], it[5], it[6], it[7]]);
    let third = u32::from_be_bytes([it[8], it[9], it[10], it[11]]);
    Some(([first, second, third], rest))
}

/// Whether two triples are the same. The last numbers are compared first, since those of one network mostly differ there.
#[tactic(auto, using(crate::proofs::LargeSteps::last_first))]
#[inline(always)]
pub(crate) fn is_same(one: &[u32; 3], other: &[u32; 3]) -> bool
    ensures { result ≡ same_triple one.now other.now }
{
    let [a, b, c] = *one;
    let [x, y, z] = *other;
    c == z && a == x && b == y
}

/// Whether the triple is among those of these octets.
fn stands_in(triple: [u32; 3], octets: &[u8]) -> bool
    ensures { result ≡ list_any (same_triple triple) (triples_of octets.now) }
{
    let mut rest = octets;
    'row: while let Some(found) = first_triple(rest) {
        if is_same(&triple, &found.0) {
            return true;
        }
        rest = found.1;
    }
    false
}

/// The first triple of LARGE_COMMUNITY from an offset on that isn't among those before it, and the offset after it (RFC 8092, section 3).
pub fn first_new_triple(octets: &[u8], from: usize) -> Option<([u32; 3], usize)>
    requires { IsRowUpTo octets.now from }
    ensures { GivesNew octets.now from result }
{
    let mut at = from;
    'row: while at < octets.len() {
        let (before, rest) = octets.split_at(at);
        let found = first_triple(rest)?;
        let triple = found.0;
        at += 12;
        if !stands_in(triple, before) {
            return Some((triple, at));
        }
    }
    None
}
