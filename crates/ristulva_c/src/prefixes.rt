//! Prefixes in sequence.

ghost use Rattle.std.specs.Prelude.{◌≡◌, ◌⊎◌, ◌↔◌, ◌≤◌, true, false, [], ◌∷◌, length, MatchOption};
ghost use Rattle.ristulva_c.specs.Prelude.{width_of, between, IsWithin, IsCursor, prefixes_left, IsPadded, prefix_told, prefix_row};
ghost use Rattle.bgp_numbers.specs.declared.afi.TheConstants.{IPV4, IPV6};
ghost use Rattle.ristulva_c.specs.declared.status.TheConstants.{END, OK, RANGE};

use crate::copied::copy_into;
use crate::status::{END, OK, RANGE};
use bgp_numbers::afi;
use bgp_prefix::{Prefix, PrefixIter4, PrefixIter6, first_prefix};

/// The remaining prefixes of a field.
#[repr(C)]
#[derive(Clone, Copy)]
pub struct Prefixes {
    /// The offset of the next one.
    pub at: u32,
    /// The end of the field.
    pub end: u32,
    /// The address family: 1 for IPv4, 2 for IPv6.
    pub afi: u16,
}

/// A prefix.
#[repr(C)]
#[derive(Clone, Copy)]
pub struct RoutePrefix {
    /// The address family.
    pub afi: u16,
    /// The length in bits.
    pub len: u8,
    /// The address, highest octet first: four octets for IPv4, with zeros after them.
    pub addr: [u8; 16],
}

/// A prefix in numbers.
pub(crate) fn prefix_row<const W: usize>(afi: u16, prefix: &Prefix<W>) -> RoutePrefix
    requires { W ≤ 16 }
    ensures value { result ≡ prefix_row afi prefix.now }
    ensures wide { length prefix.now.addr ≡ W }
{
    let mut addr = [0; 16];
    copy_into(&prefix.addr(), &mut addr);
    RoutePrefix {
        afi,
        len: prefix.len(),
        addr,
    }
}

/// The remaining octets of the field, where the cursor lies in the octets.
fn rest_of<'a>(octets: &'a [u8], cursor: &Prefixes) -> Option<&'a [u8]>
    ensures { MatchOption result (IsWithin octets.now cursor.now → ⊥) (λ rest. IsWithin octets.now cursor.now × (rest.now ≡ between octets.now cursor.now.at cursor.now.end)) }
{
    octets.get(cursor.at as usize..cursor.end as usize)
}

/// Whether a cursor lies in octets, and is of a supported family.
pub(crate) fn is_cursor(octets: &[u8], cursor: &Prefixes) -> bool
    ensures yes { result ≡ true → IsCursor octets.now cursor.now }
    ensures no { result ≡ false → IsCursor octets.now cursor.now → ⊥ }
{
    match rest_of(octets, cursor) {
        None => false,
        Some(_) => cursor.afi == afi::IPV4 || cursor.afi == afi::IPV6,
    }
}

/// Gives the prefix of this width at a cursor, and moves the cursor after it. It isn't inlined, so that each width
/// saves its own registers.
#[tactic(auto, using(crate::proofs::PrefixSteps::prefix_fits))]
#[inline(never)]
fn next_of<const W: usize>(octets: &[u8], cursor: &mut Prefixes, out: &mut RoutePrefix) -> u32
    requires width { width_of cursor.old.afi ≡ W }
    requires known { (cursor.old.afi ≡ IPV4) ⊎ (cursor.old.afi ≡ IPV6) }
    ensures ok { result ≡ OK → prefixes_left octets.now cursor.old ≡ prefix_told out.new ∷ prefixes_left octets.now cursor.new }
    ensures afi { result ≡ OK → out.new.afi ≡ cursor.old.afi }
    ensures padded { result ≡ OK → IsPadded out.new }
    ensures behind { result ≡ OK → IsCursor octets.now cursor.new }
    ensures over { result ≡ END → prefixes_left octets.now cursor.old ≡ [] }
    ensures range { (result ≡ RANGE) ↔ (IsCursor octets.now cursor.old → ⊥) }
    ensures kept { (result ≡ OK) ⊎ ((cursor.new ≡ cursor.old) × (out.new ≡ out.old)) }
    ensures field { cursor.new ≡ record cursor.old { at = cursor.new.at } }
    ensures known { (result ≡ OK) ⊎ ((result ≡ END) ⊎ (result ≡ RANGE)) }
{
    let Some(field) = rest_of(octets, cursor) else {
        return RANGE;
    };
    match first_prefix::<W>(field) {
        None => END,
        Some(found) => {
            *out = prefix_row(cursor.afi, &found.0);
            cursor.at = cursor.end - found.1.len() as u32;
            OK
        }
    }
}

/// Gives the prefix at a cursor, and moves the cursor after it.
#[unsafe(no_mangle)]
pub extern "C" fn ristulva_next_prefix(
    octets: &[u8],
    cursor: &mut Prefixes,
    out: &mut RoutePrefix,
) -> u32
    ensures ok { result ≡ OK → prefixes_left octets.now cursor.old ≡ prefix_told out.new ∷ prefixes_left octets.now cursor.new }
    ensures afi { result ≡ OK → out.new.afi ≡ cursor.old.afi }
    ensures padded { result ≡ OK → IsPadded out.new }
    ensures behind { result ≡ OK → IsCursor octets.now cursor.new }
    ensures over { result ≡ END → prefixes_left octets.now cursor.old ≡ [] }
    ensures range { (result ≡ RANGE) ↔ (IsCursor octets.now cursor.old → ⊥) }
    ensures kept { (result ≡ OK) ⊎ ((cursor.new ≡ cursor.old) × (out.new ≡ out.old)) }
    ensures field { cursor.new ≡ record cursor.old { at = cursor.new.at } }
    ensures known { (result ≡ OK) ⊎ ((result ≡ END) ⊎ (result ≡ RANGE)) }
{
    match cursor.afi {
        afi::IPV4 => next_of::<4>(octets, cursor, out),
        afi::IPV6 => next_of::<16>(octets, cursor, out),
        _ => RANGE,
    }
}

/// Reports how many prefixes a cursor still gives, without moving it.
#[unsafe(no_mangle)]
pub extern "C" fn ristulva_count_prefixes(
    octets: &[u8],
    cursor: &Prefixes,
    count: &mut usize,
) -> u32
    ensures ok { result ≡ OK → count.new ≡ length (prefixes_left octets.now cursor.now) }
    ensures range { (result ≡ RANGE) ↔ (IsCursor octets.now cursor.now → ⊥) }
    ensures kept { (result ≡ OK) ⊎ (count.new ≡ count.old) }
    ensures known { (result ≡ OK) ⊎ (result ≡ RANGE) }
{
    let Some(rest) = rest_of(octets, cursor) else {
        return RANGE;
    };
    match cursor.afi {
        afi::IPV4 => *count = PrefixIter4::new(rest).left(),
        afi::IPV6 => *count = PrefixIter6::new(rest).left(),
        _ => return RANGE,
    }
    OK
}
