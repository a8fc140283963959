//! The offsets of the prefixes of MP_REACH_NLRI and MP_UNREACH_NLRI.

ghost use Rattle.std.specs.Prelude.{◌≡◌, ◌+◌, ◌⊎◌, ◌↔◌, ◌≤◌, length, MatchOption};
ghost use Rattle.bgp_attr.specs.Prelude.{afi_of, next_hop_length, mp_reach_of, mp_unreach_of};
ghost use Rattle.ristulva_c.specs.Prelude.{octets_in, prefixes_left, reach_prefixes, unreach_prefixes, hop_of, LiesIn, HasFamily, IsReachValue, IsReach, IsUnreach};
ghost use Rattle.ristulva_c.specs.declared.status.TheConstants.{OK, RANGE};

use crate::prefixes::Prefixes;
use crate::span::Span;
use crate::status::{OK, RANGE};
use bgp_numbers::{afi, safi};

/// The octets of a span, where it lies in the octets.
fn value_of<'a>(octets: &'a [u8], span: &Span) -> Option<&'a [u8]>
    ensures { MatchOption result (LiesIn span.now octets.now → ⊥) (λ value. LiesIn span.now octets.now × (value.now ≡ octets_in span.now octets.now)) }
{
    let end = span.at.checked_add(span.len)?;
    octets.get(span.at as usize..end as usize)
}

/// The address family of a value's routes, where it is a supported one.
fn family_of(value: &[u8]) -> Option<u16>
    ensures { MatchOption result (HasFamily value.now → ⊥) (λ family. HasFamily value.now × (family ≡ afi_of value.now)) }
{
    if value.len() < 3 || value[2] != safi::UNICAST {
        return None;
    }
    let family = u16::from_be_bytes([value[0], value[1]]);
    if family == afi::IPV4 || family == afi::IPV6 {
        Some(family)
    } else {
        None
    }
}

/// The address family of MP_REACH_NLRI, and the length of its next hop.
fn reach_of(value: &[u8]) -> Option<(u16, usize)>
    ensures { MatchOption result (IsReachValue value.now → ⊥) (λ x. IsReachValue value.now × ((x.0 ≡ afi_of value.now) × (x.1 ≡ next_hop_length value.now))) }
{
    let family = family_of(value)?;
    if value.len() < 5 {
        return None;
    }
    let hop = usize::from(value[3]);
    if value.len() < 5 + hop {
        return None;
    }
    Some((family, hop))
}

/// Begins a cursor at the prefixes of MP_REACH_NLRI, and reports the span of its next hop.
#[unsafe(no_mangle)]
pub extern "C" fn ristulva_reached(
    octets: &[u8],
    value: &Span,
    next_hop: &mut Span,
    cursor: &mut Prefixes,
) -> u32
    ensures ok { result ≡ OK → prefixes_left octets.now cursor.new ≡ reach_prefixes (mp_reach_of (octets_in value.now octets.now)) }
    ensures afi { result ≡ OK → cursor.new.afi ≡ afi_of (octets_in value.now octets.now) }
    ensures hop { result ≡ OK → octets_in next_hop.new octets.now ≡ hop_of (octets_in value.now octets.now) }
    ensures range { (result ≡ RANGE) ↔ (IsReach octets.now value.now → ⊥) }
    ensures kept { (result ≡ OK) ⊎ ((cursor.new ≡ cursor.old) × (next_hop.new ≡ next_hop.old)) }
    ensures known { (result ≡ OK) ⊎ (result ≡ RANGE) }
{
    let Some(found) = value_of(octets, value) else {
        return RANGE;
    };
    match reach_of(found) {
        None => RANGE,
        Some((family, hop)) => {
            *next_hop = Span {
                at: value.at + 4,
                len: hop as u32,
            };
            *cursor = Prefixes {
                at: value.at + (5 + hop) as u32,
                end: value.at + value.len,
                afi: family,
            };
            OK
        }
    }
}

/// Begins a cursor at the prefixes of MP_UNREACH_NLRI.
#[unsafe(no_mangle)]
pub extern "C" fn ristulva_unreached(octets: &[u8], value: &Span, cursor: &mut Prefixes) -> u32
    ensures ok { result ≡ OK → prefixes_left octets.now cursor.new ≡ unreach_prefixes (mp_unreach_of (octets_in value.now octets.now)) }
    ensures afi { result ≡ OK → cursor.new.afi ≡ afi_of (octets_in value.now octets.now) }
    ensures range { (result ≡ RANGE) ↔ (IsUnreach octets.now value.now → ⊥) }
    ensures kept { (result ≡ OK) ⊎ (cursor.new ≡ cursor.old) }
    ensures known { (result ≡ OK) ⊎ (result ≡ RANGE) }
{
    let Some(found) = value_of(octets, value) else {
        return RANGE;
    };
    match family_of(found) {
        None => RANGE,
        Some(family) => {
            *cursor = Prefixes {
                at: value.at + 3,
                end: value.at + value.len,
                afi: family,
            };
            OK
        }
    }
}
