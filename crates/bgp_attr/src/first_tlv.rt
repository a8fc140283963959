//! The first attribute of the input.

ghost use Rattle.std.specs.Prelude.{◌≡◌, ◌<◌, ◌≤◌, ◌∷◌, length, option_map, Some, None, IfSome};
ghost use Rattle.bgp_attr.specs.Prelude.{is_extended, one_tlv, tlvs_of, tlv_at, tlv_value, length_field};

use crate::flags::Flags;
use crate::tlv::Tlv;
use std::cmp::min;

/// The length field that begins with an octet, of two octets where the flags say so, else of one, and what follows it.
#[inline(always)]
fn length_behind(flags: Flags, first: u8, octets: &[u8]) -> Option<(usize, &[u8])>
    ensures { option_map (λ x. (x.0, x.1.now)) result ≡ length_field (is_extended flags.0) (first ∷ octets.now) }
{
    if !flags.is_extended() {
        return Some((usize::from(first), octets));
    }
    let [low, rest @ ..] = octets else {
        return None;
    };
    Some((usize::from(u16::from_be_bytes([first, *low])), rest))
}

/// The attribute at the front, and what follows it.
#[inline(always)]
pub(crate) fn first_tlv(at: usize, octets: &[u8]) -> Option<(Tlv<'_>, &[u8])>
    ensures found { option_map (λ x. (tlv_value x.0, x.1.now)) result ≡ one_tlv octets.now }
    ensures at { IfSome result (λ x. x.0.at ≡ at) }
{
    // An attribute has at least three octets: one test instead of one for each.
    let [flags, kind, first, rest @ ..] = octets else {
        return None;
    };
    let flags = Flags(*flags);
    let Some((len, rest)) = length_behind(flags, *first, rest) else {
        return None;
    };
    let Some((value, after)) = rest.split_at_checked(len) else {
        return None;
    };
    let (whole, _) = octets.split_at(octets.len() - after.len());
    let tlv = Tlv {
        at,
        flags,
        kind: *kind,
        whole,
        value,
    };
    Some((tlv, after))
}

/// The attribute at an offset of a field, where a whole one begins there.
#[inline(always)]
pub fn tlv_at(field: &[u8], at: usize) -> Option<Tlv<'_>>
    ensures { option_map tlv_value result ≡ tlv_at field.now at }
{
    let (_, octets) = field.split_at(min(at, field.len()));
    match first_tlv(at, octets) {
        Some((tlv, _)) => Some(tlv),
        None => None,
    }
}

/// What is left after the attributes that octets begin with.
pub(crate) fn skip_tlvs(octets: &[u8]) -> &[u8]
    ensures { result.now ≡ (tlvs_of octets.now).1 }
{
    let mut rest = octets;
    'field: while let Some((_, after)) = first_tlv(0, rest) {
        rest = after;
    }
    rest
}
