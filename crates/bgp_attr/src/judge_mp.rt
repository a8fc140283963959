//! The judgement of MP_REACH_NLRI and MP_UNREACH_NLRI, and their values.

ghost use Rattle.std.specs.Prelude.{◌≡◌, ◌==◌, ◌≤◌, ◌+◌, not, IsTrue, Some, None, length, take, drop, if◌then◌else◌};
ghost use Rattle.bgp_attr.specs.declared.attr.Attr.{Attr};
ghost use Rattle.bgp_attr.specs.Prelude.{tlv_value, IsReachable, family_of, is_in_use, address_width, is_next_hop_length, next_hop_length, reach_of_family, unreach_of_family, mp_reach_of, mp_unreach_of, decided, has_bad_prefix, mp_reach_tests, mp_unreach_tests, reach_value, unreach_value, ruled};

use crate::class::Class;
use crate::family::Family;
use crate::judge_fixed::address;
use crate::mp_view::{MpReachView, MpUnreachView};
use crate::ruling::Ruling;
use crate::tlv::Tlv;
use crate::why::Why;
use bgp_numbers::error::OPTIONAL_ATTRIBUTE;
use bgp_numbers::{afi, safi};
use bgp_open::Context;
use bgp_prefix::{PrefixIter4, PrefixIter6, check_run4, check_run6};

/// The family of routes, where it is known.
pub(crate) fn family_of(value: &[u8]) -> Option<Family>
    requires { 3 ≤ length value.now }
    ensures { result ≡ family_of value.now }
{
    if value[2] != safi::UNICAST {
        return None;
    }
    match u16::from_be_bytes([value[0], value[1]]) {
        afi::IPV4 => Some(Family::Ip4),
        afi::IPV6 => Some(Family::Ip6),
        _ => None,
    }
}

/// Whether both speakers offer a family.
pub(crate) fn is_in_use(ctx: &Context, family: Family) -> bool
    ensures { result ≡ is_in_use ctx.now (Some family) }
{
    match family {
        Family::Ip4 => ctx.ip4,
        Family::Ip6 => ctx.ip6,
    }
}

/// Whether a next hop of the family may have this length.
pub(crate) fn is_next_hop_length(family: Family, len: usize) -> bool
    ensures { result ≡ is_next_hop_length (Some family) len }
{
    match family {
        Family::Ip4 => len == 4,
        Family::Ip6 => len == 16 || len == 32,
    }
}

/// Whether octets are only prefixes of the family.
#[tactic(auto, using(crate::proofs::Runs::bad_prefix_by))]
pub(crate) fn is_run(family: Family, octets: &[u8]) -> bool
    ensures { not result ≡ has_bad_prefix (address_width (Some family)) octets.now }
{
    match family {
        Family::Ip4 => check_run4(octets),
        Family::Ip6 => check_run6(octets),
    }
}

/// The link-local address after a global one, where the next hop has both.
fn link_local(len: usize, hop: &[u8]) -> Option<[u8; 16]>
    requires { len ≤ length hop.now }
    ensures { result ≡ (if len == 32 then Some (take 16 (drop 16 hop.now)) else None) }
{
    if len != 32 {
        return None;
    }
    let (_, link) = hop.split_at(16);
    let addr = address::<16>(link);
    Some(addr)
}

/// The next hop and the routes, of a value without fault.
fn reach_of<'a>(family: Family, value: &'a [u8]) -> MpReachView<'a>
    requires long { 5 + next_hop_length value.now ≤ length value.now }
    requires hop { IsTrue (is_next_hop_length (Some family) (next_hop_length value.now)) }
    ensures { reach_value result ≡ reach_of_family (Some family) value.now }
{
    let len = usize::from(value[3]);
    let (_, hop) = value.split_at(4);
    let (_, routes) = value.split_at(5 + len);
    match family {
        Family::Ip4 => {
            let next_hop = address::<4>(hop);
            MpReachView::Ip4 {
                next_hop,
                nlri: PrefixIter4::new(routes),
            }
        }
        Family::Ip6 => {
            let next_hop = address::<16>(hop);
            let link_local = link_local(len, hop);
            MpReachView::Ip6 {
                next_hop,
                link_local,
                nlri: PrefixIter6::new(routes),
            }
        }
    }
}

/// MP_REACH_NLRI (RFC 7606, section 7.11; RFC 4760, section 7).
#[inline(always)]
pub(crate) fn rule_mp_reach(ctx: &Context, tlv: &Tlv<'_>) -> Ruling
    ensures { (a : Attr) → ruled result tlv.now.whole.now a ≡ decided (mp_reach_tests ctx.now (tlv_value tlv.now)) a }
{
    let value = tlv.value;
    if !tlv.flags.has_class(Class::OptionalNonTransitive) {
        return Ruling::Reset(OPTIONAL_ATTRIBUTE);
    }
    if value.len() < 5 {
        return Ruling::Reset(OPTIONAL_ATTRIBUTE);
    }
    let Some(family) = family_of(value) else {
        return Ruling::Discard(Why::Family);
    };
    if !is_in_use(ctx, family) {
        return Ruling::Discard(Why::Family);
    }
    let len = usize::from(value[3]);
    if !is_next_hop_length(family, len) {
        return Ruling::Reset(OPTIONAL_ATTRIBUTE);
    }
    if value.len() < 5 + len {
        return Ruling::Reset(OPTIONAL_ATTRIBUTE);
    }
    let (_, routes) = value.split_at(5 + len);
    if !is_run(family, routes) {
        return Ruling::Reset(OPTIONAL_ATTRIBUTE);
    }
    Ruling::Keep
}

/// The routes of an MP_REACH_NLRI that is kept.
pub fn reach_in(value: &[u8]) -> MpReachView<'_>
    requires { IsReachable value.now }
    ensures { reach_value result ≡ mp_reach_of value.now }
{
    match family_of(value) {
        Some(family) => reach_of(family, value),
        // Not of a value that is kept.
        None => reach_of(Family::Ip4, value),
    }
}

/// The routes, of a value without fault.
fn unreach_of<'a>(family: Family, value: &'a [u8]) -> MpUnreachView<'a>
    requires { 3 ≤ length value.now }
    ensures { unreach_value result ≡ unreach_of_family (Some family) value.now }
{
    let (_, routes) = value.split_at(3);
    match family {
        Family::Ip4 => MpUnreachView::Ip4(PrefixIter4::new(routes)),
        Family::Ip6 => MpUnreachView::Ip6(PrefixIter6::new(routes)),
    }
}

/// MP_UNREACH_NLRI (RFC 7606, section 7.12; RFC 4760, section 7).
#[inline(always)]
pub(crate) fn rule_mp_unreach(ctx: &Context, tlv: &Tlv<'_>) -> Ruling
    ensures { (a : Attr) → ruled result tlv.now.whole.now a ≡ decided (mp_unreach_tests ctx.now (tlv_value tlv.now)) a }
{
    let value = tlv.value;
    if !tlv.flags.has_class(Class::OptionalNonTransitive) {
        return Ruling::Reset(OPTIONAL_ATTRIBUTE);
    }
    if value.len() < 3 {
        return Ruling::Reset(OPTIONAL_ATTRIBUTE);
    }
    let Some(family) = family_of(value) else {
        return Ruling::Discard(Why::Family);
    };
    if !is_in_use(ctx, family) {
        return Ruling::Discard(Why::Family);
    }
    let (_, routes) = value.split_at(3);
    if !is_run(family, routes) {
        return Ruling::Reset(OPTIONAL_ATTRIBUTE);
    }
    Ruling::Keep
}

/// The routes of an MP_UNREACH_NLRI that is kept.
pub fn unreach_in(value: &[u8]) -> MpUnreachView<'_>
    requires { 3 ≤ length value.now }
    ensures { unreach_value result ≡ mp_unreach_of value.now }
{
    match family_of(value) {
        Some(family) => unreach_of(family, value),
        // Not of a value that is kept.
        None => unreach_of(Family::Ip4, value),
    }
}
