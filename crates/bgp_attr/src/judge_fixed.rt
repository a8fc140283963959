//! The judgement of attributes of a fixed length, and their values: ORIGIN, NEXT_HOP, MULTI_EXIT_DISC, LOCAL_PREF and ATOMIC_AGGREGATE.

ghost use Rattle.std.specs.Prelude.{◌≡◌, ◌≤◌, length, take};
ghost use Rattle.bgp_attr.specs.declared.attr.Attr.{Attr};
ghost use Rattle.bgp_attr.specs.Prelude.{tlv_value, origin_of, four_of, decided, origin_tests, next_hop_tests, four_tests, internal_tests, atomic_tests, ruled};

use crate::class::Class;
use crate::origin::Origin;
use crate::ruling::Ruling;
use crate::tlv::Tlv;
use crate::why::Why;
use bgp_open::Context;

/// The first octets, of the length of an address.
pub(crate) fn address<const N: usize>(octets: &[u8]) -> [u8; N]
    requires { N ≤ length octets.now }
    ensures { result ≡ take N octets.now }
{
    let mut addr = [0; N];
    addr.copy_from_slice(&octets[..N]);
    addr
}

/// ORIGIN (RFC 7606, section 7.1).
pub(crate) fn rule_origin(tlv: &Tlv<'_>) -> Ruling
    ensures { (a : Attr) → ruled result tlv.now.whole.now a ≡ decided (origin_tests (tlv_value tlv.now)) a }
{
    if !tlv.flags.has_class(Class::WellKnown) {
        return Ruling::Withdraw(Why::Flags);
    }
    if tlv.value.len() != 1 {
        return Ruling::Withdraw(Why::Length);
    }
    if tlv.value[0] > 2 {
        return Ruling::Withdraw(Why::Value);
    }
    Ruling::Keep
}

/// The ORIGIN of a value that is kept.
pub fn origin_in(value: &[u8]) -> Origin
    requires { length value.now ≡ 1 }
    ensures { result ≡ origin_of value.now }
{
    match value[0] {
        0 => Origin::Igp,
        1 => Origin::Egp,
        _ => Origin::Incomplete,
    }
}

/// NEXT_HOP (RFC 7606, section 7.3).
pub(crate) fn rule_next_hop(has_nlri: bool, tlv: &Tlv<'_>) -> Ruling
    ensures { (a : Attr) → ruled result tlv.now.whole.now a ≡ decided (next_hop_tests has_nlri (tlv_value tlv.now)) a }
{
    if !has_nlri {
        return Ruling::Discard(Why::Unneeded);
    }
    if !tlv.flags.has_class(Class::WellKnown) {
        return Ruling::Withdraw(Why::Flags);
    }
    if tlv.value.len() != 4 {
        return Ruling::Withdraw(Why::Length);
    }
    Ruling::Keep
}

/// The address of a NEXT_HOP that is kept.
pub fn next_hop_in(value: &[u8]) -> [u8; 4]
    requires { length value.now ≡ 4 }
    ensures { result ≡ value.now }
{
    address::<4>(value)
}

/// A number of four octets: the value of MULTI_EXIT_DISC and of LOCAL_PREF.
pub fn four_in(octets: &[u8]) -> u32
    requires { length octets.now ≡ 4 }
    ensures { result ≡ four_of octets.now }
{
    u32::from_be_bytes([octets[0], octets[1], octets[2], octets[3]])
}

/// An attribute that is a number of four octets, as MULTI_EXIT_DISC (RFC 7606, section 7.4).
#[inline(always)]
pub(crate) fn rule_four(class: Class, tlv: &Tlv<'_>) -> Ruling
    ensures { (a : Attr) → ruled result tlv.now.whole.now a ≡ decided (four_tests class (tlv_value tlv.now)) a }
{
    if !tlv.flags.has_class(class) {
        return Ruling::Withdraw(Why::Flags);
    }
    if tlv.value.len() != 4 {
        return Ruling::Withdraw(Why::Length);
    }
    Ruling::Keep
}

/// The same where it stays inside one AS, as LOCAL_PREF (RFC 7606, section 7.5).
#[inline(always)]
pub(crate) fn rule_internal(ctx: &Context, class: Class, tlv: &Tlv<'_>) -> Ruling
    ensures { (a : Attr) → ruled result tlv.now.whole.now a ≡ decided (internal_tests ctx.now class (tlv_value tlv.now)) a }
{
    if !ctx.internal {
        return Ruling::Discard(Why::External);
    }
    rule_four(class, tlv)
}

/// ATOMIC_AGGREGATE (RFC 7606, section 7.6).
pub(crate) fn rule_atomic(tlv: &Tlv<'_>) -> Ruling
    ensures { (a : Attr) → ruled result tlv.now.whole.now a ≡ decided (atomic_tests (tlv_value tlv.now)) a }
{
    if !tlv.flags.has_class(Class::WellKnown) {
        return Ruling::Withdraw(Why::Flags);
    }
    if !tlv.value.is_empty() {
        return Ruling::Discard(Why::Length);
    }
    Ruling::Keep
}
