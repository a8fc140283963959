//! The judgement of COMMUNITIES, LARGE_COMMUNITY and of types that aren't recognised, and their values.

ghost use Rattle.std.specs.Prelude.{◌≡◌, ◌≤◌, length};
ghost use Rattle.bgp_attr.specs.declared.attr.Attr.{Attr};
ghost use Rattle.bgp_attr.specs.Prelude.{tlv_value, communities_of, large_of, opaque_of, decided, communities_tests, large_tests, other_tests, opaque_value, communities_value, large_value, ruled};

use crate::class::Class;
use crate::communities_view::{CommunitiesView, LargeView};
use crate::large_iter::LargeCommIter;
use crate::numbers::CommIter;
use crate::opaque::OpaqueView;
use crate::ruling::Ruling;
use crate::tlv::Tlv;
use crate::why::Why;
use bgp_numbers::error::UNRECOGNIZED_WELL_KNOWN;

/// COMMUNITIES (RFC 7606, section 7.8).
pub(crate) fn rule_communities(tlv: &Tlv<'_>) -> Ruling
    ensures { (a : Attr) → ruled result tlv.now.whole.now a ≡ decided (communities_tests (tlv_value tlv.now)) a }
{
    if !tlv.flags.has_class(Class::OptionalTransitive) {
        return Ruling::Withdraw(Why::Flags);
    }
    if tlv.value.is_empty() || tlv.value.len() % 4 != 0 {
        return Ruling::Withdraw(Why::Length);
    }
    Ruling::Keep
}

/// The COMMUNITIES of an attribute that is kept.
pub fn communities_in<'a>(tlv: &Tlv<'a>) -> CommunitiesView<'a>
    ensures { communities_value result ≡ communities_of (tlv_value tlv.now) }
{
    CommunitiesView {
        partial: tlv.flags.is_partial(),
        values: CommIter::new(tlv.value),
    }
}

/// LARGE_COMMUNITY (RFC 8092, section 6).
pub(crate) fn rule_large(tlv: &Tlv<'_>) -> Ruling
    ensures { (a : Attr) → ruled result tlv.now.whole.now a ≡ decided (large_tests (tlv_value tlv.now)) a }
{
    if !tlv.flags.has_class(Class::OptionalTransitive) {
        return Ruling::Withdraw(Why::Flags);
    }
    if tlv.value.is_empty() || tlv.value.len() % 12 != 0 {
        return Ruling::Withdraw(Why::Length);
    }
    Ruling::Keep
}

/// The LARGE_COMMUNITY of an attribute that is kept.
pub fn large_in<'a>(tlv: &Tlv<'a>) -> LargeView<'a>
    ensures { large_value result ≡ large_of (tlv_value tlv.now) }
{
    LargeView {
        partial: tlv.flags.is_partial(),
        values: LargeCommIter::new(tlv.value),
    }
}

/// The judgement of an attribute of a type that isn't recognised, the first of its type (RFC 4271, section 6.3).
pub fn rule_other(tlv: &Tlv<'_>) -> Ruling
    ensures { (a : Attr) → ruled result tlv.now.whole.now a ≡ decided (other_tests (tlv_value tlv.now)) a }
{
    if !tlv.flags.is_optional() {
        return Ruling::Reset(UNRECOGNIZED_WELL_KNOWN);
    }
    Ruling::Keep
}

/// The value of an attribute of a type that isn't recognised, which is kept.
pub fn opaque_in<'a>(tlv: &Tlv<'a>) -> OpaqueView<'a>
    ensures { opaque_value result ≡ opaque_of (tlv_value tlv.now) }
{
    OpaqueView {
        kind: tlv.kind,
        transitive: tlv.flags.is_transitive(),
        partial: tlv.flags.is_partial(),
        value: tlv.value,
    }
}
