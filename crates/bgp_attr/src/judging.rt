//! The judgement of one attribute, and its value where it is kept.

ghost use Rattle.std.specs.Prelude.{◌≡◌, ◌≤◌, true, false, length, IfOk, MatchOption, OnErr, IsTrue};
ghost use Rattle.bgp_attr.specs.Prelude.{attr_value, is_recognised, judgement, decided, type_row, tlv_value, found_attr_value, judged_value, is_kept, is_out_of_place, keeps, ref_value, ruled};
ghost use Rattle.bgp_attr.specs.declared.attr.Attr.{Attr};

use crate::attr::{AttrRef, AttrView};
use crate::class::Class;
use crate::found_attr::FoundAttr;
use crate::judge_aggregator::{aggregator_in, rule_aggregator, rule_as4_aggregator};
use crate::judge_communities::{
    communities_in, large_in, opaque_in, rule_communities, rule_large, rule_other,
};
use crate::judge_fixed::{
    four_in, next_hop_in, origin_in, rule_atomic, rule_four, rule_internal, rule_next_hop,
    rule_origin,
};
use crate::judge_mp::{reach_in, rule_mp_reach, rule_mp_unreach, unreach_in};
use crate::judge_path::{as_path_in, as4_path_in, rule_as_path, rule_as4_path};
use crate::judged::Judged;
use crate::judged_view::JudgedView;
use crate::mp::{MpReach, MpUnreach};
use crate::ruling::{Ruling, attribute_reset};
use crate::tlv::Tlv;
use bgp_numbers::attribute;
use bgp_open::Context;
use std::alloc::{AllocError, Global};

/// Judges the first attribute of its type in a message as [`rule`] does, or returns None where the type isn't recognised: one `match` does both.
#[inline(always)]
pub fn rule_recognised(ctx: &Context, has_nlri: bool, tlv: &Tlv<'_>) -> Option<Ruling>
    ensures { MatchOption result (is_recognised tlv.now.kind ≡ false)
        (λ r. (is_recognised tlv.now.kind ≡ true) × ((a : Attr) → ruled r tlv.now.whole.now a ≡ decided (type_row ctx.now has_nlri (tlv_value tlv.now)).tests a)) }
{
    match tlv.kind {
        attribute::ORIGIN => Some(rule_origin(tlv)),
        attribute::AS_PATH => Some(rule_as_path(ctx, tlv)),
        attribute::NEXT_HOP => Some(rule_next_hop(has_nlri, tlv)),
        attribute::MULTI_EXIT_DISC => Some(rule_four(Class::OptionalNonTransitive, tlv)),
        attribute::LOCAL_PREF => Some(rule_internal(ctx, Class::WellKnown, tlv)),
        attribute::ATOMIC_AGGREGATE => Some(rule_atomic(tlv)),
        attribute::AGGREGATOR => Some(rule_aggregator(ctx, tlv)),
        attribute::COMMUNITIES => Some(rule_communities(tlv)),
        attribute::MP_REACH_NLRI => Some(rule_mp_reach(ctx, tlv)),
        attribute::MP_UNREACH_NLRI => Some(rule_mp_unreach(ctx, tlv)),
        attribute::AS4_PATH => Some(rule_as4_path(ctx, tlv)),
        attribute::AS4_AGGREGATOR => Some(rule_as4_aggregator(ctx, tlv)),
        attribute::LARGE_COMMUNITY => Some(rule_large(tlv)),
        _ => None,
    }
}

/// Judges the first attribute of its type in a message, apart from its value, without memory: by the first test of its type that applies
/// (RFC 4271, section 6.3; RFC 7606, sections 3 to 7; RFC 7607). The attribute has at most 4075 octets, as each in a message.
///
/// `has_nlri` says that the NLRI field of the message isn't empty.
#[inline(always)]
pub fn rule(ctx: &Context, has_nlri: bool, tlv: &Tlv<'_>) -> Ruling
    ensures { (a : Attr) → ruled result tlv.now.whole.now a ≡ decided (type_row ctx.now has_nlri (tlv_value tlv.now)).tests a }
{
    match rule_recognised(ctx, has_nlri, tlv) {
        Some(ruling) => ruling,
        None => rule_other(tlv),
    }
}

/// The value of an attribute of a type that is kept in a context. `has_nlri` is that of its judgement. A `kind` known at the call lets the
/// compiler drop the other arms.
#[tactic(auto, unfolding(crate::specs::Judgement::type_row))]
#[inline(always)]
pub fn kept_attr<'a>(ctx: &Context, has_nlri: bool, kind: u8, tlv: &Tlv<'a>) -> AttrView<'a>
    requires kind { tlv.now.kind ≡ kind }
    requires kept { IsTrue (is_kept (judgement ctx.now has_nlri (tlv_value tlv.now))) }
    ensures { attr_value result ≡ (type_row ctx.now has_nlri (tlv_value tlv.now)).value }
{
    match kind {
        attribute::ORIGIN => AttrView::Origin(origin_in(tlv.value)),
        attribute::AS_PATH => AttrView::AsPath(as_path_in(ctx, tlv.value)),
        attribute::NEXT_HOP => AttrView::NextHop(next_hop_in(tlv.value)),
        attribute::MULTI_EXIT_DISC => AttrView::Med(four_in(tlv.value)),
        attribute::LOCAL_PREF => AttrView::LocalPref(four_in(tlv.value)),
        attribute::ATOMIC_AGGREGATE => AttrView::Atomic,
        attribute::AGGREGATOR => AttrView::Aggregator(aggregator_in(ctx.as4, tlv)),
        attribute::COMMUNITIES => AttrView::Communities(communities_in(tlv)),
        attribute::MP_REACH_NLRI => AttrView::MpReach(reach_in(tlv.value)),
        attribute::MP_UNREACH_NLRI => AttrView::MpUnreach(unreach_in(tlv.value)),
        attribute::AS4_PATH => AttrView::As4Path(as4_path_in(tlv)),
        attribute::AS4_AGGREGATOR => AttrView::As4Aggregator(aggregator_in(true, tlv)),
        attribute::LARGE_COMMUNITY => AttrView::Large(large_in(tlv)),
        _ => AttrView::Opaque(opaque_in(tlv)),
    }
}

/// A ruling on an attribute, with its value where it is kept: [`rule`] must keep it then.
#[inline(always)]
pub fn with_value<'a>(ctx: &Context, has_nlri: bool, tlv: &Tlv<'a>, ruling: Ruling) -> FoundAttr<'a>
    requires short { length tlv.now.whole.now ≤ 4075 }
    requires kept { keeps ruling ≡ true → IsTrue (is_kept (judgement ctx.now has_nlri (tlv_value tlv.now))) }
    ensures { found_attr_value result ≡ ruled ruling tlv.now.whole.now (type_row ctx.now has_nlri (tlv_value tlv.now)).value }
{
    match ruling {
        Ruling::Keep => FoundAttr::Keep(kept_attr(ctx, has_nlri, tlv.kind, tlv)),
        Ruling::Discard(why) => FoundAttr::Discard(why),
        Ruling::Withdraw(why) => FoundAttr::Withdraw(why),
        Ruling::Reset(subcode) => FoundAttr::Reset(attribute_reset(subcode, tlv.whole)),
    }
}

/// The judgement of the first attribute of its type in a message, as by [`rule`], with its value where it is kept.
pub fn judge_attribute<'a>(ctx: &Context, has_nlri: bool, tlv: &Tlv<'a>) -> FoundAttr<'a>
    requires { length tlv.now.whole.now ≤ 4075 }
    ensures { found_attr_value result ≡ judgement ctx.now has_nlri (tlv_value tlv.now) }
{
    with_value(ctx, has_nlri, tlv, rule(ctx, has_nlri, tlv))
}

/// The judgement of the first attribute of its type in a message, as by [`judge_attribute`], with a NOTIFICATION of its own.
pub fn judge_view<'a>(ctx: &Context, has_nlri: bool, tlv: &Tlv<'a>) -> JudgedView<'a>
    requires { length tlv.now.whole.now ≤ 4075 }
    ensures { judged_value result ≡ judgement ctx.now has_nlri (tlv_value tlv.now) }
{
    judge_attribute(ctx, has_nlri, tlv).into_view()
}

/// The judgement of the first attribute of its type in a message, as by [`judge_view`].
///
/// # Errors
/// `AllocError` where an allocation failed: only where the attribute is kept.
pub fn judge(
    alloc: Global,
    ctx: &Context,
    has_nlri: bool,
    tlv: &Tlv<'_>,
) -> Result<Judged, AllocError>
    requires { length tlv.now.whole.now ≤ 4075 }
    ensures value { IfOk result (λ j. j ≡ judgement ctx.now has_nlri (tlv_value tlv.now)) }
    ensures err { OnErr result (IsTrue (is_kept (judgement ctx.now has_nlri (tlv_value tlv.now)))) }
{
    judge_view(ctx, has_nlri, tlv).own(alloc)
}

/// Whether a type is recognised.
pub fn is_recognised(kind: u8) -> bool
    ensures { result ≡ is_recognised kind }
{
    match kind {
        attribute::ORIGIN => true,
        attribute::AS_PATH => true,
        attribute::NEXT_HOP => true,
        attribute::MULTI_EXIT_DISC => true,
        attribute::LOCAL_PREF => true,
        attribute::ATOMIC_AGGREGATE => true,
        attribute::AGGREGATOR => true,
        attribute::COMMUNITIES => true,
        attribute::MP_REACH_NLRI => true,
        attribute::MP_UNREACH_NLRI => true,
        attribute::AS4_PATH => true,
        attribute::AS4_AGGREGATOR => true,
        attribute::LARGE_COMMUNITY => true,
        _ => false,
    }
}

/// Whether the session has no use for the attribute, as for routes of an address family that isn't in use (RFC 4760, section 8).
pub fn is_out_of_place(ctx: &Context, attr: AttrRef<'_>) -> bool
    ensures { result ≡ is_out_of_place ctx.now (ref_value attr.entry) }
{
    match attr {
        AttrRef::MpReach(MpReach::Ip4 { .. }) => !ctx.ip4,
        AttrRef::MpReach(MpReach::Ip6 { .. }) => !ctx.ip6,
        AttrRef::MpUnreach(MpUnreach::Ip4(_)) => !ctx.ip4,
        AttrRef::MpUnreach(MpUnreach::Ip6(_)) => !ctx.ip6,
        _ => false,
    }
}
