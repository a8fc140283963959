//! Which test of MP_REACH_NLRI or MP_UNREACH_NLRI decides.

ghost use Rattle.std.specs.Prelude.{◌≡◌};
ghost use Rattle.bgp_attr.specs.Prelude.{deciding, deciding_test, mp_reach_tests, mp_unreach_tests, reach_names, tlv_value, unreach_names};

use crate::class::Class;
use crate::family::Family;
use crate::judge_mp::{family_of, is_in_use, is_next_hop_length, is_run};
use crate::tlv::Tlv;
use bgp_numbers::attribute;
use bgp_open::Context;

/// A test of MP_REACH_NLRI or MP_UNREACH_NLRI. `Family` discards the attribute; all others end the session by a NOTIFICATION of 3/9.
#[derive(Clone, Copy, Debug, PartialEq, Eq)]
pub enum MpTest {
    /// The Optional or the Transitive bit isn't that of the type (RFC 4760, sections 3 and 4).
    Flags,
    /// The value is too short for a family and, of MP_REACH_NLRI, a next hop (RFC 7606, section 5.3).
    Length,
    /// The family isn't in use on the session (RFC 4760, section 8).
    Family,
    /// The length of the next hop isn't one of its family, or goes past the end (RFC 7606, section 7.11).
    NextHop,
    /// A prefix is too long, or goes past the end (RFC 7606, section 5.3).
    Prefixes,
}

/// The test of MP_REACH_NLRI that decides, where one does.
fn reach_test(ctx: &Context, tlv: &Tlv<'_>) -> Option<MpTest>
    ensures { result ≡ deciding (mp_reach_tests ctx.now (tlv_value tlv.now)) reach_names }
{
    let value = tlv.value;
    if !tlv.flags.has_class(Class::OptionalNonTransitive) {
        return Some(MpTest::Flags);
    }
    if value.len() < 5 {
        return Some(MpTest::Length);
    }
    let Some(family) = family_of(value) else {
        return Some(MpTest::Family);
    };
    if !is_in_use(ctx, family) {
        return Some(MpTest::Family);
    }
    let len = usize::from(value[3]);
    if !is_next_hop_length(family, len) || value.len() < 5 + len {
        return Some(MpTest::NextHop);
    }
    let (_, routes) = value.split_at(5 + len);
    if is_run(family, routes) {
        None
    } else {
        Some(MpTest::Prefixes)
    }
}

/// The test of MP_UNREACH_NLRI that decides, where one does.
fn unreach_test(ctx: &Context, tlv: &Tlv<'_>) -> Option<MpTest>
    ensures { result ≡ deciding (mp_unreach_tests ctx.now (tlv_value tlv.now)) unreach_names }
{
    let value = tlv.value;
    if !tlv.flags.has_class(Class::OptionalNonTransitive) {
        return Some(MpTest::Flags);
    }
    if value.len() < 3 {
        return Some(MpTest::Length);
    }
    let Some(family) = family_of(value) else {
        return Some(MpTest::Family);
    };
    if !is_in_use(ctx, family) {
        return Some(MpTest::Family);
    }
    let (_, routes) = value.split_at(3);
    if is_run(family, routes) {
        None
    } else {
        Some(MpTest::Prefixes)
    }
}

/// The test that decides the judgement of the first MP_REACH_NLRI or MP_UNREACH_NLRI of a message ([`rule`](crate::rule)): none if it is kept,
/// or of another type.
pub fn deciding_test(ctx: &Context, tlv: &Tlv<'_>) -> Option<MpTest>
    ensures { result ≡ deciding_test ctx.now (tlv_value tlv.now) }
{
    match tlv.kind {
        attribute::MP_REACH_NLRI => reach_test(ctx, tlv),
        attribute::MP_UNREACH_NLRI => unreach_test(ctx, tlv),
        _ => None,
    }
}
