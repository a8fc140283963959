//! The judgement of AS_PATH and AS4_PATH, and their values.

ghost use Rattle.std.specs.Prelude.{◌≡◌};
ghost use Rattle.bgp_attr.specs.declared.attr.Attr.{Attr};
ghost use Rattle.bgp_attr.specs.Prelude.{tlv_value, path_of, as_path_form, as4_path_of, decided, as_path_tests, as4_path_tests, as4_path_value, path_value, ruled};

use crate::class::Class;
use crate::first_kept::first_kept;
use crate::path_form::PathForm;
use crate::path_view::{As4PathView, PathView};
use crate::ruling::Ruling;
use crate::segment::why_malformed;
use crate::tlv::Tlv;
use crate::why::Why;
use bgp_open::Context;

/// The form of AS_PATH in a session.
fn as_path_form(ctx: &Context) -> PathForm
    ensures { result ≡ as_path_form ctx.now }
{
    PathForm {
        wide: ctx.as4,
        confederations: false,
    }
}

/// The form of AS4_PATH.
const AS4_PATH_FORM: PathForm = PathForm {
    wide: true,
    confederations: true,
};

/// AS_PATH (RFC 7606, section 7.2; RFC 7607, section 2).
#[tactic(auto, using(crate::proofs::TestRows::path_decided))]
#[inline(always)]
pub(crate) fn rule_as_path(ctx: &Context, tlv: &Tlv<'_>) -> Ruling
    ensures { (a : Attr) → ruled result tlv.now.whole.now a ≡ decided (as_path_tests ctx.now (tlv_value tlv.now)) a }
{
    if !tlv.flags.has_class(Class::WellKnown) {
        return Ruling::Withdraw(Why::Flags);
    }
    match why_malformed(as_path_form(ctx), tlv.value) {
        Some(why) => Ruling::Withdraw(why),
        None => Ruling::Keep,
    }
}

/// The AS_PATH of a value that is kept.
pub fn as_path_in<'a>(ctx: &Context, value: &'a [u8]) -> PathView<'a>
    ensures { path_value result ≡ path_of (as_path_form ctx.now) value.now }
{
    PathView::new(as_path_form(ctx), value)
}

/// AS4_PATH (RFC 6793, sections 3, 4.1 and 6; RFC 7607, section 2).
#[tactic(auto, using(crate::proofs::TestRows::path_decided))]
#[inline(always)]
pub(crate) fn rule_as4_path(ctx: &Context, tlv: &Tlv<'_>) -> Ruling
    ensures { (a : Attr) → ruled result tlv.now.whole.now a ≡ decided (as4_path_tests ctx.now (tlv_value tlv.now)) a }
{
    if ctx.as4 {
        return Ruling::Discard(Why::FourOctet);
    }
    if !tlv.flags.has_class(Class::OptionalTransitive) {
        return Ruling::Withdraw(Why::Flags);
    }
    if tlv.value.len() % 2 != 0 || tlv.value.len() < 6 {
        return Ruling::Discard(Why::Length);
    }
    if let Some(why) = why_malformed(AS4_PATH_FORM, tlv.value) {
        return Ruling::Discard(why);
    }
    if first_kept(AS4_PATH_FORM, tlv.value).is_none() {
        return Ruling::Discard(Why::Emptied);
    }
    Ruling::Keep
}

/// The AS4_PATH of an attribute that is kept.
pub fn as4_path_in<'a>(tlv: &Tlv<'a>) -> As4PathView<'a>
    ensures { as4_path_value result ≡ as4_path_of (tlv_value tlv.now) }
{
    As4PathView {
        partial: tlv.flags.is_partial(),
        path: PathView::new(AS4_PATH_FORM, tlv.value),
    }
}
