//! Attributes that are repeated, or that are cut off.

ghost use Rattle.std.specs.Prelude.{◌≡◌, ◌<◌, ℕ, List, [], false, length};
ghost use Rattle.bgp_attr.specs.Prelude.{found_attr_value, keeps, ruled};
ghost use Rattle.bgp_attr.specs.declared.attr.Attr.{Attr};
ghost use Rattle.bgp_frame.specs.Prelude.{notification_of_view};
ghost use Rattle.bgp_update.specs.Prelude.{malformed, carries_routes, repeated, cut_kind, cut};

use bgp_attr::{FoundAttr, Ruling, Why, attribute_reset};
use bgp_frame::NotificationView;
use bgp_numbers::attribute::{MP_REACH_NLRI, MP_UNREACH_NLRI};
use bgp_numbers::error::{MALFORMED_ATTRIBUTE_LIST, UPDATE_MESSAGE};

/// A reset of code 3, subcode 1 (Malformed Attribute List), without data.
pub(crate) fn malformed() -> NotificationView<'static>
    ensures { notification_of_view result ≡ malformed }
{
    NotificationView {
        code: UPDATE_MESSAGE,
        subcode: MALFORMED_ATTRIBUTE_LIST,
        info: &[],
    }
}

/// Whether attributes of a type carry routes.
fn carries_routes(kind: u8) -> bool
    ensures { result ≡ carries_routes kind }
{
    kind == MP_REACH_NLRI || kind == MP_UNREACH_NLRI
}

/// The judgement of a second attribute of a type.
pub(crate) fn repeated(kind: u8) -> Ruling
    ensures value { (whole : List ℕ) (a : Attr) → ruled result whole a ≡ repeated kind }
    ensures refuses { keeps result ≡ false }
{
    if carries_routes(kind) {
        Ruling::Reset(MALFORMED_ATTRIBUTE_LIST)
    } else {
        Ruling::Discard(Why::Repeated)
    }
}

/// The type of an attribute that is cut off: 0 where it is cut off before that.
pub(crate) fn cut_kind(rest: &[u8]) -> u8
    ensures { result ≡ cut_kind rest.now }
{
    if rest.len() < 2 { 0 } else { rest[1] }
}

/// The judgement of an attribute that is cut off.
pub(crate) fn cut(rest: &[u8]) -> Ruling
    ensures value { (whole : List ℕ) (a : Attr) → ruled result whole a ≡ cut rest.now }
    ensures refuses { keeps result ≡ false }
{
    if rest.len() > 1 && carries_routes(cut_kind(rest)) {
        Ruling::Reset(MALFORMED_ATTRIBUTE_LIST)
    } else {
        Ruling::Withdraw(Why::Cut)
    }
}

/// The judgement of an attribute that isn't kept, and so has no value.
pub(crate) fn unkept<'a>(ruling: Ruling) -> FoundAttr<'a>
    requires { keeps ruling ≡ false }
    ensures { (a : Attr) → found_attr_value result ≡ ruled ruling [] a }
{
    match ruling {
        Ruling::Keep => unreachable!(),
        Ruling::Discard(why) => FoundAttr::Discard(why),
        Ruling::Withdraw(why) => FoundAttr::Withdraw(why),
        Ruling::Reset(subcode) => FoundAttr::Reset(attribute_reset(subcode, &[])),
    }
}
